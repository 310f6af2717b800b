//! Macros: how they may be called, and their ids.
ghost use Rattle.std.specs.Prelude.{◌≡◌};
ghost use Rattle.hir_ids.specs.Ids.{adt_module, macro_module};
ghost use Rattle.hir_ids.specs.MacroKind.{every_style, contains_styles, styles_of_expander, styles_of_kind, styles_of};

use crate::ast_id::{AttrId, BlockId, HirFileId, SyntaxId};
use crate::ids::{AdtId, HasModule, Lookup, ModuleId};

/// The styles in which a macro may be called.
#[derive(Clone, Copy, Debug, PartialEq, Eq, PartialOrd, Ord, Hash)]
pub struct MacroCallStyles {
    pub fn_like: bool,
    pub attr: bool,
    pub derive: bool,
}

impl MacroCallStyles {
    pub const FN_LIKE: MacroCallStyles = MacroCallStyles {
        fn_like: true,
        attr: false,
        derive: false,
    };

    pub const ATTR: MacroCallStyles = MacroCallStyles {
        fn_like: false,
        attr: true,
        derive: false,
    };

    pub const DERIVE: MacroCallStyles = MacroCallStyles {
        fn_like: false,
        attr: false,
        derive: true,
    };

    /// All styles.
    pub fn all() -> MacroCallStyles
        ensures value { result ≡ every_style }
    {
        MacroCallStyles {
            fn_like: true,
            attr: true,
            derive: true,
        }
    }

    /// Whether each style of `other` is among these.
    pub fn contains(self, other: MacroCallStyles) -> bool
        ensures value { result ≡ contains_styles self other }
    {
        (!other.fn_like || self.fn_like)
            && (!other.attr || self.attr)
            && (!other.derive || self.derive)
    }
}

/// What expands a macro.
#[derive(Clone, Copy, Debug, PartialEq, Eq, PartialOrd, Ord, Hash)]
pub enum MacroExpander {
    Declarative(MacroCallStyles),
    Builtin,
    BuiltinEager,
    BuiltinAttr,
    BuiltinDerive,
    Unimplemented,
}

impl MacroExpander {
    /// The styles in which the macro may be called.
    pub fn styles(self) -> MacroCallStyles
        ensures value { result ≡ styles_of_expander self }
    {
        match self {
            MacroExpander::Declarative(styles) => styles,
            MacroExpander::Builtin | MacroExpander::BuiltinEager => MacroCallStyles::FN_LIKE,
            MacroExpander::BuiltinAttr => MacroCallStyles::ATTR,
            MacroExpander::BuiltinDerive => MacroCallStyles::DERIVE,
            MacroExpander::Unimplemented => MacroCallStyles::all(),
        }
    }
}

/// The one style of a procedural macro.
#[derive(Clone, Copy, Debug, PartialEq, Eq, PartialOrd, Ord, Hash)]
pub enum ProcMacroStyle {
    FnLike,
    Attr,
    Derive,
}

impl ProcMacroStyle {
    /// The set of this style.
    pub fn styles(self) -> MacroCallStyles
        ensures value { result ≡ styles_of_kind self }
    {
        match self {
            ProcMacroStyle::FnLike => MacroCallStyles::FN_LIKE,
            ProcMacroStyle::Attr => MacroCallStyles::ATTR,
            ProcMacroStyle::Derive => MacroCallStyles::DERIVE,
        }
    }
}

/// The location of a macro that is no procedural one, and what expands it.
#[derive(Clone, Copy, Debug, PartialEq, Eq, PartialOrd, Ord, Hash)]
pub struct MacroLoc {
    pub container: ModuleId,
    pub file_id: HirFileId,
    /// The block whose tree keeps the item, if any.
    pub block: Option<BlockId>,
    pub id: SyntaxId,
    pub expander: MacroExpander,
}

impl HasModule for MacroLoc {
    ghost module_of = { λ loc. loc.container };

    fn module(self) -> ModuleId {
        self.container
    }
}

/// The location of a procedural macro's function, and the macro's style.
#[derive(Clone, Copy, Debug, PartialEq, Eq, PartialOrd, Ord, Hash)]
pub struct ProcMacroLoc {
    pub container: ModuleId,
    pub file_id: HirFileId,
    /// The block whose tree keeps the function, if any.
    pub block: Option<BlockId>,
    pub id: SyntaxId,
    pub style: ProcMacroStyle,
}

impl HasModule for ProcMacroLoc {
    ghost module_of = { λ loc. loc.container };

    fn module(self) -> ModuleId {
        self.container
    }
}

/// A `macro_rules!` macro.
#[derive(Clone, Copy, Debug, PartialEq, Eq, PartialOrd, Ord, Hash)]
pub struct MacroRulesId {
    pub loc: MacroLoc,
}

impl Lookup for MacroRulesId {
    type Loc = MacroLoc;

    ghost loc_of = { λ id. id.loc };

    fn lookup(self) -> MacroLoc {
        self.loc
    }
}

/// A `macro` item.
#[derive(Clone, Copy, Debug, PartialEq, Eq, PartialOrd, Ord, Hash)]
pub struct Macro2Id {
    pub loc: MacroLoc,
}

impl Lookup for Macro2Id {
    type Loc = MacroLoc;

    ghost loc_of = { λ id. id.loc };

    fn lookup(self) -> MacroLoc {
        self.loc
    }
}

/// A procedural macro, by its function.
#[derive(Clone, Copy, Debug, PartialEq, Eq, PartialOrd, Ord, Hash)]
pub struct ProcMacroId {
    pub loc: ProcMacroLoc,
}

impl Lookup for ProcMacroId {
    type Loc = ProcMacroLoc;

    ghost loc_of = { λ id. id.loc };

    fn lookup(self) -> ProcMacroLoc {
        self.loc
    }
}

/// A macro.
#[derive(Clone, Copy, Debug, PartialEq, Eq, PartialOrd, Ord, Hash)]
pub enum MacroId {
    Macro2Id(Macro2Id),
    MacroRulesId(MacroRulesId),
    ProcMacroId(ProcMacroId),
}

impl HasModule for MacroId {
    ghost module_of = { macro_module };

    fn module(self) -> ModuleId {
        match self {
            MacroId::Macro2Id(id) => id.loc.container,
            MacroId::MacroRulesId(id) => id.loc.container,
            MacroId::ProcMacroId(id) => id.loc.container,
        }
    }
}

/// The impl that a builtin derive macro stands for: which type it is on, which macro it is, and where the `derive`
/// names it.
#[derive(Clone, Copy, Debug, PartialEq, Eq, PartialOrd, Ord, Hash)]
pub struct BuiltinDeriveImplId {
    pub adt: AdtId,
    pub derive: MacroId,
    pub derive_attr_id: AttrId,
    pub derive_index: u32,
}

impl BuiltinDeriveImplId {
    /// The impl's location, which its id is.
    pub fn lookup(self) -> BuiltinDeriveImplId
        ensures value { result ≡ self }
    {
        self
    }
}

impl HasModule for BuiltinDeriveImplId {
    ghost module_of = { λ id. adt_module id.adt };

    fn module(self) -> ModuleId {
        self.adt.module()
    }
}

/// The styles in which a macro may be called: those of its expander, of a procedural macro its one style.
pub fn macro_styles_from_id(id: MacroId) -> MacroCallStyles
    ensures value { result ≡ styles_of id }
{
    match id {
        MacroId::Macro2Id(id) => id.loc.expander.styles(),
        MacroId::MacroRulesId(id) => id.loc.expander.styles(),
        MacroId::ProcMacroId(id) => id.loc.style.styles(),
    }
}
