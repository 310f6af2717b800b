//! What waits for a macro.
ghost use Rattle.std.specs.Prelude.{◌≡◌, [], ◌∷◌, ◌++◌, IfOk, OnOk, option_map};
ghost use Rattle.hir_collector_rules.specs.Calls.{call_kind, call_style, has_expansion, is_builtin_for, is_call, path_of_call, style_of, suits, waiting_item};

use crate::inner_paths::InnerPaths;
use crate::shared_tree::SharedTree;
use crate::site::Site;
use hir_base::ast_id::{AstId, AttrId};
use hir_base::ids::AdtId;
use hir_base::macro_kind::{
    CallStyle, MacroCallKind, MacroCallStyles, MacroExpander, MacroId, macro_styles_from_id,
};
use hir_base::mod_path::ModPath;
use hir_base::resolve_mode::MacroSubNs;
use hir_item_tree::rows::ModItemId;
use std::alloc::{AllocError, Global};
use std::marker::Model;

/// An item that waits for the macro of one of its attributes.
#[derive(Drop)]
pub struct WaitingItem {
    /// What writes the item; it is shared.
    pub source: SharedTree,
    /// The item's number there.
    pub id: ModItemId,
    /// How many of its attributes are done with once that one is passed over.
    pub done: usize,
}

/// How a macro is named.
#[derive(Drop)]
pub enum MacroDirectiveKind {
    /// By the path of a call.
    FnLike {
        path: ModPath,
    },
    /// By a path of a `derive` attribute, and by its place among those.
    Derive {
        path: ModPath,
        attr: AttrId,
        index: u32,
        adt: AdtId,
    },
    /// By the path of an attribute; its item waits.
    Attr {
        path: ModPath,
        attr: AttrId,
        item: WaitingItem,
    },
}

/// A macro call, a path of a `derive` or an attribute that was come upon. After rust-analyzer's `MacroDirective`.
#[derive(Drop)]
pub struct MacroDirective {
    /// Where it is written.
    pub site: Site,
    /// The call, or the item that has the attribute.
    pub ast_id: AstId,
    pub kind: MacroDirectiveKind,
}

/// An eager macro that a call reached, and the paths that it asks to have resolved before the call is expanded.
#[derive(Drop)]
pub struct EagerMacro {
    pub makro: MacroId,
    pub inner: InnerPaths,
}

/// The eager macros that a call reached while a path that they ask for first reached nothing, in order.
#[derive(Drop)]
pub struct EagerMacros {
    seen: Vec<EagerMacro>,
}

impl Model for EagerMacros {
    ghost use Rattle.std.specs.Prelude.{List};
    ghost use Rattle.hir_collector_rules.specs.declared.macro_directive.EagerMacro.{EagerMacro};

    ghost Value = { List EagerMacro };

    ghost view = { λ e. e.seen.items };
}

impl EagerMacros {
    /// None.
    pub fn new(alloc: Global) -> EagerMacros
        ensures value { result ≡ [] }
    {
        EagerMacros {
            seen: Vec::new(alloc),
        }
    }

    /// One more.
    pub fn add(&mut self, makro: EagerMacro) -> Result<(), AllocError>
        ensures ok { OnOk result (self.new ≡ self.old ++ makro ∷ []) }
    {
        self.seen.push(makro)?;
        Ok(())
    }

    /// All of them.
    pub fn as_slice(&self) -> &[EagerMacro]
        ensures value { result.now ≡ self.now }
    {
        self.seen.as_slice()
    }
}

/// What became of what waits for a macro.
#[derive(Clone, Copy, Debug, PartialEq, Eq)]
pub enum Fate {
    /// It was neither expanded nor dropped.
    Waits,
    /// It was expanded, dropped or passed over.
    Handled,
    /// It is an attribute that reached no macro when nothing else did, and was given up.
    GivenUp,
}

impl WaitingItem {
    /// The same item again; the tree is shared.
    pub fn clone(&self) -> Result<WaitingItem, AllocError>
        ensures value { IfOk result (λ item. item ≡ self.now) }
    {
        Ok(WaitingItem {
            source: self.source.clone()?,
            id: self.id,
            done: self.done,
        })
    }
}

impl MacroDirectiveKind {
    /// The same again.
    fn clone(&self) -> Result<MacroDirectiveKind, AllocError>
        ensures value { IfOk result (λ kind. kind ≡ self.now) }
    {
        match self {
            MacroDirectiveKind::FnLike { path } => Ok(MacroDirectiveKind::FnLike {
                path: path.clone()?,
            }),
            MacroDirectiveKind::Derive {
                path,
                attr,
                index,
                adt,
            } => Ok(MacroDirectiveKind::Derive {
                path: path.clone()?,
                attr: *attr,
                index: *index,
                adt: *adt,
            }),
            MacroDirectiveKind::Attr { path, attr, item } => Ok(MacroDirectiveKind::Attr {
                path: path.clone()?,
                attr: *attr,
                item: item.clone()?,
            }),
        }
    }
}

impl MacroDirective {
    /// The path that names the macro.
    pub fn path(&self) -> &ModPath
        ensures value { result.now ≡ path_of_call self.now }
    {
        match &self.kind {
            MacroDirectiveKind::FnLike { path } => path,
            MacroDirectiveKind::Derive { path, .. } => path,
            MacroDirectiveKind::Attr { path, .. } => path,
        }
    }

    /// What the call is.
    pub fn call_kind(&self) -> MacroCallKind
        ensures value { result ≡ call_kind self.now }
    {
        match &self.kind {
            MacroDirectiveKind::FnLike { .. } => MacroCallKind::FnLike { ast: self.ast_id },
            MacroDirectiveKind::Derive { attr, index, .. } => MacroCallKind::Derive {
                ast: self.ast_id,
                attr: *attr,
                index: *index,
            },
            MacroDirectiveKind::Attr { attr, .. } => MacroCallKind::Attr {
                ast: self.ast_id,
                attr: *attr,
            },
        }
    }

    /// How its expansion is asked for.
    pub fn call_style(&self) -> CallStyle
        ensures value { result ≡ call_style self.now }
    {
        match &self.kind {
            MacroDirectiveKind::FnLike { .. } => CallStyle::Bang,
            MacroDirectiveKind::Derive { .. } => CallStyle::Derive,
            MacroDirectiveKind::Attr { attr, .. } => CallStyle::Attribute(*attr),
        }
    }

    /// How its path asks for a macro.
    pub fn sub_ns(&self) -> MacroSubNs
        ensures value { result ≡ style_of self.now.kind }
    {
        match &self.kind {
            MacroDirectiveKind::FnLike { .. } => MacroSubNs::Bang,
            MacroDirectiveKind::Derive { .. } | MacroDirectiveKind::Attr { .. } => MacroSubNs::Attr,
        }
    }

    /// Whether a macro that its path reaches will do.
    pub fn suits(&self, makro: MacroId) -> bool
        ensures value { result ≡ suits self.now.kind makro }
    {
        match &self.kind {
            MacroDirectiveKind::Derive { .. } => {
                macro_styles_from_id(makro).contains(MacroCallStyles::DERIVE)
            }
            MacroDirectiveKind::FnLike { .. } | MacroDirectiveKind::Attr { .. } => true,
        }
    }

    /// Whether it is a call.
    pub fn is_call(&self) -> bool
        ensures value { result ≡ is_call self.now }
    {
        match &self.kind {
            MacroDirectiveKind::FnLike { .. } => true,
            MacroDirectiveKind::Derive { .. } | MacroDirectiveKind::Attr { .. } => false,
        }
    }

    /// Whether a macro with this expander is builtin, and has no expansion.
    fn is_builtin_for(&self, expander: MacroExpander) -> bool
        ensures value { result ≡ is_builtin_for self.now.kind expander }
    {
        match (&self.kind, expander) {
            (MacroDirectiveKind::Derive { .. }, MacroExpander::BuiltinDerive) => true,
            (MacroDirectiveKind::Attr { .. }, MacroExpander::BuiltinAttr) => true,
            _ => false,
        }
    }

    /// Whether a macro that it reaches has an expansion.
    pub fn has_expansion(&self, makro: MacroId) -> bool
        ensures value { result ≡ has_expansion self.now makro }
    {
        match makro {
            MacroId::Macro2Id(id) => !self.is_builtin_for(id.loc.expander),
            MacroId::MacroRulesId(id) => !self.is_builtin_for(id.loc.expander),
            MacroId::ProcMacroId(_) => true,
        }
    }

    /// The item that waits for it, if one does.
    pub fn waiting_item(&self) -> Option<&WaitingItem>
        ensures value { option_map (λ k. k.now) result ≡ waiting_item self.now }
    {
        match &self.kind {
            MacroDirectiveKind::Attr { item, .. } => Some(item),
            MacroDirectiveKind::FnLike { .. } | MacroDirectiveKind::Derive { .. } => None,
        }
    }

    /// The same call again.
    pub fn clone(&self) -> Result<MacroDirective, AllocError>
        ensures value { IfOk result (λ d. d ≡ self.now) }
    {
        Ok(MacroDirective {
            site: self.site.clone()?,
            ast_id: self.ast_id,
            kind: self.kind.clone()?,
        })
    }
}
