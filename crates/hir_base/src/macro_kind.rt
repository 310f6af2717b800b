//! Macros, with their calls.

use crate::ast_id::{AstId, AttrId, EntryId};
use crate::ids::Crate;
use crate::text::Text;
pub use hir_ids::macro_kind::{
    BuiltinDeriveImplId, Macro2Id, MacroCallStyles, MacroExpander, MacroId, MacroLoc, MacroRulesId,
    ProcMacroId, ProcMacroLoc, ProcMacroStyle, macro_styles_from_id,
};

/// Where a macro is called: by a call, by a path of a `derive` attribute, or by an attribute.
#[derive(Clone, Copy, Debug, PartialEq, Eq, PartialOrd, Ord, Hash)]
pub enum MacroCallKind {
    FnLike {
        ast: AstId,
    },
    /// The item, the attribute, and the number of the path in it.
    Derive {
        ast: AstId,
        attr: AttrId,
        index: u32,
    },
    Attr {
        ast: AstId,
        attr: AttrId,
    },
}

/// A macro call, and the expansion that it gets. It is the value of a `MacroCallId`.
#[derive(Clone, Copy, Debug, PartialEq, Eq, PartialOrd, Ord, Hash)]
pub struct MacroCallLoc {
    pub kind: MacroCallKind,
    pub entry: EntryId,
}

/// How a macro is called, as far as its expansion may depend on it.
#[derive(Clone, Copy, Debug, PartialEq, Eq, PartialOrd, Ord, Hash)]
pub enum CallStyle {
    Bang,
    Derive,
    /// The attribute, by its number among those of the item.
    Attribute(AttrId),
}

/// The text of a macro of a crate.
#[derive(Debug, Drop, PartialEq, Eq, PartialOrd, Ord, Hash)]
pub struct MacroText {
    pub krate: Crate,
    pub text: Text,
}

/// What an expansion depends on: the crate that calls, the macro that it calls, how, and on which input; of an eager
/// call also the macros that its input reaches. It is the value of an `EntryId`.
#[derive(Debug, Drop, PartialEq, Eq, PartialOrd, Ord, Hash)]
pub struct ExpansionKey {
    pub caller: Crate,
    // Before the text of the macro, which many calls share: inputs tell most keys apart within a few bytes.
    pub input: Text,
    pub call: CallStyle,
    pub called: MacroText,
    pub reached: Vec<MacroText>,
}
