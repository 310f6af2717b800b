//! Names, paths and ids: the plain values that every layer speaks of.
#![tactic(auto)]

pub use hir_ids::{ast_id, builtin_type, edition, explicitness, ids, laws, name, text};

pub mod cfg;
pub mod cfg_options;
pub mod display;
pub mod file_path;
pub mod limit;
pub mod locations;
pub mod macro_kind;
pub mod mod_path;
mod parse_path;
mod pieces;
pub mod place;
pub mod resolve_mode;
pub mod shape;
pub mod tree_id;

pub use ast_id::{
    AstId, AstKind, AttrId, BlockId, EditionedFileId, EntryId, FileId, HirFileId, InFile,
    MacroCallId, SyntaxId,
};
pub use builtin_type::{BuiltinFloat, BuiltinInt, BuiltinType, BuiltinUint, all_builtin_types};
pub use cfg::{CfgAtom, CfgExpr};
pub use cfg_options::CfgOptions;
pub use file_path::FilePath;
pub use ids::{
    AdtId, AssocItemId, ConstId, Crate, EnumId, EnumVariantId, ExternBlockId, ExternCrateId,
    FunctionId, HasModule, ImplId, ItemContainerId, ItemLoc, Lookup, MapId, ModuleDefId, ModuleId,
    StaticId, StructId, TraitId, TypeAliasId, UnionId, UseId,
};
pub use locations::{Locations, LocationsError};
pub use macro_kind::{
    BuiltinDeriveImplId, CallStyle, ExpansionKey, Macro2Id, MacroCallKind, MacroCallLoc,
    MacroCallStyles, MacroExpander, MacroId, MacroLoc, MacroRulesId, MacroText, ProcMacroId,
    ProcMacroLoc, ProcMacroStyle, macro_styles_from_id,
};
pub use mod_path::{ModPath, ParseError, PathKind};
pub use name::{Name, NameError};
pub use place::{BlockPlace, Place, PlaceElement};
pub use resolve_mode::{BuiltinShadowMode, MacroSubNs};
pub use shape::{ExternCrateName, FieldsShape};
pub use text::Text;
pub use tree_id::{TreeId, TreeKey};
