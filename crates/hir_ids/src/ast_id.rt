//! Nodes of handed-in syntax, and the files in which they are written.

use crate::edition::Edition;

/// A file, by its number in the table of file paths.
#[derive(Clone, Copy, Debug, PartialEq, Eq, PartialOrd, Ord, Hash)]
pub struct FileId(pub u32);

/// A file as it is read in an edition.
#[derive(Clone, Copy, Debug, PartialEq, Eq, PartialOrd, Ord, Hash)]
pub struct EditionedFileId {
    pub file_id: FileId,
    pub edition: Edition,
}

/// A macro call, by its number in the table of calls.
#[derive(Clone, Copy, Debug, PartialEq, Eq, PartialOrd, Ord, Hash)]
pub struct MacroCallId(pub u32);

/// An expansion, by its number in the table of expansions. Calls that expand alike share it.
#[derive(Clone, Copy, Debug, PartialEq, Eq, PartialOrd, Ord, Hash)]
pub struct EntryId(pub u32);

/// A block expression, by its number in the table of blocks.
#[derive(Clone, Copy, Debug, PartialEq, Eq, PartialOrd, Ord, Hash)]
pub struct BlockId(pub u32);

/// What holds syntax: a file, or what a macro call expands to.
#[derive(Clone, Copy, Debug, PartialEq, Eq, PartialOrd, Ord, Hash)]
pub enum HirFileId {
    File(EditionedFileId),
    Macro(MacroCallId),
}

/// An attribute of a node, by its number in preorder in the list that was handed in; what a `cfg_attr` holds
/// is counted too.
#[derive(Clone, Copy, Debug, PartialEq, Eq, PartialOrd, Ord, Hash)]
pub struct AttrId(pub u32);

/// The kind of a node.
#[derive(Clone, Copy, Debug, PartialEq, Eq, PartialOrd, Ord, Hash)]
pub enum AstKind {
    Use,
    ExternCrate,
    ExternBlock,
    Fn,
    Struct,
    Union,
    Enum,
    Variant,
    Const,
    Static,
    Trait,
    Impl,
    TypeAlias,
    Module,
    MacroCall,
    MacroRules,
    MacroDef,
}

/// A node among those of its kind in one file, as the caller numbers them.
#[derive(Clone, Copy, Debug, PartialEq, Eq, PartialOrd, Ord, Hash)]
pub struct SyntaxId {
    pub hash: u16,
    pub index: u16,
}

/// A node of a file.
#[derive(Clone, Copy, Debug, PartialEq, Eq, PartialOrd, Ord, Hash)]
pub struct AstId {
    pub file_id: HirFileId,
    /// The block whose tree keeps the node, if any; the nodes of each block are numbered by themselves.
    pub block: Option<BlockId>,
    pub kind: AstKind,
    pub id: SyntaxId,
}

/// A value with the file that it belongs to.
#[derive(Clone, Copy, Debug, PartialEq, Eq, PartialOrd, Ord, Hash)]
pub struct InFile<T> {
    pub file_id: HirFileId,
    pub value: T,
}
