//! Where modules are written.
ghost use Rattle.std.specs.Prelude.{◌≡◌};
ghost use Rattle.hir_map_parts.specs.Origins.{declaration_of, file_of, is_in_place, node_of, source_of};

use hir_base::ast_id::{AstId, BlockId, EditionedFileId, HirFileId, InFile, SyntaxId};
use hir_base::tree_id::TreeId;

/// Where a module is written, after rust-analyzer's `ModuleOrigin`.
#[derive(Clone, Copy, Debug, PartialEq, Eq, Hash)]
pub enum ModuleOrigin {
    /// The file of a crate's root.
    CrateRoot {
        definition: EditionedFileId,
    },
    /// A `mod` item with its contents in a file of their own.
    File {
        /// Whether the file is named after the module's folder.
        is_mod_rs: bool,
        declaration: AstId,
        declaration_tree_id: TreeId,
        definition: EditionedFileId,
    },
    /// A `mod` item with its contents beside it.
    Inline {
        definition_tree_id: TreeId,
        definition: AstId,
    },
    /// A block, by its number and where it is written.
    BlockExpr {
        id: BlockId,
        block: InFile<SyntaxId>,
    },
}

/// What a module's contents are written in: a whole file, a `mod` item, or a block.
#[derive(Clone, Copy, Debug, PartialEq, Eq, Hash)]
pub enum ModuleSource {
    SourceFile(EditionedFileId),
    Module(AstId),
    BlockExpr(SyntaxId),
}

impl ModuleSource {
    /// The number of the item or of the block among those of its kind; a whole file has none.
    pub fn node(&self) -> Option<SyntaxId>
        ensures value { result ≡ node_of self.now }
    {
        match self {
            ModuleSource::SourceFile(_) => None,
            ModuleSource::Module(item) => Some(item.id),
            ModuleSource::BlockExpr(block) => Some(*block),
        }
    }
}

impl ModuleOrigin {
    /// The `mod` item that declares the module.
    pub fn declaration(&self) -> Option<AstId>
        ensures value { result ≡ declaration_of self.now }
    {
        match self {
            ModuleOrigin::File { declaration, .. } => Some(*declaration),
            ModuleOrigin::Inline { definition, .. } => Some(*definition),
            ModuleOrigin::CrateRoot { .. } | ModuleOrigin::BlockExpr { .. } => None,
        }
    }

    /// The file that the module has to itself.
    pub fn file_id(&self) -> Option<EditionedFileId>
        ensures value { result ≡ file_of self.now }
    {
        match self {
            ModuleOrigin::CrateRoot { definition } | ModuleOrigin::File { definition, .. } => {
                Some(*definition)
            }
            ModuleOrigin::Inline { .. } | ModuleOrigin::BlockExpr { .. } => None,
        }
    }

    /// Whether the module is written inside another one.
    pub fn is_inline(&self) -> bool
        ensures value { result ≡ is_in_place self.now }
    {
        match self {
            ModuleOrigin::CrateRoot { .. } | ModuleOrigin::File { .. } => false,
            ModuleOrigin::Inline { .. } | ModuleOrigin::BlockExpr { .. } => true,
        }
    }

    /// What the contents are written in, and the file of that.
    pub fn definition_source(&self) -> InFile<ModuleSource>
        ensures value { result ≡ source_of self.now }
    {
        match self {
            ModuleOrigin::CrateRoot { definition } | ModuleOrigin::File { definition, .. } => {
                InFile {
                    file_id: HirFileId::File(*definition),
                    value: ModuleSource::SourceFile(*definition),
                }
            }
            ModuleOrigin::Inline {
                definition_tree_id,
                definition,
            } => InFile {
                file_id: definition_tree_id.file_id(),
                value: ModuleSource::Module(*definition),
            },
            ModuleOrigin::BlockExpr { block, .. } => InFile {
                file_id: block.file_id,
                value: ModuleSource::BlockExpr(block.value),
            },
        }
    }
}
