//! What couldn't be resolved or read, after rust-analyzer's `nameres/diagnostics.rs`.
ghost use Rattle.std.specs.Prelude.{◌≡◌, ◌++◌, ◌∷◌, [], map, IfOk, OnOk, OnErr};
ghost use Rattle.std.specs.Slice.Iter.{iter_rest};
ghost use Rattle.hir_map_parts.specs.Diagnostics.{diagnostic_view, kind_view, node_of};
ghost use Rattle.hir_map_parts.specs.declared.diagnostics.DefDiagnosticKind.TheVariants as kinds;

use hir_base::ast_id::{AstId, AstKind, AttrId};
use hir_base::cfg::CfgExpr;
use hir_base::cfg_options::CfgOptions;
use hir_base::ids::{ModuleId, UseId};
pub use hir_base::macro_kind::MacroCallKind;
use hir_base::mod_path::ModPath;
use hir_base::text::Text;
use std::alloc::{AllocError, Global};
use std::marker::Model;

#[derive(Drop, PartialEq, Eq)]
pub enum DefDiagnosticKind {
    /// A `mod` item, and the files that were looked for.
    UnresolvedModule {
        ast: AstId,
        candidates: Vec<Text>,
    },
    UnresolvedExternCrate {
        ast: AstId,
    },
    /// A `use` item, and the number of the import in it.
    UnresolvedImport {
        id: UseId,
        index: u32,
    },
    /// An item that a condition leaves out: the first one that doesn't hold, and the options of the crate.
    UnconfiguredCode {
        ast_id: AstId,
        cfg: CfgExpr,
        opts: CfgOptions,
    },
    UnresolvedMacroCall {
        ast: MacroCallKind,
        path: ModPath,
    },
    UnimplementedBuiltinMacro {
        ast: AstId,
    },
    /// A `derive` on an item that is no struct, enum or union.
    InvalidDeriveTarget {
        ast: AstId,
        id: AttrId,
    },
    /// A `derive` without paths.
    MalformedDerive {
        ast: AstId,
        id: AttrId,
    },
    MacroDefError {
        ast: AstId,
        message: Text,
    },
    /// A call whose macro is known and which didn't expand.
    MacroError {
        ast: AstId,
        path: ModPath,
        err: Text,
    },
}

/// A copy of texts; their bytes are shared.
fn copied_texts(alloc: Global, texts: &[Text]) -> Result<Vec<Text>, AllocError>
    ensures value { IfOk result (λ copy. copy.items ≡ texts.now) }
{
    let mut copy = Vec::new(alloc);
    for text in texts {
        copy.push(text.clone()?)?;
    }
    Ok(copy)
}

impl DefDiagnosticKind {
    /// The same; no text is copied.
    pub fn clone(&self, alloc: Global) -> Result<DefDiagnosticKind, AllocError>
        ensures value { IfOk result (λ kind. kind_view kind ≡ kind_view self.now) }
    {
        match self {
            DefDiagnosticKind::UnresolvedModule { ast, candidates } => {
                Ok(DefDiagnosticKind::UnresolvedModule {
                    ast: *ast,
                    candidates: copied_texts(alloc, candidates.as_slice())?,
                })
            }
            DefDiagnosticKind::UnresolvedExternCrate { ast } => {
                Ok(DefDiagnosticKind::UnresolvedExternCrate { ast: *ast })
            }
            DefDiagnosticKind::UnresolvedImport { id, index } => {
                Ok(DefDiagnosticKind::UnresolvedImport {
                    id: *id,
                    index: *index,
                })
            }
            DefDiagnosticKind::UnconfiguredCode { ast_id, cfg, opts } => {
                Ok(DefDiagnosticKind::UnconfiguredCode {
                    ast_id: *ast_id,
                    cfg: cfg.clone(alloc)?,
                    opts: opts.clone()?,
                })
            }
            DefDiagnosticKind::UnresolvedMacroCall { ast, path } => {
                Ok(DefDiagnosticKind::UnresolvedMacroCall {
                    ast: *ast,
                    path: path.clone()?,
                })
            }
            DefDiagnosticKind::UnimplementedBuiltinMacro { ast } => {
                Ok(DefDiagnosticKind::UnimplementedBuiltinMacro { ast: *ast })
            }
            DefDiagnosticKind::InvalidDeriveTarget { ast, id } => {
                Ok(DefDiagnosticKind::InvalidDeriveTarget { ast: *ast, id: *id })
            }
            DefDiagnosticKind::MalformedDerive { ast, id } => {
                Ok(DefDiagnosticKind::MalformedDerive { ast: *ast, id: *id })
            }
            DefDiagnosticKind::MacroDefError { ast, message } => {
                Ok(DefDiagnosticKind::MacroDefError {
                    ast: *ast,
                    message: message.clone()?,
                })
            }
            DefDiagnosticKind::MacroError { ast, path, err } => Ok(DefDiagnosticKind::MacroError {
                ast: *ast,
                path: path.clone()?,
                err: err.clone()?,
            }),
        }
    }

    /// The node that it is about: the item, or the macro call.
    pub fn ast_id(&self) -> AstId
        ensures value { result ≡ node_of (kind_view self.now) }
    {
        match self {
            DefDiagnosticKind::UnresolvedModule { ast, .. } => *ast,
            DefDiagnosticKind::UnresolvedExternCrate { ast } => *ast,
            DefDiagnosticKind::UnresolvedImport { id, .. } => AstId {
                file_id: id.loc.file_id,
                block: id.loc.block,
                kind: AstKind::Use,
                id: id.loc.id,
            },
            DefDiagnosticKind::UnconfiguredCode { ast_id, .. } => *ast_id,
            DefDiagnosticKind::UnresolvedMacroCall { ast, .. } => match *ast {
                MacroCallKind::FnLike { ast } => ast,
                MacroCallKind::Derive { ast, .. } => ast,
                MacroCallKind::Attr { ast, .. } => ast,
            },
            DefDiagnosticKind::UnimplementedBuiltinMacro { ast } => *ast,
            DefDiagnosticKind::InvalidDeriveTarget { ast, .. } => *ast,
            DefDiagnosticKind::MalformedDerive { ast, .. } => *ast,
            DefDiagnosticKind::MacroDefError { ast, .. } => *ast,
            DefDiagnosticKind::MacroError { ast, .. } => *ast,
        }
    }
}

/// What went wrong, and the module in which it did.
#[derive(Drop, PartialEq, Eq)]
pub struct DefDiagnostic {
    pub in_module: ModuleId,
    pub kind: DefDiagnosticKind,
}

impl DefDiagnostic {
    /// The same; no text is copied.
    pub fn clone(&self, alloc: Global) -> Result<DefDiagnostic, AllocError>
        ensures value { IfOk result (λ d. diagnostic_view d ≡ diagnostic_view self.now) }
    {
        Ok(DefDiagnostic {
            in_module: self.in_module,
            kind: self.kind.clone(alloc)?,
        })
    }

    pub fn unresolved_module(
        container: ModuleId,
        declaration: AstId,
        candidates: Vec<Text>,
    ) -> DefDiagnostic
        ensures value { result ≡ record { in_module = container; kind = kinds.UnresolvedModule declaration candidates } }
    {
        DefDiagnostic {
            in_module: container,
            kind: DefDiagnosticKind::UnresolvedModule {
                ast: declaration,
                candidates,
            },
        }
    }

    pub fn unresolved_extern_crate(container: ModuleId, declaration: AstId) -> DefDiagnostic
        ensures value { result ≡ record { in_module = container; kind = kinds.UnresolvedExternCrate declaration } }
    {
        DefDiagnostic {
            in_module: container,
            kind: DefDiagnosticKind::UnresolvedExternCrate { ast: declaration },
        }
    }

    pub fn unresolved_import(container: ModuleId, id: UseId, index: u32) -> DefDiagnostic
        ensures value { result ≡ record { in_module = container; kind = kinds.UnresolvedImport id index } }
    {
        DefDiagnostic {
            in_module: container,
            kind: DefDiagnosticKind::UnresolvedImport { id, index },
        }
    }

    pub fn unconfigured_code(
        container: ModuleId,
        ast_id: AstId,
        cfg: CfgExpr,
        opts: CfgOptions,
    ) -> DefDiagnostic
        ensures value { result ≡ record { in_module = container; kind = kinds.UnconfiguredCode ast_id cfg opts } }
    {
        DefDiagnostic {
            in_module: container,
            kind: DefDiagnosticKind::UnconfiguredCode { ast_id, cfg, opts },
        }
    }

    pub fn unresolved_macro_call(
        container: ModuleId,
        ast: MacroCallKind,
        path: ModPath,
    ) -> DefDiagnostic
        ensures value { result ≡ record { in_module = container; kind = kinds.UnresolvedMacroCall ast path } }
    {
        DefDiagnostic {
            in_module: container,
            kind: DefDiagnosticKind::UnresolvedMacroCall { ast, path },
        }
    }

    pub fn unimplemented_builtin_macro(container: ModuleId, ast: AstId) -> DefDiagnostic
        ensures value { result ≡ record { in_module = container; kind = kinds.UnimplementedBuiltinMacro ast } }
    {
        DefDiagnostic {
            in_module: container,
            kind: DefDiagnosticKind::UnimplementedBuiltinMacro { ast },
        }
    }

    pub fn invalid_derive_target(container: ModuleId, ast: AstId, id: AttrId) -> DefDiagnostic
        ensures value { result ≡ record { in_module = container; kind = kinds.InvalidDeriveTarget ast id } }
    {
        DefDiagnostic {
            in_module: container,
            kind: DefDiagnosticKind::InvalidDeriveTarget { ast, id },
        }
    }

    pub fn malformed_derive(container: ModuleId, ast: AstId, id: AttrId) -> DefDiagnostic
        ensures value { result ≡ record { in_module = container; kind = kinds.MalformedDerive ast id } }
    {
        DefDiagnostic {
            in_module: container,
            kind: DefDiagnosticKind::MalformedDerive { ast, id },
        }
    }

    pub fn macro_error(container: ModuleId, ast: AstId, path: ModPath, err: Text) -> DefDiagnostic
        ensures value { result ≡ record { in_module = container; kind = kinds.MacroError ast path err } }
    {
        DefDiagnostic {
            in_module: container,
            kind: DefDiagnosticKind::MacroError { ast, path, err },
        }
    }
}

/// What went wrong in a map, in the order in which it was met.
#[derive(Drop)]
pub struct DefDiagnostics {
    diagnostics: Vec<DefDiagnostic>,
}

impl Model for DefDiagnostics {
    ghost use Rattle.std.specs.Prelude.{List};
    ghost use Rattle.hir_map_parts.specs.Inner.Codes.{coded_diagnostics};
    ghost use Rattle.hir_map_parts.specs.declared.diagnostics.DefDiagnostic.{DefDiagnostic};

    ghost Value = { List DefDiagnostic };

    ghost coded = { coded_diagnostics };

    ghost view = { λ d. d.diagnostics.items };
}

impl DefDiagnostics {
    pub fn new(diagnostics: Vec<DefDiagnostic>) -> DefDiagnostics
        ensures value { result ≡ diagnostics.items }
    {
        DefDiagnostics { diagnostics }
    }

    /// The same; no text is copied.
    pub fn clone(&self, alloc: Global) -> Result<DefDiagnostics, AllocError>
        ensures value { IfOk result (λ copy. map diagnostic_view copy ≡ map diagnostic_view self.now) }
    {
        Ok(DefDiagnostics {
            diagnostics: copied(alloc, self.diagnostics.as_slice())?,
        })
    }

    pub fn iter(&self) -> std::slice::Iter<'_, DefDiagnostic>
        ensures value { iter_rest result ≡ self.now }
    {
        self.diagnostics.iter()
    }

    pub fn as_slice(&self) -> &[DefDiagnostic]
        ensures value { result.now ≡ self.now }
    {
        self.diagnostics.as_slice()
    }

    /// Adds one behind the others.
    pub fn push(&mut self, diagnostic: DefDiagnostic) -> Result<(), AllocError>
        ensures ok { OnOk result (self.new ≡ self.old ++ diagnostic ∷ []) }
        ensures err { OnErr result (self.new ≡ self.old) }
    {
        self.diagnostics.push(diagnostic)?;
        Ok(())
    }
}

fn copied(alloc: Global, diagnostics: &[DefDiagnostic]) -> Result<Vec<DefDiagnostic>, AllocError>
    ensures value { IfOk result (λ copy. map diagnostic_view copy.items ≡ map diagnostic_view diagnostics.now) }
{
    let mut copy = Vec::new(alloc);
    for diagnostic in diagnostics {
        copy.push(diagnostic.clone(alloc)?)?;
    }
    Ok(copy)
}

impl PartialEq for DefDiagnostics {
    ghost use Rattle.std.specs.Cmp.{partial_equiv_from_equiv};
    ghost use Rattle.hir_map_parts.specs.Inner.MacroEquality.{same_diagnostics, same_diagnostics_equiv};

    ghost eq = { same_diagnostics };

    ghost laws = { partial_equiv_from_equiv same_diagnostics_equiv };

    fn eq(&self, other: &DefDiagnostics) -> bool {
        self.diagnostics == other.diagnostics
    }
}

impl Eq for DefDiagnostics {
    ghost use Rattle.hir_map_parts.specs.Inner.MacroEquality.{same_diagnostics_equiv};

    ghost laws = { same_diagnostics_equiv };
}
