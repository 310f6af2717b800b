//! Following imports to what they reach in the end, after rust-analyzer's `fully_resolve_import`.
ghost use Rattle.std.specs.Prelude.{◌≡◌, ◌≤◌, Option};
ghost use Rattle.hir_scope.specs.ImportChains.{record_of, chain_end, public_item, macro_of, reached_at_last};

use crate::imports::{ImportId, ImportOrDef, ImportOrExternCrate, ImportOrGlob};
use crate::item_scope::ItemScope;
use crate::per_ns::{Item, Namespace, PerNs};
use crate::scopes::Scopes;
use crate::visibility::Visibility;
use hir_ids::ids::ModuleDefId;
use hir_ids::macro_kind::MacroId;

/// How many records of a chain are read at most.
pub const MAX_RECORDS: u32 = 4096;

impl ItemScope {
    /// What an import of this scope reaches in the end, by namespace: the definition to which the records of imports lead
    /// through other modules' scopes. There is none where a record is of a glob or an extern crate, or more than
    /// `MAX_RECORDS` records would have to be read.
    pub fn fully_resolve_import<S: Scopes>(&self, scopes: &S, import: ImportId) -> PerNs
        ensures value { result ≡ reached_at_last (S.scope_of scopes.now) self.now import }
    {
        PerNs {
            types: public_item(chain_end(scopes, Namespace::Types, self, import)),
            values: public_item(chain_end(scopes, Namespace::Values, self, import)),
            macros: public_item(macro_of(chain_end(scopes, Namespace::Macros, self, import))),
        }
    }

    /// What an import reached in a namespace.
    fn record_of(&self, namespace: Namespace, import: ImportId) -> Option<ImportOrDef>
        ensures value { result ≡ record_of namespace self.now import }
    {
        match namespace {
            Namespace::Types => {
                let key = ImportOrExternCrate::Import(import);
                self.type_records.get(&key).copied()
            }
            Namespace::Values => {
                let key = ImportOrGlob::Import(import);
                self.value_records.get(&key).copied()
            }
            Namespace::Macros => {
                let key = ImportOrExternCrate::Import(import);
                self.macro_records.get(&key).copied()
            }
        }
    }
}

/// The definition at the end of a chain of records, which begins at an import of a scope.
#[tactic(auto, using(crate::proofs::ImportChainLemmas::chains))]
fn chain_end<S: Scopes>(
    scopes: &S,
    namespace: Namespace,
    first: &ItemScope,
    import: ImportId,
) -> Option<ModuleDefId>
    ensures value { result ≡ chain_end (S.scope_of scopes.now) namespace 4096 first.now import }
{
    let mut scope = first;
    let mut import = import;
    let mut left = MAX_RECORDS;
    'chain: while left > 0 {
        left -= 1;
        match scope.record_of(namespace, import) {
            Some(ImportOrDef::Import(next)) => {
                let Some(holder) = scopes.scope(next.use_.loc.container) else {
                    return None;
                };
                scope = holder;
                import = next;
            }
            Some(ImportOrDef::Def(def)) => return Some(def),
            _ => return None,
        }
    }
    None
}

fn public_item<Def, Import>(def: Option<Def>) -> Option<Item<Def, Import>>
    ensures value { result ≡ public_item def }
{
    match def {
        Some(def) => Some(Item {
            def,
            vis: Visibility::Public,
            import: None,
        }),
        None => None,
    }
}

fn macro_of(def: Option<ModuleDefId>) -> Option<MacroId>
    ensures value { result ≡ macro_of def }
{
    match def {
        Some(ModuleDefId::MacroId(id)) => Some(id),
        _ => None,
    }
}
