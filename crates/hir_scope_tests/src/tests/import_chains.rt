//! Chains of import records.
ghost use Rattle.std.specs.Prelude.{slice_get};

use super::{a_type, import, module, push, structure};
use hir_base::ids::ModuleId;
use hir_scope::glob_imports::PerNsGlobImports;
use hir_scope::imports::ImportOrExternCrate;
use hir_scope::item_scope::ItemScope;
use hir_scope::per_ns::PerNs;
use hir_scope::scopes::Scopes;
use hir_scope::visibility::Visibility;
use std::alloc::Global;
use std::process::Abort;
use std::test::Fail;

/// The scopes of the modules of a map, by number.
#[derive(Drop)]
struct Numbered {
    scopes: Vec<ItemScope>,
}

impl Scopes for Numbered {
    ghost scope_of = { λ n of. slice_get n.scopes.items of.index };

    fn scope(&self, of: ModuleId) -> Option<&ItemScope> {
        self.scopes.get(of.index as usize)
    }
}

/// A scope that imports `A` from the next module, or in the last module stands for the struct.
fn linked(
    alloc: Global,
    scope: &mut ItemScope,
    globs: &mut PerNsGlobImports,
    at: u32,
    records: u32,
) -> Result<(), Fail> {
    let source = match at.checked_add(1) {
        Some(next) if next < records => Some(ImportOrExternCrate::Import(import(next, 0))),
        _ => None,
    };
    let items = PerNs::types(structure(1), Visibility::Public, source);
    let by = Some(ImportOrExternCrate::Import(import(at, 0)));
    push(alloc, scope, globs, items, by)?;
    Ok(())
}

/// Adds the scope of one more module.
fn add_scope(
    alloc: Global,
    scopes: &mut Vec<ItemScope>,
    globs: &mut PerNsGlobImports,
    at: u32,
    records: u32,
) -> Result<(), Fail> {
    scopes.push(ItemScope::new(alloc))?;
    let scope = scopes.last_mut().ok_or("no scope")?;
    linked(alloc, scope, globs, at, records)
}

fn add_scopes(
    alloc: Global,
    scopes: &mut Vec<ItemScope>,
    globs: &mut PerNsGlobImports,
    records: u32,
) -> Result<(), Fail> {
    for at in 0..records {
        add_scope(alloc, scopes, globs, at, records)?;
    }
    Ok(())
}

/// Modules of which each imports `A` from the next, and the last the struct.
fn chain(alloc: Global, records: u32) -> Result<Numbered, Fail> {
    let mut scopes = Vec::new(alloc);
    let mut globs = PerNsGlobImports::new(alloc);
    add_scopes(alloc, &mut scopes, &mut globs, records)?;
    Ok(Numbered { scopes })
}

fn followed(modules: &Numbered) -> Option<PerNs> {
    match modules.scope(module(0)) {
        Some(first) => Some(first.fully_resolve_import(modules, import(0, 0))),
        None => None,
    }
}

/// Asserts what the first of so many records leads to.
fn follow(rt: &impl Abort, alloc: Global, records: u32, reached: PerNs) -> Result<(), Fail> {
    let modules = chain(alloc, records)?;
    assert!(rt; followed(&modules) == Some(reached));
    Ok(())
}

/// A chain of records is followed to its end, unless it is too long.
#[test]
fn long_import_records_end(rt: HostRuntime) -> Result<(), Fail> {
    let alloc = rt.alloc();
    follow(&rt, alloc, 1, a_type(1))?;
    follow(&rt, alloc, 4095, a_type(1))?;
    follow(&rt, alloc, 4096, a_type(1))?;
    follow(&rt, alloc, 4097, PerNs::none())?;
    follow(&rt, alloc, 5000, PerNs::none())
}
