//! Of which crates a run asks what they were handed in with.
use super::Runs;
use hir_base::ast_id::HirFileId;
use hir_base::ids::Crate;
use hir_base::name::Name;
use hir_collector_fixtures::crates::{
    Collect, Crates, config, crate_at, crates_over, files_of, files_of_both, root,
};
use hir_def_collector::collector::Start;
use hir_def_collector::collector::collected::Collected;
use hir_def_collector::source_database::{Dependency, Key};
use hir_def_map::world::World;
use hir_item_tree::tree_id::TreeId;
use std::alloc::{AllocError, Global};
use std::fmt::Write;
use std::process::Abort;
use std::test::Fail;

const EMPTY: &str = r#"{"do":"set file","file":"a.rs","unit":{"nodes":[]}}"#;

/// The one crate on which each depends, if it depends on one.
const NAMED: [Option<u32>; 4] = [None, Some(0), None, Some(1)];

/// A crate, and the crates of which its run asks what they were handed in with.
const ROWS: [(&str, u32, &str); 4] = [
    ("crate_without_dependencies_asks_for_itself", 0, "0 "),
    ("direct_dependency_is_asked_for", 1, "1 0 "),
    ("no_other_crate_is_asked_for", 2, "2 "),
    ("transitive_dependencies_are_asked_for", 3, "3 0 1 "),
];

fn dependencies_on(alloc: Global, number: Option<u32>) -> Result<Vec<Dependency>, Fail> {
    let mut dependencies = Vec::new(alloc);
    if let Some(number) = number {
        dependencies.push(Dependency {
            krate: Crate(number),
            name: Name::new(alloc, "low")?,
            is_prelude: false,
        })?;
    }
    Ok(dependencies)
}

/// Crates that name each other so, all with one root file.
fn four_crates(alloc: Global) -> Result<Crates, Fail> {
    let mut crates = Vec::new(alloc);
    let mut configs = Vec::new(alloc);
    for number in &NAMED {
        crates.push(crate_at(alloc, "a.rs")?)?;
        configs.push(config(alloc, dependencies_on(alloc, *number)?))?;
    }
    crates_over(alloc, crates, configs, files_of(alloc, &[("a.rs", EMPTY)])?)
}

fn run_of(alloc: Global, number: u32) -> Result<Collected, Fail> {
    let mut db = four_crates(alloc)?;
    let mut tables = files_of_both(alloc)?;
    let start = Start::Crate {
        krate: Crate(number),
        root: root(0),
    };
    let tree = TreeId::new(HirFileId::File(root(0)), None);
    let world = World::new(alloc);
    Ok(Runs::collect(alloc, &mut db, &world, &mut tables, start, tree)?)
}

fn put_handed_in(text: &mut String, found: &Collected) -> Result<(), AllocError> {
    for key in found.asked.iter() {
        if let Key::Config(krate) = key {
            let number = krate.0;
            write!(text, "{number} ")?;
        }
    }
    Ok(())
}

fn asks(rt: &impl Abort, alloc: Global, row: &(&str, u32, &str)) -> Result<(), Fail> {
    let (label, number, expected) = *row;
    let found = run_of(alloc, number)?;
    let mut text = String::new(alloc);
    put_handed_in(&mut text, &found)?;
    assert!(rt; text.as_str() == expected, "{label}");
    Ok(())
}

/// A run asks what its own crate was handed in with, and each crate on which that depends, and no other crate.
#[test]
fn own_and_behind(rt: HostRuntime) -> Result<(), Fail> {
    for row in &ROWS {
        asks(&rt, rt.alloc(), row)?;
    }
    Ok(())
}
