//! Tables that give values numbers.

use hir_base::locations::Locations;
use hir_base::name::Name;
use std::alloc::Global;
use std::process::Abort;
use std::test::Fail;

/// Names in the order in which they are put into a table, each with its number.
const ROWS: [(&str, u32); 6] = [
    ("fmt", 0),
    ("io", 1),
    ("fmt", 0),
    ("Fmt", 2),
    ("io", 1),
    ("fmt", 0),
];

fn number_of(alloc: Global, table: &mut Locations<Name>, text: &str) -> Result<u32, Fail> {
    let name = Name::new(alloc, text)?;
    Ok(table.intern(name)?)
}

/// A table of the names, each of which got its number.
fn filled(rt: &impl Abort, alloc: Global) -> Result<Locations<Name>, Fail> {
    let mut table = Locations::new(alloc);
    for &(text, wanted) in &ROWS {
        let number = number_of(alloc, &mut table, text)?;
        assert!(rt; number == wanted, "{text}");
    }
    Ok(table)
}

fn has_the_names(rt: &impl Abort, table: &Locations<Name>) {
    for &(text, number) in &ROWS {
        let has_it = match table.get(number) {
            Some(name) => name.as_str() == text,
            None => false,
        };
        assert!(rt; has_it, "{text}");
    }
}

#[test]
fn numbers_of_names(rt: HostRuntime) -> Result<(), Fail> {
    let table = filled(&rt, rt.alloc())?;
    has_the_names(&rt, &table);
    assert!(rt; table.get(3).is_none(), "a number that no name has");
    assert!(rt; table.len() == 3, "names that differ");
    Ok(())
}
