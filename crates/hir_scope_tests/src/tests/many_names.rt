//! A scope of many names, pushed in whatever order, and what removals leave of it.
use super::{empty_scope, module, structure};
use hir_base::name::Name;
use hir_scope::glob_imports::PerNsGlobImports;
use hir_scope::item_scope::ItemScope;
use hir_scope::per_ns::PerNs;
use hir_scope::visibility::Visibility;
use std::alloc::Global;
use std::process::Abort;
use std::test::Fail;

const COUNT: u16 = 5000;

/// 5,000 has so many binary digits.
const DIGITS: u64 = 13;

/// The numbers of names as they are pushed: the first one, and how far it is to the next, around the circle of all.
const ORDERS: [(u16, u16); 3] = [(0, 1), (4999, 4999), (17, 1009)];

fn named(alloc: Global, number: u16) -> Result<Name, Fail> {
    let text = format!(in alloc; "n{number:04}")?;
    Ok(Name::new(alloc, text.as_str())?)
}

/// A scope of values under all names.
fn filled(alloc: Global, first: u16, further: u16) -> Result<Box<ItemScope>, Fail> {
    let mut scope = empty_scope(alloc)?;
    let mut globs = PerNsGlobImports::new(alloc);
    let mut number = first;
    for _ in 0..COUNT {
        let value = PerNs::values(structure(number), Visibility::Public, None);
        let name = named(alloc, number)?;
        scope.push_res_with_import(&mut globs, (module(0), name), value, None)?;
        number = number.wrapping_add(further) % COUNT;
    }
    Ok(scope)
}

/// Asserts that each name is found at its place, by few comparisons.
fn has_all(rt: &impl Abort, alloc: Global, scope: &ItemScope) -> Result<(), Fail> {
    for number in 0..COUNT {
        let name = named(alloc, number)?;
        let (position, probe) = scope.find(&name);
        assert!(rt; position == Some(usize::from(number)));
        assert!(rt; probe.count() <= DIGITS);
    }
    Ok(())
}

/// Takes out each other value.
fn remove_even(alloc: Global, scope: &mut ItemScope) -> Result<(), Fail> {
    for number in 0..COUNT {
        if number % 2 == 0 {
            let name = named(alloc, number)?;
            scope.remove_from_value_ns(&name, structure(number));
        }
    }
    Ok(())
}

/// Asserts that the other names alone are left, each at half its place.
fn has_odd(rt: &impl Abort, alloc: Global, scope: &ItemScope) -> Result<(), Fail> {
    for number in 0..COUNT {
        let name = named(alloc, number)?;
        let (position, _) = scope.find(&name);
        let expected = if number % 2 == 0 {
            None
        } else {
            Some(usize::from(number / 2))
        };
        assert!(rt; position == expected);
    }
    Ok(())
}

#[test]
fn names_in_any_order(rt: HostRuntime) -> Result<(), Fail> {
    for &(first, further) in &ORDERS {
        let mut scope = filled(rt.alloc(), first, further)?;
        has_all(&rt, rt.alloc(), &scope)?;
        remove_even(rt.alloc(), &mut scope)?;
        has_odd(&rt, rt.alloc(), &scope)?;
    }
    Ok(())
}
