//! Copies of places and of sets of options.

use hir_base::ast_id::SyntaxId;
use hir_base::cfg::CfgAtom;
use hir_base::cfg_options::CfgOptions;
use hir_base::ids::Crate;
use hir_base::name::Name;
use hir_base::place::{Place, PlaceElement};
use hir_base::text::Text;
use std::alloc::Global;
use std::process::Abort;
use std::test::Fail;

fn module(alloc: Global) -> Result<PlaceElement, Fail> {
    Ok(PlaceElement::Module(Name::new(alloc, "shapes")?))
}

fn block() -> PlaceElement {
    PlaceElement::Block(SyntaxId { hash: 7, index: 2 })
}

/// A block in the module `shapes` of a crate.
fn block_in_module(alloc: Global) -> Result<Place, Fail> {
    let mut elements = Vec::new(alloc);
    elements.push(module(alloc)?)?;
    elements.push(block())?;
    Ok(Place::new(Crate(3), elements))
}

/// The copy of a place equals the place, crate and steps.
fn place_is_copied(rt: &impl Abort, place: &Place) -> Result<(), Fail> {
    let copy = place.clone()?;
    assert!(rt; copy == *place, "the place");
    assert!(rt; copy.krate() == Crate(3));
    assert!(rt; copy.elements().len() == 2, "steps");
    Ok(())
}

#[test]
fn copy_of_a_place(rt: HostRuntime) -> Result<(), Fail> {
    let place = block_in_module(rt.alloc())?;
    place_is_copied(&rt, &place)
}

/// A flag.
fn unix(alloc: Global) -> Result<CfgAtom, Fail> {
    Ok(CfgAtom::Flag(Name::new(alloc, "unix")?))
}

/// A key with a value.
fn feature(alloc: Global) -> Result<CfgAtom, Fail> {
    let key = Name::new(alloc, "feature")?;
    let value = Text::from_str(alloc, "std")?;
    Ok(CfgAtom::KeyValue { key, value })
}

fn options_with_both(alloc: Global) -> Result<CfgOptions, Fail> {
    let mut options = CfgOptions::new(alloc);
    options.insert(unix(alloc)?)?;
    options.insert(feature(alloc)?)?;
    Ok(options)
}

/// The copy of options is the same, and isn't empty.
fn options_are_copied(rt: &impl Abort, alloc: Global, options: &CfgOptions) -> Result<(), Fail> {
    let copy = options.clone()?;
    assert!(rt; copy.same(options), "the options");
    assert!(rt; !copy.same(&CfgOptions::new(alloc)), "no options");
    Ok(())
}

#[test]
fn copy_of_options(rt: HostRuntime) -> Result<(), Fail> {
    let options = options_with_both(rt.alloc())?;
    options_are_copied(&rt, rt.alloc(), &options)
}
