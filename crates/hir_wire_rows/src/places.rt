//! Places, and blocks.
use hir_base::edition::Edition::Edition2021;
use hir_base::mod_path::ModPath;
use hir_base::place::{BlockPlace, Place, PlaceElement};
use std::alloc::AllocError;
use std::fmt::Write;

fn push_step(out: &mut String, step: &PlaceElement) -> Result<(), AllocError> {
    match step {
        PlaceElement::Module(name) => {
            let name = name.display(Edition2021);
            write!(out, " {name}")
        }
        PlaceElement::Block(id) => {
            let hash = id.hash;
            let index = id.index;
            write!(out, " [{hash}, {index}]")
        }
    }
}

/// Writes the crate's number, and the steps from its root.
pub fn push_place(out: &mut String, place: &Place) -> Result<(), AllocError> {
    let krate = place.krate().0;
    write!(out, "{krate}")?;
    for step in place.elements() {
        push_step(out, step)?;
    }
    Ok(())
}

/// Writes the place that holds the block, and the block's id behind a colon.
pub fn push_block(out: &mut String, block: &BlockPlace) -> Result<(), AllocError> {
    push_place(out, &block.holder)?;
    let hash = block.id.hash;
    let index = block.id.index;
    write!(out, ": [{hash}, {index}]")
}

/// Writes the place from which a trait is named, and its path behind a colon.
pub fn push_trait(out: &mut String, at: &Place, path: &ModPath) -> Result<(), AllocError> {
    push_place(out, at)?;
    let path = path.display(Edition2021);
    write!(out, ": {path}")
}

/// Writes the place of an impl, and its number behind a colon.
pub fn push_impl(out: &mut String, at: &Place, number: u32) -> Result<(), AllocError> {
    push_place(out, at)?;
    write!(out, ": {number}")
}
