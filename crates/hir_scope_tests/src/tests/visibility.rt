//! Who may see what, and which of two visibilities is the greater.
use super::small_tree::SmallTree;
use super::{MAP, module};
use hir_base::ast_id::BlockId;
use hir_base::ids::{Crate, MapId, ModuleId};
use hir_item_tree::raw_visibility::{RawVisibility, VisibilityExplicitness};
use hir_scope::visibility::Visibility;
use std::process::Abort;

const PUBLIC: Visibility = Visibility::Public;

const IN_CRATE: Visibility = Visibility::PubCrate(Crate(0));

const IN_OTHER: Visibility = Visibility::PubCrate(Crate(1));

/// A module of a block that module 1 holds.
fn in_block(index: u32) -> ModuleId {
    ModuleId {
        map: MapId {
            krate: Crate(0),
            block: Some(BlockId(7)),
        },
        index,
    }
}

fn in_other_crate(index: u32) -> ModuleId {
    ModuleId {
        map: MapId {
            krate: Crate(1),
            block: None,
        },
        index,
    }
}

fn only(at: ModuleId) -> Visibility {
    Visibility::Module(at, VisibilityExplicitness::Implicit)
}

/// A module of another block that module 1 holds.
fn in_next_block(index: u32) -> ModuleId {
    ModuleId {
        map: MapId {
            krate: Crate(0),
            block: Some(BlockId(8)),
        },
        index,
    }
}

/// The visibility that a digit stands for in the tables below.
fn visibility(digit: u8) -> Option<Visibility> {
    match digit {
        b'0' => Some(PUBLIC),
        b'1' => Some(IN_CRATE),
        b'2' => Some(IN_OTHER),
        b'3' => Some(only(module(0))),
        b'4' => Some(only(module(1))),
        b'5' => Some(only(module(2))),
        b'6' => Some(only(module(3))),
        b'7' => Some(only(in_block(0))),
        b'8' => Some(only(in_block(2))),
        b'9' => Some(Visibility::Module(module(1), VisibilityExplicitness::Explicit)),
        _ => None,
    }
}

/// A visibility, and its greater and its lesser with each, 0 to 9.
type Row = (u8, &'static [u8; 10], &'static [u8; 10]);

/// Two modules are compared in the map of the crate.
const IN_MAP_OF_CRATE: [Row; 10] = [
    (b'0', b"0000000000", b"0123456789"),
    (b'1', b"01-1111111", b"11-3456789"),
    (b'2', b"0-2-------", b"2-2-------"),
    (b'3', b"01-3333--3", b"33-3456--9"),
    (b'4', b"01-34-4--9", b"44-44-6--9"),
    (b'5', b"01-3-5----", b"55-5-5----"),
    (b'6', b"01-34-6--9", b"66-66-6--6"),
    (b'7', b"01-----7--", b"77-----7--"),
    (b'8', b"01------8-", b"88------8-"),
    (b'9', b"01-39-9--9", b"99-99-6--9"),
];

/// Two modules are compared in the map of the block.
const IN_MAP_OF_BLOCK: [Row; 10] = [
    (b'0', b"0000000000", b"0123456789"),
    (b'1', b"01-1111111", b"11-3456789"),
    (b'2', b"0-2-------", b"2-2-------"),
    (b'3', b"01-3------", b"33-3------"),
    (b'4', b"01--4----9", b"44--4----9"),
    (b'5', b"01---5----", b"55---5----"),
    (b'6', b"01----6---", b"66----6---"),
    (b'7', b"01-----77-", b"77-----78-"),
    (b'8', b"01-----78-", b"88-----88-"),
    (b'9', b"01--9----9", b"99--9----9"),
];

/// Asserts what is said of two digits, or of a digit in a column.
fn holds(rt: &impl Abort, one: u8, two: u8, is: bool) {
    assert!(rt; is, "{} {}", one as char, two as char);
}

/// Asserts the greater and the lesser of two visibilities, by digits.
fn compare_two(rt: &impl Abort, one: u8, two: u8, greater: u8, lesser: u8, map: MapId) {
    let vis = visibility(one).expect(rt, "a digit");
    let other = visibility(two).expect(rt, "a digit");
    let max = vis.max(&SmallTree, other, map);
    holds(rt, one, two, max == visibility(greater));
    let min = vis.min(&SmallTree, other, map);
    holds(rt, one, two, min == visibility(lesser));
}

fn compare_with_each(rt: &impl Abort, row: &Row, map: MapId) {
    let (one, greater, lesser) = *row;
    for at in 0..10 {
        compare_two(rt, one, b"0123456789"[at], greater[at], lesser[at], map);
    }
}

#[test]
fn siblings_share_no_visibility(rt: HostRuntime) {
    compare_two(&rt, b'4', b'5', b'-', b'-', MAP);
}

#[test]
fn any_two(rt: HostRuntime) {
    for row in &IN_MAP_OF_CRATE {
        compare_with_each(&rt, row, MAP);
    }
    let block = in_block(0);
    for row in &IN_MAP_OF_BLOCK {
        compare_with_each(&rt, row, block.map);
    }
}

/// The module of a column of the table below.
fn asking(column: usize) -> ModuleId {
    match column {
        0..=3 => module(column as u32),
        4 => in_block(0),
        5 => in_block(2),
        6 => in_next_block(0),
        _ => in_other_crate(0),
    }
}

/// A visibility, and whether each asking module may see.
const SEEN: [(u8, &[u8; 8]); 10] = [
    (b'0', b"++++++++"),
    (b'1', b"+++++++-"),
    (b'2', b"-------+"),
    (b'3', b"+++++++-"),
    (b'4', b"-+-++++-"),
    (b'5', b"--+-----"),
    (b'6', b"---+----"),
    (b'7', b"-+-++++-"),
    (b'8', b"-+-+-++-"),
    (b'9', b"-+-++++-"),
];

fn see_from_each(rt: &impl Abort, digit: u8, seen: &[u8; 8]) {
    let vis = visibility(digit).expect(rt, "a digit");
    for at in 0..8 {
        let is_visible = vis.is_visible_from(&SmallTree, asking(at));
        let wanted = seen[at] == b'+';
        holds(rt, digit, b"01234567"[at], is_visible == wanted);
    }
}

#[test]
fn any_seen_from_any(rt: HostRuntime) {
    for &(digit, seen) in &SEEN {
        see_from_each(&rt, digit, seen);
    }
}

/// Only what is public may be seen from other crates; a map that is being built is asked like any tree.
fn see_from_other_crates(rt: &impl Abort, digit: u8, seen: &[u8; 8]) {
    let vis = visibility(digit).expect(rt, "a digit");
    let is_public = digit == b'0';
    holds(rt, digit, b'-', vis.is_public() == is_public);
    let is_visible = vis.is_visible_from_other_crate();
    holds(rt, digit, b'-', is_visible == is_public);
    for at in 0..8 {
        let is_visible = vis.is_visible_from_def_map(&SmallTree, asking(at));
        let wanted = seen[at] == b'+';
        holds(rt, digit, b"01234567"[at], is_visible == wanted);
    }
}

#[test]
fn seen_from_other_crates(rt: HostRuntime) {
    for &(digit, seen) in &SEEN {
        see_from_other_crates(&rt, digit, seen);
    }
}

/// What is written is looked up once, and counts as public where that finds nothing.
#[test]
fn written_visibilities(rt: HostRuntime) {
    let crate_alone = Visibility::resolve(
        |raw: &RawVisibility| match raw {
            RawVisibility::PubCrate => Some(IN_CRATE),
            _ => None,
        },
        &RawVisibility::PubCrate,
    );
    assert!(rt; crate_alone == IN_CRATE);
    let unresolved = Visibility::resolve(|_: &RawVisibility| None, &RawVisibility::PubCrate);
    assert!(rt; unresolved == PUBLIC);
}
