//! Names, paths and files as they are written, and builtin types.
//!
//! Which texts are names, paths and files, their limits and the reserved words are sessions of `hir_session_rows`.

use hir_base::builtin_type::{
    BuiltinFloat, BuiltinInt, BuiltinType, BuiltinUint, all_builtin_types,
};
use hir_base::edition::Edition;
use hir_base::file_path::FilePath;
use hir_base::mod_path::{ModPath, PathKind};
use hir_base::name::{Name, NameError};
use smallvec::SmallVec;
use std::alloc::{AllocError, Global};
use std::process::Abort;
use std::test::Fail;

fn same_text(rt: &impl Abort, row: &str, shown: &str, wanted: &str) {
    assert_eq!(rt; shown, wanted, "{row}");
}

fn is_name(rt: &impl Abort, alloc: Global, row: &str, text: &str) -> Result<(), Fail> {
    let name = Name::new(alloc, text)?;
    same_text(rt, row, name.as_str(), text);
    Ok(())
}

#[test]
fn a_name_is_its_text(rt: HostRuntime) -> Result<(), Fail> {
    is_name(&rt, rt.alloc(), "other letters", "größe")
}

fn path_of(alloc: Global, text: &str) -> Result<ModPath, Fail> {
    Ok(ModPath::parse(alloc, text)?)
}

fn verbatim(alloc: Global, path: ModPath) -> Result<String, AllocError> {
    path.display_verbatim().to_string(alloc)
}

fn is_path(
    rt: &impl Abort,
    alloc: Global,
    text: &str,
    segments: usize,
    written: &str,
) -> Result<(), Fail> {
    let path = path_of(alloc, text)?;
    assert!(rt; path.segments().len() == segments);
    let shown = verbatim(alloc, path)?;
    same_text(rt, text, shown.as_str(), written);
    Ok(())
}

/// Texts of paths, how many segments they have, and how they are written.
const PATHS: [(&str, usize, &str); 12] = [
    ("", 0, ""),
    ("::", 0, "::"),
    ("a::b", 2, "a::b"),
    ("::a::b", 2, "::a::b"),
    ("crate", 0, "crate"),
    ("crate::a", 1, "crate::a"),
    ("$3::a", 1, "$3::a"),
    ("$007", 0, "$7"),
    ("self::a", 1, "self::a"),
    ("self::super", 0, "super"),
    ("super::super::a", 1, "super::super::a"),
    ("fn::async", 2, "fn::async"),
];

/// Each text is read as a path, which is written as the other text.
#[test]
fn paths_read_and_written(rt: HostRuntime) -> Result<(), Fail> {
    for &(text, segments, written) in &PATHS {
        is_path(&rt, rt.alloc(), text, segments, written)?;
    }
    Ok(())
}

fn in_edition(alloc: Global, text: &str, edition: Edition) -> Result<String, Fail> {
    let path = path_of(alloc, text)?;
    Ok(path.display(edition).to_string(alloc)?)
}

/// Texts of paths, and how they are written in an edition.
const IN_EDITIONS: [(&str, Edition, &str); 6] = [
    ("crate::fn::a", Edition::Edition2015, "crate::r#fn::a"),
    ("::match", Edition::Edition2024, "::r#match"),
    ("super::async", Edition::Edition2015, "super::async"),
    ("super::async", Edition::Edition2018, "super::r#async"),
    ("gen::dyn", Edition::Edition2021, "gen::r#dyn"),
    ("gen::dyn", Edition::Edition2024, "r#gen::r#dyn"),
];

#[test]
fn paths_of_an_edition(rt: HostRuntime) -> Result<(), Fail> {
    for &(text, edition, written) in &IN_EDITIONS {
        let shown = in_edition(rt.alloc(), text, edition)?;
        same_text(&rt, text, shown.as_str(), written);
    }
    Ok(())
}

fn is_file(rt: &impl Abort, alloc: Global, text: &str, folded: &str) -> Result<(), Fail> {
    let file = FilePath::parse(alloc, text)?;
    same_text(rt, text, file.as_str(), folded);
    Ok(())
}

#[test]
fn a_file_is_normalized(rt: HostRuntime) -> Result<(), Fail> {
    is_file(&rt, rt.alloc(), "./a//b", "a/b")
}

/// The names of all builtin types.
fn names_of_builtin_types(alloc: Global) -> Result<String, AllocError> {
    let mut shown = String::new(alloc);
    for builtin in &all_builtin_types() {
        if !shown.is_empty() {
            shown.push(' ')?;
        }
        shown.push_str(builtin.as_str())?;
    }
    Ok(shown)
}

/// The builtin type with the name of this one.
fn named_alike(alloc: Global, builtin: BuiltinType) -> Result<Option<BuiltinType>, Fail> {
    let name = Name::new(alloc, builtin.as_str())?;
    Ok(BuiltinType::by_name(&name))
}

/// All builtin types in their order, each found by its name.
#[test]
fn builtin_types_by_name(rt: HostRuntime) -> Result<(), Fail> {
    let names =
        "char bool str isize i8 i16 i32 i64 i128 usize u8 u16 u32 u64 u128 f16 f32 f64 f128";
    let shown = names_of_builtin_types(rt.alloc())?;
    same_text(&rt, "all", shown.as_str(), names);
    for builtin in &all_builtin_types() {
        let found = named_alike(rt.alloc(), *builtin)?;
        assert!(rt; found == Some(*builtin));
    }
    Ok(())
}

/// The builtin type of the name that this one lends, and how the type is shown.
fn by_its_own_name(
    alloc: Global,
    builtin: BuiltinType,
) -> Result<(Option<BuiltinType>, String), AllocError> {
    let shown = builtin.to_string(alloc)?;
    Ok((BuiltinType::by_name(&builtin.as_name()), shown))
}

/// They are shown by the names that they lend.
#[test]
fn builtin_types_as_names(rt: HostRuntime) -> Result<(), Fail> {
    for builtin in &all_builtin_types() {
        let (found, shown) = by_its_own_name(rt.alloc(), *builtin)?;
        assert!(rt; found == Some(*builtin));
        same_text(&rt, "as it is shown", shown.as_str(), builtin.as_str());
    }
    Ok(())
}

fn types_by_suffix(
    suffix: &str,
) -> (
    Option<BuiltinInt>,
    Option<BuiltinUint>,
    Option<BuiltinFloat>,
) {
    (
        BuiltinInt::from_suffix(suffix),
        BuiltinUint::from_suffix(suffix),
        BuiltinFloat::from_suffix(suffix),
    )
}

/// Texts, and the types of which they are suffixes.
const SUFFIXES: [(
    &str,
    Option<BuiltinInt>,
    Option<BuiltinUint>,
    Option<BuiltinFloat>,
); 7] = [
    ("i8", Some(BuiltinInt::I8), None, None),
    ("isize", Some(BuiltinInt::Isize), None, None),
    ("u128", None, Some(BuiltinUint::U128), None),
    ("f64", None, None, Some(BuiltinFloat::F64)),
    ("char", None, None, None),
    ("u7", None, None, None),
    ("", None, None, None),
];

#[test]
fn suffixes_of_literals(rt: HostRuntime) {
    for &(suffix, int, uint, float) in &SUFFIXES {
        let found = types_by_suffix(suffix);
        assert!(rt; found == (int, uint, float), "{suffix}");
    }
}

fn types_by_suffix_name(
    alloc: Global,
    suffix: &str,
) -> Result<(Option<BuiltinInt>, Option<BuiltinUint>), Fail> {
    let suffix = Name::new(alloc, suffix)?;
    Ok((
        BuiltinInt::from_suffix_sym(&suffix),
        BuiltinUint::from_suffix_sym(&suffix),
    ))
}

/// Names, and the types of which they are suffixes.
const NAMED_SUFFIXES: [(&str, Option<BuiltinInt>, Option<BuiltinUint>); 4] = [
    ("i8", Some(BuiltinInt::I8), None),
    ("usize", None, Some(BuiltinUint::Usize)),
    ("f64", None, None),
    ("u7", None, None),
];

/// The same of suffixes that are names.
#[test]
fn names_as_suffixes(rt: HostRuntime) -> Result<(), Fail> {
    for &(suffix, int, uint) in &NAMED_SUFFIXES {
        let found = types_by_suffix_name(rt.alloc(), suffix)?;
        assert!(rt; found == (int, uint), "{suffix}");
    }
    Ok(())
}

/// Whether a text is no name, or a name above the limit.
fn refusal(alloc: Global, text: &str) -> (bool, bool) {
    match Name::new(alloc, text) {
        Err(NameError::Bad) => (true, false),
        Err(NameError::TooLarge) => (false, true),
        _ => (false, false),
    }
}

/// So many letters, and a text behind them.
fn letters(alloc: Global, count: usize, rest: &str) -> Result<String, AllocError> {
    let mut text = String::new(alloc);
    for _ in 0..count {
        text.push('a')?;
    }
    text.push_str(rest)?;
    Ok(text)
}

/// Letters, a text behind them, and whether both are no name, or a name above the limit.
type RefusedRow = (usize, &'static str, bool, bool);

/// What is no name is told before its length.
const REFUSED: [RefusedRow; 12] = [
    (1000, "", false, false),
    (1001, "", false, true),
    (1001, "/", true, false),
    (0, "", true, false),
    (0, "$a", true, false),
    (0, "self", true, false),
    (0, "super", true, false),
    (0, "crate", true, false),
    (0, "_", true, false),
    (0, "*", true, false),
    (1, " b", true, false),
    (1, ":b", true, false),
];

fn is_refused(rt: &impl Abort, alloc: Global, row: &RefusedRow) -> Result<(), Fail> {
    let (count, rest, is_bad, is_large) = *row;
    let text = letters(alloc, count, rest)?;
    let found = refusal(alloc, text.as_str());
    assert!(rt; found == (is_bad, is_large), "{count} letters and {rest}");
    Ok(())
}

#[test]
fn texts_that_are_no_names(rt: HostRuntime) -> Result<(), Fail> {
    for row in &REFUSED {
        is_refused(&rt, rt.alloc(), row)?;
    }
    Ok(())
}

/// A name behind `self`, made of its parts.
fn behind_self(alloc: Global, text: &str) -> Result<ModPath, Fail> {
    let name = Name::new(alloc, text)?;
    let mut segments = SmallVec::new(alloc);
    segments.push(name)?;
    Ok(ModPath::from_segments(PathKind::SELF, segments))
}

fn in_the_latest_edition(alloc: Global, path: &ModPath) -> Result<String, AllocError> {
    path.display(Edition::LATEST).to_string(alloc)
}

#[test]
fn path_of_parts(rt: HostRuntime) -> Result<(), Fail> {
    let path = behind_self(rt.alloc(), "gen")?;
    assert!(rt; path.kind() == PathKind::Super(0));
    let shown = in_the_latest_edition(rt.alloc(), &path)?;
    same_text(&rt, "its text", shown.as_str(), "self::r#gen");
    Ok(())
}

#[test]
fn path_of_parts_and_of_its_text(rt: HostRuntime) -> Result<(), Fail> {
    let path = behind_self(rt.alloc(), "a")?;
    let parsed = path_of(rt.alloc(), "self::a")?;
    assert!(rt; path == parsed);
    Ok(())
}
