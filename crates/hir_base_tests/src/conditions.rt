//! Which conditions hold under options.

use hir_base::cfg::{CfgAtom, CfgExpr};
use hir_base::cfg_options::CfgOptions;
use hir_base::name::Name;
use hir_base::text::Text;
use std::alloc::{AllocError, Global};
use std::mem;
use std::test::Fail;

/// A flag, or a key with a value.
fn atom(alloc: Global, key: &str, value: Option<&str>) -> Result<CfgAtom, Fail> {
    let key = Name::new(alloc, key)?;
    match value {
        None => Ok(CfgAtom::Flag(key)),
        Some(value) => Ok(CfgAtom::KeyValue {
            key,
            value: Text::from_str(alloc, value)?,
        }),
    }
}

/// The options `x` and `feature = "std"`.
fn options(alloc: Global) -> Result<CfgOptions, Fail> {
    let mut options = CfgOptions::new(alloc);
    options.insert(atom(alloc, "x", None)?)?;
    options.insert(atom(alloc, "feature", Some("std"))?)?;
    Ok(options)
}

/// Options, and whether they are set.
const ATOMS: [(&str, Option<&str>, bool); 4] = [
    ("x", None, true),
    ("feature", None, false),
    ("feature", Some("std"), true),
    ("feature", Some("alloc"), false),
];

fn is_set(alloc: Global, key: &str, value: Option<&str>) -> Result<bool, Fail> {
    let atom = atom(alloc, key, value)?;
    let options = options(alloc)?;
    Ok(options.check_atom(&atom))
}

#[test]
fn options_that_are_set(rt: HostRuntime) -> Result<(), Fail> {
    for &(key, value, wanted) in &ATOMS {
        let found = is_set(rt.alloc(), key, value)?;
        assert!(rt; found == wanted, "{key}");
    }
    Ok(())
}

fn negated(alloc: Global, part: CfgExpr) -> Result<CfgExpr, AllocError> {
    Ok(CfgExpr::Not(Box::new(alloc, part)?))
}

/// The condition that a word makes of the parts before it: `not` takes the last of them, `all` and `any` take all of
/// them, and `?` is invalid.
fn made(alloc: Global, parts: &mut Vec<CfgExpr>, word: &str) -> Result<CfgExpr, Fail> {
    match word {
        "true" => Ok(CfgExpr::Const(true)),
        "false" => Ok(CfgExpr::Const(false)),
        "?" => Ok(CfgExpr::Invalid),
        "not" => Ok(negated(alloc, parts.pop().ok_or("a part")?)?),
        "all" => Ok(CfgExpr::All(mem::replace(parts, Vec::new(alloc)))),
        "any" => Ok(CfgExpr::Any(mem::replace(parts, Vec::new(alloc)))),
        _ => Ok(CfgExpr::Atom(atom(alloc, word, None)?)),
    }
}

/// The condition of these words, in which an operator stands behind what it takes.
fn condition(alloc: Global, words: &[&str]) -> Result<CfgExpr, Fail> {
    let mut parts = Vec::new(alloc);
    for word in words {
        let part = made(alloc, &mut parts, word)?;
        parts.push(part)?;
    }
    Ok(parts.pop().ok_or("a condition")?)
}

/// A condition as it is written, its words, and whether it holds; an invalid part anywhere leaves no answer.
const CONDITIONS: [(&str, &[&str], Option<bool>); 6] = [
    ("all(x, not(y))", &["x", "y", "not", "all"], Some(true)),
    ("any(y, false)", &["y", "false", "any"], Some(false)),
    ("any()", &["any"], Some(false)),
    ("all()", &["all"], Some(true)),
    ("any(x, ?)", &["x", "?", "any"], None),
    ("all(?, false)", &["?", "false", "all"], None),
];

fn checked(alloc: Global, words: &[&str]) -> Result<Option<bool>, Fail> {
    let condition = condition(alloc, words)?;
    let options = options(alloc)?;
    Ok(options.check(&condition))
}

#[test]
fn conditions_of_parts(rt: HostRuntime) -> Result<(), Fail> {
    for &(label, words, wanted) in &CONDITIONS {
        let found = checked(rt.alloc(), words)?;
        assert!(rt; found == wanted, "{label}");
    }
    Ok(())
}
