//! Conditions on a crate's options, after rust-analyzer's `cfg` crate.
ghost use Rattle.std.specs.Prelude.{◌≡◌, ◌↔◌, false, Some, IfOk, IsTrue};
ghost use Rattle.std.specs.Fmt.{WritesOnOk};
ghost use Rattle.hir_base.specs.Cfg.{cfg_view, cfgs_view, atom_text, comma_if, cfg_text, parts_text};

use crate::name::Name;
use crate::text::Text;
use std::alloc::{AllocError, Global};
use std::fmt::{Display, Formatter, Write};

/// An option, or the condition that it is set.
#[derive(Debug, Drop, PartialEq, Eq, PartialOrd, Ord, Hash)]
pub enum CfgAtom {
    Flag(Name),
    KeyValue { key: Name, value: Text },
}

/// The same option; no text is copied.
impl Clone for CfgAtom {
    ghost is_clone = { λ atom copy. copy ≡ atom };

    fn clone(&self) -> Result<CfgAtom, AllocError> {
        match self {
            CfgAtom::Flag(name) => Ok(CfgAtom::Flag(name.clone()?)),
            CfgAtom::KeyValue { key, value } => Ok(CfgAtom::KeyValue {
                key: key.clone()?,
                value: value.clone()?,
            }),
        }
    }
}

impl Display for CfgAtom {
    ghost output = { λ atom. Some (atom_text atom) };

    fn fmt<W: Write>(&self, f: &mut Formatter<W>) -> std::fmt::Result {
        match self {
            CfgAtom::Flag(name) => f.write_str(name.as_str()),
            CfgAtom::KeyValue { key, value } => {
                f.write_str(key.as_str())?;
                f.write_str(" = \"")?;
                f.write_str(value.as_str())?;
                f.write_str("\"")
            }
        }
    }
}

/// A condition on options.
#[derive(Drop)]
pub enum CfgExpr {
    /// What couldn't be read as a condition.
    Invalid,
    Const(bool),
    Atom(CfgAtom),
    All(Vec<CfgExpr>),
    Any(Vec<CfgExpr>),
    Not(Box<CfgExpr>),
}

impl CfgExpr {
    /// The same condition; no text is copied.
    #[cycle(clone)]
    pub fn clone(&self, alloc: Global) -> Result<CfgExpr, AllocError>
        ensures value { IfOk result (λ cfg. cfg_view cfg ≡ cfg_view self.now) }
    {
        match self {
            CfgExpr::Invalid => Ok(CfgExpr::Invalid),
            CfgExpr::Const(holds) => Ok(CfgExpr::Const(*holds)),
            CfgExpr::Atom(atom) => Ok(CfgExpr::Atom(atom.clone()?)),
            CfgExpr::All(parts) => Ok(CfgExpr::All(clone_all(alloc, parts)?)),
            CfgExpr::Any(parts) => Ok(CfgExpr::Any(clone_all(alloc, parts)?)),
            CfgExpr::Not(part) => Ok(CfgExpr::Not(Box::new(alloc, CfgExpr::clone(part, alloc)?)?)),
        }
    }
}

/// The same conditions.
#[cycle(clone)]
fn clone_all(alloc: Global, parts: &Vec<CfgExpr>) -> Result<Vec<CfgExpr>, AllocError>
    ensures value { IfOk result (λ cfgs. cfgs_view cfgs.items ≡ cfgs_view parts.now.items) }
{
    let mut copies = Vec::new(alloc);
    for part in parts {
        copies.push(part.clone(alloc)?)?;
    }
    Ok(copies)
}

impl CfgExpr {
    /// Whether this is the same condition, part by part in order.
    #[cycle(same)]
    pub fn same(&self, other: &CfgExpr) -> bool
        ensures value { IsTrue result ↔ (cfg_view self.now ≡ cfg_view other.now) }
    {
        match (self, other) {
            (CfgExpr::Invalid, CfgExpr::Invalid) => true,
            (CfgExpr::Const(holds), CfgExpr::Const(other)) => *holds == *other,
            (CfgExpr::Atom(atom), CfgExpr::Atom(other)) => atom == other,
            (CfgExpr::All(parts), CfgExpr::All(others)) => same_all(parts, others),
            (CfgExpr::Any(parts), CfgExpr::Any(others)) => same_all(parts, others),
            (CfgExpr::Not(part), CfgExpr::Not(other)) => part.same(other),
            _ => false,
        }
    }
}

/// Whether these are the same conditions, in order.
#[cycle(same)]
fn same_all(parts: &Vec<CfgExpr>, others: &Vec<CfgExpr>) -> bool
    ensures value { IsTrue result ↔ (cfgs_view parts.now.items ≡ cfgs_view others.now.items) }
{
    if parts.len() != others.len() {
        return false;
    }
    let mut i = 0;
    for part in parts {
        if !part.same(&others[i]) {
            return false;
        }
        i += 1;
    }
    true
}

impl PartialEq for CfgExpr {
    ghost use Rattle.std.specs.Ordering.{on};
    ghost use Rattle.std.specs.Cmp.{partial_equiv_from_equiv, on_equiv};
    ghost use Rattle.hir_base.specs.Cfg.{cfg_view};
    ghost use Rattle.hir_base.specs.SameCfg.{same_cfg, same_cfg_equiv};

    ghost eq = { on cfg_view same_cfg };

    ghost laws = { partial_equiv_from_equiv (on_equiv cfg_view same_cfg_equiv) };

    fn eq(&self, other: &CfgExpr) -> bool {
        self.same(other)
    }
}

impl Eq for CfgExpr {
    ghost use Rattle.std.specs.Cmp.{on_equiv};
    ghost use Rattle.hir_base.specs.Cfg.{cfg_view};
    ghost use Rattle.hir_base.specs.SameCfg.{same_cfg_equiv};

    ghost laws = { on_equiv cfg_view same_cfg_equiv };
}

impl Display for CfgExpr {
    ghost output = { λ cfg. Some (cfg_text (cfg_view cfg)) };

    fn fmt<W: Write>(&self, f: &mut Formatter<W>) -> std::fmt::Result {
        print(self, f)
    }
}

/// Prints what stands between two parts.
fn print_comma<W: Write>(later: bool, f: &mut Formatter<W>) -> std::fmt::Result
    ensures writes { WritesOnOk W.write_str_gives f.old result (comma_if later) f.new }
{
    if later {
        f.write_str(", ")?;
    }
    Ok(())
}

/// Prints a condition.
#[cycle(print)]
fn print<W: Write>(cfg: &CfgExpr, f: &mut Formatter<W>) -> std::fmt::Result
    ensures writes { WritesOnOk W.write_str_gives f.old result (cfg_text (cfg_view cfg.now)) f.new }
{
    match cfg {
        CfgExpr::Invalid => f.write_str("invalid"),
        CfgExpr::Const(true) => f.write_str("true"),
        CfgExpr::Const(false) => f.write_str("false"),
        CfgExpr::Atom(atom) => write!(f, "{atom}"),
        CfgExpr::All(parts) => {
            f.write_str("all(")?;
            print_all(parts, f)?;
            f.write_str(")")
        }
        CfgExpr::Any(parts) => {
            f.write_str("any(")?;
            print_all(parts, f)?;
            f.write_str(")")
        }
        CfgExpr::Not(part) => {
            f.write_str("not(")?;
            print(part, f)?;
            f.write_str(")")
        }
    }
}

/// Prints conditions with commas between.
#[cycle(print)]
fn print_all<W: Write>(parts: &Vec<CfgExpr>, f: &mut Formatter<W>) -> std::fmt::Result
    ensures writes { WritesOnOk W.write_str_gives f.old result (parts_text false (cfgs_view parts.now.items)) f.new }
{
    let mut later = false;
    for part in parts {
        print_comma(later, f)?;
        print(part, f)?;
        later = true;
    }
    Ok(())
}
