//! The options that are set in a crate, after rust-analyzer's `CfgOptions`.
ghost use Rattle.std.specs.Prelude.{◌≡◌, ◌↔◌, [], IfOk, OnOk, OnErr, IsTrue};
ghost use Rattle.std.specs.Cmp.Lexicographic.{pointwise, lists_equiv};
ghost use Rattle.std.specs.Cmp.{partial_equiv_from_equiv};
ghost use Rattle.hir_base.specs.Cfg.{cfg_view, cfgs_view};
ghost use Rattle.hir_base.specs.CfgOptions.{is_set, check, check_all, check_any, Sets, SetAlike};

use crate::cfg::{CfgAtom, CfgExpr};
use std::alloc::{AllocError, Global};
use std::collections::BTreeSet;
use std::marker::Model;

/// The options that are set.
#[derive(Drop)]
pub struct CfgOptions {
    enabled: BTreeSet<CfgAtom>,
}

impl Model for CfgOptions {
    ghost use Rattle.std.specs.Prelude.{List};
    ghost use Rattle.hir_base.specs.declared.cfg.CfgAtom.{CfgAtom};

    ghost Value = { List CfgAtom };

    ghost view = { λ o. o.enabled.keys };
}

impl CfgOptions {
    /// No options.
    pub fn new(alloc: Global) -> CfgOptions
        ensures value { result ≡ [] }
    {
        CfgOptions {
            enabled: BTreeSet::new(alloc),
        }
    }

    /// The same options; no text is copied.
    pub fn clone(&self) -> Result<CfgOptions, AllocError>
        ensures value { IfOk result (λ options. options ≡ self.now) }
    {
        Ok(CfgOptions {
            enabled: self.enabled.clone()?,
        })
    }

    /// Sets one more option.
    pub fn insert(&mut self, atom: CfgAtom) -> Result<(), AllocError>
        ensures ok { OnOk result (Sets self.old self.new atom) }
        ensures err { OnErr result (self.new ≡ self.old) }
    {
        self.enabled.insert(atom)?;
        Ok(())
    }

    /// Whether an option is set.
    pub fn check_atom(&self, atom: &CfgAtom) -> bool
        ensures value { result ≡ is_set self.now atom.now }
    {
        self.enabled.contains(atom)
    }

    /// Whether the same options are set.
    pub fn same(&self, other: &CfgOptions) -> bool
        ensures value { IsTrue result ↔ SetAlike self.now other.now }
    {
        self.enabled.len() == other.enabled.len() && self.enabled == other.enabled
    }

    /// Whether a condition holds, or `None` where an invalid part occurs in it.
    #[cycle(check)]
    pub fn check(&self, cfg: &CfgExpr) -> Option<bool>
        ensures value { result ≡ check (is_set self.now) (cfg_view cfg.now) }
    {
        match cfg {
            CfgExpr::Invalid => None,
            CfgExpr::Const(holds) => Some(*holds),
            CfgExpr::Atom(atom) => Some(self.check_atom(atom)),
            CfgExpr::All(parts) => self.check_all(parts),
            CfgExpr::Any(parts) => self.check_any(parts),
            CfgExpr::Not(part) => match self.check(part) {
                Some(holds) => Some(!holds),
                None => None,
            },
        }
    }

    /// Whether all conditions hold.
    #[cycle(check)]
    fn check_all(&self, parts: &Vec<CfgExpr>) -> Option<bool>
        ensures value { result ≡ check_all (is_set self.now) (cfgs_view parts.now.items) }
    {
        let mut holds = true;
        for part in parts {
            match self.check(part) {
                Some(this) => holds = holds && this,
                None => return None,
            }
        }
        Some(holds)
    }

    /// Whether some condition holds.
    #[cycle(check)]
    fn check_any(&self, parts: &Vec<CfgExpr>) -> Option<bool>
        ensures value { result ≡ check_any (is_set self.now) (cfgs_view parts.now.items) }
    {
        let mut holds = false;
        for part in parts {
            match self.check(part) {
                Some(this) => holds = holds || this,
                None => return None,
            }
        }
        Some(holds)
    }
}

impl PartialEq for CfgOptions {
    ghost use Rattle.hir_base.specs.contracts.cfg.CfgAtomEq.TheImpl.Laws.{laws-law as atom_laws};

    ghost eq = { pointwise (⟦<CfgAtom as PartialEq>⟧.eq) };

    ghost laws = { partial_equiv_from_equiv (lists_equiv atom_laws) };

    fn eq(&self, other: &CfgOptions) -> bool {
        self.enabled == other.enabled
    }
}

impl Eq for CfgOptions {
    ghost use Rattle.hir_base.specs.contracts.cfg.CfgAtomEq.TheImpl.Laws.{laws-law as atom_laws};

    ghost laws = { lists_equiv atom_laws };
}
