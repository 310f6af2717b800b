//! The crates of a session by number, and the transitive dependencies of each.
ghost use Rattle.std.specs.Prelude.{◌≡◌, ◌↔◌, ℕ, ◌+◌, ◌<◌, IsTrue, List, length, map, IfOk, OnErr, OnOk, option_map, slice_get, unwrap_or};
ghost use Rattle.hir_session_state.specs.HirIds.declared.ids.Crate.{Crate};
ghost use Rattle.hir_session_state.specs.HirCrateGraph.Dependencies.{AreTransitive};
ghost use Rattle.hir_session_state.specs.HirCollectorRules.Workspace.{config_view, earlier};
ghost use Rattle.hir_session_state.specs.Crates.{AreTransitiveOf, config_in, crate_in, no_crate, transitive_in, with_config};

use crate::crate_info::CrateInfo;
use hir_base::ids::Crate;
use hir_session_state::hir_collector_rules::source_database::{Config, Dependency};
use hir_session_state::hir_crate_graph::{CrateGraphError, CrateSet, TransitiveDependencies};
use std::alloc::{AllocError, Global};
use std::marker::Model;
use std::rc::Rc;

/// The crates by number, and the transitive dependencies of each.
#[derive(Drop)]
pub struct Crates {
    list: Vec<CrateInfo>,
    transitive: TransitiveDependencies,
}

impl Model for Crates {
    ghost use Rattle.std.specs.Prelude.{List};
    ghost use Rattle.hir_session_state.specs.CrateCodes.{coded_crates};
    ghost use Rattle.hir_session_state.specs.Crates.{CrateValue, AreTransitiveOf};

    ghost Value = { List CrateValue };

    ghost coded = { coded_crates };

    ghost view = { λ c. c.list.items };

    ghost invariant = { λ c. AreTransitiveOf c.list.items c.transitive };
}

/// The crates that dependencies name.
fn named_crates(alloc: Global, dependencies: &[Dependency]) -> Result<Vec<Crate>, AllocError>
    ensures value { IfOk result (λ v. v.items ≡ map (λ d. d.krate) dependencies.now) }
{
    let mut crates = Vec::new(alloc);
    for dependency in dependencies {
        crates.push(dependency.krate)?;
    }
    Ok(crates)
}

fn same_crates(a: &[Crate], b: &[Crate]) -> bool
    ensures exact { IsTrue result ↔ (a.now ≡ b.now) }
{
    if a.len() != b.len() {
        return false;
    }
    for i in 0..a.len() {
        if a[i].0 != b[i].0 {
            return false;
        }
    }
    true
}

/// Takes the next crate, which names these dependencies.
fn add_transitive(
    alloc: Global,
    transitive: &mut TransitiveDependencies,
    config: &Config,
) -> Result<(), CrateGraphError>
    ensures added { (direct : ℕ → List Crate) → AreTransitive direct transitive.old
        → direct (length transitive.old) ≡ earlier (length transitive.old) (map (λ d. d.krate) config.now.dependencies.items)
        → OnOk result (AreTransitive direct transitive.new) }
    ensures longer { OnOk result (length transitive.new ≡ length transitive.old + 1) }
{
    let named = named_crates(alloc, config.dependencies.as_slice())?;
    transitive.push(named.as_slice())
}

impl Crates {
    /// These crates, each of which depends on such as come before it.
    pub fn new(alloc: Global, list: Vec<CrateInfo>) -> Result<Crates, CrateGraphError>
        ensures value { IfOk result (λ crates. crates ≡ list.items) }
    {
        let mut transitive = TransitiveDependencies::new(alloc);
        for info in &list {
            add_transitive(alloc, &mut transitive, info.config())?;
        }
        Ok(Crates { list, transitive })
    }

    /// What the crates depend on where the one of this number is handed in with that. What those before it depend on is shared.
    fn transitive_with(
        &self,
        alloc: Global,
        k: usize,
        config: &Config,
    ) -> Result<TransitiveDependencies, CrateGraphError>
        requires within { k < length self.now }
        ensures transitive { IfOk result (λ t. AreTransitiveOf (with_config self.now k (config_view config.now)) t) }
    {
        let mut transitive = self.transitive.prefix(k)?;
        add_transitive(alloc, &mut transitive, config)?;
        for info in &self.list.as_slice()[k + 1..] {
            add_transitive(alloc, &mut transitive, info.config())?;
        }
        Ok(transitive)
    }

    /// Whether these data name the crates that the one of this number names.
    fn names_the_same(&self, alloc: Global, k: usize, config: &Config) -> Result<bool, AllocError>
        requires within { k < length self.now }
        ensures exact { IfOk result (λ same. IsTrue same
            ↔ (map (λ d. d.krate) (crate_in self.now k).config.dependencies ≡ map (λ d. d.krate) config.now.dependencies.items)) }
    {
        let before = named_crates(alloc, self.list[k].config().dependencies.as_slice())?;
        let named = named_crates(alloc, config.dependencies.as_slice())?;
        Ok(same_crates(before.as_slice(), named.as_slice()))
    }

    /// Has a crate handed in with data that name the crates that it named, so that each depends on what it depended on.
    fn set_alike(&mut self, k: usize, config: Config)
        requires within { k < length self.old }
        requires same { map (λ d. d.krate) (crate_in self.old k).config.dependencies ≡ map (λ d. d.krate) config.dependencies.items }
        ensures value { self.new ≡ with_config self.old k (config_view config) }
    {
        self.list[k].set_config(config);
    }

    /// Has a crate handed in with data that name other crates.
    fn set_anew(&mut self, alloc: Global, k: usize, config: Config) -> Result<(), AllocError>
        requires within { k < length self.old }
        ensures ok { OnOk result (self.new ≡ with_config self.old k (config_view config)) }
        ensures err { OnErr result (self.new ≡ self.old) }
    {
        match self.transitive_with(alloc, k, &config) {
            Ok(transitive) => self.transitive = transitive,
            Err(_) => return Err(AllocError),
        }
        self.list[k].set_config(config);
        Ok(())
    }

    /// Has a crate handed in with this. It is for data that name only crates which come before it.
    pub fn set(&mut self, alloc: Global, krate: Crate, config: Config) -> Result<(), AllocError>
        requires within { krate.0 < length self.old }
        ensures ok { OnOk result (self.new ≡ with_config self.old krate.0 (config_view config)) }
        ensures err { OnErr result (self.new ≡ self.old) }
    {
        let k = krate.0 as usize;
        if self.names_the_same(alloc, k, &config)? {
            self.set_alike(k, config);
            return Ok(());
        }
        self.set_anew(alloc, k, config)
    }

    /// A crate as it is where it is handed in with this.
    pub fn handed_in(&self, krate: Crate, config: Config) -> Result<CrateInfo, AllocError>
        requires within { krate.0 < length self.now }
        ensures value { IfOk result (λ c. c ≡ record (crate_in self.now krate.0) { config = config_view config }) }
    {
        self.list[krate.0 as usize].with_config(config)
    }

    /// How many crates there are.
    pub fn len(&self) -> usize
        ensures value { result ≡ length self.now }
    {
        self.list.len()
    }

    /// The crates in the order of their numbers.
    pub fn as_slice(&self) -> &[CrateInfo]
        ensures value { result.now ≡ self.now }
    {
        self.list.as_slice()
    }

    /// The crate of a number.
    pub fn get(&self, krate: Crate) -> Option<&CrateInfo>
        ensures value { option_map (λ c. c.now) result ≡ slice_get self.now krate.0 }
        ensures there { unwrap_or (option_map (λ c. c.now) result) no_crate ≡ crate_in self.now krate.0 }
    {
        self.list.get(krate.0 as usize)
    }

    /// The crates on which one depends directly or through others, where it is there.
    pub fn transitive_dependencies(&self, krate: Crate) -> Option<&Rc<CrateSet>>
        ensures value { option_map (λ crates. crates.now.value) result
            ≡ option_map (λ _. transitive_in self.now krate.0) (config_in self.now krate) }
    {
        self.transitive.get(krate)
    }
}
