//! The names of modules that globs brought in one namespace.
ghost use Rattle.std.specs.Prelude.{◌≡◌, [], true, None, IfOk, OnErr, List, Bool, is_some};
ghost use Rattle.std.specs.BTreeMap.{is_at};
ghost use Rattle.std.specs.Cmp.{IsTotalOrder};
ghost use Rattle.std.specs.Cmp.Lexicographic.{slice_cmp};
ghost use Rattle.std.specs.List.Sorted.{IsStrictlySortedBy};
ghost use Rattle.std.specs.Map.{lookup};
ghost use Rattle.std.specs.Ordering.{nat_cmp};
ghost use Rattle.std.specs.Set.{remove_key};
ghost use Rattle.hir_ids.specs.contracts.ids.ModuleIdOrd.TheImpl as module_id;
ghost use Rattle.hir_scope_table.specs.Entries.{item_at};
ghost use Rattle.hir_scope_table.specs.Globs.{Place, place_cmp, has_place, without_place};
ghost use Rattle.hir_scope_table.specs.Inner.Places.{names_in, places_of, AreNamesSorted};
ghost use Rattle.hir_scope_table.specs.Inner.Reserved.{IsKeyFor};

use crate::gap_map::GapMap;
use hir_ids::ids::ModuleId;
use hir_ids::name::Name;
use std::alloc::{AllocError, Global};
use std::collections::BTreeMap;
use std::marker::Model;

/// Names, and nothing else.
type Names = GapMap<Name, ()>;

/// The names of modules that stand for what a glob brought.
#[derive(Drop)]
pub struct Globs {
    modules: BTreeMap<ModuleId, Names>,
    alloc: Global,
}

impl Model for Globs {
    ghost use Rattle.std.specs.Prelude.{List};
    ghost use Rattle.hir_scope_table.specs.Globs.{Place};

    ghost Value = { List Place };

    ghost use Rattle.hir_scope_table.specs.Inner.Places.{places_of, AreNamesSorted};

    ghost view = { λ g. places_of g.modules.entries };

    ghost invariant = { λ g. AreNamesSorted g.modules.entries };
}

impl Globs {
    pub fn new(alloc: Global) -> Globs
        ensures value { result ≡ [] }
    {
        Globs {
            modules: BTreeMap::new(alloc),
            alloc,
        }
    }

    /// Whether a glob brought what the name of the module stands for.
    pub fn contains(&self, place: &(ModuleId, Name)) -> bool
        ensures value { result ≡ has_place self.now place.now }
    {
        is_among(&self.modules, place)
    }

    // Each name of a module is there once, since the places are in order.
    pub fn is_ordered(&self)
        ensures total { IsTotalOrder place_cmp }
        ensures ordered { IsStrictlySortedBy place_cmp self.now }
    {
        let _ = self.modules.len();
    }

    /// Adds a place, if it is wanted and not there; says whether it was added.
    pub(crate) fn reserve(
        &mut self,
        at: &(ModuleId, Name),
        wanted: bool,
    ) -> Result<bool, AllocError>
        ensures ok { IfOk result (λ added. IsKeyFor place_cmp self.old at.now wanted added self.new) }
        ensures err { OnErr result (self.new ≡ self.old) }
    {
        if wanted {
            add(self.alloc, &mut self.modules, at)
        } else {
            Ok(false)
        }
    }

    /// Takes out a place that was added.
    pub(crate) fn roll_back(&mut self, at: &(ModuleId, Name), added: bool)
        ensures back { (earlier : List Place) (wanted : Bool) → IsKeyFor place_cmp earlier at.now wanted added self.old
            → self.new ≡ earlier }
    {
        if added {
            self.remove(at);
        }
    }

    pub(crate) fn remove(&mut self, at: &(ModuleId, Name))
        ensures value { self.new ≡ without_place self.old at.now }
    {
        take_out(&mut self.modules, at);
    }
}

fn has_name(names: &Names, name: &Name) -> bool
    ensures value { result ≡ is_some (item_at names.now name.now) }
{
    names.get(name).is_some()
}

fn is_among(modules: &BTreeMap<ModuleId, Names>, at: &(ModuleId, Name)) -> bool
    ensures value { result ≡ has_place (places_of modules.now.entries) at.now }
{
    let _ = modules.len();
    match modules.get(&at.0) {
        Some(names) => has_name(names, &at.1),
        None => false,
    }
}

/// Adds a name, unless it is there; says whether it was added.
fn add_among(names: &mut Names, name: &Name) -> Result<bool, AllocError>
    ensures ok { IfOk result (λ added. IsKeyFor (slice_cmp nat_cmp) (names_in names.old) name.now true added (names_in names.new)) }
    ensures err { OnErr result (names.new ≡ names.old) }
    ensures sorted { IsStrictlySortedBy (slice_cmp nat_cmp) (names_in names.new) }
{
    names.is_ordered();
    let added = names.add(name.clone()?, ())?;
    names.is_ordered();
    Ok(added)
}

/// Adds a place, unless it is there; says whether it was added.
fn add(
    alloc: Global,
    modules: &mut BTreeMap<ModuleId, Names>,
    at: &(ModuleId, Name),
) -> Result<bool, AllocError>
    requires sorted { AreNamesSorted modules.old.entries }
    ensures ok { IfOk result (λ added. IsKeyFor place_cmp (places_of modules.old.entries) at.now true added (places_of modules.new.entries)) }
    ensures err { OnErr result (places_of modules.new.entries ≡ places_of modules.old.entries) }
    ensures sorted { AreNamesSorted modules.new.entries }
{
    match modules.get_mut(&at.0) {
        Some(names) => add_among(names, &at.1),
        None => add_first(alloc, modules, at),
    }
}

/// Adds the first place of a module.
fn add_first(
    alloc: Global,
    modules: &mut BTreeMap<ModuleId, Names>,
    at: &(ModuleId, Name),
) -> Result<bool, AllocError>
    requires sorted { AreNamesSorted modules.old.entries }
    requires absent { lookup (is_at (module_id.ghosts.cmp at.now.0)) modules.old.entries ≡ None }
    ensures ok { IfOk result (λ added. IsKeyFor place_cmp (places_of modules.old.entries) at.now true added (places_of modules.new.entries)) }
    ensures err { OnErr result (places_of modules.new.entries ≡ places_of modules.old.entries) }
    ensures sorted { AreNamesSorted modules.new.entries }
{
    let mut names = Names::new(alloc);
    let added = add_among(&mut names, &at.1)?;
    modules.insert(at.0, names)?;
    Ok(added)
}

/// Takes out a name.
fn remove_among(names: &mut Names, name: &Name)
    ensures value { names_in names.new ≡ remove_key (is_at (slice_cmp nat_cmp name.now)) (names_in names.old) }
    ensures sorted { IsStrictlySortedBy (slice_cmp nat_cmp) (names_in names.new) }
{
    names.remove(name);
    names.is_ordered();
}

/// Takes out a place.
fn take_out(modules: &mut BTreeMap<ModuleId, Names>, at: &(ModuleId, Name))
    requires sorted { AreNamesSorted modules.old.entries }
    ensures value { places_of modules.new.entries ≡ without_place (places_of modules.old.entries) at.now }
    ensures sorted { AreNamesSorted modules.new.entries }
{
    match modules.get_mut(&at.0) {
        Some(names) => remove_among(names, &at.1),
        None => {}
    }
}
