//! The items of traits and impls.
//!
//! They are read from the present sources, so nothing of them is kept. The macro calls in them get numbers, and that is all that
//! such a query changes.
ghost use Rattle.std.specs.Prelude.{◌≡◌, ◌≢◌, ◌<◌, ◌⊎◌, false, is_none, length, Some, IfOk, IfErr, Ok, Err};
ghost use Rattle.hir_session_state.specs.HirIds.declared.ast_id.AstKind.TheVariants as kind;
ghost use Rattle.hir_session_state.specs.HirIds.declared.ids.ImplId.{ImplId};
ghost use Rattle.hir_session_state.specs.HirIds.declared.ids.TraitId.{TraitId};
ghost use Rattle.hir_session_state.specs.HirIds.declared.ids.ItemContainerId.TheVariants as container;
ghost use Rattle.hir_assoc_items.specs.AssocItems.{items_written, listing_of};
ghost use Rattle.hir_session_state.specs.HirNameres.DefMaps.{maps_of};
ghost use Rattle.hir_session_state.specs.HirNameres.WorldParts.{among};
ghost use Rattle.hir_session_state.specs.HirDefMapRules.Overlay.{overlay};
ghost use Rattle.hir_session_state.specs.Crates.{transitive_in};
ghost use Rattle.hir_session_state.specs.Due.{Grows};
ghost use Rattle.hir_session_state.specs.Kept.{finished_by, kept_in, resolution_of};
ghost use Rattle.hir_session_state.specs.SessionState.{is_marked, module_of, workspace_of};
ghost use Rattle.hir_session_answers.specs.AssocItems.{impl_asked, impl_at, impl_kept, trait_asked, trait_at, trait_kept, Flattens, IsTooManyIn, ListsImpl, ListsTrait, RefusesImpl, RefusesTrait, Tells};

use super::Session;
use hir_assoc_items::error::AssocItemsError;
use hir_base::ids::{Crate, ImplId, MapId, TraitId};
use hir_base::mod_path::ModPath;
use hir_base::place::Place;
use hir_session_answers::assoc_items::{impl_at, items_at, trait_at};
use hir_session_invalidation::inputs::AssocList;
use hir_session_sources::crates::Crates;
use hir_session_state::error::{ImplItemsError, TraitItemsError};
use hir_session_state::hir_crate_graph::crate_set::CrateSet;
use hir_session_state::hir_def_map::def_maps::DefMaps;
use hir_session_state::hir_def_map::world::part::WorldPart;
use hir_session_state::hir_messages::items::Items;
use hir_session_state::hir_messages::reply::Status;
use hir_session_state::kept::{Kept, KeptResolution};
use std::alloc::{AllocError, Global};
use std::rc::Rc;

/// What is kept of a map.
fn found_of(kept: &Kept, id: MapId) -> KeptResolution<'_>
    requires kept { is_none (kept_in kept.now id) ≡ false }
    ensures value { kept_in kept.now id ≡ Some (resolution_of result) }
{
    kept.get(id).unwrap()
}

/// The crates on which one depends.
fn behind(crates: &Crates, krate: Crate) -> Result<Rc<CrateSet>, AllocError>
    requires within { krate.0 < length crates.now }
    ensures value { IfOk result (λ behind. behind.value ≡ transitive_in crates.now krate.0) }
{
    let shared = crates.transitive_dependencies(krate).unwrap();
    Ok(shared.clone()?)
}

/// What is kept of a map, beside the finished maps that it reads.
fn maps_beside<'a>(kept: &'a Kept, crates: &'a CrateSet, found: KeptResolution<'a>) -> DefMaps<'a>
    ensures value { maps_of result ≡ overlay (among crates.now found.entry.holders.now (finished_by kept.now)) found.entry.map.now }
{
    DefMaps::new(
        WorldPart::among(kept.world(), crates, found.holders),
        found.map,
    )
}

/// Why the items of a trait aren't listed where a list was given up. No macro is of an unknown source: the maps were made over the
/// session's own tables.
fn trait_items_error(error: AssocItemsError) -> TraitItemsError
    requires known { error ≢ AssocItemsError.UnknownSource }
    ensures value { (error ≡ AssocItemsError.TooMany) × (result ≡ TraitItemsError.TooMany)
        ⊎ ((error ≡ AssocItemsError.Memory) × (result ≡ TraitItemsError.Memory)) }
{
    match error {
        AssocItemsError::TooMany => TraitItemsError::TooMany,
        AssocItemsError::Memory => TraitItemsError::Memory,
        AssocItemsError::UnknownSource => unreachable!(),
    }
}

/// Why those of an impl aren't.
fn impl_items_error(error: AssocItemsError) -> ImplItemsError
    requires known { error ≢ AssocItemsError.UnknownSource }
    ensures value { (error ≡ AssocItemsError.TooMany) × (result ≡ ImplItemsError.TooMany)
        ⊎ ((error ≡ AssocItemsError.Memory) × (result ≡ ImplItemsError.Memory)) }
{
    match error {
        AssocItemsError::TooMany => ImplItemsError::TooMany,
        AssocItemsError::Memory => ImplItemsError::Memory,
        AssocItemsError::UnknownSource => unreachable!(),
    }
}

impl Session {
    /// A trait that was found, if it was, in a map that is kept.
    fn kept_trait(&self, found: Option<TraitId>) -> Result<TraitId, TraitItemsError>
        ensures value { result ≡ trait_kept self.now.kept found }
    {
        match found {
            Some(id) if self.is_marked(id.loc.container.map) => Err(TraitItemsError::UnknownPlace),
            Some(id) => Ok(id),
            None => Err(TraitItemsError::NotATrait),
        }
    }

    /// The trait that a path names over what is kept.
    fn trait_kept(&self, place: &Place, path: &ModPath) -> Result<TraitId, TraitItemsError>
        ensures value { result ≡ trait_asked self.now (module_of self.now place.now) path.now }
    {
        let Some(at) = self.standing(place).module() else {
            return Err(TraitItemsError::UnknownPlace);
        };
        let Some(found) = self.kept.get(at.map) else {
            return Err(TraitItemsError::UnknownPlace);
        };
        let Some(crates) = self.inputs.crates().transitive_dependencies(at.map.krate) else {
            return Err(TraitItemsError::UnknownPlace);
        };
        let maps = maps_beside(&self.kept, crates, found);
        self.kept_trait(trait_at(&maps, found.local, at, path))
    }

    /// The trait whose items are asked for.
    fn trait_named(&self, place: &Place, path: &ModPath) -> Result<TraitId, TraitItemsError>
        ensures value { result ≡ trait_at self.now place.now path.now }
    {
        match self.status(place) {
            Status::Current => self.trait_kept(place, path),
            Status::Stale => Err(TraitItemsError::StalePlace),
            Status::Unknown => Err(TraitItemsError::UnknownPlace),
        }
    }

    /// An impl that was found, if it was, in a map that is kept.
    fn kept_impl(&self, found: Option<ImplId>) -> Result<ImplId, ImplItemsError>
        ensures value { result ≡ impl_kept self.now.kept found }
    {
        match found {
            Some(id) if self.is_marked(id.loc.container.map) => Err(ImplItemsError::UnknownPlace),
            Some(id) => Ok(id),
            None => Err(ImplItemsError::NoSuchImpl),
        }
    }

    /// The impl of a number over what is kept.
    fn impl_kept(&self, place: &Place, number: u32) -> Result<ImplId, ImplItemsError>
        ensures value { result ≡ impl_asked self.now (module_of self.now place.now) number }
    {
        let Some(at) = self.standing(place).module() else {
            return Err(ImplItemsError::UnknownPlace);
        };
        let Some(found) = self.kept.get(at.map) else {
            return Err(ImplItemsError::UnknownPlace);
        };
        self.kept_impl(impl_at(found.map, at.index, number))
    }

    /// The impl whose items are asked for.
    fn impl_numbered(&self, place: &Place, number: u32) -> Result<ImplId, ImplItemsError>
        ensures value { result ≡ impl_at self.now place.now number }
    {
        match self.status(place) {
            Status::Current => self.impl_kept(place, number),
            Status::Stale => Err(ImplItemsError::StalePlace),
            Status::Unknown => Err(ImplItemsError::UnknownPlace),
        }
    }

    /// What a trait in a map that is kept holds.
    fn list_trait(&mut self, alloc: Global, id: TraitId) -> Result<AssocList, AssocItemsError>
        requires kept { is_marked self.old id.loc.container.map ≡ false }
        ensures grown { Grows self.old self.new }
        ensures flattened { IfOk result (λ list. Flattens self.old self.new id.loc.container.map (container.TraitId id)
            (items_written self.old.tables (workspace_of self.old) id.loc kind.Trait)
            (listing_of list.items.items list.calls.items list.diagnostics)) }
        ensures many { result ≡ Err AssocItemsError.TooMany → IsTooManyIn self.old self.new id.loc.container.map (container.TraitId id)
            (items_written self.old.tables (workspace_of self.old) id.loc kind.Trait) }
        ensures known { result ≢ Err AssocItemsError.UnknownSource }
    {
        let map = id.loc.container.map;
        let found = found_of(&self.kept, map);
        let crates = behind(self.inputs.crates(), map.krate)?;
        let maps = maps_beside(&self.kept, &crates, found);
        self.inputs
            .list_trait(alloc, &mut self.tables, maps, found.local, id)
    }

    /// What an impl in a map that is kept holds.
    fn list_impl(&mut self, alloc: Global, id: ImplId) -> Result<AssocList, AssocItemsError>
        requires kept { is_marked self.old id.loc.container.map ≡ false }
        ensures grown { Grows self.old self.new }
        ensures flattened { IfOk result (λ list. Flattens self.old self.new id.loc.container.map (container.ImplId id)
            (items_written self.old.tables (workspace_of self.old) id.loc kind.Impl)
            (listing_of list.items.items list.calls.items list.diagnostics)) }
        ensures many { result ≡ Err AssocItemsError.TooMany → IsTooManyIn self.old self.new id.loc.container.map (container.ImplId id)
            (items_written self.old.tables (workspace_of self.old) id.loc kind.Impl) }
        ensures known { result ≢ Err AssocItemsError.UnknownSource }
    {
        let map = id.loc.container.map;
        let found = found_of(&self.kept, map);
        let crates = behind(self.inputs.crates(), map.krate)?;
        let maps = maps_beside(&self.kept, &crates, found);
        self.inputs
            .list_impl(alloc, &mut self.tables, maps, found.local, id)
    }

    /// A list of a trait or an impl in a map that is kept, in source items.
    fn tell(&self, alloc: Global, map: MapId, list: &AssocList) -> Result<Items, AllocError>
        requires kept { is_marked self.now map ≡ false }
        ensures told { IfOk result (λ told. Tells self.now map
            (listing_of list.now.items.items list.now.calls.items list.now.diagnostics) told) }
    {
        let found = found_of(&self.kept, map);
        let crates = behind(self.inputs.crates(), map.krate)?;
        let maps = maps_beside(&self.kept, &crates, found);
        items_at(
            alloc,
            &self.tables,
            &maps,
            list.items.as_slice(),
            list.calls.as_slice(),
            &list.diagnostics,
        )
    }

    /// What a trait in a map that is kept holds, in source items.
    fn tell_trait(&mut self, alloc: Global, id: TraitId) -> Result<Items, TraitItemsError>
        requires kept { is_marked self.old id.loc.container.map ≡ false }
        ensures grown { Grows self.old self.new }
        ensures listed { IfOk result (λ told. ListsTrait self.old id told self.new) }
        ensures refused { IfErr result (λ why. RefusesTrait self.old id why self.new) }
    {
        match self.list_trait(alloc, id) {
            Ok(list) => Ok(self.tell(alloc, id.loc.container.map, &list)?),
            Err(error) => Err(trait_items_error(error)),
        }
    }

    /// What an impl in a map that is kept holds, in source items.
    fn tell_impl(&mut self, alloc: Global, id: ImplId) -> Result<Items, ImplItemsError>
        requires kept { is_marked self.old id.loc.container.map ≡ false }
        ensures grown { Grows self.old self.new }
        ensures listed { IfOk result (λ told. ListsImpl self.old id told self.new) }
        ensures refused { IfErr result (λ why. RefusesImpl self.old id why self.new) }
    {
        match self.list_impl(alloc, id) {
            Ok(list) => Ok(self.tell(alloc, id.loc.container.map, &list)?),
            Err(error) => Err(impl_items_error(error)),
        }
    }

    /// What a trait holds, which a path names from the module that a place names. Calls whose paths reach macros are replaced by
    /// what they expand to.
    pub fn trait_items(
        &mut self,
        alloc: Global,
        place: &Place,
        path: &ModPath,
    ) -> Result<Items, TraitItemsError>
        ensures grown { Grows self.old self.new }
        ensures listed { IfOk result (λ told. (id : TraitId) × (trait_at self.old place.now path.now ≡ Ok id) × ListsTrait self.old id told self.new) }
        ensures refused { IfErr result (λ why. (trait_at self.old place.now path.now ≡ Err why) × (self.new ≡ self.old)
            ⊎ ((id : TraitId) × (trait_at self.old place.now path.now ≡ Ok id) × RefusesTrait self.old id why self.new)) }
    {
        let _ = &self.kept;
        let id = self.trait_named(place, path)?;
        self.tell_trait(alloc, id)
    }

    /// What an impl holds, which is the one of this number among those of the module that a place names, from 0.
    pub fn impl_items(
        &mut self,
        alloc: Global,
        place: &Place,
        number: u32,
    ) -> Result<Items, ImplItemsError>
        ensures grown { Grows self.old self.new }
        ensures listed { IfOk result (λ told. (id : ImplId) × (impl_at self.old place.now number ≡ Ok id) × ListsImpl self.old id told self.new) }
        ensures refused { IfErr result (λ why. (impl_at self.old place.now number ≡ Err why) × (self.new ≡ self.old)
            ⊎ ((id : ImplId) × (impl_at self.old place.now number ≡ Ok id) × RefusesImpl self.old id why self.new)) }
    {
        let _ = &self.kept;
        let id = self.impl_numbered(place, number)?;
        self.tell_impl(alloc, id)
    }
}
