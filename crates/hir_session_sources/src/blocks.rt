//! The blocks of a session.
//!
//! They are found by a crate and the steps to a block, which takes no memory; each is kept with its place, by which its number
//! is found.
ghost use Rattle.std.specs.Prelude.{◌≡◌, ◌++◌, [], map, is_some, IfOk, IfSome, OnOk, OnErr, option_map};
ghost use Rattle.std.specs.BTreeMap.{is_at, insert_entry};
ghost use Rattle.std.specs.Map.{lookup};
ghost use Rattle.hir_session_state.specs.HirIds.contracts.ids.CrateOrd.TheImpl as crate_order;
ghost use Rattle.hir_session_state.specs.HirItemTree.Source.{source_view};
ghost use Rattle.hir_session_state.specs.Blocks.{block_in, place_of_block, steps_cmp, with_block, without_block};
ghost use Rattle.hir_session_sources.specs.BlockTables.{ArePlacedIn, has_place, sources_of, steps_in, with_set, without_set, without_steps};
ghost use Rattle.hir_session_sources.specs.BlockPlaces.{places_of};

use hir_base::ids::Crate;
use hir_base::place::{BlockPlace, Place, PlaceElement};
use hir_item_tree::source::Source;
use std::alloc::{AllocError, Global};
use std::collections::BTreeMap;
use std::marker::Model;

/// A block as it was handed in, and its place.
#[derive(Drop)]
pub struct SetBlock {
    place: BlockPlace,
    source: Source,
}

impl Model for SetBlock {
    ghost use Rattle.hir_session_state.specs.HirItemTree.Source.{source_view};
    ghost use Rattle.hir_session_sources.specs.BlockCodes.{coded_set_block};
    ghost use Rattle.hir_session_sources.specs.BlockTables.{SetBlockValue};

    ghost Value = { SetBlockValue };

    ghost coded = { coded_set_block };

    ghost view = { λ b. record { place = b.place; source = source_view b.source } };
}

/// The blocks of a crate, by the steps to each.
#[derive(Drop)]
pub struct CrateBlocks {
    blocks: BTreeMap<Vec<PlaceElement>, SetBlock>,
}

impl Model for CrateBlocks {
    ghost use Rattle.hir_session_sources.specs.BlockCodes.{coded_set_blocks};
    ghost use Rattle.hir_session_sources.specs.BlockTables.{by_steps, SetBlocks};

    ghost Value = { SetBlocks };

    ghost coded = { coded_set_blocks };

    ghost view = { λ b. by_steps b.blocks.entries };
}

/// The blocks that are there, by crate.
#[derive(Drop)]
pub struct Blocks {
    by_crate: BTreeMap<Crate, CrateBlocks>,
    alloc: Global,
}

impl Model for Blocks {
    ghost use Rattle.hir_session_state.specs.Blocks.{Blocks as BlockList};
    ghost use Rattle.hir_session_sources.specs.BlockCodes.{coded_blocks};
    ghost use Rattle.hir_session_sources.specs.BlockTables.{AreInPlace, sources_by_crate};

    ghost Value = { BlockList };

    ghost coded = { coded_blocks };

    ghost view = { λ b. sources_by_crate b.by_crate.entries };

    ghost invariant = { λ b. AreInPlace b.by_crate.entries };
}

impl SetBlock {
    fn place(&self) -> &BlockPlace
        ensures value { result.now ≡ self.now.place }
    {
        &self.place
    }

    fn source(&self) -> &Source
        ensures value { source_view result.now ≡ self.now.source }
    {
        &self.source
    }
}

impl CrateBlocks {
    fn new(alloc: Global) -> CrateBlocks
        ensures value { result ≡ [] }
    {
        CrateBlocks {
            blocks: BTreeMap::new(alloc),
        }
    }

    fn get(&self, steps: &[PlaceElement]) -> Option<&SetBlock>
        ensures value { option_map (λ b. b.now) result ≡ lookup (is_at (steps_cmp steps.now)) self.now }
    {
        self.blocks.get(steps)
    }

    /// Whether a place is that of one of the blocks. They are gone over, since the steps by which one is found would take memory.
    fn has(&self, place: &BlockPlace) -> bool
        ensures value { result ≡ has_place (map (λ e. e.1.place) self.now) place.now }
    {
        for block in self.blocks.values() {
            if *block.place() == *place {
                return true;
            }
        }
        false
    }

    fn set(&mut self, steps: Vec<PlaceElement>, block: SetBlock) -> Result<(), AllocError>
        ensures ok { OnOk result (self.new ≡ insert_entry steps_cmp self.old steps.items block) }
        ensures err { OnErr result (self.new ≡ self.old) }
    {
        self.blocks.insert(steps, block)?;
        Ok(())
    }

    fn remove(&mut self, steps: &[PlaceElement])
        ensures value { self.new ≡ without_steps self.old steps.now }
    {
        self.blocks.remove(steps);
    }

    /// Puts the places of the blocks behind others.
    fn add_places<'a>(&'a self, places: &mut Vec<&'a BlockPlace>) -> Result<(), AllocError>
        ensures ok { OnOk result (map (λ p. p.now) places.new.items ≡ map (λ p. p.now) places.old.items ++ map (λ e. e.1.place) self.now) }
    {
        for block in self.blocks.values() {
            places.push(block.place())?;
        }
        Ok(())
    }
}

/// The steps to the root of a block.
fn steps_to(alloc: Global, place: &BlockPlace) -> Result<Vec<PlaceElement>, AllocError>
    ensures value { IfOk result (λ steps. steps.items ≡ (place_of_block place.now).elements) }
{
    let mut steps = Vec::new(alloc);
    for element in place.holder.elements() {
        steps.push(element.clone()?)?;
    }
    steps.push(PlaceElement::Block(place.id))?;
    Ok(steps)
}

/// The place of the root of a block.
pub fn root_of_block(alloc: Global, place: &BlockPlace) -> Result<Place, AllocError>
    ensures value { IfOk result (λ root. root ≡ place_of_block place.now) }
{
    let steps = steps_to(alloc, place)?;
    Ok(Place::new(place.holder.krate(), steps))
}

/// Sets a block of a crate.
fn set_of_crate(
    blocks: &mut BTreeMap<Crate, CrateBlocks>,
    alloc: Global,
    krate: Crate,
    steps: Vec<PlaceElement>,
    block: SetBlock,
) -> Result<(), AllocError>
    ensures ok { OnOk result (blocks.new.entries ≡ with_set blocks.old.entries krate steps.items block) }
    ensures err { OnErr result (blocks.new.entries ≡ blocks.old.entries) }
{
    match blocks.get_mut(&krate) {
        Some(own) => {
            own.set(steps, block)?;
            Ok(())
        }
        None => {
            let mut own = CrateBlocks::new(alloc);
            own.set(steps, block)?;
            blocks.insert(krate, own)?;
            Ok(())
        }
    }
}

/// Removes a block of a crate.
fn remove_of_crate(blocks: &mut BTreeMap<Crate, CrateBlocks>, krate: Crate, steps: &[PlaceElement])
    ensures value { blocks.new.entries ≡ without_set blocks.old.entries krate steps.now }
{
    match blocks.get_mut(&krate) {
        Some(own) => {
            own.remove(steps);
        }
        None => {}
    }
}

impl Blocks {
    pub(crate) fn new(alloc: Global) -> Blocks
        ensures value { result ≡ [] }
    {
        Blocks {
            by_crate: BTreeMap::new(alloc),
            alloc,
        }
    }

    /// The blocks of a crate, where one was ever set.
    fn own(&self, krate: Crate) -> Option<&CrateBlocks>
        ensures value { option_map (λ own. sources_of own.now) result ≡ lookup (is_at (crate_order.ghosts.cmp krate)) self.now }
        ensures placed { IfSome result (λ own. ArePlacedIn krate own.now) }
    {
        self.by_crate.get(&krate)
    }

    fn found(&self, krate: Crate, steps: &[PlaceElement]) -> Option<&SetBlock>
        ensures value { option_map (λ b. b.now.source) result ≡ block_in self.now (steps_in krate steps.now) }
        ensures placed { IfSome result (λ b. place_of_block b.now.place ≡ steps_in krate steps.now) }
    {
        match self.own(krate) {
            Some(own) => own.get(steps),
            None => None,
        }
    }

    /// The source of the block to which the steps lead, if it is there.
    pub fn get(&self, krate: Crate, steps: &[PlaceElement]) -> Option<&Source>
        ensures value { option_map (λ s. source_view s.now) result ≡ block_in self.now (steps_in krate steps.now) }
    {
        match self.found(krate, steps) {
            Some(block) => Some(block.source()),
            None => None,
        }
    }

    /// The place of the block to which the steps lead, if it is there.
    pub fn place(&self, krate: Crate, steps: &[PlaceElement]) -> Option<&BlockPlace>
        ensures value { option_map (λ p. place_of_block p.now) result
            ≡ option_map (λ _. steps_in krate steps.now) (block_in self.now (steps_in krate steps.now)) }
    {
        match self.found(krate, steps) {
            Some(block) => Some(block.place()),
            None => None,
        }
    }

    /// The places of all blocks, in their order.
    pub fn places(&self) -> Result<Vec<&BlockPlace>, AllocError>
        ensures value { IfOk result (λ places. map (λ p. place_of_block p.now) places.items ≡ places_of self.now) }
    {
        let mut places = Vec::new(self.alloc);
        for own in self.by_crate.values() {
            own.add_places(&mut places)?;
        }
        Ok(places)
    }

    /// Whether a block is there.
    pub fn has(&self, place: &BlockPlace) -> bool
        ensures value { result ≡ is_some (block_in self.now (place_of_block place.now)) }
    {
        match self.own(place.holder.krate()) {
            Some(own) => own.has(place),
            None => false,
        }
    }

    /// The source of a block, if it is there. The steps to it take memory.
    pub fn at(&self, place: &BlockPlace) -> Result<Option<&Source>, AllocError>
        ensures value { IfOk result (λ found. option_map (λ s. source_view s.now) found ≡ block_in self.now (place_of_block place.now)) }
    {
        let steps = steps_to(self.alloc, place)?;
        Ok(self.get(place.holder.krate(), steps.as_slice()))
    }

    /// Sets a block.
    pub(crate) fn set(&mut self, place: BlockPlace, source: Source) -> Result<(), AllocError>
        ensures ok { OnOk result (self.new ≡ with_block self.old (place_of_block place) (source_view source)) }
        ensures err { OnErr result (self.new ≡ self.old) }
    {
        let alloc = self.alloc;
        let steps = steps_to(alloc, &place)?;
        let krate = place.holder.krate();
        let block = SetBlock { place, source };
        set_of_crate(&mut self.by_crate, alloc, krate, steps, block)?;
        Ok(())
    }

    /// Removes a block. The steps to it take memory.
    pub(crate) fn remove(&mut self, place: &BlockPlace) -> Result<(), AllocError>
        ensures ok { OnOk result (self.new ≡ without_block self.old (place_of_block place.now)) }
        ensures err { OnErr result (self.new ≡ self.old) }
    {
        let steps = steps_to(self.alloc, place)?;
        remove_of_crate(&mut self.by_crate, place.holder.krate(), steps.as_slice());
        Ok(())
    }
}
