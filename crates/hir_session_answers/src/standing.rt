//! Where the steps of a place lead, in what is kept. It takes no memory.
ghost use Rattle.std.specs.Prelude.{◌≡◌, [], ◌∷◌, ◌++◌, List, is_some, option_map};
ghost use Rattle.hir_session_state.specs.HirBase.declared.place.PlaceElement.{PlaceElement};
ghost use Rattle.hir_session_state.specs.Standing.{child_kept, down, kept_block, module_by, standing_in, step, to_child, to_root};
ghost use Rattle.hir_session_state.specs.Standing.Standing.{at};
ghost use Rattle.hir_session_answers.specs.Status.{status_by};
ghost use Rattle.hir_session_answers.specs.Walking.{root_kept, standing_value, to_block, to_name};

use hir_base::ids::{Crate, MapId, ModuleId};
use hir_base::name::Name;
use hir_base::place::{BlockPlace, PlaceElement};
use hir_session_sources::blocks::Blocks;
use hir_session_state::hir_messages::reply::Status;
use hir_session_state::kept::Kept;
use hir_tables::Tables;

/// Where steps lead.
#[derive(Clone, Copy)]
pub enum PlaceStanding {
    /// To a module of a current map.
    At(ModuleId),
    /// A name isn't there in the current map of this id.
    Lacks(MapId),
    /// To or below a crate or a block that is stale.
    Stale,
    /// A block isn't set.
    Unset,
}

impl PlaceStanding {
    /// How answers stand there.
    pub fn status(self) -> Status
        ensures value { result ≡ status_by (standing_value self) }
    {
        match self {
            PlaceStanding::At(_) => Status::Current,
            PlaceStanding::Lacks(_) => Status::Unknown,
            PlaceStanding::Stale => Status::Stale,
            PlaceStanding::Unset => Status::Unknown,
        }
    }

    /// The module to which they lead.
    pub fn module(self) -> Option<ModuleId>
        ensures value { result ≡ module_by (standing_value self) }
    {
        match self {
            PlaceStanding::At(m) => Some(m),
            PlaceStanding::Lacks(_) | PlaceStanding::Stale | PlaceStanding::Unset => None,
        }
    }
}

fn child_of(kept: &Kept, m: ModuleId, name: &Name) -> Option<ModuleId>
    ensures value { result ≡ child_kept kept.now m name.now }
{
    match kept.get(m.map) {
        Some(found) => found.map.child(m.index, name),
        None => None,
    }
}

/// A child is one of the same map.
fn at_child(id: MapId, child: Option<ModuleId>) -> PlaceStanding
    ensures value { standing_value result ≡ to_child id child }
{
    match child {
        Some(m) => {
            if m.map == id {
                PlaceStanding::At(m)
            } else {
                PlaceStanding::Lacks(id)
            }
        }
        None => PlaceStanding::Lacks(id),
    }
}

/// The root of a block, where it isn't stale.
fn at_root(kept: &Kept, tables: &Tables, place: &BlockPlace) -> PlaceStanding
    ensures value { standing_value result ≡ to_root (kept_block tables.now kept.now place.now) }
{
    let Some(number) = tables.block_number(place) else {
        return PlaceStanding::Stale;
    };
    let id = MapId {
        krate: place.holder.krate(),
        block: Some(number),
    };
    match kept.get(id) {
        Some(found) => PlaceStanding::At(found.map.root()),
        None => PlaceStanding::Stale,
    }
}

fn to_module(kept: &Kept, from: PlaceStanding, name: &Name) -> PlaceStanding
    ensures value { standing_value result ≡ to_name kept.now (standing_value from) name.now }
{
    match from {
        PlaceStanding::At(m) => at_child(m.map, child_of(kept, m, name)),
        PlaceStanding::Lacks(_) | PlaceStanding::Stale | PlaceStanding::Unset => from,
    }
}

fn into_block(
    kept: &Kept,
    tables: &Tables,
    from: PlaceStanding,
    set: Option<&BlockPlace>,
) -> PlaceStanding
    ensures value { standing_value result
        ≡ to_block (standing_value from) (is_some set.entry) (root_kept tables.now kept.now (option_map (λ p. p.now) set.entry)) }
{
    match (from, set) {
        (PlaceStanding::At(_), Some(place)) => at_root(kept, tables, place),
        (PlaceStanding::At(_), None) => PlaceStanding::Unset,
        (PlaceStanding::Stale, Some(_)) => PlaceStanding::Stale,
        (PlaceStanding::Stale, None) => PlaceStanding::Unset,
        (PlaceStanding::Lacks(_), _) => from,
        (PlaceStanding::Unset, _) => from,
    }
}

/// The last of some steps, from where those before it lead.
fn one_more(
    kept: &Kept,
    tables: &Tables,
    blocks: &Blocks,
    krate: Crate,
    steps: &[PlaceElement],
    element: &PlaceElement,
    from: PlaceStanding,
) -> PlaceStanding
    ensures value { (before : List PlaceElement) → steps.now ≡ before ++ element.now ∷ []
        → standing_value result ≡ step tables.now blocks.now kept.now krate before (standing_value from) element.now }
{
    match element {
        PlaceElement::Module(name) => to_module(kept, from, name),
        PlaceElement::Block(_) => into_block(kept, tables, from, blocks.place(krate, steps)),
    }
}

fn walk(
    kept: &Kept,
    tables: &Tables,
    blocks: &Blocks,
    krate: Crate,
    steps: &[PlaceElement],
    root: ModuleId,
) -> PlaceStanding
    ensures value { standing_value result ≡ down tables.now blocks.now kept.now krate [] (at root) steps.now }
{
    let mut standing = PlaceStanding::At(root);
    for i in 0..steps.len() {
        standing = one_more(
            kept,
            tables,
            blocks,
            krate,
            &steps[..i + 1],
            &steps[i],
            standing,
        );
    }
    standing
}

/// Where steps in a crate lead.
pub fn standing_at(
    kept: &Kept,
    tables: &Tables,
    blocks: &Blocks,
    krate: Crate,
    steps: &[PlaceElement],
) -> PlaceStanding
    ensures value { standing_value result ≡ standing_in tables.now blocks.now kept.now (record { krate = krate; elements = steps.now }) }
{
    match kept.get(MapId::of_crate(krate)) {
        Some(found) => walk(kept, tables, blocks, krate, steps, found.map.root()),
        None => PlaceStanding::Stale,
    }
}
