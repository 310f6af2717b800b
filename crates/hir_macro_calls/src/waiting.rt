//! Where attributes wait, and where their items go on.
ghost use Rattle.std.specs.Prelude.{◌≡◌, ◌+◌, ◌<◌, IfOk, IfSome, None, Some};
ghost use Rattle.hir_collector_state.specs.HirCollectorRules.CallMoves.{IsFirstWaiting, NoneWaits, NoneWaitsBefore};
ghost use Rattle.hir_collector_state.specs.HirCollectorRules.State.{core_in};
ghost use Rattle.hir_collector_state.specs.HirCollectorRules.Steps.{site_behind};

use hir_collector_state::def_collector::DefCollector;
use hir_collector_state::hir_collector_rules::site::Site;
use hir_use_tree::use_tree::place_after;
use std::alloc::AllocError;

/// Where an item goes on that waited for an attribute: one level deeper.
pub fn site_behind(site: &Site) -> Result<Site, AllocError>
    ensures value { IfOk result (λ deeper. deeper ≡ site_behind site.now) }
{
    Ok(Site {
        home: site.home,
        tree: site.tree,
        file: site.file,
        extern_block: site.extern_block,
        dir: site.dir.clone()?,
        level: place_after(site.level, 1),
    })
}

/// Where the first attribute waits at a place behind the first so many.
pub fn first_waiting(run: &DefCollector, first: usize) -> Option<usize>
    requires first { NoneWaitsBefore (core_in run.now) first }
    ensures found { IfSome result (λ i. IsFirstWaiting (core_in run.now) i) }
    ensures below { IfSome result (λ i. i < 18446744073709551615) }
    ensures none { result ≡ None → NoneWaits (core_in run.now) }
{
    let mut i = first;
    'places: while i < run.call_count() {
        if run.is_attribute_waiting(i) {
            return Some(i);
        }
        i += 1;
    }
    None
}
