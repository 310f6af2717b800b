//! Modules with what lies above them.
ghost use Rattle.std.specs.Prelude.{◌≡◌, Option, List};
ghost use Rattle.hir_ids.specs.declared.ids.ModuleId.{ModuleId};
ghost use Rattle.hir_per_ns.specs.ModuleTree.{up_of, chain_from, IsInOneCrate};

use hir_ids::ids::ModuleId;

/// Modules, each with its parent in its own map, and with the module that holds the block of its map.
///
/// Parents and holders lead to a root within one crate, and the modules of one map have the same holder, or all
/// have none.
pub trait ModuleTree {
    // the parent in the module's own map
    ghost parent_of: { Self → ModuleId → Option ModuleId };

    // the module that holds the block of the module's map
    ghost holder_of: { Self → ModuleId → Option ModuleId };

    // all that lie above a module, by parents and holders, the nearest first
    ghost above: { Self → ModuleId → List ModuleId };

    // the holder of a module's map, that one's holder, and so on
    ghost holders: { Self → ModuleId → List ModuleId };

    fn parent(&self, of: ModuleId) -> Option<ModuleId>
        ensures value { result ≡ parent_of self.now of };

    fn holder(&self, of: ModuleId) -> Option<ModuleId>
        ensures value { result ≡ holder_of self.now of };

    ghost above_step: { (t : Self) (m : ModuleId) → above t m ≡ chain_from (above t) (up_of (parent_of t) (holder_of t) m) };

    ghost holders_step: { (t : Self) (m : ModuleId) → holders t m ≡ chain_from (holders t) (holder_of t m) };

    ghost same_holder: { (t : Self) (m n : ModuleId) → m.map ≡ n.map → holder_of t m ≡ holder_of t n };

    ghost one_crate: { (t : Self) (m : ModuleId) → IsInOneCrate m (above t m) };
}
