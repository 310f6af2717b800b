//! A map and those that hold it as text.
ghost use Rattle.std.specs.Prelude.{◌≡◌, OnOk};
ghost use Rattle.std.specs.String.{string_bytes};
ghost use Rattle.hir_nameres.specs.DefMaps.{maps_of};
ghost use Rattle.hir_def_map_rules.specs.Dump.{pages_outwards};
ghost use Rattle.hir_def_map_rules.specs.Inner.Branches.{with_pages};

use crate::def_maps::DefMaps;
use hir_base::ids::ModuleId;
use std::alloc::{AllocError, Global};

impl DefMaps<'_> {
    /// Writes the pages of a module's map, then those of the map that holds its block, and so on outwards.
    pub(crate) fn dump_outwards(
        &self,
        alloc: Global,
        at: ModuleId,
        buf: &mut String,
    ) -> Result<(), AllocError>
        ensures ok { OnOk result (string_bytes buf.new ≡ with_pages (string_bytes buf.old) (pages_outwards (maps_of self.now) at)) }
    {
        let mut next = Some(at);
        'out: while let Some(inner) = next {
            if let Some(map) = self.map(inner.map) {
                map.dump_modules(alloc, buf)?;
            }
            next = self.holder_of(inner);
        }
        Ok(())
    }
}
