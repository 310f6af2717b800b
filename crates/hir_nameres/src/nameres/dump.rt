//! A map as text, for tests of whoever fills it, after rust-analyzer's `DefMap::dump`.
ghost use Rattle.std.specs.Prelude.{◌≡◌, [], ◌∷◌, ◌++◌, length, map, reverse, IfOk, OnOk};
ghost use Rattle.std.specs.String.{string_bytes};
ghost use Rattle.hir_def_map_rules.specs.Overlay.{overlay};
ghost use Rattle.hir_def_map_rules.specs.State.{module_at};
ghost use Rattle.hir_nameres.specs.World.{finished_in};
ghost use Rattle.hir_def_map_rules.specs.Dump.{dump_of, pages_of, path_below, root_path};
ghost use Rattle.hir_def_map_rules.specs.Inner.Branches.{branch_below, branches_below, own_page, with_page, with_pages};

use crate::def_maps::DefMaps;
use crate::nameres::DefMap;
use crate::world::finished_maps::FinishedMaps;
use crate::world::part::WorldPart;
use hir_base::edition::Edition;
use hir_base::name::Name;
use hir_def_map_rules::hir_scope::item_scope::ItemScope;
use hir_def_map_rules::module_data::ModuleData;
use std::alloc::{AllocError, Global};
use std::marker::Model;

/// A module that is still to print, and all below it.
#[derive(Drop)]
struct Branch {
    path: String,
    at: u32,
    /// How many modules a way down has at most.
    depth: u32,
}

impl Model for Branch {
    ghost use Rattle.std.specs.String.{string_bytes};
    ghost use Rattle.hir_def_map_rules.specs.Inner.Branches.{BranchValue};

    ghost Value = { BranchValue };

    ghost view = { λ b. record { path = string_bytes b.path; at = b.at; depth = b.depth } };
}

/// The path of a module in another.
fn path_below(alloc: Global, path: &str, name: &Name) -> Result<String, AllocError>
    ensures value { IfOk result (λ below. string_bytes below ≡ path_below path.now name.now) }
{
    let below = format!(in alloc; "{}::{}", path, name.display(Edition::LATEST))?;
    Ok(below)
}

/// Writes a module's page at the end of a text, behind an empty line unless it is the first.
fn dump_page(path: &str, scope: &ItemScope, buf: &mut String) -> Result<(), AllocError>
    ensures ok { OnOk result (string_bytes buf.new ≡ with_page (string_bytes buf.old) (path.now, scope.now)) }
{
    if !buf.is_empty() {
        buf.push_str("\n")?;
    }
    buf.push_str(path)?;
    buf.push_str("\n")?;
    scope.dump(buf)
}

/// Lists what is below a module, the first child last.
fn push_children(
    alloc: Global,
    path: &str,
    depth: u32,
    module: &ModuleData,
    left: &mut Vec<Branch>,
) -> Result<(), AllocError>
    ensures ok { OnOk result (left.new.items ≡ left.old.items ++ reverse (map (branch_below path.now depth) «module».now.children)) }
{
    let mut children = module.children();
    'children: while let Some((name, child)) = children.next_back() {
        let path = path_below(alloc, path, name)?;
        let at = child.index;
        left.push(Branch { path, at, depth })?;
    }
    Ok(())
}

impl DefMap {
    /// The modules of the map as text, each with its path and its scope, then those of the map that holds its block, and so on
    /// outwards; between each and the next stands an empty line.
    pub fn dump<W: FinishedMaps>(&self, alloc: Global, world: &W) -> Result<String, AllocError>
        ensures ok { IfOk result (λ text. string_bytes text ≡ dump_of (overlay (finished_in (W.maps_of world.now)) self.now) self.now.id) }
    {
        let maps = DefMaps::new(WorldPart::all(world), self);
        let mut buf = String::new(alloc);
        maps.dump_outwards(alloc, self.root(), &mut buf)?;
        Ok(buf)
    }

    /// The path of the root.
    fn root_path(&self) -> &'static str
        ensures value { result.now ≡ root_path self.now.id }
    {
        if self.id().block.is_some() {
            "(block scope)"
        } else {
            "crate"
        }
    }

    /// Writes the pages of all modules.
    pub(crate) fn dump_modules(&self, alloc: Global, buf: &mut String) -> Result<(), AllocError>
        ensures ok { OnOk result (string_bytes buf.new ≡ with_pages (string_bytes buf.old) (pages_of self.now)) }
    {
        let mut left = self.whole(alloc)?;
        'modules: while let Some(branch) = left.pop() {
            self.dump_branch(alloc, branch, &mut left, buf)?;
        }
        Ok(())
    }

    /// The root, and all below it.
    fn whole(&self, alloc: Global) -> Result<Vec<Branch>, AllocError>
        ensures value { IfOk result (λ left. left.items ≡
            (record { path = root_path self.now.id; at = 0; depth = length self.now.modules }) ∷ []) }
    {
        let mut left = Vec::new(alloc);
        let path = String::from_str(alloc, self.root_path())?;
        let depth = self.module_count();
        left.push(Branch { path, at: 0, depth })?;
        Ok(left)
    }

    /// Writes the page of a module, and lists what is below it.
    fn dump_branch(
        &self,
        alloc: Global,
        branch: Branch,
        left: &mut Vec<Branch>,
        buf: &mut String,
    ) -> Result<(), AllocError>
        ensures page { OnOk result (string_bytes buf.new
            ≡ with_pages (string_bytes buf.old) (own_page branch.depth branch.path (module_at self.now branch.at))) }
        ensures left { OnOk result (left.new.items
            ≡ left.old.items ++ reverse (branches_below branch.depth branch.path (module_at self.now branch.at))) }
    {
        if branch.depth == 0 {
            return Ok(());
        }
        match self.modules().as_slice().get(branch.at as usize) {
            Some(module) => {
                dump_page(&branch.path, module.scope(), buf)?;
                push_children(alloc, &branch.path, branch.depth - 1, module, left)
            }
            None => Ok(()),
        }
    }
}
