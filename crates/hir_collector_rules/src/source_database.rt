//! Where a run takes its crates and sources from.
ghost use Rattle.std.specs.Prelude.{◌≡◌, IfOk, option_map};
ghost use Rattle.hir_tables.specs.SourcePlaces.{expansion_value, source_value};
ghost use Rattle.hir_collector_rules.specs.Workspace.{Workspace, config_view, crate_in, entry_look, transitive_dependencies_in};

use crate::inner_paths::InnerPaths;
use hir_base::ast_id::{AstId, EntryId};
use hir_base::cfg_options::CfgOptions;
use hir_base::edition::Edition;
use hir_base::file_path::FilePath;
use hir_base::ids::{Crate, EnumId, MapId};
use hir_base::macro_kind::{ExpansionKey, MacroId};
use hir_base::name::Name;
use hir_base::text::Text;
use hir_item_tree::raw_attr::RawAttr;
use hir_item_tree::source_tree::SourceTree;
use hir_item_tree::tree_id::TreeKey;
use hir_nameres::hir_crate_graph::crate_set::CrateSet;
use hir_tables::SourcePlace;
use std::alloc::{AllocError, Global};
use std::rc::Rc;

/// What a run may ask for.
#[derive(Clone, Copy, Debug, PartialEq, Eq, PartialOrd, Ord, Hash)]
pub enum Key {
    /// The items of a source under a crate, and whether the source is there.
    Tree(TreeKey),
    /// The variants of an enum.
    Variants(EnumId),
    /// The text of a macro; of a procedural macro none is asked for.
    Text(MacroId),
    /// The input of the calls on a node, under a crate.
    Input(Crate, AstId),
    /// Whether an expansion is there, and the error beside it.
    Expansion(EntryId),
    /// A finished map.
    Map(MapId),
    /// What a crate was handed in with, its root aside.
    Config(Crate),
}

/// A crate's root file, and whether its functions are macros.
#[derive(Drop)]
pub struct CrateRoot {
    pub root: FilePath,
    pub is_proc_macro: bool,
}

/// A crate on which another depends.
#[derive(Drop)]
pub struct Dependency {
    pub krate: Crate,
    /// Its name there.
    pub name: Name,
    /// Whether paths may begin with the name without an `extern crate`.
    pub is_prelude: bool,
}

impl Dependency {
    /// The same dependency again.
    pub fn clone(&self) -> Result<Dependency, AllocError>
        ensures value { IfOk result (λ d. d ≡ self.now) }
    {
        Ok(Dependency {
            krate: self.krate,
            name: self.name.clone()?,
            is_prelude: self.is_prelude,
        })
    }
}

/// What a crate was handed in with, its root aside.
#[derive(Drop)]
pub struct Config {
    pub edition: Edition,
    /// The attributes in front of those of its root.
    pub attributes: Vec<RawAttr>,
    /// The crates that it depends on, in the order in which they were handed in.
    pub dependencies: Vec<Dependency>,
    /// The options that are set.
    pub options: CfgOptions,
}

/// What an expansion has beside its items.
#[derive(Clone, Copy)]
pub struct ExpansionLook<'a> {
    pub present: bool,
    /// Why its macro couldn't be expanded, if it couldn't.
    pub error: Option<&'a Text>,
    /// The paths that its macro asks to have resolved first; none where it isn't there.
    pub inner: Option<&'a InnerPaths>,
}

/// A workspace, one part at a time.
///
/// The variants of an enum, the text of a macro and the input of a call stand beside the tree of the source that writes
/// them.
pub trait SourceDatabase {
    ghost use Rattle.hir_collector_rules.specs.Workspace.{Workspace, crate_in};

    /// The workspace for which the value stands.
    ghost workspace: { Self → Workspace };

    /// The root of a crate, where there is such a crate.
    fn krate(&self, krate: Crate) -> Option<&CrateRoot>
        ensures value { option_map (λ c. c.now) result ≡ crate_in (workspace self.now) krate };

    /// What a crate was handed in with.
    fn config(&self, krate: Crate) -> Option<&Config>
        ensures value { option_map (λ c. config_view c.now) result ≡ (workspace self.now).config krate };

    /// Its direct and transitive dependencies.
    fn transitive_dependencies(&self, krate: Crate) -> Option<&Rc<CrateSet>>
        ensures value { option_map (λ crates. crates.now.value) result
            ≡ option_map (λ _. transitive_dependencies_in (workspace self.now) krate) ((workspace self.now).config krate) };

    /// What a source has under a crate; one that is absent has what one that can't be read has.
    fn tree(
        &mut self,
        alloc: Global,
        krate: Crate,
        source: SourcePlace<'_>,
    ) -> Result<Rc<SourceTree>, AllocError>
        ensures value { IfOk result (λ tree. tree.value ≡ (workspace self.old).tree krate (source_value source.entry)) }
        ensures same { workspace self.new ≡ workspace self.old };

    /// Whether a source is there.
    fn present(&self, krate: Crate, source: SourcePlace<'_>) -> bool
        ensures value { result ≡ ((workspace self.now).tree krate (source_value source.entry)).present };

    /// What an expansion has beside its items; of one that is absent there is nothing.
    fn expansion(&self, key: &ExpansionKey) -> ExpansionLook<'_>
        ensures value { entry_look result ≡ (workspace self.now).entry (expansion_value key.now) };
}
