//! Crates over sources that tests of the collector hand in, and what they come to.
ghost use Rattle.std.specs.Prelude.{◌≡◌, IfOk, map, option_map};
ghost use Rattle.hir_item_tree.specs.Source.{source_view};
ghost use Rattle.hir_tables.specs.SourcePlaces.{source_value};
ghost use Rattle.hir_collector_fixtures.specs.Crates.{AreTheirs, source_in};

use hir_base::ast_id::{EditionedFileId, FileId, HirFileId};
use hir_base::cfg_options::CfgOptions;
use hir_base::edition::Edition;
use hir_base::file_path::FilePath;
use hir_base::ids::Crate;
use hir_base::macro_kind::ExpansionKey;
use hir_base::name::Name;
use hir_collector_rules::collected::Collected;
use hir_collector_rules::source_database::{
    Config, CrateRoot, Dependency, ExpansionLook, SourceDatabase,
};
use hir_collector_rules::start::{CollectError, Start};
use hir_crate_graph::crate_set::CrateSet;
use hir_crate_graph::transitive::TransitiveDependencies;
use hir_def_map::nameres::DefMap;
use hir_def_map::world::World;
use hir_item_tree::source::Source;
use hir_item_tree::source_tree::SourceTree;
use hir_item_tree::tree_id::TreeId;
use hir_scope::per_ns::PerNs;
use hir_tables::{SourcePlace, Tables};
use hir_wire::{Command, Edit, read_command};
use std::alloc::{AllocError, Global};
use std::collections::BTreeMap;
use std::rc::Rc;
use std::test::Fail;

/// Runs the import rules over a crate or a block of these.
pub trait Collect {
    fn collect(
        alloc: Global,
        db: &mut Crates,
        world: &World,
        tables: &mut Tables,
        start: Start,
        tree: TreeId,
    ) -> Result<Collected, CollectError>;
}

/// Crates by number, what each was handed in with, the files by path, and the source of each block.
#[derive(Drop)]
pub struct Crates {
    crates: Vec<CrateRoot>,
    configs: Vec<Config>,
    transitive: TransitiveDependencies,
    files: BTreeMap<FilePath, Source>,
    within: Option<Source>,
    ghost depends: { AreTheirs configs.items transitive },
}

impl SourceDatabase for Crates {
    ghost use Rattle.std.specs.Prelude.{None, false, []};
    ghost use Rattle.hir_item_tree.specs.Attributes.{no_attributes};
    ghost use Rattle.hir_item_tree.specs.SourceTree.{source_tree_of};
    ghost use Rattle.hir_collector_fixtures.specs.Crates.{config_in, source_in};

    ghost workspace = { λ d. record {
      crates = d.crates.items;
      config = config_in d.configs.items;
      tree = λ krate source. source_tree_of (λ _. false) no_attributes (source_in d.files.entries d.within source);
      entry = λ key. record { present = false; error = None; inner = [] };
    } };

    fn krate(&self, krate: Crate) -> Option<&CrateRoot> {
        self.crates.get(krate.0 as usize)
    }

    fn config(&self, krate: Crate) -> Option<&Config> {
        self.configs.get(krate.0 as usize)
    }

    fn transitive_dependencies(&self, krate: Crate) -> Option<&Rc<CrateSet>> {
        self.transitive.get(krate)
    }

    fn tree(
        &mut self,
        alloc: Global,
        _krate: Crate,
        source: SourcePlace<'_>,
    ) -> Result<Rc<SourceTree>, AllocError> {
        let front = Vec::new(alloc);
        let options = CfgOptions::new(alloc);
        let tree = SourceTree::new(alloc, self.source_at(source), &front, &options)?;
        Ok(Rc::new(alloc, tree)?)
    }

    fn present(&self, _krate: Crate, source: SourcePlace<'_>) -> bool {
        self.source_at(source).is_some()
    }

    fn expansion(&self, _key: &ExpansionKey) -> ExpansionLook<'_> {
        ExpansionLook {
            present: false,
            error: None,
            inner: None,
        }
    }
}

impl Crates {
    /// Sets the source of every block.
    pub fn set_block(&mut self, source: Source) {
        self.within = Some(source);
    }

    /// The source at a place, if it is that of a file that is there or of a block.
    fn source_at(&self, source: SourcePlace<'_>) -> Option<&Source>
        ensures value { option_map (λ s. source_view s.now) result ≡ source_in self.now.files.entries self.now.within (source_value source.entry) }
    {
        match source {
            SourcePlace::File(path) => self.files.get(path),
            SourcePlace::Block(_) => self.within.as_ref(),
            SourcePlace::Expansion(_) => None,
        }
    }
}

/// The source that a line hands in.
pub fn source(alloc: Global, line: &str) -> Result<Source, Fail> {
    match read_command(alloc, line.as_bytes()) {
        Ok(Command::Edit(Edit::SetFile { file: _, source })) => Ok(source),
        Ok(_) => Err("another command")?,
        Err(error) => Err(error)?,
    }
}

pub fn root(number: u32) -> EditionedFileId {
    EditionedFileId {
        file_id: FileId(number),
        edition: Edition::Edition2021,
    }
}

pub fn start(number: u32) -> Start {
    Start::Crate {
        krate: Crate(number),
        root: root(number),
    }
}

/// The direct dependencies of a crate.
pub fn direct(alloc: Global, config: &Config) -> Result<Vec<Crate>, Fail>
    ensures value { IfOk result (λ crates. crates.items ≡ map (λ d. d.krate) config.now.dependencies.items) }
{
    let mut crates = Vec::new(alloc);
    for dependency in &config.dependencies {
        crates.push(dependency.krate)?;
    }
    Ok(crates)
}

/// The transitive dependencies of crates that were handed in so.
pub fn transitive(alloc: Global, configs: &Vec<Config>) -> Result<TransitiveDependencies, Fail>
    ensures value { IfOk result (λ transitive. AreTheirs configs.now.items transitive) }
{
    let mut found = TransitiveDependencies::new(alloc);
    for config in configs {
        let crates = direct(alloc, config)?;
        found.push(crates.as_slice())?;
    }
    Ok(found)
}

/// Crate 0 under the name `core`.
pub fn dependencies(alloc: Global, is_prelude: bool) -> Result<Vec<Dependency>, Fail> {
    let dependency = Dependency {
        krate: Crate(0),
        name: Name::new(alloc, "core")?,
        is_prelude,
    };
    Ok(vec![in alloc; dependency]?)
}

pub fn config(alloc: Global, dependencies: Vec<Dependency>) -> Config {
    Config {
        edition: Edition::Edition2021,
        attributes: Vec::new(alloc),
        dependencies,
        options: CfgOptions::new(alloc),
    }
}

pub fn lower_config(alloc: Global) -> Config {
    config(alloc, Vec::new(alloc))
}

pub fn configs_of_both(alloc: Global, is_prelude: bool) -> Result<Vec<Config>, Fail> {
    let mut configs = vec![in alloc; lower_config(alloc)]?;
    configs.push(config(alloc, dependencies(alloc, is_prelude)?))?;
    Ok(configs)
}

/// A crate with its root at this path.
pub fn crate_at(alloc: Global, path: &str) -> Result<CrateRoot, Fail> {
    Ok(CrateRoot {
        root: FilePath::parse(alloc, path)?,
        is_proc_macro: false,
    })
}

pub fn crates_of_both(alloc: Global) -> Result<Vec<CrateRoot>, Fail> {
    let mut crates = vec![in alloc; crate_at(alloc, "a.rs")?]?;
    crates.push(crate_at(alloc, "b.rs")?)?;
    Ok(crates)
}

/// The numbers of both root files.
pub fn files_of_both(alloc: Global) -> Result<Tables, Fail> {
    let mut tables = Tables::new(alloc);
    tables.intern_file(FilePath::parse(alloc, "a.rs")?)?;
    tables.intern_file(FilePath::parse(alloc, "b.rs")?)?;
    Ok(tables)
}

/// Files by their paths and the lines that hand them in.
pub fn files_of(alloc: Global, files: &[(&str, &str)]) -> Result<BTreeMap<FilePath, Source>, Fail> {
    let mut found = BTreeMap::new(alloc);
    for (path, line) in files {
        found.insert(FilePath::parse(alloc, path)?, source(alloc, line)?)?;
    }
    Ok(found)
}

pub fn crates_over(
    alloc: Global,
    crates: Vec<CrateRoot>,
    configs: Vec<Config>,
    files: BTreeMap<FilePath, Source>,
) -> Result<Crates, Fail> {
    let transitive = transitive(alloc, &configs)?;
    Ok(Crates {
        crates,
        configs,
        transitive,
        files,
        within: None,
    })
}

/// Crate 0, and crate 1, which depends on it under the name `core`.
pub fn two_crates(
    alloc: Global,
    lower: &str,
    upper: &str,
    is_prelude: bool,
) -> Result<Crates, Fail> {
    let files = files_of(alloc, &[("a.rs", lower), ("b.rs", upper)])?;
    crates_over(
        alloc,
        crates_of_both(alloc)?,
        configs_of_both(alloc, is_prelude)?,
        files,
    )
}

/// Crate 0 over files, of which `a.rs` is its root.
pub fn one_crate(alloc: Global, files: &[(&str, &str)]) -> Result<Crates, Fail> {
    let crates = vec![in alloc; crate_at(alloc, "a.rs")?]?;
    let configs = vec![in alloc; lower_config(alloc)]?;
    crates_over(alloc, crates, configs, files_of(alloc, files)?)
}

/// What the lower crate comes to by itself, in a world.
pub fn world_of(alloc: Global, lower: Collected) -> Result<World, Fail> {
    let mut world = World::new(alloc);
    if world.insert(lower.map, lower.local).is_ok() {
        Ok(world)
    } else {
        Err("a map that names nothing else")?
    }
}

/// What a crate comes to beside the maps of a world.
pub fn collected_of<C: Collect>(
    alloc: Global,
    db: &mut Crates,
    world: &World,
    number: u32,
) -> Result<Collected, Fail> {
    let mut tables = files_of_both(alloc)?;
    let tree = TreeId::new(HirFileId::File(root(number)), None);
    Ok(C::collect(alloc, db, world, &mut tables, start(number), tree)?)
}

pub fn lower_collected<C: Collect>(alloc: Global, db: &mut Crates) -> Result<Collected, Fail> {
    collected_of::<C>(alloc, db, &World::new(alloc), 0)
}

pub fn lower_world<C: Collect>(alloc: Global, db: &mut Crates) -> Result<World, Fail> {
    world_of(alloc, lower_collected::<C>(alloc, db)?)
}

/// What the upper crate comes to beside the lower one.
pub fn upper_collected<C: Collect>(alloc: Global, db: &mut Crates) -> Result<Collected, Fail> {
    let world = lower_world::<C>(alloc, db)?;
    collected_of::<C>(alloc, db, &world, 1)
}

pub fn collected<C: Collect>(
    alloc: Global,
    lower: &str,
    upper: &str,
    is_prelude: bool,
) -> Result<Collected, Fail> {
    let mut db = two_crates(alloc, lower, upper, is_prelude)?;
    upper_collected::<C>(alloc, &mut db)
}

pub fn collected_over<C: Collect>(
    alloc: Global,
    files: &[(&str, &str)],
) -> Result<Collected, Fail> {
    let mut db = one_crate(alloc, files)?;
    lower_collected::<C>(alloc, &mut db)
}

/// What a name of the root stands for.
pub fn entry(alloc: Global, map: &DefMap, text: &str) -> Result<PerNs, Fail> {
    let name = Name::new(alloc, text)?;
    Ok(map.entry(0, &name))
}
