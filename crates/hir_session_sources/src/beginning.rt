//! What a session begins with.
ghost use Rattle.std.specs.Prelude.{◌≡◌, ◌<◌, ◌^◌, map, true, Some, IfOk, OnOk, option_map};
ghost use Rattle.hir_session_state.specs.HirBase.CfgOptions.{SetAlike};
ghost use Rattle.hir_session_state.specs.HirItemTree.Attributes.{attributes_view};
ghost use Rattle.hir_session_state.specs.HirMessages.CommandValue.{crate_input_view};
ghost use Rattle.hir_session_state.specs.Refusals.{dependency_crates, has_late, first_out_of_order};
ghost use Rattle.hir_session_state.specs.Beginning.{dependency_of, IsAdded, IsConfigOf, IsMade, AreMade, AreRooted};
ghost use Rattle.hir_session_state.specs.HirCollectorRules.Workspace.{config_view};
ghost use Rattle.hir_session_state.specs.HirTables.Tables.{file_at, KeepsTables};

use crate::crate_info::CrateInfo;
use crate::crates::Crates;
use hir_base::ast_id::FileId;
use hir_base::cfg::CfgAtom;
use hir_base::cfg_options::CfgOptions;
use hir_base::edition::Edition;
use hir_base::file_path::FilePath;
use hir_item_tree::raw_attr::RawAttr;
use hir_session_state::front::copy_attrs;
use hir_session_state::hir_collector_rules::source_database::{
    Config, CrateRoot, Dependency as RunDependency,
};
use hir_session_state::hir_messages::command::{CrateInput, Dependency};
use hir_tables::Tables;
use std::alloc::{AllocError, Global};

/// Dependencies as a run sees them.
fn dependencies_of(
    alloc: Global,
    dependencies: &[Dependency],
) -> Result<Vec<RunDependency>, AllocError>
    ensures value { IfOk result (λ v. v.items ≡ map dependency_of dependencies.now) }
{
    let mut made = Vec::new(alloc);
    for dependency in dependencies {
        made.push(RunDependency {
            krate: dependency.krate,
            name: dependency.name.clone()?,
            is_prelude: dependency.prelude,
        })?;
    }
    Ok(made)
}

/// Whether a dependency doesn't come before the crate.
pub fn has_late_dependency(k: usize, dependencies: &[Dependency]) -> bool
    ensures value { result ≡ has_late k (dependency_crates dependencies.now) }
    ensures fits { result ≡ true → k < 2 ^ 32 }
{
    for dependency in dependencies {
        if k <= dependency.krate.0 as usize {
            return true;
        }
    }
    false
}

/// The first crate with a dependency that doesn't come before it.
pub fn first_late(inputs: &Vec<CrateInput>) -> Option<u32>
    ensures value { result ≡ option_map (λ c. c.0) (first_out_of_order 0 (map crate_input_view inputs.now.items)) }
{
    for k in 0..inputs.as_slice().len() {
        if has_late_dependency(k, inputs[k].deps.as_slice()) {
            return Some(k as u32);
        }
    }
    None
}

/// The options that are set.
fn options_of(alloc: Global, atoms: &Vec<CfgAtom>) -> Result<CfgOptions, AllocError>
    ensures value { IfOk result (λ options. SetAlike options atoms.now.items) }
{
    let mut options = CfgOptions::new(alloc);
    for atom in atoms {
        options.insert(atom.clone()?)?;
    }
    Ok(options)
}

/// What a crate is handed in with, its root aside.
pub fn config_of(
    alloc: Global,
    edition: Edition,
    attrs: &Vec<RawAttr>,
    cfg: &Vec<CfgAtom>,
    deps: &[Dependency],
) -> Result<Config, AllocError>
    ensures config { IfOk result (λ c. IsConfigOf
        (record { edition = edition; attributes = attributes_view attrs.now.items; options = cfg.now.items; deps = deps.now }) (config_view c)) }
{
    let attributes = copy_attrs(alloc, attrs)?;
    let dependencies = dependencies_of(alloc, deps)?;
    let options = options_of(alloc, cfg)?;
    Ok(Config {
        edition,
        attributes,
        dependencies,
        options,
    })
}

/// A crate with a root file of this number.
fn info_of(alloc: Global, file: FileId, input: &CrateInput) -> Result<CrateInfo, AllocError>
    ensures made { IfOk result (λ c. IsMade (crate_input_view input.now) c) }
    ensures number { IfOk result (λ c. c.file ≡ file) }
{
    let config = config_of(
        alloc,
        input.edition,
        &input.attrs,
        &input.cfg,
        input.deps.as_slice(),
    )?;
    let own = CrateRoot {
        root: input.root.clone()?,
        is_proc_macro: input.proc_macro,
    };
    Ok(CrateInfo::new(own, config, file))
}

/// The number of a root file. A session has too few crates for numbers to run out.
fn number_of(tables: &mut Tables, root: FilePath) -> Result<FileId, AllocError>
    ensures found { IfOk result (λ id. file_at tables.new id ≡ Some root) }
    ensures kept { KeepsTables tables.old tables.new }
    ensures others { tables.new ≡ record tables.old { files = tables.new.files } }
{
    match tables.intern_file(root) {
        Ok(number) => Ok(number),
        Err(_) => Err(AllocError),
    }
}

/// Adds a crate behind those before it.
fn add_crate(
    alloc: Global,
    input: &CrateInput,
    infos: &mut Vec<CrateInfo>,
    tables: &mut Tables,
) -> Result<(), AllocError>
    ensures added { OnOk result (IsAdded (crate_input_view input.now) infos.old.items infos.new.items tables.old tables.new) }
{
    let file = number_of(tables, input.root.clone()?)?;
    let info = info_of(alloc, file, input)?;
    infos.push(info)?;
    Ok(())
}

/// The crates of a session, and the numbers of their root files.
fn infos_of(
    alloc: Global,
    inputs: &Vec<CrateInput>,
    tables: &mut Tables,
) -> Result<Vec<CrateInfo>, AllocError>
    ensures made { IfOk result (λ v. AreMade (map crate_input_view inputs.now.items) v.items) }
    ensures rooted { IfOk result (λ v. AreRooted tables.new v.items) }
    ensures others { IfOk result (λ v. tables.new ≡ record tables.old { files = tables.new.files }) }
{
    let mut infos = Vec::new(alloc);
    for input in inputs {
        add_crate(alloc, input, &mut infos, tables)?;
    }
    Ok(infos)
}

/// The crates of a session with their transitive dependencies. It is for crates that come in order.
pub fn crates_of(
    alloc: Global,
    inputs: &Vec<CrateInput>,
    tables: &mut Tables,
) -> Result<Crates, AllocError>
    ensures made { IfOk result (λ crates. AreMade (map crate_input_view inputs.now.items) crates) }
    ensures rooted { IfOk result (λ crates. AreRooted tables.new crates) }
    ensures others { IfOk result (λ crates. tables.new ≡ record tables.old { files = tables.new.files }) }
{
    let infos = infos_of(alloc, inputs, tables)?;
    match Crates::new(alloc, infos) {
        Ok(crates) => Ok(crates),
        Err(_) => Err(AllocError),
    }
}
