//! The files of outline modules.
ghost use Rattle.std.specs.Prelude.{◌≡◌, ℕ, List, Some, false, map, option_map, IfOk, IfSome, OnOk};
ghost use Rattle.std.specs.Option.{option_map_or};
ghost use Rattle.hir_collector_state.specs.HirItemTree.Collected.{numbered};
ghost use Rattle.hir_collector_state.specs.HirTables.Tables.{KeepsTables, TablesValue};
ghost use Rattle.hir_collector_state.specs.HirCollectorRules.State.{core_in};
ghost use Rattle.hir_collector_state.specs.HirCollectorRules.Calls.{AreCallsPlaced};
ghost use Rattle.hir_collector_state.specs.HirCollectorRules.ModuleFiles.{IsFileMeant, IsNumberOf, IsTriedFile, file_of_tree, file_tree, named_by, path_attribute, path_in, taken_by};
ghost use Rattle.hir_collector_state.specs.HirCollectorRules.Moves.{Finds, IsHeld, LooksAt};
ghost use Rattle.hir_collector_state.specs.HirCollectorRules.NumberedOut.{IsNumberedOut};
ghost use Rattle.hir_mod_resolution.specs.Walking.{found_view, looked_view};
ghost use Rattle.hir_collector_state.specs.Waiting.{IsNoted};

use hir_base::ast_id::{FileId, HirFileId};
use hir_base::file_path::FilePath;
use hir_collector_state::def_collector::DefCollector;
use hir_collector_state::hir_collector_rules::crate_attrs::is_keyed;
use hir_collector_state::hir_collector_rules::source_database::{Key, SourceDatabase};
use hir_collector_state::hir_collector_rules::start::StepError;
use hir_collector_state::hir_collector_start::sources::source_at;
use hir_item_tree::attrs::Attr;
use hir_item_tree::raw_attr::AttrInput;
use hir_item_tree::source_tree::SourceTree;
use hir_item_tree::tree_id::TreeId;
use hir_mod_dir::{Candidate, ModDir, resolve_candidate};
use hir_tables::Tables;
use std::alloc::{AllocError, Global};
use std::rc::Rc;

/// The file of a candidate: its number, and what it has.
#[derive(Drop)]
pub struct LookedFile {
    pub id: FileId,
    pub source: Rc<SourceTree>,
}

/// The file of a module: its number, whether it is a `mod.rs`, the directory of the module's submodules, and what it
/// has.
#[derive(Drop)]
pub struct FoundFile {
    pub id: FileId,
    pub is_mod_rs: bool,
    pub dir: ModDir,
    pub source: Rc<SourceTree>,
}

/// The literal of an attribute, where its path is `path` alone.
fn path_in(attr: &Attr) -> Option<&str>
    ensures value { option_map (λ text. text.now) result ≡ path_in (numbered attr.now) }
{
    if !is_keyed(attr, "path") {
        return None;
    }
    match &attr.meta.input {
        Some(AttrInput::Literal(text)) => Some(text.as_str()),
        Some(AttrInput::TokenTree(_)) | None => None,
    }
}

/// The literal of the first `path` attribute that has one.
pub fn path_attr(attrs: &[Attr]) -> Option<&str>
    ensures value { option_map (λ text. text.now) result ≡ path_attribute (map numbered attrs.now) }
{
    for attr in attrs {
        if let Some(text) = path_in(attr) {
            return Some(text);
        }
    }
    None
}

/// The path of a file, if there is one.
pub fn path_of(locations: &Tables, file: Option<FileId>) -> Result<Option<FilePath>, AllocError>
    requires meant { IsFileMeant locations.now file }
    ensures value { IfOk result (λ path. (grown : TablesValue) → KeepsTables locations.now grown → IsNumberOf grown file path) }
{
    let Some(id) = file else {
        return Ok(None);
    };
    match locations.file(id) {
        Some(path) => Ok(Some(path.clone()?)),
        None => Ok(None),
    }
}

/// The file that a tree is of, or in which its block is written, if there is one.
pub fn file_of_tree(tree: TreeId) -> Option<FileId>
    ensures value { result ≡ file_of_tree tree }
{
    match tree.file {
        HirFileId::File(file) => Some(file.file_id),
        HirFileId::Macro(_) => None,
    }
}

/// The file that a candidate names, as seen from the file that declares the module.
fn named_by(
    alloc: Global,
    declaring: Option<&FilePath>,
    candidate: &Candidate,
) -> Result<Option<FilePath>, AllocError>
    ensures value { IfOk result (λ path. path ≡ named_by (option_map (λ p. p.now) declaring.entry) candidate.now) }
{
    match declaring {
        Some(file) => resolve_candidate(alloc, file, candidate.text.as_str()),
        None => Ok(None),
    }
}

/// Asks for the file of a candidate, if it names one.
fn look_at<D: SourceDatabase>(
    run: &mut DefCollector,
    db: &mut D,
    locations: &mut Tables,
    declaring: Option<&FilePath>,
    candidate: &Candidate,
) -> Result<Option<LookedFile>, StepError>
    ensures kept { KeepsTables locations.old locations.new }
    ensures placed { AreCallsPlaced locations.old → AreCallsPlaced locations.new }
    ensures same { D.workspace db.new ≡ D.workspace db.old }
    ensures ok { IfOk result (λ file. LooksAt locations.new (D.workspace db.old) (option_map (λ p. p.now) declaring.entry) candidate.now (core_in run.old) (core_in run.new) (option_map looked_view file)) }
    ensures noted { OnOk result (IsNoted run.old run.new) }
    ensures held { IfOk result (λ file. IfSome file (λ f. IsHeld locations.new (D.workspace db.old) (core_in run.old).map.id.krate (file_tree (core_in run.old).map.crate_data.edition f.id) f.source.value)) }
    ensures many { result ≡ Err StepError.TooMany → (path : List ℕ) × (named_by (option_map (λ p. p.now) declaring.entry) candidate.now ≡ Some path) × IsNumberedOut locations.new.files path }
{
    let Some(path) = named_by(run.allocator(), declaring, candidate)? else {
        return Ok(None);
    };
    let id = locations.intern_file(path)?;
    let key = run.file_key(id);
    let source = source_at(run.allocator(), db, locations, key)?;
    run.ask(Key::Tree(key))?;
    Ok(Some(LookedFile { id, source }))
}

/// Whether a candidate's file is there.
fn is_there(file: &Option<LookedFile>) -> bool
    ensures value { result ≡ option_map_or (λ f. f.source.value.present) file.now false }
{
    match file {
        Some(file) => file.source.is_present(),
        None => false,
    }
}

/// The file of a candidate as that of the module, unless the module is too deep.
fn taken(candidate: &Candidate, file: Option<LookedFile>) -> Result<Option<FoundFile>, AllocError>
    ensures value { IfOk result (λ found. option_map found_view found ≡ taken_by candidate.now.dir candidate.now.is_mod_rs (option_map looked_view file)) }
    ensures same { IfOk result (λ found. IfSome found (λ f. (g : LookedFile) × (file ≡ Some g) × (f.id ≡ g.id) × (f.source.value ≡ g.source.value))) }
{
    let Some(dir) = &candidate.dir else {
        return Ok(None);
    };
    let Some(file) = file else {
        return Ok(None);
    };
    Ok(Some(FoundFile {
        id: file.id,
        is_mod_rs: candidate.is_mod_rs,
        dir: dir.clone()?,
        source: file.source,
    }))
}

/// Looks for the file of a module among candidates, up to the first that is there. There are two of them at most.
pub fn find_file<D: SourceDatabase>(
    run: &mut DefCollector,
    db: &mut D,
    locations: &mut Tables,
    declaring: Option<&FilePath>,
    candidates: &[Candidate],
) -> Result<Option<FoundFile>, StepError>
    ensures kept { KeepsTables locations.old locations.new }
    ensures placed { AreCallsPlaced locations.old → AreCallsPlaced locations.new }
    ensures same { D.workspace db.new ≡ D.workspace db.old }
    ensures ok { IfOk result (λ file. Finds locations.new (D.workspace db.old) (option_map (λ p. p.now) declaring.entry) candidates.now (core_in run.old) (core_in run.new) (option_map found_view file)) }
    ensures noted { OnOk result (IsNoted run.old run.new) }
    ensures held { IfOk result (λ file. IfSome file (λ f. IsHeld locations.new (D.workspace db.old) (core_in run.old).map.id.krate (file_tree (core_in run.old).map.crate_data.edition f.id) f.source.value)) }
    ensures many { result ≡ Err StepError.TooMany → (path : List ℕ) × IsTriedFile (D.workspace db.old) (core_in run.old).map.id.krate (option_map (λ p. p.now) declaring.entry) candidates.now path
        × IsNumberedOut locations.new.files path }
{
    let [candidate, others @ ..] = candidates else {
        return Ok(None);
    };
    let file = look_at(run, db, locations, declaring, candidate)?;
    if is_there(&file) {
        let found = taken(candidate, file)?;
        return Ok(found);
    }
    let later = find_file(run, db, locations, declaring, others)?;
    Ok(later)
}
