//! The files of a session.
ghost use Rattle.std.specs.Prelude.{◌≡◌, ℕ, List, [], length, map, None, Some, OnOk, OnErr, option_map};
ghost use Rattle.hir_session_state.specs.HirItemTree.Source.{source_view};
ghost use Rattle.hir_session_state.specs.Files.{file_at, with_file, without_file};

use hir_base::file_path::FilePath;
use hir_item_tree::source::Source;
use std::alloc::{AllocError, Global};
use std::collections::{BTreeMap, btree_map};
use std::marker::Model;

/// The source of a file, as it was handed in.
#[derive(Drop)]
struct FileSource {
    source: Source,
}

impl Model for FileSource {
    ghost use Rattle.hir_session_state.specs.HirItemTree.Source.{SourceValue, source_view};
    ghost use Rattle.hir_session_state.specs.SourceCodes.{coded_source};

    ghost Value = { SourceValue };

    ghost coded = { coded_source };

    ghost view = { λ f. source_view f.source };
}

/// The sources of the files that are there, by path.
#[derive(Drop)]
pub struct Files {
    by_path: BTreeMap<FilePath, FileSource>,
}

impl Model for Files {
    ghost use Rattle.hir_session_state.specs.Files.{Files as FileList};
    ghost use Rattle.hir_session_state.specs.Codes.{coded_files};

    ghost Value = { FileList };

    ghost coded = { coded_files };

    ghost view = { λ f. f.by_path.entries };
}

impl FileSource {
    fn source(&self) -> &Source
        ensures value { source_view result.now ≡ self.now }
    {
        &self.source
    }
}

impl Files {
    pub(crate) fn new(alloc: Global) -> Files
        ensures value { result ≡ [] }
    {
        Files {
            by_path: BTreeMap::new(alloc),
        }
    }

    /// The source of the file at a path, if it is there.
    pub fn get(&self, path: &FilePath) -> Option<&Source>
        ensures value { option_map (λ s. source_view s.now) result ≡ file_at self.now path.now }
    {
        match self.by_path.get(path) {
            Some(file) => Some(file.source()),
            None => None,
        }
    }

    /// How many files are there.
    pub fn len(&self) -> usize
        ensures value { result ≡ length self.now }
    {
        self.by_path.len()
    }

    /// The paths of the files, in their order.
    pub fn paths(&self) -> FilePaths<'_>
        ensures value { result ≡ map (λ f. f.0) self.now }
    {
        FilePaths {
            left: self.by_path.keys(),
        }
    }

    /// Sets a file.
    pub(crate) fn set(&mut self, path: FilePath, source: Source) -> Result<(), AllocError>
        ensures ok { OnOk result (self.new ≡ with_file self.old path (source_view source)) }
        ensures err { OnErr result (self.new ≡ self.old) }
    {
        self.by_path.insert(path, FileSource { source })?;
        Ok(())
    }

    /// Removes a file.
    pub(crate) fn remove(&mut self, path: &FilePath)
        ensures value { self.new ≡ without_file self.old path.now }
    {
        self.by_path.remove(path);
    }
}

/// The paths of files, one after another; see `Files::paths`.
#[derive(Drop)]
pub struct FilePaths<'a> {
    left: btree_map::Keys<'a, FilePath, FileSource>,
}

impl<'a> Model for FilePaths<'a> {
    ghost use Rattle.std.specs.Prelude.{List, ℕ};

    ghost Value = { List (List ℕ) };

    ghost view = { λ p. p.left };
}

impl<'a> Iterator for FilePaths<'a> {
    type Item = &'a FilePath;

    ghost use Rattle.std.specs.Iterator.{item_count};
    ghost use Rattle.std.specs.Map.Iter.{TakesFirst, deref};
    ghost use Rattle.std.specs.Prelude.{List};

    ghost next_gives = { TakesFirst deref };

    ghost remaining = { item_count (λ (left : List _). left) };

    fn next(&mut self) -> Option<&'a FilePath> {
        self.left.next()
    }
}
