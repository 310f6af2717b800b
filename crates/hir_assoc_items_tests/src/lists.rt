//! A file with traits and impls, and what its calls expand to, as a database.
ghost use Rattle.std.specs.Prelude.{◌≡◌, option_map};
ghost use Rattle.hir_item_tree.specs.Source.{source_view};
ghost use Rattle.hir_tables.specs.SourcePlaces.{source_value};
ghost use Rattle.hir_assoc_items_tests.specs.Lists.{source_in};

use hir_base::cfg_options::CfgOptions;
use hir_base::ids::Crate;
use hir_base::macro_kind::ExpansionKey;
use hir_base::text::Text;
use hir_collector_rules::source_database::{Config, CrateRoot, ExpansionLook, SourceDatabase};
use hir_crate_graph::crate_set::CrateSet;
use hir_item_tree::source::Source;
use hir_item_tree::source_tree::SourceTree;
use hir_tables::SourcePlace;
use hir_wire::{Command, Edit, ExpansionEntry, read_command};
use std::alloc::{AllocError, Global};
use std::collections::BTreeMap;
use std::rc::Rc;
use std::test::Fail;

/// A crate's file, and by their inputs what its calls expand to, with why they failed.
#[derive(Drop)]
pub struct Lists {
    file: Source,
    expanded: BTreeMap<Text, Source>,
    errors: BTreeMap<Text, Text>,
}

impl SourceDatabase for Lists {
    ghost use Rattle.std.specs.Prelude.{None, false, []};
    ghost use Rattle.hir_item_tree.specs.Attributes.{no_attributes};
    ghost use Rattle.hir_item_tree.specs.SourceTree.{source_tree_of};
    ghost use Rattle.hir_assoc_items_tests.specs.Lists.{look_in, source_in};

    ghost workspace = { λ d. record {
      crates = [];
      config = λ _. None;
      tree = λ krate source. source_tree_of (λ _. false) no_attributes (source_in d.file d.expanded.entries source);
      entry = look_in d.expanded.entries d.errors.entries;
    } };

    fn krate(&self, _krate: Crate) -> Option<&CrateRoot> {
        None
    }

    fn config(&self, _krate: Crate) -> Option<&Config> {
        None
    }

    fn transitive_dependencies(&self, _krate: Crate) -> Option<&Rc<CrateSet>> {
        None
    }

    fn tree(
        &mut self,
        alloc: Global,
        _krate: Crate,
        source: SourcePlace<'_>,
    ) -> Result<Rc<SourceTree>, AllocError> {
        let front = Vec::new(alloc);
        let options = CfgOptions::new(alloc);
        let tree = SourceTree::new(alloc, self.source_at(source), &front, &options)?;
        Ok(Rc::new(alloc, tree)?)
    }

    fn present(&self, _krate: Crate, source: SourcePlace<'_>) -> bool {
        self.source_at(source).is_some()
    }

    fn expansion(&self, key: &ExpansionKey) -> ExpansionLook<'_> {
        ExpansionLook {
            present: self.expanded.get(&key.input).is_some(),
            error: self.errors.get(&key.input),
            inner: None,
        }
    }
}

impl Lists {
    /// The source at a place.
    fn source_at(&self, source: SourcePlace<'_>) -> Option<&Source>
        ensures value { option_map (λ s. source_view s.now) result ≡ source_in self.now.file self.now.expanded.entries (source_value source.entry) }
    {
        match source {
            SourcePlace::File(_) => Some(&self.file),
            SourcePlace::Block(_) => None,
            SourcePlace::Expansion(key) => self.expanded.get(&key.input),
        }
    }

    /// A file without expansions, by the line that sets it.
    pub fn of_file(alloc: Global, line: &str) -> Result<Lists, Fail> {
        match read_command(alloc, line.as_bytes()) {
            Ok(Command::Edit(Edit::SetFile { file: _, source })) => Ok(Lists {
                file: source,
                expanded: BTreeMap::new(alloc),
                errors: BTreeMap::new(alloc),
            }),
            Ok(_) => Err("another command")?,
            Err(error) => Err(error)?,
        }
    }

    /// What calls expand to that have the input of the key, by the line that sets it.
    pub fn set_expansion(&mut self, alloc: Global, line: &str) -> Result<(), Fail> {
        match read_command(alloc, line.as_bytes()) {
            Ok(Command::Edit(Edit::SetExpansion { key, entry })) => {
                let ExpansionEntry { source, error } = entry;
                if let Some(error) = error {
                    self.errors.insert(key.input.clone()?, error)?;
                }
                self.expanded.insert(key.input, source)?;
                Ok(())
            }
            Ok(_) => Err("another command")?,
            Err(error) => Err(error)?,
        }
    }
}
