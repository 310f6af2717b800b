//! A crate of a session.
ghost use Rattle.std.specs.Prelude.{◌≡◌, [], IfOk, option_map, unwrap_or};
ghost use Rattle.hir_session_state.specs.HirItemTree.Attributes.{attributes_view};
ghost use Rattle.hir_session_state.specs.HirTables.SourcePlaces.{source_value};
ghost use Rattle.hir_session_state.specs.HirCollectorRules.Workspace.{config_view};
ghost use Rattle.hir_session_state.specs.Crates.{root_of};
ghost use Rattle.hir_session_state.specs.SourceTable.{front_in};

use hir_base::ast_id::{EditionedFileId, FileId};
use hir_base::cfg_options::CfgOptions;
use hir_item_tree::raw_attr::RawAttr;
use hir_session_state::hir_collector_rules::source_database::{Config, CrateRoot};
use hir_tables::SourcePlace;
use std::alloc::AllocError;
use std::marker::Model;

/// A crate: its root, what else it was handed in with, and the number of its root file.
#[derive(Drop)]
pub struct CrateInfo {
    own: CrateRoot,
    config: Config,
    file: FileId,
}

impl Model for CrateInfo {
    ghost use Rattle.hir_session_state.specs.HirCollectorRules.Workspace.{config_view};
    ghost use Rattle.hir_session_state.specs.CrateCodes.{coded_crate};
    ghost use Rattle.hir_session_state.specs.Crates.{CrateValue};

    ghost Value = { CrateValue };

    ghost coded = { coded_crate };

    ghost view = { λ c. record {
      own = c.own;
      config = config_view c.config;
      file = c.file;
    } };
}

impl CrateInfo {
    pub fn new(own: CrateRoot, config: Config, file: FileId) -> CrateInfo
        ensures value { result ≡ record { own = own; config = config_view config; file = file } }
    {
        CrateInfo { own, config, file }
    }

    /// Its root.
    pub fn own(&self) -> &CrateRoot
        ensures value { result.now ≡ self.now.own }
    {
        &self.own
    }

    /// What else it was handed in with.
    pub fn config(&self) -> &Config
        ensures value { config_view result.now ≡ self.now.config }
    {
        &self.config
    }

    /// Has it handed in with this.
    pub fn set_config(&mut self, config: Config)
        ensures value { self.new ≡ record self.old { config = config_view config } }
    {
        self.config = config;
    }

    /// What else it was handed in with, for itself.
    pub fn into_config(self) -> Config
        ensures value { config_view result ≡ self.config }
    {
        let CrateInfo {
            own: _,
            config,
            file: _,
        } = self;
        config
    }

    /// The crate as it is where it is handed in with this.
    pub fn with_config(&self, config: Config) -> Result<CrateInfo, AllocError>
        ensures value { IfOk result (λ c. c ≡ record self.now { config = config_view config }) }
    {
        let own = CrateRoot {
            root: self.own.root.clone()?,
            is_proc_macro: self.own.is_proc_macro,
        };
        Ok(CrateInfo {
            own,
            config,
            file: self.file,
        })
    }

    /// Its root file, in its edition.
    pub fn root(&self) -> EditionedFileId
        ensures value { result ≡ root_of self.now }
    {
        EditionedFileId {
            file_id: self.file,
            edition: self.config.edition,
        }
    }

    /// The attributes that stand in front of those at the top of the source at a place, if any do.
    pub fn front(&self, place: SourcePlace<'_>) -> Option<&Vec<RawAttr>>
        ensures value { attributes_view (unwrap_or (option_map (λ attrs. attrs.now.items) result) [])
            ≡ front_in self.now (source_value place.entry) }
    {
        match place {
            SourcePlace::File(path) => {
                if self.own.root == *path {
                    Some(&self.config.attributes)
                } else {
                    None
                }
            }
            SourcePlace::Block(_) | SourcePlace::Expansion(_) => None,
        }
    }

    /// The options that are set in it.
    pub fn options(&self) -> &CfgOptions
        ensures value { result.now ≡ self.now.config.options }
    {
        &self.config.options
    }
}
