//! Sources and crates as they are handed in.
ghost use Rattle.std.specs.Prelude.{◌≡◌, option_map};
ghost use Rattle.hir_base.specs.CfgOptions.{is_set};
ghost use Rattle.hir_item_tree.specs.Attributes.{attributes_view};
ghost use Rattle.hir_item_tree.specs.Source.{source_view};

use crate::raw_attr::RawAttr;
use crate::source::Source;
use hir_base::ast_id::HirFileId;
use hir_base::cfg_options::CfgOptions;
use hir_base::ids::Crate;

/// What is handed in, one part at a time.
pub trait Sources {
    ghost use Rattle.hir_item_tree.specs.Sources.{SourcesValue};

    /// What is handed in, for which the value stands.
    ghost sources: { Self → SourcesValue };

    /// A source; none where it is absent.
    fn source(&self, file_id: HirFileId) -> Option<&Source>
        ensures value { option_map (λ s. source_view s.now) result ≡ (sources self.now).source file_id };

    /// The attributes of a crate whose root the file is; none of another file.
    fn root_attrs(&self, krate: Crate, file_id: HirFileId) -> Option<&Vec<RawAttr>>
        ensures value { option_map (λ attrs. attributes_view attrs.now.items) result
            ≡ (sources self.now).root_attributes krate file_id };

    /// The options that are set in a crate; none where there is no such crate.
    fn options(&self, krate: Crate) -> Option<&CfgOptions>
        ensures value { option_map (λ options. is_set options.now) result ≡ (sources self.now).options krate };
}
