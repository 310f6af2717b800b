//! What is there at the keys of sources, by the numbers of trees.
ghost use Rattle.std.specs.Prelude.{◌≡◌, IfOk};
ghost use Rattle.hir_collector_rules.specs.Keys.{absent_source, source_in};

use hir_base::cfg_options::CfgOptions;
use hir_collector_rules::source_database::SourceDatabase;
use hir_item_tree::source_tree::SourceTree;
use hir_item_tree::tree_id::TreeKey;
use hir_tables::Tables;
use std::alloc::{AllocError, Global};
use std::rc::Rc;

/// What a source has under a crate; where its number means nothing, it is absent.
pub fn source_at<D: SourceDatabase>(
    alloc: Global,
    db: &mut D,
    locations: &Tables,
    key: TreeKey,
) -> Result<Rc<SourceTree>, AllocError>
    ensures value { IfOk result (λ source. source.value ≡ source_in locations.now (D.workspace db.old) key) }
    ensures same { D.workspace db.new ≡ D.workspace db.old }
{
    match locations.source_of(key.id) {
        Some(source) => db.tree(alloc, key.krate, source),
        None => absent_source(alloc),
    }
}

/// What a source has that is absent.
fn absent_source(alloc: Global) -> Result<Rc<SourceTree>, AllocError>
    ensures value { IfOk result (λ source. source.value ≡ absent_source) }
{
    let front = Vec::new(alloc);
    let options = CfgOptions::new(alloc);
    let source = SourceTree::new(alloc, None, &front, &options)?;
    Ok(Rc::new(alloc, source)?)
}
