//! What holds of every graph. The functions do nothing: their contracts are the laws.
ghost use Rattle.hir_crate_graph.specs.Laws.{ListsAscend, ListsWhatIsDependedOn};

/// The transitive dependencies that are listed are those of the closure, in ascending order.
pub fn transitive_dependencies_are_listed()
    ensures lists { ListsWhatIsDependedOn }
    ensures ascend { ListsAscend }
{}
