//! Laws of use trees, over what the contracts say.
ghost use Rattle.hir_use_tree.specs.Laws.{PlaceHoldsItsLeaf};

/// An import's place holds the leaf that wrote it.
pub fn place_holds_its_leaf()
    ensures always { PlaceHoldsItsLeaf }
{}
