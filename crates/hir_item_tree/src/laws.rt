//! Laws of attributes and kept forests, over what the contracts say.
ghost use Rattle.hir_item_tree.specs.BodyTexts.{BodyTextsLeaveTheTree, BodyTextsLeaveTheSides};
ghost use Rattle.hir_item_tree.specs.WithoutSides.{SideListsLeaveTheTree};
ghost use Rattle.hir_item_tree.specs.Walks.{WalksAreDetermined, EachRowIsMetOnce};
ghost use Rattle.hir_item_tree.specs.Sources.{UnreadSourcesKeepNoItems, OtherUnreadSourcesAreEmpty};
ghost use Rattle.hir_item_tree.specs.Laws.{MergeIsAssociative, EmptyIsNeutralInFront, EmptyIsNeutralBehind, JoinedListsCollectAsMerged};

pub use hir_use_tree::laws::place_holds_its_leaf;

/// Of three merged, it doesn't matter which two are merged first.
pub fn merge_is_associative()
    ensures always { MergeIsAssociative }
{}

/// Merging with nothing changes nothing.
pub fn empty_is_neutral()
    ensures in_front { EmptyIsNeutralInFront }
    ensures behind { EmptyIsNeutralBehind }
{}

/// Numbers aside, two lists of attributes that are joined leave what they leave merged.
pub fn joined_lists_collect_as_merged()
    ensures always { JoinedListsCollectAsMerged }
{}

/// Sources that differ in the texts of bodies alone have equal trees, and the same beside them.
pub fn body_texts_leave_the_tree()
    ensures law { BodyTextsLeaveTheTree }
    ensures sides { BodyTextsLeaveTheSides }
{}

/// Sources that differ in what is kept beside their trees alone have equal trees: in variants, macro texts,
/// inputs and associated items. The texts of bodies may differ too.
pub fn side_lists_leave_the_tree()
    ensures law { SideListsLeaveTheTree }
{}

/// A source that is absent, or can't be read, has no items, and attributes only of a crate whose root it is.
pub fn unread_sources_keep_no_items()
    ensures at_a_root { UnreadSourcesKeepNoItems }
    ensures elsewhere { OtherUnreadSourcesAreEmpty }
{}

/// The walk from the top of a tree ends, and meets each of its rows once.
pub fn each_row_is_met_once()
    ensures one_walk { WalksAreDetermined }
    ensures each_once { EachRowIsMetOnce }
{}
