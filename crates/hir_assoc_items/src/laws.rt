//! What holds of all lists of associated items. The functions do nothing: their contracts are the laws.
ghost use Rattle.hir_assoc_items.specs.Laws.{ListingIsUnique};

/// The items of a list come to one listing.
pub fn listing_is_unique()
    ensures unique { ListingIsUnique }
{}
