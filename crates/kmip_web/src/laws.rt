//! Laws over the definitions, each the contract of a function that does nothing.
ghost use Rattle.std.specs.Prelude.{◌≡◌, ℕ, List};
ghost use Rattle.kmip_web.specs.Listing.{listing};
ghost use Rattle.kmip_web.specs.Split.{split_text, listed_fields};

/// A listing, split by line feeds and tabs as the page's script splits it, gives back the fields of
/// all items, in order.
pub fn listing_splits()
    ensures { (bytes : List ℕ) → split_text (listing bytes) ≡ listed_fields bytes }
{}
