//! Under which tag the names of a value are looked up, as in the JSON.
ghost use Rattle.std.specs.Prelude.{◌≡◌};
ghost use Rattle.kmip_wire.specs.Items.{item_tree};
ghost use Rattle.kmip_encodings.specs.Context.{named_after};

use kmip_encodings::attribute_tag;
use kmip_tags::tags;
use kmip_wire::{ItemRef, Tag};

/// Where the names of Attribute Value are looked up after this item of the same structure.
pub fn named_after(named: Tag, item: ItemRef<'_>) -> Tag
    ensures { result ≡ named_after named (item_tree item.entry) }
{
    if item.tag().number() != tags::ATTRIBUTE_NAME {
        return named;
    }
    match item.text() {
        Some(name) => attribute_tag(name),
        None => named,
    }
}
