//! Under which tag a name of an enumeration's number is looked up.
ghost use Rattle.std.specs.Prelude.{◌≡◌};
ghost use Rattle.kmip_tags.specs.Tags.{ATTRIBUTE_VALUE};
ghost use Rattle.kmip_encodings.specs.Context.{place, named_after};

use crate::attributes::attribute_tag;
use kmip_tags::tags;
use kmip_wire::{Node, Tag, Tree};

/// Where no Attribute Name stands before an Attribute Value: under this tag no table is.
pub fn unnamed() -> Tag
    ensures { result ≡ ATTRIBUTE_VALUE }
{
    Tag::of(tags::ATTRIBUTE_VALUE)
}

/// The tag under which the names of an item's value are looked up: its own, but for Attribute
/// Value, where it is `named`.
pub fn place(named: Tag, tag: Tag) -> Tag
    ensures { result ≡ place named tag }
{
    if tag.number() == tags::ATTRIBUTE_VALUE {
        named
    } else {
        tag
    }
}

/// Where the names of Attribute Value are looked up after this item of the same structure.
pub fn named_after(named: Tag, item: &Tree) -> Tag
    ensures { result ≡ named_after named item.now }
{
    if item.tag.number() != tags::ATTRIBUTE_NAME {
        return named;
    }
    match &item.node {
        Node::TextString(name) => attribute_tag(name.as_str()),
        _ => named,
    }
}
