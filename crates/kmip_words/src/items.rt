//! Items of a message by their tags.
ghost use Rattle.std.specs.Prelude.{◌≡◌, ◌==◌, length, option_map, slice_get};
ghost use Rattle.kmip_wire.specs.Items.{item_tree};
ghost use Rattle.kmip_client.specs.Untyped.{all_under, one_under, number_under};

use kmip_wire::ItemRef;

/// The item with this tag in an item at an index among those with this tag.
fn nth_under<'a>(parent: ItemRef<'a>, tag: u32, index: usize) -> Option<ItemRef<'a>>
    ensures { option_map item_tree result ≡
        slice_get (all_under tag (item_tree parent.entry)) index }
{
    parent
        .children()?
        .filter(|item| item.tag().number() == tag)
        .nth(index)
}

/// Whether an item has no item with this tag.
pub fn has_none_under(parent: ItemRef<'_>, tag: u32) -> bool
    ensures { result ≡ (length (all_under tag (item_tree parent.entry)) == 0) }
{
    nth_under(parent, tag, 0).is_none()
}

/// The item with this tag in an item, where there is exactly one.
pub fn one_under<'a>(parent: ItemRef<'a>, tag: u32) -> Option<ItemRef<'a>>
    ensures { option_map item_tree result ≡ one_under tag (item_tree parent.entry) }
{
    match nth_under(parent, tag, 1) {
        Some(_) => None,
        None => nth_under(parent, tag, 0),
    }
}

/// Its number, where it is an enumeration.
pub fn number_under(parent: ItemRef<'_>, tag: u32) -> Option<u32>
    ensures { result ≡ number_under tag (item_tree parent.entry) }
{
    one_under(parent, tag)?.enumeration()
}
