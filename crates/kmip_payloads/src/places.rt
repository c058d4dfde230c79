//! Which items stand here under a tag, and which below its structure.
ghost use Rattle.std.specs.Prelude.{◌≡◌, ◌++◌, map, option_map, OnOk};
ghost use Rattle.std.specs.Option.{option_to_list};
ghost use Rattle.std.specs.List.{list_all};
ghost use Rattle.kmip_payloads.specs.Items.{item_view};
ghost use Rattle.kmip_payloads.specs.Payload as payload;
ghost use Rattle.kmip_payloads.specs.Lacks as lacks;

use crate::item::{Item, tag_of, tree_of};
use kmip_rows::{Mark, object_tags};
use kmip_wire::{OutOfMemory, Tree};
use std::alloc::Global;

/// Whether a field with the mark stands in each payload.
pub(crate) fn is_needed(mark: Mark) -> bool
    ensures { result ≡ payload.is_needed mark }
{
    match mark {
        Mark::One | Mark::AtLeastOne => true,
        Mark::AtMostOne | Mark::AnyNumber => false,
    }
}

/// Whether the item stands here under the tag.
fn is_here(tag: u32, item: &Item<'_>) -> bool
    ensures { payload.here_of tag (item_view item.now) ≡
        payload.kept result (item_view item.now).tree }
{
    match item.path {
        [] => tag_of(item).number() == tag,
        _ => false,
    }
}

/// Whether no item stands here under the tag.
#[tactic(auto, using(crate::proofs::Views::none_kept))]
pub(crate) fn none_here(tag: u32, items: &[Item<'_>]) -> bool
    ensures { result ≡ payload.are_none (payload.here tag (map item_view items.now)) }
{
    match items {
        [] => true,
        [first, rest @ ..] => !is_here(tag, first) && none_here(tag, rest),
    }
}

/// Adds the item where it stands here under the tag.
fn push_one_here(
    alloc: Global,
    tag: u32,
    item: &Item<'_>,
    out: &mut Vec<Tree>,
) -> Result<(), OutOfMemory>
    ensures { OnOk result
        (out.new.items ≡ out.old.items ++ payload.here_of tag (item_view item.now)) }
{
    if is_here(tag, item) {
        out.push(tree_of(alloc, item)?)?;
    }
    Ok(())
}

/// Adds the items that stand here under the tag.
#[tactic(auto, using(std::proofs::lemmas::List::append_assoc))]
pub(crate) fn push_here(
    alloc: Global,
    tag: u32,
    items: &[Item<'_>],
    out: &mut Vec<Tree>,
) -> Result<(), OutOfMemory>
    ensures { OnOk result
        (out.new.items ≡ out.old.items ++ payload.here tag (map item_view items.now)) }
{
    match items {
        [] => Ok(()),
        [first, rest @ ..] => {
            push_one_here(alloc, tag, first, out)?;
            push_here(alloc, tag, rest, out)
        }
    }
}

/// The item as it stands in the structure with this tag, where it is below that.
fn below<'a>(tag: u32, item: &Item<'a>) -> Option<Item<'a>>
    ensures { option_to_list (option_map item_view result) ≡
        payload.below_of tag (item_view item.now) }
{
    match item.path {
        [] => None,
        [outer, path @ ..] => {
            if *outer == tag {
                Some(Item {
                    path,
                    tag: item.tag,
                    value: item.value,
                })
            } else {
                None
            }
        }
    }
}

/// Whether no item is below the structure with this tag.
pub(crate) fn none_below(tag: u32, items: &[Item<'_>]) -> bool
    ensures { result ≡ payload.are_none (payload.below tag (map item_view items.now)) }
{
    match items {
        [] => true,
        [first, rest @ ..] => match below(tag, first) {
            Some(_) => false,
            None => none_below(tag, rest),
        },
    }
}

/// Adds the item, where there is one.
fn push_some<'a>(inner: Option<Item<'a>>, out: &mut Vec<Item<'a>>) -> Result<(), OutOfMemory>
    ensures { OnOk result (map item_view out.new.items ≡ map item_view out.old.items ++
        option_to_list (option_map item_view inner.entry)) }
{
    if let Some(inner) = inner {
        out.push(inner)?;
    }
    Ok(())
}

/// Adds the items below the structure with this tag, as they stand in it.
#[tactic(auto, using(std::proofs::lemmas::List::append_assoc))]
pub(crate) fn push_below<'a>(
    tag: u32,
    items: &[Item<'a>],
    out: &mut Vec<Item<'a>>,
) -> Result<(), OutOfMemory>
    ensures { OnOk result (map item_view out.new.items ≡
        map item_view out.old.items ++ payload.below tag (map item_view items.now)) }
{
    match items {
        [] => Ok(()),
        [first, rest @ ..] => {
            push_some(below(tag, first), out)?;
            push_below(tag, rest, out)
        }
    }
}

/// Whether a structure stands under the tag.
pub(crate) fn stands(is_needed: bool, tag: u32, items: &[Item<'_>]) -> bool
    ensures { result ≡ payload.stands is_needed tag (map item_view items.now) }
{
    !none_below(tag, items) || is_needed && none_here(tag, items)
}

/// Whether no item stands here under one of the tags, nor below its structure.
fn none_given(tags: &[u32], items: &[Item<'_>]) -> bool
    ensures { result ≡ list_all (lacks.is_free (map item_view items.now)) tags.now }
{
    match tags {
        [] => true,
        [first, rest @ ..] => {
            none_here(*first, items) && none_below(*first, items) && none_given(rest, items)
        }
    }
}

/// Whether no item gives an object.
pub(crate) fn no_object(items: &[Item<'_>]) -> bool
    ensures { result ≡ lacks.no_object (map item_view items.now) }
{
    none_given(object_tags(), items)
}
