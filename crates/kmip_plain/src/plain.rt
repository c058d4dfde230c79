//! Writing an item as plain JSON.
ghost use Rattle.std.specs.Prelude.{◌≡◌, ◌==◌, ◌++◌, ◌∷◌, flat_map, OnOk};
ghost use Rattle.json.specs.Token.{key};
ghost use Rattle.json.specs.Tree.{json_tokens};
ghost use Rattle.kmip_tags.specs.Tags.{ATTRIBUTE_VALUE};
ghost use Rattle.kmip_wire.specs.Parts.{tag_of};
ghost use Rattle.kmip_wire.specs.Tree.{trees_of};
ghost use Rattle.kmip_encodings.specs.Context.{named_after};
ghost use Rattle.kmip_plain.specs.Names.{plain_name};
ghost use Rattle.kmip_plain.specs.Plain.{under, one_or_array, object_of, plain_at, entries_of};
ghost use Rattle.kmip_plain.specs.Writing.{has_tag};

use crate::names::plain_name;
use crate::value::put_scalar;
use json::Writer;
use kmip_encodings::{named_after, unnamed};
use kmip_wire::{Node, OutOfMemory, Tag, Tree};
use std::alloc::Global;

/// The tag of an item.
fn tag_of(item: &Tree) -> Tag
    ensures { result ≡ tag_of item.now }
{
    item.tag
}

/// Whether an item has the tag.
fn is_tagged(item: &Tree, tag: Tag) -> bool
    ensures { result ≡ (tag_of item.now == tag) }
{
    tag_of(item).number() == tag.number()
}

/// Whether one of the items has the tag.
fn has_tag(items: &[Tree], tag: Tag) -> bool
    ensures { result ≡ has_tag tag items.now }
{
    items.iter().any(|item| is_tagged(item, tag))
}

/// Writes an item's plain JSON. Names of Attribute Value are those of `named`.
#[cycle(plain)]
pub(crate) fn put_tree(
    alloc: Global,
    named: Tag,
    tree: &Tree,
    writer: &mut Writer,
) -> Result<(), OutOfMemory>
    ensures tokens { OnOk result (writer.new.tokens ≡
        writer.old.tokens ++ json_tokens (plain_at named tree.now)) }
    ensures before { writer.new.before ≡ writer.old.before }
{
    match &tree.node {
        Node::Structure(items) => put_object(alloc, items.as_slice(), writer),
        _ => put_scalar(alloc, named, tree, writer),
    }
}

/// Writes the object of a structure's items: each tag where it occurs first.
#[cycle(plain)]
fn put_object(alloc: Global, items: &[Tree], writer: &mut Writer) -> Result<(), OutOfMemory>
    ensures tokens { OnOk result (writer.new.tokens ≡ writer.old.tokens
        ++ json_tokens (object_of (entries_of ATTRIBUTE_VALUE (trees_of items.now)))) }
    ensures before { writer.new.before ≡ writer.old.before }
{
    writer.begin_object()?;
    let mut named = unnamed();
    for index in 0..items.len() {
        let item = &items[index];
        let name = named;
        named = named_after(name, item);
        if has_tag(&items[..index], tag_of(item)) {
            continue;
        }
        put_member(alloc, name, item, &items[index + 1..], writer)?;
    }
    writer.end_object()?;
    Ok(())
}

/// Writes the member of an item's tag, where `later` are the items after it in the same structure
/// and none before it has the tag.
#[cycle(plain)]
fn put_member(
    alloc: Global,
    named: Tag,
    item: &Tree,
    later: &[Tree],
    writer: &mut Writer,
) -> Result<(), OutOfMemory>
    ensures tokens { OnOk result (writer.new.tokens ≡ writer.old.tokens
        ++ key (plain_name (tag_of item.now)) ∷ json_tokens (one_or_array
        (plain_at named item.now ∷ under (tag_of item.now)
        (entries_of (named_after named item.now) (trees_of later.now))))) }
    ensures before { writer.new.before ≡ writer.old.before }
{
    let tag = tag_of(item);
    let name = plain_name(alloc, tag)?;
    writer.key(name.as_str())?;
    if !has_tag(later, tag) {
        return put_tree(alloc, named, item, writer);
    }
    writer.begin_array()?;
    put_tree(alloc, named, item, writer)?;
    put_tagged(alloc, named_after(named, item), tag, later, writer)?;
    writer.end_array()?;
    Ok(())
}

/// Writes those of the items that have the tag, one after the other.
#[cycle(plain)]
fn put_tagged(
    alloc: Global,
    named: Tag,
    tag: Tag,
    items: &[Tree],
    writer: &mut Writer,
) -> Result<(), OutOfMemory>
    ensures tokens { OnOk result (writer.new.tokens ≡ writer.old.tokens
        ++ flat_map json_tokens (under tag (entries_of named (trees_of items.now)))) }
    ensures before { writer.new.before ≡ writer.old.before }
{
    let mut named = named;
    for item in items {
        let name = named;
        named = named_after(name, item);
        if !is_tagged(item, tag) {
            continue;
        }
        put_tree(alloc, name, item, writer)?;
    }
    Ok(())
}
