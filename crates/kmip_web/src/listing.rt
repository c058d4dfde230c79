//! The items of any bytes with their values, one a line.
ghost use Rattle.std.specs.Prelude.{◌≡◌, ◌++◌, ◌+◌, ◌≤◌, ◌^◌, IfOk, option_map};
ghost use Rattle.kmip_wire.specs.Tree.{trees_of};
ghost use Rattle.kmip_wire.specs.Parts.{scalar_in};
ghost use Rattle.kmip_wire.specs.Items.{item_tree, trees_left};
ghost use Rattle.kmip_diag.specs.Lines.{name_text};
ghost use Rattle.kmip_tags.specs.Tags.{ATTRIBUTE_VALUE};
ghost use Rattle.kmip_tags.specs.Names.{name_of};
ghost use Rattle.kmip_shape.specs.Writes.{len_of};
ghost use Rattle.kmip_encodings.specs.Sizes.{size_of, sizes_of};
ghost use Rattle.kmip_web.specs.Listing.{head_text, listed, all_listed, listing};

use crate::context::named_after;
use crate::values::push_value;
use kmip_encodings::place;
use kmip_faults::{Step, step_at};
use kmip_tags::{name_of, tags};
use kmip_wire::{Children, ItemRef, Kind, OutOfMemory, Tag, Text};
use std::alloc::Global;

fn tag_name(tag: Tag) -> &'static str
    ensures { result.now ≡ name_text (name_of tag) }
{
    match name_of(tag) {
        Some(name) => name,
        None => "Unknown",
    }
}

fn push_head(
    alloc: Global,
    text: &mut Text,
    at: u64,
    tag: Tag,
    kind: Kind,
) -> Result<(), OutOfMemory>
    ensures { IfOk result (λ _. text.new ≡ text.old ++ head_text at tag kind) }
{
    let number = tag.number();
    let name = tag_name(tag);
    let kind = kind.name();
    match format!(in alloc; "{at}\t{number:X}\t{name}\t{kind}\t") {
        Ok(made) => text.push_str(made.as_str()),
        Err(_) => Err(OutOfMemory),
    }
}

/// How many bytes the value has, without pads; of a structure any number.
fn value_size(item: ItemRef<'_>) -> usize
    ensures { option_map len_of (scalar_in (item_tree item.entry)) ≡
        option_map (λ _. result) (scalar_in (item_tree item.entry)) }
{
    if let Some(bytes) = item.big() {
        return bytes.len();
    }
    if let Some(text) = item.text() {
        return text.len();
    }
    if let Some(bytes) = item.bytes() {
        return bytes.len();
    }
    match item.kind() {
        Kind::LongInteger | Kind::Boolean | Kind::DateTime => 8,
        _ => 4,
    }
}

/// Lists an item that begins at `at`, and returns where it ends. The names of Attribute Value are
/// looked up under `named`.
#[cycle(items)]
fn list_item(
    alloc: Global,
    text: &mut Text,
    item: ItemRef<'_>,
    at: u64,
    named: Tag,
) -> Result<u64, OutOfMemory>
    requires { at + size_of (item_tree item) ≤ 2 ^ 63 }
    ensures listed { IfOk result (λ _. text.new ≡ text.old ++ listed at named (item_tree item.entry)) }
    ensures end { IfOk result (λ end. end ≡ at + size_of (item_tree item.entry)) }
{
    push_head(alloc, text, at, item.tag(), item.kind())?;
    let Some(children) = item.children() else {
        push_value(alloc, text, place(named, item.tag()), item)?;
        text.push_str("\n")?;
        return Ok(at + (value_size(item) as u64 + 15) / 8 * 8);
    };
    text.push_str("\n")?;
    let end = list_items(alloc, text, children, at + 8)?;
    text.push_str("]\n")?;
    Ok(end)
}

#[cycle(items)]
fn list_items(
    alloc: Global,
    text: &mut Text,
    children: Children<'_>,
    from: u64,
) -> Result<u64, OutOfMemory>
    requires { from + sizes_of (trees_of (trees_left children)) ≤ 2 ^ 63 }
    ensures listed { IfOk result (λ _. text.new ≡
        text.old ++ all_listed from ATTRIBUTE_VALUE (trees_of (trees_left children.entry))) }
    ensures end { IfOk result (λ end. end ≡
        from + sizes_of (trees_of (trees_left children.entry))) }
{
    let mut at = from;
    let mut named = Tag::of(tags::ATTRIBUTE_VALUE);
    for child in children {
        at = list_item(alloc, text, child, at, named)?;
        named = named_after(named, child);
    }
    Ok(at)
}

/// Lists the items of any bytes, and of a structure that is cut off the part that is there.
pub fn list_bytes(alloc: Global, bytes: &[u8]) -> Result<Text, OutOfMemory>
    ensures { IfOk result (λ text. text ≡ listing bytes.now) }
{
    let mut text = Text::new(alloc);
    let mut rest = bytes;
    let mut at = 0u64;
    let mut named = Tag::of(tags::ATTRIBUTE_VALUE);
    let mut level = 1;
    'shown: loop {
        match step_at(rest, level) {
            Step::Ended => return Ok(text),
            Step::Stopped => return Ok(text),
            Step::Item(item, after) => {
                at = list_item(alloc, &mut text, item, at, named)?;
                named = named_after(named, item);
                rest = after;
            }
            Step::CutOff(tag, inner) => {
                push_head(alloc, &mut text, at, tag, Kind::Structure)?;
                text.push_str("\n")?;
                at += 8;
                named = Tag::of(tags::ATTRIBUTE_VALUE);
                level += 1;
                rest = inner;
            }
        }
    }
}
