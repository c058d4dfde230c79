//! The walk over the fields of a payload.
ghost use Rattle.std.specs.Prelude.{◌≡◌, ◌++◌, ◌<◌, ◌^◌, false, map, flat_map};
ghost use Rattle.std.specs.Prelude.{Some, IfOk, OnOk};
ghost use Rattle.kmip_wire.specs.Tree.{structure as the_structure, trees_of};
ghost use Rattle.kmip_rows.specs.Rows.{row_view, field_view, structure_view};
ghost use Rattle.kmip_rows.specs.Structures.{objects};
ghost use Rattle.kmip_payloads.specs.Items.{item_view};
ghost use Rattle.kmip_payloads.specs.Payload as payload;

use crate::item::Item;
use crate::places::{is_needed, push_below, push_here, stands};
use kmip_rows::{FieldRow, OperationRow, Place, StructureRow, object_tags, structure_row};
use kmip_tags::tags::REQUEST_PAYLOAD;
use kmip_wire::{Node, OutOfMemory, Tag, Tree, Trees};
use std::alloc::Global;

/// How many levels of structures the payload of an operation has at most: its fields, and in turn
/// those of Private Key, Key Block, Key Wrapping Data, Encryption Key Information and Cryptographic
/// Parameters.
pub(crate) const LEVELS: u32 = 6;

/// The structure of these items.
fn structure(tag: Tag, items: Vec<Tree>) -> Tree
    ensures { result ≡ the_structure tag (trees_of items.items) }
{
    Tree {
        tag,
        node: Node::Structure(Trees::of_vec(items)),
    }
}

/// Adds the structure of a row, with what the items give of its fields.
#[cycle(build)]
fn push_structure(
    alloc: Global,
    level: u32,
    row: &StructureRow,
    items: &[Item<'_>],
    out: &mut Vec<Tree>,
) -> Result<(), OutOfMemory>
    requires { row.now.tag < 2 ^ 24 }
    ensures { OnOk result (out.new.items ≡ out.old.items ++
        payload.structure_of (payload.build level) (map item_view items.now)
        (Some (structure_view row.now))) }
{
    let mut inner = Vec::new(alloc);
    push_fields(alloc, level, row.fields, items, &mut inner)?;
    out.push(structure(Tag::of(row.tag), inner))?;
    Ok(())
}

/// Adds what the items give under a tag of a field.
#[cycle(build)]
fn push_tag(
    alloc: Global,
    level: u32,
    is_needed: bool,
    tag: u32,
    items: &[Item<'_>],
    out: &mut Vec<Tree>,
) -> Result<(), OutOfMemory>
    ensures { OnOk result (out.new.items ≡ out.old.items ++
        payload.tag_trees (payload.build level) is_needed (map item_view items.now) tag) }
{
    push_here(alloc, tag, items, out)?;
    if !stands(is_needed, tag, items) {
        return Ok(());
    }
    let mut below = Vec::new(alloc);
    push_below(tag, items, &mut below)?;
    match structure_row(tag) {
        Some(row) => push_structure(alloc, level, row, below.as_slice(), out),
        None => Ok(()),
    }
}

/// Adds the structure of an object: that which its items say.
#[cycle(build)]
fn push_object(
    alloc: Global,
    level: u32,
    items: &[Item<'_>],
    out: &mut Vec<Tree>,
) -> Result<(), OutOfMemory>
    ensures { OnOk result (out.new.items ≡ out.old.items ++
        flat_map (payload.tag_trees (payload.build level) false (map item_view items.now))
        objects) }
{
    for tag in object_tags() {
        push_tag(alloc, level, false, *tag, items, out)?;
    }
    Ok(())
}

/// Adds what the items give of a field.
#[cycle(build)]
fn push_field(
    alloc: Global,
    level: u32,
    field: &FieldRow,
    items: &[Item<'_>],
    out: &mut Vec<Tree>,
) -> Result<(), OutOfMemory>
    ensures { OnOk result (out.new.items ≡ out.old.items ++
        payload.field_trees (payload.build level) (map item_view items.now)
        (field_view field.now)) }
{
    match field.place {
        Place::Tag(tag) => push_tag(alloc, level, is_needed(field.mark), tag, items, out),
        Place::Object => push_object(alloc, level, items, out),
    }
}

/// Adds what the items give of the fields, through so many levels of structures.
#[cycle(build)]
fn push_fields(
    alloc: Global,
    level: u32,
    fields: &[FieldRow],
    items: &[Item<'_>],
    out: &mut Vec<Tree>,
) -> Result<(), OutOfMemory>
    ensures { OnOk result (out.new.items ≡ out.old.items ++
        payload.build level (map field_view fields.now) (map item_view items.now)) }
{
    if level == 0 {
        return Ok(());
    }
    for field in fields {
        push_field(alloc, level - 1, field, items, out)?;
    }
    Ok(())
}

/// The payload of a request: what the items give of its operation's fields, in the order of the
/// fields. A structure stands round the items below it, and where the operation needs it. An item
/// that no field takes is left out: [`first_stray`](crate::first_stray) says which.
pub fn payload_of(
    alloc: Global,
    row: &OperationRow,
    items: &[Item<'_>],
) -> Result<Tree, OutOfMemory>
    ensures { IfOk result (λ tree. tree ≡
        payload.payload (row_view row.now) (map item_view items.now)) }
{
    let mut inner = Vec::new(alloc);
    push_fields(alloc, LEVELS, row.request, items, &mut inner)?;
    Ok(structure(Tag::of(REQUEST_PAYLOAD), inner))
}
