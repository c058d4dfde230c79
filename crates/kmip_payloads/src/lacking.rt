//! The fields that a payload needs and that no item gives.
ghost use Rattle.std.specs.Prelude.{◌≡◌, ◌++◌, false, map, flat_map, IfOk, OnOk, Some};
ghost use Rattle.kmip_rows.specs.Rows.{row_view, field_view, structure_view};
ghost use Rattle.kmip_rows.specs.Structures.{objects};
ghost use Rattle.kmip_payloads.specs.Items.{item_view};
ghost use Rattle.kmip_payloads.specs.Lacks as lacks;
ghost use Rattle.kmip_payloads.specs.Payload.{kept};

use crate::build::LEVELS;
use crate::item::Item;
use crate::places::{is_needed, no_object, none_here, push_below, stands};
use kmip_rows::{FieldRow, OperationRow, Place, StructureRow, object_tags, structure_row};
use kmip_wire::OutOfMemory;
use std::alloc::Global;

/// Adds the place where it is to be added.
fn push_where(adds: bool, place: Place, out: &mut Vec<Place>) -> Result<(), OutOfMemory>
    ensures { OnOk result (out.new.items ≡ out.old.items ++ kept adds place) }
{
    if adds {
        out.push(place)?;
    }
    Ok(())
}

/// Adds what the items lack of a structure, where it stands.
#[cycle(lacks)]
fn push_structure_lacks(
    alloc: Global,
    level: u32,
    is_needed: bool,
    tag: u32,
    row: &StructureRow,
    items: &[Item<'_>],
    out: &mut Vec<Place>,
) -> Result<(), OutOfMemory>
    ensures { OnOk result (out.new.items ≡ out.old.items ++
        lacks.structure_lacks (lacks.all_lacks level) is_needed (map item_view items.now) tag
        (Some (structure_view row.now))) }
{
    if !stands(is_needed, tag, items) {
        return Ok(());
    }
    let mut below = Vec::new(alloc);
    push_below(tag, items, &mut below)?;
    push_all_lacks(alloc, level, row.fields, below.as_slice(), out)
}

/// Adds what the items lack under a tag of a field.
#[cycle(lacks)]
fn push_tag_lacks(
    alloc: Global,
    level: u32,
    is_needed: bool,
    tag: u32,
    items: &[Item<'_>],
    out: &mut Vec<Place>,
) -> Result<(), OutOfMemory>
    ensures { OnOk result (out.new.items ≡ out.old.items ++
        lacks.tag_lacks (lacks.all_lacks level) is_needed (map item_view items.now) tag) }
{
    match structure_row(tag) {
        Some(row) => push_structure_lacks(alloc, level, is_needed, tag, row, items, out),
        None => push_where(is_needed && none_here(tag, items), Place::Tag(tag), out),
    }
}

/// Adds what the items lack of an object.
#[cycle(lacks)]
fn push_object_lacks(
    alloc: Global,
    level: u32,
    items: &[Item<'_>],
    out: &mut Vec<Place>,
) -> Result<(), OutOfMemory>
    ensures { OnOk result (out.new.items ≡ out.old.items ++
        flat_map (lacks.tag_lacks (lacks.all_lacks level) false (map item_view items.now))
        objects) }
{
    for tag in object_tags() {
        push_tag_lacks(alloc, level, false, *tag, items, out)?;
    }
    Ok(())
}

/// Adds what the items lack of a field.
#[cycle(lacks)]
fn push_field_lacks(
    alloc: Global,
    level: u32,
    field: &FieldRow,
    items: &[Item<'_>],
    out: &mut Vec<Place>,
) -> Result<(), OutOfMemory>
    ensures { OnOk result (out.new.items ≡ out.old.items ++
        lacks.field_lacks (lacks.all_lacks level) (map item_view items.now)
        (field_view field.now)) }
{
    match field.place {
        Place::Tag(tag) => push_tag_lacks(alloc, level, is_needed(field.mark), tag, items, out),
        Place::Object => {
            if is_needed(field.mark) && no_object(items) {
                return push_where(true, Place::Object, out);
            }
            push_object_lacks(alloc, level, items, out)
        }
    }
}

/// Adds what the items lack of the fields, through so many levels of structures.
#[cycle(lacks)]
fn push_all_lacks(
    alloc: Global,
    level: u32,
    fields: &[FieldRow],
    items: &[Item<'_>],
    out: &mut Vec<Place>,
) -> Result<(), OutOfMemory>
    ensures { OnOk result (out.new.items ≡ out.old.items ++
        lacks.all_lacks level (map field_view fields.now) (map item_view items.now)) }
{
    if level == 0 {
        return Ok(());
    }
    for field in fields {
        push_field_lacks(alloc, level - 1, field, items, out)?;
    }
    Ok(())
}

/// The fields that the operation needs and that no item gives, in the order of the fields: those of
/// the payload, and those of each structure that stands in it. A structure that is needed stands by
/// itself, so it is never among them; and what a whole tree has is not looked at.
pub fn lacks(
    alloc: Global,
    row: &OperationRow,
    items: &[Item<'_>],
) -> Result<Vec<Place>, OutOfMemory>
    ensures { IfOk result (λ found. found.items ≡
        lacks.lacks (row_view row.now) (map item_view items.now)) }
{
    let mut found = Vec::new(alloc);
    push_all_lacks(alloc, LEVELS, row.request, items, &mut found)?;
    Ok(found)
}
