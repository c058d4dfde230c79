//! The items that no field takes.
ghost use Rattle.std.specs.Prelude.{◌≡◌, ◌==◌, map, option_map};
ghost use Rattle.std.specs.List.{list_any};
ghost use Rattle.kmip_rows.specs.Rows.{row_view, field_view};
ghost use Rattle.kmip_rows.specs.Rows as rows;
ghost use Rattle.kmip_rows.specs.Structures.{structures};
ghost use Rattle.kmip_payloads.specs.Items.{item_view};
ghost use Rattle.kmip_payloads.specs.Strays as strays;

use crate::item::{Item, tag_of};
use kmip_rows::{FieldRow, OperationRow, Place, object_tags, structure_row};

/// Whether the tag is one of these.
fn is_one_of(tags: &[u32], tag: u32) -> bool
    ensures { result ≡ list_any (λ own. own == tag) tags.now }
{
    match tags {
        [] => false,
        [first, rest @ ..] => *first == tag || is_one_of(rest, tag),
    }
}

/// Whether the items of a place stand under the tag.
fn is_under(tag: u32, place: Place) -> bool
    ensures { result ≡ strays.is_under tag place }
{
    match place {
        Place::Tag(own) => own == tag,
        Place::Object => is_one_of(object_tags(), tag),
    }
}

/// Whether one of the fields has items under the tag.
fn has_field(fields: &[FieldRow], tag: u32) -> bool
    ensures { result ≡ strays.has_field (map field_view fields.now) tag }
{
    match fields {
        [] => false,
        [first, rest @ ..] => is_under(tag, first.place) || has_field(rest, tag),
    }
}

/// The fields of the structure under a tag.
fn fields_under(tag: u32) -> &'static [FieldRow]
    ensures { map field_view result.now ≡ strays.fields_of (rows.structure_in structures tag) }
{
    match structure_row(tag) {
        Some(row) => row.fields,
        None => &[],
    }
}

/// Whether a field takes an item under the tag, in the structures of the path.
fn has_place(fields: &[FieldRow], path: &[u32], tag: u32) -> bool
    ensures { result ≡ strays.has_place (map field_view fields.now) path.now tag }
{
    match path {
        [] => has_field(fields, tag),
        [outer, path @ ..] => {
            has_field(fields, *outer) && has_place(fields_under(*outer), path, tag)
        }
    }
}

/// Whether a field of the operation takes the item.
fn is_taken(row: &OperationRow, item: &Item<'_>) -> bool
    ensures { result ≡ strays.is_taken (row_view row.now) (item_view item.now) }
{
    has_place(row.request, item.path, tag_of(item).number())
}

/// The first item that no field of the operation takes. `None` exactly where each has its place, so
/// that [`payload_of`](crate::payload_of) leaves none out.
pub fn first_stray<'i, 'a>(row: &OperationRow, items: &'i [Item<'a>]) -> Option<&'i Item<'a>>
    ensures { option_map (λ item. item_view item.now) result ≡
        strays.first_stray (row_view row.now) (map item_view items.now) }
{
    match items {
        [] => None,
        [first, rest @ ..] => {
            if is_taken(row, first) {
                first_stray(row, rest)
            } else {
                Some(first)
            }
        }
    }
}
