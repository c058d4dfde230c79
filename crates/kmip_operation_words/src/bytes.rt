//! Which words of a call give bytes.
ghost use Rattle.std.specs.Prelude.{◌≡◌, map};
ghost use Rattle.std.specs.List.{list_any};
ghost use Rattle.kmip_operation_words.specs.Bytes as bytes;
ghost use Rattle.kmip_operation_words.specs.Rows.{field_view, part_view, row_view};

use crate::rows::{FieldRow, Kind, OperationRow, PartRow, Place};

/// Whether the word with this index gives the field, in bytes.
fn is_bytes_at(index: usize, field: &FieldRow) -> bool
    ensures { result ≡ bytes.is_bytes_at index (field_view field.now) }
{
    match (field.place, field.kind) {
        (Place::Word(at), Kind::Hex | Kind::Handle) => at == index,
        _ => false,
    }
}

/// Whether the word with this index gives one of the fields, in bytes.
fn has_bytes_at(index: usize, fields: &[FieldRow]) -> bool
    ensures { result ≡ list_any (bytes.is_bytes_at index) (map field_view fields.now) }
{
    match fields {
        [] => false,
        [first, rest @ ..] => is_bytes_at(index, first) || has_bytes_at(index, rest),
    }
}

/// The same of the fields of parts.
fn have_bytes_at(index: usize, parts: &[PartRow]) -> bool
    ensures { result ≡ list_any (bytes.has_bytes_at index) (map part_view parts.now) }
{
    match parts {
        [] => false,
        [first, rest @ ..] => has_bytes_at(index, first.fields) || have_bytes_at(index, rest),
    }
}

/// Whether the word with this index behind the name of a call, from 0 on, gives bytes in hex
/// digits.
pub fn takes_bytes(row: &OperationRow, index: usize) -> bool
    ensures { result ≡ bytes.takes_bytes (row_view row.now) index }
{
    have_bytes_at(index, row.parts)
}
