//! What the words of a call ask for.
ghost use Rattle.std.specs.Prelude.{◌≡◌, ◌++◌, map, option_map, IfOk, OnOk};
ghost use Rattle.kmip_operation_words.specs.Calls as asks;
ghost use Rattle.kmip_operation_words.specs.Rows.{field_view, part_view, place_view, row_view};
ghost use Rattle.kmip_operation_words.specs.Table as table;

use crate::items::push_parts;
use crate::rows::{FieldRow, OperationRow, PartRow, Place, Rest};
use crate::table::operation_calls;
use kmip_enums::Operation;
use kmip_request_words::are_options;
use kmip_tags::tags::REQUEST_PAYLOAD;
use kmip_wire::{Node, OutOfMemory, Tag, Text, Tree, Trees};
use std::alloc::Global;

/// Whether a field is given by an option.
fn is_option(place: Place) -> bool
    ensures { result ≡ asks.is_option (place_view place) }
{
    match place {
        Place::Word(_) | Place::Words | Place::Always(_) => false,
        Place::Option | Place::Needed | Place::Usual(_) => true,
    }
}

/// Adds the names of the options among fields.
fn push_names(fields: &[FieldRow], names: &mut Vec<&'static str>) -> Result<(), OutOfMemory>
    ensures { OnOk result (map (λ name. name.now) names.new.items ≡
        map (λ name. name.now) names.old.items
        ++ asks.option_names (map field_view fields.now)) }
{
    match fields {
        [] => Ok(()),
        [first, rest @ ..] => {
            if is_option(first.place) {
                names.push(first.name)?;
            }
            push_names(rest, names)
        }
    }
}

/// Adds the names of the options among parts.
fn push_all_names(parts: &[PartRow], names: &mut Vec<&'static str>) -> Result<(), OutOfMemory>
    ensures { OnOk result (map (λ name. name.now) names.new.items ≡
        map (λ name. name.now) names.old.items
        ++ asks.all_option_names (map part_view parts.now)) }
{
    match parts {
        [] => Ok(()),
        [first, rest @ ..] => {
            push_names(first.fields, names)?;
            push_all_names(rest, names)
        }
    }
}

/// Whether these words may stand behind those of a row.
fn may_stand_behind(alloc: Global, row: &OperationRow, words: &[Text]) -> Result<bool, OutOfMemory>
    ensures { IfOk result (λ may. may ≡ asks.may_stand_behind (row_view row.now) words.now) }
{
    match row.rest {
        Rest::Words => Ok(true),
        Rest::Options => {
            let mut names = Vec::new(alloc);
            push_all_names(row.parts, &mut names)?;
            Ok(are_options(&names, words))
        }
    }
}

/// The payload that words ask for by a row.
fn payload_by(
    alloc: Global,
    row: &OperationRow,
    words: &[Text],
) -> Result<Option<Tree>, OutOfMemory>
    ensures { IfOk result (λ tree. tree ≡ asks.payload_by (row_view row.now) words.now) }
{
    if words.len() < row.words {
        return Ok(None);
    }
    let behind = &words[row.words..];
    if !may_stand_behind(alloc, row, behind)? {
        return Ok(None);
    }
    let mut items = Vec::new(alloc);
    if !push_parts(alloc, row.parts, words, behind, &mut items)? {
        return Ok(None);
    }
    Ok(Some(Tree {
        tag: Tag::of(REQUEST_PAYLOAD),
        node: Node::Structure(Trees::of_vec(items)),
    }))
}

/// The row with this name among rows.
fn row_in<'a>(rows: &'a [OperationRow], name: &str) -> Option<&'a OperationRow>
    ensures { option_map (λ row. row_view row.now) result ≡
        asks.row_in (map row_view rows.now) name.now }
{
    match rows {
        [] => None,
        [first, rest @ ..] => {
            if first.name == name {
                Some(first)
            } else {
                row_in(rest, name)
            }
        }
    }
}

/// The row of the call with this name.
pub fn operation_row(name: &str) -> Option<&'static OperationRow>
    ensures { option_map (λ row. row_view row.now) result ≡
        asks.row_in table.calls name.now }
{
    row_in(operation_calls(), name)
}

/// The operation and the payload that words ask for: the name of a call, its words, and its options
/// in any order, each at most once. `None` exactly where they are no call of the table: of another
/// name, with a word that is missing, is too much or is none of its kind, or an option that is
/// missing, of another name or given twice.
pub fn operation_words(
    alloc: Global,
    words: &[Text],
) -> Result<Option<(Operation, Tree)>, OutOfMemory>
    ensures { IfOk result (λ asked. asked ≡ asks.operation_asked words.now) }
{
    let [name, words @ ..] = words else {
        return Ok(None);
    };
    let Some(row) = operation_row(name.as_str()) else {
        return Ok(None);
    };
    match payload_by(alloc, row, words)? {
        Some(payload) => Ok(Some((row.operation, payload))),
        None => Ok(None),
    }
}
