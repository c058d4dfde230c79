//! The form of a call: its name, its words, then its options.
ghost use Rattle.std.specs.Prelude.{◌≡◌, ◌++◌, map, flat_map, OnOk};
ghost use Rattle.kmip_operation_words.specs.Forms as forms;
ghost use Rattle.kmip_operation_words.specs.Rows.{field_view, part_view, row_view};

use crate::rows::{FieldRow, Kind, OperationRow, PartRow, Place};
use kmip_wire::{OutOfMemory, Text};

/// What the value of an option is called.
fn kind_word(kind: Kind) -> &'static str
    ensures { result.now ≡ forms.kind_word kind }
{
    match kind {
        Kind::Identifier => "ID",
        Kind::Text => "TEXT",
        Kind::Hex | Kind::Handle => "HEX",
        Kind::Int | Kind::Count => "N",
        Kind::Date | Kind::Seconds => "SECONDS",
        Kind::Truth => "true|false",
        Kind::Name => "NAME",
        Kind::Uses => "USES",
    }
}

/// Adds a field's word, or its words; nothing for an option.
#[tactic(auto, using(std::proofs::lemmas::List::append_assoc))]
fn push_word_form(field: &FieldRow, out: &mut Text) -> Result<(), OutOfMemory>
    ensures { OnOk result (out.new ≡ out.old ++ forms.word_form (field_view field.now)) }
{
    match field.place {
        Place::Word(_) => {
            out.push_str(" ")?;
            out.push_str(field.name)
        }
        Place::Words => {
            out.push_str(" [")?;
            out.push_str(field.name)?;
            out.push_str("..]")
        }
        _ => Ok(()),
    }
}

/// Adds a field's option, in brackets where it may be left out; nothing for a word.
#[tactic(auto, using(std::proofs::lemmas::List::append_assoc))]
fn push_option_form(field: &FieldRow, out: &mut Text) -> Result<(), OutOfMemory>
    ensures { OnOk result (out.new ≡ out.old ++ forms.option_form (field_view field.now)) }
{
    match field.place {
        Place::Needed => {
            out.push_str(" ")?;
            out.push_str(field.name)?;
            out.push_str(kind_word(field.kind))
        }
        Place::Option | Place::Usual(_) => {
            out.push_str(" [")?;
            out.push_str(field.name)?;
            out.push_str(kind_word(field.kind))?;
            out.push_str("]")
        }
        _ => Ok(()),
    }
}

/// Adds the words among fields, or the options.
#[tactic(auto, using(std::proofs::lemmas::List::append_assoc))]
fn push_fields_form(
    fields: &[FieldRow],
    are_options: bool,
    out: &mut Text,
) -> Result<(), OutOfMemory>
    ensures { OnOk result (out.new ≡ out.old
        ++ flat_map (forms.field_form are_options) (map field_view fields.now)) }
{
    match fields {
        [] => Ok(()),
        [first, rest @ ..] => {
            if are_options {
                push_option_form(first, out)?;
            } else {
                push_word_form(first, out)?;
            }
            push_fields_form(rest, are_options, out)
        }
    }
}

/// Adds the words among the fields of parts, or the options.
#[tactic(auto, using(std::proofs::lemmas::List::append_assoc))]
fn push_parts_form(parts: &[PartRow], are_options: bool, out: &mut Text) -> Result<(), OutOfMemory>
    ensures { OnOk result (out.new ≡ out.old
        ++ flat_map (forms.part_form are_options) (map part_view parts.now)) }
{
    match parts {
        [] => Ok(()),
        [first, rest @ ..] => {
            push_fields_form(first.fields, are_options, out)?;
            push_parts_form(rest, are_options, out)
        }
    }
}

/// Adds the form of a call, as `hash DATA hash=NAME`: its words, then its options, in brackets
/// where they may be left out.
#[tactic(auto, using(std::proofs::lemmas::List::append_assoc))]
pub fn push_operation_form(row: &OperationRow, out: &mut Text) -> Result<(), OutOfMemory>
    ensures { OnOk result (out.new ≡ out.old ++ forms.form (row_view row.now)) }
{
    out.push_str(row.name)?;
    push_parts_form(row.parts, false, out)?;
    push_parts_form(row.parts, true, out)
}
