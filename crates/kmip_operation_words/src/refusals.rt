//! Why words are no call of the table.
//!
//! No word is shown that a user wrote, since it may be a secret.
ghost use Rattle.std.specs.Prelude.{◌≡◌, Some, None, IfOk, MatchOption, IsSome};
ghost use Rattle.kmip_operation_words.specs.Calls.{operation_asked};
ghost use Rattle.kmip_operation_words.specs.Refusals.{IsRefusal, IsWrong, with_form};
ghost use Rattle.kmip_operation_words.specs.Rows.{row_view};

use crate::calls::{operation_row, operation_words};
use crate::forms::push_operation_form;
use crate::items::push_field;
use crate::rows::{FieldRow, Kind, OperationRow, PartRow};
use kmip_encodings::enumeration_name;
use kmip_wire::{OutOfMemory, Tag, Text, Tree};
use std::alloc::Global;

/// Below this are all numbers that KMIP 1.2 names in an enumeration, masks aside: the greatest is
/// 0x10B, of Link Type.
const NUMBERS: u32 = 0x200;

/// The first of the fields whose word is missing, or is none of its kind.
fn wrong_among<'a>(
    alloc: Global,
    fields: &'a [FieldRow],
    words: &[Text],
    behind: &[Text],
) -> Result<Option<&'a FieldRow>, OutOfMemory> {
    for field in fields {
        let mut items: Vec<Tree> = Vec::new(alloc);
        if !push_field(alloc, field, words, behind, &mut items)? {
            return Ok(Some(field));
        }
    }
    Ok(None)
}

/// The first of the fields of parts whose word is missing, or is none of its kind.
fn wrong_field<'a>(
    alloc: Global,
    parts: &'a [PartRow],
    words: &[Text],
    behind: &[Text],
) -> Result<Option<&'a FieldRow>, OutOfMemory> {
    for part in parts {
        if let Some(field) = wrong_among(alloc, part.fields, words, behind)? {
            return Ok(Some(field));
        }
    }
    Ok(None)
}

/// Adds the names of the enumeration that stands under a tag.
fn push_names(tag: Tag, out: &mut Text) -> Result<(), OutOfMemory> {
    let mut is_first = true;
    for number in 1..NUMBERS {
        if let Some(name) = enumeration_name(tag, number) {
            if !is_first {
                out.push_str(", ")?;
            }
            out.push_str(name)?;
            is_first = false;
        }
    }
    Ok(())
}

/// Adds what a word of the field has to be.
fn push_kind(field: &FieldRow, out: &mut Text) -> Result<(), OutOfMemory> {
    match field.kind {
        Kind::Identifier => out.push_str("a text that is not empty"),
        Kind::Text => out.push_str("a text"),
        Kind::Hex => out.push_str("an even number of hex digits, or - for no bytes"),
        Kind::Handle => out.push_str("an even number of hex digits, at least two"),
        Kind::Int => out.push_str("a whole number from -2147483648 to 2147483647"),
        Kind::Count => out.push_str("a whole number from 0 to 9223372036854775807"),
        Kind::Date => out.push_str("seconds, from 0 to 9223372036854775807"),
        Kind::Seconds => out.push_str("seconds, from 0 to 4294967295"),
        Kind::Truth => out.push_str("true or false"),
        Kind::Uses => out.push_str("names of uses, as Sign,Verify"),
        Kind::Name => {
            out.push_str("one of ")?;
            match Tag::new(field.tag) {
                Some(tag) => push_names(tag, out),
                None => Ok(()),
            }
        }
    }
}

/// What is wrong with the words of a row.
fn what_is_wrong(alloc: Global, row: &OperationRow, words: &[Text]) -> Result<Text, OutOfMemory> {
    let behind: &[Text] = if words.len() < row.words {
        &[]
    } else {
        &words[row.words..]
    };
    let Some(field) = wrong_field(alloc, row.parts, words, behind)? else {
        return Text::of(
            alloc,
            "a word is no option of it, or an option is given twice",
        );
    };
    let mut wrong = Text::of(alloc, field.name)?;
    wrong.push_str(" has to be ")?;
    push_kind(field, &mut wrong)?;
    Ok(wrong)
}

/// The name of a call, what is wrong with its words, and its form.
#[tactic(auto, using(std::proofs::lemmas::List::append_assoc))]
fn with_form(alloc: Global, row: &OperationRow, wrong: &str) -> Result<Text, OutOfMemory>
    ensures { IfOk result (λ text. text ≡ with_form (row_view row.now) wrong.now) }
{
    let mut text = Text::of(alloc, row.name)?;
    text.push_str(": ")?;
    text.push_str(wrong)?;
    text.push_str("; its form is: ")?;
    push_operation_form(row, &mut text)?;
    Ok(text)
}

/// Why the words of a row are no call.
fn why_none_of(alloc: Global, row: &OperationRow, words: &[Text]) -> Result<Text, OutOfMemory>
    ensures { IfOk result (λ why. IsWrong (Some (row_view row.now)) why) }
{
    let wrong = what_is_wrong(alloc, row, words)?;
    Ok(with_form(alloc, row, wrong.as_str())?)
}

/// Why words are no call of the table, of words that are none: a sentence that names what is wrong
/// and what may stand there. It shows no word that was given.
pub fn why_no_call(alloc: Global, words: &[Text]) -> Result<Text, OutOfMemory>
    ensures { IfOk result (λ why. IsRefusal words.now why) }
{
    let [name, words @ ..] = words else {
        return Text::of(alloc, "there are no words");
    };
    match operation_row(name.as_str()) {
        Some(row) => why_none_of(alloc, row, words),
        None => Text::of(alloc, "the first word is the name of no call"),
    }
}

/// `why_no_call` of words that are no call of the table; `None` exactly where `operation_words`
/// makes a call of them.
pub fn operation_refusal(alloc: Global, words: &[Text]) -> Result<Option<Text>, OutOfMemory>
    ensures none { IfOk result (λ why. MatchOption why (IsSome (operation_asked words.now))
        (λ _. operation_asked words.now ≡ None)) }
    ensures text { IfOk result (λ why. MatchOption why (Unit {0}) (IsRefusal words.now)) }
{
    match operation_words(alloc, words)? {
        Some(_asked) => Ok(None),
        None => Ok(Some(why_no_call(alloc, words)?)),
    }
}
