//! Why a text is not read, for a person: where, what was expected and what stands there.
ghost use Rattle.std.specs.Fmt.{decimal};
ghost use Rattle.std.specs.Prelude.{◌≡◌, ◌++◌, IfOk, OnOk, option_map};
ghost use Rattle.kmip_encodings.specs.Refusals.{dotted, index_text, place_text, path_text};
ghost use Rattle.kmip_encodings.specs.Refusals.{position_text, path_part, found_text};
ghost use Rattle.kmip_encodings.specs.Refusals.{refusal_text, found_words, path_of, expected_of};
ghost use Rattle.kmip_encodings.specs.Refusals.{StandsAt, Tells};

use crate::context::unnamed;
use crate::error::{EncodingError, Fault};
use crate::expected::{push_expected, table_tag};
use crate::found::{
    Found, column_of, fault_offset, found_in, found_words, item_at, line_of, member_of, repeated,
};
use itoa::Buffer;
use json::{Error, Scratch, Value};
use kmip_wire::{OutOfMemory, Tag, Text};
use std::alloc::Global;

/// Why a text is not read as a tree, for a person.
#[derive(Debug, Drop)]
pub struct Refusal {
    /// The line of the place, counted from 1.
    pub line: usize,
    /// The column of the place in its line, in characters, counted from 1.
    pub column: usize,
    /// The way to the place from the outermost item, as `value[1].value[0].type`; empty where it is
    /// that item itself, or where the text is no JSON.
    pub path: Text,
    /// What was expected there, with the names that are known where they are few.
    pub expected: Text,
    /// What stands there, by its form: no value is shown, since it may be a secret.
    pub found: Found,
}

/// What the text says of a refusal.
#[derive(Clone, Copy, Drop)]
struct Parts {
    /// Where it stands, in bytes.
    offset: usize,
    /// Under which tag the names of numbers are.
    tag: Tag,
    /// What stands there.
    found: Found,
}

/// Appends a number in decimal.
fn push_number(out: &mut Text, number: usize) -> Result<(), OutOfMemory>
    ensures { OnOk result (out.new ≡ out.old ++ decimal number) }
{
    out.push_str(Buffer::new().format(number))
}

/// Appends a full stop to a path that has a part.
fn push_dot(out: &mut Text) -> Result<(), OutOfMemory>
    ensures { OnOk result (out.new ≡ dotted out.old) }
{
    if out.as_str().is_empty() {
        return Ok(());
    }
    out.push_str(".")
}

/// Appends the part of a path for an item among its siblings.
fn push_index(out: &mut Text, index: usize) -> Result<(), OutOfMemory>
    ensures { OnOk result (out.new ≡ out.old ++ index_text index) }
{
    out.push_str("value[")?;
    push_number(out, index)?;
    out.push_str("]")
}

/// The way to an item from the outermost one.
fn place_text(alloc: Global, place: &[usize]) -> Result<Text, OutOfMemory>
    ensures { IfOk result (λ text. text ≡ place_text place.now) }
{
    match place {
        [] => Ok(Text::new(alloc)),
        [index, around @ ..] => {
            let mut text = place_text(alloc, around)?;
            push_dot(&mut text)?;
            push_index(&mut text, *index)?;
            Ok(text)
        }
    }
}

/// The way to an item, or to one of its members, from the outermost item.
fn path_text(
    alloc: Global,
    place: &[usize],
    member: Option<&'static str>,
) -> Result<Text, OutOfMemory>
    ensures { IfOk result
        (λ text. text ≡ path_text place.now (option_map (λ name. name.now) member.entry)) }
{
    let mut text = place_text(alloc, place)?;
    match member {
        None => Ok(text),
        Some(name) => {
            push_dot(&mut text)?;
            text.push_str(name)?;
            Ok(text)
        }
    }
}

/// The way to what is at fault.
fn path_of(alloc: Global, error: &EncodingError) -> Result<Text, OutOfMemory>
    ensures { IfOk result (λ text. text ≡ path_of error.now) }
{
    match error {
        EncodingError::Misfit(fault) => {
            path_text(alloc, fault.place.as_slice(), member_of(fault.expected))
        }
        _ => Ok(Text::new(alloc)),
    }
}

/// What was expected; names of numbers are those under the tag.
fn expected_of(alloc: Global, error: &EncodingError, tag: Tag) -> Result<Text, OutOfMemory>
    ensures { IfOk result (λ text. text ≡ expected_of error.now tag) }
{
    match error {
        EncodingError::NotJson(_) => Text::of(alloc, "JSON"),
        EncodingError::TooDeep(_) => Text::of(alloc, "at most 64 levels of items"),
        EncodingError::RepeatedName => Text::of(alloc, "each name once in an object"),
        EncodingError::Misfit(fault) => {
            let mut text = Text::new(alloc);
            push_expected(&mut text, fault.expected, tag)?;
            Ok(text)
        }
        EncodingError::OutOfMemory => Ok(Text::new(alloc)),
    }
}

/// What stands where reading stopped.
fn found_at(text: &str, offset: usize) -> Found {
    if offset < text.len() {
        Found::OtherText
    } else {
        Found::End
    }
}

/// The parts of the refusal of an item in a text of JSON.
fn misfit_parts(
    alloc: Global,
    text: &str,
    root: &Value<'_>,
    fault: &Fault,
) -> Result<Parts, OutOfMemory> {
    let place = fault.place.as_slice();
    Ok(Parts {
        offset: fault_offset(alloc, text, place, fault.expected)?,
        tag: table_tag(alloc, root, place)?,
        found: found_in(item_at(root, place), fault.expected),
    })
}

/// The parts of a refusal that stands in no item.
fn plain_parts(offset: usize, found: Found) -> Parts
    ensures { result.offset ≡ offset }
{
    Parts {
        offset,
        tag: unnamed(),
        found,
    }
}

/// The parts of the refusal of an item; the text is read again.
fn fault_parts(alloc: Global, text: &str, fault: &Fault) -> Result<Parts, OutOfMemory> {
    let mut scratch = Scratch::new(alloc);
    match Value::parse(alloc, text, &mut scratch) {
        Ok(root) => misfit_parts(alloc, text, &root, fault),
        Err(Error::OutOfMemory) => Err(OutOfMemory),
        Err(_) => Ok(plain_parts(0, Found::OtherText)),
    }
}

fn parts_of(alloc: Global, text: &str, error: &EncodingError) -> Result<Parts, OutOfMemory>
    ensures { IfOk result (λ parts. StandsAt error.now parts.offset) }
{
    match error {
        EncodingError::NotJson(offset) => Ok(plain_parts(*offset, found_at(text, *offset))),
        EncodingError::TooDeep(offset) => Ok(plain_parts(*offset, Found::DeeperLevel)),
        EncodingError::RepeatedName => { Ok(plain_parts(repeated(alloc, text)?, Found::NameTwice)) }
        EncodingError::Misfit(fault) => fault_parts(alloc, text, fault),
        EncodingError::OutOfMemory => Err(OutOfMemory),
    }
}

/// Why this text is not read: the error is that of `from_json` for the same text. Nothing in it is of
/// a value. It fails only where memory runs out.
pub fn refusal_of(alloc: Global, text: &str, error: &EncodingError) -> Result<Refusal, OutOfMemory>
    ensures { IfOk result (λ refusal. Tells text.now error.now refusal) }
{
    let parts = parts_of(alloc, text, error)?;
    let path = path_of(alloc, error)?;
    let expected = expected_of(alloc, error, parts.tag)?;
    Ok(Refusal {
        line: line_of(text.as_bytes(), parts.offset),
        column: column_of(text.as_bytes(), parts.offset),
        path,
        expected,
        found: parts.found,
    })
}

/// Appends the line and the column.
fn push_position(out: &mut Text, line: usize, column: usize) -> Result<(), OutOfMemory>
    ensures { OnOk result (out.new ≡ out.old ++ position_text line column) }
{
    out.push_str("line ")?;
    push_number(out, line)?;
    out.push_str(", column ")?;
    push_number(out, column)
}

/// Appends the path with a comma before it, where there is one.
fn push_path(out: &mut Text, path: &str) -> Result<(), OutOfMemory>
    ensures { OnOk result (out.new ≡ out.old ++ path_part path.now) }
{
    if path.is_empty() {
        return Ok(());
    }
    out.push_str(", ")?;
    out.push_str(path)
}

/// Appends what was expected and what stands there.
fn push_words(out: &mut Text, expected: &str, found: Found) -> Result<(), OutOfMemory>
    ensures { OnOk result (out.new ≡ out.old ++ found_text expected.now (found_words found)) }
{
    out.push_str(": expected ")?;
    out.push_str(expected)?;
    out.push_str(", found ")?;
    out.push_str(found_words(found))
}

/// Appends a refusal as one sentence with no full stop, as
/// `line 1, column 55, value: expected true, false, or 0x and 16 hex digits, found a number`.
pub fn push_refusal(out: &mut Text, refusal: &Refusal) -> Result<(), OutOfMemory>
    ensures { OnOk result (out.new ≡ out.old ++ refusal_text refusal.now) }
{
    push_position(out, refusal.line, refusal.column)?;
    push_path(out, refusal.path.as_str())?;
    push_words(out, refusal.expected.as_str(), refusal.found)?;
    Ok(())
}
