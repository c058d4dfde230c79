//! What stands at a place of a text of JSON, and where that is.
ghost use Rattle.std.specs.Prelude.{◌≡◌, ◌≤◌, length, take, filter, option_map};
ghost use Rattle.std.specs.List.{after_last};
ghost use Rattle.kmip_encodings.specs.Refusals.{found_words, is_line_feed, begins_character};
ghost use Rattle.kmip_encodings.specs.Refusals.{line_of, column_of, member_of};

use crate::error::Expected;
use json::{MAX_DEPTH, Reader, Scratch, Token, Value};
use kmip_wire::{Kind, OutOfMemory};
use std::alloc::Global;

/// With how many names before it in the same object a name is compared.
const COMPARED: usize = 64;

/// What stands at a place, by its form alone: a value may be a secret.
#[derive(Clone, Copy, PartialEq, Eq, Debug, Drop)]
pub enum Found {
    /// Nothing.
    Nothing,
    /// `null`.
    Null,
    /// `true` or `false`.
    Truth,
    /// A number.
    Number,
    /// A number, where another one may stand.
    OtherNumber,
    /// A string.
    String,
    /// A string, where another one may stand.
    OtherString,
    /// An array.
    Array,
    /// An object.
    Object,
    /// A member that no item has.
    OtherMember,
    /// A name twice in one object.
    NameTwice,
    /// One level more than there may be.
    DeeperLevel,
    /// An element.
    Element,
    /// The name of an element, where another one may stand.
    OtherName,
    /// The value of an attribute, where another one may stand.
    OtherValue,
    /// The end of the text.
    End,
    /// Anything else.
    OtherText,
}

/// What stands there, in words.
pub(crate) fn found_words(found: Found) -> &'static str
    ensures { result.now ≡ found_words found }
{
    match found {
        Found::Nothing => "nothing",
        Found::Null => "null",
        Found::Truth => "true or false",
        Found::Number => "a number",
        Found::OtherNumber => "another number",
        Found::String => "a string",
        Found::OtherString => "another string",
        Found::Array => "an array",
        Found::Object => "an object",
        Found::OtherMember => "another member",
        Found::NameTwice => "one twice",
        Found::DeeperLevel => "one more, or JSON that nests more than 128 deep",
        Found::Element => "an element",
        Found::OtherName => "another name",
        Found::OtherValue => "another value",
        Found::End => "the end of the text",
        Found::OtherText => "something else",
    }
}

/// The item at a place, the innermost index first.
pub(crate) fn item_at<'v, 'a>(root: &'v Value<'a>, place: &[usize]) -> Option<&'v Value<'a>> {
    match place {
        [] => Some(root),
        [index, around @ ..] => item_at(root, around)?.get("value")?.at(*index),
    }
}

pub(crate) fn is_member(name: &str) -> bool {
    name == "tag" || name == "type" || name == "value" || name == "name"
}

/// The member that is at fault, where one is that items have.
pub(crate) fn member_of(expected: Expected) -> Option<&'static str>
    ensures { option_map (λ name. name.now) result ≡ member_of expected }
{
    match expected {
        Expected::Object | Expected::Members | Expected::FewerLevels => None,
        Expected::Tag => Some("tag"),
        Expected::Type => Some("type"),
        Expected::Value(_) => Some("value"),
    }
}

/// Whether a string may stand where this was expected.
fn takes_strings(expected: Expected) -> bool {
    match expected {
        Expected::Object | Expected::Members | Expected::FewerLevels => false,
        Expected::Tag | Expected::Type => true,
        Expected::Value(kind) => !matches!(kind, Kind::Structure),
    }
}

/// Whether a number may stand where this was expected.
fn takes_numbers(expected: Expected) -> bool {
    match expected {
        Expected::Value(kind) => matches!(
            kind,
            Kind::Integer
                | Kind::LongInteger
                | Kind::BigInteger
                | Kind::Enumeration
                | Kind::Interval
        ),
        _ => false,
    }
}

/// The form of a value.
fn form_of(value: &Value<'_>, expected: Expected) -> Found {
    match value {
        Value::Null => Found::Null,
        Value::Bool(_) => Found::Truth,
        Value::Number(_) if takes_numbers(expected) => Found::OtherNumber,
        Value::Number(_) => Found::Number,
        Value::String(_) if takes_strings(expected) => Found::OtherString,
        Value::String(_) => Found::String,
        Value::Array(_) => Found::Array,
        Value::Object(_) => Found::Object,
    }
}

/// What stands in an item where this was expected.
pub(crate) fn found_in(item: Option<&Value<'_>>, expected: Expected) -> Found {
    let Some(item) = item else {
        return Found::Nothing;
    };
    if matches!(expected, Expected::Members) {
        return Found::OtherMember;
    }
    let value = match member_of(expected) {
        Some(name) => item.get(name),
        None => Some(item),
    };
    match value {
        Some(value) => form_of(value, expected),
        None => Found::Nothing,
    }
}

/// Takes the front of an object up to the value of the member with this name. `None` where it has
/// none, or there is no object.
fn enter(reader: &mut Reader<'_>, text: &str, name: &str) -> Option<()> {
    match reader.next()? {
        Token::BeginObject => {}
        _ => return None,
    }
    for _ in 0..text.len() {
        let Ok(Some(key)) = reader.next_key() else {
            return None;
        };
        if key == name {
            return Some(());
        }
        reader.skip_value(MAX_DEPTH).ok()?;
    }
    None
}

/// Takes the front of an object up to its first member that no item has. `None` where it has none.
fn enter_other(reader: &mut Reader<'_>, text: &str) -> Option<usize> {
    match reader.next()? {
        Token::BeginObject => {}
        _ => return None,
    }
    for _ in 0..text.len() {
        let offset = reader.offset();
        let Ok(Some(key)) = reader.next_key() else {
            return None;
        };
        if !is_member(key) {
            return Some(offset);
        }
        reader.skip_value(MAX_DEPTH).ok()?;
    }
    None
}

/// Takes what stands before the item at a place.
fn go_to(reader: &mut Reader<'_>, text: &str, place: &[usize]) -> Option<()> {
    for index in place.iter().rev() {
        enter(reader, text, "value")?;
        match reader.next()? {
            Token::BeginArray => {}
            _ => return None,
        }
        for _ in 0..*index {
            reader.skip_value(MAX_DEPTH).ok()?;
        }
    }
    Some(())
}

/// Where a value begins, where a reader stands at the offset: white space, a colon and a comma may
/// stand before it.
fn begin_at(text: &[u8], offset: usize) -> usize {
    let mut at = offset;
    for _ in 0..text.len() {
        match text.get(at) {
            Some(b' ' | b'\t' | b'\n' | b'\r' | b':' | b',') => at = at.saturating_add(1),
            _ => return at,
        }
    }
    at
}

/// Where a part of the item at a place begins, in bytes.
pub(crate) fn fault_offset(
    alloc: Global,
    text: &str,
    place: &[usize],
    expected: Expected,
) -> Result<usize, OutOfMemory> {
    let mut scratch = Scratch::new(alloc);
    let mut reader = Reader::new(text, &mut scratch)?;
    if go_to(&mut reader, text, place).is_none() {
        return Ok(0);
    }
    let item = reader.offset();
    if matches!(expected, Expected::Members) {
        let other = enter_other(&mut reader, text).unwrap_or(item);
        return Ok(begin_at(text.as_bytes(), other));
    }
    let Some(name) = member_of(expected) else {
        return Ok(begin_at(text.as_bytes(), item));
    };
    let offset = match enter(&mut reader, text, name) {
        Some(()) => reader.offset(),
        None => item,
    };
    Ok(begin_at(text.as_bytes(), offset))
}

/// Whether a name is among the last of the names from the first on.
fn is_among(names: &[&str], first: usize, name: &str) -> bool {
    let last = names.len().saturating_sub(COMPARED);
    let from = if first < last { last } else { first };
    for at in from..names.len() {
        if names[at] == name {
            return true;
        }
    }
    false
}

/// Where the second of two equal names of an object begins; it is not looked for among many names.
pub(crate) fn repeated(alloc: Global, text: &str) -> Result<usize, OutOfMemory> {
    let mut scratch = Scratch::new(alloc);
    let mut reader = Reader::new(text, &mut scratch)?;
    let mut names: Vec<&str> = Vec::new(alloc);
    let mut firsts: Vec<usize> = Vec::new(alloc);
    for _ in 0..text.len() {
        let offset = reader.offset();
        match reader.next() {
            Some(Token::BeginObject) => firsts.push(names.len())?,
            Some(Token::EndObject) => names.truncate(firsts.pop().unwrap_or(0)),
            Some(Token::Key(name)) => {
                let first = firsts.last().copied().unwrap_or(0);
                if is_among(&names, first, name) {
                    return Ok(begin_at(text.as_bytes(), offset));
                }
                names.push(name)?;
            }
            Some(Token::Bad) | None => return Ok(0),
            Some(_) => {}
        }
    }
    Ok(0)
}

/// The bytes before an offset.
fn front(text: &[u8], offset: usize) -> &[u8]
    ensures { result.now ≡ take offset text.now }
{
    if offset < text.len() {
        &text[..offset]
    } else {
        text
    }
}

fn is_line_feed(byte: u8) -> bool
    ensures { result ≡ is_line_feed byte }
{
    byte == b'\n'
}

fn begins_character(byte: u8) -> bool
    ensures { result ≡ begins_character byte }
{
    byte < 0x80 || byte >= 0xC0
}

/// What stands after the last line feed.
fn last_line(text: &[u8]) -> &[u8]
    ensures { result.now ≡ after_last is_line_feed text.now }
{
    let mut start = text.len();
    while start > 0 && !is_line_feed(text[start - 1]) {
        start -= 1;
    }
    &text[start..]
}

fn line_feeds(text: &[u8]) -> usize
    ensures count { result ≡ length (filter is_line_feed text.now) }
    ensures bound { result ≤ length text.now }
{
    text.iter().filter(|byte| is_line_feed(**byte)).count()
}

fn characters(text: &[u8]) -> usize
    ensures count { result ≡ length (filter begins_character text.now) }
    ensures bound { result ≤ length text.now }
{
    text.iter().filter(|byte| begins_character(**byte)).count()
}

/// The line of the byte at an offset, counted from 1; past the end of the text that of its end.
pub fn line_of(text: &[u8], offset: usize) -> usize
    ensures { result ≡ line_of text.now offset }
{
    line_feeds(front(text, offset)) + 1
}

/// The column of the byte at an offset in its line, in characters, counted from 1; past the end of the
/// text that of its end.
pub fn column_of(text: &[u8], offset: usize) -> usize
    ensures { result ≡ column_of text.now offset }
{
    characters(last_line(front(text, offset))) + 1
}
