//! What is expected of an item, in words.
ghost use Rattle.std.specs.Prelude.{◌≡◌, ◌++◌, OnOk};
ghost use Rattle.kmip_encodings.specs.Expected.{integer_words, value_words, expected_words};
ghost use Rattle.kmip_encodings.specs.Expected.{number_words, value_text, expected_text};

use crate::context::{named_after, place, unnamed};
use crate::error::Expected;
use crate::found::item_at;
use crate::names::{has_few_names, push_names};
use crate::read_json::{read_one, tag_of_text};
use json::Value;
use kmip_tags::tags::{CRYPTOGRAPHIC_USAGE_MASK, STORAGE_STATUS_MASK};
use kmip_wire::{Kind, OutOfMemory, Tag, Text};
use std::alloc::Global;

/// The value of the item at a place.
fn value_at<'v, 'a>(root: &'v Value<'a>, place: &[usize]) -> Option<&'v Value<'a>> {
    item_at(root, place)?.get("value")
}

/// The text of the tag of the item at a place.
fn tag_at<'v, 'a>(root: &'v Value<'a>, place: &[usize]) -> Option<&'a str> {
    item_at(root, place)?.get("tag")?.as_str()
}

/// Where the names of Attribute Value are looked up in an item: as the items before it say.
fn named_before(alloc: Global, root: &Value<'_>, place: &[usize]) -> Result<Tag, OutOfMemory> {
    let mut named = unnamed();
    let [index, around @ ..] = place else {
        return Ok(named);
    };
    let Some(items) = value_at(root, around) else {
        return Ok(named);
    };
    for at in 0..*index {
        let Some(item) = items.at(at) else {
            return Ok(named);
        };
        if let Some(tree) = read_one(alloc, item)? {
            named = named_after(named, &tree);
        }
    }
    Ok(named)
}

/// Under which tag the names of an item's value are looked up.
pub(crate) fn table_tag(alloc: Global, root: &Value<'_>, at: &[usize]) -> Result<Tag, OutOfMemory> {
    let named = named_before(alloc, root, at)?;
    let Some(text) = tag_at(root, at) else {
        return Ok(unnamed());
    };
    match tag_of_text(alloc, text)? {
        Some(tag) => Ok(place(named, tag)),
        None => Ok(unnamed()),
    }
}

/// An Integer, which is a mask under some tags.
fn integer_words(tag: Tag) -> &'static str
    ensures { result.now ≡ integer_words tag }
{
    match tag.number() {
        CRYPTOGRAPHIC_USAGE_MASK | STORAGE_STATUS_MASK => {
            "names of bits as Encrypt|Decrypt, a whole number, or 0x and eight hex digits"
        }
        _ => "a whole number from -2147483648 to 2147483647, or 0x and eight hex digits",
    }
}

/// A value of the type, which is no Enumeration.
fn value_words(kind: Kind, tag: Tag) -> &'static str
    ensures { result.now ≡ value_words kind tag }
{
    match kind {
        Kind::Structure => "an array of items, or null",
        Kind::Integer => integer_words(tag),
        Kind::LongInteger => "a whole number nearer to 0 than 2^53, or 0x and 16 hex digits",
        Kind::BigInteger => {
            "a whole number nearer to 0 than 2^53, or 0x and hex digits, two for a byte"
        }
        Kind::Enumeration => "",
        Kind::Boolean => "true, false, or 0x and 16 hex digits",
        Kind::TextString => "a string",
        Kind::ByteString => "a string of hex digits, two for a byte",
        Kind::DateTime => "a date as 2001-01-01T10:00:00+00:00, or 0x and 16 hex digits",
        Kind::Interval => "a whole number from 0 to 4294967295, or 0x and eight hex digits",
    }
}

/// What was expected, where it is no value.
fn expected_words(expected: Expected) -> &'static str
    ensures { result.now ≡ expected_words expected }
{
    match expected {
        Expected::Object => "an object with tag, type and value",
        Expected::Members => "no member but tag, type, value and name",
        Expected::Tag => "the name of a tag, or 0x and six hex digits",
        Expected::Type => {
            "a type: Structure, Integer, LongInteger, BigInteger, Enumeration, Boolean, TextString, ByteString, DateTime or Interval"
        }
        Expected::Value(_) => "",
        Expected::FewerLevels => "at most 64 levels of items",
    }
}

/// Appends what a number of the enumeration under the tag may be: its names, where they are few. It
/// fails only where memory runs out.
pub fn push_number_words(out: &mut Text, tag: Tag) -> Result<(), OutOfMemory>
    ensures { OnOk result (out.new ≡ out.old ++ number_words tag) }
{
    if has_few_names(tag) {
        push_names(out, tag)?;
    } else {
        out.push_str("a name that its tag has, its number, ")?;
    }
    out.push_str("or 0x and eight hex digits")
}

/// Appends what a value of the type is.
fn push_value(out: &mut Text, kind: Kind, tag: Tag) -> Result<(), OutOfMemory>
    ensures { OnOk result (out.new ≡ out.old ++ value_text kind tag) }
{
    match kind {
        Kind::Enumeration => push_number_words(out, tag),
        _ => out.push_str(value_words(kind, tag)),
    }
}

/// Appends what was expected; names of numbers are those under the tag.
pub(crate) fn push_expected(out: &mut Text, expected: Expected, tag: Tag) -> Result<(), OutOfMemory>
    ensures { OnOk result (out.new ≡ out.old ++ expected_text expected tag) }
{
    match expected {
        Expected::Value(kind) => push_value(out, kind, tag),
        _ => out.push_str(expected_words(expected)),
    }
}
