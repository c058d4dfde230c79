//! Why a text is not read, told to a person: where, what was expected and what stands there.
ghost use Rattle.std.specs.Prelude.{◌≡◌, ◌++◌, IfOk, OnOk, option_map};
ghost use Rattle.kmip_xml.specs.Refusals.{integer_words, value_words, value_text, wanted_words};
ghost use Rattle.kmip_xml.specs.Refusals.{wanted_text, attribute_of, path_text, element_word};
ghost use Rattle.kmip_xml.specs.Refusals.{TellsMisfit, Tells};

use crate::attributes::all_attributes;
use crate::error::{Misfit, Wanted, XmlError};
use crate::scan::word;
use kmip_encodings::{Found, Refusal, column_of, line_of, push_number_words, tag_named, tag_word};
use kmip_tags::tags::{CRYPTOGRAPHIC_USAGE_MASK, STORAGE_STATUS_MASK};
use kmip_wire::{Kind, OutOfMemory, Tag, Text};
use std::alloc::Global;

/// An Integer, which is a mask under some tags.
fn integer_words(tag: Tag) -> &'static str
    ensures { result.now ≡ integer_words tag }
{
    match tag.number() {
        CRYPTOGRAPHIC_USAGE_MASK | STORAGE_STATUS_MASK => {
            "names of bits as Encrypt Decrypt, a whole number, or 0x and eight hex digits"
        }
        _ => "a whole number from -2147483648 to 2147483647, or 0x and eight hex digits",
    }
}

/// A value of the type, which is no Enumeration.
fn value_words(kind: Kind, tag: Tag) -> &'static str
    ensures { result.now ≡ value_words kind tag }
{
    match kind {
        Kind::Structure => "elements in place of a value",
        Kind::Integer => integer_words(tag),
        Kind::LongInteger => "a whole number of 64 bits, or 0x and 16 hex digits",
        Kind::BigInteger => "hex digits, two for a byte",
        Kind::Enumeration => "",
        Kind::Boolean => "true, false, or 0x and 16 hex digits",
        Kind::TextString => "a text",
        Kind::ByteString => "hex digits, two for a byte",
        Kind::DateTime => "a date as 2001-01-01T10:00:00+00:00, or 0x and 16 hex digits",
        Kind::Interval => "a whole number from 0 to 4294967295, or 0x and eight hex digits",
    }
}

/// Appends what a value of the type is.
fn push_value(out: &mut Text, kind: Kind, tag: Tag) -> Result<(), OutOfMemory>
    ensures { OnOk result (out.new ≡ out.old ++ value_text kind tag) }
{
    match kind {
        Kind::Enumeration => push_number_words(out, tag),
        _ => out.push_str(value_words(kind, tag)),
    }
}

/// What was expected, where it is no value.
fn wanted_words(wanted: Wanted) -> &'static str
    ensures { result.now ≡ wanted_words wanted }
{
    match wanted {
        Wanted::Character => "a character that XML has",
        Wanted::DeclarationEnd => "a declaration that ends with ?>",
        Wanted::OneElement => "one element, and the end of the text behind it",
        Wanted::Element => "an element, a comment, or the end of the element around",
        Wanted::Comment => "a comment, with no -- but at its ends",
        Wanted::ElementEnd => "the end of the element around",
        Wanted::NoElement => "no element in one that has a value",
        Wanted::Name => {
            "the name of an element, since document types and processing instructions are not read"
        }
        Wanted::AttributeOrEnd => "> or /> or an attribute",
        Wanted::AttributeName => "tag, type, value or name, each at most once",
        Wanted::Equals => "= and the value of an attribute",
        Wanted::Quotes => "a value in quotes",
        Wanted::NoElementInValue => "no < in the value of an attribute",
        Wanted::Reference => {
            "&quot;, &amp;, &apos;, &lt;, &gt;, or the number of a character as &#10; or &#xA;"
        }
        Wanted::FewerLevels => "at most 64 levels of items",
        Wanted::Tag => {
            "the name of a tag, or TTLV with the attribute tag, which is 0x and six hex digits"
        }
        Wanted::Type => {
            "a type: Structure, Integer, LongInteger, BigInteger, Enumeration, Boolean, TextString, ByteString, DateTime or Interval"
        }
        Wanted::Value(_, _) => "",
    }
}

/// What was expected.
fn wanted_text(alloc: Global, wanted: Wanted) -> Result<Text, OutOfMemory>
    ensures { IfOk result (λ text. text ≡ wanted_text wanted) }
{
    match wanted {
        Wanted::Value(kind, tag) => {
            let mut text = Text::new(alloc);
            push_value(&mut text, kind, tag)?;
            Ok(text)
        }
        _ => Text::of(alloc, wanted_words(wanted)),
    }
}

/// What stands where an attribute of this value, or of none, was to be.
fn given(value: &Option<Text>) -> Found {
    match value {
        Some(_) => Found::OtherValue,
        None => Found::Nothing,
    }
}

/// What stands where the text goes on as the rest, and neither a type nor a value is at fault.
fn found_at(rest: &str, wanted: Wanted) -> Found {
    match wanted {
        Wanted::Tag => Found::OtherName,
        Wanted::NoElement | Wanted::FewerLevels => Found::Element,
        _ if rest.is_empty() => Found::End,
        _ => Found::OtherText,
    }
}

/// What stands where the text goes on as the rest.
fn found_in(alloc: Global, rest: &str, wanted: Wanted) -> Result<Found, OutOfMemory> {
    let is_type = matches!(wanted, Wanted::Type);
    if !is_type && !matches!(wanted, Wanted::Value(_, _)) {
        return Ok(found_at(rest, wanted));
    }
    match all_attributes(alloc, word(rest).1) {
        Ok((found, _)) => Ok(if is_type {
            given(&found.kind)
        } else {
            given(&found.value)
        }),
        Err(XmlError::OutOfMemory) => Err(OutOfMemory),
        Err(_) => Ok(Found::Nothing),
    }
}

/// The name of the elements of a tag, which are `TTLV` where the tag has none.
fn element_word(tag: Option<Tag>) -> &'static str
    ensures { result.now ≡ element_word tag }
{
    match tag {
        Some(tag) => match tag_word(tag) {
            Some(word) => word,
            None => "TTLV",
        },
        None => "TTLV",
    }
}

/// The attribute that is at fault, where one is, with the full stop before it.
fn attribute_of(wanted: Wanted) -> Option<&'static str>
    ensures { option_map (λ attribute. attribute.now) result ≡ attribute_of wanted }
{
    match wanted {
        Wanted::Type => Some(".type"),
        Wanted::Value(_, _) => Some(".value"),
        _ => None,
    }
}

/// The way to the attribute: the element's name and its own.
fn path_text(alloc: Global, tag: Option<Tag>, wanted: Wanted) -> Result<Text, OutOfMemory>
    ensures { IfOk result (λ text. text ≡ path_text tag wanted) }
{
    let Some(attribute) = attribute_of(wanted) else {
        return Ok(Text::new(alloc));
    };
    let mut text = Text::of(alloc, element_word(tag))?;
    text.push_str(attribute)?;
    Ok(text)
}

fn refusal(alloc: Global, text: &str, misfit: &Misfit) -> Result<Refusal, OutOfMemory>
    ensures { IfOk result (λ refusal. TellsMisfit text.now misfit.now refusal) }
{
    let offset = text.len().saturating_sub(misfit.left);
    let rest = text.get(offset..).unwrap_or("");
    let found = found_in(alloc, rest, misfit.wanted)?;
    let path = path_text(alloc, tag_named(word(rest).0), misfit.wanted)?;
    let expected = wanted_text(alloc, misfit.wanted)?;
    Ok(Refusal {
        line: line_of(text.as_bytes(), offset),
        column: column_of(text.as_bytes(), offset),
        path,
        expected,
        found,
    })
}

/// Why this text is not read: the error is that of `from_xml` for the same text. The place is that
/// where reading stopped; of an element whose tag, type or value is at fault it is that of its name,
/// and the path is the element's name and the attribute's, as `BatchCount.value`. Nothing in it is of
/// a value. It fails only where memory runs out.
pub fn refusal_of(alloc: Global, text: &str, error: &XmlError) -> Result<Refusal, OutOfMemory>
    ensures { IfOk result (λ refusal. Tells text.now error.now refusal) }
{
    match error {
        XmlError::Misfit(misfit) => refusal(alloc, text, misfit),
        XmlError::OutOfMemory => Err(OutOfMemory),
    }
}
