//! The attributes of an element.
ghost use Rattle.std.specs.Prelude.{◌≡◌, Some, None, if◌then◌else◌, option_map};
ghost use Rattle.kmip_xml.specs.Given.{Gives};
ghost use Rattle.kmip_xml.specs.Markup.{quoted, equals, once, no_attributes, put, attribute};
ghost use Rattle.kmip_xml.specs.Markup.{attributes};

use crate::error::{Wanted, XmlError, misfit_at};
use crate::markup::tag_end;
use crate::scan::{after, around, spaced, trimmed, word};
use crate::values::value_of;
use kmip_wire::Text;
use std::alloc::Global;

/// The values of attributes that an element may have.
#[derive(Drop)]
pub(crate) struct Attributes {
    pub(crate) tag: Option<Text>,
    pub(crate) kind: Option<Text>,
    pub(crate) value: Option<Text>,
    pub(crate) name: Option<Text>,
}

/// What stands between two quotes of one kind, and what follows them.
fn quoted(text: &str) -> Option<(&str, &str)>
    ensures { option_map (λ parts. (parts.0.now, parts.1.now)) result ≡ quoted text.now }
{
    match after("\"", text) {
        Some(rest) => around('"', rest),
        None => around('\'', after("'", text)?),
    }
}

/// What follows `=`, with white space round it.
fn equals(text: &str) -> Option<&str>
    ensures { option_map (λ rest. rest.now) result ≡ equals text.now }
{
    Some(trimmed(after("=", trimmed(text))?))
}

/// Gives an attribute its value, where it has none so far.
fn once(slot: &mut Option<Text>, value: Text) -> bool
    ensures { (if result then Some slot.new else None) ≡ once slot.old value }
{
    match slot {
        Some(_) => false,
        None => {
            *slot = Some(value);
            true
        }
    }
}

/// Adds an attribute that is none of these so far.
#[tactic(auto, unfolding(crate::specs::Markup::put))]
fn put(key: &str, value: Text, found: &mut Attributes) -> bool
    ensures { (if result then Some found.new else None) ≡ put key.now value found.old }
{
    match key {
        "tag" => once(&mut found.tag, value),
        "type" => once(&mut found.kind, value),
        "value" => once(&mut found.value, value),
        "name" => once(&mut found.name, value),
        _ => false,
    }
}

/// The attributes with the one at the front.
#[tactic(auto, unfolding(crate::specs::Markup::attribute))]
fn attribute<'a>(
    alloc: Global,
    mut found: Attributes,
    text: &'a str,
) -> Result<(Attributes, &'a str), XmlError>
    ensures { Gives (λ x. (x.0, x.1.now)) result (attribute found text.now) }
{
    let (key, rest) = word(text);
    let Some(place) = equals(rest) else {
        return Err(XmlError::Misfit(misfit_at(rest, Wanted::Equals)));
    };
    let Some((raw, rest)) = quoted(place) else {
        return Err(XmlError::Misfit(misfit_at(place, Wanted::Quotes)));
    };
    let value = value_of(alloc, raw, place)?;
    if put(key, value, &mut found) {
        Ok((found, rest))
    } else {
        Err(XmlError::Misfit(misfit_at(text, Wanted::AttributeName)))
    }
}

/// At most so many attributes more, each behind white space, and then the tag's end.
fn more_attributes<'a>(
    alloc: Global,
    count: u32,
    found: Attributes,
    text: &'a str,
) -> Result<(Attributes, &'a str), XmlError>
    ensures { Gives (λ x. (x.0, x.1.now)) result (attributes count found text.now) }
{
    let rest = trimmed(text);
    if tag_end(rest).is_some() {
        return Ok((found, rest));
    }
    if count == 0 || spaced(text).is_none() {
        return Err(XmlError::Misfit(misfit_at(rest, Wanted::AttributeOrEnd)));
    }
    let (found, rest) = attribute(alloc, found, rest)?;
    more_attributes(alloc, count - 1, found, rest)
}

/// The attributes of an element, up to the end of its tag.
pub(crate) fn all_attributes(alloc: Global, text: &str) -> Result<(Attributes, &str), XmlError>
    ensures { Gives (λ x. (x.0, x.1.now)) result (attributes 4 no_attributes text.now) }
{
    let none = Attributes {
        tag: None,
        kind: None,
        value: None,
        name: None,
    };
    more_attributes(alloc, 4, none, text)
}
