//! The value of an attribute.
ghost use Rattle.std.specs.Prelude.{◌≡◌, ◌++◌, ◌∷◌, ◌≤◌, ◌<◌, IfOk, IfSome, option_map, map};
ghost use Rattle.std.specs.Prelude.{Some, None, if◌then◌else◌};
ghost use Rattle.std.specs.Str.{chars};
ghost use Rattle.kmip_xml.specs.Given.{Gives};
ghost use Rattle.kmip_xml.specs.Values.{plain_char, plain, digit, grown, digits, character};
ghost use Rattle.kmip_xml.specs.Values.{numbered, entity, reference, referred, all_referred};
ghost use Rattle.kmip_xml.specs.Values.{joined, value_of};
ghost use Rattle.kmip_encodings.specs.XmlGrammar.{is_xml_char};

use crate::error::{Wanted, XmlError, misfit_at};
use crate::scan::{after, around};
use kmip_encodings::parts_between;
use kmip_wire::{OutOfMemory, Text};
use std::alloc::Global;

/// Whether XML has the character (2.2).
pub(crate) fn is_xml_char(ch: char) -> bool
    ensures { result ≡ is_xml_char ch }
{
    matches!(
        ch,
        '\t' | '\n' | '\r' | ' '..='\u{d7ff}' | '\u{e000}'..='\u{fffd}' | '\u{10000}'..='\u{10ffff}'
    )
}

/// Appends a character that stands as it is, after another one.
fn put_char(out: &mut Text, before: char, ch: char) -> Result<(), OutOfMemory>
    ensures { IfOk result (λ _. out.new ≡ out.old ++ plain_char before ch) }
{
    match ch {
        '\n' if before == '\r' => Ok(()),
        ' ' | '\t' | '\n' | '\r' => out.push_str(" "),
        _ => out.push(ch),
    }
}

/// Appends characters that stand as they are.
fn put_plain(out: &mut Text, text: &str) -> Result<(), OutOfMemory>
    ensures { IfOk result (λ _. out.new ≡ out.old ++ plain 0 (chars text.now)) }
{
    let mut before = '\0';
    for ch in text.chars() {
        put_char(out, before, ch)?;
        before = ch;
    }
    Ok(())
}

fn digit(base: u32, byte: u8) -> Option<u32>
    ensures value { result ≡ digit base byte }
    ensures range { IfSome result (λ d. d < 16) }
{
    match byte {
        b'0'..=b'9' => Some((byte - b'0') as u32),
        b'A'..=b'F' if base == 16 => Some((byte - 55) as u32),
        b'a'..=b'f' if base == 16 => Some((byte - 87) as u32),
        _ => None,
    }
}

/// The number of digits after those of another number, where a character may have it.
fn grown(base: u32, number: u32, digit: u32) -> Option<u32>
    requires base { base ≤ 16 }
    requires number { number ≤ 0x10FFFF }
    requires digit { digit < 16 }
    ensures value { result ≡ grown base number digit }
    ensures range { IfSome result (λ n. n ≤ 0x10FFFF) }
{
    let grown = number * base + digit;
    if grown <= 0x10FFFF { Some(grown) } else { None }
}

fn digits(base: u32, number: u32, text: &[u8]) -> Option<u32>
    requires base { base ≤ 16 }
    requires number { number ≤ 0x10FFFF }
    ensures { result ≡ digits base number text.now }
{
    match text {
        [] => Some(number),
        [first, rest @ ..] => {
            let digit = digit(base, *first)?;
            let number = grown(base, number, digit)?;
            digits(base, number, rest)
        }
    }
}

fn character(number: Option<u32>) -> Option<char>
    ensures { result ≡ character number }
{
    let ch = char::from_u32(number?)?;
    if is_xml_char(ch) { Some(ch) } else { None }
}

/// The character whose number has these digits, of which there are at most eight.
#[tactic(auto, unfolding(crate::specs::Values::numbered))]
fn numbered(base: u32, text: &str) -> Option<char>
    requires { base ≤ 16 }
    ensures { result ≡ numbered base text.now }
{
    if 0 < text.len() && text.len() < 9 {
        character(digits(base, 0, text.as_bytes()))
    } else {
        None
    }
}

fn entity(name: &str) -> Option<char>
    ensures { result ≡ entity name.now }
{
    match name {
        "quot" => Some('"'),
        "amp" => Some('&'),
        "apos" => Some('\''),
        "lt" => Some('<'),
        "gt" => Some('>'),
        _ => None,
    }
}

/// The character of a reference, by what stands between `&` and `;`.
fn reference(name: &str) -> Option<char>
    ensures { result ≡ reference name.now }
{
    if let Some(hex) = after("#x", name) {
        return numbered(16, hex);
    }
    match after("#", name) {
        Some(decimal) => numbered(10, decimal),
        None => entity(name),
    }
}

/// Appends the character of a reference and what stands behind it, where the part, which begins
/// behind its `&`, begins with a reference.
#[tactic(auto, unfolding(crate::specs::Values::referred))]
fn put_referred(out: &mut Text, part: &str) -> Result<bool, OutOfMemory>
    ensures { IfOk result (λ is_read. (if is_read then Some out.new else None) ≡
        option_map (λ s. out.old ++ s) (referred part.now)) }
{
    let Some((name, rest)) = around(';', part) else {
        return Ok(false);
    };
    let Some(ch) = reference(name) else {
        return Ok(false);
    };
    out.push(ch)?;
    put_plain(out, rest)?;
    Ok(true)
}

/// Appends what stands behind each `&`.
fn put_all_referred(out: &mut Text, parts: &[&str]) -> Result<bool, OutOfMemory>
    ensures { IfOk result (λ is_read. (if is_read then Some out.new else None) ≡
        option_map (λ s. out.old ++ s) (all_referred (map (λ part. part.now) parts.now))) }
{
    for part in parts {
        if !put_referred(out, part)? {
            return Ok(false);
        }
    }
    Ok(true)
}

/// The value that stands in these parts, with an `&` between two.
fn joined(alloc: Global, parts: &[&str]) -> Result<Option<Text>, OutOfMemory>
    ensures { IfOk result (λ text. text ≡ joined (map (λ part. part.now) parts.now)) }
{
    let mut out = Text::new(alloc);
    if let [first, rest @ ..] = parts {
        put_plain(&mut out, first)?;
        if !put_all_referred(&mut out, rest)? {
            return Ok(None);
        }
    }
    Ok(Some(out))
}

/// The value of an attribute, by what stands between its quotes; an error is one at the place, where
/// its text begins.
#[tactic(auto, unfolding(crate::specs::Values::value_of))]
pub(crate) fn value_of(alloc: Global, raw: &str, place: &str) -> Result<Text, XmlError>
    ensures { Gives (λ text. text) result (value_of raw.now) }
{
    if around('<', raw).is_some() {
        return Err(XmlError::Misfit(misfit_at(place, Wanted::NoElementInValue)));
    }
    let parts = parts_between(alloc, '&', raw)?;
    match joined(alloc, &parts)? {
        Some(text) => Ok(text),
        None => Err(XmlError::Misfit(misfit_at(place, Wanted::Reference))),
    }
}
