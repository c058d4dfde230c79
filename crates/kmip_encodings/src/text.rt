//! The texts of values.
ghost use Rattle.std.specs.Int.{w32, to_be_bytes};
ghost use Rattle.std.specs.Prelude.{drop, map, bit_and, ◌≡◌, ◌==◌, ◌++◌, [], ◌∷◌, ◌<◌, ◌+◌, IfOk};
ghost use Rattle.std.specs.List.{join_by};
ghost use Rattle.hex.specs.Hex.{encode_upper};
ghost use Rattle.kmip_encodings.specs.Dates.{two, civil_text};
ghost use Rattle.kmip_encodings.specs.Texts.{hex_text, tag_text, enumeration_text, date_text};
ghost use Rattle.kmip_encodings.specs.Texts.{is_number, mask_parts, bits_text};
ghost use Rattle.kmip_encodings.specs.Texts.{mask_text};

use crate::date::{Civil, civil_of, date_number};
use crate::masks::{is_mask, mask_bits};
use crate::names::enumeration_name;
use crate::words::tag_word;
use kmip_wire::{OutOfMemory, Tag, Text};
use std::alloc::Global;

/// `0x` and the digits of the bytes in upper-case hex.
pub(crate) fn hex_text(alloc: Global, bytes: &[u8]) -> Result<Text, OutOfMemory>
    ensures { IfOk result (λ text. text ≡ hex_text bytes.now) }
{
    let mut text = Text::of(alloc, "0x")?;
    text.push_str(bytes_text(alloc, bytes)?.as_str())?;
    Ok(text)
}

/// The digits of the bytes in upper-case hex.
pub(crate) fn bytes_text(alloc: Global, bytes: &[u8]) -> Result<Text, OutOfMemory>
    ensures { IfOk result (λ text. text ≡ encode_upper bytes.now) }
{
    let digits = hex::encode_upper(alloc, bytes)?;
    Text::of(alloc, digits.as_str())
}

/// `0x` and the six digits of the tag.
pub fn tag_digits(alloc: Global, tag: Tag) -> Result<Text, OutOfMemory>
    ensures { IfOk result (λ text. text ≡ hex_text (drop 1 (to_be_bytes w32 tag))) }
{
    hex_text(alloc, &tag.number().to_be_bytes()[1..])
}

/// The name of the tag as one word, or `0x` and six digits where it has none.
pub(crate) fn tag_text(alloc: Global, tag: Tag) -> Result<Text, OutOfMemory>
    ensures { IfOk result (λ text. text ≡ tag_text tag) }
{
    match tag_word(tag) {
        Some(word) => Text::of(alloc, word),
        None => tag_digits(alloc, tag),
    }
}

/// The name of the number under the tag, or `0x` and eight digits where it has none.
pub(crate) fn enumeration_text(alloc: Global, tag: Tag, number: u32) -> Result<Text, OutOfMemory>
    ensures { IfOk result (λ text. text ≡ enumeration_text tag number) }
{
    match enumeration_name(tag, number) {
        Some(name) => Text::of(alloc, name),
        None => hex_text(alloc, &number.to_be_bytes()),
    }
}

/// A decimal digit.
fn digit(number: u64) -> &'static str
    requires { number < 10 }
    ensures { result.now ≡ (48 + number) ∷ [] }
{
    match number {
        0 => "0",
        1 => "1",
        2 => "2",
        3 => "3",
        4 => "4",
        5 => "5",
        6 => "6",
        7 => "7",
        8 => "8",
        _ => "9",
    }
}

/// Appends the last two digits of a number.
fn push_two(text: &mut Text, number: u64) -> Result<(), OutOfMemory>
    ensures { IfOk result (λ _. text.new ≡ text.old ++ two number) }
{
    text.push_str(digit(number / 10 % 10))?;
    text.push_str(digit(number % 10))
}

/// A date and a time of day, as `2001-01-01T10:00:00+00:00`.
fn civil_text(alloc: Global, civil: Civil) -> Result<Text, OutOfMemory>
    ensures { IfOk result (λ text. text ≡ civil_text civil) }
{
    let mut text = Text::new(alloc);
    push_two(&mut text, civil.year / 100)?;
    push_two(&mut text, civil.year)?;
    text.push_str("-")?;
    push_two(&mut text, civil.month)?;
    text.push_str("-")?;
    push_two(&mut text, civil.day)?;
    text.push_str("T")?;
    push_two(&mut text, civil.hour)?;
    text.push_str(":")?;
    push_two(&mut text, civil.minute)?;
    text.push_str(":")?;
    push_two(&mut text, civil.second)?;
    text.push_str("+00:00")?;
    Ok(text)
}

fn is_number(found: Option<u64>, number: u64) -> bool
    ensures { result ≡ is_number found number }
{
    match found {
        Some(found) => found == number,
        None => false,
    }
}

#[tactic(auto, unfolding(crate::specs::Texts::date_text))]
/// The date and the time of day of a Date-Time from the year 1 to the year 9999, and else `0x` and
/// 16 digits.
pub(crate) fn date_text(alloc: Global, number: u64) -> Result<Text, OutOfMemory>
    ensures { IfOk result (λ text. text ≡ date_text number) }
{
    let text = civil_text(alloc, civil_of(number))?;
    if is_number(date_number(text.as_str().as_bytes()), number) {
        Ok(text)
    } else {
        hex_text(alloc, &number.to_be_bytes())
    }
}

fn has_bits(number: u32, bits: u32) -> bool
    ensures { result ≡ (bit_and number bits == bits) }
{
    number & bits == bits
}

/// The names of the bits of a number, and the bits that have none.
fn named(
    alloc: Global,
    bits: &'static [(u32, &'static str)],
    number: u32,
) -> Result<(Vec<&'static str>, u32), OutOfMemory>
    ensures { IfOk result (λ found.
        map (λ name. name.now) found.0.items ++ mask_parts [] found.1 ≡
        mask_parts (map (λ bit. (bit.0, bit.1.now)) bits.now) number) }
{
    let mut names = Vec::new(alloc);
    let mut rest = number;
    for bit in bits {
        if !has_bits(rest, bit.0) {
            continue;
        }
        names.push(bit.1)?;
        rest ^= bit.0;
    }
    Ok((names, rest))
}

/// The parts with the separator between two.
fn joined(alloc: Global, separator: &str, parts: &[&str]) -> Result<Text, OutOfMemory>
    ensures { IfOk result
        (λ text. text ≡ join_by (λ part. part.now) separator.now parts.now) }
{
    let text = parts.join(alloc, separator)?;
    Text::of(alloc, text.as_str())
}

/// The names of the bits of a number, and then the bits that have none as `0x` and eight digits,
/// with the separator between two.
fn bits_text(alloc: Global, separator: &str, tag: Tag, number: u32) -> Result<Text, OutOfMemory>
    ensures { IfOk result (λ text. text ≡ bits_text separator.now tag number) }
{
    let (names, rest) = named(alloc, mask_bits(tag), number)?;
    if rest == 0 {
        let text = joined(alloc, separator, &names)?;
        return Ok(text);
    }
    let digits = hex_text(alloc, &rest.to_be_bytes())?;
    let mut parts: Vec<&str> = names;
    parts.push(digits.as_str())?;
    let text = joined(alloc, separator, &parts)?;
    Ok(text)
}

/// A mask by the names of its bits, with the separator between two; `None` of what is no mask, and
/// of 0.
#[tactic(auto, unfolding(crate::specs::Texts::mask_text))]
pub fn mask_text(
    alloc: Global,
    separator: &str,
    tag: Tag,
    number: i32,
) -> Result<Option<Text>, OutOfMemory>
    ensures { IfOk result (λ text. text ≡ mask_text separator.now tag number) }
{
    if !is_mask(tag) {
        return Ok(None);
    }
    let bits = number.cast_unsigned();
    if bits == 0 {
        return Ok(None);
    }
    Ok(Some(bits_text(alloc, separator, tag, bits)?))
}
