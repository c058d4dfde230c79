//! Writes the line of an item.
ghost use Rattle.std.specs.Prelude.{◌≡◌, ◌++◌, codes, IfOk};
ghost use Rattle.kmip_tags.specs.Names.{name_of};
ghost use Rattle.kmip_diag.specs.Lines.{indent, name_text, mark_kind, data_text};
ghost use Rattle.kmip_diag.specs.Lines.{number_part, tag_part, type_part};
ghost use Rattle.kmip_diag.specs.Expansion.{token_line};

use crate::print::{push_six, push_two};
use crate::token::{Mark, Token};
use kmip_tags::name_of;
use kmip_wire::{Kind, OutOfMemory, Tag, Text};
use std::alloc::Global;

/// Appends two spaces for each level.
fn push_indent(text: &mut Text, depth: u32) -> Result<(), OutOfMemory>
    ensures { IfOk result (λ _. text.new ≡ text.old ++ indent depth) }
{
    let mut left = depth;
    while left > 0 {
        text.push_str("  ")?;
        left -= 1;
    }
    Ok(())
}

/// The name of a tag, or `Unknown`.
fn tag_name(tag: Tag) -> &'static str
    ensures { result.now ≡ name_text (name_of tag) }
{
    match name_of(tag) {
        Some(name) => name,
        None => "Unknown",
    }
}

/// Appends the number of a tag, in brackets.
fn push_number_part(text: &mut Text, tag: Tag) -> Result<(), OutOfMemory>
    ensures { IfOk result (λ _. text.new ≡ text.old ++ number_part tag) }
{
    text.push_str(" (0x")?;
    push_six(text, tag.number())?;
    text.push_str("), ")
}

/// Appends the name and number of a tag.
fn push_tag_part(text: &mut Text, tag: Tag) -> Result<(), OutOfMemory>
    ensures { IfOk result (λ _. text.new ≡ text.old ++ tag_part tag) }
{
    text.push_str("Tag: ")?;
    text.push_str(tag_name(tag))?;
    push_number_part(text, tag)
}

/// Appends the name and number of a type.
fn push_type_part(text: &mut Text, kind: Kind) -> Result<(), OutOfMemory>
    ensures { IfOk result (λ _. text.new ≡ text.old ++ type_part kind) }
{
    text.push_str("Type: ")?;
    text.push_str(kind.name())?;
    text.push_str(" (0x")?;
    push_two(text, kind.code() as u32)?;
    text.push_str("), ")
}

/// The type that a mark stands for.
fn mark_kind(mark: Mark) -> Kind
    ensures { result ≡ mark_kind mark }
{
    match mark {
        Mark::Integer => Kind::Integer,
        Mark::LongInteger => Kind::LongInteger,
        Mark::BigInteger => Kind::BigInteger,
        Mark::Enumeration(_) => Kind::Enumeration,
        Mark::Boolean => Kind::Boolean,
        Mark::TextString => Kind::TextString,
        Mark::ByteString => Kind::ByteString,
        Mark::DateTime => Kind::DateTime,
        Mark::Interval => Kind::Interval,
    }
}

/// Appends the part of a line before the value.
fn push_head(text: &mut Text, depth: u32, tag: Tag, kind: Kind) -> Result<(), OutOfMemory>
    ensures { IfOk result (λ _. text.new ≡
        text.old ++ (indent depth ++ (tag_part tag ++ (type_part kind ++ codes "Data: ")))) }
{
    push_indent(text, depth)?;
    push_tag_part(text, tag)?;
    push_type_part(text, kind)?;
    text.push_str("Data: ")
}

/// Appends the number of an enumeration, and `<redacted>` for any other type.
fn push_data(alloc: Global, text: &mut Text, mark: Mark) -> Result<(), OutOfMemory>
    ensures { IfOk result (λ _. text.new ≡ text.old ++ data_text mark) }
{
    match mark {
        Mark::Enumeration(number) => match format!(in alloc; "{number:X}") {
            Ok(written) => text.push_str(written.as_str()),
            Err(_) => Err(OutOfMemory),
        },
        _ => text.push_str("<redacted>"),
    }
}

/// Appends the line of a piece at the depth, and nothing for the end of a structure.
pub(crate) fn push_line(
    alloc: Global,
    text: &mut Text,
    depth: u32,
    token: &Token,
) -> Result<(), OutOfMemory>
    ensures { IfOk result (λ _. text.new ≡ text.old ++ token_line depth token.now) }
{
    match token {
        Token::Scalar(tag, mark) => {
            push_head(text, depth, *tag, mark_kind(*mark))?;
            push_data(alloc, text, *mark)?;
            text.push_str("\n")
        }
        Token::Open(tag) => {
            push_head(text, depth, *tag, Kind::Structure)?;
            text.push_str("\n")
        }
        Token::Close => Ok(()),
    }
}
