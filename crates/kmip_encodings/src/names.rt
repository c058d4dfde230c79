//! The names of the numbers of enumerations, by the tag that they stand under.
ghost use Rattle.std.specs.Prelude.{◌≡◌, ◌<◌, ◌==◌, ◌&&◌, ◌++◌, option_map, map, length};
ghost use Rattle.std.specs.Prelude.{bytes_eq, OnOk};
ghost use Rattle.kmip_encodings.specs.Lines.{line_count};
ghost use Rattle.kmip_encodings.specs.Names.{line_tags, line_numbers, line_names, line_at};
ghost use Rattle.kmip_encodings.specs.Names.{enumeration_name, enumeration_number};
ghost use Rattle.kmip_encodings.specs.Expected.{is_written, written_lines, are_few};
ghost use Rattle.kmip_encodings.specs.Expected.{listed, entry_if, one_if};

use crate::lines::{LINES, NAMES, NUMBERS, TAGS};
use kmip_wire::{OutOfMemory, Tag, Text};

static LINE_TAGS: [u32; LINES] = TAGS;

static LINE_NUMBERS: [u32; LINES] = NUMBERS;

static LINE_NAMES: [&str; LINES] = NAMES;

/// The tags of all lines.
fn line_tags() -> &'static [u32]
    ensures table { result.now ≡ line_tags }
    ensures length { length result.now ≡ line_count }
{
    &LINE_TAGS
}

/// The numbers of all lines.
fn line_numbers() -> &'static [u32]
    ensures table { result.now ≡ line_numbers }
    ensures length { length result.now ≡ line_count }
{
    &LINE_NUMBERS
}

/// The names of all lines.
fn line_names() -> &'static [&'static str]
    ensures table { map (λ name. name.now) result.now ≡ line_names }
    ensures length { length result.now ≡ line_count }
{
    &LINE_NAMES
}

/// Whether the line at `index` is one of the enumeration under the tag.
fn has_tag(index: usize, tag: Tag) -> bool
    requires { index < line_count }
    ensures { result ≡ ((line_at index).0 == tag) }
{
    line_tags()[index] == tag.number()
}

/// The number in the line at `index`.
fn number_at(index: usize) -> u32
    requires { index < line_count }
    ensures { result ≡ (line_at index).1.0 }
{
    line_numbers()[index]
}

/// The name in the line at `index`.
fn name_at(index: usize) -> &'static str
    requires { index < line_count }
    ensures { result.now ≡ (line_at index).1.1 }
{
    line_names()[index]
}

fn is_numbered(index: usize, tag: Tag, number: u32) -> bool
    requires { index < line_count }
    ensures { result ≡ ((line_at index).0 == tag) && ((line_at index).1.0 == number) }
{
    has_tag(index, tag) && number_at(index) == number
}

fn is_named(index: usize, tag: Tag, name: &str) -> bool
    requires { index < line_count }
    ensures { result ≡ ((line_at index).0 == tag) && bytes_eq (line_at index).1.1 name.now }
{
    has_tag(index, tag) && name_at(index) == name
}

/// The name of the number in the enumeration that stands under the tag, as `Create` for 1 under
/// Operation: KMIP 1.2's text by the rule of its encodings, as `SHA_256` for SHA-256 and `ReKey`
/// for Re-key. `None` where no enumeration stands under the tag, or it has no such number.
pub fn enumeration_name(tag: Tag, number: u32) -> Option<&'static str>
    ensures { option_map (λ name. name.now) result ≡ enumeration_name tag number }
{
    for index in 0..LINES {
        if is_numbered(index, tag, number) {
            return Some(name_at(index));
        }
    }
    None
}

/// The number of the name in the enumeration that stands under the tag: each name that
/// `enumeration_name` gives, and kmip-protocol's where it differs, as `SHA256`. `None` for others.
pub fn enumeration_number(tag: Tag, name: &str) -> Option<u32>
    ensures { result ≡ enumeration_number tag name.now }
{
    for index in 0..LINES {
        if is_named(index, tag, name) {
            return Some(number_at(index));
        }
    }
    None
}

/// How many names of an enumeration are shown at most.
const FEW: usize = 16;

/// Whether the line at `index` has the name that is written of its number, under the tag.
fn is_written(index: usize, tag: Tag) -> bool
    requires { index < line_count }
    ensures { result ≡ is_written tag (line_at index) }
{
    if !has_tag(index, tag) {
        return false;
    }
    match enumeration_name(tag, number_at(index)) {
        Some(name) => name == name_at(index),
        None => false,
    }
}

fn one_if(is_one: bool) -> usize
    ensures { result ≡ one_if is_one }
{
    if is_one { 1 } else { 0 }
}

/// How many names the enumeration under the tag has.
fn name_count(tag: Tag) -> usize
    ensures { result ≡ length (written_lines tag) }
{
    let mut count = 0usize;
    for index in 0..LINES {
        count += one_if(is_written(index, tag));
    }
    count
}

/// Whether the names of the enumeration under the tag are 1 to 16.
pub(crate) fn has_few_names(tag: Tag) -> bool
    ensures { result ≡ are_few (length (written_lines tag)) }
{
    let count = name_count(tag);
    0 < count && count <= FEW
}

/// Appends the name in the line at `index` with a comma and a space after it, where it is written.
fn push_name(out: &mut Text, index: usize, tag: Tag) -> Result<(), OutOfMemory>
    requires { index < line_count }
    ensures { OnOk result (out.new ≡
        out.old ++ entry_if (is_written tag (line_at index)) (line_at index)) }
{
    if !is_written(index, tag) {
        return Ok(());
    }
    out.push_str(name_at(index))?;
    out.push_str(", ")
}

/// Appends the names of the enumeration under the tag, with a comma and a space after each. It fails
/// only where memory runs out.
pub(crate) fn push_names(out: &mut Text, tag: Tag) -> Result<(), OutOfMemory>
    ensures { OnOk result (out.new ≡ out.old ++ listed (written_lines tag)) }
{
    for index in 0..LINES {
        push_name(out, index, tag)?;
    }
    Ok(())
}
