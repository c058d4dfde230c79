//! Writing a tree as JSON.
ghost use Rattle.std.specs.Prelude.{◌≡◌, ◌+◌, ◌≤◌, ◌^◌, ◌++◌, [], ◌∷◌, codes};
ghost use Rattle.std.specs.Prelude.{IfSome, IfOk, OnOk, OnErr, IsUtf8, Some};
ghost use Rattle.json.specs.Token.{begin_object, key, string};
ghost use Rattle.json.specs.Tree.{json_tokens};
ghost use Rattle.kmip_wire.specs.Head.{pads};
ghost use Rattle.kmip_wire.specs.Tree.{structure, trees_of};
ghost use Rattle.kmip_tags.specs.Tags.{ATTRIBUTE_VALUE};
ghost use Rattle.kmip_encodings.specs.Texts.{tag_text};
ghost use Rattle.kmip_encodings.specs.Parts.{part_json, offset_tokens, value_tokens};
ghost use Rattle.kmip_encodings.specs.Sizes.{size_of};
ghost use Rattle.kmip_encodings.specs.Encoding.{is_short, long_json, integer_json, after};
ghost use Rattle.kmip_encodings.specs.Encoding.{item_json, json_at, text_at, json_text};

use crate::context::{named_after, place, unnamed};
use crate::text::{bytes_text, date_text, enumeration_text, hex_text, mask_text, tag_text};
use json::Writer;
use kmip_wire::{Kind, Node, OutOfMemory, Tag, Text, Tree};
use std::alloc::Global;
use std::mem;

/// The value of an item that is no structure, as it is written.
#[derive(Drop)]
enum Part<'a> {
    Number(i64),
    Truth(bool),
    Lent(&'a str),
    Made(Text),
}

/// Whether a number is nearer to 0 than 2^52.
fn is_short(number: i64) -> bool
    ensures { result ≡ is_short number }
{
    number.unsigned_abs() < 1 << 52
}

/// A Long Integer: a number that every reader holds exactly, or else `0x` and 16 digits.
fn long_part(alloc: Global, number: i64) -> Result<Part<'static>, OutOfMemory>
    ensures { IfOk result (λ part. part_json part ≡ long_json number) }
{
    if is_short(number) {
        return Ok(Part::Number(number));
    }
    let bytes = number.cast_unsigned().to_be_bytes();
    Ok(Part::Made(hex_text(alloc, &bytes)?))
}

/// An Integer: a mask by the names of its bits, and else a number.
fn integer_part(alloc: Global, tag: Tag, number: i32) -> Result<Part<'static>, OutOfMemory>
    ensures { IfOk result (λ part. part_json part ≡ integer_json tag number) }
{
    match mask_text(alloc, "|", tag, number)? {
        Some(names) => Ok(Part::Made(names)),
        None => Ok(Part::Number(number as i64)),
    }
}

/// Writes the value of an item that is no structure.
fn put_part(part: &Part<'_>, writer: &mut Writer) -> Result<(), OutOfMemory>
    ensures tokens { OnOk result (writer.new.tokens ≡
        writer.old.tokens ++ json_tokens (part_json part.now)) }
    ensures before { writer.new.before ≡ writer.old.before }
{
    match part {
        Part::Number(number) => writer.i64(*number)?,
        Part::Truth(truth) => writer.boolean(*truth)?,
        Part::Lent(text) => writer.string(text)?,
        Part::Made(text) => writer.string(text.as_str())?,
    }
    Ok(())
}

/// Where an item ends that begins at `at` and whose value has `len` bytes: its head has 8, and pads
/// fill its last 8.
fn item_end(at: Option<u64>, len: usize) -> Option<u64>
    requires { IfSome at (λ a. a + (8 + len + pads len) ≤ 2 ^ 63) }
    ensures { result ≡ after (8 + len + pads len) at }
{
    Some(at? + (len as u64 + 15) / 8 * 8)
}

/// Where the first item of a structure begins.
fn first_item(at: Option<u64>) -> Option<u64>
    requires { IfSome at (λ a. a + 8 ≤ 2 ^ 63) }
    ensures { result ≡ after 8 at }
{
    Some(at? + 8)
}

/// Writes where an item begins, if offsets are wanted.
fn put_offset(at: Option<u64>, writer: &mut Writer) -> Result<(), OutOfMemory>
    ensures tokens { OnOk result (writer.new.tokens ≡ writer.old.tokens ++ offset_tokens at) }
    ensures before { writer.new.before ≡ writer.old.before }
{
    let Some(at) = at else {
        return Ok(());
    };
    writer.key("offset")?;
    writer.u64(at)?;
    Ok(())
}

/// Writes the start of an item, with its tag.
fn put_start(
    alloc: Global,
    at: Option<u64>,
    tag: Tag,
    writer: &mut Writer,
) -> Result<(), OutOfMemory>
    ensures tokens { OnOk result (writer.new.tokens ≡ writer.old.tokens
        ++ begin_object ∷ (offset_tokens at ++ key (codes "tag") ∷ string (tag_text tag) ∷ [])) }
    ensures before { writer.new.before ≡ writer.old.before }
{
    let text = tag_text(alloc, tag)?;
    writer.begin_object()?;
    put_offset(at, writer)?;
    writer.key("tag")?;
    writer.string(text.as_str())?;
    Ok(())
}

/// Writes an item that is no structure.
fn put_item(
    alloc: Global,
    at: Option<u64>,
    tag: Tag,
    kind: Kind,
    part: &Part<'_>,
    writer: &mut Writer,
) -> Result<(), OutOfMemory>
    ensures tokens { OnOk result (writer.new.tokens ≡
        writer.old.tokens ++ json_tokens (item_json at tag kind (part_json part.now))) }
    ensures before { writer.new.before ≡ writer.old.before }
{
    put_start(alloc, at, tag, writer)?;
    writer.key("type")?;
    writer.string(kind.name())?;
    writer.key("value")?;
    put_part(part, writer)?;
    writer.end_object()?;
    Ok(())
}

/// Writes the value of an item that is no structure, as it stands in the tree's JSON; of a structure
/// it writes nothing. Names of Attribute Value are those of `named`.
pub fn put_value(
    alloc: Global,
    named: Tag,
    tree: &Tree,
    writer: &mut Writer,
) -> Result<(), OutOfMemory>
    ensures tokens { OnOk result (writer.new.tokens ≡
        writer.old.tokens ++ value_tokens named tree.now) }
    ensures before { writer.new.before ≡ writer.old.before }
{
    let tag = tree.tag;
    let part = match &tree.node {
        Node::Structure(_) => return Ok(()),
        Node::Integer(number) => integer_part(alloc, place(named, tag), *number)?,
        Node::LongInteger(number) => long_part(alloc, *number)?,
        Node::BigInteger(bytes) => Part::Made(hex_text(alloc, bytes.as_slice())?),
        Node::Enumeration(number) => {
            Part::Made(enumeration_text(alloc, place(named, tag), *number)?)
        }
        Node::Boolean(truth) => Part::Truth(*truth),
        Node::TextString(text) => Part::Lent(text.as_str()),
        Node::ByteString(bytes) => Part::Made(bytes_text(alloc, bytes.as_slice())?),
        Node::DateTime(seconds) => Part::Made(date_text(alloc, *seconds)?),
        Node::Interval(seconds) => Part::Number(*seconds as i64),
    };
    put_part(&part, writer)
}

/// Writes an item, and returns where it ends. Names of Attribute Value are those of `named`.
#[cycle(write)]
fn put_tree(
    alloc: Global,
    at: Option<u64>,
    named: Tag,
    tree: &Tree,
    writer: &mut Writer,
) -> Result<Option<u64>, OutOfMemory>
    requires { IfSome at (λ a. a + size_of tree.now ≤ 2 ^ 63) }
    ensures tokens { OnOk result (writer.new.tokens ≡
        writer.old.tokens ++ json_tokens (json_at at named tree.now)) }
    ensures before { writer.new.before ≡ writer.old.before }
    ensures end { IfOk result (λ end. end ≡ after (size_of tree.now) at) }
{
    let tag = tree.tag;
    let (kind, len, part) = match &tree.node {
        Node::Structure(items) => return put_structure(alloc, at, tag, items.as_slice(), writer),
        Node::Integer(number) => {
            let part = integer_part(alloc, place(named, tag), *number)?;
            (Kind::Integer, 4, part)
        }
        Node::LongInteger(number) => (Kind::LongInteger, 8, long_part(alloc, *number)?),
        Node::BigInteger(bytes) => {
            let digits = hex_text(alloc, bytes.as_slice())?;
            (Kind::BigInteger, bytes.len(), Part::Made(digits))
        }
        Node::Enumeration(number) => {
            let name = enumeration_text(alloc, place(named, tag), *number)?;
            (Kind::Enumeration, 4, Part::Made(name))
        }
        Node::Boolean(truth) => (Kind::Boolean, 8, Part::Truth(*truth)),
        Node::TextString(text) => {
            let text = text.as_str();
            (Kind::TextString, text.len(), Part::Lent(text))
        }
        Node::ByteString(bytes) => {
            let digits = bytes_text(alloc, bytes.as_slice())?;
            (Kind::ByteString, bytes.len(), Part::Made(digits))
        }
        Node::DateTime(seconds) => (Kind::DateTime, 8, Part::Made(date_text(alloc, *seconds)?)),
        Node::Interval(seconds) => (Kind::Interval, 4, Part::Number(*seconds as i64)),
    };
    put_item(alloc, at, tag, kind, &part, writer)?;
    Ok(item_end(at, len))
}

/// Writes a structure of the items, and returns where it ends.
#[cycle(write)]
fn put_structure(
    alloc: Global,
    at: Option<u64>,
    tag: Tag,
    items: &[Tree],
    writer: &mut Writer,
) -> Result<Option<u64>, OutOfMemory>
    requires { IfSome at (λ a. a + size_of (structure tag (trees_of items.now)) ≤ 2 ^ 63) }
    ensures tokens { OnOk result (writer.new.tokens ≡
        writer.old.tokens
        ++ json_tokens (json_at at ATTRIBUTE_VALUE (structure tag (trees_of items.now)))) }
    ensures before { writer.new.before ≡ writer.old.before }
    ensures end { IfOk result (λ end.
        end ≡ after (size_of (structure tag (trees_of items.now))) at) }
{
    put_start(alloc, at, tag, writer)?;
    writer.key("value")?;
    writer.begin_array()?;
    let mut next = first_item(at);
    let mut named = unnamed();
    for item in items {
        next = put_tree(alloc, next, named, item, writer)?;
        named = named_after(named, item);
    }
    writer.end_array()?;
    writer.end_object()?;
    Ok(next)
}

/// Appends the tree's JSON, with offsets from `at` on where they are wanted.
fn append_json(
    alloc: Global,
    at: Option<u64>,
    tree: &Tree,
    out: &mut Vec<u8>,
) -> Result<(), OutOfMemory>
    requires { IfSome at (λ a. a + size_of tree.now ≤ 2 ^ 63) }
    ensures all { OnOk result (out.new.items ≡ out.old.items ++ text_at at tree.now) }
    ensures utf8 { OnOk result (IsUtf8 (text_at at tree.now)) }
    ensures nothing { OnErr result (out.new.items ≡ out.old.items) }
{
    let len = out.len();
    let mut writer = Writer::new(mem::replace(out, Vec::new(alloc)));
    let written = put_tree(alloc, at, unnamed(), tree, &mut writer);
    *out = writer.into_inner();
    match written {
        Ok(_) => Ok(()),
        Err(error) => {
            out.truncate(len);
            Err(error)
        }
    }
}

/// Appends the tree's JSON: an object with the members `tag`, `type` (left out for Structure) and
/// `value`. A tag is its name as one word, or `0x` and six digits; an enumeration's number is its
/// name, or `0x` and eight digits where no table has one (under Attribute Value it is the name that
/// the attribute's values have, as the Attribute Name before it says); a mask that is not 0 is the
/// names of its bits with `|` between two, as `Encrypt|Decrypt`, and `0x` and eight digits for those
/// that have none; a Long Integer from 2^52 on, in either direction, is `0x` and its 16 digits, a
/// Big Integer `0x` and the digits of its bytes, a Byte String the digits of its bytes, and a
/// Date-Time a text of ISO 8601 in UTC, or `0x` and 16 digits before the year 1 and after 9999.
///
/// The text is in UTF-8 and has no white space. Where memory runs out, nothing was appended.
pub fn to_json(alloc: Global, tree: &Tree, out: &mut Vec<u8>) -> Result<(), OutOfMemory>
    ensures all { OnOk result (out.new.items ≡ out.old.items ++ json_text tree.now) }
    ensures utf8 { OnOk result (IsUtf8 (json_text tree.now)) }
    ensures nothing { OnErr result (out.new.items ≡ out.old.items) }
{
    append_json(alloc, None, tree, out)
}

/// Appends the tree's JSON as `to_json` does, and each object has one more member before the
/// others, `offset`: where its item begins in the wire form, counted in bytes. The tree itself
/// begins at `start`, the first item of a structure 8 bytes after it, and each other item where the
/// one before it ends. `from_json` doesn't read this form.
///
/// The tree must end at 2^63 or before. Where memory runs out, nothing was appended.
pub fn to_json_with_offsets(
    alloc: Global,
    tree: &Tree,
    start: u64,
    out: &mut Vec<u8>,
) -> Result<(), OutOfMemory>
    requires { start + size_of tree.now ≤ 2 ^ 63 }
    ensures all { OnOk result (out.new.items ≡ out.old.items ++ text_at (Some start) tree.now) }
    ensures utf8 { OnOk result (IsUtf8 (text_at (Some start) tree.now)) }
    ensures nothing { OnErr result (out.new.items ≡ out.old.items) }
{
    append_json(alloc, Some(start), tree, out)
}
