//! Reading JSON as a tree.
ghost use Rattle.std.specs.Prelude.{bytes_eq, ◌≡◌, ◌<◌, ◌==◌, ℕ, ◌∷◌, IfOk, Err, map};
ghost use Rattle.std.specs.Prelude.{option_map, option_and_then, is_some, ◌≤◌};
ghost use Rattle.std.specs.List.{slice_split};
ghost use Rattle.std.specs.Result.{result_ok};
ghost use Rattle.std.specs.Fmt.{signed_decimal};
ghost use Rattle.hex.specs.Hex.{decode_of};
ghost use Rattle.json.specs.Find.{as_array, is_null};
ghost use Rattle.json.specs.Reads.{token_of};
ghost use Rattle.json.specs.Value.{value_view, items_view, members_view};
ghost use Rattle.std.specs.Int.{w32, w64, cast_signed};
ghost use Rattle.kmip_wire.specs.declared.kind.Kind.TheVariants.{Structure, BigInteger};
ghost use Rattle.kmip_wire.specs.Sees.{tree_of_node};
ghost use Rattle.kmip_wire.specs.Tree.{scalar, integer, long_integer, big_integer};
ghost use Rattle.kmip_wire.specs.Tree.{enumeration, boolean, byte_string, date_time, interval};
ghost use Rattle.kmip_tags.specs.Tags.{ATTRIBUTE_VALUE};
ghost use Rattle.kmip_encodings.specs.Context.{place};
ghost use Rattle.kmip_encodings.specs.Reading.{has_mark, hex_bytes, tag_of_bytes, word_of_bytes};
ghost use Rattle.kmip_encodings.specs.Reading.{long_of_bytes, tag_of_text, enumeration_of_text};
ghost use Rattle.kmip_encodings.specs.Reading.{date_of_text, whole_number, small_natural};
ghost use Rattle.kmip_encodings.specs.Reading.{part_of_text, bits_of_parts, big_bytes};
ghost use Rattle.kmip_encodings.specs.Reading.{is_big, any_number, empty_read};
ghost use Rattle.kmip_encodings.specs.Reading.{mask_of_text, truth_of_long};
ghost use Rattle.kmip_encodings.specs.Reading.{small_integer, natural, number_scalar};
ghost use Rattle.kmip_encodings.specs.Reading.{string_scalar, truth_scalar, scalar_in, kind_named};
ghost use Rattle.kmip_encodings.specs.Reading.{kind_from, tag_from, is_known, are_known, Read};
ghost use Rattle.kmip_encodings.specs.Reading.{wants, within, items_by, node_read, parts_in};
ghost use Rattle.kmip_encodings.specs.Reading.{is_exact, known_members, scalar_read};
ghost use Rattle.kmip_encodings.specs.Reading.{read_item, Fails, Reads, ReadsItems};
ghost use Rattle.kmip_encodings.specs.Reading.{ReadsText, depth_after, is_too_deep};

use crate::context::{named_after, place, unnamed};
use crate::date::date_number;
use crate::error::{EncodingError, Expected, Fault};
use crate::masks::mask_bit;
use crate::names::enumeration_number;
use crate::words::tag_named;
use hex::FromHexError;
use itoa::Buffer;
use json::{Error, MAX_DEPTH, Reader, Scratch, Token, Value};
use kmip_wire::{Blob, Kind, Node, OutOfMemory, Tag, Text, Tree, Trees};
use std::alloc::Global;

/// The bytes that a text spells in hex digits, two for a byte and of either case, with no `0x` before
/// them; `None` where it spells none. It fails only where memory runs out.
pub fn spelled(alloc: Global, digits: &[u8]) -> Result<Option<Vec<u8>>, OutOfMemory>
    ensures { IfOk result
        (λ bytes. option_map (λ b. b.items) bytes ≡ result_ok (decode_of digits.now)) }
{
    match hex::decode(alloc, digits) {
        Ok(bytes) => Ok(Some(bytes)),
        Err(FromHexError::OutOfMemory) => Err(OutOfMemory),
        Err(_) => Ok(None),
    }
}

/// Whether a text begins with `0x`.
fn has_mark(text: &[u8]) -> bool
    ensures { result ≡ has_mark text.now }
{
    text.len() >= 2 && text[0] == b'0' && text[1] == b'x'
}

/// The bytes of `0x` and their digits, two for a byte and of either case; `None` of another text. It
/// fails only where memory runs out.
pub fn hex_bytes(alloc: Global, text: &[u8]) -> Result<Option<Vec<u8>>, OutOfMemory>
    ensures { IfOk result (λ bytes. option_map (λ b. b.items) bytes ≡ hex_bytes text.now) }
{
    if has_mark(text) {
        spelled(alloc, &text[2..])
    } else {
        Ok(None)
    }
}

fn tag_of_bytes(bytes: &[u8]) -> Option<Tag>
    ensures { result ≡ tag_of_bytes bytes.now }
{
    if bytes.len() == 3 {
        Some(Tag::of(u32::from_be_bytes([0, bytes[0], bytes[1], bytes[2]])))
    } else {
        None
    }
}

fn word_of_bytes(bytes: &[u8]) -> Option<u32>
    ensures { result ≡ word_of_bytes bytes.now }
{
    if bytes.len() == 4 {
        Some(u32::from_be_bytes([bytes[0], bytes[1], bytes[2], bytes[3]]))
    } else {
        None
    }
}

fn long_of_bytes(bytes: &[u8]) -> Option<u64>
    ensures { result ≡ long_of_bytes bytes.now }
{
    if bytes.len() == 8 {
        Some(u64::from_be_bytes([
            bytes[0], bytes[1], bytes[2], bytes[3], bytes[4], bytes[5], bytes[6], bytes[7],
        ]))
    } else {
        None
    }
}

/// The number of `0x` and exactly eight hex digits; `None` of another text. It fails only where memory
/// runs out.
pub fn word_in(alloc: Global, text: &str) -> Result<Option<u32>, OutOfMemory>
    ensures { IfOk result (λ n. n ≡ option_and_then word_of_bytes (hex_bytes text.now)) }
{
    match hex_bytes(alloc, text.as_bytes())? {
        Some(bytes) => Ok(word_of_bytes(&bytes)),
        None => Ok(None),
    }
}

/// The number of `0x` and exactly 16 hex digits; `None` of another text. It fails only where memory
/// runs out.
pub fn long_in(alloc: Global, text: &str) -> Result<Option<u64>, OutOfMemory>
    ensures { IfOk result (λ n. n ≡ option_and_then long_of_bytes (hex_bytes text.now)) }
{
    match hex_bytes(alloc, text.as_bytes())? {
        Some(bytes) => Ok(long_of_bytes(&bytes)),
        None => Ok(None),
    }
}

/// The tag of `0x` and six digits.
fn tag_in(alloc: Global, text: &str) -> Result<Option<Tag>, OutOfMemory>
    ensures { IfOk result (λ tag. tag ≡ option_and_then tag_of_bytes (hex_bytes text.now)) }
{
    match hex_bytes(alloc, text.as_bytes())? {
        Some(bytes) => Ok(tag_of_bytes(&bytes)),
        None => Ok(None),
    }
}

/// The tag of `0x` and six hex digits, from 0x000000 to 0xFFFFFF, or of a name by OASIS's rule, as
/// `UniqueIdentifier`; `None` of another text. It fails only where memory runs out.
#[tactic(auto, unfolding(crate::specs::Reading::tag_of_text))]
pub fn tag_of_text(alloc: Global, text: &str) -> Result<Option<Tag>, OutOfMemory>
    ensures { IfOk result (λ tag. tag ≡ tag_of_text text.now) }
{
    if has_mark(text.as_bytes()) {
        tag_in(alloc, text)
    } else {
        Ok(tag_named(text))
    }
}

/// The number of `0x` and eight digits, or of a name under the tag.
#[tactic(auto, unfolding(crate::specs::Reading::enumeration_of_text))]
fn enumeration_of_text(alloc: Global, tag: Tag, text: &str) -> Result<Option<u32>, OutOfMemory>
    ensures { IfOk result (λ n. n ≡ enumeration_of_text tag text.now) }
{
    if has_mark(text.as_bytes()) {
        word_in(alloc, text)
    } else {
        Ok(enumeration_number(tag, text))
    }
}

/// The number of `0x` and 16 digits, or of a date and a time of day.
#[tactic(auto, unfolding(crate::specs::Reading::date_of_text))]
fn date_of_text(alloc: Global, text: &str) -> Result<Option<u64>, OutOfMemory>
    ensures { IfOk result (λ n. n ≡ date_of_text text.now) }
{
    if has_mark(text.as_bytes()) {
        long_in(alloc, text)
    } else {
        Ok(date_number(text.as_bytes()))
    }
}

/// The number of `0x` and eight digits, or of the name of a bit of the mask under the tag.
fn part_of_text(alloc: Global, tag: Tag, text: &str) -> Result<Option<u32>, OutOfMemory>
    ensures { IfOk result (λ n. n ≡ part_of_text tag text.now) }
{
    if has_mark(text.as_bytes()) {
        word_in(alloc, text)
    } else {
        Ok(mask_bit(tag, text))
    }
}

/// The bits of these parts together: each is the name of a bit in the mask under the tag, as `Encrypt`
/// under Cryptographic Usage Mask (KMIP 1.2, 9.1.3.3), or `0x` and eight hex digits. 0 of no parts;
/// `None` where a part is neither. It fails only where memory runs out.
pub fn bits_of_parts(alloc: Global, tag: Tag, parts: &[&str]) -> Result<Option<u32>, OutOfMemory>
    ensures { IfOk result
        (λ bits. bits ≡ bits_of_parts tag (map (λ part. part.now) parts.now)) }
{
    match parts {
        [] => Ok(Some(0)),
        [first, rest @ ..] => {
            let Some(part) = part_of_text(alloc, tag, first)? else {
                return Ok(None);
            };
            let Some(bits) = bits_of_parts(alloc, tag, rest)? else {
                return Ok(None);
            };
            Ok(Some(bits | part))
        }
    }
}

/// What stands between the separators, each a character of ASCII: one part more than there are
/// separators, the whole text where there is none. It fails only where memory runs out.
pub fn parts_between(alloc: Global, separator: char, text: &str) -> Result<Vec<&str>, OutOfMemory>
    requires { separator < 128 }
    ensures { IfOk result
        (λ parts. map (λ part. part.now) parts.items ≡ slice_split (λ c. c == separator) text.now) }
{
    Ok(text.split(separator).collect(alloc)?)
}

/// The bits of a mask, given by their names.
#[tactic(auto, unfolding(crate::specs::Reading::mask_of_text))]
fn mask_of_text(alloc: Global, tag: Tag, text: &str) -> Result<Option<u32>, OutOfMemory>
    ensures { IfOk result (λ bits. bits ≡ mask_of_text tag text.now) }
{
    let parts = parts_between(alloc, '|', text)?;
    bits_of_parts(alloc, tag, &parts)
}

fn truth_of_long(number: u64) -> Option<bool>
    ensures { result ≡ truth_of_long number }
{
    match number {
        0 => Some(false),
        1 => Some(true),
        _ => None,
    }
}

fn is_exact(number: i64) -> bool
    ensures { result ≡ is_exact number }
{
    number.unsigned_abs() < 1 << 53
}

fn is_printed(number: i64, text: &str) -> bool
    ensures { result ≡ bytes_eq (signed_decimal number) text.now }
{
    Buffer::new().format(number) == text
}

/// The number nearer to 0 than 2^53 whose decimal form is this text: with no `+`, no zeros before it
/// and no `-0`. `None` of another text.
pub fn whole_number(text: &str) -> Option<i64>
    ensures { result ≡ whole_number text.now }
{
    let Ok(number) = text.parse::<i64>() else {
        return None;
    };
    if is_exact(number) && is_printed(number, text) {
        Some(number)
    } else {
        None
    }
}

fn small_natural(number: i64) -> Option<u32>
    ensures { result ≡ small_natural number }
{
    if 0 <= number && number < 1 << 32 {
        Some(number as u32)
    } else {
        None
    }
}

fn small_integer(number: i64) -> Option<i32>
    ensures { result ≡ small_integer number }
{
    if -(1 << 31) <= number && number < 1 << 31 {
        Some(number as i32)
    } else {
        None
    }
}

fn natural(text: &str) -> Option<u32>
    ensures { result ≡ natural text.now }
{
    small_natural(whole_number(text)?)
}

/// The value of an item of the type, given in decimal as `whole_number` has it: an Integer from -2^31
/// to 2^31 - 1, a Long Integer nearer to 0 than 2^53, an Enumeration or an Interval from 0 to
/// 2^32 - 1. `None` of another text or type, of a Big Integer too.
pub fn number_node(kind: Kind, text: &str) -> Option<Node>
    ensures { (tag : ℕ) → option_map (tree_of_node tag) result ≡
        option_map (scalar tag) (number_scalar kind text.now) }
{
    match kind {
        Kind::Integer => Some(Node::Integer(small_integer(whole_number(text)?)?)),
        Kind::LongInteger => Some(Node::LongInteger(whole_number(text)?)),
        Kind::Enumeration => Some(Node::Enumeration(natural(text)?)),
        Kind::Interval => Some(Node::Interval(natural(text)?)),
        _ => None,
    }
}

/// The bytes of a number as a Big Integer has them: the eight of its two's complement.
fn big_number_node(alloc: Global, text: &str) -> Result<Option<Node>, OutOfMemory>
    ensures { IfOk result (λ node. (tag : ℕ) → option_map (tree_of_node tag) node ≡
        option_map (scalar tag)
        (option_map big_integer (option_map big_bytes (whole_number text.now)))) }
{
    match whole_number(text) {
        Some(number) => {
            let bytes = number.cast_unsigned().to_be_bytes();
            Ok(Some(Node::BigInteger(Blob::of(alloc, &bytes)?)))
        }
        None => Ok(None),
    }
}

fn is_big(kind: Kind) -> bool
    ensures { result ≡ is_big kind }
{
    match kind {
        Kind::BigInteger => true,
        _ => false,
    }
}

/// The value of an item of the type, given as a number.
fn any_number_node(alloc: Global, kind: Kind, text: &str) -> Result<Option<Node>, OutOfMemory>
    ensures { IfOk result (λ node. (tag : ℕ) → option_map (tree_of_node tag) node ≡
        option_map (scalar tag) (any_number kind text.now)) }
{
    if is_big(kind) {
        big_number_node(alloc, text)
    } else {
        Ok(number_node(kind, text))
    }
}

fn boolean_node(number: Option<u64>) -> Option<Node>
    ensures { (tag : ℕ) → option_map (tree_of_node tag) result ≡
        option_map (scalar tag) (option_map boolean (option_and_then truth_of_long number)) }
{
    Some(Node::Boolean(truth_of_long(number?)?))
}

fn integer_node(word: Option<u32>) -> Option<Node>
    ensures { (tag : ℕ) → option_map (tree_of_node tag) result ≡
        option_map (scalar tag) (option_map (λ n. integer (cast_signed w32 n)) word) }
{
    Some(Node::Integer(word?.cast_signed()))
}

fn long_node(word: Option<u64>) -> Option<Node>
    ensures { (tag : ℕ) → option_map (tree_of_node tag) result ≡
        option_map (scalar tag) (option_map (λ n. long_integer (cast_signed w64 n)) word) }
{
    Some(Node::LongInteger(word?.cast_signed()))
}

fn big_node(bytes: Option<Vec<u8>>) -> Option<Node>
    ensures { (tag : ℕ) → option_map (tree_of_node tag) result ≡
        option_map (scalar tag) (option_map big_integer (option_map (λ b. b.items) bytes)) }
{
    Some(Node::BigInteger(Blob::of_vec(bytes?)))
}

fn enumeration_node(number: Option<u32>) -> Option<Node>
    ensures { (tag : ℕ) → option_map (tree_of_node tag) result ≡
        option_map (scalar tag) (option_map enumeration number) }
{
    Some(Node::Enumeration(number?))
}

fn bytes_node(bytes: Option<Vec<u8>>) -> Option<Node>
    ensures { (tag : ℕ) → option_map (tree_of_node tag) result ≡
        option_map (scalar tag) (option_map byte_string (option_map (λ b. b.items) bytes)) }
{
    Some(Node::ByteString(Blob::of_vec(bytes?)))
}

fn date_node(number: Option<u64>) -> Option<Node>
    ensures { (tag : ℕ) → option_map (tree_of_node tag) result ≡
        option_map (scalar tag) (option_map date_time number) }
{
    Some(Node::DateTime(number?))
}

fn interval_node(word: Option<u32>) -> Option<Node>
    ensures { (tag : ℕ) → option_map (tree_of_node tag) result ≡
        option_map (scalar tag) (option_map interval word) }
{
    Some(Node::Interval(word?))
}

/// The value of an item of the type, given as a string of its JSON; its names are looked up under the
/// tag, which is that of `place`. Integers are names of bits with `|` between two, or `0x` and eight
/// digits; the other numbers, Booleans and Date-Times are `0x` and their digits, or a name or a date;
/// a Byte String is hex digits, and a Text String any text. `None` of another text, and of a Structure.
/// It fails only where memory runs out.
pub fn string_node(
    alloc: Global,
    tag: Tag,
    kind: Kind,
    text: &str,
) -> Result<Option<Node>, OutOfMemory>
    ensures { IfOk result (λ node. (t : ℕ) → option_map (tree_of_node t) node ≡
        option_map (scalar t) (string_scalar tag kind text.now)) }
{
    match kind {
        Kind::Integer => Ok(integer_node(mask_of_text(alloc, tag, text)?)),
        Kind::LongInteger => Ok(long_node(long_in(alloc, text)?)),
        Kind::BigInteger => Ok(big_node(hex_bytes(alloc, text.as_bytes())?)),
        Kind::Enumeration => Ok(enumeration_node(enumeration_of_text(alloc, tag, text)?)),
        Kind::TextString => Ok(Some(Node::TextString(Text::of(alloc, text)?))),
        Kind::ByteString => Ok(bytes_node(spelled(alloc, text.as_bytes())?)),
        Kind::DateTime => Ok(date_node(date_of_text(alloc, text)?)),
        Kind::Interval => Ok(interval_node(word_in(alloc, text)?)),
        Kind::Boolean => Ok(boolean_node(long_in(alloc, text)?)),
        Kind::Structure => Ok(None),
    }
}

fn truth_node(kind: Kind, truth: bool) -> Option<Node>
    ensures { (tag : ℕ) →
        option_map (tree_of_node tag) result ≡ option_map (scalar tag) (truth_scalar kind truth) }
{
    match kind {
        Kind::Boolean => Some(Node::Boolean(truth)),
        _ => None,
    }
}

/// The value of an item of the type, which is no structure; its names are looked up under the tag.
fn scalar_node(
    alloc: Global,
    tag: Tag,
    kind: Kind,
    value: &Value<'_>,
) -> Result<Option<Node>, OutOfMemory>
    ensures { IfOk result (λ node. (t : ℕ) → option_map (tree_of_node t) node ≡
        option_map (scalar t) (scalar_in tag kind (value_view value.now))) }
{
    match value {
        Value::Number(text) => any_number_node(alloc, kind, text),
        Value::String(text) => string_node(alloc, tag, kind, text),
        Value::Bool(truth) => Ok(truth_node(kind, *truth)),
        _ => Ok(None),
    }
}

/// The type of this name, as `TextString` or `DateTime`; `None` of another text.
pub fn kind_named(text: &str) -> Option<Kind>
    ensures { result ≡ kind_named text.now }
{
    match text {
        "Structure" => Some(Kind::Structure),
        "Integer" => Some(Kind::Integer),
        "LongInteger" => Some(Kind::LongInteger),
        "BigInteger" => Some(Kind::BigInteger),
        "Enumeration" => Some(Kind::Enumeration),
        "Boolean" => Some(Kind::Boolean),
        "TextString" => Some(Kind::TextString),
        "ByteString" => Some(Kind::ByteString),
        "DateTime" => Some(Kind::DateTime),
        "Interval" => Some(Kind::Interval),
        _ => None,
    }
}

/// The type that the member `type` names, which is Structure where there is none.
fn kind_from(member: Option<&Value<'_>>) -> Option<Kind>
    ensures { result ≡ kind_from (option_map (λ v. value_view v.now) member.entry) }
{
    match member {
        Some(value) => kind_named(value.as_str()?),
        None => Some(Kind::Structure),
    }
}

/// The tag that the member `tag` names.
fn tag_from(alloc: Global, member: Option<&Value<'_>>) -> Result<Option<Tag>, OutOfMemory>
    ensures { IfOk result
        (λ tag. tag ≡ tag_from (option_map (λ v. value_view v.now) member.entry)) }
{
    let Some(value) = member else {
        return Ok(None);
    };
    match value.as_str() {
        Some(text) => tag_of_text(alloc, text),
        None => Ok(None),
    }
}

fn is_known(key: &str) -> bool
    ensures { result ≡ is_known key.now }
{
    key == "tag" || key == "type" || key == "value" || key == "name"
}

/// Whether each member is one of an item's.
fn are_known<'a>(members: &Vec<(&'a str, Value<'a>)>) -> bool
    ensures { result ≡ are_known (members_view members.now.items) }
{
    for member in members {
        if !is_known(member.0) {
            return false;
        }
    }
    true
}

/// The error where this was expected.
fn wants(alloc: Global, expected: Expected) -> EncodingError
    ensures { Fails {A = Tree} result (wants expected) }
{
    EncodingError::Misfit(Fault {
        place: Vec::new(alloc),
        expected,
    })
}

/// The error of the item at this index among its siblings.
fn within(error: EncodingError, index: usize) -> EncodingError
    ensures { (read : Read Tree) → Fails error read → Fails result (within index read) }
{
    match error {
        EncodingError::Misfit(mut fault) => match fault.place.push(index) {
            Ok(()) => EncodingError::Misfit(fault),
            Err(_) => EncodingError::OutOfMemory,
        },
        other => other,
    }
}

/// Whether each member of an object is one of an item's; `None` for what is no object.
fn known_members(value: &Value<'_>) -> Option<bool>
    ensures { result ≡ known_members (value_view value.now) }
{
    match value {
        Value::Object(members) => Some(are_known(members)),
        _ => None,
    }
}

/// The items of an array.
fn items_of<'v, 'a>(value: &'v Value<'a>) -> Option<&'v Vec<Value<'a>>>
    ensures { option_map (λ items. items_view items.now.items) result ≡
        as_array (value_view value.now) }
{
    match value {
        Value::Array(items) => Some(items),
        _ => None,
    }
}

/// Reads an item that is no structure.
fn read_scalar(
    alloc: Global,
    tag: Tag,
    kind: Kind,
    value: &Value<'_>,
    named: Tag,
) -> Result<Tree, EncodingError>
    ensures { Reads result
        (scalar_read tag kind (scalar_in (place named tag) kind (value_view value.now))) }
{
    match scalar_node(alloc, place(named, tag), kind, value)? {
        Some(node) => Ok(Tree { tag, node }),
        None => Err(wants(alloc, Expected::Value(kind))),
    }
}

/// Reads the value of a structure, which is no array.
fn read_empty(alloc: Global, tag: Tag, value: &Value<'_>) -> Result<Tree, EncodingError>
    ensures { Reads result (empty_read tag (is_null (value_view value.now))) }
{
    if value.is_null() {
        Ok(Tree {
            tag,
            node: Node::Structure(Trees::new(alloc)),
        })
    } else {
        Err(wants(alloc, Expected::Value(Kind::Structure)))
    }
}

#[cycle(read)]
fn read_item(
    alloc: Global,
    value: &Value<'_>,
    levels: u32,
    named: Tag,
) -> Result<Tree, EncodingError>
    ensures { Reads result (read_item levels named (value_view value.now)) }
{
    if levels == 0 {
        return Err(wants(alloc, Expected::FewerLevels));
    }
    let Some(known) = known_members(value) else {
        return Err(wants(alloc, Expected::Object));
    };
    if known {
        read_parts(alloc, value, levels - 1, named)
    } else {
        Err(wants(alloc, Expected::Members))
    }
}

/// Reads an object with no member but an item's.
#[cycle(read)]
fn read_parts(
    alloc: Global,
    value: &Value<'_>,
    levels: u32,
    named: Tag,
) -> Result<Tree, EncodingError>
    ensures { Reads result (parts_in (read_item levels) named (value_view value.now)) }
{
    let Some(tag) = tag_from(alloc, value.get("tag"))? else {
        return Err(wants(alloc, Expected::Tag));
    };
    let Some(kind) = kind_from(value.get("type")) else {
        return Err(wants(alloc, Expected::Type));
    };
    let null = Value::Null;
    match value.get("value") {
        Some(inner) => read_node(alloc, tag, kind, inner, levels, named),
        None => read_node(alloc, tag, kind, &null, levels, named),
    }
}

/// Reads the value of an item.
#[cycle(read)]
fn read_node(
    alloc: Global,
    tag: Tag,
    kind: Kind,
    value: &Value<'_>,
    levels: u32,
    named: Tag,
) -> Result<Tree, EncodingError>
    ensures { Reads result (node_read (read_item levels) named tag kind (value_view value.now)) }
{
    match kind {
        Kind::Structure => read_structure(alloc, tag, value, levels),
        _ => read_scalar(alloc, tag, kind, value, named),
    }
}

/// Reads the value of a structure, which has no items where it is null.
#[cycle(read)]
fn read_structure(
    alloc: Global,
    tag: Tag,
    value: &Value<'_>,
    levels: u32,
) -> Result<Tree, EncodingError>
    ensures { Reads result
        (node_read (read_item levels) ATTRIBUTE_VALUE tag Structure (value_view value.now)) }
{
    let Some(items) = items_of(value) else {
        return read_empty(alloc, tag, value);
    };
    let trees = read_items(alloc, items, levels)?;
    Ok(Tree {
        tag,
        node: Node::Structure(trees),
    })
}

/// Reads the items of a structure.
#[cycle(read)]
fn read_items(alloc: Global, items: &Vec<Value<'_>>, levels: u32) -> Result<Trees, EncodingError>
    ensures { ReadsItems result
        (items_by (read_item levels) 0 ATTRIBUTE_VALUE (items_view items.now.items)) }
{
    let mut trees = Trees::new(alloc);
    let mut named = unnamed();
    for index in 0..items.len() {
        match read_item(alloc, &items[index], levels, named) {
            Ok(tree) => {
                named = named_after(named, &tree);
                trees.push(tree)?;
            }
            Err(error) => return Err(within(error, index)),
        }
    }
    Ok(trees)
}

/// The tree that a value means, if any.
pub(crate) fn read_one(alloc: Global, value: &Value<'_>) -> Result<Option<Tree>, OutOfMemory> {
    match read_item(alloc, value, 64, unnamed()) {
        Ok(tree) => Ok(Some(tree)),
        Err(EncodingError::OutOfMemory) => Err(OutOfMemory),
        Err(_) => Ok(None),
    }
}

/// How many brackets are open after a token.
fn depth_after(depth: usize, token: &Token<'_>) -> usize
    requires { depth ≤ 128 }
    ensures { result ≡ depth_after depth (token_of token.now) }
{
    match token {
        Token::BeginObject | Token::BeginArray => depth + 1,
        Token::EndObject | Token::EndArray => depth.saturating_sub(1),
        _ => depth,
    }
}

/// The byte at which a text nests more than 128 deep, if it does.
#[tactic(auto, unfolding(crate::specs::Reading::is_too_deep))]
fn deep_at(alloc: Global, text: &str) -> Result<Option<usize>, OutOfMemory>
    ensures { IfOk result (λ place. is_some place ≡ is_too_deep text.now) }
{
    let mut scratch = Scratch::new(alloc);
    let mut reader = Reader::new(text, &mut scratch)?;
    let mut depth = 0usize;
    while let Some(token) = reader.next() {
        depth = depth_after(depth, &token);
        if depth > MAX_DEPTH {
            return Ok(Some(reader.offset()));
        }
    }
    Ok(None)
}

/// Where a text that is no JSON stops being one.
fn broken_at(alloc: Global, text: &str) -> Result<usize, OutOfMemory> {
    let mut scratch = Scratch::new(alloc);
    let mut reader = Reader::new(text, &mut scratch)?;
    let _read = reader.skip_value(MAX_DEPTH);
    Ok(reader.offset())
}

/// The tree of a text of JSON: an object with the members `tag`, `type` (Structure where it is left
/// out) and `value`, in any order, and maybe `name`, which is not looked at. What `to_json` writes of
/// a tree of at most 64 levels is read as that tree.
///
/// A tag may be given by name or as `0x` and six digits, and a number by any of these:
///
/// - an Integer, a Long Integer, a Big Integer and an Interval as a number nearer to 0 than 2^53, or
///   as `0x` and digits: 8 of an Integer or an Interval, 16 of a Long Integer, any of a Big Integer;
/// - a mask also by the names of its bits with `|` between two, as `Encrypt|Decrypt`;
/// - an enumeration's number also by its name, as `SHA_256` or `SHA256`;
/// - a Boolean also as `0x` and 16 digits;
/// - a Date-Time as a date with its offset from UTC, as `2001-01-01T12:00:00+02:00`, or as `0x` and
///   16 digits.
///
/// Digits may be of either case. A Structure has no items where its `value` is null or left out.
///
/// `NotJson` has the byte at which reading stopped, `TooDeep` the one at which more than 128 brackets
/// are open, and `Misfit` the place of the item that is none with what was expected there;
/// `refusal_of` says each of them to a person. At most 64 levels are read.
pub fn from_json(alloc: Global, text: &str) -> Result<Tree, EncodingError>
    ensures { ReadsText result text.now }
{
    let mut scratch = Scratch::new(alloc);
    match Value::parse_strict(alloc, text, &mut scratch) {
        Ok(value) => read_item(alloc, &value, 64, unnamed()),
        Err(Error::Invalid) => match deep_at(alloc, text)? {
            Some(place) => Err(EncodingError::TooDeep(place)),
            None => Err(EncodingError::NotJson(broken_at(alloc, text)?)),
        },
        Err(Error::DuplicateKey) => Err(EncodingError::RepeatedName),
        Err(_) => Err(EncodingError::OutOfMemory),
    }
}
