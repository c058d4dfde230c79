//! The value that stands at a path of names in an answer's line of JSON.
ghost use Rattle.std.specs.Prelude.{◌≡◌, ◌∷◌, map, option_map, Some, IfOk};
ghost use Rattle.std.specs.Result.{result_ok};
ghost use Rattle.hex.specs.Hex.{decode_of};
ghost use Rattle.json.specs.Json.{document};
ghost use Rattle.json.specs.Value.{value_view};
ghost use Rattle.kmip_words.specs.Lookup.{part_named, part_at, bytes_in, value_at};

use hex::FromHexError;
use json::{Error, Scratch, Value};
use kmip_request_words::{number_of, parts_between};
use kmip_wire::OutOfMemory;
use std::alloc::Global;

/// The member of an object with this name, or the item of an array with this index, in decimal
/// digits and counted from 0.
fn part_named<'v, 'a>(value: &'v Value<'a>, name: &str) -> Option<&'v Value<'a>>
    ensures { option_map (λ part. value_view part.now) result ≡
        part_named name.now (value_view value.now) }
{
    match value {
        Value::Object(_) => value.get(name),
        Value::Array(_) => value.at(number_of(name)? as usize),
        _ => None,
    }
}

/// The part that these names lead to, from the outer to the inner.
fn part_at<'v, 'a>(value: &'v Value<'a>, names: &[&str]) -> Option<&'v Value<'a>>
    ensures { option_map (λ part. value_view part.now) result ≡
        part_at (map (λ name. name.now) names.now) (value_view value.now) }
{
    match names {
        [] => Some(value),
        [first, rest @ ..] => part_at(part_named(value, first)?, rest),
    }
}

/// A copy of these bytes.
fn copy(alloc: Global, bytes: &[u8]) -> Result<Option<Vec<u8>>, OutOfMemory>
    ensures { IfOk result (λ copy. option_map (λ c. c.items) copy ≡ Some bytes.now) }
{
    let mut copy = Vec::new(alloc);
    copy.extend_from_slice(bytes)?;
    Ok(Some(copy))
}

/// The bytes that a text spells in hex; `None` where it spells none.
fn spelled(alloc: Global, text: &str) -> Result<Option<Vec<u8>>, OutOfMemory>
    ensures { IfOk result (λ bytes. option_map (λ b. b.items) bytes ≡ result_ok (decode_of text.now)) }
{
    match hex::decode(alloc, text) {
        Ok(bytes) => Ok(Some(bytes)),
        Err(FromHexError::OutOfMemory) => Err(OutOfMemory),
        Err(_) => Ok(None),
    }
}

/// The bytes that a value is returned as.
fn bytes_in(alloc: Global, hex: bool, value: &Value) -> Result<Option<Vec<u8>>, OutOfMemory>
    ensures { IfOk result
        (λ bytes. option_map (λ b. b.items) bytes ≡ bytes_in hex (value_view value.now)) }
{
    match (value, hex) {
        (Value::String(text), true) => spelled(alloc, text),
        (Value::String(text), false) => copy(alloc, text.as_bytes()),
        (Value::Number(digits), false) => copy(alloc, digits.as_bytes()),
        (Value::Bool(true), false) => copy(alloc, b"true"),
        (Value::Bool(false), false) => copy(alloc, b"false"),
        _ => Ok(None),
    }
}

/// The value at a path of names below the member `answer` of a line of JSON.
///
/// The path has a dot between two names, and the index of an item in a list in decimal digits, as
/// `attributes.0.name`. A string is returned as its bytes, unescaped, a number as its digits, and
/// the rest as `true` or `false`. Where `hex` is true, a string is returned as the bytes that it
/// spells in hex. `None` where there is no such value: no such member or item, an object or a list,
/// a string that is no hex, or a line with an error.
pub fn value_at(
    alloc: Global,
    path: &str,
    hex: bool,
    line: &str,
) -> Result<Option<Vec<u8>>, OutOfMemory>
    ensures { IfOk result
        (λ value. option_map (λ v. v.items) value ≡ value_at path.now hex line.now) }
{
    let names = parts_between(alloc, '.', path)?;
    let mut scratch = Scratch::new(alloc);
    let root = match Value::parse(alloc, line, &mut scratch) {
        Ok(root) => root,
        Err(Error::Invalid) => return Ok(None),
        Err(_) => return Err(OutOfMemory),
    };
    let Some(answer) = part_named(&root, "answer") else {
        return Ok(None);
    };
    match part_at(answer, &names) {
        Some(value) => bytes_in(alloc, hex, value),
        None => Ok(None),
    }
}
