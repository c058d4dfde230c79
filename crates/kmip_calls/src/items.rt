//! The item at a path of tags, in an answer that is an item of KMIP's JSON.
ghost use Rattle.std.specs.Prelude.{◌≡◌, ◌≤◌, false, IfOk, length, map, option_map};
ghost use Rattle.json.specs.Value.{items_view, value_view};
ghost use Rattle.kmip_words.specs.Lookup.{bytes_in};
ghost use Rattle.kmip_calls.specs.Values.{has_text, item_among, item_in, index_first, item_at};
ghost use Rattle.kmip_calls.specs.Values.{has_digits, digits_in, spelled, spelled_in, bytes_of_item};

use hex::FromHexError;
use json::Value;
use kmip_request_words::number_of;
use kmip_wire::OutOfMemory;
use std::alloc::Global;

/// Whether a member of an object is this text.
fn has_text(value: &Value, name: &str, text: &str) -> bool
    ensures { result ≡ has_text name.now text.now (value_view value.now) }
{
    match value.get(name) {
        Some(Value::String(found)) => *found == text,
        _ => false,
    }
}

/// Among items the one with this tag, after so many others with it.
fn item_among<'v, 'a>(items: &'v [Value<'a>], tag: &str, index: u32) -> Option<&'v Value<'a>>
    ensures { option_map (λ item. value_view item.now) result ≡
        item_among tag.now index (items_view items.now) }
{
    let mut left = index;
    for item in items {
        if !has_text(item, "tag", tag) {
            continue;
        }
        if left == 0 {
            return Some(item);
        }
        left -= 1;
    }
    None
}

/// The item with this tag below a structure, after so many others with it.
fn item_in<'v, 'a>(item: &'v Value<'a>, tag: &str, index: u32) -> Option<&'v Value<'a>>
    ensures { option_map (λ item. value_view item.now) result ≡
        item_in tag.now index (value_view item.now) }
{
    match item.get("value") {
        Some(Value::Array(items)) => item_among(items, tag, index),
        _ => None,
    }
}

/// The number in front of names, and the names behind; 0 and all where none stands there.
fn index_first<'p>(names: &'p [&'p str]) -> (u32, &'p [&'p str])
    ensures index { result.0 ≡ (index_first (map (λ name. name.now) names.now)).0 }
    ensures behind { map (λ name. name.now) result.1.now ≡
        (index_first (map (λ name. name.now) names.now)).1 }
    ensures shorter { length result.1.now ≤ length names.now }
{
    match names {
        [] => (0, names),
        [next, behind @ ..] => match number_of(next) {
            Some(index) => (index, behind),
            None => (0, names),
        },
    }
}

/// The item at a path of tags below an item, from the outer to the inner, where a number after a
/// tag says how many items with it stand before, and no number none.
pub fn item_at<'v, 'a>(item: &'v Value<'a>, path: &[&str]) -> Option<&'v Value<'a>>
    ensures { option_map (λ item. value_view item.now) result ≡
        item_at (map (λ name. name.now) path.now) (value_view item.now) }
{
    let [tag, rest @ ..] = path else {
        return Some(item);
    };
    let (index, names) = index_first(rest);
    item_at(item_in(item, tag, index)?, names)
}

/// Whether the value of an item is written in hex digits: that of a Byte String or a Big Integer.
fn has_digits(item: &Value) -> bool
    ensures { result ≡ has_digits (value_view item.now) }
{
    has_text(item, "type", "ByteString") || has_text(item, "type", "BigInteger")
}

/// Hex digits, without a `0x` before them.
fn digits_in(text: &str) -> &str
    ensures { result.now ≡ digits_in text.now }
{
    match text.strip_prefix("0x") {
        Some(digits) => digits,
        None => text,
    }
}

/// The bytes that hex digits spell, with `0x` before them or not; `None` where they spell none.
fn spelled(alloc: Global, text: &str) -> Result<Option<Vec<u8>>, OutOfMemory>
    ensures { IfOk result (λ bytes. option_map (λ b. b.items) bytes ≡ spelled text.now) }
{
    match hex::decode(alloc, digits_in(text)) {
        Ok(bytes) => Ok(Some(bytes)),
        Err(FromHexError::OutOfMemory) => Err(OutOfMemory),
        Err(_) => Ok(None),
    }
}

/// A copy of these bytes.
fn copy(alloc: Global, bytes: &[u8]) -> Result<Option<Vec<u8>>, OutOfMemory>
    ensures { IfOk result (λ copy. option_map (λ c. c.items) copy ≡ Some bytes.now) }
{
    let mut copy = Vec::new(alloc);
    copy.extend_from_slice(bytes)?;
    Ok(Some(copy))
}

/// The bytes that a value is returned as where it is no structure.
fn shown(alloc: Global, value: &Value) -> Result<Option<Vec<u8>>, OutOfMemory>
    ensures { IfOk result
        (λ bytes. option_map (λ b. b.items) bytes ≡ bytes_in false (value_view value.now)) }
{
    match value {
        Value::String(text) => copy(alloc, text.as_bytes()),
        Value::Number(digits) => copy(alloc, digits.as_bytes()),
        Value::Bool(true) => copy(alloc, b"true"),
        Value::Bool(false) => copy(alloc, b"false"),
        _ => Ok(None),
    }
}

/// The bytes that a string of hex digits stands for.
fn spelled_in(alloc: Global, value: Option<&Value>) -> Result<Option<Vec<u8>>, OutOfMemory>
    ensures { IfOk result (λ bytes. option_map (λ b. b.items) bytes ≡
        spelled_in (option_map (λ value. value_view value.now) value.entry)) }
{
    match value {
        Some(Value::String(text)) => spelled(alloc, text),
        _ => Ok(None),
    }
}

/// The bytes that the value of an item is returned as.
pub fn bytes_of_item(alloc: Global, hex: bool, item: &Value) -> Result<Option<Vec<u8>>, OutOfMemory>
    ensures { IfOk result
        (λ bytes. option_map (λ b. b.items) bytes ≡ bytes_of_item hex (value_view item.now)) }
{
    if !hex {
        return match item.get("value") {
            Some(value) => shown(alloc, value),
            None => Ok(None),
        };
    }
    if !has_digits(item) {
        return Ok(None);
    }
    spelled_in(alloc, item.get("value"))
}
