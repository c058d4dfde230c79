//! The value at a path in the line of an answer.
ghost use Rattle.std.specs.Prelude.{◌≡◌, IfOk, option_map};
ghost use Rattle.json.specs.Value.{value_view};
ghost use Rattle.kmip_calls.specs.Values.{is_item, value_below, value_in};

use crate::items::{bytes_of_item, item_at};
use json::{Error, Scratch, Value};
use kmip_request_words::parts_between;
use kmip_wire::OutOfMemory;
use kmip_words::value_at;
use std::alloc::Global;

/// Whether a value is an item, an object with the member `tag`.
fn is_item(value: &Value) -> bool
    ensures { result ≡ is_item (value_view value.now) }
{
    value.get("tag").is_some()
}

/// The value at a path of tags below an item.
fn value_below(
    alloc: Global,
    path: &str,
    hex: bool,
    item: &Value,
) -> Result<Option<Vec<u8>>, OutOfMemory>
    ensures { IfOk result (λ value. option_map (λ v. v.items) value ≡
        value_below path.now hex (value_view item.now)) }
{
    let tags = parts_between(alloc, '.', path)?;
    match item_at(item, &tags) {
        Some(item) => bytes_of_item(alloc, hex, item),
        None => Ok(None),
    }
}

#[tactic(auto, unfolding(crate::specs::Values::value_in))]
/// The value at a path in the line of an answer, below its member `answer`. `None` where there is no
/// such value: nothing at the path, an object, a list or a structure, no hex digits where `hex` asks
/// for them, or a line with an error.
///
/// Where the answer is a payload as an object, the path has the names of its members and the indexes
/// of the items in its lists, counted from 0, with a dot between two, as kmip_words' `value_at` reads
/// one: `attributes.0.name`. Where the answer is an item of KMIP's JSON, an object with the member
/// `tag`, it has the tags of the items below, and behind a tag how many items with it stand before:
/// `Attribute.1.AttributeName`, where no number is 0.
///
/// A text is returned as its bytes, a number as its digits, and the rest as `true` or `false`. Where
/// `hex` is true, the bytes are returned that a string of hex digits stands for; in an item that of a
/// Byte String or a Big Integer, whose `0x` is left out.
pub fn value_in(
    alloc: Global,
    path: &str,
    hex: bool,
    line: &str,
) -> Result<Option<Vec<u8>>, OutOfMemory>
    ensures { IfOk result
        (λ value. option_map (λ v. v.items) value ≡ value_in path.now hex line.now) }
{
    let mut scratch = Scratch::new(alloc);
    let root = match Value::parse(alloc, line, &mut scratch) {
        Ok(root) => root,
        Err(Error::Invalid) => return Ok(None),
        Err(_) => return Err(OutOfMemory),
    };
    let Some(answer) = root.get("answer") else {
        return value_at(alloc, path, hex, line);
    };
    if is_item(answer) {
        return value_below(alloc, path, hex, answer);
    }
    value_at(alloc, path, hex, line)
}
