//! The value of an item that is no structure.
ghost use Rattle.std.specs.Prelude.{◌≡◌, ◌==◌, ℕ, IfOk, option_map, bytes_eq};
ghost use Rattle.std.specs.Fmt.{signed_decimal};
ghost use Rattle.kmip_wire.specs.Sees.{tree_of_node};
ghost use Rattle.kmip_wire.specs.Tree.{scalar, integer, long_integer, big_integer, boolean};
ghost use Rattle.std.specs.List.{slice_split};
ghost use Rattle.std.specs.Result.{result_ok};
ghost use Rattle.std.specs.Int.{w32, cast_signed};
ghost use Rattle.hex.specs.Hex.{decode_of};
ghost use Rattle.kmip_encodings.specs.Reading.{bits_of_parts};
ghost use Rattle.kmip_xml.specs.Scalars.{long_number, truth, own_scalar, scalar_of};

use itoa::Buffer;
use kmip_encodings::{bits_of_parts, number_node, parts_between, spelled, string_node};
use kmip_wire::{Blob, Kind, Node, OutOfMemory, Tag};
use std::alloc::Global;

fn is_printed(number: i64, text: &str) -> bool
    ensures { result ≡ bytes_eq (signed_decimal number) text.now }
{
    Buffer::new().format(number) == text
}

/// The number of 64 bits whose decimal form is this text.
fn long_number(text: &str) -> Option<i64>
    ensures { result ≡ long_number text.now }
{
    let Ok(number) = text.parse::<i64>() else {
        return None;
    };
    if is_printed(number, text) {
        Some(number)
    } else {
        None
    }
}

fn truth(text: &str) -> Option<bool>
    ensures { result ≡ truth text.now }
{
    match text {
        "true" => Some(true),
        "false" => Some(false),
        _ => None,
    }
}

/// A mask, given by names of its bits with a space between two.
fn mask_node(alloc: Global, tag: Tag, text: &str) -> Result<Option<Node>, OutOfMemory>
    ensures { IfOk result (λ node. (t : ℕ) → option_map (tree_of_node t) node ≡
        option_map (scalar t) (option_map (λ n. integer (cast_signed w32 n))
        (bits_of_parts tag (slice_split (λ c. c == 32) text.now)))) }
{
    let parts = parts_between(alloc, ' ', text)?;
    match bits_of_parts(alloc, tag, &parts)? {
        Some(bits) => Ok(Some(Node::Integer(bits.cast_signed()))),
        None => Ok(None),
    }
}

fn long_node(number: Option<i64>) -> Option<Node>
    ensures { (t : ℕ) → option_map (tree_of_node t) result ≡
        option_map (scalar t) (option_map long_integer number) }
{
    Some(Node::LongInteger(number?))
}

fn big_node(alloc: Global, text: &str) -> Result<Option<Node>, OutOfMemory>
    ensures { IfOk result (λ node. (t : ℕ) → option_map (tree_of_node t) node ≡
        option_map (scalar t) (option_map big_integer (result_ok (decode_of text.now)))) }
{
    match spelled(alloc, text.as_bytes())? {
        Some(bytes) => Ok(Some(Node::BigInteger(Blob::of_vec(bytes)))),
        None => Ok(None),
    }
}

fn truth_node(truth: Option<bool>) -> Option<Node>
    ensures { (t : ℕ) → option_map (tree_of_node t) result ≡
        option_map (scalar t) (option_map boolean truth) }
{
    Some(Node::Boolean(truth?))
}

/// What XML has and JSON has not.
fn own_node(alloc: Global, tag: Tag, kind: Kind, text: &str) -> Result<Option<Node>, OutOfMemory>
    ensures { IfOk result (λ node. (t : ℕ) → option_map (tree_of_node t) node ≡
        option_map (scalar t) (own_scalar tag kind text.now)) }
{
    match kind {
        Kind::Integer => mask_node(alloc, tag, text),
        Kind::LongInteger => Ok(long_node(long_number(text))),
        Kind::BigInteger => big_node(alloc, text),
        Kind::Boolean => Ok(truth_node(truth(text))),
        _ => Ok(None),
    }
}

/// The value of an item of the type; its names are looked up under the tag.
#[tactic(auto, unfolding(crate::specs::Scalars::scalar_of))]
pub(crate) fn scalar_node(
    alloc: Global,
    tag: Tag,
    kind: Kind,
    text: &str,
) -> Result<Option<Node>, OutOfMemory>
    ensures { IfOk result (λ node. (t : ℕ) → option_map (tree_of_node t) node ≡
        option_map (scalar t) (scalar_of tag kind text.now)) }
{
    if let Some(node) = number_node(kind, text) {
        return Ok(Some(node));
    }
    if let Some(node) = own_node(alloc, tag, kind, text)? {
        return Ok(Some(node));
    }
    string_node(alloc, tag, kind, text)
}
