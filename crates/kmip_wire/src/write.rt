//! Writes the canonical bytes of a tree into one buffer, whose size is computed first.
ghost use Rattle.std.specs.Prelude.{◌≡◌, ◌^◌, length, nat_lt, Option, Some, None, if◌then◌else◌};
ghost use Rattle.std.specs.Prelude.{option_map};
ghost use Rattle.kmip_wire.specs.Sees.{tree_of_node};
ghost use Rattle.kmip_wire.specs.Tree.{structure, trees_of};
ghost use Rattle.kmip_wire.specs.Bytes.{bytes, all_bytes};
ghost use Rattle.kmip_wire.specs.Contents.{fitting, value_of_tree};
ghost use Rattle.kmip_wire.specs.Room.{HasRoom, Puts};
ghost use Rattle.kmip_wire.specs.Found.{GivesBytes};

use crate::buffer::Buffer;
use crate::error::WireError;
use crate::kind::Kind;
use crate::tag::Tag;
use crate::text::Blob;
use crate::tree::{Node, Tree};
use std::alloc::Global;

/// The length, if it fits the four bytes of its field.
fn field_len(len: usize) -> Option<u64>
    ensures { result ≡ (if nat_lt len (2 ^ 32) then Some len else None) }
{
    if len < 1 << 32 {
        Some(len as u64)
    } else {
        None
    }
}

/// The number of the tree's canonical bytes, if it has any.
#[cycle(length)]
fn tree_len(tree: &Tree) -> Option<u64>
    ensures { result ≡ option_map length (bytes tree.now) }
{
    let Some(len) = value_len(&tree.node) else {
        return None;
    };
    Some(8 + len + (8 - len % 8) % 8)
}

/// The length of an item's value, if the value has canonical bytes.
#[cycle(length)]
fn value_len(node: &Node) -> Option<u64>
    ensures { result ≡ option_map length (value_of_tree (tree_of_node 0 node.now)) }
{
    match node {
        Node::Structure(items) => contents_len(items.as_slice()),
        Node::Integer(_) | Node::Enumeration(_) | Node::Interval(_) => Some(4),
        Node::LongInteger(_) | Node::Boolean(_) | Node::DateTime(_) => Some(8),
        Node::BigInteger(bytes) if bytes.len() % 8 != 0 => None,
        Node::BigInteger(bytes) | Node::ByteString(bytes) => field_len(bytes.len()),
        Node::TextString(text) => field_len(text.as_str().len()),
    }
}

/// The number of the items' canonical bytes together, if each item has some and the number fits the
/// field of a length.
#[cycle(length)]
fn contents_len(items: &[Tree]) -> Option<u64>
    ensures { result ≡ option_map length (fitting (all_bytes (trees_of items.now))) }
{
    let mut total = 0;
    for item in items {
        let Some(len) = tree_len(item) else {
            return None;
        };
        total += len;
        if total >= 1 << 32 {
            return None;
        }
    }
    Some(total)
}

/// Appends the tree's canonical bytes, for which there is room.
#[cycle(write)]
fn put_tree(tree: &Tree, out: &mut Buffer)
    requires { HasRoom (bytes tree.now) out.old.spare }
    ensures { Puts (bytes tree.now) out.old out.new }
{
    let tag = tree.tag;
    match &tree.node {
        Node::Structure(items) => put_structure(tag, items.as_slice(), out),
        Node::Integer(number) => out.put_four(tag, Kind::Integer, number.cast_unsigned()),
        Node::LongInteger(number) => out.put_eight(tag, Kind::LongInteger, number.cast_unsigned()),
        Node::BigInteger(bytes) => out.put_item(tag, Kind::BigInteger, bytes.as_slice()),
        Node::Enumeration(number) => out.put_four(tag, Kind::Enumeration, *number),
        Node::Boolean(truth) => out.put_eight(tag, Kind::Boolean, *truth as u64),
        Node::TextString(text) => out.put_item(tag, Kind::TextString, text.as_str().as_bytes()),
        Node::ByteString(bytes) => out.put_item(tag, Kind::ByteString, bytes.as_slice()),
        Node::DateTime(seconds) => out.put_eight(tag, Kind::DateTime, *seconds),
        Node::Interval(seconds) => out.put_four(tag, Kind::Interval, *seconds),
    }
}

/// Appends a structure of the items.
#[cycle(write)]
fn put_structure(tag: Tag, items: &[Tree], out: &mut Buffer)
    requires { HasRoom (bytes (structure tag (trees_of items.now))) out.old.spare }
    ensures { Puts (bytes (structure tag (trees_of items.now))) out.old out.new }
{
    let start = out.len();
    out.put_head(tag, Kind::Structure, 0);
    for item in items {
        put_tree(item, out);
    }
    let len = out.len() - start - 8;
    out.set_length(start, len as u32);
}

/// The canonical bytes of the tree.
///
/// `NoForm` is returned exactly where there are none: the length of an item reaches 2^32, or that
/// of a Big Integer is no multiple of 8. `Malformed` is never returned.
pub fn write_tree(alloc: Global, tree: &Tree) -> Result<Blob, WireError>
    ensures { GivesBytes result (bytes tree.now) }
{
    let Some(len) = tree_len(tree) else {
        return Err(WireError::NoForm);
    };
    let mut out = Buffer::new(alloc);
    out.reserve(len as usize)?;
    put_tree(tree, &mut out);
    Ok(out.into_blob())
}
