//! Reads bytes into a tree that owns its parts.
ghost use Rattle.std.specs.Prelude.{◌≡◌, ◌≤◌, ℕ, IsTrue, IfOk, IfSome, MatchOption, Some};
ghost use Rattle.std.specs.Prelude.{option_map, length, take, drop};
ghost use Rattle.std.specs.Option.{is_some};
ghost use Rattle.kmip_wire.specs.Sees.{tree_of_node};
ghost use Rattle.kmip_wire.specs.Tree.{scalar};
ghost use Rattle.kmip_wire.specs.Reading.{scalar_at, front_at};
ghost use Rattle.kmip_wire.specs.Head.{size_at};
ghost use Rattle.kmip_wire.specs.Parses.{IsLevel, NoFront, Parses};
ghost use Rattle.kmip_wire.specs.Items.{item_tree, trees_left};
ghost use Rattle.kmip_wire.specs.Found.{Finds};
ghost use Rattle.kmip_wire.specs.Bytes.{HasRanges};

use crate::error::WireError;
use crate::front::front_len_at;
use crate::item::{Children, ItemRef};
use crate::kind::Kind;
use crate::memory::OutOfMemory;
use crate::text::{Blob, Text};
use crate::tree::{Node, Tree, Trees};
use crate::value::{number4, number8};
use std::alloc::Global;
use std::str;

/// The scalar of the type that the bytes of a value stand for.
fn read_scalar(alloc: Global, kind: Kind, value: &[u8]) -> Result<Node, OutOfMemory>
    requires { IsTrue (is_some (scalar_at kind value.now)) }
    ensures { IfOk result (λ node. option_map (scalar 0) (scalar_at kind value.now) ≡
        Some (tree_of_node 0 node)) }
{
    match kind {
        Kind::Structure => unreachable!(),
        Kind::Integer => Ok(Node::Integer(number4(value).cast_signed())),
        Kind::LongInteger => Ok(Node::LongInteger(number8(value).cast_signed())),
        Kind::BigInteger => Ok(Node::BigInteger(Blob::of(alloc, value)?)),
        Kind::Enumeration => Ok(Node::Enumeration(number4(value))),
        Kind::Boolean => Ok(Node::Boolean(number8(value) == 1)),
        Kind::TextString => match str::from_utf8(value) {
            Ok(text) => Ok(Node::TextString(Text::of(alloc, text)?)),
            Err(_) => unreachable!(),
        },
        Kind::ByteString => Ok(Node::ByteString(Blob::of(alloc, value)?)),
        Kind::DateTime => Ok(Node::DateTime(number8(value))),
        Kind::Interval => Ok(Node::Interval(number4(value))),
    }
}

#[cycle(read)]
fn read_item(alloc: Global, item: ItemRef<'_>) -> Result<Tree, OutOfMemory>
    ensures { IfOk result (λ tree. tree ≡ item_tree item.entry) }
{
    let tag = item.tag();
    match item.children() {
        Some(children) => Ok(Tree {
            tag,
            node: Node::Structure(read_items(alloc, children)?),
        }),
        None => Ok(Tree {
            tag,
            node: read_scalar(alloc, item.kind(), item.value())?,
        }),
    }
}

#[cycle(read)]
fn read_items(alloc: Global, children: Children<'_>) -> Result<Trees, OutOfMemory>
    ensures { IfOk result (λ items. items ≡ trees_left children.entry) }
{
    let mut items = Trees::new(alloc);
    for child in children {
        items.push(read_item(alloc, child)?)?;
    }
    Ok(items)
}

/// The item at the front that parses at the level, from 1 to 64, and the bytes after it. `None`
/// exactly where no front parses at the level. It takes no memory.
pub fn split_front(bytes: &[u8], level: u32) -> Option<(ItemRef<'_>, &[u8])>
    requires { IsLevel level }
    ensures tree { option_map (λ p. item_tree p.0) result ≡ front_at level bytes.now }
    ensures rest { IfSome result (λ p. p.1.now ≡ drop (size_at bytes.now) bytes.now) }
    ensures parses { MatchOption result (NoFront level bytes.now) (λ p. (n : ℕ) ×
        (n ≤ length bytes.now) × Parses (item_tree p.0) level (take n bytes.now) ×
        (p.1.now ≡ drop n bytes.now)) }
{
    ItemRef::front(bytes, level)
}

/// The tree of the well-formed item at the front, and how many bytes the item has. Bytes after it
/// are not read.
///
/// `Malformed` is returned exactly where no front is a well-formed item. `NoForm` is never
/// returned.
pub fn read_tree(alloc: Global, bytes: &[u8]) -> Result<(Tree, usize), WireError>
    ensures found { Finds result bytes.now }
    ensures ranges { IfOk result (λ x. HasRanges x.0) }
{
    let Some(size) = front_len_at(bytes, 1) else {
        return Err(WireError::Malformed);
    };
    match ItemRef::root(&bytes[..size]) {
        None => Err(WireError::Malformed),
        Some(item) => match read_item(alloc, item) {
            Ok(tree) => Ok((tree, size)),
            Err(_) => Err(WireError::OutOfMemory),
        },
    }
}
