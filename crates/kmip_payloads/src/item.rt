//! An item, which lends its bytes.
ghost use Rattle.std.specs.Prelude.{◌≡◌, ℕ, IfOk};
ghost use Rattle.kmip_wire.specs.Tree.{scalar};
ghost use Rattle.kmip_wire.specs.Parts.{tag_of};
ghost use Rattle.kmip_wire.specs.Sees.{tree_of_node};
ghost use Rattle.kmip_payloads.specs.Items.{scalar_view, value_tree, item_at, item_view};

use kmip_wire::{Blob, Node, OutOfMemory, Tag, Text, Tree, Trees, TryClone};
use std::alloc::Global;

/// How many tags there are.
const TAGS: u32 = 0x100_0000;

/// A value that is no structure, by its type: what [`Node`] owns, it lends.
#[derive(Clone, Copy, Drop)]
pub enum Scalar<'a> {
    /// A signed number of 32 bits.
    Integer(i32),
    /// A signed number of 64 bits.
    LongInteger(i64),
    /// The bytes of the number. It has a wire form where there are a multiple of 8 of them.
    BigInteger(&'a [u8]),
    /// A number of an enumeration.
    Enumeration(u32),
    /// A truth value.
    Boolean(bool),
    /// A text.
    TextString(&'a str),
    /// Bytes.
    ByteString(&'a [u8]),
    /// The eight bytes of the signed seconds since 1970, as an unsigned number.
    DateTime(u64),
    /// Seconds.
    Interval(u32),
}

/// The value of an item.
#[derive(Clone, Copy, Drop)]
pub enum Value<'a> {
    /// A value that is no structure.
    Scalar(Scalar<'a>),
    /// The items of a structure, in order.
    Structure(&'a Trees),
}

/// An item, and where it stands in a payload.
#[derive(Clone, Copy, Drop)]
pub struct Item<'a> {
    /// The tags of the structures round it, from outside in: none for a field of the payload.
    pub path: &'a [u32],
    /// Its tag, a number below 2^24: of a greater one the last three bytes, which is all that the
    /// wire has.
    pub tag: u32,
    /// Its value.
    pub value: Value<'a>,
}

/// The value of a tree, which lends its parts.
fn value_of(node: &Node) -> Value<'_>
    ensures { (tag : ℕ) → value_tree tag result ≡ tree_of_node tag node.now }
{
    match node {
        Node::Structure(items) => Value::Structure(items),
        Node::Integer(number) => Value::Scalar(Scalar::Integer(*number)),
        Node::LongInteger(number) => Value::Scalar(Scalar::LongInteger(*number)),
        Node::BigInteger(bytes) => Value::Scalar(Scalar::BigInteger(bytes.as_slice())),
        Node::Enumeration(number) => Value::Scalar(Scalar::Enumeration(*number)),
        Node::Boolean(truth) => Value::Scalar(Scalar::Boolean(*truth)),
        Node::TextString(text) => Value::Scalar(Scalar::TextString(text.as_str())),
        Node::ByteString(bytes) => Value::Scalar(Scalar::ByteString(bytes.as_slice())),
        Node::DateTime(seconds) => Value::Scalar(Scalar::DateTime(*seconds)),
        Node::Interval(seconds) => Value::Scalar(Scalar::Interval(*seconds)),
    }
}

#[tactic(auto, using(crate::proofs::Views::three_bytes))]
impl<'a> Item<'a> {
    /// A whole tree as an item, as one of several Attributes.
    pub fn of_tree(path: &'a [u32], tree: &'a Tree) -> Item<'a>
        ensures { item_view result ≡ item_at path.now tree.now }
    {
        Item {
            path,
            tag: tree.tag.number(),
            value: value_of(&tree.node),
        }
    }
}

/// The node of a value: the one copy of its bytes.
fn scalar_node(alloc: Global, value: Scalar<'_>) -> Result<Node, OutOfMemory>
    ensures { IfOk result (λ node. (tag : ℕ) →
        tree_of_node tag node ≡ scalar tag (scalar_view value.entry)) }
{
    match value {
        Scalar::Integer(number) => Ok(Node::Integer(number)),
        Scalar::LongInteger(number) => Ok(Node::LongInteger(number)),
        Scalar::BigInteger(bytes) => Ok(Node::BigInteger(Blob::of(alloc, bytes)?)),
        Scalar::Enumeration(number) => Ok(Node::Enumeration(number)),
        Scalar::Boolean(truth) => Ok(Node::Boolean(truth)),
        Scalar::TextString(text) => Ok(Node::TextString(Text::of(alloc, text)?)),
        Scalar::ByteString(bytes) => Ok(Node::ByteString(Blob::of(alloc, bytes)?)),
        Scalar::DateTime(seconds) => Ok(Node::DateTime(seconds)),
        Scalar::Interval(seconds) => Ok(Node::Interval(seconds)),
    }
}

/// The node of a value.
fn node_of(alloc: Global, value: Value<'_>) -> Result<Node, OutOfMemory>
    ensures { IfOk result (λ node. (tag : ℕ) →
        tree_of_node tag node ≡ value_tree tag value.entry) }
{
    match value {
        Value::Scalar(scalar) => scalar_node(alloc, scalar),
        Value::Structure(items) => Ok(Node::Structure(items.try_clone(alloc)?)),
    }
}

/// The tag of an item.
#[tactic(auto, using(crate::proofs::Views::tag_of_value))]
pub(crate) fn tag_of(item: &Item<'_>) -> Tag
    ensures { result ≡ tag_of (item_view item.now).tree }
{
    Tag::of(item.tag % TAGS)
}

/// The tree of an item.
pub(crate) fn tree_of(alloc: Global, item: &Item<'_>) -> Result<Tree, OutOfMemory>
    ensures { IfOk result (λ tree. tree ≡ (item_view item.now).tree) }
{
    let node = node_of(alloc, item.value)?;
    Ok(Tree {
        tag: Tag::of(item.tag % TAGS),
        node,
    })
}
