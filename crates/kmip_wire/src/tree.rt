//! An item that owns its parts. To contracts it is a tree of tags and values.
ghost use Rattle.kmip_wire.specs.Sees.{tree_of_node};
ghost use Rattle.kmip_wire.specs.Same.{same_tree, same_trees};
ghost use Rattle.kmip_wire.specs.Tree.{trees_of};
ghost use Rattle.kmip_wire.specs.Bytes.{AreBytes, HasRanges, HaveRanges};
ghost use Rattle.std.specs.Prelude.{◌≡◌, ℕ, ◌<◌, ◌^◌, List, [], ◌∷◌, ◌++◌, length, MatchOption};
ghost use Rattle.std.specs.Prelude.{IfOk, ◌≤◌, is_ok, if◌then◌else◌, option_copied, slice_get};

use crate::memory::{OutOfMemory, TryClone};
use crate::tag::Tag;
use crate::text::{Blob, Text};
use std::alloc::Global;
use std::marker::Model;

/// An item with its value or its children.
#[cycle(tree)]
#[derive(Drop)]
pub struct Tree {
    /// The tag.
    pub tag: Tag,
    /// The type, with the value or the children.
    pub node: Node,
}

/// The value or the children of an item, by its type.
#[cycle(tree)]
#[derive(Drop)]
pub enum Node {
    /// The children in order.
    Structure(Trees),
    /// A signed number of 32 bits.
    Integer(i32),
    /// A signed number of 64 bits.
    LongInteger(i64),
    /// The bytes of the number. It has a wire form where there are a multiple of 8 of them.
    BigInteger(Blob),
    /// A number of an enumeration.
    Enumeration(u32),
    /// A truth value.
    Boolean(bool),
    /// A text in UTF-8.
    TextString(Text),
    /// Bytes.
    ByteString(Blob),
    /// The eight bytes of the signed seconds since 1970, as an unsigned number.
    DateTime(u64),
    /// Seconds.
    Interval(u32),
}

/// A list of items.
#[cycle(tree)]
#[derive(Drop)]
pub struct Trees {
    items: Vec<Tree>,
}

impl Model for Tree {
    ghost use Rattle.kmip_wire.specs.Tree.{Tree, tree_code};

    ghost Value = { Tree };

    ghost coded = { tree_code };

    ghost use Rattle.kmip_wire.specs.Sees.{tree_of_node};
    ghost use Rattle.kmip_wire.specs.Sizes.{tree_size};

    ghost view = { λ a. tree_of_node a.tag a.node };

    ghost size = { tree_size };

    ghost use Rattle.kmip_wire.specs.Falls.{deep_le-tree_size};

    ghost size_decreases = { λ a h. deep_le-tree_size a.tag a.node };
}

impl Model for Trees {
    ghost use Rattle.std.specs.Prelude.{List};
    ghost use Rattle.std.specs.Coded.{coded_list};
    ghost use Rattle.std.proofs.Common.{arith};
    ghost use Rattle.kmip_wire.specs.Tree.{Tree, tree_code, trees_of};
    ghost use Rattle.kmip_wire.specs.Sizes.{trees_size, most_le-trees_size};

    ghost Value = { List Tree };

    ghost coded = { coded_list tree_code };

    ghost view = { λ a. a.items.items };

    ghost size = { λ ts. trees_size (trees_of ts) };

    ghost size_decreases = { λ a h. Prim.omega (arith, most_le-trees_size a.items.items) };
}

impl Trees {
    /// The empty list, which takes no memory.
    pub fn new(alloc: Global) -> Trees
        ensures { result ≡ [] }
    {
        Trees {
            items: Vec::new(alloc),
        }
    }

    /// The items of a vector, in order.
    pub fn of_vec(items: Vec<Tree>) -> Trees
        ensures { result ≡ items.items }
    {
        Trees { items }
    }

    /// Adds an item at the end. Where memory runs out, the list stays as it was and the item is
    /// dropped.
    pub fn push(&mut self, item: Tree) -> Result<(), OutOfMemory>
        ensures { self.new ≡ (if is_ok result then self.old ++ item ∷ [] else self.old) }
    {
        match self.items.push(item) {
            Ok(()) => Ok(()),
            Err(_) => Err(OutOfMemory),
        }
    }

    /// How many items there are.
    pub fn len(&self) -> usize
        ensures { result ≡ length self.now }
    {
        self.items.len()
    }

    /// The item at the index, counted from 0, and `None` past the end.
    pub fn get(&self, index: usize) -> Option<&Tree>
        ensures { option_copied result ≡ slice_get self.now index }
    {
        self.items.get(index)
    }

    /// The items in order.
    pub fn as_slice(&self) -> &[Tree]
        ensures { result.now ≡ self.now }
    {
        self.items.as_slice()
    }

    /// The items in order, with no copy made.
    pub fn into_vec(self) -> Vec<Tree>
        ensures { result.items ≡ self }
    {
        self.items
    }
}

/// Does nothing. The bytes are in their range.
fn byte_ranges(bytes: &[u8])
    ensures { AreBytes bytes.now }
{}

/// Changes nothing. The numbers, texts and bytes of the tree are in their ranges.
#[cycle(ranges)]
fn tree_ranges(tree: &Tree)
    ensures { HasRanges tree.now }
{
    let _number = tree.tag.number();
    node_ranges(&tree.node);
}

#[cycle(ranges)]
fn node_ranges(node: &Node)
    ensures { HasRanges (tree_of_node 0 node.now) }
{
    match node {
        Node::Structure(items) => items_ranges(&items.items),
        Node::Integer(number) => {
            let _number = *number;
        }
        Node::LongInteger(number) => {
            let _number = *number;
        }
        Node::BigInteger(bytes) => byte_ranges(bytes.as_slice()),
        Node::Enumeration(number) => {
            let _number = *number;
        }
        Node::Boolean(_) => {}
        Node::TextString(text) => {
            let _text = text.as_str();
        }
        Node::ByteString(bytes) => byte_ranges(bytes.as_slice()),
        Node::DateTime(seconds) => {
            let _seconds = *seconds;
        }
        Node::Interval(seconds) => {
            let _seconds = *seconds;
        }
    }
}

#[cycle(ranges)]
fn items_ranges(items: &Vec<Tree>)
    ensures { HaveRanges (trees_of items.now.items) }
{
    for item in items {
        tree_ranges(item);
    }
}

impl Tree {
    /// Goes through the tree and changes nothing. It is called for its contract: the numbers, texts
    /// and bytes of the tree are in their ranges, as the laws of canonical bytes require. It takes
    /// no memory.
    pub fn ranges(&self)
        ensures { HasRanges self.now }
    {
        tree_ranges(self)
    }
}

impl PartialEq for Tree {
    ghost use Rattle.kmip_wire.specs.Same.{same_tree, same_tree-per};

    ghost eq = { same_tree };

    ghost laws = { same_tree-per };

    fn eq(&self, other: &Tree) -> bool {
        are_same(self, other)
    }
}

impl Eq for Tree {
    ghost use Rattle.kmip_wire.specs.Same.{same_tree-equiv};

    ghost laws = { same_tree-equiv };
}

impl PartialEq for Trees {
    ghost use Rattle.kmip_wire.specs.Same.{same_items, same_items-per};

    ghost eq = { same_items };

    ghost laws = { same_items-per };

    fn eq(&self, other: &Trees) -> bool {
        are_same_items(&self.items, &other.items)
    }
}

impl Eq for Trees {
    ghost use Rattle.kmip_wire.specs.Same.{same_items-equiv};

    ghost laws = { same_items-equiv };
}

#[cycle(same)]
fn are_same(left: &Tree, right: &Tree) -> bool
    ensures { result ≡ same_tree left.now right.now }
{
    left.tag == right.tag && are_same_nodes(&left.node, &right.node)
}

#[cycle(same)]
fn are_same_nodes(left: &Node, right: &Node) -> bool
    ensures { result ≡ same_tree (tree_of_node 0 left.now) (tree_of_node 0 right.now) }
{
    match (left, right) {
        (Node::Structure(left), Node::Structure(right)) => are_same_items(
            &left.items,
            &right.items,
        ),
        (Node::Integer(left), Node::Integer(right)) => left == right,
        (Node::LongInteger(left), Node::LongInteger(right)) => left == right,
        (Node::BigInteger(left), Node::BigInteger(right)) => left == right,
        (Node::Enumeration(left), Node::Enumeration(right)) => left == right,
        (Node::Boolean(left), Node::Boolean(right)) => left == right,
        (Node::TextString(left), Node::TextString(right)) => left == right,
        (Node::ByteString(left), Node::ByteString(right)) => left == right,
        (Node::DateTime(left), Node::DateTime(right)) => left == right,
        (Node::Interval(left), Node::Interval(right)) => left == right,
        _ => false,
    }
}

#[cycle(same)]
fn are_same_items(left: &Vec<Tree>, right: &Vec<Tree>) -> bool
    ensures { result ≡ same_trees (trees_of left.now.items) (trees_of right.now.items) }
{
    if left.len() != right.len() {
        return false;
    }
    for index in 0..left.len() {
        if !are_same(&left[index], &right[index]) {
            return false;
        }
    }
    true
}

#[cycle(copy)]
fn copy_tree(alloc: Global, tree: &Tree) -> Result<Tree, OutOfMemory>
    ensures { IfOk result (λ copy. copy ≡ tree.now) }
{
    let node = copy_node(alloc, &tree.node)?;
    Ok(Tree {
        tag: tree.tag,
        node,
    })
}

#[cycle(copy)]
fn copy_node(alloc: Global, node: &Node) -> Result<Node, OutOfMemory>
    ensures { IfOk result (λ copy. copy ≡ node.now) }
{
    match node {
        Node::Structure(items) => Ok(Node::Structure(copy_items(alloc, &items.items)?)),
        Node::Integer(number) => Ok(Node::Integer(*number)),
        Node::LongInteger(number) => Ok(Node::LongInteger(*number)),
        Node::BigInteger(bytes) => Ok(Node::BigInteger(bytes.try_clone(alloc)?)),
        Node::Enumeration(number) => Ok(Node::Enumeration(*number)),
        Node::Boolean(truth) => Ok(Node::Boolean(*truth)),
        Node::TextString(text) => Ok(Node::TextString(text.try_clone(alloc)?)),
        Node::ByteString(bytes) => Ok(Node::ByteString(bytes.try_clone(alloc)?)),
        Node::DateTime(seconds) => Ok(Node::DateTime(*seconds)),
        Node::Interval(seconds) => Ok(Node::Interval(*seconds)),
    }
}

#[cycle(copy)]
fn copy_items(alloc: Global, items: &Vec<Tree>) -> Result<Trees, OutOfMemory>
    ensures { IfOk result (λ copy. copy ≡ items.now.items) }
{
    let mut copy = Trees::new(alloc);
    for item in items {
        copy.push(copy_tree(alloc, item)?)?;
    }
    Ok(copy)
}

impl TryClone for Tree {
    fn try_clone(&self, alloc: Global) -> Result<Tree, OutOfMemory> {
        copy_tree(alloc, self)
    }
}

impl TryClone for Trees {
    fn try_clone(&self, alloc: Global) -> Result<Trees, OutOfMemory> {
        copy_items(alloc, &self.items)
    }
}
