//! A payload of a table, and what is asked of it.
use kmip_enums::Operation;
use kmip_payloads::{Item, Scalar, Value, first_stray, lacks, payload_of};
use kmip_rows::{OperationRow, Place, operation_row};
use kmip_tags::tags::{ATTRIBUTE, ATTRIBUTE_NAME, ATTRIBUTE_VALUE};
use kmip_wire::{Node, Tag, Text, Tree, Trees, write_tree};
use std::alloc::Global;
use std::process::Abort;

/// An item of a table, whose tag is a number.
pub(crate) struct Given {
    pub path: &'static [u32],
    pub tag: u32,
    pub value: Scalar<'static>,
}

/// An attribute that stands in the structures of a path.
pub(crate) struct Attribute {
    pub path: &'static [u32],
    pub name: &'static str,
    pub value: AttributeValue,
}

/// The value of an attribute.
#[derive(Clone, Copy)]
pub(crate) enum AttributeValue {
    Integer(i32),
    Enumeration(u32),
    Text(&'static str),
}

/// A payload: the operation, the items and attributes that give it, and its bytes in hex.
pub(crate) struct Row {
    pub name: &'static str,
    pub operation: Operation,
    pub items: &'static [Given],
    pub attributes: &'static [Attribute],
    pub hex: &'static str,
}

/// The row of an operation that has one.
pub(crate) fn row_of(rt: &impl Abort, operation: Operation) -> &'static OperationRow {
    operation_row(operation).expect(rt, "an operation of a client")
}

/// A text.
pub(crate) fn text(rt: &impl Abort, alloc: Global, text: &str) -> Text {
    Text::of(alloc, text).expect(rt, "memory")
}

/// A structure of two items.
pub(crate) fn pair(
    rt: &impl Abort,
    alloc: Global,
    tag: u32,
    first: (u32, Node),
    second: (u32, Node),
) -> Tree {
    let mut items = Trees::new(alloc);
    for (tag, node) in [first, second] {
        let tag = Tag::new(tag).expect(rt, "a tag");
        items.push(Tree { tag, node }).expect(rt, "memory");
    }
    Tree {
        tag: Tag::new(tag).expect(rt, "a tag"),
        node: Node::Structure(items),
    }
}

/// The tree of an attribute.
fn tree_of(rt: &impl Abort, alloc: Global, attribute: &Attribute) -> Tree {
    let name = Node::TextString(text(rt, alloc, attribute.name));
    let value = match attribute.value {
        AttributeValue::Integer(number) => Node::Integer(number),
        AttributeValue::Enumeration(number) => Node::Enumeration(number),
        AttributeValue::Text(words) => Node::TextString(text(rt, alloc, words)),
    };
    pair(
        rt,
        alloc,
        ATTRIBUTE,
        (ATTRIBUTE_NAME, name),
        (ATTRIBUTE_VALUE, value),
    )
}

/// The payload of the items has these bytes, no item is lost, and nothing is lacking.
pub(crate) fn has_bytes(
    rt: &impl Abort,
    alloc: Global,
    name: &str,
    row: &OperationRow,
    items: &[Item<'_>],
    hex: &str,
) {
    let payload = payload_of(alloc, row, items).expect(rt, name);
    let bytes = write_tree(alloc, &payload).expect(rt, name);
    let expected = hex::decode(alloc, hex).expect(rt, "hex");
    assert!(rt; bytes.as_slice() == expected.as_slice(), "{name}");
    assert!(rt; first_stray(row, items).is_none(), "{name}: a stray");
    let lacking = lacks(alloc, row, items).expect(rt, name);
    assert!(rt; lacking.is_empty(), "{name}: a lack");
}

/// The item of a table.
pub(crate) fn item_of(given: &Given) -> Item<'static> {
    Item {
        path: given.path,
        tag: given.tag,
        value: Value::Scalar(given.value),
    }
}

/// The items of a row, and then its attributes as whole trees.
pub(crate) fn is_written(rt: &impl Abort, alloc: Global, row: &Row) {
    let mut trees = Vec::new(alloc);
    for attribute in row.attributes {
        trees
            .push(tree_of(rt, alloc, attribute))
            .expect(rt, "memory");
    }
    let mut items = Vec::new(alloc);
    for given in row.items {
        items.push(item_of(given)).expect(rt, "memory");
    }
    for (attribute, tree) in row.attributes.iter().zip(&trees) {
        items
            .push(Item::of_tree(attribute.path, tree))
            .expect(rt, "memory");
    }
    let operation = row_of(rt, row.operation);
    has_bytes(rt, alloc, row.name, operation, items.as_slice(), row.hex);
}
