//! What a response answers whose payload is a tree, whatever KMIP's tables say of it.
ghost use Rattle.std.specs.Prelude.{◌≡◌, ℕ, length, option_copied, option_map, slice_get, IfOk, Err};
ghost use Rattle.std.specs.List.{filter};
ghost use Rattle.kmip_wire.specs.Parts.{tag_of, int_in, enumeration_in, text_in};
ghost use Rattle.kmip_wire.specs.Sees.{tree_of_node};
ghost use Rattle.kmip_wire.specs.Reading.{item_of};
ghost use Rattle.kmip_client.specs.Outcome.{Gives};
ghost use Rattle.kmip_client.specs.Check.{count_text};
ghost use Rattle.kmip_shape.specs.Shape.{has_tag};
ghost use Rattle.kmip_client.specs.Untyped.{children_of, all_under, one_under};
ghost use Rattle.kmip_client.specs.Untyped.{number_under, text_under, malformed, not_response};
ghost use Rattle.kmip_client.specs.Untyped.{failure_of, payload_of, success_of, status_answer};
ghost use Rattle.kmip_client.specs.Untyped.{is_one, counts_one, message_answer};
ghost use Rattle.kmip_client.specs.declared.error.Error.TheVariants.{InternalError};

use crate::error::Error;
use kmip_enums::{Operation, ResultReason, ResultStatus};
use kmip_shape::Enumeration;
use kmip_tags::tags::{
    BATCH_COUNT, BATCH_ITEM, OPERATION, RESPONSE_HEADER, RESPONSE_MESSAGE, RESPONSE_PAYLOAD,
    RESULT_MESSAGE, RESULT_REASON, RESULT_STATUS,
};
use kmip_wire::{Node, OutOfMemory, Tag, Text, Tree, Trees, WireError, read_tree};
use std::alloc::Global;

/// The signed number of an Integer.
fn int_of(node: &Node) -> Option<i32>
    ensures { (tag : ℕ) → result ≡ int_in (tree_of_node tag node.now) }
{
    match node {
        Node::Integer(number) => Some(*number),
        _ => None,
    }
}

/// The number of an enumeration.
fn enumeration_of(node: &Node) -> Option<u32>
    ensures { (tag : ℕ) → result ≡ enumeration_in (tree_of_node tag node.now) }
{
    match node {
        Node::Enumeration(number) => Some(*number),
        _ => None,
    }
}

/// The text of a Text String.
fn text_of(node: &Node) -> Option<&str>
    ensures { (tag : ℕ) → option_map (λ s. s.now) result ≡ text_in (tree_of_node tag node.now) }
{
    match node {
        Node::TextString(text) => Some(text.as_str()),
        _ => None,
    }
}

/// The items within an item.
pub fn children(tree: &Tree) -> &[Tree]
    ensures { result.now ≡ children_of tree.now }
{
    match &tree.node {
        Node::Structure(items) => items.as_slice(),
        _ => &[],
    }
}

/// Whether an item has this tag.
pub fn has_tag(tree: &Tree, tag: Tag) -> bool
    ensures { result ≡ has_tag tag tree.now }
{
    tree.tag.number() == tag.number()
}

/// How many of the items have this tag.
pub fn count(trees: &[Tree], tag: Tag) -> usize
    ensures { result ≡ length (filter (has_tag tag) trees.now) }
{
    let mut count = 0;
    for index in 0..trees.len() {
        count += has_tag(&trees[index], tag) as usize;
    }
    count
}

/// The index of the first of them, or past the end where there is none.
fn first(trees: &[Tree], tag: Tag) -> usize
    ensures { slice_get trees.now result ≡ slice_get (filter (has_tag tag) trees.now) 0 }
{
    for index in 0..trees.len() {
        if has_tag(&trees[index], tag) {
            return index;
        }
    }
    trees.len()
}

/// The item with this tag, where there is exactly one.
pub fn one_under(tree: &Tree, tag: Tag) -> Option<&Tree>
    ensures { option_copied result ≡ one_under tag tree.now }
{
    let trees = children(tree);
    if count(trees, tag) == 1 {
        trees.get(first(trees, tag))
    } else {
        None
    }
}

/// Its number, where it is an enumeration.
pub fn number_under(tree: &Tree, tag: Tag) -> Option<u32>
    ensures { result ≡ number_under tag tree.now }
{
    match one_under(tree, tag) {
        Some(item) => enumeration_of(&item.node),
        None => None,
    }
}

/// Its text, and no text where it has none.
fn text_under(tree: &Tree, tag: Tag) -> &str
    ensures { result.now ≡ text_under tag tree.now }
{
    match one_under(tree, tag) {
        Some(item) => text_of(&item.node).unwrap_or(""),
        None => "",
    }
}

/// The item within an item at an index, which is moved out.
fn take_child(tree: Tree, index: usize) -> Option<Tree>
    ensures { result ≡ slice_get (children_of tree) index }
{
    let Node::Structure(items) = tree.node else {
        return None;
    };
    let mut items = items.into_vec();
    if index < items.len() {
        Some(items.swap_remove(index))
    } else {
        None
    }
}

/// The error where bytes are no message.
pub fn malformed(alloc: Global) -> Result<Tree, Error>
    ensures { Gives (Err malformed) result }
{
    Err(Error::DeserializeError(Text::of(alloc, "malformed TTLV")?))
}

/// The error where a message is no response message.
fn not_response(alloc: Global) -> Result<Tree, Error>
    ensures { Gives (Err not_response) result }
{
    Err(Error::InternalError(Text::of(alloc, "not a response message")?))
}

/// The error where there are this many batch items, or the header does not count one.
fn not_single(alloc: Global, count: usize) -> Result<Tree, Error>
    ensures { Gives (Err (InternalError (count_text count))) result }
{
    let text = format!(in alloc; "Expected one batch item in response but received {count}")?;
    Err(Error::InternalError(Text::of_string(text)))
}

/// The error of a failure: with the server's message, and with the number of a reason that is not
/// in the table.
fn failure(
    alloc: Global,
    operation: Operation,
    message: &str,
    reason: Option<u32>,
) -> Result<Tree, Error>
    ensures { Gives (Err (failure_of operation message.now reason)) result }
{
    let Some(number) = reason else {
        let text = format!(in alloc; "Operation {operation} failed: {message}")?;
        return Err(Error::ServerError(Text::of_string(text)));
    };
    match ResultReason::from_number(number) {
        None => {
            let text = format!(in alloc;
                "Operation {operation} failed for reason {number}: {message}"
            )?;
            Err(Error::ServerError(Text::of_string(text)))
        }
        Some(reason) => {
            let text = Text::of_string(format!(in alloc;
                "Operation {operation} failed: {message}"
            )?);
            match reason {
                ResultReason::ItemNotFound => Err(Error::ItemNotFound(text)),
                _ => Err(Error::ServerError(text)),
            }
        }
    }
}

/// The payload of a batch item, and an empty one where there is none.
fn payload_of(alloc: Global, item: Tree) -> Result<Tree, Error>
    ensures { Gives (payload_of (all_under RESPONSE_PAYLOAD item)) result }
{
    let payloads = children(&item);
    let index = first(payloads, Tag::of(RESPONSE_PAYLOAD));
    match count(payloads, Tag::of(RESPONSE_PAYLOAD)) {
        0 => Ok(Tree {
            tag: Tag::of(RESPONSE_PAYLOAD),
            node: Node::Structure(Trees::new(alloc)),
        }),
        1 => match take_child(item, index) {
            Some(payload) => Ok(payload),
            None => unreachable!(),
        },
        _ => not_response(alloc),
    }
}

/// What a batch item of success answers.
fn success_of(alloc: Global, operation: Operation, item: Tree) -> Result<Tree, Error>
    ensures { Gives (success_of operation item) result }
{
    if number_under(&item, Tag::of(OPERATION)) == Some(operation.number()) {
        payload_of(alloc, item)
    } else {
        let text = format!(in alloc; "Response does not match request operation {operation}")?;
        Err(Error::InternalError(Text::of_string(text)))
    }
}

/// What a batch item answers.
fn item_answer(alloc: Global, operation: Operation, item: Tree) -> Result<Tree, Error>
    ensures { Gives (status_answer operation item (number_under RESULT_STATUS item)) result }
{
    let Some(status) = number_under(&item, Tag::of(RESULT_STATUS)) else {
        return not_response(alloc);
    };
    if status == ResultStatus::Success.number() {
        success_of(alloc, operation, item)
    } else if status == ResultStatus::OperationFailed.number() {
        let message = text_under(&item, Tag::of(RESULT_MESSAGE));
        let reason = number_under(&item, Tag::of(RESULT_REASON));
        failure(alloc, operation, message, reason)
    } else {
        let text = format!(in alloc; "Result status {status} is not supported")?;
        Err(Error::InternalError(Text::of_string(text)))
    }
}

/// Whether the header of a message counts one batch item.
pub fn counts_one(message: &Tree) -> bool
    ensures { result ≡ counts_one message.now }
{
    let Some(header) = one_under(message, Tag::of(RESPONSE_HEADER)) else {
        return false;
    };
    match one_under(header, Tag::of(BATCH_COUNT)) {
        Some(count) => int_of(&count.node) == Some(1),
        None => false,
    }
}

/// What a message answers.
pub fn message_answer(alloc: Global, operation: Operation, message: Tree) -> Result<Tree, Error>
    ensures { Gives (message_answer operation message) result }
{
    if !has_tag(&message, Tag::of(RESPONSE_MESSAGE)) {
        return not_response(alloc);
    }
    let items = children(&message);
    let count = count(items, Tag::of(BATCH_ITEM));
    let index = first(items, Tag::of(BATCH_ITEM));
    if !counts_one(&message) || count != 1 {
        return not_single(alloc, count);
    }
    match take_child(message, index) {
        Some(item) => item_answer(alloc, operation, item),
        None => unreachable!(),
    }
}

/// The tree that the bytes are, where they are one well-formed item and nothing more.
pub fn whole_tree(alloc: Global, m: &[u8]) -> Result<Option<Tree>, OutOfMemory>
    ensures { IfOk result (λ tree. tree ≡ item_of 64 m.now) }
{
    match read_tree(alloc, m) {
        Ok((tree, size)) => {
            if size == m.len() {
                Ok(Some(tree))
            } else {
                Ok(None)
            }
        }
        Err(WireError::Malformed) => Ok(None),
        Err(WireError::NoForm) => unreachable!(),
        Err(WireError::OutOfMemory) => Err(OutOfMemory),
    }
}
