//! Whether a response is that of the request with a Unique Batch Item ID: KMIP 1.0, 6.4.
ghost use Rattle.std.specs.Prelude.{◌≡◌, ◌==◌, ℕ, length, IfOk, Err, Some};
ghost use Rattle.std.specs.Prelude.{option_copied, option_map};
ghost use Rattle.kmip_wire.specs.Parts.{bytes_in};
ghost use Rattle.kmip_wire.specs.Sees.{tree_of_node};
ghost use Rattle.kmip_wire.specs.Reading.{item_of};
ghost use Rattle.kmip_client.specs.Outcome.{Gives};
ghost use Rattle.kmip_client.specs.Untyped.{all_under, has_id, reports_failure, answers_id};
ghost use Rattle.kmip_client.specs.Untyped.{sole_item, is_of_other_item, other_item};
ghost use Rattle.kmip_client.specs.Untyped.{identified_answer};

use crate::error::Error;
use crate::untyped::{
    children, count, counts_one, has_tag, malformed, message_answer, number_under, one_under,
    whole_tree,
};
use kmip_enums::{Operation, ResultStatus};
use kmip_shape::Enumeration;
use kmip_tags::tags::{
    BATCH_ITEM, OPERATION, RESPONSE_MESSAGE, RESULT_STATUS, UNIQUE_BATCH_ITEM_ID,
};
use kmip_wire::{Node, OutOfMemory, Tag, Text, Tree};
use std::alloc::Global;

/// The bytes of a Byte String.
fn bytes_of(node: &Node) -> Option<&[u8]>
    ensures { (tag : ℕ) → option_map (λ b. b.now) result ≡ bytes_in (tree_of_node tag node.now) }
{
    match node {
        Node::ByteString(bytes) => Some(bytes.as_slice()),
        _ => None,
    }
}

/// Whether a batch item has this ID.
fn has_id(id: &[u8], item: &Tree) -> bool
    ensures { result ≡ has_id id.now item.now }
{
    let Some(found) = one_under(item, Tag::of(UNIQUE_BATCH_ITEM_ID)) else {
        return false;
    };
    match bytes_of(&found.node) {
        Some(bytes) => bytes == id,
        None => false,
    }
}

/// Whether a batch item reports failure.
fn reports_failure(item: &Tree) -> bool
    ensures { result ≡ reports_failure item.now }
{
    number_under(item, Tag::of(RESULT_STATUS)) == Some(ResultStatus::OperationFailed.number())
}

/// Whether an item has no item with this tag within it.
fn has_none_under(tree: &Tree, tag: Tag) -> bool
    ensures { result ≡ (length (all_under tag tree.now) == 0) }
{
    count(children(tree), tag) == 0
}

/// Whether a batch item is that of the request with this ID.
fn answers_id(id: &[u8], item: &Tree) -> bool
    ensures { result ≡ answers_id id.now item.now }
{
    has_id(id, item)
        || (reports_failure(item)
            && has_none_under(item, Tag::of(OPERATION))
            && has_none_under(item, Tag::of(UNIQUE_BATCH_ITEM_ID)))
}

/// The batch item of a response message that has one, and whose header counts one.
fn sole_item(message: &Tree) -> Option<&Tree>
    ensures { option_copied result ≡ sole_item message.now }
{
    if has_tag(message, Tag::of(RESPONSE_MESSAGE)) && counts_one(message) {
        one_under(message, Tag::of(BATCH_ITEM))
    } else {
        None
    }
}

/// Whether a message has one batch item, which is that of a request with another ID.
fn is_of_other(id: Option<&[u8]>, message: &Tree) -> bool
    ensures { result ≡ is_of_other_item (option_map (λ b. b.now) id.entry) (Some message.now) }
{
    let Some(id) = id else {
        return false;
    };
    match sole_item(message) {
        Some(item) => !answers_id(id, item),
        None => false,
    }
}

/// Whether these bytes are a message with one batch item, which is that of a request with another
/// Unique Batch Item ID than this: KMIP 1.0, 6.4. It has not exactly this ID; and it is no failure
/// with no operation and no ID, as comes where the server could not read the request. Where no ID
/// was sent, every batch item may be the request's.
pub fn is_of_other_item(alloc: Global, id: Option<&[u8]>, m: &[u8]) -> Result<bool, OutOfMemory>
    ensures { IfOk result
        (λ other. other ≡ is_of_other_item (option_map (λ b. b.now) id.entry) (item_of 64 m.now)) }
{
    if id.is_none() {
        return Ok(false);
    }
    match whole_tree(alloc, m)? {
        Some(message) => Ok(is_of_other(id, &message)),
        None => Ok(false),
    }
}

/// The error where the batch item is that of another request.
fn other_item(alloc: Global) -> Result<Tree, Error>
    ensures { Gives (Err other_item) result }
{
    let text = "Response does not have the request's Unique Batch Item ID";
    Err(Error::InternalError(Text::of(alloc, text)?))
}

/// What the bytes of a whole message answer a request with this ID.
pub fn identified_answer(
    alloc: Global,
    operation: Operation,
    id: Option<&[u8]>,
    m: &[u8],
) -> Result<Tree, Error>
    ensures { Gives (identified_answer operation (option_map (λ b. b.now) id.entry) m.now) result }
{
    let Some(message) = whole_tree(alloc, m)? else {
        return malformed(alloc);
    };
    if is_of_other(id, &message) {
        other_item(alloc)
    } else {
        message_answer(alloc, operation, message)
    }
}
