//! Whether a response is that of another call, by the operation that it names.
ghost use Rattle.std.specs.Prelude.{◌≡◌, ◌≢◌, ◌++◌, Some, IfOk, OnOk, option_map};
ghost use Rattle.std.specs.Option.{option_and_then};
ghost use Rattle.kmip_wire.specs.Items.{item_tree};
ghost use Rattle.kmip_wire.specs.Reading.{item_of};
ghost use Rattle.kmip_client.specs.Check.{mismatch_text};
ghost use Rattle.kmip_client.specs.Untyped.{counts_one, reports_failure, sole_item};
ghost use Rattle.kmip_words.specs.Refusal.{failure_line};
ghost use Rattle.kmip_words.specs.Strays.{is_item_of, is_stray, ending_to};
ghost use Rattle.kmip_words.specs.Strays.{operation_text, other_failure, error_to};

use crate::ending::Ending;
use crate::items::{has_none_under, number_under, one_under};
use crate::refusal::{push_failure, push_internal_error};
use itoa::Buffer;
use kmip_client::Error;
use kmip_enums::Operation;
use kmip_shape::Enumeration;
use kmip_tags::tags::{
    BATCH_COUNT, BATCH_ITEM, OPERATION, RESPONSE_HEADER, RESPONSE_MESSAGE, RESULT_STATUS,
};
use kmip_wire::{ItemRef, OutOfMemory, Text};
use std::alloc::Global;

/// The status of an operation that failed: KMIP 1.0, 9.1.3.2.27.
const OPERATION_FAILED: u32 = 1;

/// Whether a batch item reports failure.
fn reports_failure(item: ItemRef<'_>) -> bool
    ensures { result ≡ reports_failure (item_tree item.entry) }
{
    number_under(item, RESULT_STATUS) == Some(OPERATION_FAILED)
}

/// Whether a batch item is that of an operation: it names it, or reports failure and names none.
fn is_item_of(operation: Operation, item: ItemRef<'_>) -> bool
    ensures { result ≡ is_item_of operation (item_tree item.entry) }
{
    number_under(item, OPERATION) == Some(operation.number())
        || (reports_failure(item) && has_none_under(item, OPERATION))
}

/// Whether the header of a message counts one batch item.
fn counts_one(message: ItemRef<'_>) -> bool
    ensures { result ≡ counts_one (item_tree message.entry) }
{
    let Some(header) = one_under(message, RESPONSE_HEADER) else {
        return false;
    };
    match one_under(header, BATCH_COUNT) {
        Some(count) => count.int() == Some(1),
        None => false,
    }
}

/// The batch item of a response message that has one, and whose header counts one.
fn sole_item<'a>(message: ItemRef<'a>) -> Option<ItemRef<'a>>
    ensures { option_map item_tree result ≡ sole_item (item_tree message.entry) }
{
    if message.tag().number() == RESPONSE_MESSAGE && counts_one(message) {
        one_under(message, BATCH_ITEM)
    } else {
        None
    }
}

/// Whether these bytes are a message that is no response to a call of this operation.
fn is_stray(operation: Operation, response: &[u8]) -> bool
    ensures { result ≡ is_stray operation response.now }
{
    let Some(message) = ItemRef::root(response) else {
        return false;
    };
    match sole_item(message) {
        Some(item) => !is_item_of(operation, item),
        None => true,
    }
}

/// Adds an operation by its number: its name, or its number where it is in no table.
fn push_operation(number: Option<u32>, text: &mut Text) -> Result<(), OutOfMemory>
    ensures { OnOk result (text.new ≡ text.old ++ operation_text number) }
{
    let Some(number) = number else {
        return text.push_str("None");
    };
    match Operation::from_number(number) {
        Some(operation) => text.push_str(operation.name()),
        None => text.push_str(Buffer::new().format(number)),
    }
}

/// The error for a response of another operation.
#[tactic(auto, using(std::proofs::lemmas::List::append_assoc))]
fn mismatch(alloc: Global, operation: Operation, number: Option<u32>) -> Result<Text, OutOfMemory>
    ensures { IfOk result (λ text. text ≡ mismatch_text operation (operation_text number)) }
{
    let mut text = Text::of(alloc, "Response operation ")?;
    push_operation(number, &mut text)?;
    text.push_str(" does not match request operation ")?;
    text.push_str(operation.name())?;
    Ok(text)
}

/// The error for a failure of another operation, where a response reports one.
fn other_failure(
    alloc: Global,
    operation: Operation,
    response: &[u8],
) -> Result<Option<Text>, OutOfMemory>
    ensures { IfOk result (λ text. text ≡
        other_failure operation (option_and_then sole_item (item_of 64 response.now))) }
{
    let Some(message) = ItemRef::root(response) else {
        return Ok(None);
    };
    let Some(item) = sole_item(message) else {
        return Ok(None);
    };
    if reports_failure(item) && !is_item_of(operation, item) {
        let number = number_under(item, OPERATION);
        Ok(Some(mismatch(alloc, operation, number)?))
    } else {
        Ok(None)
    }
}

/// Adds the line of an error that a call of this operation is answered with, and returns how the
/// call ended.
fn show_failure_of(
    alloc: Global,
    operation: Operation,
    error: &Error,
    response: &[u8],
    line: &mut Text,
) -> Result<Ending, OutOfMemory>
    ensures shown { OnOk result (line.new ≡ line.old ++
        failure_line (error_to (Some operation) error.now response.now) response.now) }
    ensures ending { IfOk result
        (λ ending. ending ≡ ending_to (Some operation) error.now response.now) }
{
    match other_failure(alloc, operation, response)? {
        Some(text) => push_internal_error(alloc, text.as_str(), response, line)?,
        None => push_failure(alloc, error, response, line)?,
    }
    if is_stray(operation, response) {
        Ok(Ending::Lost)
    } else {
        Ok(Ending::of_error(error))
    }
}

/// Adds the line of JSON of an error that a call is answered with by this response, and returns how
/// the call ended. `operation` is that of the call's request, and `None` for a message of the
/// caller's. The error `OutOfMemory` is not added, but returned.
///
/// A failure of another operation is none of this call: the line is that of an `InternalError` that
/// says what came. And whatever the error, the call ended as `Lost` where the response is not one
/// of one batch item that is of this operation: it belongs to another call, and so may the next one.
pub fn show_failure(
    alloc: Global,
    operation: Option<Operation>,
    error: &Error,
    response: &[u8],
    line: &mut Text,
) -> Result<Ending, OutOfMemory>
    ensures shown { OnOk result (line.new ≡ line.old ++
        failure_line (error_to operation error.now response.now) response.now) }
    ensures ending { IfOk result
        (λ ending. ending ≡ ending_to operation error.now response.now) }
    ensures memory { OnOk result (error.now ≢ Error.OutOfMemory) }
{
    if matches!(error, Error::OutOfMemory) {
        return Err(OutOfMemory);
    }
    match operation {
        Some(operation) => show_failure_of(alloc, operation, error, response, line),
        None => {
            push_failure(alloc, error, response, line)?;
            Ok(Ending::of_error(error))
        }
    }
}
