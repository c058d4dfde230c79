//! What a response answers: its bytes are decoded and checked, and its payload is taken out.
ghost use Rattle.std.specs.Prelude.{◌≡◌, ◌++◌, ◌<◌, IfOk, IfErr, Some, Ok, Err, codes, pos, length};
ghost use Rattle.std.specs.Ordering.{int_eq};
ghost use Rattle.kmip_shape.specs.Val.{Val, Text as text_val};
ghost use Rattle.kmip_shape.specs.Writes.{optional};
ghost use Rattle.kmip_shape.specs.Enumerations.{enumeration_val};
ghost use Rattle.kmip_enums.specs.Operations.{operation_line};
ghost use Rattle.kmip_enums.specs.ResultReasons.{result_reason_line};
ghost use Rattle.kmip_response.specs.Values.{batch_item_val, response_message_val};
ghost use Rattle.kmip_response.specs.Values.{response_payload_val};
ghost use Rattle.kmip_enums.specs.declared.result_reason.ResultReason.{ResultReason};
ghost use Rattle.kmip_client.specs.Check.{check_response, check_item, is_number, text_in, one_of};
ghost use Rattle.kmip_client.specs.Check.{operation_shown, count_text, failed_text, failure};
ghost use Rattle.kmip_client.specs.Check.{mismatch_text, payload_answer};
ghost use Rattle.kmip_client.specs.Client.{IsOfOperation};
ghost use Rattle.kmip_client.specs.Outcome.{Gives, read_answer, seen_by};
ghost use Rattle.kmip_client.specs.declared.error.Error.TheVariants.{ServerError, InternalError};

use crate::answered::Answered;
use crate::error::Error;
use kmip_enums::{Operation, ResultReason, ResultStatus};
use kmip_response::{BatchItem, ResponseHeader, ResponseMessage, ResponsePayload};
use kmip_shape::read::ReadError;
use kmip_shape::{Enumeration, read_root};
use kmip_wire::{ItemRef, OutOfMemory, Text};
use std::alloc::Global;

/// Whether a batch item names this operation.
fn is_of(answered: Option<Operation>, asked: Operation) -> bool
    ensures { result ≡
        is_number (pos (operation_line asked).number)
        (one_of (optional (enumeration_val operation_line) answered)) }
{
    match answered {
        Some(answered) => answered.number() == asked.number(),
        None => false,
    }
}

/// Whether an object was not found.
fn is_not_found(reason: Option<ResultReason>) -> bool
    ensures { result ≡
        is_number (pos (result_reason_line ResultReason.ItemNotFound).number)
        (one_of (optional (enumeration_val result_reason_line) reason)) }
{
    match reason {
        Some(reason) => reason.number() == ResultReason::ItemNotFound.number(),
        None => false,
    }
}

/// The error where there is not one batch item, but this many.
fn not_single(alloc: Global, count: usize) -> Result<Error, OutOfMemory>
    ensures { IfOk result (λ error. error ≡ ServerError (count_text count)) }
{
    let text = format!(in alloc; "Expected one batch item in response but received {count}")?;
    Ok(Error::ServerError(Text::of_string(text)))
}

/// The error of a failure, with the server's message.
fn failure(
    alloc: Global,
    operation: Operation,
    reason: Option<ResultReason>,
    message: &Option<Text>,
) -> Result<Error, OutOfMemory>
    ensures { IfOk result (λ error. Err error ≡ failure operation
        (one_of (optional (enumeration_val result_reason_line) reason))
        (one_of (optional text_val message.now))) }
{
    let message = match message {
        Some(message) => message.as_str(),
        None => "",
    };
    let text = Text::of_string(format!(in alloc; "Operation {operation} failed: {message}")?);
    if is_not_found(reason) {
        Ok(Error::ItemNotFound(text))
    } else {
        Ok(Error::ServerError(text))
    }
}

/// The error where the response is one to another operation, or to none.
fn mismatch(
    alloc: Global,
    answered: Option<Operation>,
    asked: Operation,
) -> Result<Error, OutOfMemory>
    ensures { IfOk result (λ error. error ≡ InternalError
        (mismatch_text asked (operation_shown
        (one_of (optional (enumeration_val operation_line) answered))))) }
{
    let text = match answered {
        Some(answered) => {
            format!(in alloc;
                "Response operation Some({answered}) does not match request operation {asked}"
            )?
        }
        None => {
            format!(in alloc; "Response operation None does not match request operation {asked}")?
        }
    };
    Ok(Error::InternalError(Text::of_string(text)))
}

/// The payload of a batch item, where there is one, as the payload that a call returns.
fn payload_of<P: Answered>(
    alloc: Global,
    operation: Operation,
    payload: Option<ResponsePayload>,
) -> Result<P, Error>
    requires answers { P.Answers operation }
    requires own { (p : Val) →
        payload_answer (one_of (optional response_payload_val payload)) ≡ Ok p →
        IsOfOperation operation p }
    ensures { Gives (payload_answer (one_of (optional response_payload_val payload)))
        (seen_by (P.val operation) result) }
{
    match payload {
        Some(payload) => Ok(P::of(operation, payload)),
        None => {
            let text = "Unable to process response payload due to wrong deserialized type!";
            Err(Error::InternalError(Text::of(alloc, text)?))
        }
    }
}

/// What a batch item answers, whose payload is taken out of it.
#[tactic(auto, unfolding(crate::specs::Check::check_item))]
fn check_item<P: Answered>(
    alloc: Global,
    operation: Operation,
    item: &mut BatchItem,
) -> Result<P, Error>
    requires answers { P.Answers operation }
    requires own { (p : Val) → check_item operation (batch_item_val item.old) ≡ Ok p →
        IsOfOperation operation p }
    ensures { Gives (check_item operation (batch_item_val item.old))
        (seen_by (P.val operation) result) }
{
    match item.result_status {
        ResultStatus::OperationFailed => {
            let reason = item.result_reason;
            Err(failure(alloc, operation, reason, &item.result_message)?)
        }
        ResultStatus::OperationPending => {
            let text = "Result status 'operation pending' is not supported";
            Err(Error::InternalError(Text::of(alloc, text)?))
        }
        ResultStatus::OperationUndone => {
            let text = "Result status 'operation undone' is not supported";
            Err(Error::InternalError(Text::of(alloc, text)?))
        }
        ResultStatus::Success => {
            if is_of(item.operation, operation) {
                payload_of(alloc, operation, item.payload.take())
            } else {
                Err(mismatch(alloc, item.operation, operation)?)
            }
        }
    }
}

/// Whether a header says that there is one batch item.
fn counts_one(header: &ResponseHeader) -> bool
    ensures { result ≡ int_eq header.now.batch_count (pos 1) }
{
    header.batch_count == 1
}

/// What a response message answers.
fn check_message<P: Answered>(
    alloc: Global,
    operation: Operation,
    message: ResponseMessage,
) -> Result<P, Error>
    requires answers { P.Answers operation }
    requires own { (p : Val) → check_response operation (response_message_val message) ≡ Ok p →
        IsOfOperation operation p }
    ensures { Gives (check_response operation (response_message_val message))
        (seen_by (P.val operation) result) }
{
    let ResponseMessage {
        header,
        batch_items,
    } = message;
    let count = batch_items.len();
    if !counts_one(&header) {
        return Err(not_single(alloc, count)?);
    }
    if count != 1 {
        return Err(not_single(alloc, count)?);
    }
    let mut items = batch_items.into_vec();
    match items.first_mut() {
        Some(item) => check_item(alloc, operation, item),
        None => Err(not_single(alloc, count)?),
    }
}

/// What the bytes of a whole message answer: they are checked, read as a response message, and its
/// payload is taken out, as the payload that a call returns.
pub fn decode_response<P: Answered>(
    alloc: Global,
    operation: Operation,
    m: &[u8],
) -> Result<P, Error>
    requires { P.Answers operation }
    ensures { Gives (read_answer operation m.now) (seen_by (P.val operation) result) }
{
    let Some(item) = ItemRef::root(m) else {
        return Err(Error::DeserializeError(Text::of(alloc, "malformed TTLV")?));
    };
    match read_root::<ResponseMessage>(alloc, item) {
        Ok(message) => check_message(alloc, operation, message),
        Err(ReadError::Unread) => {
            Err(Error::InternalError(Text::of(alloc, "not a response message")?))
        }
        Err(ReadError::OutOfMemory) => Err(Error::OutOfMemory),
    }
}
