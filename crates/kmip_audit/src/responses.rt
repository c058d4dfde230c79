//! What a response says, each test a function of its own.
ghost use Rattle.std.specs.Prelude.{◌≡◌, IfOk, pos};
ghost use Rattle.std.specs.Option.{option_map};
ghost use Rattle.std.specs.Ordering.{int_eq};
ghost use Rattle.kmip_wire.specs.Reading.{item_of};
ghost use Rattle.kmip_shape.specs.Writes.{optional};
ghost use Rattle.kmip_shape.specs.Enumerations.{enumeration_val};
ghost use Rattle.kmip_enums.specs.Operations.{operation_line};
ghost use Rattle.kmip_response.specs.Values.{batch_item_val, response_message_val};
ghost use Rattle.kmip_response.specs.Values.{response_payload_val};
ghost use Rattle.kmip_client.specs.Check.{is_number, one_of};
ghost use Rattle.kmip_audit.specs.Outcomes.{payload_outcome, item_outcome, message_outcome};
ghost use Rattle.kmip_audit.specs.Outcomes.{tree_outcome};

use crate::outcomes::Outcome;
use kmip_enums::{Operation, ResultStatus};
use kmip_response::{BatchItem, ResponseHeader, ResponseMessage, ResponsePayload};
use kmip_shape::{Enumeration, ReadError, read_root};
use kmip_wire::{ItemRef, OutOfMemory};
use std::alloc::Global;

/// Whether a batch item names the operation that was asked for.
fn is_of(answered: Option<Operation>, asked: Operation) -> bool
    ensures { result ≡
        is_number (pos (operation_line asked).number)
        (one_of (optional (enumeration_val operation_line) answered)) }
{
    match answered {
        Some(answered) => answered.number() == asked.number(),
        None => false,
    }
}

/// The outcome by whether there is a payload.
fn payload_outcome(operation: Operation, payload: &Option<ResponsePayload>) -> Outcome
    ensures { result ≡
        payload_outcome operation (one_of (optional response_payload_val payload.now)) }
{
    match payload {
        Some(_) => Outcome::Answered(operation),
        None => Outcome::NoPayload,
    }
}

/// The outcome by a batch item: its status, its operation and its payload.
#[tactic(auto, using(crate::proofs::Variants::reason_back, crate::proofs::Variants::operation_back))]
fn item_outcome(operation: Operation, item: &BatchItem) -> Outcome
    ensures { result ≡ item_outcome operation (batch_item_val item.now) }
{
    match item.result_status {
        ResultStatus::OperationFailed => Outcome::Failed(item.result_reason),
        ResultStatus::OperationPending => Outcome::Pending,
        ResultStatus::OperationUndone => Outcome::Undone,
        ResultStatus::Success => {
            if is_of(item.operation, operation) {
                payload_outcome(operation, &item.payload)
            } else {
                Outcome::OtherOperation(item.operation)
            }
        }
    }
}

/// Whether a header says that there is one batch item.
fn counts_one(header: &ResponseHeader) -> bool
    ensures { result ≡ int_eq header.now.batch_count (pos 1) }
{
    header.batch_count == 1
}

/// The outcome by a response message.
fn message_outcome(operation: Operation, message: &ResponseMessage) -> Outcome
    ensures { result ≡ message_outcome operation (response_message_val message.now) }
{
    if !counts_one(&message.header) {
        return Outcome::NotOne;
    }
    match message.batch_items.as_slice() {
        [item] => item_outcome(operation, item),
        _ => Outcome::NotOne,
    }
}

/// The outcome by the bytes of a response, for a request of this operation.
pub fn response_outcome(
    alloc: Global,
    operation: Operation,
    response: &[u8],
) -> Result<Outcome, OutOfMemory>
    ensures { IfOk result (λ outcome. outcome ≡ tree_outcome operation (item_of 64 response.now)) }
{
    let Some(item) = ItemRef::root(response) else {
        return Ok(Outcome::Malformed);
    };
    match read_root::<ResponseMessage>(alloc, item) {
        Ok(message) => Ok(message_outcome(operation, &message)),
        Err(ReadError::Unread) => Ok(Outcome::Unread),
        Err(ReadError::OutOfMemory) => Err(OutOfMemory),
    }
}
