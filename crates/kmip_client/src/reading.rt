//! What bytes answer, with no link: for callers who carry the bytes themselves.
ghost use Rattle.std.specs.Prelude.{◌≡◌, length, Err, IfOk, option_map, true};
ghost use Rattle.kmip_client.specs.Front.{message_seen};
ghost use Rattle.kmip_client.specs.Message.{message_at, taken_for};
ghost use Rattle.kmip_response.specs.Values.{response_payload_val};
ghost use Rattle.kmip_client.specs.Client.{IsOfOperation};
ghost use Rattle.kmip_client.specs.Outcome.{Gives, answer_by, answer_of, answer_with_payload};
ghost use Rattle.kmip_client.specs.Outcome.{refused_text, seen_by};
ghost use Rattle.kmip_client.specs.Untyped.{identified_answer};
ghost use Rattle.kmip_client.specs.WholeMessage.{is_message, whole_answer};
ghost use Rattle.kmip_client.specs.declared.error.Error.TheVariants.{DeserializeError};

use crate::call_request::{ReadsAnswer, TypedAnswers};
use crate::error::Error;
use crate::operation::OperationAnswers;
use crate::whole_message::WholeAnswers;
use kmip_enums::Operation;
use kmip_response::ResponsePayload;
use kmip_wire::{Config, HeadError, Text, Tree, head};
use std::alloc::Global;
use std::marker::PhantomData;

/// What stands at the front of bytes: KMIP 1.0, 9.1.1.
#[derive(Clone, Copy)]
pub enum Front<'a> {
    /// The bytes end within the head or the contents.
    Ended,
    /// The head is not that of a structure, or announces more than the limit.
    Refused(HeadError),
    /// A message: a head and the contents that it says.
    Whole(&'a [u8]),
}

/// What stands at the front of these bytes.
pub fn front_of<'a>(bytes: &'a [u8], config: &Config) -> Front<'a>
    ensures { message_seen result ≡ message_at bytes.now config.now.max_bytes }
{
    let Some(first) = bytes.first_chunk::<8>() else {
        return Front::Ended;
    };
    match head(first, config) {
        Ok(len) => {
            let size = len as usize + 8;
            if bytes.len() < size {
                Front::Ended
            } else {
                Front::Whole(&bytes[..size])
            }
        }
        Err(error) => Front::Refused(error),
    }
}

/// How many of the bytes it is, or was found by.
pub fn taken_for(bytes: &[u8], front: &Front) -> usize
    ensures { result ≡ taken_for bytes.now (message_seen front.now) }
{
    match front {
        Front::Ended => bytes.len(),
        Front::Refused(_) => 8,
        Front::Whole(message) => message.len(),
    }
}

/// What bytes answer to a request, and how many of them say so.
#[derive(Drop)]
pub struct Reading<P> {
    /// What the message at the front of the bytes answers.
    pub answer: Result<P, Error>,
    /// How many of the bytes the answer depends on, from the front. It is those of the message,
    /// which the next one follows; 8, where its head is refused; and all of them, where they end
    /// before the message does.
    pub taken: usize,
}

/// Reads what the message at the front of these bytes answers to a request of this operation. The
/// caller carries the bytes: those of the request (`request::to_vec`) to the server, and those that
/// come from it here. `do_request` is this reading, of the bytes that it takes off its link.
///
/// ```rust
/// let request = kmip_client::request::to_vec(alloc, payload, credential)?;
/// // carry request.as_slice() to the server, and keep what comes from it in `received`
/// let reading = kmip_client::read_response(alloc, operation, &received, Some(65536));
/// // the next message begins at received[reading.taken..]
/// let payload = reading.answer?;
/// ```
///
/// `limit` is the most bytes that a message may have, its head of 8 bytes counted, if there is a
/// limit. A message is a head and the contents whose length the head says (KMIP 1.0, 9.1.1); bytes
/// after it play no part. The payload is that of the one batch item of a Response Message with the
/// status Success and this operation (KMIP 1.0, 6.9, 7.1 and 7.2). The errors are:
///
/// - `ResponseReadError`: the bytes end before the message does. Read more, and call it anew with
///   all of them.
/// - `DeserializeError`: the head is not that of a structure or announces more than the limit; or
///   the message is not well formed.
/// - `ServerError`, `ItemNotFound`: the server refused the request, or there is not one batch item.
/// - `InternalError`: the message is no success of this operation.
/// - `OutOfMemory`: memory ran out. The answer can be read again of the same bytes.
pub fn read_response(
    alloc: Global,
    operation: Operation,
    bytes: &[u8],
    limit: Option<u32>,
) -> Reading<ResponsePayload>
    ensures answer { Gives (answer_of operation (message_at bytes.now limit))
        (answer_with_payload result.answer) }
    ensures taken { result.taken ≡ taken_for bytes.now (message_at bytes.now limit) }
    ensures variant { IfOk result.answer
        (λ payload. IsOfOperation operation (response_payload_val payload)) }
{
    let reader = TypedAnswers::<ResponsePayload> {
        operation,
        returns: PhantomData,
    };
    read_front(alloc, &reader, bytes, limit)
}

/// Reads what the message at the front of these bytes answers to a request of any operation, as a
/// tree: the reading of `do_operation`, of bytes that the caller carries. `id` is the Unique Batch
/// Item ID that the request had, if it had one. What `limit` and `taken` mean, and the errors, are
/// those of `read_response`, but for these, which are as `do_operation` has them:
///
/// - `ServerError`, `ItemNotFound`: the server refused the request.
/// - `InternalError`: the message is well formed and is neither a success nor such a refusal, or
///   its batch item is that of a request with another ID (`is_of_other_item`).
pub fn read_operation_response(
    alloc: Global,
    operation: Operation,
    id: Option<&[u8]>,
    bytes: &[u8],
    limit: Option<u32>,
) -> Reading<Tree>
    ensures answer { Gives (answer_by (identified_answer operation (option_map (λ b. b.now) id.entry))
        (message_at bytes.now limit)) result.answer }
    ensures taken { result.taken ≡ taken_for bytes.now (message_at bytes.now limit) }
{
    read_front(alloc, &OperationAnswers { operation, id }, bytes, limit)
}

/// Reads the message at the front of these bytes as a tree, whatever it says: the reading of
/// `do_message`, of bytes that the caller carries. It is a structure of at most 64 levels. What
/// `limit` and `taken` mean, and the errors, are those of `read_response`; `ServerError`,
/// `ItemNotFound` and `InternalError` never come.
pub fn read_whole_message(alloc: Global, bytes: &[u8], limit: Option<u32>) -> Reading<Tree>
    ensures answer { Gives (answer_by whole_answer (message_at bytes.now limit)) result.answer }
    ensures taken { result.taken ≡ taken_for bytes.now (message_at bytes.now limit) }
    ensures message { IfOk result.answer (λ message. is_message message ≡ true) }
{
    read_front(alloc, &WholeAnswers, bytes, limit)
}

/// How messages are read under this limit.
fn config_for(limit: Option<u32>) -> Config
    ensures { result.max_bytes ≡ limit }
{
    match limit {
        Some(most) => Config::new().with_max_bytes(most),
        None => Config::new(),
    }
}

/// The reading of any response.
fn read_front<R: ReadsAnswer>(
    alloc: Global,
    reader: &R,
    bytes: &[u8],
    limit: Option<u32>,
) -> Reading<R::Payload>
    requires { R.IsRead reader.now }
    ensures answer { Gives (answer_by (R.reads reader.now) (message_at bytes.now limit))
        (seen_by (R.seen reader.now) result.answer) }
    ensures taken { result.taken ≡ taken_for bytes.now (message_at bytes.now limit) }
{
    let front = front_of(bytes, &config_for(limit));
    Reading {
        taken: taken_for(bytes, &front),
        answer: answer(alloc, reader, front),
    }
}

/// Why a head was refused.
fn refused<P>(alloc: Global, error: HeadError) -> Result<P, Error>
    ensures { Gives (Err (DeserializeError (refused_text error))) result }
{
    match error {
        HeadError::NotStructure => {
            Err(Error::DeserializeError(Text::of(alloc, "not a structure")?))
        }
        HeadError::TooLong { size, limit } => {
            let text = format!(in alloc; "response size {size} exceeds limit {limit}")?;
            Err(Error::DeserializeError(Text::of_string(text)))
        }
    }
}

/// What is answered to what stands at the front of bytes.
#[inline(always)]
pub fn answer<R: ReadsAnswer>(alloc: Global, reader: &R, front: Front) -> Result<R::Payload, Error>
    requires { R.IsRead reader.now }
    ensures { Gives (answer_by (R.reads reader.now) (message_seen front.entry))
        (seen_by (R.seen reader.now) result) }
{
    match front {
        Front::Ended => Err(Error::ResponseReadError(Text::of(alloc, "end of input")?)),
        Front::Refused(error) => refused(alloc, error),
        Front::Whole(message) => reader.read(alloc, message),
    }
}
