//! The line of what a response answers to a call whose payloads are trees.
ghost use Rattle.std.specs.Prelude.{◌≡◌, ◌++◌, ◌≤◌, [], length, take, option_map};
ghost use Rattle.std.specs.Prelude.{Ok, Err, IfOk, OnOk, IsUtf8};
ghost use Rattle.kmip_shape.specs.declared.style.Style.TheVariants.{Json};
ghost use Rattle.kmip_plain.specs.Payload.{payload_text};
ghost use Rattle.kmip_plain.specs.declared.payload.PayloadForm.{PayloadForm as TheForm};
ghost use Rattle.kmip_words.specs.Exchange.{value_line};
ghost use Rattle.kmip_client.specs.declared.error.Error.TheVariants.{InternalError};
ghost use Rattle.kmip_words.specs.Refusal.{failure_line};
ghost use Rattle.kmip_operations.specs.Calls.{request_of};
ghost use Rattle.kmip_operations.specs.Answers.{operation_json_line, operation_ending};
ghost use Rattle.kmip_operations.specs.Answers.{operation_of, id_of, ending_for};
ghost use Rattle.kmip_operations.specs.Answers.{objection_to, AddsErrorLine, AddsTreeLine};
ghost use Rattle.kmip_operations.specs.JsonLines.{IsTextLine};

use crate::call::{OperationCall, id_of};
use crate::laws::lines_are_json;
use crate::objection::objection;
use kmip_client::{Error, Reading, is_of_other_item, read_operation_response};
use kmip_enums::Operation;
use kmip_plain::{PayloadForm, push_payload};
use kmip_wire::{OutOfMemory, Text, Tree};
use kmip_words::{Ending, Settings, show_failure};
use std::alloc::Global;

/// Adds a tree in this form as a line of JSON: `{"answer":PAYLOAD}`.
#[tactic(auto, using(std::proofs::lemmas::List::append_assoc))]
fn push_tree(
    alloc: Global,
    form: PayloadForm,
    tree: &Tree,
    line: &mut Vec<u8>,
) -> Result<(), OutOfMemory>
    ensures line { OnOk result
        (line.new.items ≡ line.old.items ++ value_line (payload_text form tree.now) Json) }
    ensures utf8 { OnOk result (IsUtf8 (value_line (payload_text form tree.now) Json)) }
{
    line.extend_from_slice(b"{\"answer\":")?;
    push_payload(alloc, form, tree, line)?;
    line.extend_from_slice(b"}\n")?;
    Ok(())
}

/// How a call with this Unique Batch Item ID ended that was answered with an error: lost, where the
/// message that was taken is that of a request with another ID.
fn ending_for(
    alloc: Global,
    id: Option<&[u8]>,
    first: &[u8],
    ending: Ending,
) -> Result<Ending, OutOfMemory>
    ensures { IfOk result
        (λ it. it ≡ ending_for (option_map (λ id. id.now) id.entry) first.now ending) }
{
    if is_of_other_item(alloc, id, first)? {
        Ok(Ending::Lost)
    } else {
        Ok(ending)
    }
}

/// Adds an error as a line of JSON, and returns how a call ended that has no Unique Batch Item ID.
/// `first` is the message that was taken, and `operation` that of the call, `None` for a message of
/// the caller's.
fn push_error_line(
    alloc: Global,
    operation: Option<Operation>,
    error: &Error,
    first: &[u8],
    line: &mut Text,
) -> Result<Ending, OutOfMemory>
    ensures { IfOk result
        (λ ending. AddsErrorLine operation error.now first.now ending line.old line.new) }
{
    lines_are_json();
    line.as_str();
    let ending = show_failure(alloc, operation, error, first, line);
    line.as_str();
    ending
}

/// The operation of a call, if one is known.
fn operation_of(asked: Option<&OperationCall>) -> Option<Operation>
    ensures { result ≡ operation_of (option_map (λ call. request_of call.now) asked.entry) }
{
    match asked {
        Some(call) => Some(call.operation),
        None => None,
    }
}

/// The Unique Batch Item ID of a call's request, if it is known and has one.
fn id_if_asked<'a>(asked: Option<&'a OperationCall>) -> Option<&'a [u8]>
    ensures { option_map (λ id. id.now) result ≡
        id_of (option_map (λ call. request_of call.now) asked.entry) }
{
    match asked {
        Some(call) => id_of(call),
        None => None,
    }
}

/// Adds an error as a line of JSON, and returns how the call ended. `first` is the message that was
/// taken, and `asked` the call, `None` for a message of the caller's. The line is the same in each
/// form.
fn push_error(
    alloc: Global,
    asked: Option<&OperationCall>,
    error: &Error,
    first: &[u8],
    line: &mut Text,
) -> Result<Ending, OutOfMemory>
    ensures { IfOk result (λ ending. (form : TheForm) → AddsTreeLine form
        (option_map (λ call. request_of call.now) asked.entry) (Err error.now) first.now ending
        line.old line.new) }
{
    let ended = push_error_line(alloc, operation_of(asked), error, first, line)?;
    ending_for(alloc, id_if_asked(asked), first, ended)
}

/// Adds the line of the error that stands in place of a payload that is no answer to its call, for
/// this reason. `first` is the message that was taken.
fn push_objection(
    alloc: Global,
    why: &str,
    first: &[u8],
    line: &mut Vec<u8>,
) -> Result<(), OutOfMemory>
    ensures line { OnOk result (line.new.items ≡
        line.old.items ++ failure_line (InternalError why.now) first.now) }
    ensures json { OnOk result (IsTextLine (failure_line (InternalError why.now) first.now)) }
{
    let error = Error::InternalError(Text::of(alloc, why)?);
    let mut text = Text::new(alloc);
    push_error_line(alloc, None, &error, first, &mut text)?;
    line.extend_from_slice(text.as_str().as_bytes())?;
    Ok(())
}

/// Why a payload is no answer to the call, where it is none; to a message of the caller's each is
/// one.
fn objection_to(asked: Option<&OperationCall>, tree: &Tree) -> Option<&'static str>
    ensures { option_map (λ text. text.now) result ≡
        objection_to (option_map (λ call. request_of call.now) asked.entry) tree.now }
{
    match asked {
        Some(call) => objection(call, tree),
        None => None,
    }
}

/// Adds the line of a payload in this form, or of the error in its place where it is no answer to
/// the call, and returns how the call ended. `first` is the message that was taken, and `asked` the
/// call, `None` for a message of the caller's.
fn push_payload_line(
    alloc: Global,
    form: PayloadForm,
    asked: Option<&OperationCall>,
    tree: &Tree,
    first: &[u8],
    line: &mut Vec<u8>,
) -> Result<Ending, OutOfMemory>
    ensures { IfOk result (λ ending. AddsTreeLine form
        (option_map (λ call. request_of call.now) asked.entry) (Ok tree.now) first.now ending
        line.old.items line.new.items) }
{
    lines_are_json();
    match objection_to(asked, tree) {
        Some(why) => {
            push_objection(alloc, why, first, line)?;
            Ok(Ending::Lost)
        }
        None => {
            tree.ranges();
            push_tree(alloc, form, tree, line)?;
            Ok(Ending::Answered)
        }
    }
}

/// Adds the line of what a call is answered with, its payload in this form, and returns how the
/// call ended. `first` is the message that was taken, and `asked` the call, `None` for a message of
/// the caller's. Its only error is `OutOfMemory`; then a part of the line may have been added.
fn push_answer(
    alloc: Global,
    form: PayloadForm,
    asked: Option<&OperationCall>,
    answer: Result<Tree, Error>,
    first: &[u8],
    line: &mut Vec<u8>,
) -> Result<Ending, OutOfMemory>
    ensures { IfOk result (λ ending. AddsTreeLine form
        (option_map (λ call. request_of call.now) asked.entry) answer first.now ending
        line.old.items line.new.items) }
{
    match answer {
        Ok(tree) => push_payload_line(alloc, form, asked, &tree, first, line),
        Err(error) => {
            let mut text = Text::new(alloc);
            let ending = push_error(alloc, asked, &error, first, &mut text)?;
            line.extend_from_slice(text.as_str().as_bytes())?;
            Ok(ending)
        }
    }
}

/// How a call ended, and the line of its answer.
#[derive(Drop)]
pub struct TreeAnswer {
    /// Whether it returned an error, and whether the connection is good for the next call.
    pub ending: Ending,
    /// The line of JSON in UTF-8, with its line feed.
    pub line: Vec<u8>,
}

/// How a call ended with this reading of a response, and its line. `asked` is the call, `None` for
/// a message of the caller's.
pub fn tree_answer_of(
    alloc: Global,
    form: PayloadForm,
    asked: Option<&OperationCall>,
    reading: Reading<Tree>,
    response: &[u8],
) -> Result<TreeAnswer, OutOfMemory>
    requires { reading.taken ≤ length response.now }
    ensures { IfOk result (λ answer. AddsTreeLine form
        (option_map (λ call. request_of call.now) asked.entry) reading.answer
        (take reading.taken response.now) answer.ending [] answer.line.items) }
{
    let Reading { answer, taken } = reading;
    let mut line = Vec::new(alloc);
    let ending = push_answer(alloc, form, asked, answer, &response[..taken], &mut line)?;
    Ok(TreeAnswer { ending, line })
}

/// The answer that these bytes are to a call, as a line of JSON, and how the call ended: what a
/// client with these settings returns, once the request was sent, over a link with these bytes to
/// read. It depends on no byte after the first message.
///
/// The line is `{"answer":PAYLOAD}` with the payload of the response in this form, as `push_payload`
/// of kmip_plain writes it, or `{"error":"ServerError","text":".."}` with the name of the error's
/// variant and its text. The
/// line of a `ServerError` or an `ItemNotFound` has what the response says of the failure, as far
/// as it stands in it: the members `reason`, an object with the `name` of the server's reason, where
/// it is one of KMIP 1.2, and its `number`; and `message`, the server's text. That of an
/// `InternalError` has them too, and before them the member `response`, the skeleton of the first
/// message as kmip_diag prints it.
///
/// A response that is none to the call belongs to another one, and so may the next response: the
/// call ended as `Lost`. Such is one that is no response message of one batch item, one that names
/// another operation, and a success that names none. The line of a failure of another operation has
/// the error `InternalError`, and a text that names both operations. Where the call has a Unique
/// Batch Item ID, such is also one that has another or none, and its line has the error
/// `InternalError`; but a failure that names no operation and has no ID is the call's, since so a
/// server fails that could not read the request.
///
/// Such is also a success whose payload is no answer to the call, and its line has the error
/// `InternalError`: with the text `answer with an empty payload`, where it has no field, or there is
/// no payload, but for Locate, Query, Discover Versions, Poll, Notify and Put; `answer for another
/// object`, where the call names an object, or Cancel an operation, and the response is to name it
/// too, and names another or none; `answer with one identifier for two keys`, where Create Key Pair
/// or Re-key Key Pair has one; and `answer without an identifier`, where a field of the payload is
/// an empty identifier or Asynchronous Correlation Value.
pub fn operation_answer(
    alloc: Global,
    settings: &Settings,
    call: &OperationCall,
    response: &[u8],
    form: PayloadForm,
) -> Result<TreeAnswer, OutOfMemory>
    ensures line { IfOk result (λ answer. answer.line.items ≡
        operation_json_line form settings.now (request_of call.now) response.now) }
    ensures ending { IfOk result (λ answer. answer.ending ≡
        operation_ending settings.now (request_of call.now) response.now) }
    ensures json { IfOk result (λ answer. IsTextLine answer.line.items) }
{
    let id = id_of(call);
    let reading = read_operation_response(alloc, call.operation, id, response, settings.limit());
    tree_answer_of(alloc, form, Some(call), reading, response)
}
