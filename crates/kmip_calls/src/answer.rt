//! The request that a call sends, and what a response answers to it.
ghost use Rattle.std.specs.Prelude.{◌≡◌, IfOk};
ghost use Rattle.kmip_operations.specs.Answers.{operation_json_line, operation_ending};
ghost use Rattle.kmip_operations.specs.AnyPayload.{call_line, call_ending};
ghost use Rattle.kmip_operations.specs.Calls.{request_of};
ghost use Rattle.kmip_operations.specs.JsonLines.{IsTextLine};
ghost use Rattle.kmip_plain.specs.declared.payload.PayloadForm.TheVariants.{Plain};
ghost use Rattle.kmip_calls.specs.Answers.{request_asked, line_of, ending_of};
ghost use Rattle.kmip_calls.specs.Calls.{call_view};

use crate::call::WordsCall;
use kmip_operations::{
    OperationCall, PayloadForm, TreeAnswer, call_answer, operation_answer, operation_request,
};
use kmip_wire::{Blob, OutOfMemory};
use kmip_words::{Call, Ending, Settings, request_of};
use std::alloc::Global;

/// The bytes that a call sends: its one canonical message, with the credential of the settings;
/// `None` where it has no wire form, as where a text is too long for one.
pub fn request_of_words(
    alloc: Global,
    settings: &Settings,
    call: &WordsCall,
) -> Result<Option<Blob>, OutOfMemory>
    ensures { IfOk result
        (λ request. request ≡ request_asked (call_view call.now) settings.now.credential) }
{
    match call {
        WordsCall::Typed(call) => request_of(alloc, settings, call),
        WordsCall::Operation(call) => operation_request(alloc, settings, call),
    }
}

/// How a call ended, and the line of its answer.
#[derive(Drop)]
pub struct LineAnswer {
    /// Whether it returned an error, and whether the connection is good for the next call.
    pub ending: Ending,
    /// The line of JSON in UTF-8, with its line feed.
    pub line: Vec<u8>,
}

/// The answer that these bytes are to a typed call.
fn typed_answer(
    alloc: Global,
    settings: &Settings,
    call: &Call,
    response: &[u8],
) -> Result<LineAnswer, OutOfMemory>
    ensures line { IfOk result (λ answer. answer.line.items ≡
        call_line settings.now call.now response.now) }
    ensures ending { IfOk result (λ answer. answer.ending ≡
        call_ending settings.now call.now response.now) }
    ensures json { IfOk result (λ answer. IsTextLine answer.line.items) }
{
    let TreeAnswer { ending, line } = call_answer(alloc, settings, call, response)?;
    Ok(LineAnswer { ending, line })
}

/// The answer that these bytes are to a call of the table.
fn table_answer(
    alloc: Global,
    settings: &Settings,
    call: &OperationCall,
    response: &[u8],
) -> Result<LineAnswer, OutOfMemory>
    ensures line { IfOk result (λ answer. answer.line.items ≡
        operation_json_line Plain settings.now (request_of call.now) response.now) }
    ensures ending { IfOk result (λ answer. answer.ending ≡
        operation_ending settings.now (request_of call.now) response.now) }
    ensures json { IfOk result (λ answer. IsTextLine answer.line.items) }
{
    let TreeAnswer { ending, line } = operation_answer(
        alloc,
        settings,
        call,
        response,
        PayloadForm::Plain,
    )?;
    Ok(LineAnswer { ending, line })
}

/// The answer that these bytes are to a call, as a line of JSON, and how the call ended: what a
/// client with these settings returns, once the request was sent, over a link with these bytes to
/// read. It depends on no byte after the first message.
///
/// The line is `{"answer":..}` with the payload as an object of its members, as
/// `{"answer":{"data":"6868"}}`, or `{"error":"ItemNotFound","text":".."}` as kmip_words'
/// `answer_of` says. Which responses are none to the call is said there for a typed one, and at
/// kmip_operations' `operation_answer` for one of the table. What `get` and `attributes` have no
/// words for, as a key of EC, is answered as a tree, as kmip_operations' `call_answer` says.
pub fn answer_to_words(
    alloc: Global,
    settings: &Settings,
    call: &WordsCall,
    response: &[u8],
) -> Result<LineAnswer, OutOfMemory>
    ensures line { IfOk result (λ answer. answer.line.items ≡
        line_of settings.now (call_view call.now) response.now) }
    ensures ending { IfOk result (λ answer. answer.ending ≡
        ending_of settings.now (call_view call.now) response.now) }
    ensures json { IfOk result (λ answer. IsTextLine answer.line.items) }
{
    match call {
        WordsCall::Typed(call) => typed_answer(alloc, settings, call, response),
        WordsCall::Operation(call) => table_answer(alloc, settings, call, response),
    }
}
