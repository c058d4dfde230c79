//! A call that is made on a client, and the line of its answer.
ghost use Rattle.std.specs.Prelude.{◌≡◌, ◌++◌, drop, IfOk, OnOk};
ghost use Rattle.kmip_enums.specs.declared.operation.Operation.{Operation as TheOperation};
ghost use Rattle.kmip_request.specs.Message.{operation_of};
ghost use Rattle.kmip_response.specs.Values.{response_payload_val};
ghost use Rattle.kmip_client.specs.Client.{IsOfOperation};
ghost use Rattle.kmip_client.specs.Outcome.{answer_with_payload};
ghost use Rattle.kmip_words.specs.Exchange.{settings_of, operation_asked, payload_in_style};
ghost use Rattle.kmip_words.specs.Exchange.{texts_in_style, request_in_style, value_in_style, value_line};
ghost use Rattle.kmip_words.specs.Exchange.{step_in, json_line, Answers, Shows};
ghost use Rattle.kmip_words.specs.JsonLines.{IsGrammarLine};

use crate::call::{Call, request_for};
use crate::ending::Ending;
use crate::laws::lines_are_json;
use crate::show::{done_line, push_pair, push_payload, show_error};
use kmip_client::{Client, Error};
use kmip_link::MemoryLink;
use kmip_request::RequestPayload;
use kmip_response::ResponsePayload;
use kmip_shape::{Item, Style};
use kmip_types::UniqueIdentifier;
use kmip_wire::{OutOfMemory, Text};
use std::alloc::Global;

/// Adds a payload as a line, as its record, without the name of its operation.
fn push_record(
    alloc: Global,
    style: Style,
    payload: &ResponsePayload,
    line: &mut Text,
) -> Result<(), OutOfMemory>
    ensures { OnOk result (line.new ≡ line.old
        ++ value_line (payload_in_style (response_payload_val payload.now) style) style) }
{
    match payload {
        ResponsePayload::Create(payload) => push_payload(alloc, style, payload, line),
        ResponsePayload::CreateKeyPair(payload) => push_payload(alloc, style, payload, line),
        ResponsePayload::Register(payload) => push_payload(alloc, style, payload, line),
        ResponsePayload::Locate(payload) => push_payload(alloc, style, payload, line),
        ResponsePayload::Get(payload) => push_payload(alloc, style, payload, line),
        ResponsePayload::GetAttributes(payload) => push_payload(alloc, style, payload, line),
        ResponsePayload::GetAttributeList(payload) => push_payload(alloc, style, payload, line),
        ResponsePayload::AddAttribute(payload) => push_payload(alloc, style, payload, line),
        ResponsePayload::ModifyAttribute(payload) => push_payload(alloc, style, payload, line),
        ResponsePayload::DeleteAttribute(payload) => push_payload(alloc, style, payload, line),
        ResponsePayload::Activate(payload) => push_payload(alloc, style, payload, line),
        ResponsePayload::Revoke(payload) => push_payload(alloc, style, payload, line),
        ResponsePayload::Destroy(payload) => push_payload(alloc, style, payload, line),
        ResponsePayload::Query(payload) => push_payload(alloc, style, payload, line),
        ResponsePayload::DiscoverVersions(payload) => push_payload(alloc, style, payload, line),
        ResponsePayload::Sign(payload) => push_payload(alloc, style, payload, line),
        ResponsePayload::RNGRetrieve(payload) => push_payload(alloc, style, payload, line),
    }
}

/// Adds the identifiers of a key pair as a line.
fn push_identifiers(
    alloc: Global,
    style: Style,
    payload: &ResponsePayload,
    line: &mut Text,
) -> Result<(), OutOfMemory>
    requires { IsOfOperation TheOperation.CreateKeyPair (response_payload_val payload.now) }
    ensures { OnOk result (line.new ≡ line.old
        ++ value_line (texts_in_style (response_payload_val payload.now) style) style) }
{
    match payload {
        ResponsePayload::CreateKeyPair(pair) => {
            let UniqueIdentifier(private_key) = &pair.private_key_unique_identifier;
            let UniqueIdentifier(public_key) = &pair.public_key_unique_identifier;
            push_pair(alloc, style, private_key, public_key, line)
        }
        _ => unreachable!(),
    }
}

/// Adds the payload that a request is answered with as a line.
fn push_answer_to(
    alloc: Global,
    style: Style,
    request: &RequestPayload,
    payload: &ResponsePayload,
    line: &mut Text,
) -> Result<(), OutOfMemory>
    requires { IsOfOperation (operation_of request.now) (response_payload_val payload.now) }
    ensures { OnOk result (line.new ≡ line.old
        ++ value_line (request_in_style request.now (response_payload_val payload.now) style) style) }
{
    match request {
        RequestPayload::CreateKeyPair(..) => push_identifiers(alloc, style, payload, line),
        RequestPayload::Activate(_) => line.push_str(done_line(style)),
        RequestPayload::Revoke(..) => line.push_str(done_line(style)),
        RequestPayload::Destroy(_) => line.push_str(done_line(style)),
        RequestPayload::Create(..)
        | RequestPayload::Register(..)
        | RequestPayload::Locate(_)
        | RequestPayload::Get(..)
        | RequestPayload::GetAttributes(..)
        | RequestPayload::GetAttributeList(_)
        | RequestPayload::AddAttribute(..)
        | RequestPayload::ModifyAttribute(..)
        | RequestPayload::DeleteAttribute(..)
        | RequestPayload::Query(_)
        | RequestPayload::DiscoverVersions(_)
        | RequestPayload::Sign(..)
        | RequestPayload::RNGRetrieve(_) => push_record(alloc, style, payload, line),
    }
}

/// Adds the payload that a call is answered with as a line.
pub fn push_answer(
    alloc: Global,
    style: Style,
    call: &Call,
    payload: &ResponsePayload,
    line: &mut Text,
) -> Result<(), OutOfMemory>
    requires { IsOfOperation (operation_asked call.now) (response_payload_val payload.now) }
    ensures { OnOk result (line.new ≡ line.old
        ++ value_line (value_in_style call.now (response_payload_val payload.now) style) style) }
{
    match call {
        Call::Raw { .. } => push_payload(alloc, style, payload, line),
        Call::Request { payload: request } => {
            push_answer_to(alloc, style, request.get(), payload, line)
        }
        Call::CreateRsa { .. } => push_identifiers(alloc, style, payload, line),
        Call::Activate { .. } => line.push_str(done_line(style)),
        Call::Revoke { .. } => line.push_str(done_line(style)),
        Call::Destroy { .. } => line.push_str(done_line(style)),
        Call::Query => push_record(alloc, style, payload, line),
        Call::Rng { .. } => push_record(alloc, style, payload, line),
        Call::Sign { .. } => push_record(alloc, style, payload, line),
        Call::Rename { .. } => push_record(alloc, style, payload, line),
        Call::Get { .. } => push_record(alloc, style, payload, line),
    }
}

/// Adds the payload or the error that a call is answered with as a line, and returns how the call
/// ended. Its only error is `OutOfMemory`.
fn show_result(
    alloc: Global,
    style: Style,
    call: &Call,
    answer: &Result<ResponsePayload, Error>,
    line: &mut Text,
) -> Result<Ending, OutOfMemory>
    requires { IfOk answer.now
        (λ payload. IsOfOperation (operation_asked call.now) (response_payload_val payload)) }
    ensures shown { IfOk result (λ ending. Shows (λ payload. value_in_style call.now payload style)
        style (answer_with_payload answer.now) ending line.old line.new) }
    ensures json { IsGrammarLine (json_line call.now (answer_with_payload answer.now)) }
{
    lines_are_json();
    match answer {
        Ok(payload) => {
            payload.fits();
            push_answer(alloc, style, call, payload, line)?;
            Ok(Ending::Answered)
        }
        Err(error) => show_error(alloc, style, error, line),
    }
}

/// The same, and drops the answer.
fn show_answer(
    alloc: Global,
    style: Style,
    call: &Call,
    answer: Result<ResponsePayload, Error>,
    line: &mut Text,
) -> Result<Ending, OutOfMemory>
    requires { IfOk answer
        (λ payload. IsOfOperation (operation_asked call.now) (response_payload_val payload)) }
    ensures shown { IfOk result (λ ending. Shows (λ payload. value_in_style call.now payload style)
        style (answer_with_payload answer) ending line.old line.new) }
{
    show_result(alloc, style, call, &answer, line)
}

/// Makes a call on the client, adds the line of its answer in this style, and returns how it ended.
///
/// Its only error is `OutOfMemory`: then the request may have been sent, and a part of the line
/// added.
pub fn answer(
    alloc: Global,
    client: &mut Client<MemoryLink>,
    style: Style,
    call: Call,
    line: &mut Text,
) -> Result<Ending, OutOfMemory>
    ensures { IfOk result
        (λ ending. Answers (step_in style (settings_of client.old) call
        (drop client.old.link.pos client.old.link.ever))
        client.old client.new ending line.old line.new) }
{
    let request = request_for(alloc, &call)?;
    let answer = client.do_request(alloc, request);
    show_answer(alloc, style, &call, answer, line)
}
