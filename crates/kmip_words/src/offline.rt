//! Calls with no link: the bytes that a call sends, and the answer that the bytes sent back are.
ghost use Rattle.std.specs.Prelude.{◌≡◌, ◌++◌, false, Ok, Err};
ghost use Rattle.std.specs.Prelude.{ℕ, List, Option, IfOk, OnOk, option_map};
ghost use Rattle.kmip_wire.specs.Found.{GivesBytes};
ghost use Rattle.kmip_request.specs.Message.{credential_of};
ghost use Rattle.kmip_response.specs.Values.{response_payload_val};
ghost use Rattle.kmip_client.specs.Client.{credential_for, IsOfOperation};
ghost use Rattle.kmip_client.specs.Outcome.{answer_with_payload};
ghost use Rattle.kmip_words.specs.Exchange.{Settings as TheSettings, request_asked};
ghost use Rattle.kmip_words.specs.Exchange.{operation_asked};
ghost use Rattle.kmip_words.specs.About.{AddsLineAs, AddsLine, response_line, response_ending};
ghost use Rattle.kmip_words.specs.JsonLines.{IsGrammarLine, IsJsonLine};

use crate::about::objection;
use crate::answers::push_answer;
use crate::call::{Call, operation_for, request_for};
use crate::ending::Ending;
use crate::laws::lines_are_json;
use crate::refusal::push_internal_error;
use crate::setup::authentication_of;
use crate::strays::show_failure;
use kmip_client::{Error, Reading, read_response};
use kmip_enums::Operation;
use kmip_request::{Authentication, write_request};
use kmip_response::ResponsePayload;
use kmip_shape::{Item, Style};
use kmip_wire::{Blob, OutOfMemory, Text, WireError};
use std::alloc::Global;
use std::marker::Model;

/// The settings of calls: who makes them, and how long a response may be.
#[derive(Drop)]
pub struct Settings {
    authentication: Option<Authentication>,
    limit: Option<u32>,
}

impl Model for Settings {
    ghost use Rattle.std.specs.Prelude.{false, option_map};
    ghost use Rattle.kmip_request.specs.Message.{credential_of};
    ghost use Rattle.kmip_words.specs.Exchange.{Settings as TheSettings};

    ghost Value = { TheSettings };

    ghost view = { λ s. record {
      credential = option_map credential_of s.authentication;
      limit = s.limit;
      buffered = false;
    } };
}

impl Settings {
    /// Calls whose requests carry the user name and the password where both are given. `limit` is
    /// the most bytes that a response may have, its head counted. It takes no memory.
    pub fn new(user: Option<Text>, password: Option<Text>, limit: Option<u32>) -> Settings
        ensures { result ≡
            record { credential = credential_for user password; limit = limit; buffered = false } }
    {
        Settings {
            authentication: authentication_of(user, password),
            limit,
        }
    }

    /// The most bytes that a response may have, its head counted. It takes no memory.
    pub fn limit(&self) -> Option<u32>
        ensures { result ≡ self.now.limit }
    {
        self.limit
    }

    /// What each request shows of who makes it. It takes no memory.
    pub fn authentication(&self) -> &Option<Authentication>
        ensures { option_map credential_of result.now ≡ self.now.credential }
    {
        &self.authentication
    }
}

/// What was written of a request: its bytes, and `None` where it has no wire form. `Malformed`
/// never comes.
pub fn bytes_if_any(written: Result<Blob, WireError>) -> Result<Option<Blob>, OutOfMemory>
    ensures { (wanted : Option (List ℕ)) → GivesBytes written wanted →
        IfOk result (λ bytes. bytes ≡ wanted) }
{
    match written {
        Ok(bytes) => Ok(Some(bytes)),
        Err(WireError::OutOfMemory) => Err(OutOfMemory),
        Err(WireError::NoForm | WireError::Malformed) => Ok(None),
    }
}

/// The bytes that a call sends: its one canonical message; `None` where it has no wire form.
pub fn request_of(
    alloc: Global,
    settings: &Settings,
    call: &Call,
) -> Result<Option<Blob>, OutOfMemory>
    ensures { IfOk result
        (λ request. request ≡ (request_asked call.now settings.now.credential).message) }
{
    let request = request_for(alloc, call)?;
    bytes_if_any(write_request(alloc, &request, settings.authentication()))
}

/// Adds the line of a payload that a call is answered with, or of why it is no answer, and returns
/// how the call ended. `first` is the first message of the response.
fn add_payload_line(
    alloc: Global,
    call: &Call,
    payload: &ResponsePayload,
    first: &[u8],
    line: &mut Text,
) -> Result<Ending, OutOfMemory>
    requires { IsOfOperation (operation_asked call.now) (response_payload_val payload.now) }
    ensures { IfOk result (λ ending. AddsLineAs IsGrammarLine call.now
        (Ok (response_payload_val payload.now)) first.now ending line.old line.new) }
{
    lines_are_json();
    match objection(call, payload) {
        Some(text) => {
            push_internal_error(alloc, text, first, line)?;
            Ok(Ending::Lost)
        }
        None => {
            payload.fits();
            push_answer(alloc, Style::Json, call, payload, line)?;
            Ok(Ending::Answered)
        }
    }
}

/// Adds the line of an error that a call is answered with, and returns how the call ended. `first`
/// is the first message of the response.
fn add_error_line(
    alloc: Global,
    call: &Call,
    operation: Operation,
    error: &Error,
    first: &[u8],
    line: &mut Text,
) -> Result<Ending, OutOfMemory>
    requires { operation ≡ operation_asked call.now }
    ensures { IfOk result
        (λ ending. AddsLineAs IsGrammarLine call.now (Err error.now) first.now ending line.old
        line.new) }
{
    lines_are_json();
    show_failure(alloc, Some(operation), error, first, line)
}

/// Adds the line of what a call is answered with, and returns how the call ended. `first` is the
/// first message of the response. Its only error is `OutOfMemory`.
fn add_result_line(
    alloc: Global,
    call: &Call,
    operation: Operation,
    answer: &Result<ResponsePayload, Error>,
    first: &[u8],
    line: &mut Text,
) -> Result<Ending, OutOfMemory>
    requires operation { operation ≡ operation_asked call.now }
    requires variant { IfOk answer.now
        (λ payload. IsOfOperation (operation_asked call.now) (response_payload_val payload)) }
    ensures { IfOk result (λ ending. AddsLineAs IsGrammarLine call.now
        (answer_with_payload answer.now) first.now ending line.old line.new) }
{
    match answer {
        Ok(payload) => add_payload_line(alloc, call, payload, first, line),
        Err(error) => add_error_line(alloc, call, operation, error, first, line),
    }
}

/// The same, and drops the answer. The line stands between two texts, so it is in UTF-8.
fn add_line(
    alloc: Global,
    call: &Call,
    operation: Operation,
    answer: Result<ResponsePayload, Error>,
    first: &[u8],
    line: &mut Text,
) -> Result<Ending, OutOfMemory>
    requires operation { operation ≡ operation_asked call.now }
    requires variant { IfOk answer
        (λ payload. IsOfOperation (operation_asked call.now) (response_payload_val payload)) }
    ensures { IfOk result
        (λ ending. AddsLine call.now (answer_with_payload answer) first.now ending line.old line.new) }
{
    line.as_str();
    let ending = add_result_line(alloc, call, operation, &answer, first, line);
    line.as_str();
    ending
}

/// Adds the answer that these bytes are to a call as a line of JSON, and returns how the call
/// ended. The line is `{"answer":..}` with the payload, or `{"error":"ItemNotFound","text":".."}`
/// with the name of the error's variant and its text. It is what a client returns over a link with
/// these bytes to read, and depends on no byte after the first message.
///
/// A response that is none to the call belongs to another one, and so may the next response: the
/// call ended as `Lost`. Such is one that is no response message of one batch item, one that names
/// another operation, and a success that names none. The line of a failure of another operation has
/// the error `InternalError`, and a text that names both operations. Such is also an answer about
/// another object than the call named; a pair with one identifier for its two keys; no random bytes
/// where some were asked for; and an object that is not wrapped where a wrapped one was asked for.
/// Then the line has the error `InternalError` with a text as `answer for another object`.
///
/// The line of a `ServerError` or an `ItemNotFound` has what the response says of the failure, as
/// far as it stands in it: the members `reason`, an object with the `name` of the server's reason,
/// where it is one of KMIP 1.2, and its `number`; and `message`, the server's text. That of an
/// `InternalError` has them too, and before them the member `response`, the skeleton of the first
/// message as kmip_diag prints it.
pub fn answer_of(
    alloc: Global,
    settings: &Settings,
    call: &Call,
    response: &[u8],
    line: &mut Text,
) -> Result<Ending, OutOfMemory>
    ensures line { OnOk result
        (line.new ≡ line.old ++ response_line settings.now call.now response.now) }
    ensures ending { IfOk result
        (λ ending. ending ≡ response_ending settings.now call.now response.now) }
    ensures json { OnOk result (IsJsonLine (response_line settings.now call.now response.now)) }
{
    let operation = operation_for(alloc, call)?;
    let limit = settings.limit();
    let Reading { answer, taken } = read_response(alloc, operation, response, limit);
    add_line(alloc, call, operation, answer, &response[..taken], line)
}
