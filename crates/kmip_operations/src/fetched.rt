//! What a response answers to a typed call, also where its tables have no words for the payload.
ghost use Rattle.std.specs.Prelude.{◌≡◌, ◌≢◌, ◌≤◌, length, take, true, false, codes};
ghost use Rattle.std.specs.Prelude.{Some, None, Err, option_map};
ghost use Rattle.std.specs.Prelude.{IfOk, OnOk, IfSome, MatchOption};
ghost use Rattle.std.specs.List.{list_any};
ghost use Rattle.std.specs.Result.{result_ok};
ghost use Rattle.kmip_wire.specs.Tree.{Tree as TheTree};
ghost use Rattle.kmip_plain.specs.declared.payload.PayloadForm.TheVariants.{Tree as AsTree};
ghost use Rattle.kmip_client.specs.Message.{message_at, taken_for};
ghost use Rattle.kmip_client.specs.Outcome.{answer_of, answer_with_payload};
ghost use Rattle.kmip_client.specs.declared.error.Error.{Error as TheError};
ghost use Rattle.kmip_client.specs.declared.error.Error.TheVariants.{InternalError};
ghost use Rattle.kmip_words.specs.Exchange.{operation_asked};
ghost use Rattle.kmip_words.specs.About.{identifier_or_none, asked_about};
ghost use Rattle.kmip_words.specs.About.{response_line, response_ending};
ghost use Rattle.kmip_words.specs.declared.call.Call.TheVariants.{Request};
ghost use Rattle.kmip_words.specs.declared.ending.Ending.TheVariants.{Lost};
ghost use Rattle.kmip_operations.specs.Answers.{tree_line};
ghost use Rattle.kmip_operations.specs.AnyPayload.{is_fetch, is_unread, unread_payload};
ghost use Rattle.kmip_operations.specs.AnyPayload.{object_tags, has_item, has_fetched};
ghost use Rattle.kmip_operations.specs.AnyPayload.{fetched_payload, AnswersWith};
ghost use Rattle.kmip_operations.specs.AnyPayload.{call_line, call_ending};
ghost use Rattle.kmip_operations.specs.JsonLines.{IsTextLine};

use crate::answer::{TreeAnswer, tree_answer_of};
use crate::objection::{differs, first_identifier, item_with};
use kmip_client::{Error, Reading, read_operation_response, read_response};
use kmip_enums::Operation;
use kmip_plain::PayloadForm;
use kmip_request::RequestPayload;
use kmip_response::ResponsePayload;
use kmip_tags::tags::{
    CERTIFICATE, CERTIFICATE_REQUEST, OBJECT_TYPE, OPAQUE_OBJECT, PGP_KEY, PRIVATE_KEY, PUBLIC_KEY,
    SECRET_DATA, SPLIT_KEY, SYMMETRIC_KEY, TEMPLATE,
};
use kmip_types::UniqueIdentifier;
use kmip_wire::{OutOfMemory, Text, Tree};
use kmip_words::{Call, Ending, Settings, answer_of};
use std::alloc::Global;

/// What a call fetches: its operation, and the identifier that it asks about.
#[derive(Drop)]
struct Fetch<'a> {
    operation: Operation,
    id: &'a str,
}

/// An identifier, or the empty text.
fn identifier_or_none(id: &Option<UniqueIdentifier>) -> &str
    ensures { result.now ≡ identifier_or_none id.now }
{
    match id {
        Some(UniqueIdentifier(id)) => id.as_str(),
        None => "",
    }
}

/// What a request fetches, where it does.
fn fetch_in(request: &RequestPayload) -> Option<Fetch<'_>>
    ensures { MatchOption result (is_fetch (Request request.now) ≡ false) (λ fetch.
        (is_fetch (Request request.now) ≡ true)
        × (fetch.operation ≡ operation_asked (Request request.now))
        × (fetch.id.now ≡ asked_about (Request request.now))) }
{
    match request {
        RequestPayload::Get(id, _, _, None) => Some(Fetch {
            operation: Operation::Get,
            id: identifier_or_none(id),
        }),
        RequestPayload::GetAttributes(id, _) => Some(Fetch {
            operation: Operation::GetAttributes,
            id: identifier_or_none(id),
        }),
        RequestPayload::Get(_, _, _, Some(_))
        | RequestPayload::Create(..)
        | RequestPayload::CreateKeyPair(..)
        | RequestPayload::Register(..)
        | RequestPayload::Locate(_)
        | RequestPayload::GetAttributeList(_)
        | RequestPayload::AddAttribute(..)
        | RequestPayload::ModifyAttribute(..)
        | RequestPayload::DeleteAttribute(..)
        | RequestPayload::Activate(_)
        | RequestPayload::Revoke(..)
        | RequestPayload::Destroy(_)
        | RequestPayload::Query(_)
        | RequestPayload::DiscoverVersions(_)
        | RequestPayload::Sign(..)
        | RequestPayload::RNGRetrieve(_) => None,
    }
}

/// What a call fetches, where it does.
fn fetch_of(call: &Call) -> Option<Fetch<'_>>
    ensures { MatchOption result (is_fetch call.now ≡ false) (λ fetch.
        (is_fetch call.now ≡ true) × (fetch.operation ≡ operation_asked call.now)
        × (fetch.id.now ≡ asked_about call.now)) }
{
    match call {
        Call::Get { id } => Some(Fetch {
            operation: Operation::Get,
            id: id.as_str(),
        }),
        Call::Request { payload } => fetch_in(payload.get()),
        Call::Query
        | Call::CreateRsa { .. }
        | Call::Rng { .. }
        | Call::Sign { .. }
        | Call::Activate { .. }
        | Call::Revoke { .. }
        | Call::Destroy { .. }
        | Call::Rename { .. }
        | Call::Raw { .. } => None,
    }
}

/// Whether the typed reading that answered so has no words for the message; out of memory says
/// neither.
fn says_unread(answer: &Result<ResponsePayload, Error>) -> Result<bool, OutOfMemory>
    ensures unread { IfOk result (λ unread. unread ≡ is_unread (answer_with_payload answer.now)) }
    ensures memory { OnOk result (answer_with_payload answer.now ≢ Err TheError.OutOfMemory) }
{
    match answer {
        Err(Error::OutOfMemory) => Err(OutOfMemory),
        Err(Error::InternalError(text)) => Ok(text.as_str() == "not a response message"),
        Err(
            Error::ConfigurationError(_)
            | Error::SerializeError(_)
            | Error::RequestWriteError(_)
            | Error::ResponseReadError(_)
            | Error::DeserializeError(_)
            | Error::ServerError(_)
            | Error::ItemNotFound(_)
            | Error::Unknown(_),
        ) => Ok(false),
        Ok(_) => Ok(false),
    }
}

/// Whether the typed reading has no words for the message at the front of a response.
fn is_past_tables(
    alloc: Global,
    settings: &Settings,
    operation: Operation,
    response: &[u8],
) -> Result<bool, OutOfMemory>
    ensures { IfOk result (λ past. past ≡
        is_unread (answer_of operation (message_at response.now settings.now.limit))) }
{
    let Reading { answer, .. } = read_response(alloc, operation, response, settings.limit());
    says_unread(&answer)
}

/// The payload of a response, and how many bytes its message has.
#[derive(Drop)]
struct Payload {
    payload: Tree,
    taken: usize,
}

/// What an operation is answered with as a tree, where that is a payload; out of memory says
/// neither.
fn payload_in(reading: Reading<Tree>) -> Result<Option<Payload>, OutOfMemory>
    ensures payload { IfOk result (λ found.
        option_map (λ found. found.payload) found ≡ result_ok reading.answer) }
    ensures taken { IfOk result (λ found. IfSome found (λ found. found.taken ≡ reading.taken)) }
    ensures memory { OnOk result (reading.answer ≢ Err TheError.OutOfMemory) }
{
    let Reading { answer, taken } = reading;
    match answer {
        Ok(payload) => Ok(Some(Payload { payload, taken })),
        Err(Error::OutOfMemory) => Err(OutOfMemory),
        Err(
            Error::ConfigurationError(_)
            | Error::SerializeError(_)
            | Error::RequestWriteError(_)
            | Error::ResponseReadError(_)
            | Error::DeserializeError(_)
            | Error::ServerError(_)
            | Error::InternalError(_)
            | Error::ItemNotFound(_)
            | Error::Unknown(_),
        ) => Ok(None),
    }
}

/// The tags of objects: KMIP 1.2, 2.2, and that of a certificate request, an object since KMIP 2.0.
const OBJECTS: &[u32] = &[
    CERTIFICATE,
    SYMMETRIC_KEY,
    PUBLIC_KEY,
    PRIVATE_KEY,
    SPLIT_KEY,
    TEMPLATE,
    SECRET_DATA,
    OPAQUE_OBJECT,
    PGP_KEY,
    CERTIFICATE_REQUEST,
];

/// The tags of objects, which are those of specs.
fn object_tags() -> &'static [u32]
    ensures { result.now ≡ object_tags }
{
    OBJECTS
}

/// Whether a payload has an item with this tag.
fn has_item(payload: &Tree, tag: u32) -> bool
    ensures { result ≡ has_item payload.now tag }
{
    item_with(payload, tag).is_some()
}

/// Whether a payload has an item with one of these tags.
fn has_one(payload: &Tree, tags: &[u32]) -> bool
    ensures { result ≡ list_any (has_item payload.now) tags.now }
{
    match tags {
        [] => false,
        [first, rest @ ..] => has_item(payload, *first) || has_one(payload, rest),
    }
}

/// Whether a payload has what the operation fetches: that of Get a type and an object.
fn has_fetched(operation: Operation, payload: &Tree) -> bool
    ensures { result ≡ has_fetched operation payload.now }
{
    match operation {
        Operation::Get => has_item(payload, OBJECT_TYPE) && has_one(payload, object_tags()),
        _ => true,
    }
}

/// The payload of a success of this operation, as a tree, where the typed reading has no words for
/// the message at the front of a response, and the payload has what is fetched.
fn unread_payload(
    alloc: Global,
    settings: &Settings,
    operation: Operation,
    response: &[u8],
) -> Result<Option<Payload>, OutOfMemory>
    ensures payload { IfOk result (λ found. option_map (λ found. found.payload) found ≡
        unread_payload operation (message_at response.now settings.now.limit)) }
    ensures taken { IfOk result (λ found. IfSome found (λ found. found.taken ≡
        taken_for response.now (message_at response.now settings.now.limit))) }
{
    if !is_past_tables(alloc, settings, operation, response)? {
        return Ok(None);
    }
    let limit = settings.limit();
    let reading = read_operation_response(alloc, operation, None, response, limit);
    let Some(found) = payload_in(reading)? else {
        return Ok(None);
    };
    if has_fetched(operation, &found.payload) {
        Ok(Some(found))
    } else {
        Ok(None)
    }
}

/// The line of a payload about another object, and how its call ended.
fn other_object(alloc: Global, taken: usize, response: &[u8]) -> Result<TreeAnswer, OutOfMemory>
    requires { taken ≤ length response.now }
    ensures line { IfOk result (λ answer. answer.line.items ≡ tree_line AsTree
        (Err (InternalError (codes "answer for another object"))) (take taken response.now)) }
    ensures ending { IfOk result (λ answer. answer.ending ≡ Lost) }
    ensures json { IfOk result (λ answer. IsTextLine answer.line.items) }
{
    let text = Text::of(alloc, "answer for another object")?;
    let answer = Err(Error::InternalError(text));
    let reading = Reading { answer, taken };
    let TreeAnswer { line, .. } = tree_answer_of(
        alloc,
        PayloadForm::Tree,
        None,
        reading,
        response,
    )?;
    Ok(TreeAnswer {
        ending: Ending::Lost,
        line,
    })
}

/// What a payload answers to a call that asked about this identifier.
fn payload_answer(
    alloc: Global,
    asked: &str,
    found: Payload,
    response: &[u8],
) -> Result<TreeAnswer, OutOfMemory>
    requires { found.taken ≤ length response.now }
    ensures { IfOk result (λ answer. AnswersWith asked.now found.payload
        (take found.taken response.now) answer.ending answer.line.items) }
{
    let Payload { payload, taken } = found;
    if differs(asked.as_bytes(), first_identifier(&payload).as_bytes()) {
        return other_object(alloc, taken, response);
    }
    let answer = Ok(payload);
    let reading = Reading { answer, taken };
    tree_answer_of(alloc, PayloadForm::Tree, None, reading, response)
}

/// What these bytes answer to a call that fetches, where the typed reading has no words for them.
fn fetched_answer(
    alloc: Global,
    settings: &Settings,
    call: &Call,
    response: &[u8],
) -> Result<Option<TreeAnswer>, OutOfMemory>
    ensures { IfOk result (λ answer. MatchOption answer
        (fetched_payload call.now (message_at response.now settings.now.limit) ≡ None)
        (λ answer. (payload : TheTree)
        × (fetched_payload call.now (message_at response.now settings.now.limit) ≡ Some payload)
        × AnswersWith (asked_about call.now) payload
        (take (taken_for response.now (message_at response.now settings.now.limit)) response.now)
        answer.ending answer.line.items)) }
{
    let Some(fetch) = fetch_of(call) else {
        return Ok(None);
    };
    match unread_payload(alloc, settings, fetch.operation, response)? {
        Some(found) => Ok(Some(payload_answer(alloc, fetch.id, found, response)?)),
        None => Ok(None),
    }
}

/// What these bytes answer to a typed call by its tables.
fn table_answer(
    alloc: Global,
    settings: &Settings,
    call: &Call,
    response: &[u8],
) -> Result<TreeAnswer, OutOfMemory>
    ensures line { IfOk result (λ answer. answer.line.items ≡
        response_line settings.now call.now response.now) }
    ensures ending { IfOk result (λ answer. answer.ending ≡
        response_ending settings.now call.now response.now) }
    ensures json { IfOk result (λ answer. IsTextLine answer.line.items) }
{
    let mut text = Text::new(alloc);
    let ending = answer_of(alloc, settings, call, response, &mut text)?;
    let mut line = Vec::new(alloc);
    line.extend_from_slice(text.as_str().as_bytes())?;
    Ok(TreeAnswer { ending, line })
}

/// The answer that these bytes are to a typed call, as a line of JSON, and how the call ended: what
/// `answer_of` of kmip_words adds, but for a success of Get or Get Attributes that its tables have
/// no words for, as a key of EC, where that of Get has an object and its type. Its payload is
/// answered as a tree, as `operation_answer` does with `PayloadForm::Tree`; where its first Unique
/// Identifier is another than the call asked about, the line has the error `InternalError`, and the
/// call ended as `Lost`. What was to be wrapped is not answered so.
///
/// It depends on no byte after the first message.
pub fn call_answer(
    alloc: Global,
    settings: &Settings,
    call: &Call,
    response: &[u8],
) -> Result<TreeAnswer, OutOfMemory>
    ensures line { IfOk result (λ answer. answer.line.items ≡
        call_line settings.now call.now response.now) }
    ensures ending { IfOk result (λ answer. answer.ending ≡
        call_ending settings.now call.now response.now) }
    ensures json { IfOk result (λ answer. IsTextLine answer.line.items) }
{
    match fetched_answer(alloc, settings, call, response)? {
        Some(answer) => Ok(answer),
        None => table_answer(alloc, settings, call, response),
    }
}
