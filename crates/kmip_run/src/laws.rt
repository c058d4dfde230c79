//! Laws over what the program stands on, each the contract of a function that does nothing or only
//! reads.

ghost use Rattle.std.specs.Prelude.{◌≡◌, ◌↔◌, ℕ, List, [], Option, map, take, length, IfOk};
ghost use Rattle.std.specs.Prelude.{IsSome};
ghost use Rattle.kmip_wire.specs.Bytes.{AreBytes};
ghost use Rattle.kmip_wire.specs.Parses.{AreTexts, joined_texts};
ghost use Rattle.kmip_types.specs.declared.auth.CredentialType.{CredentialType as Credential};
ghost use Rattle.kmip_request.specs.Fits.{FitsCredential};
ghost use Rattle.kmip_request.specs.Message.{request_bytes};
ghost use Rattle.kmip_request.specs.declared.payload.RequestPayload.{RequestPayload as Payload};
ghost use Rattle.kmip_request_read.specs.Matched.{IsMatched};
ghost use Rattle.kmip_client.specs.Session.{session, all_sent, all_taken};
ghost use Rattle.kmip_client.specs.Order.{AreServed};
ghost use Rattle.kmip_audit.specs.Agreement.{AreMatched};
ghost use Rattle.kmip_client.specs.Skeletons.{texts_of};
ghost use Rattle.kmip_words.specs.About.{outcome_line, response_line};
ghost use Rattle.kmip_words.specs.Exchange.{Settings as TheSettings, request_asked, call_outcome};
ghost use Rattle.kmip_words.specs.Exchange.{IsRequestOf};
ghost use Rattle.kmip_words.specs.declared.call.Call.{Call as TheCall};
ghost use Rattle.kmip_words.specs.declared.call.Call.TheVariants.{Request};
ghost use Rattle.kmip_words.specs.declared.call.Recorded.{Recorded as TheRecorded};
ghost use Rattle.kmip_run.specs.Records.{AreRecords, ReplaysEach, script_of};
ghost use Rattle.kmip_run.specs.Reported.{ReportsTurns};
ghost use Rattle.kmip_run.specs.Sent.{messages_of, AreHeld, IsSent, GivesBack};
ghost use Rattle.kmip_run.specs.Script.{lines_of};
ghost use Rattle.kmip_run.specs.Skeletons.{AllAnswered, skeletons_in};
ghost use Rattle.kmip_run.specs.Transcript.{replay_from};
ghost use Rattle.kmip_run.specs.declared.status.ScriptEnd.TheVariants.{Answered};

use kmip_audit::{Report, audit, sessions_are_reported};
use kmip_client::diagnostics_of_sessions;
use kmip_request::RequestPayload;
use kmip_request_read::{RequestReadError, from_slice, request_parses};
use kmip_shape::{Item, fits_items};
use kmip_types::auth::CredentialType;
use kmip_wire::{OutOfMemory, one_tree, parsed_ranges, tree_computed};
use kmip_words::responses_are_outcomes;
use std::alloc::Global;

/// Without a fault, what a session sends splits in exactly one way into messages that parse. They
/// are, in order, the canonical messages of the valid requests whose calls were made, and the
/// requests whose calls were made are the first of the session's requests.
///
/// The premise `AreHeld` holds of all payloads and credentials that Rust can hold.
pub fn sent_bytes_of_sessions()
    ensures joined { (payloads : List Payload) (credential : Option Credential) (limit : Option ℕ)
        (rest : List ℕ) →
        all_sent (session payloads credential limit rest) ≡
        joined_texts (messages_of (session payloads credential limit rest)) }
    ensures parse { (payloads : List Payload) (credential : Option Credential) (limit : Option ℕ)
        (rest : List ℕ) → AreHeld payloads credential →
        AreTexts 1 (messages_of (session payloads credential limit rest)) }
    ensures only { (payloads : List Payload) (credential : Option Credential) (limit : Option ℕ)
        (rest : List ℕ) (texts : List (List ℕ)) → AreHeld payloads credential →
        AreTexts 1 texts → joined_texts texts ≡ all_sent (session payloads credential limit rest) →
        texts ≡ messages_of (session payloads credential limit rest) }
    ensures requests { (payloads : List Payload) (credential : Option Credential) (limit : Option ℕ)
        (rest : List ℕ) →
        map (λ turn. turn.request) (session payloads credential limit rest) ≡
        map (λ payload. request_bytes payload credential)
        (take (length (session payloads credential limit rest)) payloads) }
{
    request_parses();
    one_tree();
}

/// From each message of a session whose request is matched, the request reader reads this request
/// and the session's credential, unless memory runs out.
pub fn sent_requests_are_read(
    alloc: Global,
    text: &[u8],
) -> Result<(RequestPayload, Option<CredentialType>), RequestReadError>
    ensures { (payloads : List Payload) (credential : Option Credential) (limit : Option ℕ)
        (rest : List ℕ) (payload : Payload) → AreHeld payloads credential →
        IsSent payload text.now (session payloads credential limit rest) payloads →
        IsMatched payload → GivesBack payload credential result }
{
    request_parses();
    from_slice(alloc, text)
}

/// The texts of a credential are UTF-8.
fn known_credential(credential: &Option<CredentialType>)
    ensures { FitsCredential credential.now }
{
    if let Some(CredentialType::UsernameAndPassword(known)) = credential {
        known.username.fits();
        if let Some(password) = &known.password {
            password.fits();
        }
    }
}

/// Payloads and a credential are such as Rust can hold.
fn know_held(payloads: &[RequestPayload], credential: &Option<CredentialType>)
    ensures { AreHeld payloads.now credential.now }
{
    fits_items(payloads);
    known_credential(credential);
}

/// Each number is below 256.
fn bytes_known(bytes: &[u8])
    ensures { AreBytes bytes.now }
{}

/// Two sessions whose requests are valid and whose messages parse have equal diagnostics at every
/// call exactly where the skeletons of their requests and of their responses are equal at every
/// call. So a diagnostic shows all tags, types, nesting and numbers of enumerations, and nothing
/// else.
pub fn diagnostics_of_whole_sessions(
    payloads: &[RequestPayload],
    credential: &Option<CredentialType>,
    rest: &[u8],
    others: &[RequestPayload],
    other: &Option<CredentialType>,
    bytes: &[u8],
)
    ensures { (limit most : Option ℕ) →
        AllAnswered (session payloads.now credential.now limit rest.now) →
        AllAnswered (session others.now other.now most bytes.now) →
        (texts_of (session payloads.now credential.now limit rest.now) ≡
        texts_of (session others.now other.now most bytes.now))
        ↔ (skeletons_in (session payloads.now credential.now limit rest.now) ≡
        skeletons_in (session others.now other.now most bytes.now)) }
{
    know_held(payloads, credential);
    know_held(others, other);
    bytes_known(rest);
    bytes_known(bytes);
    request_parses();
    tree_computed();
    parsed_ranges();
    diagnostics_of_sessions();
}

/// Where each request of a session without a fault is valid and matched, and each message within
/// the limit, the report on what it sent and took agrees with its answers: both streams end whole,
/// and an exchange is reported as answered exactly where the answer is a payload.
pub fn traffic_of_sessions_is_reported(
    alloc: Global,
    sent: &[u8],
    received: &[u8],
) -> Result<Report, OutOfMemory>
    ensures { (payloads : List Payload) (credential : Option Credential) (limit : Option ℕ)
        (messages : List (List ℕ)) (rest : List ℕ) →
        AreMatched payloads credential → AreServed payloads credential limit messages rest →
        sent.now ≡ all_sent (session payloads credential limit rest) →
        received.now ≡ take (all_taken (session payloads credential limit rest)) rest →
        IfOk result
        (λ report. ReportsTurns payloads (session payloads credential limit rest) report) }
{
    sessions_are_reported();
    audit(alloc, sent, received)
}

/// A file of records, as kmip_call writes them, replays each call over the response that was
/// recorded with it, and leaves no byte to the next call. The call's outcome, shown as a line of
/// JSON, is then the line of the typed reading of this response under the same limit: what
/// kmip_call wrote, but where it answered a tree. Where a record has `raw` in place of a call's
/// words, it has the outcome of that call, since it asks for the same request.
///
/// The premise `AreRecords` holds of what kmip_call records: a line without a line feed, from which
/// a script reads the call and the response (its law `records_read_back`), and a response of one
/// message at most (`IsOneAtMost`), or of no byte where the request has no wire form.
pub fn records_are_replayed()
    ensures replayed { (settings : TheSettings) (lines : List (List ℕ))
        (records : List TheRecorded) → AreRecords settings lines records →
        ReplaysEach settings records Answered
        (replay_from settings (lines_of (script_of lines)) 1 Answered []) }
    ensures line { (settings recorded : TheSettings) (it : TheRecorded) →
        settings.limit ≡ recorded.limit →
        IsSome (request_asked it.call settings.credential).message →
        outcome_line it.call (call_outcome settings it.call it.response) it.response ≡
        response_line recorded it.call it.response }
    ensures raw { (payload : Payload) (call : TheCall) → IsRequestOf payload call →
        (settings : TheSettings) (rest : List ℕ) →
        call_outcome settings call rest ≡ call_outcome settings (Request payload) rest }
{
    responses_are_outcomes();
}
