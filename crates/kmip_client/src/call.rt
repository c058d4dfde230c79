//! One call of a client, with its diagnostics.
ghost use Rattle.std.specs.Prelude.{◌≡◌, ◌⊎◌, ◌-◌, take, true, false, None, Some, Ok, Err};
ghost use Rattle.std.specs.Prelude.{◌+◌, ◌≤◌, IfOk, IsTrue, option_map, vec_capacity, vec_len};
ghost use Rattle.kmip_link.specs.State.{Keeps};
ghost use Rattle.kmip_request.specs.Message.{credential_of};
ghost use Rattle.kmip_client.specs.Outcome.{Exchanged, Caused, FailsReading, reading_failed};
ghost use Rattle.kmip_client.specs.Outcome.{FailsWriting, writing_failed};
ghost use Rattle.kmip_client.specs.Outcome.{outcome_by, left_for, seen_by};
ghost use Rattle.kmip_client.specs.declared.error.Error.TheVariants.{OutOfMemory as no_memory};
ghost use Rattle.kmip_client.specs.Diagnostics.{diagnostic_for, has_response};
ghost use Rattle.kmip_client.specs.Diagnostics.{IsRequestText, IsResponseText};
ghost use Rattle.kmip_client.specs.Kept.{IsKept};

use crate::call_request::CallRequest;
use crate::error::Error;
use crate::exchange::{exchange, serialize};
use crate::room::{FIRST_ROOM, Room};
use kmip_diag::PrettyPrinter;
use kmip_link::Link;
use kmip_request::Authentication;
use kmip_wire::{Config, OutOfMemory, Text};
use std::alloc::Global;

/// What a client adds to each request, and how it reads responses.
#[derive(Drop)]
pub struct Settings {
    /// The credential that each request carries in its header, if any: KMIP 1.0, 6.6.
    pub authentication: Option<Authentication>,
    /// The limit on the size of a response.
    pub config: Config,
}

/// The diagnostics of a call.
#[derive(Drop)]
pub struct Diagnostics {
    /// The skeleton of the last request: its tags, types and nesting, without values.
    pub request: Option<Text>,
    /// The skeleton of the last response, or of as much of it as was read.
    pub response: Option<Text>,
}

/// The diagnostic of these bytes.
#[inline(never)]
fn diagnostic_of(alloc: Global, bytes: &[u8]) -> Result<Text, OutOfMemory>
    ensures { IfOk result (λ text. Some text ≡ diagnostic_for true bytes.now) }
{
    let mut printer = PrettyPrinter::new();
    printer.with_tag_prefix(0x4200);
    printer.to_diag_string(alloc, bytes)
}

/// The diagnostic of these bytes, where the buffer is on.
#[inline(always)]
fn diagnostic_for(alloc: Global, config: &Config, bytes: &[u8]) -> Result<Option<Text>, OutOfMemory>
    ensures { IfOk result (λ text. text ≡ diagnostic_for config.now.has_buf bytes.now) }
{
    if config.has_buf() {
        Ok(Some(diagnostic_of(alloc, bytes)?))
    } else {
        Ok(None)
    }
}

/// Whether a response was read, wholly or in part.
fn has_response<P: Drop>(answer: &Result<P, Error>) -> bool
    ensures { result ≡ has_response answer.now }
{
    match answer {
        Err(Error::OutOfMemory | Error::SerializeError(_) | Error::RequestWriteError(_)) => false,
        _ => true,
    }
}

/// Keeps a diagnostic beside an answer, or `OutOfMemory` in its place where it was not made.
fn keep<P: Drop>(
    answer: Result<P, Error>,
    made: Result<Option<Text>, OutOfMemory>,
    kept: &mut Option<Text>,
) -> Result<P, Error>
    ensures { ((made ≡ Ok kept.new) × (result ≡ answer))
        ⊎ ((kept.new ≡ kept.old) × (result ≡ Err no_memory)) }
{
    match made {
        Ok(text) => {
            *kept = text;
            answer
        }
        Err(_) => Err(Error::OutOfMemory),
    }
}

/// Writes the request, sends it, reads its response and keeps the diagnostics of both. The messages
/// stand in `room`, which has room for at most 65,536 bytes beyond those that were read.
pub fn call<L: Link, R: CallRequest>(
    alloc: Global,
    link: &mut L,
    settings: &Settings,
    request: &R,
    diagnostics: &mut Diagnostics,
    room: &mut Room,
) -> Result<R::Payload, Error>
    requires readable { R.IsRead request.now }
    requires request { diagnostics.old.request ≡ None }
    requires response { diagnostics.old.response ≡ None }
    requires kept { IsKept room.old }
    ensures keeps { Keeps (L.state link.old) (L.state link.new) }
    ensures exchange { IsTrue (L.state link.old).tells →
        Exchanged (outcome_by (R.kind.bytes_of (R.request request.now)
        (option_map credential_of settings.now.authentication))
        (R.kind.reads (R.request request.now)) settings.now.config.max_bytes
        (left_for (L.state link.old) (L.state link.new)))
        (L.state link.old) (L.state link.new) (seen_by (R.seen request.now) result) }
    ensures caused { Caused (R.kind.bytes_of (R.request request.now)
        (option_map credential_of settings.now.authentication))
        (R.kind.reads (R.request request.now)) settings.now.config.max_bytes
        (L.state link.old).faults (L.state link.new).faults (seen_by (R.seen request.now) result) }
    ensures writing { IsTrue (L.state link.old).tells →
        seen_by (R.seen request.now) result ≡ writing_failed →
        FailsWriting L.state (R.kind.bytes_of (R.request request.now)
        (option_map credential_of settings.now.authentication)) link.old link.new }
    ensures reading { IsTrue (L.state link.old).tells →
        seen_by (R.seen request.now) result ≡ reading_failed →
        FailsReading L.state (R.kind.bytes_of (R.request request.now)
        (option_map credential_of settings.now.authentication))
        (outcome_by (R.kind.bytes_of (R.request request.now)
        (option_map credential_of settings.now.authentication))
        (R.kind.reads (R.request request.now)) settings.now.config.max_bytes
        (left_for (L.state link.old) (L.state link.new))).taken
        link.old link.new }
    ensures request_text { IsRequestText settings.now.config.has_buf
        (R.kind.bytes_of (R.request request.now)
        (option_map credential_of settings.now.authentication))
        (seen_by (R.seen request.now) result) diagnostics.new.request }
    ensures response_text { IsTrue (L.state link.old).tells →
        IsResponseText settings.now.config.has_buf
        (take ((L.state link.new).pos - (L.state link.old).pos)
        (left_for (L.state link.old) (L.state link.new)))
        (seen_by (R.seen request.now) result) diagnostics.new.response }
    ensures quiet { settings.now.config.has_buf ≡ false → diagnostics.new.response ≡ None }
    ensures ahead { vec_capacity room.new.taken ≤ vec_len room.new.taken + 65536 }
{
    match serialize(alloc, request, &settings.authentication, &mut room.request) {
        Ok(()) => {}
        Err(error) => return Err(error),
    }
    if settings.config.has_buf() {
        diagnostics.request = diagnostic_for(alloc, &settings.config, room.request.as_slice())?;
    }
    room.taken.reserve_exact(FIRST_ROOM)?;
    let answer = exchange(
        alloc,
        link,
        &settings.config,
        request,
        room.request.as_slice(),
        &mut room.taken,
    );
    if !settings.config.has_buf() || !has_response(&answer) {
        return answer;
    }
    let made = diagnostic_for(alloc, &settings.config, &room.taken);
    keep(answer, made, &mut diagnostics.response)
}
