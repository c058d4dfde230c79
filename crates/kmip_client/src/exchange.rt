//! One request and its response over a link.
ghost use Rattle.std.specs.Prelude.{◌≡◌, ◌+◌, ◌-◌, take, false, ◌<◌, ◌≤◌, ◌↔◌, ◌⊎◌, [], None, Some};
ghost use Rattle.std.specs.Prelude.{Err, Ok, List, ℕ, IfOk, IfErr, OnOk, OnErr, IsErrOf, IsTrue};
ghost use Rattle.std.specs.Prelude.{codes, max, vec_capacity, vec_len};
ghost use Rattle.std.specs.Option.{option_map};
ghost use Rattle.kmip_link.specs.State.{Keeps, FaultCountRose, Writes, left};
ghost use Rattle.kmip_request.specs.Message.{credential_of};
ghost use Rattle.kmip_client.specs.Transfer.{WritesPart};
ghost use Rattle.kmip_client.specs.Outcome.{Exchanged, Caused, FailsReading, reading_failed, Gives};
ghost use Rattle.kmip_client.specs.Outcome.{outcome_by, left_for, seen_by};
ghost use Rattle.kmip_client.specs.Outcome.{reading_answer, writing_failed, FailsWriting};
ghost use Rattle.kmip_client.specs.Client.{lacks_memory};
ghost use Rattle.kmip_client.specs.declared.error.Error.TheVariants.{SerializeError};
ghost use Rattle.kmip_client.specs.declared.error.Error.TheVariants.{RequestWriteError};
ghost use Rattle.kmip_client.specs.declared.error.Error.TheVariants.{OutOfMemory};

use crate::call_request::{AnswersTo, CallRequest};
use crate::error::Error;
use crate::message::{MessageStop, read_message};
use crate::reading::{Front, answer};
use crate::transfer::write_all;
use kmip_link::{Link, LinkError};
use kmip_request::Authentication;
use kmip_wire::{Buffer, Config, Text, WireError};
use std::alloc::Global;

/// Writes the one canonical message of a request, in place of what was in the buffer.
pub fn serialize<R: CallRequest>(
    alloc: Global,
    request: &R,
    authentication: &Option<Authentication>,
    out: &mut Buffer,
) -> Result<(), Error>
    ensures ok { OnOk result (R.kind.bytes_of (R.request request.now)
        (option_map credential_of authentication.now) ≡ Some out.new.bytes) }
    ensures err { IfErr result (λ e. ((e ≡ SerializeError (codes "request has no wire form")) ×
        (R.kind.bytes_of (R.request request.now) (option_map credential_of authentication.now) ≡
        None)) ⊎ (e ≡ OutOfMemory)) }
{
    match request.write(alloc, authentication, out) {
        Ok(()) => Ok(()),
        Err(WireError::OutOfMemory) => Err(Error::OutOfMemory),
        Err(_) => Err(Error::SerializeError(Text::of(alloc, "request has no wire form")?)),
    }
}

/// Sends the request.
pub fn send<L: Link>(alloc: Global, link: &mut L, request: &[u8]) -> Result<(), Error>
    ensures keeps { Keeps (L.state link.old) (L.state link.new) }
    ensures ok { OnOk result (IsTrue (L.state link.old).tells →
        Writes (L.state link.old) (L.state link.new) request.now) }
    ensures part { OnErr result (IsTrue (L.state link.old).tells →
        WritesPart (L.state link.old) (L.state link.new) request.now) }
    ensures err { IfErr result (λ e. ((e ≡ RequestWriteError (codes "link failed")) ×
        FaultCountRose (L.state link.old).faults (L.state link.new).faults) ⊎ (e ≡ OutOfMemory)) }
    ensures failing { IfErr result (λ e. e ≡ RequestWriteError (codes "link failed") →
        IsTrue (L.state link.old).tells →
        FailsWriting L.state (Some request.now) link.old link.new) }
{
    match write_all(link, request) {
        Ok(()) => Ok(()),
        Err(LinkError::Fault) => Err(Error::RequestWriteError(Text::of(alloc, "link failed")?)),
        Err(LinkError::OutOfMemory) => Err(Error::OutOfMemory),
    }
}

/// What is answered after a message was read off a link, or was not. These bytes were taken.
fn answer_taken<R: CallRequest>(
    alloc: Global,
    request: &R,
    taken: &[u8],
    read: Result<(), MessageStop>,
) -> Result<R::Payload, Error>
    requires { R.IsRead request.now }
    ensures { Gives (reading_answer (R.kind.reads (R.request request.now)) taken.now read)
        (seen_by (R.seen request.now) result) }
{
    let reader = AnswersTo { request };
    match read {
        Ok(()) => answer(alloc, &reader, Front::Whole(taken)),
        Err(MessageStop::Ended) => answer(alloc, &reader, Front::Ended),
        Err(MessageStop::Refused(error)) => answer(alloc, &reader, Front::Refused(error)),
        Err(MessageStop::Fault) => {
            Err(Error::ResponseReadError(Text::of(alloc, "link failed")?))
        }
        Err(MessageStop::OutOfMemory) => Err(Error::OutOfMemory),
    }
}

/// Sends the bytes of a request and returns what its response says. `taken`, which is empty, gets
/// the bytes that were read.
pub fn exchange<L: Link, R: CallRequest>(
    alloc: Global,
    link: &mut L,
    config: &Config,
    request: &R,
    bytes: &[u8],
    taken: &mut Vec<u8>,
) -> Result<R::Payload, Error>
    requires readable { R.IsRead request.now }
    requires empty { taken.old.items ≡ [] }
    ensures keeps { Keeps (L.state link.old) (L.state link.new) }
    ensures exchange { IsTrue (L.state link.old).tells →
        Exchanged (outcome_by (Some bytes.now) (R.kind.reads (R.request request.now))
        config.now.max_bytes (left_for (L.state link.old) (L.state link.new))) (L.state link.old)
        (L.state link.new) (seen_by (R.seen request.now) result) }
    ensures caused { Caused (Some bytes.now) (R.kind.reads (R.request request.now))
        config.now.max_bytes (L.state link.old).faults (L.state link.new).faults
        (seen_by (R.seen request.now) result) }
    ensures writing { IsTrue (L.state link.old).tells →
        seen_by (R.seen request.now) result ≡ writing_failed →
        FailsWriting L.state (Some bytes.now) link.old link.new }
    ensures reading { IsTrue (L.state link.old).tells →
        seen_by (R.seen request.now) result ≡ reading_failed →
        FailsReading L.state (Some bytes.now)
        (outcome_by (Some bytes.now) (R.kind.reads (R.request request.now)) config.now.max_bytes
        (left_for (L.state link.old) (L.state link.new))).taken
        link.old link.new }
    ensures taken { IsTrue (L.state link.old).tells →
        lacks_memory (seen_by (R.seen request.now) result) ≡ false →
        taken.new.items ≡
        take ((L.state link.new).pos - (L.state link.old).pos)
        (left_for (L.state link.old) (L.state link.new)) }
    ensures ahead { vec_capacity taken.new ≤
        max (vec_capacity taken.old) (vec_len taken.new + 65536) }
{
    match send(alloc, link, bytes) {
        Ok(()) => {}
        Err(error) => return Err(error),
    }
    let read = read_message(link, config, taken);
    R::readings_hold();
    answer_taken(alloc, request, taken, read)
}
