//! One call over a sink and a source: its request, one message, and the line of its answer.
ghost use Rattle.std.specs.Prelude.{◌≡◌, ◌++◌, ◌≤◌, [], length, take, IfOk, OnOk, IsErrOf, IsTrue};
ghost use Rattle.std.specs.Prelude.{max, vec_len, vec_capacity, cond, Some, option_map, OnErr};
ghost use Rattle.kmip_link.specs.State.{SourceKeeps, SinkKeeps, FaultCountRose, source_left};
ghost use Rattle.kmip_words.specs.Streams.{Gives, GivesPart, WrotePart, WroteProperPart};
ghost use Rattle.kmip_caller.specs.Wire.{taken_at, contents_of, IsOneAtMost};
ghost use Rattle.kmip_words.specs.Exchange.{loses_link};
ghost use Rattle.kmip_words.specs.declared.ending.Ending.TheVariants as endings;
ghost use Rattle.kmip_caller.specs.Exchange.{Exchange as TheExchange, failure_line, CarriedPart};
ghost use Rattle.kmip_caller.specs.Exchange.{IsLinkFailed};
ghost use Rattle.kmip_caller.specs.Asked.{exchange_of, AsksFor, Requests};
ghost use Rattle.kmip_caller.specs.Program.{Makes};

use crate::command::Order;
use crate::last_error::LastError;
use crate::refusal::joined;
use crate::requested::{Asked, Requested};
use kmip_client::Error;
use kmip_link::{LinkError, Sink, Source};
use kmip_operations::{TreeAnswer, call_answer, message_answer, operation_answer};
use kmip_shape::Style;
use kmip_wire::{OutOfMemory, Text, head};
use kmip_words::{Ending, Settings, config_of_limit, read_up_to, show_error, write_out};
use std::alloc::Global;

/// Why a request was not sent, or no message was read.
#[derive(Clone, Copy, Debug, PartialEq, Eq)]
pub enum TransferStop {
    /// The sink failed before it took the whole request, and nothing was read.
    WriteFault,
    /// The source failed after the request was sent.
    ReadFault,
    /// Out of memory; the request may have been sent, in whole or in part.
    OutOfMemory,
}

/// How many bytes of contents the head of a message says; `None` where it is not whole, or is
/// refused under the limit.
fn contents_of(bytes: &[u8], limit: Option<u32>) -> Option<u32>
    ensures { result ≡ contents_of bytes.now limit }
{
    let first = bytes.first_chunk::<8>()?;
    match head(first, &config_of_limit(limit)) {
        Ok(count) => Some(count),
        Err(_) => None,
    }
}

/// Reads one message to `response`, which is empty: the 8 bytes of its head, and then, unless the
/// head is refused, as many bytes of contents as it says. Where the source ends early, `response`
/// is all that there was. Room is taken for no more bytes than were read.
fn read_message<S: Source>(
    alloc: Global,
    source: &mut S,
    limit: Option<u32>,
    response: &mut Vec<u8>,
) -> Result<(), LinkError>
    requires { response.old.items ≡ [] }
    ensures keeps { SourceKeeps (S.state source.old) (S.state source.new) }
    ensures ahead { vec_capacity response.new ≤
        max (vec_capacity response.old) (vec_len response.new) }
    ensures one { OnOk result (IsOneAtMost limit response.new.items) }
    ensures taken { OnOk result (IsTrue (S.state source.old).tells →
        Gives (S.state source.old) (S.state source.new)
        (taken_at (source_left (S.state source.old)) limit)
        × (response.new.items ≡
        take (taken_at (source_left (S.state source.old)) limit)
        (source_left (S.state source.old)))) }
    ensures part { IsTrue (S.state source.old).tells →
        GivesPart (S.state source.old) (S.state source.new)
        (taken_at (source_left (S.state source.old)) limit) }
    ensures cause { IsErrOf result LinkError.Fault →
        FaultCountRose (S.state source.old).faults (S.state source.new).faults }
{
    read_up_to(alloc, source, 8, response)?;
    match contents_of(response, limit) {
        Some(count) => read_up_to(alloc, source, count as usize, response),
        None => Ok(()),
    }
}

/// Sends a request, and reads at most one message to `response`, which is empty. Room is taken for
/// no more bytes of a response than were read.
pub fn transfer<W: Sink, S: Source>(
    alloc: Global,
    limit: Option<u32>,
    request: &[u8],
    wire: &mut W,
    source: &mut S,
    response: &mut Vec<u8>,
) -> Result<(), TransferStop>
    requires { response.old.items ≡ [] }
    ensures sent { OnOk result (IsTrue (W.state wire.old).tells →
        (W.state wire.new).sent ≡ (W.state wire.old).sent ++ request.now) }
    ensures ahead { vec_capacity response.new ≤
        max (vec_capacity response.old) (vec_len response.new) }
    ensures one { OnOk result (IsOneAtMost limit response.new.items) }
    ensures taken { OnOk result (IsTrue (S.state source.old).tells →
        Gives (S.state source.old) (S.state source.new)
        (taken_at (source_left (S.state source.old)) limit)
        × (response.new.items ≡
        take (taken_at (source_left (S.state source.old)) limit)
        (source_left (S.state source.old)))) }
    ensures sent_part { IsTrue (W.state wire.old).tells →
        WrotePart (W.state wire.old) (W.state wire.new) request.now }
    ensures taken_part { IsTrue (S.state source.old).tells →
        GivesPart (S.state source.old) (S.state source.new)
        (taken_at (source_left (S.state source.old)) limit) }
    ensures write_fault { IsErrOf result TransferStop.WriteFault →
        FaultCountRose (W.state wire.old).faults (W.state wire.new).faults
        × (IsTrue (W.state wire.old).tells →
        WroteProperPart (W.state wire.old) (W.state wire.new) request.now)
        × (S.state source.new ≡ S.state source.old) }
    ensures read_fault { IsErrOf result TransferStop.ReadFault →
        FaultCountRose (S.state source.old).faults (S.state source.new).faults
        × (IsTrue (W.state wire.old).tells →
        (W.state wire.new).sent ≡ (W.state wire.old).sent ++ request.now)
        × (IsTrue (S.state source.old).tells →
        GivesPart (S.state source.old) (S.state source.new)
        (taken_at (source_left (S.state source.old)) limit)) }
{
    match write_out(wire, request) {
        Ok(()) => {}
        Err(LinkError::Fault) => return Err(TransferStop::WriteFault),
        Err(LinkError::OutOfMemory) => return Err(TransferStop::OutOfMemory),
    }
    match read_message(alloc, source, limit, response) {
        Ok(()) => Ok(()),
        Err(LinkError::Fault) => Err(TransferStop::ReadFault),
        Err(LinkError::OutOfMemory) => Err(TransferStop::OutOfMemory),
    }
}

/// The bytes of a text.
fn bytes_of(alloc: Global, text: &Text) -> Result<Vec<u8>, OutOfMemory>
    ensures { IfOk result (λ bytes. bytes.items ≡ text.now) }
{
    let mut bytes = Vec::new(alloc);
    bytes.extend_from_slice(text.as_str().as_bytes())?;
    Ok(bytes)
}

/// What these bytes answer to a call whose request was sent.
fn answer_to(
    alloc: Global,
    settings: &Settings,
    asked: &Asked,
    response: &[u8],
) -> Result<TreeAnswer, OutOfMemory>
    ensures line { IfOk result (λ answer.
        answer.line.items ≡ (exchange_of settings.now asked.now).line response.now) }
    ensures ending { IfOk result (λ answer.
        answer.ending ≡ (exchange_of settings.now asked.now).ending response.now) }
{
    match asked {
        Asked::Typed(call) => call_answer(alloc, settings, call, response),
        Asked::Operation(call, form) => { operation_answer(alloc, settings, call, response, *form) }
        Asked::Message(_) => message_answer(alloc, settings, response),
    }
}

/// How a call ended.
#[derive(Drop)]
pub struct CallEnd {
    /// Whether it returned an error, and whether the connection is good for the next call.
    pub ending: Ending,
    /// The line of JSON of its answer, with its line feed.
    pub line: Vec<u8>,
    /// The bytes that came, where the answer is what they say; `None` where the sink or the source
    /// failed.
    pub response: Option<Vec<u8>>,
}

/// The end of a call whose request was sent, and which these bytes answer.
fn answered(
    alloc: Global,
    settings: &Settings,
    asked: &Asked,
    response: Vec<u8>,
) -> Result<CallEnd, OutOfMemory>
    ensures line { IfOk result (λ end.
        end.line.items ≡ (exchange_of settings.now asked.now).line response.items) }
    ensures ending { IfOk result (λ end.
        end.ending ≡ (exchange_of settings.now asked.now).ending response.items) }
    ensures response { IfOk result
        (λ end. option_map (λ r. r.items) end.response ≡ Some response.items) }
{
    let TreeAnswer { ending, line } = answer_to(alloc, settings, asked, &response)?;
    Ok(CallEnd {
        ending,
        line,
        response: Some(response),
    })
}

/// The end of a call with this error, which no bytes say.
fn failed(alloc: Global, error: Error, response: Option<Vec<u8>>) -> Result<CallEnd, OutOfMemory>
    ensures line { IfOk result (λ end. end.line.items ≡ failure_line error) }
    ensures ending { IfOk result
        (λ end. end.ending ≡ cond (loses_link error) endings.Lost endings.Refused) }
    ensures response { IfOk result (λ end. option_map (λ r. r.items) end.response ≡
        option_map (λ r. r.items) response) }
{
    let mut line = Text::new(alloc);
    let ending = show_error(alloc, Style::Json, &error, &mut line)?;
    let line = bytes_of(alloc, &line)?;
    Ok(CallEnd {
        ending,
        line,
        response,
    })
}

/// That the sink or the source failed, and the reason, where the system gives one.
fn link_failed(alloc: Global, last: &LastError) -> Result<Text, OutOfMemory>
    ensures { IfOk result (λ text. IsLinkFailed text) }
{
    match last.reason(alloc)? {
        Some(reason) => Ok(joined(alloc, "link failed: ", reason.as_str())?),
        None => Ok(Text::of(alloc, "link failed")?),
    }
}

/// Makes a call: sends its request, where it has a wire form, and reads at most one message. Where
/// memory runs out, the request may have been sent, and the message taken, in part or whole. What
/// the sink and the source last failed with is in `last`.
pub fn exchange<W: Sink, S: Source>(
    alloc: Global,
    order: &Order,
    requested: &Requested,
    wire: &mut W,
    source: &mut S,
    last: &LastError,
) -> Result<CallEnd, OutOfMemory>
    requires { Requests order.now requested.now.asked requested.now.request }
    ensures made { IfOk result
        (λ end. Makes order.now (W.state wire.old) (W.state wire.new) (S.state source.old)
        (S.state source.new) (option_map (λ r. r.items) end.response) end.line.items end.ending) }
    ensures broken_off { OnErr result ((exchange : TheExchange) → AsksFor order.now exchange →
        CarriedPart order.now.settings.limit exchange (W.state wire.old) (W.state wire.new)
        (S.state source.old) (S.state source.new)) }
{
    let mut response = Vec::new(alloc);
    let Some(request) = &requested.request else {
        let text = Text::of(alloc, "request has no wire form")?;
        return failed(alloc, Error::SerializeError(text), Some(response));
    };
    let limit = order.settings.limit();
    match transfer(
        alloc,
        limit,
        request.as_slice(),
        wire,
        source,
        &mut response,
    ) {
        Ok(()) => answered(alloc, &order.settings, &requested.asked, response),
        Err(TransferStop::WriteFault) => {
            let text = link_failed(alloc, last)?;
            failed(alloc, Error::RequestWriteError(text), None)
        }
        Err(TransferStop::ReadFault) => {
            let text = link_failed(alloc, last)?;
            failed(alloc, Error::ResponseReadError(text), None)
        }
        Err(TransferStop::OutOfMemory) => Err(OutOfMemory),
    }
}
