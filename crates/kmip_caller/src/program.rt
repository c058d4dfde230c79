//! The program, and how a run of it ends.
ghost use Rattle.std.specs.Prelude.{◌≡◌, ◌++◌, ◌⊎◌, option_map, Some, None, IfOk, OnOk, OnErr};
ghost use Rattle.std.specs.Prelude.{IsErrOf, IsTrue, MatchOption};
ghost use Rattle.kmip_caller.specs.Program.{code_of, is_ended, Makes, streams, Runs};
ghost use Rattle.kmip_link.specs.State.{FaultCountRose};
ghost use Rattle.kmip_words.specs.Streams.{WrotePart};
ghost use Rattle.kmip_caller.specs.Exchange.{Exchange as TheExchange, CarriedPart};
ghost use Rattle.kmip_caller.specs.Record.{words_kept, record_with};
ghost use Rattle.kmip_caller.specs.Asked.{AsksFor, AsksForNone, exchange_of};

use crate::command::Order;
use crate::exchange::{CallEnd, exchange};
use crate::last_error::LastError;
use crate::record::{recorded_words, write_record};
use crate::refusal::refuse_words;
use crate::requested::{Requested, request_for, without_credential};
use kmip_link::{LinkError, Sink, Source};
use kmip_wire::{List, OutOfMemory, Text};
use kmip_words::{Ending, write_out};
use std::alloc::Global;

/// How a run of the program ended.
#[derive(Clone, Copy, Debug, PartialEq, Eq)]
pub enum Status {
    /// The call was made, and its record and its answer were written.
    Ended(Ending),
    /// The words are no call: nothing was sent, read or recorded.
    NoCall,
    /// The record or the answer could not be written; the exchange was made.
    NotWritten,
    /// Memory ran out, and the request may have been sent: close the connection.
    OutOfMemory,
}

impl Status {
    /// The exit status of the program.
    ///
    /// - 0: the call returned a payload, or that it was done.
    /// - 1: it returned an error, and the connection is good for the next call.
    /// - 2: no call was made.
    /// - 3: the connection failed or ended, or gave bytes that are no message: close it.
    /// - 4: the record or the answer could not be written.
    /// - 5: memory ran out.
    pub fn code(self) -> u8
        ensures { result ≡ code_of self }
    {
        match self {
            Status::Ended(Ending::Answered) => 0,
            Status::Ended(Ending::Refused) => 1,
            Status::NoCall => 2,
            Status::Ended(Ending::Lost) => 3,
            Status::NotWritten => 4,
            Status::OutOfMemory => 5,
        }
    }
}

/// The words that are recorded of what an order asks for; `None` where nothing is.
fn words_kept(
    alloc: Global,
    order: &Order,
    requested: &Requested,
) -> Result<Option<List<Text>>, OutOfMemory>
    ensures { IfOk result (λ words. words ≡ words_kept order.now.file order.now.words
        (exchange_of order.now.settings requested.now.asked).without_credential) }
{
    match &order.file {
        Some(_) => {
            let request = without_credential(alloc, &requested.asked)?;
            recorded_words(alloc, order.words.as_slice(), &request)
        }
        None => Ok(None),
    }
}

/// A call that was made.
#[derive(Drop)]
pub struct CallMade {
    /// How it ended.
    pub end: CallEnd,
    /// The words that are recorded of it; `None` where it is not recorded.
    pub words: Option<List<Text>>,
}

/// Makes what an order asks for. It returns `None` where that is nothing, and then nothing was sent
/// or read.
fn make_call<W: Sink, S: Source>(
    alloc: Global,
    order: &Order,
    wire: &mut W,
    source: &mut S,
    last: &LastError,
) -> Result<Option<CallMade>, OutOfMemory>
    ensures none { IfOk result (λ made. made ≡ None → AsksForNone order.now) }
    ensures wire { AsksForNone order.now → W.state wire.new ≡ W.state wire.old }
    ensures source { AsksForNone order.now → S.state source.new ≡ S.state source.old }
    ensures broken_off { OnErr result ((exchange : TheExchange) → AsksFor order.now exchange →
        CarriedPart order.now.settings.limit exchange (W.state wire.old) (W.state wire.new)
        (S.state source.old) (S.state source.new)) }
    ensures made { IfOk result
        (λ made. MatchOption made (Unit {0})
        (λ it. Makes order.now (W.state wire.old) (W.state wire.new) (S.state source.old)
        (S.state source.new) (option_map (λ r. r.items) it.end.response) it.end.line.items
        it.end.ending)) }
    ensures words { IfOk result
        (λ made. MatchOption made (Unit {0})
        (λ it. (exchange : TheExchange) → AsksFor order.now exchange →
        it.words ≡ words_kept order.now.file order.now.words exchange.without_credential)) }
{
    match request_for(alloc, order)? {
        Some(requested) => {
            let words = words_kept(alloc, order, &requested)?;
            let end = exchange(alloc, order, &requested, wire, source, last)?;
            Ok(Some(CallMade { end, words }))
        }
        None => Ok(None),
    }
}

/// Records the response of a call, where these words of it are recorded and the answer is what the
/// response says.
fn keep<F: Sink>(
    alloc: Global,
    words: &Option<List<Text>>,
    response: &Option<Vec<u8>>,
    kept: &mut F,
) -> Result<(), LinkError>
    ensures ok { OnOk result (IsTrue (F.state kept.old).tells →
        (F.state kept.new).sent ≡ (F.state kept.old).sent
        ++ record_with words.now (option_map (λ r. r.items) response.now)) }
    ensures part { IsTrue (F.state kept.old).tells →
        WrotePart (F.state kept.old) (F.state kept.new)
        (record_with words.now (option_map (λ r. r.items) response.now)) }
    ensures cause { IsErrOf result LinkError.Fault →
        FaultCountRose (F.state kept.old).faults (F.state kept.new).faults }
{
    match (words, response) {
        (Some(words), Some(response)) => write_record(alloc, words.as_slice(), response, kept),
        _ => Ok(()),
    }
}

/// Records a call, and writes the line of its answer, also where the record could not be written.
/// Returns the status.
fn report<F: Sink, K: Sink>(alloc: Global, made: &CallMade, kept: &mut F, errors: &mut K) -> Status
    ensures status { (result ≡ Status.Ended made.now.end.ending)
        ⊎ ((result ≡ Status.NotWritten) ⊎ (result ≡ Status.OutOfMemory)) }
    ensures recorded { IsTrue (is_ended result) → IsTrue (F.state kept.old).tells →
        (F.state kept.new).sent ≡ (F.state kept.old).sent
        ++ record_with made.now.words (option_map (λ r. r.items) made.now.end.response) }
    ensures recorded_part { IsTrue (F.state kept.old).tells →
        WrotePart (F.state kept.old) (F.state kept.new)
        (record_with made.now.words (option_map (λ r. r.items) made.now.end.response)) }
    ensures written { IsTrue (is_ended result) → IsTrue (K.state errors.old).tells →
        (K.state errors.new).sent ≡ (K.state errors.old).sent ++ made.now.end.line.items }
    ensures written_part { IsTrue (K.state errors.old).tells →
        WrotePart (K.state errors.old) (K.state errors.new) made.now.end.line.items }
    ensures still_written { result ≡ Status.NotWritten → IsTrue (K.state errors.old).tells →
        (FaultCountRose (K.state errors.old).faults (K.state errors.new).faults → ⊥) →
        (K.state errors.new).sent ≡ (K.state errors.old).sent ++ made.now.end.line.items }
    ensures cause { result ≡ Status.NotWritten →
        FaultCountRose (F.state kept.old).faults (F.state kept.new).faults
        ⊎ FaultCountRose (K.state errors.old).faults (K.state errors.new).faults }
{
    let recorded = keep(alloc, &made.words, &made.end.response, kept);
    match write_out(errors, &made.end.line) {
        Ok(()) => match recorded {
            Ok(()) => Status::Ended(made.end.ending),
            Err(LinkError::Fault) => Status::NotWritten,
            Err(LinkError::OutOfMemory) => Status::OutOfMemory,
        },
        Err(LinkError::Fault) => Status::NotWritten,
        Err(LinkError::OutOfMemory) => Status::OutOfMemory,
    }
}

/// Makes a call, and returns how the program ends.
///
/// The request goes to `wire`, the response comes from `source`, the answer goes to `errors` as a
/// line of JSON, and the record to `kept`, where `record=FILE` asks for one. What `wire` and
/// `source` last failed with is in `last`.
///
/// - `Ended`: the call was made, and its record and its answer were written.
/// - `NoCall`: the words are not of the grammar; nothing was sent, read or recorded, and `errors`
///   got a line of JSON that says why, or a part of it where it failed.
/// - `NotWritten`: the record or the answer could not be written; the exchange was made, and the
///   answer was written where `errors` did not fail.
/// - `OutOfMemory`: memory ran out, and the request may have been sent: close the connection.
pub fn run<W: Sink, S: Source, F: Sink, K: Sink>(
    alloc: Global,
    order: &Order,
    wire: &mut W,
    source: &mut S,
    kept: &mut F,
    errors: &mut K,
    last: &LastError,
) -> Status
    ensures { Runs order.now
        (streams (W.state wire.old) (S.state source.old) (F.state kept.old) (K.state errors.old))
        (streams (W.state wire.new) (S.state source.new) (F.state kept.new) (K.state errors.new))
        result }
{
    match make_call(alloc, order, wire, source, last) {
        Ok(Some(made)) => report(alloc, &made, kept, errors),
        Ok(None) => refuse_words(alloc, order, errors),
        Err(OutOfMemory) => Status::OutOfMemory,
    }
}
