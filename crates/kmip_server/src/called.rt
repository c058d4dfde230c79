//! One call of a client over a server.
ghost use Rattle.std.specs.Prelude.{◌≡◌, ◌↔◌, List, IfOk, IfErr, OnErr, drop, length, IsTrue};
ghost use Rattle.std.specs.Prelude.{false};
ghost use Rattle.kmip_link.specs.State.{Keeps};
ghost use Rattle.kmip_client.specs.Client.{loses_connection, lacks_memory, count_after};
ghost use Rattle.kmip_client.specs.Client.{ClientState};
ghost use Rattle.kmip_client.specs.Outcome.{seen_by};
ghost use Rattle.kmip_client.specs.declared.error.Error.TheVariants.{OutOfMemory as no_memory};
ghost use Rattle.kmip_server.specs.Calls.{answered_val, answered_seen, report_of, call_settings};
ghost use Rattle.kmip_server.specs.OneCall.{CallEffect, LinkIs, IsLinkAfterCall, IsRequestOf};
ghost use Rattle.kmip_server.specs.OneCall.{fails_writing};
ghost use Rattle.kmip_server.specs.Link.{ServerLinkState, server_link_state, IsOpen, LinkFacts};
ghost use Rattle.kmip_server.specs.Joined.{IsReadBack};
ghost use Rattle.kmip_server.specs.Session.{CallRan, CallLost};

use crate::answers::{Answered, CallAnswer};
use crate::ask::ask;
use crate::link::ServerLink;
use kmip_client::{Client, Error, Result};
use kmip_request_read::{request_is_message, request_is_read};
use kmip_server_core::{call_known, helper_is_matched, is_request_of};
use kmip_store::{Call, Maker};
use kmip_wire::{Blob, OutOfMemory};
use std::alloc::Global;

/// How a call left its link.
enum LinkAfter {
    Open,
    Faulted,
    Starved,
}

/// Whether the connection failed.
fn loses_connection(answer: &Result<Answered>) -> bool
    ensures { result ≡ loses_connection (answered_seen answer.now) }
{
    match answer {
        Ok(_) => false,
        Err(error) => error.is_connection_error(),
    }
}

/// Whether the call ran out of memory.
fn lacks_memory(answer: &Result<Answered>) -> bool
    ensures { result ≡ lacks_memory (answered_seen answer.now) }
{
    match answer {
        Err(Error::OutOfMemory) => true,
        _ => false,
    }
}

/// How many bytes were sent so far. Its clauses also say what holds of the link.
pub fn sent_len<M: Maker>(client: &mut Client<ServerLink<M>>) -> usize
    ensures sent { result ≡ length client.old.link.sent }
    ensures facts { LinkFacts M.state client.old.link }
    ensures stays { client.new ≡ client.old }
{
    let link = client.inner();
    link.facts();
    link.sent().len()
}

/// How the last call left the link. Its clauses also say what holds of the link.
fn link_after<M: Maker>(client: &mut Client<ServerLink<M>>) -> LinkAfter
    ensures after { LinkIs client.old.link result }
    ensures facts { LinkFacts M.state client.old.link }
    ensures stays { client.new ≡ client.old }
{
    let link = client.inner();
    link.facts();
    if link.starved() {
        LinkAfter::Starved
    } else if link.faulted() {
        LinkAfter::Faulted
    } else {
        LinkAfter::Open
    }
}

/// Whether the link keeps the request of this call.
fn keeps_request_of<M: Maker>(
    alloc: Global,
    client: &mut Client<ServerLink<M>>,
    call: &Call,
) -> std::result::Result<bool, OutOfMemory>
    ensures kept { IfOk result (λ is. IsTrue is ↔ IsRequestOf call.now client.old.link.kept) }
    ensures stays { client.new ≡ client.old }
{
    is_request_of(alloc, call, client.inner().kept())
}

/// Whether the call failed at sending its request.
fn fails_writing(answer: &Result<Answered>) -> bool
    ensures { result ≡ fails_writing (answered_seen answer.now) }
{
    match answer {
        Err(Error::RequestWriteError(_)) => true,
        _ => false,
    }
}

/// Checks that a call left the link open, or was cut short by a response with no wire form. Else it
/// returns `OutOfMemory`.
fn check_link_after_call<M: Maker>(
    alloc: Global,
    client: &mut Client<ServerLink<M>>,
    call: &Call,
    answer: &Result<Answered>,
) -> std::result::Result<(), OutOfMemory>
    ensures after { IfOk result (λ _.
        IsLinkAfterCall call.now (answered_seen answer.now) client.old.link) }
    ensures facts { LinkFacts M.state client.old.link }
    ensures stays { client.new ≡ client.old }
{
    match link_after(client) {
        LinkAfter::Open => Ok(()),
        LinkAfter::Starved => Err(OutOfMemory),
        LinkAfter::Faulted => {
            if !fails_writing(answer) {
                return Err(OutOfMemory);
            }
            if keeps_request_of(alloc, client, call)? {
                Ok(())
            } else {
                Err(OutOfMemory)
            }
        }
    }
}

/// A copy of what was sent after the first `from` bytes.
fn sent_from<M: Maker>(
    alloc: Global,
    client: &mut Client<ServerLink<M>>,
    from: usize,
) -> std::result::Result<Blob, OutOfMemory>
    ensures sent { IfOk result (λ sent. sent ≡ drop from client.old.link.sent) }
    ensures stays { client.new ≡ client.old }
{
    let sent = client.inner().sent();
    if from <= sent.len() {
        Blob::of(alloc, &sent[from..])
    } else {
        Ok(Blob::new(alloc))
    }
}

/// The report of a call that was made once `from` bytes were sent: what it sent, its answer, and
/// copies of its diagnostics.
fn call_answer<M: Maker>(
    alloc: Global,
    client: &mut Client<ServerLink<M>>,
    from: usize,
    answer: Result<Answered>,
) -> std::result::Result<CallAnswer, OutOfMemory>
    ensures report { IfOk result (λ report. report ≡ record {
      sent = drop from client.old.link.sent;
      answer = answer;
      req_diag = client.old.request_text;
      res_diag = client.old.response_text;
    }) }
    ensures stays { client.new ≡ client.old }
{
    let sent = sent_from(alloc, client, from)?;
    Ok(CallAnswer {
        sent,
        answer,
        req_diag: client.copy_req_diag(alloc)?,
        res_diag: client.copy_res_diag(alloc)?,
    })
}

/// The bytes of the call's request, where it is valid, are read as that request.
fn reads_back<T>(
    alloc: Global,
    client: &Client<T>,
    call: &Call,
) -> std::result::Result<(), OutOfMemory>
    ensures { IfOk result (λ _. IsReadBack call.now client.now.credential) }
{
    request_is_read();
    helper_is_matched();
    client.fits();
    call_known(alloc, call)
}

/// Makes a call, and says whether it was the last: its answer is a connection error.
///
/// Its only error is `OutOfMemory`: then the call was made and its report is lost, or it was not
/// made.
pub fn make_call<M: Maker>(
    alloc: Global,
    client: &mut Client<ServerLink<M>>,
    call: &Call,
) -> Result<(CallAnswer, bool)>
    ensures ran { IfOk result (λ r. CallRan M.state call.now client.old client.new r.0) }
    ensures room { IfOk result (λ r. lacks_memory (report_of r.0).answer ≡ false) }
    ensures cut { OnErr result (CallLost M.state call.now client.old client.new) }
    ensures called { IfOk result (λ r. IsOpen M.state client.old.link →
        CallEffect M.state (call_settings client.old) call.now client.old.link client.new.link
        (report_of r.0) r.1) }
    ensures keeps { Keeps (server_link_state M.state client.old.link)
        (server_link_state M.state client.new.link) }
    ensures settings { call_settings client.new ≡ call_settings client.old }
    ensures facts { IfOk result (λ r. LinkFacts M.state client.new.link) }
    ensures lost { IfOk result (λ r. r.1 ≡ loses_connection (report_of r.0).answer) }
    ensures count { IfOk result (λ r. client.new.errors ≡ count_after client.old.errors r.1) }
    ensures memory { IfErr result (λ e. e ≡ no_memory) }
{
    request_is_message();
    reads_back(alloc, client, call)?;
    let from = sent_len(client);
    let answer = ask(alloc, client, call);
    if lacks_memory(&answer) {
        return Err(Error::OutOfMemory);
    }
    check_link_after_call(alloc, client, call, &answer)?;
    let lost = loses_connection(&answer);
    Ok((call_answer(alloc, client, from, answer)?, lost))
}
