//! Calls of a client over a server.
ghost use Rattle.std.specs.Prelude.{◌≡◌, List, map, IfOk, IfErr, OnErr};
ghost use Rattle.kmip_link.specs.State.{Keeps};
ghost use Rattle.kmip_client.specs.Client.{count_after};
ghost use Rattle.kmip_client.specs.declared.error.Error.TheVariants.{OutOfMemory as no_memory};
ghost use Rattle.kmip_server.specs.Calls.{report_of, call_settings};
ghost use Rattle.kmip_server.specs.OneCall.{CallsEnd};
ghost use Rattle.kmip_server.specs.Link.{server_link_state, IsOpen};
ghost use Rattle.kmip_server.specs.Joined.{last_is_lost};
ghost use Rattle.kmip_server.specs.Session.{CallsRan, CallsCut, IsCallSession};

use crate::answers::CallAnswers;
use crate::called::{make_call, sent_len};
use crate::link::ServerLink;
use kmip_client::{Client, Result};
use kmip_response_write::settled_is_read;
use kmip_server_core::{own_call, served_is_settled};
use kmip_store::{Call, Maker};
use kmip_wire::List;
use std::alloc::Global;

/// Makes the calls in order, none after an answer that is a connection error.
///
/// Over a link that was just made, whose maker tells, where each request is valid and each response
/// has a wire form within the client's limit, the answers and the objects at the end are those of
/// the object map asked directly, with the maker's answers in order.
///
/// Over any link that is neither faulted nor starved, that was sent only whole messages and whose
/// maker tells, what each call sent, its answer and its diagnostics are those of one exchange over
/// the bytes left to read, after the server's response was added to these. A call whose response
/// has no wire form is the last: a part of its request was sent, and its answer is
/// `RequestWriteError`.
///
/// Over any other link, each report is that of a call of the helper, made on the client that the
/// call before left. A call that left the link starved, or faulted over the request of another
/// call, has no report: it ends the calls with `OutOfMemory`.
///
/// Afterwards the client holds the diagnostics of the last call. Its only error is `OutOfMemory`,
/// which also stands for a call that answered so: no call is made after it, its reports are lost,
/// and the calls that were made stay made.
///
/// The clause `session` promises of the reports, part by part, what the fields of `IsCallSession`
/// (specs/Session.antt) say. The clause `cut` says what was done where memory ran out, and the
/// others hold however it ends.
pub fn call_all<M: Maker>(
    alloc: Global,
    client: &mut Client<ServerLink<M>>,
    calls: List<Call>,
) -> Result<CallAnswers>
    ensures session { IfOk result (λ reports.
        IsCallSession M.state calls client.old client.new reports) }
    ensures cut { OnErr result (CallsCut M.state calls client.old client.new) }
    ensures keeps { Keeps (server_link_state M.state client.old.link)
        (server_link_state M.state client.new.link) }
    ensures settings { call_settings client.new ≡ call_settings client.old }
    ensures memory { IfErr result (λ e. e ≡ no_memory) }
{
    own_call();
    served_is_settled();
    settled_is_read();
    calls_over(alloc, client, calls)
}

/// Makes the same calls; its clauses do not speak of the object map.
fn calls_over<M: Maker>(
    alloc: Global,
    client: &mut Client<ServerLink<M>>,
    calls: List<Call>,
) -> Result<CallAnswers>
    ensures ran { IfOk result (λ reports. CallsRan M.state calls client.old reports client.new) }
    ensures ended { IfOk result (λ reports. IsOpen M.state client.old.link →
        CallsEnd M.state (call_settings client.old) (server_link_state M.state client.old.link)
        client.new.link calls (map report_of reports)) }
    ensures count { IfOk result (λ reports.
        client.new.errors ≡ count_after client.old.errors (last_is_lost (map report_of reports))) }
    ensures cut { OnErr result (CallsCut M.state calls client.old client.new) }
    ensures keeps { Keeps (server_link_state M.state client.old.link)
        (server_link_state M.state client.new.link) }
    ensures settings { call_settings client.new ≡ call_settings client.old }
    ensures memory { IfErr result (λ e. e ≡ no_memory) }
{
    sent_len(client);
    let mut reports = List::new(alloc);
    for call in calls.as_slice() {
        let (report, lost) = make_call(alloc, client, call)?;
        reports.push(report)?;
        if lost {
            return Ok(reports);
        }
    }
    Ok(reports)
}
