//! Several requests over one client.
ghost use Rattle.std.specs.Prelude.{◌≡◌, map, IfOk, IfErr, OnErr};
ghost use Rattle.kmip_link.specs.State.{Keeps};
ghost use Rattle.kmip_response.specs.Values.{response_payload_val};
ghost use Rattle.kmip_client.specs.Session.{IsSession, exchange_report, CutOff};
ghost use Rattle.kmip_client.specs.declared.error.Error.TheVariants.{OutOfMemory as no_memory};

use crate::answered::AnyPayload;
use crate::client::{Client, lacks_memory, loses_connection};
use crate::error::{Error, Result};
use kmip_link::Link;
use kmip_request::RequestPayload;
use kmip_response::ResponsePayload;
use kmip_wire::{List, OutOfMemory, Text};
use std::alloc::Global;

/// One request of a session.
#[derive(Drop)]
pub struct Exchange<P = ResponsePayload> {
    /// What its call answered.
    pub answer: Result<P>,
    /// The diagnostic of the request, as `last_req_diag_str` had it after the call.
    pub req_diag: Option<Text>,
    /// The diagnostic of the response, as `last_res_diag_str` had it after the call.
    pub res_diag: Option<Text>,
}

/// What a session came to: the exchanges in order.
pub type Answers = List<Exchange>;

/// Calls `do_request` for each payload in order, and makes no call after the first answer that is a
/// connection error.
///
/// Each exchange holds copies of the diagnostics of its call. Afterwards the client holds those of
/// the last call, and with no payload what it held before. Its only error is `OutOfMemory`, which
/// also stands for a call that answered so: no call is made after it, its answers are lost, and the
/// calls that were made stay made.
///
/// The clause `session` promises of the exchanges, part by part, what the fields of `IsSession`
/// (specs/Session.antt) say: `ran`, `stops`, `calls`, `texts`, `requests` and `count`. The clause
/// `cut` says what was done where memory ran out, and the others hold however it ends.
pub fn exchange_all<T: Link>(
    alloc: Global,
    client: &mut Client<T>,
    payloads: List<RequestPayload>,
) -> Result<Answers>
    ensures session { IfOk result (λ answers. IsSession T.state payloads client.old client.new
        (map (exchange_report response_payload_val) answers)) }
    ensures cut { OnErr result (CutOff T.state payloads client.old client.new) }
    ensures keeps { Keeps (T.state client.old.link) (T.state client.new.link) }
    ensures settings { (client.new.credential ≡ client.old.credential) ×
        (client.new.limit ≡ client.old.limit) ×
        (client.new.buffered ≡ client.old.buffered) }
    ensures memory { IfErr result (λ e. e ≡ no_memory) }
{
    exchanges(alloc, client, payloads.into_vec())
}

/// The same, over any payload that each call answers, so that its proof sees no variant.
fn exchanges<T: Link, P: AnyPayload>(
    alloc: Global,
    client: &mut Client<T>,
    payloads: Vec<RequestPayload>,
) -> Result<List<Exchange<P>>>
    ensures session { IfOk result (λ answers. IsSession T.state payloads.items client.old client.new
        (map (exchange_report P.whole) answers)) }
    ensures cut { OnErr result (CutOff T.state payloads.items client.old client.new) }
    ensures keeps { Keeps (T.state client.old.link) (T.state client.new.link) }
    ensures settings { (client.new.credential ≡ client.old.credential) ×
        (client.new.limit ≡ client.old.limit) ×
        (client.new.buffered ≡ client.old.buffered) }
    ensures memory { IfErr result (λ e. e ≡ no_memory) }
{
    P::whole_holds();
    let mut exchanges = List::new(alloc);
    for payload in payloads {
        let answer = client.request(alloc, &payload);
        if lacks_memory(&answer) {
            return Err(Error::OutOfMemory);
        }
        let lost = loses_connection(&answer);
        exchanges.push(exchange_of(alloc, client, answer)?)?;
        if lost {
            return Ok(exchanges);
        }
    }
    Ok(exchanges)
}

/// An answer beside copies of the diagnostics of its call.
fn exchange_of<T, P: Drop>(
    alloc: Global,
    client: &Client<T>,
    answer: Result<P>,
) -> std::result::Result<Exchange<P>, OutOfMemory>
    ensures { IfOk result (λ exchange. exchange ≡
        record {
          answer = answer;
          req_diag = client.now.request_text;
          res_diag = client.now.response_text;
        }) }
{
    Ok(Exchange {
        answer,
        req_diag: client.copy_req_diag(alloc)?,
        res_diag: client.copy_res_diag(alloc)?,
    })
}
