//! A call of a client over a server in memory.
ghost use Rattle.std.specs.Prelude.{◌≡◌, false, IfOk};
ghost use Rattle.kmip_server.specs.Link.{LinkFacts};
ghost use Rattle.kmip_store.specs.Plain.{plain_state};
ghost use Rattle.kmip_joined.specs.World.{world_of, nothing_yet};
ghost use Rattle.kmip_joined.specs.Reports.{IsJoined, HasPlainAnswers, IsMade};

use kmip_client::Client;
use kmip_server::{Call, CallAnswers, ServerLink, call_all};
use kmip_store::PlainMaker;
use kmip_wire::{List, OutOfMemory};
use std::alloc::Global;

/// A link over a server with no objects, a plain maker and the time stamp 0. It takes no memory.
pub fn joined_link(alloc: Global) -> ServerLink<PlainMaker>
    ensures joined { IsJoined result }
    ensures world { world_of result ≡ nothing_yet }
{
    ServerLink::new(alloc, PlainMaker::new(alloc), 0)
}

/// Whether a message came whose response has no wire form. Its clauses also say what holds of the
/// link and its maker.
fn has_faulted(client: &mut Client<ServerLink<PlainMaker>>) -> bool
    ensures known { LinkFacts plain_state client.old.link }
    ensures plain { HasPlainAnswers client.old.link }
    ensures sound { result ≡ false → client.old.link.faults ≡ 0 }
    ensures stays { client.new ≡ client.old }
{
    let link = client.inner();
    link.facts();
    link.server().maker().numbered();
    link.faulted()
}

/// Makes a call, whose answer is the one in the list.
pub fn call_one(
    alloc: Global,
    client: &mut Client<ServerLink<PlainMaker>>,
    call: Call,
) -> Result<CallAnswers, OutOfMemory>
    requires { IsJoined client.old.link }
    ensures { IfOk result (λ answers. IsMade client.old client.new call answers) }
{
    has_faulted(client);
    let mut calls = List::new(alloc);
    calls.push(call)?;
    let Ok(answers) = call_all(alloc, client, calls) else {
        return Err(OutOfMemory);
    };
    if has_faulted(client) {
        return Err(OutOfMemory);
    }
    Ok(answers)
}
