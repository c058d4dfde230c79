//! Links that were used before, and that no call goes over any more.
ghost use Rattle.std.specs.Prelude.{[], true};

use crate::common::TestCall::{Query, Random};
use crate::reports::Returned::{Failure, NoReport};
use crate::reports::{Row, calls_of, check_calls, check_link, client_with_diagnostics, plain_link};
use kmip_client::{Client, Error};
use kmip_link::Link;
use kmip_server::{ServerLink, call_all};
use kmip_store::{Maker, MakerError, PlainMaker};
use kmip_wire::Blob;
use std::alloc::Global;
use std::process::Abort;

/// A maker that never has the memory for an answer.
#[derive(Drop)]
struct PoorMaker;

impl Maker for PoorMaker {
    ghost state = { λ _. record { tells = true; asked = []; given = []; faults = 0 } };

    fn key_pair(&mut self, _alloc: Global, _bits: i32) -> Result<(Blob, Blob), MakerError> {
        Err(MakerError::OutOfMemory)
    }

    fn random(&mut self, _alloc: Global, _count: i32) -> Result<Blob, MakerError> {
        Err(MakerError::OutOfMemory)
    }

    fn sign(&mut self, _alloc: Global, _key: &Blob, _bytes: &[u8]) -> Result<Blob, MakerError> {
        Err(MakerError::OutOfMemory)
    }
}

/// The calls of the rows over the client's link end for want of memory.
fn check_starving(
    rt: &impl Abort,
    alloc: Global,
    client: &mut Client<ServerLink<PoorMaker>>,
    rows: &[Row<'_>],
) {
    let calls = calls_of(rt, alloc, rows);
    let starves = matches!(call_all(alloc, client, calls), Err(Error::OutOfMemory));
    assert!(rt; starves, "want of memory");
}

/// A call that needs nothing of the maker, and one that does.
const STARVED: &[Row<'static>] = &[(Query, NoReport), (Random(2), NoReport)];

/// A call that would need nothing of the maker.
const LATER: &[Row<'static>] = &[(Query, NoReport)];

/// No message is kept.
fn check_none_kept(rt: &impl Abort, client: &mut Client<ServerLink<PoorMaker>>) {
    assert!(rt; client.inner().kept().is_empty(), "no message is kept");
}

#[test]
fn a_maker_without_memory_starves_the_link_for_good(rt: HostRuntime) {
    let alloc = rt.alloc();
    let mut client = client_with_diagnostics(ServerLink::new(alloc, PoorMaker, 0));
    check_starving(&rt, alloc, &mut client, STARVED);
    check_link(&rt, &mut client, true);
    check_none_kept(&rt, &mut client);
    check_starving(&rt, alloc, &mut client, LATER);
}

/// The first four of the eight bytes of a message's head.
const BEGUN: &[u8] = b"\x42\x00\x78\x01";

/// Writes the begun message.
fn begin(rt: &impl Abort, client: &mut Client<ServerLink<PlainMaker>>) {
    let begun = client.inner().write(BEGUN);
    assert!(rt; begun.is_ok(), "the begun message");
}

/// The first call has no response, and the second is not made.
const ENDED: &[Row<'static>] = &[
    (Query, Failure("Response read error: ", "end of input")),
    (Random(2), NoReport),
];

#[test]
fn a_request_within_a_begun_message_has_no_response(rt: HostRuntime) {
    let alloc = rt.alloc();
    let mut client = client_with_diagnostics(plain_link(alloc));
    begin(&rt, &mut client);
    check_calls(&rt, alloc, &mut client, ENDED, None);
    check_link(&rt, &mut client, false);
}
