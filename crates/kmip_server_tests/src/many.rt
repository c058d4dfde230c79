//! Many calls, and long ones.
use crate::common::TestCall::{Activate, CreatePair};
use crate::common::call_of;
use crate::reports::Returned::{self, Failure, Value};
use crate::reports::{Row, Sent, check_calls, client_with_diagnostics, make_calls, plain_link};
use kmip_client::Client;
use kmip_server::{Call, ServerLink};
use kmip_store::PlainMaker;
use kmip_wire::List;
use std::alloc::Global;
use std::process::Abort;

const NO_OBJECT: Returned = Failure(
    "Item not found: ",
    "Operation Activate failed: no such object",
);

/// So many calls for a pair.
fn pairs(rt: &impl Abort, alloc: Global, count: usize) -> List<Call> {
    let mut calls = List::new(alloc);
    for _ in 0..count {
        let call = call_of(rt, alloc, CreatePair(2048));
        calls.push(call).expect(rt, "memory");
    }
    calls
}

/// Makes so many calls for a pair, each of which adds two objects.
fn make_pairs(
    rt: &impl Abort,
    alloc: Global,
    client: &mut Client<ServerLink<PlainMaker>>,
    count: usize,
    objects: usize,
) {
    let calls = pairs(rt, alloc, count);
    let reports = make_calls(rt, alloc, client, calls);
    assert_eq!(rt; reports.len(), count, "calls made");
    drop(reports);
    assert_eq!(rt; client.inner().server().store().len(), objects, "objects");
}

/// The last object, and the one that would be next.
const LAST: &[Row<'static>] = &[
    (Activate("4000"), Value("()")),
    (Activate("4001"), NO_OBJECT),
];

#[test]
fn two_thousand_pairs_are_four_thousand_objects(rt: HostRuntime) {
    let alloc = rt.alloc();
    let mut client = client_with_diagnostics(plain_link(alloc));
    make_pairs(&rt, alloc, &mut client, 2000, 4000);
    check_calls(&rt, alloc, &mut client, LAST, None);
}

/// The text, so many times.
fn repeated(rt: &impl Abort, alloc: Global, text: &str, times: usize) -> String {
    text.repeat(alloc, times).expect(rt, "memory")
}

/// What a call for an identifier of 16 MiB sends, and both diagnostics.
const LONG: Sent = (
    16_777_216 + 112,
    "78[77[69[6Ai6Bi]0Di]0F[5Ce12:79[94t]]]",
    "7B[7A[69[6Ai6Bi]92d0Di]0F[5Ce12:7Fe1:7Ee1:7Dt]]",
);

#[test]
fn an_identifier_of_16_mib_is_sent_and_names_no_object(rt: HostRuntime) {
    let alloc = rt.alloc();
    let id = repeated(&rt, alloc, "0123456789abcdef", 1_048_576);
    let mut client = client_with_diagnostics(plain_link(alloc));
    let rows = [(Activate(id.as_str()), NO_OBJECT)];
    check_calls(&rt, alloc, &mut client, &rows, Some(LONG));
}
