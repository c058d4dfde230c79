//! Calls of a client over a server that was just made.
//!
//! The life of a key over the plain maker stands among the tests of kmip_run, where `joined` makes
//! the same calls.
use crate::common::TestCall::{Activate, CreatePair, Random, Rename, Sign};
use crate::common::{Answer, answers_of};
use crate::reports::Returned::{Failure, Value};
use crate::reports::{
    Row, check_calls, check_link, client_over, client_with_diagnostics, plain_link,
};
use kmip_server::ServerLink;
use kmip_store::MemoryMaker;
use kmip_wire::Config;
use std::alloc::Global;
use std::process::Abort;

/// What a maker makes that refuses its second call.
const ANSWERS: &[Answer] = &[Answer::Pair(b"\x01", b"\x02"), Answer::Bytes(b"\x03")];

/// A link over a server with this maker.
fn refusing_link(rt: &impl Abort, alloc: Global) -> ServerLink<MemoryMaker> {
    let answers = answers_of(rt, alloc, ANSWERS);
    let maker = MemoryMaker::new(alloc, answers, &[1]).expect(rt, "memory");
    ServerLink::new(alloc, maker, 0)
}

/// A name, and a signature that the maker refuses once.
const REFUSED: &[Row<'static>] = &[
    (CreatePair(2048), Value("1 2")),
    (
        Rename("2", "new"),
        Value(
            "{unique_identifier=\"2\",attribute={name=\"Name\",value=Name{name_value=\"new\",name_type=UninterpretedTextString}}}",
        ),
    ),
    (Activate("1"), Value("()")),
    (
        Sign("1"),
        Failure("Server error: ", "Operation Sign failed: maker failed"),
    ),
    (
        Sign("1"),
        Value("{unique_identifier=\"1\",signature_data=x\"03\"}"),
    ),
];

#[test]
fn a_signature_that_the_maker_refused_is_made_at_the_next_call(rt: HostRuntime) {
    let alloc = rt.alloc();
    let mut client = client_with_diagnostics(refusing_link(&rt, alloc));
    check_calls(&rt, alloc, &mut client, REFUSED, None);
}

/// A response over the limit of 16 bytes.
const LIMITED: &[Row<'static>] = &[(
    Random(2),
    Failure("Deserialize error: ", "response size 152 exceeds limit 16"),
)];

#[test]
fn a_response_over_the_limit_loses_no_connection(rt: HostRuntime) {
    let alloc = rt.alloc();
    let mut client = client_over(plain_link(alloc), Config::new().with_max_bytes(16));
    check_calls(&rt, alloc, &mut client, LIMITED, None);
    check_link(&rt, &mut client, false);
}
