//! Requests of the helpers, in the notation of kmip_test_messages, and the calls that they are of.
use crate::common::TestCall::{
    self, Activate, CreatePair, Destroy, Get, Query, Random, Rename, Revoke, Sign,
};
use crate::common::{bytes_of, call_of};
use kmip_server_core::{call_known, is_request_of};
use std::alloc::Global;
use std::process::Abort;

/// A call, bytes, and whether they are its request.
struct Row {
    shows: &'static str,
    call: TestCall<'static>,
    bytes: &'static str,
    is_request: bool,
}

/// The byte 01, signed by the key 1, with the credential of alice.
const SIGN_OF_ALICE: &str =
    "78{77{69{6A i1,6B i2},0C{23{24 e1,25{99 \"alice\",A1 \"secret\"}}},0D i1},0F{5C e21,79{94 \"1\",2B{5F e8,38 e6,28 e4},C2 x01}}}";

const ROWS: &[Row] = &[
    Row {
        shows: "a query",
        call: Query,
        bytes: "REQ2(18, 74 e1,74 e2,74 e3)",
        is_request: true,
    },
    Row {
        shows: "a pair",
        call: CreatePair(2048),
        bytes: "REQ0(2, 1F{08{0A \"Cryptographic Algorithm\",0B e4},08{0A \"Cryptographic Length\",0B i2048}},65{08{0A \"Name\",0B{55 \"priv\",54 e1}},08{0A \"Cryptographic Usage Mask\",0B i1}},6E{08{0A \"Name\",0B{55 \"pub\",54 e1}},08{0A \"Cryptographic Usage Mask\",0B i2}})",
        is_request: true,
    },
    Row {
        shows: "random bytes",
        call: Random(2),
        bytes: "REQ2(25, C4 i2)",
        is_request: true,
    },
    Row {
        shows: "activation",
        call: Activate("1"),
        bytes: "REQ0(12, 94 \"1\")",
        is_request: true,
    },
    Row {
        shows: "revocation",
        call: Revoke("1"),
        bytes: "REQ0(13, 94 \"1\",81{82 e6})",
        is_request: true,
    },
    Row {
        shows: "destruction",
        call: Destroy("1"),
        bytes: "REQ0(14, 94 \"1\")",
        is_request: true,
    },
    Row {
        shows: "a name",
        call: Rename("1", "old"),
        bytes: "REQ0(E, 94 \"1\",08{0A \"Name\",0B{55 \"old\",54 e1}})",
        is_request: true,
    },
    Row {
        shows: "a key",
        call: Get("1"),
        bytes: "REQ0(A, 94 \"1\")",
        is_request: true,
    },
    Row {
        shows: "a signature, with a credential",
        call: Sign("1"),
        bytes: SIGN_OF_ALICE,
        is_request: true,
    },
    Row {
        shows: "a signature by another key",
        call: Sign("2"),
        bytes: SIGN_OF_ALICE,
        is_request: false,
    },
    Row {
        shows: "another operation",
        call: Get("1"),
        bytes: SIGN_OF_ALICE,
        is_request: false,
    },
    Row {
        shows: "bytes that end early",
        call: Sign("1"),
        bytes: "!420078",
        is_request: false,
    },
];

/// Whether these bytes are the request of the call, which is known to fit its table.
fn is_request(rt: &impl Abort, alloc: Global, call: TestCall<'_>, bytes: &[u8]) -> bool {
    let call = call_of(rt, alloc, call);
    call_known(alloc, &call).expect(rt, "memory");
    let is_request = is_request_of(alloc, &call, bytes).expect(rt, "memory");
    drop(call);
    is_request
}

fn row_holds(rt: &impl Abort, alloc: Global, row: &Row) {
    let bytes = bytes_of(rt, alloc, row.bytes);
    let is_request = is_request(rt, alloc, row.call, &bytes);
    assert_eq!(rt; is_request, row.is_request, "{}", row.shows);
}

#[test]
fn a_request_is_that_of_one_call_whatever_its_credential(rt: HostRuntime) {
    for row in ROWS {
        row_holds(&rt, rt.alloc(), row);
    }
}
