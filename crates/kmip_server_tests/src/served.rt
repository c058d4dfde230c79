//! A server's responses to requests. Both stand in the notation of kmip_test_messages.
use crate::common::{Answer, bytes_of, maker_of};
use kmip_server_core::Server;
use kmip_store::{Maker, PlainMaker};
use std::alloc::Global;
use std::process::Abort;

/// A request, and the response to it.
struct Row {
    shows: &'static str,
    request: &'static str,
    response: &'static str,
}

/// The server's response to these bytes is as expected.
fn check_response<M: Maker>(
    rt: &impl Abort,
    server: &mut Server<M>,
    request: &[u8],
    expected: &[u8],
    shows: &str,
) {
    let response = server.answer(request).expect(rt, "a form");
    assert_eq!(rt; response.as_slice(), expected, "{shows}");
}

/// The same of the messages of a row.
fn row_holds<M: Maker>(rt: &impl Abort, alloc: Global, server: &mut Server<M>, row: &Row) {
    let request = bytes_of(rt, alloc, row.request);
    let response = bytes_of(rt, alloc, row.response);
    check_response(rt, server, &request, &response, row.shows);
}

/// The same of each row, one after the other.
fn rows_hold<M: Maker>(rt: &impl Abort, alloc: Global, server: &mut Server<M>, rows: &[Row]) {
    for row in rows {
        row_holds(rt, alloc, server, row);
    }
}

/// The time stamp of the servers of [`ALONE`].
const TIME: i64 = 7;

/// Requests to a server that was just made, each to its own, and its response.
const ALONE: &[Row] = &[
    Row {
        shows: "operations and object types",
        request: "REQ2(18, 74 e1,74 e2,74 e3)",
        response: "7B{7A{69{6A i1,6B i2},92 d7,0D i1},0F{5C e18,7F e0,7C{5C e2,5C eA,5C eE,5C e12,5C e13,5C e14,5C e18,5C e21,5C e25,57 e3,57 e4}}}",
    },
    Row {
        shows: "as many random bytes as asked for",
        request: "REQ2(25, C4 i2)",
        response: "7B{7A{69{6A i1,6B i2},92 d7,0D i1},0F{5C e25,7F e0,7C{C2 x0101}}}",
    },
    Row {
        shows: "a credential changes no response",
        request: "78{77{69{6A i1,6B i2},0C{23{24 e1,25{99 \"alice\"}}},0D i1},0F{5C e25,79{C4 i1}}}",
        response: "7B{7A{69{6A i1,6B i2},92 d7,0D i1},0F{5C e25,7F e0,7C{C2 x01}}}",
    },
    Row {
        shows: "an operation that no helper has: Locate, of objects of type PrivateKey",
        request: "REQ0(8, 08{0A \"Object Type\",0B e4})",
        response: "7B{7A{69{6A i1,6B i0},92 d7,0D i1},0F{5C e8,7F e1,7E e5,7D \"operation not supported\"}}",
    },
    Row {
        shows: "bytes that are no request",
        request: "!0000000000000000",
        response: "7B{7A{69{6A i1,6B i0},92 d7,0D i1},0F{7F e1,7E e4,7D \"invalid message\"}}",
    },
    Row {
        shows: "a revocation for another reason than the helper's: KeyCompromise",
        request: "REQ0(13, 94 \"1\",81{82 e2})",
        response: "7B{7A{69{6A i1,6B i0},92 d7,0D i1},0F{5C e13,7F e1,7E e7,7D \"not a helper request\"}}",
    },
];

/// The same of a row, by a server that was just made, with the plain maker.
fn row_holds_alone(rt: &impl Abort, alloc: Global, row: &Row) {
    let mut server = Server::new(alloc, PlainMaker::new(alloc), TIME);
    row_holds(rt, alloc, &mut server, row);
}

#[test]
fn a_server_answers_as_its_requests_allow(rt: HostRuntime) {
    for row in ALONE {
        row_holds_alone(&rt, rt.alloc(), row);
    }
}

/// The byte 01, signed by the key 1.
const SIGN: &str = "REQ2(21, 94 \"1\",2B{5F e8,38 e6,28 e4},C2 x01)";

/// A key made, what is allowed in each state, its end, and a key that there is not.
const LIFE: &[Row] = &[
    Row {
        shows: "a pair",
        request: "REQ0(2, 1F{08{0A \"Cryptographic Algorithm\",0B e4},08{0A \"Cryptographic Length\",0B i2048}},65{08{0A \"Name\",0B{55 \"priv\",54 e1}},08{0A \"Cryptographic Usage Mask\",0B i1}},6E{08{0A \"Name\",0B{55 \"pub\",54 e1}},08{0A \"Cryptographic Usage Mask\",0B i2}})",
        response: "OK0(2, 66 \"1\",6F \"2\")",
    },
    Row {
        shows: "a signature before activation",
        request: SIGN,
        response: "RES2(5C e21,7F e1,7E eC,7D \"not allowed in this state\")",
    },
    Row {
        shows: "activation",
        request: "REQ0(12, 94 \"1\")",
        response: "OK0(12, 94 \"1\")",
    },
    Row {
        shows: "a signature",
        request: SIGN,
        response: "OK2(21, 94 \"1\",C3 x0000000000000002)",
    },
    Row {
        shows: "a key",
        request: "REQ0(A, 94 \"1\")",
        response: "OK0(A, 57 e4,94 \"1\",64{40{42 e3,45{43 x000000000000000101},28 e4,2A i2048}})",
    },
    Row {
        shows: "destruction while active",
        request: "REQ0(14, 94 \"1\")",
        response: "RES0(5C e14,7F e1,7E eC,7D \"not allowed in this state\")",
    },
    Row {
        shows: "a name",
        request: "REQ0(E, 94 \"1\",08{0A \"Name\",0B{55 \"old\",54 e1}})",
        response: "OK0(E, 94 \"1\",08{0A \"Name\",0B{55 \"old\",54 e1}})",
    },
    Row {
        shows: "revocation",
        request: "REQ0(13, 94 \"1\",81{82 e6})",
        response: "OK0(13, 94 \"1\")",
    },
    Row {
        shows: "destruction",
        request: "REQ0(14, 94 \"1\")",
        response: "OK0(14, 94 \"1\")",
    },
    Row {
        shows: "a destroyed key",
        request: "REQ0(A, 94 \"1\")",
        response: "RES0(5C eA,7F e1,7E eC,7D \"not allowed in this state\")",
    },
    Row {
        shows: "a key that there is not",
        request: "REQ0(12, 94 \"9\")",
        response: "RES0(5C e12,7F e1,7E e1,7D \"no such object\")",
    },
];

#[test]
fn responses_follow_the_state_of_a_key(rt: HostRuntime) {
    let alloc = rt.alloc();
    let mut server = Server::new(alloc, PlainMaker::new(alloc), 1);
    rows_hold(&rt, alloc, &mut server, LIFE);
}

/// What a maker makes that refuses its second call and its fourth.
const ANSWERS: &[Answer] = &[
    Answer::Bytes(b"ab"),
    Answer::Pair(b"x", b"y"),
    Answer::Bytes(b"\x03"),
];

/// A pair of 1,024 bits.
const PAIR: &str =
    "REQ0(2, 1F{08{0A \"Cryptographic Algorithm\",0B e4},08{0A \"Cryptographic Length\",0B i1024}},65{08{0A \"Name\",0B{55 \"priv\",54 e1}},08{0A \"Cryptographic Usage Mask\",0B i1}},6E{08{0A \"Name\",0B{55 \"pub\",54 e1}},08{0A \"Cryptographic Usage Mask\",0B i2}})";

/// Two bytes, and a pair that is refused.
const REFUSED: &[Row] = &[
    Row {
        shows: "planned bytes",
        request: "REQ2(25, C4 i2)",
        response: "OK2(25, C2 x6162)",
    },
    Row {
        shows: "a pair that the maker refused",
        request: PAIR,
        response: "RES0(5C e2,7F e1,7E eA,7D \"maker failed\")",
    },
];

/// The pair, made at the next call, and a signature that is refused once.
const MADE: &[Row] = &[
    Row {
        shows: "the pair at the next call",
        request: PAIR,
        response: "OK0(2, 66 \"1\",6F \"2\")",
    },
    Row {
        shows: "the public key",
        request: "REQ0(A, 94 \"2\")",
        response: "OK0(A, 57 e3,94 \"2\",6D{40{42 e3,45{43 x79},28 e4,2A i1024}})",
    },
    Row {
        shows: "activation of the private key",
        request: "REQ0(12, 94 \"1\")",
        response: "OK0(12, 94 \"1\")",
    },
    Row {
        shows: "a signature that the maker refused",
        request: SIGN,
        response: "RES2(5C e21,7F e1,7E eA,7D \"maker failed\")",
    },
    Row {
        shows: "the signature at the next call",
        request: SIGN,
        response: "OK2(21, 94 \"1\",C3 x03)",
    },
];

/// The server has no objects.
fn check_empty<M: Maker>(rt: &impl Abort, server: &Server<M>) {
    assert_eq!(rt; server.store().len(), 0, "objects after the refusal");
}

#[test]
fn what_the_maker_refused_is_made_at_the_next_call(rt: HostRuntime) {
    let alloc = rt.alloc();
    let mut server = Server::new(alloc, maker_of(&rt, alloc, ANSWERS, &[1, 3]), 1);
    rows_hold(&rt, alloc, &mut server, REFUSED);
    check_empty(&rt, &server);
    rows_hold(&rt, alloc, &mut server, MADE);
}
