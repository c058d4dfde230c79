//! Any operation by its tree, over links that hold its answer, and with a Unique Batch Item ID:
//! KMIP 1.0, 6.4.
use crate::exchanges::Answer::{Fails, Gives};
use crate::exchanges::Call::Encrypt;
use crate::exchanges::{
    Answer, Ask, Row, are_answered, are_refused, is_answer, is_answered, is_diagnosed, is_refused,
};
use crate::helpers::{bytes_of, client_of_alice, link_fed, tree_of};
use kmip_client::{
    OperationRequest, Version, is_of_other_item, read_operation_response, write_operation_request,
};
use kmip_enums::Operation;
use kmip_tags::tags::REQUEST_PAYLOAD;
use kmip_wire::{Blob, Config, Node, Tag, Tree};
use std::alloc::Global;
use std::process::Abort;

/// The payload of the requests.
const PAYLOAD: &str = "79{94 \"k1\",C2 xAA}";

/// The request of KMIP 1.2.
const PLAIN: Ask<'static> = Ask {
    call: Encrypt(Version::V1_2, None),
    tree: PAYLOAD,
    sent: "REQ2(1F, 94 \"k1\",C2 xAA)",
};

/// Responses, and what they answer.
const RESPONSES: &[Row] = &[
    // payloads
    (
        "OK2(1F, 94 \"k1\",C2 xBEEF)",
        Gives("7C{94 \"k1\",C2 xBEEF}"),
    ),
    // no payload
    ("RES2(5C e1F,7F e0)", Gives("7C{}")),
    // items and numbers that KMIP 1.2 has not, in a payload, in a batch item and round it
    (
        "OK2(1F, 540001{28 eFFFF,57 i9},94 xAA)",
        Gives("7C{540001{28 eFFFF,57 i9},94 xAA}"),
    ),
    (
        "RES2(540001 i7,7F e0,93 x01,5C e1F,7C{C2 xBEEF},540002{})",
        Gives("7C{C2 xBEEF}"),
    ),
    (
        "7B{540001 i7,7A{540002 \"x\",0D i1,69{6A i9,6B i9}},0F{5C e1F,7F e0,7C{C2 xBEEF}},540003{}}",
        Gives("7C{C2 xBEEF}"),
    ),
    // a payload that is no structure
    ("RES2(5C e1F,7F e0,7C xBEEF)", Gives("7C xBEEF")),
    // refusals
    (
        "RES2(5C e1F,7F e1,7E e1,7D \"gone\")",
        Fails("Item not found: Operation Encrypt failed: gone"),
    ),
    (
        "RES2(5C e1F,7F e1,7E e5,7D \"no\")",
        Fails("Server error: Operation Encrypt failed: no"),
    ),
    // a reason of KMIP 1.3, and one of a vendor
    (
        "RES2(5C e1F,7F e1,7E e15,7D \"read only\")",
        Fails("Server error: Operation Encrypt failed for reason 21: read only"),
    ),
    (
        "RES2(5C e1F,7F e1,7E e80000001,7D \"\")",
        Fails("Server error: Operation Encrypt failed for reason 2147483649: "),
    ),
    // no reason, no message, no operation
    (
        "RES2(5C e1F,7F e1,7D \"no\")",
        Fails("Server error: Operation Encrypt failed: no"),
    ),
    (
        "RES2(5C e1F,7F e1,7E e1)",
        Fails("Item not found: Operation Encrypt failed: "),
    ),
    (
        "RES2(7F e1)",
        Fails("Server error: Operation Encrypt failed: "),
    ),
    // no answer: another operation, and none
    (
        "OK2(20, 94 \"k1\",C2 xBEEF)",
        Fails("Internal error: Response does not match request operation Encrypt"),
    ),
    (
        "RES2(7F e0,7C{})",
        Fails("Internal error: Response does not match request operation Encrypt"),
    ),
    // another status, and none
    (
        "RES2(5C e1F,7F e2)",
        Fails("Internal error: Result status 2 is not supported"),
    ),
    (
        "RES2(5C e1F,7F e9)",
        Fails("Internal error: Result status 9 is not supported"),
    ),
    (
        "RES2(5C e1F)",
        Fails("Internal error: not a response message"),
    ),
    // two payloads
    (
        "RES2(5C e1F,7F e0,7C{},7C{})",
        Fails("Internal error: not a response message"),
    ),
    // a request
    (
        "REQ2(1F, 94 \"k1\")",
        Fails("Internal error: not a response message"),
    ),
    // not one batch item: two items, of which the header counts one
    (
        "7B{7A{69{6A i1,6B i2},92 d1,0D i1},0F{5C e1F,7F e0,7C{}},0F{5C e1F,7F e0,7C{}}}",
        Fails("Internal error: Expected one batch item in response but received 2"),
    ),
    // one item, of which the header counts two
    (
        "7B{7A{69{6A i1,6B i2},92 d1,0D i2},0F{5C e1F,7F e0,7C{}}}",
        Fails("Internal error: Expected one batch item in response but received 1"),
    ),
    // no item, no count, no header
    (
        "7B{7A{69{6A i1,6B i2},92 d1,0D i1}}",
        Fails("Internal error: Expected one batch item in response but received 0"),
    ),
    (
        "7B{7A{69{6A i1,6B i2},92 d1},0F{5C e1F,7F e0,7C{}}}",
        Fails("Internal error: Expected one batch item in response but received 1"),
    ),
    (
        "7B{0F{5C e1F,7F e0,7C{}}}",
        Fails("Internal error: Expected one batch item in response but received 1"),
    ),
    // no message: cut within the contents, and within the head
    (
        "!42007B010000001042007A01",
        Fails("Response read error: end of input"),
    ),
    ("!42007B0100", Fails("Response read error: end of input")),
    // contents that are no item
    (
        "!42007B0100000008FFFFFFFFFFFFFFFF",
        Fails("Deserialize error: malformed TTLV"),
    ),
    // the head of an integer
    (
        "!42007B0200000004",
        Fails("Deserialize error: not a structure"),
    ),
];

#[test]
fn responses_are_answered(rt: HostRuntime) {
    are_answered(&rt, rt.alloc(), Config::new(), &PLAIN, RESPONSES);
}

/// The head of a response of 136 bytes, alone.
const LONG: &[Row] = &[(
    "!42007B0100000080",
    Fails("Deserialize error: response size 136 exceeds limit 135"),
)];

#[test]
fn a_response_past_the_limit_is_not_taken(rt: HostRuntime) {
    let config = Config::new().with_max_bytes(135);
    are_answered(&rt, rt.alloc(), config, &PLAIN, LONG);
}

/// Requests of each version, of any payload, and of the deepest, which is the third level of its
/// message.
const REQUESTS: &[Ask<'static>] = &[
    Ask {
        call: Encrypt(Version::V1_0, None),
        tree: PAYLOAD,
        sent: "REQ0(1F, 94 \"k1\",C2 xAA)",
    },
    Ask {
        call: Encrypt(Version::V1_1, None),
        tree: PAYLOAD,
        sent: "REQ1(1F, 94 \"k1\",C2 xAA)",
    },
    Ask {
        call: Encrypt(Version::V1_2, None),
        tree: PAYLOAD,
        sent: "REQ2(1F, 94 \"k1\",C2 xAA)",
    },
    Ask {
        call: Encrypt(Version::V1_2, None),
        tree: "540001 i7",
        sent: "78{77{69{6A i1,6B i2},0D i1},0F{5C e1F,540001 i7}}",
    },
    Ask {
        call: Encrypt(Version::V1_2, None),
        tree: "79^62{}",
        sent: "REQ2(1F, 79^61{})",
    },
];

const REFUSAL: &[Row] = &[(
    "RES2(7F e1)",
    Fails("Server error: Operation Encrypt failed: "),
)];

#[test]
fn requests_name_their_version(rt: HostRuntime) {
    for ask in REQUESTS {
        are_answered(&rt, rt.alloc(), Config::new(), ask, REFUSAL);
    }
}

#[test]
fn a_request_has_the_credential(rt: HostRuntime) {
    let alloc = rt.alloc();
    let response = "RES2(5C e1F,7F e0)";
    let client = client_of_alice(&rt, alloc, link_fed(&rt, alloc, response));
    let ask = Ask {
        call: Encrypt(Version::V1_2, None),
        tree: PAYLOAD,
        sent: "78{77{69{6A i1,6B i2},0C{23{24 e1,25{99 \"alice\",A1 \"secret\"}}},0D i1},0F{5C e1F,79{94 \"k1\",C2 xAA}}}",
    };
    is_answered(&rt, alloc, client, &ask, response, &Gives("7C{}"));
}

#[test]
fn diagnostics_are_of_the_messages(rt: HostRuntime) {
    let row = ("RES2(5C e1F,7F e0)", Gives("7C{}"));
    let request = "78[77[69[6Ai6Bi]0Di]0F[5Ce1F:79[94tC2x]]]";
    let response = "7B[7A[69[6Ai6Bi]92d0Di]0F[5Ce1F:7Fe0:]]";
    is_diagnosed(&rt, rt.alloc(), &PLAIN, &row, request, response);
}

/// Payloads of 63 and 64 levels, so that their messages would have 65 and 66.
const DEEP: &[&str] = &["79^63{}", "79^64{}"];

#[test]
fn a_payload_without_a_form_is_not_sent(rt: HostRuntime) {
    let alloc = rt.alloc();
    are_refused(&rt, alloc, &Encrypt(Version::V1_2, None), DEEP);
    // an ID takes no level
    are_refused(&rt, alloc, &Encrypt(Version::V1_2, Some(ID)), DEEP);
    let three = Blob::of(alloc, b"\x01\x02\x03").expect(&rt, "memory");
    let payload = Tree {
        tag: Tag::of(REQUEST_PAYLOAD),
        node: Node::BigInteger(three),
    };
    is_refused(&rt, alloc, &Encrypt(Version::V1_2, None), &payload);
    drop(payload);
}

/// An ID.
const ID: &[u8] = b"\x01\x02\x03";

/// The request with the ID.
const REQUEST: &str = "78{77{69{6A i1,6B i2},0D i1},0F{5C e1F,93 x010203,79{94 \"k1\",C2 xAA}}}";

/// The same in bytes: the head, the header, and the batch item with its four items.
const REQUEST_BYTES: &str =
    "!42007801000000904200770100000038420069010000002042006A0200000004000000010000000042006B02000000040000000200000000\
42000D0200000004000000010000000042000F010000004842005C05000000040000001F0000000042009308000000030102030000000000\
420079010000002042009407000000026B310000000000004200C20800000001AA00000000000000";

const IDENTIFIED: Ask<'static> = Ask {
    call: Encrypt(Version::V1_2, Some(ID)),
    tree: PAYLOAD,
    sent: REQUEST_BYTES,
};

/// What is printed where the response is that of another batch item.
const OTHER: &str = "Internal error: Response does not have the request's Unique Batch Item ID";

/// Responses to the request with the ID, and what they answer.
const IDENTIFIED_RESPONSES: &[Row] = &[
    (
        "RES2(5C e1F,93 x010203,7F e0,7C{C2 xBEEF})",
        Gives("7C{C2 xBEEF}"),
    ),
    // another ID, a longer and a shorter one, an empty one, none
    ("RES2(5C e1F,93 x010204,7F e0,7C{})", Fails(OTHER)),
    ("RES2(5C e1F,93 x01020300,7F e0,7C{})", Fails(OTHER)),
    ("RES2(5C e1F,93 x0102,7F e0,7C{})", Fails(OTHER)),
    ("RES2(5C e1F,93 x,7F e0,7C{})", Fails(OTHER)),
    ("OK2(1F, C2 xBEEF)", Fails(OTHER)),
    // a text, and two IDs
    ("RES2(5C e1F,93 \"\x01\x02\x03\",7F e0,7C{})", Fails(OTHER)),
    (
        "RES2(5C e1F,93 x010203,93 x010203,7F e0,7C{})",
        Fails(OTHER),
    ),
    // another call's success, failure and unknown status
    ("RES2(5C e20,93 x010204,7F e0,7C{})", Fails(OTHER)),
    (
        "RES2(5C e1F,93 x010204,7F e1,7E e1,7D \"gone\")",
        Fails(OTHER),
    ),
    ("RES2(93 x010204,7F e1,7D \"no\")", Fails(OTHER)),
    ("RES2(5C e1F,7F e1,7D \"no\")", Fails(OTHER)),
    ("RES2(5C e1F,7F e9)", Fails(OTHER)),
    // the server could not read the request
    (
        "RES2(7F e1,7E e4,7D \"no\")",
        Fails("Server error: Operation Encrypt failed: no"),
    ),
    // a success that says nothing of its call
    ("RES2(7F e0,7C{})", Fails(OTHER)),
    // the call's own failure, and its own response for another operation
    (
        "RES2(5C e1F,93 x010203,7F e1,7E e1,7D \"gone\")",
        Fails("Item not found: Operation Encrypt failed: gone"),
    ),
    (
        "RES2(5C e20,93 x010203,7F e0,7C{})",
        Fails("Internal error: Response does not match request operation Encrypt"),
    ),
    // no single batch item
    (
        "7B{7A{69{6A i1,6B i2},92 d1,0D i1},0F{5C e1F,93 x01,7F e0},0F{5C e1F,93 x02,7F e0}}",
        Fails("Internal error: Expected one batch item in response but received 2"),
    ),
    (
        "7B{7A{69{6A i1,6B i2},92 d1,0D i2},0F{5C e1F,93 x01,7F e0}}",
        Fails("Internal error: Expected one batch item in response but received 1"),
    ),
    (REQUEST, Fails("Internal error: not a response message")),
    (
        "!42007B0100000008FFFFFFFFFFFFFFFF",
        Fails("Deserialize error: malformed TTLV"),
    ),
];

#[test]
fn only_a_response_with_the_id_is_the_answer(rt: HostRuntime) {
    let rows = IDENTIFIED_RESPONSES;
    are_answered(&rt, rt.alloc(), Config::new(), &IDENTIFIED, rows);
}

const NO_BYTES: &[u8] = b"";

/// The request with an empty ID, which is an ID.
const EMPTY: Ask<'static> = Ask {
    call: Encrypt(Version::V1_2, Some(NO_BYTES)),
    tree: PAYLOAD,
    sent: "78{77{69{6A i1,6B i2},0D i1},0F{5C e1F,93 x,79{94 \"k1\",C2 xAA}}}",
};

const EMPTY_RESPONSES: &[Row] = &[
    ("RES2(5C e1F,93 x,7F e0)", Gives("7C{}")),
    ("RES2(5C e1F,7F e0)", Fails(OTHER)),
];

/// The deepest payload, of which an ID takes no level.
const DEEPEST: Ask<'static> = Ask {
    call: Encrypt(Version::V1_2, Some(ID)),
    tree: "79^62{}",
    sent: "78{77{69{6A i1,6B i2},0D i1},0F{5C e1F,93 x010203,79^62{}}}",
};

const EMPTY_SUCCESS: &str = "RES2(5C e1F,93 x010203,7F e0)";

const DEEPEST_RESPONSES: &[Row] = &[(EMPTY_SUCCESS, Gives("7C{}"))];

#[test]
fn empty_ids_and_deep_payloads(rt: HostRuntime) {
    let alloc = rt.alloc();
    are_answered(&rt, alloc, Config::new(), &EMPTY, EMPTY_RESPONSES);
    are_answered(&rt, alloc, Config::new(), &DEEPEST, DEEPEST_RESPONSES);
}

/// The response of success, read with this ID, is this answer.
fn is_read_with(rt: &impl Abort, alloc: Global, id: &[u8], expected: &Answer<'_>) {
    let response = bytes_of(rt, alloc, EMPTY_SUCCESS);
    let reading = read_operation_response(alloc, Operation::Encrypt, Some(id), &response, None);
    assert!(rt; reading.taken == response.len());
    is_answer(rt, alloc, reading.answer, expected, EMPTY_SUCCESS);
}

#[test]
fn bytes_of_the_callers_have_the_id(rt: HostRuntime) {
    let alloc = rt.alloc();
    let payload = tree_of(&rt, alloc, PAYLOAD);
    let request = OperationRequest {
        operation: Operation::Encrypt,
        version: Version::V1_2,
        id: Some(ID),
        payload: &payload,
    };
    let written = write_operation_request(alloc, &request, &None).expect(&rt, "bytes");
    drop(payload);
    let expected = bytes_of(&rt, alloc, REQUEST_BYTES);
    assert!(&rt; written.as_slice() == expected.as_slice());
    is_read_with(&rt, alloc, ID, &Gives("7C{}"));
    is_read_with(&rt, alloc, b"\x01", &Fails(OTHER));
}

/// Messages, and whether each is that of another batch item, where the ID was sent.
const MESSAGES: &[(&str, bool)] = &[
    (EMPTY_SUCCESS, false),
    ("RES2(5C e1F,93 x010204,7F e0)", true),
    ("RES2(5C e1F,7F e1)", true),
    ("RES2(7F e1)", false),
    (REQUEST, false),
    ("!42007B0100000008FFFFFFFFFFFFFFFF", false),
];

/// The message is that of another batch item or not where the ID was sent, and never where none
/// was.
fn is_known(rt: &impl Abort, alloc: Global, notation: &str, other: bool) {
    let bytes = bytes_of(rt, alloc, notation);
    let found = is_of_other_item(alloc, Some(ID), &bytes).expect(rt, notation);
    assert!(rt; found == other, "{notation}");
    let found = is_of_other_item(alloc, None, &bytes).expect(rt, notation);
    assert!(rt; !found, "{notation}");
}

#[test]
fn a_message_of_another_item_is_known(rt: HostRuntime) {
    for (notation, other) in MESSAGES {
        is_known(&rt, rt.alloc(), notation, *other);
    }
}
