//! Whole messages of the caller's, over links that hold their answers.
use crate::exchanges::Answer::{Fails, Gives};
use crate::exchanges::{
    Ask, Call, Row, are_answered, are_refused, is_answered, is_diagnosed, is_refused,
};
use crate::helpers::{client_of_alice, client_over, link_fed, tree_of};
use kmip_tags::tags::REQUEST_MESSAGE;
use kmip_wire::{Blob, Config, Node, Tag, Tree, Trees};
use std::alloc::Global;
use std::process::Abort;

/// A Query for the operations, objects and the vendor's text.
const QUERY: &str = "REQ2(18, 74 e1,74 e2,74 e3)";

/// A message, and the response that answers it as it stands.
type Pair = (&'static str, &'static str);

/// Messages, and responses that answer them.
const ANSWERS: &[Pair] = &[
    // a Query, whose response has an operation, a tag and a message extension of a vendor
    (
        QUERY,
        "7B{7A{69{6A i1,6B i2},92 d1,0D i1},0F{5C e18,7F e0,7C{5C e80000001,57 e2,9D \"acme\",88{540001{540002 i7}}},51{7D \"acme\",26 o0,9C{540003 x01}}}}",
    ),
    // a refusal, and a status that KMIP has not
    (QUERY, "RES2(5C e18,7F e1,7E e1,7D \"gone\")"),
    (QUERY, "RES2(7F e9)"),
    // two batch items for two, and a count of none
    (
        "78{77{69{6A i1,6B i2},0D i2},0F{5C e18,93 x01,79{74 e1}},0F{5C e18,93 x02,79{74 e2}}}",
        "7B{7A{69{6A i1,6B i2},92 d1,0D i2},0F{5C e18,93 x02,7F e0,7C{}},0F{5C e18,93 x01,7F e0,7C{}}}",
    ),
    (QUERY, "7B{7A{69{6A i1,6B i2},92 d1,0D i0}}"),
    // structures that are no messages of KMIP
    ("540001{}", "540002{}"),
    ("540001{78 i1}", QUERY),
    // as many levels as there may be
    ("78^64{}", "7B^64{}"),
];

/// The message is sent as it stands.
fn sends(message: &str) -> Ask<'_> {
    Ask {
        call: Call::Message,
        tree: message,
        sent: message,
    }
}

/// The message is answered by this response as it stands.
fn is_exchanged(rt: &impl Abort, alloc: Global, message: &str, response: &str) {
    let client = client_over(link_fed(rt, alloc, response), Config::new());
    let ask = sends(message);
    is_answered(rt, alloc, client, &ask, response, &Gives(response));
}

#[test]
fn a_response_is_answered_as_it_stands(rt: HostRuntime) {
    for (message, response) in ANSWERS {
        is_exchanged(&rt, rt.alloc(), message, response);
    }
}

/// Bytes that are no message, and what is printed of them.
const NO_MESSAGES: &[Row] = &[
    // no bytes, cut within the head, and within the contents
    ("!", Fails("Response read error: end of input")),
    ("!42007B0100", Fails("Response read error: end of input")),
    (
        "!42007B010000001042007A01",
        Fails("Response read error: end of input"),
    ),
    // contents that are no item, and too many levels
    (
        "!42007B0100000008FFFFFFFFFFFFFFFF",
        Fails("Deserialize error: malformed TTLV"),
    ),
    ("7B^65{}", Fails("Deserialize error: malformed TTLV")),
    // the head of an integer
    (
        "!42007B0200000004",
        Fails("Deserialize error: not a structure"),
    ),
];

/// The head of a response of 136 bytes, alone.
const LONG: &[Row] = &[(
    "!42007B0100000080",
    Fails("Deserialize error: response size 136 exceeds limit 135"),
)];

#[test]
fn bytes_that_are_no_message_are_no_answer(rt: HostRuntime) {
    let (alloc, ask) = (rt.alloc(), sends(QUERY));
    are_answered(&rt, alloc, Config::new(), &ask, NO_MESSAGES);
    let config = Config::new().with_max_bytes(135);
    are_answered(&rt, alloc, config, &ask, LONG);
}

/// Items that are no structures.
const NO_STRUCTURES: &[&str] = &["78 i1", "78 \"message\"", "78 x42007801", "78 o1"];

/// The message of one item.
fn around(rt: &impl Abort, alloc: Global, item: Tree) -> Tree {
    let mut items = Trees::new(alloc);
    items.push(item).expect(rt, "memory");
    Tree {
        tag: Tag::of(REQUEST_MESSAGE),
        node: Node::Structure(items),
    }
}

/// The message of this item has no form.
fn has_no_form(rt: &impl Abort, alloc: Global, item: Tree) {
    let message = around(rt, alloc, item);
    is_refused(rt, alloc, &Call::Message, &message);
    drop(message);
}

#[test]
fn what_has_no_form_is_not_sent(rt: HostRuntime) {
    let alloc = rt.alloc();
    are_refused(&rt, alloc, &Call::Message, NO_STRUCTURES);
    let number = Tree {
        tag: Tag::of(0x540001),
        node: Node::BigInteger(Blob::of(alloc, b"\x01\x02\x03").expect(&rt, "memory")),
    };
    has_no_form(&rt, alloc, number);
    // a level more than there may be
    has_no_form(&rt, alloc, tree_of(&rt, alloc, "78^64{}"));
}

#[test]
fn the_credential_is_not_added(rt: HostRuntime) {
    let alloc = rt.alloc();
    let response = "RES2(5C e18,7F e0)";
    let client = client_of_alice(&rt, alloc, link_fed(&rt, alloc, response));
    let ask = sends(QUERY);
    is_answered(&rt, alloc, client, &ask, response, &Gives(response));
}

#[test]
fn diagnostics_are_of_the_messages(rt: HostRuntime) {
    let row = ("7B{0F{7F e0}}", Gives("7B{0F{7F e0}}"));
    let ask = sends("78{0F{5C e18,79{}}}");
    let (request, response) = ("78[0F[5Ce18:79[]]]", "7B[0F[7Fe0:]]");
    is_diagnosed(&rt, rt.alloc(), &ask, &row, request, response);
}
