//! Requests read from bytes: outside examples, and each reason why bytes are not canonical.

use crate::support::{are, blob, read, text};
use kmip_enums::ObjectType;
use kmip_request::{Attribute, RequestPayload, to_vec};
use kmip_request_read::{RequestReadError, from_slice};
use kmip_test_messages::message;
use kmip_types::auth::CredentialType;
use kmip_types::{AttributeName, AttributeValue};
use kmip_wire::List;
use std::alloc::Global;
use std::process::Abort;

pub const LOCATE: &str = r#"REQ0(8, 08{0A "Object Type",0B e4})"#;

const GROUP: &str = r#"REQ0(8, 08{0A "Object Group",0B "g"})"#;

const BIG_INTEGER: &str = r#"REQ0(8, 08{0A "x-a",0B b0001020304050607})"#;

pub const WITH_A_CREDENTIAL: &str =
    r#"78{77{69{6A i1,6B i0},0C{23{24 e1,25{99 "alice",A1 "secret"}}},0D i1},0F{5C e8,79{08{0A "Object Type",0B e4}}}}"#;

/// What was read is this payload, with no credential.
fn is_read<P: PartialEq + Drop>(
    rt: &impl Abort,
    notation: &str,
    read: (P, Option<CredentialType>),
    expected: P,
) {
    assert!(rt; read.0 == expected, "{notation}");
    assert!(rt; read.1.is_none(), "{notation}");
}

/// The bytes are a request for the objects with an attribute of this name and value.
fn is_located(rt: &impl Abort, alloc: Global, notation: &str, name: &str, value: AttributeValue) {
    let name = AttributeName(text(rt, alloc, name));
    let mut attributes = List::new(alloc);
    attributes
        .push(Attribute(name, None, value))
        .expect(rt, notation);
    let expected = RequestPayload::Locate(attributes);
    is_read(rt, notation, read(rt, alloc, notation), expected);
}

#[test]
fn attributes_are_read(rt: HostRuntime) {
    let alloc = rt.alloc();
    let value = AttributeValue::ObjectType(ObjectType::PrivateKey);
    is_located(&rt, alloc, LOCATE, "Object Type", value);
    let value = AttributeValue::ObjectGroup(text(&rt, alloc, "g"));
    is_located(&rt, alloc, GROUP, "Object Group", value);
    let value = AttributeValue::BigInteger(blob(&rt, alloc, b"\0\x01\x02\x03\x04\x05\x06\x07"));
    is_located(&rt, alloc, BIG_INTEGER, "x-a", value);
}

/// The credential is this username and password.
fn is_credential(rt: &impl Abort, read: &Option<CredentialType>, username: &str, password: &str) {
    match read {
        Some(CredentialType::UsernameAndPassword(user)) => {
            assert!(rt; user.username.as_str() == username);
            match &user.password {
                Some(word) => assert!(rt; word.as_str() == password),
                None => panic!(rt; "no password"),
            }
        }
        None => panic!(rt; "no credential"),
    }
}

#[test]
fn credential_comes_back(rt: HostRuntime) {
    let alloc = rt.alloc();
    let (payload, credential) = read(&rt, alloc, WITH_A_CREDENTIAL);
    is_credential(&rt, &credential, "alice", "secret");
    let written = to_vec(alloc, payload, credential).expect(&rt, "a form");
    are(&rt, alloc, written.as_slice(), WITH_A_CREDENTIAL);
}

/// Bytes that are no request as it is written: what they have, their items, and why they are
/// refused.
const REFUSED: &[(&str, &str, RequestReadError)] = &[
    ("no bytes", "", RequestReadError::Malformed),
    (
        // REQ0(8, 08{0A "Object Type",0B e4}) without its last 8 bytes
        "an item cut short",
        concat!(
            "!42007801000000904200770100000038420069010000002042006A02000000040000000100000000",
            "42006B0200000004000000000000000042000D0200000004000000010000000042000F0100000048",
            "42005C050000000400000008000000004200790100000030420008010000002842000A070000000B",
            "4F626A6563742054797065000000000042000B0500000004",
        ),
        RequestReadError::Malformed,
    ),
    (
        "a byte after the item",
        r#"REQ0(8, 08{0A "Object Type",0B e4})!00"#,
        RequestReadError::Malformed,
    ),
    (
        "another version",
        r#"REQ1(8, 08{0A "Object Type",0B e4})"#,
        RequestReadError::NotCanonical,
    ),
    (
        "an unknown item",
        r#"78{77{69{6A i1,6B i0},0D i1},0F{5C e8,79{08{0A "Object Type",0B e4}}},28 e3}"#,
        RequestReadError::NotCanonical,
    ),
    (
        "an unknown field",
        r#"REQ0(12, 94 "k1",28 e3)"#,
        RequestReadError::NotCanonical,
    ),
    (
        "another order",
        r#"78{0F{5C e8,79{08{0A "Object Type",0B e4}}},77{69{6A i1,6B i0},0D i1}}"#,
        RequestReadError::NotCanonical,
    ),
    (
        "an item twice",
        r#"REQ0(12, 94 "k1",94 "k1")"#,
        RequestReadError::NotCanonical,
    ),
    (
        // REQ0(12, 94 "k1"), its last pad 01
        "a pad of 1",
        concat!(
            "!42007801000000704200770100000038420069010000002042006A02000000040000000100000000",
            "42006B0200000004000000000000000042000D0200000004000000010000000042000F0100000028",
            "42005C05000000040000001200000000420079010000001042009407000000026B31000000000001",
        ),
        RequestReadError::NotCanonical,
    ),
    (
        "two batch items",
        r#"78{77{69{6A i1,6B i0},0D i1},0F{5C e8,79{08{0A "Object Type",0B e4}}},0F{5C e8,79{08{0A "Object Type",0B e4}}}}"#,
        RequestReadError::NotCanonical,
    ),
    (
        "the batch count 2",
        r#"78{77{69{6A i1,6B i0},0D i2},0F{5C e8,79{08{0A "Object Type",0B e4}}}}"#,
        RequestReadError::NotCanonical,
    ),
    (
        "a maximum response size",
        r#"78{77{69{6A i1,6B i0},50 i256,0D i1},0F{5C e8,79{08{0A "Object Type",0B e4}}}}"#,
        RequestReadError::NotCanonical,
    ),
    (
        "the identifier of a batch item",
        r#"78{77{69{6A i1,6B i0},0D i1},0F{5C e8,93 x01,79{08{0A "Object Type",0B e4}}}}"#,
        RequestReadError::NotCanonical,
    ),
    (
        "a response",
        r#"OK0(12, 94 "k1")"#,
        RequestReadError::NotCanonical,
    ),
];

/// The bytes are refused for this reason.
fn is_refused(
    rt: &impl Abort,
    alloc: Global,
    name: &str,
    notation: &str,
    reason: RequestReadError,
) {
    let bytes = message(alloc, notation).expect(rt, name);
    let error = from_slice(alloc, bytes.as_slice()).err();
    assert!(rt; error == Some(reason), "{name}");
}

#[test]
fn not_as_it_is_written(rt: HostRuntime) {
    for (name, notation, reason) in REFUSED {
        is_refused(&rt, rt.alloc(), name, notation, *reason);
    }
}
