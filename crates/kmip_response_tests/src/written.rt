//! Responses written: each as the bytes that it was read from, which come from outside.

use crate::payloads::bytes_of;
use kmip_enums::{ObjectType, Operation, ResultStatus};
use kmip_response::{
    BatchItem, GetResponsePayload, KeyBlock, KeyValue, ManagedObject, ProtocolVersion,
    ResponseHeader, ResponseMessage, ResponsePayload, SymmetricKey,
    UniqueIdentifierResponsePayload, from_slice,
};
use kmip_response_write::to_vec;
use kmip_types::{KeyFormatType, KeyMaterial, UniqueIdentifier};
use kmip_wire::{Blob, Boxed, List, Text, WireError};
use std::alloc::Global;
use std::process::Abort;

/// The response of a server that made a key Active.
const ACTIVATED: &str = r#"OK0(12, 94 "k1")"#;

/// Batch items: failed ones, a pending one, with an identifier and with an extension, and two at once.
const ITEMS: &[(&str, &str)] = &[
    (
        "failed with a reason and a text",
        r#"RES0(5C e14,7F e1,7E e1,7D "gone")"#,
    ),
    ("failed, of no operation", "RES0(7F e1)"),
    ("pending", "RES0(5C e12,7F e2)"),
    (
        "with the identifier of a batch item",
        r#"RES0(5C e12,93 x01,7F e0,7C{94 "k1"})"#,
    ),
    (
        "with an extension",
        r#"RES0(5C e12,7F e0,7C{94 "k1"},51{9D "x",26 o1})"#,
    ),
    (
        "two batch items",
        r#"7B{7A{69{6A i1,6B i0},92 d1,0D i2},0F{5C e12,93 x01,7F e0,7C{94 "k1"}},0F{93 x02,7F e1}}"#,
    ),
];

/// Payloads without an object.
const PAYLOADS: &[(&str, &str)] = &[
    (
        "Create with an attribute",
        r#"OK0(1, 57 e2,94 "k1",08{0A "State",0B e1})"#,
    ),
    ("Create Key Pair", r#"OK0(2, 66 "a",6F "b")"#),
    (
        "Register with a template",
        r#"OK0(3, 94 "k1",91{53{55 "n",54 e1},08{0A "x-a",09 i1,0B i5}})"#,
    ),
    ("Locate, of no object", "OK0(8, )"),
    ("Locate, of two objects", r#"OK0(8, 94 "a",94 "b")"#),
    ("Get Attributes, with none", r#"OK0(B, 94 "2")"#),
    ("Get Attribute List", r#"OK0(C, 94 "2",0A "Name")"#),
    ("Add Attribute", r#"OK0(D, 94 "k1",08{0A "x-a",0B "v"})"#),
    ("Delete Attribute", r#"OK0(F, 94 "k1",08{0A "x-a",0B xAB})"#),
    ("Revoke", r#"OK0(13, 94 "k1")"#),
    ("Destroy", r#"OK0(14, 94 "k1")"#),
    ("Query", r#"OK2(18, 5C e1,5C e18,57 e2,9D "x")"#),
    (
        "Discover Versions",
        "OK1(1E, 69{6A i1,6B i2},69{6A i1,6B i0})",
    ),
    ("Sign", r#"OK2(21, 94 "k1",C3 x0A0B)"#),
    ("RNG Retrieve", "OK2(25, C2 xDEADBEEF)"),
];

/// Objects: two keys, a certificate, a transparent key, and a wrapped key.
const OBJECTS: &[(&str, &str)] = &[
    (
        "a symmetric key",
        r#"OK0(A, 57 e2,94 "s1",8F{40{42 e1,45{43 x00112233445566778899AABBCCDDEEFF},28 e3,2A i128}})"#,
    ),
    ("a certificate", r#"OK0(A, 57 e1,94 "c1",13{1D e1,1E xAB})"#),
    (
        "a transparent public key",
        r#"OK0(A, 57 e3,94 "p1",6D{40{42 eB,45{43{52 b0000000000C5A1B3,6C b0000000000010001}}}})"#,
    ),
    (
        "a private key with attributes",
        r#"OK0(A, 57 e4,94 "1",64{40{42 e3,41 e1,45{43 x0102,08{0A "State",0B e2}},28 e4,2A i2048}})"#,
    ),
    (
        "a wrapped symmetric key",
        r#"OK0(A, 57 e2,94 "s1",8F{40{42 e1,45 xAABB,28 e3,2A i128,46{9E e1,36{94 "w1",2B{11 eD}},4E{94 "m1"},4D xAA,3D xBB}}})"#,
    ),
];

/// A private key's attributes, with a custom one, as a server sends them.
const ATTRIBUTES: &str =
    r#"OK0(B, 94 "2",08{0A "Name",0B{55 "priv",54 e1}},08{0A "Object Type",0B e4},08{0A "Cryptographic Algorithm",0B e4},08{0A "Cryptographic Length",0B i2048},08{0A "Cryptographic Usage Mask",0B i1},08{0A "State",0B e2},08{0A "Initial Date",0B d1700000000},08{0A "Link",0B{4B e102,4C "1"}},08{0A "Digest",0B{38 e6,35 xAABB,42 e3}},08{0A "Lease Time",0B n3600})"#;

/// The same, where the children of the custom structure stand under the tag of a value.
const ATTRIBUTES_WRITTEN: &str =
    r#"OK0(B, 94 "2",08{0A "Name",0B{55 "priv",54 e1}},08{0A "Object Type",0B e4},08{0A "Cryptographic Algorithm",0B e4},08{0A "Cryptographic Length",0B i2048},08{0A "Cryptographic Usage Mask",0B i1},08{0A "State",0B e2},08{0A "Initial Date",0B d1700000000},08{0A "Link",0B{4B e102,4C "1"}},08{0A "Digest",0B{0B e6,0B xAABB,0B e3}},08{0A "Lease Time",0B n3600})"#;

/// An attribute whose items stand in another order than that of their table.
const RENAMED: &str = r#"OK0(E, 94 "k1",08{0A "Name",0B{54 e1,55 "my key"}})"#;

/// The same in the order of the table.
const RENAMED_WRITTEN: &str = r#"OK0(E, 94 "k1",08{0A "Name",0B{55 "my key",54 e1}})"#;

/// The message of these bytes.
fn message_in(rt: &impl Abort, alloc: Global, notation: &str, name: &str) -> ResponseMessage {
    from_slice(alloc, &bytes_of(rt, alloc, notation)).expect(rt, name)
}

/// The message is written as these bytes.
fn is_written(rt: &impl Abort, alloc: Global, message: &ResponseMessage, notation: &str) {
    let bytes = to_vec(alloc, message).expect(rt, notation);
    let expected = bytes_of(rt, alloc, notation);
    assert_eq!(rt; bytes.as_slice(), expected.as_slice(), "{notation}");
}

/// What is read from the bytes of the first text is written as those of the second.
fn is_rewritten(rt: &impl Abort, alloc: Global, name: &str, read: &str, written: &str) {
    let message = message_in(rt, alloc, read, name);
    is_written(rt, alloc, &message, written);
    drop(message);
}

/// Each is written as the bytes that it was read from.
fn are_written(rt: &impl Abort, alloc: Global, cases: &[(&str, &str)]) {
    for (name, bytes) in cases {
        is_rewritten(rt, alloc, name, bytes, bytes);
    }
}

#[test]
fn writes_messages_back(rt: HostRuntime) {
    are_written(&rt, rt.alloc(), ITEMS);
    are_written(&rt, rt.alloc(), PAYLOADS);
    are_written(&rt, rt.alloc(), OBJECTS);
}

/// What is not canonical is written canonically.
#[test]
fn writes_canonically(rt: HostRuntime) {
    let alloc = rt.alloc();
    let name = "a custom structure";
    is_rewritten(&rt, alloc, name, ATTRIBUTES, ATTRIBUTES_WRITTEN);
    is_rewritten(&rt, alloc, "another order", RENAMED, RENAMED_WRITTEN);
}

/// A message of one batch item, in KMIP 1.0.
fn message_of(
    rt: &impl Abort,
    alloc: Global,
    operation: Operation,
    payload: ResponsePayload,
) -> ResponseMessage {
    let item = BatchItem {
        operation: Some(operation),
        unique_batch_item_id: None,
        result_status: ResultStatus::Success,
        result_reason: None,
        result_message: None,
        payload: Some(payload),
        message_extension: None,
    };
    let mut batch_items = List::new(alloc);
    batch_items.push(item).expect(rt, "memory");
    ResponseMessage {
        header: ResponseHeader {
            protocol_version: ProtocolVersion { major: 1, minor: 0 },
            timestamp: 1,
            batch_count: 1,
        },
        batch_items,
    }
}

/// The identifier of an object.
fn identifier(rt: &impl Abort, alloc: Global, id: &str) -> UniqueIdentifier {
    UniqueIdentifier(Text::of(alloc, id).expect(rt, "memory"))
}

#[test]
fn writes_a_message_that_was_made(rt: HostRuntime) {
    let alloc = rt.alloc();
    let payload = ResponsePayload::Activate(UniqueIdentifierResponsePayload {
        unique_identifier: identifier(&rt, alloc, "k1"),
    });
    let message = message_of(&rt, alloc, Operation::Activate, payload);
    is_written(&rt, alloc, &message, ACTIVATED);
    drop(message);
}

/// A key whose material is a structure of unknown content, which has no wire form.
fn unformed(alloc: Global) -> ManagedObject {
    let key_block = KeyBlock {
        key_format_type: KeyFormatType::Raw,
        key_compression_type: None,
        key_value: KeyValue {
            key_material: KeyMaterial::Structure(Blob::new(alloc)),
            attributes: None,
        },
        cryptographic_algorithm: None,
        cryptographic_length: None,
        key_wrapping_data: None,
    };
    ManagedObject::SymmetricKey(SymmetricKey { key_block })
}

#[test]
fn refuses_what_has_no_wire_form(rt: HostRuntime) {
    let alloc = rt.alloc();
    let payload = GetResponsePayload {
        object_type: ObjectType::SymmetricKey,
        unique_identifier: identifier(&rt, alloc, "s1"),
        cryptographic_object: unformed(alloc),
    };
    let payload = Boxed::new(alloc, payload).expect(&rt, "memory");
    let message = message_of(&rt, alloc, Operation::Get, ResponsePayload::Get(payload));
    let written = to_vec(alloc, &message);
    assert!(rt; matches!(written, Err(WireError::NoForm)));
    drop(message);
}
