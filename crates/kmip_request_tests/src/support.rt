//! What several tests share. Each function ends the run where something is wrong, so that no test
//! has a way out at which it drops the values that it holds. A value of many variants is moved on,
//! or dropped by `drop` or in a generic function: at an exit it would be proved for each variant.

use kmip_request::RequestPayload;
use kmip_request_read::from_slice;
use kmip_test_messages::message;
use kmip_types::auth::CredentialType;
use kmip_wire::{Blob, Text, TryClone};
use std::alloc::Global;
use std::process::Abort;

/// A text.
pub fn text(rt: &impl Abort, alloc: Global, text: &str) -> Text {
    Text::of(alloc, text).expect(rt, "memory")
}

/// Bytes.
pub fn blob(rt: &impl Abort, alloc: Global, bytes: &[u8]) -> Blob {
    Blob::of(alloc, bytes).expect(rt, "memory")
}

/// The bytes are those of the notation.
pub fn are(rt: &impl Abort, alloc: Global, bytes: &[u8], notation: &str) {
    let expected = message(alloc, notation).expect(rt, notation);
    assert!(rt; bytes == expected.as_slice(), "{notation}");
}

/// The value of this name has a copy that equals it.
pub fn is_copied<T: TryClone + PartialEq + Drop>(
    rt: &impl Abort,
    alloc: Global,
    name: &str,
    value: &T,
) {
    let copy = value.try_clone(alloc).expect(rt, name);
    assert!(rt; copy == *value, "{name}");
}

/// What is read of the bytes of the notation.
pub fn read(
    rt: &impl Abort,
    alloc: Global,
    notation: &str,
) -> (RequestPayload, Option<CredentialType>) {
    let bytes = message(alloc, notation).expect(rt, notation);
    from_slice(alloc, bytes.as_slice()).expect(rt, notation)
}
