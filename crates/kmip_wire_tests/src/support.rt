//! What several tests share. No function here has a clause, so that a test's proof has none to
//! meet; and each ends the run where something is amiss, so that no test has a way out at which it
//! lets go of the values that it holds.
use kmip_wire::Tag;
use std::alloc::Global;
use std::process::Abort;

/// The tag of the number.
pub fn tag_of(rt: &impl Abort, number: u32) -> Tag {
    Tag::new(number).expect(rt, "a tag")
}

/// The bytes that a text in hexadecimal stands for.
pub fn bytes_of(rt: &impl Abort, alloc: Global, hex: &str) -> Vec<u8> {
    hex::decode(alloc, hex).expect(rt, "hexadecimal")
}

/// The bytes are those that the text in hexadecimal stands for.
pub fn are_bytes(rt: &impl Abort, alloc: Global, bytes: &[u8], hex: &str) {
    let expected = bytes_of(rt, alloc, hex);
    assert!(rt; bytes == expected.as_slice(), "{hex}");
}
