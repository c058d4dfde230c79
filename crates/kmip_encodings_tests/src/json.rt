//! What no contract says: the texts are those of the encoding, and calls succeed where there is
//! memory.
use crate::messages::{EXAMPLES, MESSAGES, READ, Row};
use kmip_encodings::{
    enumeration_name, enumeration_number, from_json, tag_named, tag_word, to_json,
};
use kmip_wire::{Tag, read_tree, write_tree};
use std::alloc::Global;
use std::process::Abort;
use std::str;

/// The item of these bytes in hex is written as this JSON. Here and below each function ends the run
/// where something is wrong, so that no test has a way out at which it drops the values that it holds.
fn is_written(rt: &impl Abort, alloc: Global, row: &Row) {
    let bytes = hex::decode(alloc, row.hex).expect(rt, "hex");
    let (tree, _) = read_tree(alloc, &bytes).expect(rt, "an item");
    let mut text = Vec::new(alloc);
    to_json(alloc, &tree, &mut text).expect(rt, "memory");
    drop(tree);
    assert_eq!(rt; str::from_utf8(&text), Ok(row.json));
}

/// This JSON is read as the item of these bytes in hex.
pub(crate) fn is_read(rt: &impl Abort, alloc: Global, json: &str, digits: &str) {
    let tree = from_json(alloc, json).expect(rt, json);
    let bytes = write_tree(alloc, &tree).expect(rt, json);
    drop(tree);
    let found = hex::encode_upper(alloc, bytes.as_slice()).expect(rt, "memory");
    assert_eq!(rt; found.as_str(), digits, "{json}");
}

#[test]
fn items_are_written(rt: HostRuntime) {
    for rows in [EXAMPLES, MESSAGES] {
        for row in rows {
            is_written(&rt, rt.alloc(), row);
        }
    }
}

#[test]
fn items_are_read(rt: HostRuntime) {
    for rows in [EXAMPLES, MESSAGES, READ] {
        for row in rows {
            is_read(&rt, rt.alloc(), row.json, row.hex);
        }
    }
}

/// Tags with their words.
const TAGS: &[(u32, &str)] = &[
    (0x420001, "ActivationDate"),
    (0x42003D, "IVCounterNonce"),
    (0x420091, "TemplateAttribute"),
    (0x4200B5, "X_509CertificateIdentifier"),
    (0x4200FB, "PKCS_12FriendlyName"),
    (0x420124, "ReplaceExisting"),
];

fn tag_of(rt: &impl Abort, number: u32) -> Tag {
    Tag::new(number).expect(rt, "a tag")
}

#[test]
fn tags_are_found_both_ways(rt: HostRuntime) {
    for (number, word) in TAGS {
        let tag = tag_of(&rt, *number);
        assert_eq!(rt; tag_word(tag), Some(*word));
        assert!(rt; tag_named(word) == Some(tag), "{word}");
    }
    assert_eq!(rt; tag_word(Tag::of(0x420125)), None);
    assert!(rt; tag_named("Activation Date").is_none());
}

/// Enumerations by their tags, with the names of their numbers.
const NAMES: &[(u32, u32, &str)] = &[
    (0x42005C, 1, "Create"),
    (0x42005C, 0x29, "JoinSplitKey"),
    (0x42007E, 0x100, "GeneralFailure"),
    (0x42004B, 0x107, "ReplacedObjectLink"),
    (0x42007F, 0, "Success"),
    (0x42009E, 5, "TR_31"),
    (0x420028, 2, "DES3"),
    (0x420075, 0x44, "BRAINPOOLP512T1"),
    (0x42005C, 0x1D, "ReKeyKeyPair"),
    (0x4200C7, 3, "SAMLAssertion"),
];

/// Names that are read, and not written.
const OTHER_NAMES: &[(u32, u32, &str)] = &[
    (0x42005C, 4, "Rekey"),
    (0x420028, 2, "TRIPLE_DES"),
    (0x420042, 16, "TransparentECHDPrivateKey"),
];

#[test]
fn names_are_found_both_ways(rt: HostRuntime) {
    for (tag, number, name) in NAMES {
        let tag = tag_of(&rt, *tag);
        assert_eq!(rt; enumeration_name(tag, *number), Some(*name));
        assert_eq!(rt; enumeration_number(tag, name), Some(*number));
    }
    for (tag, number, name) in OTHER_NAMES {
        let tag = tag_of(&rt, *tag);
        assert_eq!(rt; enumeration_number(tag, name), Some(*number));
        assert!(rt; enumeration_name(tag, *number) != Some(*name), "{name}");
    }
    assert_eq!(rt; enumeration_name(Tag::of(0x42005C), 0), None);
    assert_eq!(rt; enumeration_name(Tag::of(0x42000B), 1), None);
    assert_eq!(rt; enumeration_number(Tag::of(0x42005C), "Success"), None);
}
