//! Tags and their names, in rows of KMIP's table.
use crate::support::tag_of;
use kmip_tags::{TagMap, make_kmip_tag_map, name_of, tags};
use std::process::Abort;

/// Some lines of the table, at its ends, at the two names with two spaces, and on both sides of it;
/// then constants and the names that the table gives their numbers, from each version of the table.
const NAMES: &[(u32, Option<&str>)] = &[
    (0x42_0000, None),
    (0x42_0001, Some("Activation Date")),
    (0x42_001B, Some("Certificate Subject  Alternative Name")),
    (0x42_0020, Some("Compromise  Date")),
    (0x42_0094, Some("Unique Identifier")),
    (0x42_00A1, Some("Password")),
    (0x42_0124, Some("Replace Existing")),
    (0x42_0125, None),
    (0x54_0001, None),
    (tags::ACTIVATION_DATE, Some("Activation Date")),
    (tags::ATTRIBUTE, Some("Attribute")),
    (tags::ATTRIBUTE_INDEX, Some("Attribute Index")),
    (tags::ATTRIBUTE_NAME, Some("Attribute Name")),
    (tags::ATTRIBUTE_VALUE, Some("Attribute Value")),
    (tags::AUTHENTICATION, Some("Authentication")),
    (tags::BATCH_COUNT, Some("Batch Count")),
    (tags::BATCH_ITEM, Some("Batch Item")),
    (
        tags::CRYPTOGRAPHIC_PARAMETERS,
        Some("Cryptographic Parameters"),
    ),
    (tags::KEY_BLOCK, Some("Key Block")),
    (tags::KEY_MATERIAL, Some("Key Material")),
    (tags::OBJECT_TYPE, Some("Object Type")),
    (tags::OPERATION, Some("Operation")),
    (tags::PROTOCOL_VERSION, Some("Protocol Version")),
    (tags::QUERY_FUNCTION, Some("Query Function")),
    (tags::REQUEST_MESSAGE, Some("Request Message")),
    (tags::RESPONSE_MESSAGE, Some("Response Message")),
    (tags::RESULT_REASON, Some("Result Reason")),
    (tags::UNIQUE_IDENTIFIER, Some("Unique Identifier")),
    (tags::USERNAME, Some("Username")),
    (tags::PASSWORD, Some("Password")),
    (tags::SIGNATURE_DATA, Some("Signature Data")),
    (tags::DATA_LENGTH, Some("Data Length")),
    (tags::REPLACE_EXISTING, Some("Replace Existing")),
];

/// The tag has this name, or none.
fn is_named(rt: &impl Abort, number: u32, expected: Option<&str>) {
    let name = name_of(tag_of(rt, number));
    assert!(rt; name == expected, "{number:x}");
}

#[test]
fn tags_have_the_names_of_the_table(rt: HostRuntime) {
    for (number, name) in NAMES {
        is_named(&rt, *number, *name);
    }
}

/// The last of the map's 292 entries.
fn ends_with(rt: &impl Abort, map: &TagMap, number: u32, expected: &str) {
    let Some((tag, name)) = map.at(291) else {
        panic!(rt; "no last entry")
    };
    assert!(rt; tag.number() == number && name == expected, "{name}");
}

#[test]
fn the_map_ends_with_the_last_name(rt: HostRuntime) {
    let map = make_kmip_tag_map(rt.alloc()).expect(&rt, "memory");
    ends_with(&rt, &map, 0x42_0124, "Replace Existing");
}
