//! What items lack, which have no place, and what is told of it.
use crate::support::{Given, item_of, row_of};
use kmip_enums::Operation;
use kmip_payloads::{Item, Scalar, first_stray, lacks, push_refusal, refusal_of};
use kmip_rows::Place;
use kmip_tags::tags;
use kmip_wire::Text;
use std::alloc::Global;
use std::process::Abort;

/// The items of a table.
fn items_of(rt: &impl Abort, alloc: Global, given: &[Given]) -> Vec<Item<'static>> {
    let mut items = Vec::new(alloc);
    for given in given {
        items.push(item_of(given)).expect(rt, "memory");
    }
    items
}

/// An item of the table.
macro_rules! item {
    ([$($outer:ident),*] $tag:ident, $value:expr) => {
        Given {
            path: &[$(tags::$outer),*],
            tag: tags::$tag,
            value: $value,
        }
    };
}

/// An identifier of an object.
macro_rules! identifier {
    ($($outer:ident),*) => {
        item!([$($outer),*] UNIQUE_IDENTIFIER, Scalar::TextString("7"))
    };
}

/// An item of any tag, whose value is a password.
macro_rules! password {
    ([] $tag:ident) => {
        item!([] $tag, Scalar::TextString("hunter2"))
    };
    ([$($outer:ident),+] $tag:ident) => {
        item!([$($outer),+] $tag, Scalar::TextString("hunter2"))
    };
    ([$outer:literal] $tag:literal) => {
        Given {
            path: &[$outer],
            tag: $tag,
            value: Scalar::TextString("hunter2"),
        }
    };
}

/// Items, and the tags of the fields that they lack, where 0 is an object.
const LACKS: &[(&str, Operation, &[Given], &[u32])] = &[
    ("nothing is needed", Operation::Get, &[], &[]),
    (
        "an object",
        Operation::Register,
        &[],
        &[tags::OBJECT_TYPE, 0],
    ),
    (
        "what a structure needs",
        Operation::Get,
        &[identifier!(KEY_WRAPPING_SPECIFICATION, ENCRYPTION_KEY_INFORMATION)],
        &[tags::WRAPPING_METHOD],
    ),
    (
        "what is needed in a structure that is needed",
        Operation::Revoke,
        &[identifier!()],
        &[tags::REVOCATION_REASON_CODE],
    ),
    (
        "what a key needs",
        Operation::Register,
        &[
            item!([] OBJECT_TYPE, Scalar::Enumeration(2)),
            item!([SYMMETRIC_KEY, KEY_BLOCK, KEY_VALUE] KEY_MATERIAL, Scalar::ByteString(&[1])),
        ],
        &[tags::KEY_FORMAT_TYPE],
    ),
    (
        "one of several",
        Operation::DeriveKey,
        &[item!([] OBJECT_TYPE, Scalar::Enumeration(2))],
        &[tags::UNIQUE_IDENTIFIER, tags::DERIVATION_METHOD],
    ),
];

/// The tag of a place, and 0 of an object.
fn number_of(place: Place) -> u32 {
    match place {
        Place::Tag(tag) => tag,
        Place::Object => 0,
    }
}

#[test]
fn what_is_lacking_is_told(rt: HostRuntime) {
    for (name, operation, given, expected) in LACKS {
        let items = items_of(&rt, rt.alloc(), *given);
        let row = row_of(&rt, *operation);
        let found = lacks(rt.alloc(), row, items.as_slice()).expect(&rt, *name);
        assert_eq!(rt; found.len(), expected.len(), "{name}");
        for (place, tag) in found.iter().zip(*expected) {
            assert_eq!(rt; number_of(*place), *tag, "{name}");
        }
    }
}

/// Items, and of the first that no field takes the tag and how many structures are round it.
const STRAYS: &[(&str, Operation, &[Given], Option<(u32, usize)>)] = &[
    ("no item", Operation::Get, &[], None),
    ("each has its place", Operation::Get, &[identifier!()], None),
    (
        "a field of another operation",
        Operation::Get,
        &[
            identifier!(),
            item!([] DATA, Scalar::ByteString(&[])),
            item!([] OFFSET, Scalar::Interval(1)),
        ],
        Some((tags::DATA, 0)),
    ),
    (
        "below a structure that is none of the operation",
        Operation::Get,
        &[identifier!(ENCRYPTION_KEY_INFORMATION), identifier!()],
        Some((tags::UNIQUE_IDENTIFIER, 1)),
    ),
    (
        "below a field that is no structure",
        Operation::Get,
        &[identifier!(), identifier!(UNIQUE_IDENTIFIER)],
        Some((tags::UNIQUE_IDENTIFIER, 1)),
    ),
    (
        "below the deepest field",
        Operation::Register,
        &[
            item!(
                [PRIVATE_KEY, KEY_BLOCK, KEY_WRAPPING_DATA,
                ENCRYPTION_KEY_INFORMATION, CRYPTOGRAPHIC_PARAMETERS]
                TAG_LENGTH, Scalar::Integer(1)
            ),
            item!(
                [PRIVATE_KEY, KEY_BLOCK, KEY_WRAPPING_DATA, ENCRYPTION_KEY_INFORMATION,
                CRYPTOGRAPHIC_PARAMETERS, TAG_LENGTH]
                TAG_LENGTH, Scalar::Integer(1)
            ),
        ],
        Some((tags::TAG_LENGTH, 6)),
    ),
];

#[test]
fn strays_are_told(rt: HostRuntime) {
    for (name, operation, given, expected) in STRAYS {
        let items = items_of(&rt, rt.alloc(), *given);
        let row = row_of(&rt, *operation);
        let found = first_stray(row, items.as_slice());
        let told = found.map(|item| (item.tag, item.path.len()));
        assert!(rt; told == *expected, "{name}");
    }
}

/// Items, and the text of why they are refused. The value of each is a password.
const REFUSALS: &[(&str, Operation, &[Given], &str)] = &[
    ("a payload", Operation::Get, &[], ""),
    (
        "a field of another operation",
        Operation::Get,
        &[password!([] DATA)],
        "Data has no place in the payload",
    ),
    (
        "a field of another structure",
        Operation::Get,
        &[password!([KEY_WRAPPING_SPECIFICATION, ENCRYPTION_KEY_INFORMATION] DATA)],
        "Data has no place in Encryption Key Information",
    ),
    (
        "a stray before what is missing",
        Operation::Activate,
        &[password!([0x142_0094] 0x54_0002)],
        "an unknown tag has no place in an unknown tag",
    ),
    (
        "a field that is missing",
        Operation::Register,
        &[password!([] OBJECT_TYPE)],
        "an object is missing",
    ),
    (
        "a field of a structure that is missing",
        Operation::Register,
        &[
            password!([] OBJECT_TYPE),
            password!([SECRET_DATA, KEY_BLOCK, KEY_VALUE] KEY_MATERIAL),
        ],
        "Secret Data Type is missing",
    ),
];

#[test]
fn refusals_are_told(rt: HostRuntime) {
    for (name, operation, given, expected) in REFUSALS {
        let items = items_of(&rt, rt.alloc(), *given);
        let row = row_of(&rt, *operation);
        let found = refusal_of(rt.alloc(), row, items.as_slice()).expect(&rt, *name);
        let mut text = Text::new(rt.alloc());
        if let Some(why) = found {
            push_refusal(&mut text, why).expect(&rt, *name);
        }
        assert!(rt; text.as_str() == *expected, "{name}");
    }
}
