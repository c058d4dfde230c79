use crate::support::{blob, children_are, comes_back, comes_back_copied, is_json, is_shown, text};
use kmip_codes::PaddingMethod;
use kmip_shape::{BigInteger, Boxed, ShowItem, Timestamp};
use kmip_tags::tags::OPERATION;
use kmip_types::CryptographicParameters;
use kmip_wire::{Blob, Text};
use std::alloc::Global;
use std::process::Abort;

/// Items, and the integers that their children of a tag are read as; none where they are not read.
const CHILDREN: &[(&str, Option<&[i32]>)] = &[
    ("7C{5C i1,5C i24}", Some(&[1, 24])),
    ("7C{5C i1}", Some(&[1])),
    ("7C{}", Some(&[])),
    ("5C i1", None),
    ("7C{5C e1}", None),
];

#[test]
fn children_of_a_tag(rt: HostRuntime) {
    for (notation, list) in CHILDREN {
        children_are::<i32>(&rt, rt.alloc(), notation, OPERATION, *list);
    }
}

/// What a value is shown as, and its JSON.
fn is_plain<T: ShowItem>(rt: &impl Abort, alloc: Global, value: &T, shown: &str, json: &str) {
    is_shown(rt, alloc, value, shown);
    is_json(rt, alloc, value, json);
}

/// Dates, what they are shown as, and their JSON.
const DATES: &[(u64, &str, &str)] = &[
    (0xFFFF_FFFF_FFFF_FFFB, "18446744073709551611", "-5"),
    (0, "0", "0"),
    (
        0x7FFF_FFFF_FFFF_FFFF,
        "9223372036854775807",
        "9223372036854775807",
    ),
    (
        0x8000_0000_0000_0000,
        "9223372036854775808",
        "-9223372036854775808",
    ),
];

/// Signed dates, what they are shown as, and their JSON.
const TIMESTAMPS: &[(i64, &str, &str)] = &[
    (-1, "18446744073709551615", "-1"),
    (-5, "18446744073709551611", "-5"),
    (0, "0", "0"),
];

#[test]
fn dates_are_shown(rt: HostRuntime) {
    for (date, shown, json) in DATES {
        is_plain::<u64>(&rt, rt.alloc(), date, shown, json);
    }
    for (date, shown, json) in TIMESTAMPS {
        is_plain::<Timestamp>(&rt, rt.alloc(), &Timestamp(*date), shown, json);
    }
}

#[test]
fn plain_values_are_shown(rt: HostRuntime) {
    let alloc = rt.alloc();
    is_plain::<i32>(&rt, alloc, &-5, "-5", "-5");
    is_plain::<bool>(&rt, alloc, &true, "true", "true");
    let bytes = blob(&rt, alloc, &[0x0A, 0xFF]);
    is_plain::<Blob>(&rt, alloc, &bytes, "x\"0AFF\"", "\"0AFF\"");
    is_json(&rt, alloc, &blob(&rt, alloc, &[]), "\"\"");
    let none = CryptographicParameters::default();
    is_json(&rt, alloc, &none, "{}");
    let padded = none.with_padding_method(PaddingMethod::OAEP);
    is_json(&rt, alloc, &padded, "{\"padding_method\":\"OAEP\"}");
}

/// A text with marks that are escaped, and what it is shown as.
const SHOWN: (&str, &str) = ("a\"b\\c\n\u{7f}\u{e9}", "\"a\\\"b\\\\c\\x0A\\x7F\u{e9}\"");

/// A text with marks that are escaped, and its JSON.
const JSON: (&str, &str) = (
    "\0\"b\\c\n\u{1f}\u{7f}\u{e9}",
    "\"\\u0000\\\"b\\\\c\\u000A\\u001F\\u007F\u{e9}\"",
);

#[test]
fn texts_are_shown(rt: HostRuntime) {
    let alloc = rt.alloc();
    is_shown(&rt, alloc, &text(&rt, alloc, SHOWN.0), SHOWN.1);
    is_json(&rt, alloc, &text(&rt, alloc, JSON.0), JSON.1);
}

#[test]
fn items_and_their_copies(rt: HostRuntime) {
    let alloc = rt.alloc();
    comes_back::<i32>(&rt, alloc, "5C i1", "1");
    comes_back_copied::<Boxed<Text>>(&rt, alloc, r#"5C "a""#, "\"a\"");
    comes_back_copied::<Blob>(&rt, alloc, "5C x0AFF", "x\"0AFF\"");
    let big = "5C b0000000000000018";
    comes_back_copied::<BigInteger>(&rt, alloc, big, "x\"0000000000000018\"");
}
