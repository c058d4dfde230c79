//! What is refused, with its place and what was expected, and the other forms that are read.
use crate::json::is_read;
use kmip_encodings::{EncodingError, Expected, Fault, from_json};
use kmip_wire::Kind;
use std::alloc::Global;
use std::process::Abort;

/// Where an item stands that is none, the innermost index first, and what was expected there.
fn misfit(alloc: Global, text: &str) -> Option<Fault> {
    match from_json(alloc, text) {
        Err(EncodingError::Misfit(fault)) => Some(fault),
        _ => None,
    }
}

/// A text with its misfit.
struct Row {
    text: &'static str,
    place: &'static [usize],
    expected: Expected,
}

const ROWS: &[Row] = &[
    Row {
        text: "null",
        place: &[],
        expected: Expected::Object,
    },
    Row {
        text: "[]",
        place: &[],
        expected: Expected::Object,
    },
    Row {
        text: "{}",
        place: &[],
        expected: Expected::Tag,
    },
    Row {
        text: r#"{"tag":7,"type":"Integer","value":1}"#,
        place: &[],
        expected: Expected::Tag,
    },
    Row {
        text: r#"{"tag":"Batch Count","type":"Integer","value":1}"#,
        place: &[],
        expected: Expected::Tag,
    },
    Row {
        text: r#"{"tag":"0x42000","type":"Integer","value":1}"#,
        place: &[],
        expected: Expected::Tag,
    },
    Row {
        text: r#"{"tag":"0x0042000D","type":"Integer","value":1}"#,
        place: &[],
        expected: Expected::Tag,
    },
    Row {
        text: r#"{"tag":"BatchCount","type":"integer","value":1}"#,
        place: &[],
        expected: Expected::Type,
    },
    Row {
        text: r#"{"tag":"BatchCount","type":2,"value":1}"#,
        place: &[],
        expected: Expected::Type,
    },
    Row {
        text: r#"{"tag":"BatchCount","type":"Integer"}"#,
        place: &[],
        expected: Expected::Value(Kind::Integer),
    },
    Row {
        text: r#"{"tag":"BatchCount","value":1}"#,
        place: &[],
        expected: Expected::Value(Kind::Structure),
    },
    Row {
        text: r#"{"tag":"BatchCount","type":"Integer","value":1,"comment":""}"#,
        place: &[],
        expected: Expected::Members,
    },
    Row {
        text: r#"{"tag":"BatchCount","type":"Integer","value":1.0}"#,
        place: &[],
        expected: Expected::Value(Kind::Integer),
    },
    Row {
        text: r#"{"tag":"BatchCount","type":"Integer","value":1e1}"#,
        place: &[],
        expected: Expected::Value(Kind::Integer),
    },
    Row {
        text: r#"{"tag":"BatchCount","type":"Integer","value":2147483648}"#,
        place: &[],
        expected: Expected::Value(Kind::Integer),
    },
    Row {
        text: r#"{"tag":"BatchCount","type":"Integer","value":"1"}"#,
        place: &[],
        expected: Expected::Value(Kind::Integer),
    },
    Row {
        text: r#"{"tag":"BatchCount","type":"LongInteger","value":9007199254740993}"#,
        place: &[],
        expected: Expected::Value(Kind::LongInteger),
    },
    Row {
        text: r#"{"tag":"BatchCount","type":"LongInteger","value":"0x00"}"#,
        place: &[],
        expected: Expected::Value(Kind::LongInteger),
    },
    Row {
        text: r#"{"tag":"BatchCount","type":"Interval","value":-1}"#,
        place: &[],
        expected: Expected::Value(Kind::Interval),
    },
    Row {
        text: r#"{"tag":"BatchCount","type":"Boolean","value":1}"#,
        place: &[],
        expected: Expected::Value(Kind::Boolean),
    },
    Row {
        text: r#"{"tag":"Modulus","type":"BigInteger","value":"00"}"#,
        place: &[],
        expected: Expected::Value(Kind::BigInteger),
    },
    Row {
        text: r#"{"tag":"Data","type":"ByteString","value":"0g"}"#,
        place: &[],
        expected: Expected::Value(Kind::ByteString),
    },
    Row {
        text: r#"{"tag":"Operation","type":"Enumeration","value":"create"}"#,
        place: &[],
        expected: Expected::Value(Kind::Enumeration),
    },
    Row {
        text: r#"{"tag":"TimeStamp","type":"DateTime","value":"2001-02-29T00:00:00+00:00"}"#,
        place: &[],
        expected: Expected::Value(Kind::DateTime),
    },
    Row {
        text: r#"{"tag":"TimeStamp","type":"DateTime","value":"2001-02-28T24:00:00+00:00"}"#,
        place: &[],
        expected: Expected::Value(Kind::DateTime),
    },
    Row {
        text: r#"{"tag":"CryptographicUsageMask","type":"Integer","value":"Encrypt|encrypt"}"#,
        place: &[],
        expected: Expected::Value(Kind::Integer),
    },
    Row {
        text: r#"{"tag":"CryptographicUsageMask","type":"Integer","value":"Encrypt |Decrypt"}"#,
        place: &[],
        expected: Expected::Value(Kind::Integer),
    },
    Row {
        text: r#"{"tag":"CryptographicUsageMask","type":"Integer","value":""}"#,
        place: &[],
        expected: Expected::Value(Kind::Integer),
    },
    Row {
        text: r#"{"tag":"State","type":"Integer","value":"Active"}"#,
        place: &[],
        expected: Expected::Value(Kind::Integer),
    },
    Row {
        text: r#"{"tag":"BatchCount","type":"Integer","value":null}"#,
        place: &[],
        expected: Expected::Value(Kind::Integer),
    },
    Row {
        text: r#"{"tag":"Modulus","type":"BigInteger","value":9007199254740993}"#,
        place: &[],
        expected: Expected::Value(Kind::BigInteger),
    },
    Row {
        text: r#"{"tag":"BatchOrderOption","type":"Boolean","value":"0x0000000000000002"}"#,
        place: &[],
        expected: Expected::Value(Kind::Boolean),
    },
    Row {
        text: r#"{"tag":"BatchOrderOption","type":"Boolean","value":"0x01"}"#,
        place: &[],
        expected: Expected::Value(Kind::Boolean),
    },
    Row {
        text: r#"{"tag":"TimeStamp","type":"DateTime","value":"2001-02-28T12:00:00+24:00"}"#,
        place: &[],
        expected: Expected::Value(Kind::DateTime),
    },
    Row {
        text: r#"{"tag":"TimeStamp","type":"DateTime","value":"2001-02-28T12:00:00+0200"}"#,
        place: &[],
        expected: Expected::Value(Kind::DateTime),
    },
    Row {
        text: r#"{"tag":"Attribute","value":[{"tag":"Attribute","value":[]},{"tag":"Attribute","value":[{"tag":"State","value":[]},{"tag":"State","value":[]},{"tag":"Stat","value":[]}]}]}"#,
        place: &[2, 1],
        expected: Expected::Tag,
    },
];

/// The text of a row is refused at its place.
fn is_refused(rt: &impl Abort, alloc: Global, row: &Row) {
    let fault = misfit(alloc, row.text).expect(rt, row.text);
    assert_eq!(rt; fault.place.as_slice(), row.place, "{}", row.text);
    assert_eq!(rt; fault.expected, row.expected, "{}", row.text);
    drop(fault);
}

#[test]
fn what_is_no_item_is_refused(rt: HostRuntime) {
    for row in ROWS {
        is_refused(&rt, rt.alloc(), row);
    }
}

/// Texts that are no JSON, and the place where each stops being one.
const NO_JSON: &[(&str, usize)] = &[
    ("", 0),
    (r#"{"tag":"BatchCount","type":"Integer","value":01}"#, 45),
    (r#"{"tag":"BatchCount","type":"Integer","value":1"#, 46),
    (r#"{"tag":"BatchCount";"type":"Integer","value":1}"#, 19),
];

/// Where a text stops being JSON.
fn place_in(alloc: Global, text: &str) -> Option<usize> {
    match from_json(alloc, text) {
        Err(EncodingError::NotJson(place)) => Some(place),
        _ => None,
    }
}

/// Where a text nests too deep.
fn depth_in(alloc: Global, text: &str) -> Option<usize> {
    match from_json(alloc, text) {
        Err(EncodingError::TooDeep(place)) => Some(place),
        _ => None,
    }
}

/// Whether a text has a name twice in one object.
fn has_a_name_twice(alloc: Global, text: &str) -> bool {
    matches!(from_json(alloc, text), Err(EncodingError::RepeatedName))
}

#[test]
fn what_is_no_json_is_refused_with_its_place(rt: HostRuntime) {
    for (text, place) in NO_JSON {
        assert_eq!(rt; place_in(rt.alloc(), text), Some(*place), "{text}");
    }
    let twice = r#"{"tag":"BatchCount","type":"Integer","value":1,"value":2}"#;
    assert!(rt; has_a_name_twice(rt.alloc(), twice));
}

/// Other forms of JSON, and the items' bytes in hex.
const FORMS: &[(&str, &str)] = &[
    (
        r#" { "value" : 1 , "type" : "Integer" , "tag" : "0x42000d" } "#,
        "42000D02000000040000000100000000",
    ),
    (
        r#"{"tag":"BatchCount","type":"Integer","value":"0xFFFFFFFE"}"#,
        "42000D0200000004FFFFFFFE00000000",
    ),
    (
        r#"{"tag":"LeaseTime","type":"Interval","value":"0x000d2f00"}"#,
        "4200490A00000004000D2F0000000000",
    ),
    (
        r#"{"tag":"Operation","type":"Enumeration","value":18}"#,
        "42005C05000000040000001200000000",
    ),
    (
        r#"{"tag":"Operation","type":"Enumeration","value":"0x00000012"}"#,
        "42005C05000000040000001200000000",
    ),
    (
        r#"{"tag":"Operation","type":"Enumeration","value":"Activate"}"#,
        "42005C05000000040000001200000000",
    ),
    (
        r#"{"tag":"TimeStamp","type":"DateTime","value":"2008-03-14T11:56:40Z"}"#,
        "42009209000000080000000047DA67F8",
    ),
    (
        r#"{"tag":"TimeStamp","type":"DateTime","value":"0x0000000047DA67F8"}"#,
        "42009209000000080000000047DA67F8",
    ),
    (
        r#"{"tag":"Attribute","type":"Structure","value":[]}"#,
        "4200080100000000",
    ),
    (r#"{"tag":"Attribute","value":null}"#, "4200080100000000"),
    (
        r#"{"tag":"Attribute","type":"Structure"}"#,
        "4200080100000000",
    ),
    (
        r#"{"tag":"0x540001","name":"My Extension","type":"Integer","value":1}"#,
        "54000102000000040000000100000000",
    ),
    (
        r#"{"tag":"CryptographicUsageMask","type":"Integer","value":"Encrypt|Decrypt"}"#,
        "42002C02000000040000000C00000000",
    ),
    (
        r#"{"tag":"CryptographicUsageMask","type":"Integer","value":"MACGenerate|0x00000100|MacGenerate"}"#,
        "42002C02000000040000018000000000",
    ),
    (
        r#"{"tag":"StorageStatusMask","type":"Integer","value":"OnLineStorage|ArchivalStorage"}"#,
        "42008E02000000040000000300000000",
    ),
    (
        r#"{"tag":"Attribute","value":[{"tag":"AttributeName","type":"TextString","value":"Cryptographic Usage Mask"},{"tag":"AttributeValue","type":"Integer","value":"Encrypt|Decrypt"}]}"#,
        "420008010000003042000A070000001843727970746F67726170686963205573616765204D61736B42000B02000000040000000C00000000",
    ),
    (
        r#"{"tag":"TimeStamp","type":"DateTime","value":"2008-03-14T13:56:40+02:00"}"#,
        "42009209000000080000000047DA67F8",
    ),
    (
        r#"{"tag":"TimeStamp","type":"DateTime","value":"2008-03-14T06:26:40-05:30"}"#,
        "42009209000000080000000047DA67F8",
    ),
    (
        r#"{"tag":"Modulus","type":"BigInteger","value":-1}"#,
        "4200520400000008FFFFFFFFFFFFFFFF",
    ),
    (
        r#"{"tag":"Modulus","type":"BigInteger","value":258}"#,
        "42005204000000080000000000000102",
    ),
    (
        r#"{"tag":"BatchOrderOption","type":"Boolean","value":"0x0000000000000001"}"#,
        "42001006000000080000000000000001",
    ),
    (
        r#"{"tag":"BatchOrderOption","type":"Boolean","value":"0x0000000000000000"}"#,
        "42001006000000080000000000000000",
    ),
];

#[test]
fn other_forms_are_read(rt: HostRuntime) {
    for (text, digits) in FORMS {
        is_read(&rt, rt.alloc(), text, digits);
    }
}

/// A structure in JSON of so many levels.
fn nested(rt: &impl Abort, alloc: Global, levels: usize) -> String {
    let mut text = String::new(alloc);
    for _ in 0..levels {
        text.push_str(r#"{"tag":"Attribute","value":["#)
            .expect(rt, "memory");
    }
    for _ in 0..levels {
        text.push_str("]}").expect(rt, "memory");
    }
    text
}

#[test]
fn levels_are_bounded(rt: HostRuntime) {
    let alloc = rt.alloc();
    let (most, more) = (nested(&rt, alloc, 64), nested(&rt, alloc, 65));
    assert!(rt; from_json(alloc, most.as_str()).is_ok());
    assert_eq!(rt; depth_in(alloc, more.as_str()), Some(64 * 28 + 1));
}
