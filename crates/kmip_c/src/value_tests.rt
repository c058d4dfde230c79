//! Values of answers as a caller gets them. Lines are written by hand.
use crate::kmip_value;
use std::alloc::Global;
use std::process::Abort;

/// `kmip_value` without its clauses, so that the proof of a test looks into no definition.
fn value(alloc: Global, line: &[u8], path: &[u8], hex: bool, into: &mut [u8]) -> i64 {
    kmip_value(alloc, line, path, hex, into)
}

/// A value in a line, which the same bytes or none stand for.
struct ValueRow {
    line: &'static str,
    path: &'static str,
    hex: bool,
    value: Result<&'static [u8], i64>,
}

/// A plain answer, as those of the calls of words.
const PLAIN: &str =
    r#"{"answer":{"data":"DEADBEEF","names":["a","\u00e9\n"],"count":-12,"fresh":true,"attribute":[{"attribute_index":0},{"attribute_index":1}]}}
"#;

/// An answer as a tree.
const TREE: &str =
    r#"{"answer":{"tag":"ResponsePayload","value":[{"tag":"UniqueIdentifier","type":"TextString","value":"abcd"},{"tag":"Attribute","value":[{"tag":"AttributeName","type":"TextString","value":"x-a"},{"tag":"AttributeIndex","type":"Integer","value":0}]},{"tag":"Attribute","value":[{"tag":"AttributeName","type":"TextString","value":"x-b"},{"tag":"AttributeIndex","type":"Integer","value":7}]},{"tag":"Data","type":"ByteString","value":"00ff"},{"tag":"Modulus","type":"BigInteger","value":"0x00000000000000FF"},{"tag":"FreshData","type":"Boolean","value":false}]}}
"#;

const VALUES: &[ValueRow] = &[
    ValueRow {
        line: PLAIN,
        path: "data",
        hex: true,
        value: Ok(&[0xDE, 0xAD, 0xBE, 0xEF]),
    },
    ValueRow {
        line: PLAIN,
        path: "data",
        hex: false,
        value: Ok(b"DEADBEEF"),
    },
    ValueRow {
        line: PLAIN,
        path: "names.1",
        hex: false,
        value: Ok(b"\xC3\xA9\n"),
    },
    ValueRow {
        line: PLAIN,
        path: "names.0",
        hex: true,
        value: Err(-3),
    },
    ValueRow {
        line: PLAIN,
        path: "names.2",
        hex: false,
        value: Err(-3),
    },
    ValueRow {
        line: PLAIN,
        path: "names",
        hex: false,
        value: Err(-3),
    },
    ValueRow {
        line: PLAIN,
        path: "count",
        hex: false,
        value: Ok(b"-12"),
    },
    ValueRow {
        line: PLAIN,
        path: "count",
        hex: true,
        value: Err(-3),
    },
    ValueRow {
        line: PLAIN,
        path: "fresh",
        hex: false,
        value: Ok(b"true"),
    },
    ValueRow {
        line: PLAIN,
        path: "attribute.1.attribute_index",
        hex: false,
        value: Ok(b"1"),
    },
    ValueRow {
        line: PLAIN,
        path: "attribute.attribute_index",
        hex: false,
        value: Err(-3),
    },
    ValueRow {
        line: PLAIN,
        path: "",
        hex: false,
        value: Err(-3),
    },
    ValueRow {
        line: TREE,
        path: "UniqueIdentifier",
        hex: false,
        value: Ok(b"abcd"),
    },
    ValueRow {
        line: TREE,
        path: "UniqueIdentifier",
        hex: true,
        value: Err(-3),
    },
    ValueRow {
        line: TREE,
        path: "Attribute.AttributeName",
        hex: false,
        value: Ok(b"x-a"),
    },
    ValueRow {
        line: TREE,
        path: "Attribute.1.AttributeName",
        hex: false,
        value: Ok(b"x-b"),
    },
    ValueRow {
        line: TREE,
        path: "Attribute.1.AttributeIndex.0",
        hex: false,
        value: Ok(b"7"),
    },
    ValueRow {
        line: TREE,
        path: "Attribute.2.AttributeName",
        hex: false,
        value: Err(-3),
    },
    ValueRow {
        line: TREE,
        path: "Attribute.1",
        hex: false,
        value: Err(-3),
    },
    ValueRow {
        line: TREE,
        path: "Data",
        hex: true,
        value: Ok(&[0, 0xFF]),
    },
    ValueRow {
        line: TREE,
        path: "Data",
        hex: false,
        value: Ok(b"00ff"),
    },
    ValueRow {
        line: TREE,
        path: "Modulus",
        hex: true,
        value: Ok(&[0, 0, 0, 0, 0, 0, 0, 0xFF]),
    },
    ValueRow {
        line: TREE,
        path: "FreshData",
        hex: false,
        value: Ok(b"false"),
    },
    ValueRow {
        line: TREE,
        path: "FreshData",
        hex: true,
        value: Err(-3),
    },
    ValueRow {
        line: TREE,
        path: "value.0.value",
        hex: false,
        value: Err(-3),
    },
    ValueRow {
        line: TREE,
        path: "Data.Data",
        hex: false,
        value: Err(-3),
    },
    ValueRow {
        line: TREE,
        path: "",
        hex: false,
        value: Err(-3),
    },
    ValueRow {
        line: "{\"error\":\"ItemNotFound\",\"text\":\"gone\"}\n",
        path: "text",
        hex: false,
        value: Err(-3),
    },
    ValueRow {
        line: "no line",
        path: "text",
        hex: false,
        value: Err(-3),
    },
    ValueRow {
        line: "[\"answer\"]",
        path: "answer",
        hex: false,
        value: Err(-3),
    },
];

#[test]
fn values_are_written(rt: HostRuntime) {
    let alloc: Global = rt.alloc();
    for row in VALUES {
        let mut into = [7u8; 12];
        let length = value(
            alloc,
            row.line.as_bytes(),
            row.path.as_bytes(),
            row.hex,
            &mut into,
        );
        match row.value {
            Ok(bytes) => {
                assert!(rt; usize::try_from(length).ok() == Some(bytes.len()));
                assert!(rt; into.starts_with(bytes));
                assert!(rt; into.get(bytes.len()) == Some(&7));
            }
            Err(code) => {
                assert!(rt; length == code);
                assert!(rt; into == [7u8; 12]);
            }
        }
    }
}

#[test]
fn a_line_and_a_path_are_texts(rt: HostRuntime) {
    let alloc: Global = rt.alloc();
    let mut into = [7u8; 4];
    assert!(rt; value(alloc, &[0xFF], b"data", false, &mut into) == -2);
    assert!(rt; value(alloc, PLAIN.as_bytes(), &[0xFF], false, &mut into) == -2);
    assert!(rt; into == [7u8; 4]);
}
