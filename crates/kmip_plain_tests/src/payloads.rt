//! Items and their JSON. What the values of a type look like is KMIP's encoding in JSON; the numbers
//! of names and of masks' bits are those of KMIP 1.2, 9.1.3.
use kmip_plain::{PayloadForm, push_payload};
use kmip_test_messages::message;
use kmip_wire::read_tree;
use std::alloc::Global;
use std::process::Abort;
use std::rt::HostRuntime;
use std::str;

/// An item in the notation, and its JSON.
#[derive(Clone, Copy)]
struct Row {
    item: &'static str,
    json: &'static str,
}

/// One item is its value.
const VALUES: &[Row] = &[
    Row {
        item: "2A i256",
        json: "256",
    },
    Row {
        item: "2A i-1",
        json: "-1",
    },
    Row {
        item: "2C i12",
        json: r#""Encrypt|Decrypt""#,
    },
    Row {
        item: "2C i0",
        json: "0",
    },
    Row {
        item: "96 l100",
        json: "100",
    },
    Row {
        item: "96 l4503599627370495",
        json: "4503599627370495",
    },
    Row {
        item: "96 l4503599627370496",
        json: r#""0x0010000000000000""#,
    },
    Row {
        item: "96 l-4503599627370496",
        json: r#""0xFFF0000000000000""#,
    },
    Row {
        item: "52 b00000000000000FF",
        json: r#""00000000000000FF""#,
    },
    Row {
        item: "52 b",
        json: r#""""#,
    },
    Row {
        item: "28 e3",
        json: r#""AES""#,
    },
    Row {
        item: "28 eFF",
        json: r#""0x000000FF""#,
    },
    Row {
        item: "0B e3",
        json: r#""0x00000003""#,
    },
    Row {
        item: "C5 o1",
        json: "true",
    },
    Row {
        item: "C5 o0",
        json: "false",
    },
    Row {
        item: r#"94 "8""#,
        json: r#""8""#,
    },
    Row {
        item: r#"94 """#,
        json: r#""""#,
    },
    Row {
        item: r#"94 "a \"b\"\\\n\x01""#,
        json: r#""a \"b\"\\\n\u0001""#,
    },
    Row {
        item: "C2 x6868FF",
        json: r#""6868FF""#,
    },
    Row {
        item: "C2 x",
        json: r#""""#,
    },
    Row {
        item: "01 d0",
        json: r#""1970-01-01T00:00:00+00:00""#,
    },
    Row {
        item: "01 d1000000000",
        json: r#""2001-09-09T01:46:40+00:00""#,
    },
    Row {
        item: "01 d9223372036854775807",
        json: r#""0x7FFFFFFFFFFFFFFF""#,
    },
    Row {
        item: "49 n3600",
        json: "3600",
    },
    Row {
        item: "49 n4294967295",
        json: "4294967295",
    },
];

/// A structure is an object with a member for each tag.
const STRUCTURES: &[Row] = &[
    Row {
        item: "7C{}",
        json: "{}",
    },
    Row {
        item: r#"7C{94 "8",C2 x6868}"#,
        json: r#"{"unique_identifier":"8","data":"6868"}"#,
    },
    Row {
        item: r#"7C{C2 x6868,94 "8"}"#,
        json: r#"{"data":"6868","unique_identifier":"8"}"#,
    },
    Row {
        item: r#"7C{94 "1",94 "2",94 "3"}"#,
        json: r#"{"unique_identifier":["1","2","3"]}"#,
    },
    Row {
        item: r#"7C{94 "1",C2 x00,94 "1",C2 x01,49 n5}"#,
        json: r#"{"unique_identifier":["1","1"],"data":["00","01"],"lease_time":5}"#,
    },
    Row {
        item: "7C{45{}}",
        json: r#"{"key_value":{}}"#,
    },
    Row {
        item: "7C{45{},45{}}",
        json: r#"{"key_value":[{},{}]}"#,
    },
    Row {
        item: r#"7C{540001 i1,540001 i2,540ABC "x",540001{540001 o1}}"#,
        json: r#"{"0x540001":[1,2,{"0x540001":true}],"0x540ABC":"x"}"#,
    },
    Row {
        item: "8F{40{42 e1,45{43 x0011},28 e3,2A i16}}",
        json: r#"{"key_block":{"key_format_type":"Raw","key_value":{"key_material":"0011"},"cryptographic_algorithm":"AES","cryptographic_length":16}}"#,
    },
    Row {
        item: "43{52 b00000000000000A1,27 b0000000000000007,60 b0000000000000005,2E b0000000000000003}",
        json: r#"{"modulus":"00000000000000A1","crt_coefficient":"0000000000000007","prime_exponent_p":"0000000000000005","d":"0000000000000003"}"#,
    },
];

/// The values of attributes have the names that the Attribute Name before them says.
const ATTRIBUTES: &[Row] = &[
    Row {
        item: r#"7C{94 "1",08{0A "Cryptographic Algorithm",0B e3}}"#,
        json: r#"{"unique_identifier":"1","attribute":{"attribute_name":"Cryptographic Algorithm","attribute_value":"AES"}}"#,
    },
    Row {
        item: r#"7C{08{0A "Cryptographic Usage Mask",0B i12},08{0A "State",09 i0,0B e2},08{0A "x-note",0B "n"}}"#,
        json: r#"{"attribute":[{"attribute_name":"Cryptographic Usage Mask","attribute_value":"Encrypt|Decrypt"},{"attribute_name":"State","attribute_index":0,"attribute_value":"Active"},{"attribute_name":"x-note","attribute_value":"n"}]}"#,
    },
    Row {
        item: r#"08{0B e3,0A "Cryptographic Algorithm"}"#,
        json: r#"{"attribute_value":"0x00000003","attribute_name":"Cryptographic Algorithm"}"#,
    },
    Row {
        item: r#"08{0A "State",0B e2,0A "Cryptographic Algorithm",0B e3,0B{0B e3}}"#,
        json: r#"{"attribute_name":["State","Cryptographic Algorithm"],"attribute_value":["Active","AES",{"attribute_value":"0x00000003"}]}"#,
    },
];

/// The JSON of an item in a form. A failure ends the run, so that no test has a way out at which it
/// drops the values that it holds.
fn is_written(rt: &impl Abort, alloc: Global, form: PayloadForm, row: &Row) {
    let bytes = message(alloc, row.item).expect(rt, row.item);
    let (tree, _) = read_tree(alloc, &bytes).expect(rt, row.item);
    let mut text = Vec::new(alloc);
    text.push(b'=').expect(rt, "memory");
    push_payload(alloc, form, &tree, &mut text).expect(rt, "memory");
    drop(tree);
    assert_eq!(rt; str::from_utf8(&text[1..]), Ok(row.json), "{}", row.item);
}

#[test]
fn items_are_plain(rt: HostRuntime) {
    for rows in [VALUES, STRUCTURES, ATTRIBUTES] {
        for row in rows {
            is_written(&rt, rt.alloc(), PayloadForm::Plain, row);
        }
    }
}

/// The same as trees.
const TREES: &[Row] = &[
    Row {
        item: r#"7C{94 "8",C2 x6868}"#,
        json: r#"{"tag":"ResponsePayload","value":[{"tag":"UniqueIdentifier","type":"TextString","value":"8"},{"tag":"Data","type":"ByteString","value":"6868"}]}"#,
    },
    Row {
        item: "52 b00000000000000FF",
        json: r#"{"tag":"Modulus","type":"BigInteger","value":"0x00000000000000FF"}"#,
    },
];

#[test]
fn items_are_trees(rt: HostRuntime) {
    for row in TREES {
        is_written(&rt, rt.alloc(), PayloadForm::Tree, row);
    }
}
