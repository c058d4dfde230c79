//! What is said of a text that is not read.
use kmip_encodings::{from_json, push_refusal, refusal_of};
use kmip_wire::Text;
use std::alloc::Global;
use std::process::Abort;

/// Texts with what is said of each.
const ROWS: &[(&str, &str)] = &[
    (
        "",
        "line 1, column 1: expected JSON, found the end of the text",
    ),
    (
        "{\"tag\":\"BatchCount\",\n \"type\":\"Integer\";\"value\":1}",
        "line 2, column 18: expected JSON, found something else",
    ),
    (
        r#"{"tag":"BatchCount","type":"Integer","value":1"#,
        "line 1, column 47: expected JSON, found the end of the text",
    ),
    (
        "{\"tag\":\"BatchCount\",\"type\":\"Integer\",\n\"value\":1,\n  \"value\":2}",
        "line 3, column 3: expected each name once in an object, found one twice",
    ),
    (
        "[]",
        "line 1, column 1: expected an object with tag, type and value, found an array",
    ),
    (
        "{}",
        "line 1, column 1, tag: expected the name of a tag, or 0x and six hex digits, found nothing",
    ),
    (
        r#"{"tag":"Attribute","value":[{"tag":"BatchCount","type":"Integer","value":1,"comment":""}]}"#,
        "line 1, column 76, value[0]: expected no member but tag, type, value and name, found another member",
    ),
    (
        "{\"tag\":\"Attribute\", \"value\": [\n  {\"tag\":\"Attribute\", \"value\":[]},\n  {\"tag\":\"é\", \"value\":[]}]}",
        "line 3, column 10, value[1].tag: expected the name of a tag, or 0x and six hex digits, found another string",
    ),
    (
        r#"{"tag":"BatchCount","type":"integer","value":1}"#,
        "line 1, column 28, type: expected a type: Structure, Integer, LongInteger, BigInteger, Enumeration, Boolean, TextString, ByteString, DateTime or Interval, found another string",
    ),
    (
        r#"{"tag":"BatchCount","type":"Integer","value":2147483648}"#,
        "line 1, column 46, value: expected a whole number from -2147483648 to 2147483647, or 0x and eight hex digits, found another number",
    ),
    (
        r#"{"tag":"State","type":"Enumeration","value":"Actif"}"#,
        "line 1, column 45, value: expected PreActive, Active, Deactivated, Compromised, Destroyed, DestroyedCompromised, or 0x and eight hex digits, found another string",
    ),
    (
        r#"{"tag":"Operation","type":"Enumeration","value":"create"}"#,
        "line 1, column 49, value: expected a name that its tag has, its number, or 0x and eight hex digits, found another string",
    ),
    (
        r#"{"tag":"Attribute","value":[{"tag":"AttributeName","type":"TextString","value":"State"},{"tag":"AttributeValue","type":"Enumeration","value":"Actif"}]}"#,
        "line 1, column 142, value[1].value: expected PreActive, Active, Deactivated, Compromised, Destroyed, DestroyedCompromised, or 0x and eight hex digits, found another string",
    ),
    (
        r#"{"tag":"CryptographicUsageMask","type":"Integer","value":"Encrypt,Decrypt"}"#,
        "line 1, column 58, value: expected names of bits as Encrypt|Decrypt, a whole number, or 0x and eight hex digits, found another string",
    ),
    (
        r#"{"tag":"KeyMaterial","type":"ByteString","value":"00112233445566778899AABBCCDDEEF"}"#,
        "line 1, column 50, value: expected a string of hex digits, two for a byte, found another string",
    ),
    // A value is told by its form, whatever was expected at its place.
    (
        r#"{"tag":"KeyMaterial","type":"Integer","value":"00112233445566778899AABBCCDDEEFF"}"#,
        "line 1, column 47, value: expected a whole number from -2147483648 to 2147483647, or 0x and eight hex digits, found another string",
    ),
    (
        r#"{"tag":"Password","value":"hunter2"}"#,
        "line 1, column 27, value: expected an array of items, or null, found a string",
    ),
    (
        r#"{"tag":"Password","type":"hunter2","value":"hunter2"}"#,
        "line 1, column 26, type: expected a type: Structure, Integer, LongInteger, BigInteger, Enumeration, Boolean, TextString, ByteString, DateTime or Interval, found another string",
    ),
    (
        r#"{"tag":"hunter2"}"#,
        "line 1, column 8, tag: expected the name of a tag, or 0x and six hex digits, found another string",
    ),
    (
        r#"{"tag":"Credential","value":["hunter2"]}"#,
        "line 1, column 30, value[0]: expected an object with tag, type and value, found a string",
    ),
    (
        r#"{"tag":"Credential","value":31337}"#,
        "line 1, column 29, value: expected an array of items, or null, found a number",
    ),
    (
        r#"{"tag":"Credential","hunter2":"hunter2"}"#,
        "line 1, column 21: expected no member but tag, type, value and name, found another member",
    ),
    (
        r#"{"tag":"Credential","hunter2":1,"hunter2":2}"#,
        "line 1, column 33: expected each name once in an object, found one twice",
    ),
    (
        r#"{"tag":"Password","type":"TextString","value":hunter2}"#,
        "line 1, column 47: expected JSON, found something else",
    ),
    (
        r#"{"tag":"BatchOrderOption","type":"Integer","value":true}"#,
        "line 1, column 52, value: expected a whole number from -2147483648 to 2147483647, or 0x and eight hex digits, found true or false",
    ),
    (
        r#"{"tag":"Password","type":"TextString","value":{"tag":"hunter2"}}"#,
        "line 1, column 47, value: expected a string, found an object",
    ),
];

/// This is said of the text.
fn is_said(rt: &impl Abort, alloc: Global, text: &str, wanted: &str) {
    let error = from_json(alloc, text).err().expect(rt, text);
    let why = refusal_of(alloc, text, &error).expect(rt, "memory");
    drop(error);
    let mut said = Text::new(alloc);
    push_refusal(&mut said, &why).expect(rt, "memory");
    drop(why);
    assert_eq!(rt; said.as_str(), wanted);
}

#[test]
fn refusals_say_where_and_why(rt: HostRuntime) {
    for (text, wanted) in ROWS {
        is_said(&rt, rt.alloc(), text, wanted);
    }
}
