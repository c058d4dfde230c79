use crate::support::Under::{Name, Nothing};
use crate::support::{Case, are_read, has_no_form, is_written, read, reads_as};
use kmip_codes::{HashingAlgorithm, PaddingMethod};
use kmip_tags::tags::ATTRIBUTE_VALUE;
use kmip_types::{AttributeValue, CryptographicParameters, Values};

/// By the name, where it is one of the table's, and else by the type of the item.
const VALUES: &[Case] = &[
    Case {
        under: Name("Name"),
        notation: r#"0B{55 "my key",54 e1}"#,
        shown: Some("Name{name_value=\"my key\",name_type=UninterpretedTextString}"),
        json: Some(r#"{"Name":{"name_value":"my key","name_type":"UninterpretedTextString"}}"#),
    },
    Case {
        under: Name("Object Type"),
        notation: "0B e2",
        shown: Some("ObjectType(SymmetricKey)"),
        json: None,
    },
    Case {
        under: Name("Cryptographic Algorithm"),
        notation: "0B e3",
        shown: Some("CryptographicAlgorithm(AES)"),
        json: None,
    },
    Case {
        under: Name("Cryptographic Parameters"),
        notation: "0B{11 e1,5F e8}",
        shown: Some("CryptographicParameters{block_cipher_mode=CBC,padding_method=PKCS1_v1_5}"),
        json: Some(
            r#"{"CryptographicParameters":{"block_cipher_mode":"CBC","padding_method":"PKCS1_v1_5"}}"#,
        ),
    },
    Case {
        under: Name("State"),
        notation: "0B e2",
        shown: Some("State(Active)"),
        json: Some(r#"{"State":"Active"}"#),
    },
    Case {
        under: Name("State"),
        notation: "0B i2",
        shown: None,
        json: None,
    },
    Case {
        under: Name("Object Type"),
        notation: "0B e0000000A",
        shown: None,
        json: None,
    },
    Case {
        under: Name("Object Group"),
        notation: r#"0B "g""#,
        shown: Some("ObjectGroup(\"g\")"),
        json: None,
    },
    Case {
        under: Name("Link"),
        notation: r#"0B{4B e103,4C "k2"}"#,
        shown: Some("Link{link_type=PrivateKeyLink,linked_object_identifier=\"k2\"}"),
        json: None,
    },
    Case {
        under: Name("Linked Object Identifier"),
        notation: r#"0B{4B e103,4C "k2"}"#,
        shown: Some("Link{link_type=PrivateKeyLink,linked_object_identifier=\"k2\"}"),
        json: None,
    },
    Case {
        under: Name("Application Specific Information"),
        notation: r#"0B{03 "ssl",02 "www"}"#,
        shown: Some(
            "ApplicationSpecificInformation{application_namespace=\"ssl\",application_data=\"www\"}",
        ),
        json: None,
    },
    Case {
        under: Name("Contact Information"),
        notation: r#"0B "Joe""#,
        shown: Some("ContactInformation(\"Joe\")"),
        json: None,
    },
    Case {
        under: Nothing,
        notation: r#"0B{0B i5,0B "a"}"#,
        shown: Some("Structure[Integer(5),TextString(\"a\")]"),
        json: Some(r#"{"Structure":[{"Integer":5},{"TextString":"a"}]}"#),
    },
    Case {
        under: Name("Digest"),
        notation: "0B{}",
        shown: Some("Structure[]"),
        json: Some(r#"{"Structure":[]}"#),
    },
    Case {
        under: Name("Digest"),
        notation: "0B{0B{}}",
        shown: None,
        json: None,
    },
    Case {
        under: Name("x-a"),
        notation: "0B i-5",
        shown: Some("Integer(-5)"),
        json: None,
    },
    Case {
        under: Name("x-a"),
        notation: "42000B l-5",
        shown: Some("LongInteger(-5)"),
        json: Some(r#"{"LongInteger":-5}"#),
    },
    Case {
        under: Name("x-a"),
        notation: "0B b00000000000000FF",
        shown: Some("BigInteger(x\"00000000000000FF\")"),
        json: None,
    },
    Case {
        under: Name("x-a"),
        notation: "0B e6",
        shown: Some("Enumeration(6)"),
        json: None,
    },
    Case {
        under: Name("x-a"),
        notation: "0B o1",
        shown: Some("Boolean(true)"),
        json: Some(r#"{"Boolean":true}"#),
    },
    Case {
        under: Name("x-a"),
        notation: r#"0B "t""#,
        shown: Some("TextString(\"t\")"),
        json: None,
    },
    Case {
        under: Name("x-a"),
        notation: "0B xAABB",
        shown: Some("ByteString(x\"AABB\")"),
        json: Some(r#"{"ByteString":"AABB"}"#),
    },
    Case {
        under: Name("x-a"),
        notation: "0B d5",
        shown: Some("DateTime(5)"),
        json: None,
    },
    Case {
        under: Name("x-a"),
        notation: "0B d0",
        shown: Some("DateTime(0)"),
        json: Some(r#"{"DateTime":0}"#),
    },
    // 0B d-5, five seconds before 1970
    Case {
        under: Name("x-a"),
        notation: "0B d18446744073709551611",
        shown: Some("DateTime(18446744073709551611)"),
        json: Some(r#"{"DateTime":-5}"#),
    },
    // 0B with a line feed, a quote and a backslash
    Case {
        under: Name("x-a"),
        notation: r#"0B "a\x0A\"\\""#,
        shown: Some(r#"TextString("a\x0A\"\\")"#),
        json: Some(r#"{"TextString":"a\u000A\"\\"}"#),
    },
    Case {
        under: Name("x-a"),
        notation: "0B n60",
        shown: Some("Interval(60)"),
        json: None,
    },
    Case {
        under: Nothing,
        notation: r#"0B "State""#,
        shown: Some("TextString(\"State\")"),
        json: None,
    },
];

#[test]
fn by_name_or_type(rt: HostRuntime) {
    are_read::<AttributeValue>(&rt, rt.alloc(), VALUES);
}

/// The members of a structure may have any tags, and are written under one.
const DIGEST: &str = "0B{38 e6,35 xAABB}";

#[test]
fn children_of_any_tag(rt: HostRuntime) {
    let shown = "Structure[Enumeration(6),ByteString(x\"AABB\")]";
    reads_as::<AttributeValue>(&rt, rt.alloc(), Name("Digest"), DIGEST, shown);
}

#[test]
fn without_a_form(rt: HostRuntime) {
    let mut members = Values::new(rt.alloc());
    let parameters = AttributeValue::from(CryptographicParameters::default());
    members.push(parameters).expect(&rt, "memory");
    let structure = AttributeValue::Structure(members);
    has_no_form(&rt, &structure, ATTRIBUTE_VALUE);
    drop(structure);
}

const PADDED: &str = "2B{5F e8}";

const HASHED: &str = "2B{5F e8,38 e6}";

#[test]
fn cryptographic_parameters(rt: HostRuntime) {
    let alloc = rt.alloc();
    let padded = CryptographicParameters::default().with_padding_method(PaddingMethod::PKCS1_v1_5);
    is_written(&rt, alloc, &padded, PADDED);
    let hashed = padded.with_hashing_algorithm(HashingAlgorithm::SHA256);
    is_written(&rt, alloc, &hashed, HASHED);
    let read = read::<CryptographicParameters>(&rt, alloc, Nothing, HASHED);
    assert!(rt; read == Some(hashed) && hashed != padded);
}
