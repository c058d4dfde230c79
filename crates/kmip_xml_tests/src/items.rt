//! What no contract says: items are read as XML of OASIS's encoding has them, reading undoes writing,
//! and calls succeed where there is memory.
use crate::messages::MESSAGES;
use crate::vectors::VECTORS;
use kmip_encodings::to_xml;
use kmip_wire::{Tree, read_tree, write_tree};
use kmip_xml::from_xml;
use std::alloc::Global;
use std::process::Abort;

/// Items as bytes in hex and as XML.
const ROWS: &[(&str, &str)] = &[
    // The types of KMIP 1.0, 9.1.2.
    (
        "42002002000000040000000800000000",
        r#"<CompromiseDate type="Integer" value="8"/>"#,
    ),
    (
        "42002002000000048000000000000000",
        r#"<CompromiseDate type="Integer" value="-2147483648"/>"#,
    ),
    (
        "420020030000000801B69B4BA5749200",
        r#"<CompromiseDate type="LongInteger" value="123456789000000000"/>"#,
    ),
    (
        "42002003000000088000000000000000",
        r#"<CompromiseDate type="LongInteger" value="-9223372036854775808"/>"#,
    ),
    (
        "4200200300000008FFFFFFFFFFFFFFFF",
        r#"<CompromiseDate type="LongInteger" value="0xffffffffffffffff"/>"#,
    ),
    (
        "42002004000000100000000003FD35EB6BC2DF4618080000",
        r#"<CompromiseDate type="BigInteger" value="0000000003FD35EB6BC2DF4618080000"/>"#,
    ),
    (
        "42002004000000080000000003FD35EB",
        r#"<CompromiseDate type="BigInteger" value="0x0000000003fd35eb"/>"#,
    ),
    (
        "4200200500000004000000FF00000000",
        r#"<CompromiseDate type="Enumeration" value="0x000000FF"/>"#,
    ),
    (
        "42002006000000080000000000000001",
        r#"<CompromiseDate type="Boolean" value="true"/>"#,
    ),
    (
        "42002006000000080000000000000000",
        r#"<CompromiseDate type="Boolean" value="false"/>"#,
    ),
    (
        "42002006000000080000000000000001",
        r#"<CompromiseDate type="Boolean" value="0x0000000000000001"/>"#,
    ),
    (
        "420020070000000B48656C6C6F20576F726C640000000000",
        r#"<CompromiseDate type="TextString" value="Hello World"/>"#,
    ),
    (
        "42002008000000030102030000000000",
        r#"<CompromiseDate type="ByteString" value="010203"/>"#,
    ),
    (
        "4200200800000000",
        r#"<CompromiseDate type="ByteString" value=""/>"#,
    ),
    (
        "42002009000000080000000047DA67F8",
        r#"<CompromiseDate type="DateTime" value="2008-03-14T11:56:40+00:00"/>"#,
    ),
    (
        "42002009000000080000000047DA67F8",
        r#"<CompromiseDate type="DateTime" value="2008-03-14T13:56:40+02:00"/>"#,
    ),
    (
        "42002009000000080000000047DA67F8",
        r#"<CompromiseDate type="DateTime" value="0x0000000047DA67F8"/>"#,
    ),
    (
        "4200200A00000004000D2F0000000000",
        r#"<CompromiseDate type="Interval" value="864000"/>"#,
    ),
    (
        "4200200A00000004000D2F0000000000",
        r#"<CompromiseDate type="Interval" value="0x000D2F00"/>"#,
    ),
    // Structures, and tags that have no name.
    ("4200200100000000", r#"<CompromiseDate/>"#),
    (
        "4200200100000000",
        r#"<CompromiseDate type="Structure"></CompromiseDate >"#,
    ),
    (
        "5400010100000018540002010000000042005C05000000040000001400000000",
        r#"<TTLV tag="0x540001" name="Ours"><TTLV name="Theirs" tag="0x540002"/><TTLV tag="Operation" type="Enumeration" value="Destroy"/></TTLV>"#,
    ),
    // Masks by the names of their bits.
    (
        "42002C02000000040000100C00000000",
        r#"<CryptographicUsageMask type="Integer" value="Encrypt Decrypt CertificateSign"/>"#,
    ),
    (
        "42002C02000000040000100C00000000",
        r#"<CryptographicUsageMask type="Integer" value="Encrypt|Decrypt|CertificateSign"/>"#,
    ),
    (
        "42002C02000000040010000400000000",
        r#"<CryptographicUsageMask type="Integer" value="Encrypt 0x00100000"/>"#,
    ),
    (
        "42002C02000000040000008000000000",
        r#"<CryptographicUsageMask type="Integer" value="MacGenerate"/>"#,
    ),
    (
        "42002C02000000040000000000000000",
        r#"<CryptographicUsageMask type="Integer" value="0"/>"#,
    ),
    // Names by OASIS's rule and as kmip-protocol has them.
    (
        "42003805000000040000000600000000",
        r#"<HashingAlgorithm type="Enumeration" value="SHA_256"/>"#,
    ),
    (
        "42003805000000040000000600000000",
        r#"<HashingAlgorithm type="Enumeration" value="SHA256"/>"#,
    ),
    (
        "42003805000000040000000600000000",
        r#"<HashingAlgorithm type="Enumeration" value="6"/>"#,
    ),
    // References, and what stands as it is.
    (
        "42009407000000113C612026202262273EC3A9E282AC0A0A4100000000000000",
        r#"<UniqueIdentifier type="TextString" value="&lt;a &amp; &quot;b&apos;&gt;é&#x20AC;&#xA;&#10;&#x0041;"/>"#,
    ),
    (
        "4200940700000009613E6227632064206500000000000000",
        "<UniqueIdentifier type=\"TextString\" value=\"a>b'c\td\r\ne\"/>",
    ),
    (
        "420094070000000973617920227965732200000000000000",
        "<UniqueIdentifier\n\ttype = 'TextString'\n\tvalue = 'say \"yes\"'\n/>",
    ),
    // Comments.
    (
        "420008010000002042000A0700000005537461746500000042000B05000000040000000200000000",
        r#"<Attribute><!-- a > b < c --><AttributeName type="TextString" value="State"/><!----><AttributeValue type="Enumeration" value="Active"/> <!-- - --> </Attribute><!-- the end -->"#,
    ),
];

/// The item has these bytes in hex, as a text of it says. Here and below each function ends the run
/// where something is wrong, so that no test has a way out at which it drops the values that it
/// holds.
pub(crate) fn is_item(rt: &impl Abort, alloc: Global, tree: &Tree, digits: &str, text: &str) {
    let bytes = write_tree(alloc, tree).expect(rt, text);
    let found = hex::encode_upper(alloc, bytes.as_slice()).expect(rt, "memory");
    assert!(rt; found.as_str() == digits, "{text}");
}

/// This XML is read as the item of these bytes in hex.
fn is_read(rt: &impl Abort, alloc: Global, xml: &str, digits: &str) {
    let tree = from_xml(alloc, xml).ok().expect(rt, xml);
    is_item(rt, alloc, &tree, digits, xml);
    drop(tree);
}

#[test]
fn items_are_read(rt: HostRuntime) {
    for (digits, xml) in ROWS {
        is_read(&rt, rt.alloc(), xml, digits);
    }
}

#[test]
fn messages_are_read(rt: HostRuntime) {
    for (digits, xml) in MESSAGES {
        is_read(&rt, rt.alloc(), xml, digits);
    }
}

/// What is written of this item is read as it.
fn is_read_again(rt: &impl Abort, alloc: Global, digits: &str) {
    let bytes = hex::decode(alloc, digits).expect(rt, "hex");
    let (tree, _) = read_tree(alloc, &bytes).expect(rt, "an item");
    let xml = to_xml(alloc, &tree).expect(rt, "memory");
    drop(tree);
    is_read(rt, alloc, xml.as_str(), digits);
}

#[test]
fn reading_undoes_writing(rt: HostRuntime) {
    for digits in VECTORS {
        is_read_again(&rt, rt.alloc(), digits);
    }
}
