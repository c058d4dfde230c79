//! Items as bytes in hex and as XML, both written by hand.
use kmip_encodings::to_xml;
use kmip_wire::read_tree;
use std::alloc::Global;
use std::process::Abort;

const ROWS: &[(&str, &str)] = &[
    (
        "42002002000000040000000800000000",
        r#"<CompromiseDate type="Integer" value="8"/>"#,
    ),
    (
        "420020030000000801B69B4BA5749200",
        r#"<CompromiseDate type="LongInteger" value="123456789000000000"/>"#,
    ),
    (
        "42002004000000100000000003FD35EB6BC2DF4618080000",
        r#"<CompromiseDate type="BigInteger" value="0000000003FD35EB6BC2DF4618080000"/>"#,
    ),
    (
        "42002006000000080000000000000001",
        r#"<CompromiseDate type="Boolean" value="true"/>"#,
    ),
    (
        "42002008000000030102030000000000",
        r#"<CompromiseDate type="ByteString" value="010203"/>"#,
    ),
    (
        "4200200A00000004000D2F0000000000",
        r#"<CompromiseDate type="Interval" value="864000"/>"#,
    ),
    (
        "42007B01000000A842007A0100000048420069010000002042006A0200000004000000010000000042006B020000000400000002000000004200920900000008000000004F9A54E742000D0200000004000000010000000042000F010000005042005C0500000004000000140000000042007F0500000004000000010000000042007E0500000004000000010000000042007D0700000017436F756C64206E6F74206C6F63617465206F626A65637400",
        r#"<ResponseMessage><ResponseHeader><ProtocolVersion><ProtocolVersionMajor type="Integer" value="1"/><ProtocolVersionMinor type="Integer" value="2"/></ProtocolVersion><TimeStamp type="DateTime" value="2012-04-27T08:12:23+00:00"/><BatchCount type="Integer" value="1"/></ResponseHeader><BatchItem><Operation type="Enumeration" value="Destroy"/><ResultStatus type="Enumeration" value="OperationFailed"/><ResultReason type="Enumeration" value="ItemNotFound"/><ResultMessage type="TextString" value="Could not locate object"/></BatchItem></ResponseMessage>"#,
    ),
    (
        "5400010100000028540002010000000042007D07000000133C612026202262223E0909C3A90D0AE282AC010000000000",
        "<TTLV tag=\"0x540001\"><TTLV tag=\"0x540002\"></TTLV><ResultMessage type=\"TextString\" value=\"&lt;a &amp; &quot;b&quot;&gt;&#9;&#9;\u{e9}&#13;&#10;\u{20ac}\u{fffd}\"/></TTLV>",
    ),
    (
        "420094070000000AEFBFBEEFBFBFF48FBFBF000000000000",
        "<UniqueIdentifier type=\"TextString\" value=\"\u{fffd}\u{fffd}\u{10ffff}\"/>",
    ),
    // Masks have the names of their bits, and bits without a name are in hex.
    (
        "42002C02000000040000100C00000000",
        r#"<CryptographicUsageMask type="Integer" value="Encrypt Decrypt CertificateSign"/>"#,
    ),
    (
        "42002C02000000040010000400000000",
        r#"<CryptographicUsageMask type="Integer" value="Encrypt 0x00100000"/>"#,
    ),
    (
        "42002C02000000040000000000000000",
        r#"<CryptographicUsageMask type="Integer" value="0"/>"#,
    ),
    (
        "42008E02000000040000000300000000",
        r#"<StorageStatusMask type="Integer" value="OnLineStorage ArchivalStorage"/>"#,
    ),
    (
        "420008010000003042000A070000001843727970746F67726170686963205573616765204D61736B42000B02000000040000000C00000000",
        r#"<Attribute><AttributeName type="TextString" value="Cryptographic Usage Mask"/><AttributeValue type="Integer" value="Encrypt Decrypt"/></Attribute>"#,
    ),
    // A value of an attribute has the name that the attribute's values have.
    (
        "420008010000002042000A0700000005537461746500000042000B05000000040000000200000000",
        r#"<Attribute><AttributeName type="TextString" value="State"/><AttributeValue type="Enumeration" value="Active"/></Attribute>"#,
    ),
];

/// The item of these bytes in hex is written as this XML.
fn is_written(rt: &impl Abort, alloc: Global, digits: &str, xml: &str) {
    let bytes = hex::decode(alloc, digits).expect(rt, "hex");
    let (tree, _) = read_tree(alloc, &bytes).expect(rt, "an item");
    let text = to_xml(alloc, &tree).expect(rt, "memory");
    drop(tree);
    assert_eq!(rt; text.as_str(), xml);
}

#[test]
fn items_are_written_as_xml(rt: HostRuntime) {
    for (digits, xml) in ROWS {
        is_written(&rt, rt.alloc(), digits, xml);
    }
}
