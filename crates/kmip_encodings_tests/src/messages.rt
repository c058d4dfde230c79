//! Items as bytes in hex and as JSON, both written by hand.

/// An item in both encodings.
pub(crate) struct Row {
    pub(crate) hex: &'static str,
    pub(crate) json: &'static str,
}

/// The items of KMIP 1.0, 9.1.2, each with the tag 0x420020.
pub(crate) const EXAMPLES: &[Row] = &[
    Row {
        hex: "42002002000000040000000800000000",
        json: r#"{"tag":"CompromiseDate","type":"Integer","value":8}"#,
    },
    Row {
        hex: "420020030000000801B69B4BA5749200",
        json: r#"{"tag":"CompromiseDate","type":"LongInteger","value":"0x01B69B4BA5749200"}"#,
    },
    Row {
        hex: "42002004000000100000000003FD35EB6BC2DF4618080000",
        json: r#"{"tag":"CompromiseDate","type":"BigInteger","value":"0x0000000003FD35EB6BC2DF4618080000"}"#,
    },
    Row {
        hex: "4200200500000004000000FF00000000",
        json: r#"{"tag":"CompromiseDate","type":"Enumeration","value":"0x000000FF"}"#,
    },
    Row {
        hex: "42002006000000080000000000000001",
        json: r#"{"tag":"CompromiseDate","type":"Boolean","value":true}"#,
    },
    Row {
        hex: "420020070000000B48656C6C6F20576F726C640000000000",
        json: r#"{"tag":"CompromiseDate","type":"TextString","value":"Hello World"}"#,
    },
    Row {
        hex: "42002008000000030102030000000000",
        json: r#"{"tag":"CompromiseDate","type":"ByteString","value":"010203"}"#,
    },
    Row {
        hex: "42002009000000080000000047DA67F8",
        json: r#"{"tag":"CompromiseDate","type":"DateTime","value":"2008-03-14T11:56:40+00:00"}"#,
    },
    Row {
        hex: "4200200A00000004000D2F0000000000",
        json: r#"{"tag":"CompromiseDate","type":"Interval","value":864000}"#,
    },
    Row {
        hex: "42002001000000204200040500000004000000FE000000004200050200000004000000FF00000000",
        json: r#"{"tag":"CompromiseDate","value":[{"tag":"ApplicationSpecificInformation","type":"Enumeration","value":"0x000000FE"},{"tag":"ArchiveDate","type":"Integer","value":255}]}"#,
    },
];

/// Whole messages.
pub(crate) const MESSAGES: &[Row] = &[
    // Locate by an Object Type.
    Row {
        hex: "42007801000000904200770100000038420069010000002042006A0200000004000000010000000042006B0200000004000000000000000042000D0200000004000000010000000042000F010000004842005C050000000400000008000000004200790100000030420008010000002842000A070000000B4F626A6563742054797065000000000042000B05000000040000000400000000",
        json: r#"{"tag":"RequestMessage","value":[{"tag":"RequestHeader","value":[{"tag":"ProtocolVersion","value":[{"tag":"ProtocolVersionMajor","type":"Integer","value":1},{"tag":"ProtocolVersionMinor","type":"Integer","value":0}]},{"tag":"BatchCount","type":"Integer","value":1}]},{"tag":"BatchItem","value":[{"tag":"Operation","type":"Enumeration","value":"Locate"},{"tag":"RequestPayload","value":[{"tag":"Attribute","value":[{"tag":"AttributeName","type":"TextString","value":"Object Type"},{"tag":"AttributeValue","type":"Enumeration","value":"PrivateKey"}]}]}]}]}"#,
    },
    // A failure.
    Row {
        hex: "42007B01000000A842007A0100000048420069010000002042006A0200000004000000010000000042006B020000000400000002000000004200920900000008000000004F9A54E742000D0200000004000000010000000042000F010000005042005C0500000004000000140000000042007F0500000004000000010000000042007E0500000004000000010000000042007D0700000017436F756C64206E6F74206C6F63617465206F626A65637400",
        json: r#"{"tag":"ResponseMessage","value":[{"tag":"ResponseHeader","value":[{"tag":"ProtocolVersion","value":[{"tag":"ProtocolVersionMajor","type":"Integer","value":1},{"tag":"ProtocolVersionMinor","type":"Integer","value":2}]},{"tag":"TimeStamp","type":"DateTime","value":"2012-04-27T08:12:23+00:00"},{"tag":"BatchCount","type":"Integer","value":1}]},{"tag":"BatchItem","value":[{"tag":"Operation","type":"Enumeration","value":"Destroy"},{"tag":"ResultStatus","type":"Enumeration","value":"OperationFailed"},{"tag":"ResultReason","type":"Enumeration","value":"ItemNotFound"},{"tag":"ResultMessage","type":"TextString","value":"Could not locate object"}]}]}"#,
    },
    // The payload of a request to create a key.
    Row {
        hex: "4200790100000088420057050000000400000002000000004200910100000070420008010000003042000A070000001743727970746F6772617068696320416C676F726974686D0042000B05000000040000000300000000420008010000003042000A070000001843727970746F67726170686963205573616765204D61736B42000B02000000040000000C00000000",
        json: r#"{"tag":"RequestPayload","value":[{"tag":"ObjectType","type":"Enumeration","value":"SymmetricKey"},{"tag":"TemplateAttribute","value":[{"tag":"Attribute","value":[{"tag":"AttributeName","type":"TextString","value":"Cryptographic Algorithm"},{"tag":"AttributeValue","type":"Enumeration","value":"AES"}]},{"tag":"Attribute","value":[{"tag":"AttributeName","type":"TextString","value":"Cryptographic Usage Mask"},{"tag":"AttributeValue","type":"Integer","value":"Encrypt|Decrypt"}]}]}]}"#,
    },
    // Cryptographic parameters with names of several tables.
    Row {
        hex: "42002B01000000804200110500000004000000010000000042005F0500000004000000030000000042003805000000040000000600000000420083050000000400000001000000004200AE0500000004000000050000000042002805000000040000000400000000420028050000000400000007000000004200C506000000080000000000000000",
        json: r#"{"tag":"CryptographicParameters","value":[{"tag":"BlockCipherMode","type":"Enumeration","value":"CBC"},{"tag":"PaddingMethod","type":"Enumeration","value":"PKCS5"},{"tag":"HashingAlgorithm","type":"Enumeration","value":"SHA_256"},{"tag":"KeyRoleType","type":"Enumeration","value":"BDK"},{"tag":"DigitalSignatureAlgorithm","type":"Enumeration","value":"SHA_256WithRSAEncryptionPKCS_1V1_5"},{"tag":"CryptographicAlgorithm","type":"Enumeration","value":"RSA"},{"tag":"CryptographicAlgorithm","type":"Enumeration","value":"HMAC_SHA1"},{"tag":"RandomIV","type":"Boolean","value":false}]}"#,
    },
    // An item whose tag has no name, empty values, and a text with characters that are escaped.
    Row {
        hex: "54000101000000385400FF010000000042009407000000004200C20800000000420052040000000042007D07000000106122625C630AC3A9E282ACF09F949101",
        json: r#"{"tag":"0x540001","value":[{"tag":"0x5400FF","value":[]},{"tag":"UniqueIdentifier","type":"TextString","value":""},{"tag":"Data","type":"ByteString","value":""},{"tag":"Modulus","type":"BigInteger","value":"0x"},{"tag":"ResultMessage","type":"TextString","value":"a\"b\\c\né€🔑\u0001"}]}"#,
    },
    // Dates.
    Row {
        hex: "54000201000000C04200920900000008FFFFFFFFFFFFFFFF42009209000000080000000038BB0C004200920900000008FFFFFFFF7CA2A1404200920900000008FFFFFFFF7CA34A004200920900000008FFFFFFF1886E090042009209000000080000003AFFF4417F4200920900000008000000006774857F420092090000000800000000F4D41F8042009209000000080000003AFFF441804200920900000008800000000000000042009209000000087FFFFFFFFFFFFFFF4200920900000008FFFFFFF1886E08FF",
        json: r#"{"tag":"0x540002","value":[{"tag":"TimeStamp","type":"DateTime","value":"1969-12-31T23:59:59+00:00"},{"tag":"TimeStamp","type":"DateTime","value":"2000-02-29T00:00:00+00:00"},{"tag":"TimeStamp","type":"DateTime","value":"1900-02-28T12:00:00+00:00"},{"tag":"TimeStamp","type":"DateTime","value":"1900-03-01T00:00:00+00:00"},{"tag":"TimeStamp","type":"DateTime","value":"0001-01-01T00:00:00+00:00"},{"tag":"TimeStamp","type":"DateTime","value":"9999-12-31T23:59:59+00:00"},{"tag":"TimeStamp","type":"DateTime","value":"2024-12-31T23:59:59+00:00"},{"tag":"TimeStamp","type":"DateTime","value":"2100-03-01T00:00:00+00:00"},{"tag":"TimeStamp","type":"DateTime","value":"0x0000003AFFF44180"},{"tag":"TimeStamp","type":"DateTime","value":"0x8000000000000000"},{"tag":"TimeStamp","type":"DateTime","value":"0x7FFFFFFFFFFFFFFF"},{"tag":"TimeStamp","type":"DateTime","value":"0xFFFFFFF1886E08FF"}]}"#,
    },
    // Long Integers.
    Row {
        hex: "540003010000007042009A0300000008000FFFFFFFFFFFFF42009A0300000008001000000000000042009A0300000008FFF000000000000142009A0300000008FFF000000000000042009A0300000008002000000000000142009A0300000008800000000000000042009A03000000080000000000000000",
        json: r#"{"tag":"0x540003","value":[{"tag":"ValidityDate","type":"LongInteger","value":4503599627370495},{"tag":"ValidityDate","type":"LongInteger","value":"0x0010000000000000"},{"tag":"ValidityDate","type":"LongInteger","value":-4503599627370495},{"tag":"ValidityDate","type":"LongInteger","value":"0xFFF0000000000000"},{"tag":"ValidityDate","type":"LongInteger","value":"0x0020000000000001"},{"tag":"ValidityDate","type":"LongInteger","value":"0x8000000000000000"},{"tag":"ValidityDate","type":"LongInteger","value":0}]}"#,
    },
    // The ends of the ranges of numbers.
    Row {
        hex: "540004010000004042006A0200000004800000000000000042006A02000000047FFFFFFF0000000042006A0A00000004FFFFFFFF0000000042006A0A000000040000000000000000",
        json: r#"{"tag":"0x540004","value":[{"tag":"ProtocolVersionMajor","type":"Integer","value":-2147483648},{"tag":"ProtocolVersionMajor","type":"Integer","value":2147483647},{"tag":"ProtocolVersionMajor","type":"Interval","value":4294967295},{"tag":"ProtocolVersionMajor","type":"Interval","value":0}]}"#,
    },
    // An attribute's name says nothing of the values in other structures.
    Row {
        hex: "4200910100000038420008010000002042000A0700000005537461746500000042000B0500000004000000020000000042000B05000000040000000200000000",
        json: r#"{"tag":"TemplateAttribute","value":[{"tag":"Attribute","value":[{"tag":"AttributeName","type":"TextString","value":"State"},{"tag":"AttributeValue","type":"Enumeration","value":"Active"}]},{"tag":"AttributeValue","type":"Enumeration","value":"0x00000002"}]}"#,
    },
    // Masks have the names of their bits, and bits without a name are in hex; no other number has names.
    Row {
        hex: "540005010000008042002C02000000040000100C0000000042002C0200000004000000000000000042002C0200000004001000040000000042002C0200000004FFFFFFFF0000000042002C0200000004800000000000000042008E0200000004000000030000000042008E0200000004000000050000000042002A02000000040000000C00000000",
        json: r#"{"tag":"0x540005","value":[{"tag":"CryptographicUsageMask","type":"Integer","value":"Encrypt|Decrypt|CertificateSign"},{"tag":"CryptographicUsageMask","type":"Integer","value":0},{"tag":"CryptographicUsageMask","type":"Integer","value":"Encrypt|0x00100000"},{"tag":"CryptographicUsageMask","type":"Integer","value":"Sign|Verify|Encrypt|Decrypt|WrapKey|UnwrapKey|Export|MACGenerate|MACVerify|DeriveKey|ContentCommitmentNonRepudiation|KeyAgreement|CertificateSign|CRLSign|GenerateCryptogram|ValidateCryptogram|TranslateEncrypt|TranslateDecrypt|TranslateWrap|TranslateUnwrap|0xFFF00000"},{"tag":"CryptographicUsageMask","type":"Integer","value":"0x80000000"},{"tag":"StorageStatusMask","type":"Integer","value":"OnLineStorage|ArchivalStorage"},{"tag":"StorageStatusMask","type":"Integer","value":"OnLineStorage|0x00000004"},{"tag":"CryptographicLength","type":"Integer","value":12}]}"#,
    },
];

/// Items whose names are read, and written otherwise: kmip-protocol's names, numbers in hex, masks as
/// numbers, and attributes whose values have no name.
pub(crate) const READ: &[Row] = &[
    Row {
        hex: "42002C02000000040000100C00000000",
        json: r#"{"tag":"CryptographicUsageMask","type":"Integer","value":4108}"#,
    },
    Row {
        hex: "42002C02000000040000100C00000000",
        json: r#"{"tag":"CryptographicUsageMask","type":"Integer","value":"0x0000100c"}"#,
    },
    Row {
        hex: "42003805000000040000000600000000",
        json: r#"{"tag":"HashingAlgorithm","type":"Enumeration","value":"SHA256"}"#,
    },
    Row {
        hex: "42003805000000040000000600000000",
        json: r#"{"tag":"HashingAlgorithm","type":"Enumeration","value":"0x00000006"}"#,
    },
    Row {
        hex: "42005C05000000040000001D00000000",
        json: r#"{"tag":"Operation","type":"Enumeration","value":"RekeyKeyPair"}"#,
    },
    Row {
        hex: "42004105000000040000000200000000",
        json: r#"{"tag":"KeyCompressionType","type":"Enumeration","value":"ECPUblicKeyTypeX962CompressedPrime"}"#,
    },
    Row {
        hex: "4200AE05000000040000000800000000",
        json: r#"{"tag":"DigitalSignatureAlgorithm","type":"Enumeration","value":"RSASSA_PSS_PKCS1_v1_5"}"#,
    },
    // The attribute's name says which table its value is of, and an index may stand between.
    Row {
        hex: "420008010000004042000A070000001743727970746F6772617068696320416C676F726974686D004200090200000004000000000000000042000B05000000040000000200000000",
        json: r#"{"tag":"Attribute","value":[{"tag":"AttributeName","type":"TextString","value":"Cryptographic Algorithm"},{"tag":"AttributeIndex","type":"Integer","value":0},{"tag":"AttributeValue","type":"Enumeration","value":"TRIPLE_DES"}]}"#,
    },
    // An attribute of no table has a number alone.
    Row {
        hex: "420008010000002042000A0700000003782D61000000000042000B05000000040000000200000000",
        json: r#"{"tag":"Attribute","value":[{"tag":"AttributeName","type":"TextString","value":"x-a"},{"tag":"AttributeValue","type":"Enumeration","value":"0x00000002"}]}"#,
    },
];
