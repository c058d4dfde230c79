//! Each payload has the bytes that another program gave it. PyKMIP 0.10 wrote them, as
//! `payloads.GetRequestPayload(unique_identifier='49a1ca88').write(stream, kmip_version=KMIP_1_2)`;
//! those of Certify, which it does not have, were written by hand. The items stand in another order
//! than the fields.
use crate::support::{
    Attribute, AttributeValue, Given, Row, has_bytes, is_written, pair, row_of, text,
};
use kmip_enums::Operation;
use kmip_payloads::{Item, Scalar};
use kmip_tags::tags;
use kmip_wire::Node;

/// An item of the table.
macro_rules! item {
    ([$($outer:ident),*] $tag:ident, $value:expr) => {
        Given {
            path: &[$(tags::$outer),*],
            tag: tags::$tag,
            value: $value,
        }
    };
}

const ROWS: &[Row] = &[
    Row {
        name: "Get",
        operation: Operation::Get,
        items: &[item!([] UNIQUE_IDENTIFIER, Scalar::TextString("49a1ca88"))],
        attributes: &[],
        hex: "420079010000001042009407000000083439613163613838",
    },
    Row {
        name: "Get, wrapped",
        operation: Operation::Get,
        items: &[
            item!(
                [KEY_WRAPPING_SPECIFICATION]
                ATTRIBUTE_NAME, Scalar::TextString("Cryptographic Usage Mask")
            ),
            item!([KEY_WRAPPING_SPECIFICATION] ENCODING_OPTION, Scalar::Enumeration(1)),
            item!(
                [KEY_WRAPPING_SPECIFICATION, ENCRYPTION_KEY_INFORMATION, CRYPTOGRAPHIC_PARAMETERS]
                BLOCK_CIPHER_MODE, Scalar::Enumeration(13)
            ),
            item!(
                [KEY_WRAPPING_SPECIFICATION, ENCRYPTION_KEY_INFORMATION]
                UNIQUE_IDENTIFIER, Scalar::TextString("kek")
            ),
            item!([KEY_WRAPPING_SPECIFICATION] WRAPPING_METHOD, Scalar::Enumeration(1)),
            item!([KEY_WRAPPING_SPECIFICATION] ATTRIBUTE_NAME, Scalar::TextString("Name")),
            item!([] KEY_FORMAT_TYPE, Scalar::Enumeration(1)),
            item!([] UNIQUE_IDENTIFIER, Scalar::TextString("49a1ca88")),
        ],
        attributes: &[],
        hex: "42007901000000A84200940700000008343961316361383842004205000000040000000100000000420047010000008042009E05000000040000000100000000420036010000002842009407000000036B656B000000000042002B010000001042001105000000040000000D0000000042000A070000001843727970746F67726170686963205573616765204D61736B42000A07000000044E616D65000000004200A305000000040000000100000000",
    },
    Row {
        name: "Derive Key, without parameters",
        operation: Operation::DeriveKey,
        items: &[
            item!([] OBJECT_TYPE, Scalar::Enumeration(2)),
            item!([] UNIQUE_IDENTIFIER, Scalar::TextString("1")),
            item!([] DERIVATION_METHOD, Scalar::Enumeration(2)),
        ],
        attributes: &[],
        hex: "420079010000004042005705000000040000000200000000420094070000000131000000000000004200310500000004000000020000000042003201000000004200910100000000",
    },
    Row {
        name: "Derive Key, by PBKDF2",
        operation: Operation::DeriveKey,
        items: &[
            item!([] OBJECT_TYPE, Scalar::Enumeration(7)),
            item!([] UNIQUE_IDENTIFIER, Scalar::TextString("1")),
            item!([DERIVATION_PARAMETERS] ITERATION_COUNT, Scalar::Integer(4096)),
            item!(
                [DERIVATION_PARAMETERS]
                SALT, Scalar::ByteString(&[0x11, 0x22, 0x33, 0x44, 0x55, 0x66, 0x77, 0x88])
            ),
            item!([DERIVATION_PARAMETERS] DERIVATION_DATA, Scalar::ByteString(&[0xAA, 0xBB, 0xCC])),
            item!([DERIVATION_PARAMETERS] INITIALIZATION_VECTOR, Scalar::ByteString(&[1, 2])),
            item!(
                [DERIVATION_PARAMETERS, CRYPTOGRAPHIC_PARAMETERS]
                HASHING_ALGORITHM, Scalar::Enumeration(6)
            ),
            item!([] UNIQUE_IDENTIFIER, Scalar::TextString("22")),
            item!([] DERIVATION_METHOD, Scalar::Enumeration(1)),
        ],
        attributes: &[Attribute {
            path: &[tags::TEMPLATE_ATTRIBUTE],
            name: "Cryptographic Length",
            value: AttributeValue::Integer(256),
        }],
        hex: "42007901000000E042005705000000040000000700000000420094070000000131000000000000004200940700000002323200000000000042003105000000040000000100000000420032010000005842002B01000000104200380500000004000000060000000042003A080000000201020000000000004200300800000003AABBCC00000000004200840800000008112233445566778842003C020000000400001000000000004200910100000038420008010000003042000A070000001443727970746F67726170686963204C656E6774680000000042000B02000000040000010000000000",
    },
    Row {
        name: "Create, of three attributes",
        operation: Operation::Create,
        items: &[item!([] OBJECT_TYPE, Scalar::Enumeration(2))],
        attributes: &[
            Attribute {
                path: &[tags::TEMPLATE_ATTRIBUTE],
                name: "Cryptographic Algorithm",
                value: AttributeValue::Enumeration(3),
            },
            Attribute {
                path: &[tags::TEMPLATE_ATTRIBUTE],
                name: "Cryptographic Length",
                value: AttributeValue::Integer(128),
            },
            Attribute {
                path: &[tags::TEMPLATE_ATTRIBUTE],
                name: "Cryptographic Usage Mask",
                value: AttributeValue::Integer(12),
            },
        ],
        hex: "42007901000000C04200570500000004000000020000000042009101000000A8420008010000003042000A070000001743727970746F6772617068696320416C676F726974686D0042000B05000000040000000300000000420008010000003042000A070000001443727970746F67726170686963204C656E6774680000000042000B02000000040000008000000000420008010000003042000A070000001843727970746F67726170686963205573616765204D61736B42000B02000000040000000C00000000",
    },
    Row {
        name: "Encrypt",
        operation: Operation::Encrypt,
        items: &[
            item!([] UNIQUE_IDENTIFIER, Scalar::TextString("7")),
            item!([] DATA, Scalar::ByteString(b"hello")),
            item!([] IV_COUNTER_NONCE, Scalar::ByteString(&[0; 12])),
            item!([CRYPTOGRAPHIC_PARAMETERS] TAG_LENGTH, Scalar::Integer(128)),
            item!([CRYPTOGRAPHIC_PARAMETERS] IV_LENGTH, Scalar::Integer(96)),
            item!([CRYPTOGRAPHIC_PARAMETERS] RANDOM_IV, Scalar::Boolean(true)),
            item!([CRYPTOGRAPHIC_PARAMETERS] CRYPTOGRAPHIC_ALGORITHM, Scalar::Enumeration(3)),
            item!([CRYPTOGRAPHIC_PARAMETERS] PADDING_METHOD, Scalar::Enumeration(1)),
            item!([CRYPTOGRAPHIC_PARAMETERS] BLOCK_CIPHER_MODE, Scalar::Enumeration(9)),
        ],
        attributes: &[],
        hex: "42007901000000A04200940700000001370000000000000042002B01000000604200110500000004000000090000000042005F05000000040000000100000000420028050000000400000003000000004200C5060000000800000000000000014200CD020000000400000060000000004200CE020000000400000080000000004200C2080000000568656C6C6F00000042003D080000000C00000000000000000000000000000000",
    },
    Row {
        name: "Locate",
        operation: Operation::Locate,
        items: &[
            item!([] OBJECT_GROUP_MEMBER, Scalar::Enumeration(1)),
            item!([] STORAGE_STATUS_MASK, Scalar::Integer(1)),
            item!([] MAXIMUM_ITEMS, Scalar::Integer(10)),
        ],
        attributes: &[
            Attribute {
                path: &[],
                name: "Object Group",
                value: AttributeValue::Text("tls"),
            },
            Attribute {
                path: &[],
                name: "State",
                value: AttributeValue::Enumeration(2),
            },
        ],
        hex: "420079010000008842004F02000000040000000A0000000042008E020000000400000001000000004200AC05000000040000000100000000420008010000002842000A070000000C4F626A6563742047726F75700000000042000B0700000003746C730000000000420008010000002042000A0700000005537461746500000042000B05000000040000000200000000",
    },
    Row {
        name: "Register, of Secret Data",
        operation: Operation::Register,
        items: &[
            item!([SECRET_DATA, KEY_BLOCK, KEY_VALUE] KEY_MATERIAL, Scalar::ByteString(b"secret!")),
            item!([SECRET_DATA, KEY_BLOCK] KEY_FORMAT_TYPE, Scalar::Enumeration(2)),
            item!([SECRET_DATA] SECRET_DATA_TYPE, Scalar::Enumeration(1)),
            item!([] OBJECT_TYPE, Scalar::Enumeration(7)),
        ],
        attributes: &[],
        hex: "4200790100000060420057050000000400000007000000004200910100000000420085010000004042008605000000040000000100000000420040010000002842004205000000040000000200000000420045010000001042004308000000077365637265742100",
    },
    Row {
        name: "Create Key Pair",
        operation: Operation::CreateKeyPair,
        items: &[],
        attributes: &[
            Attribute {
                path: &[tags::PUBLIC_KEY_TEMPLATE_ATTRIBUTE],
                name: "Cryptographic Usage Mask",
                value: AttributeValue::Integer(2),
            },
            Attribute {
                path: &[tags::PRIVATE_KEY_TEMPLATE_ATTRIBUTE],
                name: "Cryptographic Usage Mask",
                value: AttributeValue::Integer(1),
            },
            Attribute {
                path: &[tags::COMMON_TEMPLATE_ATTRIBUTE],
                name: "Cryptographic Algorithm",
                value: AttributeValue::Enumeration(4),
            },
            Attribute {
                path: &[tags::COMMON_TEMPLATE_ATTRIBUTE],
                name: "Cryptographic Length",
                value: AttributeValue::Integer(2048),
            },
        ],
        hex: "42007901000000F842001F0100000070420008010000003042000A070000001743727970746F6772617068696320416C676F726974686D0042000B05000000040000000400000000420008010000003042000A070000001443727970746F67726170686963204C656E6774680000000042000B020000000400000800000000004200650100000038420008010000003042000A070000001843727970746F67726170686963205573616765204D61736B42000B0200000004000000010000000042006E0100000038420008010000003042000A070000001843727970746F67726170686963205573616765204D61736B42000B02000000040000000200000000",
    },
    Row {
        name: "Check",
        operation: Operation::Check,
        items: &[
            item!([] LEASE_TIME, Scalar::Interval(3600)),
            item!([] CRYPTOGRAPHIC_USAGE_MASK, Scalar::Integer(1)),
            item!([] USAGE_LIMITS_COUNT, Scalar::LongInteger(0x100_0000_0000)),
            item!([] UNIQUE_IDENTIFIER, Scalar::TextString("7")),
        ],
        attributes: &[],
        hex: "4200790100000040420094070000000137000000000000004200960300000008000001000000000042002C020000000400000001000000004200490A0000000400000E1000000000",
    },
    Row {
        name: "Get Attributes",
        operation: Operation::GetAttributes,
        items: &[
            item!([] ATTRIBUTE_NAME, Scalar::TextString("State")),
            item!([] ATTRIBUTE_NAME, Scalar::TextString("Name")),
            item!([] UNIQUE_IDENTIFIER, Scalar::TextString("7")),
        ],
        attributes: &[],
        hex: "42007901000000304200940700000001370000000000000042000A0700000005537461746500000042000A07000000044E616D6500000000",
    },
    Row {
        name: "Certify",
        operation: Operation::Certify,
        items: &[
            item!([] CERTIFICATE_REQUEST, Scalar::ByteString(&[0x30, 3, 2, 1, 0])),
            item!([] CERTIFICATE_REQUEST_TYPE, Scalar::Enumeration(2)),
            item!([] UNIQUE_IDENTIFIER, Scalar::TextString("3")),
        ],
        attributes: &[Attribute {
            path: &[tags::TEMPLATE_ATTRIBUTE],
            name: "Operation Policy Name",
            value: AttributeValue::Text("default"),
        }],
        hex: "42007901000000704200940700000001330000000000000042001905000000040000000200000000420018080000000530030201000000004200910100000038420008010000003042000A07000000154F7065726174696F6E20506F6C696379204E616D6500000042000B070000000764656661756C7400",
    },
];

#[test]
fn payloads_have_their_bytes(rt: HostRuntime) {
    for row in ROWS {
        is_written(&rt, rt.alloc(), row);
    }
}

/// Locate by a name, whose value is a structure: a whole tree.
#[test]
fn an_attribute_is_a_whole_tree(rt: HostRuntime) {
    let alloc = rt.alloc();
    let value = pair(
        &rt,
        alloc,
        tags::ATTRIBUTE_VALUE,
        (tags::NAME_VALUE, Node::TextString(text(&rt, alloc, "root"))),
        (tags::NAME_TYPE, Node::Enumeration(1)),
    );
    let name = Node::TextString(text(&rt, alloc, "Name"));
    let attribute = pair(
        &rt,
        alloc,
        tags::ATTRIBUTE,
        (tags::ATTRIBUTE_NAME, name),
        (tags::ATTRIBUTE_VALUE, value.node),
    );
    has_bytes(
        &rt,
        alloc,
        "Locate, by a name",
        row_of(&rt, Operation::Locate),
        &[Item::of_tree(&[], &attribute)],
        "4200790100000040420008010000003842000A07000000044E616D650000000042000B01000000204200550700000004726F6F740000000042005405000000040000000100000000",
    );
}
