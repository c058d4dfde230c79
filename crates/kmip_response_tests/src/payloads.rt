use kmip_response::{
    AttributeEditResponsePayload, CreateKeyPairResponsePayload, CreateResponsePayload,
    DiscoverVersionsResponsePayload, GetAttributeListResponsePayload, GetAttributesResponsePayload,
    GetResponsePayload, LocateResponsePayload, ProtocolVersion, QueryResponsePayload,
    RNGRetrieveResponsePayload, RegisterResponsePayload, ResponseError, ResponseMessage,
    SignResponsePayload, UniqueIdentifierResponsePayload, from_slice,
};
use kmip_shape::{ReadRoot, ShowItem};
use kmip_test_messages::message;
use kmip_wire::{Text, TryClone};
use std::alloc::Global;
use std::process::Abort;

/// A structure in the notation, and what it shows as where it is read.
#[derive(Drop)]
struct Case {
    notation: &'static str,
    shown: Option<&'static str>,
}

/// The bytes of items in the notation of kmip_test_messages.
pub fn bytes_of(rt: &impl Abort, alloc: Global, notation: &str) -> Vec<u8> {
    message(alloc, notation).expect(rt, "the notation of messages")
}

/// The value of a structure, where it is read. Here and below each function ends the run where
/// something is wrong, so that no test has a way out at which it drops the values that it holds.
fn read<T: ReadRoot>(rt: &impl Abort, alloc: Global, notation: &str) -> Option<T> {
    let bytes = bytes_of(rt, alloc, notation);
    match from_slice::<T>(alloc, bytes.as_slice()) {
        Ok(value) => Some(value),
        Err(ResponseError::Unread) => None,
        Err(_) => panic!(rt; "{notation}: read otherwise"),
    }
}

/// The value is shown as this text, and has a copy that equals it.
fn is_shown<T: ShowItem + TryClone + PartialEq + Drop>(
    rt: &impl Abort,
    alloc: Global,
    value: &T,
    shown: &str,
) {
    let mut text = Text::new(alloc);
    value.show(alloc, &mut text).expect(rt, "memory");
    assert_eq!(rt; text.as_str(), shown);
    let copy = value.try_clone(alloc).expect(rt, "memory");
    assert!(rt; copy == *value, "{shown}");
}

/// Each structure is read exactly where it shows something, and what is read has a copy that equals it.
fn are_read<T: ReadRoot + ShowItem + TryClone + PartialEq>(
    rt: &impl Abort,
    alloc: Global,
    cases: &[Case],
) {
    for case in cases {
        let value = read::<T>(rt, alloc, case.notation);
        match case.shown {
            Some(shown) => is_shown(rt, alloc, &value.expect(rt, case.notation), shown),
            None => assert!(rt; value.is_none(), "{}", case.notation),
        }
    }
}

const CREATED: &[Case] = &[
    Case {
        notation: r#"7C{57 e2,94 "k1"}"#,
        shown: Some("{object_type=SymmetricKey,unique_identifier=\"k1\"}"),
    },
    Case {
        notation: r#"7C{94 "k1",57 e2,08{0A "State",0B e1}}"#,
        shown: Some(
            "{object_type=SymmetricKey,unique_identifier=\"k1\",object_attributes=[{name=\"State\",value=State(PreActive)}]}",
        ),
    },
    Case {
        notation: r#"7C{94 "k1"}"#,
        shown: None,
    },
    Case {
        notation: r#"7C{57 e2,94 "k1",94 "k2"}"#,
        shown: None,
    },
];

#[test]
fn reads_create(rt: HostRuntime) {
    are_read::<CreateResponsePayload>(&rt, rt.alloc(), CREATED);
}

const CREATED_PAIRS: &[Case] = &[Case {
    notation: r#"7C{66 "a",6F "b"}"#,
    shown: Some("{private_key_unique_identifier=\"a\",public_key_unique_identifier=\"b\"}"),
}];

#[test]
fn reads_create_key_pair(rt: HostRuntime) {
    are_read::<CreateKeyPairResponsePayload>(&rt, rt.alloc(), CREATED_PAIRS);
}

const REGISTERED: &[Case] = &[Case {
    notation: r#"7C{94 "k1",91{53{55 "n",54 e1},08{0A "x-a",09 i1,0B i5}}}"#,
    shown: Some(
        "{unique_identifier=\"k1\",template_attributes=[{name=[{name=\"n\",name_type=UninterpretedTextString}],attributes=[{name=\"x-a\",index=1,value=Integer(5)}]}]}",
    ),
}];

#[test]
fn reads_register(rt: HostRuntime) {
    are_read::<RegisterResponsePayload>(&rt, rt.alloc(), REGISTERED);
}

const LOCATED: &[Case] = &[
    Case {
        notation: "7C{}",
        shown: Some("{unique_identifiers=[]}"),
    },
    Case {
        notation: r#"7C{94 "a",94 "b"}"#,
        shown: Some("{unique_identifiers=[\"a\",\"b\"]}"),
    },
    Case {
        notation: "7C{94 i1}",
        shown: None,
    },
];

#[test]
fn reads_locate(rt: HostRuntime) {
    are_read::<LocateResponsePayload>(&rt, rt.alloc(), LOCATED);
}

const GOT: &[Case] = &[
    Case {
        notation: r#"7C{57 e2,94 "s1",8F{40{42 e1,45{43 x00112233445566778899AABBCCDDEEFF},28 e3,2A i128}}}"#,
        shown: Some(
            "{object_type=SymmetricKey,unique_identifier=\"s1\",cryptographic_object=SymmetricKey{key_block={key_format_type=Raw,key_value={key_material=Bytes(x\"00112233445566778899AABBCCDDEEFF\")},cryptographic_algorithm=AES,cryptographic_length=128}}}",
        ),
    },
    Case {
        notation: r#"7C{8F{40{42 e1,45{43 x00112233445566778899AABBCCDDEEFF},28 e3,2A i128}},94 "s1",57 e2}"#,
        shown: Some(
            "{object_type=SymmetricKey,unique_identifier=\"s1\",cryptographic_object=SymmetricKey{key_block={key_format_type=Raw,key_value={key_material=Bytes(x\"00112233445566778899AABBCCDDEEFF\")},cryptographic_algorithm=AES,cryptographic_length=128}}}",
        ),
    },
    Case {
        notation: r#"7C{57 e3,94 "s1",8F{40{42 e1,45{43 x00112233445566778899AABBCCDDEEFF},28 e3,2A i128}}}"#,
        shown: None,
    },
    Case {
        notation: r#"7C{57 e2,94 "s1"}"#,
        shown: None,
    },
    Case {
        notation: r#"7C{57 e7,94 "s1",8F{40{42 e1,45{43 x00112233445566778899AABBCCDDEEFF},28 e3,2A i128}}}"#,
        shown: None,
    },
    Case {
        notation: r#"7C{57 e1,94 "c1",13{1D e1,1E xAB}}"#,
        shown: Some(
            "{object_type=Certificate,unique_identifier=\"c1\",cryptographic_object=Certificate{certificate_type=X509,certificate_value=x\"AB\"}}",
        ),
    },
];

#[test]
fn reads_get(rt: HostRuntime) {
    are_read::<GetResponsePayload>(&rt, rt.alloc(), GOT);
}

const GOT_OTHER_KEYS: &[Case] = &[
    Case {
        notation: r#"7C{57 e2,94 "s1",8F{40{42 e1,45 xAABB,28 e3,2A i128,46{9E e1,36{94 "w1",2B{11 eD}}}}}}"#,
        shown: Some(
            "{object_type=SymmetricKey,unique_identifier=\"s1\",cryptographic_object=SymmetricKey{key_block={key_format_type=Raw,key_value={key_material=Wrapped(x\"AABB\")},cryptographic_algorithm=AES,cryptographic_length=128,key_wrapping_data={wrapping_method=Encrypt,encryption_key_information={unique_identifier=\"w1\",cryptographic_parameters={block_cipher_mode=NISTKeyWrap}}}}}}",
        ),
    },
    Case {
        notation: r#"7C{57 e3,94 "p1",6D{40{42 eB,45{43{52 b0000000000C5A1B3,6C b0000000000010001}}}}}"#,
        shown: Some(
            "{object_type=PublicKey,unique_identifier=\"p1\",cryptographic_object=PublicKey{key_block={key_format_type=TransparentRSAPublicKey,key_value={key_material=TransparentRSAPublicKey{modulus=x\"0000000000C5A1B3\",public_exponent=x\"0000000000010001\"}}}}}",
        ),
    },
];

#[test]
fn reads_get_of_other_keys(rt: HostRuntime) {
    are_read::<GetResponsePayload>(&rt, rt.alloc(), GOT_OTHER_KEYS);
}

const ATTRIBUTES_GOT: &[Case] = &[
    Case {
        notation: r#"7C{94 "k1",08{0A "Lease Time",0B n3600},08{0A "Cryptographic Usage Mask",0B i1}}"#,
        shown: Some(
            "{unique_identifier=\"k1\",attributes=[{name=\"Lease Time\",value=Interval(3600)},{name=\"Cryptographic Usage Mask\",value=Integer(1)}]}",
        ),
    },
    Case {
        notation: r#"7C{94 "k1",08{0A "State",0B i2}}"#,
        shown: None,
    },
];

#[test]
fn reads_get_attributes(rt: HostRuntime) {
    are_read::<GetAttributesResponsePayload>(&rt, rt.alloc(), ATTRIBUTES_GOT);
}

const ATTRIBUTE_NAMES: &[Case] = &[
    Case {
        notation: r#"7C{94 "2",0A "Name"}"#,
        shown: Some("{unique_identifier=\"2\",attributes=[\"Name\"]}"),
    },
    Case {
        notation: r#"7C{94 "2"}"#,
        shown: None,
    },
];

#[test]
fn reads_get_attribute_list(rt: HostRuntime) {
    are_read::<GetAttributeListResponsePayload>(&rt, rt.alloc(), ATTRIBUTE_NAMES);
}

const ATTRIBUTE_EDITED: &[Case] = &[Case {
    notation: r#"7C{94 "k1",08{0A "Name",0B{54 e1,55 "my key"}}}"#,
    shown: Some(
        "{unique_identifier=\"k1\",attribute={name=\"Name\",value=Name{name_value=\"my key\",name_type=UninterpretedTextString}}}",
    ),
}];

#[test]
fn reads_edited_attributes(rt: HostRuntime) {
    are_read::<AttributeEditResponsePayload>(&rt, rt.alloc(), ATTRIBUTE_EDITED);
}

const IDENTIFIED: &[Case] = &[
    Case {
        notation: r#"7C{94 "k1"}"#,
        shown: Some("{unique_identifier=\"k1\"}"),
    },
    Case {
        notation: "7C{}",
        shown: None,
    },
    Case {
        notation: r#"7C{94 "k1",540001{}}"#,
        shown: Some("{unique_identifier=\"k1\"}"),
    },
];

#[test]
fn reads_identifiers(rt: HostRuntime) {
    are_read::<UniqueIdentifierResponsePayload>(&rt, rt.alloc(), IDENTIFIED);
}

const QUERIED: &[Case] = &[
    Case {
        notation: r#"7C{5C e1,5C e18,57 e2,9D "x",88{9D "skipped"}}"#,
        shown: Some(
            "{operations=[Create,Query],object_types=[SymmetricKey],vendor_identification=\"x\"}",
        ),
    },
    Case {
        notation: "7C{}",
        shown: Some("{}"),
    },
];

#[test]
fn reads_query(rt: HostRuntime) {
    are_read::<QueryResponsePayload>(&rt, rt.alloc(), QUERIED);
}

const VERSIONS: &[Case] = &[Case {
    notation: "7C{69{6A i1,6B i2},69{6A i1,6B i0}}",
    shown: Some("{supported_versions=[{major=1,minor=2},{major=1,minor=0}]}"),
}];

#[test]
fn reads_discover_versions(rt: HostRuntime) {
    are_read::<DiscoverVersionsResponsePayload>(&rt, rt.alloc(), VERSIONS);
}

const SIGNED: &[Case] = &[Case {
    notation: r#"7C{94 "k1",C3 x0A0B}"#,
    shown: Some("{unique_identifier=\"k1\",signature_data=x\"0A0B\"}"),
}];

#[test]
fn reads_sign(rt: HostRuntime) {
    are_read::<SignResponsePayload>(&rt, rt.alloc(), SIGNED);
}

const RANDOM: &[Case] = &[Case {
    notation: "7C{C2 xDEADBEEF}",
    shown: Some("{random_bytes=x\"DEADBEEF\"}"),
}];

#[test]
fn reads_rng_retrieve(rt: HostRuntime) {
    are_read::<RNGRetrieveResponsePayload>(&rt, rt.alloc(), RANDOM);
}

/// The structure is shown in JSON so.
fn shows_json<T: ReadRoot + ShowItem>(
    rt: &impl Abort,
    alloc: Global,
    notation: &str,
    expected: &str,
) {
    let value = read::<T>(rt, alloc, notation).expect(rt, notation);
    let mut text = Text::new(alloc);
    value.show_json(alloc, &mut text).expect(rt, "memory");
    assert_eq!(rt; text.as_str(), expected);
    drop(value);
}

const KEY_JSON: &str =
    r#"{"object_type":"SymmetricKey","unique_identifier":"s1","cryptographic_object":{"SymmetricKey":{"key_block":{"key_format_type":"Raw","key_value":{"key_material":{"Bytes":"00112233445566778899AABBCCDDEEFF"}},"cryptographic_algorithm":"AES","cryptographic_length":128}}}}"#;

const CREATED_JSON: &str =
    r#"{"object_type":"SymmetricKey","unique_identifier":"k1","object_attributes":[{"name":"State","value":{"State":"PreActive"}}]}"#;

const SERVER_JSON: &str =
    r#"{"operations":["Create","Query"],"object_types":["SymmetricKey"],"vendor_identification":"x"}"#;

#[test]
fn payloads_are_shown_in_json(rt: HostRuntime) {
    let alloc = rt.alloc();
    let key =
        r#"7C{57 e2,94 "s1",8F{40{42 e1,45{43 x00112233445566778899AABBCCDDEEFF},28 e3,2A i128}}}"#;
    shows_json::<GetResponsePayload>(&rt, alloc, key, KEY_JSON);
    let created = r#"7C{94 "k1",57 e2,08{0A "State",0B e1}}"#;
    shows_json::<CreateResponsePayload>(&rt, alloc, created, CREATED_JSON);
    let server = r#"7C{5C e1,5C e18,57 e2,9D "x",88{9D "skipped"}}"#;
    shows_json::<QueryResponsePayload>(&rt, alloc, server, SERVER_JSON);
    shows_json::<LocateResponsePayload>(&rt, alloc, "7C{}", r#"{"unique_identifiers":[]}"#);
}

const VERSION: &str = "69{6A i1,6B i2}";

const MAJOR: &str = "6A i1";

/// What is read of the text as a value.
fn read_as<T: ReadRoot>(
    rt: &impl Abort,
    alloc: Global,
    notation: &str,
) -> Result<T, ResponseError> {
    from_slice::<T>(alloc, &bytes_of(rt, alloc, notation))
}

/// Whether a text is not read as a value for this cause.
fn fails_with<T: ReadRoot>(
    rt: &impl Abort,
    alloc: Global,
    notation: &str,
    cause: ResponseError,
) -> bool {
    match read_as::<T>(rt, alloc, notation) {
        Ok(value) => {
            drop(value);
            false
        }
        Err(error) => error == cause,
    }
}

#[test]
fn reads_the_item_at_the_front(rt: HostRuntime) {
    let alloc = rt.alloc();
    let version = read_as::<ProtocolVersion>(&rt, alloc, VERSION).expect(&rt, "a version");
    assert!(&rt; (version.major, version.minor) == (1, 2));
    let malformed = ResponseError::Malformed;
    assert!(&rt; fails_with::<ProtocolVersion>(&rt, alloc, MAJOR, malformed));
    assert!(&rt; fails_with::<ProtocolVersion>(&rt, alloc, "", malformed));
    let unread = ResponseError::Unread;
    assert!(&rt; fails_with::<ResponseMessage>(&rt, alloc, VERSION, unread));
}
