//! Each request is written as its canonical bytes.
//!
//! Memory is ample, so what makes a payload here has no error to pass on: that keeps the proof of
//! these functions short.

use crate::reading::{LOCATE, WITH_A_CREDENTIAL};
use crate::support::{are, blob, is_copied, read, text};
use bitflags::Flags;
use kmip_enums::{ObjectType, RevocationReasonCode};
use kmip_request::{
    Attribute, Authentication, CommonTemplateAttribute, EncryptionKeyInformation,
    IVOrCounterOrNonce, KeyBlock, KeyValue, KeyWrappingData, KeyWrappingSpecification,
    MACOrSignature, MACOrSignatureKeyInformation, ManagedObject, PrivateKey,
    PrivateKeyTemplateAttribute, PublicKeyTemplateAttribute, RequestPayload, RevocationReason,
    SymmetricKey, TemplateAttribute, to_vec, write_request_into,
};
use kmip_types::auth::{CredentialType, UsernameAndPasswordCredential};
use kmip_types::{
    AttributeIndex, AttributeName, AttributeValue, BlockCipherMode, CompromiseOccurrenceDate,
    CryptographicAlgorithm, CryptographicLength, CryptographicParameters, CryptographicUsageMask,
    Data, HashingAlgorithm, KeyCompressionType, KeyFormatType, KeyMaterial, PaddingMethod,
    RevocationMessage, UniqueIdentifier, Values, WrappingMethod,
};
use kmip_wire::{Boxed, Buffer, List, OutOfMemory, WireError};
use std::alloc::Global;
use std::process::Abort;

/// Requests, each with its name.
const REQUESTS: &[(&str, &str)] = &[
    (
        "Register, of a template",
        r#"REQ0(3, 57 e6,91{},90{08{0A "Object Group",0B "g"}})"#,
    ),
    (
        "Register, of a transparent key",
        "REQ0(3, 57 e3,91{},6D{40{42 eB,45{43{52 b0000000000C5A1B3,6C b0000000000010001}}}})",
    ),
    (
        "Locate, by an object type",
        r#"REQ0(8, 08{0A "Object Type",0B e4})"#,
    ),
    ("Get Attributes", r#"REQ0(B, 94 "k1",0A "Name",0A "State")"#),
    ("Get Attribute List", r#"REQ0(C, 94 "k1")"#),
    (
        "Add Attribute",
        r#"REQ0(D, 94 "k1",08{0A "Object Group",0B "g"})"#,
    ),
    (
        "Modify Attribute",
        r#"REQ0(E, 94 "k1",08{0A "Name",0B{55 "my key",54 e1}})"#,
    ),
    ("Activate", r#"REQ0(12, 94 "k1")"#),
    ("Activate, without an identifier", "REQ0(12, )"),
    ("Destroy", r#"REQ0(14, 94 "k1")"#),
    ("Query", "REQ2(18, 74 e1,74 e2,74 e3)"),
    ("Discover Versions", "REQ1(1E, 69{6A i1,6B i2})"),
    (
        "Create Key Pair, of RSA keys",
        r#"REQ0(2, 1F{08{0A "Cryptographic Algorithm",0B e4},08{0A "Cryptographic Length",0B i2048}},65{08{0A "Name",0B{55 "priv",54 e1}},08{0A "Cryptographic Usage Mask",0B i1}},6E{08{0A "Name",0B{55 "pub",54 e1}},08{0A "Cryptographic Usage Mask",0B i2}})"#,
    ),
    (
        "Register, of a private key",
        "REQ0(3, 57 e4,91{},64{40{42 e4,45{43 xCC}}})",
    ),
    ("Activate, of an empty identifier", r#"REQ0(12, 94 "")"#),
    ("Discover Versions, of none", "REQ1(1E, )"),
    (
        "Locate, by a Big Integer of eight bytes",
        r#"REQ0(8, 08{0A "x-a",0B b0000000000000000})"#,
    ),
    ("RNG Retrieve", "REQ2(25, C4 i16)"),
];

/// The payload of this name has a copy that equals it, and its request is written as these bytes.
fn is_written(rt: &impl Abort, alloc: Global, name: &str, payload: RequestPayload, notation: &str) {
    is_copied::<RequestPayload>(rt, alloc, name, &payload);
    let written = to_vec(alloc, payload, None).expect(rt, name);
    are(rt, alloc, written.as_slice(), notation);
}

/// The bytes are read as a request without a credential that is written as the same bytes.
fn is_read_and_written(rt: &impl Abort, alloc: Global, name: &str, notation: &str) {
    let (payload, credential) = read(rt, alloc, notation);
    assert!(rt; credential.is_none(), "{name}");
    is_written(rt, alloc, name, payload, notation);
}

#[test]
fn requests_are_read_and_written(rt: HostRuntime) {
    for (name, notation) in REQUESTS {
        is_read_and_written(&rt, rt.alloc(), name, notation);
    }
}

fn id(rt: &impl Abort, alloc: Global, id: &str) -> UniqueIdentifier {
    UniqueIdentifier(text(rt, alloc, id))
}

/// The attributes, and one more at the end.
fn and(
    rt: &impl Abort,
    attributes: List<Attribute>,
    more: Result<Attribute, OutOfMemory>,
) -> List<Attribute> {
    let mut attributes = attributes;
    attributes
        .push(more.expect(rt, "memory"))
        .expect(rt, "memory");
    attributes
}

const CREATE: &str =
    r#"REQ0(1, 57 e2,91{08{0A "Cryptographic Algorithm",0B e3},08{0A "Cryptographic Length",0B i128},08{0A "Cryptographic Usage Mask",0B i12}})"#;

#[test]
fn create(rt: HostRuntime) {
    let alloc = rt.alloc();
    let algorithm = Attribute::CryptographicAlgorithm(alloc, CryptographicAlgorithm::AES);
    let attributes = and(&rt, List::new(alloc), algorithm);
    let attributes = and(&rt, attributes, Attribute::CryptographicLength(alloc, 128));
    let uses = CryptographicUsageMask::Encrypt.union(CryptographicUsageMask::Decrypt);
    let attributes = and(
        &rt,
        attributes,
        Attribute::CryptographicUsageMask(alloc, uses),
    );
    let template = TemplateAttribute::unnamed(attributes);
    let payload = RequestPayload::Create(ObjectType::SymmetricKey, template);
    is_written(&rt, alloc, "create", payload, CREATE);
}

const CREATE_KEY_PAIR: &str =
    r#"REQ0(2, 1F{08{0A "Cryptographic Length",0B i2048}},65{53{55 "t",54 e1},08{0A "Name",0B{55 "a",54 e1}}},6E{08{0A "Name",0B{55 "b",54 e2}}})"#;

#[test]
fn create_key_pair(rt: HostRuntime) {
    let alloc = rt.alloc();
    let length = Attribute::CryptographicLength(alloc, 2048);
    let common = CommonTemplateAttribute::unnamed(and(&rt, List::new(alloc), length));
    let name = Attribute::Name(alloc, text(&rt, alloc, "a"));
    let private = and(&rt, List::new(alloc), name);
    let private = PrivateKeyTemplateAttribute::named(alloc, text(&rt, alloc, "t"), private);
    let private = private.expect(&rt, "memory");
    let name = Attribute::URI(alloc, text(&rt, alloc, "b"));
    let public = PublicKeyTemplateAttribute::unnamed(and(&rt, List::new(alloc), name));
    let payload = RequestPayload::CreateKeyPair(Some(common), Some(private), Some(public));
    is_written(&rt, alloc, "create key pair", payload, CREATE_KEY_PAIR);
}

/// A Register of this object with no attributes.
fn register(object_type: ObjectType, object: ManagedObject) -> RequestPayload {
    RequestPayload::Register(object_type, TemplateAttribute(None, None), Some(object))
}

const REGISTER_A_KEY: &str =
    r#"REQ0(3, 57 e2,91{},8F{40{42 e1,45{43 xCC},28 e3,2A i8,46{9E e1,36{94 "w1"},4D xAA,3D xBB}}})"#;

#[test]
fn register_a_key(rt: HostRuntime) {
    let alloc = rt.alloc();
    let wrapping = KeyWrappingData(
        WrappingMethod::Encrypt,
        Some(EncryptionKeyInformation(id(&rt, alloc, "w1"), None)),
        None,
        Some(MACOrSignature::new(blob(&rt, alloc, b"\xAA"))),
        Some(IVOrCounterOrNonce::new(blob(&rt, alloc, b"\xBB"))),
        None,
    );
    let block = KeyBlock(
        KeyFormatType::Raw,
        None,
        Some(KeyValue(KeyMaterial::Bytes(blob(&rt, alloc, b"\xCC")), None)),
        Some(CryptographicAlgorithm::AES),
        Some(CryptographicLength(8)),
        Some(wrapping),
    );
    let block = Boxed::new(alloc, block).expect(&rt, "memory");
    let payload = register(
        ObjectType::SymmetricKey,
        ManagedObject::SymmetricKey(SymmetricKey(block)),
    );
    is_written(&rt, alloc, "register a key", payload, REGISTER_A_KEY);
}

const GET: &str = r#"REQ0(A, 94 "k1",42 e1,41 e1,47{9E e1,36{94 "w1",2B{11 eD}},4E{94 "w2"}})"#;

#[test]
fn get(rt: HostRuntime) {
    let alloc = rt.alloc();
    let parameters = CryptographicParameters::default().with_block_cipher_mode(
        BlockCipherMode::NISTKeyWrap,
    );
    let specification = KeyWrappingSpecification(
        WrappingMethod::Encrypt,
        Some(EncryptionKeyInformation(id(&rt, alloc, "w1"), Some(parameters))),
        Some(MACOrSignatureKeyInformation(id(&rt, alloc, "w2"), None)),
        None,
    );
    let payload = RequestPayload::Get(
        Some(id(&rt, alloc, "k1")),
        Some(KeyFormatType::Raw),
        Some(KeyCompressionType::ECPUblicKeyTypeUncompressed),
        Some(Boxed::new(alloc, specification).expect(&rt, "memory")),
    );
    is_written(&rt, alloc, "get", payload, GET);
}

const AN_EMPTY_LIST_WRITES_NOTHING: &str = "REQ0(B, )";

#[test]
fn an_empty_list_writes_nothing(rt: HostRuntime) {
    let alloc = rt.alloc();
    let payload = RequestPayload::GetAttributes(None, Some(List::new(alloc)));
    is_written(
        &rt,
        alloc,
        "an empty list",
        payload,
        AN_EMPTY_LIST_WRITES_NOTHING,
    );
}

const DELETE_ATTRIBUTE: &str = r#"REQ0(F, 94 "k1",0A "x-a",09 i1)"#;

#[test]
fn delete_attribute(rt: HostRuntime) {
    let alloc = rt.alloc();
    let name = AttributeName(text(&rt, alloc, "x-a"));
    let payload = RequestPayload::DeleteAttribute(
        Some(id(&rt, alloc, "k1")),
        name,
        Some(AttributeIndex(1)),
    );
    is_written(&rt, alloc, "delete attribute", payload, DELETE_ATTRIBUTE);
}

const REVOKE: &str = r#"REQ0(13, 94 "k1",81{82 e6,80 "why"},21 d5)"#;

#[test]
fn revoke(rt: HostRuntime) {
    let alloc = rt.alloc();
    let message = RevocationMessage(text(&rt, alloc, "why"));
    let reason = RevocationReason(RevocationReasonCode::CessationOfOperation, Some(message));
    let payload = RequestPayload::Revoke(
        Some(id(&rt, alloc, "k1")),
        reason,
        Some(CompromiseOccurrenceDate(5)),
    );
    is_written(&rt, alloc, "revoke", payload, REVOKE);
}

const SIGN: &str = r#"REQ2(21, 94 "k1",2B{5F e8,38 e6,28 e4},C2 x0102)"#;

#[test]
fn sign(rt: HostRuntime) {
    let alloc = rt.alloc();
    let parameters = CryptographicParameters::default()
        .with_padding_method(PaddingMethod::PKCS1_v1_5)
        .with_hashing_algorithm(HashingAlgorithm::SHA256)
        .with_cryptographic_algorithm(CryptographicAlgorithm::RSA);
    let data = Data(blob(&rt, alloc, b"\x01\x02"));
    let payload = RequestPayload::Sign(Some(id(&rt, alloc, "k1")), Some(parameters), data);
    is_written(&rt, alloc, "sign", payload, SIGN);
}

/// The request has no form.
fn has_no_form(rt: &impl Abort, alloc: Global, payload: RequestPayload) {
    let error = to_vec(alloc, payload, None).err();
    assert!(rt; error == Some(WireError::NoForm));
}

/// A request with an attribute of this value has no form.
fn attribute_has_no_form(rt: &impl Abort, alloc: Global, value: AttributeValue) {
    let name = AttributeName(text(rt, alloc, "x-a"));
    let attributes = and(rt, List::new(alloc), Ok(Attribute(name, None, value)));
    has_no_form(rt, alloc, RequestPayload::Locate(attributes));
}

#[test]
fn without_a_form(rt: HostRuntime) {
    let alloc = rt.alloc();
    let mut members = Values::new(alloc);
    let member = AttributeValue::Structure(Values::new(alloc));
    members.push(member).expect(&rt, "memory");
    attribute_has_no_form(&rt, alloc, AttributeValue::Structure(members));
    let number = AttributeValue::BigInteger(blob(&rt, alloc, &[0; 7]));
    attribute_has_no_form(&rt, alloc, number);
}

#[test]
fn wrapped_material_has_no_form(rt: HostRuntime) {
    let alloc = rt.alloc();
    let material = KeyMaterial::Wrapped(blob(&rt, alloc, b"\xAA"));
    let value = Some(KeyValue(material, None));
    let block = KeyBlock(KeyFormatType::Raw, None, value, None, None, None);
    let block = Boxed::new(alloc, block).expect(&rt, "memory");
    let key = ManagedObject::PrivateKey(PrivateKey(block));
    has_no_form(&rt, alloc, register(ObjectType::PrivateKey, key));
}

/// What is written into a buffer stands in place of what it held.
fn is_written_into(
    rt: &impl Abort,
    alloc: Global,
    payload: &RequestPayload,
    authentication: &Option<Authentication>,
    out: &mut Buffer,
    notation: &str,
) {
    write_request_into(payload, authentication, out).expect(rt, notation);
    are(rt, alloc, out.as_slice(), notation);
}

/// The authentication by this username and password.
fn authentication(
    rt: &impl Abort,
    alloc: Global,
    username: &str,
    password: &str,
) -> Option<Authentication> {
    let password = Some(text(rt, alloc, password));
    let user = UsernameAndPasswordCredential::new(text(rt, alloc, username), password);
    Some(Authentication::build(CredentialType::UsernameAndPassword(user)))
}

#[test]
fn one_buffer_for_three_requests(rt: HostRuntime) {
    let alloc = rt.alloc();
    let authentication = authentication(&rt, alloc, "alice", "secret");
    let (payload, _) = read(&rt, alloc, LOCATE);
    let mut out = Buffer::new(alloc);
    is_written_into(&rt, alloc, &payload, &None, &mut out, LOCATE);
    is_written_into(
        &rt,
        alloc,
        &payload,
        &authentication,
        &mut out,
        WITH_A_CREDENTIAL,
    );
    is_written_into(&rt, alloc, &payload, &None, &mut out, LOCATE);
    drop(payload);
}
