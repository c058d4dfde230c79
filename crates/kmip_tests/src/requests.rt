//! Requests, each type read, written again and copied once.
use crate::helpers::{is_written, is_written_alone};
use kmip_request::{
    Attribute, Authentication, BatchCount, BatchItem, CommonTemplateAttribute, Credential,
    CredentialValue, EncryptionKeyInformation, IVOrCounterOrNonce, KeyBlock, KeyValue,
    KeyWrappingData, KeyWrappingSpecification, MACOrSignature, MACOrSignatureKeyInformation,
    ManagedObject, MaximumResponseSize, Name, Password, PrivateKey, PrivateKeyTemplateAttribute,
    ProtocolVersion, ProtocolVersionMajor, ProtocolVersionMinor, PublicKey,
    PublicKeyTemplateAttribute, RequestHeader, RequestMessage, RequestPayload, RevocationReason,
    SymmetricKey, Template, TemplateAttribute, Username,
};

#[test]
fn attributes_and_templates(rt: HostRuntime) {
    let alloc = rt.alloc();
    let notation = "53{55 \"n\",54 e1}";
    is_written::<Name>(&rt, alloc, None, notation);
    let notation = "08{0A \"x-a\",09 i1,0B i5}";
    is_written::<Attribute>(&rt, alloc, None, notation);
    let notation = "91{53{55 \"n\",54 e1},08{0A \"x-a\",09 i1,0B i5}}";
    is_written::<TemplateAttribute>(&rt, alloc, None, notation);
    let notation = "1F{53{55 \"n\",54 e1},08{0A \"x-a\",09 i1,0B i5}}";
    is_written::<CommonTemplateAttribute>(&rt, alloc, None, notation);
    let notation = "65{53{55 \"n\",54 e1},08{0A \"x-a\",09 i1,0B i5}}";
    is_written::<PrivateKeyTemplateAttribute>(&rt, alloc, None, notation);
    let notation = "6E{53{55 \"n\",54 e1},08{0A \"x-a\",09 i1,0B i5}}";
    is_written::<PublicKeyTemplateAttribute>(&rt, alloc, None, notation);
    let notation = "81{82 e1,80 \"why\"}";
    is_written::<RevocationReason>(&rt, alloc, None, notation);
}

#[test]
fn wrapping(rt: HostRuntime) {
    let alloc = rt.alloc();
    let notation = "36{94 \"k\",2B{11 e1}}";
    is_written::<EncryptionKeyInformation>(&rt, alloc, None, notation);
    let notation = "4E{94 \"m\"}";
    is_written::<MACOrSignatureKeyInformation>(&rt, alloc, None, notation);
    let notation = "4D xAA";
    is_written::<MACOrSignature>(&rt, alloc, None, notation);
    let notation = "3D xBB";
    is_written::<IVOrCounterOrNonce>(&rt, alloc, None, notation);
    let notation = "46{9E e1,36{94 \"k\"},4E{94 \"m\"},4D xAA,3D xBB,08{0A \"x-a\",09 i1,0B i5}}";
    is_written::<KeyWrappingData>(&rt, alloc, None, notation);
    let notation = "47{9E e1,36{94 \"k\"},4E{94 \"m\"},08{0A \"x-a\",09 i1,0B i5}}";
    is_written::<KeyWrappingSpecification>(&rt, alloc, None, notation);
}

#[test]
fn objects(rt: HostRuntime) {
    let alloc = rt.alloc();
    let notation = "45{43 xAA,08{0A \"x-a\",09 i1,0B i5}}";
    is_written::<KeyValue>(&rt, alloc, Some(1), notation);
    let notation = "40{42 e1,45{43 xAA},28 e3,2A i128,46{9E e1}}";
    is_written::<KeyBlock>(&rt, alloc, None, notation);
    let notation = "8F{40{42 e1,45{43 xAA}}}";
    is_written::<SymmetricKey>(&rt, alloc, None, notation);
    let notation = "6D{40{42 e1,45{43 xAA}}}";
    is_written::<PublicKey>(&rt, alloc, None, notation);
    let notation = "64{40{42 e1,45{43 xAA}}}";
    is_written::<PrivateKey>(&rt, alloc, None, notation);
    let notation = "90{08{0A \"x-a\",09 i1,0B i5}}";
    is_written::<Template>(&rt, alloc, None, notation);
    let notation = "8F{40{42 e1,45{43 xAA}}}";
    is_written::<ManagedObject>(&rt, alloc, None, notation);
}

#[test]
fn messages_and_credentials(rt: HostRuntime) {
    let alloc = rt.alloc();
    let notation = "99 \"alice\"";
    is_written::<Username>(&rt, alloc, None, notation);
    let notation = "A1 \"secret\"";
    is_written::<Password>(&rt, alloc, None, notation);
    let notation = "25{99 \"alice\",A1 \"secret\"}";
    is_written::<CredentialValue>(&rt, alloc, Some(1), notation);
    let notation = "23{24 e1,25{99 \"alice\",A1 \"secret\"}}";
    is_written::<Credential>(&rt, alloc, None, notation);
    let notation = "0C{23{24 e1,25{99 \"alice\",A1 \"secret\"}}}";
    is_written::<Authentication>(&rt, alloc, None, notation);
    let notation = "77{69{6A i1,6B i2},50 i256,0C{23{24 e1,25{99 \"alice\",A1 \"secret\"}}},0D i1}";
    is_written::<RequestHeader>(&rt, alloc, None, notation);
    let notation = "79{C4 i16}";
    is_written::<RequestPayload>(&rt, alloc, Some(37), notation);
    let notation = "0F{5C e25,93 xAA,79{C4 i16}}";
    is_written::<BatchItem>(&rt, alloc, None, notation);
    let notation =
        "78{77{69{6A i1,6B i2},50 i256,0C{23{24 e1,25{99 \"alice\",A1 \"secret\"}}},0D i1},0F{5C e25,93 xAA,79{C4 i16}}}";
    is_written::<RequestMessage>(&rt, alloc, None, notation);
}

#[test]
fn numbers(rt: HostRuntime) {
    let alloc = rt.alloc();
    let notation = "69{6A i1,6B i2}";
    is_written_alone::<ProtocolVersion>(&rt, alloc, notation);
    let notation = "0D i1";
    is_written_alone::<BatchCount>(&rt, alloc, notation);
    let notation = "50 i256";
    is_written_alone::<MaximumResponseSize>(&rt, alloc, notation);
    let notation = "6A i1";
    is_written_alone::<ProtocolVersionMajor>(&rt, alloc, notation);
    let notation = "6B i2";
    is_written_alone::<ProtocolVersionMinor>(&rt, alloc, notation);
}
