//! Responses, each type read, shown and copied once.
use crate::helpers::{bytes_of, is_copied, is_read, is_shown, shows, value_of};
use kmip_enums::{Operation, ResultStatus};
use kmip_response::{
    Attribute, BatchItem, Certificate, EncryptionKeyInformation, GetResponsePayload, KeyBlock,
    KeyValue, KeyWrappingData, MACOrSignatureKeyInformation, MessageExtension, Name, PrivateKey,
    ProtocolVersion, PublicKey, ResponseHeader, ResponseMessage, ResponsePayload, SymmetricKey,
    TemplateAttribute,
};
use kmip_response_objects::ManagedObject;
use kmip_shape::read_root;
use kmip_wire::ItemRef;
use std::alloc::Global;
use std::process::Abort;

#[test]
fn names_and_attributes(rt: HostRuntime) {
    let alloc = rt.alloc();
    let notation = "53{55 \"n\",54 e1}";
    let shown = "{name=\"n\",name_type=UninterpretedTextString}";
    shows::<Name>(&rt, alloc, None, notation, shown);
    let notation = "08{0A \"x-a\",09 i1,0B i5}";
    let shown = "{name=\"x-a\",index=1,value=Integer(5)}";
    shows::<Attribute>(&rt, alloc, None, notation, shown);
    let notation = "91{53{55 \"n\",54 e1},08{0A \"x-a\",09 i1,0B i5}}";
    let shown =
        "{name=[{name=\"n\",name_type=UninterpretedTextString}],attributes=[{name=\"x-a\",index=1,value=Integer(5)}]}";
    shows::<TemplateAttribute>(&rt, alloc, None, notation, shown);
}

#[test]
fn keys_and_their_wrapping(rt: HostRuntime) {
    let alloc = rt.alloc();
    let notation = "36{94 \"k\",2B{11 e1}}";
    let shown = "{unique_identifier=\"k\",cryptographic_parameters={block_cipher_mode=CBC}}";
    shows::<EncryptionKeyInformation>(&rt, alloc, None, notation, shown);
    let notation = "4E{94 \"m\"}";
    let shown = "{unique_identifier=\"m\"}";
    shows::<MACOrSignatureKeyInformation>(&rt, alloc, None, notation, shown);
    let notation = "46{9E e1,36{94 \"k\"},4E{94 \"m\"},4D xAA,3D xBB}";
    let shown =
        "{wrapping_method=Encrypt,encryption_key_information={unique_identifier=\"k\"},mac_or_signature_key_information={unique_identifier=\"m\"},mac_or_signature=x\"AA\",iv_or_counter_or_nonce=x\"BB\"}";
    shows::<KeyWrappingData>(&rt, alloc, None, notation, shown);
    let notation = "45{43 xAA,08{0A \"x-a\",09 i1,0B i5}}";
    let shown =
        "{key_material=Bytes(x\"AA\"),attributes=[{name=\"x-a\",index=1,value=Integer(5)}]}";
    shows::<KeyValue>(&rt, alloc, Some(1), notation, shown);
    let notation = "40{42 e1,45{43 xAA},28 e3,2A i128,46{9E e1}}";
    let shown =
        "{key_format_type=Raw,key_value={key_material=Bytes(x\"AA\")},cryptographic_algorithm=AES,cryptographic_length=128,key_wrapping_data={wrapping_method=Encrypt}}";
    shows::<KeyBlock>(&rt, alloc, None, notation, shown);
}

#[test]
fn objects_and_payloads(rt: HostRuntime) {
    let alloc = rt.alloc();
    let notation = "13{1D e1,1E xAA}";
    let shown = "{certificate_type=X509,certificate_value=x\"AA\"}";
    shows::<Certificate>(&rt, alloc, None, notation, shown);
    let notation = "8F{40{42 e1,45{43 xAA}}}";
    let shown = "{key_block={key_format_type=Raw,key_value={key_material=Bytes(x\"AA\")}}}";
    shows::<SymmetricKey>(&rt, alloc, None, notation, shown);
    let notation = "6D{40{42 e1,45{43 xAA}}}";
    let shown = "{key_block={key_format_type=Raw,key_value={key_material=Bytes(x\"AA\")}}}";
    shows::<PublicKey>(&rt, alloc, None, notation, shown);
    let notation = "64{40{42 e1,45{43 xAA}}}";
    let shown = "{key_block={key_format_type=Raw,key_value={key_material=Bytes(x\"AA\")}}}";
    shows::<PrivateKey>(&rt, alloc, None, notation, shown);
    let notation = "7C{C2 xAA}";
    let shown = "RNGRetrieve{random_bytes=x\"AA\"}";
    shows::<ResponsePayload>(&rt, alloc, Some(37), notation, shown);
}

/// The extension is that of the items below.
fn is_extension(rt: &impl Abort, extension: &MessageExtension) {
    assert!(rt; extension.vendor_identification.as_str() == "v");
    assert!(rt; extension.criticality_indicator);
}

/// A batch item with an extension, alone and as that of a message.
const ITEM: &str = "0F{5C e25,7F e0,7C{C2 xAA},51{9D \"v\",26 o1,7D{}}}";

const MESSAGE: &str = "RES2(5C e25,7F e0,7C{C2 xAA},51{9D \"v\",26 o1,7D{}})";

/// The item is that of the text.
fn is_item(rt: &impl Abort, alloc: Global, item: &BatchItem) {
    assert!(rt; item.operation == Some(Operation::RNGRetrieve));
    assert!(rt; item.unique_batch_item_id.is_none());
    assert!(rt; item.result_status == ResultStatus::Success);
    assert!(rt; item.result_reason.is_none() && item.result_message.is_none());
    let payload = item.payload.as_ref().expect(rt, "a payload");
    is_shown::<ResponsePayload>(rt, alloc, payload, "RNGRetrieve{random_bytes=x\"AA\"}");
    is_extension(
        rt,
        item.message_extension.as_ref().expect(rt, "an extension"),
    );
}

/// The header is that of the text.
fn is_header(rt: &impl Abort, header: &ResponseHeader) {
    let version = &header.protocol_version;
    assert!(rt; version.major == 1 && version.minor == 2);
    assert!(rt; header.timestamp == 1 && header.batch_count == 1);
}

#[test]
fn extensions_and_items(rt: HostRuntime) {
    let alloc = rt.alloc();
    let notation = "51{9D \"v\",26 o1,7D{}}";
    let extension = is_read::<MessageExtension>(&rt, alloc, None, notation);
    is_extension(&rt, &extension);
    drop(extension);
    let item = is_read::<BatchItem>(&rt, alloc, None, ITEM);
    is_item(&rt, alloc, &item);
    drop(item);
}

#[test]
fn messages(rt: HostRuntime) {
    let alloc = rt.alloc();
    let notation = "7A{69{6A i1,6B i2},92 d1,0D i1}";
    is_header(&rt, &value_of::<ResponseHeader>(&rt, alloc, None, notation));
    let message = is_read::<ResponseMessage>(&rt, alloc, None, MESSAGE);
    is_header(&rt, &message.header);
    assert!(&rt; message.batch_items.len() == 1);
    is_item(
        &rt,
        alloc,
        message.batch_items.get(0).expect(&rt, "an item"),
    );
    drop(message);
}

/// A response payload of Get, read as the root of its bytes.
fn payload_of(rt: &impl Abort, alloc: Global, notation: &str) -> GetResponsePayload {
    let bytes = bytes_of(rt, alloc, notation);
    let item = ItemRef::root(&bytes).expect(rt, "an item");
    read_root::<GetResponsePayload>(alloc, item).expect(rt, "a payload")
}

#[test]
fn an_object(rt: HostRuntime) {
    let alloc = rt.alloc();
    let payload = payload_of(&rt, alloc, "7C{57 e4,94 \"k\",64{40{42 e1,45{43 xAA}}}}");
    assert!(&rt; payload.unique_identifier.0.as_str() == "k");
    let object = &payload.cryptographic_object;
    let shown =
        "PrivateKey{key_block={key_format_type=Raw,key_value={key_material=Bytes(x\"AA\")}}}";
    is_shown::<ManagedObject>(&rt, alloc, object, shown);
    is_copied::<ManagedObject>(&rt, alloc, object);
    drop(payload);
}

#[test]
fn versions(rt: HostRuntime) {
    let notation = "69{6A i1,6B i2}";
    let version = value_of::<ProtocolVersion>(&rt, rt.alloc(), None, notation);
    is_shown::<ProtocolVersion>(&rt, rt.alloc(), &version, "{major=1,minor=2}");
}
