//! Laws for responses, their payloads, and what these are made of.

ghost use Rattle.kmip_equality.specs.Equality.{IsEquality};

use crate::values::{code_values, field_values, key_values};
use kmip_response::{
    AttributeEditResponsePayload, BatchItem, CreateKeyPairResponsePayload, CreateResponsePayload,
    DiscoverVersionsResponsePayload, GetAttributeListResponsePayload, GetAttributesResponsePayload,
    GetResponsePayload, LocateResponsePayload, MessageExtension, ProtocolVersion,
    QueryResponsePayload, RNGRetrieveResponsePayload, RegisterResponsePayload, ResponseHeader,
    ResponseMessage, ResponsePayload, ServerInformation, SignResponsePayload,
    UniqueIdentifierResponsePayload, VendorExtension,
};
use kmip_response_objects::{
    Attribute, Certificate, EncryptionKeyInformation, KeyBlock, KeyValue, KeyWrappingData,
    MACOrSignatureKeyInformation, ManagedObject, Name, PrivateKey, PublicKey, SymmetricKey,
    TemplateAttribute,
};

/// `==` says exactly whether two values are equal: the law for what the payloads of responses are
/// made of.
pub fn response_values()
    ensures name { IsEquality ⟦<Name as PartialEq>⟧.eq }
    ensures attribute { IsEquality ⟦<Attribute as PartialEq>⟧.eq }
    ensures template_attribute { IsEquality ⟦<TemplateAttribute as PartialEq>⟧.eq }
    ensures encryption_key_information { IsEquality ⟦<EncryptionKeyInformation as PartialEq>⟧.eq }
    ensures mac_or_signature_key_information { IsEquality
        ⟦<MACOrSignatureKeyInformation as PartialEq>⟧.eq }
    ensures key_wrapping_data { IsEquality ⟦<KeyWrappingData as PartialEq>⟧.eq }
    ensures key_value { IsEquality ⟦<KeyValue as PartialEq>⟧.eq }
    ensures key_block { IsEquality ⟦<KeyBlock as PartialEq>⟧.eq }
    ensures certificate { IsEquality ⟦<Certificate as PartialEq>⟧.eq }
    ensures symmetric_key { IsEquality ⟦<SymmetricKey as PartialEq>⟧.eq }
    ensures public_key { IsEquality ⟦<PublicKey as PartialEq>⟧.eq }
    ensures private_key { IsEquality ⟦<PrivateKey as PartialEq>⟧.eq }
    ensures managed_object { IsEquality ⟦<ManagedObject as PartialEq>⟧.eq }
    ensures protocol_version { IsEquality ⟦<ProtocolVersion as PartialEq>⟧.eq }
{
    code_values();
    field_values();
    key_values();
}

/// `==` says exactly whether two payloads are equal, and likewise for the payload of each operation.
pub fn response_payloads()
    ensures create { IsEquality ⟦<CreateResponsePayload as PartialEq>⟧.eq }
    ensures create_key_pair { IsEquality ⟦<CreateKeyPairResponsePayload as PartialEq>⟧.eq }
    ensures register { IsEquality ⟦<RegisterResponsePayload as PartialEq>⟧.eq }
    ensures locate { IsEquality ⟦<LocateResponsePayload as PartialEq>⟧.eq }
    ensures get { IsEquality ⟦<GetResponsePayload as PartialEq>⟧.eq }
    ensures get_attributes { IsEquality ⟦<GetAttributesResponsePayload as PartialEq>⟧.eq }
    ensures get_attribute_list { IsEquality ⟦<GetAttributeListResponsePayload as PartialEq>⟧.eq }
    ensures attribute_edit { IsEquality ⟦<AttributeEditResponsePayload as PartialEq>⟧.eq }
    ensures unique_identifier { IsEquality ⟦<UniqueIdentifierResponsePayload as PartialEq>⟧.eq }
    ensures query { IsEquality ⟦<QueryResponsePayload as PartialEq>⟧.eq }
    ensures discover_versions { IsEquality ⟦<DiscoverVersionsResponsePayload as PartialEq>⟧.eq }
    ensures sign { IsEquality ⟦<SignResponsePayload as PartialEq>⟧.eq }
    ensures rng_retrieve { IsEquality ⟦<RNGRetrieveResponsePayload as PartialEq>⟧.eq }
    ensures payload { IsEquality ⟦<ResponsePayload as PartialEq>⟧.eq }
{
    code_values();
    field_values();
    response_values();
}

/// `==` says exactly whether two response messages are equal, and likewise their parts.
pub fn response_messages()
    ensures server_information { IsEquality ⟦<ServerInformation as PartialEq>⟧.eq }
    ensures vendor_extension { IsEquality ⟦<VendorExtension as PartialEq>⟧.eq }
    ensures message_extension { IsEquality ⟦<MessageExtension as PartialEq>⟧.eq }
    ensures response_header { IsEquality ⟦<ResponseHeader as PartialEq>⟧.eq }
    ensures batch_item { IsEquality ⟦<BatchItem as PartialEq>⟧.eq }
    ensures response_message { IsEquality ⟦<ResponseMessage as PartialEq>⟧.eq }
{
    code_values();
    field_values();
    response_values();
    response_payloads();
}
