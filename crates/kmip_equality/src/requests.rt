//! Laws for requests, their payloads, and what these are made of.

ghost use Rattle.kmip_equality.specs.Equality.{IsEquality};

use crate::values::{code_values, field_values, key_values};
use kmip_request::{
    Authentication, BatchCount, BatchItem, Credential, CredentialValue, MaximumResponseSize,
    Password, ProtocolVersion, ProtocolVersionMajor, ProtocolVersionMinor, RequestHeader,
    RequestMessage, RequestPayload, Username,
};
use kmip_request_objects::{
    Attribute, CommonTemplateAttribute, EncryptionKeyInformation, IVOrCounterOrNonce, KeyBlock,
    KeyValue, KeyWrappingData, KeyWrappingSpecification, MACOrSignature,
    MACOrSignatureKeyInformation, ManagedObject, Name, PrivateKey, PrivateKeyTemplateAttribute,
    PublicKey, PublicKeyTemplateAttribute, RevocationReason, SymmetricKey, Template,
    TemplateAttribute,
};

/// The law for the types of one field that requests alone have.
pub fn request_fields()
    ensures mac_or_signature { IsEquality ⟦<MACOrSignature as PartialEq>⟧.eq }
    ensures iv_or_counter_or_nonce { IsEquality ⟦<IVOrCounterOrNonce as PartialEq>⟧.eq }
    ensures protocol_version_major { IsEquality ⟦<ProtocolVersionMajor as PartialEq>⟧.eq }
    ensures protocol_version_minor { IsEquality ⟦<ProtocolVersionMinor as PartialEq>⟧.eq }
    ensures maximum_response_size { IsEquality ⟦<MaximumResponseSize as PartialEq>⟧.eq }
    ensures batch_count { IsEquality ⟦<BatchCount as PartialEq>⟧.eq }
    ensures username { IsEquality ⟦<Username as PartialEq>⟧.eq }
    ensures password { IsEquality ⟦<Password as PartialEq>⟧.eq }
{}

/// `==` says exactly whether two values are equal: the law for what the payloads of requests are
/// made of.
pub fn request_values()
    ensures name { IsEquality ⟦<Name as PartialEq>⟧.eq }
    ensures attribute { IsEquality ⟦<Attribute as PartialEq>⟧.eq }
    ensures template_attribute { IsEquality ⟦<TemplateAttribute as PartialEq>⟧.eq }
    ensures common_template_attribute { IsEquality ⟦<CommonTemplateAttribute as PartialEq>⟧.eq }
    ensures private_key_template_attribute { IsEquality
        ⟦<PrivateKeyTemplateAttribute as PartialEq>⟧.eq }
    ensures public_key_template_attribute { IsEquality
        ⟦<PublicKeyTemplateAttribute as PartialEq>⟧.eq }
    ensures encryption_key_information { IsEquality ⟦<EncryptionKeyInformation as PartialEq>⟧.eq }
    ensures mac_or_signature_key_information { IsEquality
        ⟦<MACOrSignatureKeyInformation as PartialEq>⟧.eq }
    ensures key_wrapping_data { IsEquality ⟦<KeyWrappingData as PartialEq>⟧.eq }
    ensures key_wrapping_specification { IsEquality ⟦<KeyWrappingSpecification as PartialEq>⟧.eq }
    ensures key_value { IsEquality ⟦<KeyValue as PartialEq>⟧.eq }
    ensures key_block { IsEquality ⟦<KeyBlock as PartialEq>⟧.eq }
    ensures symmetric_key { IsEquality ⟦<SymmetricKey as PartialEq>⟧.eq }
    ensures public_key { IsEquality ⟦<PublicKey as PartialEq>⟧.eq }
    ensures private_key { IsEquality ⟦<PrivateKey as PartialEq>⟧.eq }
    ensures template { IsEquality ⟦<Template as PartialEq>⟧.eq }
    ensures managed_object { IsEquality ⟦<ManagedObject as PartialEq>⟧.eq }
    ensures revocation_reason { IsEquality ⟦<RevocationReason as PartialEq>⟧.eq }
    ensures protocol_version { IsEquality ⟦<ProtocolVersion as PartialEq>⟧.eq }
{
    code_values();
    field_values();
    key_values();
    request_fields();
}

/// `==` says exactly whether two payloads are equal.
pub fn request_payloads()
    ensures { IsEquality ⟦<RequestPayload as PartialEq>⟧.eq }
{
    code_values();
    field_values();
    key_values();
    request_values();
}

/// `==` says exactly whether two request messages are equal, and likewise their parts.
pub fn request_messages()
    ensures credential_value { IsEquality ⟦<CredentialValue as PartialEq>⟧.eq }
    ensures credential { IsEquality ⟦<Credential as PartialEq>⟧.eq }
    ensures authentication { IsEquality ⟦<Authentication as PartialEq>⟧.eq }
    ensures request_header { IsEquality ⟦<RequestHeader as PartialEq>⟧.eq }
    ensures batch_item { IsEquality ⟦<BatchItem as PartialEq>⟧.eq }
    ensures request_message { IsEquality ⟦<RequestMessage as PartialEq>⟧.eq }
{
    code_values();
    field_values();
    request_fields();
    request_values();
    request_payloads();
}
