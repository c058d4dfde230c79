//! Laws for the values that both requests and responses are made of.

ghost use Rattle.kmip_equality.specs.Equality.{IsEquality};

use kmip_enums::{
    CertificateType, CredentialType, LinkType, NameType, ObjectType, Operation, QueryFunction,
    ResultReason, ResultStatus, RevocationReasonCode, State,
};
use kmip_types::{
    ApplicationData, ApplicationNamespace, AttributeIndex, AttributeName, AttributeValue,
    BlockCipherMode, CompromiseOccurrenceDate, CounterLength, CryptographicAlgorithm,
    CryptographicLength, CryptographicParameters, CryptographicUsageMask, Data, DataLength,
    DigitalSignatureAlgorithm, FixedFieldLength, HashingAlgorithm, IVLength, InitialCounterValue,
    InvocationFieldLength, KeyCompressionType, KeyFormatType, KeyMaterial, KeyRoleType,
    LinkedObjectIdentifier, NameValue, PaddingMethod, RandomIV, RevocationMessage, TagLength,
    TransparentDHPrivateKey, TransparentDHPublicKey, TransparentDSAPrivateKey,
    TransparentDSAPublicKey, TransparentRSAPrivateKey, TransparentRSAPublicKey,
    TransparentSymmetricKey, UniqueBatchItemID, UniqueIdentifier, WrappingMethod,
};
use kmip_wire::{Kind, Tag};

/// `==` says exactly whether two values are equal: the law for tags, types of items, enumerations
/// and usage masks.
pub fn code_values()
    ensures tag { IsEquality ⟦<Tag as PartialEq>⟧.eq }
    ensures kind { IsEquality ⟦<Kind as PartialEq>⟧.eq }
    ensures certificate_type { IsEquality ⟦<CertificateType as PartialEq>⟧.eq }
    ensures credential_type { IsEquality ⟦<CredentialType as PartialEq>⟧.eq }
    ensures link_type { IsEquality ⟦<LinkType as PartialEq>⟧.eq }
    ensures name_type { IsEquality ⟦<NameType as PartialEq>⟧.eq }
    ensures object_type { IsEquality ⟦<ObjectType as PartialEq>⟧.eq }
    ensures operation { IsEquality ⟦<Operation as PartialEq>⟧.eq }
    ensures query_function { IsEquality ⟦<QueryFunction as PartialEq>⟧.eq }
    ensures result_reason { IsEquality ⟦<ResultReason as PartialEq>⟧.eq }
    ensures result_status { IsEquality ⟦<ResultStatus as PartialEq>⟧.eq }
    ensures revocation_reason_code { IsEquality ⟦<RevocationReasonCode as PartialEq>⟧.eq }
    ensures state { IsEquality ⟦<State as PartialEq>⟧.eq }
    ensures block_cipher_mode { IsEquality ⟦<BlockCipherMode as PartialEq>⟧.eq }
    ensures cryptographic_algorithm { IsEquality ⟦<CryptographicAlgorithm as PartialEq>⟧.eq }
    ensures cryptographic_usage_mask { IsEquality ⟦<CryptographicUsageMask as PartialEq>⟧.eq }
    ensures digital_signature_algorithm { IsEquality ⟦<DigitalSignatureAlgorithm as PartialEq>⟧.eq }
    ensures hashing_algorithm { IsEquality ⟦<HashingAlgorithm as PartialEq>⟧.eq }
    ensures key_compression_type { IsEquality ⟦<KeyCompressionType as PartialEq>⟧.eq }
    ensures key_format_type { IsEquality ⟦<KeyFormatType as PartialEq>⟧.eq }
    ensures key_role_type { IsEquality ⟦<KeyRoleType as PartialEq>⟧.eq }
    ensures padding_method { IsEquality ⟦<PaddingMethod as PartialEq>⟧.eq }
    ensures wrapping_method { IsEquality ⟦<WrappingMethod as PartialEq>⟧.eq }
{}

/// The law for the types of one field.
pub fn field_values()
    ensures application_data { IsEquality ⟦<ApplicationData as PartialEq>⟧.eq }
    ensures application_namespace { IsEquality ⟦<ApplicationNamespace as PartialEq>⟧.eq }
    ensures attribute_index { IsEquality ⟦<AttributeIndex as PartialEq>⟧.eq }
    ensures attribute_name { IsEquality ⟦<AttributeName as PartialEq>⟧.eq }
    ensures compromise_occurrence_date { IsEquality ⟦<CompromiseOccurrenceDate as PartialEq>⟧.eq }
    ensures counter_length { IsEquality ⟦<CounterLength as PartialEq>⟧.eq }
    ensures cryptographic_length { IsEquality ⟦<CryptographicLength as PartialEq>⟧.eq }
    ensures data { IsEquality ⟦<Data as PartialEq>⟧.eq }
    ensures data_length { IsEquality ⟦<DataLength as PartialEq>⟧.eq }
    ensures fixed_field_length { IsEquality ⟦<FixedFieldLength as PartialEq>⟧.eq }
    ensures iv_length { IsEquality ⟦<IVLength as PartialEq>⟧.eq }
    ensures initial_counter_value { IsEquality ⟦<InitialCounterValue as PartialEq>⟧.eq }
    ensures invocation_field_length { IsEquality ⟦<InvocationFieldLength as PartialEq>⟧.eq }
    ensures linked_object_identifier { IsEquality ⟦<LinkedObjectIdentifier as PartialEq>⟧.eq }
    ensures name_value { IsEquality ⟦<NameValue as PartialEq>⟧.eq }
    ensures random_iv { IsEquality ⟦<RandomIV as PartialEq>⟧.eq }
    ensures revocation_message { IsEquality ⟦<RevocationMessage as PartialEq>⟧.eq }
    ensures tag_length { IsEquality ⟦<TagLength as PartialEq>⟧.eq }
    ensures unique_batch_item_id { IsEquality ⟦<UniqueBatchItemID as PartialEq>⟧.eq }
    ensures unique_identifier { IsEquality ⟦<UniqueIdentifier as PartialEq>⟧.eq }
{}

/// The law for cryptographic parameters, transparent keys, key material and attribute values.
pub fn key_values()
    ensures cryptographic_parameters { IsEquality ⟦<CryptographicParameters as PartialEq>⟧.eq }
    ensures transparent_symmetric_key { IsEquality ⟦<TransparentSymmetricKey as PartialEq>⟧.eq }
    ensures transparent_dsa_private_key { IsEquality ⟦<TransparentDSAPrivateKey as PartialEq>⟧.eq }
    ensures transparent_dsa_public_key { IsEquality ⟦<TransparentDSAPublicKey as PartialEq>⟧.eq }
    ensures transparent_rsa_private_key { IsEquality ⟦<TransparentRSAPrivateKey as PartialEq>⟧.eq }
    ensures transparent_rsa_public_key { IsEquality ⟦<TransparentRSAPublicKey as PartialEq>⟧.eq }
    ensures transparent_dh_private_key { IsEquality ⟦<TransparentDHPrivateKey as PartialEq>⟧.eq }
    ensures transparent_dh_public_key { IsEquality ⟦<TransparentDHPublicKey as PartialEq>⟧.eq }
    ensures key_material { IsEquality ⟦<KeyMaterial as PartialEq>⟧.eq }
    ensures attribute_value { IsEquality ⟦<AttributeValue as PartialEq>⟧.eq }
{
    code_values();
    field_values();
}
