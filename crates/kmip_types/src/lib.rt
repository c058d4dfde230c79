//! The types that requests and responses share. Those of kmip_codes, kmip_names and
//! kmip_keys are re-exported.
#![tactic(auto)]

mod attribute_copying;
mod attribute_equality;
mod attribute_reading;
mod attribute_showing;
mod attribute_value;
mod attribute_writing;
pub mod auth;
mod cryptographic_parameters;

pub use attribute_value::{AttributeValue, Values};
pub use cryptographic_parameters::CryptographicParameters;
pub use kmip_codes::{
    BlockCipherMode, CryptographicAlgorithm, CryptographicUsageMask, DigitalSignatureAlgorithm,
    HashingAlgorithm, KeyCompressionType, KeyFormatType, KeyRoleType, PaddingMethod,
    WrappingMethod,
};
pub use kmip_keys::{
    KeyMaterial, TransparentDHPrivateKey, TransparentDHPublicKey, TransparentDSAPrivateKey,
    TransparentDSAPublicKey, TransparentRSAPrivateKey, TransparentRSAPublicKey,
    TransparentSymmetricKey,
};
pub use kmip_names::{
    ApplicationData, ApplicationNamespace, AttributeIndex, AttributeName, CompromiseOccurrenceDate,
    CounterLength, CryptographicLength, Data, DataLength, FixedFieldLength, IVLength,
    InitialCounterValue, InvocationFieldLength, LinkedObjectIdentifier, NameValue, RandomIV,
    RevocationMessage, TagLength, UniqueBatchItemID, UniqueIdentifier,
};
