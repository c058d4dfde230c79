// Written by tables/generate.py from tables/*.toml: change these instead.
//! The enumerations of KMIP for algorithms and for the format of keys, and Cryptographic Usage
//! Mask.
#![tactic(auto)]

mod block_cipher_mode;
mod cryptographic_algorithm;
mod digital_signature_algorithm;
mod hashing_algorithm;
mod key_compression_type;
mod key_format_type;
mod key_role_type;
mod padding_method;
mod usage_mask;
mod wrapping_method;

pub use block_cipher_mode::BlockCipherMode;
pub use cryptographic_algorithm::CryptographicAlgorithm;
pub use digital_signature_algorithm::DigitalSignatureAlgorithm;
pub use hashing_algorithm::HashingAlgorithm;
pub use key_compression_type::KeyCompressionType;
pub use key_format_type::KeyFormatType;
pub use key_role_type::KeyRoleType;
pub use kmip_shape::Enumeration;
pub use padding_method::PaddingMethod;
pub use usage_mask::CryptographicUsageMask;
pub use wrapping_method::WrappingMethod;
