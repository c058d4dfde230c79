//! The objects in requests: attributes and their constructors, templates, key blocks with their
//! wrapping, managed objects, and the reason for a revocation.
#![tactic(auto)]

mod attribute;
mod byte_strings;
mod constructors;
mod key_block;
mod key_wrapping;
mod managed_object;
mod name;
mod revocation_reason;
mod template_attribute;

pub use attribute::Attribute;
pub use byte_strings::{IVOrCounterOrNonce, MACOrSignature};
pub use key_block::{KeyBlock, KeyValue};
pub use key_wrapping::{
    EncryptionKeyInformation, KeyWrappingData, KeyWrappingSpecification,
    MACOrSignatureKeyInformation,
};
pub use managed_object::{ManagedObject, PrivateKey, PublicKey, SymmetricKey, Template};
pub use name::Name;
pub use revocation_reason::RevocationReason;
pub use template_attribute::{
    CommonTemplateAttribute, PrivateKeyTemplateAttribute, PublicKeyTemplateAttribute,
    TemplateAttribute,
};
