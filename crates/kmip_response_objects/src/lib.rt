//! The objects of responses: attributes, key blocks with their wrapping, and managed objects.
//!
//! Each type reads its children in one pass and takes memory only for what the value holds.
#![tactic(auto)]

mod attribute;
mod key_block;
mod key_wrapping;
mod managed_object;
mod managed_objects;
mod name;
mod template_attribute;

pub use attribute::Attribute;
pub use key_block::{KeyBlock, KeyValue};
pub use key_wrapping::{EncryptionKeyInformation, KeyWrappingData, MACOrSignatureKeyInformation};
pub use managed_object::{Certificate, ManagedObject, PrivateKey, PublicKey, SymmetricKey};
pub use managed_objects::ManagedObjects;
pub use name::Name;
pub use template_attribute::TemplateAttribute;
