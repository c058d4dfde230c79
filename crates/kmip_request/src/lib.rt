//! Requests: what a client asks for, written as its one canonical message.
//!
//! ```rust
//! use kmip_request::{RequestPayload, to_vec};
//! use kmip_types::UniqueIdentifier;
//!
//! let id = UniqueIdentifier(Text::of(alloc, "17")?);
//! let bytes = to_vec(alloc, RequestPayload::Activate(Some(id)), None)?;
//! ```
#![tactic(auto)]

mod authentication;
mod header;
mod helpers;
mod laws;
mod message;
mod numbers;
mod payload;
mod writing;

pub use authentication::{Authentication, Credential, CredentialValue, Password, Username};
pub use header::{ProtocolVersion, RequestHeader};
pub use helpers::{
    activate_request, destroy_request, get_request, key_pair_request, query_request,
    rename_request, revoke_request, sign_request,
};
pub use kmip_request_objects::{
    Attribute, CommonTemplateAttribute, EncryptionKeyInformation, IVOrCounterOrNonce, KeyBlock,
    KeyValue, KeyWrappingData, KeyWrappingSpecification, MACOrSignature,
    MACOrSignatureKeyInformation, ManagedObject, Name, PrivateKey, PrivateKeyTemplateAttribute,
    PublicKey, PublicKeyTemplateAttribute, RevocationReason, SymmetricKey, Template,
    TemplateAttribute,
};
pub use laws::{distinct_requests, tables_stand};
pub use message::{BatchItem, RequestMessage};
pub use numbers::{BatchCount, MaximumResponseSize, ProtocolVersionMajor, ProtocolVersionMinor};
pub use payload::RequestPayload;
pub use writing::{header_len, to_vec, write_header, write_request, write_request_into};
