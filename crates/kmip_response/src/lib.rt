//! Responses: what a server returns, and how it is read, written and shown.
//!
//! ```rust
//! use kmip_response::{ResponseMessage, from_slice};
//!
//! let message: ResponseMessage = from_slice(alloc, bytes)?;
//! for item in message.batch_items.as_slice() {
//!     if let Some(reason) = item.result_reason { .. }
//! }
//! ```
//!
//! Each type reads its children in one pass, makes no tree, and takes memory only for what the
//! value holds. Fields may stand in any order, and items under unknown tags are skipped. `Unread`
//! is returned where a field that may stand once stands twice, a required one is missing, an item
//! is of another type than its field, or an enumeration has a number outside its table.
#![tactic(auto)]

mod batch_item;
mod extension;
mod header;
mod laws;
mod message;
mod payload;
mod payloads;
mod reading;

pub use batch_item::BatchItem;
pub use extension::{MessageExtension, VendorExtension};
pub use header::{ProtocolVersion, ResponseHeader};
pub use kmip_response_objects::{
    Attribute, Certificate, EncryptionKeyInformation, KeyBlock, KeyValue, KeyWrappingData,
    MACOrSignatureKeyInformation, ManagedObject, Name, PrivateKey, PublicKey, SymmetricKey,
    TemplateAttribute,
};
pub use laws::front_structure_computed;
pub use message::ResponseMessage;
pub use payload::ResponsePayload;
pub use payloads::attributes::{
    AddAttributeResponsePayload, AttributeEditResponsePayload, DeleteAttributeResponsePayload,
    GetAttributeListResponsePayload, GetAttributesResponsePayload, ModifyAttributeResponsePayload,
};
pub use payloads::cryptography::{RNGRetrieveResponsePayload, SignResponsePayload};
pub use payloads::get::GetResponsePayload;
pub use payloads::identifiers::{
    ActivateResponsePayload, CreateKeyPairResponsePayload, CreateResponsePayload,
    DestroyResponsePayload, LocateResponsePayload, RegisterResponsePayload, RevokeResponsePayload,
    UniqueIdentifierResponsePayload,
};
pub use payloads::query::{QueryResponsePayload, ServerInformation};
pub use payloads::server::DiscoverVersionsResponsePayload;
pub use reading::{ResponseError, from_slice};
