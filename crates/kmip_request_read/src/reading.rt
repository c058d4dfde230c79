//! Reading a request from its bytes.

ghost use Rattle.std.specs.Prelude.{◌≡◌, ◌≢◌, ◌↔◌, pos, false, ◌⊎◌, Option, Some, None, Err, IfOk};
ghost use Rattle.std.specs.Prelude.{IfErr, IsTrue};
ghost use Rattle.kmip_wire.specs.Tree.{Tree};
ghost use Rattle.kmip_wire.specs.Items.{item_tree};
ghost use Rattle.kmip_wire.specs.Parses.{Parses};
ghost use Rattle.kmip_shape.specs.Val.{Val};
ghost use Rattle.kmip_types.specs.declared.auth.CredentialType.{CredentialType};
ghost use Rattle.kmip_request.specs.declared.authentication.Authentication.{Authentication as CredentialItem};
ghost use Rattle.kmip_request.specs.declared.payload.RequestPayload.{RequestPayload as Payload};
ghost use Rattle.kmip_request.specs.Message.{request_bytes, credential_of, operation_of};
ghost use Rattle.kmip_request.specs.Fits.{FitsRequest};
ghost use Rattle.kmip_request_read.specs.Matched.{IsMatched};
ghost use Rattle.kmip_request_read.specs.Message.{message_of, IsClientMessage, IsCanonical, IsWrittenAs};
ghost use Rattle.kmip_request_read.specs.Reading.{request_for, request_read};

use kmip_request::{
    Authentication, BatchItem, Credential, CredentialValue, ProtocolVersion, RequestHeader,
    RequestMessage, RequestPayload,
};
use kmip_shape::{ReadError, ReadRoot, WriteItem, read_root, to_blob};
use kmip_types::auth;
use kmip_wire::{ItemRef, WireError};
use std::alloc::Global;

/// Why bytes are not read as a request.
#[derive(Clone, Copy, Debug, PartialEq, Eq, Drop)]
pub enum RequestReadError {
    /// The bytes are not exactly one well-formed item.
    Malformed,
    /// The bytes are one well-formed item, but no matched request has these bytes.
    NotCanonical,
    /// Out of memory. The bytes may be a request or not.
    OutOfMemory,
}

/// The value that an item is read as, where that value is written as `bytes`.
fn read_canonical<T: ReadRoot + WriteItem>(
    alloc: Global,
    item: ItemRef<'_>,
    bytes: &[u8],
) -> Result<T, RequestReadError>
    ensures ok { IfOk result (λ x. IsCanonical T.shape T.root_tag (item_tree item.entry) bytes.now
        (T.val x)) }
    ensures not_canonical { result ≡ Err RequestReadError.NotCanonical → (val : Val) →
        IsWrittenAs T.shape T.root_tag (item_tree item.entry) bytes.now val → ⊥ }
    ensures never { IfErr result (λ e. e ≢ RequestReadError.Malformed) }
{
    let value: T = match read_root(alloc, item) {
        Ok(value) => value,
        Err(ReadError::Unread) => return Err(RequestReadError::NotCanonical),
        Err(ReadError::OutOfMemory) => return Err(RequestReadError::OutOfMemory),
    };
    value.fits();
    let written = match to_blob(alloc, &value, T::root_tag()) {
        Ok(written) => written,
        Err(WireError::OutOfMemory) => return Err(RequestReadError::OutOfMemory),
        Err(_) => return Err(RequestReadError::NotCanonical),
    };
    if written.as_slice() == bytes {
        Ok(value)
    } else {
        Err(RequestReadError::NotCanonical)
    }
}

/// Whether a header is one that a client writes in this version.
fn is_client_header(header: &RequestHeader, version: ProtocolVersion) -> bool
    ensures { IsTrue result ↔ (header.now ≡
        record { 0 = version; 1 = None; 2 = header.now.2; 3 = record { 0 = pos 1 } }) }
{
    let RequestHeader(made_in, size, _, count) = header;
    *made_in == version && size.is_none() && count.0 == 1
}

/// Whether a batch item is the one that a client writes round its payload.
fn is_client_item(item: &BatchItem) -> bool
    ensures { IsTrue result ↔ (item.now ≡
        record { 0 = operation_of item.now.2; 1 = None; 2 = item.now.2 }) }
{
    let BatchItem(operation, identifier, payload) = item;
    *operation == payload.operation() && identifier.is_none()
}

/// Whether a message is the one that a client writes round its payload and Authentication.
fn is_client_message(message: &RequestMessage) -> bool
    ensures plain { IsTrue result → IsClientMessage message.now }
    ensures other { result ≡ false → IsClientMessage message.now → ⊥ }
{
    let RequestMessage(header, items) = message;
    match items.as_slice() {
        [item] => is_client_header(header, item.2.protocol_version()) && is_client_item(item),
        _ => false,
    }
}

/// The payload of a message, and its Authentication where there is one.
fn parts(message: RequestMessage) -> (RequestPayload, Option<Authentication>)
    requires { IsClientMessage message }
    ensures { message ≡ message_of result.0 result.1 }
{
    let RequestMessage(RequestHeader(_, _, authentication, _), items) = message;
    match items.into_vec().pop() {
        Some(BatchItem(_, _, payload)) => (payload, authentication),
        None => unreachable!(),
    }
}

/// The credential that an Authentication holds.
fn credential(authentication: Authentication) -> auth::CredentialType
    ensures { result ≡ credential_of authentication }
{
    let Authentication(Credential(_, value)) = authentication;
    match value {
        CredentialValue::UsernameAndPassword(username, password) => {
            auth::CredentialType::UsernameAndPassword(auth::UsernameAndPasswordCredential {
                username: username.0,
                password: password.map(|password| password.0),
            })
        }
    }
}

/// The payload and the credential of a request, for which `kmip_request::to_vec` writes exactly
/// these bytes. So a matched request that was written is read back equal, with its credential,
/// unless memory runs out. What is read has the operation and the payload that `request_read`
/// defines for the bytes.
///
/// It returns `Malformed` exactly where the bytes are not one well-formed item. It returns
/// `NotCanonical` only where they are one, and no matched request is written as them.
pub fn from_slice(
    alloc: Global,
    bytes: &[u8],
) -> Result<(RequestPayload, Option<auth::CredentialType>), RequestReadError>
    ensures ok { IfOk result (λ r. IsMatched r.0 × (request_bytes r.0 r.1 ≡ Some bytes.now)) }
    ensures malformed { result ≡ Err RequestReadError.Malformed ↔
        ((tree : Tree) → Parses tree 1 bytes.now → ⊥) }
    ensures not_canonical { result ≡ Err RequestReadError.NotCanonical →
        (p : Payload) (c : Option CredentialType) →
        FitsRequest p c → IsMatched p → request_bytes p c ≡ Some bytes.now → ⊥ }
    ensures item { result ≡ Err RequestReadError.NotCanonical → (tree : Tree) ×
        Parses tree 1 bytes.now }
    ensures value { IfOk result (λ r. request_read bytes.now ≡ Some (request_for r.0)) }
    ensures unread { (result ≡ Err RequestReadError.Malformed) ⊎
        (result ≡ Err RequestReadError.NotCanonical) →
        request_read bytes.now ≡ None }
    ensures back { (p : Payload) (c : Option CredentialType) → FitsRequest p c → IsMatched p →
        request_bytes p c ≡ Some bytes.now → IfOk result (λ r. (r.0 ≡ p) × (r.1 ≡ c)) }
{
    let Some(item) = ItemRef::root(bytes) else {
        return Err(RequestReadError::Malformed);
    };
    let message = read_canonical::<RequestMessage>(alloc, item, bytes)?;
    if !is_client_message(&message) {
        return Err(RequestReadError::NotCanonical);
    }
    let (payload, authentication) = parts(message);
    Ok((payload, authentication.map(credential)))
}
