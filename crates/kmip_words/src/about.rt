//! Whether an answer is one to its call: about the object that was asked about, and with what was
//! asked for.
ghost use Rattle.std.specs.Prelude.{◌≡◌, ◌==◌, length, option_map};
ghost use Rattle.kmip_enums.specs.declared.operation.Operation.{Operation as TheOperation};
ghost use Rattle.kmip_request.specs.Message.{operation_of};
ghost use Rattle.kmip_response.specs.Values.{response_payload_val};
ghost use Rattle.kmip_client.specs.Client.{IsOfOperation};
ghost use Rattle.kmip_words.specs.Exchange.{operation_asked};
ghost use Rattle.kmip_words.specs.About.{identifier_or_none, named_in, asked_about};
ghost use Rattle.kmip_words.specs.About.{identifier_in, is_about_another, lacks_bytes, is_one_key};
ghost use Rattle.kmip_words.specs.About.{second_identifier_in, signature_in, identifier_lack};
ghost use Rattle.kmip_words.specs.About.{pair_lack, signature_lack};
ghost use Rattle.kmip_words.specs.About.{is_wrapped, request_lack, call_lack};
ghost use Rattle.kmip_words.specs.About.{objection};

use crate::call::Call;
use kmip_request::RequestPayload;
use kmip_response::{ManagedObject, ResponsePayload};
use kmip_types::UniqueIdentifier;

/// An identifier, or the empty text.
fn identifier_or_none(id: &Option<UniqueIdentifier>) -> &str
    ensures { result.now ≡ identifier_or_none id.now }
{
    match id {
        Some(UniqueIdentifier(id)) => id.as_str(),
        None => "",
    }
}

/// The identifier in a request, empty where there is none.
fn named_in(request: &RequestPayload) -> &str
    ensures { result.now ≡ named_in request.now }
{
    match request {
        RequestPayload::Get(id, ..) => identifier_or_none(id),
        RequestPayload::GetAttributes(id, _) => identifier_or_none(id),
        RequestPayload::GetAttributeList(id) => identifier_or_none(id),
        RequestPayload::AddAttribute(id, _) => identifier_or_none(id),
        RequestPayload::ModifyAttribute(id, _) => identifier_or_none(id),
        RequestPayload::DeleteAttribute(id, ..) => identifier_or_none(id),
        RequestPayload::Activate(id) => identifier_or_none(id),
        RequestPayload::Revoke(id, ..) => identifier_or_none(id),
        RequestPayload::Destroy(id) => identifier_or_none(id),
        RequestPayload::Sign(id, ..) => identifier_or_none(id),
        RequestPayload::Create(..)
        | RequestPayload::CreateKeyPair(..)
        | RequestPayload::Register(..)
        | RequestPayload::Locate(_)
        | RequestPayload::Query(_)
        | RequestPayload::DiscoverVersions(_)
        | RequestPayload::RNGRetrieve(_) => "",
    }
}

/// The identifier of the object that a call asks about; empty where it names none.
fn asked_about(call: &Call) -> &str
    ensures { result.now ≡ asked_about call.now }
{
    match call {
        Call::Sign { id, .. } => id.as_str(),
        Call::Activate { id } => id.as_str(),
        Call::Revoke { id } => id.as_str(),
        Call::Destroy { id } => id.as_str(),
        Call::Rename { id, .. } => id.as_str(),
        Call::Get { id } => id.as_str(),
        Call::Request { payload } => named_in(payload.get()),
        Call::Query | Call::CreateRsa { .. } | Call::Rng { .. } | Call::Raw { .. } => "",
    }
}

/// The text of an identifier.
fn text_of(id: &UniqueIdentifier) -> &str
    ensures { result.now ≡ id.now.0 }
{
    let UniqueIdentifier(text) = id;
    text.as_str()
}

/// The identifier that stands first in a payload, or second, after a type; empty where none does.
fn identifier_in(payload: &ResponsePayload) -> &str
    ensures { result.now ≡ identifier_in (response_payload_val payload.now) }
{
    match payload {
        ResponsePayload::Create(payload) => text_of(&payload.unique_identifier),
        ResponsePayload::CreateKeyPair(payload) => {
            text_of(&payload.private_key_unique_identifier)
        }
        ResponsePayload::Register(payload) => text_of(&payload.unique_identifier),
        ResponsePayload::Get(payload) => text_of(&payload.get().unique_identifier),
        ResponsePayload::GetAttributes(payload) => text_of(&payload.unique_identifier),
        ResponsePayload::GetAttributeList(payload) => text_of(&payload.unique_identifier),
        ResponsePayload::AddAttribute(payload) => text_of(&payload.unique_identifier),
        ResponsePayload::ModifyAttribute(payload) => text_of(&payload.unique_identifier),
        ResponsePayload::DeleteAttribute(payload) => text_of(&payload.unique_identifier),
        ResponsePayload::Activate(payload) => text_of(&payload.unique_identifier),
        ResponsePayload::Revoke(payload) => text_of(&payload.unique_identifier),
        ResponsePayload::Destroy(payload) => text_of(&payload.unique_identifier),
        ResponsePayload::Sign(payload) => text_of(&payload.unique_identifier),
        ResponsePayload::Locate(_)
        | ResponsePayload::Query(_)
        | ResponsePayload::DiscoverVersions(_)
        | ResponsePayload::RNGRetrieve(_) => "",
    }
}

/// Whether an answer is about another object than the call asked about.
fn is_about_another(call: &Call, payload: &ResponsePayload) -> bool
    ensures { result ≡ is_about_another call.now (response_payload_val payload.now) }
{
    let asked = asked_about(call);
    !asked.is_empty() && asked != identifier_in(payload)
}

/// Whether no random bytes are answered where some were asked for.
fn lacks_bytes(num_bytes: i32, payload: &ResponsePayload) -> bool
    requires { IsOfOperation TheOperation.RNGRetrieve (response_payload_val payload.now) }
    ensures { result ≡ lacks_bytes num_bytes (response_payload_val payload.now) }
{
    match payload {
        ResponsePayload::RNGRetrieve(payload) => {
            0 < num_bytes && payload.random_bytes.as_slice().is_empty()
        }
        _ => unreachable!(),
    }
}

/// Why a pair that is one key is refused.
const ONE_KEY: &str = "answer with one identifier for two keys";

/// Whether the two keys of a pair have one identifier.
fn is_one_key(payload: &ResponsePayload) -> bool
    requires { IsOfOperation TheOperation.CreateKeyPair (response_payload_val payload.now) }
    ensures { result ≡ is_one_key (response_payload_val payload.now) }
{
    match payload {
        ResponsePayload::CreateKeyPair(payload) => {
            text_of(&payload.private_key_unique_identifier)
                == text_of(&payload.public_key_unique_identifier)
        }
        _ => unreachable!(),
    }
}

/// The identifier that stands second in the answer with a pair of keys.
fn second_identifier_in(payload: &ResponsePayload) -> &str
    requires { IsOfOperation TheOperation.CreateKeyPair (response_payload_val payload.now) }
    ensures { result.now ≡ second_identifier_in (response_payload_val payload.now) }
{
    match payload {
        ResponsePayload::CreateKeyPair(payload) => {
            text_of(&payload.public_key_unique_identifier)
        }
        _ => unreachable!(),
    }
}

/// Why an answer without a new object's identifier is refused.
const NO_IDENTIFIER: &str = "answer without an identifier";

/// What an answer that names a new object lacks.
fn identifier_lack(payload: &ResponsePayload) -> Option<&'static str>
    ensures { option_map (λ text. text.now) result ≡
        identifier_lack (response_payload_val payload.now) }
{
    if identifier_in(payload).is_empty() {
        Some(NO_IDENTIFIER)
    } else {
        None
    }
}

/// What an answer that names the two keys of a pair lacks.
fn pair_lack(payload: &ResponsePayload) -> Option<&'static str>
    requires { IsOfOperation TheOperation.CreateKeyPair (response_payload_val payload.now) }
    ensures { option_map (λ text. text.now) result ≡
        pair_lack (response_payload_val payload.now) }
{
    if is_one_key(payload) {
        Some(ONE_KEY)
    } else if identifier_in(payload).is_empty() {
        Some(NO_IDENTIFIER)
    } else if second_identifier_in(payload).is_empty() {
        Some(NO_IDENTIFIER)
    } else {
        None
    }
}

/// Whether an answer to Sign has no bytes of a signature.
fn lacks_signature(payload: &ResponsePayload) -> bool
    requires { IsOfOperation TheOperation.Sign (response_payload_val payload.now) }
    ensures { result ≡ (length (signature_in (response_payload_val payload.now)) == 0) }
{
    match payload {
        ResponsePayload::Sign(payload) => payload.signature_data.as_slice().is_empty(),
        _ => unreachable!(),
    }
}

/// What an answer to Sign lacks.
fn signature_lack(payload: &ResponsePayload) -> Option<&'static str>
    requires { IsOfOperation TheOperation.Sign (response_payload_val payload.now) }
    ensures { option_map (λ text. text.now) result ≡
        signature_lack (response_payload_val payload.now) }
{
    if lacks_signature(payload) {
        Some("answer without a signature")
    } else {
        None
    }
}

/// Whether the object in an answer to Get is wrapped.
fn is_wrapped(payload: &ResponsePayload) -> bool
    requires { IsOfOperation TheOperation.Get (response_payload_val payload.now) }
    ensures { result ≡ is_wrapped (response_payload_val payload.now) }
{
    match payload {
        ResponsePayload::Get(payload) => match &payload.get().cryptographic_object {
            ManagedObject::SymmetricKey(key) => {
                matches!(&key.key_block.key_wrapping_data, Some(_))
            }
            ManagedObject::PublicKey(key) => { matches!(&key.key_block.key_wrapping_data, Some(_)) }
            ManagedObject::PrivateKey(key) => {
                matches!(&key.key_block.key_wrapping_data, Some(_))
            }
            ManagedObject::Certificate(_) => false,
        },
        _ => unreachable!(),
    }
}

/// What an answer to a request lacks.
fn request_lack(request: &RequestPayload, payload: &ResponsePayload) -> Option<&'static str>
    requires { IsOfOperation (operation_of request.now) (response_payload_val payload.now) }
    ensures { option_map (λ text. text.now) result ≡
        request_lack request.now (response_payload_val payload.now) }
{
    match request {
        RequestPayload::Get(_, _, _, Some(_)) => {
            if is_wrapped(payload) {
                None
            } else {
                Some("answer with an object that is not wrapped")
            }
        }
        RequestPayload::CreateKeyPair(..) => pair_lack(payload),
        RequestPayload::Create(..) | RequestPayload::Register(..) => identifier_lack(payload),
        RequestPayload::Sign(..) => signature_lack(payload),
        RequestPayload::Get(_, _, _, None)
        | RequestPayload::Locate(_)
        | RequestPayload::GetAttributes(..)
        | RequestPayload::GetAttributeList(_)
        | RequestPayload::AddAttribute(..)
        | RequestPayload::ModifyAttribute(..)
        | RequestPayload::DeleteAttribute(..)
        | RequestPayload::Activate(_)
        | RequestPayload::Revoke(..)
        | RequestPayload::Destroy(_)
        | RequestPayload::Query(_)
        | RequestPayload::DiscoverVersions(_)
        | RequestPayload::RNGRetrieve(_) => None,
    }
}

/// What an answer to a call lacks, where it lacks something.
fn call_lack(call: &Call, payload: &ResponsePayload) -> Option<&'static str>
    requires { IsOfOperation (operation_asked call.now) (response_payload_val payload.now) }
    ensures { option_map (λ text. text.now) result ≡
        call_lack call.now (response_payload_val payload.now) }
{
    match call {
        Call::Rng { num_bytes } => {
            if lacks_bytes(*num_bytes, payload) {
                Some("answer without random bytes")
            } else {
                None
            }
        }
        Call::CreateRsa { .. } => pair_lack(payload),
        Call::Sign { .. } => signature_lack(payload),
        Call::Request { payload: request } => request_lack(request.get(), payload),
        Call::Query
        | Call::Activate { .. }
        | Call::Revoke { .. }
        | Call::Destroy { .. }
        | Call::Rename { .. }
        | Call::Get { .. }
        | Call::Raw { .. } => None,
    }
}

/// Why a payload is no answer to the call, where it is none: it is about another object, or lacks
/// what was asked for. It takes no memory.
pub fn objection(call: &Call, payload: &ResponsePayload) -> Option<&'static str>
    requires { IsOfOperation (operation_asked call.now) (response_payload_val payload.now) }
    ensures { option_map (λ text. text.now) result ≡
        objection call.now (response_payload_val payload.now) }
{
    if is_about_another(call, payload) {
        return Some("answer for another object");
    }
    call_lack(call, payload)
}
