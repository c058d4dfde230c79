//! Which helper's call a request is.

ghost use Rattle.std.specs.Prelude.{◌≡◌, Some, IfOk};
ghost use Rattle.kmip_request.specs.Message.{request_bytes};
ghost use Rattle.kmip_request_read.specs.Reading.{request_for, request_read};
ghost use Rattle.kmip_server_core.specs.Picked.{id_text, value_name, value_number, first_name};
ghost use Rattle.kmip_server_core.specs.Picked.{second_number, length_in, private_name, public_name};
ghost use Rattle.kmip_server_core.specs.Picked.{candidate_call};
ghost use Rattle.kmip_server_core.specs.Requests as calls;

use crate::request::is_made_by;
use kmip_request::{
    Attribute, CommonTemplateAttribute, PrivateKeyTemplateAttribute, PublicKeyTemplateAttribute,
    RequestPayload,
};
use kmip_store::Call;
use kmip_types::auth::CredentialType;
use kmip_types::{AttributeValue, Data, DataLength, UniqueIdentifier};
use kmip_wire::{Blob, List, OutOfMemory, Text, TryClone};
use std::alloc::Global;

/// The text of an identifier, and the empty text where there is none.
fn identifier(alloc: Global, id: &Option<UniqueIdentifier>) -> Result<Text, OutOfMemory>
    ensures { IfOk result (λ text. text ≡ id_text id.now) }
{
    match id {
        Some(UniqueIdentifier(id)) => id.try_clone(alloc),
        None => Ok(Text::new(alloc)),
    }
}

/// The text of an attribute value that is a name, and else the empty text.
fn name(alloc: Global, value: &AttributeValue) -> Result<Text, OutOfMemory>
    ensures { IfOk result (λ text. text ≡ value_name value.now) }
{
    match value {
        AttributeValue::Name(name, _) => name.0.try_clone(alloc),
        _ => Ok(Text::new(alloc)),
    }
}

/// The text of the name in the first attribute.
fn name_first(alloc: Global, attributes: &Option<List<Attribute>>) -> Result<Text, OutOfMemory>
    ensures { IfOk result (λ text. text ≡ first_name attributes.now) }
{
    match attributes {
        Some(attributes) => match attributes.as_slice() {
            [attribute, ..] => name(alloc, &attribute.2),
            _ => Ok(Text::new(alloc)),
        },
        None => Ok(Text::new(alloc)),
    }
}

/// The name of the private key.
fn name_of_private(
    alloc: Global,
    template: &Option<PrivateKeyTemplateAttribute>,
) -> Result<Text, OutOfMemory>
    ensures { IfOk result (λ text. text ≡ private_name template.now) }
{
    match template {
        Some(template) => name_first(alloc, &template.1),
        None => Ok(Text::new(alloc)),
    }
}

/// The name of the public key.
fn name_of_public(
    alloc: Global,
    template: &Option<PublicKeyTemplateAttribute>,
) -> Result<Text, OutOfMemory>
    ensures { IfOk result (λ text. text ≡ public_name template.now) }
{
    match template {
        Some(template) => name_first(alloc, &template.1),
        None => Ok(Text::new(alloc)),
    }
}

/// The number of an attribute value that is an Integer, and else 0.
fn number(value: &AttributeValue) -> i32
    ensures { result ≡ value_number value.now }
{
    match value {
        AttributeValue::Integer(number) => *number,
        _ => 0,
    }
}

/// The number in the second attribute.
fn number_second(attributes: &Option<List<Attribute>>) -> i32
    ensures { result ≡ second_number attributes.now }
{
    match attributes {
        Some(attributes) => match attributes.as_slice() {
            [_, attribute, ..] => number(&attribute.2),
            _ => 0,
        },
        None => 0,
    }
}

/// The length of both keys in bits.
fn key_length(template: &Option<CommonTemplateAttribute>) -> i32
    ensures { result ≡ length_in template.now }
{
    match template {
        Some(template) => number_second(&template.1),
        None => 0,
    }
}

/// The one call whose request may be this payload.
fn candidate_call(alloc: Global, payload: &RequestPayload) -> Result<Option<Call>, OutOfMemory>
    ensures { IfOk result (λ found. found ≡ candidate_call payload.now) }
{
    let call = match payload {
        RequestPayload::Query(_) => Call::Query,
        RequestPayload::CreateKeyPair(common, private, public) => Call::CreateRsaKeyPair(
            key_length(common),
            name_of_private(alloc, private)?,
            name_of_public(alloc, public)?,
        ),
        RequestPayload::RNGRetrieve(DataLength(num_bytes)) => Call::RngRetrieve(*num_bytes),
        RequestPayload::Sign(id, _, Data(in_bytes)) => Call::Sign(
            identifier(alloc, id)?,
            in_bytes.try_clone(alloc)?,
        ),
        RequestPayload::Activate(id) => Call::ActivateKey(identifier(alloc, id)?),
        RequestPayload::Revoke(id, ..) => Call::RevokeKey(identifier(alloc, id)?),
        RequestPayload::Destroy(id) => Call::DestroyKey(identifier(alloc, id)?),
        RequestPayload::ModifyAttribute(id, attribute) => Call::RenameKey(
            identifier(alloc, id)?,
            name(alloc, &attribute.2)?,
        ),
        RequestPayload::Get(id, ..) => Call::GetKey(identifier(alloc, id)?),
        _ => return Ok(None),
    };
    Ok(Some(call))
}

/// The helper's call whose request this payload is, where there is one. The bytes are those of the
/// payload with this credential.
///
/// The arguments are taken from their places in the payload, and then the request of the call with
/// these arguments is compared with the bytes as a whole.
#[tactic(auto, using(crate::proofs::Requested::no_candidate))]
pub fn call_of(
    alloc: Global,
    payload: &RequestPayload,
    credential: Option<CredentialType>,
    bytes: &[u8],
) -> Result<Option<Call>, OutOfMemory>
    requires read { request_read bytes.now ≡ Some (request_for payload.now) }
    requires written { request_bytes payload.now credential ≡ Some bytes.now }
    ensures { IfOk result (λ found. found ≡ calls.call_of (request_for payload.now)) }
{
    let found = candidate_call(alloc, payload)?;
    match found {
        Some(call) => {
            let same = is_made_by(alloc, &call, credential, bytes)?;
            if same { Ok(Some(call)) } else { Ok(None) }
        }
        None => Ok(None),
    }
}
