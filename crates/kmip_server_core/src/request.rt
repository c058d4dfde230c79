//! The request of a helper's call.

ghost use Rattle.std.specs.Prelude.{◌≡◌, ◌↔◌, true, false, IsTrue, Some, IfOk};
ghost use Rattle.kmip_shape.specs.Fits.{Fits};
ghost use Rattle.kmip_request.specs.Fits.{FitsCredential};
ghost use Rattle.kmip_request.specs.Message.{request_bytes};
ghost use Rattle.kmip_request.specs.Tables.{request_payload};
ghost use Rattle.kmip_request.specs.Values.{request_payload_val};
ghost use Rattle.kmip_request_read.specs.Reading.{request_for, request_read};
ghost use Rattle.kmip_server_core.specs.Requests as calls;

use kmip_request::{
    RequestPayload, activate_request, destroy_request, get_request, key_pair_request,
    query_request, rename_request, revoke_request, sign_request, to_vec,
};
use kmip_request_read::{RequestReadError, from_slice, request_is_read};
use kmip_shape::Item;
use kmip_store::Call;
use kmip_types::DataLength;
use kmip_types::auth::CredentialType;
use kmip_wire::{OutOfMemory, TryClone, WireError};
use std::alloc::Global;

/// The request of a helper's call.
pub fn request_of(alloc: Global, call: &Call) -> Result<RequestPayload, OutOfMemory>
    ensures { IfOk result (λ payload. payload ≡ calls.request_of call.now) }
{
    match call {
        Call::Query => query_request(alloc),
        Call::CreateRsaKeyPair(key_length, private_name, public_name) => key_pair_request(
            alloc,
            *key_length,
            private_name.try_clone(alloc)?,
            public_name.try_clone(alloc)?,
        ),
        Call::RngRetrieve(num_bytes) => Ok(RequestPayload::RNGRetrieve(DataLength(*num_bytes))),
        Call::Sign(id, in_bytes) => sign_request(alloc, id.as_str(), in_bytes.as_slice()),
        Call::ActivateKey(id) => activate_request(alloc, id.as_str()),
        Call::RevokeKey(id) => revoke_request(alloc, id.as_str()),
        Call::DestroyKey(id) => destroy_request(alloc, id.as_str()),
        Call::RenameKey(id, new_name) => rename_request(
            alloc,
            id.as_str(),
            new_name.try_clone(alloc)?,
        ),
        Call::GetKey(id) => get_request(alloc, id.as_str()),
    }
}

/// What holds of each call: the numbers of its request are in range, and its texts are UTF-8.
pub fn call_known(alloc: Global, call: &Call) -> Result<(), OutOfMemory>
    ensures { IfOk result (λ _.
        Fits request_payload (request_payload_val (calls.request_of call.now))) }
{
    let payload = request_of(alloc, call)?;
    payload.fits();
    Ok(())
}

/// The texts of a credential are UTF-8.
fn texts_known(credential: &Option<CredentialType>)
    ensures { FitsCredential credential.now }
{
    match credential {
        Some(CredentialType::UsernameAndPassword(credential)) => {
            let _username = credential.username.as_str();
            match &credential.password {
                Some(password) => {
                    let _password = password.as_str();
                }
                None => {}
            }
        }
        None => {}
    }
}

/// Whether bytes are the request of this call with this credential.
pub fn is_made_by(
    alloc: Global,
    call: &Call,
    credential: Option<CredentialType>,
    bytes: &[u8],
) -> Result<bool, OutOfMemory>
    ensures same { IfOk result (λ same. same ≡ true →
        request_read bytes.now ≡ Some (request_for (calls.request_of call.now))) }
    ensures other { IfOk result (λ same. same ≡ false →
        request_bytes (calls.request_of call.now) credential ≡ Some bytes.now → ⊥) }
{
    request_is_read();
    let request = request_of(alloc, call)?;
    request.fits();
    texts_known(&credential);
    match to_vec(alloc, request, credential) {
        Ok(written) => Ok(written.as_slice() == bytes),
        Err(WireError::NoForm) => Ok(false),
        Err(WireError::Malformed | WireError::OutOfMemory) => Err(OutOfMemory),
    }
}

/// Whether the bytes are the request of this call, with any credential.
pub fn is_request_of(alloc: Global, call: &Call, bytes: &[u8]) -> Result<bool, OutOfMemory>
    ensures { IfOk result (λ is. IsTrue is ↔
        (request_read bytes.now ≡ Some (request_for (calls.request_of call.now)))) }
{
    match from_slice(alloc, bytes) {
        Ok((payload, credential)) => {
            drop(payload);
            is_made_by(alloc, call, credential, bytes)
        }
        Err(RequestReadError::OutOfMemory) => Err(OutOfMemory),
        Err(RequestReadError::Malformed | RequestReadError::NotCanonical) => Ok(false),
    }
}
