//! The requests that a client's helpers make, and that a server recognizes as theirs, each with
//! memory of its own. The only error is `OutOfMemory`. That for random bytes, which takes no memory,
//! is only defined (`rng_request`).

ghost use Rattle.std.specs.Prelude.{◌≡◌, ◌∷◌, [], ℕ, List, None, Some, IfOk};
ghost use Rattle.std.specs.Int.{cast_signed, w32};
ghost use Rattle.kmip_enums.specs.declared.query_function.QueryFunction.TheVariants.{QueryOperations};
ghost use Rattle.kmip_enums.specs.declared.query_function.QueryFunction.TheVariants.{QueryObjects};
ghost use Rattle.kmip_enums.specs.declared.query_function.QueryFunction.TheVariants.{QueryServerInformation};
ghost use Rattle.kmip_types.specs.UsageMask.{usage_bits};
ghost use Rattle.kmip_request.specs.Requests as requests;

use crate::payload::RequestPayload;
use kmip_enums::{QueryFunction, RevocationReasonCode};
use kmip_request_objects::{
    Attribute, CommonTemplateAttribute, PrivateKeyTemplateAttribute, PublicKeyTemplateAttribute,
    RevocationReason,
};
use kmip_types::{
    CryptographicAlgorithm, CryptographicParameters, CryptographicUsageMask, Data, DataLength,
    HashingAlgorithm, PaddingMethod, UniqueIdentifier,
};
use kmip_wire::{Blob, List, OutOfMemory, Text};
use std::alloc::Global;

/// Asks which operations and which types of objects the server supports, and for information about
/// it: KMIP 1.0, 4.24.
pub fn query_request(alloc: Global) -> Result<RequestPayload, OutOfMemory>
    ensures { IfOk result (λ made. made ≡ requests.query_request) }
{
    let mut functions = List::new(alloc);
    functions.push(QueryFunction::QueryOperations)?;
    functions.push(QueryFunction::QueryObjects)?;
    functions.push(QueryFunction::QueryServerInformation)?;
    Ok(RequestPayload::Query(functions))
}

/// A list of two attributes.
fn two_attributes(
    alloc: Global,
    first: Attribute,
    second: Attribute,
) -> Result<List<Attribute>, OutOfMemory>
    ensures { IfOk result (λ made. made ≡ first ∷ second ∷ []) }
{
    let mut attributes = List::new(alloc);
    attributes.push(first)?;
    attributes.push(second)?;
    Ok(attributes)
}

/// The attributes of both keys of an RSA pair.
fn pair_attributes(alloc: Global, key_length: i32) -> Result<List<Attribute>, OutOfMemory>
    ensures { IfOk result (λ made. made ≡ requests.pair_attributes key_length) }
{
    let algorithm = Attribute::CryptographicAlgorithm(alloc, CryptographicAlgorithm::RSA)?;
    let length = Attribute::CryptographicLength(alloc, key_length)?;
    two_attributes(alloc, algorithm, length)
}

/// The attributes of the key that signs.
fn signing_attributes(alloc: Global, name: Text) -> Result<List<Attribute>, OutOfMemory>
    ensures { IfOk result (λ made. made ≡ requests.key_attributes name 0x1) }
{
    let name = Attribute::Name(alloc, name)?;
    let usage = Attribute::CryptographicUsageMask(alloc, CryptographicUsageMask::Sign)?;
    two_attributes(alloc, name, usage)
}

/// The attributes of the key that verifies.
fn verifying_attributes(alloc: Global, name: Text) -> Result<List<Attribute>, OutOfMemory>
    ensures { IfOk result (λ made. made ≡ requests.key_attributes name 0x2) }
{
    let name = Attribute::Name(alloc, name)?;
    let usage = Attribute::CryptographicUsageMask(alloc, CryptographicUsageMask::Verify)?;
    two_attributes(alloc, name, usage)
}

/// Asks for an RSA key pair, whose length is in bits: KMIP 1.0, 4.2.
pub fn key_pair_request(
    alloc: Global,
    key_length: i32,
    private_key_name: Text,
    public_key_name: Text,
) -> Result<RequestPayload, OutOfMemory>
    ensures { IfOk result (λ made. made ≡
        requests.key_pair_request key_length private_key_name public_key_name) }
{
    let both = pair_attributes(alloc, key_length)?;
    let signing = signing_attributes(alloc, private_key_name)?;
    let verifying = verifying_attributes(alloc, public_key_name)?;
    Ok(RequestPayload::CreateKeyPair(
        Some(CommonTemplateAttribute::unnamed(both)),
        Some(PrivateKeyTemplateAttribute::unnamed(signing)),
        Some(PublicKeyTemplateAttribute::unnamed(verifying)),
    ))
}

/// RSA with PKCS #1 v1.5 padding, of the SHA-256 digest.
fn signing_parameters() -> CryptographicParameters
    ensures { result ≡ requests.signing_parameters }
{
    CryptographicParameters::default()
        .with_padding_method(PaddingMethod::PKCS1_v1_5)
        .with_hashing_algorithm(HashingAlgorithm::SHA256)
        .with_cryptographic_algorithm(CryptographicAlgorithm::RSA)
}

/// The identifier of an object.
fn identifier(alloc: Global, id: &str) -> Result<UniqueIdentifier, OutOfMemory>
    ensures { IfOk result (λ made. made ≡ record { 0 = id.now }) }
{
    Ok(UniqueIdentifier(Text::of(alloc, id)?))
}

/// Asks for a signature of these bytes: KMIP 1.2, 4.31.
pub fn sign_request(
    alloc: Global,
    private_key_id: &str,
    in_bytes: &[u8],
) -> Result<RequestPayload, OutOfMemory>
    ensures { IfOk result (λ made. made ≡ requests.sign_request private_key_id.now in_bytes.now) }
{
    let id = identifier(alloc, private_key_id)?;
    let data = Data(Blob::of(alloc, in_bytes)?);
    Ok(RequestPayload::Sign(Some(id), Some(signing_parameters()), data))
}

/// Asks to make a key active: KMIP 1.0, 4.18.
pub fn activate_request(alloc: Global, id: &str) -> Result<RequestPayload, OutOfMemory>
    ensures { IfOk result (λ made. made ≡ requests.activate_request id.now) }
{
    Ok(RequestPayload::Activate(Some(identifier(alloc, id)?)))
}

/// Asks to revoke a key that is no longer needed: KMIP 1.0, 4.19.
pub fn revoke_request(alloc: Global, id: &str) -> Result<RequestPayload, OutOfMemory>
    ensures { IfOk result (λ made. made ≡ requests.revoke_request id.now) }
{
    let reason = RevocationReason(RevocationReasonCode::CessationOfOperation, None);
    Ok(RequestPayload::Revoke(Some(identifier(alloc, id)?), reason, None))
}

/// Asks to destroy an object: KMIP 1.0, 4.20.
pub fn destroy_request(alloc: Global, id: &str) -> Result<RequestPayload, OutOfMemory>
    ensures { IfOk result (λ made. made ≡ requests.destroy_request id.now) }
{
    Ok(RequestPayload::Destroy(Some(identifier(alloc, id)?)))
}

/// Asks to change the first name of an object: KMIP 1.0, 4.14.
pub fn rename_request(
    alloc: Global,
    id: &str,
    new_name: Text,
) -> Result<RequestPayload, OutOfMemory>
    ensures { IfOk result (λ made. made ≡ requests.rename_request id.now new_name) }
{
    let id = identifier(alloc, id)?;
    let name = Attribute::Name(alloc, new_name)?;
    Ok(RequestPayload::ModifyAttribute(Some(id), name))
}

/// Asks for an object: KMIP 1.0, 4.10.
pub fn get_request(alloc: Global, id: &str) -> Result<RequestPayload, OutOfMemory>
    ensures { IfOk result (λ made. made ≡ requests.get_request id.now) }
{
    Ok(RequestPayload::Get(Some(identifier(alloc, id)?), None, None, None))
}
