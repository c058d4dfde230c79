//! The requests of the calls that a client has no helper for.
ghost use Rattle.std.specs.Prelude.{◌≡◌, IfOk};
ghost use Rattle.kmip_request_words.specs.Requests as requests;

use bitflags::Flags;
use kmip_enums::ObjectType;
use kmip_request::{Attribute, RequestPayload, TemplateAttribute};
use kmip_types::{CryptographicAlgorithm, CryptographicUsageMask, UniqueIdentifier};
use kmip_wire::{List, OutOfMemory, Text};
use std::alloc::Global;

/// The uses Encrypt and Decrypt: KMIP 1.0, 3.14.
const ENCRYPT_AND_DECRYPT: u32 = 0xC;

/// Asks which objects have this name: KMIP 1.0, 4.8.
pub fn locate_request(alloc: Global, name: Text) -> Result<RequestPayload, OutOfMemory>
    ensures { IfOk result (λ made. made ≡ requests.locate_request name) }
{
    let mut attributes = List::new(alloc);
    attributes.push(Attribute::Name(alloc, name)?)?;
    Ok(RequestPayload::Locate(attributes))
}

/// Asks for all attributes of an object: KMIP 1.0, 4.11.
pub fn attributes_request(id: Text) -> RequestPayload
    ensures { result ≡ requests.attributes_request id }
{
    RequestPayload::GetAttributes(Some(UniqueIdentifier(id)), None)
}

/// The attributes of an AES key: KMIP 1.0, 3.
fn aes_attributes(
    alloc: Global,
    key_length: i32,
    name: Text,
) -> Result<List<Attribute>, OutOfMemory>
    ensures { IfOk result (λ made. made ≡ requests.aes_attributes key_length name) }
{
    let uses = CryptographicUsageMask::from_bits_retain(ENCRYPT_AND_DECRYPT);
    let mut attributes = List::new(alloc);
    attributes.push(Attribute::CryptographicAlgorithm(alloc, CryptographicAlgorithm::AES)?)?;
    attributes.push(Attribute::CryptographicLength(alloc, key_length)?)?;
    attributes.push(Attribute::CryptographicUsageMask(alloc, uses)?)?;
    attributes.push(Attribute::Name(alloc, name)?)?;
    Ok(attributes)
}

/// Asks for an AES key of this length in bits: KMIP 1.0, 4.1.
pub fn create_aes_request(
    alloc: Global,
    key_length: i32,
    name: Text,
) -> Result<RequestPayload, OutOfMemory>
    ensures { IfOk result (λ made. made ≡ requests.create_aes_request key_length name) }
{
    let attributes = aes_attributes(alloc, key_length, name)?;
    Ok(RequestPayload::Create(
        ObjectType::SymmetricKey,
        TemplateAttribute::unnamed(attributes),
    ))
}

/// Asks which versions of KMIP the server supports: KMIP 1.1, 4.26.
pub fn discover_request(alloc: Global) -> RequestPayload
    ensures { result ≡ requests.discover_request }
{
    RequestPayload::DiscoverVersions(List::new(alloc))
}
