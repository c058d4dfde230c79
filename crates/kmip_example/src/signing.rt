//! Signing with a key that is made for it.
ghost use Rattle.std.specs.Prelude.{◌≡◌, IsTrue, false};
ghost use Rattle.kmip_example.specs.Signing.{SaysItSigns, SignsWithNewKey};

use kmip_client::{Client, Error};
use kmip_enums::Operation;
use kmip_link::Link;
use kmip_response::QueryResponsePayload;
use kmip_wire::{Blob, Text};
use std::alloc::Global;

/// A new key pair, and what its private key signed.
#[derive(Drop)]
pub struct Signed {
    /// The identifier of the private key.
    pub private_key: Text,
    /// The identifier of the public key.
    pub public_key: Text,
    /// The signature of the message.
    pub signature: Blob,
}

/// Whether the server says that it signs.
fn says_it_signs(server: &QueryResponsePayload) -> bool
    ensures says { IsTrue result → SaysItSigns server.now }
    ensures not { result ≡ false → SaysItSigns server.now → ⊥ }
{
    match &server.operations {
        Some(operations) => operations.as_slice().contains(&Operation::Sign),
        None => false,
    }
}

/// Signs the message with a key that is made for it: asks what the server can do, makes a pair,
/// activates the private key and signs with it. Returns `None` where the server does not sign. The
/// first error ends it.
pub fn sign_with_new_key<T: Link>(
    alloc: Global,
    client: &mut Client<T>,
    message: &[u8],
) -> Result<Option<Signed>, Error>
    ensures { SignsWithNewKey T.state message.now client.old client.new result }
{
    let server = client.query(alloc)?;
    if !says_it_signs(&server) {
        return Ok(None);
    }
    let private_name = Text::of(alloc, "issuing")?;
    let public_name = Text::of(alloc, "issuing-public")?;
    let pair = client.create_rsa_key_pair(alloc, 2048, private_name, public_name)?;
    let (private_key, public_key) = pair;
    client.activate_key(alloc, private_key.as_str())?;
    let signed = client.sign(alloc, private_key.as_str(), message)?;
    Ok(Some(Signed {
        private_key,
        public_key,
        signature: signed.signature_data,
    }))
}
