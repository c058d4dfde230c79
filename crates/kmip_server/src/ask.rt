//! A helper's call, whichever it is.
ghost use Rattle.kmip_store.specs.declared.call.Call.TheVariants as calls;
ghost use Rattle.kmip_server.specs.Calls.{HelperRan};

use crate::answers::Answered;
use kmip_client::{Client, Result};
use kmip_link::Link;
use kmip_store::Call;
use kmip_wire::{Text, TryClone};
use std::alloc::Global;

/// Asks for a pair, with copies of both names.
fn create<T: Link>(
    alloc: Global,
    client: &mut Client<T>,
    key_length: i32,
    private_name: &Text,
    public_name: &Text,
) -> Result<Answered>
    ensures { HelperRan T.state
        (calls.CreateRsaKeyPair key_length private_name.now public_name.now)
        client.old client.new result }
{
    let private_name = private_name.try_clone(alloc)?;
    let public_name = public_name.try_clone(alloc)?;
    client
        .create_rsa_key_pair(alloc, key_length, private_name, public_name)
        .map(|identifiers| Answered::Pair(identifiers.0, identifiers.1))
}

/// Asks to give a key another name, with a copy of it.
fn rename<T: Link>(
    alloc: Global,
    client: &mut Client<T>,
    id: &Text,
    new_name: &Text,
) -> Result<Answered>
    ensures { HelperRan T.state (calls.RenameKey id.now new_name.now) client.old client.new result }
{
    let new_name = new_name.try_clone(alloc)?;
    client
        .rename_key(alloc, id.as_str(), new_name)
        .map(Answered::Renamed)
}

/// Makes the call of a helper.
pub fn ask<T: Link>(alloc: Global, client: &mut Client<T>, call: &Call) -> Result<Answered>
    ensures { HelperRan T.state call.now client.old client.new result }
{
    match call {
        Call::Query => client.query(alloc).map(Answered::Query),
        Call::CreateRsaKeyPair(key_length, private_name, public_name) => {
            let bits = *key_length;
            create(alloc, client, bits, private_name, public_name)
        }
        Call::RngRetrieve(num_bytes) => {
            let count = *num_bytes;
            client.rng_retrieve(alloc, count).map(Answered::Random)
        }
        Call::Sign(id, bytes) => client
            .sign(alloc, id.as_str(), bytes.as_slice())
            .map(Answered::Signed),
        Call::ActivateKey(id) => client
            .activate_key(alloc, id.as_str())
            .map(|_| Answered::Unit),
        Call::RevokeKey(id) => client
            .revoke_key(alloc, id.as_str())
            .map(|_| Answered::Unit),
        Call::DestroyKey(id) => client
            .destroy_key(alloc, id.as_str())
            .map(|_| Answered::Unit),
        Call::RenameKey(id, new_name) => rename(alloc, client, id, new_name),
        Call::GetKey(id) => client.get_key(alloc, id.as_str()).map(Answered::Got),
    }
}
