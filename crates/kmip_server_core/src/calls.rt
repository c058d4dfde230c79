//! Calls that change no key, and the choice among all calls.

ghost use Rattle.std.specs.Prelude.{◌≡◌, ℤ, List};
ghost use Rattle.kmip_store.specs.Makers.{MakerKeeps};
ghost use Rattle.kmip_store.specs.declared.call.Call.TheVariants as calls;
ghost use Rattle.kmip_server_core.specs.Answering.{AnswersCall, AnswersCallAlone};

use crate::items::{get_item, query_item, rng_item, sign_item};
use crate::keys::{activate, destroy, rename, revoke};
use crate::message::Stamp;
use crate::pair::create;
use kmip_store::{Call, Maker, Store};
use kmip_wire::{Blob, Text, WireError};

/// Returns which operations the server has, and for which types of objects (KMIP 1.0, 4.24).
fn query(stamp: &Stamp, store: &Store) -> Result<Blob, WireError>
    ensures { AnswersCallAlone calls.Query stamp.now.time store.now store.now result }
{
    let item = query_item(stamp.alloc)?;
    stamp.write(item)
}

/// Returns an object (KMIP 1.0, 4.10).
fn get(stamp: &Stamp, store: &Store, id: &Text) -> Result<Blob, WireError>
    ensures { AnswersCallAlone (calls.GetKey id.now) stamp.now.time store.now store.now result }
{
    let item = get_item(stamp.alloc, store, id)?;
    stamp.write(item)
}

/// Returns random bytes from the maker (KMIP 1.2, 4.35).
fn retrieve<M: Maker>(
    stamp: &Stamp,
    store: &mut Store,
    maker: &mut M,
    num_bytes: i32,
) -> Result<Blob, WireError>
    ensures answers { AnswersCall (calls.RngRetrieve num_bytes) stamp.now.time store.old
        (M.state maker.old) (M.state maker.new) store.new result }
    ensures keeps { MakerKeeps (M.state maker.old) (M.state maker.new) }
{
    let item = rng_item(stamp.alloc, store.rng_retrieve(maker, num_bytes))?;
    stamp.write(item)
}

/// Returns the maker's signature by the key of an object (KMIP 1.2, 4.31).
fn sign<M: Maker>(
    stamp: &Stamp,
    store: &mut Store,
    maker: &mut M,
    id: &Text,
    in_bytes: &Blob,
) -> Result<Blob, WireError>
    ensures answers { AnswersCall (calls.Sign id.now in_bytes.now) stamp.now.time store.old
        (M.state maker.old) (M.state maker.new) store.new result }
    ensures keeps { MakerKeeps (M.state maker.old) (M.state maker.new) }
{
    let signature = store.sign(maker, id.as_str(), in_bytes.as_slice());
    let item = sign_item(stamp.alloc, id, signature)?;
    stamp.write(item)
}

/// Makes a helper's call on the store, and returns the response.
pub fn answer_call<M: Maker>(
    stamp: &Stamp,
    store: &mut Store,
    maker: &mut M,
    call: &Call,
) -> Result<Blob, WireError>
    ensures answers { AnswersCall call.now stamp.now.time store.old
        (M.state maker.old) (M.state maker.new) store.new result }
    ensures keeps { MakerKeeps (M.state maker.old) (M.state maker.new) }
{
    match call {
        Call::Query => query(stamp, store),
        Call::CreateRsaKeyPair(key_length, private_name, public_name) => {
            let key_length = *key_length;
            create(stamp, store, maker, key_length, private_name, public_name)
        }
        Call::RngRetrieve(num_bytes) => {
            let num_bytes = *num_bytes;
            retrieve(stamp, store, maker, num_bytes)
        }
        Call::Sign(id, in_bytes) => sign(stamp, store, maker, id, in_bytes),
        Call::ActivateKey(id) => activate(stamp, store, id),
        Call::RevokeKey(id) => revoke(stamp, store, id),
        Call::DestroyKey(id) => destroy(stamp, store, id),
        Call::RenameKey(id, new_name) => rename(stamp, store, id, new_name),
        Call::GetKey(id) => get(stamp, store, id),
    }
}
