//! The call that makes a pair of keys.

ghost use Rattle.std.specs.Prelude.{◌≡◌, ◌+◌, IfOk, length};
ghost use Rattle.kmip_store.specs.Makers.{MakerKeeps};
ghost use Rattle.kmip_store.specs.Objects.{identifier};
ghost use Rattle.kmip_store.specs.Steps.{Created, Failed};
ghost use Rattle.kmip_store.specs.declared.call.Call.TheVariants.{CreateRsaKeyPair};
ghost use Rattle.kmip_server_core.specs.Answering.{AnswersCall, IsItemWritten, response_of_pair};
ghost use Rattle.kmip_server_core.specs.Items.{pair_item as item_of_pair};

use crate::items::{failure_item, pair_item};
use crate::message::Stamp;
use kmip_enums::{Operation, ResultReason};
use kmip_response::BatchItem;
use kmip_store::{Maker, Store, StoreError};
use kmip_wire::{Blob, OutOfMemory, Text, WireError};

/// The bytes of the response with this item.
///
/// An item of a pair has only identifiers and fixed texts, which are short: it has a wire form, and
/// writing it fails only where memory runs out. No clause says so.
fn write_response(stamp: &Stamp, item: BatchItem) -> Result<Blob, OutOfMemory>
    ensures { IfOk result (λ bytes. IsItemWritten stamp.now.time item bytes) }
{
    match stamp.write(item) {
        Ok(response) => Ok(response),
        Err(_) => Err(OutOfMemory),
    }
}

/// The bytes of the response with the identifiers of the next pair.
fn created_bytes(stamp: &Stamp, store: &Store) -> Result<Blob, OutOfMemory>
    ensures { IfOk result (λ bytes. IsItemWritten stamp.now.time (item_of_pair
        (Created (identifier (length store.now)) (identifier (length store.now + 1)))) bytes) }
{
    match store.next_identifiers() {
        Ok(pair) => {
            let (private_id, public_id) = pair;
            write_response(stamp, pair_item(private_id, public_id))
        }
        Err(_) => Err(OutOfMemory),
    }
}

/// The bytes of the response that refuses a pair.
fn refusal_bytes(stamp: &Stamp) -> Result<Blob, OutOfMemory>
    ensures { IfOk result (λ bytes. IsItemWritten stamp.now.time (item_of_pair Failed) bytes) }
{
    let item = failure_item(
        stamp.alloc,
        Some(Operation::CreateKeyPair),
        ResultReason::CryptographicFailure,
        "maker failed",
    )?;
    write_response(stamp, item)
}

/// Of the two responses, the one that reports the store's result.
fn choose(
    answer: Result<(Text, Text), StoreError>,
    created: Blob,
    refused: Blob,
) -> Result<Blob, WireError>
    ensures { result ≡ response_of_pair answer created refused }
{
    match answer {
        Ok(_) => Ok(created),
        Err(StoreError::CryptographicFailure) => Ok(refused),
        Err(_) => Err(WireError::OutOfMemory),
    }
}

/// Adds an RSA pair (KMIP 1.0, 4.2). The response with its identifiers and the one that refuses it
/// are both made before the maker is asked.
pub fn create<M: Maker>(
    stamp: &Stamp,
    store: &mut Store,
    maker: &mut M,
    key_length: i32,
    private_name: &Text,
    public_name: &Text,
) -> Result<Blob, WireError>
    ensures answers { AnswersCall (CreateRsaKeyPair key_length private_name.now public_name.now)
        stamp.now.time store.old (M.state maker.old) (M.state maker.new) store.new result }
    ensures keeps { MakerKeeps (M.state maker.old) (M.state maker.new) }
{
    let created = created_bytes(stamp, store)?;
    let refused = refusal_bytes(stamp)?;
    let answer = store.create_rsa_key_pair(
        maker,
        key_length,
        private_name.as_str(),
        public_name.as_str(),
    );
    choose(answer, created, refused)
}
