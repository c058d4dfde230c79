//! The call of an operation that words ask for.
ghost use Rattle.std.specs.Prelude.{◌≡◌, option_map, IfOk};
ghost use Rattle.kmip_operations.specs.Calls.{request_of};
ghost use Rattle.kmip_operation_words.specs.Calls.{table_request};

use crate::calls::operation_words;
use kmip_client::Version;
use kmip_operations::OperationCall;
use kmip_wire::{Blob, OutOfMemory, Text};
use std::alloc::Global;

/// A copy of an ID that may be absent.
fn copy_id(alloc: Global, id: Option<&[u8]>) -> Result<Option<Blob>, OutOfMemory>
    ensures { IfOk result (λ copy. copy ≡ option_map (λ id. id.now) id.entry) }
{
    match id {
        Some(id) => Ok(Some(Blob::of(alloc, id)?)),
        None => Ok(None),
    }
}

/// The call that words of the table ask for, of KMIP 1.2: with the operation and the payload that
/// `operation_words` makes of them, and this Unique Batch Item ID (KMIP 1.0, 6.4), whatever its
/// bytes. `None` exactly where they are no call of the table; `operation_refusal` says why.
pub fn table_call(
    alloc: Global,
    words: &[Text],
    id: Option<&[u8]>,
) -> Result<Option<OperationCall>, OutOfMemory>
    ensures { IfOk result (λ call. option_map request_of call ≡
        table_request words.now (option_map (λ id. id.now) id.entry)) }
{
    let Some((operation, payload)) = operation_words(alloc, words)? else {
        return Ok(None);
    };
    Ok(Some(OperationCall {
        operation,
        version: Version::V1_2,
        id: copy_id(alloc, id)?,
        payload,
    }))
}
