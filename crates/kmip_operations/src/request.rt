//! The bytes that a call of an operation sends.
ghost use Rattle.std.specs.Prelude.{◌≡◌, IfOk};
ghost use Rattle.kmip_client.specs.Operation.{operation_bytes};
ghost use Rattle.kmip_operations.specs.Calls.{request_of};

use crate::call::{OperationCall, id_of};
use kmip_client::{OperationRequest, write_operation_request};
use kmip_wire::{Blob, OutOfMemory};
use kmip_words::{Settings, bytes_if_any};
use std::alloc::Global;

/// The bytes that a call sends: its one canonical message, with the credential of the settings;
/// `None` exactly where it has no wire form.
pub fn operation_request(
    alloc: Global,
    settings: &Settings,
    call: &OperationCall,
) -> Result<Option<Blob>, OutOfMemory>
    ensures { IfOk result
        (λ request. request ≡ operation_bytes (request_of call.now) settings.now.credential) }
{
    let request = OperationRequest {
        operation: call.operation,
        version: call.version,
        id: id_of(call),
        payload: &call.payload,
    };
    bytes_if_any(write_operation_request(alloc, &request, settings.authentication()))
}
