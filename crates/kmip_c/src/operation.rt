//! Calls of any operation, given by C as bytes.
ghost use Rattle.std.specs.Prelude.{◌≡◌, ℕ, List, IfOk, MatchOption};
ghost use Rattle.kmip_client.specs.Operation.{TreeRequest};
ghost use Rattle.kmip_operations.specs.Calls.{Asks, request_of};
ghost use Rattle.kmip_c.specs.Calls.{id_of};
ghost use Rattle.kmip_c.specs.Operations.{AsksInBytes, AsksForNone};

use crate::call::id_of;
use kmip_operations::{
    OperationCall, operation_call, operation_named, payload_refusal, version_written,
};
use kmip_wire::{OutOfMemory, Text};
use std::alloc::Global;
use std::str;

/// The call that a name, a version, a Unique Batch Item ID, where it is not empty, and a payload in
/// JSON ask for; `None` where they ask for none, whatever the ID.
fn operation_of_texts(
    alloc: Global,
    name: &str,
    version: &str,
    id: &[u8],
    payload: &str,
) -> Result<Option<OperationCall>, OutOfMemory>
    ensures { IfOk result
        (λ call. MatchOption call (AsksForNone name.now version.now payload.now)
        (λ call. Asks name.now version.now (id_of id.now) payload.now (request_of call))) }
{
    operation_call(alloc, name, version, id_of(id), payload)
}

/// The same of bytes; `None` also where the name, the version or the payload is not UTF-8.
pub fn operation_of(
    alloc: Global,
    name: &[u8],
    version: &[u8],
    id: &[u8],
    payload: &[u8],
) -> Result<Option<OperationCall>, OutOfMemory>
    ensures { IfOk result
        (λ call. MatchOption call (AsksForNone name.now version.now payload.now)
        (λ call. AsksInBytes name.now version.now id.now payload.now (request_of call))) }
{
    let Ok(name) = str::from_utf8(name) else {
        return Ok(None);
    };
    let Ok(version) = str::from_utf8(version) else {
        return Ok(None);
    };
    let Ok(payload) = str::from_utf8(payload) else {
        return Ok(None);
    };
    operation_of_texts(alloc, name, version, id, payload)
}

/// Why a name, a version and a payload ask for no call.
fn why_none(
    alloc: Global,
    name: &[u8],
    version: &[u8],
    payload: &[u8],
) -> Result<Text, OutOfMemory> {
    let not_text = "the operation, the version or the payload is not UTF-8";
    let Ok(name) = str::from_utf8(name) else {
        return Text::of(alloc, not_text);
    };
    let Ok(version) = str::from_utf8(version) else {
        return Text::of(alloc, not_text);
    };
    let Ok(payload) = str::from_utf8(payload) else {
        return Text::of(alloc, not_text);
    };
    if version_written(version).is_none() {
        return Text::of(alloc, "the version is none of 1.0, 1.1 and 1.2");
    }
    if operation_named(name).is_none() {
        return Text::of(alloc, "KMIP 1.2 has no operation of this name");
    }
    let mut text = Text::of(alloc, "the payload: ")?;
    if let Some(why) = payload_refusal(alloc, payload)? {
        text.push_str(why.as_str())?;
    }
    Ok(text)
}

/// Why a name, a version and a payload ask for no call; `None` exactly where they ask for one.
pub fn operation_refusal(
    alloc: Global,
    name: &[u8],
    version: &[u8],
    payload: &[u8],
) -> Result<Option<Text>, OutOfMemory>
    ensures { IfOk result (λ why. MatchOption why
        ((id : List ℕ) → (request : TreeRequest) ×
        AsksInBytes name.now version.now id payload.now request)
        (λ _. AsksForNone name.now version.now payload.now)) }
{
    let found = operation_of(alloc, name, version, &[], payload)?;
    match found {
        Some(_call) => Ok(None),
        None => Ok(Some(why_none(alloc, name, version, payload)?)),
    }
}
