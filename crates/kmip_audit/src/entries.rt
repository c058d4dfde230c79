//! One exchange.
ghost use Rattle.std.specs.Prelude.{◌≡◌, IfOk, Some};
ghost use Rattle.std.specs.Option.{option_map};
ghost use Rattle.kmip_diag.specs.Diagnostic.{diagnostic};
ghost use Rattle.kmip_request_read.specs.Reading.{request_read};
ghost use Rattle.kmip_audit.specs.Outcomes.{outcome_of};
ghost use Rattle.kmip_audit.specs.Report.{entry_of};

use crate::outcomes::Outcome;
use crate::reports::Entry;
use crate::responses::response_outcome;
use kmip_diag::PrettyPrinter;
use kmip_enums::Operation;
use kmip_request_read::{RequestReadError, from_slice};
use kmip_wire::{OutOfMemory, Text};
use std::alloc::Global;

/// The operation of a request; `None` where no matched request has these bytes.
fn operation_of(alloc: Global, request: &[u8]) -> Result<Option<Operation>, OutOfMemory>
    ensures { IfOk result
        (λ operation.
        operation ≡ option_map (λ request. request.operation) (request_read request.now)) }
{
    match from_slice(alloc, request) {
        Ok(read) => Ok(Some(read.0.operation())),
        Err(RequestReadError::OutOfMemory) => Err(OutOfMemory),
        Err(_) => Ok(None),
    }
}

/// What the exchange of these two frames came to.
fn outcome_for(
    alloc: Global,
    request: Option<&[u8]>,
    response: Option<&[u8]>,
) -> Result<Outcome, OutOfMemory>
    ensures { IfOk result
        (λ outcome. outcome ≡
        outcome_of (option_map (λ frame. frame.now) request.entry)
        (option_map (λ frame. frame.now) response.entry)) }
{
    let Some(request) = request else {
        return Ok(Outcome::NoRequest);
    };
    let Some(operation) = operation_of(alloc, request)? else {
        return Ok(Outcome::UnreadRequest);
    };
    let Some(response) = response else {
        return Ok(Outcome::NoResponse);
    };
    response_outcome(alloc, operation, response)
}

/// The diagnostic of a frame, where there is one.
fn diagnostic_of(alloc: Global, frame: Option<&[u8]>) -> Result<Option<Text>, OutOfMemory>
    ensures { IfOk result
        (λ text. text ≡
        option_map (diagnostic (Some 0x4200)) (option_map (λ frame. frame.now) frame.entry)) }
{
    let Some(frame) = frame else {
        return Ok(None);
    };
    let mut printer = PrettyPrinter::new();
    printer.with_tag_prefix(0x4200);
    Ok(Some(printer.to_diag_string(alloc, frame)?))
}

/// The entry of the frames at one place of the two streams.
pub fn entry_for(
    alloc: Global,
    request: Option<&[u8]>,
    response: Option<&[u8]>,
) -> Result<Entry, OutOfMemory>
    ensures { IfOk result
        (λ entry. entry ≡
        entry_of (option_map (λ frame. frame.now) request.entry)
        (option_map (λ frame. frame.now) response.entry)) }
{
    let outcome = outcome_for(alloc, request, response)?;
    Ok(Entry {
        request: diagnostic_of(alloc, request)?,
        response: diagnostic_of(alloc, response)?,
        outcome,
    })
}
