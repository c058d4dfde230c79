//! The report on two captured streams.
ghost use Rattle.std.specs.Prelude.{◌≡◌, ◌≤◌, IfOk, length};
ghost use Rattle.std.specs.Option.{option_map};
ghost use Rattle.kmip_audit.specs.Report.{are_none, end_of, report_of};

use crate::entries::entry_for;
use crate::frames::{after_frame, front_frame};
use crate::reports::{End, Report};
use kmip_wire::{List, OutOfMemory};
use std::alloc::Global;

/// Whether neither side has a frame.
fn are_none(request: Option<&[u8]>, response: Option<&[u8]>) -> bool
    ensures { result ≡
        are_none (option_map (λ frame. frame.now) request.entry)
        (option_map (λ frame. frame.now) response.entry) }
{
    match request {
        Some(_) => false,
        None => response.is_none(),
    }
}

/// How a stream ends, of which these bytes are left after its frames.
fn end_of(stream: &[u8], left: &[u8]) -> End
    requires { length left.now ≤ length stream.now }
    ensures { result ≡ end_of (length stream.now) (length left.now) }
{
    if left.is_empty() {
        End::Whole
    } else {
        End::Torn((stream.len() - left.len()) as u64)
    }
}

/// The report on the bytes that a client sent and on those that it received.
///
/// Each stream is cut into frames from its front: the head of a structure and as many bytes as it
/// says (KMIP 1.0, 9.1.1). The first frame of one side is paired with the first of the other, and
/// so on, whatever they hold. Its only error is `OutOfMemory`.
pub fn audit(alloc: Global, sent: &[u8], received: &[u8]) -> Result<Report, OutOfMemory>
    ensures { IfOk result (λ report. report ≡ report_of sent.now received.now) }
{
    let mut entries = List::new(alloc);
    let mut asked = sent;
    let mut answered = received;
    'frames: loop {
        let request = front_frame(asked);
        let response = front_frame(answered);
        if are_none(request, response) {
            return Ok(Report {
                entries,
                sent_end: end_of(sent, asked),
                received_end: end_of(received, answered),
            });
        }
        entries.push(entry_for(alloc, request, response)?)?;
        asked = after_frame(asked, request);
        answered = after_frame(answered, response);
    }
}
