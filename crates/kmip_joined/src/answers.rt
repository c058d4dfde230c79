//! The line of what a helper returned.
ghost use Rattle.std.specs.Prelude.{◌≡◌, IfOk};
ghost use Rattle.kmip_shape.specs.declared.style.Style.TheVariants.{Bare};
ghost use Rattle.kmip_words.specs.Exchange.{Shows};
ghost use Rattle.kmip_joined.specs.Reports.{answered_shown, ended_so};

use kmip_client::Error;
use kmip_server::Answered;
use kmip_shape::Style;
use kmip_wire::{OutOfMemory, Text};
use kmip_words::{Ending, push_pair, push_payload, show_done, show_error};
use std::alloc::Global;

/// How a call ended whose payload was to be added as a line.
fn ending_after(added: Result<(), OutOfMemory>) -> Result<Ending, OutOfMemory>
    ensures { result ≡ ended_so added }
{
    match added {
        Ok(()) => Ok(Ending::Answered),
        Err(error) => Err(error),
    }
}

/// Adds the line of what a helper returned, and returns how the call ended.
pub fn show_answer(
    alloc: Global,
    answer: &Result<Answered, Error>,
    line: &mut Text,
) -> Result<Ending, OutOfMemory>
    ensures { IfOk result
        (λ ending. Shows answered_shown Bare answer.now ending line.old line.new) }
{
    match answer {
        Ok(Answered::Unit) => show_done(alloc, Style::Bare, Ok(()), line),
        Ok(Answered::Pair(first, second)) => ending_after(push_pair(
            alloc,
            Style::Bare,
            first,
            second,
            line,
        )),
        Ok(Answered::Query(payload)) => ending_after(push_payload(
            alloc,
            Style::Bare,
            payload,
            line,
        )),
        Ok(Answered::Random(payload)) => ending_after(push_payload(
            alloc,
            Style::Bare,
            payload,
            line,
        )),
        Ok(Answered::Signed(payload)) => ending_after(push_payload(
            alloc,
            Style::Bare,
            payload,
            line,
        )),
        Ok(Answered::Renamed(payload)) => ending_after(push_payload(
            alloc,
            Style::Bare,
            payload,
            line,
        )),
        Ok(Answered::Got(payload)) => ending_after(push_payload(alloc, Style::Bare, payload, line)),
        Err(error) => show_error(alloc, Style::Bare, error, line),
    }
}
