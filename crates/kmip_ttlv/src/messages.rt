//! What the program says of a failure.
ghost use Rattle.std.specs.Prelude.{IfOk};
ghost use Rattle.kmip_ttlv.specs.Program.{IsMessage};

use crate::program::{Failure, bytes_in};
use itoa::Buffer;
use kmip_encodings::push_refusal;
use kmip_faults::fault_of;
use kmip_wire::{OutOfMemory, Text, front_len};
use kmip_xml::{TextError, text_refusal_of};
use std::alloc::Global;
use std::str;

/// Why a text is not read, and where.
fn push_error(
    alloc: Global,
    out: &mut Text,
    input: &[u8],
    error: &TextError,
) -> Result<(), OutOfMemory> {
    let Ok(text) = str::from_utf8(input) else {
        return out.push_str("the input is not UTF-8");
    };
    push_refusal(out, &text_refusal_of(alloc, text, error)?)
}

/// Appends a number of bytes.
fn push_byte(out: &mut Text, front: &str, at: u64) -> Result<(), OutOfMemory> {
    out.push_str(front)?;
    out.push_str(Buffer::new().format(at))
}

/// Why bytes with an item at their front are not that item alone.
fn push_rest(out: &mut Text, rest: &[u8], at: usize) -> Result<(), OutOfMemory> {
    push_byte(out, "an item ends at byte ", at as u64)?;
    if front_len(rest).is_some() {
        out.push_str(", and a second one follows")
    } else {
        out.push_str(", and what follows is no item")
    }
}

/// Why bytes are not one item.
fn push_no_item(out: &mut Text, bytes: &[u8]) -> Result<(), OutOfMemory> {
    if bytes.is_empty() {
        return out.push_str("the input is empty");
    }
    if let Some(len) = front_len(bytes) {
        if len <= bytes.len() {
            return push_rest(out, &bytes[len..], len);
        }
    }
    match fault_of(bytes) {
        Some(fault) => {
            push_byte(out, "no item: at byte ", fault.at())?;
            out.push_str(": ")?;
            out.push_str(fault.why())
        }
        None => out.push_str("the input is not one well-formed item"),
    }
}

/// Why an input is not one item, in hex or as its bytes.
fn push_not_item(alloc: Global, out: &mut Text, input: &[u8]) -> Result<(), OutOfMemory> {
    let bytes = bytes_in(alloc, input)?;
    push_no_item(out, bytes.as_slice())?;
    if bytes.as_slice() == input && !input.is_empty() {
        out.push_str("; the input is taken as bytes, since it is not of pairs of hex digits")?;
    }
    Ok(())
}

/// Why there is no output.
fn reason(alloc: Global, input: &[u8], failure: &Failure) -> Result<Text, OutOfMemory> {
    let mut out = Text::new(alloc);
    match failure {
        Failure::NotItem => push_not_item(alloc, &mut out, input)?,
        Failure::NotText => out.push_str("the input is not UTF-8")?,
        Failure::Unread(error) => push_error(alloc, &mut out, input, error)?,
        Failure::NoForm => {
            out.push_str("an item is too long, or a Big Integer's length no multiple of 8")?
        }
        Failure::OutOfMemory => out.push_str("out of memory")?,
    }
    Ok(out)
}

/// A line that says why there is no output for this input, behind the program's name.
pub fn message(alloc: Global, input: &[u8], failure: &Failure) -> Result<Text, OutOfMemory>
    ensures { IfOk result IsMessage }
{
    let why = reason(alloc, input, failure)?;
    let mut out = Text::of(alloc, "kmip_ttlv: ")?;
    out.push_str(why.as_str())?;
    out.push_str("\n")?;
    Ok(out)
}
