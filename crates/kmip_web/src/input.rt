//! Texts as bytes: hex or base64, the marked lines of a log, or a hex dump of a followed stream.
ghost use Rattle.std.specs.List.{slice_split};
ghost use Rattle.std.specs.Prelude.{◌≡◌, ◌++◌, ◌<◌, IfOk, length, take, option_map};
ghost use Rattle.kmip_web.specs.Input.{is_gap, without_gaps, digit_of, is_dump, dump_part};
ghost use Rattle.kmip_web.specs.Input.{unindented, part_of, is_feed, digits_of, part_digits};
ghost use Rattle.kmip_web.specs.Input.{has_zero, base64_bytes, digits_bytes, text_bytes};

use base64::DecodeAllocError;
use base64::engine::general_purpose::STANDARD;
use hex::FromHexError;
use kmip_wire::OutOfMemory;
use std::alloc::Global;

/// Whether a byte only separates digits: a space, a tab, a carriage return, `:` or `,`.
fn is_gap(byte: u8) -> bool
    ensures { result ≡ is_gap byte }
{
    byte == b' ' || byte == b'\t' || byte == b'\r' || byte == b':' || byte == b','
}

fn push_digit(digits: &mut Vec<u8>, byte: u8) -> Result<(), OutOfMemory>
    ensures { IfOk result (λ _. digits.new.items ≡ digits.old.items ++ digit_of byte) }
{
    if is_gap(byte) {
        return Ok(());
    }
    digits.push(byte)?;
    Ok(())
}

/// Adds what is no gap.
fn push_digits(digits: &mut Vec<u8>, part: &[u8]) -> Result<(), OutOfMemory>
    ensures { IfOk result (λ _. digits.new.items ≡ digits.old.items ++ without_gaps part.now) }
{
    for byte in part {
        push_digit(digits, *byte)?;
    }
    Ok(())
}

/// Whether a line begins with an offset of eight hex digits and two spaces.
fn is_dump(line: &[u8]) -> bool
    ensures { result ≡ is_dump line.now }
{
    if line.len() < 10 || line[8] != b' ' || line[9] != b' ' {
        return false;
    }
    let mut offset = [0u8; 4];
    hex::decode_to_slice(&line[..8], &mut offset).is_ok()
}

/// The first `size` bytes, or all where there are fewer.
fn first_bytes(bytes: &[u8], size: usize) -> &[u8]
    ensures { result.now ≡ take size bytes.now }
{
    if size < bytes.len() {
        &bytes[..size]
    } else {
        bytes
    }
}

/// The columns of the digits in a line of a hex dump.
fn dump_part(line: &[u8]) -> &[u8]
    requires { 9 < length line.now }
    ensures { result.now ≡ dump_part line.now }
{
    first_bytes(&line[10..], 49)
}

/// A line without four spaces, or a tab, at its front; nothing where it has neither.
fn unindented(line: &[u8]) -> &[u8]
    ensures { result.now ≡ unindented line.now }
{
    if line.len() > 3 && line[0] == b' ' && line[1] == b' ' && line[2] == b' ' && line[3] == b' ' {
        return &line[4..];
    }
    if line.len() > 0 && line[0] == b'\t' {
        return &line[1..];
    }
    &[]
}

/// Which side a line is of, 0 sent, 1 received, 2 neither, and where its digits stand.
fn part_of(line: &[u8]) -> (u64, &[u8])
    ensures { (result.0, result.1.now) ≡ part_of line.now }
{
    if line.len() > 1 && line[0] == b'>' && line[1] == b' ' {
        return (0, &line[2..]);
    }
    if line.len() > 1 && line[0] == b'<' && line[1] == b' ' {
        return (1, &line[2..]);
    }
    if is_dump(line) {
        return (0, dump_part(line));
    }
    let inner = unindented(line);
    if is_dump(inner) {
        return (1, dump_part(inner));
    }
    (2, line)
}

/// Adds the digits of a part of a line of the side `of`, if that is the side.
fn push_part(digits: &mut Vec<u8>, side: u64, of: u64, part: &[u8]) -> Result<(), OutOfMemory>
    ensures { IfOk result (λ _.
        digits.new.items ≡ digits.old.items ++ part_digits side (of, part.now)) }
{
    if of != side {
        return Ok(());
    }
    push_digits(digits, part)
}

/// Adds the digits of a line, if it is of the side.
fn push_line(digits: &mut Vec<u8>, side: u64, line: &[u8]) -> Result<(), OutOfMemory>
    ensures { IfOk result (λ _.
        digits.new.items ≡ digits.old.items ++ part_digits side (part_of line.now)) }
{
    let part = part_of(line);
    push_part(digits, side, part.0, part.1)
}

/// The digits of all lines of the side. A line ends at a line feed, or where the text ends.
fn digits_of(alloc: Global, side: u64, text: &[u8]) -> Result<Vec<u8>, OutOfMemory>
    ensures { IfOk result
        (λ digits. digits.items ≡ digits_of side (slice_split is_feed text.now)) }
{
    let mut digits = Vec::new(alloc);
    for line in text.split(|byte| *byte == b'\n') {
        push_line(&mut digits, side, line)?;
    }
    Ok(digits)
}

fn base64_bytes(alloc: Global, digits: &[u8]) -> Result<Option<Vec<u8>>, OutOfMemory>
    ensures { IfOk result (λ bytes. option_map (λ b. b.items) bytes ≡ base64_bytes digits.now) }
{
    match STANDARD.decode(alloc, digits) {
        Ok(bytes) => Ok(Some(bytes)),
        Err(DecodeAllocError::DecodeError(_)) => Ok(None),
        Err(DecodeAllocError::OutOfMemory) => Err(OutOfMemory),
    }
}

fn digits_bytes(alloc: Global, side: u64, digits: &[u8]) -> Result<Option<Vec<u8>>, OutOfMemory>
    ensures { IfOk result (λ bytes. option_map (λ b. b.items) bytes ≡
        digits_bytes side digits.now) }
{
    match hex::decode(alloc, digits) {
        Ok(bytes) => Ok(Some(bytes)),
        Err(FromHexError::OutOfMemory) => Err(OutOfMemory),
        Err(_) => {
            if side == 2 {
                base64_bytes(alloc, digits)
            } else {
                Ok(None)
            }
        }
    }
}

/// Whether a byte is 0: then the bytes are no text.
fn has_zero(text: &[u8]) -> bool
    ensures { result ≡ has_zero text.now }
{
    for byte in text {
        if *byte == 0 {
            return true;
        }
    }
    false
}

#[tactic(auto, unfolding(crate::specs::Input::text_bytes))]
/// The bytes that a text gives for a side; `None` where it is no such text.
pub fn text_bytes(alloc: Global, side: u64, text: &[u8]) -> Result<Option<Vec<u8>>, OutOfMemory>
    ensures { IfOk result (λ bytes. option_map (λ b. b.items) bytes ≡ text_bytes side text.now) }
{
    if has_zero(text) {
        return Ok(None);
    }
    let digits = digits_of(alloc, side, text)?;
    digits_bytes(alloc, side, &digits)
}
