//! What the page shows of captured bytes.
//!
//! Each export but `web_frame` writes its text to `into` where it fits, and returns how many bytes
//! the text has. No function has a precondition on its arguments, since nothing checks a caller in
//! JavaScript.
#![tactic(auto)]

ghost use Rattle.std.specs.Prelude.{◌≡◌, ◌≢◌, ◌+◌, ◌↔◌, Some, pos, option_map};
ghost use Rattle.kmip_diag.specs.Diagnostic.{diagnostic};
ghost use Rattle.kmip_audit.specs.Report.{report_of};
ghost use Rattle.kmip_audit.specs.Printed.{report_text};
ghost use Rattle.kmip_encodings.specs.Encoding.{text_at};
ghost use Rattle.kmip_wire.specs.Tree.{Trees};
ghost use Rattle.kmip_wire.specs.Parses.{ParseAll};
ghost use Rattle.kmip_wire.specs.Reading.{front_at};
ghost use Rattle.kmip_web.specs.Listing.{listing};
ghost use Rattle.kmip_faults.specs.Fault.{fault_of, fault_text};
ghost use Rattle.kmip_web.specs.Input.{text_bytes};
ghost use Rattle.kmip_exports.specs.Exports.{IsShown, IsReported, memory, not_a_message};
ghost use Rattle.kmip_web.specs.Shown.{frame_code, not_a_text};

mod context;
mod input;
mod json;
mod laws;
mod listing;
mod report;
mod values;

use input::text_bytes;
use json::json_of;
use kmip_diag::PrettyPrinter;
use kmip_exports::{NO_MEMORY, NOT_A_MESSAGE, copy_out};
use kmip_faults::{fault_of, fault_text};
use kmip_wire::{Config, OutOfMemory, head};
pub use laws::listing_splits;
use listing::list_bytes;
use report::report_text;
use std::alloc::Global;

const NOT_A_TEXT: i64 = -2;

/// The diagnostic of any bytes: tags, types, nesting and the numbers of enumerations, and no other
/// value. -5: memory ran out, and nothing is written.
#[unsafe(no_mangle)]
pub extern "C" fn web_skeleton(alloc: Global, bytes: &[u8], into: &mut [u8]) -> i64
    ensures shown { result ≢ memory →
        IsShown (diagnostic (Some 0x4200) bytes.now) into.old result into.new }
    ensures memory { result ≡ memory → into.new ≡ into.old }
{
    let mut printer = PrettyPrinter::new();
    printer.with_tag_prefix(0x4200);
    match printer.to_diag_string(alloc, bytes) {
        Ok(text) => copy_out(text.as_str().as_bytes(), into),
        Err(OutOfMemory) => NO_MEMORY,
    }
}

/// The items of any bytes with their values, one a line, and of a structure that is cut off the
/// part that is there. -5: memory ran out, and nothing is written.
#[unsafe(no_mangle)]
pub extern "C" fn web_listing(alloc: Global, bytes: &[u8], into: &mut [u8]) -> i64
    ensures shown { result ≢ memory → IsShown (listing bytes.now) into.old result into.new }
    ensures memory { result ≡ memory → into.new ≡ into.old }
{
    match list_bytes(alloc, bytes) {
        Ok(text) => copy_out(text.as_str().as_bytes(), into),
        Err(OutOfMemory) => NO_MEMORY,
    }
}

/// The item at the front as JSON (KMIP Additional Message Encodings), each object with one more
/// member first, `offset`: where its item begins, counted in bytes from the front. -3: no item is
/// at the front; -5: memory ran out. After each code nothing is written.
#[unsafe(no_mangle)]
pub extern "C" fn web_decode(alloc: Global, bytes: &[u8], into: &mut [u8]) -> i64
    ensures json { result ≢ memory →
        IsReported (option_map (text_at (Some 0)) (front_at 1 bytes.now)) not_a_message into.old
        result into.new }
    ensures memory { result ≡ memory → into.new ≡ into.old }
{
    match json_of(alloc, bytes) {
        Ok(Some(json)) => copy_out(&json, into),
        Ok(None) => NOT_A_MESSAGE,
        Err(OutOfMemory) => NO_MEMORY,
    }
}

/// The report on two captured streams, exchange by exchange. -5: memory ran out, and nothing is
/// written.
#[unsafe(no_mangle)]
pub extern "C" fn web_report(alloc: Global, sent: &[u8], received: &[u8], into: &mut [u8]) -> i64
    ensures shown { result ≢ memory →
        IsShown (report_text (report_of sent.now received.now)) into.old result into.new }
    ensures memory { result ≡ memory → into.new ≡ into.old }
{
    match report_text(alloc, sent, received) {
        Ok(text) => copy_out(text.as_str().as_bytes(), into),
        Err(OutOfMemory) => NO_MEMORY,
    }
}

/// Where the bytes stop being items, and why; nothing where all of them are items. -5: memory ran
/// out, and nothing is written.
#[unsafe(no_mangle)]
pub extern "C" fn web_fault(alloc: Global, bytes: &[u8], into: &mut [u8]) -> i64
    ensures shown { result ≢ memory →
        IsShown (fault_text (fault_of bytes.now)) into.old result into.new }
    ensures none { result ≢ memory →
        (result ≡ pos 0) ↔ ((items : Trees) × ParseAll items 1 bytes.now) }
    ensures memory { result ≡ memory → into.new ≡ into.old }
{
    match fault_text(alloc, fault_of(bytes)) {
        Ok(text) => copy_out(text.as_str().as_bytes(), into),
        Err(OutOfMemory) => NO_MEMORY,
    }
}

/// A length with the head, as the page gets it.
fn with_head(len: u32) -> i64
    ensures { result ≡ pos (len + 8) }
{
    i64::from(len) + 8
}

/// How many bytes the message at the front has by its head, the head counted. -3: there is no head
/// of a structure.
#[unsafe(no_mangle)]
pub extern "C" fn web_frame(bytes: &[u8]) -> i64
    ensures { result ≡ frame_code bytes.now }
{
    let Some(first) = bytes.first_chunk::<8>() else {
        return NOT_A_MESSAGE;
    };
    match head(first, &Config::new()) {
        Ok(len) => with_head(len),
        Err(_) => NOT_A_MESSAGE,
    }
}

/// The bytes that a text gives for a side: 0 for what was sent and 1 for what was received, by the
/// marked lines of a log or by a hex dump; 2 for the other lines, hex or base64. -2: it is no such
/// text; -5: memory ran out. After each code nothing is written.
#[unsafe(no_mangle)]
pub extern "C" fn web_bytes(alloc: Global, text: &[u8], side: u64, into: &mut [u8]) -> i64
    ensures bytes { result ≢ memory →
        IsReported (text_bytes side text.now) not_a_text into.old result into.new }
    ensures memory { result ≡ memory → into.new ≡ into.old }
{
    match text_bytes(alloc, side, text) {
        Ok(Some(bytes)) => copy_out(&bytes, into),
        Ok(None) => NOT_A_TEXT,
        Err(OutOfMemory) => NO_MEMORY,
    }
}
