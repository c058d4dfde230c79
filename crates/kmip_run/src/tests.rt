//! The program over sources, sinks and links in memory.
//!
//! A message in a row stands in the notation of kmip_test_messages, as `<REQ2(25, C4 i16)>`.
ghost use Rattle.std.specs.Prelude.{◌≡◌, [], drop};

use crate::program::run;
use kmip_link::{MemoryLink, MemorySink, MemorySource};
use kmip_test_messages::expand;
use kmip_wire::{List, Text};
use std::alloc::Global;
use std::process::Abort;

mod audit;
mod calls;
mod diagnostics;
mod grammar;
mod hostile;
mod joined;
mod raw;
mod responses;

/// What the program writes for these words over this script, and with which status it ends.
struct Row {
    shows: &'static str,
    words: &'static [&'static str],
    script: &'static [u8],
    written: &'static str,
    status: u8,
}

/// The list of these words. Here and below each function ends the run where something is wrong, so
/// that no test has a way out at which it drops the values that it holds.
pub(crate) fn list_of(rt: &impl Abort, alloc: Global, words: &[&str]) -> List<Text> {
    let mut list = List::new(alloc);
    for word in words {
        let text = Text::of(alloc, word).expect(rt, "memory");
        list.push(text).expect(rt, "memory");
    }
    list
}

/// Runs the program on these words over this script, where these reads and writes fail: its status,
/// and what it wrote.
pub(crate) fn run_over(
    rt: &impl Abort,
    alloc: Global,
    words: &[&str],
    script: &[u8],
    failing: (&[u64], &[u64]),
    link: &mut MemoryLink,
) -> (u8, MemorySink)
    requires { drop link.old.pos link.old.ever ≡ [] }
{
    let words = list_of(rt, alloc, words);
    let mut source = MemorySource::new(alloc, script, failing.0).expect(rt, "memory");
    let mut sink = MemorySink::new(alloc, failing.1).expect(rt, "memory");
    let status = run(alloc, &words, &mut source, &mut sink, link);
    (status, sink)
}

/// Runs the program on these words over this script: it writes this, and ends with this status.
pub(crate) fn writes(
    rt: &impl Abort,
    alloc: Global,
    words: &[&str],
    script: &[u8],
    expected: (&[u8], u8),
    shows: &str,
) {
    let mut link = MemoryLink::new(alloc);
    let (status, sink) = run_over(rt, alloc, words, script, (&[], &[]), &mut link);
    assert_eq!(rt; sink.written(), expected.0, "{shows}");
    assert_eq!(rt; status, expected.1, "{shows}");
}

/// The text with its messages as hex.
pub(crate) fn expanded(rt: &impl Abort, alloc: Global, text: &[u8]) -> Vec<u8> {
    expand(alloc, text).expect(rt, "the notation of messages")
}

/// The program writes for a row what the row says, and ends with its status.
fn row_holds(rt: &impl Abort, alloc: Global, row: &Row) {
    let script = expanded(rt, alloc, row.script);
    let written = expanded(rt, alloc, row.written.as_bytes());
    let expected = (written.as_slice(), row.status);
    writes(rt, alloc, row.words, &script, expected, row.shows);
}

/// The same for each row.
fn rows_hold(rt: &impl Abort, alloc: Global, rows: &[Row]) {
    for row in rows {
        row_holds(rt, alloc, row);
    }
}

#[test]
fn a_call_shows_what_it_sent_and_its_answer(rt: HostRuntime) {
    rows_hold(&rt, rt.alloc(), responses::FIRST_PATH);
}

#[test]
fn a_response_may_have_64_levels_and_no_more(rt: HostRuntime) {
    rows_hold(&rt, rt.alloc(), responses::DEPTHS);
}

#[test]
fn a_response_that_is_no_answer_says_why(rt: HostRuntime) {
    rows_hold(&rt, rt.alloc(), responses::CHECKS);
}

#[test]
fn a_limit_refuses_longer_responses_and_a_credential_is_sent(rt: HostRuntime) {
    rows_hold(&rt, rt.alloc(), responses::LIMITS);
}

#[test]
fn words_and_lines_out_of_the_grammar_are_refused(rt: HostRuntime) {
    rows_hold(&rt, rt.alloc(), grammar::GRAMMAR);
}

#[test]
fn each_kind_of_call_shows_its_payload_or_its_error(rt: HostRuntime) {
    rows_hold(&rt, rt.alloc(), calls::CALLS);
}

#[test]
fn raw_sends_a_request_given_by_its_bytes(rt: HostRuntime) {
    rows_hold(&rt, rt.alloc(), raw::RAW);
}

#[test]
fn false_lengths_and_pads_that_are_not_zero_are_read_as_their_rows_say(rt: HostRuntime) {
    rows_hold(&rt, rt.alloc(), hostile::HOSTILE);
}

/// The program reports this response, in hex, as one that ends too early, and takes all of it.
fn is_cut(rt: &impl Abort, alloc: Global, response: &[u8]) {
    let mut script = Vec::new(alloc);
    script.extend_from_slice(b"rng 16 ").expect(rt, "memory");
    script.extend_from_slice(response).expect(rt, "memory");
    let mut link = MemoryLink::new(alloc);
    let (status, sink) = run_over(rt, alloc, &["replay"], &script, (&[], &[]), &mut link);
    let expected = expanded(rt, alloc, hostile::CUT_WRITTEN);
    assert_eq!(rt; status, 1);
    assert_eq!(rt; sink.written(), expected.as_slice());
    assert!(rt; link.rest().is_empty());
}

/// The same for each front of it.
fn parts_are_cut(rt: &impl Abort, alloc: Global, response: &[u8]) {
    let mut part = Vec::new(alloc);
    for digits in response.chunks(2).take(151) {
        part.extend_from_slice(digits).expect(rt, "memory");
        is_cut(rt, alloc, &part);
    }
    assert_eq!(rt; part.len(), 302);
    assert_eq!(rt; response.len(), 304);
}

#[test]
fn a_response_cut_at_any_byte_is_the_end_of_the_input(rt: HostRuntime) {
    is_cut(&rt, rt.alloc(), b"-");
    let response = expanded(&rt, rt.alloc(), hostile::CUT_RESPONSE);
    parts_are_cut(&rt, rt.alloc(), &response);
}

#[test]
fn a_call_shows_its_diagnostics_where_words_ask_for_them(rt: HostRuntime) {
    rows_hold(&rt, rt.alloc(), diagnostics::DIAGNOSTICS);
}

#[test]
fn explain_writes_a_line_for_each_item_of_a_diagnostic(rt: HostRuntime) {
    rows_hold(&rt, rt.alloc(), diagnostics::EXPLAINED);
}

#[test]
fn audit_reports_each_exchange_and_how_each_side_ends(rt: HostRuntime) {
    rows_hold(&rt, rt.alloc(), audit::REPORTS);
}

#[test]
fn joined_answers_calls_from_a_server_in_memory(rt: HostRuntime) {
    rows_hold(&rt, rt.alloc(), joined::JOINED);
}

#[test]
fn words_and_lines_of_diag_and_explain_out_of_the_grammar_are_refused(rt: HostRuntime) {
    rows_hold(&rt, rt.alloc(), grammar::MORE_GRAMMAR);
}

/// Runs the program on `replay` over this script, where these reads and writes fail: its status,
/// and how many bytes it wrote.
fn replayed(
    rt: &impl Abort,
    alloc: Global,
    script: &[u8],
    reads: &[u64],
    writes: &[u64],
) -> (u8, usize) {
    let mut link = MemoryLink::new(alloc);
    let (status, sink) = run_over(rt, alloc, &["replay"], script, (reads, writes), &mut link);
    (status, sink.written().len())
}

#[test]
fn a_source_that_fails_ends_with_status_3_and_no_text(rt: HostRuntime) {
    for call in 0..2u64 {
        let (status, written) = replayed(&rt, rt.alloc(), b"rng 16 -\n", &[call], &[]);
        assert_eq!(rt; status, 3, "call {call}");
        assert_eq!(rt; written, 0, "call {call}");
    }
}

#[test]
fn a_sink_that_fails_ends_with_status_4(rt: HostRuntime) {
    let row = responses::FIRST_PATH.first().expect(&rt, "a row");
    let script = expanded(&rt, rt.alloc(), row.script);
    let (status, written) = replayed(&rt, rt.alloc(), &script, &[], &[0]);
    assert_eq!(rt; status, 4);
    assert_eq!(rt; written, 0);
}

/// What `query -` shows has so many bytes: its request of 152 bytes in hex, and that no response
/// came.
const SHOWN: usize = 2 + 2 * 152 + 1 + 36;

/// The first so many lines that have 65,536 bytes: 191 have 65,513.
const PIECE: usize = 192;

/// A script of 300 lines.
fn long_script(rt: &impl Abort, alloc: Global) -> Vec<u8> {
    let mut script = Vec::new(alloc);
    for _ in 0..300 {
        script.extend_from_slice(b"query -\n").expect(rt, "memory");
    }
    script
}

#[test]
fn a_long_text_is_written_in_pieces_and_a_sink_that_fails_has_the_first(rt: HostRuntime) {
    let script = long_script(&rt, rt.alloc());
    let (status, written) = replayed(&rt, rt.alloc(), &script, &[], &[]);
    assert_eq!(rt; status, 1);
    assert_eq!(rt; written, 300 * SHOWN);
    let (status, written) = replayed(&rt, rt.alloc(), &script, &[], &[1]);
    assert_eq!(rt; status, 4);
    assert_eq!(rt; written, PIECE * SHOWN);
}

#[test]
fn a_script_of_16_777_217_bytes_ends_with_status_6_and_no_text(rt: HostRuntime) {
    let long = vec![in rt.alloc(); b'x'; 16_777_217].expect(&rt, "memory");
    let (status, written) = replayed(&rt, rt.alloc(), &long, &[], &[]);
    assert_eq!(rt; status, 6);
    assert_eq!(rt; written, 0);
}
