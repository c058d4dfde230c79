//! The calls of kmip_words, each made once.
use crate::support::{answered, bytes_of, call_of, plain, text};
use kmip_client::Error;
use kmip_link::{MemoryLink, MemorySink};
use kmip_request::to_vec;
use kmip_shape::Style;
use kmip_wire::{Blob, Text};
use kmip_words::{
    Ending, RawRequest, answer, call_of as call_of_line, client_of, copy_text, request_of,
    show_error, write_out,
};
use std::alloc::Global;
use std::process::Abort;

/// The request of `rng 16`, and its response.
const RNG: &str = "REQ2(25, C4 i16)";

const RANDOM: &str = "OK2(25, C2 xDEADBEEF)";

/// Whether a script holds this line.
fn is_call(rt: &impl Abort, alloc: Global, line: &[u8]) -> bool {
    let call = call_of_line(alloc, line).expect(rt, "memory");
    let is_call = call.is_some();
    drop(call);
    is_call
}

#[test]
fn a_line_of_a_script_has_a_response_after_its_call(rt: HostRuntime) {
    assert!(rt; is_call(&rt, rt.alloc(), b"rng 16 -"));
    assert!(rt; !is_call(&rt, rt.alloc(), b"rng 16"));
}

#[test]
fn an_even_number_of_hex_digits_is_bytes(rt: HostRuntime) {
    let none = kmip_words::bytes_of(rt.alloc(), "00f").expect(&rt, "memory");
    assert!(rt; none.is_none());
    let bytes = kmip_words::bytes_of(rt.alloc(), "00fF").expect(&rt, "memory");
    assert!(rt; bytes.expect(&rt, "bytes").as_slice() == [0u8, 255].as_slice());
}

/// The request of `rng 16`, without a credential.
fn requested(rt: &impl Abort, alloc: Global) -> Blob {
    let call = call_of(rt, alloc, "rng 16");
    let request = request_of(alloc, &plain(), &call).expect(rt, "memory");
    request.expect(rt, "a request")
}

#[test]
fn a_request_that_is_read_is_written_as_it_was(rt: HostRuntime) {
    let alloc = rt.alloc();
    let bytes = requested(&rt, alloc);
    let expected = bytes_of(&rt, alloc, RNG);
    assert!(rt; bytes.as_slice() == expected.as_slice());
    let request = RawRequest::read(alloc, bytes).expect(&rt, "memory");
    let request = request.expect(&rt, "a request");
    let payload = request.payload(alloc).expect(&rt, "memory");
    let again = to_vec(alloc, payload, None).expect(&rt, "bytes");
    assert!(rt; again.as_slice() == expected.as_slice());
    drop(request);
}

/// How `rng 16` over this response on a client over a link ends; the line that it shows bare is
/// added to `line`.
fn answered_bare(rt: &impl Abort, alloc: Global, line: &mut Text) -> Ending {
    let mut link = MemoryLink::new(alloc);
    link.feed(&bytes_of(rt, alloc, RANDOM)).expect(rt, "memory");
    let mut client = client_of(link, None, None, None, false);
    let call = call_of(rt, alloc, "rng 16");
    let ending = answer(alloc, &mut client, Style::Bare, call, line).expect(rt, "memory");
    drop(client);
    ending
}

#[test]
fn an_answer_is_a_line_of_json_or_of_a_transcript(rt: HostRuntime) {
    let mut lines = Text::new(rt.alloc());
    let ending = answered(&rt, rt.alloc(), "rng 16", RANDOM, &mut lines);
    assert!(rt; matches!(ending, Ending::Answered));
    let ending = answered_bare(&rt, rt.alloc(), &mut lines);
    assert!(rt; matches!(ending, Ending::Answered));
    assert_eq!(rt;
        lines.as_str(),
        "{\"answer\":{\"random_bytes\":\"DEADBEEF\"}}\n= {random_bytes=x\"DEADBEEF\"}\n"
    );
}

#[test]
fn a_server_error_is_a_line_and_refuses_the_call(rt: HostRuntime) {
    let mut line = Text::new(rt.alloc());
    let error = Error::ServerError(text(&rt, rt.alloc(), "no"));
    let ending = show_error(rt.alloc(), Style::Bare, &error, &mut line).expect(&rt, "memory");
    assert!(rt; matches!(ending, Ending::Refused));
    assert_eq!(rt; line.as_str(), "- Server error: no\n");
    drop(error);
}

#[test]
fn texts_are_copied_and_written(rt: HostRuntime) {
    let copy = copy_text(rt.alloc(), Some("a")).expect(&rt, "memory");
    let copy = copy.expect(&rt, "a copy");
    let mut sink = MemorySink::new(rt.alloc(), &[]).expect(&rt, "memory");
    write_out(&mut sink, copy.as_str().as_bytes()).expect(&rt, "a sink that does not fail");
    assert_eq!(rt; sink.written(), b"a".as_slice());
}
