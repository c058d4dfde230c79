//! What the tests share. No function here has a clause, so that a test's proof has none to meet; and
//! each ends the run where something is wrong, so that no test has a way out at which it drops the
//! values that it holds.
use kmip_test_messages::message;
use kmip_wire::{List, Text};
use kmip_words::{Call, Ending, Settings, answer_of, typed_call, words_of};
use std::alloc::Global;
use std::process::Abort;

/// The bytes of items in the notation of kmip_test_messages.
pub fn bytes_of(rt: &impl Abort, alloc: Global, notation: &str) -> Vec<u8> {
    message(alloc, notation).expect(rt, "the notation of messages")
}

/// A text.
pub fn text(rt: &impl Abort, alloc: Global, text: &str) -> Text {
    Text::of(alloc, text).expect(rt, "memory")
}

/// Settings without a credential and a limit.
pub fn plain() -> Settings {
    Settings::new(None, None, None)
}

/// The words of a line, between which single spaces stand.
pub fn words(rt: &impl Abort, alloc: Global, line: &str) -> List<Text> {
    let mut list = List::new(alloc);
    let words = words_of(alloc, line)
        .expect(rt, "memory")
        .expect(rt, "words");
    for word in words {
        list.push(text(rt, alloc, word)).expect(rt, "memory");
    }
    list
}

/// The call of typed words, where they ask for one.
pub fn call_if_any(rt: &impl Abort, alloc: Global, line: &str) -> Option<Call> {
    let words = words(rt, alloc, line);
    typed_call(alloc, words.as_slice()).expect(rt, "memory")
}

/// The call of typed words.
pub fn call_of(rt: &impl Abort, alloc: Global, line: &str) -> Call {
    call_if_any(rt, alloc, line).expect(rt, "a call")
}

/// How a call over this response ends; the line of its answer is added to `line`.
pub fn answered(
    rt: &impl Abort,
    alloc: Global,
    call: &str,
    response: &str,
    line: &mut Text,
) -> Ending {
    let response = bytes_of(rt, alloc, response);
    let call = call_of(rt, alloc, call);
    answer_of(alloc, &plain(), &call, &response, line).expect(rt, "memory")
}
