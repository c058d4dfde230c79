//! What the tests share. No function here has a clause, so that a test's proof has none to meet.
use kmip_enums::Operation;
use kmip_operation_words::{operation_refusal, operation_words, table_call};
use kmip_operations::OperationCall;
use kmip_wire::{List, Text, Tree};
use std::alloc::Global;
use std::process::Abort;

/// The words of a line, between which single spaces stand.
fn words(rt: &impl Abort, alloc: Global, line: &str) -> List<Text> {
    let mut list = List::new(alloc);
    for word in line.split(' ') {
        let word = Text::of(alloc, word).expect(rt, "memory");
        list.push(word).expect(rt, "memory");
    }
    list
}

/// What the words of a line ask for, where they are a call.
pub fn asked(rt: &impl Abort, alloc: Global, line: &str) -> Option<(Operation, Tree)> {
    let words = words(rt, alloc, line);
    operation_words(alloc, words.as_slice()).expect(rt, "memory")
}

/// The call that the words of a line ask for, with this ID, where they are one.
pub fn called(
    rt: &impl Abort,
    alloc: Global,
    line: &str,
    id: Option<&[u8]>,
) -> Option<OperationCall> {
    let words = words(rt, alloc, line);
    table_call(alloc, words.as_slice(), id).expect(rt, "memory")
}

/// Why the words of a line are no call, where they are none.
pub fn refusal(rt: &impl Abort, alloc: Global, line: &str) -> Option<Text> {
    let words = words(rt, alloc, line);
    operation_refusal(alloc, words.as_slice()).expect(rt, "memory")
}
