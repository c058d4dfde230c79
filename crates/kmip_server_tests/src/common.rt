//! What the tests share. No function here has a clause, so that a test's proof has none to meet; and
//! each ends the run where something is amiss, so that no test has a way out at which it lets go of the
//! values that it holds.
use kmip_server::Call;
use kmip_store::{Made, MemoryMaker};
use kmip_test_messages::message;
use kmip_wire::{Blob, List, Text};
use std::alloc::Global;
use std::process::Abort;

/// A helper's call.
#[derive(Clone, Copy)]
pub enum TestCall<'a> {
    Query,
    /// For a pair of so many bits, named priv and pub.
    CreatePair(i32),
    /// For so many random bytes.
    Random(i32),
    /// Of the byte 01.
    Sign(&'a str),
    Activate(&'a str),
    Revoke(&'a str),
    Destroy(&'a str),
    Rename(&'a str, &'a str),
    Get(&'a str),
}

/// The bytes of items in the notation of kmip_test_messages.
pub fn bytes_of(rt: &impl Abort, alloc: Global, notation: &str) -> Vec<u8> {
    message(alloc, notation).expect(rt, "the notation of messages")
}

pub fn text(rt: &impl Abort, alloc: Global, text: &str) -> Text {
    Text::of(alloc, text).expect(rt, "memory")
}

pub fn blob(rt: &impl Abort, alloc: Global, bytes: &[u8]) -> Blob {
    Blob::of(alloc, bytes).expect(rt, "memory")
}

pub fn call_of(rt: &impl Abort, alloc: Global, call: TestCall<'_>) -> Call {
    match call {
        TestCall::Query => Call::Query,
        TestCall::CreatePair(bits) => {
            Call::CreateRsaKeyPair(bits, text(rt, alloc, "priv"), text(rt, alloc, "pub"))
        }
        TestCall::Random(count) => Call::RngRetrieve(count),
        TestCall::Sign(id) => Call::Sign(text(rt, alloc, id), blob(rt, alloc, b"\x01")),
        TestCall::Activate(id) => Call::ActivateKey(text(rt, alloc, id)),
        TestCall::Revoke(id) => Call::RevokeKey(text(rt, alloc, id)),
        TestCall::Destroy(id) => Call::DestroyKey(text(rt, alloc, id)),
        TestCall::Rename(id, name) => Call::RenameKey(text(rt, alloc, id), text(rt, alloc, name)),
        TestCall::Get(id) => Call::GetKey(text(rt, alloc, id)),
    }
}

/// An answer of a maker.
#[derive(Clone, Copy)]
pub enum Answer {
    /// A private key and its public key.
    Pair(&'static [u8], &'static [u8]),
    /// Random bytes, or a signature.
    Bytes(&'static [u8]),
}

fn made_of(rt: &impl Abort, alloc: Global, answer: Answer) -> Made {
    match answer {
        Answer::Pair(private, public) => {
            Made::Pair(blob(rt, alloc, private), blob(rt, alloc, public))
        }
        Answer::Bytes(bytes) => Made::Bytes(blob(rt, alloc, bytes)),
    }
}

/// These answers.
pub fn answers_of(rt: &impl Abort, alloc: Global, answers: &[Answer]) -> List<Made> {
    let mut made = List::new(alloc);
    for answer in answers {
        made.push(made_of(rt, alloc, *answer)).expect(rt, "memory");
    }
    made
}

/// A maker with these answers, which refuses the calls with these numbers.
pub fn maker_of(
    rt: &impl Abort,
    alloc: Global,
    answers: &[Answer],
    refused: &[u64],
) -> MemoryMaker {
    let answers = answers_of(rt, alloc, answers);
    MemoryMaker::new(alloc, answers, refused).expect(rt, "memory")
}
