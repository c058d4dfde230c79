//! The exchange that `make` makes from a number: a call, and the response to it.
ghost use Rattle.std.specs.Prelude.{◌≡◌, ◌+◌, ◌<◌, ◌≤◌, ◌^◌, length, IfOk};
ghost use Rattle.kmip_wire.specs.Head.{pads};
ghost use Rattle.kmip_wire.specs.Bytes.{bytes};
ghost use Rattle.kmip_wire.specs.Room.{Appends};
ghost use Rattle.kmip_words.specs.Exchange.{or_empty};
ghost use Rattle.kmip_run.specs.Making.{head_tree, made_of};
ghost use Rattle.kmip_run.specs.Making.{random_made, activated_made, queried_made, destroyed_made};
ghost use Rattle.kmip_run.specs.Written.{enumeration_bytes, front, success_front};

use itoa::Buffer as Decimal;
use kmip_enums::{Operation, ResultReason, ResultStatus};
use kmip_shape::Enumeration;
use kmip_shape::scalars::{
    put_bytes, put_date, put_enumeration, put_integer, put_structure, put_text,
};
use kmip_tags::tags::{
    BATCH_COUNT, BATCH_ITEM, DATA, OPERATION, PROTOCOL_VERSION, PROTOCOL_VERSION_MAJOR,
    PROTOCOL_VERSION_MINOR, RESPONSE_HEADER, RESPONSE_MESSAGE, RESPONSE_PAYLOAD, RESULT_MESSAGE,
    RESULT_REASON, RESULT_STATUS, TIME_STAMP, UNIQUE_IDENTIFIER,
};
use kmip_wire::{Buffer, OutOfMemory, Tag, Text};
use kmip_words::{Call, Recorded};
use std::alloc::Global;

/// How many bytes the item of a value of this length has.
fn item_len(len: usize) -> usize
    requires { len < 2 ^ 16 }
    ensures { result ≡ 8 + len + pads len }
{
    8 + len + (8 - len % 8) % 8
}

/// Appends the header of a response, 80 bytes: its version, the time stamp 1, and the batch count 1
/// (KMIP 1.0, 7.2).
fn put_header(minor: i32, out: &mut Buffer)
    requires { 80 ≤ out.old.spare }
    ensures { Appends out.old out.new (or_empty (bytes (head_tree minor))) 80 }
{
    put_structure(Tag::of(RESPONSE_HEADER), 72, out);
    put_structure(Tag::of(PROTOCOL_VERSION), 32, out);
    put_integer(Tag::of(PROTOCOL_VERSION_MAJOR), 1, out);
    put_integer(Tag::of(PROTOCOL_VERSION_MINOR), minor, out);
    put_date(Tag::of(TIME_STAMP), 1, out);
    put_integer(Tag::of(BATCH_COUNT), 1, out);
}

/// Appends the item of an enumeration's value, 16 bytes.
fn put_value<T: Enumeration>(tag: Tag, value: T, out: &mut Buffer)
    requires { 16 ≤ out.old.spare }
    ensures { Appends out.old out.new (enumeration_bytes tag (T.line value).number) 16 }
{
    put_enumeration(tag, value.number(), out);
}

/// A response up to its operation, and room for `len` bytes that follow in the batch item. It has
/// 112 bytes: a head of 8, the header's 80, a head of 8, and the operation's 16.
fn begin(alloc: Global, minor: i32, operation: Operation, len: usize) -> Result<Buffer, OutOfMemory>
    requires { len < 2 ^ 16 }
    ensures bytes { IfOk result (λ out. out.bytes ≡ front minor operation len) }
    ensures room { IfOk result (λ out. len ≤ out.spare) }
{
    let mut out = Buffer::new(alloc);
    out.reserve(112 + len)?;
    put_structure(Tag::of(RESPONSE_MESSAGE), 104 + len as u32, &mut out);
    put_header(minor, &mut out);
    put_structure(Tag::of(BATCH_ITEM), 16 + len as u32, &mut out);
    put_value(Tag::of(OPERATION), operation, &mut out);
    Ok(out)
}

/// A response of success up to its payload's items, and room for these, `len` bytes. After the
/// operation follow the status, 16 bytes, and the payload's head, 8.
fn begin_success(
    alloc: Global,
    minor: i32,
    operation: Operation,
    len: usize,
) -> Result<Buffer, OutOfMemory>
    requires { len < 2 ^ 15 }
    ensures bytes { IfOk result (λ out. out.bytes ≡ success_front minor operation len) }
    ensures room { IfOk result (λ out. len ≤ out.spare) }
{
    let mut out = begin(alloc, minor, operation, 24 + len)?;
    put_value(Tag::of(RESULT_STATUS), ResultStatus::Success, &mut out);
    put_structure(Tag::of(RESPONSE_PAYLOAD), len as u32, &mut out);
    Ok(out)
}

/// The exchange of `rng` with `count` bytes, each of them `byte`.
fn random(alloc: Global, count: u8, byte: u8) -> Result<Recorded, OutOfMemory>
    ensures { IfOk result (λ made. made ≡ random_made count byte) }
{
    let bytes = [byte; 256];
    let data = &bytes[..usize::from(count)];
    let mut response = begin_success(alloc, 2, Operation::RNGRetrieve, item_len(data.len()))?;
    put_bytes(Tag::of(DATA), data, &mut response);
    let call = Call::Rng {
        num_bytes: i32::from(count),
    };
    Ok(Recorded {
        call,
        response: response.into_blob(),
    })
}

/// The exchange of `activate` for this key.
fn activate_exchange(alloc: Global, id: &str) -> Result<Recorded, OutOfMemory>
    requires { length id.now ≤ 40 }
    ensures { IfOk result (λ made. made ≡ activated_made id.now) }
{
    let mut response = begin_success(alloc, 0, Operation::Activate, item_len(id.len()))?;
    put_text(Tag::of(UNIQUE_IDENTIFIER), id, &mut response);
    let call = Call::Activate {
        id: Text::of(alloc, id)?,
    };
    Ok(Recorded {
        call,
        response: response.into_blob(),
    })
}

/// The exchange of `query` with a server that has Create and Query.
fn query_exchange(alloc: Global) -> Result<Recorded, OutOfMemory>
    ensures { IfOk result (λ made. made ≡ queried_made) }
{
    let mut response = begin_success(alloc, 2, Operation::Query, 32)?;
    put_value(Tag::of(OPERATION), Operation::Create, &mut response);
    put_value(Tag::of(OPERATION), Operation::Query, &mut response);
    Ok(Recorded {
        call: Call::Query,
        response: response.into_blob(),
    })
}

/// The exchange of `destroy` for this key, which is not found.
fn destroy_exchange(alloc: Global, id: &str) -> Result<Recorded, OutOfMemory>
    ensures { IfOk result (λ made. made ≡ destroyed_made id.now) }
{
    let mut response = begin(alloc, 0, Operation::Destroy, 48)?;
    put_value(
        Tag::of(RESULT_STATUS),
        ResultStatus::OperationFailed,
        &mut response,
    );
    put_value(
        Tag::of(RESULT_REASON),
        ResultReason::ItemNotFound,
        &mut response,
    );
    put_text(Tag::of(RESULT_MESSAGE), "gone", &mut response);
    let call = Call::Destroy {
        id: Text::of(alloc, id)?,
    };
    Ok(Recorded {
        call,
        response: response.into_blob(),
    })
}

/// The exchange that is made from a number: the bits 32 and 33 choose the call, and those above
/// them its argument.
#[tactic(auto, unfolding(crate::specs::Making::made_of))]
pub fn exchange_of(alloc: Global, x: u64) -> Result<Recorded, OutOfMemory>
    ensures { IfOk result (λ made. made ≡ made_of x) }
{
    let v = x >> 34;
    match (x >> 32) % 4 {
        0 => random(alloc, (v % 64) as u8, (x % 256) as u8),
        1 => activate_exchange(alloc, Decimal::new().format(v % 1000)),
        2 => query_exchange(alloc),
        _ => destroy_exchange(alloc, Decimal::new().format(v % 1000)),
    }
}
