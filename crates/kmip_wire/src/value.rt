//! Which bytes are a value of a type.
ghost use Rattle.std.specs.Prelude.{◌≡◌, ◌≢◌, ◌-◌, ◌≤◌, ◌<◌, ◌^◌, ◌%◌, ◌↔◌, ◌==◌, IsTrue, IsUtf8};
ghost use Rattle.std.specs.Prelude.{length, take};
ghost use Rattle.std.specs.Option.{is_some};
ghost use Rattle.std.specs.Str.{IsAscii};
ghost use Rattle.std.specs.Int.{w32, w64, from_be_bytes};
ghost use Rattle.kmip_wire.specs.Lengths.{length_bits, length_size};
ghost use Rattle.kmip_wire.specs.Reading.{scalar_at};
ghost use Rattle.kmip_wire.specs.declared.kind.Kind.TheVariants.{Structure};

use crate::kind::Kind;
use std::str;

/// For each type's number, the bits of a value's length that the type fixes.
static LENGTH_MASKS: [u64; 11] = [
    0,
    7,
    u64::MAX,
    u64::MAX,
    7,
    u64::MAX,
    u64::MAX,
    0,
    0,
    u64::MAX,
    u64::MAX,
];

/// For each type's number, what these bits are.
static LENGTH_SIZES: [u64; 11] = [0, 0, 4, 8, 0, 4, 8, 0, 0, 8, 4];

/// In each byte the highest bit, which is 0 in ASCII.
const HIGH_BITS: u64 = 0x8080_8080_8080_8080;

pub(crate) fn number4(bytes: &[u8]) -> u32
    requires { length bytes.now ≡ 4 }
    ensures { result ≡ from_be_bytes w32 bytes.now }
{
    u32::from_be_bytes([bytes[0], bytes[1], bytes[2], bytes[3]])
}

pub(crate) fn number8(bytes: &[u8]) -> u64
    requires { length bytes.now ≡ 8 }
    ensures { result ≡ from_be_bytes w64 bytes.now }
{
    u64::from_be_bytes([
        bytes[0], bytes[1], bytes[2], bytes[3], bytes[4], bytes[5], bytes[6], bytes[7],
    ])
}

fn length_mask(kind: Kind) -> u64
    ensures { result ≡ 2 ^ length_bits kind - 1 }
{
    LENGTH_MASKS[kind.code() as usize]
}

fn length_size(kind: Kind) -> u64
    ensures { result ≡ length_size kind }
{
    LENGTH_SIZES[kind.code() as usize]
}

/// Whether a value of the type may have the length. It does not branch on the type, which a
/// processor can seldom predict.
fn has_length(kind: Kind, length: usize) -> bool
    ensures { result ≡ (length % 2 ^ length_bits kind == length_size kind) }
{
    length as u64 & length_mask(kind) == length_size(kind)
}

/// Whether each byte is below 128, tested eight at a time. `false` also where the number of bytes
/// is no multiple of 8.
fn are_ascii_words(bytes: &[u8]) -> bool
    ensures { IsTrue result → IsAscii bytes.now }
{
    let mut rest = bytes;
    'words: while rest.len() >= 8 {
        if number8(&rest[..8]) & HIGH_BITS != 0 {
            return false;
        }
        rest = &rest[8..];
    }
    rest.is_empty()
}

/// Whether the first `size` bytes are UTF-8. The pads after them are mostly zeros, so the quick
/// test for ASCII takes them along.
fn is_text(padded: &[u8], size: usize) -> bool
    requires { size ≤ length padded.now }
    ensures { IsTrue result ↔ IsUtf8 (take size padded.now) }
{
    are_ascii_words(padded) || str::from_utf8(&padded[..size]).is_ok()
}

/// Whether the first `size` bytes are a value of the scalar type.
pub(crate) fn is_value(kind: Kind, padded: &[u8], size: usize) -> bool
    requires scalar { kind ≢ Structure }
    requires within { size ≤ length padded.now }
    ensures { result ≡ is_some (scalar_at kind (take size padded.now)) }
{
    if !has_length(kind, size) {
        return false;
    }
    match kind {
        Kind::Boolean => number8(&padded[..size]) < 2,
        Kind::TextString => is_text(padded, size),
        _ => true,
    }
}
