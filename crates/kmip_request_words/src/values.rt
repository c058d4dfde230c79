//! What the words of a line stand for.
ghost use Rattle.std.specs.Prelude.{◌≡◌, ◌<◌, length, IfOk, IfSome, MatchOption, Some, None};
ghost use Rattle.std.specs.Prelude.{option_map};
ghost use Rattle.kmip_request_words.specs.Values.{int_of, number_of, bytes_of, upper_digit, escaped_byte};
ghost use Rattle.kmip_request_words.specs.Values.{long_of, count_of};
ghost use Rattle.kmip_request_words.specs.Values.{then_rest, unescape, word_text};

use hex::FromHexError;
use itoa::Buffer;
use kmip_wire::{Blob, OutOfMemory, Text};
use std::alloc::Global;
use std::str;

/// The `i32` whose decimal form is this word.
pub fn int_of(word: &str) -> Option<i32>
    ensures { result ≡ int_of word.now }
{
    let Ok(number) = word.parse::<i32>() else {
        return None;
    };
    if Buffer::new().format(number) == word {
        Some(number)
    } else {
        None
    }
}

/// The `u32` whose decimal form is this word.
pub fn number_of(word: &str) -> Option<u32>
    ensures { result ≡ number_of word.now }
{
    let Ok(number) = word.parse::<u32>() else {
        return None;
    };
    if Buffer::new().format(number) == word {
        Some(number)
    } else {
        None
    }
}

/// The greatest Long Integer and Date-Time.
const GREATEST: u64 = 0x7FFF_FFFF_FFFF_FFFF;

/// The number from 0 to 2^63 - 1 whose decimal form is this word.
pub fn long_of(word: &str) -> Option<u64>
    ensures { result ≡ long_of word.now }
{
    let Ok(number) = word.parse::<u64>() else {
        return None;
    };
    if number > GREATEST {
        return None;
    }
    if Buffer::new().format(number) == word {
        Some(number)
    } else {
        None
    }
}

/// The same number as an `i64`.
pub fn count_of(word: &str) -> Option<i64>
    ensures { result ≡ count_of word.now }
{
    match long_of(word) {
        Some(number) => Some(number.cast_signed()),
        None => None,
    }
}

#[tactic(auto, unfolding(crate::specs::Values::bytes_of))]
/// The bytes of a word: `-` for none, or else an even number of hex digits in either case, at least
/// two.
pub fn bytes_of(alloc: Global, word: &str) -> Result<Option<Blob>, OutOfMemory>
    ensures { IfOk result (λ bytes. bytes ≡ bytes_of word.now) }
{
    if word == "-" {
        return Ok(Some(Blob::new(alloc)));
    }
    if word.is_empty() {
        return Ok(None);
    }
    match hex::decode(alloc, word) {
        Ok(bytes) => Ok(Some(Blob::of_vec(bytes))),
        Err(FromHexError::OutOfMemory) => Err(OutOfMemory),
        Err(_) => Ok(None),
    }
}

/// The value of an upper-case hex digit.
fn upper_digit(digit: u8) -> Option<u8>
    ensures { result ≡ upper_digit digit }
{
    match digit {
        b'0'..=b'9' => Some(digit - b'0'),
        b'A'..=b'F' => Some(digit - b'A' + 10),
        _ => None,
    }
}

/// The byte of two upper-case hex digits.
fn escaped_byte(high: u8, low: u8) -> Option<u8>
    ensures { result ≡ escaped_byte (upper_digit high) (upper_digit low) }
{
    let high = upper_digit(high)?;
    let low = upper_digit(low)?;
    Some(high * 16 + low)
}

/// The byte that stands first in a word that is not empty, and the rest of the word; `None` where a
/// `%` stands first and begins no byte.
fn next_byte(word: &[u8]) -> Option<(u8, &[u8])>
    requires { 0 < length word.now }
    ensures next { MatchOption result (unescape word.now ≡ None)
        (λ next. unescape word.now ≡ then_rest (Some next.0) (unescape next.1.now)) }
    ensures shorter { IfSome result (λ next. length next.1.now < length word.now) }
{
    if word[0] != b'%' {
        return Some((word[0], &word[1..]));
    }
    if word.len() < 3 {
        return None;
    }
    let byte = escaped_byte(word[1], word[2])?;
    Some((byte, &word[3..]))
}

/// The bytes of a text, in which `%` and two upper-case hex digits stand for a byte.
fn unescape(alloc: Global, word: &[u8]) -> Result<Option<Vec<u8>>, OutOfMemory>
    ensures { IfOk result (λ bytes. option_map (λ b. b.items) bytes ≡ unescape word.now) }
{
    let mut bytes = Vec::new(alloc);
    let mut rest = word;
    while !rest.is_empty() {
        let Some((byte, after)) = next_byte(rest) else {
            return Ok(None);
        };
        bytes.push(byte)?;
        rest = after;
    }
    Ok(Some(bytes))
}

/// The text of a word: `-` is the empty text, and `%` with two upper-case hex digits stands for a
/// byte. `None` where a `%` begins no byte, or the bytes are no UTF-8.
pub fn word_text(alloc: Global, word: &str) -> Result<Option<Text>, OutOfMemory>
    ensures { IfOk result (λ text. text ≡ word_text word.now) }
{
    if word == "-" {
        return Ok(Some(Text::new(alloc)));
    }
    let Some(bytes) = unescape(alloc, word.as_bytes())? else {
        return Ok(None);
    };
    match str::from_utf8(&bytes) {
        Ok(text) => Ok(Some(Text::of(alloc, text)?)),
        Err(_) => Ok(None),
    }
}
