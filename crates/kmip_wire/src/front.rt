//! Checks bytes for items, in one loop with a stack of the structures that are not ended yet.
ghost use Rattle.std.specs.Prelude.{◌≡◌, ◌≢◌, ◌≤◌, ◌<◌, ◌^◌, ◌-◌, ◌↔◌, IsTrue, MatchOption, Some};
ghost use Rattle.std.specs.Prelude.{length, take};
ghost use Rattle.std.specs.Option.{is_some};
ghost use Rattle.kmip_wire.specs.Tree.{Tree};
ghost use Rattle.kmip_wire.specs.Head.{head_code, head_length, size_at};
ghost use Rattle.kmip_wire.specs.Parses.{IsFront, NoFront, IsLevel, Parses};
ghost use Rattle.kmip_wire.specs.Reading.{well_formed, items_of, front_of};
ghost use Rattle.kmip_wire.specs.Open.{NoItems, Passes};

use crate::kind::Kind;
use crate::value::is_value;

/// The length of the value, as the head says it.
#[tactic(auto, unfolding(crate::specs::Head::head_length))]
pub(crate) fn head_length(bytes: &[u8]) -> u32
    requires { 8 ≤ length bytes.now }
    ensures { result ≡ head_length bytes.now }
{
    u32::from_be_bytes([bytes[4], bytes[5], bytes[6], bytes[7]])
}

/// The length of the whole item, as its head says it: head, value and pads.
pub(crate) fn whole_length(bytes: &[u8]) -> usize
    requires { 8 ≤ length bytes.now }
    ensures { result ≡ size_at bytes.now }
{
    (head_length(bytes) as usize + 15) / 8 * 8
}

/// The length of the whole item, if that many bytes are there.
fn size_at(bytes: &[u8]) -> Option<usize>
    ensures { MatchOption result (length bytes.now < size_at bytes.now)
        (λ n. (n ≡ size_at bytes.now) × (n ≤ length bytes.now)) }
{
    if bytes.len() < 8 {
        return None;
    }
    let length = head_length(bytes) as usize;
    let whole = (length + 15) / 8 * 8;
    if whole > bytes.len() {
        return None;
    }
    Some(whole)
}

/// For each type's number, the one length of its values, if any bytes of that length are a value;
/// `u64::MAX` for the other types.
static WORD_SIZES: [u64; 11] = [
    u64::MAX,
    u64::MAX,
    4,
    8,
    u64::MAX,
    4,
    u64::MAX,
    u64::MAX,
    u64::MAX,
    8,
    4,
];

/// Whether an item of 16 bytes is at the front whose type and length allow any value. By this quick
/// test the loop goes on to the next item without a length computed.
fn is_word(bytes: &[u8]) -> bool
    requires { 16 ≤ length bytes.now }
    ensures { IsTrue result → Passes 16 bytes.now }
{
    bytes[3] <= 10 && WORD_SIZES[bytes[3] as usize] == head_length(bytes) as u64
}

/// The length of the whole item at the front, which is no Structure, if one is well-formed there.
fn scalar_size(bytes: &[u8]) -> Option<usize>
    requires head { 8 ≤ length bytes.now }
    requires scalar { head_code bytes.now ≢ 1 }
    ensures { MatchOption result (NoItems bytes.now) (λ n. Passes n bytes.now) }
{
    let length = head_length(bytes) as usize;
    let Some(kind) = Kind::from_code(bytes[3]) else {
        return None;
    };
    let whole = whole_length(bytes);
    if whole > bytes.len() {
        return None;
    }
    if is_value(kind, &bytes[8..whole], length) {
        Some(whole)
    } else {
        None
    }
}

/// Whether the bytes are items of at most `levels` levels, one after another, and nothing more.
#[inline(never)]
fn are_items(bytes: &[u8], levels: u32) -> bool
    requires levels { levels ≤ 64 }
    requires fits { length bytes.now < 2 ^ 32 }
    ensures { result ≡ is_some (items_of levels bytes.now) }
{
    if levels == 0 {
        return bytes.is_empty();
    }
    let deepest = (levels - 1) as usize;
    let mut lefts = [0u32; 64];
    let mut depth = 0;
    let mut rest = bytes;
    let mut left = bytes.len();
    'items: loop {
        'words: while left >= 16 && is_word(&rest[..left]) {
            rest = &rest[16..];
            left -= 16;
        }
        let front = &rest[..left];
        if left == 0 {
            if depth == 0 {
                return true;
            }
            depth -= 1;
            left = lefts[depth] as usize;
        } else if left < 8 {
            return false;
        } else if front[3] == 1 {
            let length = head_length(front) as usize;
            if length % 8 != 0 || length > left - 8 {
                return false;
            }
            rest = &rest[8..];
            if depth < deepest {
                lefts[depth] = (left - 8 - length) as u32;
                depth += 1;
                left = length;
            } else if length == 0 {
                left -= 8;
            } else {
                return false;
            }
        } else {
            let Some(whole) = scalar_size(front) else {
                return false;
            };
            rest = &rest[whole..];
            left -= whole;
        }
    }
}

/// Whether the first `size` bytes are a value of the type, with at most `levels` levels inside.
fn is_node(kind: Kind, padded: &[u8], size: usize, levels: u32) -> bool
    requires levels { levels ≤ 64 }
    requires within { size ≤ length padded.now }
    requires fits { size < 2 ^ 32 }
    ensures { result ≡ well_formed (is_some (items_of levels (take size padded.now))) (Some kind)
        (take size padded.now) }
{
    match kind {
        Kind::Structure => are_items(&padded[..size], levels),
        _ => is_value(kind, padded, size),
    }
}

/// The length of the whole item at the front, if one parses there at the level.
pub(crate) fn front_size(bytes: &[u8], level: u32) -> Option<usize>
    requires { IsLevel level }
    ensures { result ≡ front_of (65 - level) bytes.now }
{
    let Some(whole) = size_at(bytes) else {
        return None;
    };
    let Some(kind) = Kind::from_code(bytes[3]) else {
        return None;
    };
    let length = head_length(bytes) as usize;
    if is_node(kind, &bytes[8..whole], length, 64 - level) {
        Some(whole)
    } else {
        None
    }
}

/// How many bytes the item at the front has, head and pads included, if one parses there at the
/// level, from 1 to 64. `None` exactly where none does. It takes no memory.
pub fn front_len_at(bytes: &[u8], level: u32) -> Option<usize>
    requires { IsLevel level }
    ensures { MatchOption result (NoFront level bytes.now) (IsFront level bytes.now) }
{
    front_size(bytes, level)
}

/// How many bytes the well-formed item at the front has, head and pads included. `None` exactly
/// where there is none. It takes no memory.
pub fn front_len(bytes: &[u8]) -> Option<usize>
    ensures { MatchOption result (NoFront 1 bytes.now) (IsFront 1 bytes.now) }
{
    front_len_at(bytes, 1)
}

/// Whether the bytes are one well-formed item and nothing more. It takes no memory.
///
/// It goes over the bytes once and reads each head, each Boolean and each text with its pads, and
/// no other value. A text that is ASCII, pads included, is read once. In any other text the words
/// of eight bytes up to the first other character are read twice.
pub fn check(bytes: &[u8]) -> bool
    ensures { IsTrue result ↔ ((tree : Tree) × Parses tree 1 bytes.now) }
{
    match front_size(bytes, 1) {
        Some(size) => size == bytes.len(),
        None => false,
    }
}
