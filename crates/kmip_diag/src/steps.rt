//! What begins some bytes: an item, or a structure that is cut off.
ghost use Rattle.std.specs.Prelude.{◌≡◌, ◌≤◌, IfSome, length, option_map, drop};
ghost use Rattle.kmip_wire.specs.Head.{head_tag, head_length, size_at, value_of};
ghost use Rattle.kmip_wire.specs.Items.{item_tree};
ghost use Rattle.kmip_wire.specs.Reading.{front_at};
ghost use Rattle.kmip_diag.specs.Diagnostic.{opening_tag};

use kmip_wire::{ItemRef, Tag, split_front};

/// The item at the front that parses at the level, and the bytes after it. From level 65 on there
/// is none.
pub fn front(bytes: &[u8], level: u32) -> Option<(ItemRef<'_>, &[u8])>
    requires { 1 ≤ level }
    ensures tree { option_map (λ p. item_tree p.0) result ≡ front_at level bytes.now }
    ensures rest { IfSome result (λ p. p.1.now ≡ drop (size_at bytes.now) bytes.now) }
{
    if level > 64 {
        return None;
    }
    split_front(bytes, level)
}

/// The tag in the head.
#[tactic(auto, unfolding(kmip_wire::specs::Head::head_tag))]
fn head_tag(bytes: &[u8]) -> Tag
    requires { 8 ≤ length bytes.now }
    ensures { result ≡ head_tag bytes.now }
{
    Tag::of(u32::from_be_bytes([0, bytes[0], bytes[1], bytes[2]]))
}

/// The part that is there of the contents whose length the head says.
#[tactic(auto, unfolding(kmip_wire::specs::Head::head_length))]
pub fn contents(bytes: &[u8]) -> &[u8]
    requires { 8 ≤ length bytes.now }
    ensures { result.now ≡ value_of bytes.now }
{
    let length = u32::from_be_bytes([bytes[4], bytes[5], bytes[6], bytes[7]]) as usize;
    let there = &bytes[8..];
    if length < there.len() {
        &there[..length]
    } else {
        there
    }
}

/// The tag of the structure whose whole head begins the bytes. From level 65 on there is none.
pub fn opening_tag(bytes: &[u8], level: u32) -> Option<Tag>
    ensures tag { result ≡ opening_tag level bytes.now }
    ensures head { IfSome result (λ _. 8 ≤ length bytes.now) }
{
    if level > 64 || bytes.len() < 8 || bytes[3] != 1 {
        return None;
    }
    Some(head_tag(bytes))
}
