//! What stands at the front of some bytes: an item, a structure that is cut off, or neither.
ghost use Rattle.std.specs.Prelude.{◌≤◌};
ghost use Rattle.kmip_faults.specs.Steps.{IsStep};

use kmip_diag::{contents, front, opening_tag};
use kmip_wire::{ItemRef, Tag};

/// What stands at the front: an item and the bytes after it, or the tag of a structure that is cut
/// off and the part of its contents that is there.
#[derive(Clone, Copy)]
pub enum Step<'a> {
    Ended,
    Stopped,
    Item(ItemRef<'a>, &'a [u8]),
    CutOff(Tag, &'a [u8]),
}

/// What stands at the front, where items of the level are looked for.
pub fn step_at(bytes: &[u8], level: u32) -> Step<'_>
    requires { 1 ≤ level }
    ensures { IsStep level bytes.now result }
{
    if bytes.is_empty() {
        return Step::Ended;
    }
    if let Some((item, after)) = front(bytes, level) {
        return Step::Item(item, after);
    }
    match opening_tag(bytes, level) {
        Some(tag) => Step::CutOff(tag, contents(bytes)),
        None => Step::Stopped,
    }
}
