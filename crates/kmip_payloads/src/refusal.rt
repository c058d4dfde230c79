//! Why items are no payload of an operation, and the text that says so.
ghost use Rattle.std.specs.Prelude.{◌≡◌, ◌++◌, map, option_map, IfOk, OnOk, slice_get};
ghost use Rattle.std.specs.List.{last_or};
ghost use Rattle.kmip_rows.specs.Rows.{row_view};
ghost use Rattle.kmip_payloads.specs.Items.{item_view};
ghost use Rattle.kmip_payloads.specs.Refusals as refusals;
ghost use Rattle.kmip_payloads.specs.declared.refusal.Refusal.TheVariants.{Lacks};

use crate::item::{Item, tag_of};
use crate::lacking::lacks;
use crate::strays::first_stray;
use kmip_rows::{OperationRow, Place};
use kmip_tags::name_of;
use kmip_wire::{OutOfMemory, Tag, Text};
use std::alloc::Global;

/// Why items are no payload of an operation. It has nothing of the value of an item.
#[derive(Clone, Copy, Drop)]
pub enum Refusal {
    /// No field of the operation takes an item.
    Stray {
        /// The tag of the structure round it: none in the payload itself.
        within: Option<u32>,
        /// Its tag.
        tag: u32,
    },
    /// The operation needs this field, and no item gives it.
    Lacks(Place),
}

/// The last of the tags, or else that before them.
fn innermost(outer: Option<u32>, path: &[u32]) -> Option<u32>
    ensures { result ≡ last_or outer path.now }
{
    match path {
        [] => outer,
        [first, rest @ ..] => innermost(Some(*first), rest),
    }
}

/// Why the items are no payload of the operation: an item that no field takes, or else a field that
/// is needed and that no item gives. `None` exactly where they are one.
pub fn refusal_of(
    alloc: Global,
    row: &OperationRow,
    items: &[Item<'_>],
) -> Result<Option<Refusal>, OutOfMemory>
    ensures { IfOk result (λ why. why ≡
        refusals.refusal_of (row_view row.now) (map item_view items.now)) }
{
    match first_stray(row, items) {
        Some(item) => Ok(Some(Refusal::Stray {
            within: innermost(None, item.path),
            tag: tag_of(item).number(),
        })),
        None => {
            let found = lacks(alloc, row, items)?;
            Ok(first_of(found.as_slice()))
        }
    }
}

/// The first of the fields, as a refusal.
fn first_of(lacking: &[Place]) -> Option<Refusal>
    ensures { result ≡ option_map (λ place. Lacks place) (slice_get lacking.now 0) }
{
    match lacking {
        [] => None,
        [first, ..] => Some(Refusal::Lacks(*first)),
    }
}

/// The name of a tag.
fn tag_words(tag: u32) -> &'static str
    ensures { result.now ≡ refusals.tag_words tag }
{
    match Tag::new(tag) {
        Some(tag) => name_of(tag).unwrap_or("an unknown tag"),
        None => "an unknown tag",
    }
}

/// What is to stand in a place.
fn place_words(place: Place) -> &'static str
    ensures { result.now ≡ refusals.place_words place }
{
    match place {
        Place::Tag(tag) => tag_words(tag),
        Place::Object => "an object",
    }
}

/// The structure round an item.
fn within_words(within: Option<u32>) -> &'static str
    ensures { result.now ≡ refusals.within_words within }
{
    match within {
        Some(tag) => tag_words(tag),
        None => "the payload",
    }
}

/// Appends that an item has no place.
#[tactic(auto, using(std::proofs::lemmas::List::append_assoc))]
fn push_stray(out: &mut Text, within: Option<u32>, tag: u32) -> Result<(), OutOfMemory>
    ensures { OnOk result (out.new ≡ out.old ++ refusals.stray_text within tag) }
{
    out.push_str(tag_words(tag))?;
    out.push_str(" has no place in ")?;
    out.push_str(within_words(within))
}

/// Appends that a field is missing.
#[tactic(auto, using(std::proofs::lemmas::List::append_assoc))]
fn push_lack(out: &mut Text, place: Place) -> Result<(), OutOfMemory>
    ensures { OnOk result (out.new ≡ out.old ++ refusals.lack_text place) }
{
    out.push_str(place_words(place))?;
    out.push_str(" is missing")
}

/// Appends why items are refused, in words: the names of tags, and nothing of a value.
pub fn push_refusal(out: &mut Text, refusal: Refusal) -> Result<(), OutOfMemory>
    ensures { OnOk result (out.new ≡ out.old ++ refusals.refusal_text refusal) }
{
    match refusal {
        Refusal::Stray { within, tag } => push_stray(out, within, tag),
        Refusal::Lacks(place) => push_lack(out, place),
    }
}
