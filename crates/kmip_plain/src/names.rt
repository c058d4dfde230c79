//! The names of tags in plain JSON.
ghost use Rattle.std.specs.Prelude.{◌≡◌, IfOk, option_map, slice_get, map, length};
ghost use Rattle.kmip_encodings.specs.Words.{tag_word};
ghost use Rattle.kmip_plain.specs.Names.{plain_name, plain_names, snake_case};

use crate::table::{FIRST, NAMES};
use kmip_encodings::tag_digits;
use kmip_wire::{OutOfMemory, Tag, Text};
use std::alloc::Global;

static TABLE: [&str; 292] = NAMES;

/// The name at `index`, if the list has one there.
fn nth(names: &'static [&'static str], index: usize) -> Option<&'static str>
    ensures { option_map (λ name. name.now) result ≡
        slice_get (map (λ name. name.now) names.now) index }
{
    if index < names.len() {
        Some(names[index])
    } else {
        None
    }
}

/// All names, in tag order.
fn all_names() -> &'static [&'static str]
    ensures { map (λ name. name.now) result.now ≡ plain_names }
{
    &TABLE
}

/// The tag's name in snake case, if it has a name.
fn snake_name(tag: Tag) -> Option<&'static str>
    ensures { option_map (λ name. name.now) result ≡ option_map snake_case (tag_word tag) }
{
    let number = tag.number();
    if number < FIRST {
        return None;
    }
    nth(all_names(), (number - FIRST) as usize)
}

/// The name of the member that a tag's items have in plain JSON: the tag's name in snake case, as
/// `unique_identifier` or `iv_counter_nonce`, or `0x` and six digits where it has none. A word of a
/// name begins at a capital letter after a small letter or a digit, or at one after a capital letter
/// and before a small one.
pub fn plain_name(alloc: Global, tag: Tag) -> Result<Text, OutOfMemory>
    ensures { IfOk result (λ name. name ≡ plain_name tag) }
{
    match snake_name(tag) {
        Some(name) => Text::of(alloc, name),
        None => tag_digits(alloc, tag),
    }
}
