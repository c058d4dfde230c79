//! The tags of KMIP (KMIP 1.0, 9.1.3.1): a constant for each, and their names as a table and as a
//! function.
//!
//! ```rust
//! use kmip_tags::{name_of, tags};
//! use kmip_wire::Tag;
//!
//! assert_eq!(rt; name_of(Tag::of(tags::UNIQUE_IDENTIFIER)), Some("Unique Identifier"));
//! ```
#![tactic(auto)]

ghost use Rattle.std.specs.Prelude.{◌≡◌, option_map, slice_get, map, length};
ghost use Rattle.kmip_tags.specs.Names.{name_of};
ghost use Rattle.kmip_tags.specs.Table.{names};

mod map;
mod table;
pub mod tags;

use kmip_wire::Tag;
pub use map::{TagMap, make_kmip_tag_map};
use table::{FIRST, NAMES};

static TABLE: [&str; 292] = NAMES;

/// The name at `index`, if the list has one there.
pub(crate) fn nth(names: &'static [&'static str], index: usize) -> Option<&'static str>
    ensures { option_map (λ name. name.now) result ≡
        slice_get (map (λ name. name.now) names.now) index }
{
    if index < names.len() {
        Some(names[index])
    } else {
        None
    }
}

/// All names, in tag order.
pub(crate) fn all_names() -> &'static [&'static str]
    ensures table { map (λ name. name.now) result.now ≡ names }
    ensures length { length result.now ≡ 292 }
{
    &TABLE
}

/// The name of the tag: `Some` exactly for the tags from 0x420001 to 0x420124. It takes no memory.
pub fn name_of(tag: Tag) -> Option<&'static str>
    ensures { option_map (λ name. name.now) result ≡ name_of tag }
{
    let number = tag.number();
    if number < FIRST {
        return None;
    }
    nth(all_names(), (number - FIRST) as usize)
}
