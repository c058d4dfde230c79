//! The table of tags and names, entry by entry.
ghost use Rattle.std.specs.Prelude.{◌≡◌, ℕ, List, MatchResult, length, map, option_map, slice_get};
ghost use Rattle.kmip_tags.specs.Table.{first_tag, names as table_names};
ghost use Rattle.kmip_tags.specs.Names.{name_of, entries_from, entries};

use crate::table::FIRST;
use crate::{all_names, name_of};
use kmip_wire::{OutOfMemory, Tag};
use std::alloc::Global;
use std::marker::Model;

/// The tags that have a name, each with its name, in tag order.
#[derive(Drop)]
pub struct TagMap {
    names: &'static [&'static str],
}

impl Model for TagMap {
    ghost Value = { List (ℕ × List ℕ) };

    ghost view = { λ t. entries_from first_tag (map (λ n. n.now) t.names.now) };

    ghost invariant = { λ t. (map (λ n. n.now) t.names.now ≡ table_names) ×
        (length t.names.now ≡ 292) };
}

/// The whole table, which is part of the program: the allocator is not used, and `OutOfMemory` is
/// never returned.
pub fn make_kmip_tag_map(_alloc: Global) -> Result<TagMap, OutOfMemory>
    ensures { MatchResult result (λ made. made ≡ entries) (λ _. ⊥) }
{
    Ok(TagMap { names: all_names() })
}

impl TagMap {
    /// How many tags have a name.
    pub fn len(&self) -> usize
        ensures length { result ≡ length self.now }
        ensures number { result ≡ 292 }
    {
        self.names.len()
    }

    /// The tag and its name at `index`, counted from 0 in tag order. `None` exactly from `len` on.
    pub fn at(&self, index: usize) -> Option<(Tag, &'static str)>
        ensures { option_map (λ entry. (entry.0, entry.1.now)) result ≡ slice_get self.now index }
    {
        if index >= self.names.len() {
            return None;
        }
        let tag = Tag::new(FIRST + index as u32)?;
        Some((tag, self.names[index]))
    }

    /// The name of the tag, as [`name_of`] gives it.
    pub fn get(&self, tag: Tag) -> Option<&'static str>
        ensures { option_map (λ name. name.now) result ≡ name_of tag }
    {
        name_of(tag)
    }
}
