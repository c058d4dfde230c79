//! Enumerations: items that hold one of the numbers of a table.

ghost use Rattle.std.specs.Prelude.{◌≡◌, List, map, true};
ghost use Rattle.kmip_shape.specs.Shape.{Entry, OneOf};
ghost use Rattle.kmip_shape.specs.Enumerations.{variant_at, are_distinct, enumeration_val};
ghost use Rattle.kmip_shape.specs.Enumerations.{AreFound, AreDistinct, same_variant};

use crate::item::{Item, WriteItem};
use crate::read::{Outer, ReadError, ReadItem};
use crate::scalars::put_enumeration;
use crate::show::ShowItem;
use crate::text_writer::TextWriter;
use kmip_wire::{Buffer, ItemRef, Tag};
use std::alloc::Global;

/// A type whose values are the variants of an enumeration.
pub trait Enumeration: Copy + Drop {
    /// The number and the name of a variant.
    ghost line: { Self → Entry };

    /// The variants in the order of the table.
    ghost variants: { List Self };

    /// Its number.
    fn number(self) -> u32
        ensures { result ≡ (line self).number };

    /// The variant of a number, and `None` exactly for a number that is not in the table.
    fn from_number(number: u32) -> Option<Self>
        ensures { result ≡ variant_at line variants number };

    /// Its name.
    fn name(self) -> &'static str
        ensures { result.now ≡ (line self).name };

    /// Lemma: each variant is found by its number.
    ghost found: { AreFound line variants };

    /// Lemma: no number and no name stands twice in the table.
    ghost distinct: { are_distinct (map line variants) ≡ true };
}

impl<T: Enumeration> Item for T {
    ghost shape = { OneOf (map T.line T.variants) };

    ghost val = { enumeration_val T.line };

    fn fits(&self) {
        let _variant = *self;
    }

    ghost faithful = { same_variant T.line T.variants T.found };
}

impl<T: Enumeration> WriteItem for T {
    fn wire_len(&self, _tag: Tag) -> Option<u64> {
        Some(16)
    }

    fn write_into(&self, tag: Tag, out: &mut Buffer) {
        put_enumeration(tag, self.number(), out);
    }
}

#[tactic(auto, using(crate::proofs::Variants::entry_read))]
impl<T: Enumeration> ReadItem for T {
    fn read(_alloc: Global, _outer: Outer<'_>, item: ItemRef<'_>) -> Result<T, ReadError> {
        let number = item.enumeration().ok_or(ReadError::Unread)?;
        T::from_number(number).ok_or(ReadError::Unread)
    }
}

impl<T: Enumeration> ShowItem for T {
    fn show_into(&self, out: &mut TextWriter) {
        out.put_word(self.name());
    }
}

/// Law: no two variants of an enumeration have one number or one name, and each is found by its
/// number. The call does nothing.
pub fn distinct<T: Enumeration>()
    ensures distinct { AreDistinct T.line }
    ensures table { are_distinct (map T.line T.variants) ≡ true }
    ensures found { AreFound T.line T.variants }
{}
