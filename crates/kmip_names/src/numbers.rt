//! Values that are a number.

ghost use Rattle.std.specs.Prelude.{◌≡◌};
ghost use Rattle.std.specs.Bool.{Decides};
ghost use Rattle.kmip_wire.specs.declared.kind.Kind.TheVariants.{DateTime, Integer};
ghost use Rattle.kmip_shape.specs.Shape.{Scalar};
ghost use Rattle.kmip_names.specs.Numbers.{attribute_index_val, attribute_index_same};
ghost use Rattle.kmip_names.specs.Numbers.{data_length_val, data_length_same};
ghost use Rattle.kmip_names.specs.Numbers.{cryptographic_length_val, cryptographic_length_same};
ghost use Rattle.kmip_names.specs.Numbers.{compromise_occurrence_date_val};
ghost use Rattle.kmip_names.specs.Numbers.{compromise_occurrence_date_same};

use kmip_shape::read::{Outer, ReadError, ReadItem};
use kmip_shape::{Item, ShowItem, TextWriter, WriteItem};
use kmip_wire::{Buffer, ItemRef, Tag};
use std::alloc::Global;

/// Which instance of the attributes of one name, counted from 0: KMIP 1.0, 2.1.1.
#[derive(Clone, Copy, PartialEq, Eq, Drop)]
pub struct AttributeIndex(pub i32);

impl AttributeIndex {
    /// Whether the index is `other`.
    pub fn is(&self, other: i32) -> bool
        ensures { Decides result (self.now.0 ≡ other) }
    {
        self.0 == other
    }
}

impl Item for AttributeIndex {
    ghost shape = { Scalar Integer };

    ghost val = { attribute_index_val };

    fn fits(&self) {
        self.0.fits();
    }

    ghost faithful = { attribute_index_same };
}

impl WriteItem for AttributeIndex {
    fn wire_len(&self, tag: Tag) -> Option<u64> {
        self.0.wire_len(tag)
    }

    fn write_into(&self, tag: Tag, out: &mut Buffer) {
        self.0.write_into(tag, out);
    }
}

impl ReadItem for AttributeIndex {
    fn read(alloc: Global, outer: Outer<'_>, item: ItemRef<'_>) -> Result<Self, ReadError> {
        Ok(AttributeIndex(i32::read(alloc, outer, item)?))
    }
}

impl ShowItem for AttributeIndex {
    fn show_into(&self, out: &mut TextWriter) {
        self.0.show_into(out);
    }
}

/// How many random bytes are asked for: KMIP 1.2, 4.35.
#[derive(Clone, Copy, PartialEq, Eq, Drop)]
pub struct DataLength(pub i32);

impl Item for DataLength {
    ghost shape = { Scalar Integer };

    ghost val = { data_length_val };

    fn fits(&self) {
        self.0.fits();
    }

    ghost faithful = { data_length_same };
}

impl WriteItem for DataLength {
    fn wire_len(&self, tag: Tag) -> Option<u64> {
        self.0.wire_len(tag)
    }

    fn write_into(&self, tag: Tag, out: &mut Buffer) {
        self.0.write_into(tag, out);
    }
}

impl ReadItem for DataLength {
    fn read(alloc: Global, outer: Outer<'_>, item: ItemRef<'_>) -> Result<Self, ReadError> {
        Ok(DataLength(i32::read(alloc, outer, item)?))
    }
}

impl ShowItem for DataLength {
    fn show_into(&self, out: &mut TextWriter) {
        self.0.show_into(out);
    }
}

/// The length of a key in bits: KMIP 1.0, 3.5.
#[derive(Clone, Copy, PartialEq, Eq, Drop)]
pub struct CryptographicLength(pub i32);

impl Item for CryptographicLength {
    ghost shape = { Scalar Integer };

    ghost val = { cryptographic_length_val };

    fn fits(&self) {
        self.0.fits();
    }

    ghost faithful = { cryptographic_length_same };
}

impl WriteItem for CryptographicLength {
    fn wire_len(&self, tag: Tag) -> Option<u64> {
        self.0.wire_len(tag)
    }

    fn write_into(&self, tag: Tag, out: &mut Buffer) {
        self.0.write_into(tag, out);
    }
}

impl ReadItem for CryptographicLength {
    fn read(alloc: Global, outer: Outer<'_>, item: ItemRef<'_>) -> Result<Self, ReadError> {
        Ok(CryptographicLength(i32::read(alloc, outer, item)?))
    }
}

impl ShowItem for CryptographicLength {
    fn show_into(&self, out: &mut TextWriter) {
        self.0.show_into(out);
    }
}

/// When an object is thought to have been first compromised: KMIP 1.0, 3.24.
///
/// In seconds since 1970-01-01 UTC, a negative number as its 64 bits in two's complement.
#[derive(Clone, Copy, PartialEq, Eq, Drop)]
pub struct CompromiseOccurrenceDate(pub u64);

impl Item for CompromiseOccurrenceDate {
    ghost shape = { Scalar DateTime };

    ghost val = { compromise_occurrence_date_val };

    fn fits(&self) {
        self.0.fits();
    }

    ghost faithful = { compromise_occurrence_date_same };
}

impl WriteItem for CompromiseOccurrenceDate {
    fn wire_len(&self, tag: Tag) -> Option<u64> {
        self.0.wire_len(tag)
    }

    fn write_into(&self, tag: Tag, out: &mut Buffer) {
        self.0.write_into(tag, out);
    }
}

impl ReadItem for CompromiseOccurrenceDate {
    fn read(alloc: Global, outer: Outer<'_>, item: ItemRef<'_>) -> Result<Self, ReadError> {
        Ok(CompromiseOccurrenceDate(u64::read(alloc, outer, item)?))
    }
}

impl ShowItem for CompromiseOccurrenceDate {
    fn show_into(&self, out: &mut TextWriter) {
        self.0.show_into(out);
    }
}
