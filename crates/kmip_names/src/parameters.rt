//! Parameters of the initialization vector and of the authentication tag.

ghost use Rattle.kmip_wire.specs.declared.kind.Kind.TheVariants.{Boolean, Integer};
ghost use Rattle.kmip_shape.specs.Shape.{Scalar};
ghost use Rattle.kmip_names.specs.Parameters.{random_iv_val, random_iv_same, iv_length_val};
ghost use Rattle.kmip_names.specs.Parameters.{iv_length_same, tag_length_val, tag_length_same};
ghost use Rattle.kmip_names.specs.Parameters.{fixed_field_length_val, fixed_field_length_same};
ghost use Rattle.kmip_names.specs.Parameters.{invocation_field_length_val};
ghost use Rattle.kmip_names.specs.Parameters.{invocation_field_length_same, counter_length_val};
ghost use Rattle.kmip_names.specs.Parameters.{counter_length_same, initial_counter_value_val};
ghost use Rattle.kmip_names.specs.Parameters.{initial_counter_value_same};

use kmip_shape::read::{Outer, ReadError, ReadItem};
use kmip_shape::{Item, ShowItem, TextWriter, WriteItem};
use kmip_wire::{Buffer, ItemRef, Tag};
use std::alloc::Global;

/// Whether the server is asked to make the initialization vector: KMIP 1.2, 3.6.
#[derive(Clone, Copy, PartialEq, Eq, Drop)]
pub struct RandomIV(pub bool);

impl Item for RandomIV {
    ghost shape = { Scalar Boolean };

    ghost val = { random_iv_val };

    fn fits(&self) {
        self.0.fits();
    }

    ghost faithful = { random_iv_same };
}

impl WriteItem for RandomIV {
    fn wire_len(&self, tag: Tag) -> Option<u64> {
        self.0.wire_len(tag)
    }

    fn write_into(&self, tag: Tag, out: &mut Buffer) {
        self.0.write_into(tag, out);
    }
}

impl ReadItem for RandomIV {
    fn read(alloc: Global, outer: Outer<'_>, item: ItemRef<'_>) -> Result<Self, ReadError> {
        Ok(RandomIV(bool::read(alloc, outer, item)?))
    }
}

impl ShowItem for RandomIV {
    fn show_into(&self, out: &mut TextWriter) {
        self.0.show_into(out);
    }
}

/// The length of the initialization vector in bits: KMIP 1.2, 3.6.
#[derive(Clone, Copy, PartialEq, Eq, Drop)]
pub struct IVLength(pub i32);

impl Item for IVLength {
    ghost shape = { Scalar Integer };

    ghost val = { iv_length_val };

    fn fits(&self) {
        self.0.fits();
    }

    ghost faithful = { iv_length_same };
}

impl WriteItem for IVLength {
    fn wire_len(&self, tag: Tag) -> Option<u64> {
        self.0.wire_len(tag)
    }

    fn write_into(&self, tag: Tag, out: &mut Buffer) {
        self.0.write_into(tag, out);
    }
}

impl ReadItem for IVLength {
    fn read(alloc: Global, outer: Outer<'_>, item: ItemRef<'_>) -> Result<Self, ReadError> {
        Ok(IVLength(i32::read(alloc, outer, item)?))
    }
}

impl ShowItem for IVLength {
    fn show_into(&self, out: &mut TextWriter) {
        self.0.show_into(out);
    }
}

/// The length of the authentication tag in bytes: KMIP 1.2, 3.6.
#[derive(Clone, Copy, PartialEq, Eq, Drop)]
pub struct TagLength(pub i32);

impl Item for TagLength {
    ghost shape = { Scalar Integer };

    ghost val = { tag_length_val };

    fn fits(&self) {
        self.0.fits();
    }

    ghost faithful = { tag_length_same };
}

impl WriteItem for TagLength {
    fn wire_len(&self, tag: Tag) -> Option<u64> {
        self.0.wire_len(tag)
    }

    fn write_into(&self, tag: Tag, out: &mut Buffer) {
        self.0.write_into(tag, out);
    }
}

impl ReadItem for TagLength {
    fn read(alloc: Global, outer: Outer<'_>, item: ItemRef<'_>) -> Result<Self, ReadError> {
        Ok(TagLength(i32::read(alloc, outer, item)?))
    }
}

impl ShowItem for TagLength {
    fn show_into(&self, out: &mut TextWriter) {
        self.0.show_into(out);
    }
}

/// The length of the fixed field of the initialization vector in bits: KMIP 1.2, 3.6.
#[derive(Clone, Copy, PartialEq, Eq, Drop)]
pub struct FixedFieldLength(pub i32);

impl Item for FixedFieldLength {
    ghost shape = { Scalar Integer };

    ghost val = { fixed_field_length_val };

    fn fits(&self) {
        self.0.fits();
    }

    ghost faithful = { fixed_field_length_same };
}

impl WriteItem for FixedFieldLength {
    fn wire_len(&self, tag: Tag) -> Option<u64> {
        self.0.wire_len(tag)
    }

    fn write_into(&self, tag: Tag, out: &mut Buffer) {
        self.0.write_into(tag, out);
    }
}

impl ReadItem for FixedFieldLength {
    fn read(alloc: Global, outer: Outer<'_>, item: ItemRef<'_>) -> Result<Self, ReadError> {
        Ok(FixedFieldLength(i32::read(alloc, outer, item)?))
    }
}

impl ShowItem for FixedFieldLength {
    fn show_into(&self, out: &mut TextWriter) {
        self.0.show_into(out);
    }
}

/// The length of the invocation field of the initialization vector in bits: KMIP 1.2, 3.6.
#[derive(Clone, Copy, PartialEq, Eq, Drop)]
pub struct InvocationFieldLength(pub i32);

impl Item for InvocationFieldLength {
    ghost shape = { Scalar Integer };

    ghost val = { invocation_field_length_val };

    fn fits(&self) {
        self.0.fits();
    }

    ghost faithful = { invocation_field_length_same };
}

impl WriteItem for InvocationFieldLength {
    fn wire_len(&self, tag: Tag) -> Option<u64> {
        self.0.wire_len(tag)
    }

    fn write_into(&self, tag: Tag, out: &mut Buffer) {
        self.0.write_into(tag, out);
    }
}

impl ReadItem for InvocationFieldLength {
    fn read(alloc: Global, outer: Outer<'_>, item: ItemRef<'_>) -> Result<Self, ReadError> {
        Ok(InvocationFieldLength(i32::read(alloc, outer, item)?))
    }
}

impl ShowItem for InvocationFieldLength {
    fn show_into(&self, out: &mut TextWriter) {
        self.0.show_into(out);
    }
}

/// The length of the counter of the initialization vector in bits: KMIP 1.2, 3.6.
#[derive(Clone, Copy, PartialEq, Eq, Drop)]
pub struct CounterLength(pub i32);

impl Item for CounterLength {
    ghost shape = { Scalar Integer };

    ghost val = { counter_length_val };

    fn fits(&self) {
        self.0.fits();
    }

    ghost faithful = { counter_length_same };
}

impl WriteItem for CounterLength {
    fn wire_len(&self, tag: Tag) -> Option<u64> {
        self.0.wire_len(tag)
    }

    fn write_into(&self, tag: Tag, out: &mut Buffer) {
        self.0.write_into(tag, out);
    }
}

impl ReadItem for CounterLength {
    fn read(alloc: Global, outer: Outer<'_>, item: ItemRef<'_>) -> Result<Self, ReadError> {
        Ok(CounterLength(i32::read(alloc, outer, item)?))
    }
}

impl ShowItem for CounterLength {
    fn show_into(&self, out: &mut TextWriter) {
        self.0.show_into(out);
    }
}

/// The first value of the counter: KMIP 1.2, 3.6.
#[derive(Clone, Copy, PartialEq, Eq, Drop)]
pub struct InitialCounterValue(pub i32);

impl Item for InitialCounterValue {
    ghost shape = { Scalar Integer };

    ghost val = { initial_counter_value_val };

    fn fits(&self) {
        self.0.fits();
    }

    ghost faithful = { initial_counter_value_same };
}

impl WriteItem for InitialCounterValue {
    fn wire_len(&self, tag: Tag) -> Option<u64> {
        self.0.wire_len(tag)
    }

    fn write_into(&self, tag: Tag, out: &mut Buffer) {
        self.0.write_into(tag, out);
    }
}

impl ReadItem for InitialCounterValue {
    fn read(alloc: Global, outer: Outer<'_>, item: ItemRef<'_>) -> Result<Self, ReadError> {
        Ok(InitialCounterValue(i32::read(alloc, outer, item)?))
    }
}

impl ShowItem for InitialCounterValue {
    fn show_into(&self, out: &mut TextWriter) {
        self.0.show_into(out);
    }
}
