//! The numbers in the header of a request.

ghost use Rattle.std.specs.Prelude.{◌≡◌};
ghost use Rattle.kmip_wire.specs.declared.kind.Kind.TheVariants.{Integer};
ghost use Rattle.kmip_shape.specs.Shape.{Scalar};
ghost use Rattle.kmip_request.specs.Values.{major_val, minor_val, size_val, count_val};
ghost use Rattle.kmip_request.specs.Same.{major_same, minor_same, size_same, count_same};

use kmip_shape::{Item, Outer, ReadError, ReadItem, WriteItem};
use kmip_wire::{Buffer, ItemRef, Tag};
use std::alloc::Global;

/// The major number of a version of KMIP: KMIP 1.0, 6.1.
#[derive(Clone, Copy, PartialEq, Eq, Drop)]
pub struct ProtocolVersionMajor(pub i32);

impl Item for ProtocolVersionMajor {
    ghost shape = { Scalar Integer };

    ghost val = { major_val };

    fn fits(&self) {
        self.0.fits();
    }

    ghost faithful = { major_same };
}

impl WriteItem for ProtocolVersionMajor {
    fn wire_len(&self, tag: Tag) -> Option<u64> {
        self.0.wire_len(tag)
    }

    fn write_into(&self, tag: Tag, out: &mut Buffer) {
        self.0.write_into(tag, out);
    }
}

impl ReadItem for ProtocolVersionMajor {
    fn read(alloc: Global, outer: Outer<'_>, item: ItemRef<'_>) -> Result<Self, ReadError> {
        Ok(ProtocolVersionMajor(i32::read(alloc, outer, item)?))
    }
}

/// The minor number of a version of KMIP: KMIP 1.0, 6.1.
#[derive(Clone, Copy, PartialEq, Eq, Drop)]
pub struct ProtocolVersionMinor(pub i32);

impl Item for ProtocolVersionMinor {
    ghost shape = { Scalar Integer };

    ghost val = { minor_val };

    fn fits(&self) {
        self.0.fits();
    }

    ghost faithful = { minor_same };
}

impl WriteItem for ProtocolVersionMinor {
    fn wire_len(&self, tag: Tag) -> Option<u64> {
        self.0.wire_len(tag)
    }

    fn write_into(&self, tag: Tag, out: &mut Buffer) {
        self.0.write_into(tag, out);
    }
}

impl ReadItem for ProtocolVersionMinor {
    fn read(alloc: Global, outer: Outer<'_>, item: ItemRef<'_>) -> Result<Self, ReadError> {
        Ok(ProtocolVersionMinor(i32::read(alloc, outer, item)?))
    }
}

/// The length in bytes of the longest response that a client takes: KMIP 1.0, 6.3.
#[derive(Clone, Copy, PartialEq, Eq, Drop)]
pub struct MaximumResponseSize(pub i32);

impl Item for MaximumResponseSize {
    ghost shape = { Scalar Integer };

    ghost val = { size_val };

    fn fits(&self) {
        self.0.fits();
    }

    ghost faithful = { size_same };
}

impl WriteItem for MaximumResponseSize {
    fn wire_len(&self, tag: Tag) -> Option<u64> {
        self.0.wire_len(tag)
    }

    fn write_into(&self, tag: Tag, out: &mut Buffer) {
        self.0.write_into(tag, out);
    }
}

impl ReadItem for MaximumResponseSize {
    fn read(alloc: Global, outer: Outer<'_>, item: ItemRef<'_>) -> Result<Self, ReadError> {
        Ok(MaximumResponseSize(i32::read(alloc, outer, item)?))
    }
}

/// How many batch items a message has: KMIP 1.0, 6.14.
#[derive(Clone, Copy, PartialEq, Eq, Drop)]
pub struct BatchCount(pub i32);

impl Item for BatchCount {
    ghost shape = { Scalar Integer };

    ghost val = { count_val };

    fn fits(&self) {
        self.0.fits();
    }

    ghost faithful = { count_same };
}

impl WriteItem for BatchCount {
    fn wire_len(&self, tag: Tag) -> Option<u64> {
        self.0.wire_len(tag)
    }

    fn write_into(&self, tag: Tag, out: &mut Buffer) {
        self.0.write_into(tag, out);
    }
}

impl ReadItem for BatchCount {
    fn read(alloc: Global, outer: Outer<'_>, item: ItemRef<'_>) -> Result<Self, ReadError> {
        Ok(BatchCount(i32::read(alloc, outer, item)?))
    }
}
