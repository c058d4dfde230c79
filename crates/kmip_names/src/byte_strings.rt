//! Values that are bytes.

ghost use Rattle.std.specs.Prelude.{◌≡◌};
ghost use Rattle.std.specs.Bool.{Decides};
ghost use Rattle.kmip_wire.specs.declared.kind.Kind.TheVariants.{ByteString};
ghost use Rattle.kmip_shape.specs.Shape.{Scalar};
ghost use Rattle.kmip_names.specs.ByteStrings.{data_val, data_same, unique_batch_item_id_val};
ghost use Rattle.kmip_names.specs.ByteStrings.{unique_batch_item_id_same};

use kmip_shape::read::{Outer, ReadError, ReadItem};
use kmip_shape::{Item, ShowItem, TextWriter, WriteItem};
use kmip_wire::{Blob, Buffer, ItemRef, OutOfMemory, Tag, TryClone};
use std::alloc::Global;

/// The data that an operation takes or returns: KMIP 1.2, 4.31 and 4.35.
#[derive(PartialEq, Eq, Drop)]
pub struct Data(pub Blob);

impl TryClone for Data {
    fn try_clone(&self, alloc: Global) -> Result<Data, OutOfMemory> {
        Ok(Data(self.0.try_clone(alloc)?))
    }
}

impl Item for Data {
    ghost shape = { Scalar ByteString };

    ghost val = { data_val };

    fn fits(&self) {
        self.0.fits();
    }

    ghost faithful = { data_same };
}

impl WriteItem for Data {
    fn wire_len(&self, tag: Tag) -> Option<u64> {
        self.0.wire_len(tag)
    }

    fn write_into(&self, tag: Tag, out: &mut Buffer) {
        self.0.write_into(tag, out);
    }
}

impl ReadItem for Data {
    fn read(alloc: Global, outer: Outer<'_>, item: ItemRef<'_>) -> Result<Self, ReadError> {
        Ok(Data(Blob::read(alloc, outer, item)?))
    }
}

impl ShowItem for Data {
    fn show_into(&self, out: &mut TextWriter) {
        self.0.show_into(out);
    }
}

/// The identifier of a batch item, the same in request and response: KMIP 1.0, 6.4.
#[derive(PartialEq, Eq, Drop)]
pub struct UniqueBatchItemID(pub Blob);

impl UniqueBatchItemID {
    /// Whether the identifier is `other`.
    pub fn is(&self, other: &[u8]) -> bool
        ensures { Decides result (self.now.0 ≡ other.now) }
    {
        self.0.as_slice() == other
    }
}

impl TryClone for UniqueBatchItemID {
    fn try_clone(&self, alloc: Global) -> Result<UniqueBatchItemID, OutOfMemory> {
        Ok(UniqueBatchItemID(self.0.try_clone(alloc)?))
    }
}

impl Item for UniqueBatchItemID {
    ghost shape = { Scalar ByteString };

    ghost val = { unique_batch_item_id_val };

    fn fits(&self) {
        self.0.fits();
    }

    ghost faithful = { unique_batch_item_id_same };
}

impl WriteItem for UniqueBatchItemID {
    fn wire_len(&self, tag: Tag) -> Option<u64> {
        self.0.wire_len(tag)
    }

    fn write_into(&self, tag: Tag, out: &mut Buffer) {
        self.0.write_into(tag, out);
    }
}

impl ReadItem for UniqueBatchItemID {
    fn read(alloc: Global, outer: Outer<'_>, item: ItemRef<'_>) -> Result<Self, ReadError> {
        Ok(UniqueBatchItemID(Blob::read(alloc, outer, item)?))
    }
}

impl ShowItem for UniqueBatchItemID {
    fn show_into(&self, out: &mut TextWriter) {
        self.0.show_into(out);
    }
}
