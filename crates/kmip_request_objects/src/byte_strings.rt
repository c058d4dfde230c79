//! Values that are bytes.

ghost use Rattle.std.specs.Prelude.{◌≡◌};
ghost use Rattle.kmip_wire.specs.declared.kind.Kind.TheVariants.{ByteString};
ghost use Rattle.kmip_shape.specs.Shape.{Scalar};
ghost use Rattle.kmip_request_objects.specs.Values.{mac_or_signature_val};
ghost use Rattle.kmip_request_objects.specs.Values.{iv_or_counter_or_nonce_val};
ghost use Rattle.kmip_request_objects.specs.Same.{mac_or_signature_same};
ghost use Rattle.kmip_request_objects.specs.Same.{iv_or_counter_or_nonce_same};

use kmip_shape::{Item, Outer, ReadError, ReadItem, WriteItem};
use kmip_wire::{Blob, Buffer, ItemRef, OutOfMemory, Tag, TryClone};
use std::alloc::Global;

/// The MAC or signature of a wrapped key: KMIP 1.0, 2.1.5.
#[derive(PartialEq, Eq, Drop)]
pub struct MACOrSignature(pub Blob);

impl MACOrSignature {
    /// Holds these bytes. It takes no memory.
    pub fn new(bytes: Blob) -> Self
        ensures { result.0 ≡ bytes }
    {
        MACOrSignature(bytes)
    }
}

impl TryClone for MACOrSignature {
    fn try_clone(&self, alloc: Global) -> Result<MACOrSignature, OutOfMemory> {
        Ok(MACOrSignature(self.0.try_clone(alloc)?))
    }
}

impl Item for MACOrSignature {
    ghost shape = { Scalar ByteString };

    ghost val = { mac_or_signature_val };

    fn fits(&self) {
        self.0.fits();
    }

    ghost faithful = { mac_or_signature_same };
}

impl WriteItem for MACOrSignature {
    fn wire_len(&self, tag: Tag) -> Option<u64> {
        self.0.wire_len(tag)
    }

    fn write_into(&self, tag: Tag, out: &mut Buffer) {
        self.0.write_into(tag, out);
    }
}

impl ReadItem for MACOrSignature {
    fn read(alloc: Global, outer: Outer<'_>, item: ItemRef<'_>) -> Result<Self, ReadError> {
        Ok(MACOrSignature(Blob::read(alloc, outer, item)?))
    }
}

/// The IV, counter or nonce of a wrapped key: KMIP 1.0, 2.1.5.
#[derive(PartialEq, Eq, Drop)]
pub struct IVOrCounterOrNonce(pub Blob);

impl IVOrCounterOrNonce {
    /// Holds these bytes. It takes no memory.
    pub fn new(bytes: Blob) -> Self
        ensures { result.0 ≡ bytes }
    {
        IVOrCounterOrNonce(bytes)
    }
}

impl TryClone for IVOrCounterOrNonce {
    fn try_clone(&self, alloc: Global) -> Result<IVOrCounterOrNonce, OutOfMemory> {
        Ok(IVOrCounterOrNonce(self.0.try_clone(alloc)?))
    }
}

impl Item for IVOrCounterOrNonce {
    ghost shape = { Scalar ByteString };

    ghost val = { iv_or_counter_or_nonce_val };

    fn fits(&self) {
        self.0.fits();
    }

    ghost faithful = { iv_or_counter_or_nonce_same };
}

impl WriteItem for IVOrCounterOrNonce {
    fn wire_len(&self, tag: Tag) -> Option<u64> {
        self.0.wire_len(tag)
    }

    fn write_into(&self, tag: Tag, out: &mut Buffer) {
        self.0.write_into(tag, out);
    }
}

impl ReadItem for IVOrCounterOrNonce {
    fn read(alloc: Global, outer: Outer<'_>, item: ItemRef<'_>) -> Result<Self, ReadError> {
        Ok(IVOrCounterOrNonce(Blob::read(alloc, outer, item)?))
    }
}
