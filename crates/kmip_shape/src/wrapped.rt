//! Types for the items that another Rust type stands for already: Big Integer beside Byte String
//! (`Blob`), and a signed Date-Time beside the unsigned `u64`.

ghost use Rattle.std.specs.Prelude.{◌≡◌, ℕ, ℤ, List};
ghost use Rattle.std.proofs.Common.{ap};
ghost use Rattle.kmip_wire.specs.declared.kind.Kind.TheVariants.{BigInteger as big_integers};
ghost use Rattle.kmip_wire.specs.declared.kind.Kind.TheVariants.{DateTime};
ghost use Rattle.kmip_shape.specs.Val.{Bytes as bytes};
ghost use Rattle.kmip_shape.specs.Shape.{Scalar};
ghost use Rattle.kmip_shape.specs.Same.{same_bytes};
ghost use Rattle.kmip_shape.specs.Dates.{date_val, date_same};

use crate::item::{Item, WriteItem};
use crate::item_lists::fits_bytes;
use crate::read::{Outer, ReadError, ReadItem};
use crate::scalars::{SCALAR_LEN, big_integer_len, put_big_integer, put_date};
use crate::show::ShowItem;
use crate::text_writer::TextWriter;
use kmip_wire::{Blob, Buffer, ItemRef, OutOfMemory, Tag, TryClone};
use std::alloc::Global;

/// The bytes of a Big Integer, the highest first. It has canonical bytes exactly where their number
/// is a multiple of 8 below 2^32.
#[derive(PartialEq, Eq, Drop)]
pub struct BigInteger(pub Blob);

impl TryClone for BigInteger {
    fn try_clone(&self, alloc: Global) -> Result<BigInteger, OutOfMemory> {
        Ok(BigInteger(self.0.try_clone(alloc)?))
    }
}

impl Item for BigInteger {
    ghost shape = { Scalar big_integers };

    ghost val = { λ x. bytes x.0 };

    fn fits(&self) {
        fits_bytes(self.0.as_slice());
    }

    ghost faithful = { λ x y h. ap (λ (b : List ℕ). record { 0 = b }) (same_bytes h) };
}

impl WriteItem for BigInteger {
    fn wire_len(&self, _tag: Tag) -> Option<u64> {
        big_integer_len(self.0.as_slice())
    }

    fn write_into(&self, tag: Tag, out: &mut Buffer) {
        put_big_integer(tag, self.0.as_slice(), out);
    }
}

impl ReadItem for BigInteger {
    fn read(alloc: Global, _outer: Outer<'_>, item: ItemRef<'_>) -> Result<Self, ReadError> {
        match item.big() {
            None => Err(ReadError::Unread),
            Some(value) => Ok(BigInteger(Blob::of(alloc, value)?)),
        }
    }
}

impl ShowItem for BigInteger {
    fn show_into(&self, out: &mut TextWriter) {
        out.put_bytes(self.0.as_slice());
    }
}

/// A Date-Time that Rust holds as signed seconds since 1970 (KMIP 1.0, 9.1.1.4). It is shown as the
/// unsigned number of the same 64 bits, and in JSON as the signed one.
#[derive(Clone, Copy, PartialEq, Eq, Drop)]
pub struct Timestamp(pub i64);

#[tactic(auto, using(crate::proofs::Dated::date_fits))]
impl Item for Timestamp {
    ghost shape = { Scalar DateTime };

    ghost val = { λ x. date_val x.0 };

    fn fits(&self) {
        let _seconds = self.0;
    }

    ghost faithful = { λ x y h. ap (λ (z : ℤ). record { 0 = z }) (date_same x.0 y.0 h) };
}

#[tactic(auto, using(crate::proofs::Dated::dated))]
impl WriteItem for Timestamp {
    fn wire_len(&self, _tag: Tag) -> Option<u64> {
        let _seconds = self.0;
        Some(SCALAR_LEN)
    }

    fn write_into(&self, tag: Tag, out: &mut Buffer) {
        put_date(tag, self.0.cast_unsigned(), out);
    }
}

#[tactic(auto, using(crate::proofs::Dated::date_read))]
impl ReadItem for Timestamp {
    fn read(_alloc: Global, _outer: Outer<'_>, item: ItemRef<'_>) -> Result<Self, ReadError> {
        match item.date() {
            None => Err(ReadError::Unread),
            Some(date) => Ok(Timestamp(date.cast_signed())),
        }
    }
}

#[tactic(auto, using(crate::proofs::Dated::dated))]
impl ShowItem for Timestamp {
    fn show_into(&self, out: &mut TextWriter) {
        out.put_date(self.0.cast_unsigned());
    }
}
