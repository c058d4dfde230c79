//! Plain values as items: texts, bytes, numbers and truth values.
//!
//! A `Text` is a Text String, a `Blob` a Byte String, an `i32` an Integer, an `i64` a Long Integer,
//! a `bool` a Boolean, a `u64` a Date-Time and a `u32` an Interval. `BigInteger` and `Timestamp`
//! wrap a `Blob` that is a Big Integer and an `i64` that is a Date-Time.

ghost use Rattle.std.specs.Prelude.{◌≡◌, pos};
ghost use Rattle.kmip_wire.specs.declared.kind.Kind.TheVariants.{TextString, ByteString};
ghost use Rattle.kmip_wire.specs.declared.kind.Kind.TheVariants.{BigInteger as big_integer};
ghost use Rattle.kmip_wire.specs.declared.kind.Kind.TheVariants.{Integer, LongInteger, Boolean};
ghost use Rattle.kmip_wire.specs.declared.kind.Kind.TheVariants.{DateTime, Interval};
ghost use Rattle.kmip_shape.specs.Val.{Number, Text as text, Bytes as bytes, Truth};
ghost use Rattle.kmip_shape.specs.Shape.{Scalar};
ghost use Rattle.kmip_shape.specs.Same.{same_text, same_bytes, same_number, same_truth};
ghost use Rattle.kmip_shape.specs.Same.{same_unsigned};

use crate::item::{Item, WriteItem};
use crate::item_lists::fits_bytes;
use crate::read::{Outer, ReadError, ReadItem};
use crate::scalars::{
    SCALAR_LEN, bytes_len, put_boolean, put_bytes, put_date, put_integer, put_interval,
    put_long_integer, put_text, text_len,
};
use crate::show::ShowItem;
use crate::text_writer::TextWriter;
use kmip_wire::{Blob, Buffer, ItemRef, Tag, Text};
use std::alloc::Global;

impl Item for Text {
    ghost shape = { Scalar TextString };

    ghost val = { λ x. text x };

    fn fits(&self) {
        let _text = self.as_str();
    }

    ghost faithful = { λ x y h. same_text h };
}

impl WriteItem for Text {
    fn wire_len(&self, _tag: Tag) -> Option<u64> {
        text_len(self.as_str())
    }

    fn write_into(&self, tag: Tag, out: &mut Buffer) {
        put_text(tag, self.as_str(), out);
    }
}

impl ReadItem for Text {
    fn read(alloc: Global, _outer: Outer<'_>, item: ItemRef<'_>) -> Result<Self, ReadError> {
        match item.text() {
            None => Err(ReadError::Unread),
            Some(value) => Ok(Text::of(alloc, value)?),
        }
    }
}

impl ShowItem for Text {
    fn show_into(&self, out: &mut TextWriter) {
        out.put_text(self.as_str());
    }
}

impl Item for Blob {
    ghost shape = { Scalar ByteString };

    ghost val = { λ x. bytes x };

    fn fits(&self) {
        fits_bytes(self.as_slice());
    }

    ghost faithful = { λ x y h. same_bytes h };
}

impl WriteItem for Blob {
    fn wire_len(&self, _tag: Tag) -> Option<u64> {
        bytes_len(self.as_slice())
    }

    fn write_into(&self, tag: Tag, out: &mut Buffer) {
        put_bytes(tag, self.as_slice(), out);
    }
}

impl ReadItem for Blob {
    fn read(alloc: Global, _outer: Outer<'_>, item: ItemRef<'_>) -> Result<Self, ReadError> {
        match item.bytes() {
            None => Err(ReadError::Unread),
            Some(value) => Ok(Blob::of(alloc, value)?),
        }
    }
}

impl ShowItem for Blob {
    fn show_into(&self, out: &mut TextWriter) {
        out.put_bytes(self.as_slice());
    }
}

impl Item for i32 {
    ghost shape = { Scalar Integer };

    ghost val = { λ x. Number x };

    fn fits(&self) {
        let _value = *self;
    }

    ghost faithful = { λ x y h. same_number h };
}

impl WriteItem for i32 {
    fn wire_len(&self, _tag: Tag) -> Option<u64> {
        Some(SCALAR_LEN)
    }

    fn write_into(&self, tag: Tag, out: &mut Buffer) {
        put_integer(tag, *self, out);
    }
}

impl ReadItem for i32 {
    fn read(_alloc: Global, _outer: Outer<'_>, item: ItemRef<'_>) -> Result<Self, ReadError> {
        match item.int() {
            None => Err(ReadError::Unread),
            Some(value) => Ok(value),
        }
    }
}

impl ShowItem for i32 {
    fn show_into(&self, out: &mut TextWriter) {
        out.put_signed(i64::from(*self));
    }
}

impl Item for i64 {
    ghost shape = { Scalar LongInteger };

    ghost val = { λ x. Number x };

    fn fits(&self) {
        let _value = *self;
    }

    ghost faithful = { λ x y h. same_number h };
}

impl WriteItem for i64 {
    fn wire_len(&self, _tag: Tag) -> Option<u64> {
        Some(SCALAR_LEN)
    }

    fn write_into(&self, tag: Tag, out: &mut Buffer) {
        put_long_integer(tag, *self, out);
    }
}

impl ReadItem for i64 {
    fn read(_alloc: Global, _outer: Outer<'_>, item: ItemRef<'_>) -> Result<Self, ReadError> {
        match item.long() {
            None => Err(ReadError::Unread),
            Some(value) => Ok(value),
        }
    }
}

impl ShowItem for i64 {
    fn show_into(&self, out: &mut TextWriter) {
        out.put_signed(*self);
    }
}

impl Item for bool {
    ghost shape = { Scalar Boolean };

    ghost val = { λ x. Truth x };

    fn fits(&self) {
        let _value = *self;
    }

    ghost faithful = { λ x y h. same_truth h };
}

impl WriteItem for bool {
    fn wire_len(&self, _tag: Tag) -> Option<u64> {
        Some(SCALAR_LEN)
    }

    fn write_into(&self, tag: Tag, out: &mut Buffer) {
        put_boolean(tag, *self, out);
    }
}

impl ReadItem for bool {
    fn read(_alloc: Global, _outer: Outer<'_>, item: ItemRef<'_>) -> Result<Self, ReadError> {
        match item.flag() {
            None => Err(ReadError::Unread),
            Some(value) => Ok(value),
        }
    }
}

impl ShowItem for bool {
    fn show_into(&self, out: &mut TextWriter) {
        out.put_truth(*self);
    }
}

impl Item for u64 {
    ghost shape = { Scalar DateTime };

    ghost val = { λ x. Number (pos x) };

    fn fits(&self) {
        let _value = *self;
    }

    ghost faithful = { λ x y h. same_unsigned h };
}

impl WriteItem for u64 {
    fn wire_len(&self, _tag: Tag) -> Option<u64> {
        Some(SCALAR_LEN)
    }

    fn write_into(&self, tag: Tag, out: &mut Buffer) {
        put_date(tag, *self, out);
    }
}

impl ReadItem for u64 {
    fn read(_alloc: Global, _outer: Outer<'_>, item: ItemRef<'_>) -> Result<Self, ReadError> {
        match item.date() {
            None => Err(ReadError::Unread),
            Some(value) => Ok(value),
        }
    }
}

impl ShowItem for u64 {
    fn show_into(&self, out: &mut TextWriter) {
        out.put_date(*self);
    }
}

impl Item for u32 {
    ghost shape = { Scalar Interval };

    ghost val = { λ x. Number (pos x) };

    fn fits(&self) {
        let _value = *self;
    }

    ghost faithful = { λ x y h. same_unsigned h };
}

impl WriteItem for u32 {
    fn wire_len(&self, _tag: Tag) -> Option<u64> {
        Some(SCALAR_LEN)
    }

    fn write_into(&self, tag: Tag, out: &mut Buffer) {
        put_interval(tag, *self, out);
    }
}

impl ReadItem for u32 {
    fn read(_alloc: Global, _outer: Outer<'_>, item: ItemRef<'_>) -> Result<Self, ReadError> {
        match item.interval() {
            None => Err(ReadError::Unread),
            Some(value) => Ok(value),
        }
    }
}

impl ShowItem for u32 {
    fn show_into(&self, out: &mut TextWriter) {
        out.put_unsigned(u64::from(*self));
    }
}
