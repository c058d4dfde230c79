//! Rows of Big Integers whose fields are `Blob`s.

ghost use Rattle.std.specs.Prelude.{◌≡◌, ℕ, IfOk, Some, None, Err, [], ◌∷◌, filter};
ghost use Rattle.std.specs.Option.{option_map};
ghost use Rattle.kmip_wire.specs.declared.kind.Kind.TheVariants.{BigInteger as big_integers};
ghost use Rattle.kmip_wire.specs.Items.{item_tree};
ghost use Rattle.kmip_shape.specs.Val.{One as one, Bytes as bytes};
ghost use Rattle.kmip_shape.specs.Shape.{AndRow, Under, Required, Optional, Plain, Scalar, has_tag};
ghost use Rattle.kmip_shape.specs.Reads.{marked_field, read_of};
ghost use Rattle.kmip_shape.specs.Writes.{optional};
ghost use Rattle.kmip_shape.specs.Resume.{outer_of, resume_single};
ghost use Rattle.std.specs.Prelude.{refl};

use crate::item::{Item, WriteItem};
use crate::item_lists::fits_bytes;
use crate::read::{Outer, ReadError, ReadItem};
use crate::row_readers::ReadRow;
use crate::row_writers::{FieldRow, ShowRow, WriteRow};
use crate::scalars::{big_integer_len, put_big_integer};
use crate::show::ShowItem;
use crate::text_writer::TextWriter;
use crate::wrapped::BigInteger;
use kmip_wire::{Blob, Buffer, ItemRef, Tag};
use std::alloc::Global;

/// A required Big Integer.
#[derive(Drop)]
pub struct BigOne<const TAG: u32> {
    slot: Option<Blob>,
}

impl<'a, const TAG: u32> ReadRow<'a> for BigOne<TAG> {
    type Out = Blob;

    ghost row_above = { λ rest. AndRow [] (Under TAG) Required Plain (Scalar big_integers) rest };

    ghost row_reads = { λ rest o c xs. refl };

    ghost reads = { λ o c xs. marked_field Required (read_of (Scalar big_integers) o)
        (filter (has_tag TAG) xs) };

    ghost resume = { λ s o c xs. resume_single Required (read_of (Scalar big_integers) o)
        (option_map bytes s.slot) (filter (has_tag TAG) xs) };

    ghost shows = { λ x. one (bytes x) };

    fn new(_alloc: Global) -> Self {
        BigOne { slot: None }
    }

    fn offer_child(
        &mut self,
        alloc: Global,
        outer: Outer<'_>,
        child: ItemRef<'a>,
    ) -> Result<(), ReadError> {
        if child.tag().number() == TAG {
            if self.slot.is_some() {
                return Err(ReadError::Unread);
            }
            self.slot = Some(BigInteger::read(alloc, outer, child)?.0);
        }
        Ok(())
    }

    fn finish(
        self,
        _alloc: Global,
        _outer: Outer<'_>,
        _chosen: Outer<'_>,
    ) -> Result<Blob, ReadError> {
        self.slot.ok_or(ReadError::Unread)
    }
}

impl<'b, const TAG: u32> FieldRow<'b> for BigOne<TAG> {
    type Lent = &'b Blob;

    ghost tag = { TAG };

    ghost shape = { Scalar big_integers };

    ghost mark = { Required };

    ghost field = { λ x. one (bytes x.now) };

    fn fits(lent: &'b Blob) {
        fits_bytes(lent.as_slice());
    }
}

impl<'b, const TAG: u32> WriteRow<'b> for BigOne<TAG> {
    fn len(lent: &'b Blob) -> Option<u64> {
        big_integer_len(lent.as_slice())
    }

    fn write(lent: &'b Blob, out: &mut Buffer) {
        put_big_integer(Tag::of(TAG), lent.as_slice(), out);
    }
}

impl<'b, const TAG: u32> ShowRow<'b> for BigOne<TAG> {
    fn show(lent: &'b Blob, name: &str, after: bool, out: &mut TextWriter) -> bool {
        out.put_comma(after);
        out.put_word(name);
        out.put_name_mark();
        lent.show_into(out);
        true
    }
}

/// A Big Integer that may be absent.
#[derive(Drop)]
pub struct BigOpt<const TAG: u32> {
    slot: Option<Blob>,
}

impl<'a, const TAG: u32> ReadRow<'a> for BigOpt<TAG> {
    type Out = Option<Blob>;

    ghost row_above = { λ rest. AndRow [] (Under TAG) Optional Plain (Scalar big_integers) rest };

    ghost row_reads = { λ rest o c xs. refl };

    ghost reads = { λ o c xs. marked_field Optional (read_of (Scalar big_integers) o)
        (filter (has_tag TAG) xs) };

    ghost resume = { λ s o c xs. resume_single Optional (read_of (Scalar big_integers) o)
        (option_map bytes s.slot) (filter (has_tag TAG) xs) };

    ghost shows = { λ x. optional bytes x };

    fn new(_alloc: Global) -> Self {
        BigOpt { slot: None }
    }

    fn offer_child(
        &mut self,
        alloc: Global,
        outer: Outer<'_>,
        child: ItemRef<'a>,
    ) -> Result<(), ReadError> {
        if child.tag().number() == TAG {
            if self.slot.is_some() {
                return Err(ReadError::Unread);
            }
            self.slot = Some(BigInteger::read(alloc, outer, child)?.0);
        }
        Ok(())
    }

    fn finish(
        self,
        _alloc: Global,
        _outer: Outer<'_>,
        _chosen: Outer<'_>,
    ) -> Result<Option<Blob>, ReadError> {
        Ok(self.slot)
    }
}

impl<'b, const TAG: u32> FieldRow<'b> for BigOpt<TAG> {
    type Lent = &'b Option<Blob>;

    ghost tag = { TAG };

    ghost shape = { Scalar big_integers };

    ghost mark = { Optional };

    ghost field = { λ x. optional bytes x.now };

    fn fits(lent: &'b Option<Blob>) {
        if let Some(lent) = lent {
            fits_bytes(lent.as_slice());
        }
    }
}

impl<'b, const TAG: u32> WriteRow<'b> for BigOpt<TAG> {
    fn len(lent: &'b Option<Blob>) -> Option<u64> {
        match lent {
            Some(lent) => big_integer_len(lent.as_slice()),
            None => Some(0),
        }
    }

    fn write(lent: &'b Option<Blob>, out: &mut Buffer) {
        if let Some(lent) = lent {
            put_big_integer(Tag::of(TAG), lent.as_slice(), out);
        }
    }
}

impl<'b, const TAG: u32> ShowRow<'b> for BigOpt<TAG> {
    fn show(lent: &'b Option<Blob>, name: &str, after: bool, out: &mut TextWriter) -> bool {
        match lent {
            Some(lent) => <BigOne<TAG> as ShowRow<'b>>::show(lent, name, after, out),
            None => after,
        }
    }
}
