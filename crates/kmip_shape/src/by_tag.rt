//! Rows whose items choose their case by their own tag.

ghost use Rattle.std.specs.Prelude.{◌≡◌, ℕ, IfOk, Some, None, Err, [], ◌∷◌, filter};
ghost use Rattle.std.specs.Prelude as p;
ghost use Rattle.std.specs.Option.{option_map};
ghost use Rattle.std.proofs.Common.{ap};
ghost use Rattle.kmip_wire.specs.Parts.{tag_of};
ghost use Rattle.kmip_wire.specs.Items.{item_tree};
ghost use Rattle.kmip_shape.specs.Val.{One as one};
ghost use Rattle.kmip_shape.specs.Shape.{OuterValue, AndRow, ByCase, Required, Optional, Plain};
ghost use Rattle.kmip_shape.specs.Shape.{among, own_tags};
ghost use Rattle.kmip_shape.specs.Reads.{marked_field, read_of, read_rows, with_field};
ghost use Rattle.kmip_shape.specs.Writes.{optional};
ghost use Rattle.kmip_shape.specs.Resume.{resume_single};

use crate::item::{Item, WriteItem};
use crate::item_lists::{fits_optional, optional_len, write_optional};
use crate::read::{Outer, ReadError, ReadItem};
use crate::row_readers::ReadRow;
use crate::row_writers::{FieldRow, ShowRow, WriteRow};
use crate::show::{ShowItem, show_optional};
use crate::text_writer::TextWriter;
use kmip_wire::{Buffer, ItemRef, Tag};
use std::alloc::Global;

/// A choice whose cases each have a tag of their own, by which they are chosen.
pub trait OfTag: ReadItem {
    /// The tags of the cases.
    ghost tags: { p.List ℕ };

    /// Whether a case has the tag.
    fn has_case(tag: Tag) -> bool
        ensures { result ≡ among tag tags };

    /// Lemma: `tags` are those of the shape's cases.
    ghost own: { (o : OuterValue) → own_tags Self.shape o ≡ tags };
}

/// An optional item, under the tag of one of the cases.
#[derive(Drop)]
pub struct TagOpt<T> {
    slot: Option<T>,
}

impl<'a, T: OfTag> ReadRow<'a> for TagOpt<T> {
    type Out = Option<T>;

    ghost row_above = { λ rest. AndRow [] ByCase Optional Plain T.shape rest };

    ghost row_reads = { λ rest o c xs.
        ap (λ ns.
        with_field (marked_field Optional (read_of T.shape o)
        (filter (λ x. among (tag_of x) ns) xs))
        (λ f. read_rows rest o c xs)) (T.own o) };

    ghost reads = { λ o c xs. marked_field Optional (read_of T.shape o)
        (filter (λ x. among (tag_of x) T.tags) xs) };

    ghost resume = { λ s o c xs. resume_single Optional (read_of T.shape o)
        (option_map T.val s.slot) (filter (λ x. among (tag_of x) T.tags) xs) };

    ghost shows = { λ x. optional T.val x };

    fn new(_alloc: Global) -> Self {
        TagOpt { slot: None }
    }

    fn offer_child(
        &mut self,
        alloc: Global,
        outer: Outer<'_>,
        child: ItemRef<'a>,
    ) -> Result<(), ReadError> {
        if T::has_case(child.tag()) {
            if self.slot.is_some() {
                return Err(ReadError::Unread);
            }
            self.slot = Some(T::read(alloc, outer, child)?);
        }
        Ok(())
    }

    fn finish(
        self,
        _alloc: Global,
        _outer: Outer<'_>,
        _chosen: Outer<'_>,
    ) -> Result<Option<T>, ReadError> {
        Ok(self.slot)
    }
}

impl<'b, T: Item + 'b> FieldRow<'b> for TagOpt<T> {
    type Lent = &'b Option<T>;

    ghost tag = { 0 };

    ghost shape = { T.shape };

    ghost mark = { Optional };

    ghost field = { λ x. optional T.val x.now };

    fn fits(lent: &'b Option<T>) {
        fits_optional(lent);
    }
}

impl<'b, T: WriteItem + 'b> WriteRow<'b> for TagOpt<T> {
    fn len(lent: &'b Option<T>) -> Option<u64> {
        optional_len(lent, Tag::of(0))
    }

    fn write(lent: &'b Option<T>, out: &mut Buffer) {
        write_optional(lent, Tag::of(0), out);
    }
}

impl<'b, T: ShowItem + 'b> ShowRow<'b> for TagOpt<T> {
    fn show(lent: &'b Option<T>, name: &str, after: bool, out: &mut TextWriter) -> bool {
        show_optional(lent, name, after, out)
    }
}
