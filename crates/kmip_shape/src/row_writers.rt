//! The fields of a record by its rows: that they fit the rows, how long they are, and how they are
//! written and shown.
//!
//! A record's rows are one type, for reading as for these calls, as `Row<One<AttributeName,
//! ATTRIBUTE_NAME>, ..>`. Its fields are borrowed as nested pairs in the order of the rows:
//! `(&self.name, (&self.index, ()))`.

ghost use Rattle.std.specs.Prelude.{◌≡◌, ◌≤◌, ◌<◌, ◌+◌, ◌^◌, ◌++◌, ◌||◌, ◌∷◌, ℕ, Bool, false};
ghost use Rattle.std.specs.Prelude.{IfSome, [], true};
ghost use Rattle.kmip_wire.specs.Room.{Appends};
ghost use Rattle.kmip_shape.specs.Val.{Field, Fields, Val, NoField as no_fields};
ghost use Rattle.kmip_shape.specs.Val.{AndField as and_field, One as one, Many as many};
ghost use Rattle.kmip_shape.specs.Val.{Record as record_of};
ghost use Rattle.kmip_shape.specs.Shape.{RowList, Shape, Mark, Required, Optional, AnyNumber};
ghost use Rattle.kmip_shape.specs.Shape.{AtLeastOne, OptionalList, NoRow, AndRow, Under, Plain};
ghost use Rattle.kmip_shape.specs.Shape.{NoCase, Rows as rows_of};
ghost use Rattle.kmip_shape.specs.Fits.{are_tags, mark_fits, field_fits, fields_fit};
ghost use Rattle.kmip_shape.specs.Writes.{structure_head, optional, optional_list, vals};
ghost use Rattle.kmip_shape.specs.Writes.{field_form, field_len, field_size, field_text};
ghost use Rattle.kmip_shape.specs.Writes.{fields_form, fields_len, fields_size, fields_text};
ghost use Rattle.kmip_shape.specs.Writes.{structure_len as len_of_structure};
ghost use Rattle.kmip_shape.specs.Shown.{Grows, row_in_style, fields_in_style, record_in_style, stands};

use crate::item::{Item, WriteItem};
use crate::item_lists::{
    fits_list, fits_optional, fits_optional_list, list_len, optional_len, optional_list_len,
    plus_len, write_list, write_optional, write_optional_list,
};
use crate::record::{Choosing, End, Row};
use crate::row_readers::{ChosenOne, ChosenOpt, Many, NonEmpty, One, Opt, OptMany};
use crate::scalars::put_structure;
use crate::show::{ShowItem, show_list, show_one, show_optional, show_optional_list};
use crate::text_writer::TextWriter;
use kmip_wire::{Buffer, List, Tag};

/// A row of a record, and the field that it describes.
pub trait FieldRow<'b> {
    /// The field as it is borrowed.
    type Lent: Copy + Drop;

    /// The tag of the row's items, their shape, and how many there may be.
    ghost tag: { ℕ };

    ghost shape: { Shape };

    ghost mark: { Mark };

    /// The meaning of the field.
    ghost field: { Self.Lent → Field };

    /// Lemma: the field fits the row. The call does nothing.
    fn fits(lent: Self::Lent)
        ensures mark { mark_fits mark (field lent) }
        ensures field { field_fits (field lent) NoCase shape };
}

/// A row whose field can be written.
pub trait WriteRow<'b>: FieldRow<'b> {
    /// The length of the field's items, and `None` exactly where one has no canonical bytes or they
    /// reach 2^32 bytes.
    fn len(lent: Self::Lent) -> Option<u64>
        requires { Self.tag < 2 ^ 24 }
        ensures { result ≡ field_len (Self.field lent) Self.shape };

    /// Appends the canonical bytes of the field's items.
    fn write(lent: Self::Lent, out: &mut Buffer)
        requires tag { Self.tag < 2 ^ 24 }
        requires form { field_form (Self.field lent) Self.shape }
        requires room { field_size (Self.field lent) Self.shape ≤ out.old.spare }
        ensures { Appends out.old out.new (field_text (Self.field lent) Self.shape Self.tag)
            (field_size (Self.field lent) Self.shape) };
}

/// A row whose field can be shown.
pub trait ShowRow<'b>: FieldRow<'b> {
    /// Appends the field under this name, with a comma before it where a field was shown already
    /// (`after`), and nothing where the field is absent. Returns whether a field was shown by now.
    fn show(lent: Self::Lent, name: &str, after: bool, out: &mut TextWriter) -> bool
        ensures after { (a : Bool) → after ≡ a → result ≡ (a || stands (Self.field lent)) }
        ensures text { (a : Bool) → after ≡ a →
            Grows out.old out.new (row_in_style (Self.field lent) NoCase name.now Self.shape a) };
}

/// The rows of a record, and the fields that they describe.
pub trait FieldRows<'b> {
    /// The fields as they are borrowed.
    type Lent;

    /// The table of the rows, without the names.
    ghost row_list: { RowList };

    /// The meaning of the fields.
    ghost fields: { Self.Lent → Fields };

    /// Lemma: the fields fit the rows. The call does nothing.
    fn fits(lent: Self::Lent)
        ensures { fields_fit (fields lent) NoCase row_list };
}

/// Rows whose fields can be written.
pub trait WriteRows<'b> {
    /// The fields as they are borrowed.
    type Lent;

    /// The table of the rows, without the names.
    ghost row_list: { RowList };

    /// The meaning of the fields.
    ghost fields: { Self.Lent → Fields };

    /// The length of the items of all fields, and `None` exactly where one has no canonical bytes
    /// or they reach 2^32 bytes.
    fn len(lent: Self::Lent) -> Option<u64>
        requires { are_tags Self.row_list ≡ true }
        ensures len { result ≡ fields_len (Self.fields lent) Self.row_list }
        ensures below { IfSome result (λ n. n < 2 ^ 32) };

    /// Appends the canonical bytes of the items of all fields.
    fn write(lent: Self::Lent, out: &mut Buffer)
        requires tags { are_tags Self.row_list ≡ true }
        requires form { fields_form (Self.fields lent) Self.row_list }
        requires room { fields_size (Self.fields lent) Self.row_list ≤ out.old.spare }
        ensures { Appends out.old out.new (fields_text (Self.fields lent) Self.row_list)
            (fields_size (Self.fields lent) Self.row_list) };
}

/// Rows whose fields can be shown, each under a name.
pub trait ShowRows<'b> {
    /// The fields as they are borrowed.
    type Lent;

    /// The names, as nested pairs in the order of the rows.
    type Names;

    /// The meaning of the fields.
    ghost fields: { Self.Lent → Fields };

    /// The table of the rows with these names.
    ghost named: { Self.Names → RowList };

    /// Appends the fields that stand, with a comma before the first where a field was shown already
    /// (`after`).
    fn show(lent: Self::Lent, names: Self::Names, after: bool, out: &mut TextWriter)
        ensures { (a : Bool) → after ≡ a →
            Grows out.old out.new (fields_in_style (Self.fields lent) NoCase (named names) a) };
}

impl<'b, T: Item + 'b, const TAG: u32> FieldRow<'b> for One<T, TAG> {
    type Lent = &'b T;

    ghost tag = { TAG };

    ghost shape = { T.shape };

    ghost mark = { Required };

    ghost field = { λ x. one (T.val x.now) };

    fn fits(lent: &'b T) {
        lent.fits();
    }
}

impl<'b, T: WriteItem + 'b, const TAG: u32> WriteRow<'b> for One<T, TAG> {
    fn len(lent: &'b T) -> Option<u64> {
        lent.wire_len(Tag::of(TAG))
    }

    fn write(lent: &'b T, out: &mut Buffer) {
        lent.write_into(Tag::of(TAG), out);
    }
}

impl<'b, T: ShowItem + 'b, const TAG: u32> ShowRow<'b> for One<T, TAG> {
    fn show(lent: &'b T, name: &str, after: bool, out: &mut TextWriter) -> bool {
        show_one(lent, name, after, out)
    }
}

impl<'b, T: Item + 'b, const TAG: u32> FieldRow<'b> for ChosenOne<'b, T, TAG> {
    type Lent = &'b T;

    ghost tag = { TAG };

    ghost shape = { T.shape };

    ghost mark = { Required };

    ghost field = { λ x. one (T.val x.now) };

    fn fits(lent: &'b T) {
        lent.fits();
    }
}

impl<'b, T: WriteItem + 'b, const TAG: u32> WriteRow<'b> for ChosenOne<'b, T, TAG> {
    fn len(lent: &'b T) -> Option<u64> {
        lent.wire_len(Tag::of(TAG))
    }

    fn write(lent: &'b T, out: &mut Buffer) {
        lent.write_into(Tag::of(TAG), out);
    }
}

impl<'b, T: ShowItem + 'b, const TAG: u32> ShowRow<'b> for ChosenOne<'b, T, TAG> {
    fn show(lent: &'b T, name: &str, after: bool, out: &mut TextWriter) -> bool {
        show_one(lent, name, after, out)
    }
}

impl<'b, T: Item + 'b, const TAG: u32> FieldRow<'b> for Opt<T, TAG> {
    type Lent = &'b Option<T>;

    ghost tag = { TAG };

    ghost shape = { T.shape };

    ghost mark = { Optional };

    ghost field = { λ x. optional T.val x.now };

    fn fits(lent: &'b Option<T>) {
        fits_optional(lent);
    }
}

impl<'b, T: WriteItem + 'b, const TAG: u32> WriteRow<'b> for Opt<T, TAG> {
    fn len(lent: &'b Option<T>) -> Option<u64> {
        optional_len(lent, Tag::of(TAG))
    }

    fn write(lent: &'b Option<T>, out: &mut Buffer) {
        write_optional(lent, Tag::of(TAG), out);
    }
}

impl<'b, T: ShowItem + 'b, const TAG: u32> ShowRow<'b> for Opt<T, TAG> {
    fn show(lent: &'b Option<T>, name: &str, after: bool, out: &mut TextWriter) -> bool {
        show_optional(lent, name, after, out)
    }
}

impl<'b, T: Item + 'b, const TAG: u32> FieldRow<'b> for ChosenOpt<'b, T, TAG> {
    type Lent = &'b Option<T>;

    ghost tag = { TAG };

    ghost shape = { T.shape };

    ghost mark = { Optional };

    ghost field = { λ x. optional T.val x.now };

    fn fits(lent: &'b Option<T>) {
        fits_optional(lent);
    }
}

impl<'b, T: WriteItem + 'b, const TAG: u32> WriteRow<'b> for ChosenOpt<'b, T, TAG> {
    fn len(lent: &'b Option<T>) -> Option<u64> {
        optional_len(lent, Tag::of(TAG))
    }

    fn write(lent: &'b Option<T>, out: &mut Buffer) {
        write_optional(lent, Tag::of(TAG), out);
    }
}

impl<'b, T: ShowItem + 'b, const TAG: u32> ShowRow<'b> for ChosenOpt<'b, T, TAG> {
    fn show(lent: &'b Option<T>, name: &str, after: bool, out: &mut TextWriter) -> bool {
        show_optional(lent, name, after, out)
    }
}

impl<'b, T: Item + 'b, const TAG: u32> FieldRow<'b> for Many<T, TAG> {
    type Lent = &'b List<T>;

    ghost tag = { TAG };

    ghost shape = { T.shape };

    ghost mark = { AnyNumber };

    ghost field = { λ x. many (vals T.val x.now) };

    fn fits(lent: &'b List<T>) {
        fits_list(lent);
    }
}

impl<'b, T: WriteItem + 'b, const TAG: u32> WriteRow<'b> for Many<T, TAG> {
    fn len(lent: &'b List<T>) -> Option<u64> {
        list_len(lent, Tag::of(TAG))
    }

    fn write(lent: &'b List<T>, out: &mut Buffer) {
        write_list(lent, Tag::of(TAG), out);
    }
}

impl<'b, T: ShowItem + 'b, const TAG: u32> ShowRow<'b> for Many<T, TAG> {
    fn show(lent: &'b List<T>, name: &str, after: bool, out: &mut TextWriter) -> bool {
        show_list(lent, name, after, out)
    }
}

impl<'b, T: Item + 'b, const TAG: u32> FieldRow<'b> for NonEmpty<T, TAG> {
    type Lent = &'b List<T>;

    ghost tag = { TAG };

    ghost shape = { T.shape };

    ghost mark = { AtLeastOne };

    ghost field = { λ x. many (vals T.val x.now) };

    fn fits(lent: &'b List<T>) {
        fits_list(lent);
    }
}

impl<'b, T: WriteItem + 'b, const TAG: u32> WriteRow<'b> for NonEmpty<T, TAG> {
    fn len(lent: &'b List<T>) -> Option<u64> {
        list_len(lent, Tag::of(TAG))
    }

    fn write(lent: &'b List<T>, out: &mut Buffer) {
        write_list(lent, Tag::of(TAG), out);
    }
}

impl<'b, T: ShowItem + 'b, const TAG: u32> ShowRow<'b> for NonEmpty<T, TAG> {
    fn show(lent: &'b List<T>, name: &str, after: bool, out: &mut TextWriter) -> bool {
        show_list(lent, name, after, out)
    }
}

impl<'b, T: Item + 'b, const TAG: u32> FieldRow<'b> for OptMany<T, TAG> {
    type Lent = &'b Option<List<T>>;

    ghost tag = { TAG };

    ghost shape = { T.shape };

    ghost mark = { OptionalList };

    ghost field = { λ x. optional_list T.val x.now };

    fn fits(lent: &'b Option<List<T>>) {
        fits_optional_list(lent);
    }
}

impl<'b, T: WriteItem + 'b, const TAG: u32> WriteRow<'b> for OptMany<T, TAG> {
    fn len(lent: &'b Option<List<T>>) -> Option<u64> {
        optional_list_len(lent, Tag::of(TAG))
    }

    fn write(lent: &'b Option<List<T>>, out: &mut Buffer) {
        write_optional_list(lent, Tag::of(TAG), out);
    }
}

impl<'b, T: ShowItem + 'b, const TAG: u32> ShowRow<'b> for OptMany<T, TAG> {
    fn show(lent: &'b Option<List<T>>, name: &str, after: bool, out: &mut TextWriter) -> bool {
        show_optional_list(lent, name, after, out)
    }
}

impl<'b> FieldRows<'b> for End {
    type Lent = ();

    ghost row_list = { NoRow };

    ghost fields = { λ _. no_fields };

    fn fits(_lent: ()) {}
}

impl<'b> WriteRows<'b> for End {
    type Lent = ();

    ghost row_list = { NoRow };

    ghost fields = { λ _. no_fields };

    fn len(_lent: ()) -> Option<u64> {
        Some(0)
    }

    #[tactic(auto, using(crate::proofs::Appended::nothing))]
    fn write(_lent: (), _out: &mut Buffer) {}
}

impl<'b> ShowRows<'b> for End {
    type Lent = ();

    type Names = ();

    ghost fields = { λ _. no_fields };

    ghost named = { λ _. NoRow };

    #[tactic(auto, using(crate::proofs::Growth::nothing))]
    fn show(_lent: (), _names: (), _after: bool, _out: &mut TextWriter) {}
}

impl<'b, A: FieldRow<'b>, B: FieldRows<'b>> FieldRows<'b> for Row<A, B> {
    type Lent = (A::Lent, B::Lent);

    ghost row_list = { AndRow [] (Under A.tag) A.mark Plain A.shape B.row_list };

    ghost fields = { λ lent. and_field (A.field lent.0) (B.fields lent.1) };

    fn fits(lent: (A::Lent, B::Lent)) {
        let (field, rest) = lent;
        A::fits(field);
        B::fits(rest);
    }
}

impl<'b, A: WriteRow<'b>, B: WriteRows<'b>> WriteRows<'b> for Row<A, B> {
    type Lent = (A::Lent, B::Lent);

    ghost row_list = { AndRow [] (Under A.tag) A.mark Plain A.shape B.row_list };

    ghost fields = { λ lent. and_field (A.field lent.0) (B.fields lent.1) };

    #[tactic(auto, using(crate::proofs::Lists::tag_first, crate::proofs::Lists::tags_rest))]
    #[inline(always)]
    fn len(lent: (A::Lent, B::Lent)) -> Option<u64> {
        let (field, rest) = lent;
        plus_len(A::len(field), B::len(rest))
    }

    #[tactic(auto, using(crate::proofs::Appended::appended, crate::proofs::Lists::tag_first, crate::proofs::Lists::tags_rest))]
    #[inline(always)]
    fn write(lent: (A::Lent, B::Lent), out: &mut Buffer) {
        let (field, rest) = lent;
        A::write(field, out);
        B::write(rest, out);
    }
}

impl<'b, A: ShowRow<'b>, B: ShowRows<'b>> ShowRows<'b> for Row<A, B> {
    type Lent = (A::Lent, B::Lent);

    type Names = (&'b str, B::Names);

    ghost fields = { λ lent. and_field (A.field lent.0) (B.fields lent.1) };

    ghost named = { λ names. AndRow names.0.now (Under A.tag) A.mark Plain A.shape
        (B.named names.1) };

    fn show(
        lent: (A::Lent, B::Lent),
        names: (&'b str, B::Names),
        after: bool,
        out: &mut TextWriter,
    ) {
        let (field, rest) = lent;
        let (name, names) = names;
        let after = A::show(field, name, after, out);
        B::show(rest, names, after, out);
    }
}

impl<'b, A: FieldRow<'b>, B: FieldRows<'b>> FieldRows<'b> for Choosing<A, B> {
    type Lent = (A::Lent, B::Lent);

    ghost row_list = { AndRow [] (Under A.tag) A.mark Plain A.shape B.row_list };

    ghost fields = { λ lent. and_field (A.field lent.0) (B.fields lent.1) };

    fn fits(lent: (A::Lent, B::Lent)) {
        let (field, rest) = lent;
        A::fits(field);
        B::fits(rest);
    }
}

impl<'b, A: WriteRow<'b>, B: WriteRows<'b>> WriteRows<'b> for Choosing<A, B> {
    type Lent = (A::Lent, B::Lent);

    ghost row_list = { AndRow [] (Under A.tag) A.mark Plain A.shape B.row_list };

    ghost fields = { λ lent. and_field (A.field lent.0) (B.fields lent.1) };

    #[tactic(auto, using(crate::proofs::Lists::tag_first, crate::proofs::Lists::tags_rest))]
    #[inline(always)]
    fn len(lent: (A::Lent, B::Lent)) -> Option<u64> {
        let (field, rest) = lent;
        plus_len(A::len(field), B::len(rest))
    }

    #[tactic(auto, using(crate::proofs::Appended::appended, crate::proofs::Lists::tag_first, crate::proofs::Lists::tags_rest))]
    #[inline(always)]
    fn write(lent: (A::Lent, B::Lent), out: &mut Buffer) {
        let (field, rest) = lent;
        A::write(field, out);
        B::write(rest, out);
    }
}

impl<'b, A: ShowRow<'b>, B: ShowRows<'b>> ShowRows<'b> for Choosing<A, B> {
    type Lent = (A::Lent, B::Lent);

    type Names = (&'b str, B::Names);

    ghost fields = { λ lent. and_field (A.field lent.0) (B.fields lent.1) };

    ghost named = { λ names. AndRow names.0.now (Under A.tag) A.mark Plain A.shape
        (B.named names.1) };

    fn show(
        lent: (A::Lent, B::Lent),
        names: (&'b str, B::Names),
        after: bool,
        out: &mut TextWriter,
    ) {
        let (field, rest) = lent;
        let (name, names) = names;
        let after = A::show(field, name, after, out);
        B::show(rest, names, after, out);
    }
}

/// Lemma: a record's fields fit its rows. The call does nothing.
pub fn fits_record<'b, R: FieldRows<'b>>(lent: R::Lent)
    ensures { fields_fit (R.fields lent) NoCase R.row_list }
{
    R::fits(lent);
}

/// The length of a record's structure with its head, and `None` exactly where it has no canonical
/// bytes.
#[inline(always)]
pub fn record_len<'b, R: WriteRows<'b>>(lent: R::Lent) -> Option<u64>
    requires { are_tags R.row_list ≡ true }
    ensures { result ≡ len_of_structure (fields_len (R.fields lent) R.row_list) }
{
    let len = R::len(lent)?;
    Some(8 + len)
}

/// Appends the canonical bytes of a record's structure.
#[tactic(auto, using(crate::proofs::Appended::appended, crate::proofs::Forms::fields_len_law))]
pub fn write_record<'b, R: WriteRows<'b>>(lent: R::Lent, tag: Tag, out: &mut Buffer)
where
    R::Lent: Copy,
    requires tags { are_tags R.row_list ≡ true }
    requires form { fields_form (R.fields lent) R.row_list }
    requires below { fields_size (R.fields lent) R.row_list < 2 ^ 32 }
    requires room { 8 + fields_size (R.fields lent) R.row_list ≤ out.old.spare }
    ensures { Appends out.old out.new (structure_head tag (fields_size (R.fields lent) R.row_list)
        ++ fields_text (R.fields lent) R.row_list) (8 + fields_size (R.fields lent) R.row_list) }
{
    match R::len(lent) {
        Some(len) => {
            put_structure(tag, len as u32, out);
            R::write(lent, out);
        }
        None => unreachable!(),
    }
}

/// Appends the text of a record: its fields under their names, in braces.
pub fn show_record<'b, R: ShowRows<'b>>(lent: R::Lent, names: R::Names, out: &mut TextWriter)
    ensures { Grows out.old out.new
        (record_in_style (R.fields lent) (R.named names)) }
{
    out.put("{");
    R::show(lent, names, false, out);
    out.put("}");
}
