//! Lists of items, and items that may be absent, for every type of items: that they fit their rows,
//! how long they are, and how they are written.

ghost use Rattle.std.specs.Prelude.{ℕ, ◌≡◌, ◌+◌, ◌-◌, ◌≤◌, ◌<◌, ◌^◌, Option, map};
ghost use Rattle.kmip_wire.specs.Room.{Appends};
ghost use Rattle.kmip_shape.specs.Fits.{mark_fits, field_fits, vals_fit, AreBytes};
ghost use Rattle.kmip_shape.specs.Shape.{NoCase, Optional, OptionalList};
ghost use Rattle.kmip_shape.specs.Writes.{structure_head, list_form, list_size, list_text};
ghost use Rattle.kmip_shape.specs.Writes.{list_len as len_of_list, field_form, field_size};
ghost use Rattle.kmip_shape.specs.Writes.{field_text, field_len, optional, optional_list, vals};
ghost use Rattle.kmip_shape.specs.Writes.{sum_len, structure_len as len_of_structure, plus_len};
ghost use Rattle.kmip_shape.specs.Writes.{HasForm, size_of, wire_len_of};

use crate::item::{Item, WriteItem};
use crate::scalars::put_structure;
use kmip_wire::{Buffer, List, Tag};

/// The length of the items of a list, and `None` exactly where one has no canonical bytes or they
/// reach 2^32 bytes.
pub(crate) fn list_len<T: WriteItem>(items: &List<T>, tag: Tag) -> Option<u64>
    ensures { result ≡ len_of_list (vals T.val items.now) T.shape }
{
    items_len(items.as_slice(), tag)
}

/// Appends the canonical bytes of the items of a list, in order. Each has such bytes, and there is
/// room for all.
pub fn write_list<T: WriteItem>(items: &List<T>, tag: Tag, out: &mut Buffer)
    requires form { list_form (vals T.val items.now) T.shape }
    requires room { list_size (vals T.val items.now) T.shape ≤ out.old.spare }
    ensures { Appends out.old out.new (list_text (vals T.val items.now) T.shape tag)
        (list_size (vals T.val items.now) T.shape) }
{
    write_items(items.as_slice(), tag, out);
}

/// Lemma: the items of a list fit their shape. The call does nothing.
pub(crate) fn fits_list<T: Item>(items: &List<T>)
    ensures { vals_fit (vals T.val items.now) NoCase T.shape }
{
    fits_items(items.as_slice());
}

/// The length of an item that may be absent.
pub(crate) fn optional_len<T: WriteItem>(item: &Option<T>, tag: Tag) -> Option<u64>
    ensures { result ≡ field_len (optional T.val item.now) T.shape }
{
    match item {
        Some(item) => item.wire_len(tag),
        None => Some(0),
    }
}

/// Appends an item that may be absent.
pub(crate) fn write_optional<T: WriteItem>(item: &Option<T>, tag: Tag, out: &mut Buffer)
    requires form { field_form (optional T.val item.now) T.shape }
    requires room { field_size (optional T.val item.now) T.shape ≤ out.old.spare }
    ensures { Appends out.old out.new (field_text (optional T.val item.now) T.shape tag)
        (field_size (optional T.val item.now) T.shape) }
{
    if let Some(value) = item {
        value.write_into(tag, out);
    }
}

/// The sum of two lengths, where both are known and the sum is below 2^32.
#[inline(always)]
pub fn plus_len(len: Option<u64>, more: Option<u64>) -> Option<u64>
    ensures { result ≡ plus_len len more }
{
    let sum = len?.checked_add(more?)?;
    if sum < 1 << 32 { Some(sum) } else { None }
}

/// The length of the items of a list.
#[tactic(auto, using(crate::proofs::Lens::plus_assoc, crate::proofs::Lens::list_len_zero, crate::proofs::Lens::plus_end))]
pub(crate) fn items_len<T: WriteItem>(items: &[T], tag: Tag) -> Option<u64>
    ensures { result ≡ len_of_list (vals T.val items.now) T.shape }
{
    let mut sum = 0;
    let mut rest = items;
    while let [item, tail @ ..] = rest {
        sum = plus_len(Some(sum), item.wire_len(tag))?;
        rest = tail;
    }
    Some(sum)
}

/// Appends the items of a list.
#[tactic(auto, using(std::proofs::lemmas::List::append_assoc))]
pub(crate) fn write_items<T: WriteItem>(items: &[T], tag: Tag, out: &mut Buffer)
    requires form { list_form (vals T.val items.now) T.shape }
    requires room { list_size (vals T.val items.now) T.shape ≤ out.old.spare }
    ensures { Appends out.old out.new (list_text (vals T.val items.now) T.shape tag)
        (list_size (vals T.val items.now) T.shape) }
{
    let mut rest = items;
    while let [item, tail @ ..] = rest {
        item.write_into(tag, out);
        rest = tail;
    }
}

/// The length of a structure, from the lengths of its rows.
#[tactic(auto, using(crate::proofs::Lens::plus_assoc, crate::proofs::Lens::sum_len_zero, crate::proofs::Lens::plus_end))]
pub fn structure_len(rows: &[Option<u64>]) -> Option<u64>
    ensures { result ≡ len_of_structure (sum_len rows.now) }
{
    let mut sum = 0;
    let mut rest = rows;
    while let [row, tail @ ..] = rest {
        sum = plus_len(Some(sum), *row)?;
        rest = tail;
    }
    Some(8 + sum)
}

/// Appends the head of a structure whose item has this whole length.
#[tactic(auto, using(crate::proofs::Forms::len_law))]
pub fn begin_structure<T: Item>(item: &T, len: Option<u64>, tag: Tag, out: &mut Buffer)
    requires form { HasForm T.shape (T.val item.now) }
    requires len { len ≡ wire_len_of T.shape (T.val item.now) }
    requires whole { 8 ≤ size_of T.shape (T.val item.now) }
    requires below { size_of T.shape (T.val item.now) < 2 ^ 32 + 8 }
    requires room { 8 ≤ out.old.spare }
    ensures head { Appends out.old out.new
        (structure_head tag (size_of T.shape (T.val item.now) - 8)) 8 }
    ensures contents { (n : ℕ) → size_of T.shape (T.val item.now) ≡ 8 + n →
        Appends out.old out.new (structure_head tag n) 8 }
{
    match len {
        Some(len) => put_structure(tag, (len - 8) as u32, out),
        None => unreachable!(),
    }
}

/// Lemma: an item that may be absent fits an optional row. The call does nothing.
pub(crate) fn fits_optional<T: Item>(item: &Option<T>)
    ensures mark { mark_fits Optional (optional T.val item.now) }
    ensures field { field_fits (optional T.val item.now) NoCase T.shape }
{
    if let Some(item) = item {
        item.fits();
    }
}

/// Lemma: a list fits a row of lists. The call does nothing.
pub fn fits_items<T: Item>(items: &[T])
    ensures { vals_fit (vals T.val items.now) NoCase T.shape }
{
    let mut rest = items;
    while let [item, tail @ ..] = rest {
        item.fits();
        rest = tail;
    }
}

/// The length of the items of a list that may be absent.
pub(crate) fn optional_list_len<T: WriteItem>(items: &Option<List<T>>, tag: Tag) -> Option<u64>
    ensures { result ≡ field_len (optional_list T.val items.now) T.shape }
{
    match items {
        Some(items) => list_len(items, tag),
        None => Some(0),
    }
}

/// Appends the items of a list that may be absent.
pub(crate) fn write_optional_list<T: WriteItem>(items: &Option<List<T>>, tag: Tag, out: &mut Buffer)
    requires form { field_form (optional_list T.val items.now) T.shape }
    requires room { field_size (optional_list T.val items.now) T.shape ≤ out.old.spare }
    ensures { Appends out.old out.new (field_text (optional_list T.val items.now) T.shape tag)
        (field_size (optional_list T.val items.now) T.shape) }
{
    if let Some(items) = items {
        write_list(items, tag, out);
    }
}

/// Lemma: a list that may be absent fits its row. The call does nothing.
pub(crate) fn fits_optional_list<T: Item>(items: &Option<List<T>>)
    ensures mark { mark_fits OptionalList (optional_list T.val items.now) }
    ensures field { field_fits (optional_list T.val items.now) NoCase T.shape }
{
    if let Some(items) = items {
        fits_list(items);
    }
}

/// Lemma: the bytes of a slice are below 256. The call does nothing.
pub(crate) fn fits_bytes(bytes: &[u8])
    ensures { AreBytes bytes.now }
{
    let mut rest = bytes;
    while let [byte, tail @ ..] = rest {
        let _byte = *byte;
        rest = tail;
    }
}
