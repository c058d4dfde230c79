//! Showing values as text.

ghost use Rattle.std.specs.Prelude.{◌≡◌, ◌++◌, Bool, ◌||◌, false, true, OnOk};
ghost use Rattle.kmip_shape.specs.Val.{One as one, Many as many};
ghost use Rattle.kmip_shape.specs.Shape.{NoCase};
ghost use Rattle.kmip_shape.specs.Writes.{optional, optional_list, vals};
ghost use Rattle.kmip_shape.specs.Shown.{Grows, AddsPart, shown_in_style, shown, json, row_in_style};
ghost use Rattle.kmip_shape.specs.Shown.{list_in_style, stands, beside, in_brackets};

use crate::item::Item;
use crate::style::Style;
use crate::text_writer::TextWriter;
use kmip_wire::{List, OutOfMemory, Text};
use std::alloc::Global;
use std::mem;

/// A type of items that can be shown as text.
pub trait ShowItem: Item {
    /// Appends the value's text in the style of the writer, until memory runs out. A type defines
    /// this; callers use `show` or `show_json`.
    fn show_into(&self, out: &mut TextWriter)
        ensures { Grows out.old out.new (shown_in_style Self.shape (Self.val self.now)) };

    /// Appends the value's text. Where memory runs out, a first part of the text was appended.
    fn show(&self, alloc: Global, out: &mut Text) -> Result<(), OutOfMemory>
        ensures all { OnOk result (out.new ≡ out.old ++ shown Self.shape (Self.val self.now)) }
        ensures part { AddsPart out.old out.new (shown Self.shape (Self.val self.now)) }
    {
        let mut sink = TextWriter::over(mem::replace(out, Text::new(alloc)), Style::Bare);
        self.show_into(&mut sink);
        sink.finish(out)
    }

    /// Appends the value as JSON (RFC 8259): a record as an object, a list as an array, a choice as
    /// an object of one member, bytes as a string of upper-case hex digits, and a Date-Time as its
    /// signed number of seconds. Where memory runs out, a first part of the text was appended.
    fn show_json(&self, alloc: Global, out: &mut Text) -> Result<(), OutOfMemory>
        ensures all { OnOk result (out.new ≡ out.old ++ json Self.shape (Self.val self.now)) }
        ensures part { AddsPart out.old out.new (json Self.shape (Self.val self.now)) }
    {
        let mut sink = TextWriter::over(mem::replace(out, Text::new(alloc)), Style::Json);
        self.show_into(&mut sink);
        sink.finish(out)
    }
}

/// Shows a field of one item, as `ShowRow::show` does.
pub fn show_one<T: ShowItem>(item: &T, name: &str, after: bool, out: &mut TextWriter) -> bool
    ensures after { (a : Bool) → after ≡ a → result ≡ (a || stands (one (T.val item.now))) }
    ensures text { (a : Bool) → after ≡ a →
        Grows out.old out.new (row_in_style (one (T.val item.now)) NoCase name.now T.shape a) }
{
    out.put_comma(after);
    out.put_word(name);
    out.put_name_mark();
    item.show_into(out);
    true
}

/// Shows a field that may be absent.
pub(crate) fn show_optional<T: ShowItem>(
    item: &Option<T>,
    name: &str,
    after: bool,
    out: &mut TextWriter,
) -> bool
    ensures after { (a : Bool) → after ≡ a → result ≡ (a || stands (optional T.val item.now)) }
    ensures text { (a : Bool) → after ≡ a →
        Grows out.old out.new (row_in_style (optional T.val item.now) NoCase name.now T.shape a) }
{
    match item {
        Some(item) => show_one(item, name, after, out),
        None => after,
    }
}

/// Shows the items of a list, with commas between them.
#[tactic(auto, using(crate::proofs::Growth::growth))]
pub(crate) fn show_items<T: ShowItem>(items: &[T], out: &mut TextWriter)
    ensures { Grows out.old out.new (list_in_style (vals T.val items.now) NoCase T.shape false) }
{
    let mut after = false;
    for item in items {
        out.put_comma(after);
        item.show_into(out);
        after = true;
    }
}

/// Shows a field that is a list.
pub(crate) fn show_list<T: ShowItem>(
    items: &List<T>,
    name: &str,
    after: bool,
    out: &mut TextWriter,
) -> bool
    ensures after { (a : Bool) → after ≡ a → result ≡ (a || stands (many (vals T.val items.now))) }
    ensures text { (a : Bool) → after ≡ a →
        Grows out.old out.new (row_in_style (many (vals T.val items.now)) NoCase name.now T.shape a) }
{
    out.put_comma(after);
    out.put_word(name);
    out.put_name_mark();
    out.put("[");
    show_items(items.as_slice(), out);
    out.put("]");
    true
}

/// Shows a field that is a list or absent.
pub(crate) fn show_optional_list<T: ShowItem>(
    items: &Option<List<T>>,
    name: &str,
    after: bool,
    out: &mut TextWriter,
) -> bool
    ensures after { (a : Bool) → after ≡ a →
        result ≡ (a || stands (optional_list T.val items.now)) }
    ensures text { (a : Bool) → after ≡ a →
        Grows out.old out.new
        (row_in_style (optional_list T.val items.now) NoCase name.now T.shape a) }
{
    match items {
        Some(items) => show_list(items, name, after, out),
        None => after,
    }
}

/// Shows a case whose value is a record or a list: the name, and the value itself.
pub fn show_case<T: ShowItem>(name: &str, item: &T, out: &mut TextWriter)
    ensures { Grows out.old out.new (beside name.now (shown_in_style T.shape (T.val item.now))) }
{
    out.open_case(name);
    item.show_into(out);
    out.close_case();
}

/// Shows a case of another value: the name, and the value in round brackets.
pub fn show_in_brackets<T: ShowItem>(name: &str, item: &T, out: &mut TextWriter)
    ensures { Grows out.old out.new (in_brackets name.now (shown_in_style T.shape (T.val item.now))) }
{
    out.open_brackets(name);
    item.show_into(out);
    out.close_brackets();
}
