//! What several tests share. A value of many variants is taken by a generic function, which lets it
//! go: where its type stands, each exit would be proved for each variant. No function here has a
//! clause, so that a test's proof has none to meet; and each ends the run where something is amiss,
//! so that no test has a way out at which it lets go of the values that it holds.

use kmip_shape::{
    Enumeration, Outer, ReadError, ReadItem, ShowItem, WriteItem, item_len, read_list, read_one,
    read_opt, to_blob,
};
use kmip_test_messages::message;
use kmip_wire::{Blob, ItemRef, Tag, Text, TryClone};
use std::alloc::Global;
use std::fmt::Display;
use std::ops::Range;
use std::process::Abort;

/// The value of the chooser that an item is read under.
#[derive(Clone, Copy)]
pub enum Under {
    Nothing,
    Number(u32),
    Name(&'static str),
}

impl Under {
    pub fn outer(self) -> Outer<'static> {
        match self {
            Under::Nothing => Outer {
                number: None,
                name: None,
            },
            Under::Number(number) => Outer {
                number: Some(number),
                name: None,
            },
            Under::Name(name) => Outer {
                number: None,
                name: Some(name),
            },
        }
    }
}

/// An item in the notation, and what its value is where it is read.
#[derive(Clone, Copy)]
pub struct Case {
    /// The value of the chooser that it is read under.
    pub under: Under,
    /// The bytes of the item.
    pub notation: &'static str,
    /// What it shows as, and none where it is not read.
    pub shown: Option<&'static str>,
    /// Its JSON, where that is compared.
    pub json: Option<&'static str>,
}

/// A text.
pub fn text(rt: &impl Abort, alloc: Global, text: &str) -> Text {
    Text::of(alloc, text).expect(rt, "memory")
}

/// Bytes.
pub fn blob(rt: &impl Abort, alloc: Global, bytes: &[u8]) -> Blob {
    Blob::of(alloc, bytes).expect(rt, "memory")
}

/// The bytes of items in the notation of kmip_test_messages.
pub fn bytes_of(rt: &impl Abort, alloc: Global, notation: &str) -> Vec<u8> {
    message(alloc, notation).expect(rt, "the notation of messages")
}

/// The tag of the number.
fn tag_of(rt: &impl Abort, number: u32) -> Tag {
    Tag::new(number).expect(rt, "a tag")
}

/// The value of an item, and none where it is not read.
pub fn read<T: ReadItem>(
    rt: &impl Abort,
    alloc: Global,
    under: Under,
    notation: &str,
) -> Option<T> {
    let bytes = bytes_of(rt, alloc, notation);
    let item = ItemRef::root(&bytes).expect(rt, "an item");
    match T::read(alloc, under.outer(), item) {
        Ok(value) => Some(value),
        Err(ReadError::Unread) => None,
        Err(ReadError::OutOfMemory) => panic!(rt; "out of memory"),
    }
}

/// The value is shown as this text.
pub fn is_shown<T: ShowItem>(rt: &impl Abort, alloc: Global, value: &T, shown: &str) {
    let mut text = Text::new(alloc);
    value.show(alloc, &mut text).expect(rt, "memory");
    is_text(rt, text.as_str(), shown);
}

/// The JSON of the value is this.
pub fn is_json<T: ShowItem>(rt: &impl Abort, alloc: Global, value: &T, json: &str) {
    let mut text = Text::new(alloc);
    value.show_json(alloc, &mut text).expect(rt, "memory");
    is_text(rt, text.as_str(), json);
}

/// The two texts are equal.
fn is_text(rt: &impl Abort, text: &str, expected: &str) {
    assert_eq!(rt; text, expected);
}

/// The value is written as this item.
pub fn is_written<T: WriteItem>(rt: &impl Abort, alloc: Global, value: &T, notation: &str) {
    let bytes = bytes_of(rt, alloc, notation);
    let item = ItemRef::root(&bytes).expect(rt, "an item");
    let written = to_blob(alloc, value, item.tag()).expect(rt, "a form");
    assert!(rt; written.as_slice() == bytes.as_slice(), "{notation}");
}

/// The value has a copy that equals it.
pub fn is_copied<T: TryClone + PartialEq + Drop>(rt: &impl Abort, alloc: Global, value: &T) {
    let copy = value.try_clone(alloc).expect(rt, "memory");
    assert!(rt; copy == *value);
}

/// The value has no form as an item of the tag.
pub fn has_no_form<T: WriteItem>(rt: &impl Abort, value: &T, tag: u32) {
    let len = item_len(value, tag_of(rt, tag));
    assert!(rt; len.is_none());
}

/// The item is read as a value that is shown as the text and written as the same bytes.
pub fn comes_back<T: ReadItem + WriteItem + ShowItem>(
    rt: &impl Abort,
    alloc: Global,
    notation: &str,
    shown: &str,
) {
    let value = read::<T>(rt, alloc, Under::Nothing, notation).expect(rt, notation);
    is_shown(rt, alloc, &value, shown);
    is_written(rt, alloc, &value, notation);
}

/// The item comes back, and its value has a copy.
pub fn comes_back_copied<T: ReadItem + WriteItem + ShowItem + TryClone + PartialEq>(
    rt: &impl Abort,
    alloc: Global,
    notation: &str,
    shown: &str,
) {
    let value = read::<T>(rt, alloc, Under::Nothing, notation).expect(rt, notation);
    is_shown(rt, alloc, &value, shown);
    is_written(rt, alloc, &value, notation);
    is_copied(rt, alloc, &value);
}

/// The item is read as a value that is shown as the text.
pub fn reads_as<T: ReadItem + ShowItem>(
    rt: &impl Abort,
    alloc: Global,
    under: Under,
    notation: &str,
    shown: &str,
) {
    let value = read::<T>(rt, alloc, under, notation).expect(rt, notation);
    is_shown(rt, alloc, &value, shown);
}

/// The item is not read, where no chooser stands above it.
pub fn is_unread<T: ReadItem>(rt: &impl Abort, alloc: Global, notation: &str) {
    let value = read::<T>(rt, alloc, Under::Nothing, notation);
    assert!(rt; value.is_none(), "{notation}");
}

/// The value of a case is shown as its text and as its JSON, is written as the same bytes, and has
/// a copy that equals it.
fn is_value<T: WriteItem + ShowItem + TryClone + PartialEq + Drop>(
    rt: &impl Abort,
    alloc: Global,
    value: &T,
    case: &Case,
) {
    is_shown(rt, alloc, value, case.shown.unwrap_or("not read"));
    if let Some(json) = case.json {
        is_json(rt, alloc, value, json);
    }
    is_written(rt, alloc, value, case.notation);
    is_copied(rt, alloc, value);
}

/// The item is read exactly where it shows something, and its value is as the case says.
fn is_case<T: ReadItem + WriteItem + ShowItem + TryClone + PartialEq>(
    rt: &impl Abort,
    alloc: Global,
    case: &Case,
) {
    match read::<T>(rt, alloc, case.under, case.notation) {
        Some(value) => is_value(rt, alloc, &value, case),
        None => assert!(rt; case.shown.is_none(), "{}", case.notation),
    }
}

/// Each item is as its case says.
pub fn are_read<T: ReadItem + WriteItem + ShowItem + TryClone + PartialEq>(
    rt: &impl Abort,
    alloc: Global,
    cases: &[Case],
) {
    for case in cases {
        is_case::<T>(rt, alloc, case);
    }
}

/// What children of the tag are read as: as a list of these, or not at all; as one, where one
/// stands in the list; and as one that may be absent.
pub fn children_are<T: ReadItem + Copy + PartialEq>(
    rt: &impl Abort,
    alloc: Global,
    notation: &str,
    tag: u32,
    list: Option<&[T]>,
) {
    let (tag, outer) = (tag_of(rt, tag), Outer::none());
    let bytes = bytes_of(rt, alloc, notation);
    let parent = ItemRef::root(&bytes).expect(rt, "an item");
    let one = match list {
        Some([one]) => Ok(*one),
        _ => Err(ReadError::Unread),
    };
    let optional = match list {
        Some([]) => Ok(None),
        _ => one.map(Some),
    };
    assert!(rt;
        read_one::<T>(alloc, outer, parent, tag) == one,
        "{notation}"
    );
    assert!(rt;
        read_opt::<T>(alloc, outer, parent, tag) == optional,
        "{notation}"
    );
    match read_list::<T>(alloc, outer, parent, tag) {
        Ok(read) => assert!(rt; list == Some(read.as_slice()), "{notation}"),
        Err(error) => assert!(rt; list.is_none() && error == ReadError::Unread, "{notation}"),
    }
}

/// The value prints this text.
pub fn is_printed<T: Display>(rt: &impl Abort, alloc: Global, value: &T, text: &str) {
    let printed = format!(in alloc; "{value}").expect(rt, "memory");
    is_text(rt, printed.as_str(), text);
}

/// The variant of the number prints the name.
fn is_named<T: Enumeration + Display>(rt: &impl Abort, alloc: Global, number: u32, name: &str) {
    let variant = T::from_number(number).expect(rt, name);
    assert!(rt; variant.number() == number, "{name}");
    is_printed(rt, alloc, &variant, name);
}

/// The variants of the numbers print the words, and the number after them has no variant.
pub fn has_names<T: Enumeration + Display>(
    rt: &impl Abort,
    alloc: Global,
    numbers: Range<u32>,
    names: &str,
) {
    let mut left = numbers;
    for name in names.split(' ') {
        let number = left.next().expect(rt, "no more names than numbers");
        is_named::<T>(rt, alloc, number, name);
    }
    assert!(rt;
        left.is_empty() && T::from_number(left.end).is_none(),
        "{names}"
    );
}
