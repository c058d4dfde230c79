//! What the tests of many types share. No function here has a clause, so that a test's proof has
//! none to meet; and each ends the run where something is amiss, so that no test has a way out at
//! which it lets go of the values that it holds.
use kmip_client::{Client, ClientBuilder, Result};
use kmip_link::{Link, MemoryLink};
use kmip_shape::{Outer, ReadItem, ShowItem, WriteItem, to_blob};
use kmip_test_messages::message;
use kmip_wire::{Config, ItemRef, Text, Tree, TryClone, read_tree};
use std::alloc::Global;
use std::process::Abort;

/// A text.
pub fn text(rt: &impl Abort, alloc: Global, text: &str) -> Text {
    Text::of(alloc, text).expect(rt, "memory")
}

/// The bytes of items in the notation of kmip_test_messages.
pub fn bytes_of(rt: &impl Abort, alloc: Global, notation: &str) -> Vec<u8> {
    message(alloc, notation).expect(rt, "the notation of messages")
}

/// The value has a copy that equals it.
pub fn is_copied<T: TryClone + PartialEq + Drop>(rt: &impl Abort, alloc: Global, value: &T) {
    let copy = value.try_clone(alloc).expect(rt, "memory");
    assert!(rt; copy == *value);
}

/// The value is shown as this text.
pub fn is_shown<T: ShowItem>(rt: &impl Abort, alloc: Global, value: &T, expected: &str) {
    let mut shown = Text::new(alloc);
    value.show(alloc, &mut shown).expect(rt, "memory");
    assert!(rt; shown.as_str() == expected, "{expected}");
}

/// The value is written as this item.
fn is_item<T: WriteItem>(rt: &impl Abort, alloc: Global, value: &T, notation: &str) {
    let bytes = bytes_of(rt, alloc, notation);
    let item = ItemRef::root(&bytes).expect(rt, "an item");
    let written = to_blob(alloc, value, item.tag()).expect(rt, "a blob");
    assert!(rt; written.as_slice() == bytes.as_slice());
}

/// The value of one item, whose shape is chosen by a number or not.
pub fn value_of<T: ReadItem>(
    rt: &impl Abort,
    alloc: Global,
    number: Option<u32>,
    notation: &str,
) -> T {
    let bytes = bytes_of(rt, alloc, notation);
    let item = ItemRef::root(&bytes).expect(rt, "an item");
    T::read(alloc, Outer { number, name: None }, item).expect(rt, "a value")
}

/// The value of one item, which has a copy that equals it.
pub fn is_read<T: ReadItem + TryClone + PartialEq>(
    rt: &impl Abort,
    alloc: Global,
    number: Option<u32>,
    notation: &str,
) -> T {
    let value = value_of::<T>(rt, alloc, number, notation);
    is_copied::<T>(rt, alloc, &value);
    value
}

/// The item is read as a value that is shown as this text and has a copy that equals it.
pub fn shows<T: ReadItem + ShowItem + TryClone + PartialEq>(
    rt: &impl Abort,
    alloc: Global,
    number: Option<u32>,
    notation: &str,
    expected: &str,
) {
    let value = is_read::<T>(rt, alloc, number, notation);
    is_shown::<T>(rt, alloc, &value, expected);
}

/// The item is read as a value that is written as the same bytes and has a copy that equals it.
pub fn is_written<T: ReadItem + WriteItem + TryClone + PartialEq>(
    rt: &impl Abort,
    alloc: Global,
    number: Option<u32>,
    notation: &str,
) {
    let value = is_read::<T>(rt, alloc, number, notation);
    is_item::<T>(rt, alloc, &value, notation);
}

/// The item is read as a value that is shown as this text, is written as the same bytes and has a
/// copy that equals it.
pub fn shows_what_is_written<T: ReadItem + ShowItem + WriteItem + TryClone + PartialEq>(
    rt: &impl Abort,
    alloc: Global,
    notation: &str,
    expected: &str,
) {
    let value = is_read::<T>(rt, alloc, None, notation);
    is_item::<T>(rt, alloc, &value, notation);
    is_shown::<T>(rt, alloc, &value, expected);
}

/// The item is read as a value, copied without memory, that is written as the same bytes.
pub fn is_written_alone<T: ReadItem + WriteItem>(rt: &impl Abort, alloc: Global, notation: &str) {
    let value = value_of::<T>(rt, alloc, None, notation);
    is_item::<T>(rt, alloc, &value, notation);
}

/// The same, with what it is shown as.
pub fn is_plain<T: ReadItem + WriteItem + ShowItem>(
    rt: &impl Abort,
    alloc: Global,
    notation: &str,
    expected: &str,
) {
    let value = value_of::<T>(rt, alloc, None, notation);
    is_item::<T>(rt, alloc, &value, notation);
    is_shown::<T>(rt, alloc, &value, expected);
}

/// A link that holds these bytes.
pub fn link_fed(rt: &impl Abort, alloc: Global, notation: &str) -> MemoryLink {
    let mut link = MemoryLink::new(alloc);
    link.feed(&bytes_of(rt, alloc, notation))
        .expect(rt, "memory");
    link
}

/// A client over a link, with these settings.
pub fn client_over<L: Link>(link: L, config: Config) -> Client<L> {
    ClientBuilder::new(link).with_reader_config(config).build()
}

/// A client over a link, with a name and a password.
pub fn client_of_alice<L: Link>(rt: &impl Abort, alloc: Global, link: L) -> Client<L> {
    let (username, password) = (text(rt, alloc, "alice"), text(rt, alloc, "secret"));
    ClientBuilder::new(link)
        .with_credentials(username, Some(password))
        .build()
}

/// Appends an answer as it is shown: the payload, or the printed error.
pub fn tell<P: ShowItem>(rt: &impl Abort, alloc: Global, answer: &Result<P>, told: &mut Text) {
    match answer {
        Ok(payload) => payload.show(alloc, told).expect(rt, "memory"),
        Err(error) => {
            let printed = error.to_string(alloc).expect(rt, "memory");
            told.push_str(printed.as_str()).expect(rt, "memory");
        }
    }
}

/// An answer as it is shown.
pub fn told<P: ShowItem + Drop>(rt: &impl Abort, alloc: Global, answer: Result<P>) -> Text {
    let mut told = Text::new(alloc);
    tell(rt, alloc, &answer, &mut told);
    drop(answer);
    told
}

/// The tree of an item.
pub fn tree_of(rt: &impl Abort, alloc: Global, notation: &str) -> Tree {
    let bytes = bytes_of(rt, alloc, notation);
    let (tree, len) = read_tree(alloc, &bytes).expect(rt, "an item");
    assert!(rt; len == bytes.len(), "{notation}");
    tree
}
