//! A view of checked bytes, which gives the item's parts without a copy.
ghost use Rattle.std.specs.Prelude.{IsTrue};
ghost use Rattle.kmip_wire.specs.Whole.{is_tree, are_trees};

use crate::front::{check, front_size, head_length, whole_length};
use crate::kind::Kind;
use crate::tag::Tag;
use crate::value::{number4, number8};
use std::str;

/// A view of the bytes of a well-formed item, which gives the item's parts without a copy. None of
/// its calls takes memory. Each call reads the head again and, where it returns a number, a truth
/// value or a text, the value too.
#[derive(Clone, Copy)]
pub struct ItemRef<'a> {
    bytes: &'a [u8],
    pub ghost is_item: { IsTrue (is_tree bytes.now) },
}

/// The children of an item that are still to come, in order.
#[derive(Clone, Copy)]
pub struct Children<'a> {
    bytes: &'a [u8],
    pub ghost are_items: { IsTrue (are_trees bytes.now) },
}

#[tactic(auto, unfolding(crate::specs::Items::item_tree, crate::specs::Items::trees_left))]
impl<'a> ItemRef<'a> {
    ghost use Rattle.std.specs.Prelude.{◌≡◌, ◌≤◌, ℕ, MatchOption, IfSome, option_map};
    ghost use Rattle.std.specs.Prelude.{length, take, drop};
    ghost use Rattle.kmip_wire.specs.Tree.{Tree};
    ghost use Rattle.kmip_wire.specs.Head.{size_at, value_of};
    ghost use Rattle.kmip_wire.specs.Parses.{IsLevel, NoFront, Parses};
    ghost use Rattle.kmip_wire.specs.Reading.{item_of, front_at};
    ghost use Rattle.kmip_wire.specs.Parts.{tag_of, kind_of_tree, int_in, long_in, big_in};
    ghost use Rattle.kmip_wire.specs.Parts.{enumeration_in, flag_in, text_in, bytes_in, date_in};
    ghost use Rattle.kmip_wire.specs.Parts.{interval_in, children_in};
    ghost use Rattle.kmip_wire.specs.Items.{item_tree, trees_left};

    /// The view of bytes that are one well-formed item and nothing more, and `None` exactly where
    /// they are not.
    pub fn root(bytes: &'a [u8]) -> Option<ItemRef<'a>>
        ensures tree { option_map item_tree result ≡ item_of 64 bytes.now }
        ensures parses { MatchOption result ((t : Tree) → Parses t 1 bytes.now →
            ⊥) (λ item. Parses (item_tree item) 1 bytes.now) }
    {
        if check(bytes) {
            Some(ItemRef { bytes })
        } else {
            None
        }
    }

    /// The item at the front that parses at the level, and the bytes after it.
    pub(crate) fn front(bytes: &'a [u8], level: u32) -> Option<(ItemRef<'a>, &'a [u8])>
        requires { IsLevel level }
        ensures tree { option_map (λ p. item_tree p.0) result ≡ front_at level bytes.now }
        ensures rest { IfSome result (λ p. p.1.now ≡ drop (size_at bytes.now) bytes.now) }
        ensures parses { MatchOption result (NoFront level bytes.now) (λ p. (n : ℕ) ×
            (n ≤ length bytes.now) × Parses (item_tree p.0) level (take n bytes.now) ×
            (p.1.now ≡ drop n bytes.now)) }
    {
        let Some(size) = front_size(bytes, level) else {
            return None;
        };
        let (item, rest) = bytes.split_at(size);
        Some((ItemRef { bytes: item }, rest))
    }

    /// The item's tag.
    pub fn tag(self) -> Tag
        ensures { result ≡ tag_of (item_tree self.entry) }
    {
        Tag::from_word(self.bytes[0], self.bytes[1], self.bytes[2], self.bytes[3])
    }

    /// The item's type.
    pub fn kind(self) -> Kind
        ensures { result ≡ kind_of_tree (item_tree self.entry) }
    {
        match Kind::from_code(self.bytes[3]) {
            Some(kind) => kind,
            None => unreachable!(),
        }
    }

    /// The bytes of the value, without the pads.
    pub(crate) fn value(self) -> &'a [u8]
        ensures { result.now ≡ value_of self.entry.bytes.now }
    {
        let len = head_length(self.bytes) as usize;
        &self.bytes[8..8 + len]
    }

    /// The number, and `None` exactly where the item is no Integer.
    pub fn int(self) -> Option<i32>
        ensures { result ≡ int_in (item_tree self.entry) }
    {
        match self.kind() {
            Kind::Integer => Some(number4(self.value()).cast_signed()),
            _ => None,
        }
    }

    /// The number, and `None` exactly where the item is no Long Integer.
    pub fn long(self) -> Option<i64>
        ensures { result ≡ long_in (item_tree self.entry) }
    {
        match self.kind() {
            Kind::LongInteger => Some(number8(self.value()).cast_signed()),
            _ => None,
        }
    }

    /// The bytes of the number, a multiple of 8 of them, and `None` exactly where the item is no
    /// Big Integer.
    pub fn big(self) -> Option<&'a [u8]>
        ensures { option_map (λ b. b.now) result ≡ big_in (item_tree self.entry) }
    {
        match self.kind() {
            Kind::BigInteger => Some(self.value()),
            _ => None,
        }
    }

    /// The number, and `None` exactly where the item is no Enumeration.
    pub fn enumeration(self) -> Option<u32>
        ensures { result ≡ enumeration_in (item_tree self.entry) }
    {
        match self.kind() {
            Kind::Enumeration => Some(number4(self.value())),
            _ => None,
        }
    }

    /// The truth value, and `None` exactly where the item is no Boolean.
    pub fn flag(self) -> Option<bool>
        ensures { result ≡ flag_in (item_tree self.entry) }
    {
        match self.kind() {
            Kind::Boolean => Some(number8(self.value()) == 1),
            _ => None,
        }
    }

    /// The text, and `None` exactly where the item is no Text String. The bytes of the text are
    /// read as UTF-8 again.
    pub fn text(self) -> Option<&'a str>
        ensures { option_map (λ s. s.now) result ≡ text_in (item_tree self.entry) }
    {
        match self.kind() {
            Kind::TextString => match str::from_utf8(self.value()) {
                Ok(text) => Some(text),
                Err(_) => unreachable!(),
            },
            _ => None,
        }
    }

    /// The bytes, and `None` exactly where the item is no Byte String.
    pub fn bytes(self) -> Option<&'a [u8]>
        ensures { option_map (λ b. b.now) result ≡ bytes_in (item_tree self.entry) }
    {
        match self.kind() {
            Kind::ByteString => Some(self.value()),
            _ => None,
        }
    }

    /// The eight bytes of the date as an unsigned number, and `None` exactly where the item is no
    /// Date-Time.
    pub fn date(self) -> Option<u64>
        ensures { result ≡ date_in (item_tree self.entry) }
    {
        match self.kind() {
            Kind::DateTime => Some(number8(self.value())),
            _ => None,
        }
    }

    /// The seconds, and `None` exactly where the item is no Interval.
    pub fn interval(self) -> Option<u32>
        ensures { result ≡ interval_in (item_tree self.entry) }
    {
        match self.kind() {
            Kind::Interval => Some(number4(self.value())),
            _ => None,
        }
    }

    /// The children in order, and `None` exactly where the item is no Structure.
    pub fn children(self) -> Option<Children<'a>>
        ensures { option_map trees_left result ≡ children_in (item_tree self.entry) }
    {
        match self.kind() {
            Kind::Structure => Some(Children {
                bytes: self.value(),
            }),
            _ => None,
        }
    }
}

#[tactic(auto, unfolding(crate::specs::Items::item_tree, crate::specs::Items::trees_left))]
impl<'a> Iterator for Children<'a> {
    ghost use Rattle.kmip_wire.specs.Items.{item_tree, trees_left};
    ghost use Rattle.std.specs.Iterator.{YieldsFirstBy, item_count};

    type Item = ItemRef<'a>;

    ghost next_gives = { YieldsFirstBy item_tree trees_left };

    ghost remaining = { item_count trees_left };

    fn next(&mut self) -> Option<ItemRef<'a>> {
        if self.bytes.is_empty() {
            return None;
        }
        let (item, rest) = self.bytes.split_at(whole_length(self.bytes));
        self.bytes = rest;
        Some(ItemRef { bytes: item })
    }
}
