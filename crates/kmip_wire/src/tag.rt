//! Tags. To contracts a tag is a number below 2^24.
ghost use Rattle.std.specs.Prelude.{◌≡◌, ℕ, ◌<◌, ◌≤◌, ◌^◌, [], ◌∷◌, ◌↔◌, IsTrue, MatchOption};
ghost use Rattle.std.specs.Int.{w32, from_be_bytes};

use std::marker::Model;

/// The tag of an item, a number below 2^24.
#[derive(Clone, Copy, PartialEq, Eq)]
pub struct Tag {
    number: u32,
}

impl Model for Tag {
    ghost Value = { ℕ };

    ghost view = { λ t. t.number };

    ghost invariant = { λ t. t.number < 2 ^ 24 };

    ghost inverse = { λ n. record { number = n } };
}

impl Tag {
    /// The tag of the number, and `None` exactly from 2^24 on.
    pub fn new(number: u32) -> Option<Tag>
        ensures { MatchOption result (2 ^ 24 ≤ number) (λ tag. (tag ≡ number) × (number < 2 ^ 24)) }
    {
        if number < 1 << 24 {
            Some(Tag { number })
        } else {
            None
        }
    }

    /// The tag of a number below 2^24, as `Tag::of(0x42000A)`.
    pub const fn of(number: u32) -> Tag
        requires { number < 2 ^ 24 }
        ensures { result ≡ number }
    {
        Tag { number }
    }

    /// The tag of the first three of four bytes. Four bytes are read at once, three one by one.
    pub(crate) fn from_word(high: u8, middle: u8, low: u8, other: u8) -> Tag
        ensures { result ≡ from_be_bytes w32 (0 ∷ high ∷ middle ∷ low ∷ []) }
    {
        Tag {
            number: u32::from_be_bytes([high, middle, low, other]) >> 8,
        }
    }

    /// Whether it is the other tag, as `==` says.
    pub fn is(self, other: Tag) -> bool
        ensures { IsTrue result ↔ (self ≡ other) }
    {
        self == other
    }

    /// Its number, which is below 2^24.
    pub fn number(self) -> u32
        ensures number { result ≡ self }
        ensures range { result < 2 ^ 24 }
    {
        self.number
    }
}
