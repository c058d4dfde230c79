//! Prints the pieces of a diagnostic.
ghost use Rattle.std.specs.Prelude.{◌≡◌, true, ◌%◌, [], ◌∷◌, ◌++◌, IfOk};
ghost use Rattle.std.specs.Fmt.{digit_glyph, digits};
ghost use Rattle.kmip_diag.specs.Printed.{two, six, has_prefix, printed_tag, printed_mark};
ghost use Rattle.kmip_diag.specs.Tokens.{token_text};

use crate::printer::PrettyPrinter;
use crate::token::{Mark, Token};
use kmip_wire::{OutOfMemory, Tag, Text};
use std::alloc::Global;

/// The last hex digit of a number.
fn digit(number: u32) -> &'static str
    ensures { result.now ≡ digit_glyph true (number % 16) ∷ [] }
{
    match number % 16 {
        0 => "0",
        1 => "1",
        2 => "2",
        3 => "3",
        4 => "4",
        5 => "5",
        6 => "6",
        7 => "7",
        8 => "8",
        9 => "9",
        10 => "A",
        11 => "B",
        12 => "C",
        13 => "D",
        14 => "E",
        _ => "F",
    }
}

/// Appends the last two hex digits of a number.
pub(crate) fn push_two(text: &mut Text, number: u32) -> Result<(), OutOfMemory>
    ensures { IfOk result (λ _. text.new ≡ text.old ++ two number) }
{
    text.push_str(digit(number / 16))?;
    text.push_str(digit(number))
}

/// Appends the last six hex digits of a number.
#[tactic(auto, unfolding(crate::specs::Printed::six))]
pub(crate) fn push_six(text: &mut Text, number: u32) -> Result<(), OutOfMemory>
    ensures { IfOk result (λ _. text.new ≡ text.old ++ six number) }
{
    push_two(text, number / 0x1_0000)?;
    push_two(text, number / 0x100)?;
    push_two(text, number)
}

/// Appends `e`, the number in hex and `:`.
fn push_number(alloc: Global, text: &mut Text, number: u32) -> Result<(), OutOfMemory>
    ensures { IfOk result (λ _. text.new ≡ text.old ++ (101 ∷ (digits 16 true number ++ 58 ∷ []))) }
{
    match format!(in alloc; "e{number:X}:") {
        Ok(written) => text.push_str(written.as_str()),
        Err(_) => Err(OutOfMemory),
    }
}

/// Appends the letter of a type, for an enumeration with its number.
pub(crate) fn push_mark(alloc: Global, text: &mut Text, mark: Mark) -> Result<(), OutOfMemory>
    ensures { IfOk result (λ _. text.new ≡ text.old ++ printed_mark mark) }
{
    let letter = match mark {
        Mark::Integer => "i",
        Mark::LongInteger => "l",
        Mark::BigInteger => "b",
        Mark::Enumeration(number) => return push_number(alloc, text, number),
        Mark::Boolean => "o",
        Mark::TextString => "t",
        Mark::ByteString => "x",
        Mark::DateTime => "d",
        Mark::Interval => "n",
    };
    text.push_str(letter)
}

impl PrettyPrinter {
    /// Whether the upper 16 bits of the tag are the prefix.
    fn has_prefix(&self, tag: Tag) -> bool
        ensures { result ≡ has_prefix self.now tag }
    {
        match self.prefix {
            Some(prefix) => tag.number() / 0x100 == prefix as u32,
            None => false,
        }
    }

    /// Appends a tag: two digits under the prefix, else six.
    pub(crate) fn push_tag(&self, text: &mut Text, tag: Tag) -> Result<(), OutOfMemory>
        ensures { IfOk result (λ _. text.new ≡ text.old ++ printed_tag self.now tag) }
    {
        if self.has_prefix(tag) {
            push_two(text, tag.number())
        } else {
            push_six(text, tag.number())
        }
    }

    /// Appends a piece.
    pub(crate) fn push_token(
        &self,
        alloc: Global,
        text: &mut Text,
        token: &Token,
    ) -> Result<(), OutOfMemory>
        ensures { IfOk result (λ _. text.new ≡ text.old ++ token_text self.now token.now) }
    {
        match token {
            Token::Scalar(tag, mark) => {
                self.push_tag(text, *tag)?;
                push_mark(alloc, text, *mark)
            }
            Token::Open(tag) => {
                self.push_tag(text, *tag)?;
                text.push_str("[")
            }
            Token::Close => text.push_str("]"),
        }
    }
}
