//! Reads the pieces of a printed text. The caller prints them again and compares, so a piece that
//! is read from another text does no harm.
ghost use Rattle.std.specs.Prelude.{◌≡◌, ◌≤◌, ◌<◌, IfSome, length, option_map};
ghost use Rattle.kmip_diag.specs.Reading.{hex_value, numeral, tag_of, mark_at, number_token};
ghost use Rattle.kmip_diag.specs.Reading.{by_letter, read_token};
ghost use Rattle.kmip_diag.specs.Tokens.{IsToken};

use crate::printer::PrettyPrinter;
use crate::token::{Mark, Token};
use kmip_wire::Tag;

/// The number of an upper-case hex digit.
fn hex_value(letter: u8) -> Option<u32>
    ensures value { result ≡ hex_value letter }
    ensures range { IfSome result (λ digit. digit < 16) }
{
    if letter < b'0' {
        None
    } else if letter < b'0' + 10 {
        Some((letter - b'0') as u32)
    } else if letter < b'A' {
        None
    } else if letter < b'A' + 6 {
        Some((letter - b'A') as u32 + 10)
    } else {
        None
    }
}

/// The number of the hex digits at the front, as many as fit 32 bits, and the rest.
fn numeral(text: &[u8]) -> (u32, &[u8])
    ensures value { (result.0, result.1.now) ≡ numeral 0 text.now }
    ensures shorter { length result.1.now ≤ length text.now }
{
    let mut number = 0;
    let mut rest = text;
    while let [letter, tail @ ..] = rest {
        let Some(digit) = hex_value(*letter) else {
            return (number, rest);
        };
        if number >= 1 << 28 {
            return (number, rest);
        }
        number = number * 16 + digit;
        rest = tail;
    }
    (number, rest)
}

/// The mark of a letter, which is not `e`.
fn mark_at(letter: u8) -> Option<Mark>
    ensures { result ≡ mark_at letter }
{
    match letter {
        b'i' => Some(Mark::Integer),
        b'l' => Some(Mark::LongInteger),
        b'b' => Some(Mark::BigInteger),
        b'o' => Some(Mark::Boolean),
        b't' => Some(Mark::TextString),
        b'x' => Some(Mark::ByteString),
        b'd' => Some(Mark::DateTime),
        b'n' => Some(Mark::Interval),
        _ => None,
    }
}

/// The piece of an enumeration, whose number and one letter after it are at the front, and the
/// rest.
fn number_token(tag: Tag, text: &[u8]) -> Option<(Token, &[u8])>
    ensures value { option_map (λ p. (p.0, p.1.now)) result ≡
        number_token tag (numeral 0 text.now) }
    ensures shorter { IfSome result (λ p. length p.1.now ≤ length text.now) }
{
    let (number, rest) = numeral(text);
    let [_, rest @ ..] = rest else {
        return None;
    };
    Some((Token::Scalar(tag, Mark::Enumeration(number)), rest))
}

/// The piece with the tag and the letter after it, and the rest.
fn by_letter(tag: Tag, letter: u8, rest: &[u8]) -> Option<(Token, &[u8])>
    ensures value { option_map (λ p. (p.0, p.1.now)) result ≡ by_letter tag letter rest.now }
    ensures shorter { IfSome result (λ p. length p.1.now ≤ length rest.now) }
{
    match letter {
        b'[' => Some((Token::Open(tag), rest)),
        b'e' => number_token(tag, rest),
        _ => Some((Token::Scalar(tag, mark_at(letter)?), rest)),
    }
}

impl PrettyPrinter {
    /// The tag of a number that has so many digits: two digits are under the prefix.
    fn tag_of(&self, digits: usize, number: u32) -> u32
        ensures { result ≡ tag_of self.now digits number }
    {
        match self.prefix {
            Some(prefix) if digits == 2 => prefix as u32 * 0x100 + number % 0x100,
            _ => number,
        }
    }

    /// The piece at the front of a printed text, and the rest.
    pub(crate) fn read_token<'a>(&self, text: &'a [u8]) -> Option<(Token, &'a [u8])>
        ensures value { option_map (λ p. (p.0, p.1.now)) result ≡ read_token self.now text.now }
        ensures range { IfSome result (λ p. IsToken p.0) }
        ensures shorter { IfSome result (λ p. length p.1.now < length text.now) }
    {
        let (number, after) = numeral(text);
        let [letter, rest @ ..] = after else {
            return None;
        };
        if *letter == b']' {
            return Some((Token::Close, rest));
        }
        let tag = Tag::new(self.tag_of(text.len() - after.len(), number))?;
        by_letter(tag, *letter, rest)
    }
}
