//! The pieces of the notation, read from left to right.
use crate::error::NotationError;
use std::alloc::Global;

/// The value of a hex digit.
fn digit_of(byte: u8) -> Option<u8> {
    match byte {
        b'0'..=b'9' => Some(byte - b'0'),
        b'A'..=b'F' => Some(byte - b'A' + 10),
        _ => None,
    }
}

/// A text, and what of it is left to read.
#[derive(Drop)]
pub(crate) struct Reader<'a> {
    rest: &'a [u8],
}

impl<'a> Reader<'a> {
    /// Nothing of the text was read.
    pub(crate) fn new(text: &'a [u8]) -> Reader<'a> {
        Reader { rest: text }
    }

    /// What is left.
    pub(crate) fn rest(&self) -> &'a [u8] {
        self.rest
    }

    /// That the text is not of the notation here.
    pub(crate) fn refuse(&self) -> NotationError {
        NotationError::Unread {
            left: self.rest.len(),
        }
    }

    /// The next byte.
    pub(crate) fn next(&mut self) -> Option<u8> {
        let (first, rest) = self.rest.split_first()?;
        self.rest = rest;
        Some(*first)
    }

    /// Whether this stands next; it is passed then.
    pub(crate) fn passes(&mut self, text: &[u8]) -> bool {
        match self.rest.strip_prefix(text) {
            Some(rest) => {
                self.rest = rest;
                true
            }
            None => false,
        }
    }

    /// Passes spaces and commas.
    pub(crate) fn pass_spaces(&mut self) {
        for _ in 0..self.rest.len() {
            if !(self.passes(b" ") || self.passes(b",") || self.passes(b"\n")) {
                break;
            }
        }
    }

    /// A hex digit.
    fn digit(&mut self) -> Option<u8> {
        let value = digit_of(*self.rest.first()?)?;
        self.next();
        Some(value)
    }

    /// A number in hex digits.
    pub(crate) fn hex_number(&mut self) -> Option<u32> {
        let mut number = u32::from(self.digit()?);
        for _ in 0..self.rest.len() {
            match self.digit() {
                Some(digit) => number = number.checked_mul(16)?.checked_add(u32::from(digit))?,
                None => break,
            }
        }
        Some(number)
    }

    /// A number in decimal digits, after a minus or not.
    pub(crate) fn number(&mut self) -> Option<i128> {
        let negative = self.passes(b"-");
        let mut number = 0i128;
        for _ in 0..self.rest.len() {
            match self.rest.first() {
                Some(byte) if byte.is_ascii_digit() => {
                    number = number
                        .checked_mul(10)?
                        .checked_add(i128::from(*byte - b'0'))?;
                    self.next();
                }
                _ => break,
            }
        }
        if negative {
            number.checked_neg()
        } else {
            Some(number)
        }
    }

    /// A byte of two hex digits.
    fn hex_byte(&mut self) -> Option<u8> {
        let high = self.digit()?;
        let low = self.digit()?;
        u8::try_from(u16::from(high) * 16 + u16::from(low)).ok()
    }

    /// The bytes of hex digits, as many as stand here.
    pub(crate) fn hex_bytes(&mut self, alloc: Global) -> Result<Vec<u8>, NotationError> {
        let mut bytes = Vec::new(alloc);
        for _ in 0..self.rest.len() {
            match self.hex_byte() {
                Some(byte) => bytes.push(byte)?,
                None => break,
            }
        }
        Ok(bytes)
    }

    /// What stands for a character after a backslash.
    fn escaped(&mut self) -> Option<u8> {
        match self.next()? {
            b'x' => self.hex_byte(),
            b'n' => Some(b'\n'),
            byte => Some(byte),
        }
    }

    /// The bytes of a text up to its last quotation mark.
    pub(crate) fn quoted(&mut self, alloc: Global) -> Result<Vec<u8>, NotationError> {
        let mut bytes = Vec::new(alloc);
        for _ in 0..self.rest.len() {
            let byte = match self.next() {
                Some(b'"') => return Ok(bytes),
                Some(b'\\') => self.escaped(),
                byte => byte,
            };
            match byte {
                Some(byte) => bytes.push(byte)?,
                None => break,
            }
        }
        Err(self.refuse())
    }

    /// A tag: two hex digits of 0x4200TT, or six.
    pub(crate) fn tag(&mut self) -> Option<u32> {
        let first = u32::from(self.hex_byte()?);
        let Some(second) = self.hex_byte() else {
            return Some(0x420000 + first);
        };
        let third = u32::from(self.hex_byte()?);
        Some(first * 0x10000 + u32::from(second) * 0x100 + third)
    }
}
