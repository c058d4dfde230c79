//! The writer of the texts of values.

ghost use Rattle.std.specs.Prelude.{◌≡◌, ◌++◌, ◌*◌, ◌<◌, ◌≤◌, ◌∷◌, [], true, flat_map, length};
ghost use Rattle.std.specs.Prelude.{take, IsAscii, OnOk};
ghost use Rattle.std.specs.Fmt.{decimal, signed_decimal};
ghost use Rattle.std.specs.Char.{encode_utf8};
ghost use Rattle.kmip_shape.specs.Shown.{Grows, always, comma, escape, hex_byte, hex_digit};
ghost use Rattle.kmip_shape.specs.Shown.{control_mark, text_in_style, bytes_mark, bytes_in_style};
ghost use Rattle.kmip_shape.specs.Shown.{date_in_style, truth_shown, word, name_mark, member_opening};
ghost use Rattle.kmip_shape.specs.Shown.{case_opening, case_closing, brackets_opening};
ghost use Rattle.kmip_shape.specs.Shown.{brackets_closing};

use crate::style::Style;
use itoa::Buffer as Digits;
use kmip_wire::{OutOfMemory, Text};
use std::marker::Model;
use std::str;

/// How many bytes are put into hex digits at once.
const BLOCK: usize = 32;

/// A digit in upper-case hex.
#[inline(always)]
fn hex_digit(digit: u8) -> u8
    requires { digit < 16 }
    ensures digit { result ≡ hex_digit digit }
    ensures ascii { result < 128 }
{
    if digit < 10 {
        b'0' + digit
    } else {
        b'A' - 10 + digit
    }
}

/// Writes the hex digits of bytes to the start of `out`.
fn write_digits(bytes: &[u8], out: &mut [u8])
    requires { 2 * length bytes.now ≤ length out.old }
    ensures digits { take (2 * length bytes.now) out.new ≡ flat_map hex_byte bytes.now }
    ensures ascii { IsAscii (flat_map hex_byte bytes.now) }
{
    for i in 0..bytes.len() {
        out[2 * i] = hex_digit(bytes[i] / 16);
        out[2 * i + 1] = hex_digit(bytes[i] % 16);
    }
}

/// A text that is appended to, in one style, until memory runs out and then no more.
#[derive(Drop)]
pub struct TextWriter {
    text: Text,
    live: bool,
    style: Style,
}

impl Model for TextWriter {
    ghost use Rattle.kmip_shape.specs.Shown.{Growing};

    ghost Value = { Growing };

    ghost view = { λ s. record { text = s.text; live = s.live; style = s.style } };
}

impl TextWriter {
    /// A writer that appends to this text.
    pub(crate) fn over(text: Text, style: Style) -> TextWriter
        ensures { result ≡ record { text = text; live = true; style = style } }
    {
        TextWriter {
            text,
            live: true,
            style,
        }
    }

    /// Puts the text into `out`. `Err` says that memory ran out.
    pub(crate) fn finish(self, out: &mut Text) -> Result<(), OutOfMemory>
        ensures text { out.new ≡ self.text }
        ensures live { OnOk result (self.live ≡ true) }
    {
        *out = self.text;
        if self.live { Ok(()) } else { Err(OutOfMemory) }
    }

    /// Appends the text, if memory suffices.
    #[tactic(auto, using(crate::proofs::Growth::growth))]
    #[inline(always)]
    pub fn put(&mut self, text: &str)
        ensures { Grows self.old self.new (always text.now) }
    {
        if self.live {
            match self.text.push_str(text) {
                Ok(()) => {}
                Err(_) => self.live = false,
            }
        }
    }

    /// Appends the character, if memory suffices.
    #[tactic(auto, using(crate::proofs::Growth::growth))]
    #[inline(always)]
    fn put_char(&mut self, ch: char)
        ensures { Grows self.old self.new (always (encode_utf8 ch)) }
    {
        if self.live {
            self.live = self.text.push(ch).is_ok();
        }
    }

    /// Appends a comma, where others were shown already (`after`).
    #[tactic(auto, using(crate::proofs::Growth::growth))]
    pub fn put_comma(&mut self, after: bool)
        ensures { Grows self.old self.new (always (comma after)) }
    {
        if after {
            self.put(",");
        }
    }

    /// Appends a signed number in decimal.
    #[tactic(auto, using(crate::proofs::Growth::growth))]
    pub fn put_signed(&mut self, number: i64)
        ensures { Grows self.old self.new (always (signed_decimal number)) }
    {
        self.put(Digits::new().format(number));
    }

    /// Appends an unsigned number in decimal.
    #[tactic(auto, using(crate::proofs::Growth::growth))]
    pub fn put_unsigned(&mut self, number: u64)
        ensures { Grows self.old self.new (always (decimal number)) }
    {
        self.put(Digits::new().format(number));
    }

    /// Appends a Date-Time (KMIP 1.0, 9.1.1.4) of these 64 bits: their unsigned number, or in JSON
    /// the signed number of seconds that they are.
    pub fn put_date(&mut self, seconds: u64)
        ensures { Grows self.old self.new (date_in_style seconds) }
    {
        match self.style {
            Style::Bare => self.put_unsigned(seconds),
            Style::Json => self.put_signed(seconds.cast_signed()),
        }
    }

    /// Appends a truth value.
    pub fn put_truth(&mut self, truth: bool)
        ensures { Grows self.old self.new (always (truth_shown truth)) }
    {
        self.put(if truth { "true" } else { "false" });
    }

    /// Makes room for so many bytes more, if memory suffices.
    #[tactic(auto, using(crate::proofs::Growth::growth))]
    fn reserve(&mut self, more: usize)
        ensures { Grows self.old self.new (always []) }
    {
        if self.live {
            self.live = self.text.reserve(more).is_ok();
        }
    }

    /// Appends what stands before the digits of a control character: `\x`, or in JSON `\u00`.
    fn put_control_mark(&mut self)
        ensures { Grows self.old self.new control_mark }
    {
        match self.style {
            Style::Bare => self.put("\\x"),
            Style::Json => self.put("\\u00"),
        }
    }

    /// Appends a control character: `\x` and two hex digits, or in JSON `\u00` and two.
    fn put_control(&mut self, byte: u8)
        ensures { Grows self.old self.new (λ style. control_mark style ++ hex_byte byte) }
    {
        self.put_control_mark();
        self.put_block(&[byte]);
    }

    /// Appends a character of a text in double quotes.
    #[tactic(auto, using(crate::proofs::Growth::growth))]
    fn put_escaped(&mut self, ch: char)
        ensures { Grows self.old self.new (λ style. flat_map (escape style) (encode_utf8 ch)) }
    {
        match ch {
            '"' => self.put("\\\""),
            '\\' => self.put("\\\\"),
            '\0'..='\x1f' => self.put_control(ch as u8),
            '\x7f' => self.put_control(0x7f),
            _ => self.put_char(ch),
        }
    }

    /// Appends the characters of a text in double quotes.
    fn put_characters(&mut self, text: &str)
        ensures { Grows self.old self.new (λ style. flat_map (escape style) text.now) }
    {
        for ch in text.chars() {
            self.put_escaped(ch);
        }
    }

    /// Appends a text in double quotes: `"` and `\` after a backslash, control characters as `\x`
    /// and two hex digits, or in JSON as `\u00` and two.
    pub fn put_text(&mut self, text: &str)
        ensures { Grows self.old self.new (text_in_style text.now) }
    {
        self.put("\"");
        self.put_characters(text);
        self.put("\"");
    }

    /// Appends the hex digits of at most `BLOCK` bytes.
    fn put_block(&mut self, bytes: &[u8])
        requires { length bytes.now ≤ 32 }
        ensures { Grows self.old self.new (always (flat_map hex_byte bytes.now)) }
    {
        let mut digits = [0; 2 * BLOCK];
        write_digits(bytes, &mut digits);
        match str::from_utf8(&digits[..2 * bytes.len()]) {
            Ok(text) => self.put(text),
            Err(_) => unreachable!(),
        }
    }

    /// Appends the hex digits of bytes.
    fn put_digits(&mut self, bytes: &[u8])
        ensures { Grows self.old self.new (always (flat_map hex_byte bytes.now)) }
    {
        let mut rest = bytes;
        while rest.len() > BLOCK {
            let (first, tail) = rest.split_at(BLOCK);
            self.put_block(first);
            rest = tail;
        }
        self.put_block(rest);
    }

    /// Appends what stands before the digits of bytes: `x"`, or in JSON `"`.
    fn put_bytes_mark(&mut self)
        ensures { Grows self.old self.new bytes_mark }
    {
        match self.style {
            Style::Bare => self.put("x\""),
            Style::Json => self.put("\""),
        }
    }

    /// Appends bytes as hex digits in double quotes, with an `x` before them but in JSON.
    pub fn put_bytes(&mut self, bytes: &[u8])
        ensures { Grows self.old self.new (bytes_in_style bytes.now) }
    {
        self.reserve(bytes.len().saturating_mul(2));
        self.put_bytes_mark();
        self.put_digits(bytes);
        self.put("\"");
    }

    /// Appends a name: itself, or in JSON a string.
    #[inline(always)]
    pub fn put_word(&mut self, name: &str)
        ensures { Grows self.old self.new (word name.now) }
    {
        match self.style {
            Style::Bare => self.put(name),
            Style::Json => self.put_text(name),
        }
    }

    /// Appends what stands between the name of a field and its value: `=`, or in JSON `:`.
    #[inline(always)]
    pub(crate) fn put_name_mark(&mut self)
        ensures { Grows self.old self.new name_mark }
    {
        match self.style {
            Style::Bare => self.put("="),
            Style::Json => self.put(":"),
        }
    }

    /// Appends the start of a JSON object of one member, up to the member's value.
    fn open_member(&mut self, name: &str)
        ensures { Grows self.old self.new (member_opening name.now) }
    {
        self.put("{");
        self.put_text(name);
        self.put(":");
    }

    /// Appends what stands before a case's record or list: the case's name.
    #[inline(always)]
    pub fn open_case(&mut self, name: &str)
        ensures { Grows self.old self.new (case_opening name.now) }
    {
        match self.style {
            Style::Bare => self.put(name),
            Style::Json => self.open_member(name),
        }
    }

    /// Appends what stands after a case's record or list.
    #[inline(always)]
    pub fn close_case(&mut self)
        ensures { Grows self.old self.new case_closing }
    {
        match self.style {
            Style::Bare => {}
            Style::Json => self.put("}"),
        }
    }

    /// Appends what stands before another value of a case: its name and a bracket.
    #[inline(always)]
    pub fn open_brackets(&mut self, name: &str)
        ensures { Grows self.old self.new (brackets_opening name.now) }
    {
        match self.style {
            Style::Bare => {
                self.put(name);
                self.put("(");
            }
            Style::Json => self.open_member(name),
        }
    }

    /// Appends what stands after another value of a case.
    #[inline(always)]
    pub fn close_brackets(&mut self)
        ensures { Grows self.old self.new brackets_closing }
    {
        match self.style {
            Style::Bare => self.put(")"),
            Style::Json => self.put("}"),
        }
    }
}
