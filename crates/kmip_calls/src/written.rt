//! Words as they are given, and the words of the grammar that stand for them.
ghost use Rattle.std.specs.Prelude.{◌≡◌, ◌++◌, ◌∷◌, [], IfOk, OnOk, option_map, flat_map};
ghost use Rattle.std.specs.Char.{encode_utf8};
ghost use Rattle.kmip_calls.specs.Written.{escaped, text_word, option_word, data_word};
ghost use Rattle.kmip_calls.specs.Written.{text_written, word_written, name_text, words_of, written_words};

use crate::places::may_be_option;
use kmip_wire::{List, OutOfMemory, Text};
use std::alloc::Global;
use std::str;

/// A word of a call, as it is given.
#[repr(C)]
#[derive(Clone, Copy)]
pub struct Word<'a> {
    /// A text in UTF-8, with no quotes or escapes; or data.
    pub bytes: &'a [u8],
    /// Whether they are data, which KMIP has as a Byte String.
    pub is_data: bool,
}

/// Adds a character of a text, `%` and `=` by their escapes.
fn push_escape(ch: char, out: &mut Text) -> Result<(), OutOfMemory>
    ensures { OnOk result (out.new ≡ out.old ++ flat_map escaped (encode_utf8 ch)) }
{
    match ch {
        '%' => out.push_str("%25"),
        '=' => out.push_str("%3D"),
        _ => out.push(ch),
    }
}

/// Adds the characters of a text, `%` and `=` by their escapes.
fn push_escaped(text: &str, out: &mut Text) -> Result<(), OutOfMemory>
    ensures { OnOk result (out.new ≡ out.old ++ flat_map escaped text.now) }
{
    for ch in text.chars() {
        push_escape(ch, out)?;
    }
    Ok(())
}

#[tactic(auto, unfolding(crate::specs::Written::text_word))]
/// Adds the word of a text.
fn push_text_word(text: &str, out: &mut Text) -> Result<(), OutOfMemory>
    ensures { OnOk result (out.new ≡ out.old ++ text_word text.now) }
{
    if text.is_empty() {
        return out.push_str("-");
    }
    if text == "-" {
        return out.push_str("%2D");
    }
    push_escaped(text, out)
}

/// Adds the word of an option: its name and `=` as they are, and its value as the word of a text.
fn push_option_word(text: &str, out: &mut Text) -> Result<(), OutOfMemory>
    ensures { OnOk result (out.new ≡ out.old ++ option_word text.now) }
{
    match text.split_once('=') {
        Some((name, value)) => {
            out.push_str(name)?;
            out.push_str("=")?;
            push_text_word(value, out)
        }
        None => push_text_word(text, out),
    }
}

#[tactic(auto, unfolding(crate::specs::Written::data_word))]
/// The word of data: its hex digits, or `-` for none.
fn data_word(alloc: Global, bytes: &[u8]) -> Result<Text, OutOfMemory>
    ensures { IfOk result (λ word. word ≡ data_word bytes.now) }
{
    if bytes.is_empty() {
        return Text::of(alloc, "-");
    }
    Ok(Text::of_string(hex::encode_upper(alloc, bytes)?))
}

/// The word of a text, in a place where an option may stand or not.
fn text_written(alloc: Global, is_option: bool, text: &str) -> Result<Text, OutOfMemory>
    ensures { IfOk result (λ word. word ≡ text_written is_option text.now) }
{
    let mut out = Text::new(alloc);
    if is_option {
        push_option_word(text, &mut out)?;
        return Ok(out);
    }
    push_text_word(text, &mut out)?;
    Ok(out)
}

/// The word that stands for one that is given, in a place where an option may stand or not; `None`
/// where it is a text and not UTF-8.
fn word_written(alloc: Global, is_option: bool, word: &Word) -> Result<Option<Text>, OutOfMemory>
    ensures { IfOk result (λ written. written ≡ word_written is_option word.now) }
{
    if word.is_data {
        return Ok(Some(data_word(alloc, word.bytes)?));
    }
    match str::from_utf8(word.bytes) {
        Ok(text) => Ok(Some(text_written(alloc, is_option, text)?)),
        Err(_) => Ok(None),
    }
}

/// The name of a call, which is a text; `None` where it is data, or not UTF-8.
fn name_text<'a>(name: &Word<'a>) -> Option<&'a str>
    ensures { option_map (λ text. text.now) result ≡ name_text name.now }
{
    if name.is_data {
        return None;
    }
    match str::from_utf8(name.bytes) {
        Ok(text) => Some(text),
        Err(_) => None,
    }
}

/// The name of a call, and the words that stand for those behind; `None` where one of these is a
/// text and not UTF-8.
fn words_of(alloc: Global, words: &[Word], name: &str) -> Result<Option<List<Text>>, OutOfMemory>
    ensures { IfOk result (λ written. written ≡ words_of words.now name.now) }
{
    let mut written = List::new(alloc);
    written.push(Text::of(alloc, name)?)?;
    for index in 0..words.len() {
        let is_option = may_be_option(name, words.len(), index);
        match word_written(alloc, is_option, &words[index])? {
            Some(word) => written.push(word)?,
            None => return Ok(None),
        }
    }
    Ok(Some(written))
}

#[tactic(auto, unfolding(crate::specs::Written::written_words))]
/// The words of the grammar that stand for those that are given: the name of a call, as it is, and
/// its words. `None` where the name is data, or a text is not UTF-8.
pub fn written_words(alloc: Global, words: &[Word]) -> Result<Option<List<Text>>, OutOfMemory>
    ensures { IfOk result (λ written. written ≡ written_words words.now) }
{
    let [name, words @ ..] = words else {
        return Ok(Some(List::new(alloc)));
    };
    match name_text(name) {
        Some(name) => words_of(alloc, words, name),
        None => Ok(None),
    }
}
