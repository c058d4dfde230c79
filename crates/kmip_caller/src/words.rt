//! The words of a call of any operation, of a whole message or of the table of operations, and
//! those that name a file, whose contents are meant.
ghost use Rattle.std.specs.Prelude.{◌≡◌, option_map, IfOk, ◌++◌, OnOk};
ghost use Rattle.kmip_caller.specs.TreeWords.{tree_text, version_or_default, payload_words};
ghost use Rattle.kmip_caller.specs.TreeWords.{given_or, optioned_words, operation_words};
ghost use Rattle.kmip_caller.specs.TreeWords.{message_words, tree_words, item_id};
ghost use Rattle.kmip_caller.specs.TableWords.{with_id, begins_with_name, is_of_table};
ghost use Rattle.kmip_caller.specs.FileWords.{is_of_json, has_json, place_of, place_in};
ghost use Rattle.kmip_caller.specs.FileWords.{gives_bytes, gives_bytes_behind, takes_file, file_at};
ghost use Rattle.kmip_caller.specs.FileWords.{file_in, text_for, word_for, put_at, with_contents};

use crate::record::push_response;
use kmip_operation_words::{operation_row, takes_bytes};
use kmip_wire::{Blob, List, OutOfMemory, Text};
use kmip_words::{bytes_of, option_given};
use std::alloc::Global;
use std::str;

/// The version of KMIP of an operation whose words give none.
const DEFAULT_VERSION: &str = "1.2";

/// The words of a call whose payload or message is given in JSON.
#[derive(Clone, Copy)]
pub enum TreeWords<'a> {
    /// `operation NAME [version=VERSION] [item-id=HEX] PAYLOAD`.
    Operation {
        name: &'a str,
        version: &'a str,
        hex: Option<&'a str>,
        payload: &'a str,
    },
    /// `message MESSAGE`.
    Message {
        message: &'a str,
    },
}

/// A version that may be absent, or else 1.2.
fn version_or_default<'a>(version: Option<&'a str>) -> &'a str
    ensures { result.now ≡ version_or_default (option_map (λ text. text.now) version.entry) }
{
    match version {
        Some(version) => version,
        None => DEFAULT_VERSION,
    }
}

/// The words of an operation, by its name, its version, the hex of its Unique Batch Item ID and the
/// words that are left.
fn payload_words<'a>(
    name: &'a str,
    version: Option<&'a str>,
    hex: Option<&'a str>,
    words: &'a [Text],
) -> Option<TreeWords<'a>>
    ensures { option_map tree_text result ≡
        payload_words name.now (option_map (λ text. text.now) version.entry)
        (option_map (λ text. text.now) hex.entry) words.now }
{
    match words {
        [payload] => Some(TreeWords::Operation {
            name,
            version: version_or_default(version),
            hex,
            payload: payload.as_str(),
        }),
        _ => None,
    }
}

/// The value that was given before, or else the one that the first word gives to a name; and the
/// words that are left.
fn given_or<'a>(
    before: Option<&'a str>,
    name: &str,
    words: &'a [Text],
) -> (Option<&'a str>, &'a [Text])
    ensures value { option_map (λ value. value.now) result.0 ≡
        (given_or (option_map (λ value. value.now) before.entry) name.now words.now).value }
    ensures rest { result.1.now ≡
        (given_or (option_map (λ value. value.now) before.entry) name.now words.now).rest }
{
    match before {
        Some(value) => (Some(value), words),
        None => option_given(name, words),
    }
}

/// The words of an operation, by its name and the words after it: options in any order, each at
/// most once, and its payload.
fn optioned_words<'a>(name: &'a str, words: &'a [Text]) -> Option<TreeWords<'a>>
    ensures { option_map tree_text result ≡ optioned_words name.now words.now }
{
    let (first, words) = option_given("version=", words);
    let (hex, words) = option_given("item-id=", words);
    let (version, words) = given_or(first, "version=", words);
    payload_words(name, version, hex, words)
}

/// `operation NAME [version=VERSION] [item-id=HEX] PAYLOAD`, by the first two words and the others.
fn operation_words<'a>(call: &str, name: &'a str, words: &'a [Text]) -> Option<TreeWords<'a>>
    ensures { option_map tree_text result ≡ operation_words call.now name.now words.now }
{
    if call != "operation" {
        return None;
    }
    optioned_words(name, words)
}

/// `message MESSAGE`.
fn message_words<'a>(call: &str, message: &'a str) -> Option<TreeWords<'a>>
    ensures { option_map tree_text result ≡ message_words call.now message.now }
{
    match call {
        "message" => Some(TreeWords::Message { message }),
        _ => None,
    }
}

/// The words of a call whose payload or message is given in JSON; `None` where they are of another
/// form.
pub fn tree_words(words: &[Text]) -> Option<TreeWords<'_>>
    ensures { option_map tree_text result ≡ tree_words words.now }
{
    match words {
        [call, message] => message_words(call.as_str(), message.as_str()),
        [call, name, words @ ..] => operation_words(call.as_str(), name.as_str(), words),
        _ => None,
    }
}

/// The Unique Batch Item ID that `item-id=HEX` gives: at least one byte, in hex digits of either
/// case; `None` where it is none. Where there is no such word, there is no ID: `Some(None)`.
pub fn item_id(alloc: Global, hex: Option<&str>) -> Result<Option<Option<Blob>>, OutOfMemory>
    ensures { IfOk result (λ id. id ≡ item_id (option_map (λ text. text.now) hex.entry)) }
{
    let Some(hex) = hex else {
        return Ok(Some(None));
    };
    let Some(id) = bytes_of(alloc, hex)? else {
        return Ok(None);
    };
    if id.as_slice().is_empty() {
        Ok(None)
    } else {
        Ok(Some(Some(id)))
    }
}

/// The hex of `item-id=HEX`, where that stands in front, and the words of the call.
pub fn with_id(words: &[Text]) -> (Option<&str>, &[Text])
    ensures value { option_map (λ hex. hex.now) result.0 ≡ (with_id words.now).value }
    ensures rest { result.1.now ≡ (with_id words.now).rest }
{
    option_given("item-id=", words)
}

/// Whether words begin with the name of a call of the table.
fn begins_with_name(words: &[Text]) -> bool
    ensures { result ≡ begins_with_name words.now }
{
    match words {
        [name, ..] => operation_row(name.as_str()).is_some(),
        [] => false,
    }
}

/// The same behind `item-id=HEX`.
pub fn is_of_table(words: &[Text]) -> bool
    ensures { result ≡ is_of_table words.now }
{
    let (_, words) = with_id(words);
    begins_with_name(words)
}

/// Whether the call with this name has JSON, which stands last.
fn is_of_json(call: &str) -> bool
    ensures { result ≡ is_of_json call.now }
{
    call == "operation" || call == "message"
}

/// Whether a call has JSON.
fn has_json(words: &[Text]) -> bool
    ensures { result ≡ has_json words.now }
{
    match words {
        [call, ..] => is_of_json(call.as_str()),
        [] => false,
    }
}

/// Behind how many words of a call, which has so many, its JSON stands, or its bytes in hex.
fn place_of(call: &str, count: usize) -> Option<usize>
    ensures { result ≡ place_of call.now count }
{
    if call == "raw" {
        return Some(1);
    }
    if call == "sign" || call == "register" {
        return Some(2);
    }
    if is_of_json(call) {
        return Some(count.saturating_sub(1));
    }
    None
}

/// The same of these words.
fn place_in(words: &[Text]) -> Option<usize>
    ensures { result ≡ place_in words.now }
{
    match words {
        [call, ..] => place_of(call.as_str(), words.len()),
        [] => None,
    }
}

/// Whether the word at this place gives bytes to a call of the table, whose name stands at place 0.
fn gives_bytes(words: &[Text], place: usize) -> bool
    ensures { result ≡ gives_bytes words.now place }
{
    let [name, ..] = words else {
        return false;
    };
    match operation_row(name.as_str()) {
        Some(row) => place > 0 && takes_bytes(row, place - 1),
        None => false,
    }
}

/// The same with `item-id=HEX` in front, or without.
fn gives_bytes_behind(words: &[Text], place: usize) -> bool
    ensures { result ≡ gives_bytes_behind (with_id words.now) place }
{
    let (hex, words) = with_id(words);
    match hex {
        Some(_) => place > 0 && gives_bytes(words, place - 1),
        None => gives_bytes(words, place),
    }
}

/// Whether the word at this place may name a file.
fn takes_file(words: &[Text], place: usize) -> bool
    ensures { result ≡ takes_file words.now place }
{
    match place_in(words) {
        Some(at) => at == place,
        None => gives_bytes_behind(words, place),
    }
}

/// The file that the word at this place names.
fn file_at<'a>(at: usize, words: &'a [Text]) -> Option<&'a str>
    ensures { option_map (λ file. file.now) result ≡ file_at at words.now }
{
    match words {
        [] => None,
        [first, rest @ ..] => {
            if at == 0 {
                first.as_str().strip_prefix("@")
            } else {
                file_at(at - 1, rest)
            }
        }
    }
}

/// The file that the word of a call at this place names, from 0 on, `item-id=` counted too: what
/// stands there after `@`. `None` for a word that gives neither bytes nor JSON.
pub fn file_in<'a>(words: &'a [Text], place: usize) -> Option<&'a str>
    ensures { option_map (λ file. file.now) result ≡ file_in words.now place }
{
    if takes_file(words, place) {
        file_at(place, words)
    } else {
        None
    }
}

/// The contents of a file as a text; `None` where they are no UTF-8.
fn text_for(alloc: Global, contents: &[u8]) -> Result<Option<Text>, OutOfMemory>
    ensures { IfOk result (λ word. word ≡ text_for contents.now) }
{
    match str::from_utf8(contents) {
        Ok(text) => Ok(Some(Text::of(alloc, text)?)),
        Err(_) => Ok(None),
    }
}

/// The word that stands for the contents of a file; `None` where it is to be JSON and they are no
/// UTF-8.
fn word_for(alloc: Global, json: bool, contents: &[u8]) -> Result<Option<Text>, OutOfMemory>
    ensures { IfOk result (λ word. word ≡ word_for json contents.now) }
{
    if json {
        return text_for(alloc, contents);
    }
    let mut word = Text::new(alloc);
    push_response(alloc, contents, &mut word)?;
    Ok(Some(word))
}

/// Adds words, with this one in the place of another.
#[tactic(auto, using(std::proofs::lemmas::List::append_assoc))]
fn push_with(
    alloc: Global,
    at: usize,
    put: &str,
    words: &[Text],
    to: &mut List<Text>,
) -> Result<(), OutOfMemory>
    ensures { OnOk result (to.new ≡ to.old ++ put_at at put.now words.now) }
{
    match words {
        [] => Ok(()),
        [first, rest @ ..] => {
            if at == 0 {
                to.push(Text::of(alloc, put)?)?;
                push_all(alloc, rest, to)
            } else {
                to.push(Text::of(alloc, first.as_str())?)?;
                push_with(alloc, at - 1, put, rest, to)
            }
        }
    }
}

/// Adds words.
#[tactic(auto, using(std::proofs::lemmas::List::append_assoc))]
fn push_all(alloc: Global, words: &[Text], to: &mut List<Text>) -> Result<(), OutOfMemory>
    ensures { OnOk result (to.new ≡ to.old ++ words.now) }
{
    match words {
        [] => Ok(()),
        [first, rest @ ..] => {
            to.push(Text::of(alloc, first.as_str())?)?;
            push_all(alloc, rest, to)
        }
    }
}

/// The words with the contents of a file at this place, that of the word that names it: as they are
/// where they are JSON, and else in hex. `None` where they are to be JSON and are no UTF-8, or the
/// word there may name no file.
pub fn with_contents(
    alloc: Global,
    contents: &[u8],
    place: usize,
    words: &[Text],
) -> Result<Option<List<Text>>, OutOfMemory>
    ensures { IfOk result (λ found. found ≡ with_contents contents.now place words.now) }
{
    if !takes_file(words, place) {
        return Ok(None);
    }
    let Some(put) = word_for(alloc, has_json(words), contents)? else {
        return Ok(None);
    };
    let mut found = List::new(alloc);
    push_with(alloc, place, put.as_str(), words, &mut found)?;
    Ok(Some(found))
}
