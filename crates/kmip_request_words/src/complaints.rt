//! Why words are no call: which of them is wrong, and what may stand there.
ghost use Rattle.std.specs.Prelude.{◌≡◌, ◌++◌, codes, map, option_map, IfOk, OnOk};
ghost use Rattle.kmip_request_words.specs.Grammar.{word_view, option_view, call_view};
ghost use Rattle.kmip_request_words.specs.Complaints as complaints;

use crate::asked::after_where;
use crate::grammar::{CallRow, Kind, OptionRow, Rest, WordRow, attribute_rows, row_of};
use crate::kinds::{push_wanted, takes};
use crate::options::value_given;
use crate::refusals::why_refused;
use kmip_wire::{OutOfMemory, Text};
use std::alloc::Global;

/// What stands after the name of an option, in a word that gives it.
fn value_after<'a>(name: &str, word: &'a str) -> Option<&'a str>
    ensures { option_map (λ value. value.now) result ≡ complaints.value_after name.now word.now }
{
    match word.strip_prefix(name) {
        Some(value) => Some(value),
        None => None,
    }
}

/// The option that a word gives.
fn option_in<'a>(options: &'a [OptionRow], word: &str) -> Option<&'a OptionRow>
    ensures { option_map (λ option. option_view option.now) result ≡
        complaints.option_in (map option_view options.now) word.now }
{
    match options {
        [] => None,
        [first, rest @ ..] => {
            if value_after(first.name, word).is_some() {
                Some(first)
            } else {
                option_in(rest, word)
            }
        }
    }
}

/// Whether an equals sign is in a word.
fn has_equals(word: &str) -> bool
    ensures { result ≡ complaints.has_equals word.now }
{
    word.as_bytes().contains(&b'=')
}

/// That a word of a call is not of its kind.
#[tactic(auto, using(std::proofs::lemmas::List::append_assoc))]
fn not_of(alloc: Global, call: &str, word: &str, kind: Kind) -> Result<Text, OutOfMemory>
    ensures { IfOk result (λ text. text ≡ complaints.not_of call.now word.now kind) }
{
    let mut text = Text::of(alloc, call)?;
    text.push_str(": ")?;
    text.push_str(word)?;
    text.push_str(" ")?;
    push_wanted(alloc, kind, &mut text)?;
    Ok(text)
}

/// What is wrong with the value of an option. The option is shown and no value, since it may be a
/// password that stands in a wrong place.
fn wrong_value(
    alloc: Global,
    call: &str,
    option: &OptionRow,
    value: &str,
) -> Result<Option<Text>, OutOfMemory>
    ensures { IfOk result (λ text. text ≡
        complaints.wrong_value call.now (option_view option.now) value.now) }
{
    if takes(alloc, option.kind, value)? {
        return Ok(None);
    }
    Ok(Some(not_of(alloc, call, option.name, option.kind)?))
}

/// What is wrong with a word that is to be an attribute with its value.
fn wrong_attribute(
    alloc: Global,
    call: &str,
    name: &str,
    word: &str,
) -> Result<Option<Text>, OutOfMemory>
    ensures { IfOk result (λ text. text ≡ complaints.wrong_attribute call.now name.now word.now) }
{
    let Some(option) = option_in(attribute_rows(), word) else {
        return Ok(Some(not_of(alloc, call, name, Kind::Attribute)?));
    };
    match value_after(option.name, word) {
        Some(value) => {
            if has_equals(value) {
                return Ok(Some(twice_equals(alloc, call, option.name)?));
            }
            wrong_value(alloc, call, option, value)
        }
        None => Ok(None),
    }
}

/// That a second equals sign stands in an attribute's word.
fn twice_equals(alloc: Global, call: &str, name: &str) -> Result<Text, OutOfMemory>
    ensures { IfOk result (λ text. text ≡ complaints.twice_equals call.now name.now) }
{
    let mut text = Text::of(alloc, call)?;
    text.push_str(": ")?;
    text.push_str(name)?;
    text.push_str(" has another = in its value, which is written %3D")?;
    Ok(text)
}

/// Whether a word is to be an attribute with its value.
fn is_attribute(kind: Kind) -> bool
    ensures { result ≡ complaints.is_attribute kind }
{
    match kind {
        Kind::Attribute => true,
        Kind::Identifier
        | Kind::Text
        | Kind::Int
        | Kind::Seconds
        | Kind::Hex
        | Kind::Request
        | Kind::Algorithm
        | Kind::Format
        | Kind::Hash
        | Kind::Padding
        | Kind::Reason
        | Kind::ObjectType
        | Kind::State
        | Kind::KeyKind
        | Kind::Uses
        | Kind::Flag
        | Kind::Operation
        | Kind::Version
        | Kind::Payload
        | Kind::Message => false,
    }
}

/// What is wrong with a word of a call.
fn wrong_word(
    alloc: Global,
    call: &str,
    row: &WordRow,
    word: &str,
) -> Result<Option<Text>, OutOfMemory>
    ensures { IfOk result (λ text. text ≡
        complaints.wrong_word call.now (word_view row.now) word.now) }
{
    if is_attribute(row.kind) {
        return wrong_attribute(alloc, call, row.name, word);
    }
    if takes(alloc, row.kind, word)? {
        return Ok(None);
    }
    Ok(Some(not_of(alloc, call, row.name, row.kind)?))
}

/// What is wrong with the first word that is not of the kind of its row.
fn wrong_words(
    alloc: Global,
    call: &str,
    rows: &[WordRow],
    words: &[Text],
) -> Result<Option<Text>, OutOfMemory>
    ensures { IfOk result (λ text. text ≡
        complaints.wrong_words call.now (map word_view rows.now) words.now) }
{
    match rows {
        [] => Ok(None),
        [row, rows @ ..] => match words {
            [] => Ok(None),
            [word, words @ ..] => match wrong_word(alloc, call, row, word.as_str())? {
                Some(text) => Ok(Some(text)),
                None => wrong_words(alloc, call, rows, words),
            },
        },
    }
}

/// What is wrong with the first word that is not of the kind of this row.
fn wrong_among(
    alloc: Global,
    call: &str,
    row: &WordRow,
    words: &[Text],
) -> Result<Option<Text>, OutOfMemory>
    ensures { IfOk result (λ text. text ≡
        complaints.wrong_among call.now (word_view row.now) words.now) }
{
    match words {
        [] => Ok(None),
        [word, words @ ..] => match wrong_word(alloc, call, row, word.as_str())? {
            Some(text) => Ok(Some(text)),
            None => wrong_among(alloc, call, row, words),
        },
    }
}

/// Whether a word is no option of the call.
fn has_other(options: &[OptionRow], words: &[Text]) -> bool
    ensures { result ≡ complaints.has_other (map option_view options.now) words.now }
{
    match words {
        [] => false,
        [first, rest @ ..] => {
            option_in(options, first.as_str()).is_none() || has_other(options, rest)
        }
    }
}

/// Whether two words give a value to this name.
fn is_twice(name: &str, words: &[Text]) -> bool
    ensures { result ≡ complaints.is_twice name.now words.now }
{
    match words {
        [] => false,
        [first, rest @ ..] => {
            if value_after(name, first.as_str()).is_some() {
                value_given(name, rest).is_some()
            } else {
                is_twice(name, rest)
            }
        }
    }
}

/// Adds the words of a call, as `ID HEX`.
#[tactic(auto, using(std::proofs::lemmas::List::append_assoc))]
fn push_words(rows: &[WordRow], text: &mut Text) -> Result<(), OutOfMemory>
    ensures { OnOk result (text.new ≡ text.old ++ complaints.words_form (map word_view rows.now)) }
{
    match rows {
        [] => Ok(()),
        [first, rest @ ..] => {
            text.push_str(" ")?;
            text.push_str(first.name)?;
            push_words(rest, text)
        }
    }
}

/// Adds an option of a call, as `[hash=]`.
#[tactic(auto, using(std::proofs::lemmas::List::append_assoc))]
fn push_option(row: &OptionRow, text: &mut Text) -> Result<(), OutOfMemory>
    ensures { OnOk result (text.new ≡ text.old ++ complaints.option_form (option_view row.now)) }
{
    if row.is_needed {
        text.push_str(" ")?;
        return text.push_str(row.name);
    }
    text.push_str(" [")?;
    text.push_str(row.name)?;
    text.push_str("]")
}

/// Adds the options of a call, as `[hash=] [padding=]`.
#[tactic(auto, using(std::proofs::lemmas::List::append_assoc))]
fn push_options(rows: &[OptionRow], text: &mut Text) -> Result<(), OutOfMemory>
    ensures { OnOk result (text.new ≡ text.old ++ complaints.options_form (map option_view rows.now)) }
{
    match rows {
        [] => Ok(()),
        [first, rest @ ..] => {
            push_option(first, text)?;
            push_options(rest, text)
        }
    }
}

/// Adds the words of a call whose options stand after its first word.
#[tactic(auto, using(std::proofs::lemmas::List::append_assoc))]
fn push_tree_form(
    words: &[WordRow],
    options: &[OptionRow],
    text: &mut Text,
) -> Result<(), OutOfMemory>
    ensures { OnOk result (text.new ≡ text.old
        ++ complaints.tree_form (map word_view words.now) (map option_view options.now)) }
{
    match words {
        [] => Ok(()),
        [first, rest @ ..] => {
            text.push_str(" ")?;
            text.push_str(first.name)?;
            push_options(options, text)?;
            push_words(rest, text)
        }
    }
}

/// Adds what stands after the name of a call.
#[tactic(auto, using(std::proofs::lemmas::List::append_assoc))]
fn push_rest(row: &CallRow, text: &mut Text) -> Result<(), OutOfMemory>
    ensures { OnOk result (text.new ≡ text.old ++ complaints.rest_form (call_view row.now)) }
{
    match row.rest {
        Rest::Options => {
            push_words(row.words, text)?;
            push_options(row.options, text)
        }
        Rest::Names => {
            push_words(row.words, text)?;
            text.push_str(" [NAME..]")
        }
        Rest::Attributes => {
            push_words(row.words, text)?;
            text.push_str(", or locate [where] [ATTRIBUTE..]")
        }
        Rest::Nothing => push_tree_form(row.words, row.options, text),
    }
}

/// Adds a call with its words and options, as `sign ID HEX [hash=]`.
#[tactic(auto, using(std::proofs::lemmas::List::append_assoc))]
pub fn push_form(row: &CallRow, text: &mut Text) -> Result<(), OutOfMemory>
    ensures { OnOk result (text.new ≡ text.old ++ complaints.form (call_view row.now)) }
{
    text.push_str(row.name)?;
    push_rest(row, text)
}

/// That the words are not those of a call.
#[tactic(auto, using(std::proofs::lemmas::List::append_assoc))]
fn not_words(alloc: Global, row: &CallRow) -> Result<Text, OutOfMemory>
    ensures { IfOk result (λ text. text ≡ complaints.not_words (call_view row.now)) }
{
    let mut text = Text::of(alloc, "the words are not those of ")?;
    push_form(row, &mut text)?;
    Ok(text)
}

/// That an option is missing.
fn missing(alloc: Global, call: &str, name: &str) -> Result<Text, OutOfMemory>
    ensures { IfOk result (λ text. text ≡ complaints.missing call.now name.now) }
{
    let mut text = Text::of(alloc, call)?;
    text.push_str(": ")?;
    text.push_str(name)?;
    text.push_str(" is missing")?;
    Ok(text)
}

/// That an option is given twice.
fn twice(alloc: Global, call: &str, name: &str) -> Result<Text, OutOfMemory>
    ensures { IfOk result (λ text. text ≡ complaints.twice call.now name.now) }
{
    let mut text = Text::of(alloc, call)?;
    text.push_str(": ")?;
    text.push_str(name)?;
    text.push_str(" is given twice")?;
    Ok(text)
}

/// The first word that gives an option.
fn word_with<'a>(name: &str, words: &'a [Text]) -> Option<&'a str>
    ensures { option_map (λ word. word.now) result ≡ complaints.word_with name.now words.now }
{
    match words {
        [] => None,
        [first, rest @ ..] => {
            if value_after(name, first.as_str()).is_some() {
                Some(first.as_str())
            } else {
                word_with(name, rest)
            }
        }
    }
}

/// What is wrong with an option in a word that gives it.
fn wrong_given(
    alloc: Global,
    call: &str,
    option: &OptionRow,
    word: &str,
) -> Result<Option<Text>, OutOfMemory>
    ensures { IfOk result (λ text. text ≡
        complaints.wrong_given call.now (option_view option.now) word.now) }
{
    match value_after(option.name, word) {
        Some(value) => wrong_value(alloc, call, option, value),
        None => Ok(None),
    }
}

/// What is wrong with an option of a call, in the words that give options.
fn wrong_option(
    alloc: Global,
    call: &str,
    option: &OptionRow,
    words: &[Text],
) -> Result<Option<Text>, OutOfMemory>
    ensures { IfOk result (λ text. text ≡
        complaints.wrong_option call.now (option_view option.now) words.now) }
{
    if is_twice(option.name, words) {
        return Ok(Some(twice(alloc, call, option.name)?));
    }
    match word_with(option.name, words) {
        Some(word) => wrong_given(alloc, call, option, word),
        None => {
            if option.is_needed {
                return Ok(Some(missing(alloc, call, option.name)?));
            }
            Ok(None)
        }
    }
}

/// What is wrong with the first option of a call that is wrong.
fn wrong_options(
    alloc: Global,
    call: &str,
    options: &[OptionRow],
    words: &[Text],
) -> Result<Option<Text>, OutOfMemory>
    ensures { IfOk result (λ text. text ≡
        complaints.wrong_options call.now (map option_view options.now) words.now) }
{
    match options {
        [] => Ok(None),
        [first, rest @ ..] => match wrong_option(alloc, call, first, words)? {
            Some(text) => Ok(Some(text)),
            None => wrong_options(alloc, call, rest, words),
        },
    }
}

/// The words that stand after those of a call.
fn words_after<'a>(rows: &[WordRow], words: &'a [Text]) -> Option<&'a [Text]>
    ensures { option_map (λ rest. rest.now) result ≡
        complaints.words_after (map word_view rows.now) words.now }
{
    match rows {
        [] => Some(words),
        [_, rows @ ..] => match words {
            [] => None,
            [_, words @ ..] => words_after(rows, words),
        },
    }
}

/// What is wrong with words of which options may stand last.
fn wrong_with_options(
    alloc: Global,
    row: &CallRow,
    words: &[Text],
) -> Result<Option<Text>, OutOfMemory>
    ensures { IfOk result (λ text. text ≡ complaints.wrong_with_options (call_view row.now) words.now) }
{
    let Some(options) = words_after(row.words, words) else {
        return Ok(Some(not_words(alloc, row)?));
    };
    if has_other(row.options, options) {
        return Ok(Some(not_words(alloc, row)?));
    }
    match wrong_words(alloc, row.name, row.words, words)? {
        Some(text) => Ok(Some(text)),
        None => wrong_options(alloc, row.name, row.options, options),
    }
}

/// The names of attributes that may stand after the words of `attributes`.
const ATTRIBUTE_NAME: WordRow = WordRow {
    name: "NAME",
    kind: Kind::Text,
};

/// What is wrong with words of which names of attributes may stand last.
fn wrong_with_names(
    alloc: Global,
    row: &CallRow,
    words: &[Text],
) -> Result<Option<Text>, OutOfMemory>
    ensures { IfOk result (λ text. text ≡ complaints.wrong_with_names (call_view row.now) words.now) }
{
    let Some(names) = words_after(row.words, words) else {
        return Ok(Some(not_words(alloc, row)?));
    };
    match wrong_words(alloc, row.name, row.words, words)? {
        Some(text) => Ok(Some(text)),
        None => wrong_among(alloc, row.name, &ATTRIBUTE_NAME, names),
    }
}

/// A word that is to be an attribute with its value.
const ATTRIBUTE: WordRow = WordRow {
    name: "ATTRIBUTE",
    kind: Kind::Attribute,
};

/// What is wrong with words that are the call's own, or attributes.
fn wrong_with_attributes(
    alloc: Global,
    row: &CallRow,
    words: &[Text],
) -> Result<Option<Text>, OutOfMemory>
    ensures { IfOk result (λ text. text ≡
        complaints.wrong_with_attributes (call_view row.now) words.now) }
{
    match words {
        [_] => wrong_words(alloc, row.name, row.words, words),
        _ => wrong_among(alloc, row.name, &ATTRIBUTE, after_where(words)),
    }
}

/// What is wrong with the words of a call.
fn complaint(alloc: Global, row: &CallRow, words: &[Text]) -> Result<Option<Text>, OutOfMemory>
    ensures { IfOk result (λ text. text ≡ complaints.complaint (call_view row.now) words.now) }
{
    match row.rest {
        Rest::Options => wrong_with_options(alloc, row, words),
        Rest::Names => wrong_with_names(alloc, row, words),
        Rest::Attributes => wrong_with_attributes(alloc, row, words),
        Rest::Nothing => Ok(Some(not_words(alloc, row)?)),
    }
}

/// That bytes are not a request.
#[tactic(auto, using(std::proofs::lemmas::List::append_assoc))]
fn not_a_request(alloc: Global, call: &str) -> Result<Text, OutOfMemory>
    ensures { IfOk result (λ text. text ≡ complaints.not_a_request call.now) }
{
    let mut text = Text::of(alloc, call)?;
    text.push_str(": the bytes are not the one canonical message of a request")?;
    Ok(text)
}

/// Why words after a call's name are no call.
fn call_refusal(alloc: Global, row: &CallRow, words: &[Text]) -> Result<Text, OutOfMemory>
    ensures { IfOk result (λ text. text ≡ complaints.call_refusal (call_view row.now) words.now) }
{
    match complaint(alloc, row, words)? {
        Some(text) => Ok(text),
        None => not_a_request(alloc, row.name),
    }
}

/// That a word names no call. An option is not shown, since it may be a password.
fn wrong_name(alloc: Global, name: &str) -> Result<Text, OutOfMemory>
    ensures { IfOk result (λ text. text ≡ complaints.wrong_name name.now) }
{
    if has_equals(name) {
        return Text::of(
            alloc,
            "an option is out of its place, or there is none of its name",
        );
    }
    let mut text = Text::of(alloc, "there is no call ")?;
    text.push_str(name)?;
    Ok(text)
}

/// Why words are not of the grammar: that there are none, that the first one names
/// no call, or which of the others is wrong.
fn not_of_grammar(alloc: Global, words: &[Text]) -> Result<Text, OutOfMemory>
    ensures { IfOk result (λ text. text ≡ complaints.not_of_grammar words.now) }
{
    let [name, rest @ ..] = words else {
        return Text::of(alloc, "no call is given");
    };
    match row_of(name.as_str()) {
        Some(row) => call_refusal(alloc, row, rest),
        None => wrong_name(alloc, name.as_str()),
    }
}

/// Why words are no call: why none is made of them, where they ask for what is not
/// meant; else which of them is wrong, and what may stand there. A word whose value is to be one of
/// several names is shown, and no other but the call's name.
///
/// Of words that are a call, and of `raw` with bytes that are no request, it says that the bytes are
/// not the one canonical message of a request.
#[tactic(auto, unfolding(crate::specs::Complaints::refusal))]
pub fn refusal_of(alloc: Global, words: &[Text]) -> Result<Text, OutOfMemory>
    ensures { IfOk result (λ text. text ≡ complaints.refusal words.now) }
{
    match why_refused(words) {
        Some(text) => Text::of(alloc, text),
        None => not_of_grammar(alloc, words),
    }
}
