//! Words of a command line that give a value to a name.
ghost use Rattle.std.specs.Prelude.{◌≡◌, map, option_map, IfOk};
ghost use Rattle.kmip_request_words.specs.Options.{option_given, given_after, value_given};
ghost use Rattle.kmip_request_words.specs.Options.{name_given, are_options};
ghost use Rattle.std.specs.List.{find};

use kmip_wire::{OutOfMemory, Text};
use std::alloc::Global;

/// The value that the first word gives to a name, as `V` for `user=` and the word `user=V`, and the
/// words that are left; `None` and all words where it gives none.
pub fn option_given<'a>(name: &str, words: &'a [Text]) -> (Option<&'a str>, &'a [Text])
    ensures value { option_map (λ value. value.now) result.0 ≡
        (option_given name.now words.now).value }
    ensures rest { result.1.now ≡ (option_given name.now words.now).rest }
{
    match words {
        [first, rest @ ..] => match first.as_str().strip_prefix(name) {
            Some(value) => (Some(value), rest),
            None => (None, words),
        },
        [] => (None, words),
    }
}

/// The same, but `None` and all words where `before` is absent.
pub fn given_after<'a>(
    before: Option<&str>,
    name: &str,
    words: &'a [Text],
) -> (Option<&'a str>, &'a [Text])
    ensures value { option_map (λ value. value.now) result.0 ≡
        (given_after (option_map (λ value. value.now) before.entry) name.now words.now).value }
    ensures rest { result.1.now ≡
        (given_after (option_map (λ value. value.now) before.entry) name.now words.now).rest }
{
    match before {
        Some(_) => option_given(name, words),
        None => (None, words),
    }
}

/// The value that words give to a name: that of the first word that begins with it.
pub fn value_given<'a>(name: &str, words: &'a [Text]) -> Option<&'a str>
    ensures { option_map (λ value. value.now) result ≡ value_given name.now words.now }
{
    match words {
        [] => None,
        [first, rest @ ..] => match first.as_str().strip_prefix(name) {
            Some(value) => Some(value),
            None => value_given(name, rest),
        },
    }
}

/// The first of these names that a word begins with.
fn name_given<'a>(names: &[&'a str], word: &str) -> Option<&'a str>
    ensures { option_map (λ name. name.now) result ≡
        name_given (map (λ name. name.now) names.now) word.now }
{
    match names {
        [] => None,
        [first, rest @ ..] => {
            if word.starts_with(*first) {
                Some(first)
            } else {
                name_given(rest, word)
            }
        }
    }
}

/// Whether each word gives a value to one of these names, and no two words to the same.
pub fn are_options(names: &[&str], words: &[Text]) -> bool
    ensures { result ≡ are_options (map (λ name. name.now) names.now) words.now }
{
    match words {
        [] => true,
        [first, rest @ ..] => match name_given(names, first.as_str()) {
            Some(name) => value_given(name, rest).is_none() && are_options(names, rest),
            None => false,
        },
    }
}

/// A copy of a text that may be absent.
pub fn copy_text(alloc: Global, text: Option<&str>) -> Result<Option<Text>, OutOfMemory>
    ensures { IfOk result (λ copy. copy ≡ option_map (λ text. text.now) text.entry) }
{
    match text {
        Some(text) => Ok(Some(Text::of(alloc, text)?)),
        None => Ok(None),
    }
}
