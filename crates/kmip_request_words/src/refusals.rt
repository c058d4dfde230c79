//! Words that are of the grammar, and ask for what is not meant: no call is made of them.
ghost use Rattle.std.specs.Prelude.{◌≡◌, option_map};
ghost use Rattle.kmip_request_words.specs.Refusals.{is_empty_word, is_about_object};
ghost use Rattle.kmip_request_words.specs.Refusals.{is_empty_value, has_empty_identifier};
ghost use Rattle.kmip_request_words.specs.Refusals.{hashes_twice, why_refused};

use crate::options::value_given;
use kmip_wire::Text;

/// Whether a word stands for the empty text.
fn is_empty_word(word: &str) -> bool
    ensures { result ≡ is_empty_word word.now }
{
    word.is_empty() || word == "-"
}

/// Whether the first word of the call with this name is the identifier of an object.
fn is_about_object(name: &str) -> bool
    ensures { result ≡ is_about_object name.now }
{
    name == "activate"
        || name == "revoke"
        || name == "destroy"
        || name == "rename"
        || name == "sign"
        || name == "get"
        || name == "attributes"
        || name == "attribute-add"
        || name == "attribute-modify"
        || name == "attribute-delete"
}

/// Whether a value is given that stands for the empty text.
fn is_empty_value(value: Option<&str>) -> bool
    ensures { result ≡ is_empty_value (option_map (λ value. value.now) value.entry) }
{
    match value {
        Some(value) => is_empty_word(value),
        None => false,
    }
}

/// Whether an identifier among the words of a call is empty.
fn has_empty_identifier(words: &[Text]) -> bool
    ensures { result ≡ has_empty_identifier words.now }
{
    match words {
        [name, id, options @ ..] => {
            is_about_object(name.as_str())
                && (is_empty_word(id.as_str())
                    || (name.as_str() == "get" && is_empty_value(value_given("wrap=", options))))
        }
        _ => false,
    }
}

/// Whether a signature of a digest is asked for, with the digest's algorithm.
fn hashes_twice(words: &[Text]) -> bool
    ensures { result ≡ hashes_twice words.now }
{
    match words {
        [name, _, _, options @ ..] => {
            name.as_str() == "sign"
                && (value_given("prehashed", options).is_some()
                    && value_given("hash=", options).is_some())
        }
        _ => false,
    }
}

/// Why no call is made of these words, where that is so, although they are of the grammar: an
/// identifier is empty, which a server may take for that of another object, or bytes are said to be
/// a digest and to be hashed. It takes no memory.
pub fn why_refused(words: &[Text]) -> Option<&'static str>
    ensures { option_map (λ text. text.now) result ≡ why_refused words.now }
{
    if has_empty_identifier(words) {
        return Some("an identifier is empty; a request that means it is sent by message");
    }
    if hashes_twice(words) {
        return Some(
            "prehashed and hash= exclude each other: KMIP 1.2 has no digested data in Sign, so the server would hash the digest again",
        );
    }
    None
}
