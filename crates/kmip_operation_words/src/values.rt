//! The value that a word gives, by its kind.
ghost use Rattle.std.specs.Prelude.{◌≡◌, map, option_map, option_and_then, IfOk};
ghost use Rattle.std.specs.Int.{cast_signed, w32};
ghost use Rattle.kmip_codes.specs.UsageMask.{usage_bits};
ghost use Rattle.kmip_encodings.specs.Names.{enumeration_number};
ghost use Rattle.kmip_wire.specs.Tree.{scalar, integer, long_integer, enumeration, boolean};
ghost use Rattle.kmip_wire.specs.Tree.{text_string, byte_string, date_time, interval};
ghost use Rattle.kmip_request_words.specs.Keys.{uses_of};
ghost use Rattle.kmip_request_words.specs.Values.{int_of, long_of, count_of, number_of};
ghost use Rattle.kmip_request_words.specs.Values.{bytes_of, word_text};
ghost use Rattle.kmip_request_words.specs.Words.{parts_between};
ghost use Rattle.kmip_operation_words.specs.Values.{not_empty, truth_of, value_of};

use crate::rows::Kind;
use bitflags::Flags;
use kmip_codes::CryptographicUsageMask;
use kmip_encodings::enumeration_number;
use kmip_request_words::{
    bytes_of, count_of, int_of, long_of, number_of, parts_between, table_name, word_text,
};
use kmip_wire::{Node, OutOfMemory, Tag, Tree};
use std::alloc::Global;

/// The truth value that a word writes.
fn truth_of(word: &str) -> Option<bool>
    ensures { result ≡ truth_of word.now }
{
    match word {
        "true" => Some(true),
        "false" => Some(false),
        _ => None,
    }
}

/// The uses of these names together; `None` where one is no name of a use.
fn uses_of(names: &[&str]) -> Option<CryptographicUsageMask>
    ensures { option_map usage_bits result ≡ uses_of (map (λ name. name.now) names.now) }
{
    match names {
        [] => Some(CryptographicUsageMask::from_bits_retain(0)),
        [first, rest @ ..] => {
            let one = CryptographicUsageMask::from_name(table_name(first))?;
            let mut uses = uses_of(rest)?;
            uses.insert(one);
            Some(uses)
        }
    }
}

/// A text.
fn text_item(alloc: Global, tag: Tag, word: &str) -> Result<Option<Tree>, OutOfMemory>
    ensures { IfOk result (λ item. item ≡
        option_map (λ text. scalar tag (text_string text)) (word_text word.now)) }
{
    match word_text(alloc, word)? {
        Some(text) => Ok(Some(Tree {
            tag,
            node: Node::TextString(text),
        })),
        None => Ok(None),
    }
}

/// A text that is not empty.
fn identifier_item(alloc: Global, tag: Tag, word: &str) -> Result<Option<Tree>, OutOfMemory>
    ensures { IfOk result (λ item. item ≡
        option_map (λ text. scalar tag (text_string text))
        (option_and_then not_empty (word_text word.now))) }
{
    match word_text(alloc, word)? {
        Some(text) => {
            if text.as_str().is_empty() {
                return Ok(None);
            }
            Ok(Some(Tree {
                tag,
                node: Node::TextString(text),
            }))
        }
        None => Ok(None),
    }
}

/// Bytes.
fn bytes_item(alloc: Global, tag: Tag, word: &str) -> Result<Option<Tree>, OutOfMemory>
    ensures { IfOk result (λ item. item ≡
        option_map (λ bytes. scalar tag (byte_string bytes)) (bytes_of word.now)) }
{
    match bytes_of(alloc, word)? {
        Some(bytes) => Ok(Some(Tree {
            tag,
            node: Node::ByteString(bytes),
        })),
        None => Ok(None),
    }
}

/// Bytes, at least one.
fn handle_item(alloc: Global, tag: Tag, word: &str) -> Result<Option<Tree>, OutOfMemory>
    ensures { IfOk result (λ item. item ≡
        option_map (λ bytes. scalar tag (byte_string bytes))
        (option_and_then not_empty (bytes_of word.now))) }
{
    match bytes_of(alloc, word)? {
        Some(bytes) => {
            if bytes.as_slice().is_empty() {
                return Ok(None);
            }
            Ok(Some(Tree {
                tag,
                node: Node::ByteString(bytes),
            }))
        }
        None => Ok(None),
    }
}

/// A mask of uses.
fn uses_item(alloc: Global, tag: Tag, word: &str) -> Result<Option<Tree>, OutOfMemory>
    ensures { IfOk result (λ item. item ≡
        option_map (λ bits. scalar tag (integer (cast_signed w32 bits)))
        (uses_of (parts_between 44 word.now))) }
{
    let names = parts_between(alloc, ',', word)?;
    match uses_of(&names) {
        Some(uses) => Ok(Some(Tree {
            tag,
            node: Node::Integer(uses.bits().cast_signed()),
        })),
        None => Ok(None),
    }
}

/// A number.
fn int_item(tag: Tag, word: &str) -> Option<Tree>
    ensures { result ≡ option_map (λ z. scalar tag (integer z)) (int_of word.now) }
{
    let node = Node::Integer(int_of(word)?);
    Some(Tree { tag, node })
}

/// A number that is not negative, as a Long Integer.
fn count_item(tag: Tag, word: &str) -> Option<Tree>
    ensures { result ≡ option_map (λ z. scalar tag (long_integer z)) (count_of word.now) }
{
    let node = Node::LongInteger(count_of(word)?);
    Some(Tree { tag, node })
}

/// A date.
fn date_item(tag: Tag, word: &str) -> Option<Tree>
    ensures { result ≡ option_map (λ n. scalar tag (date_time n)) (long_of word.now) }
{
    let node = Node::DateTime(long_of(word)?);
    Some(Tree { tag, node })
}

/// A time.
fn seconds_item(tag: Tag, word: &str) -> Option<Tree>
    ensures { result ≡ option_map (λ n. scalar tag (interval n)) (number_of word.now) }
{
    let node = Node::Interval(number_of(word)?);
    Some(Tree { tag, node })
}

/// A truth value.
fn truth_item(tag: Tag, word: &str) -> Option<Tree>
    ensures { result ≡ option_map (λ b. scalar tag (boolean b)) (truth_of word.now) }
{
    let node = Node::Boolean(truth_of(word)?);
    Some(Tree { tag, node })
}

/// A number by its name in the enumeration that stands under `names`.
fn name_item(names: Tag, tag: Tag, word: &str) -> Option<Tree>
    ensures { result ≡ option_map (λ n. scalar tag (enumeration n))
        (enumeration_number names word.now) }
{
    let node = Node::Enumeration(enumeration_number(names, word)?);
    Some(Tree { tag, node })
}

/// The item with the value that a word gives. A name is one of the enumeration that stands under
/// `names`.
pub fn value_item(
    alloc: Global,
    kind: Kind,
    names: Tag,
    tag: Tag,
    word: &str,
) -> Result<Option<Tree>, OutOfMemory>
    ensures { IfOk result (λ item. item ≡
        option_map (λ value. scalar tag value) (value_of kind names word.now)) }
{
    match kind {
        Kind::Identifier => identifier_item(alloc, tag, word),
        Kind::Text => text_item(alloc, tag, word),
        Kind::Hex => bytes_item(alloc, tag, word),
        Kind::Handle => handle_item(alloc, tag, word),
        Kind::Int => Ok(int_item(tag, word)),
        Kind::Count => Ok(count_item(tag, word)),
        Kind::Date => Ok(date_item(tag, word)),
        Kind::Seconds => Ok(seconds_item(tag, word)),
        Kind::Truth => Ok(truth_item(tag, word)),
        Kind::Name => Ok(name_item(names, tag, word)),
        Kind::Uses => uses_item(alloc, tag, word),
    }
}
