//! The names of tags as one word each.
ghost use Rattle.std.specs.Prelude.{◌≡◌, bytes_eq, option_map, slice_get, map, length};
ghost use Rattle.kmip_encodings.specs.Words.{words, tag_word, tag_named};

use crate::table::{FIRST, WORDS};
use kmip_wire::Tag;

static TABLE: [&str; 292] = WORDS;

/// The word at `index`, if the list has one there.
fn nth(words: &'static [&'static str], index: usize) -> Option<&'static str>
    ensures { option_map (λ word. word.now) result ≡
        slice_get (map (λ word. word.now) words.now) index }
{
    if index < words.len() {
        Some(words[index])
    } else {
        None
    }
}

/// All words, in tag order.
fn all_words() -> &'static [&'static str]
    ensures table { map (λ word. word.now) result.now ≡ words }
    ensures length { length result.now ≡ 292 }
{
    &TABLE
}

/// The name of the tag as one word, as `UniqueIdentifier`: `Some` exactly for the tags from
/// 0x420001 to 0x420124. It takes no memory.
pub fn tag_word(tag: Tag) -> Option<&'static str>
    ensures { option_map (λ word. word.now) result ≡ tag_word tag }
{
    let number = tag.number();
    if number < FIRST {
        return None;
    }
    nth(all_words(), (number - FIRST) as usize)
}

fn is_word(word: &str, other: &str) -> bool
    ensures { result ≡ bytes_eq word.now other.now }
{
    word == other
}

/// The tag whose name is this word.
pub fn tag_named(word: &str) -> Option<Tag>
    ensures { result ≡ tag_named word.now }
{
    let words = all_words();
    for index in 0..words.len() {
        if is_word(words[index], word) {
            return Tag::new(FIRST + index as u32);
        }
    }
    None
}
