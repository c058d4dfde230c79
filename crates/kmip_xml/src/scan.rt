//! The front of a text, and what follows it.
ghost use Rattle.std.specs.Prelude.{◌≡◌, ◌<◌, option_map};
ghost use Rattle.std.specs.List.{prefix_len};
ghost use Rattle.kmip_xml.specs.Scan.{is_space, trimmed, spaced, after, around, is_in_word, word};

/// White space of XML (2.3).
fn is_space(byte: u8) -> bool
    ensures { result ≡ is_space byte }
{
    byte == b' ' || byte == b'\t' || byte == b'\n' || byte == b'\r'
}

fn is_in_word(byte: u8) -> bool
    ensures { result ≡ is_in_word byte }
{
    matches!(byte, b'A'..=b'Z' | b'a'..=b'z' | b'0'..=b'9' | b'_')
}

/// How many bytes of white space stand at the front.
fn space_len(text: &[u8]) -> usize
    ensures { result ≡ prefix_len is_space text.now }
{
    text.iter().take_while(|byte| is_space(**byte)).count()
}

/// How many bytes of a word stand at the front.
fn word_len(text: &[u8]) -> usize
    ensures { result ≡ prefix_len is_in_word text.now }
{
    text.iter().take_while(|byte| is_in_word(**byte)).count()
}

/// The text without the white space at its front.
#[tactic(auto, unfolding(crate::specs::Scan::trimmed))]
pub(crate) fn trimmed(text: &str) -> &str
    ensures { result.now ≡ trimmed text.now }
{
    text.split_at(space_len(text.as_bytes())).1
}

/// The same, where some stands there.
pub(crate) fn spaced(text: &str) -> Option<&str>
    ensures { option_map (λ rest. rest.now) result ≡ spaced text.now }
{
    let rest = trimmed(text);
    if rest.len() < text.len() {
        Some(rest)
    } else {
        None
    }
}

/// What follows a text at the front.
#[tactic(auto, unfolding(crate::specs::Scan::after))]
pub(crate) fn after<'a>(front: &str, text: &'a str) -> Option<&'a str>
    ensures { option_map (λ rest. rest.now) result ≡ after front.now text.now }
{
    text.strip_prefix(front)
}

/// What stands before the first of a character of ASCII, and what after it.
#[tactic(auto, unfolding(crate::specs::Scan::around))]
pub(crate) fn around(mark: char, text: &str) -> Option<(&str, &str)>
    requires { mark < 128 }
    ensures { option_map (λ parts. (parts.0.now, parts.1.now)) result ≡ around mark text.now }
{
    text.split_once(mark)
}

/// The letters, digits and `_` at the front, and what follows them.
#[tactic(auto, unfolding(crate::specs::Scan::word))]
pub(crate) fn word(text: &str) -> (&str, &str)
    ensures { (result.0.now, result.1.now) ≡ word text.now }
{
    text.split_at(word_len(text.as_bytes()))
}
