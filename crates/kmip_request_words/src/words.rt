//! The words of a line.
ghost use Rattle.std.specs.Prelude.{◌≡◌, ◌<◌, map, option_map, IfOk};
ghost use Rattle.kmip_request_words.specs.Words.{parts_between, has_empty_part, words_of};

use kmip_wire::OutOfMemory;
use std::alloc::Global;

/// What stands between the separators, each an ASCII character.
pub fn parts_between(alloc: Global, separator: char, text: &str) -> Result<Vec<&str>, OutOfMemory>
    requires { separator < 128 }
    ensures { IfOk result
        (λ parts. map (λ part. part.now) parts.items ≡ parts_between separator text.now) }
{
    Ok(text.split(separator).collect(alloc)?)
}

fn has_empty_part(parts: &[&str]) -> bool
    ensures { result ≡ has_empty_part (map (λ part. part.now) parts.now) }
{
    parts.iter().any(|part| part.is_empty())
}

/// The words of a line; `None` unless there is exactly one space between two, and none is empty.
pub fn words_of(alloc: Global, line: &str) -> Result<Option<Vec<&str>>, OutOfMemory>
    ensures { IfOk result
        (λ words. option_map (λ w. map (λ word. word.now) w.items) words ≡ words_of line.now) }
{
    let parts = parts_between(alloc, ' ', line)?;
    if has_empty_part(&parts) {
        return Ok(None);
    }
    Ok(Some(parts))
}
