//! The values of options.
ghost use Rattle.std.specs.Prelude.{◌≡◌, IfOk};
ghost use Rattle.kmip_request_words.specs.Options.{value_given};
ghost use Rattle.kmip_request_words.specs.Given.{text_given};

use crate::options::value_given;
use crate::values::word_text;
use kmip_wire::{OutOfMemory, Text};
use std::alloc::Global;

/// The text that words give to an option, where they do; `None` where it is no text.
pub fn text_given(
    alloc: Global,
    option: &str,
    words: &[Text],
) -> Result<Option<Option<Text>>, OutOfMemory>
    ensures { IfOk result
        (λ text. text ≡ text_given (value_given option.now words.now)) }
{
    let Some(value) = value_given(option, words) else {
        return Ok(Some(None));
    };
    match word_text(alloc, value)? {
        Some(text) => Ok(Some(Some(text))),
        None => Ok(None),
    }
}
