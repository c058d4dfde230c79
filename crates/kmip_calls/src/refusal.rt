//! Why words are no call.
ghost use Rattle.std.specs.Prelude.{◌≡◌, IfOk, IsSome, MatchOption, None};
ghost use Rattle.kmip_calls.specs.Calls.{call_of, call_written, is_of_table, Refuses, RefusesBy};

use crate::written::{Word, written_words};
use kmip_operation_words::{operation_refusal, operation_row};
use kmip_wire::{OutOfMemory, Text};
use kmip_words::{refusal_of, typed_call};
use std::alloc::Global;

/// Whether words begin with the name of a call of the table of operations.
fn is_of_table(words: &[Text]) -> bool
    ensures { result ≡ is_of_table words.now }
{
    match words {
        [] => false,
        [name, ..] => operation_row(name.as_str()).is_some(),
    }
}

/// Why words of the grammar are no call; `None` where they are one.
fn refusal_written(alloc: Global, words: &[Text]) -> Result<Option<Text>, OutOfMemory>
    ensures { IfOk result (λ why. MatchOption why (IsSome (call_written None words.now))
        (λ text. (call_written None words.now ≡ None)
        × RefusesBy (is_of_table words.now) words.now text)) }
{
    if typed_call(alloc, words)?.is_some() {
        return Ok(None);
    }
    let Some(why) = operation_refusal(alloc, words)? else {
        return Ok(None);
    };
    if is_of_table(words) {
        return Ok(Some(why));
    }
    Ok(Some(refusal_of(alloc, words)?))
}

/// Why words are no call, as a text that names the word that is wrong, and says what may stand
/// there; `None` exactly where they are one.
///
/// It shows the call's name and a word that is to be one of several names, and no word else, since
/// one may be a secret.
pub fn refusal_of_words(alloc: Global, words: &[Word]) -> Result<Option<Text>, OutOfMemory>
    ensures { IfOk result (λ why. MatchOption why (IsSome (call_of words.now None))
        (λ text. (call_of words.now None ≡ None) × Refuses words.now text)) }
{
    match written_words(alloc, words)? {
        Some(words) => refusal_written(alloc, words.as_slice()),
        None => Ok(Some(Text::of(
            alloc,
            "the name of the call is no text, or a text is not UTF-8",
        )?)),
    }
}
