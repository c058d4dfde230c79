//! Which call words ask for.
ghost use Rattle.std.specs.Prelude.{◌≡◌, IfOk, option_map};
ghost use Rattle.kmip_calls.specs.Calls.{call_of, call_view};

use crate::written::{Word, written_words};
use kmip_operation_words::table_call;
use kmip_operations::OperationCall;
use kmip_wire::OutOfMemory;
use kmip_words::{Call, typed_call};
use std::alloc::Global;

/// A call that words ask for.
#[derive(Drop)]
pub enum WordsCall {
    /// A typed call, as `sign ID HEX`.
    Typed(Call),
    /// A call of the table of operations, as `encrypt ID DATA`.
    Operation(OperationCall),
}

/// The call that words ask for: a typed one, or one of the table of operations; `None` where they
/// ask for none, which [`crate::refusal_of_words`] explains.
///
/// The first word is the call's name. Behind a call's words stand its options, as `mode=CBC`, and
/// where an attribute stands, as in `locate` with two words or more, it is written so too. What
/// stands before the first `=` of an option is its name, and the rest its value. Each word but the
/// name may be data. `id` is the Unique Batch Item ID of the request (KMIP 1.0, 6.4) of a call of
/// the table; the request of a typed call has none.
pub fn call_of_words(
    alloc: Global,
    words: &[Word],
    id: Option<&[u8]>,
) -> Result<Option<WordsCall>, OutOfMemory>
    ensures { IfOk result (λ call. option_map call_view call ≡
        call_of words.now (option_map (λ id. id.now) id.entry)) }
{
    let Some(written) = written_words(alloc, words)? else {
        return Ok(None);
    };
    if let Some(call) = typed_call(alloc, written.as_slice())? {
        return Ok(Some(WordsCall::Typed(call)));
    }
    match table_call(alloc, written.as_slice(), id)? {
        Some(call) => Ok(Some(WordsCall::Operation(call))),
        None => Ok(None),
    }
}
