//! Where options stand among the words of a call.
ghost use Rattle.std.specs.Prelude.{◌≡◌, option_map};
ghost use Rattle.kmip_request_words.specs.Complaints.{is_attribute};
ghost use Rattle.kmip_request_words.specs.Grammar.{call_view, word_view};
ghost use Rattle.kmip_operation_words.specs.Rows.{row_view};
ghost use Rattle.kmip_calls.specs.Places.{is_option_word, in_typed, in_operation, may_be_option};

use kmip_operation_words::{OperationRow, Rest as OperationRest, operation_row};
use kmip_request_words::{CallRow, Kind, Rest, WordRow, row_of};

/// Whether a word is to be an attribute.
fn is_attribute(kind: Kind) -> bool
    ensures { result ≡ is_attribute kind }
{
    match kind {
        Kind::Attribute => true,
        Kind::Identifier
        | Kind::Text
        | Kind::Int
        | Kind::Seconds
        | Kind::Hex
        | Kind::Request
        | Kind::Algorithm
        | Kind::Format
        | Kind::Hash
        | Kind::Padding
        | Kind::Reason
        | Kind::ObjectType
        | Kind::State
        | Kind::KeyKind
        | Kind::Uses
        | Kind::Flag
        | Kind::Operation
        | Kind::Version
        | Kind::Payload
        | Kind::Message => false,
    }
}

/// Whether an option may stand in place of a word of a call's own, or of one behind.
fn is_option_word(word: Option<&WordRow>) -> bool
    ensures { result ≡ is_option_word (option_map (λ word. word_view word.now) word.entry) }
{
    match word {
        Some(word) => is_attribute(word.kind),
        None => true,
    }
}

/// Whether an option may stand at this index among so many words of a typed call.
fn in_typed(row: &CallRow, count: usize, index: usize) -> bool
    ensures { result ≡ in_typed (call_view row.now) count index }
{
    match row.rest {
        Rest::Options => is_option_word(row.words.get(index)),
        Rest::Attributes => count != 1,
        Rest::Names | Rest::Nothing => false,
    }
}

/// Whether an option may stand at this index among the words of an operation's call.
fn in_operation(row: &OperationRow, index: usize) -> bool
    ensures { result ≡ in_operation (row_view row.now) index }
{
    match row.rest {
        OperationRest::Options => index >= row.words,
        OperationRest::Words => false,
    }
}

/// Whether an option may stand at this index, counted from 0, among so many words of the call with
/// this name. It takes no memory.
pub fn may_be_option(name: &str, count: usize, index: usize) -> bool
    ensures { result ≡ may_be_option name.now count index }
{
    if let Some(row) = row_of(name) {
        return in_typed(row, count, index);
    }
    match operation_row(name) {
        Some(row) => in_operation(row, index),
        None => false,
    }
}
