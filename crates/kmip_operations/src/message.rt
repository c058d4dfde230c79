//! A whole message of the caller's, and the whole response to it.
ghost use Rattle.std.specs.Prelude.{◌≡◌, IfOk, MatchOption};
ghost use Rattle.kmip_wire.specs.Tree.{Tree as TheTree};
ghost use Rattle.kmip_client.specs.WholeMessage.{whole_bytes};
ghost use Rattle.kmip_operations.specs.Calls.{IsMessageText};
ghost use Rattle.kmip_operations.specs.Answers.{message_json_line, message_ending};
ghost use Rattle.kmip_operations.specs.JsonLines.{IsTextLine};

use crate::answer::{TreeAnswer, tree_answer_of};
use crate::call::structure_of;
use kmip_client::{read_whole_message, write_whole_message};
use kmip_plain::PayloadForm;
use kmip_tags::tags::REQUEST_MESSAGE;
use kmip_wire::{Blob, OutOfMemory, Tree};
use kmip_words::{Settings, bytes_if_any};
use std::alloc::Global;

/// The message whose JSON or XML a text is: a structure with the tag `RequestMessage` (KMIP 1.0,
/// 7.1), as kmip_xml's `from_text` reads it, in at most 64 levels. `None` exactly where the text is none.
pub fn message_of(alloc: Global, text: &str) -> Result<Option<Tree>, OutOfMemory>
    ensures { IfOk result (λ message. MatchOption message
        ((t : TheTree) → IsMessageText text.now t → ⊥) (IsMessageText text.now)) }
{
    structure_of(alloc, text, REQUEST_MESSAGE)
}

/// The bytes of a message: they are sent as they stand, with no credential but the message's own.
/// `None` exactly where it has no wire form, as a structure of more than 64 levels has none.
pub fn message_request(alloc: Global, message: &Tree) -> Result<Option<Blob>, OutOfMemory>
    ensures { IfOk result (λ request. request ≡ whole_bytes message.now) }
{
    bytes_if_any(write_whole_message(alloc, message))
}

/// The answer that these bytes are to a message, as a line of JSON, and how the call ended: what
/// `do_message` of a client with these settings returns, once the message was sent, over a link
/// with these bytes to read. It depends on no byte after the first message.
///
/// The line is `{"answer":TREE}` with the whole response, which is checked as TTLV alone: a
/// response in which the server says that it refused is an answer, too. Or it is
/// `{"error":"DeserializeError","text":".."}` with the name of the error's variant and its text.
pub fn message_answer(
    alloc: Global,
    settings: &Settings,
    response: &[u8],
) -> Result<TreeAnswer, OutOfMemory>
    ensures line { IfOk result
        (λ answer. answer.line.items ≡ message_json_line settings.now response.now) }
    ensures ending { IfOk result
        (λ answer. answer.ending ≡ message_ending settings.now response.now) }
    ensures json { IfOk result (λ answer. IsTextLine answer.line.items) }
{
    let reading = read_whole_message(alloc, response, settings.limit());
    tree_answer_of(alloc, PayloadForm::Tree, None, reading, response)
}
