//! Why a text is no payload and no message, for a person.
ghost use Rattle.std.specs.Prelude.{IfOk, MatchOption};
ghost use Rattle.kmip_wire.specs.Tree.{Tree as TheTree};
ghost use Rattle.kmip_operations.specs.Calls.{IsPayloadText, IsMessageText};

use crate::call::{is_structure, payload_of};
use crate::message::message_of;
use kmip_encodings::push_refusal;
use kmip_tags::tags::{REQUEST_MESSAGE, REQUEST_PAYLOAD};
use kmip_wire::{OutOfMemory, Text};
use kmip_xml::{from_text, text_refusal_of};
use std::alloc::Global;

/// Why a text is not the JSON or XML of a structure with the tag: where it is not read, what was
/// expected there and what stands there; `other` where it is an item with another tag or type, and `within`
/// where it is such a structure.
fn why_not(
    alloc: Global,
    text: &str,
    tag: u32,
    other: &str,
    within: &str,
) -> Result<Text, OutOfMemory> {
    match from_text(alloc, text) {
        Ok(tree) => Text::of(
            alloc,
            if is_structure(&tree, tag) {
                within
            } else {
                other
            },
        ),
        Err(error) => {
            let mut why = Text::new(alloc);
            push_refusal(&mut why, &text_refusal_of(alloc, text, &error)?)?;
            Ok(why)
        }
    }
}

fn why_no_payload(alloc: Global, text: &str) -> Result<Text, OutOfMemory> {
    let other = "the outermost item is no Structure with the tag RequestPayload";
    let within = "an identifier or an AsynchronousCorrelationValue in it is empty";
    why_not(alloc, text, REQUEST_PAYLOAD, other, within)
}

fn why_no_message(alloc: Global, text: &str) -> Result<Text, OutOfMemory> {
    let other = "the outermost item is no Structure with the tag RequestMessage";
    why_not(alloc, text, REQUEST_MESSAGE, other, other)
}

/// Why a text is not the JSON or XML of a RequestPayload, or has an empty identifier; `None`
/// exactly where `operation_call` takes it.
pub fn payload_refusal(alloc: Global, text: &str) -> Result<Option<Text>, OutOfMemory>
    ensures { IfOk result (λ why. MatchOption why ((t : TheTree) × IsPayloadText text.now t)
        (λ _. (t : TheTree) → IsPayloadText text.now t → ⊥)) }
{
    match payload_of(alloc, text)? {
        Some(_payload) => Ok(None),
        None => Ok(Some(why_no_payload(alloc, text)?)),
    }
}

/// Why a text is not the JSON or XML of a RequestMessage; `None` exactly where `message_of` takes it.
pub fn message_refusal(alloc: Global, text: &str) -> Result<Option<Text>, OutOfMemory>
    ensures { IfOk result (λ why. MatchOption why ((t : TheTree) × IsMessageText text.now t)
        (λ _. (t : TheTree) → IsMessageText text.now t → ⊥)) }
{
    match message_of(alloc, text)? {
        Some(_message) => Ok(None),
        None => Ok(Some(why_no_message(alloc, text)?)),
    }
}
