//! What is shown of a response to which the client returns an error.
ghost use Rattle.std.specs.Prelude.{◌≡◌, ◌++◌, codes, Some, option_map, OnOk, IfOk};
ghost use Rattle.std.specs.Option.{option_and_then};
ghost use Rattle.std.specs.Fmt.{decimal};
ghost use Rattle.kmip_wire.specs.Items.{item_tree};
ghost use Rattle.kmip_wire.specs.Parts.{enumeration_in};
ghost use Rattle.kmip_shape.specs.Shown.{text_in_style};
ghost use Rattle.kmip_shape.specs.declared.style.Style.TheVariants.{Json};
ghost use Rattle.kmip_diag.specs.Diagnostic.{diagnostic};
ghost use Rattle.kmip_words.specs.Refusal.{item_with, failed_item, reason_of, message_of};
ghost use Rattle.kmip_words.specs.Refusal.{reason_name, reason_member, message_member};
ghost use Rattle.kmip_words.specs.Refusal.{failure_members, refusal_members};
ghost use Rattle.kmip_words.specs.Refusal.{internal_error_line, refused_line, failure_line};

use crate::show::push_json_error;
use itoa::Buffer;
use kmip_client::Error;
use kmip_diag::PrettyPrinter;
use kmip_enums::ResultReason;
use kmip_shape::{Enumeration, ShowItem};
use kmip_tags::tags::{BATCH_ITEM, RESULT_MESSAGE, RESULT_REASON, RESULT_STATUS};
use kmip_wire::{ItemRef, OutOfMemory, Tag, Text};
use std::alloc::Global;

/// The status of an operation that failed: KMIP 1.0, 9.1.3.2.27.
const OPERATION_FAILED: u32 = 1;

/// The first item with this tag in a structure.
fn item_with<'a>(parent: ItemRef<'a>, tag: u32) -> Option<ItemRef<'a>>
    ensures { option_map item_tree result ≡ item_with tag (item_tree parent.entry) }
{
    parent.children()?.find(|item| item.tag().number() == tag)
}

/// The first batch item of a response, where it reports failure.
fn failed_item(response: &[u8]) -> Option<ItemRef<'_>>
    ensures { option_map item_tree result ≡ failed_item response.now }
{
    let item = item_with(ItemRef::root(response)?, BATCH_ITEM)?;
    let status = item_with(item, RESULT_STATUS)?.enumeration()?;
    if status == OPERATION_FAILED {
        Some(item)
    } else {
        None
    }
}

/// The number of the server's reason, where a response reports failure.
fn reason_of(response: &[u8]) -> Option<u32>
    ensures { result ≡ reason_of response.now }
{
    item_with(failed_item(response)?, RESULT_REASON)?.enumeration()
}

/// The server's text, where a response reports failure.
fn message_of(response: &[u8]) -> Option<&str>
    ensures { option_map (λ text. text.now) result ≡ message_of response.now }
{
    item_with(failed_item(response)?, RESULT_MESSAGE)?.text()
}

/// Adds these characters, and then a text as a JSON string.
#[tactic(auto, using(std::proofs::lemmas::List::append_assoc))]
fn push_string_after(
    alloc: Global,
    before: &str,
    text: &str,
    line: &mut Text,
) -> Result<(), OutOfMemory>
    ensures { OnOk result (line.new ≡ line.old ++ (before.now ++ text_in_style text.now Json)) }
{
    line.push_str(before)?;
    Text::of(alloc, text)?.show_json(alloc, line)
}

/// The skeleton of a response: its tags, types, nesting and the numbers of its enumerations.
fn skeleton_of(alloc: Global, response: &[u8]) -> Result<Text, OutOfMemory>
    ensures { IfOk result (λ text. text ≡ diagnostic (Some 0x4200) response.now) }
{
    let mut printer = PrettyPrinter::new();
    printer.with_tag_prefix(0x4200);
    printer.to_diag_string(alloc, response)
}

/// Adds the name of a reason as a member before another, where it is one of the table.
#[tactic(auto, using(std::proofs::lemmas::List::append_assoc))]
fn push_reason_name(
    alloc: Global,
    reason: Option<ResultReason>,
    line: &mut Text,
) -> Result<(), OutOfMemory>
    ensures { OnOk result (line.new ≡ line.old ++ reason_name reason) }
{
    match reason {
        Some(reason) => {
            push_string_after(alloc, "\"name\":", reason.name(), line)?;
            line.push_str(",")
        }
        None => Ok(()),
    }
}

/// Adds the front of the server's reason as a member of an object, up to its number.
fn push_reason_front(
    alloc: Global,
    reason: Option<ResultReason>,
    line: &mut Text,
) -> Result<(), OutOfMemory>
    ensures { OnOk result (line.new ≡ line.old ++ (codes ",\"reason\":{" ++ reason_name reason)) }
{
    line.push_str(",\"reason\":{")?;
    push_reason_name(alloc, reason, line)
}

/// Adds the number of a reason, and the end of its object.
#[tactic(auto, using(std::proofs::lemmas::List::append_assoc))]
fn push_number(number: u32, line: &mut Text) -> Result<(), OutOfMemory>
    ensures { OnOk result (line.new ≡
        line.old ++ (codes "\"number\":" ++ (decimal number ++ codes "}"))) }
{
    line.push_str("\"number\":")?;
    line.push_str(Buffer::new().format(number))?;
    line.push_str("}")
}

/// Adds the server's reason as a member of an object, where there is one.
fn push_reason(alloc: Global, reason: Option<u32>, line: &mut Text) -> Result<(), OutOfMemory>
    ensures { OnOk result (line.new ≡ line.old ++ reason_member reason) }
{
    match reason {
        Some(reason) => {
            push_reason_front(alloc, ResultReason::from_number(reason), line)?;
            push_number(reason, line)
        }
        None => Ok(()),
    }
}

/// Adds the server's text as a member of an object, where there is one.
fn push_message(alloc: Global, message: Option<&str>, line: &mut Text) -> Result<(), OutOfMemory>
    ensures { OnOk result
        (line.new ≡ line.old ++ message_member (option_map (λ text. text.now) message.entry)) }
{
    match message {
        Some(message) => push_string_after(alloc, ",\"message\":", message, line),
        None => Ok(()),
    }
}

/// Adds what the server says of a failure as members of an object of JSON, after others: its reason,
/// by name and number, and its text.
#[tactic(auto, using(std::proofs::lemmas::List::append_assoc))]
fn push_failure_members(alloc: Global, response: &[u8], line: &mut Text) -> Result<(), OutOfMemory>
    ensures { OnOk result (line.new ≡ line.old ++ failure_members response.now) }
{
    push_reason(alloc, reason_of(response), line)?;
    push_message(alloc, message_of(response), line)
}

/// Adds what a response says as members of an object of JSON, after others: the skeleton of its
/// bytes, and where it reports failure what the server says of it.
#[tactic(auto, using(std::proofs::lemmas::List::append_assoc))]
fn push_refusal(alloc: Global, response: &[u8], line: &mut Text) -> Result<(), OutOfMemory>
    ensures { OnOk result (line.new ≡ line.old ++ refusal_members response.now) }
{
    let skeleton = skeleton_of(alloc, response)?;
    push_string_after(alloc, ",\"response\":", skeleton.as_str(), line)?;
    push_failure_members(alloc, response, line)
}

/// Adds the line of JSON of an `InternalError` with this text, and shows the response in it.
#[tactic(auto, using(std::proofs::lemmas::List::append_assoc))]
pub fn push_internal_error(
    alloc: Global,
    text: &str,
    response: &[u8],
    line: &mut Text,
) -> Result<(), OutOfMemory>
    ensures { OnOk result (line.new ≡ line.old ++ internal_error_line text.now response.now) }
{
    push_string_after(alloc, "{\"error\":\"InternalError\",\"text\":", text, line)?;
    push_refusal(alloc, response, line)?;
    line.push_str("}\n")
}

/// Adds the line of JSON of an error with this front and text, with what the server says of the
/// failure.
fn push_refused(
    alloc: Global,
    front: &str,
    text: &str,
    response: &[u8],
    line: &mut Text,
) -> Result<(), OutOfMemory>
    ensures { OnOk result (line.new ≡ line.old ++ refused_line front.now text.now response.now) }
{
    push_string_after(alloc, front, text, line)?;
    push_failure_members(alloc, response, line)?;
    line.push_str("}\n")
}

/// Adds the line of JSON of an error, where this is the response that was read.
pub fn push_failure(
    alloc: Global,
    error: &Error,
    response: &[u8],
    line: &mut Text,
) -> Result<(), OutOfMemory>
    ensures { OnOk result (line.new ≡ line.old ++ failure_line error.now response.now) }
{
    match error {
        Error::InternalError(text) => push_internal_error(alloc, text.as_str(), response, line),
        Error::ServerError(text) => {
            let front = "{\"error\":\"ServerError\",\"text\":";
            push_refused(alloc, front, text.as_str(), response, line)
        }
        Error::ItemNotFound(text) => {
            let front = "{\"error\":\"ItemNotFound\",\"text\":";
            push_refused(alloc, front, text.as_str(), response, line)
        }
        Error::ConfigurationError(_)
        | Error::SerializeError(_)
        | Error::RequestWriteError(_)
        | Error::ResponseReadError(_)
        | Error::DeserializeError(_)
        | Error::Unknown(_)
        | Error::OutOfMemory => push_json_error(alloc, error, line),
    }
}
