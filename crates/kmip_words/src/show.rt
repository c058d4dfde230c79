//! The line of an answer, in a style.
ghost use Rattle.std.specs.Prelude.{◌≡◌, ◌≢◌, ◌++◌, codes, cond, IfOk, OnOk};
ghost use Rattle.kmip_shape.specs.Shown.{shown_in_style, text_in_style};
ghost use Rattle.kmip_shape.specs.declared.style.Style.TheVariants.{Bare, Json};
ghost use Rattle.kmip_words.specs.Exchange.{pair_in_style, done_in_style, error_name, error_line};
ghost use Rattle.kmip_words.specs.Exchange.{value_line, loses_link, Shows};
ghost use Rattle.kmip_words.specs.declared.ending.Ending.TheVariants as endings;

use crate::ending::Ending;
use kmip_client::Error;
use kmip_shape::{ShowItem, Style};
use kmip_wire::{OutOfMemory, Text};
use std::alloc::Global;

/// The name of an error's variant.
fn error_name(error: &Error) -> &'static str
    ensures { result.now ≡ error_name error.now }
{
    match error {
        Error::ConfigurationError(_) => "ConfigurationError",
        Error::SerializeError(_) => "SerializeError",
        Error::RequestWriteError(_) => "RequestWriteError",
        Error::ResponseReadError(_) => "ResponseReadError",
        Error::DeserializeError(_) => "DeserializeError",
        Error::ServerError(_) => "ServerError",
        Error::InternalError(_) => "InternalError",
        Error::ItemNotFound(_) => "ItemNotFound",
        Error::Unknown(_) => "Unknown",
        Error::OutOfMemory => "OutOfMemory",
    }
}

/// Adds a text in a style, with its quotes.
fn push_text(alloc: Global, style: Style, text: &Text, line: &mut Text) -> Result<(), OutOfMemory>
    ensures { OnOk result (line.new ≡ line.old ++ text_in_style text.now style) }
{
    match style {
        Style::Bare => text.show(alloc, line),
        Style::Json => text.show_json(alloc, line),
    }
}

/// Adds a text as a JSON string.
fn push_string(alloc: Global, text: &str, line: &mut Text) -> Result<(), OutOfMemory>
    ensures { OnOk result (line.new ≡ line.old ++ text_in_style text.now Json) }
{
    let text = Text::of(alloc, text)?;
    push_text(alloc, Style::Json, &text, line)
}

/// Adds `- ` and the error as a line.
#[tactic(auto, using(std::proofs::lemmas::List::append_assoc))]
fn push_bare_error(error: &Error, line: &mut Text) -> Result<(), OutOfMemory>
    ensures { OnOk result (line.new ≡ line.old ++ error_line error.now Bare) }
{
    line.push_str("- ")?;
    line.push_str(error.kind())?;
    line.push_str(error.text())?;
    line.push_str("\n")
}

/// Adds the error as a line of JSON.
#[tactic(auto, using(std::proofs::lemmas::List::append_assoc))]
pub fn push_json_error(alloc: Global, error: &Error, line: &mut Text) -> Result<(), OutOfMemory>
    ensures { OnOk result (line.new ≡ line.old ++ error_line error.now Json) }
{
    line.push_str("{\"error\":\"")?;
    line.push_str(error_name(error))?;
    line.push_str("\",\"text\":")?;
    push_string(alloc, error.text(), line)?;
    line.push_str("}\n")
}

/// Adds the error as a line, and returns how the call ended. The error `OutOfMemory` is not added,
/// but returned.
pub fn show_error(
    alloc: Global,
    style: Style,
    error: &Error,
    line: &mut Text,
) -> Result<Ending, OutOfMemory>
    ensures shown { OnOk result (line.new ≡ line.old ++ error_line error.now style) }
    ensures ending { IfOk result
        (λ ending. ending ≡ cond (loses_link error.now) endings.Lost endings.Refused) }
    ensures memory { OnOk result (error.now ≢ Error.OutOfMemory) }
{
    if matches!(error, Error::OutOfMemory) {
        return Err(OutOfMemory);
    }
    match style {
        Style::Bare => push_bare_error(error, line)?,
        Style::Json => push_json_error(alloc, error, line)?,
    }
    Ok(Ending::of_error(error))
}

/// Adds `= ` and a payload as a line.
#[tactic(auto, using(std::proofs::lemmas::List::append_assoc))]
fn push_bare_payload<P: ShowItem>(
    alloc: Global,
    payload: &P,
    line: &mut Text,
) -> Result<(), OutOfMemory>
    ensures { OnOk result
        (line.new ≡ line.old ++ value_line (shown_in_style P.shape (P.val payload.now) Bare) Bare) }
{
    line.push_str("= ")?;
    payload.show(alloc, line)?;
    line.push_str("\n")
}

/// Adds a payload as a line of JSON.
#[tactic(auto, using(std::proofs::lemmas::List::append_assoc))]
fn push_json_payload<P: ShowItem>(
    alloc: Global,
    payload: &P,
    line: &mut Text,
) -> Result<(), OutOfMemory>
    ensures { OnOk result
        (line.new ≡ line.old ++ value_line (shown_in_style P.shape (P.val payload.now) Json) Json) }
{
    line.push_str("{\"answer\":")?;
    payload.show_json(alloc, line)?;
    line.push_str("}\n")
}

/// Adds a payload as a line.
pub fn push_payload<P: ShowItem>(
    alloc: Global,
    style: Style,
    payload: &P,
    line: &mut Text,
) -> Result<(), OutOfMemory>
    ensures { OnOk result
        (line.new ≡ line.old ++ value_line (shown_in_style P.shape (P.val payload.now) style) style) }
{
    match style {
        Style::Bare => push_bare_payload(alloc, payload, line),
        Style::Json => push_json_payload(alloc, payload, line),
    }
}

/// The line of a call that returns nothing but that it was done.
pub fn done_line(style: Style) -> &'static str
    ensures { result.now ≡ value_line (done_in_style style) style }
{
    match style {
        Style::Bare => "= ()\n",
        Style::Json => "{\"answer\":{}}\n",
    }
}

/// Adds that the call was done, or the error, as a line, and returns how the call ended.
pub fn show_done(
    alloc: Global,
    style: Style,
    answer: Result<(), Error>,
    line: &mut Text,
) -> Result<Ending, OutOfMemory>
    ensures { IfOk result
        (λ ending. Shows (λ done. done_in_style style) style answer ending line.old line.new) }
{
    match answer {
        Ok(()) => {
            line.push_str(done_line(style))?;
            Ok(Ending::Answered)
        }
        Err(error) => show_error(alloc, style, &error, line),
    }
}

/// Adds two identifiers as a line, in round brackets.
#[tactic(auto, using(std::proofs::lemmas::List::append_assoc))]
fn push_bare_pair(
    alloc: Global,
    first: &Text,
    second: &Text,
    line: &mut Text,
) -> Result<(), OutOfMemory>
    ensures { OnOk result
        (line.new ≡ line.old ++ value_line (pair_in_style first.now second.now Bare) Bare) }
{
    line.push_str("= (")?;
    push_text(alloc, Style::Bare, first, line)?;
    line.push_str(",")?;
    push_text(alloc, Style::Bare, second, line)?;
    line.push_str(")\n")
}

/// Adds the identifiers of a private and a public key as a line of JSON.
#[tactic(auto, using(std::proofs::lemmas::List::append_assoc))]
fn push_json_pair(
    alloc: Global,
    first: &Text,
    second: &Text,
    line: &mut Text,
) -> Result<(), OutOfMemory>
    ensures { OnOk result
        (line.new ≡ line.old ++ value_line (pair_in_style first.now second.now Json) Json) }
{
    line.push_str("{\"answer\":")?;
    line.push_str("{\"private_key\":")?;
    push_text(alloc, Style::Json, first, line)?;
    line.push_str(",\"public_key\":")?;
    push_text(alloc, Style::Json, second, line)?;
    line.push_str("}")?;
    line.push_str("}\n")
}

/// Adds two identifiers as a line.
pub fn push_pair(
    alloc: Global,
    style: Style,
    first: &Text,
    second: &Text,
    line: &mut Text,
) -> Result<(), OutOfMemory>
    ensures { OnOk result
        (line.new ≡ line.old ++ value_line (pair_in_style first.now second.now style) style) }
{
    match style {
        Style::Bare => push_bare_pair(alloc, first, second, line),
        Style::Json => push_json_pair(alloc, first, second, line),
    }
}
