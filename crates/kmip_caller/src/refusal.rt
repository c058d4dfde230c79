//! Why no call is made, as a line of JSON.
ghost use Rattle.std.specs.Prelude.{◌≡◌, ◌++◌, ◌⊎◌, ℕ, List, codes, option_map, IfOk, IsTrue};
ghost use Rattle.kmip_words.specs.Streams.{WrotePart};
ghost use Rattle.kmip_link.specs.State.{FaultCountRose};
ghost use Rattle.kmip_caller.specs.Refusal.{grammar_line};
ghost use Rattle.kmip_caller.specs.Refusal.{IsWrongRow, IsNoRow, IsUntyped};
ghost use Rattle.kmip_caller.specs.Refusal.{IsNotRead, IsWrongOperation, IsWrongTree};
ghost use Rattle.kmip_caller.specs.Refusal.{IsWhyNot, IsRefusalWritten, IsRefusal};
ghost use Rattle.std.specs.Option.{is_none};
ghost use Rattle.kmip_caller.specs.TableWords.{with_id, is_of_table};
ghost use Rattle.kmip_caller.specs.TreeWords.{tree_text, item_id};
ghost use Rattle.kmip_caller.specs.declared.command.Order.{Order as TheOrder};
ghost use Rattle.kmip_words.specs.JsonLines.{IsGrammarLine};

use crate::command::Order;
use crate::program::Status;
use crate::words::{TreeWords, is_of_table, item_id, tree_words, with_id};
use kmip_link::{LinkError, Sink};
use kmip_operation_words::why_no_call;
use kmip_operations::{message_refusal, operation_named, payload_refusal, version_written};
use kmip_shape::ShowItem;
use kmip_wire::{OutOfMemory, Text};
use kmip_words::{refusal_of, write_out};
use std::alloc::Global;

/// What is said where `limit=N` has no number.
pub const WRONG_LIMIT: &str = "limit= takes a number from 0 to 4294967295";

/// What is said where the file of `record=FILE` cannot be opened.
pub const NO_FILE: &str = "the file of record= cannot be opened";

/// What is said where a standard stream is closed.
pub const CLOSED_STREAM: &str = "standard input, output or error is closed";

/// What is said where a word, or the password of the environment, is not UTF-8.
pub const NOT_UTF8: &str = "a word or KMIP_PASSWORD is not UTF-8";

/// What is said where `item-id=HEX` has no Unique Batch Item ID.
const WRONG_ID: &str = "item-id= takes an even number of hex digits, at least two";

/// Why no call of the table is made: the Unique Batch Item ID in front is none, or its words are
/// wrong.
fn wrong_row(alloc: Global, hex: Option<&str>, words: &[Text]) -> Result<Text, OutOfMemory>
    ensures { IfOk result (λ text. IsWrongRow
        (is_none (item_id (option_map (λ text. text.now) hex.entry))) words.now text) }
{
    if item_id(alloc, hex)?.is_none() {
        return Ok(Text::of(alloc, WRONG_ID)?);
    }
    Ok(why_no_call(alloc, words)?)
}

/// Why no call of the table is made of these words.
fn no_row(alloc: Global, words: &[Text]) -> Result<Text, OutOfMemory>
    ensures { IfOk result (λ text. IsNoRow (with_id words.now) text) }
{
    let (hex, words) = with_id(words);
    Ok(wrong_row(alloc, hex, words)?)
}

/// Why no call is made of words with no JSON.
fn untyped(alloc: Global, words: &[Text]) -> Result<Text, OutOfMemory>
    ensures { IfOk result (λ text. IsUntyped (is_of_table words.now) words.now text) }
{
    if is_of_table(words) {
        Ok(no_row(alloc, words)?)
    } else {
        Ok(refusal_of(alloc, words)?)
    }
}

/// A text and another after it.
pub fn joined(alloc: Global, front: &str, rest: &str) -> Result<Text, OutOfMemory>
    ensures { IfOk result (λ text. text ≡ front.now ++ rest.now) }
{
    let mut text = Text::of(alloc, front)?;
    text.push_str(rest)?;
    Ok(text)
}

/// What is said of a payload or a message that is none: what it is, and why it is none.
fn not_read(alloc: Global, what: &str, why: Option<Text>) -> Result<Text, OutOfMemory>
    ensures { IfOk result (λ text. IsNotRead what.now text) }
{
    match why {
        Some(why) => Ok(joined(alloc, what, why.as_str())?),
        None => Ok(joined(alloc, what, "it is none")?),
    }
}

/// Which of the words of a call of an operation is not what it should be.
fn wrong_operation(
    alloc: Global,
    name: &str,
    version: &str,
    hex: Option<&str>,
    payload: &str,
) -> Result<Text, OutOfMemory>
    ensures { IfOk result (λ text. IsWrongOperation name.now version.now
        (option_map (λ text. text.now) hex.entry) text) }
{
    if operation_named(name).is_none() {
        return Ok(Text::of(alloc, "KMIP 1.2 has no operation of this name")?);
    }
    if version_written(version).is_none() {
        return Ok(Text::of(alloc, "version= takes 1.0, 1.1 or 1.2")?);
    }
    if item_id(alloc, hex)?.is_none() {
        return Ok(Text::of(alloc, WRONG_ID)?);
    }
    let why = payload_refusal(alloc, payload)?;
    Ok(not_read(alloc, "the payload: ", why)?)
}

/// Why a text is no message.
fn wrong_message(alloc: Global, message: &str) -> Result<Text, OutOfMemory>
    ensures { IfOk result (λ text. IsNotRead (codes "the message: ") text) }
{
    let why = message_refusal(alloc, message)?;
    Ok(not_read(alloc, "the message: ", why)?)
}

/// Which of the words of a call whose payload or message is in JSON is not what it should be.
fn wrong_tree(alloc: Global, words: TreeWords<'_>) -> Result<Text, OutOfMemory>
    ensures { IfOk result (λ text. IsWrongTree (tree_text words.entry) text) }
{
    match words {
        TreeWords::Operation {
            name,
            version,
            hex,
            payload,
        } => Ok(wrong_operation(alloc, name, version, hex, payload)?),
        TreeWords::Message { message } => Ok(wrong_message(alloc, message)?),
    }
}

/// Why nothing that an order asks for is made.
fn why_not(alloc: Global, order: &Order) -> Result<Text, OutOfMemory>
    ensures { IfOk result (λ text. IsWhyNot order.now text) }
{
    let words = order.words.as_slice();
    match tree_words(words) {
        Some(tree) => Ok(wrong_tree(alloc, tree)?),
        None => Ok(untyped(alloc, words)?),
    }
}

/// The line of JSON of a `GrammarError` with this text.
#[tactic(auto, using(std::proofs::lemmas::List::append_assoc))]
fn grammar_line(alloc: Global, text: &str) -> Result<Text, OutOfMemory>
    ensures { IfOk result (λ line. line ≡ grammar_line text.now) }
{
    let text = Text::of(alloc, text)?;
    let mut line = Text::of(alloc, "{\"error\":\"GrammarError\",\"text\":")?;
    text.show_json(alloc, &mut line)?;
    line.push_str("}\n")?;
    Ok(line)
}

/// Writes a `GrammarError` with this text as a line of JSON, and returns `NoCall`, or `OutOfMemory`
/// where memory ran out. Where the sink failed, a part of the line was written.
pub fn refuse<K: Sink>(alloc: Global, text: &str, errors: &mut K) -> Status
    ensures status { (result ≡ Status.NoCall) ⊎ (result ≡ Status.OutOfMemory) }
    ensures line { result ≡ Status.NoCall → IsTrue (K.state errors.old).tells →
        (FaultCountRose (K.state errors.old).faults (K.state errors.new).faults → ⊥) →
        (K.state errors.new).sent ≡ (K.state errors.old).sent ++ grammar_line text.now }
    ensures part { IsTrue (K.state errors.old).tells →
        WrotePart (K.state errors.old) (K.state errors.new) (grammar_line text.now) }
{
    let Ok(line) = grammar_line(alloc, text) else {
        return Status::OutOfMemory;
    };
    match write_out(errors, line.as_str().as_bytes()) {
        Ok(()) | Err(LinkError::Fault) => Status::NoCall,
        Err(LinkError::OutOfMemory) => Status::OutOfMemory,
    }
}

/// Writes why nothing that an order asks for is made, in the same way.
pub fn refuse_words<K: Sink>(alloc: Global, order: &Order, errors: &mut K) -> Status
    ensures status { (result ≡ Status.NoCall) ⊎ (result ≡ Status.OutOfMemory) }
    ensures written { IsRefusalWritten order.now (result ≡ Status.NoCall)
        (K.state errors.old) (K.state errors.new) }
{
    match why_not(alloc, order) {
        Ok(text) => refuse(alloc, text.as_str(), errors),
        Err(OutOfMemory) => Status::OutOfMemory,
    }
}

/// The line that says why no call is made is a text of the grammar of RFC 8259 and a line feed; it
/// is written as a text, so in UTF-8.
pub fn refusals_are_json()
    ensures { (order : TheOrder) → (line : List ℕ) → IsRefusal order line → IsGrammarLine line }
{}
