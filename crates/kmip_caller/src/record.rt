//! The line that records a call and its response, as `kmip_run replay` reads it.
ghost use Rattle.std.specs.Prelude.{◌≡◌, ◌∷◌, ◌++◌, ℕ, [], List as TheList, false, Some, None};
ghost use Rattle.std.specs.Prelude.{IfOk, OnOk, IsErrOf, IsTrue};
ghost use Rattle.hex.specs.Hex.{IsBytes, encode_upper};
ghost use Rattle.kmip_link.specs.State.{FaultCountRose};
ghost use Rattle.kmip_words.specs.Calls.{call_in, typed_call};
ghost use Rattle.kmip_words.specs.Exchange.{request_asked, or_empty};
ghost use Rattle.kmip_words.specs.Streams.{WrotePart};
ghost use Rattle.kmip_words.specs.declared.call.Call.{Call as TheCall};
ghost use Rattle.kmip_caller.specs.Record.{with_spaces, response_word, record_line, has_byte};
ghost use Rattle.kmip_caller.specs.Record.{is_script_word, are_script_words, is_recordable};
ghost use Rattle.kmip_caller.specs.Record.{call_read, raw_words, sends, is_raw, bytes_words};
ghost use Rattle.kmip_caller.specs.Record.{is_unscripted, is_as_typed};
ghost use Rattle.kmip_caller.specs.Record.{recorded_words, record_text, ReadsBack};

use kmip_link::{LinkError, Sink};
use kmip_wire::{Blob, List, OutOfMemory, Text, clone_items};
use kmip_words::{Call, Recorded, Settings, call_of, request_of, typed_call, write_out};
use std::alloc::Global;

/// Adds the words, each with a space after it.
fn push_spaced(words: &[Text], line: &mut Text) -> Result<(), OutOfMemory>
    ensures { OnOk result (line.new ≡ line.old ++ with_spaces words.now) }
{
    for word in words {
        line.push_str(word.as_str())?;
        line.push_str(" ")?;
    }
    Ok(())
}

/// Adds a response as a word: `-` where it is empty, or else upper-case hex.
pub fn push_response(alloc: Global, response: &[u8], line: &mut Text) -> Result<(), OutOfMemory>
    ensures { OnOk result (line.new ≡ line.old ++ response_word response.now) }
{
    if response.is_empty() {
        return line.push_str("-");
    }
    let text = hex::encode_upper(alloc, response)?;
    line.push_str(text.as_str())
}

/// The line of a call, by its words, and its response, with no line feed.
fn record_line(alloc: Global, words: &[Text], response: &[u8]) -> Result<Text, OutOfMemory>
    ensures { IfOk result (λ line. line ≡ record_line words.now response.now) }
{
    let mut line = Text::new(alloc);
    push_spaced(words, &mut line)?;
    push_response(alloc, response, &mut line)?;
    Ok(line)
}

/// The same with a line feed.
fn record_text(alloc: Global, words: &[Text], response: &[u8]) -> Result<Text, OutOfMemory>
    ensures { IfOk result (λ line. line ≡ record_text words.now response.now) }
{
    let mut line = record_line(alloc, words, response)?;
    line.push_str("\n")?;
    Ok(line)
}

/// Whether a byte is in a text.
fn has_byte(byte: u8, text: &str) -> bool
    ensures { result ≡ has_byte byte text.now }
{
    text.as_bytes().contains(&byte)
}

/// Whether a script may hold a word: it is not empty, and has no space and no line feed.
fn is_script_word(word: &str) -> bool
    ensures { result ≡ is_script_word word.now }
{
    !word.is_empty() && !has_byte(b' ', word) && !has_byte(b'\n', word)
}

/// Whether a script may hold each of these words.
fn are_script_words(words: &[Text]) -> bool
    ensures { result ≡ are_script_words words.now }
{
    match words {
        [] => true,
        [first, rest @ ..] => is_script_word(first.as_str()) && are_script_words(rest),
    }
}

/// The call that a script reads from these words, with an empty response after them; `None` where it
/// reads none, or may not hold one of the words.
fn call_read(alloc: Global, words: &[Text]) -> Result<Option<Recorded>, OutOfMemory>
    ensures { IfOk result (λ call. call ≡ call_read words.now) }
{
    if !are_script_words(words) {
        return Ok(None);
    }
    let line = record_line(alloc, words, &[])?;
    call_of(alloc, line.as_str().as_bytes())
}

/// Whether a script may hold these words as a call: no word is empty or has a space or a line feed,
/// and the call is one of a script.
fn is_recordable(alloc: Global, words: &[Text]) -> Result<bool, OutOfMemory>
    ensures { IfOk result (λ recordable. recordable ≡ is_recordable words.now) }
{
    match call_read(alloc, words)? {
        Some(_) => Ok(true),
        None => Ok(false),
    }
}

/// The bytes of a request; none where there is none.
fn or_empty(request: &Option<Blob>) -> &[u8]
    ensures { result.now ≡ or_empty request.now }
{
    match request {
        Some(bytes) => bytes.as_slice(),
        None => &[],
    }
}

/// A word, and the bytes of a request in upper-case hex.
fn hex_words(alloc: Global, word: &str, request: &[u8]) -> Result<List<Text>, OutOfMemory>
    ensures { IfOk result (λ words. words ≡ word.now ∷ encode_upper request.now ∷ []) }
{
    let text = hex::encode_upper(alloc, request)?;
    let mut words = List::new(alloc);
    words.push(Text::of(alloc, word)?)?;
    words.push(Text::of(alloc, text.as_str())?)?;
    Ok(words)
}

/// Whether a call, where there is one, sends just these bytes where it has no credential.
fn sends(alloc: Global, request: &[u8], call: &Option<Recorded>) -> Result<bool, OutOfMemory>
    ensures { IfOk result (λ it. it ≡ sends request.now call.now) }
{
    match call {
        Some(recorded) => {
            let settings = Settings::new(None, None, None);
            let sent = request_of(alloc, &settings, &recorded.call)?;
            Ok(or_empty(&sent) == request)
        }
        None => Ok(false),
    }
}

/// The words of a request's bytes: `raw` with them, where a script then sends just these bytes, and
/// else `message`, which no script has.
fn bytes_words(alloc: Global, request: &[u8]) -> Result<List<Text>, OutOfMemory>
    ensures { IfOk result (λ words. words ≡ bytes_words request.now) }
{
    let words = hex_words(alloc, "raw", request)?;
    let call = call_read(alloc, words.as_slice())?;
    if sends(alloc, request, &call)? {
        Ok(words)
    } else {
        hex_words(alloc, "message", request)
    }
}

/// Whether a script has no words for a call.
fn is_unscripted(call: &Call) -> bool
    ensures { result ≡ is_unscripted call.now }
{
    matches!(call, Call::Request { .. })
}

/// Whether a typed call is recorded by the words that were typed: a script has words for it, and may
/// hold these.
fn is_as_typed(alloc: Global, call: &Option<Call>, words: &[Text]) -> Result<bool, OutOfMemory>
    ensures { IfOk result (λ it. it ≡ is_as_typed call.now words.now) }
{
    let Some(call) = call else {
        return Ok(false);
    };
    if is_unscripted(call) {
        return Ok(false);
    }
    is_recordable(alloc, words)
}

/// The words that are recorded of a call of these words: those that were typed, where a script may
/// hold them as a typed call, and else those of the bytes of its request without a credential, where
/// there is one.
pub fn recorded_words(
    alloc: Global,
    words: &[Text],
    request: &Option<Blob>,
) -> Result<Option<List<Text>>, OutOfMemory>
    ensures { IfOk result (λ recorded. recorded ≡ recorded_words words.now request.now) }
{
    let call = typed_call(alloc, words)?;
    if is_as_typed(alloc, &call, words)? {
        return Ok(Some(clone_items(words, alloc)?));
    }
    match request {
        Some(request) => Ok(Some(bytes_words(alloc, request.as_slice())?)),
        None => Ok(None),
    }
}

/// Writes the line of a call and its response.
pub fn write_record<F: Sink>(
    alloc: Global,
    words: &[Text],
    response: &[u8],
    kept: &mut F,
) -> Result<(), LinkError>
    ensures ok { OnOk result (IsTrue (F.state kept.old).tells →
        (F.state kept.new).sent ≡ (F.state kept.old).sent
        ++ record_text words.now response.now) }
    ensures part { IsTrue (F.state kept.old).tells →
        WrotePart (F.state kept.old) (F.state kept.new)
        (record_text words.now response.now) }
    ensures cause { IsErrOf result LinkError.Fault →
        FaultCountRose (F.state kept.old).faults (F.state kept.new).faults }
{
    let Ok(line) = record_text(alloc, words, response) else {
        return Err(LinkError::OutOfMemory);
    };
    write_out(kept, line.as_str().as_bytes())
}

/// A record of words that a script may hold, with any response, is one line, from which a script
/// reads the call of these words and the response; words that are recorded as they were typed have
/// the call that was typed. And one of a request that `raw` reads is such a line, whose call sends
/// the bytes of the request, where it has no credential.
pub fn records_read_back()
    ensures back { (words : TheList (TheList ℕ)) (response : TheList ℕ) →
        IsTrue (is_recordable words) → IsBytes response → ReadsBack words response }
    ensures typed { (words : TheList (TheList ℕ)) (call : TheCall) →
        typed_call words ≡ Some call → is_unscripted call ≡ false → call_in words ≡ Some call }
    ensures raw { (request response : TheList ℕ) → IsTrue (is_raw request) → IsBytes response →
        (back : ReadsBack (raw_words request) response)
        × (or_empty (request_asked back.call None).message ≡ request) }
{}
