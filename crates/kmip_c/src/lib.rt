//! A KMIP client for C and every language that calls C: it makes the bytes of a request, and checks
//! those of a response.
//!
//! It opens nothing and keeps nothing: the caller has the connection, sends the bytes of
//! `kmip_request`, reads 8 bytes, asks `kmip_contents_len` how many follow, reads them, and passes
//! all to `kmip_answer`. `kmip_value` returns single values of an answer, and `kmip_refusal` why
//! words are no call. A call is given by its words as they are: texts in UTF-8, and data. For an
//! operation by its name with a payload in JSON there are `kmip_operation_request` and
//! `kmip_operation_answer`, and `kmip_operation_refusal` tells why there is no such call. No function
//! has a precondition on its arguments, since nothing checks a caller in C.
#![tactic(auto)]

ghost use Rattle.std.specs.Prelude.{◌≡◌, ◌≢◌, pos};
ghost use Rattle.kmip_calls.specs.Calls.{call_of};
ghost use Rattle.kmip_c.specs.Calls.{id_of, settings_of};
ghost use Rattle.kmip_c.specs.Calls.{IsRequested, IsAnswered, IsExplained, IsValueReported};
ghost use Rattle.kmip_c.specs.Operations.{IsOperationRequested, IsOperationAnswered};
ghost use Rattle.kmip_c.specs.Operations.{form_of, IsOperationRefused};
ghost use Rattle.kmip_exports.specs.Exports.{memory};
ghost use Rattle.kmip_c.specs.Codes.{limit_of, contents_code};

mod answer;
#[cfg(test)]
mod answer_tests;
mod call;
mod operation;
#[cfg(test)]
mod operation_tests;
#[cfg(test)]
mod refusal_tests;
#[cfg(test)]
mod request_tests;
#[cfg(test)]
mod test_words;
#[cfg(test)]
mod value_tests;

use answer::status_of;
use call::{id_of, settings_of};
use kmip_calls::{
    Word, answer_to_words, call_of_words, refusal_of_words, request_of_words, value_in,
};
use kmip_exports::{NO_MEMORY, NOT_A_MESSAGE, copy_out};
use kmip_operations::{PayloadForm, operation_answer, operation_request};
use kmip_wire::{Config, HeadError, OutOfMemory, head};
use kmip_words::Settings;
use operation::{operation_of, operation_refusal};
use std::alloc::Global;
use std::str;

const NOT_OF_THE_GRAMMAR: i64 = -2;

const NO_VALUE: i64 = -3;

const TOO_LONG: i64 = -4;

const NO_FORM: i64 = -6;

/// The status of words that are no call.
const NO_CALL: i32 = 2;

/// Writes the request of a call, its one canonical message, to `into`, and returns how many bytes
/// it has. Where they do not fit, nothing is written.
///
/// `words` are the call's name, its words and its options, as `sign`, an ID and data. `id` is the
/// Unique Batch Item ID of the request of an operation's call (KMIP 1.0, 6.4), none where it is no
/// bytes; that of a typed call has none. With `has_credential` the request carries this user name
/// and password. After each code nothing is written:
///
/// - -2: the words are no call, as `kmip_refusal` explains; or the user name or the password is not
///   UTF-8.
/// - -5: memory ran out.
/// - -6: the request has no wire form.
#[unsafe(no_mangle)]
pub extern "C" fn kmip_request(
    alloc: Global,
    words: &[Word],
    id: &[u8],
    has_credential: bool,
    user: &[u8],
    password: &[u8],
    into: &mut [u8],
) -> i64
    ensures request { result ≢ memory →
        IsRequested (settings_of has_credential user.now password.now)
        (call_of words.now (id_of id.now)) into.old result into.new }
    ensures memory { result ≡ memory → into.new ≡ into.old }
{
    let settings = match settings_of(alloc, has_credential, user, password) {
        Ok(Some(settings)) => settings,
        Ok(None) => return NOT_OF_THE_GRAMMAR,
        Err(OutOfMemory) => return NO_MEMORY,
    };
    let call = match call_of_words(alloc, words, id_of(id)) {
        Ok(Some(call)) => call,
        Ok(None) => return NOT_OF_THE_GRAMMAR,
        Err(OutOfMemory) => return NO_MEMORY,
    };
    match request_of_words(alloc, &settings, &call) {
        Ok(Some(request)) => copy_out(request.as_slice(), into),
        Ok(None) => NO_FORM,
        Err(OutOfMemory) => NO_MEMORY,
    }
}

/// Writes why words are no call to `into`, as a text, and returns how many bytes it has. Where they
/// do not fit, nothing is written.
///
/// The text names the word that is wrong, and says what may stand there, as
/// `sign: hash= is none of MD2, MD4, ..`. It shows the call's name, or a first word that
/// names none, and no word else. After each code nothing is written:
///
/// - -3: the words are a call.
/// - -5: memory ran out.
#[unsafe(no_mangle)]
pub extern "C" fn kmip_refusal(alloc: Global, words: &[Word], into: &mut [u8]) -> i64
    ensures refusal { result ≢ memory → IsExplained words.now into.old result into.new }
    ensures memory { result ≡ memory → into.new ≡ into.old }
{
    match refusal_of_words(alloc, words) {
        Ok(Some(text)) => copy_out(text.as_str().as_bytes(), into),
        Ok(None) => NO_VALUE,
        Err(OutOfMemory) => NO_MEMORY,
    }
}

/// How responses are read, where the limit 0 is no limit.
fn config_of(limit: u32) -> Config
    ensures { result.max_bytes ≡ limit_of limit }
{
    if limit == 0 {
        Config::new()
    } else {
        Config::new().with_max_bytes(limit)
    }
}

/// Returns how many bytes follow the 8 bytes at the front of a response.
///
/// - -2: `bytes` are not 8.
/// - -3: the head is not that of a structure.
/// - -4: the response has more bytes than `limit`, its head counted; the limit 0 is no limit.
#[unsafe(no_mangle)]
pub extern "C" fn kmip_contents_len(bytes: &[u8], limit: u32) -> i64
    ensures { result ≡ contents_code bytes.now (limit_of limit) }
{
    if bytes.len() != 8 {
        return NOT_OF_THE_GRAMMAR;
    }
    let Some(bytes) = bytes.first_chunk::<8>() else {
        return NOT_OF_THE_GRAMMAR;
    };
    match head(bytes, &config_of(limit)) {
        Ok(len) => i64::from(len),
        Err(HeadError::NotStructure) => NOT_A_MESSAGE,
        Err(HeadError::TooLong { .. }) => TOO_LONG,
    }
}

/// Writes the answer that a response is to a call to `into`, as a line of JSON, and sets `length`
/// to how many bytes the line has. Where they do not fit, nothing is written. What stands after the
/// first message of `response` is not looked at.
///
/// The call is given as to `kmip_request`. The line is `{"answer":..}` with the payload as an object
/// of its members, or as a tree where it is of `get` or `attributes` and their tables have no words
/// for it; or the error. It returns one of these; after 2 and 5 there is no line, and `length` is 0:
///
/// - 0: the response is valid and reports success.
/// - 1: the answer is an error, and the connection is good for the next call.
/// - 2: the words are no call.
/// - 3: the response ends early, or is no well-formed message, or is none to this call: it has not
///   one batch item, is of another operation, or has another Unique Batch Item ID; answers about
///   another object than the call asked about, has an empty identifier, or one for two keys; of a
///   typed call lacks what was asked for, or of a call of the table has no field in its payload.
///   The connection is to be closed.
/// - 5: memory ran out.
#[unsafe(no_mangle)]
pub extern "C" fn kmip_answer(
    alloc: Global,
    words: &[Word],
    id: &[u8],
    response: &[u8],
    into: &mut [u8],
    length: &mut i64,
) -> i32
    ensures answer { result ≢ pos 5 →
        IsAnswered (call_of words.now (id_of id.now)) response.now result into.old length.new
        into.new }
    ensures memory { result ≡ pos 5 → (length.new ≡ pos 0) × (into.new ≡ into.old) }
{
    *length = 0;
    let call = match call_of_words(alloc, words, id_of(id)) {
        Ok(Some(call)) => call,
        Ok(None) => return NO_CALL,
        Err(OutOfMemory) => return 5,
    };
    let settings = Settings::new(None, None, None);
    match answer_to_words(alloc, &settings, &call, response) {
        Ok(answer) => {
            *length = copy_out(&answer.line, into);
            status_of(answer.ending)
        }
        Err(OutOfMemory) => 5,
    }
}

/// Writes a single value of an answer to `into`, and returns how many bytes it has. Where they do
/// not fit, nothing is written. `line` is one that `kmip_answer` or `kmip_operation_answer` wrote.
///
/// `path` leads to the value below `{"answer":`, with a dot between two names. In an answer as an
/// object they are those of its members, and the index of an item of a list in decimal digits,
/// counted from 0, as `attributes.0.name`. In an answer as a tree they are the tags of items, and
/// behind a tag the number of items with it that stand before, as `Attribute.1.AttributeName`, where
/// no number is 0.
///
/// With `hex` false, a text is written as its bytes, without quotes and escapes, a number as its
/// decimal digits, and the rest as `true` or `false`. With `hex` true, a string of hex digits is
/// written as the bytes that it stands for; in a tree that of a Byte String or a Big Integer. After
/// each code nothing is written:
///
/// - -2: the line or the path is not UTF-8.
/// - -3: there is no such value. The answer is an error, or the line is none; or it has nothing at
///   this path, or an object, a list or a structure; or `hex` is true, and there is no string of hex
///   digits.
/// - -5: memory ran out.
#[unsafe(no_mangle)]
pub extern "C" fn kmip_value(
    alloc: Global,
    line: &[u8],
    path: &[u8],
    hex: bool,
    into: &mut [u8],
) -> i64
    ensures value { result ≢ memory →
        IsValueReported line.now path.now hex into.old result into.new }
    ensures memory { result ≡ memory → into.new ≡ into.old }
{
    let Ok(line) = str::from_utf8(line) else {
        return NOT_OF_THE_GRAMMAR;
    };
    let Ok(path) = str::from_utf8(path) else {
        return NOT_OF_THE_GRAMMAR;
    };
    match value_in(alloc, path, hex, line) {
        Ok(Some(value)) => copy_out(&value, into),
        Ok(None) => NO_VALUE,
        Err(OutOfMemory) => NO_MEMORY,
    }
}

/// Writes the request of a call of any operation to `into`, and returns how many bytes it has.
/// Where they do not fit, nothing is written.
///
/// `name` is the operation's name without spaces and hyphens, as `Encrypt` or `RekeyKeyPair`;
/// `version` is `1.0`, `1.1` or `1.2`; `payload` is the JSON of a structure with the tag
/// `RequestPayload` (KMIP Additional Message Encodings). `id` is the Unique Batch Item ID of the
/// request (KMIP 1.0, 6.4), any bytes; where it is empty, the request has none. With `has_credential`
/// the request carries this user name and password. After each code nothing is written:
///
/// - -2: the name, the version or the payload is not so, or the payload has an empty Unique
///   Identifier, or the user name or the password is not UTF-8.
/// - -5: memory ran out.
/// - -6: the request has no wire form.
#[unsafe(no_mangle)]
pub extern "C" fn kmip_operation_request(
    alloc: Global,
    name: &[u8],
    version: &[u8],
    id: &[u8],
    payload: &[u8],
    has_credential: bool,
    user: &[u8],
    password: &[u8],
    into: &mut [u8],
) -> i64
    ensures request { result ≢ memory →
        IsOperationRequested (settings_of has_credential user.now password.now)
        name.now version.now id.now payload.now into.old result into.new }
    ensures memory { result ≡ memory → into.new ≡ into.old }
{
    let settings = match settings_of(alloc, has_credential, user, password) {
        Ok(Some(settings)) => settings,
        Ok(None) => return NOT_OF_THE_GRAMMAR,
        Err(OutOfMemory) => return NO_MEMORY,
    };
    let call = match operation_of(alloc, name, version, id, payload) {
        Ok(Some(call)) => call,
        Ok(None) => return NOT_OF_THE_GRAMMAR,
        Err(OutOfMemory) => return NO_MEMORY,
    };
    match operation_request(alloc, &settings, &call) {
        Ok(Some(request)) => copy_out(request.as_slice(), into),
        Ok(None) => NO_FORM,
        Err(OutOfMemory) => NO_MEMORY,
    }
}

/// How a payload is written.
fn form_of(plain: bool) -> PayloadForm
    ensures { result ≡ form_of plain }
{
    if plain {
        PayloadForm::Plain
    } else {
        PayloadForm::Tree
    }
}

/// Writes the answer that a response is to a call of any operation to `into`, as a line of JSON,
/// and sets `length` to how many bytes the line has. Where they do not fit, nothing is written.
/// What stands after the first message of `response` is not looked at.
///
/// The call is given as to `kmip_operation_request`. The line has the response's payload, or the
/// error: as `{"answer":TREE}` in the JSON of that encoding, or with `plain` as an object of its
/// members, as `kmip_answer` writes it. The statuses are those of
/// `kmip_answer`: after 2 and 5 there is no line, and `length` is 0. Where the call has a Unique
/// Batch Item ID, a response with another or none is none to the call: the status is 3, unless it
/// is a failure that names no operation and has no ID.
#[unsafe(no_mangle)]
pub extern "C" fn kmip_operation_answer(
    alloc: Global,
    name: &[u8],
    version: &[u8],
    id: &[u8],
    payload: &[u8],
    response: &[u8],
    plain: bool,
    into: &mut [u8],
    length: &mut i64,
) -> i32
    ensures answer { result ≢ pos 5 →
        IsOperationAnswered name.now version.now id.now payload.now response.now plain result
        into.old length.new into.new }
    ensures memory { result ≡ pos 5 → (length.new ≡ pos 0) × (into.new ≡ into.old) }
{
    *length = 0;
    let call = match operation_of(alloc, name, version, id, payload) {
        Ok(Some(call)) => call,
        Ok(None) => return NO_CALL,
        Err(OutOfMemory) => return 5,
    };
    let settings = Settings::new(None, None, None);
    match operation_answer(alloc, &settings, &call, response, form_of(plain)) {
        Ok(answer) => {
            *length = copy_out(&answer.line, into);
            status_of(answer.ending)
        }
        Err(OutOfMemory) => 5,
    }
}

/// Writes why a name, a version and a payload ask for no call of an operation to `into`, as a text,
/// and returns how many bytes it has. Where they do not fit, nothing is written. They are given as
/// to `kmip_operation_request`; whether they ask for one does not depend on the ID.
///
/// Of a payload it tells the line and the column, the way to the place, as
/// `value[1].value[0].type`, what was expected there, and what stands there. After each code
/// nothing is written:
///
/// - -3: they ask for a call.
/// - -5: memory ran out.
#[unsafe(no_mangle)]
pub extern "C" fn kmip_operation_refusal(
    alloc: Global,
    name: &[u8],
    version: &[u8],
    payload: &[u8],
    into: &mut [u8],
) -> i64
    ensures refusal { result ≢ memory →
        IsOperationRefused name.now version.now payload.now into.old result into.new }
    ensures memory { result ≡ memory → into.new ≡ into.old }
{
    match operation_refusal(alloc, name, version, payload) {
        Ok(Some(why)) => copy_out(why.as_str().as_bytes(), into),
        Ok(None) => NO_VALUE,
        Err(OutOfMemory) => NO_MEMORY,
    }
}
