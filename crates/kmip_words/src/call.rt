//! Which call words ask for: words of a line of a script, and words that are typed. And the request
//! of a call.
ghost use Rattle.std.specs.Prelude.{◌≡◌, Some, map, option_map, IfOk};
ghost use Rattle.kmip_request_words.specs.Values.{int_of, bytes_of, word_text};
ghost use Rattle.kmip_words.specs.Calls.{typed_of_one, locate_of, attributes_of, typed_of_two};
ghost use Rattle.kmip_words.specs.Calls.{create_aes_of, typed_of_three, plain_call, typed_call};
ghost use Rattle.kmip_words.specs.Calls.{rng_of, raw_of, key_call, call_of_one, call_of_two};
ghost use Rattle.kmip_words.specs.Calls.{sign_of, rename_of, call_of_three, create_rsa_of};
ghost use Rattle.kmip_words.specs.Calls.{call_of_four, with_response, recorded_of, call_of};
ghost use Rattle.kmip_words.specs.Calls.{call_in, call_alone};
ghost use Rattle.kmip_request_words.specs.Asked.{asked_in};
ghost use Rattle.kmip_words.specs.declared.call.Call.TheVariants.{Request, Raw};
ghost use Rattle.kmip_words.specs.Exchange.{IsRequestOf, operation_asked};

use crate::raw::RawRequest;
use kmip_enums::Operation;
use kmip_request::{
    RequestPayload, activate_request, destroy_request, get_request, key_pair_request,
    query_request, rename_request, revoke_request, sign_request,
};
use kmip_request_read::same_message;
use kmip_request_words::{
    asked_in, attributes_request, bytes_of, create_aes_request, discover_request, int_of,
    locate_request, why_refused, word_text, words_of,
};
use kmip_types::DataLength;
use kmip_wire::{Blob, Boxed, OutOfMemory, Text, TryClone};
use std::alloc::Global;
use std::str;

/// A call of the client.
#[derive(Drop)]
pub enum Call {
    /// `query`: which operations and types of objects the server has (KMIP 1.0, 4.24).
    Query,
    /// `create-rsa INT TEXT TEXT`: an RSA pair of this length in bits, with these names of the
    /// private and the public key (KMIP 1.0, 4.2).
    CreateRsa {
        key_length: i32,
        private_key_name: Text,
        public_key_name: Text,
    },
    /// `rng INT`: this many random bytes (KMIP 1.2, 4.35).
    Rng {
        num_bytes: i32,
    },
    /// `sign TEXT HEX`: a signature of these bytes by the key with this identifier (KMIP 1.2,
    /// 4.31).
    Sign {
        id: Text,
        bytes: Blob,
    },
    /// `activate TEXT`: makes the key with this identifier Active (KMIP 1.0, 4.18).
    Activate {
        id: Text,
    },
    /// `revoke TEXT`: revokes the key with this identifier (KMIP 1.0, 4.19).
    Revoke {
        id: Text,
    },
    /// `destroy TEXT`: destroys the key with this identifier (KMIP 1.0, 4.20).
    Destroy {
        id: Text,
    },
    /// `rename TEXT TEXT`: gives the key with this identifier another name (KMIP 1.0, 4.14).
    Rename {
        id: Text,
        new_name: Text,
    },
    /// `get TEXT`: the object with this identifier itself (KMIP 1.0, 4.10).
    Get {
        id: Text,
    },
    /// `raw HEX`: the request of these bytes, with the client's credential in place of theirs.
    Raw {
        request: RawRequest,
    },
    /// A call that is typed and stands in no script, as `locate TEXT`, or one with options, as
    /// `sign TEXT HEX hash=SHA384`: the request that it asks for.
    Request {
        payload: Boxed<RequestPayload>,
    },
}

/// A call, and the response that was recorded for it.
#[derive(Drop)]
pub struct Recorded {
    /// The call.
    pub call: Call,
    /// The server's response, as it came.
    pub response: Blob,
}

/// `query`.
fn call_of_one(name: &str) -> Option<Call>
    ensures { result ≡ call_of_one name.now }
{
    match name {
        "query" => Some(Call::Query),
        _ => None,
    }
}

/// `rng INT`.
fn rng_of(number: &str) -> Option<Call>
    ensures { result ≡ rng_of (int_of number.now) }
{
    let num_bytes = int_of(number)?;
    Some(Call::Rng { num_bytes })
}

/// The call with this name whose one argument is the identifier of a key.
fn key_call(name: &str, id: Text) -> Option<Call>
    ensures { result ≡ key_call name.now id }
{
    match name {
        "activate" => Some(Call::Activate { id }),
        "revoke" => Some(Call::Revoke { id }),
        "destroy" => Some(Call::Destroy { id }),
        "get" => Some(Call::Get { id }),
        _ => None,
    }
}

/// `raw HEX`: the request of these bytes.
fn raw_of(alloc: Global, bytes: &str) -> Result<Option<Call>, OutOfMemory>
    ensures { IfOk result (λ call. call ≡ raw_of (bytes_of bytes.now)) }
{
    let Some(bytes) = bytes_of(alloc, bytes)? else {
        return Ok(None);
    };
    match RawRequest::read(alloc, bytes)? {
        Some(request) => Ok(Some(Call::Raw { request })),
        None => Ok(None),
    }
}

/// The calls of two words: `rng INT`, `raw HEX`, and `activate TEXT` and its like.
fn call_of_two(alloc: Global, name: &str, word: &str) -> Result<Option<Call>, OutOfMemory>
    ensures { IfOk result (λ call. call ≡ call_of_two name.now word.now) }
{
    if name == "rng" {
        return Ok(rng_of(word));
    }
    if name == "raw" {
        return raw_of(alloc, word);
    }
    match word_text(alloc, word)? {
        Some(id) => Ok(key_call(name, id)),
        None => Ok(None),
    }
}

/// `sign TEXT HEX`.
fn sign_of(alloc: Global, id: &str, bytes: &str) -> Result<Option<Call>, OutOfMemory>
    ensures { IfOk result (λ call. call ≡ sign_of (word_text id.now) (bytes_of bytes.now)) }
{
    let Some(id) = word_text(alloc, id)? else {
        return Ok(None);
    };
    let Some(bytes) = bytes_of(alloc, bytes)? else {
        return Ok(None);
    };
    Ok(Some(Call::Sign { id, bytes }))
}

/// `rename TEXT TEXT`.
fn rename_of(alloc: Global, id: &str, new_name: &str) -> Result<Option<Call>, OutOfMemory>
    ensures { IfOk result (λ call. call ≡ rename_of (word_text id.now) (word_text new_name.now)) }
{
    let Some(id) = word_text(alloc, id)? else {
        return Ok(None);
    };
    let Some(new_name) = word_text(alloc, new_name)? else {
        return Ok(None);
    };
    Ok(Some(Call::Rename { id, new_name }))
}

/// The calls of three words.
fn call_of_three(
    alloc: Global,
    name: &str,
    id: &str,
    word: &str,
) -> Result<Option<Call>, OutOfMemory>
    ensures { IfOk result (λ call. call ≡ call_of_three name.now id.now word.now) }
{
    match name {
        "sign" => sign_of(alloc, id, word),
        "rename" => rename_of(alloc, id, word),
        _ => Ok(None),
    }
}

/// `create-rsa INT TEXT TEXT`.
fn create_rsa_of(
    alloc: Global,
    key_length: &str,
    private_key_name: &str,
    public_key_name: &str,
) -> Result<Option<Call>, OutOfMemory>
    ensures { IfOk result
        (λ call. call ≡
        create_rsa_of (int_of key_length.now) (word_text private_key_name.now)
        (word_text public_key_name.now)) }
{
    let Some(key_length) = int_of(key_length) else {
        return Ok(None);
    };
    let Some(private_key_name) = word_text(alloc, private_key_name)? else {
        return Ok(None);
    };
    let Some(public_key_name) = word_text(alloc, public_key_name)? else {
        return Ok(None);
    };
    Ok(Some(Call::CreateRsa {
        key_length,
        private_key_name,
        public_key_name,
    }))
}

/// The call of four words.
fn call_of_four(
    alloc: Global,
    name: &str,
    number: &str,
    first: &str,
    second: &str,
) -> Result<Option<Call>, OutOfMemory>
    ensures { IfOk result (λ call. call ≡ call_of_four name.now number.now first.now second.now) }
{
    match name {
        "create-rsa" => create_rsa_of(alloc, number, first, second),
        _ => Ok(None),
    }
}

/// A call with its recorded response, where both are of the grammar.
fn with_response(
    alloc: Global,
    call: Option<Call>,
    response: &str,
) -> Result<Option<Recorded>, OutOfMemory>
    ensures { IfOk result (λ recorded. recorded ≡ with_response call (bytes_of response.now)) }
{
    let Some(call) = call else {
        return Ok(None);
    };
    let Some(response) = bytes_of(alloc, response)? else {
        return Ok(None);
    };
    Ok(Some(Recorded { call, response }))
}

/// The call of these words, the last of which is its response; `None` where they are not of the
/// grammar.
fn recorded_of(alloc: Global, words: &[&str]) -> Result<Option<Recorded>, OutOfMemory>
    ensures { IfOk result
        (λ recorded. recorded ≡ recorded_of (map (λ word. word.now) words.now)) }
{
    match words {
        [name, response] => with_response(alloc, call_of_one(name), response),
        [name, first, response] => {
            with_response(alloc, call_of_two(alloc, name, first)?, response)
        }
        [name, first, second, response] => {
            with_response(alloc, call_of_three(alloc, name, first, second)?, response)
        }
        [name, first, second, third, response] => {
            with_response(
                alloc,
                call_of_four(alloc, name, first, second, third)?,
                response,
            )
        }
        _ => Ok(None),
    }
}

/// The call of a line, with its recorded response; `None` where the line is not of the grammar.
pub fn call_of(alloc: Global, line: &[u8]) -> Result<Option<Recorded>, OutOfMemory>
    ensures { IfOk result (λ recorded. recorded ≡ call_of line.now) }
{
    let Ok(line) = str::from_utf8(line) else {
        return Ok(None);
    };
    match words_of(alloc, line)? {
        Some(words) => recorded_of(alloc, &words),
        None => Ok(None),
    }
}

/// The call of these words, without a response; `None` where they are not of the grammar.
fn call_in(alloc: Global, words: &[&str]) -> Result<Option<Call>, OutOfMemory>
    ensures { IfOk result (λ call. call ≡ call_in (map (λ word. word.now) words.now)) }
{
    match words {
        [name] => Ok(call_of_one(name)),
        [name, first] => call_of_two(alloc, name, first),
        [name, first, second] => call_of_three(alloc, name, first, second),
        [name, first, second, third] => call_of_four(alloc, name, first, second, third),
        _ => Ok(None),
    }
}

/// The call of a line without a response; `None` where the line is not of the grammar.
pub fn call_alone(alloc: Global, line: &[u8]) -> Result<Option<Call>, OutOfMemory>
    ensures { IfOk result (λ call. call ≡ call_alone line.now) }
{
    let Ok(line) = str::from_utf8(line) else {
        return Ok(None);
    };
    match words_of(alloc, line)? {
        Some(words) => call_in(alloc, &words),
        None => Ok(None),
    }
}

/// The call that makes this request.
fn call_making(alloc: Global, payload: RequestPayload) -> Result<Option<Call>, OutOfMemory>
    ensures { IfOk result (λ call. call ≡ Some (Request payload)) }
{
    let payload = Boxed::new(alloc, payload)?;
    Ok(Some(Call::Request { payload }))
}

/// `query`, and `discover`: which versions of KMIP the server supports (KMIP 1.1, 4.26).
fn typed_of_one(alloc: Global, name: &str) -> Result<Option<Call>, OutOfMemory>
    ensures { IfOk result (λ call. call ≡ typed_of_one name.now) }
{
    match name {
        "discover" => call_making(alloc, discover_request(alloc)),
        _ => Ok(call_of_one(name)),
    }
}

/// `locate TEXT`: which objects have this name (KMIP 1.0, 4.8).
fn locate_of(alloc: Global, name: &str) -> Result<Option<Call>, OutOfMemory>
    ensures { IfOk result (λ call. call ≡ locate_of (word_text name.now)) }
{
    match word_text(alloc, name)? {
        Some(name) => call_making(alloc, locate_request(alloc, name)?),
        None => Ok(None),
    }
}

/// `attributes TEXT`: all attributes of the object with this identifier (KMIP 1.0, 4.11).
fn attributes_of(alloc: Global, id: &str) -> Result<Option<Call>, OutOfMemory>
    ensures { IfOk result (λ call. call ≡ attributes_of (word_text id.now)) }
{
    match word_text(alloc, id)? {
        Some(id) => call_making(alloc, attributes_request(id)),
        None => Ok(None),
    }
}

/// The typed calls of two words.
fn typed_of_two(alloc: Global, name: &str, word: &str) -> Result<Option<Call>, OutOfMemory>
    ensures { IfOk result (λ call. call ≡ typed_of_two name.now word.now) }
{
    match name {
        "locate" => locate_of(alloc, word),
        "attributes" => attributes_of(alloc, word),
        _ => call_of_two(alloc, name, word),
    }
}

/// `create-aes INT TEXT`: an AES key of this length in bits to encrypt and decrypt with, under this
/// name (KMIP 1.0, 4.1).
fn create_aes_of(alloc: Global, key_length: &str, name: &str) -> Result<Option<Call>, OutOfMemory>
    ensures { IfOk result
        (λ call. call ≡ create_aes_of (int_of key_length.now) (word_text name.now)) }
{
    let Some(key_length) = int_of(key_length) else {
        return Ok(None);
    };
    match word_text(alloc, name)? {
        Some(name) => call_making(alloc, create_aes_request(alloc, key_length, name)?),
        None => Ok(None),
    }
}

/// The typed calls of three words.
fn typed_of_three(
    alloc: Global,
    name: &str,
    first: &str,
    second: &str,
) -> Result<Option<Call>, OutOfMemory>
    ensures { IfOk result (λ call. call ≡ typed_of_three name.now first.now second.now) }
{
    match name {
        "create-aes" => create_aes_of(alloc, first, second),
        _ => call_of_three(alloc, name, first, second),
    }
}

/// The call of words that are typed and have no options.
fn plain_call(alloc: Global, words: &[Text]) -> Result<Option<Call>, OutOfMemory>
    ensures { IfOk result (λ call. call ≡ plain_call words.now) }
{
    match words {
        [name] => typed_of_one(alloc, name.as_str()),
        [name, first] => typed_of_two(alloc, name.as_str(), first.as_str()),
        [name, first, second] => {
            typed_of_three(alloc, name.as_str(), first.as_str(), second.as_str())
        }
        [name, first, second, third] => call_of_four(
            alloc,
            name.as_str(),
            first.as_str(),
            second.as_str(),
            third.as_str(),
        ),
        _ => Ok(None),
    }
}

/// The call of words that are typed, without a response: a call that a script may have; or
/// `locate TEXT`, `attributes TEXT`, `create-aes INT TEXT` or `discover`; or a call with options.
/// `None` where the words are not of this grammar, or ask for what is not meant, as
/// [`why_refused`] says.
#[tactic(auto, unfolding(crate::specs::Calls::typed_call))]
pub fn typed_call(alloc: Global, words: &[Text]) -> Result<Option<Call>, OutOfMemory>
    ensures { IfOk result (λ call. call ≡ typed_call words.now) }
{
    if why_refused(words).is_some() {
        return Ok(None);
    }
    if let Some(call) = plain_call(alloc, words)? {
        return Ok(Some(call));
    }
    match asked_in(alloc, words)? {
        Some(payload) => call_making(alloc, payload),
        None => Ok(None),
    }
}

/// The request that is given by its bytes.
fn raw_request(alloc: Global, request: &RawRequest) -> Result<RequestPayload, OutOfMemory>
    ensures { IfOk result (λ made. IsRequestOf made (Raw request.now)) }
{
    same_message();
    request.payload(alloc)
}

/// The request of a call, with memory of its own.
pub fn request_for(alloc: Global, call: &Call) -> Result<RequestPayload, OutOfMemory>
    ensures { IfOk result (λ made. IsRequestOf made call.now) }
{
    match call {
        Call::Query => query_request(alloc),
        Call::CreateRsa {
            key_length,
            private_key_name,
            public_key_name,
        } => {
            let private_key_name = private_key_name.try_clone(alloc)?;
            let public_key_name = public_key_name.try_clone(alloc)?;
            key_pair_request(alloc, *key_length, private_key_name, public_key_name)
        }
        Call::Rng { num_bytes } => Ok(RequestPayload::RNGRetrieve(DataLength(*num_bytes))),
        Call::Sign { id, bytes } => sign_request(alloc, id.as_str(), bytes.as_slice()),
        Call::Activate { id } => activate_request(alloc, id.as_str()),
        Call::Revoke { id } => revoke_request(alloc, id.as_str()),
        Call::Destroy { id } => destroy_request(alloc, id.as_str()),
        Call::Rename { id, new_name } => {
            rename_request(alloc, id.as_str(), new_name.try_clone(alloc)?)
        }
        Call::Get { id } => get_request(alloc, id.as_str()),
        Call::Raw { request } => raw_request(alloc, request),
        Call::Request { payload } => payload.get().try_clone(alloc),
    }
}

/// The operation of a call's request.
pub fn operation_for(alloc: Global, call: &Call) -> Result<Operation, OutOfMemory>
    ensures { IfOk result (λ operation. operation ≡ operation_asked call.now) }
{
    match call {
        Call::Query => Ok(Operation::Query),
        Call::CreateRsa { .. } => Ok(Operation::CreateKeyPair),
        Call::Rng { .. } => Ok(Operation::RNGRetrieve),
        Call::Sign { .. } => Ok(Operation::Sign),
        Call::Activate { .. } => Ok(Operation::Activate),
        Call::Revoke { .. } => Ok(Operation::Revoke),
        Call::Destroy { .. } => Ok(Operation::Destroy),
        Call::Rename { .. } => Ok(Operation::ModifyAttribute),
        Call::Get { .. } => Ok(Operation::Get),
        Call::Raw { request } => request.operation(alloc),
        Call::Request { payload } => Ok(payload.get().operation()),
    }
}
