//! What an order asks for, and its request.
ghost use Rattle.std.specs.Prelude.{◌≡◌, Some, None, option_map, IfOk, MatchOption};
ghost use Rattle.kmip_caller.specs.TreeWords.{an_operation, a_message, tree_text, tree_words};
ghost use Rattle.kmip_caller.specs.TreeWords.{item_id};
ghost use Rattle.kmip_words.specs.Calls.{typed_call};
ghost use Rattle.kmip_words.specs.Exchange.{request_asked, Settings as TheSettings};
ghost use Rattle.kmip_caller.specs.TableWords.{with_id};
ghost use Rattle.kmip_caller.specs.Asked.{exchange_of, AsksForNone, Requests};
ghost use Rattle.kmip_caller.specs.declared.requested.Asked.TheVariants.{Typed};

use crate::command::Order;
use crate::words::{TreeWords, item_id, tree_words, with_id};
use kmip_operation_words::table_call;
use kmip_operations::{
    OperationCall, PayloadForm, message_of, message_request, operation_call, operation_request,
};
use kmip_wire::{Blob, OutOfMemory, Text, Tree};
use kmip_words::{Call, Settings, request_of, typed_call};
use std::alloc::Global;

/// What the words of an order ask for.
#[derive(Drop)]
pub enum Asked {
    /// A call of kmip_words.
    Typed(Call),
    /// A call of any operation, and how its answer's payload is written.
    Operation(OperationCall, PayloadForm),
    /// A whole message.
    Message(Tree),
}

/// What an order asks for, and its request.
#[derive(Drop)]
pub struct Requested {
    /// What the order asks for.
    pub asked: Asked,
    /// The bytes of its request; `None` where it has no wire form.
    pub request: Option<Blob>,
}

/// A typed call, with its request.
fn with_request(alloc: Global, settings: &Settings, call: Call) -> Result<Requested, OutOfMemory>
    ensures asked { IfOk result (λ it. it.asked ≡ Typed call) }
    ensures request { IfOk result
        (λ it. it.request ≡ (request_asked call settings.now.credential).message) }
{
    let request = request_of(alloc, settings, &call)?;
    Ok(Requested {
        asked: Asked::Typed(call),
        request,
    })
}

/// The request of a typed call.
fn typed_request(alloc: Global, order: &Order, call: Call) -> Result<Option<Requested>, OutOfMemory>
    requires tree { tree_words order.now.words ≡ None }
    requires typed { typed_call order.now.words ≡ Some call }
    ensures { IfOk result (λ found. MatchOption found (AsksForNone order.now)
        (λ it. Requests order.now it.asked it.request)) }
{
    Ok(Some(with_request(alloc, &order.settings, call)?))
}

/// The bytes of an ID, where there is one.
fn bytes_in(id: &Option<Blob>) -> Option<&[u8]>
    ensures { option_map (λ bytes. bytes.now) result ≡ id.now }
{
    match id {
        Some(id) => Some(id.as_slice()),
        None => None,
    }
}

/// The request of a call of any operation with this Unique Batch Item ID, where it has one, which
/// the word `hex` gives; `None` where the words ask for none.
fn operation_with(
    alloc: Global,
    order: &Order,
    name: &str,
    version: &str,
    hex: Option<&str>,
    id: &Option<Blob>,
    payload: &str,
) -> Result<Option<Requested>, OutOfMemory>
    requires words { tree_words order.now.words ≡ Some (an_operation name.now version.now
        (option_map (λ text. text.now) hex) payload.now) }
    requires id { item_id (option_map (λ text. text.now) hex) ≡ Some id.now }
    ensures { IfOk result (λ found. MatchOption found (AsksForNone order.now)
        (λ it. Requests order.now it.asked it.request)) }
{
    let Some(call) = operation_call(alloc, name, version, bytes_in(id), payload)? else {
        return Ok(None);
    };
    let request = operation_request(alloc, &order.settings, &call)?;
    Ok(Some(Requested {
        asked: Asked::Operation(call, PayloadForm::Tree),
        request,
    }))
}

/// The request of a call of any operation; `None` where the words ask for none.
fn operation_request_of(
    alloc: Global,
    order: &Order,
    name: &str,
    version: &str,
    hex: Option<&str>,
    payload: &str,
) -> Result<Option<Requested>, OutOfMemory>
    requires words { tree_words order.now.words ≡ Some (an_operation name.now version.now
        (option_map (λ text. text.now) hex) payload.now) }
    ensures { IfOk result (λ found. MatchOption found (AsksForNone order.now)
        (λ it. Requests order.now it.asked it.request)) }
{
    match item_id(alloc, hex)? {
        Some(id) => operation_with(alloc, order, name, version, hex, &id, payload),
        None => Ok(None),
    }
}

/// The request of a call of the table with this Unique Batch Item ID, where it has one, which the
/// word `hex` gives; `None` where the words ask for none.
fn table_request_with(
    alloc: Global,
    order: &Order,
    hex: Option<&str>,
    id: &Option<Blob>,
    words: &[Text],
) -> Result<Option<Requested>, OutOfMemory>
    requires tree { tree_words order.now.words ≡ None }
    requires typed { typed_call order.now.words ≡ None }
    requires hex { option_map (λ text. text.now) hex ≡ (with_id order.now.words).value }
    requires words { words.now ≡ (with_id order.now.words).rest }
    requires id { item_id (option_map (λ text. text.now) hex) ≡ Some id.now }
    ensures { IfOk result (λ found. MatchOption found (AsksForNone order.now)
        (λ it. Requests order.now it.asked it.request)) }
{
    let Some(call) = table_call(alloc, words, bytes_in(id))? else {
        return Ok(None);
    };
    let request = operation_request(alloc, &order.settings, &call)?;
    Ok(Some(Requested {
        asked: Asked::Operation(call, PayloadForm::Plain),
        request,
    }))
}

/// The request of a call of the table; `None` where the words ask for none.
fn table_request(alloc: Global, order: &Order) -> Result<Option<Requested>, OutOfMemory>
    requires tree { tree_words order.now.words ≡ None }
    requires typed { typed_call order.now.words ≡ None }
    ensures { IfOk result (λ found. MatchOption found (AsksForNone order.now)
        (λ it. Requests order.now it.asked it.request)) }
{
    let (hex, words) = with_id(order.words.as_slice());
    match item_id(alloc, hex)? {
        Some(id) => table_request_with(alloc, order, hex, &id, words),
        None => Ok(None),
    }
}

/// The request of a typed call or of one of the table; `None` where the words ask for none.
fn worded_request(alloc: Global, order: &Order) -> Result<Option<Requested>, OutOfMemory>
    requires { tree_words order.now.words ≡ None }
    ensures { IfOk result (λ found. MatchOption found (AsksForNone order.now)
        (λ it. Requests order.now it.asked it.request)) }
{
    match typed_call(alloc, order.words.as_slice())? {
        Some(call) => typed_request(alloc, order, call),
        None => table_request(alloc, order),
    }
}

/// The bytes of a message; `None` where the word is none.
fn message_request_of(
    alloc: Global,
    order: &Order,
    text: &str,
) -> Result<Option<Requested>, OutOfMemory>
    requires words { tree_words order.now.words ≡ Some (a_message text.now) }
    ensures { IfOk result (λ found. MatchOption found (AsksForNone order.now)
        (λ it. Requests order.now it.asked it.request)) }
{
    let Some(message) = message_of(alloc, text)? else {
        return Ok(None);
    };
    let request = message_request(alloc, &message)?;
    Ok(Some(Requested {
        asked: Asked::Message(message),
        request,
    }))
}

/// The request of a call whose payload or message is given in JSON; `None` where the words ask for
/// none.
fn tree_request(
    alloc: Global,
    order: &Order,
    words: TreeWords<'_>,
) -> Result<Option<Requested>, OutOfMemory>
    requires { tree_words order.now.words ≡ Some (tree_text words) }
    ensures { IfOk result (λ found. MatchOption found (AsksForNone order.now)
        (λ it. Requests order.now it.asked it.request)) }
{
    match words {
        TreeWords::Operation {
            name,
            version,
            hex,
            payload,
        } => operation_request_of(alloc, order, name, version, hex, payload),
        TreeWords::Message { message } => message_request_of(alloc, order, message),
    }
}

/// What an order asks for, and its request; `None` where it asks for nothing.
pub fn request_for(alloc: Global, order: &Order) -> Result<Option<Requested>, OutOfMemory>
    ensures { IfOk result (λ found. MatchOption found (AsksForNone order.now)
        (λ it. Requests order.now it.asked it.request)) }
{
    match tree_words(order.words.as_slice()) {
        Some(words) => tree_request(alloc, order, words),
        None => worded_request(alloc, order),
    }
}

/// The bytes of what was asked for, where it has no credential but that of a message of the
/// caller's; `None` where it has no wire form.
pub fn without_credential(alloc: Global, asked: &Asked) -> Result<Option<Blob>, OutOfMemory>
    ensures { IfOk result (λ request. (settings : TheSettings) →
        request ≡ (exchange_of settings asked.now).without_credential) }
{
    let settings = Settings::new(None, None, None);
    match asked {
        Asked::Typed(call) => request_of(alloc, &settings, call),
        Asked::Operation(call, _) => operation_request(alloc, &settings, call),
        Asked::Message(message) => message_request(alloc, message),
    }
}
