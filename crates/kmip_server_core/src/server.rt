//! A server over a store.

ghost use Rattle.std.specs.Prelude.{◌≡◌, [], Some};
ghost use Rattle.kmip_store.specs.Makers.{MakerKeeps};
ghost use Rattle.kmip_request.specs.Message.{request_bytes};
ghost use Rattle.kmip_request_read.specs.Reading.{request_for, request_read};
ghost use Rattle.kmip_server_core.specs.Answering.{AnswersBy};
ghost use Rattle.kmip_server_core.specs.Requests.{is_served};
ghost use Rattle.kmip_server_core.specs.Served.{served, served_request, asks, asks_request};
ghost use Rattle.kmip_server_core.specs.State.{ServerState, AnswersRequest};

use crate::calls::answer_call;
use crate::message::Stamp;
use crate::recognize::call_of;
use kmip_enums::{Operation, ResultReason};
use kmip_request::RequestPayload;
use kmip_request_read::{RequestReadError, from_slice};
use kmip_store::{Maker, Store};
use kmip_types::auth::CredentialType;
use kmip_wire::{Blob, WireError};
use std::alloc::Global;
use std::marker::Model;

/// A key server: objects, a maker, and the time stamp of its responses.
///
/// It answers the requests of the client's helpers, and looks at no credential.
#[derive(Drop)]
pub struct Server<M: Maker> {
    stamp: Stamp,
    store: Store,
    maker: M,
}

impl<M: Maker> Model for Server<M> {
    ghost Value = { ServerState M };

    ghost view = { λ s. record { objects = s.store; maker = s.maker; time = s.stamp.time } };
}

impl<M: Maker> Server<M> {
    /// A server with no objects, which takes no memory. `time_stamp` is in seconds since
    /// 1970-01-01 00:00 UTC.
    pub fn new(alloc: Global, maker: M, time_stamp: i64) -> Server<M>
        ensures { result ≡ record { objects = []; maker = maker; time = time_stamp } }
    {
        Server {
            stamp: Stamp {
                alloc,
                time: time_stamp,
            },
            store: Store::new(alloc),
            maker,
        }
    }

    /// Its objects.
    pub fn store(&self) -> &Store
        ensures { result.now ≡ self.now.objects }
    {
        &self.store
    }

    /// Its maker.
    pub fn maker(&self) -> &M
        ensures { result.now ≡ self.now.maker }
    {
        &self.maker
    }

    /// The bytes of the response to these bytes.
    ///
    /// The response reports the first of these that fits (KMIP 1.0, 6.9 to 6.11):
    ///
    /// - `InvalidMessage`: no matched request has these bytes, with any credential;
    /// - `OperationNotSupported`: no helper has the operation;
    /// - `InvalidField`: no helper makes this request;
    /// - `ItemNotFound`: no object has the identifier;
    /// - `PermissionDenied`: the object's state, or its type, does not allow the call;
    /// - `CryptographicFailure`: the maker refused;
    /// - success, with the payload of the call.
    ///
    /// `NoForm` comes exactly where the response has no wire form; for a maker that does not tell,
    /// only where it has none for some answer of the maker. `OutOfMemory` is the only other error.
    /// After both the objects are as they were: the response is made before the store changes. The
    /// maker is asked last, and only where the call takes its answer.
    pub fn answer(&mut self, request: &[u8]) -> Result<Blob, WireError>
        ensures answers { AnswersRequest M.state self.old self.new request.now result }
        ensures keeps { MakerKeeps (M.state self.old.maker) (M.state self.new.maker) }
        ensures time { self.new.time ≡ self.old.time }
    {
        answer_bytes(&self.stamp, &mut self.store, &mut self.maker, request)
    }
}

/// Whether a helper has the operation.
fn is_served(operation: Operation) -> bool
    ensures { result ≡ is_served operation }
{
    matches!(
        operation,
        Operation::CreateKeyPair
            | Operation::Get
            | Operation::ModifyAttribute
            | Operation::Activate
            | Operation::Revoke
            | Operation::Destroy
            | Operation::Query
            | Operation::Sign
            | Operation::RNGRetrieve
    )
}

/// Returns the response to a request that was read as this payload and credential.
fn answer_request<M: Maker>(
    stamp: &Stamp,
    store: &mut Store,
    maker: &mut M,
    payload: &RequestPayload,
    credential: Option<CredentialType>,
    request: &[u8],
) -> Result<Blob, WireError>
    requires read { request_read request.now ≡ Some (request_for payload.now) }
    requires written { request_bytes payload.now credential ≡ Some request.now }
    ensures answers { AnswersBy (asks_request store.old (Some (request_for payload.now)))
        (λ made. served_request store.old (Some (request_for payload.now)) made stamp.now.time)
        store.old (M.state maker.old) (M.state maker.new) store.new result }
    ensures keeps { MakerKeeps (M.state maker.old) (M.state maker.new) }
{
    let operation = payload.operation();
    if !is_served(operation) {
        return stamp.refuse(
            Some(operation),
            ResultReason::OperationNotSupported,
            "operation not supported",
        );
    }
    match call_of(stamp.alloc, payload, credential, request) {
        Ok(Some(call)) => answer_call(stamp, store, maker, &call),
        Ok(None) => stamp.refuse(
            Some(operation),
            ResultReason::InvalidField,
            "not a helper request",
        ),
        Err(_) => Err(WireError::OutOfMemory),
    }
}

/// Returns the response to bytes.
fn answer_bytes<M: Maker>(
    stamp: &Stamp,
    store: &mut Store,
    maker: &mut M,
    request: &[u8],
) -> Result<Blob, WireError>
    ensures answers { AnswersBy (asks store.old request.now)
        (λ made. served store.old request.now made stamp.now.time)
        store.old (M.state maker.old) (M.state maker.new) store.new result }
    ensures keeps { MakerKeeps (M.state maker.old) (M.state maker.new) }
{
    match from_slice(stamp.alloc, request) {
        Ok((payload, credential)) => answer_request(
            stamp, store, maker, &payload, credential, request,
        ),
        Err(RequestReadError::OutOfMemory) => Err(WireError::OutOfMemory),
        Err(RequestReadError::Malformed) => stamp.refuse(
            None,
            ResultReason::InvalidMessage,
            "invalid message",
        ),
        Err(RequestReadError::NotCanonical) => stamp.refuse(
            None,
            ResultReason::InvalidMessage,
            "invalid message",
        ),
    }
}
