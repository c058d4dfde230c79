//! A client over a link.
ghost use Rattle.std.specs.Prelude.{◌≡◌, None, IfOk, IfSome, option_map, true};
ghost use Rattle.kmip_request.specs.Message.{operation_of, credential_of};
ghost use Rattle.kmip_request.specs.Fits.{FitsCredential};
ghost use Rattle.kmip_response.specs.Values.{response_payload_val};
ghost use Rattle.kmip_client.specs.Client.{ClientState, loses_connection, lacks_memory};
ghost use Rattle.kmip_client.specs.Client.{count_after, IsOfOperation};
ghost use Rattle.kmip_client.specs.Outcome.{answer_with_payload, seen_by};
ghost use Rattle.kmip_client.specs.Calls.{IsCall, IsCallOf};
ghost use Rattle.kmip_client.specs.Kept.{IsKept};
ghost use Rattle.kmip_client.specs.Operation.{IsOperationCall, tree_request};
ghost use Rattle.kmip_client.specs.WholeMessage.{IsMessageCall, is_message};

use crate::answered::Answered;
use crate::call::{Diagnostics, Settings, call};
use crate::call_request::{CallRequest, TypedRequest};
use crate::error::Error;
use crate::operation::OperationRequest;
use crate::room::{Room, close, open};
use crate::whole_message::MessageRequest;
use kmip_link::Link;
use kmip_request::{Authentication, RequestPayload};
use kmip_response::ResponsePayload;
use kmip_shape::Item;
use kmip_wire::{Config, OutOfMemory, Text, Tree, clone_optional};
use std::alloc::Global;
use std::marker::{Model, PhantomData};

/// Sends requests over a link, and returns what the responses say.
#[derive(Drop)]
pub struct Client<T> {
    link: T,
    settings: Settings,
    errors: u8,
    diagnostics: Diagnostics,
    room: Option<Room>,
}

impl<T> Model for Client<T> {
    ghost Value = { ClientState T };

    ghost view = { λ c. record {
      link = c.link;
      credential = option_map credential_of c.settings.authentication;
      limit = c.settings.config.max_bytes;
      buffered = c.settings.config.has_buf;
      errors = c.errors;
      request_text = c.diagnostics.request;
      response_text = c.diagnostics.response;
    } };

    ghost invariant = { λ c. IfSome c.room IsKept };
}

impl<T> Client<T> {
    /// A client that was not used yet.
    pub(crate) fn of_parts(
        link: T,
        authentication: Option<Authentication>,
        config: Config,
    ) -> Client<T>
        ensures { result ≡
            record {
              link = link;
              credential = option_map credential_of authentication;
              limit = config.max_bytes;
              buffered = config.has_buf;
              errors = 0;
              request_text = None;
              response_text = None;
            } }
    {
        Client {
            link,
            settings: Settings {
                authentication,
                config,
            },
            errors: 0,
            diagnostics: Diagnostics {
                request: None,
                response: None,
            },
            room: None,
        }
    }

    /// How many calls ended in a connection error since the client was built, modulo 256. It takes
    /// no memory.
    pub fn connection_error_count(&self) -> u8
        ensures { result ≡ self.now.errors }
    {
        self.errors
    }

    /// The diagnostic of the last call's request. `None` where the buffer is off, no call was made
    /// yet or the request has no wire form, and perhaps after `OutOfMemory`. It takes no memory.
    pub fn last_req_diag_str(&self) -> Option<&str>
        ensures { option_map (λ s. s.now) result ≡ self.now.request_text }
    {
        match &self.diagnostics.request {
            Some(text) => Some(text.as_str()),
            None => None,
        }
    }

    /// The diagnostic of the bytes that the last call took. `None` where the buffer is off, no call
    /// was made yet or the request was not sent whole, and perhaps after `OutOfMemory`. It takes no
    /// memory.
    pub fn last_res_diag_str(&self) -> Option<&str>
        ensures { option_map (λ s. s.now) result ≡ self.now.response_text }
    {
        match &self.diagnostics.response {
            Some(text) => Some(text.as_str()),
            None => None,
        }
    }

    /// What holds of each client: the texts of its credential are UTF-8. It does nothing.
    #[tactic(auto, using(crate::proofs::Texts::texts_known))]
    pub fn fits(&self)
        ensures { FitsCredential self.now.credential }
    {
        match &self.settings.authentication {
            Some(authentication) => authentication.fits(),
            None => {}
        }
    }

    /// A copy of what `last_req_diag_str` returns.
    pub fn copy_req_diag(&self, alloc: Global) -> Result<Option<Text>, OutOfMemory>
        ensures { IfOk result (λ text. text ≡ self.now.request_text) }
    {
        clone_optional(&self.diagnostics.request, alloc)
    }

    /// A copy of what `last_res_diag_str` returns.
    pub fn copy_res_diag(&self, alloc: Global) -> Result<Option<Text>, OutOfMemory>
        ensures { IfOk result (λ text. text ≡ self.now.response_text) }
    {
        clone_optional(&self.diagnostics.response, alloc)
    }
}

impl<T: Link> Client<T> {
    ghost use Rattle.std.specs.Borrow.{sem};
    ghost use Rattle.kmip_client.specs.Lending.{lends_link};

    /// Lends the link. What the borrower does to it stays done. It takes no memory.
    pub fn inner(&mut self) -> &mut T
        ensures* writes_back { sem 𝓛 (lends_link T.row self.entry result) }
        ensures value { result.now ≡ self.old.link }
    {
        &mut self.link
    }

    /// Sends a request, and returns what its response says.
    ///
    /// It sends the one canonical message of the request, with the credential where the client has
    /// one, reads the 8 bytes of a head and then exactly the contents that the head says. Link
    /// faults and lack of memory aside, it returns a payload exactly where the bytes left begin
    /// with a valid response to the request, of which it then took every byte and no other. Both
    /// diagnostics are those of this call. Its errors are:
    ///
    /// - `SerializeError`: the request has no wire form. Nothing was sent or taken.
    /// - `RequestWriteError`: the link failed. A part of the request was sent, and nothing was
    ///   taken.
    /// - `ResponseReadError`: the link failed, or ended within a message. The request was sent, as
    ///   after each error below.
    /// - `DeserializeError`: the head is not that of a structure or announces more than the limit,
    ///   and its 8 bytes were taken; or the message is not well formed, and was taken whole, as
    ///   after the next three.
    /// - `ServerError`, `ItemNotFound`: the server refused the request, or there is not one batch
    ///   item.
    /// - `InternalError`: the message is no success of the request's operation.
    /// - `OutOfMemory`: a first part of the request was sent, of which none or all may be, and
    ///   nothing was taken; or all of it was sent, and a first part was taken of what would have
    ///   been taken with memory, of which none or all may be. Each diagnostic is then that of this
    ///   call or none.
    ///
    /// The clause `call` promises it part by part, each a field of `IsCall` (specs/Calls.antt):
    ///
    /// - `exchange`: the outcome, which is what was answered, sent and taken.
    /// - `caused`: the cause of each answer, over any link.
    /// - `writing`: where the link failed while writing, it failed after it took a part of the
    ///   request, and nothing moved from then on.
    /// - `reading`: where the link failed while reading, it failed after it took the whole request.
    /// - `headline`: the promise of a payload, link faults and lack of memory aside.
    /// - `keeps`: what a link keeps through each call.
    /// - `credential`, `limit`, `buffered`: the client's settings stay.
    /// - `count`: the count of connection errors.
    /// - `request_text`, `response_text`, `quiet`: the diagnostics.
    ///
    /// The clause `variant` promises that a payload is of the request's operation.
    pub fn do_request(
        &mut self,
        alloc: Global,
        payload: RequestPayload,
    ) -> Result<ResponsePayload, Error>
        ensures call { IsCall T.state payload self.old self.new (answer_with_payload result) }
        ensures variant { IfOk result
            (λ answer. IsOfOperation (operation_of payload) (response_payload_val answer)) }
    {
        let answer = self.request(alloc, &payload);
        drop(payload);
        answer
    }

    /// Sends a request of any operation, whose payload is a tree, and returns the payload of its
    /// response as a tree: so it makes the calls that KMIP's tables have not, and reads the
    /// responses that are past them. No unknown item or number makes a response unreadable.
    ///
    /// It sends the one canonical message that `do_request` would send with this version, operation
    /// and payload, and the client's credential (`operation_tree`, specs/Operation.antt). The
    /// payload is sent as it stands: KMIP wants a structure with the tag Request Payload (KMIP 1.0,
    /// 9.1.3.1). Link faults and lack of memory aside, it returns a payload exactly where the bytes
    /// left begin with a message that parses, is not that of another batch item, and is a success
    /// (`IsSuccess`, specs/Untyped.antt): a Response Message whose header counts one batch item and
    /// which has one, with the status Success and this operation. The payload is that of the item,
    /// and an empty structure with the tag Response Payload where it has none.
    ///
    /// Where the request has a Unique Batch Item ID, it is sent in the batch item, after the
    /// operation, and a server gives it back (KMIP 1.0, 6.4). A message whose one batch item has
    /// not exactly that ID is that of another batch item, as the late response to an earlier call
    /// is (`is_of_other_item`, specs/Untyped.antt). Only a failure that names no operation and has
    /// no ID is this call's without it, as comes where the server could not read the request.
    ///
    /// Its errors are those of `do_request`, but for these:
    ///
    /// - `SerializeError`: the message would have more than 64 levels, so that the payload has more
    ///   than 62, or it has no wire form. Nothing was sent or taken.
    /// - `ServerError`, `ItemNotFound`: the server refused the request. The text has the server's
    ///   message, where the batch item has exactly one Result Message and that is a text, and the
    ///   number of a reason that KMIP 1.0 does not list.
    /// - `InternalError`: the message is well formed and is neither a success nor such a refusal,
    ///   or it is that of another batch item.
    ///
    /// Its contract has the fields of `IsCall`, for this request and this reading of a response:
    /// `exchange`, `caused`, `writing`, `reading`, `headline`, `keeps`, `credential`, `limit`, `buffered`,
    /// `count`, `request_text`, `response_text` and `quiet`.
    pub fn do_operation(
        &mut self,
        alloc: Global,
        request: &OperationRequest<'_>,
    ) -> Result<Tree, Error>
        ensures { IsOperationCall T.state (tree_request request.now) self.old self.new result }
    {
        self.make_call(alloc, request)
    }

    /// Sends a whole message of the caller's, and returns the whole response, each as a tree: so it
    /// makes a batch of several items, or a call whose header has what `do_operation` writes none
    /// of. Nothing is asked of a tag, of a batch item or of a status: a response that says that the
    /// server refused is a tree as any other.
    ///
    /// It sends the canonical bytes of the message, which is a structure of at most 64 levels
    /// (`whole_bytes`, specs/WholeMessage.antt), as it stands: the client's credential is not
    /// added. KMIP wants a structure with the tag Request Message (KMIP 1.0, 7.1). Link faults and
    /// lack of memory aside, it returns a tree exactly where the bytes left begin with a message
    /// that parses (`IsWholeTree`). Its errors are those of `do_request`, but for these:
    ///
    /// - `SerializeError`: the tree is no structure of at most 64 levels, or has no wire form.
    ///   Nothing was sent or taken.
    /// - `ServerError`, `ItemNotFound`, `InternalError`: never.
    ///
    /// The clause `call` has the fields of `IsCall`, for this message and this reading of a
    /// response: `exchange`, `caused`, `writing`, `reading`, `headline`, `keeps`, `credential`, `limit`,
    /// `buffered`, `count`, `request_text`, `response_text` and `quiet`. The clause `message`
    /// promises that the tree of a response is a structure of at most 64 levels.
    pub fn do_message(&mut self, alloc: Global, message: &Tree) -> Result<Tree, Error>
        ensures call { IsMessageCall T.state message.now self.old self.new result }
        ensures message { IfOk result (λ response. is_message response ≡ true) }
    {
        let request = MessageRequest { message };
        self.make_call(alloc, &request)
    }

    /// The same as `do_request`, over any payload that a call answers.
    pub(crate) fn request<P: Answered>(
        &mut self,
        alloc: Global,
        payload: &RequestPayload,
    ) -> Result<P, Error>
        requires { P.Answers (operation_of payload.now) }
        ensures call { IsCall T.state payload.now self.old self.new
            (seen_by (P.val (operation_of payload.now)) result) }
        ensures variant { IfOk result
            (λ answer. IsOfOperation (operation_of payload.now)
            (P.val (operation_of payload.now) answer)) }
    {
        let request = TypedRequest::<P> {
            payload,
            returns: PhantomData,
        };
        self.make_call(alloc, &request)
    }

    /// Makes a call.
    fn make_call<R: CallRequest>(&mut self, alloc: Global, request: &R) -> Result<R::Payload, Error>
        requires { R.IsRead request.now }
        ensures { IsCallOf R.kind T.state (R.request request.now) self.old self.new
            (seen_by (R.seen request.now) result) }
    {
        R::readings_hold();
        self.diagnostics = Diagnostics {
            request: None,
            response: None,
        };
        open(alloc, &mut self.room);
        let Some(room) = &mut self.room else {
            unreachable!()
        };
        let answer = call(
            alloc,
            &mut self.link,
            &self.settings,
            request,
            &mut self.diagnostics,
            room,
        );
        close(&mut self.room);
        self.errors = count_after(self.errors, loses_connection(&answer));
        answer
    }
}

/// Whether the connection failed.
pub(crate) fn loses_connection<P: Drop>(answer: &Result<P, Error>) -> bool
    ensures { result ≡ loses_connection answer.now }
{
    match answer {
        Ok(_) => false,
        Err(error) => error.is_connection_error(),
    }
}

/// Whether memory ran out.
pub(crate) fn lacks_memory<P: Drop>(answer: &Result<P, Error>) -> bool
    ensures { result ≡ lacks_memory answer.now }
{
    match answer {
        Err(Error::OutOfMemory) => true,
        _ => false,
    }
}

/// The count of connection errors after a call.
fn count_after(errors: u8, lost: bool) -> u8
    ensures { result ≡ count_after errors lost }
{
    if lost { errors.wrapping_add(1) } else { errors }
}
