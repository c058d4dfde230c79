//! What a call sends, and how its response is read.
ghost use Rattle.std.specs.Prelude.{◌≡◌, ◌≢◌, ℕ, List, Option, None, Some, OnOk, IfErr, IsErrOf};
ghost use Rattle.std.specs.Option.{option_map};
ghost use Rattle.kmip_shape.specs.Val.{Val};
ghost use Rattle.kmip_request.specs.Message.{credential_of, operation_of};
ghost use Rattle.kmip_request.specs.declared.payload.RequestPayload.{RequestPayload as ThePayload};
ghost use Rattle.kmip_client.specs.Calls.{CallKind, typed_calls};
ghost use Rattle.kmip_client.specs.Headline.{IsReadBy};
ghost use Rattle.kmip_client.specs.Outcome.{Gives, ReadingOf, read_answer, seen_by, reading_failed};
ghost use Rattle.kmip_client.specs.Outcome.{writing_failed};

use crate::answered::Answered;
use crate::check::decode_response;
use crate::error::Error;
use kmip_enums::Operation;
use kmip_request::{Authentication, RequestPayload, write_request_into};
use kmip_wire::{Buffer, WireError};
use std::alloc::Global;
use std::marker::PhantomData;

/// A request: how it is written, and how its responses are read. A call is over any of them, so
/// that what it promises is proved once.
pub trait CallRequest {
    /// What a call of it returns.
    type Payload: Drop;

    /// What contracts see of a request, and of a payload.
    ghost Request: { Type 0 };

    ghost Seen: { Type 0 };

    /// How the calls of its kind are written and read.
    ghost kind: { CallKind Request Seen };

    ghost request: { Self → Request };

    ghost seen: { Self → Self.Payload → Seen };

    /// Its responses can be read as such a payload.
    ghost IsRead: { Self → Type 0 };

    /// Writes its one canonical message in place of what was in the buffer. `Malformed` never
    /// comes.
    fn write(
        &self,
        alloc: Global,
        authentication: &Option<Authentication>,
        out: &mut Buffer,
    ) -> Result<(), WireError>
        ensures ok { OnOk result (kind.bytes_of (request self.now)
            (option_map credential_of authentication.now) ≡ Some out.new.bytes) }
        ensures no_form { IsErrOf result WireError.NoForm → kind.bytes_of (request self.now)
            (option_map credential_of authentication.now) ≡ None }
        ensures never { IfErr result (λ e. e ≢ WireError.Malformed) };

    /// What the bytes of a whole message answer to it.
    fn read(&self, alloc: Global, m: &[u8]) -> Result<Self::Payload, Error>
        requires { IsRead self.now }
        ensures { Gives (kind.reads (request self.now) m.now) (seen_by (seen self.now) result) };

    /// No message answers that the link failed, writing or reading, and a message is valid exactly where it answers a
    /// payload. It does nothing.
    fn readings_hold()
        ensures never_fails { (r : Request) (m : List ℕ) → kind.reads r m ≡ reading_failed → ⊥ }
        ensures never_writes { (r : Request) (m : List ℕ) →
            kind.reads r m ≡ writing_failed → ⊥ }
        ensures valid { (r : Request) (limit : Option ℕ) →
            IsReadBy (kind.reads r) limit (kind.IsValid r limit) };
}

/// How the response to a request is read. A reading is over any of them, so that what it promises is
/// proved once.
pub trait ReadsAnswer {
    /// What a reading returns.
    type Payload: Drop;

    /// What contracts see of a payload.
    ghost Seen: { Type 0 };

    /// What a whole message answers.
    ghost reads: { Self → ReadingOf Seen };

    ghost seen: { Self → Self.Payload → Seen };

    /// Its responses can be read as such a payload.
    ghost IsRead: { Self → Type 0 };

    /// What the bytes of a whole message answer.
    fn read(&self, alloc: Global, m: &[u8]) -> Result<Self::Payload, Error>
        requires { IsRead self.now }
        ensures { Gives (reads self.now m.now) (seen_by (seen self.now) result) };
}

/// The answers to a request.
#[derive(Drop)]
pub struct AnswersTo<'a, R> {
    /// The request.
    pub request: &'a R,
}

impl<'a, R: CallRequest> ReadsAnswer for AnswersTo<'a, R> {
    type Payload = R::Payload;

    ghost Seen = { R.Seen };

    ghost reads = { λ r. R.kind.reads (R.request r.request.now) };

    ghost seen = { λ r. R.seen r.request.now };

    ghost IsRead = { λ r. R.IsRead r.request.now };

    fn read(&self, alloc: Global, m: &[u8]) -> Result<R::Payload, Error> {
        self.request.read(alloc, m)
    }
}

/// The answers to requests of this operation, read as this payload.
#[derive(Drop)]
pub struct TypedAnswers<P> {
    /// The operation that was asked for.
    pub operation: Operation,
    /// The type that a response is read as; it holds no value.
    pub returns: PhantomData<P>,
}

impl<P: Answered> ReadsAnswer for TypedAnswers<P> {
    type Payload = P;

    ghost Seen = { Val };

    ghost reads = { λ r. read_answer r.operation };

    ghost seen = { λ r. P.val r.operation };

    ghost IsRead = { λ r. P.Answers r.operation };

    fn read(&self, alloc: Global, m: &[u8]) -> Result<P, Error> {
        decode_response(alloc, self.operation, m)
    }
}

/// A request of KMIP's tables, whose response is read as this payload.
#[derive(Drop)]
pub struct TypedRequest<'a, P> {
    /// What is asked: the operation, with its values.
    pub payload: &'a RequestPayload,
    /// The type that its response is read as; it holds no value.
    pub returns: PhantomData<P>,
}

impl<'a, P: Answered> CallRequest for TypedRequest<'a, P> {
    type Payload = P;

    ghost Request = { ThePayload };

    ghost Seen = { Val };

    ghost kind = { typed_calls };

    ghost request = { λ r. r.payload.now };

    ghost seen = { λ r. P.val (operation_of r.payload.now) };

    ghost IsRead = { λ r. P.Answers (operation_of r.payload.now) };

    fn write(
        &self,
        _alloc: Global,
        authentication: &Option<Authentication>,
        out: &mut Buffer,
    ) -> Result<(), WireError> {
        write_request_into(self.payload, authentication, out)
    }

    fn read(&self, alloc: Global, m: &[u8]) -> Result<P, Error> {
        decode_response(alloc, self.payload.operation(), m)
    }

    fn readings_hold()
        ensures never_fails { (r : ThePayload) (m : List ℕ) →
            typed_calls.reads r m ≡ reading_failed → ⊥ }
        ensures never_writes { (r : ThePayload) (m : List ℕ) →
            typed_calls.reads r m ≡ writing_failed → ⊥ }
        ensures valid { (r : ThePayload) (limit : Option ℕ) →
            IsReadBy (typed_calls.reads r) limit (typed_calls.IsValid r limit) }
    {}
}
