//! The helpers: each makes one request, calls `do_request`, passes its errors on and projects its
//! payload.
ghost use Rattle.std.specs.Prelude.{◌≡◌, IfOk};
ghost use Rattle.kmip_response.specs.declared.payload.ResponsePayload.TheVariants as payloads;
ghost use Rattle.kmip_client.specs.Calls.{IsCall, Helped, Asked, part_of, nothing_of};
ghost use Rattle.kmip_client.specs.Calls.{identifiers_of};
ghost use Rattle.kmip_response.specs.Values.{response_payload_val};
ghost use Rattle.kmip_client.specs.Outcome.{seen_by};
ghost use Rattle.kmip_request.specs.Requests as requests;
ghost use Rattle.kmip_request.specs.Message.{operation_of};

use crate::answered::Answered;
use crate::client::Client;
use crate::error::{Error, Result};
use kmip_link::Link;
use kmip_request::{
    RequestPayload, activate_request, destroy_request, get_request, key_pair_request,
    query_request, rename_request, revoke_request, sign_request,
};
use kmip_response::{
    CreateKeyPairResponsePayload, GetResponsePayload, ModifyAttributeResponsePayload,
    QueryResponsePayload, RNGRetrieveResponsePayload, SignResponsePayload,
    UniqueIdentifierResponsePayload,
};
use kmip_types::{DataLength, UniqueIdentifier};
use kmip_wire::{OutOfMemory, Text};
use std::alloc::Global;

impl<T: Link> Client<T> {
    /// Asks what the server can do, with which objects, and who it is: KMIP 1.0, 4.24.
    pub fn query(&mut self, alloc: Global) -> Result<QueryResponsePayload>
        ensures { Helped T.state requests.query_request payloads.Query (λ payload. payload) self.old
            self.new result }
    {
        self.ask(alloc, query_request(alloc))
    }

    /// Asks for an RSA pair of that many bits, the private key to sign with and the public key to
    /// verify with, and returns the identifiers of the private key and the public key: KMIP 1.0,
    /// 4.2.
    pub fn create_rsa_key_pair(
        &mut self,
        alloc: Global,
        key_length: i32,
        private_key_name: Text,
        public_key_name: Text,
    ) -> Result<(Text, Text)>
        ensures { Helped T.state (requests.key_pair_request key_length private_key_name
            public_key_name) payloads.CreateKeyPair identifiers_of self.old self.new result }
    {
        let request = key_pair_request(alloc, key_length, private_key_name, public_key_name);
        identifiers(self.ask(alloc, request))
    }

    /// Asks for that many random bytes, and returns those that the server gave: KMIP 1.2, 4.35.
    pub fn rng_retrieve(
        &mut self,
        alloc: Global,
        num_bytes: i32,
    ) -> Result<RNGRetrieveResponsePayload>
        ensures { IsCall T.state (requests.rng_request num_bytes) self.old self.new
            (seen_by (λ payload. response_payload_val (payloads.RNGRetrieve payload)) result) }
    {
        let payload = RequestPayload::RNGRetrieve(DataLength(num_bytes));
        let answer = self.request(alloc, &payload);
        drop(payload);
        answer
    }

    /// Asks for a signature of these bytes, by RSA with PKCS #1 v1.5 padding of their SHA-256
    /// digest: KMIP 1.2, 4.31.
    pub fn sign(
        &mut self,
        alloc: Global,
        private_key_id: &str,
        in_bytes: &[u8],
    ) -> Result<SignResponsePayload>
        ensures { Helped T.state (requests.sign_request private_key_id.now in_bytes.now)
            payloads.Sign (λ payload. payload) self.old self.new result }
    {
        self.ask(alloc, sign_request(alloc, private_key_id, in_bytes))
    }

    /// Makes a key ready for use: KMIP 1.0, 4.18.
    pub fn activate_key(&mut self, alloc: Global, private_key_id: &str) -> Result<()>
        ensures { Helped T.state (requests.activate_request private_key_id.now) payloads.Activate
            nothing_of self.old self.new result }
    {
        without_payload(self.ask(alloc, activate_request(alloc, private_key_id)))
    }

    /// Takes a key out of use, since it is no longer needed: KMIP 1.0, 4.19.
    pub fn revoke_key(&mut self, alloc: Global, private_key_id: &str) -> Result<()>
        ensures { Helped T.state (requests.revoke_request private_key_id.now) payloads.Revoke
            nothing_of self.old self.new result }
    {
        without_payload(self.ask(alloc, revoke_request(alloc, private_key_id)))
    }

    /// Destroys a key: KMIP 1.0, 4.20.
    pub fn destroy_key(&mut self, alloc: Global, key_id: &str) -> Result<()>
        ensures { Helped T.state (requests.destroy_request key_id.now) payloads.Destroy nothing_of
            self.old self.new result }
    {
        without_payload(self.ask(alloc, destroy_request(alloc, key_id)))
    }

    /// Gives a key another name: KMIP 1.0, 4.14.
    pub fn rename_key(
        &mut self,
        alloc: Global,
        key_id: &str,
        new_name: Text,
    ) -> Result<ModifyAttributeResponsePayload>
        ensures { Helped T.state (requests.rename_request key_id.now new_name)
            payloads.ModifyAttribute (λ payload. payload) self.old self.new result }
    {
        self.ask(alloc, rename_request(alloc, key_id, new_name))
    }

    /// Asks for a key: KMIP 1.0, 4.10.
    pub fn get_key(&mut self, alloc: Global, key_id: &str) -> Result<GetResponsePayload>
        ensures { Helped T.state (requests.get_request key_id.now) payloads.Get (λ payload. payload)
            self.old self.new result }
    {
        self.ask(alloc, get_request(alloc, key_id))
    }

    /// Makes a request, unless memory ran out before it was made.
    fn ask<P: Answered>(
        &mut self,
        alloc: Global,
        request: std::result::Result<RequestPayload, OutOfMemory>,
    ) -> Result<P>
        requires { IfOk request (λ payload. P.Answers (operation_of payload)) }
        ensures { Asked T.state request P.val self.old self.new result }
    {
        match request {
            Ok(payload) => self.request(alloc, &payload),
            Err(_) => Err(Error::OutOfMemory),
        }
    }
}

/// An answer without its payload.
fn without_payload(answer: Result<UniqueIdentifierResponsePayload>) -> Result<()>
    ensures { result ≡ part_of nothing_of answer }
{
    match answer {
        Ok(_) => Ok(()),
        Err(error) => Err(error),
    }
}

/// The identifiers of the private key and the public key of a pair.
fn identifiers(answer: Result<CreateKeyPairResponsePayload>) -> Result<(Text, Text)>
    ensures { result ≡ part_of identifiers_of answer }
{
    match answer {
        Ok(payload) => {
            let UniqueIdentifier(private_key) = payload.private_key_unique_identifier;
            let UniqueIdentifier(public_key) = payload.public_key_unique_identifier;
            Ok((private_key, public_key))
        }
        Err(error) => Err(error),
    }
}
