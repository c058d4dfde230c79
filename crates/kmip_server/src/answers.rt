//! What calls of a client over a server came to.

use kmip_client::Result;
use kmip_response::{
    GetResponsePayload, ModifyAttributeResponsePayload, QueryResponsePayload,
    RNGRetrieveResponsePayload, SignResponsePayload,
};
use kmip_wire::{Blob, List, Text};

/// What a helper returned.
#[derive(Drop)]
pub enum Answered {
    /// A key was activated, revoked or destroyed.
    Unit,
    /// The identifiers of the private and the public key of a new pair.
    Pair(Text, Text),
    /// Which operations the server has, and for which types of objects.
    Query(QueryResponsePayload),
    /// Random bytes.
    Random(RNGRetrieveResponsePayload),
    /// A signature.
    Signed(SignResponsePayload),
    /// The attribute that a key was given.
    Renamed(ModifyAttributeResponsePayload),
    /// An object.
    Got(GetResponsePayload),
}

/// A call that was made.
#[derive(Drop)]
pub struct CallAnswer {
    /// The bytes that went over its link in this call.
    pub sent: Blob,
    /// What the helper returned.
    pub answer: Result<Answered>,
    /// The diagnostic of its request, where the client keeps diagnostics and the request is valid.
    pub req_diag: Option<Text>,
    /// The diagnostic of the bytes that it took, where the client keeps diagnostics and the request
    /// was sent whole.
    pub res_diag: Option<Text>,
}

/// The calls that were made, in order.
pub type CallAnswers = List<CallAnswer>;
