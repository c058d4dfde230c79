//! The payload of a response.

ghost use Rattle.std.specs.Prelude.{◌≡◌, IfOk, Some, None, Err};
ghost use Rattle.kmip_wire.specs.Items.{item_tree};
ghost use Rattle.kmip_shape.specs.Reads.{read_of};
ghost use Rattle.kmip_shape.specs.Resume.{outer_of};
ghost use Rattle.kmip_response.specs.Tables.{response_payload};
ghost use Rattle.kmip_response.specs.Values.{response_payload_val};
ghost use Rattle.kmip_response.specs.Same.{response_payload_same};

use crate::payloads::attributes::{
    AttributeEditResponsePayload, GetAttributeListResponsePayload, GetAttributesResponsePayload,
};
use crate::payloads::cryptography::{RNGRetrieveResponsePayload, SignResponsePayload};
use crate::payloads::get::GetResponsePayload;
use crate::payloads::identifiers::{
    CreateKeyPairResponsePayload, CreateResponsePayload, LocateResponsePayload,
    RegisterResponsePayload, UniqueIdentifierResponsePayload,
};
use crate::payloads::query::QueryResponsePayload;
use crate::payloads::server::DiscoverVersionsResponsePayload;
use kmip_shape::{Item, Outer, ReadError, ReadItem, ShowItem, TextWriter, WriteItem, show_case};
use kmip_wire::{Boxed, Buffer, ItemRef, OutOfMemory, Tag, TryClone};
use std::alloc::Global;

/// What an operation returned. The operation of its batch item selects the variant.
#[derive(PartialEq, Eq, Drop)]
pub enum ResponsePayload {
    /// What Create returns: KMIP 1.0, 4.1.
    Create(CreateResponsePayload),
    /// What Create Key Pair returns: KMIP 1.0, 4.2.
    CreateKeyPair(CreateKeyPairResponsePayload),
    /// What Register returns: KMIP 1.0, 4.3.
    Register(RegisterResponsePayload),
    /// What Locate returns: KMIP 1.0, 4.8.
    Locate(LocateResponsePayload),
    /// What Get returns: KMIP 1.0, 4.10.
    Get(Boxed<GetResponsePayload>),
    /// What Get Attributes returns: KMIP 1.0, 4.11.
    GetAttributes(GetAttributesResponsePayload),
    /// What Get Attribute List returns: KMIP 1.0, 4.12.
    GetAttributeList(GetAttributeListResponsePayload),
    /// What Add Attribute returns: KMIP 1.0, 4.13.
    AddAttribute(AttributeEditResponsePayload),
    /// What Modify Attribute returns: KMIP 1.0, 4.14.
    ModifyAttribute(AttributeEditResponsePayload),
    /// What Delete Attribute returns: KMIP 1.0, 4.15.
    DeleteAttribute(AttributeEditResponsePayload),
    /// What Activate returns: KMIP 1.0, 4.18.
    Activate(UniqueIdentifierResponsePayload),
    /// What Revoke returns: KMIP 1.0, 4.19.
    Revoke(UniqueIdentifierResponsePayload),
    /// What Destroy returns: KMIP 1.0, 4.20.
    Destroy(UniqueIdentifierResponsePayload),
    /// What Query returns: KMIP 1.0, 4.24.
    Query(Boxed<QueryResponsePayload>),
    /// What Discover Versions returns: KMIP 1.1, 4.26.
    DiscoverVersions(DiscoverVersionsResponsePayload),
    /// What Sign returns: KMIP 1.2, 4.31.
    Sign(SignResponsePayload),
    /// What RNG Retrieve returns: KMIP 1.2, 4.35.
    RNGRetrieve(RNGRetrieveResponsePayload),
}

impl TryClone for ResponsePayload {
    fn try_clone(&self, alloc: Global) -> Result<ResponsePayload, OutOfMemory> {
        match self {
            Self::Create(payload) => payload.try_clone(alloc).map(Self::Create),
            Self::CreateKeyPair(payload) => payload.try_clone(alloc).map(Self::CreateKeyPair),
            Self::Register(payload) => payload.try_clone(alloc).map(Self::Register),
            Self::Locate(payload) => payload.try_clone(alloc).map(Self::Locate),
            Self::Get(payload) => payload.try_clone(alloc).map(Self::Get),
            Self::GetAttributes(payload) => payload.try_clone(alloc).map(Self::GetAttributes),
            Self::GetAttributeList(payload) => payload.try_clone(alloc).map(Self::GetAttributeList),
            Self::AddAttribute(payload) => payload.try_clone(alloc).map(Self::AddAttribute),
            Self::ModifyAttribute(payload) => payload.try_clone(alloc).map(Self::ModifyAttribute),
            Self::DeleteAttribute(payload) => payload.try_clone(alloc).map(Self::DeleteAttribute),
            Self::Activate(payload) => payload.try_clone(alloc).map(Self::Activate),
            Self::Revoke(payload) => payload.try_clone(alloc).map(Self::Revoke),
            Self::Destroy(payload) => payload.try_clone(alloc).map(Self::Destroy),
            Self::Query(payload) => payload.try_clone(alloc).map(Self::Query),
            Self::DiscoverVersions(payload) => payload.try_clone(alloc).map(Self::DiscoverVersions),
            Self::Sign(payload) => payload.try_clone(alloc).map(Self::Sign),
            Self::RNGRetrieve(payload) => payload.try_clone(alloc).map(Self::RNGRetrieve),
        }
    }
}

/// A call on the payload of a variant, whichever it is.
macro_rules! of_payload {
    ($of:expr, $payload:ident => $call:expr) => {
        match $of {
            ResponsePayload::Create($payload) => $call,
            ResponsePayload::CreateKeyPair($payload) => $call,
            ResponsePayload::Register($payload) => $call,
            ResponsePayload::Locate($payload) => $call,
            ResponsePayload::Get($payload) => $call,
            ResponsePayload::GetAttributes($payload) => $call,
            ResponsePayload::GetAttributeList($payload) => $call,
            ResponsePayload::AddAttribute($payload) => $call,
            ResponsePayload::ModifyAttribute($payload) => $call,
            ResponsePayload::DeleteAttribute($payload) => $call,
            ResponsePayload::Activate($payload) => $call,
            ResponsePayload::Revoke($payload) => $call,
            ResponsePayload::Destroy($payload) => $call,
            ResponsePayload::Query($payload) => $call,
            ResponsePayload::DiscoverVersions($payload) => $call,
            ResponsePayload::Sign($payload) => $call,
            ResponsePayload::RNGRetrieve($payload) => $call,
        }
    };
}

impl Item for ResponsePayload {
    ghost shape = { response_payload };

    ghost val = { response_payload_val };

    fn fits(&self) {
        of_payload!(self, payload => payload.fits())
    }

    ghost faithful = { response_payload_same };
}

impl WriteItem for ResponsePayload {
    fn wire_len(&self, tag: Tag) -> Option<u64> {
        of_payload!(self, payload => payload.wire_len(tag))
    }

    fn write_into(&self, tag: Tag, out: &mut Buffer) {
        of_payload!(self, payload => payload.write_into(tag, out))
    }
}

/// Reads the payload that a variant holds. Each arm below calls it, and so has no value of its own
/// whose drop is to be proved.
fn read_as<T: ReadItem, F: FnOnce(T) -> ResponsePayload>(
    variant: F,
    alloc: Global,
    outer: Outer<'_>,
    item: ItemRef<'_>,
) -> Result<ResponsePayload, ReadError>
    requires { F.IsAlwaysCallable variant }
    ensures ok { IfOk result (λ x. (payload : T) × F.post variant payload x ×
        (read_of T.shape (outer_of outer.entry) (item_tree item.entry) ≡ Some (T.val payload))) }
    ensures unread { result ≡ Err ReadError.Unread →
        read_of T.shape (outer_of outer.entry) (item_tree item.entry) ≡ None }
{
    let payload = T::read(alloc, outer, item)?;
    Ok(variant(payload))
}

impl ReadItem for ResponsePayload {
    fn read(alloc: Global, outer: Outer<'_>, item: ItemRef<'_>) -> Result<Self, ReadError> {
        match outer.number {
            Some(1) => read_as(Self::Create, alloc, outer, item),
            Some(2) => read_as(Self::CreateKeyPair, alloc, outer, item),
            Some(3) => read_as(Self::Register, alloc, outer, item),
            Some(8) => read_as(Self::Locate, alloc, outer, item),
            Some(10) => read_as(Self::Get, alloc, outer, item),
            Some(11) => read_as(Self::GetAttributes, alloc, outer, item),
            Some(12) => read_as(Self::GetAttributeList, alloc, outer, item),
            Some(13) => read_as(Self::AddAttribute, alloc, outer, item),
            Some(14) => read_as(Self::ModifyAttribute, alloc, outer, item),
            Some(15) => read_as(Self::DeleteAttribute, alloc, outer, item),
            Some(18) => read_as(Self::Activate, alloc, outer, item),
            Some(19) => read_as(Self::Revoke, alloc, outer, item),
            Some(20) => read_as(Self::Destroy, alloc, outer, item),
            Some(24) => read_as(Self::Query, alloc, outer, item),
            Some(30) => read_as(Self::DiscoverVersions, alloc, outer, item),
            Some(33) => read_as(Self::Sign, alloc, outer, item),
            Some(37) => read_as(Self::RNGRetrieve, alloc, outer, item),
            _ => Err(ReadError::Unread),
        }
    }
}

impl ShowItem for ResponsePayload {
    fn show_into(&self, out: &mut TextWriter) {
        match self {
            Self::Create(payload) => show_case("Create", payload, out),
            Self::CreateKeyPair(payload) => show_case("CreateKeyPair", payload, out),
            Self::Register(payload) => show_case("Register", payload, out),
            Self::Locate(payload) => show_case("Locate", payload, out),
            Self::Get(payload) => show_case("Get", payload, out),
            Self::GetAttributes(payload) => show_case("GetAttributes", payload, out),
            Self::GetAttributeList(payload) => show_case("GetAttributeList", payload, out),
            Self::AddAttribute(payload) => show_case("AddAttribute", payload, out),
            Self::ModifyAttribute(payload) => show_case("ModifyAttribute", payload, out),
            Self::DeleteAttribute(payload) => show_case("DeleteAttribute", payload, out),
            Self::Activate(payload) => show_case("Activate", payload, out),
            Self::Revoke(payload) => show_case("Revoke", payload, out),
            Self::Destroy(payload) => show_case("Destroy", payload, out),
            Self::Query(payload) => show_case("Query", payload, out),
            Self::DiscoverVersions(payload) => show_case("DiscoverVersions", payload, out),
            Self::Sign(payload) => show_case("Sign", payload, out),
            Self::RNGRetrieve(payload) => show_case("RNGRetrieve", payload, out),
        }
    }
}
