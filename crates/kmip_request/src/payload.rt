//! What a request asks for.

ghost use Rattle.std.specs.Prelude.{◌≡◌};
ghost use Rattle.kmip_request.specs.Message.{operation_of, version_of};
ghost use Rattle.kmip_request.specs.Tables.{request_payload};
ghost use Rattle.kmip_request_objects.specs.Tables.{attribute, name, public_key, private_key};
ghost use Rattle.kmip_request_objects.specs.Tables.{template};
ghost use Rattle.kmip_request.specs.Values.{request_payload_val};
ghost use Rattle.kmip_request.specs.Same.{request_payload_same};

mod copy;
mod fits;
mod len;
mod read;
mod rows;
mod write;

use crate::header::ProtocolVersion;
use crate::numbers::{ProtocolVersionMajor, ProtocolVersionMinor};
use kmip_enums::{ObjectType, Operation, QueryFunction};
use kmip_request_objects::{
    Attribute, CommonTemplateAttribute, KeyWrappingSpecification, ManagedObject,
    PrivateKeyTemplateAttribute, PublicKeyTemplateAttribute, RevocationReason, TemplateAttribute,
};
use kmip_shape::{Item, Outer, ReadError, ReadItem, WriteItem};
use kmip_types::{
    AttributeIndex, AttributeName, CompromiseOccurrenceDate, CryptographicParameters, Data,
    DataLength, KeyCompressionType, KeyFormatType, UniqueIdentifier,
};
use kmip_wire::{Boxed, Buffer, ItemRef, List, OutOfMemory, Tag, TryClone};
use std::alloc::Global;

/// What a request asks for: a variant for each operation, with the operation's fields in order.
///
/// Where the identifier of the object is absent, the server takes its ID Placeholder, which an
/// earlier operation of the same batch sets (KMIP 1.0, 4). A request that is written here has one
/// batch item, so there is none.
#[derive(PartialEq, Eq, Drop)]
pub enum RequestPayload {
    /// Makes a new symmetric key on the server: KMIP 1.0, 4.1.
    Create(ObjectType, TemplateAttribute),
    /// Makes a new pair of a private and a public key: KMIP 1.0, 4.2.
    CreateKeyPair(
        Option<CommonTemplateAttribute>,
        Option<PrivateKeyTemplateAttribute>,
        Option<PublicKeyTemplateAttribute>,
    ),
    /// Registers an object that the client has, under the tag of its type: KMIP 1.0, 4.3.
    Register(ObjectType, TemplateAttribute, Option<ManagedObject>),
    /// Asks which objects have all these attributes: KMIP 1.0, 4.8.
    Locate(List<Attribute>),
    /// Asks for an object, in this format, compression and wrapping: KMIP 1.0, 4.10.
    Get(
        Option<UniqueIdentifier>,
        Option<KeyFormatType>,
        Option<KeyCompressionType>,
        Option<Boxed<KeyWrappingSpecification>>,
    ),
    /// Asks for the attributes of these names, and for all without names: KMIP 1.0, 4.11.
    GetAttributes(Option<UniqueIdentifier>, Option<List<AttributeName>>),
    /// Asks for the names of an object's attributes: KMIP 1.0, 4.12.
    GetAttributeList(Option<UniqueIdentifier>),
    /// Adds an attribute: KMIP 1.0, 4.13.
    AddAttribute(Option<UniqueIdentifier>, Attribute),
    /// Changes the attribute of that name and index, 0 where absent: KMIP 1.0, 4.14.
    ModifyAttribute(Option<UniqueIdentifier>, Attribute),
    /// Deletes the attribute of that name and index, 0 where absent: KMIP 1.0, 4.15.
    DeleteAttribute(Option<UniqueIdentifier>, AttributeName, Option<AttributeIndex>),
    /// Makes an object active: KMIP 1.0, 4.18.
    Activate(Option<UniqueIdentifier>),
    /// Revokes an object, for a reason and with the date of a compromise: KMIP 1.0, 4.19.
    Revoke(Option<UniqueIdentifier>, RevocationReason, Option<CompromiseOccurrenceDate>),
    /// Destroys an object: KMIP 1.0, 4.20.
    Destroy(Option<UniqueIdentifier>),
    /// Asks what the server supports, and for information about it: KMIP 1.0, 4.24.
    Query(List<QueryFunction>),
    /// Asks which of these versions the server supports, and for all without any: KMIP 1.1, 4.26.
    DiscoverVersions(List<ProtocolVersion>),
    /// Asks for a signature of the data: KMIP 1.2, 4.31.
    Sign(Option<UniqueIdentifier>, Option<CryptographicParameters>, Data),
    /// Asks for that many random bytes: KMIP 1.2, 4.35.
    RNGRetrieve(DataLength),
}

impl RequestPayload {
    /// The operation that the variant is named after. It takes no memory.
    pub fn operation(&self) -> Operation
        ensures { result ≡ operation_of self.now }
    {
        match self {
            RequestPayload::Create(..) => Operation::Create,
            RequestPayload::CreateKeyPair(..) => Operation::CreateKeyPair,
            RequestPayload::Register(..) => Operation::Register,
            RequestPayload::Locate(..) => Operation::Locate,
            RequestPayload::Get(..) => Operation::Get,
            RequestPayload::GetAttributes(..) => Operation::GetAttributes,
            RequestPayload::GetAttributeList(..) => Operation::GetAttributeList,
            RequestPayload::AddAttribute(..) => Operation::AddAttribute,
            RequestPayload::ModifyAttribute(..) => Operation::ModifyAttribute,
            RequestPayload::DeleteAttribute(..) => Operation::DeleteAttribute,
            RequestPayload::Activate(..) => Operation::Activate,
            RequestPayload::Revoke(..) => Operation::Revoke,
            RequestPayload::Destroy(..) => Operation::Destroy,
            RequestPayload::Query(..) => Operation::Query,
            RequestPayload::DiscoverVersions(..) => Operation::DiscoverVersions,
            RequestPayload::Sign(..) => Operation::Sign,
            RequestPayload::RNGRetrieve(..) => Operation::RNGRetrieve,
        }
    }

    /// The version of KMIP that a request of the payload is written in: 1.2 for Query, Sign and RNG
    /// Retrieve, 1.1 for Discover Versions, 1.0 for the others. It takes no memory.
    pub fn protocol_version(&self) -> ProtocolVersion
        ensures { result ≡ version_of self.now }
    {
        let minor = match self {
            RequestPayload::Query(..)
            | RequestPayload::Sign(..)
            | RequestPayload::RNGRetrieve(..) => 2,
            RequestPayload::DiscoverVersions(..) => 1,
            _ => 0,
        };
        ProtocolVersion(ProtocolVersionMajor(1), ProtocolVersionMinor(minor))
    }
}

impl Item for RequestPayload {
    ghost shape = { request_payload };

    ghost val = { request_payload_val };

    fn fits(&self) {
        match self {
            Self::Create(object_type, template) => fits::create(object_type, template),
            Self::CreateKeyPair(common, private_key, public_key) => fits::create_key_pair(
                common,
                private_key,
                public_key,
            ),
            Self::Register(object_type, template, object) => fits::register(
                object_type,
                template,
                object,
            ),
            Self::Locate(attributes) => fits::locate(attributes),
            Self::Get(id, format, compression, specification) => fits::get(
                id,
                format,
                compression,
                specification,
            ),
            Self::GetAttributes(id, names) => fits::get_attributes(id, names),
            Self::GetAttributeList(id) => fits::identifier(id),
            Self::AddAttribute(id, attribute) => fits::edit(id, attribute),
            Self::ModifyAttribute(id, attribute) => fits::edit(id, attribute),
            Self::DeleteAttribute(id, name, index) => fits::delete_attribute(id, name, index),
            Self::Activate(id) => fits::identifier(id),
            Self::Revoke(id, reason, date) => fits::revoke(id, reason, date),
            Self::Destroy(id) => fits::identifier(id),
            Self::Query(functions) => fits::query(functions),
            Self::DiscoverVersions(versions) => fits::discover_versions(versions),
            Self::Sign(id, parameters, data) => fits::sign(id, parameters, data),
            Self::RNGRetrieve(length) => fits::rng_retrieve(length),
        }
    }

    ghost faithful = { request_payload_same };
}

impl WriteItem for RequestPayload {
    fn wire_len(&self, _tag: Tag) -> Option<u64> {
        match self {
            Self::Create(object_type, template) => len::create(object_type, template),
            Self::CreateKeyPair(common, private_key, public_key) => len::create_key_pair(
                common,
                private_key,
                public_key,
            ),
            Self::Register(object_type, template, object) => len::register(
                object_type,
                template,
                object,
            ),
            Self::Locate(attributes) => len::locate(attributes),
            Self::Get(id, format, compression, specification) => len::get(
                id,
                format,
                compression,
                specification,
            ),
            Self::GetAttributes(id, names) => len::get_attributes(id, names),
            Self::GetAttributeList(id) => len::identifier(id),
            Self::AddAttribute(id, attribute) => len::edit(id, attribute),
            Self::ModifyAttribute(id, attribute) => len::edit(id, attribute),
            Self::DeleteAttribute(id, name, index) => len::delete_attribute(id, name, index),
            Self::Activate(id) => len::identifier(id),
            Self::Revoke(id, reason, date) => len::revoke(id, reason, date),
            Self::Destroy(id) => len::identifier(id),
            Self::Query(functions) => len::query(functions),
            Self::DiscoverVersions(versions) => len::discover_versions(versions),
            Self::Sign(id, parameters, data) => len::sign(id, parameters, data),
            Self::RNGRetrieve(length) => len::rng_retrieve(length),
        }
    }

    fn write_into(&self, tag: Tag, out: &mut Buffer) {
        match self {
            Self::Create(object_type, template) => write::create(object_type, template, tag, out),
            Self::CreateKeyPair(common, private_key, public_key) => write::create_key_pair(
                common,
                private_key,
                public_key,
                tag,
                out,
            ),
            Self::Register(object_type, template, object) => write::register(
                object_type,
                template,
                object,
                tag,
                out,
            ),
            Self::Locate(attributes) => write::locate(attributes, tag, out),
            Self::Get(id, format, compression, specification) => write::get(
                id,
                format,
                compression,
                specification,
                tag,
                out,
            ),
            Self::GetAttributes(id, names) => write::get_attributes(id, names, tag, out),
            Self::GetAttributeList(id) => write::identifier(id, tag, out),
            Self::AddAttribute(id, attribute) => write::edit(id, attribute, tag, out),
            Self::ModifyAttribute(id, attribute) => write::edit(id, attribute, tag, out),
            Self::DeleteAttribute(id, name, index) => write::delete_attribute(
                id, name, index, tag, out,
            ),
            Self::Activate(id) => write::identifier(id, tag, out),
            Self::Revoke(id, reason, date) => write::revoke(id, reason, date, tag, out),
            Self::Destroy(id) => write::identifier(id, tag, out),
            Self::Query(functions) => write::query(functions, tag, out),
            Self::DiscoverVersions(versions) => write::discover_versions(versions, tag, out),
            Self::Sign(id, parameters, data) => write::sign(id, parameters, data, tag, out),
            Self::RNGRetrieve(length) => write::rng_retrieve(length, tag, out),
        }
    }
}

impl ReadItem for RequestPayload {
    fn read(alloc: Global, outer: Outer<'_>, item: ItemRef<'_>) -> Result<Self, ReadError> {
        match outer.number {
            Some(1) => read::create(alloc, outer, item),
            Some(2) => read::create_key_pair(alloc, outer, item),
            Some(3) => read::register(alloc, outer, item),
            Some(8) => read::locate(alloc, outer, item),
            Some(10) => read::get(alloc, outer, item),
            Some(11) => read::get_attributes(alloc, outer, item),
            Some(12) => read::get_attribute_list(alloc, outer, item),
            Some(13) => read::add_attribute(alloc, outer, item),
            Some(14) => read::modify_attribute(alloc, outer, item),
            Some(15) => read::delete_attribute(alloc, outer, item),
            Some(18) => read::activate(alloc, outer, item),
            Some(19) => read::revoke(alloc, outer, item),
            Some(20) => read::destroy(alloc, outer, item),
            Some(24) => read::query(alloc, outer, item),
            Some(30) => read::discover_versions(alloc, outer, item),
            Some(33) => read::sign(alloc, outer, item),
            Some(37) => read::rng_retrieve(alloc, outer, item),
            _ => Err(ReadError::Unread),
        }
    }
}

impl TryClone for RequestPayload {
    fn try_clone(&self, alloc: Global) -> Result<RequestPayload, OutOfMemory> {
        match self {
            Self::Create(object_type, template) => copy::create(object_type, template, alloc),
            Self::CreateKeyPair(common, private_key, public_key) => copy::create_key_pair(
                common,
                private_key,
                public_key,
                alloc,
            ),
            Self::Register(object_type, template, object) => copy::register(
                object_type,
                template,
                object,
                alloc,
            ),
            Self::Locate(attributes) => copy::locate(attributes, alloc),
            Self::Get(id, format, compression, specification) => copy::get(
                id,
                format,
                compression,
                specification,
                alloc,
            ),
            Self::GetAttributes(id, names) => copy::get_attributes(id, names, alloc),
            Self::GetAttributeList(id) => copy::get_attribute_list(id, alloc),
            Self::AddAttribute(id, attribute) => copy::add_attribute(id, attribute, alloc),
            Self::ModifyAttribute(id, attribute) => copy::modify_attribute(id, attribute, alloc),
            Self::DeleteAttribute(id, name, index) => copy::delete_attribute(
                id, name, index, alloc,
            ),
            Self::Activate(id) => copy::activate(id, alloc),
            Self::Revoke(id, reason, date) => copy::revoke(id, reason, date, alloc),
            Self::Destroy(id) => copy::destroy(id, alloc),
            Self::Query(functions) => copy::query(functions, alloc),
            Self::DiscoverVersions(versions) => copy::discover_versions(versions, alloc),
            Self::Sign(id, parameters, data) => copy::sign(id, parameters, data, alloc),
            Self::RNGRetrieve(length) => Ok(Self::RNGRetrieve(*length)),
        }
    }
}
