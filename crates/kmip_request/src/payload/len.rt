//! The length of the canonical bytes of each operation's payload, and `None` exactly where it has
//! none. Each is a function of its own, so that each is proved alone.

ghost use Rattle.std.specs.Prelude.{◌≡◌};
ghost use Rattle.kmip_request.specs.Payload.{payload_len};
ghost use Rattle.kmip_request.specs.declared.payload.RequestPayload.TheVariants as payloads;

use crate::header::ProtocolVersion;
use crate::payload::rows::{
    CreateKeyPairRows, CreateRows, DeleteAttributeRows, DiscoverVersionsRows, EditRows,
    GetAttributesRows, GetRows, IdentifierRows, LocateRows, QueryRows, RNGRetrieveRows,
    RegisterRows, RevokeRows, SignRows,
};
use kmip_enums::{ObjectType, QueryFunction};
use kmip_request_objects::{
    Attribute, CommonTemplateAttribute, KeyWrappingSpecification, ManagedObject,
    PrivateKeyTemplateAttribute, PublicKeyTemplateAttribute, RevocationReason, TemplateAttribute,
};
use kmip_shape::{fields, record_len};
use kmip_types::{
    AttributeIndex, AttributeName, CompromiseOccurrenceDate, CryptographicParameters, Data,
    DataLength, KeyCompressionType, KeyFormatType, UniqueIdentifier,
};
use kmip_wire::{Boxed, List};

/// The length of the payload of Create.
pub(crate) fn create(object_type: &ObjectType, template: &TemplateAttribute) -> Option<u64>
    ensures { result ≡ payload_len (payloads.Create object_type.now template.now) }
{
    record_len::<CreateRows>(fields![object_type, template])
}

/// The length of the payload of Create Key Pair.
pub(crate) fn create_key_pair(
    common: &Option<CommonTemplateAttribute>,
    private_key: &Option<PrivateKeyTemplateAttribute>,
    public_key: &Option<PublicKeyTemplateAttribute>,
) -> Option<u64>
    ensures { result ≡ payload_len (payloads.CreateKeyPair common.now private_key.now
        public_key.now) }
{
    record_len::<CreateKeyPairRows>(fields![common, private_key, public_key])
}

/// The length of the payload of Register.
pub(crate) fn register(
    object_type: &ObjectType,
    template: &TemplateAttribute,
    object: &Option<ManagedObject>,
) -> Option<u64>
    ensures { result ≡ payload_len (payloads.Register object_type.now template.now object.now) }
{
    record_len::<RegisterRows>(fields![object_type, template, object])
}

/// The length of the payload of Locate.
pub(crate) fn locate(attributes: &List<Attribute>) -> Option<u64>
    ensures { result ≡ payload_len (payloads.Locate attributes.now) }
{
    record_len::<LocateRows>(fields![attributes])
}

/// The length of the payload of Get.
pub(crate) fn get(
    id: &Option<UniqueIdentifier>,
    format: &Option<KeyFormatType>,
    compression: &Option<KeyCompressionType>,
    specification: &Option<Boxed<KeyWrappingSpecification>>,
) -> Option<u64>
    ensures { result ≡ payload_len (payloads.Get id.now format.now compression.now
        specification.now) }
{
    record_len::<GetRows>(fields![id, format, compression, specification])
}

/// The length of the payload of Get Attributes.
pub(crate) fn get_attributes(
    id: &Option<UniqueIdentifier>,
    names: &Option<List<AttributeName>>,
) -> Option<u64>
    ensures { result ≡ payload_len (payloads.GetAttributes id.now names.now) }
{
    record_len::<GetAttributesRows>(fields![id, names])
}

/// The length of the payload of Get Attribute List, Activate and Destroy.
pub(crate) fn identifier(id: &Option<UniqueIdentifier>) -> Option<u64>
    ensures { result ≡ payload_len (payloads.Activate id.now) }
{
    record_len::<IdentifierRows>(fields![id])
}

/// The length of the payload of Add Attribute and Modify Attribute.
pub(crate) fn edit(id: &Option<UniqueIdentifier>, attribute: &Attribute) -> Option<u64>
    ensures { result ≡ payload_len (payloads.AddAttribute id.now attribute.now) }
{
    record_len::<EditRows>(fields![id, attribute])
}

/// The length of the payload of Delete Attribute.
pub(crate) fn delete_attribute(
    id: &Option<UniqueIdentifier>,
    name: &AttributeName,
    index: &Option<AttributeIndex>,
) -> Option<u64>
    ensures { result ≡ payload_len (payloads.DeleteAttribute id.now name.now index.now) }
{
    record_len::<DeleteAttributeRows>(fields![id, name, index])
}

/// The length of the payload of Revoke.
pub(crate) fn revoke(
    id: &Option<UniqueIdentifier>,
    reason: &RevocationReason,
    date: &Option<CompromiseOccurrenceDate>,
) -> Option<u64>
    ensures { result ≡ payload_len (payloads.Revoke id.now reason.now date.now) }
{
    record_len::<RevokeRows>(fields![id, reason, date])
}

/// The length of the payload of Query.
pub(crate) fn query(functions: &List<QueryFunction>) -> Option<u64>
    ensures { result ≡ payload_len (payloads.Query functions.now) }
{
    record_len::<QueryRows>(fields![functions])
}

/// The length of the payload of Discover Versions.
pub(crate) fn discover_versions(versions: &List<ProtocolVersion>) -> Option<u64>
    ensures { result ≡ payload_len (payloads.DiscoverVersions versions.now) }
{
    record_len::<DiscoverVersionsRows>(fields![versions])
}

/// The length of the payload of Sign.
pub(crate) fn sign(
    id: &Option<UniqueIdentifier>,
    parameters: &Option<CryptographicParameters>,
    contents: &Data,
) -> Option<u64>
    ensures { result ≡ payload_len (payloads.Sign id.now parameters.now contents.now) }
{
    record_len::<SignRows>(fields![id, parameters, contents])
}

/// The length of the payload of RNG Retrieve.
pub(crate) fn rng_retrieve(length: &DataLength) -> Option<u64>
    ensures { result ≡ payload_len (payloads.RNGRetrieve length.now) }
{
    record_len::<RNGRetrieveRows>(fields![length])
}
