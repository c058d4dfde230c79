//! Lemmas: the fields of a payload fit its table. Each is a function of its own, so that each is
//! proved alone. The calls do nothing.

ghost use Rattle.kmip_request.specs.Fits.{FitsPayload};
ghost use Rattle.kmip_request.specs.declared.payload.RequestPayload.TheVariants as payloads;

use crate::header::ProtocolVersion;
use crate::payload::rows::{
    CreateKeyPairRows, CreateRows, DeleteAttributeRows, DiscoverVersionsRows, EditRows,
    GetAttributesRows, GetRows, IdentifierRows, LocateRows, QueryRows, RNGRetrieveRows,
    RegisterRows, RevokeRows, SignRows,
};
use kmip_enums::{ObjectType, QueryFunction};
use kmip_request_objects::{
    Attribute, CommonTemplateAttribute, KeyWrappingSpecification, ManagedObject,
    PrivateKeyTemplateAttribute, PublicKeyTemplateAttribute, RevocationReason, TemplateAttribute,
};
use kmip_shape::{fields, fits_record};
use kmip_types::{
    AttributeIndex, AttributeName, CompromiseOccurrenceDate, CryptographicParameters, Data,
    DataLength, KeyCompressionType, KeyFormatType, UniqueIdentifier,
};
use kmip_wire::{Boxed, List};

/// The lemma for Create.
pub(crate) fn create(object_type: &ObjectType, template: &TemplateAttribute)
    ensures { FitsPayload (payloads.Create object_type.now template.now) }
{
    fits_record::<CreateRows>(fields![object_type, template]);
}

/// The lemma for Create Key Pair.
pub(crate) fn create_key_pair(
    common: &Option<CommonTemplateAttribute>,
    private_key: &Option<PrivateKeyTemplateAttribute>,
    public_key: &Option<PublicKeyTemplateAttribute>,
)
    ensures { FitsPayload (payloads.CreateKeyPair common.now private_key.now public_key.now) }
{
    fits_record::<CreateKeyPairRows>(fields![common, private_key, public_key]);
}

/// The lemma for Register.
pub(crate) fn register(
    object_type: &ObjectType,
    template: &TemplateAttribute,
    object: &Option<ManagedObject>,
)
    ensures { FitsPayload (payloads.Register object_type.now template.now object.now) }
{
    fits_record::<RegisterRows>(fields![object_type, template, object]);
}

/// The lemma for Locate.
pub(crate) fn locate(attributes: &List<Attribute>)
    ensures { FitsPayload (payloads.Locate attributes.now) }
{
    fits_record::<LocateRows>(fields![attributes]);
}

/// The lemma for Get.
pub(crate) fn get(
    id: &Option<UniqueIdentifier>,
    format: &Option<KeyFormatType>,
    compression: &Option<KeyCompressionType>,
    specification: &Option<Boxed<KeyWrappingSpecification>>,
)
    ensures { FitsPayload (payloads.Get id.now format.now compression.now specification.now) }
{
    fits_record::<GetRows>(fields![id, format, compression, specification]);
}

/// The lemma for Get Attributes.
pub(crate) fn get_attributes(id: &Option<UniqueIdentifier>, names: &Option<List<AttributeName>>)
    ensures { FitsPayload (payloads.GetAttributes id.now names.now) }
{
    fits_record::<GetAttributesRows>(fields![id, names]);
}

/// The lemma for Get Attribute List, Activate and Destroy.
pub(crate) fn identifier(id: &Option<UniqueIdentifier>)
    ensures { FitsPayload (payloads.Activate id.now) }
{
    fits_record::<IdentifierRows>(fields![id]);
}

/// The lemma for Add Attribute and Modify Attribute.
pub(crate) fn edit(id: &Option<UniqueIdentifier>, attribute: &Attribute)
    ensures { FitsPayload (payloads.AddAttribute id.now attribute.now) }
{
    fits_record::<EditRows>(fields![id, attribute]);
}

/// The lemma for Delete Attribute.
pub(crate) fn delete_attribute(
    id: &Option<UniqueIdentifier>,
    name: &AttributeName,
    index: &Option<AttributeIndex>,
)
    ensures { FitsPayload (payloads.DeleteAttribute id.now name.now index.now) }
{
    fits_record::<DeleteAttributeRows>(fields![id, name, index]);
}

/// The lemma for Revoke.
pub(crate) fn revoke(
    id: &Option<UniqueIdentifier>,
    reason: &RevocationReason,
    date: &Option<CompromiseOccurrenceDate>,
)
    ensures { FitsPayload (payloads.Revoke id.now reason.now date.now) }
{
    fits_record::<RevokeRows>(fields![id, reason, date]);
}

/// The lemma for Query.
pub(crate) fn query(functions: &List<QueryFunction>)
    ensures { FitsPayload (payloads.Query functions.now) }
{
    fits_record::<QueryRows>(fields![functions]);
}

/// The lemma for Discover Versions.
pub(crate) fn discover_versions(versions: &List<ProtocolVersion>)
    ensures { FitsPayload (payloads.DiscoverVersions versions.now) }
{
    fits_record::<DiscoverVersionsRows>(fields![versions]);
}

/// The lemma for Sign.
pub(crate) fn sign(
    id: &Option<UniqueIdentifier>,
    parameters: &Option<CryptographicParameters>,
    contents: &Data,
)
    ensures { FitsPayload (payloads.Sign id.now parameters.now contents.now) }
{
    fits_record::<SignRows>(fields![id, parameters, contents]);
}

/// The lemma for RNG Retrieve.
pub(crate) fn rng_retrieve(length: &DataLength)
    ensures { FitsPayload (payloads.RNGRetrieve length.now) }
{
    fits_record::<RNGRetrieveRows>(fields![length]);
}
