//! Writing the payload of each operation. Each is a function of its own, so that each is proved
//! alone.

ghost use Rattle.std.specs.Prelude.{◌≤◌};
ghost use Rattle.kmip_request.specs.Payload.{HasPayloadForm, payload_size, IsAppended};
ghost use Rattle.kmip_request.specs.declared.payload.RequestPayload.TheVariants as payloads;

use crate::header::ProtocolVersion;
use crate::payload::rows::{
    CreateKeyPairRows, CreateRows, DeleteAttributeRows, DiscoverVersionsRows, EditRows,
    GetAttributesRows, GetRows, IdentifierRows, LocateRows, QueryRows, RNGRetrieveRows,
    RegisterRows, RevokeRows, SignRows,
};
use kmip_enums::{ObjectType, QueryFunction};
use kmip_request_objects::{
    Attribute, CommonTemplateAttribute, KeyWrappingSpecification, ManagedObject,
    PrivateKeyTemplateAttribute, PublicKeyTemplateAttribute, RevocationReason, TemplateAttribute,
};
use kmip_shape::{fields, write_record};
use kmip_types::{
    AttributeIndex, AttributeName, CompromiseOccurrenceDate, CryptographicParameters, Data,
    DataLength, KeyCompressionType, KeyFormatType, UniqueIdentifier,
};
use kmip_wire::{Boxed, Buffer, List, Tag};

/// Appends the payload of Create.
pub(crate) fn create(
    object_type: &ObjectType,
    template: &TemplateAttribute,
    tag: Tag,
    out: &mut Buffer,
)
    requires form { HasPayloadForm (payloads.Create object_type.now template.now) }
    requires room { payload_size (payloads.Create object_type.now template.now) ≤ out.old.spare }
    ensures { IsAppended (payloads.Create object_type.now template.now) tag out.old out.new }
{
    write_record::<CreateRows>(fields![object_type, template], tag, out);
}

/// Appends the payload of Create Key Pair.
pub(crate) fn create_key_pair(
    common: &Option<CommonTemplateAttribute>,
    private_key: &Option<PrivateKeyTemplateAttribute>,
    public_key: &Option<PublicKeyTemplateAttribute>,
    tag: Tag,
    out: &mut Buffer,
)
    requires form { HasPayloadForm (payloads.CreateKeyPair common.now private_key.now
        public_key.now) }
    requires room { payload_size (payloads.CreateKeyPair common.now private_key.now
        public_key.now) ≤ out.old.spare }
    ensures { IsAppended (payloads.CreateKeyPair common.now private_key.now public_key.now) tag
        out.old out.new }
{
    write_record::<CreateKeyPairRows>(fields![common, private_key, public_key], tag, out);
}

/// Appends the payload of Register.
pub(crate) fn register(
    object_type: &ObjectType,
    template: &TemplateAttribute,
    object: &Option<ManagedObject>,
    tag: Tag,
    out: &mut Buffer,
)
    requires form { HasPayloadForm (payloads.Register object_type.now template.now object.now) }
    requires room { payload_size (payloads.Register object_type.now template.now object.now) ≤
        out.old.spare }
    ensures { IsAppended (payloads.Register object_type.now template.now object.now) tag out.old
        out.new }
{
    write_record::<RegisterRows>(fields![object_type, template, object], tag, out);
}

/// Appends the payload of Locate.
pub(crate) fn locate(attributes: &List<Attribute>, tag: Tag, out: &mut Buffer)
    requires form { HasPayloadForm (payloads.Locate attributes.now) }
    requires room { payload_size (payloads.Locate attributes.now) ≤ out.old.spare }
    ensures { IsAppended (payloads.Locate attributes.now) tag out.old out.new }
{
    write_record::<LocateRows>(fields![attributes], tag, out);
}

/// Appends the payload of Get.
pub(crate) fn get(
    id: &Option<UniqueIdentifier>,
    format: &Option<KeyFormatType>,
    compression: &Option<KeyCompressionType>,
    specification: &Option<Boxed<KeyWrappingSpecification>>,
    tag: Tag,
    out: &mut Buffer,
)
    requires form { HasPayloadForm (payloads.Get id.now format.now compression.now
        specification.now) }
    requires room { payload_size (payloads.Get id.now format.now compression.now
        specification.now) ≤ out.old.spare }
    ensures { IsAppended (payloads.Get id.now format.now compression.now specification.now) tag
        out.old out.new }
{
    write_record::<GetRows>(fields![id, format, compression, specification], tag, out);
}

/// Appends the payload of Get Attributes.
pub(crate) fn get_attributes(
    id: &Option<UniqueIdentifier>,
    names: &Option<List<AttributeName>>,
    tag: Tag,
    out: &mut Buffer,
)
    requires form { HasPayloadForm (payloads.GetAttributes id.now names.now) }
    requires room { payload_size (payloads.GetAttributes id.now names.now) ≤ out.old.spare }
    ensures { IsAppended (payloads.GetAttributes id.now names.now) tag out.old out.new }
{
    write_record::<GetAttributesRows>(fields![id, names], tag, out);
}

/// Appends the payload of Get Attribute List, Activate and Destroy.
pub(crate) fn identifier(id: &Option<UniqueIdentifier>, tag: Tag, out: &mut Buffer)
    requires form { HasPayloadForm (payloads.Activate id.now) }
    requires room { payload_size (payloads.Activate id.now) ≤ out.old.spare }
    ensures { IsAppended (payloads.Activate id.now) tag out.old out.new }
{
    write_record::<IdentifierRows>(fields![id], tag, out);
}

/// Appends the payload of Add Attribute and Modify Attribute.
pub(crate) fn edit(id: &Option<UniqueIdentifier>, attribute: &Attribute, tag: Tag, out: &mut Buffer)
    requires form { HasPayloadForm (payloads.AddAttribute id.now attribute.now) }
    requires room { payload_size (payloads.AddAttribute id.now attribute.now) ≤ out.old.spare }
    ensures { IsAppended (payloads.AddAttribute id.now attribute.now) tag out.old out.new }
{
    write_record::<EditRows>(fields![id, attribute], tag, out);
}

/// Appends the payload of Delete Attribute.
pub(crate) fn delete_attribute(
    id: &Option<UniqueIdentifier>,
    name: &AttributeName,
    index: &Option<AttributeIndex>,
    tag: Tag,
    out: &mut Buffer,
)
    requires form { HasPayloadForm (payloads.DeleteAttribute id.now name.now index.now) }
    requires room { payload_size (payloads.DeleteAttribute id.now name.now index.now) ≤
        out.old.spare }
    ensures { IsAppended (payloads.DeleteAttribute id.now name.now index.now) tag out.old out.new }
{
    write_record::<DeleteAttributeRows>(fields![id, name, index], tag, out);
}

/// Appends the payload of Revoke.
pub(crate) fn revoke(
    id: &Option<UniqueIdentifier>,
    reason: &RevocationReason,
    date: &Option<CompromiseOccurrenceDate>,
    tag: Tag,
    out: &mut Buffer,
)
    requires form { HasPayloadForm (payloads.Revoke id.now reason.now date.now) }
    requires room { payload_size (payloads.Revoke id.now reason.now date.now) ≤ out.old.spare }
    ensures { IsAppended (payloads.Revoke id.now reason.now date.now) tag out.old out.new }
{
    write_record::<RevokeRows>(fields![id, reason, date], tag, out);
}

/// Appends the payload of Query.
pub(crate) fn query(functions: &List<QueryFunction>, tag: Tag, out: &mut Buffer)
    requires form { HasPayloadForm (payloads.Query functions.now) }
    requires room { payload_size (payloads.Query functions.now) ≤ out.old.spare }
    ensures { IsAppended (payloads.Query functions.now) tag out.old out.new }
{
    write_record::<QueryRows>(fields![functions], tag, out);
}

/// Appends the payload of Discover Versions.
pub(crate) fn discover_versions(versions: &List<ProtocolVersion>, tag: Tag, out: &mut Buffer)
    requires form { HasPayloadForm (payloads.DiscoverVersions versions.now) }
    requires room { payload_size (payloads.DiscoverVersions versions.now) ≤ out.old.spare }
    ensures { IsAppended (payloads.DiscoverVersions versions.now) tag out.old out.new }
{
    write_record::<DiscoverVersionsRows>(fields![versions], tag, out);
}

/// Appends the payload of Sign.
pub(crate) fn sign(
    id: &Option<UniqueIdentifier>,
    parameters: &Option<CryptographicParameters>,
    contents: &Data,
    tag: Tag,
    out: &mut Buffer,
)
    requires form { HasPayloadForm (payloads.Sign id.now parameters.now contents.now) }
    requires room { payload_size (payloads.Sign id.now parameters.now contents.now) ≤ out.old.spare }
    ensures { IsAppended (payloads.Sign id.now parameters.now contents.now) tag out.old out.new }
{
    write_record::<SignRows>(fields![id, parameters, contents], tag, out);
}

/// Appends the payload of RNG Retrieve.
pub(crate) fn rng_retrieve(length: &DataLength, tag: Tag, out: &mut Buffer)
    requires form { HasPayloadForm (payloads.RNGRetrieve length.now) }
    requires room { payload_size (payloads.RNGRetrieve length.now) ≤ out.old.spare }
    ensures { IsAppended (payloads.RNGRetrieve length.now) tag out.old out.new }
{
    write_record::<RNGRetrieveRows>(fields![length], tag, out);
}
