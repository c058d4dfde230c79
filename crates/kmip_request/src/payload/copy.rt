//! Copying the payload of each operation. Each is a function of its own, so that each is proved
//! alone. The only error is `OutOfMemory`.

ghost use Rattle.std.specs.Prelude.{◌≡◌, IfOk};
ghost use Rattle.kmip_request.specs.declared.payload.RequestPayload.TheVariants as payloads;

use crate::header::ProtocolVersion;
use crate::payload::RequestPayload;
use kmip_enums::{ObjectType, QueryFunction};
use kmip_request_objects::{
    Attribute, CommonTemplateAttribute, KeyWrappingSpecification, ManagedObject,
    PrivateKeyTemplateAttribute, PublicKeyTemplateAttribute, RevocationReason, TemplateAttribute,
};
use kmip_shape::copy_list;
use kmip_types::{
    AttributeIndex, AttributeName, CompromiseOccurrenceDate, CryptographicParameters, Data,
    KeyCompressionType, KeyFormatType, UniqueIdentifier,
};
use kmip_wire::{Boxed, List, OutOfMemory, TryClone, clone_optional};
use std::alloc::Global;

/// A copy of the payload of Create.
pub(crate) fn create(
    object_type: &ObjectType,
    template: &TemplateAttribute,
    alloc: Global,
) -> Result<RequestPayload, OutOfMemory>
    ensures { IfOk result (λ made. made ≡ payloads.Create object_type.now template.now) }
{
    Ok(RequestPayload::Create(*object_type, template.try_clone(alloc)?))
}

/// A copy of the payload of Create Key Pair.
pub(crate) fn create_key_pair(
    common: &Option<CommonTemplateAttribute>,
    private_key: &Option<PrivateKeyTemplateAttribute>,
    public_key: &Option<PublicKeyTemplateAttribute>,
    alloc: Global,
) -> Result<RequestPayload, OutOfMemory>
    ensures { IfOk result (λ made. made ≡ payloads.CreateKeyPair common.now private_key.now
        public_key.now) }
{
    Ok(RequestPayload::CreateKeyPair(
        clone_optional(common, alloc)?,
        clone_optional(private_key, alloc)?,
        clone_optional(public_key, alloc)?,
    ))
}

/// A copy of the payload of Register.
pub(crate) fn register(
    object_type: &ObjectType,
    template: &TemplateAttribute,
    object: &Option<ManagedObject>,
    alloc: Global,
) -> Result<RequestPayload, OutOfMemory>
    ensures { IfOk result (λ made. made ≡ payloads.Register object_type.now template.now
        object.now) }
{
    Ok(RequestPayload::Register(
        *object_type,
        template.try_clone(alloc)?,
        clone_optional(object, alloc)?,
    ))
}

/// A copy of the payload of Locate.
pub(crate) fn locate(
    attributes: &List<Attribute>,
    alloc: Global,
) -> Result<RequestPayload, OutOfMemory>
    ensures { IfOk result (λ made. made ≡ payloads.Locate attributes.now) }
{
    Ok(RequestPayload::Locate(attributes.try_clone(alloc)?))
}

/// A copy of the payload of Get.
pub(crate) fn get(
    id: &Option<UniqueIdentifier>,
    format: &Option<KeyFormatType>,
    compression: &Option<KeyCompressionType>,
    specification: &Option<Boxed<KeyWrappingSpecification>>,
    alloc: Global,
) -> Result<RequestPayload, OutOfMemory>
    ensures { IfOk result (λ made. made ≡ payloads.Get id.now format.now compression.now
        specification.now) }
{
    Ok(RequestPayload::Get(
        clone_optional(id, alloc)?,
        *format,
        *compression,
        clone_optional(specification, alloc)?,
    ))
}

/// A copy of the payload of Get Attributes.
pub(crate) fn get_attributes(
    id: &Option<UniqueIdentifier>,
    names: &Option<List<AttributeName>>,
    alloc: Global,
) -> Result<RequestPayload, OutOfMemory>
    ensures { IfOk result (λ made. made ≡ payloads.GetAttributes id.now names.now) }
{
    Ok(RequestPayload::GetAttributes(clone_optional(id, alloc)?, clone_optional(names, alloc)?))
}

/// A copy of the payload of Get Attribute List.
pub(crate) fn get_attribute_list(
    id: &Option<UniqueIdentifier>,
    alloc: Global,
) -> Result<RequestPayload, OutOfMemory>
    ensures { IfOk result (λ made. made ≡ payloads.GetAttributeList id.now) }
{
    Ok(RequestPayload::GetAttributeList(clone_optional(id, alloc)?))
}

/// A copy of the payload of Activate.
pub(crate) fn activate(
    id: &Option<UniqueIdentifier>,
    alloc: Global,
) -> Result<RequestPayload, OutOfMemory>
    ensures { IfOk result (λ made. made ≡ payloads.Activate id.now) }
{
    Ok(RequestPayload::Activate(clone_optional(id, alloc)?))
}

/// A copy of the payload of Destroy.
pub(crate) fn destroy(
    id: &Option<UniqueIdentifier>,
    alloc: Global,
) -> Result<RequestPayload, OutOfMemory>
    ensures { IfOk result (λ made. made ≡ payloads.Destroy id.now) }
{
    Ok(RequestPayload::Destroy(clone_optional(id, alloc)?))
}

/// A copy of the payload of Add Attribute.
pub(crate) fn add_attribute(
    id: &Option<UniqueIdentifier>,
    attribute: &Attribute,
    alloc: Global,
) -> Result<RequestPayload, OutOfMemory>
    ensures { IfOk result (λ made. made ≡ payloads.AddAttribute id.now attribute.now) }
{
    Ok(RequestPayload::AddAttribute(clone_optional(id, alloc)?, attribute.try_clone(alloc)?))
}

/// A copy of the payload of Modify Attribute.
pub(crate) fn modify_attribute(
    id: &Option<UniqueIdentifier>,
    attribute: &Attribute,
    alloc: Global,
) -> Result<RequestPayload, OutOfMemory>
    ensures { IfOk result (λ made. made ≡ payloads.ModifyAttribute id.now attribute.now) }
{
    Ok(RequestPayload::ModifyAttribute(clone_optional(id, alloc)?, attribute.try_clone(alloc)?))
}

/// A copy of the payload of Delete Attribute.
pub(crate) fn delete_attribute(
    id: &Option<UniqueIdentifier>,
    name: &AttributeName,
    index: &Option<AttributeIndex>,
    alloc: Global,
) -> Result<RequestPayload, OutOfMemory>
    ensures { IfOk result (λ made. made ≡ payloads.DeleteAttribute id.now name.now index.now) }
{
    Ok(RequestPayload::DeleteAttribute(clone_optional(id, alloc)?, name.try_clone(alloc)?, *index))
}

/// A copy of the payload of Revoke.
pub(crate) fn revoke(
    id: &Option<UniqueIdentifier>,
    reason: &RevocationReason,
    date: &Option<CompromiseOccurrenceDate>,
    alloc: Global,
) -> Result<RequestPayload, OutOfMemory>
    ensures { IfOk result (λ made. made ≡ payloads.Revoke id.now reason.now date.now) }
{
    Ok(RequestPayload::Revoke(clone_optional(id, alloc)?, reason.try_clone(alloc)?, *date))
}

/// A copy of the payload of Query.
pub(crate) fn query(
    functions: &List<QueryFunction>,
    alloc: Global,
) -> Result<RequestPayload, OutOfMemory>
    ensures { IfOk result (λ made. made ≡ payloads.Query functions.now) }
{
    Ok(RequestPayload::Query(copy_list(functions, alloc)?))
}

/// A copy of the payload of Discover Versions.
pub(crate) fn discover_versions(
    versions: &List<ProtocolVersion>,
    alloc: Global,
) -> Result<RequestPayload, OutOfMemory>
    ensures { IfOk result (λ made. made ≡ payloads.DiscoverVersions versions.now) }
{
    Ok(RequestPayload::DiscoverVersions(copy_list(versions, alloc)?))
}

/// A copy of the payload of Sign.
pub(crate) fn sign(
    id: &Option<UniqueIdentifier>,
    parameters: &Option<CryptographicParameters>,
    contents: &Data,
    alloc: Global,
) -> Result<RequestPayload, OutOfMemory>
    ensures { IfOk result (λ made. made ≡ payloads.Sign id.now parameters.now contents.now) }
{
    Ok(RequestPayload::Sign(
        clone_optional(id, alloc)?,
        *parameters,
        contents.try_clone(alloc)?,
    ))
}
