//! Reading the payload of each operation. Each is a function of its own, so that each is proved
//! alone.

ghost use Rattle.std.specs.Prelude.{◌≡◌, Err, IfOk, Some, None};
ghost use Rattle.std.specs.Option.{option_map};
ghost use Rattle.kmip_wire.specs.Items.{item_tree};
ghost use Rattle.kmip_shape.specs.Val.{Case};
ghost use Rattle.kmip_shape.specs.Reads.{read_of};
ghost use Rattle.kmip_shape.specs.Resume.{outer_of};
ghost use Rattle.kmip_request.specs.Tables.{create, create_key_pair, register, locate, get};
ghost use Rattle.kmip_request.specs.Tables.{get_attributes, get_attribute_list, add_attribute};
ghost use Rattle.kmip_request.specs.Tables.{modify_attribute, delete_attribute, activate, revoke};
ghost use Rattle.kmip_request.specs.Tables.{destroy, query, discover_versions, sign, rng_retrieve};
ghost use Rattle.kmip_request.specs.Values.{request_payload_val};

use crate::payload::RequestPayload;
use crate::payload::rows::{
    CreateKeyPairRows, CreateRows, DeleteAttributeRows, DiscoverVersionsRows, EditRows,
    GetAttributesRows, GetRows, IdentifierRows, LocateRows, QueryRows, RNGRetrieveRows,
    RegisterRows, RevokeRows, SignRows,
};
use kmip_shape::{Outer, ReadError, fields, read_record};
use kmip_wire::ItemRef;
use std::alloc::Global;

/// The payload of Create.
pub(crate) fn create(
    alloc: Global,
    outer: Outer<'_>,
    item: ItemRef<'_>,
) -> Result<RequestPayload, ReadError>
    ensures ok { IfOk result (λ x. option_map (Case 1)
        (read_of create (outer_of outer.entry) (item_tree item.entry))
        ≡ Some (request_payload_val x)) }
    ensures unread { result ≡ Err ReadError.Unread →
        read_of create (outer_of outer.entry) (item_tree item.entry) ≡ None }
{
    let fields![object_type, template] = read_record::<CreateRows>(alloc, outer, item)?;
    Ok(RequestPayload::Create(object_type, template))
}

/// The payload of Create Key Pair.
pub(crate) fn create_key_pair(
    alloc: Global,
    outer: Outer<'_>,
    item: ItemRef<'_>,
) -> Result<RequestPayload, ReadError>
    ensures ok { IfOk result (λ x. option_map (Case 2)
        (read_of create_key_pair (outer_of outer.entry) (item_tree item.entry))
        ≡ Some (request_payload_val x)) }
    ensures unread { result ≡ Err ReadError.Unread →
        read_of create_key_pair (outer_of outer.entry) (item_tree item.entry) ≡ None }
{
    let fields![common, private_key, public_key] = read_record::<CreateKeyPairRows>(
        alloc, outer, item,
    )?;
    Ok(RequestPayload::CreateKeyPair(common, private_key, public_key))
}

/// The payload of Register.
pub(crate) fn register(
    alloc: Global,
    outer: Outer<'_>,
    item: ItemRef<'_>,
) -> Result<RequestPayload, ReadError>
    ensures ok { IfOk result (λ x. option_map (Case 3)
        (read_of register (outer_of outer.entry) (item_tree item.entry))
        ≡ Some (request_payload_val x)) }
    ensures unread { result ≡ Err ReadError.Unread →
        read_of register (outer_of outer.entry) (item_tree item.entry) ≡ None }
{
    let fields![object_type, template, object] = read_record::<RegisterRows>(alloc, outer, item)?;
    Ok(RequestPayload::Register(object_type, template, object))
}

/// The payload of Locate.
pub(crate) fn locate(
    alloc: Global,
    outer: Outer<'_>,
    item: ItemRef<'_>,
) -> Result<RequestPayload, ReadError>
    ensures ok { IfOk result (λ x. option_map (Case 8)
        (read_of locate (outer_of outer.entry) (item_tree item.entry))
        ≡ Some (request_payload_val x)) }
    ensures unread { result ≡ Err ReadError.Unread →
        read_of locate (outer_of outer.entry) (item_tree item.entry) ≡ None }
{
    let fields![attributes] = read_record::<LocateRows>(alloc, outer, item)?;
    Ok(RequestPayload::Locate(attributes))
}

/// The payload of Get.
pub(crate) fn get(
    alloc: Global,
    outer: Outer<'_>,
    item: ItemRef<'_>,
) -> Result<RequestPayload, ReadError>
    ensures ok { IfOk result (λ x. option_map (Case 10)
        (read_of get (outer_of outer.entry) (item_tree item.entry))
        ≡ Some (request_payload_val x)) }
    ensures unread { result ≡ Err ReadError.Unread →
        read_of get (outer_of outer.entry) (item_tree item.entry) ≡ None }
{
    let fields![id, format, compression, specification] = read_record::<GetRows>(
        alloc, outer, item,
    )?;
    Ok(RequestPayload::Get(id, format, compression, specification))
}

/// The payload of Get Attributes.
pub(crate) fn get_attributes(
    alloc: Global,
    outer: Outer<'_>,
    item: ItemRef<'_>,
) -> Result<RequestPayload, ReadError>
    ensures ok { IfOk result (λ x. option_map (Case 11)
        (read_of get_attributes (outer_of outer.entry) (item_tree item.entry))
        ≡ Some (request_payload_val x)) }
    ensures unread { result ≡ Err ReadError.Unread →
        read_of get_attributes (outer_of outer.entry) (item_tree item.entry) ≡ None }
{
    let fields![id, names] = read_record::<GetAttributesRows>(alloc, outer, item)?;
    Ok(RequestPayload::GetAttributes(id, names))
}

/// The payload of Get Attribute List.
pub(crate) fn get_attribute_list(
    alloc: Global,
    outer: Outer<'_>,
    item: ItemRef<'_>,
) -> Result<RequestPayload, ReadError>
    ensures ok { IfOk result (λ x. option_map (Case 12)
        (read_of get_attribute_list (outer_of outer.entry) (item_tree item.entry))
        ≡ Some (request_payload_val x)) }
    ensures unread { result ≡ Err ReadError.Unread →
        read_of get_attribute_list (outer_of outer.entry) (item_tree item.entry) ≡ None }
{
    let fields![id] = read_record::<IdentifierRows>(alloc, outer, item)?;
    Ok(RequestPayload::GetAttributeList(id))
}

/// The payload of Add Attribute.
pub(crate) fn add_attribute(
    alloc: Global,
    outer: Outer<'_>,
    item: ItemRef<'_>,
) -> Result<RequestPayload, ReadError>
    ensures ok { IfOk result (λ x. option_map (Case 13)
        (read_of add_attribute (outer_of outer.entry) (item_tree item.entry))
        ≡ Some (request_payload_val x)) }
    ensures unread { result ≡ Err ReadError.Unread →
        read_of add_attribute (outer_of outer.entry) (item_tree item.entry) ≡ None }
{
    let fields![id, attribute] = read_record::<EditRows>(alloc, outer, item)?;
    Ok(RequestPayload::AddAttribute(id, attribute))
}

/// The payload of Modify Attribute.
pub(crate) fn modify_attribute(
    alloc: Global,
    outer: Outer<'_>,
    item: ItemRef<'_>,
) -> Result<RequestPayload, ReadError>
    ensures ok { IfOk result (λ x. option_map (Case 14)
        (read_of modify_attribute (outer_of outer.entry) (item_tree item.entry))
        ≡ Some (request_payload_val x)) }
    ensures unread { result ≡ Err ReadError.Unread →
        read_of modify_attribute (outer_of outer.entry) (item_tree item.entry) ≡ None }
{
    let fields![id, attribute] = read_record::<EditRows>(alloc, outer, item)?;
    Ok(RequestPayload::ModifyAttribute(id, attribute))
}

/// The payload of Delete Attribute.
pub(crate) fn delete_attribute(
    alloc: Global,
    outer: Outer<'_>,
    item: ItemRef<'_>,
) -> Result<RequestPayload, ReadError>
    ensures ok { IfOk result (λ x. option_map (Case 15)
        (read_of delete_attribute (outer_of outer.entry) (item_tree item.entry))
        ≡ Some (request_payload_val x)) }
    ensures unread { result ≡ Err ReadError.Unread →
        read_of delete_attribute (outer_of outer.entry) (item_tree item.entry) ≡ None }
{
    let fields![id, name, index] = read_record::<DeleteAttributeRows>(alloc, outer, item)?;
    Ok(RequestPayload::DeleteAttribute(id, name, index))
}

/// The payload of Activate.
pub(crate) fn activate(
    alloc: Global,
    outer: Outer<'_>,
    item: ItemRef<'_>,
) -> Result<RequestPayload, ReadError>
    ensures ok { IfOk result (λ x. option_map (Case 18)
        (read_of activate (outer_of outer.entry) (item_tree item.entry))
        ≡ Some (request_payload_val x)) }
    ensures unread { result ≡ Err ReadError.Unread →
        read_of activate (outer_of outer.entry) (item_tree item.entry) ≡ None }
{
    let fields![id] = read_record::<IdentifierRows>(alloc, outer, item)?;
    Ok(RequestPayload::Activate(id))
}

/// The payload of Revoke.
pub(crate) fn revoke(
    alloc: Global,
    outer: Outer<'_>,
    item: ItemRef<'_>,
) -> Result<RequestPayload, ReadError>
    ensures ok { IfOk result (λ x. option_map (Case 19)
        (read_of revoke (outer_of outer.entry) (item_tree item.entry))
        ≡ Some (request_payload_val x)) }
    ensures unread { result ≡ Err ReadError.Unread →
        read_of revoke (outer_of outer.entry) (item_tree item.entry) ≡ None }
{
    let fields![id, reason, date] = read_record::<RevokeRows>(alloc, outer, item)?;
    Ok(RequestPayload::Revoke(id, reason, date))
}

/// The payload of Destroy.
pub(crate) fn destroy(
    alloc: Global,
    outer: Outer<'_>,
    item: ItemRef<'_>,
) -> Result<RequestPayload, ReadError>
    ensures ok { IfOk result (λ x. option_map (Case 20)
        (read_of destroy (outer_of outer.entry) (item_tree item.entry))
        ≡ Some (request_payload_val x)) }
    ensures unread { result ≡ Err ReadError.Unread →
        read_of destroy (outer_of outer.entry) (item_tree item.entry) ≡ None }
{
    let fields![id] = read_record::<IdentifierRows>(alloc, outer, item)?;
    Ok(RequestPayload::Destroy(id))
}

/// The payload of Query.
pub(crate) fn query(
    alloc: Global,
    outer: Outer<'_>,
    item: ItemRef<'_>,
) -> Result<RequestPayload, ReadError>
    ensures ok { IfOk result (λ x. option_map (Case 24)
        (read_of query (outer_of outer.entry) (item_tree item.entry))
        ≡ Some (request_payload_val x)) }
    ensures unread { result ≡ Err ReadError.Unread →
        read_of query (outer_of outer.entry) (item_tree item.entry) ≡ None }
{
    let fields![functions] = read_record::<QueryRows>(alloc, outer, item)?;
    Ok(RequestPayload::Query(functions))
}

/// The payload of Discover Versions.
pub(crate) fn discover_versions(
    alloc: Global,
    outer: Outer<'_>,
    item: ItemRef<'_>,
) -> Result<RequestPayload, ReadError>
    ensures ok { IfOk result (λ x. option_map (Case 30)
        (read_of discover_versions (outer_of outer.entry) (item_tree item.entry))
        ≡ Some (request_payload_val x)) }
    ensures unread { result ≡ Err ReadError.Unread →
        read_of discover_versions (outer_of outer.entry) (item_tree item.entry) ≡ None }
{
    let fields![versions] = read_record::<DiscoverVersionsRows>(alloc, outer, item)?;
    Ok(RequestPayload::DiscoverVersions(versions))
}

/// The payload of Sign.
pub(crate) fn sign(
    alloc: Global,
    outer: Outer<'_>,
    item: ItemRef<'_>,
) -> Result<RequestPayload, ReadError>
    ensures ok { IfOk result (λ x. option_map (Case 33)
        (read_of sign (outer_of outer.entry) (item_tree item.entry))
        ≡ Some (request_payload_val x)) }
    ensures unread { result ≡ Err ReadError.Unread →
        read_of sign (outer_of outer.entry) (item_tree item.entry) ≡ None }
{
    let fields![id, parameters, data] = read_record::<SignRows>(alloc, outer, item)?;
    Ok(RequestPayload::Sign(id, parameters, data))
}

/// The payload of RNG Retrieve.
pub(crate) fn rng_retrieve(
    alloc: Global,
    outer: Outer<'_>,
    item: ItemRef<'_>,
) -> Result<RequestPayload, ReadError>
    ensures ok { IfOk result (λ x. option_map (Case 37)
        (read_of rng_retrieve (outer_of outer.entry) (item_tree item.entry))
        ≡ Some (request_payload_val x)) }
    ensures unread { result ≡ Err ReadError.Unread →
        read_of rng_retrieve (outer_of outer.entry) (item_tree item.entry) ≡ None }
{
    let fields![length] = read_record::<RNGRetrieveRows>(alloc, outer, item)?;
    Ok(RequestPayload::RNGRetrieve(length))
}
