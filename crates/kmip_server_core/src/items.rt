//! The batch items that report what a call came to.

ghost use Rattle.std.specs.Prelude.{◌≡◌, ◌∷◌, [], ℕ, ℤ, List, Some, None, IfOk};
ghost use Rattle.std.specs.Option.{option_map};
ghost use Rattle.kmip_enums.specs.declared.object_type.ObjectType.TheVariants as types;
ghost use Rattle.kmip_store.specs.Steps.{Supports, Created, Random, Signed, Done, step};
ghost use Rattle.kmip_store.specs.Steps.{supported_operations};
ghost use Rattle.kmip_store.specs.declared.call.Call.{Call};
ghost use Rattle.kmip_store.specs.declared.call.Call.TheVariants as calls;
ghost use Rattle.kmip_server_core.specs.Answering.{refusal_of, ItemReports};
ghost use Rattle.kmip_server_core.specs.Items.{failed_item, done_item, item_for, key_type, key_block_of};
ghost use Rattle.kmip_server_core.specs.Items.{key_object, name_attribute, pair_item};
ghost use Rattle.kmip_server_core.specs.Requests.{call_operation};

use kmip_enums::{NameType, ObjectType, Operation, ResultReason, ResultStatus};
use kmip_response::{
    Attribute, AttributeEditResponsePayload, BatchItem, CreateKeyPairResponsePayload,
    GetResponsePayload, KeyBlock, KeyValue, ManagedObject, PrivateKey, PublicKey,
    QueryResponsePayload, RNGRetrieveResponsePayload, ResponsePayload, SignResponsePayload,
    UniqueIdentifierResponsePayload,
};
use kmip_store::{Object, Store, StoreError};
use kmip_types::{
    AttributeName, AttributeValue, CryptographicAlgorithm, KeyFormatType, KeyMaterial, NameValue,
    UniqueIdentifier,
};
use kmip_wire::{Blob, Boxed, List, OutOfMemory, Text, TryClone};
use std::alloc::Global;

/// An item that reports a failure.
pub fn failure_item(
    alloc: Global,
    operation: Option<Operation>,
    reason: ResultReason,
    text: &str,
) -> Result<BatchItem, OutOfMemory>
    ensures { IfOk result (λ item. item ≡ failed_item operation reason text.now) }
{
    Ok(BatchItem {
        operation,
        unique_batch_item_id: None,
        result_status: ResultStatus::OperationFailed,
        result_reason: Some(reason),
        result_message: Some(Text::of(alloc, text)?),
        payload: None,
        message_extension: None,
    })
}

/// An item that reports a success.
fn success_item(operation: Operation, payload: ResponsePayload) -> BatchItem
    ensures { result ≡ done_item operation (Some payload) }
{
    BatchItem {
        operation: Some(operation),
        unique_batch_item_id: None,
        result_status: ResultStatus::Success,
        result_reason: None,
        result_message: None,
        payload: Some(payload),
        message_extension: None,
    }
}

/// The item that reports why the store refused a call.
pub fn refusal(
    alloc: Global,
    operation: Operation,
    error: StoreError,
) -> Result<BatchItem, OutOfMemory>
    ensures { IfOk result (λ item. (call : Call) → call_operation call ≡ operation →
        option_map (item_for call) (refusal_of error) ≡ Some item) }
{
    match error {
        StoreError::ItemNotFound => failure_item(
            alloc,
            Some(operation),
            ResultReason::ItemNotFound,
            "no such object",
        ),
        StoreError::PermissionDenied => failure_item(
            alloc,
            Some(operation),
            ResultReason::PermissionDenied,
            "not allowed in this state",
        ),
        StoreError::CryptographicFailure => failure_item(
            alloc,
            Some(operation),
            ResultReason::CryptographicFailure,
            "maker failed",
        ),
        StoreError::OutOfMemory => Err(OutOfMemory),
    }
}

/// The operations of the nine helpers.
fn operations(alloc: Global) -> Result<List<Operation>, OutOfMemory>
    ensures { IfOk result (λ operations. operations ≡ supported_operations) }
{
    let mut operations = List::new(alloc);
    operations.push(Operation::CreateKeyPair)?;
    operations.push(Operation::Get)?;
    operations.push(Operation::ModifyAttribute)?;
    operations.push(Operation::Activate)?;
    operations.push(Operation::Revoke)?;
    operations.push(Operation::Destroy)?;
    operations.push(Operation::Query)?;
    operations.push(Operation::Sign)?;
    operations.push(Operation::RNGRetrieve)?;
    Ok(operations)
}

/// The types of the objects of a store.
fn object_types(alloc: Global) -> Result<List<ObjectType>, OutOfMemory>
    ensures { IfOk result (λ object_types.
        object_types ≡ types.PublicKey ∷ types.PrivateKey ∷ []) }
{
    let mut object_types = List::new(alloc);
    object_types.push(ObjectType::PublicKey)?;
    object_types.push(ObjectType::PrivateKey)?;
    Ok(object_types)
}

/// The item that lists the operations of the server and the types of its objects.
pub fn query_item(alloc: Global) -> Result<BatchItem, OutOfMemory>
    ensures { IfOk result (λ item. item ≡ item_for calls.Query
        (Supports supported_operations (types.PublicKey ∷ types.PrivateKey ∷ []))) }
{
    let payload = QueryResponsePayload {
        operations: Some(operations(alloc)?),
        object_types: Some(object_types(alloc)?),
        vendor_identification: None,
        server_information: None,
    };
    let payload = Boxed::new(alloc, payload)?;
    Ok(success_item(Operation::Query, ResponsePayload::Query(payload)))
}

/// The item with the identifiers of a new pair.
pub fn pair_item(private_id: Text, public_id: Text) -> BatchItem
    ensures { result ≡ pair_item (Created private_id public_id) }
{
    success_item(
        Operation::CreateKeyPair,
        ResponsePayload::CreateKeyPair(CreateKeyPairResponsePayload {
            private_key_unique_identifier: UniqueIdentifier(private_id),
            public_key_unique_identifier: UniqueIdentifier(public_id),
        }),
    )
}

/// The item with random bytes, or why there are none.
pub fn rng_item(alloc: Global, answer: Result<Blob, StoreError>) -> Result<BatchItem, OutOfMemory>
    ensures { IfOk result (λ item. (n : ℤ) → ItemReports Random (calls.RngRetrieve n) answer item) }
{
    match answer {
        Ok(random_bytes) => Ok(success_item(
            Operation::RNGRetrieve,
            ResponsePayload::RNGRetrieve(RNGRetrieveResponsePayload { random_bytes }),
        )),
        Err(error) => refusal(alloc, Operation::RNGRetrieve, error),
    }
}

/// The item with a signature, or why there is none.
pub fn sign_item(
    alloc: Global,
    id: &Text,
    answer: Result<Blob, StoreError>,
) -> Result<BatchItem, OutOfMemory>
    ensures { IfOk result (λ item. (contents : List ℕ) →
        ItemReports Signed (calls.Sign id.now contents) answer item) }
{
    match answer {
        Ok(signature_data) => Ok(success_item(
            Operation::Sign,
            ResponsePayload::Sign(SignResponsePayload {
                unique_identifier: UniqueIdentifier(id.try_clone(alloc)?),
                signature_data,
            }),
        )),
        Err(error) => refusal(alloc, Operation::Sign, error),
    }
}

/// A payload that names an object.
fn identifier_payload(
    alloc: Global,
    id: &Text,
) -> Result<UniqueIdentifierResponsePayload, OutOfMemory>
    ensures { IfOk result (λ payload.
        payload ≡ record { unique_identifier = record { 0 = id.now } }) }
{
    Ok(UniqueIdentifierResponsePayload {
        unique_identifier: UniqueIdentifier(id.try_clone(alloc)?),
    })
}

/// The item that reports that an object was made Active, or why not.
pub fn activate_item(
    alloc: Global,
    id: &Text,
    answer: Result<(), StoreError>,
) -> Result<BatchItem, OutOfMemory>
    ensures { IfOk result (λ item. ItemReports (λ _. Done) (calls.ActivateKey id.now) answer item) }
{
    match answer {
        Ok(()) => Ok(success_item(
            Operation::Activate,
            ResponsePayload::Activate(identifier_payload(alloc, id)?),
        )),
        Err(error) => refusal(alloc, Operation::Activate, error),
    }
}

/// The item that reports that an object was made Deactivated, or why not.
pub fn revoke_item(
    alloc: Global,
    id: &Text,
    answer: Result<(), StoreError>,
) -> Result<BatchItem, OutOfMemory>
    ensures { IfOk result (λ item. ItemReports (λ _. Done) (calls.RevokeKey id.now) answer item) }
{
    match answer {
        Ok(()) => Ok(success_item(
            Operation::Revoke,
            ResponsePayload::Revoke(identifier_payload(alloc, id)?),
        )),
        Err(error) => refusal(alloc, Operation::Revoke, error),
    }
}

/// The item that reports that an object was made Destroyed, or why not.
pub fn destroy_item(
    alloc: Global,
    id: &Text,
    answer: Result<(), StoreError>,
) -> Result<BatchItem, OutOfMemory>
    ensures { IfOk result (λ item. ItemReports (λ _. Done) (calls.DestroyKey id.now) answer item) }
{
    match answer {
        Ok(()) => Ok(success_item(
            Operation::Destroy,
            ResponsePayload::Destroy(identifier_payload(alloc, id)?),
        )),
        Err(error) => refusal(alloc, Operation::Destroy, error),
    }
}

/// The attribute Name of an object (KMIP 1.0, 3.2).
fn name(alloc: Global, new_name: &Text) -> Result<Attribute, OutOfMemory>
    ensures { IfOk result (λ attribute. attribute ≡ name_attribute new_name.now) }
{
    Ok(Attribute {
        name: AttributeName(Text::of(alloc, "Name")?),
        index: None,
        value: AttributeValue::Name(
            NameValue(new_name.try_clone(alloc)?),
            NameType::UninterpretedTextString,
        ),
    })
}

/// The item with the new name of an object, or why it was not renamed.
pub fn rename_item(
    alloc: Global,
    id: &Text,
    new_name: &Text,
    answer: Result<(), StoreError>,
) -> Result<BatchItem, OutOfMemory>
    ensures { IfOk result (λ item.
        ItemReports (λ _. Done) (calls.RenameKey id.now new_name.now) answer item) }
{
    match answer {
        Ok(()) => {
            let payload = AttributeEditResponsePayload {
                unique_identifier: UniqueIdentifier(id.try_clone(alloc)?),
                attribute: Boxed::new(alloc, name(alloc, new_name)?)?,
            };
            Ok(success_item(
                Operation::ModifyAttribute,
                ResponsePayload::ModifyAttribute(payload),
            ))
        }
        Err(error) => refusal(alloc, Operation::ModifyAttribute, error),
    }
}

/// The key block of an object: an RSA key in PKCS#1 (KMIP 1.0, 2.1.3).
fn key_block(alloc: Global, object: &Object) -> Result<KeyBlock, OutOfMemory>
    ensures { IfOk result (λ block. block ≡ key_block_of object.now) }
{
    Ok(KeyBlock {
        key_format_type: KeyFormatType::PKCS1,
        key_compression_type: None,
        key_value: KeyValue {
            key_material: KeyMaterial::Bytes(object.key.try_clone(alloc)?),
            attributes: None,
        },
        cryptographic_algorithm: Some(CryptographicAlgorithm::RSA),
        cryptographic_length: Some(object.length),
        key_wrapping_data: None,
    })
}

/// The payload with an object: a public key, or else a private key (KMIP 1.0, 4.10).
fn key_payload(alloc: Global, id: &Text, object: &Object) -> Result<GetResponsePayload, OutOfMemory>
    ensures { IfOk result (λ payload. payload ≡ record {
      object_type = key_type object.now;
      unique_identifier = record { 0 = id.now };
      cryptographic_object = key_object object.now;
    }) }
{
    let unique_identifier = UniqueIdentifier(id.try_clone(alloc)?);
    let key_block = key_block(alloc, object)?;
    Ok(match object.object_type {
        ObjectType::PublicKey => GetResponsePayload {
            object_type: ObjectType::PublicKey,
            unique_identifier,
            cryptographic_object: ManagedObject::PublicKey(PublicKey { key_block }),
        },
        _ => GetResponsePayload {
            object_type: ObjectType::PrivateKey,
            unique_identifier,
            cryptographic_object: ManagedObject::PrivateKey(PrivateKey { key_block }),
        },
    })
}

/// The item with an object, or why it is not returned.
pub fn get_item(alloc: Global, store: &Store, id: &Text) -> Result<BatchItem, OutOfMemory>
    ensures { IfOk result (λ item. item ≡ item_for (calls.GetKey id.now)
        (step store.now (calls.GetKey id.now) None).answer) }
{
    match store.get_key(id.as_str()) {
        Ok(object) => {
            let payload = Boxed::new(alloc, key_payload(alloc, id, object)?)?;
            Ok(success_item(Operation::Get, ResponsePayload::Get(payload)))
        }
        Err(error) => refusal(alloc, Operation::Get, error),
    }
}
