//! A call of any operation, by the operation's name, a version of KMIP, a Unique Batch Item ID and a
//! payload in JSON or XML.
ghost use Rattle.std.specs.Prelude.{◌≡◌, IfOk, MatchOption, Result, option_map};
ghost use Rattle.kmip_wire.specs.Tree.{Tree as TheTree, trees_of};
ghost use Rattle.kmip_client.specs.Operation.{TreeRequest};
ghost use Rattle.kmip_operations.specs.Calls.{operation_named, version_written, is_structure};
ghost use Rattle.kmip_operations.specs.Calls.{is_identifier, has_empty_identifier};
ghost use Rattle.kmip_operations.specs.Calls.{have_empty_identifier};
ghost use Rattle.kmip_operations.specs.Calls.{IsStructureText, IsPayloadText, Asks, request_of};

use kmip_client::Version;
use kmip_encodings::{EncodingError, enumeration_number};
use kmip_enums::{Enumeration, Operation};
use kmip_tags::tags::{
    ASYNCHRONOUS_CORRELATION_VALUE, LINKED_OBJECT_IDENTIFIER, OPERATION,
    PRIVATE_KEY_UNIQUE_IDENTIFIER, PUBLIC_KEY_UNIQUE_IDENTIFIER, REPLACED_UNIQUE_IDENTIFIER,
    REQUEST_PAYLOAD, UNIQUE_IDENTIFIER,
};
use kmip_wire::{Blob, Node, OutOfMemory, Tag, Tree};
use kmip_xml::{TextError, XmlError, from_text};
use std::alloc::Global;

/// A call of an operation.
#[derive(Drop)]
pub struct OperationCall {
    /// The operation.
    pub operation: Operation,
    /// The version of KMIP that the request names.
    pub version: Version,
    /// The Unique Batch Item ID of the request, if it has one, which the response must have too.
    pub id: Option<Blob>,
    /// The payload of the request.
    pub payload: Tree,
}

/// The Unique Batch Item ID of a call's request, if it has one.
pub(crate) fn id_of(call: &OperationCall) -> Option<&[u8]>
    ensures { option_map (λ id. id.now) result ≡ call.now.id }
{
    match &call.id {
        Some(id) => Some(id.as_slice()),
        None => None,
    }
}

/// A copy of an ID that may be absent.
fn copy_id(alloc: Global, id: Option<&[u8]>) -> Result<Option<Blob>, OutOfMemory>
    ensures { IfOk result (λ copy. copy ≡ option_map (λ id. id.now) id.entry) }
{
    match id {
        Some(id) => Ok(Some(Blob::of(alloc, id)?)),
        None => Ok(None),
    }
}

/// The operation with this name, as `Encrypt`, `MACVerify` or `Rekey`. It takes no memory.
pub fn operation_named(name: &str) -> Option<Operation>
    ensures { result ≡ operation_named name.now }
{
    Operation::from_number(enumeration_number(Tag::of(OPERATION), name)?)
}

/// The version that a text writes: `1.0`, `1.1` or `1.2`. It takes no memory.
pub fn version_written(text: &str) -> Option<Version>
    ensures { result ≡ version_written text.now }
{
    match text {
        "1.0" => Some(Version::V1_0),
        "1.1" => Some(Version::V1_1),
        "1.2" => Some(Version::V1_2),
        _ => None,
    }
}

/// Whether an item is a structure with this tag.
pub(crate) fn is_structure(tree: &Tree, tag: u32) -> bool
    ensures { result ≡ is_structure tag tree.now }
{
    match &tree.node {
        Node::Structure(_) => tree.tag.number() == tag,
        _ => false,
    }
}

/// The structure with this tag whose JSON or XML a text is.
pub fn structure_of(alloc: Global, text: &str, tag: u32) -> Result<Option<Tree>, OutOfMemory>
    ensures { IfOk result (λ tree. MatchOption tree
        ((t : TheTree) → IsStructureText tag text.now t → ⊥) (IsStructureText tag text.now)) }
{
    match from_text(alloc, text) {
        Ok(tree) => {
            if is_structure(&tree, tag) {
                Ok(Some(tree))
            } else {
                Ok(None)
            }
        }
        Err(TextError::Json(EncodingError::OutOfMemory))
        | Err(TextError::Xml(XmlError::OutOfMemory)) => Err(OutOfMemory),
        Err(_) => Ok(None),
    }
}

/// Whether the identifier of an object stands under a tag.
pub(crate) fn is_identifier(tag: u32) -> bool
    ensures { result ≡ is_identifier tag }
{
    tag == UNIQUE_IDENTIFIER
        || tag == PRIVATE_KEY_UNIQUE_IDENTIFIER
        || tag == PUBLIC_KEY_UNIQUE_IDENTIFIER
        || tag == LINKED_OBJECT_IDENTIFIER
        || tag == REPLACED_UNIQUE_IDENTIFIER
}

/// Whether an item is an empty identifier or handle, or one stands in it at whatever depth.
#[cycle(identifiers)]
fn has_empty_identifier(tree: &Tree) -> bool
    ensures { result ≡ has_empty_identifier tree.now }
{
    match &tree.node {
        Node::TextString(text) => is_identifier(tree.tag.number()) && text.as_str().is_empty(),
        Node::ByteString(bytes) => {
            tree.tag.number() == ASYNCHRONOUS_CORRELATION_VALUE && bytes.as_slice().is_empty()
        }
        Node::Structure(items) => have_empty_identifier(items.as_slice()),
        _ => false,
    }
}

/// Whether that is so of one of the items.
#[cycle(identifiers)]
fn have_empty_identifier(items: &[Tree]) -> bool
    ensures { result ≡ have_empty_identifier (trees_of items.now) }
{
    for item in items {
        if has_empty_identifier(item) {
            return true;
        }
    }
    false
}

/// The payload whose JSON or XML a text is, and in which no identifier or handle is empty.
pub(crate) fn payload_of(alloc: Global, text: &str) -> Result<Option<Tree>, OutOfMemory>
    ensures { IfOk result (λ tree. MatchOption tree
        ((t : TheTree) → IsPayloadText text.now t → ⊥) (IsPayloadText text.now)) }
{
    let Some(payload) = structure_of(alloc, text, REQUEST_PAYLOAD)? else {
        return Ok(None);
    };
    if has_empty_identifier(&payload) {
        return Ok(None);
    }
    Ok(Some(payload))
}

/// The call of an operation. `name` is the operation's name, as `Encrypt`, `Rekey` or `MACVerify`;
/// `version` is `1.0`, `1.1` or `1.2`; `payload` is the JSON, or where its first mark is `<` the
/// XML, of a structure with the tag `RequestPayload`, as kmip_xml's `from_text` reads it: any of
/// the names, types and values that it has, in at most 64 levels, and with no empty identifier
/// anywhere in it, which a server may take for that of another object, and no empty Asynchronous
/// Correlation Value: who means one sends a message. `None` exactly where one of the three is not
/// so. `id` is the Unique Batch Item ID of the request (KMIP 1.0, 6.4), whatever its bytes;
/// `operation_answer` says which responses are then the call's.
pub fn operation_call(
    alloc: Global,
    name: &str,
    version: &str,
    id: Option<&[u8]>,
    payload: &str,
) -> Result<Option<OperationCall>, OutOfMemory>
    ensures { IfOk result (λ call. MatchOption call
        ((request : TreeRequest) →
        Asks name.now version.now (option_map (λ id. id.now) id.entry) payload.now request → ⊥)
        (λ call. Asks name.now version.now (option_map (λ id. id.now) id.entry) payload.now
        (request_of call))) }
{
    let Some(operation) = operation_named(name) else {
        return Ok(None);
    };
    let Some(version) = version_written(version) else {
        return Ok(None);
    };
    let Some(payload) = payload_of(alloc, payload)? else {
        return Ok(None);
    };
    let id = copy_id(alloc, id)?;
    Ok(Some(OperationCall {
        operation,
        version,
        id,
        payload,
    }))
}
