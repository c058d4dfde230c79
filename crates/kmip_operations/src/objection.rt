//! Why the payload of a success is no answer to its request.
ghost use Rattle.std.specs.Prelude.{◌≡◌, ◌==◌, ℕ, option_map, option_copied};
ghost use Rattle.std.specs.List.{find};
ghost use Rattle.kmip_wire.specs.Parts.{tag_of, text_in, bytes_in};
ghost use Rattle.kmip_wire.specs.Sees.{tree_of_node};
ghost use Rattle.kmip_client.specs.Untyped.{children_of};
ghost use Rattle.kmip_words.specs.Refusal.{item_with};
ghost use Rattle.kmip_words.specs.About.{differs};
ghost use Rattle.kmip_operations.specs.Calls.{request_of};
ghost use Rattle.kmip_operations.specs.Objections.{may_be_empty, says_nothing, text_of_first};
ghost use Rattle.kmip_operations.specs.Objections.{first_identifier, handle_in, subject_in};
ghost use Rattle.kmip_operations.specs.Objections.{is_about_another, makes_pair, are_same};
ghost use Rattle.kmip_operations.specs.Objections.{is_one_key, is_empty_field, has_empty_field};
ghost use Rattle.kmip_operations.specs.Objections.{objection};

use crate::call::{OperationCall, is_identifier};
use kmip_enums::Operation;
use kmip_tags::tags::{
    ASYNCHRONOUS_CORRELATION_VALUE, PRIVATE_KEY_UNIQUE_IDENTIFIER, PUBLIC_KEY_UNIQUE_IDENTIFIER,
    UNIQUE_IDENTIFIER,
};
use kmip_wire::{Node, Tree};

/// Whether a success of the operation may have no field.
fn may_be_empty(operation: Operation) -> bool
    ensures { result ≡ may_be_empty operation }
{
    match operation {
        Operation::Locate
        | Operation::Query
        | Operation::DiscoverVersions
        | Operation::Poll
        | Operation::Notify
        | Operation::Put => true,
        Operation::Create
        | Operation::CreateKeyPair
        | Operation::Register
        | Operation::Rekey
        | Operation::DeriveKey
        | Operation::Certify
        | Operation::Recertify
        | Operation::Check
        | Operation::Get
        | Operation::GetAttributes
        | Operation::GetAttributeList
        | Operation::AddAttribute
        | Operation::ModifyAttribute
        | Operation::DeleteAttribute
        | Operation::ObtainLease
        | Operation::GetUsageAllocation
        | Operation::Activate
        | Operation::Revoke
        | Operation::Destroy
        | Operation::Archive
        | Operation::Recover
        | Operation::Validate
        | Operation::Cancel
        | Operation::RekeyKeyPair
        | Operation::Encrypt
        | Operation::Decrypt
        | Operation::Sign
        | Operation::SignatureVerify
        | Operation::MAC
        | Operation::MACVerify
        | Operation::RNGRetrieve
        | Operation::RNGSeed
        | Operation::Hash
        | Operation::CreateSplitKey
        | Operation::JoinSplitKey => false,
    }
}

/// The items within an item.
fn children(tree: &Tree) -> &[Tree]
    ensures { result.now ≡ children_of tree.now }
{
    match &tree.node {
        Node::Structure(items) => items.as_slice(),
        _ => &[],
    }
}

/// Whether a payload has no field, and the operation's has one.
fn says_nothing(operation: Operation, payload: &Tree) -> bool
    ensures { result ≡ says_nothing operation payload.now }
{
    !may_be_empty(operation) && children(payload).is_empty()
}

/// Whether an item has this tag.
fn has_tag(item: &Tree, tag: u32) -> bool
    ensures { result ≡ (tag_of item.now == tag) }
{
    item.tag.number() == tag
}

/// The first of the items that has this tag.
fn first_with(items: &[Tree], tag: u32) -> Option<&Tree>
    ensures { option_copied result ≡ find (λ item. tag_of item == tag) items.now }
{
    items.iter().find(|item| has_tag(item, tag))
}

/// The first item with this tag in a payload.
pub(crate) fn item_with(payload: &Tree, tag: u32) -> Option<&Tree>
    ensures { option_copied result ≡ item_with tag payload.now }
{
    match &payload.node {
        Node::Structure(items) => first_with(items.as_slice(), tag),
        _ => None,
    }
}

/// The text of a Text String.
fn text_of(node: &Node) -> Option<&str>
    ensures { (tag : ℕ) → option_map (λ s. s.now) result ≡ text_in (tree_of_node tag node.now) }
{
    match node {
        Node::TextString(text) => Some(text.as_str()),
        _ => None,
    }
}

/// The bytes of a Byte String.
fn bytes_of(node: &Node) -> Option<&[u8]>
    ensures { (tag : ℕ) → option_map (λ b. b.now) result ≡ bytes_in (tree_of_node tag node.now) }
{
    match node {
        Node::ByteString(bytes) => Some(bytes.as_slice()),
        _ => None,
    }
}

/// The text of the first item with this tag in a payload; empty where there is none.
fn text_of_first(payload: &Tree, tag: u32) -> &str
    ensures { result.now ≡ text_of_first tag payload.now }
{
    match item_with(payload, tag) {
        Some(item) => text_of(&item.node).unwrap_or(""),
        None => "",
    }
}

/// The first Unique Identifier in a payload, empty where there is none.
pub(crate) fn first_identifier(payload: &Tree) -> &str
    ensures { result.now ≡ first_identifier payload.now }
{
    text_of_first(payload, UNIQUE_IDENTIFIER)
}

/// The handle in a payload of an operation that has not ended, empty where there is none.
fn handle_in(payload: &Tree) -> &[u8]
    ensures { result.now ≡ handle_in payload.now }
{
    match item_with(payload, ASYNCHRONOUS_CORRELATION_VALUE) {
        Some(item) => bytes_of(&item.node).unwrap_or(b""),
        None => b"",
    }
}

/// What a request names and its response names again: the object, or the operation that is
/// cancelled. Empty where there is no such thing.
fn subject_in(operation: Operation, payload: &Tree) -> &[u8]
    ensures { result.now ≡ subject_in operation payload.now }
{
    match operation {
        Operation::Check
        | Operation::Get
        | Operation::GetAttributes
        | Operation::GetAttributeList
        | Operation::AddAttribute
        | Operation::ModifyAttribute
        | Operation::DeleteAttribute
        | Operation::ObtainLease
        | Operation::GetUsageAllocation
        | Operation::Activate
        | Operation::Revoke
        | Operation::Destroy
        | Operation::Archive
        | Operation::Recover
        | Operation::Encrypt
        | Operation::Decrypt
        | Operation::Sign
        | Operation::SignatureVerify
        | Operation::MAC
        | Operation::MACVerify => first_identifier(payload).as_bytes(),
        Operation::Cancel => handle_in(payload),
        Operation::Create
        | Operation::CreateKeyPair
        | Operation::Register
        | Operation::Rekey
        | Operation::DeriveKey
        | Operation::Certify
        | Operation::Recertify
        | Operation::Locate
        | Operation::Validate
        | Operation::Query
        | Operation::Poll
        | Operation::Notify
        | Operation::Put
        | Operation::RekeyKeyPair
        | Operation::DiscoverVersions
        | Operation::RNGRetrieve
        | Operation::RNGSeed
        | Operation::Hash
        | Operation::CreateSplitKey
        | Operation::JoinSplitKey => b"",
    }
}

/// Whether something was asked about, and something else was answered.
pub(crate) fn differs(asked: &[u8], answered: &[u8]) -> bool
    ensures { result ≡ differs asked.now answered.now }
{
    !asked.is_empty() && asked != answered
}

/// Whether a payload is about another object than the call, which names one.
fn is_about_another(call: &OperationCall, payload: &Tree) -> bool
    ensures { result ≡ is_about_another (request_of call.now) payload.now }
{
    let asked = subject_in(call.operation, &call.payload);
    let answered = subject_in(call.operation, payload);
    differs(asked, answered)
}

/// Whether the operation answers with the two keys of a pair.
fn makes_pair(operation: Operation) -> bool
    ensures { result ≡ makes_pair operation }
{
    match operation {
        Operation::CreateKeyPair | Operation::RekeyKeyPair => true,
        _ => false,
    }
}

/// Whether an identifier is there, and another is the same.
fn are_same(first: &str, second: &str) -> bool
    ensures { result ≡ are_same first.now second.now }
{
    !first.is_empty() && first == second
}

/// Whether the two keys of a pair have one identifier.
fn is_one_key(operation: Operation, payload: &Tree) -> bool
    ensures { result ≡ is_one_key operation payload.now }
{
    let private_key = text_of_first(payload, PRIVATE_KEY_UNIQUE_IDENTIFIER);
    let public_key = text_of_first(payload, PUBLIC_KEY_UNIQUE_IDENTIFIER);
    makes_pair(operation) && are_same(private_key, public_key)
}

/// Whether an item is an empty identifier or handle.
fn is_empty_field(item: &Tree) -> bool
    ensures { result ≡ is_empty_field item.now }
{
    match &item.node {
        Node::TextString(text) => is_identifier(item.tag.number()) && text.as_str().is_empty(),
        Node::ByteString(bytes) => {
            item.tag.number() == ASYNCHRONOUS_CORRELATION_VALUE && bytes.as_slice().is_empty()
        }
        _ => false,
    }
}

/// Whether a field of a payload is an empty identifier or handle.
fn has_empty_field(payload: &Tree) -> bool
    ensures { result ≡ has_empty_field payload.now }
{
    children(payload).iter().any(|item| is_empty_field(item))
}

/// Why a payload is no answer to the call, where it is none. It takes no memory.
pub(crate) fn objection(call: &OperationCall, payload: &Tree) -> Option<&'static str>
    ensures { option_map (λ text. text.now) result ≡
        objection (request_of call.now) payload.now }
{
    if says_nothing(call.operation, payload) {
        return Some("answer with an empty payload");
    }
    if is_about_another(call, payload) {
        return Some("answer for another object");
    }
    if is_one_key(call.operation, payload) {
        return Some("answer with one identifier for two keys");
    }
    if has_empty_field(payload) {
        return Some("answer without an identifier");
    }
    None
}
