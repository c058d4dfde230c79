//! A request of any operation, whose payload is a tree.
ghost use Rattle.std.specs.Prelude.{◌≡◌, ◌≢◌, ◌+◌, ◌%◌, ◌<◌, ◌≤◌, ◌^◌, ◌++◌, length, pos, None, Some};
ghost use Rattle.std.specs.Prelude.{OnOk, IfErr, IfSome, IsSome, IsErrOf, MatchOption, ℕ, List};
ghost use Rattle.std.specs.Prelude.{Option, option_map};
ghost use Rattle.kmip_wire.specs.Tree.{Tree as TheTree, enumeration};
ghost use Rattle.kmip_wire.specs.Bytes.{in_order};
ghost use Rattle.kmip_wire.specs.Room.{Appends};
ghost use Rattle.kmip_shape.specs.Writes.{HasForm, size_of, text_of, wire_len_of, bytes_of};
ghost use Rattle.kmip_shape.specs.Writes.{structure_head, leaf_text};
ghost use Rattle.kmip_enums.specs.Operations.{operation_line};
ghost use Rattle.kmip_request.specs.Tables.{request_header};
ghost use Rattle.kmip_request.specs.Values.{lent_header_val};
ghost use Rattle.kmip_client.specs.Headline.{IsReadBy};
ghost use Rattle.kmip_client.specs.Outcome.{reading_failed, writing_failed};
ghost use Rattle.kmip_client.specs.Operation.{TreeRequest, operation_calls, minor_number};
ghost use Rattle.kmip_client.specs.Operation.{tree_request};
ghost use Rattle.kmip_client.specs.Untyped.{identified_answer};
ghost use Rattle.kmip_client.specs.Written.{id_bytes, id_len, id_size, id_text, message_bytes};

use crate::call_request::{CallRequest, ReadsAnswer};
use crate::error::Error;
use crate::identified::identified_answer;
use crate::whole_message::is_within;
use kmip_enums::Operation;
use kmip_request::{
    Authentication, ProtocolVersion, ProtocolVersionMajor, ProtocolVersionMinor, header_len,
    write_header,
};
use kmip_shape::Enumeration;
use kmip_shape::scalars::{bytes_len, put_bytes, put_enumeration, put_structure};
use kmip_tags::tags::{
    BATCH_ITEM, OPERATION, REQUEST_HEADER, REQUEST_MESSAGE, UNIQUE_BATCH_ITEM_ID,
};
use kmip_wire::{Buffer, Tag, Tree, WireError, write_tree};
use std::alloc::Global;

/// The most levels of a payload: those of a message, which is 64, without the message and its item.
const MOST_LEVELS: u32 = 62;

/// A version of KMIP, which a request's header names: KMIP 1.0, 6.1.
#[derive(Clone, Copy, Debug, PartialEq, Eq, Drop)]
pub enum Version {
    /// KMIP 1.0.
    V1_0,
    /// KMIP 1.1.
    V1_1,
    /// KMIP 1.2.
    V1_2,
}

impl Version {
    /// The version as a header has it.
    fn number(self) -> ProtocolVersion
        ensures { result ≡
            record { 0 = record { 0 = pos 1 }; 1 = record { 0 = pos (minor_number self) } } }
    {
        let minor = match self {
            Version::V1_0 => 0,
            Version::V1_1 => 1,
            Version::V1_2 => 2,
        };
        ProtocolVersion(ProtocolVersionMajor(1), ProtocolVersionMinor(minor))
    }
}

/// The length in bytes of the header, and what it says of the header's canonical bytes and form.
fn header_size(version: &ProtocolVersion, authentication: &Option<Authentication>) -> Option<u64>
    ensures none { result ≡ None → bytes_of request_header REQUEST_HEADER
        (lent_header_val version.now authentication.now) ≡ None }
    ensures form { IfSome result (λ _.
        HasForm request_header (lent_header_val version.now authentication.now)) }
    ensures size { IfSome result (λ len.
        len ≡ size_of request_header (lent_header_val version.now authentication.now)) }
{
    header_len(version, authentication)
}

/// The length in bytes of the item of a Unique Batch Item ID, 0 where none is sent, and `None`
/// where the ID has 2^32 bytes or more.
fn id_len(id: Option<&[u8]>) -> Option<u64>
    ensures { result ≡ id_len (option_map (λ b. b.now) id.entry) }
{
    match id {
        Some(id) => bytes_len(id),
        None => Some(0),
    }
}

/// Appends that item.
fn write_id(id: Option<&[u8]>, out: &mut Buffer)
    requires form { IsSome (id_len (option_map (λ b. b.now) id)) }
    requires room { id_size (option_map (λ b. b.now) id) ≤ out.old.spare }
    ensures { Appends out.old out.new (id_text (option_map (λ b. b.now) id.entry))
        (id_size (option_map (λ b. b.now) id.entry)) }
{
    if let Some(id) = id {
        put_bytes(Tag::of(UNIQUE_BATCH_ITEM_ID), id, out);
    }
}

/// How many bytes the contents of the message have, of a header, the item of an ID and a payload of
/// so many bytes, and how many those of its batch item. `None` where they reach 2^32 bytes.
fn contents_lens(header: u64, id: u64, payload: usize) -> Option<(u32, u32)>
    ensures { MatchOption result (2 ^ 32 ≤ header + (8 + (16 + (id + payload)))) (λ lens.
        (lens.0 ≡ header + (8 + (16 + (id + payload)))) × (lens.0 < 2 ^ 32) ×
        (lens.1 ≡ 16 + (id + payload))) }
{
    let item = (payload as u64).checked_add(id)?.checked_add(16)?;
    let message = item.checked_add(8)?.checked_add(header)?;
    if message < 1 << 32 {
        Some((message as u32, item as u32))
    } else {
        None
    }
}

/// Appends the message of these parts.
#[tactic(auto, using(std::proofs::lemmas::List::append_assoc))]
fn write_parts(
    version: &ProtocolVersion,
    authentication: &Option<Authentication>,
    operation: Operation,
    id: Option<&[u8]>,
    payload: &[u8],
    lens: (u32, u32),
    out: &mut Buffer,
)
    requires form { HasForm request_header (lent_header_val version.now authentication.now) }
    requires id_form { IsSome (id_len (option_map (λ b. b.now) id)) }
    requires room { 8 + (size_of request_header (lent_header_val version.now authentication.now) +
        (8 + (16 + (id_size (option_map (λ b. b.now) id) + length payload.now)))) ≤ out.old.spare }
    ensures { Appends out.old out.new
        (structure_head REQUEST_MESSAGE lens.0 ++
        (text_of request_header REQUEST_HEADER (lent_header_val version.now authentication.now) ++
        (structure_head BATCH_ITEM lens.1 ++
        (leaf_text OPERATION (enumeration (operation_line operation).number) ++
        (id_text (option_map (λ b. b.now) id.entry) ++ payload.now)))))
        (8 + (size_of request_header (lent_header_val version.now authentication.now) +
        (8 + (16 + (id_size (option_map (λ b. b.now) id.entry) + length payload.now))))) }
{
    put_structure(Tag::of(REQUEST_MESSAGE), lens.0, out);
    write_header(version, authentication, out);
    put_structure(Tag::of(BATCH_ITEM), lens.1, out);
    put_enumeration(Tag::of(OPERATION), operation.number(), out);
    write_id(id, out);
    out.put(payload);
}

/// Writes the message of a header, of an ID and of the bytes of a payload, in place of what was in
/// the buffer.
fn write_message(
    version: &ProtocolVersion,
    authentication: &Option<Authentication>,
    operation: Operation,
    id: Option<&[u8]>,
    payload: &[u8],
    out: &mut Buffer,
) -> Result<(), WireError>
    requires { length payload.now % 8 ≡ 0 }
    ensures ok { OnOk result (message_bytes (bytes_of request_header REQUEST_HEADER
        (lent_header_val version.now authentication.now)) (operation_line operation).number
        (in_order (id_bytes (option_map (λ b. b.now) id.entry)) (Some payload.now)) ≡
        Some out.new.bytes) }
    ensures no_form { IsErrOf result WireError.NoForm → message_bytes (bytes_of request_header
        REQUEST_HEADER (lent_header_val version.now authentication.now))
        (operation_line operation).number
        (in_order (id_bytes (option_map (λ b. b.now) id.entry)) (Some payload.now)) ≡ None }
    ensures never { IfErr result (λ e. e ≢ WireError.Malformed) }
{
    let Some(header) = header_size(version, authentication) else {
        return Err(WireError::NoForm);
    };
    let Some(before) = id_len(id) else {
        return Err(WireError::NoForm);
    };
    let Some(lens) = contents_lens(header, before, payload.len()) else {
        return Err(WireError::NoForm);
    };
    out.reset(8 + lens.0 as usize)?;
    write_parts(version, authentication, operation, id, payload, lens, out);
    Ok(())
}

/// A request of an operation, whose payload is a tree.
#[derive(Clone, Copy)]
pub struct OperationRequest<'a> {
    /// The operation asked for, which the response must name too.
    pub operation: Operation,
    /// The version of KMIP that the header names.
    pub version: Version,
    /// The Unique Batch Item ID of the batch item, if one is sent, which the response must have
    /// then: KMIP 1.0, 6.4.
    pub id: Option<&'a [u8]>,
    /// The request payload, written as it stands: its tag and its contents are not checked.
    pub payload: &'a Tree,
}

impl<'a> CallRequest for OperationRequest<'a> {
    type Payload = Tree;

    ghost Request = { TreeRequest };

    ghost Seen = { TheTree };

    ghost kind = { operation_calls };

    ghost request = { λ r. tree_request r };

    ghost seen = { λ r tree. tree };

    ghost IsRead = { λ r. Unit {0} };

    fn write(
        &self,
        alloc: Global,
        authentication: &Option<Authentication>,
        out: &mut Buffer,
    ) -> Result<(), WireError> {
        if !is_within(self.payload, MOST_LEVELS) {
            return Err(WireError::NoForm);
        }
        let payload = write_tree(alloc, self.payload)?;
        let version = self.version.number();
        write_message(
            &version,
            authentication,
            self.operation,
            self.id,
            payload.as_slice(),
            out,
        )
    }

    fn read(&self, alloc: Global, m: &[u8]) -> Result<Tree, Error> {
        identified_answer(alloc, self.operation, self.id, m)
    }

    fn readings_hold()
        ensures never_fails { (r : TreeRequest) (m : List ℕ) →
            operation_calls.reads r m ≡ reading_failed → ⊥ }
        ensures never_writes { (r : TreeRequest) (m : List ℕ) →
            operation_calls.reads r m ≡ writing_failed → ⊥ }
        ensures valid { (r : TreeRequest) (limit : Option ℕ) →
            IsReadBy (operation_calls.reads r) limit (operation_calls.IsValid r limit) }
    {}
}

/// The answers to requests of any operation.
#[derive(Clone, Copy)]
pub struct OperationAnswers<'a> {
    /// The operation that was asked for, which the response must name too.
    pub operation: Operation,
    /// The Unique Batch Item ID that was sent, if one was, which the response must have too.
    pub id: Option<&'a [u8]>,
}

impl<'a> ReadsAnswer for OperationAnswers<'a> {
    type Payload = Tree;

    ghost Seen = { TheTree };

    ghost reads = { λ r. identified_answer r.operation (option_map (λ b. b.now) r.id) };

    ghost seen = { λ r tree. tree };

    ghost IsRead = { λ r. Unit {0} };

    fn read(&self, alloc: Global, m: &[u8]) -> Result<Tree, Error> {
        identified_answer(alloc, self.operation, self.id, m)
    }
}
