//! Writing a request as its one canonical message.

ghost use Rattle.std.specs.Prelude.{◌≡◌, ◌≢◌, ◌≤◌, [], Some, None, IfSome};
ghost use Rattle.std.specs.Prelude.{OnOk, OnErr, IfOk, IfErr, IsErrOf};
ghost use Rattle.std.specs.Option.{option_map};
ghost use Rattle.kmip_wire.specs.Found.{GivesBytes};
ghost use Rattle.kmip_wire.specs.Room.{Appends};
ghost use Rattle.kmip_shape.specs.Writes.{HasForm, size_of, text_of, wire_len_of, bytes_of};
ghost use Rattle.kmip_request.specs.Tables.{request_header, batch_item_of, request_message_of};
ghost use Rattle.kmip_request.specs.Values.{lent_header_val, lent_item_val, lent_message_val};
ghost use Rattle.kmip_request.specs.Message.{request_bytes, credential_of};

use crate::authentication::Authentication;
use crate::header::{ProtocolVersion, RequestHeaderRows};
use crate::message::BatchItemRows;
use crate::numbers::BatchCount;
use crate::payload::RequestPayload;
use kmip_enums::Operation;
use kmip_shape::scalars::put_structure;
use kmip_shape::{WriteItem, fields, record_len, structure_len, write_record};
use kmip_tags::tags::{BATCH_ITEM, REQUEST_HEADER, REQUEST_MESSAGE};
use kmip_types::auth;
use kmip_wire::{Blob, Buffer, Tag, WireError};
use std::alloc::Global;

/// The length in bytes of the header of a request with one batch item and no maximum response size:
/// KMIP 1.0, 7.2. `None` exactly where it reaches 2^32 bytes. The credential is borrowed.
pub fn header_len(version: &ProtocolVersion, authentication: &Option<Authentication>) -> Option<u64>
    ensures { result ≡ wire_len_of request_header (lent_header_val version.now authentication.now) }
{
    record_len::<RequestHeaderRows>(fields![version, &None, authentication, &BatchCount(1)])
}

/// Appends that header, for which the buffer has room.
pub fn write_header(
    version: &ProtocolVersion,
    authentication: &Option<Authentication>,
    out: &mut Buffer,
)
    requires form { HasForm request_header (lent_header_val version.now authentication.now) }
    requires room { size_of request_header (lent_header_val version.now authentication.now)
        ≤ out.old.spare }
    ensures { Appends out.old out.new
        (text_of request_header REQUEST_HEADER (lent_header_val version.now authentication.now))
        (size_of request_header (lent_header_val version.now authentication.now)) }
{
    write_record::<RequestHeaderRows>(
        fields![version, &None, authentication, &BatchCount(1)],
        Tag::of(REQUEST_HEADER),
        out,
    );
}

/// The length in bytes of a batch item with no identifier. The payload is borrowed.
fn item_len<P: WriteItem>(operation: &Operation, payload: &P) -> Option<u64>
    ensures { result ≡ wire_len_of (batch_item_of P.shape)
        (lent_item_val operation.now (P.val payload.now)) }
{
    record_len::<BatchItemRows<'_, P>>(fields![operation, &None, payload])
}

/// Appends that batch item.
fn write_item<P: WriteItem>(operation: &Operation, payload: &P, out: &mut Buffer)
    requires form { HasForm (batch_item_of P.shape)
        (lent_item_val operation.now (P.val payload.now)) }
    requires room { size_of (batch_item_of P.shape)
        (lent_item_val operation.now (P.val payload.now)) ≤ out.old.spare }
    ensures { Appends out.old out.new
        (text_of (batch_item_of P.shape) BATCH_ITEM
        (lent_item_val operation.now (P.val payload.now)))
        (size_of (batch_item_of P.shape) (lent_item_val operation.now (P.val payload.now))) }
{
    write_record::<BatchItemRows<'_, P>>(
        fields![operation, &None, payload],
        Tag::of(BATCH_ITEM),
        out,
    );
}

/// The length in bytes of the message of these parts, and `None` exactly where it has no canonical
/// bytes.
fn message_len<P: WriteItem>(
    version: &ProtocolVersion,
    authentication: &Option<Authentication>,
    operation: &Operation,
    payload: &P,
) -> Option<u64>
    ensures { result ≡ wire_len_of (request_message_of P.shape)
        (lent_message_val version.now authentication.now operation.now (P.val payload.now)) }
{
    structure_len(&[
        header_len(version, authentication),
        item_len(operation, payload),
    ])
}

/// The same length, in terms of the canonical bytes, the form and the size of the message.
fn message_size<P: WriteItem>(
    version: &ProtocolVersion,
    authentication: &Option<Authentication>,
    operation: &Operation,
    payload: &P,
) -> Option<u64>
    ensures none { result ≡ None → bytes_of (request_message_of P.shape) REQUEST_MESSAGE
        (lent_message_val version.now authentication.now operation.now (P.val payload.now)) ≡ None }
    ensures form { IfSome result (λ _. HasForm (request_message_of P.shape)
        (lent_message_val version.now authentication.now operation.now (P.val payload.now))) }
    ensures size { IfSome result (λ len. len ≡ size_of (request_message_of P.shape)
        (lent_message_val version.now authentication.now operation.now (P.val payload.now))) }
{
    message_len(version, authentication, operation, payload)
}

/// Appends the message of these parts, whose length is `len`.
fn write_parts<P: WriteItem>(
    version: &ProtocolVersion,
    authentication: &Option<Authentication>,
    operation: &Operation,
    payload: &P,
    len: u64,
    out: &mut Buffer,
)
    requires form { HasForm (request_message_of P.shape)
        (lent_message_val version.now authentication.now operation.now (P.val payload.now)) }
    requires len { len ≡ size_of (request_message_of P.shape)
        (lent_message_val version.now authentication.now operation.now (P.val payload.now)) }
    requires room { len ≤ out.old.spare }
    ensures { Appends out.old out.new (text_of (request_message_of P.shape) REQUEST_MESSAGE
        (lent_message_val version.now authentication.now operation.now (P.val payload.now))) len }
{
    put_structure(Tag::of(REQUEST_MESSAGE), (len - 8) as u32, out);
    write_header(version, authentication, out);
    write_item(operation, payload, out);
}

/// Writes that message into `out`, which is empty.
fn write_whole<P: WriteItem>(
    version: &ProtocolVersion,
    authentication: &Option<Authentication>,
    operation: &Operation,
    payload: &P,
    len: u64,
    out: &mut Buffer,
)
    requires empty { out.old.bytes ≡ [] }
    requires form { HasForm (request_message_of P.shape)
        (lent_message_val version.now authentication.now operation.now (P.val payload.now)) }
    requires len { len ≡ size_of (request_message_of P.shape)
        (lent_message_val version.now authentication.now operation.now (P.val payload.now)) }
    requires room { len ≤ out.old.spare }
    ensures { bytes_of (request_message_of P.shape) REQUEST_MESSAGE
        (lent_message_val version.now authentication.now operation.now (P.val payload.now))
        ≡ Some out.new.bytes }
{
    write_parts(version, authentication, operation, payload, len, out);
}

/// Writes the canonical bytes of the message of these parts into `out`, which is empty. After an
/// error it is empty still.
fn write_message<P: WriteItem>(
    version: &ProtocolVersion,
    authentication: &Option<Authentication>,
    operation: &Operation,
    payload: &P,
    out: &mut Buffer,
) -> Result<(), WireError>
    requires { out.old.bytes ≡ [] }
    ensures ok { OnOk result (bytes_of (request_message_of P.shape) REQUEST_MESSAGE
        (lent_message_val version.now authentication.now operation.now (P.val payload.now))
        ≡ Some out.new.bytes) }
    ensures no_form { IsErrOf result WireError.NoForm →
        bytes_of (request_message_of P.shape) REQUEST_MESSAGE
        (lent_message_val version.now authentication.now operation.now (P.val payload.now)) ≡ None }
    ensures never { IfErr result (λ e. e ≢ WireError.Malformed) }
    ensures empty { OnErr result (out.new.bytes ≡ []) }
{
    let Some(len) = message_size(version, authentication, operation, payload) else {
        return Err(WireError::NoForm);
    };
    out.reserve(len as usize)?;
    write_whole(version, authentication, operation, payload, len, out);
    Ok(())
}

/// Writes the canonical bytes of the request message round `payload` into `out`, which is empty.
/// After an error it is empty still.
fn write_empty(
    payload: &RequestPayload,
    authentication: &Option<Authentication>,
    out: &mut Buffer,
) -> Result<(), WireError>
    requires { out.old.bytes ≡ [] }
    ensures ok { OnOk result (request_bytes payload.now
        (option_map credential_of authentication.now)
        ≡ Some out.new.bytes) }
    ensures no_form { IsErrOf result WireError.NoForm →
        request_bytes payload.now (option_map credential_of authentication.now) ≡ None }
    ensures never { IfErr result (λ e. e ≢ WireError.Malformed) }
    ensures empty { OnErr result (out.new.bytes ≡ []) }
{
    let version = payload.protocol_version();
    let operation = payload.operation();
    write_message(&version, authentication, &operation, payload, out)
}

/// Writes the canonical bytes of the request message round `payload` into `out`, in place of what
/// `out` held: its version, the credential where there is one, no maximum response size, batch
/// count 1 and no batch item identifier. The payload and the credential are borrowed, not copied,
/// and the capacity of `out` is reused.
///
/// `NoForm` means that the request is not valid: an item's length reaches 2^32, or a
/// value has no wire form. `Malformed` is never returned. Memory is taken once at most, before the
/// first byte is written, where the capacity of `out` is too small. After an error `out` has no
/// bytes.
pub fn write_request_into(
    payload: &RequestPayload,
    authentication: &Option<Authentication>,
    out: &mut Buffer,
) -> Result<(), WireError>
    ensures ok { OnOk result (request_bytes payload.now
        (option_map credential_of authentication.now)
        ≡ Some out.new.bytes) }
    ensures no_form { IsErrOf result WireError.NoForm →
        request_bytes payload.now (option_map credential_of authentication.now) ≡ None }
    ensures never { IfErr result (λ e. e ≢ WireError.Malformed) }
    ensures empty { OnErr result (out.new.bytes ≡ []) }
{
    out.clear();
    write_empty(payload, authentication, out)
}

/// As [`to_vec`], of a payload and a credential that the caller keeps: both are borrowed.
pub fn write_request(
    alloc: Global,
    payload: &RequestPayload,
    authentication: &Option<Authentication>,
) -> Result<Blob, WireError>
    ensures bytes { GivesBytes result
        (request_bytes payload.now (option_map credential_of authentication.now)) }
{
    let mut out = Buffer::new(alloc);
    write_empty(payload, authentication, &mut out)?;
    Ok(out.into_blob())
}

/// The canonical bytes of the request message round `payload`: its version, the credential where
/// there is one, no maximum response size, batch count 1 and no batch item identifier.
///
/// `NoForm` means that the request is not valid: an item's length reaches 2^32, or a
/// value has no wire form. `Malformed` is never returned. Memory is taken once, before the first
/// byte is written.
pub fn to_vec(
    alloc: Global,
    payload: RequestPayload,
    credential: Option<auth::CredentialType>,
) -> Result<Blob, WireError>
    ensures { GivesBytes result (request_bytes payload credential) }
{
    let authentication = credential.map(Authentication::build);
    write_request(alloc, &payload, &authentication)
}
