//! The bytes of requests that are trees, with no link: for callers who carry the bytes themselves.
ghost use Rattle.std.specs.Option.{option_map};
ghost use Rattle.kmip_wire.specs.Found.{GivesBytes};
ghost use Rattle.kmip_request.specs.Message.{credential_of};
ghost use Rattle.kmip_client.specs.Operation.{operation_bytes, tree_request};
ghost use Rattle.kmip_client.specs.WholeMessage.{whole_bytes};

use crate::call_request::CallRequest;
use crate::operation::OperationRequest;
use crate::whole_message::MessageRequest;
use kmip_request::Authentication;
use kmip_wire::{Blob, Buffer, Tree, WireError};
use std::alloc::Global;

/// The bytes of any request.
fn written<R: CallRequest>(
    alloc: Global,
    request: &R,
    authentication: &Option<Authentication>,
) -> Result<Blob, WireError>
    ensures { GivesBytes result (R.kind.bytes_of (R.request request.now)
        (option_map credential_of authentication.now)) }
{
    let mut out = Buffer::new(alloc);
    request.write(alloc, authentication, &mut out)?;
    Ok(out.into_blob())
}

/// The bytes of a request of any operation, whose payload is a tree: the one canonical message that
/// `do_operation` sends, under this authentication. `read_operation_response` reads its response.
///
/// `NoForm` means that the message would have more than 64 levels or has no wire form. `Malformed`
/// is never returned.
pub fn write_operation_request(
    alloc: Global,
    request: &OperationRequest<'_>,
    authentication: &Option<Authentication>,
) -> Result<Blob, WireError>
    ensures { GivesBytes result (operation_bytes (tree_request request.now)
        (option_map credential_of authentication.now)) }
{
    written(alloc, request, authentication)
}

/// The bytes of a whole message: those that `do_message` sends. `read_whole_message` reads what
/// comes back.
///
/// `NoForm` means that the tree is no structure of at most 64 levels, or has no wire form.
/// `Malformed` is never returned.
pub fn write_whole_message(alloc: Global, message: &Tree) -> Result<Blob, WireError>
    ensures { GivesBytes result (whole_bytes message.now) }
{
    written(alloc, &MessageRequest { message }, &None)
}
