//! A response written as its one canonical message.

ghost use Rattle.std.specs.Prelude.{◌≡◌, Some, IfOk};
ghost use Rattle.kmip_wire.specs.Found.{GivesBytes};
ghost use Rattle.kmip_response.specs.Values.{response_message_val};
ghost use Rattle.kmip_response_write.specs.Settled.{IsSettled, response_bytes, response_read};

use kmip_response::ResponseMessage;
use kmip_shape::{Item, to_blob};
use kmip_tags::tags::RESPONSE_MESSAGE;
use kmip_wire::{Blob, Tag, WireError};
use std::alloc::Global;

/// The canonical bytes of a message.
fn message_bytes(alloc: Global, message: &ResponseMessage) -> Result<Blob, WireError>
    ensures { GivesBytes result (response_bytes message.now) }
{
    to_blob(alloc, message, Tag::of(RESPONSE_MESSAGE))
}

/// The canonical bytes of a response (KMIP 1.0, 7.1), each record's items in the order of its
/// table.
///
/// `NoForm` is returned exactly where there are none: where an item's length reaches 2^32, a child
/// of a custom structure is written as a structure, or key material is `Structure`, or `Wrapped`
/// beside attributes. `Malformed` is never returned. For an optional list that is present and empty
/// nothing is written, as for an absent one.
///
/// Memory is taken once, before the first byte is written; `OutOfMemory` is returned where it is
/// refused.
///
/// What is written of a settled message is read as that message.
pub fn to_vec(alloc: Global, message: &ResponseMessage) -> Result<Blob, WireError>
    ensures bytes { GivesBytes result (response_bytes message.now) }
    ensures read { IfOk result (λ b. IsSettled message.now →
        response_read b ≡ Some (response_message_val message.now)) }
{
    message.fits();
    message_bytes(alloc, message)
}
