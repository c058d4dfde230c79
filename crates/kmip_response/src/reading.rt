//! Responses read from bytes.

ghost use Rattle.std.specs.Prelude.{◌≡◌, ◌↔◌, Some, None, Err, IfOk};
ghost use Rattle.std.specs.Option.{option_and_then};
ghost use Rattle.kmip_wire.specs.Reading.{front_at};
ghost use Rattle.kmip_shape.specs.Reads.{root_read};
ghost use Rattle.kmip_response.specs.Reading.{front_structure};

use kmip_shape::{ReadError, ReadRoot, read_root};
use kmip_wire::{Kind, split_front};
use std::alloc::Global;

/// Why bytes were not read as a response.
#[derive(Clone, Copy, Debug, PartialEq, Eq, Drop)]
pub enum ResponseError {
    /// The bytes begin with no well-formed Structure.
    Malformed,
    /// The Structure at the front has another tag, or its fields are not those of the table.
    Unread,
    /// Memory ran out before it was known whether the bytes are a response.
    OutOfMemory,
}

/// Reads the Structure as which some of the first bytes parse: by the law
/// `front_structure_computed` that is `front_structure`. Bytes after it are not read.
///
/// `Malformed` is returned exactly where no front of the bytes is a well-formed Structure, and
/// `Unread` only where the Structure at the front is no value of the type.
pub fn from_slice<T: ReadRoot>(alloc: Global, bytes: &[u8]) -> Result<T, ResponseError>
    ensures ok { IfOk result (λ x.
        option_and_then (root_read T.shape T.root_tag) (front_structure bytes.now) ≡
        Some (T.val x)) }
    ensures malformed { result ≡ Err ResponseError.Malformed ↔ (front_structure bytes.now ≡ None) }
    ensures unread { result ≡ Err ResponseError.Unread →
        option_and_then (root_read T.shape T.root_tag) (front_structure bytes.now) ≡ None }
{
    let Some((item, _rest)) = split_front(bytes, 1) else {
        return Err(ResponseError::Malformed);
    };
    if item.kind() != Kind::Structure {
        return Err(ResponseError::Malformed);
    }
    match read_root(alloc, item) {
        Ok(value) => Ok(value),
        Err(ReadError::Unread) => Err(ResponseError::Unread),
        Err(ReadError::OutOfMemory) => Err(ResponseError::OutOfMemory),
    }
}
