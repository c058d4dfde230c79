//! Writing items of every type as their canonical bytes.

ghost use Rattle.std.specs.Prelude.{◌≡◌, ◌≤◌, ℕ, List, Some, length, IsSomeAnd, IfSome};
ghost use Rattle.std.specs.Option.{option_map};
ghost use Rattle.kmip_wire.specs.Room.{Appends};
ghost use Rattle.kmip_wire.specs.Found.{GivesBytes};
ghost use Rattle.kmip_shape.specs.Writes.{bytes_of};

use crate::item::WriteItem;
use kmip_wire::{Blob, Buffer, Tag, WireError};
use std::alloc::Global;

/// The length of the canonical bytes of an item, and `None` exactly where it has none.
#[tactic(auto, using(crate::proofs::Lengths::wire_len_law))]
pub fn item_len<T: WriteItem>(item: &T, tag: Tag) -> Option<u64>
    ensures { result ≡ option_map length (bytes_of T.shape tag (T.val item.now)) }
{
    item.wire_len(tag)
}

/// Appends the canonical bytes of an item.
pub fn write_item<T: WriteItem>(item: &T, tag: Tag, out: &mut Buffer)
    requires { IsSomeAnd (bytes_of T.shape tag (T.val item.now))
        (λ bytes. length bytes ≤ out.old.spare) }
    ensures { IfSome (bytes_of T.shape tag (T.val item.now))
        (λ bytes. Appends out.old out.new bytes (length bytes)) }
{
    item.write_into(tag, out);
}

/// The canonical bytes of an item. `NoForm` comes exactly where there are none, and `Malformed`
/// never.
pub fn to_blob<T: WriteItem>(alloc: Global, item: &T, tag: Tag) -> Result<Blob, WireError>
    ensures { GivesBytes result (bytes_of T.shape tag (T.val item.now)) }
{
    let Some(len) = item_len(item, tag) else {
        return Err(WireError::NoForm);
    };
    let mut out = Buffer::new(alloc);
    out.reserve(len as usize)?;
    write_item(item, tag, &mut out);
    Ok(out.into_blob())
}
