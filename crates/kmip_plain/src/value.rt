//! The value of an item that is no structure.
ghost use Rattle.std.specs.Prelude.{◌≡◌, ◌++◌, OnOk};
ghost use Rattle.kmip_plain.specs.Writing.{scalar_tokens};

use json::Writer;
use kmip_encodings::put_value;
use kmip_wire::{Node, OutOfMemory, Tag, Tree};
use std::alloc::Global;

/// Writes the value of an item that is no structure; of a structure it writes nothing. Names of
/// Attribute Value are those of `named`.
pub(crate) fn put_scalar(
    alloc: Global,
    named: Tag,
    tree: &Tree,
    writer: &mut Writer,
) -> Result<(), OutOfMemory>
    ensures tokens { OnOk result
        (writer.new.tokens ≡ writer.old.tokens ++ scalar_tokens named tree.now) }
    ensures before { writer.new.before ≡ writer.old.before }
{
    match &tree.node {
        Node::BigInteger(bytes) => {
            writer.string(hex::encode_upper(alloc, bytes.as_slice())?.as_str())?;
            Ok(())
        }
        _ => put_value(alloc, named, tree, writer),
    }
}
