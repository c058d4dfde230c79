//! The item at the front as JSON, with offsets.
ghost use Rattle.std.specs.Prelude.{◌≡◌, ◌≤◌, ◌^◌, IfOk, IfSome, Some, length, option_map};
ghost use Rattle.kmip_wire.specs.Reading.{front_at};
ghost use Rattle.kmip_encodings.specs.Encoding.{text_at};
ghost use Rattle.kmip_encodings.specs.Sizes.{size_of};

use kmip_encodings::to_json_with_offsets;
use kmip_wire::{OutOfMemory, Tree, WireError, read_tree};
use std::alloc::Global;

/// The tree of the well-formed item at the front; `None` where none is there.
fn front_tree(alloc: Global, bytes: &[u8]) -> Result<Option<Tree>, OutOfMemory>
    ensures tree { IfOk result (λ tree. tree ≡ front_at 1 bytes.now) }
    ensures size { IfOk result (λ tree. IfSome tree (λ t. size_of t ≤ length bytes.now)) }
{
    match read_tree(alloc, bytes) {
        Ok(read) => Ok(Some(read.0)),
        Err(WireError::Malformed) => Ok(None),
        Err(WireError::NoForm) => Ok(None),
        Err(WireError::OutOfMemory) => Err(OutOfMemory),
    }
}

fn tree_json(alloc: Global, tree: &Tree) -> Result<Vec<u8>, OutOfMemory>
    requires { size_of tree.now ≤ 2 ^ 63 }
    ensures { IfOk result (λ json. json.items ≡ text_at (Some 0) tree.now) }
{
    let mut json = Vec::new(alloc);
    to_json_with_offsets(alloc, tree, 0, &mut json)?;
    Ok(json)
}

/// The JSON of the well-formed item at the front, with where each item begins in it, counted from
/// the front; `None` where none is there.
pub fn json_of(alloc: Global, bytes: &[u8]) -> Result<Option<Vec<u8>>, OutOfMemory>
    ensures { IfOk result (λ json. option_map (λ text. text.items) json ≡
        option_map (text_at (Some 0)) (front_at 1 bytes.now)) }
{
    match front_tree(alloc, bytes)? {
        Some(tree) => Ok(Some(tree_json(alloc, &tree)?)),
        None => Ok(None),
    }
}
