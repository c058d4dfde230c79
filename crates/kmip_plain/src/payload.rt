//! A payload of an answer in one of two forms.
ghost use Rattle.std.specs.Prelude.{◌≡◌, ◌++◌, OnOk, OnErr, IsUtf8};
ghost use Rattle.json.specs.Print.{print};
ghost use Rattle.json.specs.Tree.{json_tokens};
ghost use Rattle.kmip_plain.specs.Plain.{plain_json};
ghost use Rattle.kmip_plain.specs.Payload.{payload_text};

use crate::plain::put_tree;
use json::Writer;
use kmip_encodings::{to_json, unnamed};
use kmip_wire::{OutOfMemory, Tree};
use std::alloc::Global;
use std::mem;

/// How a payload is written.
#[derive(Clone, Copy, PartialEq, Eq, Drop)]
pub enum PayloadForm {
    /// As a tree of items, each an object with its tag, type and value.
    Tree,
    /// Plain: a structure as an object with a member for each tag, and any other item as its value.
    Plain,
}

/// Appends the tree's plain JSON.
fn push_plain(alloc: Global, tree: &Tree, out: &mut Vec<u8>) -> Result<(), OutOfMemory>
    ensures all { OnOk result
        (out.new.items ≡ out.old.items ++ print (json_tokens (plain_json tree.now))) }
    ensures utf8 { OnOk result (IsUtf8 (print (json_tokens (plain_json tree.now)))) }
    ensures nothing { OnErr result (out.new.items ≡ out.old.items) }
{
    let len = out.len();
    let mut writer = Writer::new(mem::replace(out, Vec::new(alloc)));
    let written = put_tree(alloc, unnamed(), tree, &mut writer);
    *out = writer.into_inner();
    match written {
        Ok(()) => Ok(()),
        Err(error) => {
            out.truncate(len);
            Err(error)
        }
    }
}

/// Appends a payload's JSON in this form, in UTF-8 and with no white space. As a tree it is what
/// kmip_encodings' `to_json` writes.
///
/// Plain, a structure is an object with a member for each tag of its items, in the order of first
/// occurrence: the item's plain JSON, or an array where several items have the tag, in their order.
/// `plain_name` says the members' names. Any other item is its value as `to_json` writes it, but a
/// Big Integer has no `0x` before its digits. Types, and where an item stood between items of other
/// tags, are not written.
///
/// Where memory runs out, nothing was appended.
pub fn push_payload(
    alloc: Global,
    form: PayloadForm,
    tree: &Tree,
    out: &mut Vec<u8>,
) -> Result<(), OutOfMemory>
    ensures all { OnOk result (out.new.items ≡ out.old.items ++ payload_text form tree.now) }
    ensures utf8 { OnOk result (IsUtf8 (payload_text form tree.now)) }
    ensures nothing { OnErr result (out.new.items ≡ out.old.items) }
{
    match form {
        PayloadForm::Tree => to_json(alloc, tree, out),
        PayloadForm::Plain => push_plain(alloc, tree, out),
    }
}
