//! A message of the caller's, sent as it stands.
ghost use Rattle.std.specs.Prelude.{◌≡◌, ◌≢◌, ℕ, List, Option, Some, None, nat_le};
ghost use Rattle.std.specs.Prelude.{OnOk, IfErr, IsErrOf};
ghost use Rattle.kmip_wire.specs.Tree.{Tree as TheTree, trees_of};
ghost use Rattle.kmip_wire.specs.Bytes.{levels, levels_of_all};
ghost use Rattle.kmip_client.specs.Headline.{IsReadBy};
ghost use Rattle.kmip_client.specs.Outcome.{Gives, reading_failed, writing_failed};
ghost use Rattle.kmip_client.specs.WholeMessage.{is_message, whole_bytes, whole_answer};
ghost use Rattle.kmip_client.specs.WholeMessage.{message_calls};

use crate::call_request::{CallRequest, ReadsAnswer};
use crate::error::Error;
use crate::untyped::{malformed, whole_tree};
use kmip_request::Authentication;
use kmip_wire::{Buffer, Node, Tree, WireError, write_tree};
use std::alloc::Global;

/// Whether an item has at most so many levels.
#[cycle(levels)]
pub fn is_within(tree: &Tree, most: u32) -> bool
    ensures { result ≡ nat_le (levels tree.now) most }
{
    if most == 0 {
        return false;
    }
    match &tree.node {
        Node::Structure(items) => are_within(items.as_slice(), most - 1),
        _ => true,
    }
}

/// Whether each of the items has.
#[cycle(levels)]
fn are_within(trees: &[Tree], most: u32) -> bool
    ensures { result ≡ nat_le (levels_of_all (trees_of trees.now)) most }
{
    for tree in trees {
        if !is_within(tree, most) {
            return false;
        }
    }
    true
}

/// Whether an item is a message: a structure of at most 64 levels.
fn is_message(tree: &Tree) -> bool
    ensures { result ≡ is_message tree.now }
{
    match &tree.node {
        Node::Structure(_) => is_within(tree, 64),
        _ => false,
    }
}

/// Writes a message in place of what was in the buffer.
fn write_whole(alloc: Global, message: &Tree, out: &mut Buffer) -> Result<(), WireError>
    ensures ok { OnOk result (whole_bytes message.now ≡ Some out.new.bytes) }
    ensures no_form { IsErrOf result WireError.NoForm → whole_bytes message.now ≡ None }
    ensures never { IfErr result (λ e. e ≢ WireError.Malformed) }
{
    if !is_message(message) {
        return Err(WireError::NoForm);
    }
    let written = write_tree(alloc, message)?;
    out.reset(written.len())?;
    out.put(written.as_slice());
    Ok(())
}

/// The tree of the bytes of a whole message.
fn whole_answer(alloc: Global, m: &[u8]) -> Result<Tree, Error>
    ensures { Gives (whole_answer m.now) result }
{
    match whole_tree(alloc, m)? {
        Some(message) => Ok(message),
        None => malformed(alloc),
    }
}

/// A message of the caller's.
#[derive(Clone, Copy)]
pub struct MessageRequest<'a> {
    /// The message, written as it stands: its tags and contents are not checked.
    pub message: &'a Tree,
}

impl<'a> CallRequest for MessageRequest<'a> {
    type Payload = Tree;

    ghost Request = { TheTree };

    ghost Seen = { TheTree };

    ghost kind = { message_calls };

    ghost request = { λ r. r.message.now };

    ghost seen = { λ r tree. tree };

    ghost IsRead = { λ r. Unit {0} };

    fn write(
        &self,
        alloc: Global,
        _authentication: &Option<Authentication>,
        out: &mut Buffer,
    ) -> Result<(), WireError> {
        write_whole(alloc, self.message, out)
    }

    fn read(&self, alloc: Global, m: &[u8]) -> Result<Tree, Error> {
        whole_answer(alloc, m)
    }

    fn readings_hold()
        ensures never_fails { (r : TheTree) (m : List ℕ) →
            message_calls.reads r m ≡ reading_failed → ⊥ }
        ensures never_writes { (r : TheTree) (m : List ℕ) →
            message_calls.reads r m ≡ writing_failed → ⊥ }
        ensures valid { (r : TheTree) (limit : Option ℕ) →
            IsReadBy (message_calls.reads r) limit (message_calls.IsValid r limit) }
    {}
}

/// The answers to whole messages.
#[derive(Clone, Copy)]
pub struct WholeAnswers;

impl ReadsAnswer for WholeAnswers {
    type Payload = Tree;

    ghost Seen = { TheTree };

    ghost reads = { λ r. whole_answer };

    ghost seen = { λ r tree. tree };

    ghost IsRead = { λ r. Unit {0} };

    fn read(&self, alloc: Global, m: &[u8]) -> Result<Tree, Error> {
        whole_answer(alloc, m)
    }
}
