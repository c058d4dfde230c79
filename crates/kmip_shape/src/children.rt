//! Reading the children of a structure that have one tag.

ghost use Rattle.std.specs.Prelude.{◌≡◌, ℕ, IfOk, Some, None, Err, map};
ghost use Rattle.kmip_wire.specs.Items.{item_tree};
ghost use Rattle.kmip_shape.specs.Val.{One as one, Many as many};
ghost use Rattle.kmip_shape.specs.Shape.{Required, Optional, AnyNumber};
ghost use Rattle.kmip_shape.specs.Writes.{optional, vals};
ghost use Rattle.kmip_shape.specs.Resume.{outer_of, read_row};

use crate::read::{Outer, ReadError, ReadItem};
use crate::row_readers::push_item;
use kmip_wire::{ItemRef, List, Tag};
use std::alloc::Global;

/// The value of the one child with the tag. `Unread` comes exactly where the parent is no Structure
/// with exactly one such child, or that child is no encoding of a value of the type.
pub fn read_one<T: ReadItem>(
    alloc: Global,
    outer: Outer<'_>,
    parent: ItemRef<'_>,
    tag: Tag,
) -> Result<T, ReadError>
    ensures ok { IfOk result (λ x.
        read_row Required T.shape (outer_of outer.entry) tag (item_tree parent.entry)
        ≡ Some (one (T.val x))) }
    ensures unread { result ≡ Err ReadError.Unread →
        read_row Required T.shape (outer_of outer.entry) tag (item_tree parent.entry) ≡ None }
{
    let children = parent.children().ok_or(ReadError::Unread)?;
    let mut found: Option<T> = None;
    for child in children {
        if child.tag() == tag {
            if found.is_some() {
                return Err(ReadError::Unread);
            }
            found = Some(T::read(alloc, outer, child)?);
        }
    }
    found.ok_or(ReadError::Unread)
}

/// The value of the child with the tag, where there is one. `Unread` comes exactly where the parent
/// is no Structure, or has two or more such children, or the one child is no encoding of a value of
/// the type.
pub fn read_opt<T: ReadItem>(
    alloc: Global,
    outer: Outer<'_>,
    parent: ItemRef<'_>,
    tag: Tag,
) -> Result<Option<T>, ReadError>
    ensures ok { IfOk result (λ x.
        read_row Optional T.shape (outer_of outer.entry) tag (item_tree parent.entry)
        ≡ Some (optional T.val x)) }
    ensures unread { result ≡ Err ReadError.Unread →
        read_row Optional T.shape (outer_of outer.entry) tag (item_tree parent.entry) ≡ None }
{
    let children = parent.children().ok_or(ReadError::Unread)?;
    let mut single: Option<T> = None;
    for child in children {
        if child.tag() == tag {
            if single.is_some() {
                return Err(ReadError::Unread);
            }
            single = Some(T::read(alloc, outer, child)?);
        }
    }
    Ok(single)
}

/// The values of all children with the tag, in order. `Unread` comes exactly where the parent is no
/// Structure, or one such child is no encoding of a value of the type.
#[tactic(auto, using(crate::proofs::Gathered::gathering))]
pub fn read_list<T: ReadItem>(
    alloc: Global,
    outer: Outer<'_>,
    parent: ItemRef<'_>,
    tag: Tag,
) -> Result<List<T>, ReadError>
    ensures ok { IfOk result (λ x.
        read_row AnyNumber T.shape (outer_of outer.entry) tag (item_tree parent.entry)
        ≡ Some (many (vals T.val x))) }
    ensures unread { result ≡ Err ReadError.Unread →
        read_row AnyNumber T.shape (outer_of outer.entry) tag (item_tree parent.entry) ≡ None }
{
    let children = parent.children().ok_or(ReadError::Unread)?;
    let mut items = Vec::new(alloc);
    for child in children {
        if child.tag() == tag {
            push_item(&mut items, alloc, outer, child)?;
        }
    }
    Ok(List::of_vec(items))
}
