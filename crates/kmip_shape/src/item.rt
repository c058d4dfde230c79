//! The traits of a type of items: its shape, the meaning of its values, and how they are written.

ghost use Rattle.std.specs.Prelude.{◌≡◌, ◌≤◌};
ghost use Rattle.kmip_wire.specs.Room.{Appends};
ghost use Rattle.kmip_shape.specs.Val.{Val};
ghost use Rattle.kmip_shape.specs.Shape.{Shape};
ghost use Rattle.kmip_shape.specs.Fits.{Fits};
ghost use Rattle.kmip_shape.specs.Writes.{HasForm, size_of, text_of, wire_len_of};

use kmip_wire::{Buffer, Tag};

/// A type of items.
pub trait Item {
    /// The shape of its items.
    ghost shape: { Shape };

    /// The meaning of a value, by which contracts speak of it.
    ghost val: { Self → Val };

    /// Lemma: a value fits the shape. The call does nothing.
    fn fits(&self)
        ensures { Fits shape (val self.now) };

    /// Values of the same meaning are equal.
    ghost faithful: { (x y : Self) → val x ≡ val y → x ≡ y };
}

/// A type of items that can be written. By `laws::written` its clauses are those of `bytes_of`.
pub trait WriteItem: Item {
    /// The length of the value's canonical bytes, and `None` exactly where it has none.
    fn wire_len(&self, tag: Tag) -> Option<u64>
        ensures { result ≡ wire_len_of Self.shape (Self.val self.now) };

    /// Appends the value's canonical bytes.
    fn write_into(&self, tag: Tag, out: &mut Buffer)
        requires form { HasForm Self.shape (Self.val self.now) }
        requires room { size_of Self.shape (Self.val self.now) ≤ out.old.spare }
        ensures { Appends out.old out.new (text_of Self.shape tag (Self.val self.now))
            (size_of Self.shape (Self.val self.now)) };
}
