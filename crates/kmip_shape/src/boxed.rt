//! `Boxed<T>` as an item: in every respect the item of the `T` in it.

use crate::item::{Item, WriteItem};
use crate::read::{Outer, ReadError, ReadItem};
use crate::show::ShowItem;
use crate::text_writer::TextWriter;
use kmip_wire::{Boxed, Buffer, ItemRef, Tag};
use std::alloc::Global;

impl<T: Item> Item for Boxed<T> {
    ghost shape = { T.shape };

    ghost val = { T.val };

    fn fits(&self) {
        self.get().fits();
    }

    ghost faithful = { T.faithful };
}

impl<T: WriteItem> WriteItem for Boxed<T> {
    fn wire_len(&self, tag: Tag) -> Option<u64> {
        self.get().wire_len(tag)
    }

    fn write_into(&self, tag: Tag, out: &mut Buffer) {
        self.get().write_into(tag, out);
    }
}

impl<T: ReadItem> ReadItem for Boxed<T> {
    #[inline(never)]
    fn read(alloc: Global, outer: Outer<'_>, item: ItemRef<'_>) -> Result<Self, ReadError> {
        Ok(Boxed::new(alloc, T::read(alloc, outer, item)?)?)
    }
}

impl<T: ShowItem> ShowItem for Boxed<T> {
    fn show_into(&self, out: &mut TextWriter) {
        self.get().show_into(out);
    }
}
