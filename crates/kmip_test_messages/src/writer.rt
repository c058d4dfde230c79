//! Items written from their first byte to their last (KMIP 1.0, 9.1.1).
use crate::error::NotationError;
use std::alloc::Global;
use std::mem;

/// The type Structure (KMIP 1.0, 9.1.1.2).
const STRUCTURE: u8 = 1;

/// Appends an item of this type.
fn put_item(out: &mut Vec<u8>, tag: u32, code: u8, value: &[u8]) -> Result<(), NotationError> {
    let [_, high, middle, low] = tag.to_be_bytes();
    out.extend_from_slice(&[high, middle, low, code])?;
    let Ok(len) = u32::try_from(value.len()) else {
        return Err(NotationError::OutOfMemory);
    };
    out.extend_from_slice(&len.to_be_bytes())?;
    out.extend_from_slice(value)?;
    for _ in 0..(8 - value.len() % 8) % 8 {
        out.push(0)?;
    }
    Ok(())
}

/// A structure whose end was not read yet.
#[derive(Drop)]
struct Begun {
    tag: u32,
    /// What stands before it in the structure around it.
    before: Vec<u8>,
}

/// What was written, of which some structures have no end yet.
#[derive(Drop)]
pub(crate) struct Writer {
    alloc: Global,
    begun: Vec<Begun>,
    /// The items of the innermost structure.
    items: Vec<u8>,
}

impl Writer {
    /// Nothing was written.
    pub(crate) fn new(alloc: Global) -> Writer {
        Writer {
            alloc,
            begun: Vec::new(alloc),
            items: Vec::new(alloc),
        }
    }

    /// Begins a structure.
    pub(crate) fn begin(&mut self, tag: u32) -> Result<(), NotationError> {
        let before = mem::replace(&mut self.items, Vec::new(self.alloc));
        self.begun.push(Begun { tag, before })?;
        Ok(())
    }

    /// Ends the innermost structure, and says whether there is one.
    pub(crate) fn end(&mut self) -> Result<bool, NotationError> {
        let Some(Begun { tag, mut before }) = self.begun.pop() else {
            return Ok(false);
        };
        put_item(&mut before, tag, STRUCTURE, &self.items)?;
        self.items = before;
        Ok(true)
    }

    /// Writes an item of another type than Structure.
    pub(crate) fn put(&mut self, tag: u32, code: u8, value: &[u8]) -> Result<(), NotationError> {
        put_item(&mut self.items, tag, code, value)
    }

    /// Writes these bytes as they stand.
    pub(crate) fn put_bytes(&mut self, bytes: &[u8]) -> Result<(), NotationError> {
        self.items.extend_from_slice(bytes)?;
        Ok(())
    }

    /// The items, where each structure has its end.
    pub(crate) fn finish(self) -> Option<Vec<u8>> {
        if self.begun.is_empty() {
            Some(self.items)
        } else {
            None
        }
    }
}
