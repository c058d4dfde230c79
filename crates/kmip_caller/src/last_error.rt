//! The last error of a standard stream, in the system's words.

use kmip_wire::{OutOfMemory, Text};
use std::alloc::Global;
use std::cell::Cell;
use std::io::{self, Read, Write};

/// The number of the error with which one of the streams that it is lent to failed last.
#[derive(Drop)]
pub struct LastError {
    number: Cell<Option<i32>>,
}

impl LastError {
    /// None as yet. It takes no memory.
    pub fn new() -> LastError {
        LastError {
            number: Cell::new(None),
        }
    }

    /// The error, in the system's words; `None` where there is none.
    pub(crate) fn reason(&self, alloc: Global) -> Result<Option<Text>, OutOfMemory> {
        let Some(number) = self.number.get() else {
            return Ok(None);
        };
        let error = io::Error::from_raw_os_error(number);
        Ok(Some(Text::of_string(format!(in alloc; "{error}")?)))
    }

    /// Keeps the error of what a stream returned, where it is one of the system's.
    fn keep(&self, moved: &io::Result<usize>) {
        if let Err(error) = moved {
            self.number.set(error.raw_os_error());
        }
    }
}

/// A stream whose last error is kept.
#[derive(Drop)]
pub struct Watched<'a, T> {
    /// The stream.
    pub stream: T,
    /// Where its last error is kept.
    pub last: &'a LastError,
}

impl<T: Read> Read for Watched<'_, T> {
    fn read(&mut self, into: &mut [u8]) -> io::Result<usize> {
        let moved = self.stream.read(into);
        self.last.keep(&moved);
        moved
    }
}

impl<T: Write> Write for Watched<'_, T> {
    fn write(&mut self, bytes: &[u8]) -> io::Result<usize> {
        let moved = self.stream.write(bytes);
        self.last.keep(&moved);
        moved
    }

    fn flush(&mut self) -> io::Result<()> {
        self.stream.flush()
    }
}
