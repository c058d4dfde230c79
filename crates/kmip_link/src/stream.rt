//! The trusted edge: a link, a source and a sink over any reader and writer of std.
//!
//! Contracts know nothing of their content. Each has a count of faults, which rises at each error
//! of the reader or writer, and at a write that takes nothing of a piece that is not empty, up to
//! the greatest `u64`.
ghost use Rattle.std.specs.Prelude.{◌≡◌, ◌<◌, ◌≤◌, false, [], length, take, IfOk, IfErr, OnOk};
ghost use Rattle.std.specs.Prelude.{OnErr, IsErrOf, IsTrue};
ghost use Rattle.kmip_link.specs.State.{Keeps, IsIdle, Reads, Writes, FaultCountRose, SourceKeeps};
ghost use Rattle.kmip_link.specs.State.{SourceIsIdle, SourceReads, SinkKeeps, silent_link};
ghost use Rattle.kmip_link.specs.State.{silent_source, silent_sink};
ghost use Rattle.kmip_link.specs.Plan.{next_count};

use crate::link::{Link, LinkError, Sink, Source};
use std::io::{Read, Write};

/// Raises a count of faults, up to the greatest `u64`.
fn fault(faults: &mut u64) -> LinkError
    ensures count { faults.new ≡ next_count faults.old }
    ensures later { faults.old ≤ faults.new }
    ensures error { result ≡ LinkError.Fault }
{
    *faults = faults.saturating_add(1);
    LinkError::Fault
}

/// A link over a reader and a writer, as the two halves of a connection.
#[derive(Drop)]
pub struct StreamLink<R, W> {
    reader: R,
    writer: W,
    faults: u64,
}

impl<R, W> StreamLink<R, W> {
    /// A link over these two, with no faults. It takes no memory.
    pub fn new(reader: R, writer: W) -> StreamLink<R, W>
        ensures { (result.reader ≡ reader) × (result.writer ≡ writer) × (result.faults ≡ 0) }
    {
        StreamLink {
            reader,
            writer,
            faults: 0,
        }
    }
}

impl<R: Read, W: Write> Link for StreamLink<R, W> {
    ghost state = { λ s. silent_link s.faults };

    /// Reads once from the reader.
    fn read(&mut self, into: &mut [u8]) -> Result<usize, LinkError>
        ensures keeps { Keeps (silent_link self.old.faults) (silent_link self.new.faults) }
        ensures bound { IfOk result (λ n. n ≤ length into.new) }
        ensures moved { IfOk result (λ n. IsTrue (silent_link self.old.faults).tells →
            Reads (silent_link self.old.faults) (silent_link self.new.faults) into.new n) }
        ensures idle { OnErr result (IsTrue (silent_link self.old.faults).tells →
            IsIdle (silent_link self.old.faults) (silent_link self.new.faults)) }
        ensures cause { IsErrOf result LinkError.Fault →
            FaultCountRose self.old.faults self.new.faults }
        ensures steady { OnOk result (self.new.faults ≡ self.old.faults) }
        ensures rises { OnErr result (self.new.faults ≡ next_count self.old.faults) }
        ensures other { IfErr result (λ e. e ≡ LinkError.Fault) }
    {
        match self.reader.read(into) {
            Ok(count) => Ok(count),
            Err(_) => Err(fault(&mut self.faults)),
        }
    }

    /// Writes once to the writer.
    fn write(&mut self, bytes: &[u8]) -> Result<usize, LinkError>
        ensures keeps { Keeps (silent_link self.old.faults) (silent_link self.new.faults) }
        ensures bound { IfOk result (λ n. n ≤ length bytes.now) }
        ensures some { IfOk result (λ n. 0 < length bytes.now → 0 < n) }
        ensures moved { IfOk result (λ n. IsTrue (silent_link self.old.faults).tells →
            Writes (silent_link self.old.faults) (silent_link self.new.faults) (take n bytes.now)) }
        ensures idle { OnErr result (IsTrue (silent_link self.old.faults).tells →
            IsIdle (silent_link self.old.faults) (silent_link self.new.faults)) }
        ensures cause { IsErrOf result LinkError.Fault →
            FaultCountRose self.old.faults self.new.faults }
        ensures steady { OnOk result (self.new.faults ≡ self.old.faults) }
        ensures rises { OnErr result (self.new.faults ≡ next_count self.old.faults) }
        ensures other { IfErr result (λ e. e ≡ LinkError.Fault) }
    {
        match self.writer.write(bytes) {
            Ok(count) if count > 0 || bytes.is_empty() => Ok(count),
            _ => Err(fault(&mut self.faults)),
        }
    }
}

/// A source over a reader.
#[derive(Drop)]
pub struct StdSource<R> {
    reader: R,
    faults: u64,
}

impl<R> StdSource<R> {
    /// A source over this reader, with no faults. It takes no memory.
    pub fn new(reader: R) -> StdSource<R>
        ensures { (result.reader ≡ reader) × (result.faults ≡ 0) }
    {
        StdSource { reader, faults: 0 }
    }
}

impl<R: Read> Source for StdSource<R> {
    ghost state = { λ s. silent_source s.faults };

    /// Reads once from the reader.
    fn read(&mut self, into: &mut [u8]) -> Result<usize, LinkError>
        ensures keeps { SourceKeeps (silent_source self.old.faults)
            (silent_source self.new.faults) }
        ensures bound { IfOk result (λ n. n ≤ length into.new) }
        ensures moved { IfOk result (λ n. IsTrue (silent_source self.old.faults).tells →
            SourceReads (silent_source self.old.faults) (silent_source self.new.faults) into.new
            n) }
        ensures idle { OnErr result (IsTrue (silent_source self.old.faults).tells →
            SourceIsIdle (silent_source self.old.faults) (silent_source self.new.faults)) }
        ensures cause { IsErrOf result LinkError.Fault →
            FaultCountRose self.old.faults self.new.faults }
        ensures steady { OnOk result (self.new.faults ≡ self.old.faults) }
        ensures rises { OnErr result (self.new.faults ≡ next_count self.old.faults) }
        ensures other { IfErr result (λ e. e ≡ LinkError.Fault) }
    {
        match self.reader.read(into) {
            Ok(count) => Ok(count),
            Err(_) => Err(fault(&mut self.faults)),
        }
    }
}

/// A sink over a writer.
#[derive(Drop)]
pub struct StdSink<W> {
    writer: W,
    faults: u64,
}

impl<W> StdSink<W> {
    /// A sink over this writer, with no faults. It takes no memory.
    pub fn new(writer: W) -> StdSink<W>
        ensures { (result.writer ≡ writer) × (result.faults ≡ 0) }
    {
        StdSink { writer, faults: 0 }
    }
}

impl<W: Write> Sink for StdSink<W> {
    ghost state = { λ s. silent_sink s.faults };

    /// Writes once to the writer.
    fn write(&mut self, bytes: &[u8]) -> Result<usize, LinkError>
        ensures keeps { SinkKeeps (silent_sink self.old.faults) (silent_sink self.new.faults) }
        ensures bound { IfOk result (λ n. n ≤ length bytes.now) }
        ensures some { IfOk result (λ n. 0 < length bytes.now → 0 < n) }
        ensures moved { IfOk result (λ n. IsTrue (silent_sink self.old.faults).tells →
            (silent_sink self.new.faults).sent ≡ take n bytes.now) }
        ensures idle { OnErr result (IsTrue (silent_sink self.old.faults).tells →
            (silent_sink self.new.faults).sent ≡ (silent_sink self.old.faults).sent) }
        ensures cause { IsErrOf result LinkError.Fault →
            FaultCountRose self.old.faults self.new.faults }
        ensures steady { OnOk result (self.new.faults ≡ self.old.faults) }
        ensures rises { OnErr result (self.new.faults ≡ next_count self.old.faults) }
        ensures other { IfErr result (λ e. e ≡ LinkError.Fault) }
    {
        match self.writer.write(bytes) {
            Ok(count) if count > 0 || bytes.is_empty() => Ok(count),
            _ => Err(fault(&mut self.faults)),
        }
    }
}
