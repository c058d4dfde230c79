//! A source and a sink in memory, which fail at planned calls.
ghost use Rattle.std.specs.Prelude.{◌≡◌, ◌⊎◌, ◌↔◌, ◌+◌, ◌-◌, ◌<◌, ◌≤◌, ◌++◌, [], ℕ, length, take};
ghost use Rattle.std.specs.Prelude.{drop, min, Ok, IfOk, IfErr, OnErr, OnOk, IsErrOf, IsTrue};
ghost use Rattle.std.specs.Prelude.{Contains};
ghost use Rattle.kmip_link.specs.State.{source_left, SourceKeeps, SourceIsIdle, SourceReads};
ghost use Rattle.kmip_link.specs.State.{SinkKeeps, FaultCountRose};
ghost use Rattle.kmip_link.specs.Plan.{SourceMemory, SinkMemory, source_state, sink_state};
ghost use Rattle.kmip_link.specs.Plan.{next_count};

use crate::link::{LinkError, Sink, Source};
use std::alloc::Global;
use std::marker::Model;

/// Bytes to read, as a source. The reads with the numbers in `failing`, counted from 0, fail and
/// move nothing.
///
/// The number stops at the greatest `u64`.
#[derive(Drop)]
pub struct MemorySource {
    ever: Vec<u8>,
    pos: usize,
    failing: Vec<u64>,
    number: u64,
    faults: u64,
}

impl Model for MemorySource {
    ghost Value = { SourceMemory };

    ghost view = { λ s. record {
      ever = s.ever.items;
      pos = s.pos;
      failing = s.failing.items;
      number = s.number;
      faults = s.faults;
    } };

    ghost invariant = { λ s. s.pos ≤ length s.ever.items };
}

impl MemorySource {
    /// A source of these bytes. Its only error is that memory ran out.
    pub fn new(alloc: Global, bytes: &[u8], failing: &[u64]) -> Result<MemorySource, LinkError>
        ensures ok { IfOk result (λ it. it ≡
            record { ever = bytes.now; pos = 0; failing = failing.now; number = 0; faults = 0 }) }
        ensures cause { IfErr result (λ e. e ≡ LinkError.OutOfMemory) }
    {
        let mut ever = Vec::new(alloc);
        ever.extend_from_slice(bytes)?;
        let mut numbers = Vec::new(alloc);
        numbers.extend_from_slice(failing)?;
        Ok(MemorySource {
            ever,
            pos: 0,
            failing: numbers,
            number: 0,
            faults: 0,
        })
    }
}

impl Source for MemorySource {
    ghost state = { source_state };

    /// Moves the smaller of the room and the bytes left, except at a planned failure. It takes no
    /// memory.
    fn read(&mut self, into: &mut [u8]) -> Result<usize, LinkError>
        ensures keeps { SourceKeeps (source_state self.old) (source_state self.new) }
        ensures bound { IfOk result (λ n. n ≤ length into.new) }
        ensures moved { IfOk result
            (λ n. SourceReads (source_state self.old) (source_state self.new) into.new n) }
        ensures idle { OnErr result (SourceIsIdle (source_state self.old) (source_state self.new)) }
        ensures cause { IsErrOf result LinkError.Fault →
            FaultCountRose self.old.faults self.new.faults }
        ensures fails { IsErrOf result LinkError.Fault ↔ Contains self.old.failing self.old.number }
        ensures other { IfErr result (λ e. e ≡ LinkError.Fault) }
        ensures size { IfOk result (λ n. n ≡
            min (length into.old) (length (source_left (source_state self.old)))) }
        ensures number { self.new.number ≡ next_count self.old.number }
        ensures steady { OnOk result (self.new.faults ≡ self.old.faults) }
        ensures rises { OnErr result (self.new.faults ≡ next_count self.old.faults) }
        ensures failing { self.new.failing ≡ self.old.failing }
    {
        let fails = self.failing.contains(&self.number);
        self.number = self.number.saturating_add(1);
        if fails {
            self.faults = self.faults.saturating_add(1);
            return Err(LinkError::Fault);
        }
        let count = into.len().min(self.ever.len() - self.pos);
        into[..count].copy_from_slice(&self.ever[self.pos..self.pos + count]);
        self.pos += count;
        Ok(count)
    }
}

/// Keeps what is written, as a sink. The writes with the numbers in `failing`, counted from 0, fail
/// and take nothing.
///
/// The number stops at the greatest `u64`.
#[derive(Drop)]
pub struct MemorySink {
    sent: Vec<u8>,
    failing: Vec<u64>,
    number: u64,
    faults: u64,
}

impl Model for MemorySink {
    ghost Value = { SinkMemory };

    ghost view = { λ s. record {
      sent = s.sent.items;
      failing = s.failing.items;
      number = s.number;
      faults = s.faults;
    } };
}

impl MemorySink {
    /// A sink that was sent nothing. Its only error is that memory ran out.
    pub fn new(alloc: Global, failing: &[u64]) -> Result<MemorySink, LinkError>
        ensures ok { IfOk result (λ it. it ≡
            record { sent = []; failing = failing.now; number = 0; faults = 0 }) }
        ensures cause { IfErr result (λ e. e ≡ LinkError.OutOfMemory) }
    {
        let mut numbers = Vec::new(alloc);
        numbers.extend_from_slice(failing)?;
        Ok(MemorySink {
            sent: Vec::new(alloc),
            failing: numbers,
            number: 0,
            faults: 0,
        })
    }

    /// All bytes that were written, in order. It takes no memory.
    pub fn written(&self) -> &[u8]
        ensures { result.now ≡ self.now.sent }
    {
        &self.sent
    }
}

impl Sink for MemorySink {
    ghost state = { sink_state };

    /// Takes the whole piece, except at a planned failure.
    fn write(&mut self, bytes: &[u8]) -> Result<usize, LinkError>
        ensures keeps { SinkKeeps (sink_state self.old) (sink_state self.new) }
        ensures bound { IfOk result (λ n. n ≤ length bytes.now) }
        ensures some { IfOk result (λ n. 0 < length bytes.now → 0 < n) }
        ensures moved { IfOk result (λ n. self.new.sent ≡ self.old.sent ++ take n bytes.now) }
        ensures idle { OnErr result (self.new.sent ≡ self.old.sent) }
        ensures cause { IsErrOf result LinkError.Fault →
            FaultCountRose self.old.faults self.new.faults }
        ensures fails { IsErrOf result LinkError.Fault ↔ Contains self.old.failing self.old.number }
        ensures number { self.new.number ≡ next_count self.old.number }
        ensures size { IfOk result (λ n. n ≡ length bytes.now) }
        ensures steady { OnOk result (self.new.faults ≡ self.old.faults) }
        ensures rises { IsErrOf result LinkError.Fault → self.new.faults ≡
            next_count self.old.faults }
        ensures memory { IsErrOf result LinkError.OutOfMemory → self.new.faults ≡ self.old.faults }
        ensures failing { self.new.failing ≡ self.old.failing }
    {
        let fails = self.failing.contains(&self.number);
        self.number = self.number.saturating_add(1);
        if fails {
            self.faults = self.faults.saturating_add(1);
            return Err(LinkError::Fault);
        }
        self.sent.extend_from_slice(bytes)?;
        Ok(bytes.len())
    }
}
