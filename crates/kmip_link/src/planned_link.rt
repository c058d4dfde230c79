//! A link in memory that fails at planned calls.
ghost use Rattle.std.specs.Prelude.{◌≡◌, ◌⊎◌, ◌↔◌, ◌+◌, ◌-◌, ◌<◌, ◌≤◌, ◌++◌, [], ℕ, length, take};
ghost use Rattle.std.specs.Prelude.{drop, min, Ok, IfOk, IfErr, OnErr, OnOk, IsErrOf, IsTrue};
ghost use Rattle.std.specs.Prelude.{Contains};
ghost use Rattle.kmip_link.specs.State.{Keeps, IsIdle, Reads, Writes, FaultCountRose, left};
ghost use Rattle.kmip_link.specs.Plan.{PlannedState, HasSize, CountsCall, planned_state};
ghost use Rattle.kmip_link.specs.Plan.{memory_state, next_count};

use crate::link::{Link, LinkError};
use crate::memory_link::MemoryLink;
use std::alloc::Global;
use std::marker::Model;

/// A `MemoryLink` whose calls with the numbers in `failing` fail, and do not reach it.
///
/// Its reads and writes are numbered together from 0; the number stops at the greatest `u64`.
#[derive(Drop)]
pub struct PlannedLink {
    link: MemoryLink,
    failing: Vec<u64>,
    number: u64,
    faults: u64,
}

impl Model for PlannedLink {
    ghost Value = { PlannedState };

    ghost view = { λ p. record {
      link = p.link;
      failing = p.failing.items;
      number = p.number;
      faults = p.faults;
    } };
}

impl PlannedLink {
    ghost use Rattle.std.specs.Borrow.{sem};
    ghost use Rattle.kmip_link.specs.Lending.{lends_memory};

    /// The link, with a plan of failures. Its only error is that memory ran out.
    pub fn new(alloc: Global, link: MemoryLink, failing: &[u64]) -> Result<PlannedLink, LinkError>
        ensures ok { IfOk result (λ it. it ≡
            record { link = link; failing = failing.now; number = 0; faults = 0 }) }
        ensures cause { IfErr result (λ e. e ≡ LinkError.OutOfMemory) }
    {
        let mut numbers = Vec::new(alloc);
        numbers.extend_from_slice(failing)?;
        Ok(PlannedLink {
            link,
            failing: numbers,
            number: 0,
            faults: 0,
        })
    }

    /// Borrows the link in memory, for reads and changes. It takes no memory.
    pub fn inner(&mut self) -> &mut MemoryLink
        ensures* writes_back { sem 𝓛 (lends_memory self.entry result) }
        ensures value { result.now ≡ self.old.link }
    {
        &mut self.link
    }

    /// Counts a call, and fails if the call's number is in `failing`.
    fn begin(&mut self) -> Result<(), LinkError>
        ensures ok { OnOk result
            (self.new ≡ record self.old { number = next_count self.old.number }) }
        ensures err { OnErr result (self.new ≡
            record self.old {
              number = next_count self.old.number;
              faults = next_count self.old.faults;
            }) }
        ensures fails { IsErrOf result LinkError.Fault ↔ Contains self.old.failing self.old.number }
        ensures cause { IfErr result (λ e. e ≡ LinkError.Fault) }
        ensures later { self.old.faults ≤ self.new.faults }
    {
        let fails = self.failing.contains(&self.number);
        self.number = self.number.saturating_add(1);
        if fails {
            self.faults = self.faults.saturating_add(1);
            Err(LinkError::Fault)
        } else {
            Ok(())
        }
    }
}

impl Link for PlannedLink {
    ghost state = { planned_state };

    /// Reads from the link in memory, except at a planned failure. It takes no memory.
    fn read(&mut self, into: &mut [u8]) -> Result<usize, LinkError>
        ensures keeps { Keeps (planned_state self.old) (planned_state self.new) }
        ensures bound { IfOk result (λ n. n ≤ length into.new) }
        ensures moved { IfOk result (λ n. Reads (planned_state self.old) (planned_state self.new)
            into.new n) }
        ensures idle { OnErr result (IsIdle (planned_state self.old) (planned_state self.new)) }
        ensures cause { IsErrOf result LinkError.Fault →
            FaultCountRose self.old.faults self.new.faults }
        ensures fails { IsErrOf result LinkError.Fault ↔ Contains self.old.failing self.old.number }
        ensures other { IfErr result (λ e. e ≡ LinkError.Fault) }
        ensures below { OnErr result (self.new.link ≡ self.old.link) }
        ensures size { IfOk result
            (λ n. HasSize self.old.link
            (min (length into.old) (length (left (memory_state self.old.link)))) n) }
        ensures counts { OnOk result (CountsCall self.old.link self.new.link) }
        ensures number { self.new.number ≡ next_count self.old.number }
        ensures steady { OnOk result (self.new.faults ≡ self.old.faults) }
        ensures rises { OnErr result (self.new.faults ≡ next_count self.old.faults) }
        ensures failing { self.new.failing ≡ self.old.failing }
    {
        self.begin()?;
        self.link.read(into)
    }

    /// Writes to the link in memory, except at a planned failure.
    fn write(&mut self, bytes: &[u8]) -> Result<usize, LinkError>
        ensures keeps { Keeps (planned_state self.old) (planned_state self.new) }
        ensures bound { IfOk result (λ n. n ≤ length bytes.now) }
        ensures some { IfOk result (λ n. 0 < length bytes.now → 0 < n) }
        ensures moved { IfOk result (λ n. Writes (planned_state self.old) (planned_state self.new)
            (take n bytes.now)) }
        ensures idle { OnErr result (IsIdle (planned_state self.old) (planned_state self.new)) }
        ensures cause { IsErrOf result LinkError.Fault →
            FaultCountRose self.old.faults self.new.faults }
        ensures fails { IsErrOf result LinkError.Fault ↔ Contains self.old.failing self.old.number }
        ensures below { OnErr result (self.new.link ≡ self.old.link) }
        ensures size { IfOk result (λ n. HasSize self.old.link (length bytes.now) n) }
        ensures counts { OnOk result (CountsCall self.old.link self.new.link) }
        ensures number { self.new.number ≡ next_count self.old.number }
        ensures steady { OnOk result (self.new.faults ≡ self.old.faults) }
        ensures rises { IsErrOf result LinkError.Fault → self.new.faults ≡
            next_count self.old.faults }
        ensures memory { IsErrOf result LinkError.OutOfMemory → self.new.faults ≡ self.old.faults }
        ensures failing { self.new.failing ≡ self.old.failing }
    {
        self.begin()?;
        self.link.write(bytes)
    }
}
