//! A link in memory, which moves bytes in planned pieces.
ghost use Rattle.std.specs.Prelude.{◌≡◌, ◌⊎◌, ◌+◌, ◌-◌, ◌<◌, ◌≤◌, ◌++◌, [], ℕ, length, take, drop};
ghost use Rattle.std.specs.Prelude.{min, IsOk, IfOk, IfErr, OnErr, OnOk, IsErrOf, IsTrue};
ghost use Rattle.kmip_link.specs.State.{Keeps, IsIdle, Reads, Writes, FaultCountRose, left};
ghost use Rattle.kmip_link.specs.Plan.{MemoryState, HasSize, CountsCall, IsCallNumber};
ghost use Rattle.kmip_link.specs.Plan.{planned_size, place_of, memory_state};

use crate::link::{Link, LinkError};
use std::alloc::Global;
use std::marker::Model;

/// Gives back the bytes that it was fed, and keeps those that it was sent.
///
/// It never fails. Its reads and writes are numbered together from 0 since the last plan, and call
/// k moves at most as many bytes as the planned size at k modulo the number of planned sizes, where
/// a size of 0 counts as 1. Without a plan a call moves all that it can.
#[derive(Drop)]
pub struct MemoryLink {
    alloc: Global,
    ever: Vec<u8>,
    pos: usize,
    sent: Vec<u8>,
    sizes: Vec<usize>,
    place: usize,
}

impl Model for MemoryLink {
    ghost Value = { MemoryState };

    ghost view = { λ m. record {
      ever = m.ever.items;
      pos = m.pos;
      sent = m.sent.items;
      sizes = m.sizes.items;
      place = m.place;
    } };

    ghost invariant = { λ m. (m.pos ≤ length m.ever.items) × ((length m.sizes.items ≡ 0) ⊎
        (m.place < length m.sizes.items)) };
}

impl MemoryLink {
    /// A link with nothing to read, nothing sent and no plan. It takes no memory.
    pub fn new(alloc: Global) -> MemoryLink
        ensures { result ≡ record { ever = []; pos = 0; sent = []; sizes = []; place = 0 } }
    {
        MemoryLink {
            alloc,
            ever: Vec::new(alloc),
            pos: 0,
            sent: Vec::new(alloc),
            sizes: Vec::new(alloc),
            place: 0,
        }
    }

    /// Adds bytes to the end of those to read. Its only error is that memory ran out, which changes
    /// nothing.
    pub fn feed(&mut self, bytes: &[u8]) -> Result<(), LinkError>
        ensures ok { OnOk result (self.new ≡
            record self.old { ever = self.old.ever ++ bytes.now }) }
        ensures left { OnOk result (drop self.new.pos self.new.ever ≡
            drop self.old.pos self.old.ever ++ bytes.now) }
        ensures err { OnErr result (self.new ≡ self.old) }
        ensures cause { IfErr result (λ e. e ≡ LinkError.OutOfMemory) }
    {
        self.ever.extend_from_slice(bytes)?;
        Ok(())
    }

    /// All bytes that it was sent, in order. It takes no memory.
    pub fn sent(&self) -> &[u8]
        ensures { result.now ≡ self.now.sent }
    {
        &self.sent
    }

    /// The bytes that are left to read, in order. It takes no memory.
    pub fn rest(&self) -> &[u8]
        ensures { result.now ≡ drop self.now.pos self.now.ever }
    {
        &self.ever[self.pos..]
    }

    /// Plans how many bytes each call moves at most. The next call has number 0 and the first size;
    /// after the last size the first comes again. An empty list ends the plan. Its only error is
    /// that memory ran out, which changes nothing.
    pub fn plan_pieces(&mut self, sizes: &[usize]) -> Result<(), LinkError>
        ensures ok { OnOk result (self.new ≡ record self.old { sizes = sizes.now; place = 0 }) }
        ensures starts { OnOk result (IsCallNumber self.new 0) }
        ensures err { OnErr result (self.new ≡ self.old) }
        ensures cause { IfErr result (λ e. e ≡ LinkError.OutOfMemory) }
    {
        let mut planned = Vec::new(self.alloc);
        planned.extend_from_slice(sizes)?;
        self.sizes = planned;
        self.place = 0;
        Ok(())
    }
}

/// The most that the call at this place moves, of `most` bytes that it could.
fn planned_size(sizes: &[usize], place: usize, most: usize) -> usize
    requires { (length sizes.now ≡ 0) ⊎ (place < length sizes.now) }
    ensures planned_size { (k : ℕ) → place ≡ place_of sizes.now k → result ≡
        planned_size sizes.now k most }
    ensures within { result ≤ most }
    ensures some { 0 < most → 0 < result }
{
    if sizes.is_empty() {
        most
    } else {
        sizes[place].max(1).min(most)
    }
}

/// The place after this one; after the last place the first.
#[tactic(auto, using(crate::proofs::Places::next_place))]
fn place_after(sizes: &[usize], place: usize) -> usize
    requires { (length sizes.now ≡ 0) ⊎ (place < length sizes.now) }
    ensures next { (k : ℕ) → place ≡ place_of sizes.now k → result ≡ place_of sizes.now (k + 1) }
    ensures within { (length sizes.now ≡ 0) ⊎ (result < length sizes.now) }
{
    if sizes.is_empty() {
        0
    } else {
        (place + 1) % sizes.len()
    }
}

impl Link for MemoryLink {
    ghost state = { memory_state };

    /// Moves the smallest of the planned size, the room and the bytes left. It takes no memory and
    /// cannot be refused.
    fn read(&mut self, into: &mut [u8]) -> Result<usize, LinkError>
        ensures keeps { Keeps (memory_state self.old) (memory_state self.new) }
        ensures bound { IfOk result (λ n. n ≤ length into.new) }
        ensures moved { IfOk result (λ n. IsTrue (memory_state self.old).tells →
            Reads (memory_state self.old) (memory_state self.new) into.new n) }
        ensures idle { OnErr result (IsTrue (memory_state self.old).tells →
            IsIdle (memory_state self.old) (memory_state self.new)) }
        ensures cause { IsErrOf result LinkError.Fault →
            FaultCountRose (memory_state self.old).faults (memory_state self.new).faults }
        ensures succeeds { IsOk result }
        ensures size { IfOk result
            (λ n. HasSize self.old (min (length into.old) (length (left (memory_state self.old))))
            n) }
        ensures counts { CountsCall self.old self.new }
    {
        let most = into.len().min(self.ever.len() - self.pos);
        let count = planned_size(&self.sizes, self.place, most);
        into[..count].copy_from_slice(&self.ever[self.pos..self.pos + count]);
        self.pos += count;
        self.place = place_after(&self.sizes, self.place);
        Ok(count)
    }

    /// Takes the smaller of the planned size and the piece. Its only error is that memory ran out,
    /// which changes nothing.
    fn write(&mut self, bytes: &[u8]) -> Result<usize, LinkError>
        ensures keeps { Keeps (memory_state self.old) (memory_state self.new) }
        ensures bound { IfOk result (λ n. n ≤ length bytes.now) }
        ensures some { IfOk result (λ n. 0 < length bytes.now → 0 < n) }
        ensures moved { IfOk result (λ n. IsTrue (memory_state self.old).tells →
            Writes (memory_state self.old) (memory_state self.new) (take n bytes.now)) }
        ensures idle { OnErr result (self.new ≡ self.old) }
        ensures cause { IfErr result (λ e. e ≡ LinkError.OutOfMemory) }
        ensures size { IfOk result (λ n. HasSize self.old (length bytes.now) n) }
        ensures counts { OnOk result (CountsCall self.old self.new) }
    {
        let count = planned_size(&self.sizes, self.place, bytes.len());
        self.sent.extend_from_slice(&bytes[..count])?;
        self.place = place_after(&self.sizes, self.place);
        Ok(count)
    }
}
