//! A maker whose answers, and whose refusals, are planned.

ghost use Rattle.std.specs.Prelude.{◌≡◌, ◌≢◌, ◌<◌, ◌≤◌, [], length, slice_get, Some, IfOk, IfErr};
ghost use Rattle.std.specs.Prelude.{IfSome, OnErr, OnOk, option_copied};
ghost use Rattle.kmip_store.specs.Makers.{MakerKeeps, MakerCall};
ghost use Rattle.kmip_store.specs.Planned.{planned_state, next_made, after, IsPlanned};
ghost use Rattle.kmip_store.specs.declared.maker.Asked.TheVariants.{KeyPair, Random, Sign};
ghost use Rattle.kmip_store.specs.declared.maker.Made.TheVariants.{Pair, Bytes};

use crate::maker::{Asked, Made, Maker, MakerError};
use kmip_wire::{Blob, List, OutOfMemory, TryClone};
use std::alloc::Global;
use std::marker::Model;

/// A maker for tests: it tells its questions and its answers, gives planned answers in order, and
/// refuses planned calls.
///
/// A call's number, from 0, is how many questions were asked before it. A call is refused exactly
/// where its number is among the planned ones, or no answer of its kind is next: a pair for a key
/// pair, bytes for random bytes and for a signature. A refused call raises the count of faults and
/// uses up no answer. A call that runs out of memory changes nothing and is not counted.
#[derive(Drop)]
pub struct MemoryMaker {
    answers: Vec<Made>,
    failing: Vec<u64>,
    asked: Vec<Asked>,
    given: Vec<Made>,
    faults: u64,
}

impl Model for MemoryMaker {
    ghost use Rattle.kmip_store.specs.Planned.{PlannedMemory};

    ghost Value = { PlannedMemory };

    ghost view = { λ m. record {
      answers = m.answers.items;
      failing = m.failing.items;
      asked = m.asked.items;
      given = m.given.items;
      faults = m.faults;
    } };
}

impl MemoryMaker {
    /// A maker that was asked nothing yet. `answers` are those that it will give, in order, and
    /// `failing` the numbers of the calls that it will refuse.
    pub fn new(
        alloc: Global,
        answers: List<Made>,
        failing: &[u64],
    ) -> Result<MemoryMaker, OutOfMemory>
        ensures { IfOk result (λ it. it ≡ record {
          answers = answers;
          failing = failing.now;
          asked = [];
          given = [];
          faults = 0;
        }) }
    {
        let mut numbers = Vec::new(alloc);
        numbers.extend_from_slice(failing)?;
        Ok(MemoryMaker {
            answers: answers.into_vec(),
            failing: numbers,
            asked: Vec::new(alloc),
            given: Vec::new(alloc),
            faults: 0,
        })
    }

    /// The answer that is next, where the next call is not planned to be refused.
    fn next(&self) -> Option<&Made>
        ensures { option_copied result ≡ next_made self.now }
    {
        let number = self.asked.len() as u64;
        if self.failing.contains(&number) {
            return None;
        }
        self.answers.get(0)
    }

    /// Refuses a question.
    fn refuse(&mut self, asked: Asked) -> MakerError
        ensures fault { result ≡ MakerError.Fault → self.new ≡ after self.old asked Made.Refused }
        ensures memory { result ≡ MakerError.OutOfMemory → self.new ≡ self.old }
        ensures later { self.old.faults ≤ self.new.faults }
    {
        if self.asked.reserve(1).is_err() || self.given.reserve(1).is_err() {
            return MakerError::OutOfMemory;
        }
        let _ = self.asked.push(asked);
        let _ = self.given.push(Made::Refused);
        self.faults = self.faults.saturating_add(1);
        MakerError::Fault
    }

    /// Gives the next answer, which is no refusal, to a question.
    fn give(&mut self, asked: Asked) -> Result<(), MakerError>
        requires there { 0 < length self.old.answers }
        requires made { IfSome (slice_get self.old.answers 0) (λ made. made ≢ Made.Refused) }
        ensures ok { OnOk result (IfSome (slice_get self.old.answers 0)
            (λ made. self.new ≡ after self.old asked made)) }
        ensures err { OnErr result (self.new ≡ self.old) }
        ensures memory { IfErr result (λ e. e ≡ MakerError.OutOfMemory) }
    {
        self.asked.reserve(1)?;
        self.given.reserve(1)?;
        let made = self.answers.remove(0);
        let _ = self.asked.push(asked);
        let _ = self.given.push(made);
        Ok(())
    }
}

impl Maker for MemoryMaker {
    ghost state = { planned_state };

    fn key_pair(&mut self, alloc: Global, key_length: i32) -> Result<(Blob, Blob), MakerError>
        ensures keeps { MakerKeeps (planned_state self.old) (planned_state self.new) }
        ensures call { MakerCall (λ pair. Pair pair.0 pair.1) (KeyPair key_length)
            (planned_state self.old) (planned_state self.new) result }
        ensures planned { IsPlanned (λ pair. Pair pair.0 pair.1) (KeyPair key_length)
            self.old self.new result }
    {
        let Some(Made::Pair(private, public)) = self.next() else {
            return Err(self.refuse(Asked::KeyPair(key_length)));
        };
        let private = private.try_clone(alloc)?;
        let public = public.try_clone(alloc)?;
        self.give(Asked::KeyPair(key_length))?;
        Ok((private, public))
    }

    fn random(&mut self, alloc: Global, num_bytes: i32) -> Result<Blob, MakerError>
        ensures keeps { MakerKeeps (planned_state self.old) (planned_state self.new) }
        ensures call { MakerCall (λ bytes. Bytes bytes) (Random num_bytes)
            (planned_state self.old) (planned_state self.new) result }
        ensures planned { IsPlanned (λ bytes. Bytes bytes) (Random num_bytes)
            self.old self.new result }
    {
        let Some(Made::Bytes(bytes)) = self.next() else {
            return Err(self.refuse(Asked::Random(num_bytes)));
        };
        let bytes = bytes.try_clone(alloc)?;
        self.give(Asked::Random(num_bytes))?;
        Ok(bytes)
    }

    fn sign(&mut self, alloc: Global, key: &Blob, bytes: &[u8]) -> Result<Blob, MakerError>
        ensures keeps { MakerKeeps (planned_state self.old) (planned_state self.new) }
        ensures call { MakerCall (λ signature. Bytes signature) (Sign key.now bytes.now)
            (planned_state self.old) (planned_state self.new) result }
        ensures planned { IsPlanned (λ signature. Bytes signature) (Sign key.now bytes.now)
            self.old self.new result }
    {
        let question = Asked::Sign(key.try_clone(alloc)?, Blob::of(alloc, bytes)?);
        let Some(Made::Bytes(signature)) = self.next() else {
            return Err(self.refuse(question));
        };
        let signature = signature.try_clone(alloc)?;
        self.give(question)?;
        Ok(signature)
    }
}
