//! A value in a block of memory of its own. To contracts it is the value.
ghost use Rattle.std.specs.Prelude.{◌≡◌, IfOk};
ghost use Rattle.std.proofs.Common.{rules};
ghost use Rattle.std.specs.Cmp.Rules.{comparing};

use crate::memory::{OutOfMemory, TryClone};
use std::alloc::Global;
use std::marker::Model;

/// A value in a block of memory of its own, so that a struct with it stays small.
#[derive(Drop)]
pub struct Boxed<T> {
    block: Box<T>,
}

impl<T> Model for Boxed<T> {
    ghost Value = { T };

    ghost view = { λ b. b.block.value };
}

impl<T> Boxed<T> {
    /// Moves the value into a block.
    pub fn new(alloc: Global, value: T) -> Result<Boxed<T>, OutOfMemory>
    where
        T: Drop,
        ensures { IfOk result (λ made. made ≡ value) }
    {
        match Box::new(alloc, value) {
            Ok(block) => Ok(Boxed { block }),
            Err(_) => Err(OutOfMemory),
        }
    }

    /// The value.
    pub fn get(&self) -> &T
        ensures { result.now ≡ self.now }
    {
        self.block.as_ref()
    }

    /// Takes the value out of its block.
    pub fn into_inner(self) -> T
        ensures { result ≡ self }
    {
        Box::into_inner(self.block)
    }
}

impl<T: PartialEq> PartialEq for Boxed<T> {
    ghost eq = { T.eq };

    ghost laws = { Prim.search (comparing, rules) };

    fn eq(&self, other: &Boxed<T>) -> bool {
        *self.get() == *other.get()
    }
}

impl<T: Eq> Eq for Boxed<T> {
    ghost laws = { Prim.search (comparing, rules) };
}

impl<T: TryClone + Drop> TryClone for Boxed<T> {
    fn try_clone(&self, alloc: Global) -> Result<Boxed<T>, OutOfMemory> {
        Boxed::new(alloc, self.get().try_clone(alloc)?)
    }
}
