//! What makes keys, random bytes and signatures.

ghost use Rattle.std.specs.Prelude.{◌≡◌};
ghost use Rattle.kmip_store.specs.Makers.{MakerState, MakerKeeps, MakerCall};
ghost use Rattle.kmip_store.specs.declared.maker.Asked.TheVariants.{KeyPair, Random, Sign};
ghost use Rattle.kmip_store.specs.declared.maker.Made.TheVariants.{Pair, Bytes};

use kmip_wire::{Blob, OutOfMemory};
use std::alloc::{AllocError, Global};

/// A question to a maker.
#[derive(Drop)]
pub enum Asked {
    /// A key pair of this length in bits.
    KeyPair(i32),
    /// This many random bytes.
    Random(i32),
    /// A signature: the key, and the bytes to sign with it.
    Sign(Blob, Blob),
}

/// An answer of a maker.
#[derive(Drop)]
pub enum Made {
    /// A private key and its public key.
    Pair(Blob, Blob),
    /// Random bytes, or a signature.
    Bytes(Blob),
    /// It made nothing.
    Refused,
}

/// Why a maker made nothing.
#[derive(Clone, Copy, Debug, PartialEq, Eq, Drop)]
pub enum MakerError {
    /// It refused. Its count of faults rose, or stands at `u64::MAX`.
    Fault,
    /// Out of memory; a maker that tells appended nothing to its lists.
    OutOfMemory,
}

impl From<OutOfMemory> for MakerError {
    ghost use Rattle.kmip_store.specs.declared.maker.MakerError.{MakerError};

    ghost from_gives = { λ _ e. e ≡ MakerError.OutOfMemory };

    fn from(_: OutOfMemory) -> Self {
        MakerError::OutOfMemory
    }
}

impl From<AllocError> for MakerError {
    ghost use Rattle.kmip_store.specs.declared.maker.MakerError.{MakerError};

    ghost from_gives = { λ _ e. e ≡ MakerError.OutOfMemory };

    fn from(_: AllocError) -> Self {
        MakerError::OutOfMemory
    }
}

/// What makes keys, random bytes and signatures.
///
/// A maker whose calls are known to contracts (one that tells) keeps a list of its questions and a
/// list of its answers. Each call appends its question to the one and its answer or refusal to the
/// other, but nothing where memory runs out. A refusal raises the count of faults, at most to
/// `u64::MAX`.
pub trait Maker {
    ghost state: { Self → MakerState };

    /// A private key and its public key, `key_length` bits long.
    fn key_pair(&mut self, alloc: Global, key_length: i32) -> Result<(Blob, Blob), MakerError>
        ensures keeps { MakerKeeps (state self.old) (state self.new) }
        ensures call { MakerCall (λ pair. Pair pair.0 pair.1) (KeyPair key_length)
            (state self.old) (state self.new) result };

    /// Random bytes, where `num_bytes` are asked for. No clause says that there are as many.
    fn random(&mut self, alloc: Global, num_bytes: i32) -> Result<Blob, MakerError>
        ensures keeps { MakerKeeps (state self.old) (state self.new) }
        ensures call { MakerCall (λ bytes. Bytes bytes) (Random num_bytes)
            (state self.old) (state self.new) result };

    /// The signature of the bytes by the key.
    fn sign(&mut self, alloc: Global, key: &Blob, bytes: &[u8]) -> Result<Blob, MakerError>
        ensures keeps { MakerKeeps (state self.old) (state self.new) }
        ensures call { MakerCall (λ signature. Bytes signature) (Sign key.now bytes.now)
            (state self.old) (state self.new) result };
}
