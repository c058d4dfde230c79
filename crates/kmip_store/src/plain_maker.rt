//! A maker whose answers are made from their numbers.

ghost use Rattle.std.specs.Prelude.{◌≡◌, ◌+◌, ◌++◌, ◌∷◌, [], length, IfOk, IfErr, OnOk, OnErr};
ghost use Rattle.kmip_store.specs.Makers.{MakerKeeps, MakerCall};
ghost use Rattle.kmip_store.specs.Plain.{plain_state, plain_answer, plain_answers, count_of};
ghost use Rattle.kmip_store.specs.declared.maker.Asked.TheVariants.{KeyPair, Random, Sign};
ghost use Rattle.kmip_store.specs.declared.maker.Made.TheVariants.{Pair, Bytes};

use crate::maker::{Asked, Made, Maker, MakerError};
use kmip_wire::{Blob, TryClone};
use std::alloc::Global;
use std::marker::Model;

/// A maker for tests: it tells its questions and its answers, never refuses, and makes its n-th
/// answer from the number n, counted from 1. Its keys and signatures are no real ones.
///
/// A private key is n as 8 big-endian bytes and a byte 01, its public key the same 8 bytes and a
/// byte 02, and a signature just the 8 bytes. Random bytes are n modulo 256, as many as were asked
/// for: none for a negative number, and at most 65,536.
///
/// The only error of its calls is `OutOfMemory`, which changes nothing and is not counted.
#[derive(Drop)]
pub struct PlainMaker {
    asked: Vec<Asked>,
    given: Vec<Made>,
}

impl Model for PlainMaker {
    ghost use Rattle.std.specs.Prelude.{◌≡◌};
    ghost use Rattle.kmip_store.specs.Plain.{PlainMemory, plain_answers};

    ghost Value = { PlainMemory };

    ghost view = { λ m. record { asked = m.asked.items; given = m.given.items } };

    ghost invariant = { λ m. m.given.items ≡ plain_answers 0 m.asked.items };
}

/// A copy of the bytes with one more at the end.
fn with_byte(alloc: Global, bytes: &[u8], last: u8) -> Result<Blob, MakerError>
    ensures made { IfOk result (λ made. made ≡ bytes.now ++ last ∷ []) }
    ensures memory { IfErr result (λ e. e ≡ MakerError.OutOfMemory) }
{
    let mut made = Blob::of(alloc, bytes)?;
    made.push_slice(&[last])?;
    Ok(made)
}

impl PlainMaker {
    /// A maker that was asked nothing. It takes no memory.
    pub fn new(alloc: Global) -> PlainMaker
        ensures { result ≡ record { asked = []; given = [] } }
    {
        PlainMaker {
            asked: Vec::new(alloc),
            given: Vec::new(alloc),
        }
    }

    /// Its answers are made from their numbers: this holds of each. It takes no memory.
    pub fn numbered(&self)
        ensures { self.now.given ≡ plain_answers 0 self.now.asked }
    {
        let _ = &self.asked;
    }

    /// Keeps a question and its answer.
    fn keep(&mut self, asked: Asked, made: Made) -> Result<(), MakerError>
        requires { made ≡ plain_answer (length self.old.asked + 1) asked }
        ensures ok { OnOk result (self.new ≡ record {
          asked = self.old.asked ++ asked ∷ [];
          given = self.old.given ++ made ∷ [];
        }) }
        ensures err { OnErr result (self.new ≡ self.old) }
        ensures memory { IfErr result (λ e. e ≡ MakerError.OutOfMemory) }
    {
        self.asked.reserve(1)?;
        self.given.reserve(1)?;
        let _ = self.asked.push(asked);
        let _ = self.given.push(made);
        Ok(())
    }
}

impl Maker for PlainMaker {
    ghost state = { plain_state };

    fn key_pair(&mut self, alloc: Global, key_length: i32) -> Result<(Blob, Blob), MakerError>
        ensures keeps { MakerKeeps (plain_state self.old) (plain_state self.new) }
        ensures call { MakerCall (λ pair. Pair pair.0 pair.1) (KeyPair key_length)
            (plain_state self.old) (plain_state self.new) result }
        ensures number { IfOk result (λ pair.
            Pair pair.0 pair.1 ≡ plain_answer (length self.old.asked + 1) (KeyPair key_length)) }
        ensures err { OnErr result (self.new ≡ self.old) }
        ensures memory { IfErr result (λ e. e ≡ MakerError.OutOfMemory) }
    {
        let number = (self.asked.len() as u64 + 1).to_be_bytes();
        let private = with_byte(alloc, &number, 1)?;
        let public = with_byte(alloc, &number, 2)?;
        let made = Made::Pair(private.try_clone(alloc)?, public.try_clone(alloc)?);
        self.keep(Asked::KeyPair(key_length), made)?;
        Ok((private, public))
    }

    fn random(&mut self, alloc: Global, num_bytes: i32) -> Result<Blob, MakerError>
        ensures keeps { MakerKeeps (plain_state self.old) (plain_state self.new) }
        ensures call { MakerCall (λ bytes. Bytes bytes) (Random num_bytes)
            (plain_state self.old) (plain_state self.new) result }
        ensures number { IfOk result (λ bytes.
            Bytes bytes ≡ plain_answer (length self.old.asked + 1) (Random num_bytes)) }
        ensures err { OnErr result (self.new ≡ self.old) }
        ensures memory { IfErr result (λ e. e ≡ MakerError.OutOfMemory) }
    {
        let byte = ((self.asked.len() + 1) % 256) as u8;
        let random = Blob::of_vec(vec![in alloc; byte; count(num_bytes)]?);
        self.keep(
            Asked::Random(num_bytes),
            Made::Bytes(random.try_clone(alloc)?),
        )?;
        Ok(random)
    }

    fn sign(&mut self, alloc: Global, key: &Blob, bytes: &[u8]) -> Result<Blob, MakerError>
        ensures keeps { MakerKeeps (plain_state self.old) (plain_state self.new) }
        ensures call { MakerCall (λ signature. Bytes signature) (Sign key.now bytes.now)
            (plain_state self.old) (plain_state self.new) result }
        ensures number { IfOk result (λ signature.
            Bytes signature ≡ plain_answer (length self.old.asked + 1) (Sign key.now bytes.now)) }
        ensures err { OnErr result (self.new ≡ self.old) }
        ensures memory { IfErr result (λ e. e ≡ MakerError.OutOfMemory) }
    {
        let number = (self.asked.len() as u64 + 1).to_be_bytes();
        let signature = Blob::of(alloc, &number)?;
        let question = Asked::Sign(key.try_clone(alloc)?, Blob::of(alloc, bytes)?);
        self.keep(question, Made::Bytes(signature.try_clone(alloc)?))?;
        Ok(signature)
    }
}

/// How many random bytes are made: none for a negative number, and at most 65,536.
fn count(num_bytes: i32) -> usize
    ensures { result ≡ count_of num_bytes }
{
    match usize::try_from(num_bytes) {
        Ok(count) => count.min(65536),
        Err(_) => 0,
    }
}
