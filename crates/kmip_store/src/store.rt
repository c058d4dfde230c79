//! The store.

ghost use Rattle.std.specs.Prelude.{◌≡◌, ◌≢◌, ◌+◌, ◌≤◌, ◌++◌, ◌∷◌, [], length};
ghost use Rattle.std.specs.Prelude.{vec_len, vec_capacity, IfOk, IfErr, option_copied};
ghost use Rattle.std.specs.Option.{option_map};
ghost use Rattle.kmip_store.specs.Objects.{find_in, object_of, identifier};
ghost use Rattle.kmip_store.specs.declared.call.Call.TheVariants.{CreateRsaKeyPair, RngRetrieve};
ghost use Rattle.kmip_store.specs.declared.call.Call.TheVariants.{Sign, ActivateKey, RevokeKey};
ghost use Rattle.kmip_store.specs.declared.call.Call.TheVariants.{DestroyKey, RenameKey, GetKey};
ghost use Rattle.kmip_store.specs.Steps.{Done, Created, Random, Signed, Got};
ghost use Rattle.kmip_store.specs.Answers.{Steps, StepsAsking};
ghost use Rattle.kmip_store.specs.Makers.{MakerKeeps};

use crate::error::StoreError;
use crate::maker::Maker;
use crate::object::Object;
use crate::places::{find_object, identifier, place_of};
use kmip_enums::{ObjectType, State};
use kmip_wire::{Blob, Text};
use std::alloc::Global;
use std::marker::Model;

/// Adds two objects, for which there is room.
#[tactic(auto, using(std::proofs::lemmas::List::append_assoc))]
fn add_pair(objects: &mut Vec<Object>, first: Object, second: Object)
    requires { vec_len objects.old + 2 ≤ vec_capacity objects.old }
    ensures { objects.new.items ≡ objects.old.items ++ first ∷ second ∷ [] }
{
    let _ = objects.push(first);
    let _ = objects.push(second);
}

/// Managed objects in memory (KMIP 1.0, 2.2), seen as their list.
///
/// The identifier of an object is its place, counted from 1, in decimal. No object is ever taken
/// away: one that is destroyed keeps its place and its identifier, and has no key bytes.
///
/// What a call returns and leaves is one step of the object map ([`StoreError`] says why a call is
/// refused). After each error the objects are as they were. A maker is asked last, when all other
/// memory is taken.
#[derive(Drop)]
pub struct Store {
    alloc: Global,
    objects: Vec<Object>,
}

impl Model for Store {
    ghost use Rattle.std.specs.Prelude.{List};
    ghost use Rattle.kmip_store.specs.declared.object.Object.{Object};

    ghost Value = { List Object };

    ghost view = { λ s. s.objects.items };
}

impl Store {
    /// A store with no objects, which takes no memory.
    pub fn new(alloc: Global) -> Store
        ensures { result ≡ [] }
    {
        Store {
            alloc,
            objects: Vec::new(alloc),
        }
    }

    /// How many objects there are, those that were destroyed among them.
    pub fn len(&self) -> usize
        ensures { result ≡ length self.now }
    {
        self.objects.len()
    }

    /// The object that has the identifier, destroyed or not; `None` exactly where there is none. It
    /// takes no memory.
    pub fn find(&self, id: &str) -> Option<&Object>
        ensures { option_copied result ≡ option_map object_of (find_in self.now id.now) }
    {
        match place_of(self.objects.as_slice(), id) {
            Ok(place) => Some(&self.objects[place]),
            Err(_) => None,
        }
    }

    /// The identifiers that the next two objects will have, in order.
    ///
    /// Its only error is `OutOfMemory`.
    pub fn next_identifiers(&self) -> Result<(Text, Text), StoreError>
        ensures texts { IfOk result (λ pair. (pair.0 ≡ identifier (length self.now))
            × (pair.1 ≡ identifier (length self.now + 1))) }
        ensures memory { IfErr result (λ e. e ≡ StoreError.OutOfMemory) }
    {
        let count = self.objects.len();
        let first = identifier(self.alloc, count)?;
        let second = identifier(self.alloc, count + 1)?;
        Ok((first, second))
    }

    /// Adds a private and a public RSA key that the maker makes, both PreActive, and returns their
    /// identifiers, that of the private key first (Create Key Pair: KMIP 1.0, 4.2).
    ///
    /// `key_length` is in bits, and goes to the maker as it is. `CryptographicFailure` comes where
    /// the maker refused.
    pub fn create_rsa_key_pair<M: Maker>(
        &mut self,
        maker: &mut M,
        key_length: i32,
        private_name: &str,
        public_name: &str,
    ) -> Result<(Text, Text), StoreError>
        ensures step { StepsAsking (λ pair. Created pair.0 pair.1)
            self.old (CreateRsaKeyPair key_length private_name.now public_name.now) self.new
            (M.state maker.old) (M.state maker.new) result }
        ensures keeps { MakerKeeps (M.state maker.old) (M.state maker.new) }
    {
        let identifiers = self.next_identifiers()?;
        let private_name = Text::of(self.alloc, private_name)?;
        let public_name = Text::of(self.alloc, public_name)?;
        self.objects.reserve(2)?;
        let (private_key, public_key) = maker.key_pair(self.alloc, key_length)?;
        let private = Object::key_of(
            ObjectType::PrivateKey,
            private_name,
            key_length,
            private_key,
        );
        let public = Object::key_of(ObjectType::PublicKey, public_name, key_length, public_key);
        add_pair(&mut self.objects, private, public);
        Ok(identifiers)
    }

    /// Random bytes from the maker (RNG Retrieve: KMIP 1.2, 4.35).
    ///
    /// `num_bytes` goes to the maker as it is. `CryptographicFailure` comes where the maker
    /// refused.
    pub fn rng_retrieve<M: Maker>(
        &mut self,
        maker: &mut M,
        num_bytes: i32,
    ) -> Result<Blob, StoreError>
        ensures step { StepsAsking Random self.old (RngRetrieve num_bytes) self.new
            (M.state maker.old) (M.state maker.new) result }
        ensures stays { self.new ≡ self.old }
        ensures keeps { MakerKeeps (M.state maker.old) (M.state maker.new) }
    {
        Ok(maker.random(self.alloc, num_bytes)?)
    }

    /// The maker's signature of the bytes by the key of an object (Sign: KMIP 1.2, 4.31).
    ///
    /// `ItemNotFound` comes where no object has the identifier, and `PermissionDenied` where the
    /// object is a public key or is not Active: then the maker is not asked. `CryptographicFailure`
    /// comes where the maker refused.
    pub fn sign<M: Maker>(
        &mut self,
        maker: &mut M,
        id: &str,
        bytes: &[u8],
    ) -> Result<Blob, StoreError>
        ensures step { StepsAsking Signed self.old (Sign id.now bytes.now) self.new
            (M.state maker.old) (M.state maker.new) result }
        ensures stays { self.new ≡ self.old }
        ensures keeps { MakerKeeps (M.state maker.old) (M.state maker.new) }
    {
        let object = find_object(self.objects.as_slice(), id)?;
        if !object.can_sign() {
            return Err(StoreError::PermissionDenied);
        }
        Ok(maker.sign(self.alloc, &object.key, bytes)?)
    }

    /// Makes a PreActive object Active (Activate: KMIP 1.0, 4.18). It takes no memory.
    ///
    /// `ItemNotFound` comes where no object has the identifier, and `PermissionDenied` where the
    /// object is in another state.
    pub fn activate_key(&mut self, id: &str) -> Result<(), StoreError>
        ensures step { Steps (λ _. Done) self.old (ActivateKey id.now) self.new result }
        ensures memory { IfErr result (λ e. e ≢ StoreError.OutOfMemory) }
    {
        let place = place_of(self.objects.as_slice(), id)?;
        if !self.objects[place].is_pre_active() {
            return Err(StoreError::PermissionDenied);
        }
        self.objects[place].state = State::Active;
        Ok(())
    }

    /// Makes an Active object Deactivated (Revoke: KMIP 1.0, 4.19). It takes no memory.
    ///
    /// `ItemNotFound` comes where no object has the identifier, and `PermissionDenied` where the
    /// object is in another state.
    pub fn revoke_key(&mut self, id: &str) -> Result<(), StoreError>
        ensures step { Steps (λ _. Done) self.old (RevokeKey id.now) self.new result }
        ensures memory { IfErr result (λ e. e ≢ StoreError.OutOfMemory) }
    {
        let place = place_of(self.objects.as_slice(), id)?;
        if !self.objects[place].is_active() {
            return Err(StoreError::PermissionDenied);
        }
        self.objects[place].state = State::Deactivated;
        Ok(())
    }

    /// Makes an object Destroyed and drops its key bytes (Destroy: KMIP 1.0, 4.20). It takes no
    /// memory.
    ///
    /// `ItemNotFound` comes where no object has the identifier, and `PermissionDenied` where the
    /// object is Active or was destroyed before.
    pub fn destroy_key(&mut self, id: &str) -> Result<(), StoreError>
        ensures step { Steps (λ _. Done) self.old (DestroyKey id.now) self.new result }
        ensures memory { IfErr result (λ e. e ≢ StoreError.OutOfMemory) }
    {
        let place = place_of(self.objects.as_slice(), id)?;
        let object = &self.objects[place];
        if object.is_active() || object.is_destroyed() {
            return Err(StoreError::PermissionDenied);
        }
        let object = &mut self.objects[place];
        object.state = State::Destroyed;
        object.key = Blob::new(self.alloc);
        Ok(())
    }

    /// Gives an object another name (Modify Attribute of its Name: KMIP 1.0, 4.14 and 3.2).
    ///
    /// `ItemNotFound` comes where no object has the identifier, and `PermissionDenied` where the
    /// object is destroyed. `OutOfMemory` leaves the object its old name.
    pub fn rename_key(&mut self, id: &str, new_name: &str) -> Result<(), StoreError>
        ensures { Steps (λ _. Done) self.old (RenameKey id.now new_name.now) self.new result }
    {
        let place = place_of(self.objects.as_slice(), id)?;
        if self.objects[place].is_destroyed() {
            return Err(StoreError::PermissionDenied);
        }
        self.objects[place].name = Text::of(self.alloc, new_name)?;
        Ok(())
    }

    /// An object with its key bytes (Get: KMIP 1.0, 4.10). It takes no memory.
    ///
    /// `ItemNotFound` comes where no object has the identifier, and `PermissionDenied` where the
    /// object is destroyed.
    pub fn get_key(&self, id: &str) -> Result<&Object, StoreError>
        ensures step { Steps (λ object. Got object.now) self.now (GetKey id.now) self.now result }
        ensures memory { IfErr result (λ e. e ≢ StoreError.OutOfMemory) }
    {
        let object = find_object(self.objects.as_slice(), id)?;
        if object.is_destroyed() {
            return Err(StoreError::PermissionDenied);
        }
        Ok(object)
    }
}
