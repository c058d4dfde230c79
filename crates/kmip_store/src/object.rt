//! An object of a store.

ghost use Rattle.std.specs.Prelude.{◌≡◌};
ghost use Rattle.kmip_store.specs.Objects.{is_pre_active, is_active, is_destroyed};
ghost use Rattle.kmip_store.specs.Steps.{can_sign, key_of};

use kmip_enums::{ObjectType, State};
use kmip_wire::{Blob, Text};

/// A managed object (KMIP 1.0, 2.2) with its attributes.
#[derive(Drop)]
pub struct Object {
    /// `PrivateKey` or `PublicKey`, for an object that a store made: KMIP 1.0, 3.3.
    pub object_type: ObjectType,
    /// Where it is in its life: KMIP 1.0, 3.17.
    pub state: State,
    /// Its name, as it was given last: KMIP 1.0, 3.2.
    pub name: Text,
    /// The length of the key in bits: KMIP 1.0, 3.5.
    pub length: i32,
    /// The bytes of the key; empty where the object is destroyed.
    pub key: Blob,
}

impl Object {
    /// A key that was just made, PreActive.
    pub(crate) fn key_of(object_type: ObjectType, name: Text, length: i32, key: Blob) -> Object
        ensures { result ≡ key_of object_type name length key }
    {
        Object {
            object_type,
            state: State::PreActive,
            name,
            length,
            key,
        }
    }

    /// Whether it is PreActive.
    pub fn is_pre_active(&self) -> bool
        ensures { result ≡ is_pre_active self.now.state }
    {
        matches!(self.state, State::PreActive)
    }

    /// Whether it is Active.
    pub fn is_active(&self) -> bool
        ensures { result ≡ is_active self.now.state }
    {
        matches!(self.state, State::Active)
    }

    /// Whether it is Destroyed.
    pub fn is_destroyed(&self) -> bool
        ensures { result ≡ is_destroyed self.now.state }
    {
        matches!(self.state, State::Destroyed)
    }

    /// Whether it can sign: it is Active, and no public key.
    pub fn can_sign(&self) -> bool
        ensures { result ≡ can_sign self.now }
    {
        !matches!(self.object_type, ObjectType::PublicKey) && self.is_active()
    }
}
