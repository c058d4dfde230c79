//! A call of a store, as a value.

use kmip_wire::{Blob, Text};

/// A call of a store with its arguments in order, as a request has them.
#[derive(PartialEq, Eq, Drop)]
pub enum Call {
    /// Asks which operations the server has, and for which types of objects: KMIP 1.0, 4.24.
    Query,
    /// The length of both keys in bits, and the names of the private and the public key:
    /// KMIP 1.0, 4.2.
    CreateRsaKeyPair(i32, Text, Text),
    /// How many random bytes to make: KMIP 1.2, 4.35.
    RngRetrieve(i32),
    /// The identifier of the key, and the bytes to sign: KMIP 1.2, 4.31.
    Sign(Text, Blob),
    /// The identifier of the key: KMIP 1.0, 4.18.
    ActivateKey(Text),
    /// The identifier of the key: KMIP 1.0, 4.19.
    RevokeKey(Text),
    /// The identifier of the key: KMIP 1.0, 4.20.
    DestroyKey(Text),
    /// The identifier of the key, and its new name: KMIP 1.0, 4.14 and 3.2.
    RenameKey(Text, Text),
    /// The identifier of the key: KMIP 1.0, 4.10.
    GetKey(Text),
}
