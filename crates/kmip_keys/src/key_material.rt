//! Key material, in the format that its key block names.

ghost use Rattle.std.specs.Prelude.{◌≡◌};
ghost use Rattle.kmip_keys.specs.KeyMaterials.{key_material, key_material_val, key_material_same};

use crate::transparent_keys::{
    TransparentDHPrivateKey, TransparentDHPublicKey, TransparentDSAPrivateKey,
    TransparentDSAPublicKey, TransparentRSAPrivateKey, TransparentRSAPublicKey,
    TransparentSymmetricKey,
};
use kmip_shape::{
    Item, Outer, ReadError, ReadItem, ShowItem, TextWriter, WriteItem, show_case, show_in_brackets,
};
use kmip_wire::{Blob, Buffer, ItemRef, OutOfMemory, Tag, TryClone};
use std::alloc::Global;

/// The key itself, in the format that its key block names: KMIP 1.0, 2.1.3 and 2.1.4.
#[derive(PartialEq, Eq, Drop)]
pub enum KeyMaterial {
    /// The bytes of the formats Raw, Opaque, PKCS1, PKCS8, X509 and ECPrivateKey.
    Bytes(Blob),
    /// Of key format type Transparent Symmetric Key: KMIP 1.0, 2.1.7.1.
    TransparentSymmetricKey(TransparentSymmetricKey),
    /// Of key format type Transparent DSA Private Key: KMIP 1.0, 2.1.7.2.
    TransparentDSAPrivateKey(TransparentDSAPrivateKey),
    /// Of key format type Transparent DSA Public Key: KMIP 1.0, 2.1.7.3.
    TransparentDSAPublicKey(TransparentDSAPublicKey),
    /// Of key format type Transparent RSA Private Key: KMIP 1.0, 2.1.7.4.
    TransparentRSAPrivateKey(TransparentRSAPrivateKey),
    /// Of key format type Transparent RSA Public Key: KMIP 1.0, 2.1.7.5.
    TransparentRSAPublicKey(TransparentRSAPublicKey),
    /// Of key format type Transparent DH Private Key: KMIP 1.0, 2.1.7.6.
    TransparentDHPrivateKey(TransparentDHPrivateKey),
    /// Of key format type Transparent DH Public Key: KMIP 1.0, 2.1.7.7.
    TransparentDHPublicKey(TransparentDHPublicKey),
    /// For the key formats 14 to 19 (ECDSA, ECDH and ECMQV): never read, and without a wire form.
    Structure(Blob),
    /// A wrapped key: the bytes of a response's Key Value that is a Byte String (KMIP 1.0, 2.1.4).
    /// It is no Key Material item, so it has no wire form as one.
    Wrapped(Blob),
}

impl TryClone for KeyMaterial {
    fn try_clone(&self, alloc: Global) -> Result<KeyMaterial, OutOfMemory> {
        match self {
            KeyMaterial::Bytes(bytes) => Ok(KeyMaterial::Bytes(bytes.try_clone(alloc)?)),
            KeyMaterial::TransparentSymmetricKey(key) => Ok(KeyMaterial::TransparentSymmetricKey(
                key.try_clone(alloc)?,
            )),
            KeyMaterial::TransparentDSAPrivateKey(key) => Ok(KeyMaterial::TransparentDSAPrivateKey(
                key.try_clone(alloc)?,
            )),
            KeyMaterial::TransparentDSAPublicKey(key) => Ok(KeyMaterial::TransparentDSAPublicKey(
                key.try_clone(alloc)?,
            )),
            KeyMaterial::TransparentRSAPrivateKey(key) => Ok(KeyMaterial::TransparentRSAPrivateKey(
                key.try_clone(alloc)?,
            )),
            KeyMaterial::TransparentRSAPublicKey(key) => Ok(KeyMaterial::TransparentRSAPublicKey(
                key.try_clone(alloc)?,
            )),
            KeyMaterial::TransparentDHPrivateKey(key) => Ok(KeyMaterial::TransparentDHPrivateKey(
                key.try_clone(alloc)?,
            )),
            KeyMaterial::TransparentDHPublicKey(key) => Ok(KeyMaterial::TransparentDHPublicKey(
                key.try_clone(alloc)?,
            )),
            KeyMaterial::Structure(bytes) => Ok(KeyMaterial::Structure(bytes.try_clone(alloc)?)),
            KeyMaterial::Wrapped(bytes) => Ok(KeyMaterial::Wrapped(bytes.try_clone(alloc)?)),
        }
    }
}

impl Item for KeyMaterial {
    ghost shape = { key_material };

    ghost val = { key_material_val };

    fn fits(&self) {
        match self {
            KeyMaterial::Bytes(bytes) => bytes.fits(),
            KeyMaterial::TransparentSymmetricKey(key) => key.fits(),
            KeyMaterial::TransparentDSAPrivateKey(key) => key.fits(),
            KeyMaterial::TransparentDSAPublicKey(key) => key.fits(),
            KeyMaterial::TransparentRSAPrivateKey(key) => key.fits(),
            KeyMaterial::TransparentRSAPublicKey(key) => key.fits(),
            KeyMaterial::TransparentDHPrivateKey(key) => key.fits(),
            KeyMaterial::TransparentDHPublicKey(key) => key.fits(),
            KeyMaterial::Structure(bytes) => bytes.fits(),
            KeyMaterial::Wrapped(bytes) => bytes.fits(),
        }
    }

    ghost faithful = { key_material_same };
}

impl WriteItem for KeyMaterial {
    fn wire_len(&self, tag: Tag) -> Option<u64> {
        match self {
            KeyMaterial::Bytes(bytes) => bytes.wire_len(tag),
            KeyMaterial::TransparentSymmetricKey(key) => key.wire_len(tag),
            KeyMaterial::TransparentDSAPrivateKey(key) => key.wire_len(tag),
            KeyMaterial::TransparentDSAPublicKey(key) => key.wire_len(tag),
            KeyMaterial::TransparentRSAPrivateKey(key) => key.wire_len(tag),
            KeyMaterial::TransparentRSAPublicKey(key) => key.wire_len(tag),
            KeyMaterial::TransparentDHPrivateKey(key) => key.wire_len(tag),
            KeyMaterial::TransparentDHPublicKey(key) => key.wire_len(tag),
            KeyMaterial::Structure(_) => None,
            KeyMaterial::Wrapped(_) => None,
        }
    }

    fn write_into(&self, tag: Tag, out: &mut Buffer) {
        match self {
            KeyMaterial::Bytes(bytes) => bytes.write_into(tag, out),
            KeyMaterial::TransparentSymmetricKey(key) => key.write_into(tag, out),
            KeyMaterial::TransparentDSAPrivateKey(key) => key.write_into(tag, out),
            KeyMaterial::TransparentDSAPublicKey(key) => key.write_into(tag, out),
            KeyMaterial::TransparentRSAPrivateKey(key) => key.write_into(tag, out),
            KeyMaterial::TransparentRSAPublicKey(key) => key.write_into(tag, out),
            KeyMaterial::TransparentDHPrivateKey(key) => key.write_into(tag, out),
            KeyMaterial::TransparentDHPublicKey(key) => key.write_into(tag, out),
            KeyMaterial::Structure(_) => {}
            KeyMaterial::Wrapped(_) => {}
        }
    }
}

impl ReadItem for KeyMaterial {
    fn read(alloc: Global, outer: Outer<'_>, item: ItemRef<'_>) -> Result<Self, ReadError> {
        match outer.number {
            Some(1) | Some(2) | Some(3) | Some(4) | Some(5) | Some(6) => {
                Ok(KeyMaterial::Bytes(Blob::read(alloc, outer, item)?))
            }
            Some(7) => Ok(KeyMaterial::TransparentSymmetricKey(TransparentSymmetricKey::read(
                alloc, outer, item,
            )?)),
            Some(8) => Ok(KeyMaterial::TransparentDSAPrivateKey(TransparentDSAPrivateKey::read(
                alloc, outer, item,
            )?)),
            Some(9) => Ok(KeyMaterial::TransparentDSAPublicKey(TransparentDSAPublicKey::read(
                alloc, outer, item,
            )?)),
            Some(10) => Ok(KeyMaterial::TransparentRSAPrivateKey(TransparentRSAPrivateKey::read(
                alloc, outer, item,
            )?)),
            Some(11) => Ok(KeyMaterial::TransparentRSAPublicKey(TransparentRSAPublicKey::read(
                alloc, outer, item,
            )?)),
            Some(12) => Ok(KeyMaterial::TransparentDHPrivateKey(TransparentDHPrivateKey::read(
                alloc, outer, item,
            )?)),
            Some(13) => Ok(KeyMaterial::TransparentDHPublicKey(TransparentDHPublicKey::read(
                alloc, outer, item,
            )?)),
            _ => Err(ReadError::Unread),
        }
    }
}

impl ShowItem for KeyMaterial {
    fn show_into(&self, out: &mut TextWriter) {
        match self {
            KeyMaterial::Bytes(bytes) => show_in_brackets("Bytes", bytes, out),
            KeyMaterial::TransparentSymmetricKey(key) => show_case(
                "TransparentSymmetricKey",
                key,
                out,
            ),
            KeyMaterial::TransparentDSAPrivateKey(key) => show_case(
                "TransparentDSAPrivateKey",
                key,
                out,
            ),
            KeyMaterial::TransparentDSAPublicKey(key) => show_case(
                "TransparentDSAPublicKey",
                key,
                out,
            ),
            KeyMaterial::TransparentRSAPrivateKey(key) => show_case(
                "TransparentRSAPrivateKey",
                key,
                out,
            ),
            KeyMaterial::TransparentRSAPublicKey(key) => show_case(
                "TransparentRSAPublicKey",
                key,
                out,
            ),
            KeyMaterial::TransparentDHPrivateKey(key) => show_case(
                "TransparentDHPrivateKey",
                key,
                out,
            ),
            KeyMaterial::TransparentDHPublicKey(key) => show_case(
                "TransparentDHPublicKey",
                key,
                out,
            ),
            KeyMaterial::Structure(bytes) => show_in_brackets("Structure", bytes, out),
            KeyMaterial::Wrapped(bytes) => show_in_brackets("Wrapped", bytes, out),
        }
    }
}
