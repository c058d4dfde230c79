//! Managed objects, each under its own tag.

ghost use Rattle.std.specs.Prelude.{◌≡◌};
ghost use Rattle.kmip_tags.specs.Tags as tags;
ghost use Rattle.kmip_shape.specs.Shape.{Choice, OfNumber};
ghost use Rattle.kmip_response_objects.specs.Tables.{key_block, certificate, symmetric_key};
ghost use Rattle.kmip_response_objects.specs.Tables.{public_key, private_key, managed_objects};
ghost use Rattle.kmip_response_objects.specs.Values.{certificate_val, symmetric_key_val};
ghost use Rattle.kmip_response_objects.specs.Values.{public_key_val, private_key_val};
ghost use Rattle.kmip_response_objects.specs.Values.{managed_object_val};
ghost use Rattle.kmip_response_objects.specs.Same.{certificate_same, symmetric_key_same};
ghost use Rattle.kmip_response_objects.specs.Same.{public_key_same, private_key_same};
ghost use Rattle.kmip_response_objects.specs.Same.{managed_object_same};

use crate::key_block::KeyBlock;
use kmip_enums::CertificateType;
use kmip_shape::record::{End, Row};
use kmip_shape::row_readers::One;
use kmip_shape::{
    Item, Outer, ReadError, ReadItem, ReadRoot, ShowItem, TextWriter, WriteItem, fields,
    fits_record, read_record, record_len, show_case, show_record, write_record,
};
use kmip_tags::tags::{
    CERTIFICATE, CERTIFICATE_TYPE, CERTIFICATE_VALUE, KEY_BLOCK, PRIVATE_KEY, PUBLIC_KEY,
    SYMMETRIC_KEY,
};
use kmip_wire::{Blob, Buffer, ItemRef, OutOfMemory, Tag, TryClone};
use std::alloc::Global;

/// A certificate: KMIP 1.0, 2.2.1.
#[derive(PartialEq, Eq, Drop)]
pub struct Certificate {
    /// X.509 or PGP: KMIP 1.0, 9.1.3.2.6.
    pub certificate_type: CertificateType,
    /// The bytes of the certificate.
    pub certificate_value: Blob,
}

type CertificateRows = Row<
    One<CertificateType, CERTIFICATE_TYPE>,
    Row<One<Blob, CERTIFICATE_VALUE>, End>,
>;

impl TryClone for Certificate {
    fn try_clone(&self, alloc: Global) -> Result<Certificate, OutOfMemory> {
        Ok(Certificate {
            certificate_type: self.certificate_type,
            certificate_value: self.certificate_value.try_clone(alloc)?,
        })
    }
}

impl Item for Certificate {
    ghost shape = { certificate };

    ghost val = { certificate_val };

    fn fits(&self) {
        fits_record::<CertificateRows>(fields![&self.certificate_type, &self.certificate_value]);
    }

    ghost faithful = { certificate_same };
}

impl WriteItem for Certificate {
    fn wire_len(&self, _tag: Tag) -> Option<u64> {
        record_len::<CertificateRows>(fields![&self.certificate_type, &self.certificate_value])
    }

    fn write_into(&self, tag: Tag, out: &mut Buffer) {
        write_record::<CertificateRows>(
            fields![&self.certificate_type, &self.certificate_value],
            tag,
            out,
        );
    }
}

impl ReadItem for Certificate {
    fn read(alloc: Global, outer: Outer<'_>, item: ItemRef<'_>) -> Result<Self, ReadError> {
        let fields![certificate_type, certificate_value] = read_record::<CertificateRows>(
            alloc, outer, item,
        )?;
        Ok(Certificate {
            certificate_type,
            certificate_value,
        })
    }
}

impl ReadRoot for Certificate {
    ghost root_tag = { tags.CERTIFICATE };

    fn root_tag() -> Tag {
        Tag::of(CERTIFICATE)
    }
}

impl ShowItem for Certificate {
    fn show_into(&self, out: &mut TextWriter) {
        show_record::<CertificateRows>(
            fields![&self.certificate_type, &self.certificate_value],
            fields!["certificate_type", "certificate_value"],
            out,
        );
    }
}

/// A symmetric key: KMIP 1.0, 2.2.2.
#[derive(PartialEq, Eq, Drop)]
pub struct SymmetricKey {
    /// The key and what belongs to it: KMIP 1.0, 2.1.3.
    pub key_block: KeyBlock,
}

type SymmetricKeyRows = Row<One<KeyBlock, KEY_BLOCK>, End>;

impl TryClone for SymmetricKey {
    fn try_clone(&self, alloc: Global) -> Result<SymmetricKey, OutOfMemory> {
        Ok(SymmetricKey {
            key_block: self.key_block.try_clone(alloc)?,
        })
    }
}

impl Item for SymmetricKey {
    ghost shape = { symmetric_key };

    ghost val = { symmetric_key_val };

    fn fits(&self) {
        fits_record::<SymmetricKeyRows>(fields![&self.key_block]);
    }

    ghost faithful = { symmetric_key_same };
}

impl WriteItem for SymmetricKey {
    fn wire_len(&self, _tag: Tag) -> Option<u64> {
        record_len::<SymmetricKeyRows>(fields![&self.key_block])
    }

    fn write_into(&self, tag: Tag, out: &mut Buffer) {
        write_record::<SymmetricKeyRows>(fields![&self.key_block], tag, out);
    }
}

impl ReadItem for SymmetricKey {
    fn read(alloc: Global, outer: Outer<'_>, item: ItemRef<'_>) -> Result<Self, ReadError> {
        let fields![key_block] = read_record::<SymmetricKeyRows>(alloc, outer, item)?;
        Ok(SymmetricKey { key_block })
    }
}

impl ReadRoot for SymmetricKey {
    ghost root_tag = { tags.SYMMETRIC_KEY };

    fn root_tag() -> Tag {
        Tag::of(SYMMETRIC_KEY)
    }
}

impl ShowItem for SymmetricKey {
    fn show_into(&self, out: &mut TextWriter) {
        show_record::<SymmetricKeyRows>(fields![&self.key_block], fields!["key_block"], out);
    }
}

/// A public key: KMIP 1.0, 2.2.3.
#[derive(PartialEq, Eq, Drop)]
pub struct PublicKey {
    /// The key and what belongs to it: KMIP 1.0, 2.1.3.
    pub key_block: KeyBlock,
}

type PublicKeyRows = Row<One<KeyBlock, KEY_BLOCK>, End>;

impl TryClone for PublicKey {
    fn try_clone(&self, alloc: Global) -> Result<PublicKey, OutOfMemory> {
        Ok(PublicKey {
            key_block: self.key_block.try_clone(alloc)?,
        })
    }
}

impl Item for PublicKey {
    ghost shape = { public_key };

    ghost val = { public_key_val };

    fn fits(&self) {
        fits_record::<PublicKeyRows>(fields![&self.key_block]);
    }

    ghost faithful = { public_key_same };
}

impl WriteItem for PublicKey {
    fn wire_len(&self, _tag: Tag) -> Option<u64> {
        record_len::<PublicKeyRows>(fields![&self.key_block])
    }

    fn write_into(&self, tag: Tag, out: &mut Buffer) {
        write_record::<PublicKeyRows>(fields![&self.key_block], tag, out);
    }
}

impl ReadItem for PublicKey {
    fn read(alloc: Global, outer: Outer<'_>, item: ItemRef<'_>) -> Result<Self, ReadError> {
        let fields![key_block] = read_record::<PublicKeyRows>(alloc, outer, item)?;
        Ok(PublicKey { key_block })
    }
}

impl ReadRoot for PublicKey {
    ghost root_tag = { tags.PUBLIC_KEY };

    fn root_tag() -> Tag {
        Tag::of(PUBLIC_KEY)
    }
}

impl ShowItem for PublicKey {
    fn show_into(&self, out: &mut TextWriter) {
        show_record::<PublicKeyRows>(fields![&self.key_block], fields!["key_block"], out);
    }
}

/// A private key: KMIP 1.0, 2.2.4.
#[derive(PartialEq, Eq, Drop)]
pub struct PrivateKey {
    /// The key and what belongs to it: KMIP 1.0, 2.1.3.
    pub key_block: KeyBlock,
}

type PrivateKeyRows = Row<One<KeyBlock, KEY_BLOCK>, End>;

impl TryClone for PrivateKey {
    fn try_clone(&self, alloc: Global) -> Result<PrivateKey, OutOfMemory> {
        Ok(PrivateKey {
            key_block: self.key_block.try_clone(alloc)?,
        })
    }
}

impl Item for PrivateKey {
    ghost shape = { private_key };

    ghost val = { private_key_val };

    fn fits(&self) {
        fits_record::<PrivateKeyRows>(fields![&self.key_block]);
    }

    ghost faithful = { private_key_same };
}

impl WriteItem for PrivateKey {
    fn wire_len(&self, _tag: Tag) -> Option<u64> {
        record_len::<PrivateKeyRows>(fields![&self.key_block])
    }

    fn write_into(&self, tag: Tag, out: &mut Buffer) {
        write_record::<PrivateKeyRows>(fields![&self.key_block], tag, out);
    }
}

impl ReadItem for PrivateKey {
    fn read(alloc: Global, outer: Outer<'_>, item: ItemRef<'_>) -> Result<Self, ReadError> {
        let fields![key_block] = read_record::<PrivateKeyRows>(alloc, outer, item)?;
        Ok(PrivateKey { key_block })
    }
}

impl ReadRoot for PrivateKey {
    ghost root_tag = { tags.PRIVATE_KEY };

    fn root_tag() -> Tag {
        Tag::of(PRIVATE_KEY)
    }
}

impl ShowItem for PrivateKey {
    fn show_into(&self, out: &mut TextWriter) {
        show_record::<PrivateKeyRows>(fields![&self.key_block], fields!["key_block"], out);
    }
}

/// A managed object, which stands beside its object type: KMIP 1.0, 2.2.
#[derive(PartialEq, Eq, Drop)]
pub enum ManagedObject {
    /// A certificate: KMIP 1.0, 2.2.1.
    Certificate(Certificate),
    /// A symmetric key: KMIP 1.0, 2.2.2.
    SymmetricKey(SymmetricKey),
    /// A public key: KMIP 1.0, 2.2.3.
    PublicKey(PublicKey),
    /// A private key: KMIP 1.0, 2.2.4.
    PrivateKey(PrivateKey),
}

impl TryClone for ManagedObject {
    fn try_clone(&self, alloc: Global) -> Result<ManagedObject, OutOfMemory> {
        match self {
            ManagedObject::Certificate(object) => Ok(ManagedObject::Certificate(object.try_clone(
                alloc,
            )?)),
            ManagedObject::SymmetricKey(object) => Ok(ManagedObject::SymmetricKey(object.try_clone(
                alloc,
            )?)),
            ManagedObject::PublicKey(object) => Ok(ManagedObject::PublicKey(object.try_clone(
                alloc,
            )?)),
            ManagedObject::PrivateKey(object) => Ok(ManagedObject::PrivateKey(object.try_clone(
                alloc,
            )?)),
        }
    }
}

impl Item for ManagedObject {
    ghost shape = { Choice OfNumber managed_objects };

    ghost val = { managed_object_val };

    fn fits(&self) {
        match self {
            ManagedObject::Certificate(object) => object.fits(),
            ManagedObject::SymmetricKey(object) => object.fits(),
            ManagedObject::PublicKey(object) => object.fits(),
            ManagedObject::PrivateKey(object) => object.fits(),
        }
    }

    ghost faithful = { managed_object_same };
}

impl WriteItem for ManagedObject {
    fn wire_len(&self, _tag: Tag) -> Option<u64> {
        match self {
            ManagedObject::Certificate(object) => object.wire_len(Tag::of(CERTIFICATE)),
            ManagedObject::SymmetricKey(object) => object.wire_len(Tag::of(SYMMETRIC_KEY)),
            ManagedObject::PublicKey(object) => object.wire_len(Tag::of(PUBLIC_KEY)),
            ManagedObject::PrivateKey(object) => object.wire_len(Tag::of(PRIVATE_KEY)),
        }
    }

    fn write_into(&self, _tag: Tag, out: &mut Buffer) {
        match self {
            ManagedObject::Certificate(object) => object.write_into(Tag::of(CERTIFICATE), out),
            ManagedObject::SymmetricKey(object) => object.write_into(Tag::of(SYMMETRIC_KEY), out),
            ManagedObject::PublicKey(object) => object.write_into(Tag::of(PUBLIC_KEY), out),
            ManagedObject::PrivateKey(object) => object.write_into(Tag::of(PRIVATE_KEY), out),
        }
    }
}

impl ShowItem for ManagedObject {
    fn show_into(&self, out: &mut TextWriter) {
        match self {
            ManagedObject::Certificate(object) => show_case("Certificate", object, out),
            ManagedObject::SymmetricKey(object) => show_case("SymmetricKey", object, out),
            ManagedObject::PublicKey(object) => show_case("PublicKey", object, out),
            ManagedObject::PrivateKey(object) => show_case("PrivateKey", object, out),
        }
    }
}
