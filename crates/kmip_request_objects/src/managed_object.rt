//! Managed objects, each under its own tag.

ghost use Rattle.std.specs.Prelude.{◌≡◌, ◌∷◌, [], refl};
ghost use Rattle.kmip_tags.specs.Tags as numbers;
ghost use Rattle.kmip_shape.specs.Shape.{Choice, OfTag};
ghost use Rattle.kmip_request_objects.specs.Tables.{name, symmetric_key, public_key, private_key};
ghost use Rattle.kmip_request_objects.specs.Tables.{template, managed_objects};
ghost use Rattle.kmip_request_objects.specs.Values.{symmetric_key_val, public_key_val};
ghost use Rattle.kmip_request_objects.specs.Values.{private_key_val, template_val};
ghost use Rattle.kmip_request_objects.specs.Values.{managed_object_val};
ghost use Rattle.kmip_request_objects.specs.Same.{symmetric_key_same, public_key_same};
ghost use Rattle.kmip_request_objects.specs.Same.{private_key_same, template_same};
ghost use Rattle.kmip_request_objects.specs.Same.{managed_object_same};

use crate::attribute::Attribute;
use crate::key_block::KeyBlock;
use kmip_shape::record::{End, Row};
use kmip_shape::row_readers::{Many, One};
use kmip_shape::{
    Item, OfTag, Outer, ReadError, ReadItem, WriteItem, fields, fits_record, read_record,
    record_len, write_record,
};
use kmip_tags::tags::{ATTRIBUTE, KEY_BLOCK, PRIVATE_KEY, PUBLIC_KEY, SYMMETRIC_KEY, TEMPLATE};
use kmip_wire::{Boxed, Buffer, ItemRef, List, OutOfMemory, Tag, TryClone};
use std::alloc::Global;

/// A symmetric key: KMIP 1.0, 2.2.2.
#[derive(PartialEq, Eq, Drop)]
pub struct SymmetricKey(pub Boxed<KeyBlock>);

type SymmetricKeyRows = Row<One<Boxed<KeyBlock>, KEY_BLOCK>, End>;

impl TryClone for SymmetricKey {
    fn try_clone(&self, alloc: Global) -> Result<SymmetricKey, OutOfMemory> {
        Ok(SymmetricKey(self.0.try_clone(alloc)?))
    }
}

impl Item for SymmetricKey {
    ghost shape = { symmetric_key };

    ghost val = { symmetric_key_val };

    fn fits(&self) {
        fits_record::<SymmetricKeyRows>(fields![&self.0]);
    }

    ghost faithful = { symmetric_key_same };
}

impl WriteItem for SymmetricKey {
    fn wire_len(&self, _tag: Tag) -> Option<u64> {
        record_len::<SymmetricKeyRows>(fields![&self.0])
    }

    fn write_into(&self, tag: Tag, out: &mut Buffer) {
        write_record::<SymmetricKeyRows>(fields![&self.0], tag, out);
    }
}

impl ReadItem for SymmetricKey {
    fn read(alloc: Global, outer: Outer<'_>, item: ItemRef<'_>) -> Result<Self, ReadError> {
        let fields![key_block] = read_record::<SymmetricKeyRows>(alloc, outer, item)?;
        Ok(SymmetricKey(key_block))
    }
}

/// A public key: KMIP 1.0, 2.2.3.
#[derive(PartialEq, Eq, Drop)]
pub struct PublicKey(pub Boxed<KeyBlock>);

type PublicKeyRows = Row<One<Boxed<KeyBlock>, KEY_BLOCK>, End>;

impl TryClone for PublicKey {
    fn try_clone(&self, alloc: Global) -> Result<PublicKey, OutOfMemory> {
        Ok(PublicKey(self.0.try_clone(alloc)?))
    }
}

impl Item for PublicKey {
    ghost shape = { public_key };

    ghost val = { public_key_val };

    fn fits(&self) {
        fits_record::<PublicKeyRows>(fields![&self.0]);
    }

    ghost faithful = { public_key_same };
}

impl WriteItem for PublicKey {
    fn wire_len(&self, _tag: Tag) -> Option<u64> {
        record_len::<PublicKeyRows>(fields![&self.0])
    }

    fn write_into(&self, tag: Tag, out: &mut Buffer) {
        write_record::<PublicKeyRows>(fields![&self.0], tag, out);
    }
}

impl ReadItem for PublicKey {
    fn read(alloc: Global, outer: Outer<'_>, item: ItemRef<'_>) -> Result<Self, ReadError> {
        let fields![key_block] = read_record::<PublicKeyRows>(alloc, outer, item)?;
        Ok(PublicKey(key_block))
    }
}

/// A private key: KMIP 1.0, 2.2.4.
#[derive(PartialEq, Eq, Drop)]
pub struct PrivateKey(pub Boxed<KeyBlock>);

type PrivateKeyRows = Row<One<Boxed<KeyBlock>, KEY_BLOCK>, End>;

impl TryClone for PrivateKey {
    fn try_clone(&self, alloc: Global) -> Result<PrivateKey, OutOfMemory> {
        Ok(PrivateKey(self.0.try_clone(alloc)?))
    }
}

impl Item for PrivateKey {
    ghost shape = { private_key };

    ghost val = { private_key_val };

    fn fits(&self) {
        fits_record::<PrivateKeyRows>(fields![&self.0]);
    }

    ghost faithful = { private_key_same };
}

impl WriteItem for PrivateKey {
    fn wire_len(&self, _tag: Tag) -> Option<u64> {
        record_len::<PrivateKeyRows>(fields![&self.0])
    }

    fn write_into(&self, tag: Tag, out: &mut Buffer) {
        write_record::<PrivateKeyRows>(fields![&self.0], tag, out);
    }
}

impl ReadItem for PrivateKey {
    fn read(alloc: Global, outer: Outer<'_>, item: ItemRef<'_>) -> Result<Self, ReadError> {
        let fields![key_block] = read_record::<PrivateKeyRows>(alloc, outer, item)?;
        Ok(PrivateKey(key_block))
    }
}

/// A named set of attributes that other requests may cite: KMIP 1.0, 2.2.6.
#[derive(PartialEq, Eq, Drop)]
pub struct Template(pub List<Attribute>);

type TemplateRows = Row<Many<Attribute, ATTRIBUTE>, End>;

impl TryClone for Template {
    fn try_clone(&self, alloc: Global) -> Result<Template, OutOfMemory> {
        Ok(Template(self.0.try_clone(alloc)?))
    }
}

impl Item for Template {
    ghost shape = { template };

    ghost val = { template_val };

    fn fits(&self) {
        fits_record::<TemplateRows>(fields![&self.0]);
    }

    ghost faithful = { template_same };
}

impl WriteItem for Template {
    fn wire_len(&self, _tag: Tag) -> Option<u64> {
        record_len::<TemplateRows>(fields![&self.0])
    }

    fn write_into(&self, tag: Tag, out: &mut Buffer) {
        write_record::<TemplateRows>(fields![&self.0], tag, out);
    }
}

impl ReadItem for Template {
    fn read(alloc: Global, outer: Outer<'_>, item: ItemRef<'_>) -> Result<Self, ReadError> {
        let fields![attributes] = read_record::<TemplateRows>(alloc, outer, item)?;
        Ok(Template(attributes))
    }
}

/// An object that is registered, under the tag of its type: KMIP 1.0, 2.2.
#[derive(PartialEq, Eq, Drop)]
pub enum ManagedObject {
    /// A symmetric key: KMIP 1.0, 2.2.2.
    SymmetricKey(SymmetricKey),
    /// A public key: KMIP 1.0, 2.2.3.
    PublicKey(PublicKey),
    /// A private key: KMIP 1.0, 2.2.4.
    PrivateKey(PrivateKey),
    /// A template: KMIP 1.0, 2.2.6.
    Template(Template),
}

impl TryClone for ManagedObject {
    fn try_clone(&self, alloc: Global) -> Result<ManagedObject, OutOfMemory> {
        match self {
            ManagedObject::SymmetricKey(object) => Ok(ManagedObject::SymmetricKey(object.try_clone(
                alloc,
            )?)),
            ManagedObject::PublicKey(object) => Ok(ManagedObject::PublicKey(object.try_clone(
                alloc,
            )?)),
            ManagedObject::PrivateKey(object) => Ok(ManagedObject::PrivateKey(object.try_clone(
                alloc,
            )?)),
            ManagedObject::Template(object) => Ok(ManagedObject::Template(object.try_clone(
                alloc,
            )?)),
        }
    }
}

impl Item for ManagedObject {
    ghost shape = { Choice OfTag managed_objects };

    ghost val = { managed_object_val };

    fn fits(&self) {
        match self {
            ManagedObject::SymmetricKey(object) => object.fits(),
            ManagedObject::PublicKey(object) => object.fits(),
            ManagedObject::PrivateKey(object) => object.fits(),
            ManagedObject::Template(object) => object.fits(),
        }
    }

    ghost faithful = { managed_object_same };
}

impl WriteItem for ManagedObject {
    fn wire_len(&self, _tag: Tag) -> Option<u64> {
        match self {
            ManagedObject::SymmetricKey(object) => object.wire_len(Tag::of(SYMMETRIC_KEY)),
            ManagedObject::PublicKey(object) => object.wire_len(Tag::of(PUBLIC_KEY)),
            ManagedObject::PrivateKey(object) => object.wire_len(Tag::of(PRIVATE_KEY)),
            ManagedObject::Template(object) => object.wire_len(Tag::of(TEMPLATE)),
        }
    }

    fn write_into(&self, _tag: Tag, out: &mut Buffer) {
        match self {
            ManagedObject::SymmetricKey(object) => object.write_into(Tag::of(SYMMETRIC_KEY), out),
            ManagedObject::PublicKey(object) => object.write_into(Tag::of(PUBLIC_KEY), out),
            ManagedObject::PrivateKey(object) => object.write_into(Tag::of(PRIVATE_KEY), out),
            ManagedObject::Template(object) => object.write_into(Tag::of(TEMPLATE), out),
        }
    }
}

impl ReadItem for ManagedObject {
    fn read(alloc: Global, outer: Outer<'_>, item: ItemRef<'_>) -> Result<Self, ReadError> {
        match item.tag().number() {
            SYMMETRIC_KEY => Ok(ManagedObject::SymmetricKey(SymmetricKey::read(
                alloc, outer, item,
            )?)),
            PUBLIC_KEY => Ok(ManagedObject::PublicKey(PublicKey::read(alloc, outer, item)?)),
            PRIVATE_KEY => Ok(ManagedObject::PrivateKey(PrivateKey::read(alloc, outer, item)?)),
            TEMPLATE => Ok(ManagedObject::Template(Template::read(alloc, outer, item)?)),
            _ => Err(ReadError::Unread),
        }
    }
}

impl OfTag for ManagedObject {
    ghost tags = { numbers.SYMMETRIC_KEY ∷ numbers.PUBLIC_KEY ∷ numbers.PRIVATE_KEY ∷
        numbers.TEMPLATE ∷ [] };

    fn has_case(tag: Tag) -> bool {
        matches!(
            tag.number(),
            SYMMETRIC_KEY | PUBLIC_KEY | PRIVATE_KEY | TEMPLATE
        )
    }

    ghost own = { λ o. refl };
}
