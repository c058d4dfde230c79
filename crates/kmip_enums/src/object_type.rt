// Written by tables/generate.py from tables/*.toml: change these instead.
//! The kinds of managed objects.

ghost use Rattle.std.specs.Prelude.{◌≡◌, Some, refl};
ghost use Rattle.kmip_enums.specs.ObjectTypes.{object_type_line, object_type_variants};
ghost use Rattle.kmip_enums.specs.ObjectTypes.{object_type_found};

use kmip_shape::Enumeration;
use kmip_shape::read::Outer;
use kmip_shape::row_readers::Chooses;
use std::fmt::{self, Display, Formatter, Write};

/// What kind of managed object it is: KMIP 1.0, 9.1.3.2.11.
#[derive(Clone, Copy, PartialEq, Eq, Drop)]
pub enum ObjectType {
    /// A certificate: KMIP 1.0, 2.2.1.
    Certificate = 1,
    /// A symmetric key: KMIP 1.0, 2.2.2.
    SymmetricKey = 2,
    /// A public key: KMIP 1.0, 2.2.3.
    PublicKey = 3,
    /// A private key: KMIP 1.0, 2.2.4.
    PrivateKey = 4,
    /// A share of a split key: KMIP 1.0, 2.2.5.
    SplitKey = 5,
    /// A template: KMIP 1.0, 2.2.6.
    Template = 6,
    /// Secret data that is no key, as a password or a seed: KMIP 1.0, 2.2.7.
    SecretData = 7,
    /// Bytes that the server may not be able to interpret: KMIP 1.0, 2.2.8.
    OpaqueObject = 8,
    /// A PGP key: KMIP 1.2, 2.2.9.
    PGPKey = 9,
}

impl Enumeration for ObjectType {
    ghost line = { object_type_line };

    ghost variants = { object_type_variants };

    fn number(self) -> u32 {
        self as u32
    }

    fn from_number(number: u32) -> Option<ObjectType> {
        match number {
            1 => Some(ObjectType::Certificate),
            2 => Some(ObjectType::SymmetricKey),
            3 => Some(ObjectType::PublicKey),
            4 => Some(ObjectType::PrivateKey),
            5 => Some(ObjectType::SplitKey),
            6 => Some(ObjectType::Template),
            7 => Some(ObjectType::SecretData),
            8 => Some(ObjectType::OpaqueObject),
            9 => Some(ObjectType::PGPKey),
            _ => None,
        }
    }

    fn name(self) -> &'static str {
        match self {
            ObjectType::Certificate => "Certificate",
            ObjectType::SymmetricKey => "SymmetricKey",
            ObjectType::PublicKey => "PublicKey",
            ObjectType::PrivateKey => "PrivateKey",
            ObjectType::SplitKey => "SplitKey",
            ObjectType::Template => "Template",
            ObjectType::SecretData => "SecretData",
            ObjectType::OpaqueObject => "OpaqueObject",
            ObjectType::PGPKey => "PGPKey",
        }
    }

    ghost found = { object_type_found };

    ghost distinct = { refl };
}

impl Display for ObjectType {
    ghost output = { λ x. Some (object_type_line x).name };

    fn fmt<W: Write>(&self, f: &mut Formatter<W>) -> fmt::Result {
        f.write_str(self.name())
    }
}

impl Chooses for ObjectType {
    fn outer(&self) -> Outer<'_> {
        Outer {
            number: Some(self.number()),
            name: None,
        }
    }
}
