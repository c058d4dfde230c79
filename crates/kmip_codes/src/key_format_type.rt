// Written by tables/generate.py from tables/*.toml: change these instead.
//! The formats of key material.

ghost use Rattle.std.specs.Prelude.{◌≡◌, Some, refl};
ghost use Rattle.kmip_codes.specs.KeyFormatTypes.{key_format_type_line, key_format_type_variants};
ghost use Rattle.kmip_codes.specs.KeyFormatTypes.{key_format_type_found};

use kmip_shape::Enumeration;
use kmip_shape::read::Outer;
use kmip_shape::row_readers::Chooses;
use std::fmt::{self, Display, Formatter, Write};

/// The format of the key material in a key block: KMIP 1.0, 9.1.3.2.3.
#[derive(Clone, Copy, PartialEq, Eq, Drop)]
pub enum KeyFormatType {
    /// The bytes of the key material alone.
    Raw = 1,
    /// Bytes in an encoding that the server does not know.
    Opaque = 2,
    /// A PKCS #1 object in DER.
    PKCS1 = 3,
    /// A PKCS #8 object in DER.
    PKCS8 = 4,
    /// An X.509 object in DER.
    X509 = 5,
    /// An elliptic curve private key in ASN.1.
    ECPrivateKey = 6,
    /// KMIP 1.0, 2.1.7.1.
    TransparentSymmetricKey = 7,
    /// KMIP 1.0, 2.1.7.2.
    TransparentDSAPrivateKey = 8,
    /// KMIP 1.0, 2.1.7.3.
    TransparentDSAPublicKey = 9,
    /// KMIP 1.0, 2.1.7.4.
    TransparentRSAPrivateKey = 10,
    /// KMIP 1.0, 2.1.7.5.
    TransparentRSAPublicKey = 11,
    /// KMIP 1.0, 2.1.7.6.
    TransparentDHPrivateKey = 12,
    /// KMIP 1.0, 2.1.7.7.
    TransparentDHPublicKey = 13,
    /// KMIP 1.0, 2.1.7.8.
    TransparentECDSAPrivateKey = 14,
    /// KMIP 1.0, 2.1.7.9.
    TransparentECDSAPublicKey = 15,
    /// ECDH: KMIP 1.0, 2.1.7.10.
    TransparentECHDPrivateKey = 16,
    /// KMIP 1.0, 2.1.7.11.
    TransparentECDHPublicKey = 17,
    /// KMIP 1.0, 2.1.7.12.
    TransparentECMQVPrivateKey = 18,
    /// KMIP 1.0, 2.1.7.13.
    TransparentECMQVPublicKey = 19,
}

impl Enumeration for KeyFormatType {
    ghost line = { key_format_type_line };

    ghost variants = { key_format_type_variants };

    fn number(self) -> u32 {
        self as u32
    }

    fn from_number(number: u32) -> Option<KeyFormatType> {
        match number {
            1 => Some(KeyFormatType::Raw),
            2 => Some(KeyFormatType::Opaque),
            3 => Some(KeyFormatType::PKCS1),
            4 => Some(KeyFormatType::PKCS8),
            5 => Some(KeyFormatType::X509),
            6 => Some(KeyFormatType::ECPrivateKey),
            7 => Some(KeyFormatType::TransparentSymmetricKey),
            8 => Some(KeyFormatType::TransparentDSAPrivateKey),
            9 => Some(KeyFormatType::TransparentDSAPublicKey),
            10 => Some(KeyFormatType::TransparentRSAPrivateKey),
            11 => Some(KeyFormatType::TransparentRSAPublicKey),
            12 => Some(KeyFormatType::TransparentDHPrivateKey),
            13 => Some(KeyFormatType::TransparentDHPublicKey),
            14 => Some(KeyFormatType::TransparentECDSAPrivateKey),
            15 => Some(KeyFormatType::TransparentECDSAPublicKey),
            16 => Some(KeyFormatType::TransparentECHDPrivateKey),
            17 => Some(KeyFormatType::TransparentECDHPublicKey),
            18 => Some(KeyFormatType::TransparentECMQVPrivateKey),
            19 => Some(KeyFormatType::TransparentECMQVPublicKey),
            _ => None,
        }
    }

    fn name(self) -> &'static str {
        match self {
            KeyFormatType::Raw => "Raw",
            KeyFormatType::Opaque => "Opaque",
            KeyFormatType::PKCS1 => "PKCS1",
            KeyFormatType::PKCS8 => "PKCS8",
            KeyFormatType::X509 => "X509",
            KeyFormatType::ECPrivateKey => "ECPrivateKey",
            KeyFormatType::TransparentSymmetricKey => "TransparentSymmetricKey",
            KeyFormatType::TransparentDSAPrivateKey => "TransparentDSAPrivateKey",
            KeyFormatType::TransparentDSAPublicKey => "TransparentDSAPublicKey",
            KeyFormatType::TransparentRSAPrivateKey => "TransparentRSAPrivateKey",
            KeyFormatType::TransparentRSAPublicKey => "TransparentRSAPublicKey",
            KeyFormatType::TransparentDHPrivateKey => "TransparentDHPrivateKey",
            KeyFormatType::TransparentDHPublicKey => "TransparentDHPublicKey",
            KeyFormatType::TransparentECDSAPrivateKey => "TransparentECDSAPrivateKey",
            KeyFormatType::TransparentECDSAPublicKey => "TransparentECDSAPublicKey",
            KeyFormatType::TransparentECHDPrivateKey => "TransparentECHDPrivateKey",
            KeyFormatType::TransparentECDHPublicKey => "TransparentECDHPublicKey",
            KeyFormatType::TransparentECMQVPrivateKey => "TransparentECMQVPrivateKey",
            KeyFormatType::TransparentECMQVPublicKey => "TransparentECMQVPublicKey",
        }
    }

    ghost found = { key_format_type_found };

    ghost distinct = { refl };
}

impl Display for KeyFormatType {
    ghost output = { λ x. Some (key_format_type_line x).name };

    fn fmt<W: Write>(&self, f: &mut Formatter<W>) -> fmt::Result {
        f.write_str(self.name())
    }
}

impl Chooses for KeyFormatType {
    fn outer(&self) -> Outer<'_> {
        Outer {
            number: Some(self.number()),
            name: None,
        }
    }
}
