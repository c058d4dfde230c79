// Written by tables/generate.py from tables/*.toml: change these instead.
//! The ways in which a key is compressed.

ghost use Rattle.std.specs.Prelude.{◌≡◌, Some, refl};
ghost use Rattle.kmip_codes.specs.KeyCompressionTypes.{key_compression_type_line};
ghost use Rattle.kmip_codes.specs.KeyCompressionTypes.{key_compression_type_variants};
ghost use Rattle.kmip_codes.specs.KeyCompressionTypes.{key_compression_type_found};

use kmip_shape::Enumeration;
use std::fmt::{self, Display, Formatter, Write};

/// How the public key of an elliptic curve is compressed: KMIP 1.0, 9.1.3.2.2.
#[derive(Clone, Copy, PartialEq, Eq, Drop)]
pub enum KeyCompressionType {
    /// Not compressed.
    ECPUblicKeyTypeUncompressed = 1,
    /// Compressed by X9.62, over a prime field.
    ECPUblicKeyTypeX962CompressedPrime = 2,
    /// Compressed by X9.62, over a field of characteristic 2.
    ECPUblicKeyTypeX962CompressedChar2 = 3,
    /// The hybrid form of X9.62.
    ECPUblicKeyTypeX962Hybrid = 4,
}

impl Enumeration for KeyCompressionType {
    ghost line = { key_compression_type_line };

    ghost variants = { key_compression_type_variants };

    fn number(self) -> u32 {
        self as u32
    }

    fn from_number(number: u32) -> Option<KeyCompressionType> {
        match number {
            1 => Some(KeyCompressionType::ECPUblicKeyTypeUncompressed),
            2 => Some(KeyCompressionType::ECPUblicKeyTypeX962CompressedPrime),
            3 => Some(KeyCompressionType::ECPUblicKeyTypeX962CompressedChar2),
            4 => Some(KeyCompressionType::ECPUblicKeyTypeX962Hybrid),
            _ => None,
        }
    }

    fn name(self) -> &'static str {
        match self {
            KeyCompressionType::ECPUblicKeyTypeUncompressed => "ECPUblicKeyTypeUncompressed",
            KeyCompressionType::ECPUblicKeyTypeX962CompressedPrime =>
                "ECPUblicKeyTypeX962CompressedPrime",
            KeyCompressionType::ECPUblicKeyTypeX962CompressedChar2 =>
                "ECPUblicKeyTypeX962CompressedChar2",
            KeyCompressionType::ECPUblicKeyTypeX962Hybrid => "ECPUblicKeyTypeX962Hybrid",
        }
    }

    ghost found = { key_compression_type_found };

    ghost distinct = { refl };
}

impl Display for KeyCompressionType {
    ghost output = { λ x. Some (key_compression_type_line x).name };

    fn fmt<W: Write>(&self, f: &mut Formatter<W>) -> fmt::Result {
        f.write_str(self.name())
    }
}
