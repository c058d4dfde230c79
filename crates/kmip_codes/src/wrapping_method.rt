// Written by tables/generate.py from tables/*.toml: change these instead.
//! The ways to wrap a key.

ghost use Rattle.std.specs.Prelude.{◌≡◌, Some, refl};
ghost use Rattle.kmip_codes.specs.WrappingMethods.{wrapping_method_line, wrapping_method_variants};
ghost use Rattle.kmip_codes.specs.WrappingMethods.{wrapping_method_found};

use kmip_shape::Enumeration;
use std::fmt::{self, Display, Formatter, Write};

/// How a key is wrapped: KMIP 1.0, 9.1.3.2.4.
#[derive(Clone, Copy, PartialEq, Eq, Drop)]
pub enum WrappingMethod {
    /// Encrypted.
    Encrypt = 1,
    /// MACed or signed, and not encrypted.
    MACSign = 2,
    /// Encrypted, and then MACed or signed.
    EncryptThenMACSign = 3,
    /// MACed or signed, and then encrypted.
    MACSignThenEncrypt = 4,
    /// By the key block of TR-31.
    TR31 = 5,
}

impl Enumeration for WrappingMethod {
    ghost line = { wrapping_method_line };

    ghost variants = { wrapping_method_variants };

    fn number(self) -> u32 {
        self as u32
    }

    fn from_number(number: u32) -> Option<WrappingMethod> {
        match number {
            1 => Some(WrappingMethod::Encrypt),
            2 => Some(WrappingMethod::MACSign),
            3 => Some(WrappingMethod::EncryptThenMACSign),
            4 => Some(WrappingMethod::MACSignThenEncrypt),
            5 => Some(WrappingMethod::TR31),
            _ => None,
        }
    }

    fn name(self) -> &'static str {
        match self {
            WrappingMethod::Encrypt => "Encrypt",
            WrappingMethod::MACSign => "MACSign",
            WrappingMethod::EncryptThenMACSign => "EncryptThenMACSign",
            WrappingMethod::MACSignThenEncrypt => "MACSignThenEncrypt",
            WrappingMethod::TR31 => "TR31",
        }
    }

    ghost found = { wrapping_method_found };

    ghost distinct = { refl };
}

impl Display for WrappingMethod {
    ghost output = { λ x. Some (wrapping_method_line x).name };

    fn fmt<W: Write>(&self, f: &mut Formatter<W>) -> fmt::Result {
        f.write_str(self.name())
    }
}
