// Written by tables/generate.py from tables/*.toml: change these instead.
//! The ways to pad a message.

ghost use Rattle.std.specs.Prelude.{◌≡◌, Some, refl};
ghost use Rattle.kmip_codes.specs.PaddingMethods.{padding_method_line, padding_method_variants};
ghost use Rattle.kmip_codes.specs.PaddingMethods.{padding_method_found};

use kmip_shape::Enumeration;
use std::fmt::{self, Display, Formatter, Write};

/// How a message is padded: KMIP 1.0, 9.1.3.2.14.
#[derive(Clone, Copy, PartialEq, Eq, Drop)]
#[allow(non_camel_case_types)]
pub enum PaddingMethod {
    None = 1,
    OAEP = 2,
    PKCS5 = 3,
    SSL3 = 4,
    Zeros = 5,
    ANSI_X9_23 = 6,
    ISO_10126 = 7,
    PKCS1_v1_5 = 8,
    X9_31 = 9,
    PSS = 10,
}

impl Enumeration for PaddingMethod {
    ghost line = { padding_method_line };

    ghost variants = { padding_method_variants };

    fn number(self) -> u32 {
        self as u32
    }

    fn from_number(number: u32) -> Option<PaddingMethod> {
        match number {
            1 => Some(PaddingMethod::None),
            2 => Some(PaddingMethod::OAEP),
            3 => Some(PaddingMethod::PKCS5),
            4 => Some(PaddingMethod::SSL3),
            5 => Some(PaddingMethod::Zeros),
            6 => Some(PaddingMethod::ANSI_X9_23),
            7 => Some(PaddingMethod::ISO_10126),
            8 => Some(PaddingMethod::PKCS1_v1_5),
            9 => Some(PaddingMethod::X9_31),
            10 => Some(PaddingMethod::PSS),
            _ => None,
        }
    }

    fn name(self) -> &'static str {
        match self {
            PaddingMethod::None => "None",
            PaddingMethod::OAEP => "OAEP",
            PaddingMethod::PKCS5 => "PKCS5",
            PaddingMethod::SSL3 => "SSL3",
            PaddingMethod::Zeros => "Zeros",
            PaddingMethod::ANSI_X9_23 => "ANSI_X9_23",
            PaddingMethod::ISO_10126 => "ISO_10126",
            PaddingMethod::PKCS1_v1_5 => "PKCS1_v1_5",
            PaddingMethod::X9_31 => "X9_31",
            PaddingMethod::PSS => "PSS",
        }
    }

    ghost found = { padding_method_found };

    ghost distinct = { refl };
}

impl Display for PaddingMethod {
    ghost output = { λ x. Some (padding_method_line x).name };

    fn fmt<W: Write>(&self, f: &mut Formatter<W>) -> fmt::Result {
        f.write_str(self.name())
    }
}
