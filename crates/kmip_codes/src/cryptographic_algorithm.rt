// Written by tables/generate.py from tables/*.toml: change these instead.
//! The cryptographic algorithms.

ghost use Rattle.std.specs.Prelude.{◌≡◌, Some, refl};
ghost use Rattle.kmip_codes.specs.CryptographicAlgorithms.{cryptographic_algorithm_line};
ghost use Rattle.kmip_codes.specs.CryptographicAlgorithms.{cryptographic_algorithm_variants};
ghost use Rattle.kmip_codes.specs.CryptographicAlgorithms.{cryptographic_algorithm_found};

use kmip_shape::Enumeration;
use std::fmt::{self, Display, Formatter, Write};

/// The algorithm that a key is for: KMIP 1.0, 9.1.3.2.12.
#[derive(Clone, Copy, PartialEq, Eq, Drop)]
#[allow(non_camel_case_types)]
pub enum CryptographicAlgorithm {
    DES = 1,
    TRIPLE_DES = 2,
    AES = 3,
    RSA = 4,
}

impl Enumeration for CryptographicAlgorithm {
    ghost line = { cryptographic_algorithm_line };

    ghost variants = { cryptographic_algorithm_variants };

    fn number(self) -> u32 {
        self as u32
    }

    fn from_number(number: u32) -> Option<CryptographicAlgorithm> {
        match number {
            1 => Some(CryptographicAlgorithm::DES),
            2 => Some(CryptographicAlgorithm::TRIPLE_DES),
            3 => Some(CryptographicAlgorithm::AES),
            4 => Some(CryptographicAlgorithm::RSA),
            _ => None,
        }
    }

    fn name(self) -> &'static str {
        match self {
            CryptographicAlgorithm::DES => "DES",
            CryptographicAlgorithm::TRIPLE_DES => "TRIPLE_DES",
            CryptographicAlgorithm::AES => "AES",
            CryptographicAlgorithm::RSA => "RSA",
        }
    }

    ghost found = { cryptographic_algorithm_found };

    ghost distinct = { refl };
}

impl Display for CryptographicAlgorithm {
    ghost output = { λ x. Some (cryptographic_algorithm_line x).name };

    fn fmt<W: Write>(&self, f: &mut Formatter<W>) -> fmt::Result {
        f.write_str(self.name())
    }
}
