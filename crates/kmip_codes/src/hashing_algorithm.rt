// Written by tables/generate.py from tables/*.toml: change these instead.
//! The hashing algorithms.

ghost use Rattle.std.specs.Prelude.{◌≡◌, Some, refl};
ghost use Rattle.kmip_codes.specs.HashingAlgorithms.{hashing_algorithm_line};
ghost use Rattle.kmip_codes.specs.HashingAlgorithms.{hashing_algorithm_variants};
ghost use Rattle.kmip_codes.specs.HashingAlgorithms.{hashing_algorithm_found};

use kmip_shape::Enumeration;
use std::fmt::{self, Display, Formatter, Write};

/// The algorithm that makes a digest: KMIP 1.0, 9.1.3.2.15.
#[derive(Clone, Copy, PartialEq, Eq, Drop)]
pub enum HashingAlgorithm {
    MD2 = 1,
    MD4 = 2,
    MD5 = 3,
    SHA1 = 4,
    SHA224 = 5,
    SHA256 = 6,
    SHA384 = 7,
    SHA512 = 8,
    RIPEMD160 = 9,
    Tiger = 10,
    Whirlpool = 11,
}

impl Enumeration for HashingAlgorithm {
    ghost line = { hashing_algorithm_line };

    ghost variants = { hashing_algorithm_variants };

    fn number(self) -> u32 {
        self as u32
    }

    fn from_number(number: u32) -> Option<HashingAlgorithm> {
        match number {
            1 => Some(HashingAlgorithm::MD2),
            2 => Some(HashingAlgorithm::MD4),
            3 => Some(HashingAlgorithm::MD5),
            4 => Some(HashingAlgorithm::SHA1),
            5 => Some(HashingAlgorithm::SHA224),
            6 => Some(HashingAlgorithm::SHA256),
            7 => Some(HashingAlgorithm::SHA384),
            8 => Some(HashingAlgorithm::SHA512),
            9 => Some(HashingAlgorithm::RIPEMD160),
            10 => Some(HashingAlgorithm::Tiger),
            11 => Some(HashingAlgorithm::Whirlpool),
            _ => None,
        }
    }

    fn name(self) -> &'static str {
        match self {
            HashingAlgorithm::MD2 => "MD2",
            HashingAlgorithm::MD4 => "MD4",
            HashingAlgorithm::MD5 => "MD5",
            HashingAlgorithm::SHA1 => "SHA1",
            HashingAlgorithm::SHA224 => "SHA224",
            HashingAlgorithm::SHA256 => "SHA256",
            HashingAlgorithm::SHA384 => "SHA384",
            HashingAlgorithm::SHA512 => "SHA512",
            HashingAlgorithm::RIPEMD160 => "RIPEMD160",
            HashingAlgorithm::Tiger => "Tiger",
            HashingAlgorithm::Whirlpool => "Whirlpool",
        }
    }

    ghost found = { hashing_algorithm_found };

    ghost distinct = { refl };
}

impl Display for HashingAlgorithm {
    ghost output = { λ x. Some (hashing_algorithm_line x).name };

    fn fmt<W: Write>(&self, f: &mut Formatter<W>) -> fmt::Result {
        f.write_str(self.name())
    }
}
