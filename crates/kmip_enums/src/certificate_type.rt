// Written by tables/generate.py from tables/*.toml: change these instead.
//! The kinds of certificates.

ghost use Rattle.std.specs.Prelude.{◌≡◌, Some, refl};
ghost use Rattle.kmip_enums.specs.CertificateTypes.{certificate_type_line};
ghost use Rattle.kmip_enums.specs.CertificateTypes.{certificate_type_variants};
ghost use Rattle.kmip_enums.specs.CertificateTypes.{certificate_type_found};

use kmip_shape::Enumeration;
use std::fmt::{self, Display, Formatter, Write};

/// What kind of certificate it is: KMIP 1.0, 9.1.3.2.6.
#[derive(Clone, Copy, PartialEq, Eq, Drop)]
pub enum CertificateType {
    /// X.509.
    X509 = 1,
    /// PGP.
    PGP = 2,
}

impl Enumeration for CertificateType {
    ghost line = { certificate_type_line };

    ghost variants = { certificate_type_variants };

    fn number(self) -> u32 {
        self as u32
    }

    fn from_number(number: u32) -> Option<CertificateType> {
        match number {
            1 => Some(CertificateType::X509),
            2 => Some(CertificateType::PGP),
            _ => None,
        }
    }

    fn name(self) -> &'static str {
        match self {
            CertificateType::X509 => "X509",
            CertificateType::PGP => "PGP",
        }
    }

    ghost found = { certificate_type_found };

    ghost distinct = { refl };
}

impl Display for CertificateType {
    ghost output = { λ x. Some (certificate_type_line x).name };

    fn fmt<W: Write>(&self, f: &mut Formatter<W>) -> fmt::Result {
        f.write_str(self.name())
    }
}
