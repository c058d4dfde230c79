// Written by tables/generate.py from tables/*.toml: change these instead.
//! The kinds of links.

ghost use Rattle.std.specs.Prelude.{◌≡◌, Some, refl};
ghost use Rattle.kmip_enums.specs.LinkTypes.{link_type_line, link_type_variants, link_type_found};

use kmip_shape::Enumeration;
use std::fmt::{self, Display, Formatter, Write};

/// How one object is linked to another: KMIP 1.0, 9.1.3.2.19.
#[derive(Clone, Copy, PartialEq, Eq, Drop)]
pub enum LinkType {
    /// From a public key to its certificate, or from a certificate to its parent in a chain.
    CertificateLink = 0x101,
    /// From a private key or a certificate to its public key.
    PublicKeyLink = 0x102,
    /// From a public key to its private key.
    PrivateKeyLink = 0x103,
    /// From a derived key to an object that it was derived from.
    DerivationBaseObjectLink = 0x104,
    /// From an object to a key that was derived from it.
    DerivedKeyLink = 0x105,
    /// From an object to the one that replaced it by Re-key or Re-certify.
    ReplacementObjectLink = 0x106,
    /// From an object to the one that it replaced by Re-key or Re-certify.
    ReplacedObjectLink = 0x107,
}

impl Enumeration for LinkType {
    ghost line = { link_type_line };

    ghost variants = { link_type_variants };

    fn number(self) -> u32 {
        self as u32
    }

    fn from_number(number: u32) -> Option<LinkType> {
        match number {
            0x101 => Some(LinkType::CertificateLink),
            0x102 => Some(LinkType::PublicKeyLink),
            0x103 => Some(LinkType::PrivateKeyLink),
            0x104 => Some(LinkType::DerivationBaseObjectLink),
            0x105 => Some(LinkType::DerivedKeyLink),
            0x106 => Some(LinkType::ReplacementObjectLink),
            0x107 => Some(LinkType::ReplacedObjectLink),
            _ => None,
        }
    }

    fn name(self) -> &'static str {
        match self {
            LinkType::CertificateLink => "CertificateLink",
            LinkType::PublicKeyLink => "PublicKeyLink",
            LinkType::PrivateKeyLink => "PrivateKeyLink",
            LinkType::DerivationBaseObjectLink => "DerivationBaseObjectLink",
            LinkType::DerivedKeyLink => "DerivedKeyLink",
            LinkType::ReplacementObjectLink => "ReplacementObjectLink",
            LinkType::ReplacedObjectLink => "ReplacedObjectLink",
        }
    }

    ghost found = { link_type_found };

    ghost distinct = { refl };
}

impl Display for LinkType {
    ghost output = { λ x. Some (link_type_line x).name };

    fn fmt<W: Write>(&self, f: &mut Formatter<W>) -> fmt::Result {
        f.write_str(self.name())
    }
}
