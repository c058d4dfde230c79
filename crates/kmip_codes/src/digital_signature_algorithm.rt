// Written by tables/generate.py from tables/*.toml: change these instead.
//! The algorithms of digital signatures.

ghost use Rattle.std.specs.Prelude.{◌≡◌, Some, refl};
ghost use Rattle.kmip_codes.specs.DigitalSignatureAlgorithms.{digital_signature_algorithm_line};
ghost use Rattle.kmip_codes.specs.DigitalSignatureAlgorithms.{digital_signature_algorithm_variants};
ghost use Rattle.kmip_codes.specs.DigitalSignatureAlgorithms.{digital_signature_algorithm_found};

use kmip_shape::Enumeration;
use std::fmt::{self, Display, Formatter, Write};

/// The algorithm of a digital signature: KMIP 1.2, 9.1.3.2.
#[derive(Clone, Copy, PartialEq, Eq, Drop)]
#[allow(non_camel_case_types)]
pub enum DigitalSignatureAlgorithm {
    MD2WithRSAEncryption_PKCS1_v1_5 = 1,
    MD5WithRSAEncryption_PKCS1_v1_5 = 2,
    SHA1WithRSAEncryption_PKCS1_v1_5 = 3,
    SHA224WithRSAEncryption_PKCS1_v1_5 = 4,
    SHA256WithRSAEncryption_PKCS1_v1_5 = 5,
    SHA384WithRSAEncryption_PKCS1_v1_5 = 6,
    SHA512WithRSAEncryption_PKCS1_v1_5 = 7,
    RSASSA_PSS_PKCS1_v1_5 = 8,
    DSAWithSHA1 = 9,
    DSAWithSHA224 = 10,
    DSAWithSHA256 = 11,
    ECDSAWithSHA1 = 12,
    ECDSAWithSHA224 = 13,
    ECDSAWithSHA256 = 14,
    ECDSAWithSHA384 = 15,
    ECDSAWithSHA512 = 16,
}

impl Enumeration for DigitalSignatureAlgorithm {
    ghost line = { digital_signature_algorithm_line };

    ghost variants = { digital_signature_algorithm_variants };

    fn number(self) -> u32 {
        self as u32
    }

    fn from_number(number: u32) -> Option<DigitalSignatureAlgorithm> {
        match number {
            1 => Some(DigitalSignatureAlgorithm::MD2WithRSAEncryption_PKCS1_v1_5),
            2 => Some(DigitalSignatureAlgorithm::MD5WithRSAEncryption_PKCS1_v1_5),
            3 => Some(DigitalSignatureAlgorithm::SHA1WithRSAEncryption_PKCS1_v1_5),
            4 => Some(DigitalSignatureAlgorithm::SHA224WithRSAEncryption_PKCS1_v1_5),
            5 => Some(DigitalSignatureAlgorithm::SHA256WithRSAEncryption_PKCS1_v1_5),
            6 => Some(DigitalSignatureAlgorithm::SHA384WithRSAEncryption_PKCS1_v1_5),
            7 => Some(DigitalSignatureAlgorithm::SHA512WithRSAEncryption_PKCS1_v1_5),
            8 => Some(DigitalSignatureAlgorithm::RSASSA_PSS_PKCS1_v1_5),
            9 => Some(DigitalSignatureAlgorithm::DSAWithSHA1),
            10 => Some(DigitalSignatureAlgorithm::DSAWithSHA224),
            11 => Some(DigitalSignatureAlgorithm::DSAWithSHA256),
            12 => Some(DigitalSignatureAlgorithm::ECDSAWithSHA1),
            13 => Some(DigitalSignatureAlgorithm::ECDSAWithSHA224),
            14 => Some(DigitalSignatureAlgorithm::ECDSAWithSHA256),
            15 => Some(DigitalSignatureAlgorithm::ECDSAWithSHA384),
            16 => Some(DigitalSignatureAlgorithm::ECDSAWithSHA512),
            _ => None,
        }
    }

    fn name(self) -> &'static str {
        match self {
            DigitalSignatureAlgorithm::MD2WithRSAEncryption_PKCS1_v1_5 =>
                "MD2WithRSAEncryption_PKCS1_v1_5",
            DigitalSignatureAlgorithm::MD5WithRSAEncryption_PKCS1_v1_5 =>
                "MD5WithRSAEncryption_PKCS1_v1_5",
            DigitalSignatureAlgorithm::SHA1WithRSAEncryption_PKCS1_v1_5 =>
                "SHA1WithRSAEncryption_PKCS1_v1_5",
            DigitalSignatureAlgorithm::SHA224WithRSAEncryption_PKCS1_v1_5 =>
                "SHA224WithRSAEncryption_PKCS1_v1_5",
            DigitalSignatureAlgorithm::SHA256WithRSAEncryption_PKCS1_v1_5 =>
                "SHA256WithRSAEncryption_PKCS1_v1_5",
            DigitalSignatureAlgorithm::SHA384WithRSAEncryption_PKCS1_v1_5 =>
                "SHA384WithRSAEncryption_PKCS1_v1_5",
            DigitalSignatureAlgorithm::SHA512WithRSAEncryption_PKCS1_v1_5 =>
                "SHA512WithRSAEncryption_PKCS1_v1_5",
            DigitalSignatureAlgorithm::RSASSA_PSS_PKCS1_v1_5 => "RSASSA_PSS_PKCS1_v1_5",
            DigitalSignatureAlgorithm::DSAWithSHA1 => "DSAWithSHA1",
            DigitalSignatureAlgorithm::DSAWithSHA224 => "DSAWithSHA224",
            DigitalSignatureAlgorithm::DSAWithSHA256 => "DSAWithSHA256",
            DigitalSignatureAlgorithm::ECDSAWithSHA1 => "ECDSAWithSHA1",
            DigitalSignatureAlgorithm::ECDSAWithSHA224 => "ECDSAWithSHA224",
            DigitalSignatureAlgorithm::ECDSAWithSHA256 => "ECDSAWithSHA256",
            DigitalSignatureAlgorithm::ECDSAWithSHA384 => "ECDSAWithSHA384",
            DigitalSignatureAlgorithm::ECDSAWithSHA512 => "ECDSAWithSHA512",
        }
    }

    ghost found = { digital_signature_algorithm_found };

    ghost distinct = { refl };
}

impl Display for DigitalSignatureAlgorithm {
    ghost output = { λ x. Some (digital_signature_algorithm_line x).name };

    fn fmt<W: Write>(&self, f: &mut Formatter<W>) -> fmt::Result {
        f.write_str(self.name())
    }
}
