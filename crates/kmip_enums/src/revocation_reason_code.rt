// Written by tables/generate.py from tables/*.toml: change these instead.
//! The reasons for a revocation.

ghost use Rattle.std.specs.Prelude.{◌≡◌, Some, refl};
ghost use Rattle.kmip_enums.specs.RevocationReasonCodes.{revocation_reason_code_line};
ghost use Rattle.kmip_enums.specs.RevocationReasonCodes.{revocation_reason_code_variants};
ghost use Rattle.kmip_enums.specs.RevocationReasonCodes.{revocation_reason_code_found};

use kmip_shape::Enumeration;
use std::fmt::{self, Display, Formatter, Write};

/// Why an object is revoked: KMIP 1.0, 9.1.3.2.18.
#[derive(Clone, Copy, PartialEq, Eq, Drop)]
pub enum RevocationReasonCode {
    /// No reason is given.
    Unspecified = 1,
    /// The key is known, or thought to be known, to others.
    KeyCompromise = 2,
    /// The key of a certification authority is known, or thought to be known, to others.
    CACompromise = 3,
    /// The subject's name or affiliation changed.
    AffiliationChanged = 4,
    /// Another object replaced it.
    Superseded = 5,
    /// The object is no longer needed.
    CessationOfOperation = 6,
    /// A privilege was withdrawn.
    PrivilegeWithdrawn = 7,
}

impl Enumeration for RevocationReasonCode {
    ghost line = { revocation_reason_code_line };

    ghost variants = { revocation_reason_code_variants };

    fn number(self) -> u32 {
        self as u32
    }

    fn from_number(number: u32) -> Option<RevocationReasonCode> {
        match number {
            1 => Some(RevocationReasonCode::Unspecified),
            2 => Some(RevocationReasonCode::KeyCompromise),
            3 => Some(RevocationReasonCode::CACompromise),
            4 => Some(RevocationReasonCode::AffiliationChanged),
            5 => Some(RevocationReasonCode::Superseded),
            6 => Some(RevocationReasonCode::CessationOfOperation),
            7 => Some(RevocationReasonCode::PrivilegeWithdrawn),
            _ => None,
        }
    }

    fn name(self) -> &'static str {
        match self {
            RevocationReasonCode::Unspecified => "Unspecified",
            RevocationReasonCode::KeyCompromise => "KeyCompromise",
            RevocationReasonCode::CACompromise => "CACompromise",
            RevocationReasonCode::AffiliationChanged => "AffiliationChanged",
            RevocationReasonCode::Superseded => "Superseded",
            RevocationReasonCode::CessationOfOperation => "CessationOfOperation",
            RevocationReasonCode::PrivilegeWithdrawn => "PrivilegeWithdrawn",
        }
    }

    ghost found = { revocation_reason_code_found };

    ghost distinct = { refl };
}

impl Display for RevocationReasonCode {
    ghost output = { λ x. Some (revocation_reason_code_line x).name };

    fn fmt<W: Write>(&self, f: &mut Formatter<W>) -> fmt::Result {
        f.write_str(self.name())
    }
}
