// Written by tables/generate.py from tables/*.toml: change these instead.
//! The kinds of credentials.

ghost use Rattle.std.specs.Prelude.{◌≡◌, Some, refl};
ghost use Rattle.kmip_enums.specs.CredentialTypes.{credential_type_line, credential_type_variants};
ghost use Rattle.kmip_enums.specs.CredentialTypes.{credential_type_found};

use kmip_shape::Enumeration;
use kmip_shape::read::Outer;
use kmip_shape::row_readers::Chooses;
use std::fmt::{self, Display, Formatter, Write};

/// What kind of credential it is: KMIP 1.0, 9.1.3.2.1.
#[derive(Clone, Copy, PartialEq, Eq, Drop)]
pub enum CredentialType {
    /// A username and a password: KMIP 1.0, 2.1.2.
    UsernameAndPassword = 1,
}

impl Enumeration for CredentialType {
    ghost line = { credential_type_line };

    ghost variants = { credential_type_variants };

    fn number(self) -> u32 {
        self as u32
    }

    fn from_number(number: u32) -> Option<CredentialType> {
        match number {
            1 => Some(CredentialType::UsernameAndPassword),
            _ => None,
        }
    }

    fn name(self) -> &'static str {
        match self {
            CredentialType::UsernameAndPassword => "UsernameAndPassword",
        }
    }

    ghost found = { credential_type_found };

    ghost distinct = { refl };
}

impl Display for CredentialType {
    ghost output = { λ x. Some (credential_type_line x).name };

    fn fmt<W: Write>(&self, f: &mut Formatter<W>) -> fmt::Result {
        f.write_str(self.name())
    }
}

impl Chooses for CredentialType {
    fn outer(&self) -> Outer<'_> {
        Outer {
            number: Some(self.number()),
            name: None,
        }
    }
}
