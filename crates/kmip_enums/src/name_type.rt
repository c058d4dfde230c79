// Written by tables/generate.py from tables/*.toml: change these instead.
//! The kinds of names.

ghost use Rattle.std.specs.Prelude.{◌≡◌, Some, refl};
ghost use Rattle.kmip_enums.specs.NameTypes.{name_type_line, name_type_variants, name_type_found};

use kmip_shape::Enumeration;
use std::fmt::{self, Display, Formatter, Write};

/// How a name is to be read: KMIP 1.0, 9.1.3.2.10.
#[derive(Clone, Copy, PartialEq, Eq, Drop)]
pub enum NameType {
    /// Any text.
    UninterpretedTextString = 1,
    /// A URI.
    URI = 2,
}

impl Enumeration for NameType {
    ghost line = { name_type_line };

    ghost variants = { name_type_variants };

    fn number(self) -> u32 {
        self as u32
    }

    fn from_number(number: u32) -> Option<NameType> {
        match number {
            1 => Some(NameType::UninterpretedTextString),
            2 => Some(NameType::URI),
            _ => None,
        }
    }

    fn name(self) -> &'static str {
        match self {
            NameType::UninterpretedTextString => "UninterpretedTextString",
            NameType::URI => "URI",
        }
    }

    ghost found = { name_type_found };

    ghost distinct = { refl };
}

impl Display for NameType {
    ghost output = { λ x. Some (name_type_line x).name };

    fn fmt<W: Write>(&self, f: &mut Formatter<W>) -> fmt::Result {
        f.write_str(self.name())
    }
}
