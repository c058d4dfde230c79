// Written by tables/generate.py from tables/*.toml: change these instead.
//! The states of an object.

ghost use Rattle.std.specs.Prelude.{◌≡◌, Some, refl};
ghost use Rattle.kmip_enums.specs.States.{state_line, state_variants, state_found};

use kmip_shape::Enumeration;
use std::fmt::{self, Display, Formatter, Write};

/// The state of an object in its life cycle: KMIP 1.0, 3.17 and 9.1.3.2.17.
#[derive(Clone, Copy, PartialEq, Eq, Drop)]
pub enum State {
    /// It exists, and is not yet to be used.
    PreActive = 1,
    /// It may be used to protect data, and to process protected data.
    Active = 2,
    /// It is no longer to be used to protect data.
    Deactivated = 3,
    /// It is known to others, or thought to be.
    Compromised = 4,
    /// Its key material is gone.
    Destroyed = 5,
    /// Its key material is gone, and was compromised.
    DestroyedCompromised = 6,
}

impl Enumeration for State {
    ghost line = { state_line };

    ghost variants = { state_variants };

    fn number(self) -> u32 {
        self as u32
    }

    fn from_number(number: u32) -> Option<State> {
        match number {
            1 => Some(State::PreActive),
            2 => Some(State::Active),
            3 => Some(State::Deactivated),
            4 => Some(State::Compromised),
            5 => Some(State::Destroyed),
            6 => Some(State::DestroyedCompromised),
            _ => None,
        }
    }

    fn name(self) -> &'static str {
        match self {
            State::PreActive => "PreActive",
            State::Active => "Active",
            State::Deactivated => "Deactivated",
            State::Compromised => "Compromised",
            State::Destroyed => "Destroyed",
            State::DestroyedCompromised => "DestroyedCompromised",
        }
    }

    ghost found = { state_found };

    ghost distinct = { refl };
}

impl Display for State {
    ghost output = { λ x. Some (state_line x).name };

    fn fmt<W: Write>(&self, f: &mut Formatter<W>) -> fmt::Result {
        f.write_str(self.name())
    }
}
