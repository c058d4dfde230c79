//! Why a text is not read as a tree.
ghost use Rattle.std.specs.Prelude.{◌≡◌};

use kmip_wire::{Kind, OutOfMemory as NoMemory};

/// What stands where another thing was expected.
#[derive(Clone, Copy, PartialEq, Eq, Debug, Drop)]
pub enum Expected {
    /// An object.
    Object,
    /// No member but `tag`, `type` and `value`.
    Members,
    /// The member `tag`: a name of a tag, or `0x` and six digits.
    Tag,
    /// The member `type`: a name of a type.
    Type,
    /// The member `value`: a value of this type.
    Value(Kind),
    /// Fewer levels: an item has at most 64.
    FewerLevels,
}

/// What is no item, and where it stands.
#[derive(Debug, Drop)]
pub struct Fault {
    /// The index of each item among its siblings, counted from 0, the innermost first.
    pub place: Vec<usize>,
    /// What was expected there.
    pub expected: Expected,
}

/// Why a text is not read as a tree.
#[derive(Debug, Drop)]
pub enum EncodingError {
    /// It is no text of JSON: reading stopped at this byte.
    NotJson(usize),
    /// It nests more than 128 deep, as items of more than 64 levels do: reading stopped there.
    TooDeep(usize),
    /// An object has a name twice.
    RepeatedName,
    /// An item is none.
    Misfit(Fault),
    /// Memory ran out.
    OutOfMemory,
}

impl From<NoMemory> for EncodingError {
    ghost use Rattle.std.specs.Prelude.{◌≡◌};
    ghost use Rattle.kmip_encodings.specs.declared.error.EncodingError.TheVariants.{OutOfMemory};

    ghost from_gives = { λ _ e. e ≡ OutOfMemory };

    fn from(_cause: NoMemory) -> EncodingError {
        EncodingError::OutOfMemory
    }
}
