//! Why a text is not read as a tree.
use kmip_wire::{Kind, OutOfMemory as NoMemory, Tag};

/// What was expected where another thing stands.
#[derive(Clone, Copy, Drop)]
pub enum Wanted {
    /// A character that XML has (XML 1.0, 2.2).
    Character,
    /// The end of the declaration with which the text begins.
    DeclarationEnd,
    /// One element, and the end of the text behind it.
    OneElement,
    /// An element, a comment, or the end of the element around.
    Element,
    /// A comment, with no `--` but at its ends.
    Comment,
    /// The end of the element around.
    ElementEnd,
    /// No element in one that has a value.
    NoElement,
    /// The name of an element.
    Name,
    /// An attribute, or the end of the tag.
    AttributeOrEnd,
    /// `tag`, `type`, `value` or `name`, each at most once.
    AttributeName,
    /// `=` and the value of an attribute.
    Equals,
    /// A value in quotes.
    Quotes,
    /// No `<` in the value of an attribute.
    NoElementInValue,
    /// One of the five names of characters, or a number of one, behind `&` and with `;` at its end.
    Reference,
    /// Fewer levels: an item has at most 64.
    FewerLevels,
    /// An element whose name is that of a tag, or `TTLV` with the attribute `tag`.
    Tag,
    /// An attribute `type` that names a type.
    Type,
    /// An attribute `value` of this type, in which names are those under the tag.
    Value(Kind, Tag),
}

/// What is no item, or no XML, and where it stands.
#[derive(Clone, Copy, Drop)]
pub struct Misfit {
    /// How many bytes of the text there are from the place on, to its end.
    pub left: usize,
    /// What was expected there.
    pub wanted: Wanted,
}

/// Why a text is not read as a tree.
#[derive(Drop)]
pub enum XmlError {
    /// The text is no XML that means a tree.
    Misfit(Misfit),
    /// Memory ran out.
    OutOfMemory,
}

impl From<NoMemory> for XmlError {
    ghost use Rattle.std.specs.Prelude.{◌≡◌};
    ghost use Rattle.kmip_xml.specs.declared.error.XmlError.TheVariants.{OutOfMemory};

    ghost from_gives = { λ _ e. e ≡ OutOfMemory };

    fn from(_cause: NoMemory) -> XmlError {
        XmlError::OutOfMemory
    }
}

/// The error where this was expected, and the text goes on as the rest.
pub(crate) fn misfit_at(rest: &str, wanted: Wanted) -> Misfit {
    Misfit {
        left: rest.len(),
        wanted,
    }
}
