//! A call as a row: an operation, and the fields of its payload.
use kmip_enums::Operation;

/// What a word is.
#[derive(Clone, Copy, PartialEq, Eq, Drop)]
pub enum Kind {
    /// The identifier of an object: a text that is not empty.
    Identifier,
    /// A text: `-` is the empty one, and `%` with two upper-case hex digits stands for a byte.
    Text,
    /// Bytes, in hex digits; `-` for none.
    Hex,
    /// The handle of an operation: bytes, in hex digits, at least one.
    Handle,
    /// A number from -2^31 to 2^31 - 1.
    Int,
    /// A number from 0 to 2^63 - 1, as a Long Integer.
    Count,
    /// A date, in seconds since 1970-01-01 UTC, from 0 to 2^63 - 1.
    Date,
    /// A time, in seconds, from 0 to 2^32 - 1.
    Seconds,
    /// `true` or `false`.
    Truth,
    /// A name of the enumeration that stands under the field's tag.
    Name,
    /// Names of uses, with `,` between two: KMIP 1.2, 9.1.3.3.1.
    Uses,
}

/// How the value of a field stands among the items.
#[derive(Clone, Copy, Drop)]
pub enum Form {
    /// As an item with the field's tag.
    Item,
    /// As such an item in Cryptographic Parameters (KMIP 1.0, 3.6), one structure for all such
    /// fields of a part, before its other fields.
    Parameter,
    /// As the value of the attribute with this name: KMIP 1.0, 2.1.1.
    Attribute(&'static str),
    /// As an item of the attribute Cryptographic Domain Parameters: KMIP 1.0, 3.7.
    Domain,
    /// As the attribute Name, an uninterpreted text: KMIP 1.0, 3.2.
    Named,
}

/// Which word gives a field.
#[derive(Clone, Copy, Drop)]
pub enum Place {
    /// The word with this index behind the name of the call, from 0 on.
    Word(usize),
    /// Each word behind those, of any number.
    Words,
    /// The option with the field's name, which may be left out.
    Option,
    /// The option with the field's name, without which the call is none.
    Needed,
    /// The option with the field's name; where it is left out, this word.
    Usual(&'static str),
    /// Always this word.
    Always(&'static str),
}

/// A field of a payload.
#[derive(Clone, Copy, Drop)]
pub struct FieldRow {
    /// What stands before the value of an option, as `mode=`; or what a word is called, as `ID`.
    pub name: &'static str,
    /// Which word gives it.
    pub place: Place,
    /// Its tag.
    pub tag: u32,
    /// What the word is.
    pub kind: Kind,
    /// How its value stands among the items.
    pub form: Form,
}

/// What stands round the fields of a part.
#[derive(Clone, Copy, Drop)]
pub enum Group {
    /// Nothing: they stand in the payload itself.
    Payload,
    /// The structure with this tag, where one of them is given.
    Given(u32),
    /// The structure with this tag, which the operation requires: it stands without fields too.
    Needed(u32),
}

/// Fields that stand together.
#[derive(Clone, Copy, Drop)]
pub struct PartRow {
    /// What stands round them.
    pub group: Group,
    /// The fields, in their order.
    pub fields: &'static [FieldRow],
}

/// What stands behind the words of a call.
#[derive(Clone, Copy, PartialEq, Eq, Drop)]
pub enum Rest {
    /// Its options, in any order, each at most once.
    Options,
    /// Any number of words.
    Words,
}

/// A call.
#[derive(Clone, Copy, Drop)]
pub struct OperationRow {
    /// Its name.
    pub name: &'static str,
    /// The operation.
    pub operation: Operation,
    /// How many words it has behind its name.
    pub words: usize,
    /// What stands behind them.
    pub rest: Rest,
    /// The payload, in KMIP's order.
    pub parts: &'static [PartRow],
}
