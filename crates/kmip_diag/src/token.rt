//! The pieces of a diagnostic.
use kmip_wire::Tag;

/// What a diagnostic shows of an item that is no structure.
#[derive(Clone, Copy)]
pub enum Mark {
    /// A signed number of 32 bits.
    Integer,
    /// A signed number of 64 bits.
    LongInteger,
    /// A signed number of any size.
    BigInteger,
    /// A number of an enumeration, the only value that is shown.
    Enumeration(u32),
    /// A truth value.
    Boolean,
    /// A text in UTF-8.
    TextString,
    /// Bytes.
    ByteString,
    /// Seconds since 1970 in UTC.
    DateTime,
    /// A number of seconds.
    Interval,
}

/// A piece of a diagnostic, which is a list of them.
#[derive(Clone, Copy)]
pub enum Token {
    /// An item with a value: its tag, and its type without the value.
    Scalar(Tag, Mark),
    /// The head of a structure.
    Open(Tag),
    /// The end of a structure.
    Close,
}
