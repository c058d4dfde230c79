//! What an operation's payloads have, as rows.
use kmip_enums::Operation;

/// How often a field stands.
#[derive(Clone, Copy, PartialEq, Eq, Drop)]
pub enum Mark {
    /// Exactly once.
    One,
    /// Once, or not at all.
    AtMostOne,
    /// Any number of times.
    AnyNumber,
    /// At least once.
    AtLeastOne,
}

/// Under which tags the items of a field stand.
#[derive(Clone, Copy, Drop)]
pub enum Place {
    /// Under this one.
    Tag(u32),
    /// Under one of the tags of managed objects, [`object_tags`](crate::object_tags).
    Object,
}

/// A field of a payload or of a structure.
#[derive(Clone, Copy, Drop)]
pub struct FieldRow {
    /// Where its items stand.
    pub place: Place,
    /// How often.
    pub mark: Mark,
    /// Since which version it stands there: the minor number of KMIP 1, from 0 to 2.
    pub since: u32,
    /// Of a response: whether its value is that of the request, where the request has one.
    pub is_same: bool,
    /// What an answer calls it, as `unique_identifier`, or `attributes` where there may be several.
    pub name: &'static str,
}

/// A structure: what stands under a tag.
#[derive(Clone, Copy, Drop)]
pub struct StructureRow {
    /// Its tag.
    pub tag: u32,
    /// Its fields, in order.
    pub fields: &'static [FieldRow],
}

/// What an operation does to the objects of a server.
#[derive(Clone, Copy, PartialEq, Eq, Drop)]
pub enum Effect {
    /// It changes nothing, so it may be asked for twice.
    Reads,
    /// It makes something, and its response names that.
    Makes,
    /// It changes what is there.
    Changes,
}

/// The payload of a response.
#[derive(Clone, Copy, Drop)]
pub enum ResponseRow {
    /// Its fields, in order.
    Fields(&'static [FieldRow]),
    /// That of the operation that was asked for before: KMIP 1.0, 4.26.
    OfTheOperation,
}

/// An operation.
#[derive(Clone, Copy, Drop)]
pub struct OperationRow {
    /// Which one.
    pub operation: Operation,
    /// Since which version there is one: the minor number of KMIP 1, from 0 to 2.
    pub since: u32,
    /// What it does.
    pub effect: Effect,
    /// The fields of a request's payload, in order.
    pub request: &'static [FieldRow],
    /// A response's payload.
    pub response: ResponseRow,
    /// The tags of a response's fields whose values are different ones.
    pub apart: &'static [u32],
}

/// What stands under a tag.
#[derive(Clone, Copy, PartialEq, Eq, Drop)]
pub enum Kind {
    /// A Text String of at least one byte, which names an object.
    Identifier,
    /// A Byte String of at least one byte, which names an operation that has not ended.
    Handle,
    /// A Text String.
    Text,
    /// A Byte String; under Key Material also the structure of a transparent key (KMIP 1.0, 2.1.7).
    Bytes,
    /// An Integer that is no mask.
    Int,
    /// A Long Integer.
    Long,
    /// A Big Integer.
    Big,
    /// A Boolean.
    Truth,
    /// A Date-Time.
    Date,
    /// An Interval.
    Seconds,
    /// An Enumeration.
    Name,
    /// An Integer whose bits have names.
    Mask,
    /// A structure that has a row.
    Structure,
    /// An item of any type.
    Any,
}

/// A tag with what stands under it.
#[derive(Clone, Copy, Drop)]
pub struct KindRow {
    /// The tag.
    pub tag: u32,
    /// What stands under it.
    pub kind: Kind,
}

/// A field: its mark and its tag, or `object` and its mark; since which version it stands; its
/// name. `same` before the mark: its value is that of the request.
macro_rules! field {
    (object $mark:ident, $since:literal, $name:literal) => {
        FieldRow {
            place: Place::Object,
            mark: Mark::$mark,
            since: $since,
            is_same: false,
            name: $name,
        }
    };
    (same $mark:ident $tag:ident, $since:literal, $name:literal) => {
        FieldRow {
            place: Place::Tag(tags::$tag),
            mark: Mark::$mark,
            since: $since,
            is_same: true,
            name: $name,
        }
    };
    ($mark:ident $tag:ident, $since:literal, $name:literal) => {
        FieldRow {
            place: Place::Tag(tags::$tag),
            mark: Mark::$mark,
            since: $since,
            is_same: false,
            name: $name,
        }
    };
}

pub(crate) use field;
