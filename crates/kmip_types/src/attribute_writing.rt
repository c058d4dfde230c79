//! Writing attribute values, and the members of custom structures.

ghost use Rattle.std.specs.Prelude.{◌≡◌, ◌≤◌, ◌<◌, ◌^◌, IfSome, map};
ghost use Rattle.kmip_wire.specs.Room.{Appends};
ghost use Rattle.kmip_shape.specs.Val.{vals_of};
ghost use Rattle.kmip_shape.specs.Shape.{attribute_value as tag_of_children};
ghost use Rattle.kmip_shape.specs.Writes.{maybe_form, maybe_len, maybe_size, maybe_text};
ghost use Rattle.kmip_shape.specs.Writes.{plain_leaf, plains_form, plains_len, plains_size};
ghost use Rattle.kmip_shape.specs.Writes.{plains_text};
ghost use Rattle.kmip_types.specs.AttributeValues.{attribute_values, attribute_value_val};

use crate::attribute_value::{AttributeValue, InformationRows, LinkRows, NameRows};
use kmip_shape::scalars::{
    SCALAR_LEN, big_integer_len, bytes_len, put_big_integer, put_boolean, put_bytes, put_date,
    put_enumeration, put_integer, put_interval, put_long_integer, put_text, text_len,
};
use kmip_shape::{WriteItem, begin_structure, fields, plus_len, record_len, write_record};
use kmip_tags::tags::ATTRIBUTE_VALUE;
use kmip_wire::{Buffer, Tag};

/// The tag of every child of a custom structure.
const CHILD: u32 = ATTRIBUTE_VALUE;

impl AttributeValue {
    /// The length in bytes as a child of a custom structure, and `None` exactly without a form as
    /// one.
    fn plain_len(&self) -> Option<u64>
        ensures { result ≡ maybe_len (plain_leaf attribute_values (attribute_value_val self.now)) }
    {
        match self {
            AttributeValue::ObjectType(_)
            | AttributeValue::CryptographicAlgorithm(_)
            | AttributeValue::State(_)
            | AttributeValue::Integer(_)
            | AttributeValue::LongInteger(_)
            | AttributeValue::Enumeration(_)
            | AttributeValue::Boolean(_)
            | AttributeValue::DateTime(_)
            | AttributeValue::Interval(_) => Some(SCALAR_LEN),
            AttributeValue::ObjectGroup(text)
            | AttributeValue::ContactInformation(text)
            | AttributeValue::TextString(text) => text_len(text.as_str()),
            AttributeValue::BigInteger(bytes) => big_integer_len(bytes.as_slice()),
            AttributeValue::ByteString(bytes) => bytes_len(bytes.as_slice()),
            AttributeValue::Name(_, _)
            | AttributeValue::CryptographicParameters(_)
            | AttributeValue::Link(_, _)
            | AttributeValue::ApplicationSpecificInformation(_, _)
            | AttributeValue::Structure(_) => None,
        }
    }

    /// Appends the value as a child of a custom structure. It has a form as one.
    fn write_plain(&self, out: &mut Buffer)
        requires form { maybe_form (plain_leaf attribute_values (attribute_value_val self.now)) }
        requires room { maybe_size (plain_leaf attribute_values (attribute_value_val self.now)) ≤
            out.old.spare }
        ensures { Appends out.old out.new
            (maybe_text tag_of_children
            (plain_leaf attribute_values (attribute_value_val self.now)))
            (maybe_size (plain_leaf attribute_values (attribute_value_val self.now))) }
    {
        let tag = Tag::of(CHILD);
        match self {
            AttributeValue::ObjectType(object_type) => object_type.write_into(tag, out),
            AttributeValue::CryptographicAlgorithm(algorithm) => algorithm.write_into(tag, out),
            AttributeValue::State(state) => state.write_into(tag, out),
            AttributeValue::ObjectGroup(text)
            | AttributeValue::ContactInformation(text)
            | AttributeValue::TextString(text) => put_text(tag, text.as_str(), out),
            AttributeValue::Integer(number) => put_integer(tag, *number, out),
            AttributeValue::LongInteger(number) => put_long_integer(tag, *number, out),
            AttributeValue::BigInteger(bytes) => put_big_integer(tag, bytes.as_slice(), out),
            AttributeValue::Enumeration(number) => put_enumeration(tag, *number, out),
            AttributeValue::Boolean(truth) => put_boolean(tag, *truth, out),
            AttributeValue::ByteString(bytes) => put_bytes(tag, bytes.as_slice(), out),
            AttributeValue::DateTime(seconds) => put_date(tag, *seconds, out),
            AttributeValue::Interval(seconds) => put_interval(tag, *seconds, out),
            AttributeValue::Name(_, _)
            | AttributeValue::CryptographicParameters(_)
            | AttributeValue::Link(_, _)
            | AttributeValue::ApplicationSpecificInformation(_, _)
            | AttributeValue::Structure(_) => {}
        }
    }
}

/// The length of the children of a custom structure in bytes, and `None` exactly where one has no
/// form or together they reach 2^32 bytes.
#[tactic(auto, using(kmip_shape::proofs::Lens::plus_assoc, kmip_shape::proofs::Lens::plains_len_zero, kmip_shape::proofs::Lens::plus_end))]
fn children_len(items: &[AttributeValue]) -> Option<u64>
    ensures len { result ≡ plains_len attribute_values
        (vals_of (map attribute_value_val items.now)) }
    ensures below { IfSome result (λ n. n < 2 ^ 32) }
{
    let mut sum = 0;
    let mut rest = items;
    while let [item, tail @ ..] = rest {
        sum = plus_len(Some(sum), item.plain_len())?;
        rest = tail;
    }
    Some(sum)
}

/// Appends the children of a custom structure, in order. Each has a form.
#[tactic(auto, using(std::proofs::lemmas::List::append_assoc))]
fn write_children(items: &[AttributeValue], out: &mut Buffer)
    requires form { plains_form attribute_values (vals_of (map attribute_value_val items.now)) }
    requires room { plains_size attribute_values (vals_of (map attribute_value_val items.now)) ≤
        out.old.spare }
    ensures { Appends out.old out.new
        (plains_text attribute_values (vals_of (map attribute_value_val items.now)))
        (plains_size attribute_values (vals_of (map attribute_value_val items.now))) }
{
    let mut rest = items;
    while let [item, tail @ ..] = rest {
        item.write_plain(out);
        rest = tail;
    }
}

impl WriteItem for AttributeValue {
    fn wire_len(&self, tag: Tag) -> Option<u64> {
        match self {
            AttributeValue::Name(value, kind) => record_len::<NameRows>(fields![value, kind]),
            AttributeValue::ObjectType(object_type) => object_type.wire_len(tag),
            AttributeValue::CryptographicAlgorithm(algorithm) => algorithm.wire_len(tag),
            AttributeValue::CryptographicParameters(parameters) => parameters.wire_len(tag),
            AttributeValue::State(state) => state.wire_len(tag),
            AttributeValue::ObjectGroup(text)
            | AttributeValue::ContactInformation(text)
            | AttributeValue::TextString(text) => text.wire_len(tag),
            AttributeValue::Link(kind, identifier) => {
                record_len::<LinkRows>(fields![kind, identifier])
            }
            AttributeValue::ApplicationSpecificInformation(namespace, data) => {
                record_len::<InformationRows>(fields![namespace, data])
            }
            AttributeValue::Structure(values) => Some(8 + children_len(values.as_slice())?),
            AttributeValue::Integer(number) => number.wire_len(tag),
            AttributeValue::LongInteger(number) => number.wire_len(tag),
            AttributeValue::BigInteger(bytes) => big_integer_len(bytes.as_slice()),
            AttributeValue::Enumeration(_) => Some(SCALAR_LEN),
            AttributeValue::Boolean(truth) => truth.wire_len(tag),
            AttributeValue::ByteString(bytes) => bytes.wire_len(tag),
            AttributeValue::DateTime(seconds) => seconds.wire_len(tag),
            AttributeValue::Interval(seconds) => seconds.wire_len(tag),
        }
    }

    fn write_into(&self, tag: Tag, out: &mut Buffer) {
        match self {
            AttributeValue::Name(value, kind) => {
                write_record::<NameRows>(fields![value, kind], tag, out);
            }
            AttributeValue::ObjectType(object_type) => object_type.write_into(tag, out),
            AttributeValue::CryptographicAlgorithm(algorithm) => algorithm.write_into(tag, out),
            AttributeValue::CryptographicParameters(parameters) => parameters.write_into(tag, out),
            AttributeValue::State(state) => state.write_into(tag, out),
            AttributeValue::ObjectGroup(text)
            | AttributeValue::ContactInformation(text)
            | AttributeValue::TextString(text) => text.write_into(tag, out),
            AttributeValue::Link(kind, identifier) => {
                write_record::<LinkRows>(fields![kind, identifier], tag, out);
            }
            AttributeValue::ApplicationSpecificInformation(namespace, data) => {
                write_record::<InformationRows>(fields![namespace, data], tag, out);
            }
            AttributeValue::Structure(values) => {
                begin_structure(self, self.wire_len(tag), tag, out);
                write_children(values.as_slice(), out);
            }
            AttributeValue::Integer(number) => number.write_into(tag, out),
            AttributeValue::LongInteger(number) => number.write_into(tag, out),
            AttributeValue::BigInteger(bytes) => put_big_integer(tag, bytes.as_slice(), out),
            AttributeValue::Enumeration(number) => put_enumeration(tag, *number, out),
            AttributeValue::Boolean(truth) => truth.write_into(tag, out),
            AttributeValue::ByteString(bytes) => bytes.write_into(tag, out),
            AttributeValue::DateTime(seconds) => seconds.write_into(tag, out),
            AttributeValue::Interval(seconds) => seconds.write_into(tag, out),
        }
    }
}
