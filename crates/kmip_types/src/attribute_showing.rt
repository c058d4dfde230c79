//! Showing attribute values as text.

ghost use Rattle.std.specs.Prelude.{◌≡◌, false};
ghost use Rattle.kmip_shape.specs.Val.{vals_of, Case as case};
ghost use Rattle.kmip_shape.specs.Shape.{NoCase};
ghost use Rattle.kmip_shape.specs.Shown.{Grows, shown_in_style, list_in_style, in_brackets};
ghost use Rattle.kmip_types.specs.AttributeValues.{attribute_value, attribute_value_val};
ghost use Rattle.kmip_types.specs.AttributesShown.{case_name, plain_in_style, plain_text};
ghost use Rattle.kmip_types.specs.Parameters.{cryptographic_parameters_val};
ghost use Rattle.kmip_types.specs.declared.attribute_value.AttributeValue.TheVariants.{Name, Link};
ghost use Rattle.kmip_types.specs.declared.attribute_value.AttributeValue.TheVariants.{ApplicationSpecificInformation};
ghost use Rattle.kmip_types.specs.declared.attribute_value.AttributeValue.TheVariants.{Structure};

use crate::attribute_value::{AttributeValue, InformationRows, LinkRows, NameRows, Values};
use crate::cryptographic_parameters::CryptographicParameters;
use kmip_enums::{LinkType, NameType};
use kmip_names::{ApplicationData, ApplicationNamespace, LinkedObjectIdentifier, NameValue};
use kmip_shape::{Enumeration, ShowItem, TextWriter, fields, show_record};

/// Appends the members, with a comma after each but the last.
#[cycle(show_attribute)]
fn show_each(values: &Values, out: &mut TextWriter)
    ensures { Grows out.old out.new
        (list_in_style (vals_of values.now) NoCase attribute_value false) }
{
    let mut after = false;
    let mut rest = values.as_slice();
    while let [item, tail @ ..] = rest {
        out.put_comma(after);
        item.show_into(out);
        after = true;
        rest = tail;
    }
}

/// Appends a structure of the members.
#[cycle(show_attribute)]
fn show_structure(values: &Values, out: &mut TextWriter)
    ensures { Grows out.old out.new
        (shown_in_style attribute_value (attribute_value_val (Structure values.now))) }
{
    out.open_case("Structure");
    out.put("[");
    show_each(values, out);
    out.put("]");
    out.close_case();
}

/// A value that is no record, as the writer of text takes it.
#[derive(Drop)]
enum Piece<'a> {
    Word(&'static str),
    Chars(&'a str),
    Octets(&'a [u8]),
    Signed(i64),
    Unsigned(u64),
    Date(u64),
    Truth(bool),
}

/// The name of the variant.
fn name_of(value: &AttributeValue) -> &'static str
    ensures { result.now ≡ case_name value.now }
{
    match value {
        AttributeValue::Name(_, _) => "Name",
        AttributeValue::ObjectType(_) => "ObjectType",
        AttributeValue::CryptographicAlgorithm(_) => "CryptographicAlgorithm",
        AttributeValue::CryptographicParameters(_) => "CryptographicParameters",
        AttributeValue::State(_) => "State",
        AttributeValue::ObjectGroup(_) => "ObjectGroup",
        AttributeValue::Link(_, _) => "Link",
        AttributeValue::ApplicationSpecificInformation(_, _) => "ApplicationSpecificInformation",
        AttributeValue::ContactInformation(_) => "ContactInformation",
        AttributeValue::Structure(_) => "Structure",
        AttributeValue::Integer(_) => "Integer",
        AttributeValue::LongInteger(_) => "LongInteger",
        AttributeValue::BigInteger(_) => "BigInteger",
        AttributeValue::Enumeration(_) => "Enumeration",
        AttributeValue::Boolean(_) => "Boolean",
        AttributeValue::TextString(_) => "TextString",
        AttributeValue::ByteString(_) => "ByteString",
        AttributeValue::DateTime(_) => "DateTime",
        AttributeValue::Interval(_) => "Interval",
    }
}

/// The value of a variant that holds no record.
fn piece_of(value: &AttributeValue) -> Piece<'_>
    ensures { plain_text result ≡ plain_in_style value.now }
{
    match value {
        AttributeValue::Name(_, _) => Piece::Word(""),
        AttributeValue::ObjectType(object_type) => Piece::Word(object_type.name()),
        AttributeValue::CryptographicAlgorithm(algorithm) => Piece::Word(algorithm.name()),
        AttributeValue::CryptographicParameters(_) => Piece::Word(""),
        AttributeValue::State(state) => Piece::Word(state.name()),
        AttributeValue::ObjectGroup(text) => Piece::Chars(text.as_str()),
        AttributeValue::Link(_, _) => Piece::Word(""),
        AttributeValue::ApplicationSpecificInformation(_, _) => Piece::Word(""),
        AttributeValue::ContactInformation(text) => Piece::Chars(text.as_str()),
        AttributeValue::Structure(_) => Piece::Word(""),
        AttributeValue::Integer(number) => Piece::Signed(i64::from(*number)),
        AttributeValue::LongInteger(number) => Piece::Signed(*number),
        AttributeValue::BigInteger(bytes) => Piece::Octets(bytes.as_slice()),
        AttributeValue::Enumeration(number) => Piece::Unsigned(u64::from(*number)),
        AttributeValue::Boolean(truth) => Piece::Truth(*truth),
        AttributeValue::TextString(text) => Piece::Chars(text.as_str()),
        AttributeValue::ByteString(bytes) => Piece::Octets(bytes.as_slice()),
        AttributeValue::DateTime(seconds) => Piece::Date(*seconds),
        AttributeValue::Interval(seconds) => Piece::Unsigned(u64::from(*seconds)),
    }
}

/// Appends a value that is no record.
fn show_piece(piece: Piece<'_>, out: &mut TextWriter)
    ensures { Grows out.old out.new (plain_text piece.entry) }
{
    match piece {
        Piece::Word(word) => out.put_word(word),
        Piece::Chars(text) => out.put_text(text),
        Piece::Octets(bytes) => out.put_bytes(bytes),
        Piece::Signed(number) => out.put_signed(number),
        Piece::Unsigned(number) => out.put_unsigned(number),
        Piece::Date(seconds) => out.put_date(seconds),
        Piece::Truth(truth) => out.put_truth(truth),
    }
}

/// Appends the name of a variant, and its value in parentheses.
fn show_plain(value: &AttributeValue, out: &mut TextWriter)
    ensures { Grows out.old out.new (in_brackets (case_name value.now) (plain_in_style value.now)) }
{
    out.open_brackets(name_of(value));
    show_piece(piece_of(value), out);
    out.close_brackets();
}

/// Appends a Name.
fn show_name(value: &NameValue, kind: &NameType, out: &mut TextWriter)
    ensures { Grows out.old out.new
        (shown_in_style attribute_value (attribute_value_val (Name value.now kind.now))) }
{
    out.open_case("Name");
    show_record::<NameRows>(
        fields![value, kind],
        fields!["name_value", "name_type"],
        out,
    );
    out.close_case();
}

/// Appends a Link.
fn show_link(kind: &LinkType, identifier: &LinkedObjectIdentifier, out: &mut TextWriter)
    ensures { Grows out.old out.new
        (shown_in_style attribute_value (attribute_value_val (Link kind.now identifier.now))) }
{
    out.open_case("Link");
    show_record::<LinkRows>(
        fields![kind, identifier],
        fields!["link_type", "linked_object_identifier"],
        out,
    );
    out.close_case();
}

/// Appends Application Specific Information.
fn show_information(
    namespace: &ApplicationNamespace,
    contents: &ApplicationData,
    out: &mut TextWriter,
)
    ensures { Grows out.old out.new
        (shown_in_style attribute_value (attribute_value_val
        (ApplicationSpecificInformation namespace.now contents.now))) }
{
    out.open_case("ApplicationSpecificInformation");
    show_record::<InformationRows>(
        fields![namespace, contents],
        fields!["application_namespace", "application_data"],
        out,
    );
    out.close_case();
}

/// Appends Cryptographic Parameters.
fn show_parameters(parameters: &CryptographicParameters, out: &mut TextWriter)
    ensures { Grows out.old out.new
        (shown_in_style attribute_value (case 4 (cryptographic_parameters_val parameters.now))) }
{
    out.open_case("CryptographicParameters");
    parameters.show_into(out);
    out.close_case();
}

impl ShowItem for AttributeValue {
    #[cycle(show_attribute)]
    fn show_into(&self, out: &mut TextWriter) {
        match self {
            AttributeValue::Name(value, kind) => show_name(value, kind, out),
            AttributeValue::CryptographicParameters(parameters) => show_parameters(parameters, out),
            AttributeValue::Link(kind, identifier) => show_link(kind, identifier, out),
            AttributeValue::ApplicationSpecificInformation(namespace, contents) => {
                show_information(namespace, contents, out);
            }
            AttributeValue::Structure(values) => show_structure(values, out),
            _ => show_plain(self, out),
        }
    }
}
