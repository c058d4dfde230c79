//! Attribute values, and the members of custom structures.

ghost use Rattle.std.specs.Prelude.{◌≡◌, [], ◌∷◌, ◌++◌, length, map, is_ok, if◌then◌else◌};
ghost use Rattle.std.specs.Prelude.{option_copied, slice_get};
ghost use Rattle.std.specs.Option.{option_map};
ghost use Rattle.kmip_shape.specs.Val.{vals_of};
ghost use Rattle.kmip_shape.specs.Shape.{NoCase};
ghost use Rattle.kmip_shape.specs.Fits.{vals_fit};
ghost use Rattle.kmip_types.specs.AttributeValues.{attribute_value, attribute_value_val};
ghost use Rattle.kmip_types.specs.AttributeValues.{attribute_value_same};

use crate::cryptographic_parameters::CryptographicParameters;
use kmip_codes::CryptographicAlgorithm;
use kmip_enums::{LinkType, NameType, ObjectType, State};
use kmip_names::{ApplicationData, ApplicationNamespace, LinkedObjectIdentifier, NameValue};
use kmip_shape::record::{End, Row};
use kmip_shape::row_readers::One;
use kmip_shape::{Item, fields, fits_record};
use kmip_tags::tags::{
    APPLICATION_DATA, APPLICATION_NAMESPACE, LINK_TYPE, LINKED_OBJECT_IDENTIFIER, NAME_TYPE,
    NAME_VALUE,
};
use kmip_wire::{Blob, OutOfMemory, Text};
use std::alloc::Global;
use std::marker::Model;

/// The value of an attribute: KMIP 1.0, 2.1.1.
///
/// A value is read by its attribute's name as one of the first nine variants, and under any other
/// name by its item's type as one of the other ten. It is written by its variant, whatever the
/// name.
#[cycle(attribute_value)]
#[derive(Drop)]
pub enum AttributeValue {
    /// Under `Name`: KMIP 1.0, 3.2.
    Name(NameValue, NameType),
    /// Under `Object Type`: KMIP 1.0, 3.3.
    ObjectType(ObjectType),
    /// Under `Cryptographic Algorithm`: KMIP 1.0, 3.4.
    CryptographicAlgorithm(CryptographicAlgorithm),
    /// Under `Cryptographic Parameters`: KMIP 1.0, 3.6.
    CryptographicParameters(CryptographicParameters),
    /// Under `State`: KMIP 1.0, 3.17.
    State(State),
    /// Under `Object Group`: KMIP 1.0, 3.28.
    ObjectGroup(Text),
    /// Under `Link`, and under `Linked Object Identifier`: KMIP 1.0, 3.29.
    Link(LinkType, LinkedObjectIdentifier),
    /// Under `Application Specific Information`: KMIP 1.0, 3.30.
    ApplicationSpecificInformation(ApplicationNamespace, ApplicationData),
    /// Under `Contact Information`: KMIP 1.0, 3.31.
    ContactInformation(Text),
    /// A custom structure: KMIP 1.0, 3.33. It has no wire form where a member writes a structure.
    Structure(Values),
    /// A value of type Integer.
    Integer(i32),
    /// A value of type Long Integer.
    LongInteger(i64),
    /// A value of type Big Integer: two's complement, the highest byte first. Where its length is
    /// no multiple of 8 bytes it has no wire form.
    BigInteger(Blob),
    /// A value of type Enumeration, as its number.
    Enumeration(u32),
    /// A value of type Boolean.
    Boolean(bool),
    /// A value of type Text String.
    TextString(Text),
    /// A value of type Byte String.
    ByteString(Blob),
    /// A value of type Date-Time, in seconds since 1970-01-01 UTC: a negative number as its 64 bits
    /// in two's complement.
    DateTime(u64),
    /// A value of type Interval, in seconds.
    Interval(u32),
}

/// The members of a custom structure, in order: KMIP 1.0, 3.33. Contracts see them as the list of
/// their values.
#[cycle(attribute_value)]
#[derive(Drop)]
pub struct Values {
    items: Vec<AttributeValue>,
}

impl Model for Values {
    ghost use Rattle.std.specs.Prelude.{List};
    ghost use Rattle.std.specs.Coded.{coded_list};
    ghost use Rattle.kmip_shape.specs.Val.{Val};
    ghost use Rattle.kmip_shape.specs.Codes.{coded_val};

    ghost Value = { List Val };

    ghost coded = { coded_list coded_val };

    ghost use Rattle.std.specs.Prelude.{map};
    ghost use Rattle.kmip_types.specs.AttributeValues.{attribute_value_val, list_weight};

    ghost view = { λ a. map attribute_value_val a.items.items };

    ghost size = { list_weight };

    ghost use Rattle.std.proofs.Common.{arith};
    ghost use Rattle.kmip_types.specs.AttributesFall.{most_le-weight};

    ghost size_decreases = { λ a h. Prim.omega (arith, most_le-weight a.items.items) };
}

impl Values {
    /// The empty list. It takes no memory.
    pub fn new(alloc: Global) -> Values
        ensures { result ≡ [] }
    {
        Values {
            items: Vec::new(alloc),
        }
    }

    /// The members of a vector, in order.
    pub fn of_vec(items: Vec<AttributeValue>) -> Values
        ensures { result ≡ map attribute_value_val items.items }
    {
        Values { items }
    }

    /// Adds an item at the end. On `OutOfMemory` the list stays as it was and the item is dropped.
    pub fn push(&mut self, item: AttributeValue) -> Result<(), OutOfMemory>
        ensures { self.new ≡
            (if is_ok result then self.old ++ attribute_value_val item ∷ [] else self.old) }
    {
        match self.items.push(item) {
            Ok(()) => Ok(()),
            Err(_) => Err(OutOfMemory),
        }
    }

    /// How many items there are.
    pub fn len(&self) -> usize
        ensures { result ≡ length self.now }
    {
        self.items.len()
    }

    /// The item at the index, counted from 0, and `None` past the end.
    pub fn get(&self, index: usize) -> Option<&AttributeValue>
        ensures { option_map attribute_value_val (option_copied result) ≡ slice_get self.now index }
    {
        self.items.get(index)
    }

    /// The items in order.
    pub fn as_slice(&self) -> &[AttributeValue]
        ensures { map attribute_value_val result.now ≡ self.now }
    {
        self.items.as_slice()
    }

    /// The items in order, with no copy made.
    pub fn into_vec(self) -> Vec<AttributeValue>
        ensures { map attribute_value_val result.items ≡ self }
    {
        self.items
    }

    /// The members fit. It does nothing.
    #[cycle(fits_attribute)]
    fn fits(&self)
        ensures { vals_fit (vals_of self.now) NoCase attribute_value }
    {
        let mut rest = self.items.as_slice();
        while let [item, tail @ ..] = rest {
            item.fits();
            rest = tail;
        }
    }
}

/// The rows of a Name: KMIP 1.0, 3.2.
pub type NameRows = Row<One<NameValue, NAME_VALUE>, Row<One<NameType, NAME_TYPE>, End>>;

/// The rows of a Link: KMIP 1.0, 3.29.
pub type LinkRows = Row<
    One<LinkType, LINK_TYPE>,
    Row<One<LinkedObjectIdentifier, LINKED_OBJECT_IDENTIFIER>, End>,
>;

/// The rows of Application Specific Information: KMIP 1.0, 3.30.
pub type InformationRows = Row<
    One<ApplicationNamespace, APPLICATION_NAMESPACE>,
    Row<One<ApplicationData, APPLICATION_DATA>, End>,
>;

impl Item for AttributeValue {
    ghost shape = { attribute_value };

    ghost val = { attribute_value_val };

    #[cycle(fits_attribute)]
    fn fits(&self) {
        match self {
            AttributeValue::Name(value, kind) => fits_record::<NameRows>(fields![value, kind]),
            AttributeValue::ObjectType(object_type) => object_type.fits(),
            AttributeValue::CryptographicAlgorithm(algorithm) => algorithm.fits(),
            AttributeValue::CryptographicParameters(parameters) => parameters.fits(),
            AttributeValue::State(state) => state.fits(),
            AttributeValue::ObjectGroup(text) => text.fits(),
            AttributeValue::Link(kind, identifier) => {
                fits_record::<LinkRows>(fields![kind, identifier]);
            }
            AttributeValue::ApplicationSpecificInformation(namespace, data) => {
                fits_record::<InformationRows>(fields![namespace, data]);
            }
            AttributeValue::ContactInformation(text) => text.fits(),
            AttributeValue::Structure(values) => values.fits(),
            AttributeValue::Integer(number) => number.fits(),
            AttributeValue::LongInteger(number) => number.fits(),
            AttributeValue::BigInteger(bytes) => bytes.fits(),
            AttributeValue::Enumeration(number) => {
                let _number = *number;
            }
            AttributeValue::Boolean(truth) => truth.fits(),
            AttributeValue::TextString(text) => text.fits(),
            AttributeValue::ByteString(bytes) => bytes.fits(),
            AttributeValue::DateTime(seconds) => seconds.fits(),
            AttributeValue::Interval(seconds) => seconds.fits(),
        }
    }

    ghost faithful = { attribute_value_same };
}

/// The conversion keeps the thirteen fields in order.
impl From<CryptographicParameters> for AttributeValue {
    ghost use Rattle.std.specs.Prelude.{◌≡◌};
    ghost use Rattle.kmip_types.specs.declared.attribute_value.AttributeValue.TheVariants.{CryptographicParameters as parameters_value};

    ghost from_gives = { λ parameters value. value ≡ parameters_value parameters };

    fn from(value: CryptographicParameters) -> AttributeValue {
        AttributeValue::CryptographicParameters(value)
    }
}
