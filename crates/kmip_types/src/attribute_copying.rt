//! Copying attribute values.

use crate::attribute_value::{AttributeValue, Values};
use kmip_wire::{OutOfMemory, TryClone};
use std::alloc::Global;

impl TryClone for AttributeValue {
    #[cycle(copy_attribute)]
    fn try_clone(&self, alloc: Global) -> Result<AttributeValue, OutOfMemory> {
        match self {
            AttributeValue::Name(value, kind) => Ok(AttributeValue::Name(
                value.try_clone(alloc)?,
                *kind,
            )),
            AttributeValue::ObjectType(object_type) => Ok(AttributeValue::ObjectType(*object_type)),
            AttributeValue::CryptographicAlgorithm(algorithm) => {
                Ok(AttributeValue::CryptographicAlgorithm(*algorithm))
            }
            AttributeValue::CryptographicParameters(parameters) => {
                Ok(AttributeValue::CryptographicParameters(*parameters))
            }
            AttributeValue::State(state) => Ok(AttributeValue::State(*state)),
            AttributeValue::ObjectGroup(text) => Ok(AttributeValue::ObjectGroup(text.try_clone(
                alloc,
            )?)),
            AttributeValue::Link(kind, identifier) => {
                Ok(AttributeValue::Link(*kind, identifier.try_clone(alloc)?))
            }
            AttributeValue::ApplicationSpecificInformation(namespace, data) => Ok(
                AttributeValue::ApplicationSpecificInformation(
                    namespace.try_clone(alloc)?,
                    data.try_clone(alloc)?,
                ),
            ),
            AttributeValue::ContactInformation(text) => Ok(AttributeValue::ContactInformation(
                text.try_clone(alloc)?,
            )),
            AttributeValue::Structure(values) => Ok(AttributeValue::Structure(values.try_clone(
                alloc,
            )?)),
            AttributeValue::Integer(number) => Ok(AttributeValue::Integer(*number)),
            AttributeValue::LongInteger(number) => Ok(AttributeValue::LongInteger(*number)),
            AttributeValue::BigInteger(bytes) => Ok(AttributeValue::BigInteger(bytes.try_clone(
                alloc,
            )?)),
            AttributeValue::Enumeration(number) => Ok(AttributeValue::Enumeration(*number)),
            AttributeValue::Boolean(truth) => Ok(AttributeValue::Boolean(*truth)),
            AttributeValue::TextString(text) => Ok(AttributeValue::TextString(text.try_clone(
                alloc,
            )?)),
            AttributeValue::ByteString(bytes) => Ok(AttributeValue::ByteString(bytes.try_clone(
                alloc,
            )?)),
            AttributeValue::DateTime(seconds) => Ok(AttributeValue::DateTime(*seconds)),
            AttributeValue::Interval(seconds) => Ok(AttributeValue::Interval(*seconds)),
        }
    }
}

impl TryClone for Values {
    #[cycle(copy_attribute)]
    fn try_clone(&self, alloc: Global) -> Result<Values, OutOfMemory> {
        let mut copy = Values::new(alloc);
        let mut rest = self.as_slice();
        while let [item, tail @ ..] = rest {
            copy.push(item.try_clone(alloc)?)?;
            rest = tail;
        }
        Ok(copy)
    }
}
