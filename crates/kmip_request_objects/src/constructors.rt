//! Constructors of attributes, each named after its attribute, except `URI`, which makes a Name.
//!
//! Each takes memory for the attribute's name alone and makes an attribute with no index. Its only
//! error is `OutOfMemory`.

ghost use Rattle.std.specs.Prelude.{◌≡◌, IfOk, codes};
ghost use Rattle.std.specs.Int.{cast_signed, w32};
ghost use Rattle.kmip_enums.specs.declared.name_type.NameType.TheVariants as name_types;
ghost use Rattle.kmip_types.specs.UsageMask.{usage_bits};
ghost use Rattle.kmip_types.specs.declared.attribute_value.AttributeValue.TheVariants as values;
ghost use Rattle.kmip_request_objects.specs.Constructors.{attribute_of};

use crate::attribute::Attribute;
use bitflags::Flags;
use kmip_enums::{LinkType, NameType, ObjectType};
use kmip_types::{
    ApplicationData, ApplicationNamespace, AttributeName, AttributeValue, CryptographicAlgorithm,
    CryptographicParameters, CryptographicUsageMask, LinkedObjectIdentifier, NameValue,
};
use kmip_wire::{OutOfMemory, Text};
use std::alloc::Global;

/// The attribute of this name and value, with no index.
fn attribute(alloc: Global, name: &str, value: AttributeValue) -> Result<Attribute, OutOfMemory>
    ensures { IfOk result (λ made. made ≡ attribute_of name.now value) }
{
    Ok(Attribute(AttributeName(Text::of(alloc, name)?), None, value))
}

impl Attribute {
    /// The identifier of an object, as a text: KMIP 1.0, 3.1.
    pub fn UniqueIdentifier(alloc: Global, value: Text) -> Result<Attribute, OutOfMemory>
        ensures { IfOk result (λ made. made ≡
            attribute_of (codes "Unique Identifier") (values.TextString value)) }
    {
        attribute(
            alloc,
            "Unique Identifier",
            AttributeValue::TextString(value),
        )
    }

    /// A name that is an uninterpreted text: KMIP 1.0, 3.2.
    pub fn Name(alloc: Global, value: Text) -> Result<Attribute, OutOfMemory>
        ensures { IfOk result (λ made. made ≡
            attribute_of (codes "Name")
            (values.Name (record { 0 = value }) name_types.UninterpretedTextString)) }
    {
        attribute(
            alloc,
            "Name",
            AttributeValue::Name(NameValue(value), NameType::UninterpretedTextString),
        )
    }

    /// A name that is a URI: KMIP 1.0, 3.2.
    pub fn URI(alloc: Global, value: Text) -> Result<Attribute, OutOfMemory>
        ensures { IfOk result (λ made. made ≡
            attribute_of (codes "Name") (values.Name (record { 0 = value }) name_types.URI)) }
    {
        attribute(
            alloc,
            "Name",
            AttributeValue::Name(NameValue(value), NameType::URI),
        )
    }

    /// The type of an object: KMIP 1.0, 3.3.
    pub fn ObjectType(alloc: Global, value: ObjectType) -> Result<Attribute, OutOfMemory>
        ensures { IfOk result (λ made. made ≡
            attribute_of (codes "Object Type") (values.ObjectType value)) }
    {
        attribute(alloc, "Object Type", AttributeValue::ObjectType(value))
    }

    /// The algorithm of a key: KMIP 1.0, 3.4.
    pub fn CryptographicAlgorithm(
        alloc: Global,
        value: CryptographicAlgorithm,
    ) -> Result<Attribute, OutOfMemory>
        ensures { IfOk result (λ made. made ≡
            attribute_of (codes "Cryptographic Algorithm") (values.CryptographicAlgorithm value)) }
    {
        attribute(
            alloc,
            "Cryptographic Algorithm",
            AttributeValue::CryptographicAlgorithm(value),
        )
    }

    /// The length of a key in bits: KMIP 1.0, 3.5.
    pub fn CryptographicLength(alloc: Global, value: i32) -> Result<Attribute, OutOfMemory>
        ensures { IfOk result (λ made. made ≡
            attribute_of (codes "Cryptographic Length") (values.Integer value)) }
    {
        attribute(
            alloc,
            "Cryptographic Length",
            AttributeValue::Integer(value),
        )
    }

    /// The parameters of a key's cryptographic operations: KMIP 1.0, 3.6.
    pub fn CryptographicParameters(
        alloc: Global,
        cryptographic_parameters: CryptographicParameters,
    ) -> Result<Attribute, OutOfMemory>
        ensures { IfOk result (λ made. made ≡
            attribute_of (codes "Cryptographic Parameters")
            (values.CryptographicParameters cryptographic_parameters)) }
    {
        attribute(
            alloc,
            "Cryptographic Parameters",
            AttributeValue::from(cryptographic_parameters),
        )
    }

    /// The name of the policy that says who may do which operation: KMIP 1.0, 3.13.
    pub fn OperationPolicyName(alloc: Global, value: Text) -> Result<Attribute, OutOfMemory>
        ensures { IfOk result (λ made. made ≡
            attribute_of (codes "Operation Policy Name") (values.TextString value)) }
    {
        attribute(
            alloc,
            "Operation Policy Name",
            AttributeValue::TextString(value),
        )
    }

    /// What a key may be used for, as an Integer of the 32 bits of the set: KMIP 1.0, 3.14.
    pub fn CryptographicUsageMask(
        alloc: Global,
        value: CryptographicUsageMask,
    ) -> Result<Attribute, OutOfMemory>
        ensures { IfOk result (λ made. made ≡
            attribute_of (codes "Cryptographic Usage Mask")
            (values.Integer (cast_signed w32 (usage_bits value)))) }
    {
        attribute(
            alloc,
            "Cryptographic Usage Mask",
            AttributeValue::Integer(value.bits().cast_signed()),
        )
    }

    /// When an object becomes active: KMIP 1.0, 3.19. In seconds since 1970-01-01 UTC, a negative
    /// number as its 64 bits in two's complement.
    pub fn ActivationDate(alloc: Global, value: u64) -> Result<Attribute, OutOfMemory>
        ensures { IfOk result (λ made. made ≡
            attribute_of (codes "Activation Date") (values.DateTime value)) }
    {
        attribute(alloc, "Activation Date", AttributeValue::DateTime(value))
    }

    /// The group that an object belongs to: KMIP 1.0, 3.28.
    pub fn ObjectGroup(alloc: Global, value: Text) -> Result<Attribute, OutOfMemory>
        ensures { IfOk result (λ made. made ≡
            attribute_of (codes "Object Group") (values.TextString value)) }
    {
        attribute(alloc, "Object Group", AttributeValue::TextString(value))
    }

    /// A link to another object: its kind and that object's identifier: KMIP 1.0, 3.29.
    pub fn Link(
        alloc: Global,
        link_type: LinkType,
        linked_object_identifier: LinkedObjectIdentifier,
    ) -> Result<Attribute, OutOfMemory>
        ensures { IfOk result (λ made. made ≡
            attribute_of (codes "Link") (values.Link link_type linked_object_identifier)) }
    {
        attribute(
            alloc,
            "Link",
            AttributeValue::Link(link_type, linked_object_identifier),
        )
    }

    /// Data of an application, under its namespace: KMIP 1.0, 3.30.
    pub fn ApplicationSpecificInformation(
        alloc: Global,
        application_namespace: ApplicationNamespace,
        application_data: ApplicationData,
    ) -> Result<Attribute, OutOfMemory>
        ensures { IfOk result (λ made. made ≡
            attribute_of (codes "Application Specific Information")
            (values.ApplicationSpecificInformation application_namespace application_data)) }
    {
        attribute(
            alloc,
            "Application Specific Information",
            AttributeValue::ApplicationSpecificInformation(application_namespace, application_data),
        )
    }

    /// Whom to ask about an object: KMIP 1.0, 3.31.
    pub fn ContactInformation(alloc: Global, value: Text) -> Result<Attribute, OutOfMemory>
        ensures { IfOk result (λ made. made ≡
            attribute_of (codes "Contact Information") (values.ContactInformation value)) }
    {
        attribute(
            alloc,
            "Contact Information",
            AttributeValue::ContactInformation(value),
        )
    }
}
