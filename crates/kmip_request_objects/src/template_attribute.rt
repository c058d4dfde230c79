//! Attributes and names of templates for new objects.

ghost use Rattle.std.specs.Prelude.{◌≡◌};
ghost use Rattle.std.specs.Prelude.{◌∷◌, [], IfOk, None, Some};
ghost use Rattle.kmip_request_objects.specs.Constructors.{uninterpreted_name};
ghost use Rattle.kmip_request_objects.specs.Tables.{name, template_attribute};
ghost use Rattle.kmip_request_objects.specs.Values.{template_attribute_val};
ghost use Rattle.kmip_request_objects.specs.Values.{common_template_attribute_val};
ghost use Rattle.kmip_request_objects.specs.Values.{private_key_template_attribute_val};
ghost use Rattle.kmip_request_objects.specs.Values.{public_key_template_attribute_val};
ghost use Rattle.kmip_request_objects.specs.Same.{template_attribute_same};
ghost use Rattle.kmip_request_objects.specs.Same.{common_template_attribute_same};
ghost use Rattle.kmip_request_objects.specs.Same.{private_key_template_attribute_same};
ghost use Rattle.kmip_request_objects.specs.Same.{public_key_template_attribute_same};

use crate::attribute::Attribute;
use crate::name::Name;
use kmip_enums::NameType;
use kmip_shape::record::{End, Row};
use kmip_shape::row_readers::OptMany;
use kmip_shape::{
    Item, Outer, ReadError, ReadItem, WriteItem, fields, fits_record, read_record, record_len,
    write_record,
};
use kmip_tags::tags::{ATTRIBUTE, NAME};
use kmip_types::NameValue;
use kmip_wire::{Buffer, ItemRef, List, OutOfMemory, Tag, Text, TryClone, clone_optional};
use std::alloc::Global;

/// A list of one name, an uninterpreted text.
fn one_name(alloc: Global, name: Text) -> Result<List<Name>, OutOfMemory>
    ensures { IfOk result (λ made. made ≡ uninterpreted_name name ∷ []) }
{
    let mut names = List::new(alloc);
    names.push(Name(NameValue(name), NameType::UninterpretedTextString))?;
    Ok(names)
}

/// Attributes and names of templates for a new object: KMIP 1.0, 2.1.8.
#[derive(PartialEq, Eq, Drop)]
pub struct TemplateAttribute(pub Option<List<Name>>, pub Option<List<Attribute>>);

impl TemplateAttribute {
    /// The attributes, with no names of templates. It takes no memory.
    pub fn unnamed(attributes: List<Attribute>) -> Self
        ensures { result ≡ record { 0 = None; 1 = Some attributes } }
    {
        TemplateAttribute(None, Some(attributes))
    }

    /// The attributes, and one name of a template, an uninterpreted text. The only error is
    /// `OutOfMemory`.
    pub fn named(
        alloc: Global,
        name: Text,
        attributes: List<Attribute>,
    ) -> Result<Self, OutOfMemory>
        ensures { IfOk result (λ made. made ≡
            record { 0 = Some (uninterpreted_name name ∷ []); 1 = Some attributes }) }
    {
        Ok(TemplateAttribute(Some(one_name(alloc, name)?), Some(attributes)))
    }
}

type TemplateAttributeRows = Row<OptMany<Name, NAME>, Row<OptMany<Attribute, ATTRIBUTE>, End>>;

impl TryClone for TemplateAttribute {
    fn try_clone(&self, alloc: Global) -> Result<TemplateAttribute, OutOfMemory> {
        Ok(TemplateAttribute(
            clone_optional(&self.0, alloc)?,
            clone_optional(&self.1, alloc)?,
        ))
    }
}

#[tactic(auto, unfolding(crate::specs::Tables::template_attribute))]
impl Item for TemplateAttribute {
    ghost shape = { template_attribute };

    ghost val = { template_attribute_val };

    fn fits(&self) {
        fits_record::<TemplateAttributeRows>(fields![&self.0, &self.1]);
    }

    ghost faithful = { template_attribute_same };
}

#[tactic(auto, unfolding(crate::specs::Tables::template_attribute))]
impl WriteItem for TemplateAttribute {
    fn wire_len(&self, _tag: Tag) -> Option<u64> {
        record_len::<TemplateAttributeRows>(fields![&self.0, &self.1])
    }

    fn write_into(&self, tag: Tag, out: &mut Buffer) {
        write_record::<TemplateAttributeRows>(fields![&self.0, &self.1], tag, out);
    }
}

#[tactic(auto, unfolding(crate::specs::Tables::template_attribute))]
impl ReadItem for TemplateAttribute {
    fn read(alloc: Global, outer: Outer<'_>, item: ItemRef<'_>) -> Result<Self, ReadError> {
        let fields![names, attributes] = read_record::<TemplateAttributeRows>(alloc, outer, item)?;
        Ok(TemplateAttribute(names, attributes))
    }
}

/// Attributes and names of templates for both keys of a new pair: KMIP 1.0, 2.1.8.
#[derive(PartialEq, Eq, Drop)]
pub struct CommonTemplateAttribute(pub Option<List<Name>>, pub Option<List<Attribute>>);

impl CommonTemplateAttribute {
    /// The attributes, with no names of templates. It takes no memory.
    pub fn unnamed(attributes: List<Attribute>) -> Self
        ensures { result ≡ record { 0 = None; 1 = Some attributes } }
    {
        CommonTemplateAttribute(None, Some(attributes))
    }

    /// The attributes, and one name of a template, an uninterpreted text. The only error is
    /// `OutOfMemory`.
    pub fn named(
        alloc: Global,
        name: Text,
        attributes: List<Attribute>,
    ) -> Result<Self, OutOfMemory>
        ensures { IfOk result (λ made. made ≡
            record { 0 = Some (uninterpreted_name name ∷ []); 1 = Some attributes }) }
    {
        Ok(CommonTemplateAttribute(Some(one_name(alloc, name)?), Some(attributes)))
    }
}

type CommonTemplateAttributeRows = Row<
    OptMany<Name, NAME>,
    Row<OptMany<Attribute, ATTRIBUTE>, End>,
>;

impl TryClone for CommonTemplateAttribute {
    fn try_clone(&self, alloc: Global) -> Result<CommonTemplateAttribute, OutOfMemory> {
        Ok(CommonTemplateAttribute(
            clone_optional(&self.0, alloc)?,
            clone_optional(&self.1, alloc)?,
        ))
    }
}

#[tactic(auto, unfolding(crate::specs::Tables::template_attribute))]
impl Item for CommonTemplateAttribute {
    ghost shape = { template_attribute };

    ghost val = { common_template_attribute_val };

    fn fits(&self) {
        fits_record::<CommonTemplateAttributeRows>(fields![&self.0, &self.1]);
    }

    ghost faithful = { common_template_attribute_same };
}

#[tactic(auto, unfolding(crate::specs::Tables::template_attribute))]
impl WriteItem for CommonTemplateAttribute {
    fn wire_len(&self, _tag: Tag) -> Option<u64> {
        record_len::<CommonTemplateAttributeRows>(fields![&self.0, &self.1])
    }

    fn write_into(&self, tag: Tag, out: &mut Buffer) {
        write_record::<CommonTemplateAttributeRows>(fields![&self.0, &self.1], tag, out);
    }
}

#[tactic(auto, unfolding(crate::specs::Tables::template_attribute))]
impl ReadItem for CommonTemplateAttribute {
    fn read(alloc: Global, outer: Outer<'_>, item: ItemRef<'_>) -> Result<Self, ReadError> {
        let fields![names, attributes] = read_record::<CommonTemplateAttributeRows>(
            alloc, outer, item,
        )?;
        Ok(CommonTemplateAttribute(names, attributes))
    }
}

/// Attributes and names of templates for the private key of a new pair: KMIP 1.0, 2.1.8.
#[derive(PartialEq, Eq, Drop)]
pub struct PrivateKeyTemplateAttribute(pub Option<List<Name>>, pub Option<List<Attribute>>);

impl PrivateKeyTemplateAttribute {
    /// The attributes, with no names of templates. It takes no memory.
    pub fn unnamed(attributes: List<Attribute>) -> Self
        ensures { result ≡ record { 0 = None; 1 = Some attributes } }
    {
        PrivateKeyTemplateAttribute(None, Some(attributes))
    }

    /// The attributes, and one name of a template, an uninterpreted text. The only error is
    /// `OutOfMemory`.
    pub fn named(
        alloc: Global,
        name: Text,
        attributes: List<Attribute>,
    ) -> Result<Self, OutOfMemory>
        ensures { IfOk result (λ made. made ≡
            record { 0 = Some (uninterpreted_name name ∷ []); 1 = Some attributes }) }
    {
        Ok(PrivateKeyTemplateAttribute(Some(one_name(alloc, name)?), Some(attributes)))
    }
}

type PrivateKeyTemplateAttributeRows = Row<
    OptMany<Name, NAME>,
    Row<OptMany<Attribute, ATTRIBUTE>, End>,
>;

impl TryClone for PrivateKeyTemplateAttribute {
    fn try_clone(&self, alloc: Global) -> Result<PrivateKeyTemplateAttribute, OutOfMemory> {
        Ok(PrivateKeyTemplateAttribute(
            clone_optional(&self.0, alloc)?,
            clone_optional(&self.1, alloc)?,
        ))
    }
}

#[tactic(auto, unfolding(crate::specs::Tables::template_attribute))]
impl Item for PrivateKeyTemplateAttribute {
    ghost shape = { template_attribute };

    ghost val = { private_key_template_attribute_val };

    fn fits(&self) {
        fits_record::<PrivateKeyTemplateAttributeRows>(fields![&self.0, &self.1]);
    }

    ghost faithful = { private_key_template_attribute_same };
}

#[tactic(auto, unfolding(crate::specs::Tables::template_attribute))]
impl WriteItem for PrivateKeyTemplateAttribute {
    fn wire_len(&self, _tag: Tag) -> Option<u64> {
        record_len::<PrivateKeyTemplateAttributeRows>(fields![&self.0, &self.1])
    }

    fn write_into(&self, tag: Tag, out: &mut Buffer) {
        write_record::<PrivateKeyTemplateAttributeRows>(fields![&self.0, &self.1], tag, out);
    }
}

#[tactic(auto, unfolding(crate::specs::Tables::template_attribute))]
impl ReadItem for PrivateKeyTemplateAttribute {
    fn read(alloc: Global, outer: Outer<'_>, item: ItemRef<'_>) -> Result<Self, ReadError> {
        let fields![names, attributes] = read_record::<PrivateKeyTemplateAttributeRows>(
            alloc, outer, item,
        )?;
        Ok(PrivateKeyTemplateAttribute(names, attributes))
    }
}

/// Attributes and names of templates for the public key of a new pair: KMIP 1.0, 2.1.8.
#[derive(PartialEq, Eq, Drop)]
pub struct PublicKeyTemplateAttribute(pub Option<List<Name>>, pub Option<List<Attribute>>);

impl PublicKeyTemplateAttribute {
    /// The attributes, with no names of templates. It takes no memory.
    pub fn unnamed(attributes: List<Attribute>) -> Self
        ensures { result ≡ record { 0 = None; 1 = Some attributes } }
    {
        PublicKeyTemplateAttribute(None, Some(attributes))
    }

    /// The attributes, and one name of a template, an uninterpreted text. The only error is
    /// `OutOfMemory`.
    pub fn named(
        alloc: Global,
        name: Text,
        attributes: List<Attribute>,
    ) -> Result<Self, OutOfMemory>
        ensures { IfOk result (λ made. made ≡
            record { 0 = Some (uninterpreted_name name ∷ []); 1 = Some attributes }) }
    {
        Ok(PublicKeyTemplateAttribute(Some(one_name(alloc, name)?), Some(attributes)))
    }
}

type PublicKeyTemplateAttributeRows = Row<
    OptMany<Name, NAME>,
    Row<OptMany<Attribute, ATTRIBUTE>, End>,
>;

impl TryClone for PublicKeyTemplateAttribute {
    fn try_clone(&self, alloc: Global) -> Result<PublicKeyTemplateAttribute, OutOfMemory> {
        Ok(PublicKeyTemplateAttribute(
            clone_optional(&self.0, alloc)?,
            clone_optional(&self.1, alloc)?,
        ))
    }
}

#[tactic(auto, unfolding(crate::specs::Tables::template_attribute))]
impl Item for PublicKeyTemplateAttribute {
    ghost shape = { template_attribute };

    ghost val = { public_key_template_attribute_val };

    fn fits(&self) {
        fits_record::<PublicKeyTemplateAttributeRows>(fields![&self.0, &self.1]);
    }

    ghost faithful = { public_key_template_attribute_same };
}

#[tactic(auto, unfolding(crate::specs::Tables::template_attribute))]
impl WriteItem for PublicKeyTemplateAttribute {
    fn wire_len(&self, _tag: Tag) -> Option<u64> {
        record_len::<PublicKeyTemplateAttributeRows>(fields![&self.0, &self.1])
    }

    fn write_into(&self, tag: Tag, out: &mut Buffer) {
        write_record::<PublicKeyTemplateAttributeRows>(fields![&self.0, &self.1], tag, out);
    }
}

#[tactic(auto, unfolding(crate::specs::Tables::template_attribute))]
impl ReadItem for PublicKeyTemplateAttribute {
    fn read(alloc: Global, outer: Outer<'_>, item: ItemRef<'_>) -> Result<Self, ReadError> {
        let fields![names, attributes] = read_record::<PublicKeyTemplateAttributeRows>(
            alloc, outer, item,
        )?;
        Ok(PublicKeyTemplateAttribute(names, attributes))
    }
}
