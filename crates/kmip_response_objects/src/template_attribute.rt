//! Template-Attributes, which hold attributes of new objects.

ghost use Rattle.std.specs.Prelude.{◌≡◌};
ghost use Rattle.kmip_tags.specs.Tags as tags;
ghost use Rattle.kmip_response_objects.specs.Tables.{name, template_attribute};
ghost use Rattle.kmip_response_objects.specs.Values.{template_attribute_val};
ghost use Rattle.kmip_response_objects.specs.Same.{template_attribute_same};

use crate::attribute::Attribute;
use crate::name::Name;
use kmip_shape::record::{End, Row};
use kmip_shape::row_readers::OptMany;
use kmip_shape::{
    Item, Outer, ReadError, ReadItem, ReadRoot, ShowItem, TextWriter, WriteItem, fields,
    fits_record, read_record, record_len, show_record, write_record,
};
use kmip_tags::tags::{ATTRIBUTE, NAME, TEMPLATE_ATTRIBUTE};
use kmip_wire::{Buffer, ItemRef, List, OutOfMemory, Tag, TryClone, clone_optional};
use std::alloc::Global;

/// A Template-Attribute: attributes, and names of templates that hold more: KMIP 1.0, 2.1.8.
#[derive(PartialEq, Eq, Drop)]
pub struct TemplateAttribute {
    /// The names of templates, whose attributes belong to it too: KMIP 1.0, 3.2.
    pub name: Option<List<Name>>,
    /// The attributes that stand in it: KMIP 1.0, 2.1.1.
    pub attributes: Option<List<Attribute>>,
}

type TemplateAttributeRows = Row<OptMany<Name, NAME>, Row<OptMany<Attribute, ATTRIBUTE>, End>>;

impl TryClone for TemplateAttribute {
    fn try_clone(&self, alloc: Global) -> Result<TemplateAttribute, OutOfMemory> {
        Ok(TemplateAttribute {
            name: clone_optional(&self.name, alloc)?,
            attributes: clone_optional(&self.attributes, alloc)?,
        })
    }
}

impl Item for TemplateAttribute {
    ghost shape = { template_attribute };

    ghost val = { template_attribute_val };

    fn fits(&self) {
        fits_record::<TemplateAttributeRows>(fields![&self.name, &self.attributes]);
    }

    ghost faithful = { template_attribute_same };
}

impl WriteItem for TemplateAttribute {
    fn wire_len(&self, _tag: Tag) -> Option<u64> {
        record_len::<TemplateAttributeRows>(fields![&self.name, &self.attributes])
    }

    fn write_into(&self, tag: Tag, out: &mut Buffer) {
        write_record::<TemplateAttributeRows>(fields![&self.name, &self.attributes], tag, out);
    }
}

impl ReadItem for TemplateAttribute {
    fn read(alloc: Global, outer: Outer<'_>, item: ItemRef<'_>) -> Result<Self, ReadError> {
        let fields![name, attributes] = read_record::<TemplateAttributeRows>(alloc, outer, item)?;
        Ok(TemplateAttribute { name, attributes })
    }
}

impl ReadRoot for TemplateAttribute {
    ghost root_tag = { tags.TEMPLATE_ATTRIBUTE };

    fn root_tag() -> Tag {
        Tag::of(TEMPLATE_ATTRIBUTE)
    }
}

impl ShowItem for TemplateAttribute {
    fn show_into(&self, out: &mut TextWriter) {
        show_record::<TemplateAttributeRows>(
            fields![&self.name, &self.attributes],
            fields!["name", "attributes"],
            out,
        );
    }
}
