// Written by tables/generate.py from tables/*.toml: change these instead.
//! The tags under which the values of attributes stand, by the attributes' names.
ghost use Rattle.std.specs.Prelude.{◌≡◌};
ghost use Rattle.kmip_encodings.specs.Attributes.{attribute_tag};

use kmip_tags::tags;
use kmip_wire::Tag;

/// The tag of the enumeration of the attribute's values; Attribute Value where it has none.
pub fn attribute_tag(name: &str) -> Tag
    ensures { result ≡ attribute_tag name.now }
{
    match name {
        "Certificate Type" => Tag::of(tags::CERTIFICATE_TYPE),
        "Cryptographic Algorithm" => Tag::of(tags::CRYPTOGRAPHIC_ALGORITHM),
        "Cryptographic Usage Mask" => Tag::of(tags::CRYPTOGRAPHIC_USAGE_MASK),
        "Digital Signature Algorithm" => Tag::of(tags::DIGITAL_SIGNATURE_ALGORITHM),
        "Object Type" => Tag::of(tags::OBJECT_TYPE),
        "State" => Tag::of(tags::STATE),
        _ => Tag::of(tags::ATTRIBUTE_VALUE),
    }
}
