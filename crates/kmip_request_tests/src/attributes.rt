//! What the constructors make, each with its bytes in the notation.

use crate::support::{are, is_copied, text};
use kmip_enums::{LinkType, NameType, ObjectType};
use kmip_request::{
    Attribute, CommonTemplateAttribute, Name, PrivateKeyTemplateAttribute,
    PublicKeyTemplateAttribute, TemplateAttribute,
};
use kmip_shape::{WriteItem, to_blob};
use kmip_tags::tags::{
    ATTRIBUTE, COMMON_TEMPLATE_ATTRIBUTE, PRIVATE_KEY_TEMPLATE_ATTRIBUTE,
    PUBLIC_KEY_TEMPLATE_ATTRIBUTE, TEMPLATE_ATTRIBUTE,
};
use kmip_types::{
    ApplicationData, ApplicationNamespace, CryptographicAlgorithm, CryptographicParameters,
    CryptographicUsageMask, LinkedObjectIdentifier, NameValue, PaddingMethod,
};
use kmip_wire::{List, OutOfMemory, Tag};
use std::alloc::Global;
use std::process::Abort;

const UNIQUE_IDENTIFIER: &str = r#"08{0A "Unique Identifier",0B "k1"}"#;

const NAME: &str = r#"08{0A "Name",0B{55 "n",54 e1}}"#;

const URI: &str = r#"08{0A "Name",0B{55 "u:n",54 e2}}"#;

const OBJECT_TYPE: &str = r#"08{0A "Object Type",0B e4}"#;

const ALGORITHM: &str = r#"08{0A "Cryptographic Algorithm",0B e4}"#;

const LENGTH: &str = r#"08{0A "Cryptographic Length",0B i2048}"#;

const PARAMETERS: &str = r#"08{0A "Cryptographic Parameters",0B{5F eA}}"#;

const POLICY_NAME: &str = r#"08{0A "Operation Policy Name",0B "p"}"#;

const USAGE_MASK: &str = r#"08{0A "Cryptographic Usage Mask",0B i1}"#;

const ACTIVATION_DATE: &str = r#"08{0A "Activation Date",0B d5}"#;

// 08{0A "Object Group",0B "g"}
const OBJECT_GROUP: &str = concat!(
    "!420008010000002842000A070000000C4F626A6563742047726F757000000000",
    "42000B07000000016700000000000000",
);

const LINK: &str = r#"08{0A "Link",0B{4B e102,4C "k2"}}"#;

const APPLICATION: &str = r#"08{0A "Application Specific Information",0B{03 "ssl",02 "www"}}"#;

const CONTACT: &str = r#"08{0A "Contact Information",0B "Joe"}"#;

/// The value is written under the tag as these bytes.
fn is_written<T: WriteItem>(rt: &impl Abort, alloc: Global, value: &T, tag: u32, notation: &str) {
    let tag = Tag::new(tag).expect(rt, "a tag");
    let written = to_blob(alloc, value, tag).expect(rt, notation);
    are(rt, alloc, written.as_slice(), notation);
}

/// The attribute has no index and a copy that equals it, and is written as these bytes.
fn is_made(rt: &impl Abort, alloc: Global, made: Result<Attribute, OutOfMemory>, notation: &str) {
    let attribute = made.expect(rt, notation);
    assert!(rt; attribute.1.is_none(), "{notation}");
    is_copied::<Attribute>(rt, alloc, notation, &attribute);
    is_written::<Attribute>(rt, alloc, &attribute, ATTRIBUTE, notation);
    drop(attribute);
}

#[test]
fn attributes_of_a_text(rt: HostRuntime) {
    let alloc = rt.alloc();
    let made = Attribute::UniqueIdentifier(alloc, text(&rt, alloc, "k1"));
    is_made(&rt, alloc, made, UNIQUE_IDENTIFIER);
    let made = Attribute::Name(alloc, text(&rt, alloc, "n"));
    is_made(&rt, alloc, made, NAME);
    let made = Attribute::URI(alloc, text(&rt, alloc, "u:n"));
    is_made(&rt, alloc, made, URI);
    let made = Attribute::OperationPolicyName(alloc, text(&rt, alloc, "p"));
    is_made(&rt, alloc, made, POLICY_NAME);
    let made = Attribute::ObjectGroup(alloc, text(&rt, alloc, "g"));
    is_made(&rt, alloc, made, OBJECT_GROUP);
    let made = Attribute::ContactInformation(alloc, text(&rt, alloc, "Joe"));
    is_made(&rt, alloc, made, CONTACT);
}

#[test]
fn attributes_of_a_number(rt: HostRuntime) {
    let alloc = rt.alloc();
    let made = Attribute::ObjectType(alloc, ObjectType::PrivateKey);
    is_made(&rt, alloc, made, OBJECT_TYPE);
    let made = Attribute::CryptographicAlgorithm(alloc, CryptographicAlgorithm::RSA);
    is_made(&rt, alloc, made, ALGORITHM);
    let made = Attribute::CryptographicLength(alloc, 2048);
    is_made(&rt, alloc, made, LENGTH);
    let made = Attribute::CryptographicUsageMask(alloc, CryptographicUsageMask::Sign);
    is_made(&rt, alloc, made, USAGE_MASK);
    let made = Attribute::ActivationDate(alloc, 5);
    is_made(&rt, alloc, made, ACTIVATION_DATE);
}

#[test]
fn attributes_of_a_structure(rt: HostRuntime) {
    let alloc = rt.alloc();
    let parameters = CryptographicParameters::default().with_padding_method(PaddingMethod::PSS);
    let made = Attribute::CryptographicParameters(alloc, parameters);
    is_made(&rt, alloc, made, PARAMETERS);
    let linked = LinkedObjectIdentifier(text(&rt, alloc, "k2"));
    let made = Attribute::Link(alloc, LinkType::PublicKeyLink, linked);
    is_made(&rt, alloc, made, LINK);
    let namespace = ApplicationNamespace(text(&rt, alloc, "ssl"));
    let data = ApplicationData(text(&rt, alloc, "www"));
    let made = Attribute::ApplicationSpecificInformation(alloc, namespace, data);
    is_made(&rt, alloc, made, APPLICATION);
}

/// What was made is written under the tag as these bytes.
fn is_named<T: WriteItem + Drop>(
    rt: &impl Abort,
    alloc: Global,
    made: Result<T, OutOfMemory>,
    tag: u32,
    notation: &str,
) {
    let template = made.expect(rt, notation);
    is_written::<T>(rt, alloc, &template, tag, notation);
}

#[test]
fn templates_of_a_name(rt: HostRuntime) {
    let alloc = rt.alloc();
    let made = TemplateAttribute::named(alloc, text(&rt, alloc, "t"), List::new(alloc));
    is_named(
        &rt,
        alloc,
        made,
        TEMPLATE_ATTRIBUTE,
        r#"91{53{55 "t",54 e1}}"#,
    );
    let made = CommonTemplateAttribute::named(alloc, text(&rt, alloc, "t"), List::new(alloc));
    is_named(
        &rt,
        alloc,
        made,
        COMMON_TEMPLATE_ATTRIBUTE,
        r#"1F{53{55 "t",54 e1}}"#,
    );
    let made = PrivateKeyTemplateAttribute::named(alloc, text(&rt, alloc, "t"), List::new(alloc));
    is_named(
        &rt,
        alloc,
        made,
        PRIVATE_KEY_TEMPLATE_ATTRIBUTE,
        r#"65{53{55 "t",54 e1}}"#,
    );
    let made = PublicKeyTemplateAttribute::named(alloc, text(&rt, alloc, "t"), List::new(alloc));
    is_named(
        &rt,
        alloc,
        made,
        PUBLIC_KEY_TEMPLATE_ATTRIBUTE,
        r#"6E{53{55 "t",54 e1}}"#,
    );
}

#[test]
fn display_of_a_name(rt: HostRuntime) {
    let alloc = rt.alloc();
    let name = Name(NameValue(text(&rt, alloc, "my key")), NameType::URI);
    let printed = format!(in alloc; "{name}").expect(&rt, "memory");
    assert!(&rt; printed.as_str() == "my key");
}
