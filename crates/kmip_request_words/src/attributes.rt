//! Attributes by words, as `name=k1` and `length=256`.
ghost use Rattle.std.specs.Prelude.{◌≡◌, codes, map, option_map, IfOk};
ghost use Rattle.kmip_types.specs.declared.attribute_value.AttributeValue.TheVariants as values;
ghost use Rattle.kmip_request.specs.Constructors.{attribute_of};
ghost use Rattle.kmip_enums.specs.ObjectTypes.{object_type_line, object_type_variants};
ghost use Rattle.kmip_enums.specs.States.{state_line, state_variants};
ghost use Rattle.kmip_types.specs.CryptographicAlgorithms.{cryptographic_algorithm_line};
ghost use Rattle.kmip_types.specs.CryptographicAlgorithms.{cryptographic_algorithm_variants};
ghost use Rattle.kmip_request_words.specs.Coded.{variant_named};
ghost use Rattle.kmip_request_words.specs.Values.{int_of, long_of, word_text};
ghost use Rattle.kmip_request_words.specs.Attributes.{text_attribute, attribute_given, attribute_of_parts};
ghost use Rattle.kmip_request_words.specs.Attributes.{attribute_in, attribute_name, all_of};

use crate::coded::{ALGORITHMS, variant_named};
use crate::values::{int_of, long_of, word_text};
use crate::words::parts_between;
use kmip_enums::{ObjectType, State};
use kmip_request::Attribute;
use kmip_types::{AttributeName, AttributeValue};
use kmip_wire::{List, OutOfMemory, Text};
use std::alloc::Global;

/// The types of objects: KMIP 1.0, 9.1.3.2.11.
pub const OBJECT_TYPES: &[ObjectType] = &[
    ObjectType::Certificate,
    ObjectType::SymmetricKey,
    ObjectType::PublicKey,
    ObjectType::PrivateKey,
    ObjectType::SplitKey,
    ObjectType::Template,
    ObjectType::SecretData,
    ObjectType::OpaqueObject,
    ObjectType::PGPKey,
];

/// The states of objects: KMIP 1.0, 9.1.3.2.17.
pub const STATES: &[State] = &[
    State::PreActive,
    State::Active,
    State::Deactivated,
    State::Compromised,
    State::Destroyed,
    State::DestroyedCompromised,
];

/// The attribute of an option whose value is a text.
fn text_attribute(
    alloc: Global,
    option: &str,
    value: &str,
) -> Result<Option<Attribute>, OutOfMemory>
    ensures { IfOk result (λ made. made ≡ text_attribute option.now (word_text value.now)) }
{
    let Some(text) = word_text(alloc, value)? else {
        return Ok(None);
    };
    match option {
        "name" => Ok(Some(Attribute::Name(alloc, text)?)),
        "group" => Ok(Some(Attribute::ObjectGroup(alloc, text)?)),
        "contact" => Ok(Some(Attribute::ContactInformation(alloc, text)?)),
        _ => Ok(None),
    }
}

/// `type=`, with the name of a type of objects.
fn type_attribute(alloc: Global, value: &str) -> Result<Option<Attribute>, OutOfMemory>
    ensures { IfOk result (λ made. made ≡
        option_map (λ type. attribute_of (codes "Object Type") (values.ObjectType type))
        (variant_named object_type_line object_type_variants value.now)) }
{
    match variant_named(OBJECT_TYPES, value) {
        Some(object_type) => Ok(Some(Attribute::ObjectType(alloc, object_type)?)),
        None => Ok(None),
    }
}

/// `state=`, with the name of a state.
fn state_attribute(alloc: Global, value: &str) -> Result<Option<Attribute>, OutOfMemory>
    ensures { IfOk result (λ made. made ≡
        option_map (λ state. attribute_of (codes "State") (values.State state))
        (variant_named state_line state_variants value.now)) }
{
    match variant_named(STATES, value) {
        Some(state) => {
            let name = AttributeName(Text::of(alloc, "State")?);
            Ok(Some(Attribute(name, None, AttributeValue::State(state))))
        }
        None => Ok(None),
    }
}

/// `algorithm=`, with the name of an algorithm.
fn algorithm_attribute(alloc: Global, value: &str) -> Result<Option<Attribute>, OutOfMemory>
    ensures { IfOk result (λ made. made ≡
        option_map
        (λ x. attribute_of (codes "Cryptographic Algorithm") (values.CryptographicAlgorithm x))
        (variant_named cryptographic_algorithm_line cryptographic_algorithm_variants value.now)) }
{
    match variant_named(ALGORITHMS, value) {
        Some(algorithm) => Ok(Some(Attribute::CryptographicAlgorithm(alloc, algorithm)?)),
        None => Ok(None),
    }
}

/// `length=`, with a number of bits.
fn length_attribute(alloc: Global, value: &str) -> Result<Option<Attribute>, OutOfMemory>
    ensures { IfOk result (λ made. made ≡
        option_map (λ z. attribute_of (codes "Cryptographic Length") (values.Integer z))
        (int_of value.now)) }
{
    match int_of(value) {
        Some(length) => Ok(Some(Attribute::CryptographicLength(alloc, length)?)),
        None => Ok(None),
    }
}

/// `activation=`, with a date in seconds since 1970-01-01 UTC.
fn activation_attribute(alloc: Global, value: &str) -> Result<Option<Attribute>, OutOfMemory>
    ensures { IfOk result (λ made. made ≡
        option_map (λ n. attribute_of (codes "Activation Date") (values.DateTime n))
        (long_of value.now)) }
{
    match long_of(value) {
        Some(date) => Ok(Some(Attribute::ActivationDate(alloc, date)?)),
        None => Ok(None),
    }
}

/// The attribute that an option and its value give.
fn attribute_given(
    alloc: Global,
    option: &str,
    value: &str,
) -> Result<Option<Attribute>, OutOfMemory>
    ensures { IfOk result (λ made. made ≡ attribute_given option.now value.now) }
{
    match option {
        "type" => type_attribute(alloc, value),
        "state" => state_attribute(alloc, value),
        "algorithm" => algorithm_attribute(alloc, value),
        "length" => length_attribute(alloc, value),
        "activation" => activation_attribute(alloc, value),
        _ => text_attribute(alloc, option, value),
    }
}

/// The attribute of the parts of a word.
fn attribute_of_parts(alloc: Global, parts: &[&str]) -> Result<Option<Attribute>, OutOfMemory>
    ensures { IfOk result
        (λ made. made ≡ attribute_of_parts (map (λ part. part.now) parts.now)) }
{
    match parts {
        [option, value] => attribute_given(alloc, option, value),
        _ => Ok(None),
    }
}

/// The attribute of a word, as `name=TEXT`; `None` where the word is no option of an attribute, or
/// its value is none of the attribute's.
#[tactic(auto, unfolding(crate::specs::Attributes::attribute_in))]
pub fn attribute_in(alloc: Global, word: &str) -> Result<Option<Attribute>, OutOfMemory>
    ensures { IfOk result (λ made. made ≡ attribute_in word.now) }
{
    let parts = parts_between(alloc, '=', word)?;
    attribute_of_parts(alloc, &parts)
}

/// The attributes of words, in order; `None` where one gives none.
pub fn attributes_in(alloc: Global, words: &[Text]) -> Result<Option<List<Attribute>>, OutOfMemory>
    ensures { IfOk result (λ made. made ≡ all_of attribute_in words.now) }
{
    let mut attributes = List::new(alloc);
    for word in words {
        match attribute_in(alloc, word.as_str())? {
            Some(attribute) => attributes.push(attribute)?,
            None => return Ok(None),
        }
    }
    Ok(Some(attributes))
}

/// The name of an attribute; `None` where the word is no text.
pub fn attribute_name(alloc: Global, word: &str) -> Result<Option<AttributeName>, OutOfMemory>
    ensures { IfOk result (λ name. name ≡ attribute_name word.now) }
{
    match word_text(alloc, word)? {
        Some(name) => Ok(Some(AttributeName(name))),
        None => Ok(None),
    }
}

/// The names of attributes that words give, in order; `None` where one is no text.
pub fn names_in(alloc: Global, words: &[Text]) -> Result<Option<List<AttributeName>>, OutOfMemory>
    ensures { IfOk result (λ made. made ≡
        all_of attribute_name words.now) }
{
    let mut names = List::new(alloc);
    for word in words {
        match attribute_name(alloc, word.as_str())? {
            Some(name) => names.push(name)?,
            None => return Ok(None),
        }
    }
    Ok(Some(names))
}
