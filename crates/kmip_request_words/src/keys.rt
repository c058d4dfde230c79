//! What the words of the calls that make or register keys ask for.
ghost use Rattle.std.specs.Prelude.{◌≡◌, ◌++◌, codes, map, option_map, IfOk};
ghost use Rattle.kmip_types.specs.UsageMask.{usage_bits};
ghost use Rattle.kmip_request.specs.Requests.{pair_attributes};
ghost use Rattle.kmip_request_words.specs.Keys as keys;
ghost use Rattle.kmip_request_words.specs.Options.{value_given};

use crate::coded::{ALGORITHMS, FORMATS, coded_required, variant_named};
use crate::given::text_given;
use crate::options::{are_options, value_given};
use crate::values::{bytes_of, int_of, word_text};
use crate::words::parts_between;
use bitflags::Flags;
use kmip_enums::ObjectType;
use kmip_request::{
    Attribute, CommonTemplateAttribute, KeyBlock, KeyValue, ManagedObject, PrivateKey,
    PrivateKeyTemplateAttribute, PublicKey, PublicKeyTemplateAttribute, RequestPayload,
    SymmetricKey, TemplateAttribute,
};
use kmip_types::{
    CryptographicAlgorithm, CryptographicLength, CryptographicUsageMask, KeyMaterial,
};
use kmip_wire::{Blob, Boxed, List, OutOfMemory, Text};
use std::alloc::Global;

/// The uses Encrypt and Decrypt: KMIP 1.0, 9.1.3.3.1.
const ENCRYPT_AND_DECRYPT: u32 = 0xC;

/// The use Sign.
const SIGN: u32 = 0x1;

/// The use Verify.
const VERIFY: u32 = 0x2;

/// The name of a use as the table writes it: OASIS writes three of them in capitals.
pub fn table_name(name: &str) -> &str
    ensures { result.now ≡ keys.table_name name.now }
{
    match name {
        "MACGenerate" => "MacGenerate",
        "MACVerify" => "MacVerify",
        "CRLSign" => "CrlSign",
        _ => name,
    }
}

/// The uses of these names together; `None` where one is no name of a use.
fn uses_of(names: &[&str]) -> Option<CryptographicUsageMask>
    ensures { option_map usage_bits result ≡ keys.uses_of (map (λ name. name.now) names.now) }
{
    match names {
        [] => Some(CryptographicUsageMask::from_bits_retain(0)),
        [first, rest @ ..] => {
            let one = CryptographicUsageMask::from_name(table_name(first))?;
            let mut uses = uses_of(rest)?;
            uses.insert(one);
            Some(uses)
        }
    }
}

/// The uses that words give to an option, with `,` between two, and else these.
fn uses_or(
    alloc: Global,
    usual: u32,
    option: &str,
    words: &[Text],
) -> Result<Option<CryptographicUsageMask>, OutOfMemory>
    ensures { IfOk result (λ uses. option_map usage_bits uses ≡
        keys.uses_or usual (value_given option.now words.now)) }
{
    match value_given(option, words) {
        Some(value) => {
            let names = parts_between(alloc, ',', value)?;
            Ok(uses_of(&names))
        }
        None => Ok(Some(CryptographicUsageMask::from_bits_retain(usual))),
    }
}

/// The attributes of a key: its name by a word, and its uses by an option, or else these.
fn key_given(
    alloc: Global,
    name: &str,
    usual: u32,
    option: &str,
    words: &[Text],
) -> Result<Option<List<Attribute>>, OutOfMemory>
    ensures { IfOk result (λ made. made ≡
        keys.key_given name.now usual (value_given option.now words.now)) }
{
    let Some(name) = word_text(alloc, name)? else {
        return Ok(None);
    };
    let Some(uses) = uses_or(alloc, usual, option, words)? else {
        return Ok(None);
    };
    let mut attributes = List::new(alloc);
    attributes.push(Attribute::Name(alloc, name)?)?;
    attributes.push(Attribute::CryptographicUsageMask(alloc, uses)?)?;
    Ok(Some(attributes))
}

/// Adds the algorithm and the length of a key to its attributes.
#[tactic(auto, using(std::proofs::lemmas::List::append_assoc))]
fn with_algorithm(
    alloc: Global,
    attributes: List<Attribute>,
    algorithm: CryptographicAlgorithm,
    key_length: i32,
) -> Result<List<Attribute>, OutOfMemory>
    ensures { IfOk result
        (λ made. made ≡ attributes ++ keys.cryptographic_attributes algorithm key_length) }
{
    let mut attributes = attributes;
    attributes.push(Attribute::CryptographicAlgorithm(alloc, algorithm)?)?;
    attributes.push(Attribute::CryptographicLength(alloc, key_length)?)?;
    Ok(attributes)
}

/// `create ALGORITHM BITS NAME`, with `usage=`: KMIP 1.0, 4.1.
#[tactic(auto, unfolding(crate::specs::Keys::create_asked))]
fn create_asked(alloc: Global, words: &[Text]) -> Result<Option<RequestPayload>, OutOfMemory>
    ensures { IfOk result (λ made. made ≡ keys.create_asked words.now) }
{
    let [algorithm, key_length, name, options @ ..] = words else {
        return Ok(None);
    };
    if !are_options(&["usage="], options) {
        return Ok(None);
    }
    let Some(algorithm) = variant_named(ALGORITHMS, algorithm.as_str()) else {
        return Ok(None);
    };
    let Some(key_length) = int_of(key_length.as_str()) else {
        return Ok(None);
    };
    let name = name.as_str();
    let Some(key) = key_given(alloc, name, ENCRYPT_AND_DECRYPT, "usage=", options)? else {
        return Ok(None);
    };
    let attributes = with_algorithm(alloc, key, algorithm, key_length)?;
    let template = TemplateAttribute::unnamed(attributes);
    Ok(Some(RequestPayload::Create(ObjectType::SymmetricKey, template)))
}

/// The attributes of both keys of an RSA pair.
fn pair_attributes(alloc: Global, key_length: i32) -> Result<List<Attribute>, OutOfMemory>
    ensures { IfOk result (λ made. made ≡ pair_attributes key_length) }
{
    let mut attributes = List::new(alloc);
    attributes.push(Attribute::CryptographicAlgorithm(alloc, CryptographicAlgorithm::RSA)?)?;
    attributes.push(Attribute::CryptographicLength(alloc, key_length)?)?;
    Ok(attributes)
}

/// `create-rsa BITS PRIVATE PUBLIC`, with `private-usage=` and `public-usage=`: KMIP 1.0, 4.2.
#[tactic(auto, unfolding(crate::specs::Keys::create_pair_asked))]
fn create_pair_asked(alloc: Global, words: &[Text]) -> Result<Option<RequestPayload>, OutOfMemory>
    ensures { IfOk result (λ made. made ≡ keys.create_pair_asked words.now) }
{
    let [key_length, private, public, options @ ..] = words else {
        return Ok(None);
    };
    if !are_options(&["private-usage=", "public-usage="], options) {
        return Ok(None);
    }
    let Some(key_length) = int_of(key_length.as_str()) else {
        return Ok(None);
    };
    let private = private.as_str();
    let Some(private) = key_given(alloc, private, SIGN, "private-usage=", options)? else {
        return Ok(None);
    };
    let public = public.as_str();
    let Some(public) = key_given(alloc, public, VERIFY, "public-usage=", options)? else {
        return Ok(None);
    };
    let both = pair_attributes(alloc, key_length)?;
    Ok(Some(RequestPayload::CreateKeyPair(
        Some(CommonTemplateAttribute::unnamed(both)),
        Some(PrivateKeyTemplateAttribute::unnamed(private)),
        Some(PublicKeyTemplateAttribute::unnamed(public)),
    )))
}

/// The block of a key of these bytes.
fn key_block_of(options: &[Text], bytes: Blob) -> Option<KeyBlock>
    ensures { result ≡ keys.key_block_of options.now bytes }
{
    let format = coded_required("format=", FORMATS, options)?;
    let algorithm = coded_required("algorithm=", ALGORITHMS, options)?;
    let length = CryptographicLength(int_of(value_given("length=", options)?)?);
    let value = KeyValue(KeyMaterial::Bytes(bytes), None);
    Some(KeyBlock(
        format,
        None,
        Some(value),
        Some(algorithm),
        Some(length),
        None,
    ))
}

/// The block of a key that is registered.
#[tactic(auto, unfolding(crate::specs::Keys::key_block_given))]
fn key_block_given(
    alloc: Global,
    word: &str,
    options: &[Text],
) -> Result<Option<KeyBlock>, OutOfMemory>
    ensures { IfOk result (λ block. block ≡ keys.key_block_given word.now options.now) }
{
    match bytes_of(alloc, word)? {
        Some(bytes) => Ok(key_block_of(options, bytes)),
        None => Ok(None),
    }
}

/// The attribute of the uses that are given, where they are.
fn uses_given(alloc: Global, words: &[Text]) -> Result<Option<List<Attribute>>, OutOfMemory>
    ensures { IfOk result
        (λ made. made ≡ keys.uses_given (value_given (codes "usage=") words.now)) }
{
    let mut attributes = List::new(alloc);
    let Some(value) = value_given("usage=", words) else {
        return Ok(Some(attributes));
    };
    let names = parts_between(alloc, ',', value)?;
    let Some(uses) = uses_of(&names) else {
        return Ok(None);
    };
    attributes.push(Attribute::CryptographicUsageMask(alloc, uses)?)?;
    Ok(Some(attributes))
}

/// The attributes of a key that is registered.
#[tactic(auto, unfolding(crate::specs::Keys::attributes_given))]
fn attributes_given(alloc: Global, words: &[Text]) -> Result<Option<List<Attribute>>, OutOfMemory>
    ensures { IfOk result (λ made. made ≡ keys.attributes_given words.now) }
{
    let Some(mut attributes) = uses_given(alloc, words)? else {
        return Ok(None);
    };
    match text_given(alloc, "name=", words)? {
        Some(Some(name)) => {
            attributes.push(Attribute::Name(alloc, name)?)?;
            Ok(Some(attributes))
        }
        Some(None) => Ok(Some(attributes)),
        None => Ok(None),
    }
}

/// The object of a kind with this key block, and its type.
#[tactic(auto, unfolding(crate::specs::Keys::object_of))]
fn object_of(
    alloc: Global,
    kind: &str,
    block: KeyBlock,
) -> Result<Option<(ObjectType, ManagedObject)>, OutOfMemory>
    ensures { IfOk result (λ made. made ≡ keys.object_of kind.now block) }
{
    let block = Boxed::new(alloc, block)?;
    match kind {
        "public" => {
            let object = ManagedObject::PublicKey(PublicKey(block));
            Ok(Some((ObjectType::PublicKey, object)))
        }
        "private" => {
            let object = ManagedObject::PrivateKey(PrivateKey(block));
            Ok(Some((ObjectType::PrivateKey, object)))
        }
        "symmetric" => {
            let object = ManagedObject::SymmetricKey(SymmetricKey(block));
            Ok(Some((ObjectType::SymmetricKey, object)))
        }
        _ => Ok(None),
    }
}

/// Whether these are options of `register`.
#[tactic(auto, unfolding(crate::specs::Keys::are_register_options))]
fn are_register_options(options: &[Text]) -> bool
    ensures { result ≡ keys.are_register_options options.now }
{
    let names = ["format=", "algorithm=", "length=", "usage=", "name="];
    are_options(&names, options)
}

/// `register KIND HEX`, with `format=`, `algorithm=`, `length=`, `usage=` and `name=`: KMIP 1.0,
/// 4.3.
#[tactic(auto, unfolding(crate::specs::Keys::register_asked))]
fn register_asked(alloc: Global, words: &[Text]) -> Result<Option<RequestPayload>, OutOfMemory>
    ensures { IfOk result (λ made. made ≡ keys.register_asked words.now) }
{
    let [kind, bytes, options @ ..] = words else {
        return Ok(None);
    };
    if !are_register_options(options) {
        return Ok(None);
    }
    let Some(block) = key_block_given(alloc, bytes.as_str(), options)? else {
        return Ok(None);
    };
    let Some(attributes) = attributes_given(alloc, options)? else {
        return Ok(None);
    };
    let Some((object_type, object)) = object_of(alloc, kind.as_str(), block)? else {
        return Ok(None);
    };
    let template = TemplateAttribute::unnamed(attributes);
    Ok(Some(RequestPayload::Register(object_type, template, Some(object))))
}

/// The calls that make or register keys.
pub fn key_asked(
    alloc: Global,
    name: &str,
    words: &[Text],
) -> Result<Option<RequestPayload>, OutOfMemory>
    ensures { IfOk result (λ made. made ≡ keys.key_asked name.now words.now) }
{
    match name {
        "create" => create_asked(alloc, words),
        "create-rsa" => create_pair_asked(alloc, words),
        "register" => register_asked(alloc, words),
        _ => Ok(None),
    }
}
