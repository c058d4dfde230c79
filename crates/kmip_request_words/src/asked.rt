//! What words with options ask for.
//!
//! An option is a word `name=VALUE`, or the word `prehashed`. The options of a call stand after its
//! other words, in any order, each at most once; but `locate` takes attributes any number of times.
ghost use Rattle.std.specs.Prelude.{◌≡◌, option_map, IfOk};
ghost use Rattle.kmip_request.specs.declared.payload.RequestPayload.{RequestPayload as Payload};
ghost use Rattle.kmip_request_words.specs.Attributes.{attribute_in, attribute_name, all_of};
ghost use Rattle.kmip_request_words.specs.Options.{value_given};
ghost use Rattle.kmip_request_words.specs.Given as given;
ghost use Rattle.kmip_request_words.specs.Asked as asked;

use crate::attributes::{attribute_in, attribute_name, attributes_in, names_in};
use crate::coded::{ALGORITHMS, FORMATS, coded_given};
use crate::given::text_given;
use crate::keys::key_asked;
use crate::options::{are_options, value_given};
use crate::values::{bytes_of, int_of, long_of, word_text};
use kmip_enums::RevocationReasonCode;
use kmip_request::{
    Attribute, EncryptionKeyInformation, KeyWrappingSpecification, RequestPayload, RevocationReason,
};
use kmip_types::{
    AttributeIndex, BlockCipherMode, CompromiseOccurrenceDate, CryptographicAlgorithm,
    CryptographicParameters, Data, HashingAlgorithm, KeyFormatType, PaddingMethod,
    RevocationMessage, UniqueIdentifier, WrappingMethod,
};
use kmip_wire::{Boxed, OutOfMemory, Text};
use std::alloc::Global;

/// The hashing algorithms: KMIP 1.0, 9.1.3.2.15.
pub const HASHES: &[HashingAlgorithm] = &[
    HashingAlgorithm::MD2,
    HashingAlgorithm::MD4,
    HashingAlgorithm::MD5,
    HashingAlgorithm::SHA1,
    HashingAlgorithm::SHA224,
    HashingAlgorithm::SHA256,
    HashingAlgorithm::SHA384,
    HashingAlgorithm::SHA512,
    HashingAlgorithm::RIPEMD160,
    HashingAlgorithm::Tiger,
    HashingAlgorithm::Whirlpool,
];

/// The padding methods: KMIP 1.0, 9.1.3.2.14.
pub const PADDINGS: &[PaddingMethod] = &[
    PaddingMethod::None,
    PaddingMethod::OAEP,
    PaddingMethod::PKCS5,
    PaddingMethod::SSL3,
    PaddingMethod::Zeros,
    PaddingMethod::ANSI_X9_23,
    PaddingMethod::ISO_10126,
    PaddingMethod::PKCS1_v1_5,
    PaddingMethod::X9_31,
    PaddingMethod::PSS,
];

/// The reasons for a revocation: KMIP 1.0, 9.1.3.2.18.
pub const REASONS: &[RevocationReasonCode] = &[
    RevocationReasonCode::Unspecified,
    RevocationReasonCode::KeyCompromise,
    RevocationReasonCode::CACompromise,
    RevocationReasonCode::AffiliationChanged,
    RevocationReasonCode::Superseded,
    RevocationReasonCode::CessationOfOperation,
    RevocationReasonCode::PrivilegeWithdrawn,
];

/// The date of a compromise, in seconds since 1970-01-01 UTC, where words give one; `None` where it
/// is no number from 0 to 2^63 - 1.
fn since_given(words: &[Text]) -> Option<Option<CompromiseOccurrenceDate>>
    ensures { result ≡ asked.since_given words.now }
{
    match value_given("since=", words) {
        Some(value) => { Some(Some(CompromiseOccurrenceDate(long_of(value)?))) }
        None => Some(None),
    }
}

/// The index that words give to an option, where they do; `None` where it is no `i32`.
fn index_given(option: &str, words: &[Text]) -> Option<Option<AttributeIndex>>
    ensures { result ≡ option_map (option_map (λ z. record { 0 = z }))
        (given.number_given (value_given option.now words.now)) }
{
    match value_given(option, words) {
        Some(value) => Some(Some(AttributeIndex(int_of(value)?))),
        None => Some(None),
    }
}

/// The digest that is asked for where no option names one.
fn usual_hash(prehashed: Option<&str>) -> Option<Option<HashingAlgorithm>>
    ensures { result ≡
        asked.usual_hash (option_map (λ value. value.now) prehashed.entry) }
{
    match prehashed {
        None => Some(Some(HashingAlgorithm::SHA256)),
        Some("") => Some(None),
        Some(_) => None,
    }
}

/// The digest of a signature.
fn hash_given(words: &[Text]) -> Option<Option<HashingAlgorithm>>
    ensures { result ≡ asked.hash_given words.now }
{
    let usual = usual_hash(value_given("prehashed", words))?;
    coded_given("hash=", HASHES, usual, words)
}

/// The padding of a signature.
fn padding_given(words: &[Text]) -> Option<Option<PaddingMethod>>
    ensures { result ≡ asked.padding_given words.now }
{
    coded_given("padding=", PADDINGS, Some(PaddingMethod::PKCS1_v1_5), words)
}

/// The algorithm of a signature.
fn algorithm_given(words: &[Text]) -> Option<Option<CryptographicAlgorithm>>
    ensures { result ≡ asked.algorithm_given words.now }
{
    coded_given(
        "algorithm=",
        ALGORITHMS,
        Some(CryptographicAlgorithm::RSA),
        words,
    )
}

/// The parameters of a signature.
fn parameters_given(words: &[Text]) -> Option<CryptographicParameters>
    ensures { result ≡ asked.parameters_given words.now }
{
    if !are_options(&["hash=", "padding=", "algorithm=", "prehashed"], words) {
        return None;
    }
    let hashing_algorithm = hash_given(words)?;
    let padding_method = padding_given(words)?;
    let cryptographic_algorithm = algorithm_given(words)?;
    Some(CryptographicParameters {
        padding_method,
        hashing_algorithm,
        cryptographic_algorithm,
        ..CryptographicParameters::default()
    })
}

/// `sign ID HEX` with options: KMIP 1.2, 4.31.
fn sign_asked(alloc: Global, words: &[Text]) -> Result<Option<RequestPayload>, OutOfMemory>
    ensures { IfOk result (λ made. made ≡ asked.sign_asked words.now) }
{
    let [id, bytes, options @ ..] = words else {
        return Ok(None);
    };
    let Some(id) = word_text(alloc, id.as_str())? else {
        return Ok(None);
    };
    let Some(bytes) = bytes_of(alloc, bytes.as_str())? else {
        return Ok(None);
    };
    let Some(parameters) = parameters_given(options) else {
        return Ok(None);
    };
    let id = Some(UniqueIdentifier(id));
    Ok(Some(RequestPayload::Sign(id, Some(parameters), Data(bytes))))
}

/// The reason for a revocation.
fn reason_given(words: &[Text]) -> Option<Option<RevocationReasonCode>>
    ensures { result ≡ asked.reason_given words.now }
{
    let usual = Some(RevocationReasonCode::CessationOfOperation);
    coded_given("reason=", REASONS, usual, words)
}

/// The message of a revocation.
fn message_of(text: Option<Text>) -> Option<RevocationMessage>
    ensures { result ≡ option_map (λ text. record { 0 = text }) text }
{
    match text {
        Some(text) => Some(RevocationMessage(text)),
        None => None,
    }
}

/// The reason for a revocation, with its message.
fn revocation_given(alloc: Global, words: &[Text]) -> Result<Option<RevocationReason>, OutOfMemory>
    ensures { IfOk result (λ reason. reason ≡ asked.revocation_given words.now) }
{
    let Some(Some(code)) = reason_given(words) else {
        return Ok(None);
    };
    match text_given(alloc, "message=", words)? {
        Some(message) => Ok(Some(RevocationReason(code, message_of(message)))),
        None => Ok(None),
    }
}

/// `revoke ID` with options: KMIP 1.0, 4.19.
fn revoke_asked(alloc: Global, words: &[Text]) -> Result<Option<RequestPayload>, OutOfMemory>
    ensures { IfOk result (λ made. made ≡ asked.revoke_asked words.now) }
{
    let [id, options @ ..] = words else {
        return Ok(None);
    };
    if !are_options(&["reason=", "message=", "since="], options) {
        return Ok(None);
    }
    let Some(id) = word_text(alloc, id.as_str())? else {
        return Ok(None);
    };
    let Some(reason) = revocation_given(alloc, options)? else {
        return Ok(None);
    };
    let Some(since) = since_given(options) else {
        return Ok(None);
    };
    Ok(Some(RequestPayload::Revoke(Some(UniqueIdentifier(id)), reason, since)))
}

/// That an object is to be wrapped under the key with this identifier, by AES Key Wrap.
fn wrapped_under(
    alloc: Global,
    id: Option<Text>,
) -> Result<Option<Boxed<KeyWrappingSpecification>>, OutOfMemory>
    ensures { IfOk result (λ made. made ≡ option_map asked.wrapped_under id) }
{
    let Some(id) = id else {
        return Ok(None);
    };
    let parameters = CryptographicParameters::default().with_block_cipher_mode(
        BlockCipherMode::NISTKeyWrap,
    );
    let key = EncryptionKeyInformation(UniqueIdentifier(id), Some(parameters));
    let specification = KeyWrappingSpecification(WrappingMethod::Encrypt, Some(key), None, None);
    Ok(Some(Boxed::new(alloc, specification)?))
}

/// The format of an object.
fn format_given(words: &[Text]) -> Option<Option<KeyFormatType>>
    ensures { result ≡ asked.format_given words.now }
{
    coded_given("format=", FORMATS, None, words)
}

/// `get ID` with options: KMIP 1.0, 4.10.
fn get_asked(alloc: Global, words: &[Text]) -> Result<Option<RequestPayload>, OutOfMemory>
    ensures { IfOk result (λ made. made ≡ asked.get_asked words.now) }
{
    let [id, options @ ..] = words else {
        return Ok(None);
    };
    if !are_options(&["format=", "wrap="], options) {
        return Ok(None);
    }
    let Some(id) = word_text(alloc, id.as_str())? else {
        return Ok(None);
    };
    let Some(format) = format_given(options) else {
        return Ok(None);
    };
    let Some(key) = text_given(alloc, "wrap=", options)? else {
        return Ok(None);
    };
    let wrapping = wrapped_under(alloc, key)?;
    Ok(Some(RequestPayload::Get(Some(UniqueIdentifier(id)), format, None, wrapping)))
}

/// The words of attributes: what stands after `where`, which may be left out.
pub fn after_where(words: &[Text]) -> &[Text]
    ensures { result.now ≡ asked.after_where words.now }
{
    match words {
        [word, rest @ ..] => {
            if word.as_str() == "where" {
                rest
            } else {
                words
            }
        }
        [] => words,
    }
}

/// `locate` with the attributes that the objects are to have; without any it asks for all objects:
/// KMIP 1.0, 4.8.
fn locate_asked(alloc: Global, words: &[Text]) -> Result<Option<RequestPayload>, OutOfMemory>
    ensures { IfOk result (λ made. made ≡
        option_map Payload.Locate (all_of attribute_in (asked.after_where words.now))) }
{
    match attributes_in(alloc, after_where(words))? {
        Some(attributes) => Ok(Some(RequestPayload::Locate(attributes))),
        None => Ok(None),
    }
}

/// `attributes ID` with the names of attributes: KMIP 1.0, 4.11.
fn attributes_asked(alloc: Global, words: &[Text]) -> Result<Option<RequestPayload>, OutOfMemory>
    ensures { IfOk result (λ made. made ≡ asked.attributes_asked words.now) }
{
    let [id, names @ ..] = words else {
        return Ok(None);
    };
    let Some(id) = word_text(alloc, id.as_str())? else {
        return Ok(None);
    };
    let Some(names) = names_in(alloc, names)? else {
        return Ok(None);
    };
    Ok(Some(RequestPayload::GetAttributes(Some(UniqueIdentifier(id)), Some(names))))
}

/// `attribute-add ID OPTION`: KMIP 1.0, 4.13.
fn add_asked(alloc: Global, words: &[Text]) -> Result<Option<RequestPayload>, OutOfMemory>
    ensures { IfOk result (λ made. made ≡ asked.add_asked words.now) }
{
    let [id, word] = words else {
        return Ok(None);
    };
    let Some(id) = word_text(alloc, id.as_str())? else {
        return Ok(None);
    };
    match attribute_in(alloc, word.as_str())? {
        Some(attribute) => {
            let id = Some(UniqueIdentifier(id));
            Ok(Some(RequestPayload::AddAttribute(id, attribute)))
        }
        None => Ok(None),
    }
}

/// `attribute-modify ID OPTION`, with `index=`: KMIP 1.0, 4.14.
fn modify_asked(alloc: Global, words: &[Text]) -> Result<Option<RequestPayload>, OutOfMemory>
    ensures { IfOk result (λ made. made ≡ asked.modify_asked words.now) }
{
    let [id, word, options @ ..] = words else {
        return Ok(None);
    };
    if !are_options(&["index="], options) {
        return Ok(None);
    }
    let Some(id) = word_text(alloc, id.as_str())? else {
        return Ok(None);
    };
    let Some(Attribute(name, _, value)) = attribute_in(alloc, word.as_str())? else {
        return Ok(None);
    };
    let Some(index) = index_given("index=", options) else {
        return Ok(None);
    };
    let id = Some(UniqueIdentifier(id));
    Ok(Some(RequestPayload::ModifyAttribute(id, Attribute(name, index, value))))
}

/// `attribute-delete ID NAME`, with `index=`: KMIP 1.0, 4.15.
fn delete_asked(alloc: Global, words: &[Text]) -> Result<Option<RequestPayload>, OutOfMemory>
    ensures { IfOk result (λ made. made ≡ asked.delete_asked words.now) }
{
    let [id, name, options @ ..] = words else {
        return Ok(None);
    };
    if !are_options(&["index="], options) {
        return Ok(None);
    }
    let Some(id) = word_text(alloc, id.as_str())? else {
        return Ok(None);
    };
    let Some(name) = attribute_name(alloc, name.as_str())? else {
        return Ok(None);
    };
    let Some(index) = index_given("index=", options) else {
        return Ok(None);
    };
    Ok(Some(RequestPayload::DeleteAttribute(Some(UniqueIdentifier(id)), name, index)))
}

/// The calls that change attributes, and those that make keys.
fn edit_asked(
    alloc: Global,
    name: &str,
    words: &[Text],
) -> Result<Option<RequestPayload>, OutOfMemory>
    ensures { IfOk result (λ made. made ≡ asked.edit_asked name.now words.now) }
{
    match name {
        "attribute-add" => add_asked(alloc, words),
        "attribute-modify" => modify_asked(alloc, words),
        "attribute-delete" => delete_asked(alloc, words),
        _ => key_asked(alloc, name, words),
    }
}

/// The request of the call with this name.
fn asked_by(
    alloc: Global,
    name: &str,
    words: &[Text],
) -> Result<Option<RequestPayload>, OutOfMemory>
    ensures { IfOk result (λ made. made ≡ asked.asked_by name.now words.now) }
{
    match name {
        "sign" => sign_asked(alloc, words),
        "revoke" => revoke_asked(alloc, words),
        "get" => get_asked(alloc, words),
        "locate" => locate_asked(alloc, words),
        "attributes" => attributes_asked(alloc, words),
        _ => edit_asked(alloc, name, words),
    }
}

/// The request that words with options ask for; `None` where they are not of this grammar.
#[tactic(auto, unfolding(crate::specs::Asked::asked_in))]
pub fn asked_in(alloc: Global, words: &[Text]) -> Result<Option<RequestPayload>, OutOfMemory>
    ensures { IfOk result (λ made. made ≡ asked.asked_in words.now) }
{
    match words {
        [name, rest @ ..] => asked_by(alloc, name.as_str(), rest),
        [] => Ok(None),
    }
}
