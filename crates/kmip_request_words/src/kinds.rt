//! What a word of each kind may be, and the refusal of one that is not of its kind.
ghost use Rattle.std.specs.Prelude.{◌≡◌, ◌++◌, map, is_some, IfOk, OnOk};
ghost use Rattle.kmip_request_words.specs.Values.{word_text, bytes_of};
ghost use Rattle.kmip_request_words.specs.Grammar.{option_view};
ghost use Rattle.kmip_request_words.specs.Kinds.{names_of, is_among, are_among, are_uses, is_listed};
ghost use Rattle.kmip_request_words.specs.Kinds.{takes, listed, plain_wanted, after_names, wanted};
ghost use Rattle.kmip_request_words.specs.declared.grammar.Kind.TheVariants as kinds;

use crate::asked::{HASHES, PADDINGS, REASONS};
use crate::attributes::{OBJECT_TYPES, STATES};
use crate::coded::{ALGORITHMS, FORMATS};
use crate::grammar::{Kind, OptionRow, attribute_rows};
use crate::keys::table_name;
use crate::values::{bytes_of, int_of, long_of, word_text};
use crate::words::parts_between;
use kmip_shape::Enumeration;
use kmip_wire::{List, OutOfMemory, Text};
use std::alloc::Global;

/// Which key `register` may be given.
const KEY_KINDS: &[&str] = &["public", "private", "symmetric"];

/// The uses of keys: KMIP 1.2, 9.1.3.3.1.
const USES: &[&str] = &[
    "Sign",
    "Verify",
    "Encrypt",
    "Decrypt",
    "WrapKey",
    "UnwrapKey",
    "Export",
    "MacGenerate",
    "MacVerify",
    "DeriveKey",
    "ContentCommitmentNonRepudiation",
    "KeyAgreement",
    "CertificateSign",
    "CrlSign",
    "GenerateCryptogram",
    "ValidateCryptogram",
    "TranslateEncrypt",
    "TranslateDecrypt",
    "TranslateWrap",
    "TranslateUnwrap",
];

/// The names of uses, which are those of KMIP's table.
fn uses() -> &'static [&'static str]
    ensures { map (λ name. name.now) result.now ≡ names_of kinds.Uses }
{
    USES
}

/// The versions of KMIP that a request may name.
const VERSIONS: &[&str] = &["1.0", "1.1", "1.2"];

/// Adds the names of variants to those of others.
#[tactic(auto, using(std::proofs::lemmas::List::append_assoc))]
fn push_variants<E: Enumeration>(
    alloc: Global,
    variants: &[E],
    names: &mut List<Text>,
) -> Result<(), OutOfMemory>
    ensures { OnOk result (names.new ≡ names.old ++ map (λ v. (E.line v).name) variants.now) }
{
    match variants {
        [] => Ok(()),
        [first, rest @ ..] => {
            names.push(Text::of(alloc, first.name())?)?;
            push_variants(alloc, rest, names)
        }
    }
}

/// Adds copies of texts to others.
#[tactic(auto, using(std::proofs::lemmas::List::append_assoc))]
fn push_texts(alloc: Global, texts: &[&str], names: &mut List<Text>) -> Result<(), OutOfMemory>
    ensures { OnOk result (names.new ≡ names.old ++ map (λ text. text.now) texts.now) }
{
    match texts {
        [] => Ok(()),
        [first, rest @ ..] => {
            names.push(Text::of(alloc, first)?)?;
            push_texts(alloc, rest, names)
        }
    }
}

/// Adds the names of options to those of others.
#[tactic(auto, using(std::proofs::lemmas::List::append_assoc))]
fn push_options(
    alloc: Global,
    options: &[OptionRow],
    names: &mut List<Text>,
) -> Result<(), OutOfMemory>
    ensures { OnOk result (names.new ≡
        names.old ++ map (λ option. option.name) (map option_view options.now)) }
{
    match options {
        [] => Ok(()),
        [first, rest @ ..] => {
            names.push(Text::of(alloc, first.name)?)?;
            push_options(alloc, rest, names)
        }
    }
}

/// Adds the names that a word of a kind may be, where it is one of several.
fn push_names(alloc: Global, kind: Kind, names: &mut List<Text>) -> Result<(), OutOfMemory>
    ensures { OnOk result (names.new ≡ names.old ++ names_of kind) }
{
    match kind {
        Kind::Algorithm => push_variants(alloc, ALGORITHMS, names),
        Kind::Format => push_variants(alloc, FORMATS, names),
        Kind::Hash => push_variants(alloc, HASHES, names),
        Kind::Padding => push_variants(alloc, PADDINGS, names),
        Kind::Reason => push_variants(alloc, REASONS, names),
        Kind::ObjectType => push_variants(alloc, OBJECT_TYPES, names),
        Kind::State => push_variants(alloc, STATES, names),
        Kind::KeyKind => push_texts(alloc, KEY_KINDS, names),
        Kind::Uses => push_texts(alloc, uses(), names),
        Kind::Version => push_texts(alloc, VERSIONS, names),
        Kind::Attribute => push_options(alloc, attribute_rows(), names),
        Kind::Identifier
        | Kind::Text
        | Kind::Int
        | Kind::Seconds
        | Kind::Hex
        | Kind::Request
        | Kind::Flag
        | Kind::Operation
        | Kind::Payload
        | Kind::Message => Ok(()),
    }
}

/// The names that a word of a kind may be, where it is one of several; none where it is not. Of an
/// attribute they are what stands before its value.
pub fn names_of(alloc: Global, kind: Kind) -> Result<List<Text>, OutOfMemory>
    ensures { IfOk result (λ names. names ≡ names_of kind) }
{
    let mut names = List::new(alloc);
    push_names(alloc, kind, &mut names)?;
    Ok(names)
}

/// Whether a word is one of these names.
fn is_among(names: &[Text], word: &str) -> bool
    ensures { result ≡ is_among names.now word.now }
{
    match names {
        [] => false,
        [first, rest @ ..] => first.as_str() == word || is_among(rest, word),
    }
}

/// Whether each of the words is one of these names of uses, in the table's spelling or OASIS's.
fn are_among(names: &[Text], words: &[&str]) -> bool
    ensures { result ≡ are_among names.now (map (λ word. word.now) words.now) }
{
    match words {
        [] => true,
        [first, rest @ ..] => is_among(names, table_name(first)) && are_among(names, rest),
    }
}

/// Whether a word is one of the names of a kind.
fn is_name_of(alloc: Global, kind: Kind, word: &str) -> Result<bool, OutOfMemory>
    ensures { IfOk result (λ is. is ≡ is_among (names_of kind) word.now) }
{
    let names = names_of(alloc, kind)?;
    Ok(is_among(names.as_slice(), word))
}

/// Whether a word is names of uses, with `,` between two.
fn are_uses(alloc: Global, word: &str) -> Result<bool, OutOfMemory>
    ensures { IfOk result (λ are. are ≡ are_uses word.now) }
{
    let names = names_of(alloc, Kind::Uses)?;
    let parts = parts_between(alloc, ',', word)?;
    Ok(are_among(names.as_slice(), &parts))
}

/// Whether a word of a kind is one of several names.
fn is_listed(kind: Kind) -> bool
    ensures { result ≡ is_listed kind }
{
    match kind {
        Kind::Algorithm
        | Kind::Format
        | Kind::Hash
        | Kind::Padding
        | Kind::Reason
        | Kind::ObjectType
        | Kind::State
        | Kind::KeyKind
        | Kind::Uses
        | Kind::Version
        | Kind::Attribute => true,
        Kind::Identifier
        | Kind::Text
        | Kind::Int
        | Kind::Seconds
        | Kind::Hex
        | Kind::Request
        | Kind::Flag
        | Kind::Operation
        | Kind::Payload
        | Kind::Message => false,
    }
}

/// Whether a word is a text.
fn is_text(alloc: Global, word: &str) -> Result<bool, OutOfMemory>
    ensures { IfOk result (λ is. is ≡ is_some (word_text word.now)) }
{
    Ok(word_text(alloc, word)?.is_some())
}

/// Whether a word is bytes in hex digits.
fn is_hex(alloc: Global, word: &str) -> Result<bool, OutOfMemory>
    ensures { IfOk result (λ is. is ≡ is_some (bytes_of word.now)) }
{
    Ok(bytes_of(alloc, word)?.is_some())
}

/// Whether a word may be the value of an option of a kind, or a word of this kind. What JSON and the
/// name of an operation are is not looked at.
pub fn takes(alloc: Global, kind: Kind, word: &str) -> Result<bool, OutOfMemory>
    ensures { IfOk result (λ is. is ≡ takes kind word.now) }
{
    match kind {
        Kind::Identifier | Kind::Text => is_text(alloc, word),
        Kind::Int => Ok(int_of(word).is_some()),
        Kind::Seconds => Ok(long_of(word).is_some()),
        Kind::Hex | Kind::Request => is_hex(alloc, word),
        Kind::Flag => Ok(word.is_empty()),
        Kind::Operation | Kind::Payload | Kind::Message => Ok(true),
        Kind::Uses => are_uses(alloc, word),
        Kind::Algorithm
        | Kind::Format
        | Kind::Hash
        | Kind::Padding
        | Kind::Reason
        | Kind::ObjectType
        | Kind::State
        | Kind::KeyKind
        | Kind::Version
        | Kind::Attribute => is_name_of(alloc, kind, word),
    }
}

/// Adds names, with `, ` between two.
#[tactic(auto, using(std::proofs::lemmas::List::append_assoc))]
fn push_listed(names: &[Text], text: &mut Text) -> Result<(), OutOfMemory>
    ensures { OnOk result (text.new ≡ text.old ++ listed names.now) }
{
    match names {
        [] => Ok(()),
        [last] => text.push_str(last.as_str()),
        [first, rest @ ..] => {
            text.push_str(first.as_str())?;
            text.push_str(", ")?;
            push_listed(rest, text)
        }
    }
}

/// The refusal of a word that is not of a kind which has no names.
fn plain_wanted(kind: Kind) -> &'static str
    ensures { result.now ≡ plain_wanted kind }
{
    match kind {
        Kind::Int => "is no number from -2147483648 to 2147483647 in decimal digits",
        Kind::Seconds => "is no number from 0 to 9223372036854775807 in decimal digits",
        Kind::Hex | Kind::Request => "is no even number of hex digits, and not - for no bytes",
        Kind::Flag => "stands alone, with nothing after it",
        Kind::Identifier
        | Kind::Text
        | Kind::Algorithm
        | Kind::Format
        | Kind::Hash
        | Kind::Padding
        | Kind::Reason
        | Kind::ObjectType
        | Kind::State
        | Kind::KeyKind
        | Kind::Uses
        | Kind::Attribute
        | Kind::Operation
        | Kind::Version
        | Kind::Payload
        | Kind::Message => {
            "is no text: % stands before two upper-case hex digits, and all is UTF-8"
        }
    }
}

/// What a refusal adds after the names of a kind.
fn after_names(kind: Kind) -> &'static str
    ensures { result.now ≡ after_names kind }
{
    match kind {
        Kind::Uses => ", with , between two",
        Kind::Attribute => " with its value",
        Kind::Identifier
        | Kind::Text
        | Kind::Int
        | Kind::Seconds
        | Kind::Hex
        | Kind::Request
        | Kind::Algorithm
        | Kind::Format
        | Kind::Hash
        | Kind::Padding
        | Kind::Reason
        | Kind::ObjectType
        | Kind::State
        | Kind::KeyKind
        | Kind::Flag
        | Kind::Operation
        | Kind::Version
        | Kind::Payload
        | Kind::Message => "",
    }
}

/// Adds the refusal of a word that is not of a kind.
#[tactic(auto, using(std::proofs::lemmas::List::append_assoc))]
pub fn push_wanted(alloc: Global, kind: Kind, text: &mut Text) -> Result<(), OutOfMemory>
    ensures { OnOk result (text.new ≡ text.old ++ wanted kind) }
{
    if !is_listed(kind) {
        return text.push_str(plain_wanted(kind));
    }
    let names = names_of(alloc, kind)?;
    text.push_str("is none of ")?;
    push_listed(names.as_slice(), text)?;
    text.push_str(after_names(kind))
}
