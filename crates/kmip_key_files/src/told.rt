//! What KMIP is told of a file.
ghost use Rattle.std.specs.Prelude.{◌≡◌, option_map, IfOk, IfErr};
ghost use Rattle.kmip_der.specs.Curve.{curve_view};
ghost use Rattle.kmip_der.specs.Keys.{behind_version};
ghost use Rattle.kmip_pem.specs.Pem.{pem_in};
ghost use Rattle.kmip_key_files.specs.Told.{known_in, algorithm_behind, algorithm_in};
ghost use Rattle.kmip_key_files.specs.Told.{curve_with_name, curve_number, curve_in_key};
ghost use Rattle.kmip_key_files.specs.Told.{is_other_algorithm, has_parameters, has_no_name};
ghost use Rattle.kmip_key_files.specs.Told.{key_told, told_of, label_in, is_nameless};
ghost use Rattle.kmip_key_files.specs.Told.{told_in_der, told_in_pem};
ghost use Rattle.kmip_key_files.specs.Found.{known_view, element_view, IsUnread};

use crate::forms::{key_format, object_type};
use crate::refusal::{NoObject, ReadError};
use kmip_der::{
    Curve, Element, Known, curve_named, ec_number, is_certificate, natural_in, only, pkcs8,
    rsa_private, rsa_public, sec1, sec1_curve, spki, tagged,
};
use kmip_pem::{Label, Secret, read};
use std::alloc::Global;

pub(crate) const RSA: &[u8] = &[42, 134, 72, 134, 247, 13, 1, 1, 1];

const DSA: &[u8] = &[42, 134, 72, 206, 56, 4, 1];

pub(crate) const EC: &[u8] = &[42, 134, 72, 206, 61, 2, 1];

/// What KMIP is told of a key.
#[derive(Clone, Copy, Debug, PartialEq, Eq, Drop)]
pub struct KeyFacts {
    /// The number of its Cryptographic Algorithm: RSA is 4, DSA 5, ECDSA 6 (KMIP 1.0, 9.1.3.2.12).
    pub algorithm: u32,
    /// Its Cryptographic Length, below 2^31: the bits of the modulus, of p, or of the field.
    pub len: u32,
    /// The number of its Recommended Curve: KMIP 1.2, 9.1.3.2.5.
    pub curve: Option<u32>,
}

/// What KMIP is told of a file.
#[derive(Clone, Copy, Debug, PartialEq, Eq, Drop)]
pub struct Told {
    /// Its label, which tells the Object Type and the Key Format Type.
    pub label: Label,
    /// What is told of a key; nothing of a certificate.
    pub key: Option<KeyFacts>,
}

/// What a text holds.
#[derive(Drop)]
pub struct Object {
    /// What is told of it.
    pub told: Told,
    /// The Key Material, or the Certificate Value.
    pub bytes: Secret,
}

/// A key in the format of its label.
#[tactic(auto, unfolding(crate::specs::Told::known_in))]
fn known_in(label: Label, der: &[u8]) -> Option<Known>
    ensures { option_map known_view result ≡ known_in label der.now }
{
    match label {
        Label::RsaPublicKey => rsa_public(der),
        Label::PublicKey => spki(der),
        Label::RsaPrivateKey => rsa_private(der),
        Label::PrivateKey => pkcs8(der),
        Label::EcPrivateKey => sec1(der),
        Label::Certificate => None,
    }
}

/// What stands behind a version 0.
pub(crate) fn behind_zero<'a>(parts: &'a [u8]) -> Option<&'a [u8]>
    ensures { option_map (λ b. b.now) result ≡ behind_version 0 parts.now }
{
    let found = natural_in(parts)?;
    if found.contents == [0].as_slice() {
        Some(found.behind)
    } else {
        None
    }
}

/// The algorithm that stands at the front of parts.
fn algorithm_behind<'a>(parts: &'a [u8]) -> Option<Element<'a>>
    ensures { option_map element_view result ≡ algorithm_behind (Some parts.now) }
{
    let algorithm = tagged(48, parts)?;
    tagged(6, algorithm.contents)
}

/// The algorithm of PKCS#8 or of X.509.
#[tactic(auto, unfolding(crate::specs::Told::algorithm_in))]
fn algorithm_in<'a>(label: Label, der: &'a [u8]) -> Option<Element<'a>>
    ensures { option_map element_view result ≡ algorithm_in label der.now }
{
    match label {
        Label::PrivateKey => algorithm_behind(behind_zero(only(48, der)?)?),
        Label::PublicKey => algorithm_behind(only(48, der)?),
        _ => None,
    }
}

/// The curve of an algorithm.
fn curve_with_name(name: Element<'_>) -> Option<&'static Curve>
    ensures { option_map (λ curve. curve_view curve.now) result ≡
        curve_with_name (element_view name.entry) }
{
    if name.contents == EC {
        curve_named(only(6, name.behind)?)
    } else {
        None
    }
}

/// The curve of a key.
#[tactic(auto, unfolding(crate::specs::Told::curve_in_key))]
pub(crate) fn curve_in_key(label: Label, der: &[u8]) -> Option<&'static Curve>
    ensures { option_map (λ curve. curve_view curve.now) result ≡ curve_in_key label der.now }
{
    if key_format(label) == 6 {
        sec1_curve(der)
    } else {
        curve_with_name(algorithm_in(label, der)?)
    }
}

/// The number of the curve of a key.
fn curve_number(label: Label, der: &[u8]) -> Option<u32>
    ensures { result ≡ curve_number (curve_in_key label der.now) }
{
    match curve_in_key(label, der) {
        Some(curve) => Some(curve.number),
        None => None,
    }
}

/// Whether an algorithm, or its curve, has no name in KMIP.
fn is_other_algorithm(name: Element<'_>) -> bool
    ensures { result ≡ is_other_algorithm (element_view name.entry) }
{
    !(name.contents == RSA || name.contents == DSA || curve_with_name(name).is_some())
}

/// Whether an ECPrivateKey tells its curve.
fn has_parameters(der: &[u8]) -> bool
    ensures { result ≡ has_parameters der.now }
{
    match ec_number(der) {
        Some(number) => tagged(160, number.behind).is_some(),
        None => false,
    }
}

/// Whether DER has an algorithm, or a curve, that has no name in KMIP.
#[tactic(auto, unfolding(crate::specs::Told::has_no_name))]
fn has_no_name(label: Label, der: &[u8]) -> bool
    ensures { result ≡ has_no_name label der.now }
{
    if key_format(label) == 6 {
        return has_parameters(der);
    }
    match algorithm_in(label, der) {
        Some(name) => is_other_algorithm(name),
        None => false,
    }
}

/// What KMIP is told of DER in the format of a key.
fn key_told(label: Label, der: &[u8]) -> Result<Told, NoObject>
    ensures { result ≡ key_told label der.now (known_in label der.now) }
{
    let Some(known) = known_in(label, der) else {
        return Err(if has_no_name(label, der) {
            NoObject::NoName
        } else {
            NoObject::OtherDer
        });
    };
    if 0 < known.len && known.len < 2147483648 {
        let key = KeyFacts {
            algorithm: known.algorithm,
            len: known.len as u32,
            curve: curve_number(label, der),
        };
        Ok(Told {
            label,
            key: Some(key),
        })
    } else {
        Err(NoObject::NoLength)
    }
}

/// What KMIP is told of DER, which has to be what its label says.
#[tactic(auto, unfolding(crate::specs::Told::told_of))]
pub fn told_of(label: Label, der: &[u8]) -> Result<Told, NoObject>
    ensures { result ≡ told_of label der.now }
{
    if object_type(label) != 1 {
        return key_told(label, der);
    }
    if is_certificate(der) {
        Ok(Told { label, key: None })
    } else {
        Err(NoObject::OtherDer)
    }
}

/// The one label whose format reads DER.
fn label_in(der: &[u8]) -> Option<Label>
    ensures { result ≡ label_in der.now }
{
    if is_certificate(der) {
        Some(Label::Certificate)
    } else if known_in(Label::RsaPrivateKey, der).is_some() {
        Some(Label::RsaPrivateKey)
    } else if known_in(Label::PrivateKey, der).is_some() {
        Some(Label::PrivateKey)
    } else if known_in(Label::EcPrivateKey, der).is_some() {
        Some(Label::EcPrivateKey)
    } else if known_in(Label::RsaPublicKey, der).is_some() {
        Some(Label::RsaPublicKey)
    } else if known_in(Label::PublicKey, der).is_some() {
        Some(Label::PublicKey)
    } else {
        None
    }
}

/// Whether DER has a name that KMIP has not, whatever it is.
fn is_nameless(der: &[u8]) -> bool
    ensures { result ≡ is_nameless der.now }
{
    has_no_name(Label::PrivateKey, der)
        || has_no_name(Label::PublicKey, der)
        || has_no_name(Label::EcPrivateKey, der)
}

/// What KMIP is told of DER.
pub fn read_der(der: &[u8]) -> Result<Told, NoObject>
    ensures { result ≡ told_in_der der.now }
{
    match label_in(der) {
        Some(label) => told_of(label, der),
        None => Err(if is_nameless(der) {
            NoObject::NoName
        } else {
            NoObject::NoKey
        }),
    }
}

/// What KMIP is told of a text of PEM, and the bytes of its block.
pub fn read_pem(alloc: Global, text: &[u8]) -> Result<Object, ReadError>
    ensures told { IfOk result (λ object. told_in_pem text.now ≡ Ok object.told) }
    ensures bytes { IfOk result (λ object. pem_in text.now ≡
        Ok (record { label = object.told.label; bytes = object.bytes })) }
    ensures refused { IfErr result (IsUnread (told_in_pem text.now)) }
{
    let pem = match read(alloc, text) {
        Ok(pem) => pem,
        Err(kmip_pem::ReadError::NoPem(why)) => {
            return Err(ReadError::NoObject(NoObject::NoPem(why)));
        }
        Err(kmip_pem::ReadError::OutOfMemory) => return Err(ReadError::OutOfMemory),
    };
    match told_of(pem.label, pem.bytes.as_slice()) {
        Ok(told) => Ok(Object {
            told,
            bytes: pem.bytes,
        }),
        Err(why) => Err(ReadError::NoObject(why)),
    }
}
