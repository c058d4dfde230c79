//! A key in another format: PKCS#8 and X.509 hold PKCS#1 or ECPrivateKey.
ghost use Rattle.std.specs.Prelude.{◌≡◌, ◌++◌, option_map, IfOk, IfErr};
ghost use Rattle.kmip_der.specs.Curve.{curve_view};
ghost use Rattle.kmip_der.specs.Der.{element, past};
ghost use Rattle.kmip_der.specs.Write.{ec_algorithm, spki_der};
ghost use Rattle.kmip_key_files.specs.Found.{element_view, IsFile, IsUnwritten};
ghost use Rattle.kmip_key_files.specs.Formats.{key_in_pkcs8, key_in_spki, ec_key, ec_key_of};
ghost use Rattle.kmip_key_files.specs.Formats.{rsa_algorithm, pkcs8_der, to_pkcs8, to_rsa_private};
ghost use Rattle.kmip_key_files.specs.Formats.{to_sec1, to_spki, to_rsa_public, der_of};
ghost use Rattle.kmip_key_files.specs.Formats.{is_same_curve, is_same_key, file_in_format};

use crate::der::{Der, element, joined};
use crate::forms::{label_of, object_type};
use crate::refusal::{NoFile, WriteError};
use crate::told::{EC, KeyFacts, RSA, Told, behind_zero, curve_in_key, told_of};
use kmip_der::{Curve, Element, ec_number, only, sec1_curve, tagged};
use kmip_pem::Label;
use std::alloc::{AllocError, Global};

/// The DER of a file, and its label.
#[derive(Drop)]
pub struct File {
    /// What it is in PEM.
    pub label: Label,
    /// Its bytes.
    pub der: Der,
}

/// The key that PKCS#8 holds.
fn key_in_pkcs8<'a>(der: &'a [u8]) -> Option<&'a [u8]>
    ensures { option_map (λ b. b.now) result ≡ key_in_pkcs8 der.now }
{
    let parts = behind_zero(only(48, der)?)?;
    let algorithm = tagged(48, parts)?;
    let key = tagged(4, algorithm.behind)?;
    Some(key.contents)
}

/// The key that X.509 holds.
fn key_in_spki<'a>(der: &'a [u8]) -> Option<&'a [u8]>
    ensures { option_map (λ b. b.now) result ≡ key_in_spki der.now }
{
    let algorithm = tagged(48, only(48, der)?)?;
    match only(3, algorithm.behind)? {
        [0, key @ ..] => Some(key),
        _ => None,
    }
}

/// What stands behind a curve, if one is told here.
fn past_curve<'a>(bytes: &'a [u8]) -> &'a [u8]
    ensures { result.now ≡ past 160 bytes.now }
{
    match tagged(160, bytes) {
        Some(found) => found.behind,
        None => bytes,
    }
}

/// ECPrivateKey of a number and its point, with what tells the curve.
fn ec_key(alloc: Global, curve: &[u8], number: Element<'_>) -> Result<Der, AllocError>
    ensures { IfOk result (λ der. der ≡ ec_key curve.now (element_view number.entry)) }
{
    let octets = element(alloc, 4, number.contents)?;
    let rest = joined(alloc, curve, past_curve(number.behind))?;
    let behind = joined(alloc, octets.as_slice(), rest.as_slice())?;
    let parts = joined(alloc, &[2, 1, 1], behind.as_slice())?;
    element(alloc, 48, parts.as_slice())
}

/// ECPrivateKey with its curve.
fn ec_key_of(alloc: Global, curve: &Curve, number: Element<'_>) -> Result<Der, AllocError>
    ensures { IfOk result (λ der. der ≡
        ec_key_of (curve_view curve.now) (element_view number.entry)) }
{
    let name = element(alloc, 6, curve.name)?;
    let told = element(alloc, 160, name.as_slice())?;
    ec_key(alloc, told.as_slice(), number)
}

/// The algorithm of RSA.
fn rsa_algorithm(alloc: Global) -> Result<Der, AllocError>
    ensures { IfOk result (λ der. der ≡ rsa_algorithm) }
{
    let name = element(alloc, 6, RSA)?;
    let parts = joined(alloc, name.as_slice(), &[5, 0])?;
    element(alloc, 48, parts.as_slice())
}

/// The algorithm of a curve.
fn ec_algorithm(alloc: Global, curve: &Curve) -> Result<Der, AllocError>
    ensures { IfOk result (λ der. der ≡ ec_algorithm (curve_view curve.now)) }
{
    let name = element(alloc, 6, EC)?;
    let curve = element(alloc, 6, curve.name)?;
    let parts = joined(alloc, name.as_slice(), curve.as_slice())?;
    element(alloc, 48, parts.as_slice())
}

/// PKCS#8 of an algorithm and its key.
fn pkcs8_der(alloc: Global, algorithm: &[u8], key: &[u8]) -> Result<Der, AllocError>
    ensures { IfOk result (λ der. der ≡ pkcs8_der algorithm.now key.now) }
{
    let octets = element(alloc, 4, key)?;
    let behind = joined(alloc, algorithm, octets.as_slice())?;
    let parts = joined(alloc, &[2, 1, 0], behind.as_slice())?;
    element(alloc, 48, parts.as_slice())
}

/// X.509 of an algorithm and its key.
fn spki_der(alloc: Global, algorithm: &[u8], key: &[u8]) -> Result<Der, AllocError>
    ensures { IfOk result (λ der. der ≡ spki_der algorithm.now key.now) }
{
    let bytes = joined(alloc, &[0], key)?;
    let bits = element(alloc, 3, bytes.as_slice())?;
    let parts = joined(alloc, algorithm, bits.as_slice())?;
    element(alloc, 48, parts.as_slice())
}

/// PKCS#8 of ECPrivateKey.
fn pkcs8_of_sec1(alloc: Global, der: &[u8]) -> Result<Option<Der>, AllocError>
    ensures { IfOk result (λ found. found ≡ to_pkcs8 Label.EcPrivateKey der.now) }
{
    let (Some(curve), Some(number)) = (sec1_curve(der), ec_number(der)) else {
        return Ok(None);
    };
    let algorithm = ec_algorithm(alloc, curve)?;
    let key = ec_key(alloc, &[], number)?;
    let der = pkcs8_der(alloc, algorithm.as_slice(), key.as_slice())?;
    Ok(Some(der))
}

/// ECPrivateKey of PKCS#8.
fn sec1_of_pkcs8(alloc: Global, der: &[u8]) -> Result<Option<Der>, AllocError>
    ensures { IfOk result (λ found. found ≡ to_sec1 Label.PrivateKey der.now) }
{
    let Some(curve) = curve_in_key(Label::PrivateKey, der) else {
        return Ok(None);
    };
    let Some(key) = key_in_pkcs8(der) else {
        return Ok(None);
    };
    let Some(number) = ec_number(key) else {
        return Ok(None);
    };
    let der = ec_key_of(alloc, curve, number)?;
    Ok(Some(der))
}

/// A copy.
fn copied(alloc: Global, bytes: Option<&[u8]>) -> Result<Option<Der>, AllocError>
    ensures { IfOk result (λ found. found ≡ option_map (λ b. b.now) bytes.entry) }
{
    match bytes {
        Some(bytes) => {
            let der = joined(alloc, bytes, &[])?;
            Ok(Some(der))
        }
        None => Ok(None),
    }
}

/// In PKCS#8.
fn to_pkcs8(alloc: Global, label: Label, der: &[u8]) -> Result<Option<Der>, AllocError>
    ensures { IfOk result (λ found. found ≡ to_pkcs8 label der.now) }
{
    match label {
        Label::PrivateKey => copied(alloc, Some(der)),
        Label::RsaPrivateKey => {
            let algorithm = rsa_algorithm(alloc)?;
            let der = pkcs8_der(alloc, algorithm.as_slice(), der)?;
            Ok(Some(der))
        }
        Label::EcPrivateKey => pkcs8_of_sec1(alloc, der),
        Label::RsaPublicKey | Label::PublicKey | Label::Certificate => Ok(None),
    }
}

/// In X.509.
fn to_spki(alloc: Global, label: Label, der: &[u8]) -> Result<Option<Der>, AllocError>
    ensures { IfOk result (λ found. found ≡ to_spki label der.now) }
{
    if label == Label::PublicKey {
        return copied(alloc, Some(der));
    }
    if label != Label::RsaPublicKey {
        return Ok(None);
    }
    let algorithm = rsa_algorithm(alloc)?;
    let der = spki_der(alloc, algorithm.as_slice(), der)?;
    Ok(Some(der))
}

/// In the format of another label.
#[tactic(auto, unfolding(crate::specs::Formats::der_of))]
fn der_of(alloc: Global, label: Label, to: Label, der: &[u8]) -> Result<Option<Der>, AllocError>
    ensures { IfOk result (λ found. found ≡ der_of label to der.now) }
{
    match to {
        Label::PrivateKey => to_pkcs8(alloc, label, der),
        Label::PublicKey => to_spki(alloc, label, der),
        Label::RsaPrivateKey => match label {
            Label::RsaPrivateKey => copied(alloc, Some(der)),
            Label::PrivateKey => copied(alloc, key_in_pkcs8(der)),
            _ => Ok(None),
        },
        Label::EcPrivateKey => match label {
            Label::EcPrivateKey => copied(alloc, Some(der)),
            Label::PrivateKey => sec1_of_pkcs8(alloc, der),
            _ => Ok(None),
        },
        Label::RsaPublicKey => match label {
            Label::RsaPublicKey => copied(alloc, Some(der)),
            Label::PublicKey => copied(alloc, key_in_spki(der)),
            _ => Ok(None),
        },
        Label::Certificate => Ok(None),
    }
}

/// Whether two curves are the same.
fn is_same_curve(a: Option<u32>, b: Option<u32>) -> bool
    ensures { result ≡ is_same_curve a b }
{
    match (a, b) {
        (None, None) => true,
        (Some(a), Some(b)) => a == b,
        _ => false,
    }
}

/// Whether the same is told of two keys.
fn is_same_key(a: Option<KeyFacts>, b: Option<KeyFacts>) -> bool
    ensures { result ≡ is_same_key a b }
{
    match (a, b) {
        (Some(a), Some(b)) => {
            a.algorithm == b.algorithm && a.len == b.len && is_same_curve(a.curve, b.curve)
        }
        _ => false,
    }
}

/// A key of which this is told, in the format with this number: of the same Object Type, and the same
/// is told of it.
pub fn in_format(alloc: Global, told: &Told, der: &[u8], format: u32) -> Result<File, WriteError>
    ensures written { IfOk result (IsFile (file_in_format told.now der.now format)) }
    ensures refused { IfErr result (IsUnwritten (file_in_format told.now der.now format)) }
{
    let Some(label) = label_of(object_type(told.label), format) else {
        return Err(WriteError::NoFile(NoFile::OtherFormat));
    };
    let der = match der_of(alloc, told.label, label, der) {
        Ok(Some(der)) => der,
        Ok(None) => return Err(WriteError::NoFile(NoFile::OtherFormat)),
        Err(_) => return Err(WriteError::OutOfMemory),
    };
    match told_of(label, der.as_slice()) {
        Ok(now) if is_same_key(told.key, now.key) => Ok(File { label, der }),
        _ => Err(WriteError::NoFile(NoFile::OtherFormat)),
    }
}
