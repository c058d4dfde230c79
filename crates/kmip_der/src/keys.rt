//! What keys in DER are for KMIP.
ghost use Rattle.std.specs.Prelude.{◌≡◌, ℕ, option_map};
ghost use Rattle.kmip_der.specs.Curve.{curve_view};
ghost use Rattle.kmip_der.specs.Keys.{Known as TheKnown};
ghost use Rattle.kmip_der.specs.Der.{Element as TheElement};
ghost use Rattle.kmip_der.specs.Keys.{behind_natural, behind_three, behind_seven, behind_version};
ghost use Rattle.kmip_der.specs.Keys.{rsa_public, rsa_private, curve_by, dsa_by, is_number};
ghost use Rattle.kmip_der.specs.Keys.{ec_number, sec1_curve, sec1, is_same_curve, is_ec_key};
ghost use Rattle.kmip_der.specs.Keys.{private_by, pkcs8, whole_bytes, is_point, public_by, spki};

use crate::curves::{Curve, curve_named};
use crate::element::{Element, at_most, bits_of, is_natural, natural_in, only, past, tagged};

pub(crate) const RSA: [u8; 9] = [42, 134, 72, 134, 247, 13, 1, 1, 1];

pub(crate) const EC: [u8; 7] = [42, 134, 72, 206, 61, 2, 1];

const DSA: [u8; 7] = [42, 134, 72, 206, 56, 4, 1];

/// What KMIP says of a key.
#[derive(Clone, Copy, Debug, PartialEq, Eq, Drop)]
pub struct Known {
    /// The number of its Cryptographic Algorithm: KMIP 1.0, 9.1.3.2.12.
    pub algorithm: u32,
    /// Its Cryptographic Length: KMIP 1.0, 3.5.
    pub len: u128,
}

/// What stands behind a number.
fn behind_natural<'a>(bytes: &'a [u8]) -> Option<&'a [u8]>
    ensures { option_map (λ b. b.now) result ≡ behind_natural bytes.now }
{
    match natural_in(bytes) {
        Some(found) => Some(found.behind),
        None => None,
    }
}

/// What stands behind three numbers.
fn behind_three<'a>(bytes: &'a [u8]) -> Option<&'a [u8]>
    ensures { option_map (λ b. b.now) result ≡ behind_three bytes.now }
{
    let second = behind_natural(bytes)?;
    let third = behind_natural(second)?;
    behind_natural(third)
}

/// What stands behind seven numbers.
fn behind_seven<'a>(bytes: &'a [u8]) -> Option<&'a [u8]>
    ensures { option_map (λ b. b.now) result ≡ behind_seven bytes.now }
{
    let fourth = behind_three(bytes)?;
    let seventh = behind_three(fourth)?;
    behind_natural(seventh)
}

/// What stands behind a version, where it is this one.
fn behind_version<'a>(version: u8, parts: &'a [u8]) -> Option<&'a [u8]>
    ensures { option_map (λ b. b.now) result ≡ behind_version version parts.now }
{
    let found = natural_in(parts)?;
    if found.contents == [version].as_slice() {
        Some(found.behind)
    } else {
        None
    }
}

/// A public key of RSA, PKCS#1 (RFC 8017, A.1.1).
pub fn rsa_public(der: &[u8]) -> Option<Known>
    ensures { option_map (λ k. record { algorithm = k.algorithm; len = k.len }) result ≡ rsa_public der.now }
{
    let modulus = natural_in(only(48, der)?)?;
    let rest = behind_natural(modulus.behind)?;
    if rest.len() == 0 {
        Some(Known {
            algorithm: 4,
            len: bits_of(modulus.contents),
        })
    } else {
        None
    }
}

/// A private key of RSA, PKCS#1 (RFC 8017, A.1.2).
pub fn rsa_private(der: &[u8]) -> Option<Known>
    ensures { option_map (λ k. record { algorithm = k.algorithm; len = k.len }) result ≡ rsa_private der.now }
{
    let numbers = behind_version(0, only(48, der)?)?;
    let modulus = natural_in(numbers)?;
    let rest = behind_seven(modulus.behind)?;
    if rest.len() == 0 {
        Some(Known {
            algorithm: 4,
            len: bits_of(modulus.contents),
        })
    } else {
        None
    }
}

/// The named curve of an algorithm's parameters.
pub fn curve_by(parameters: &[u8]) -> Option<&'static Curve>
    ensures { option_map (λ curve. curve_view curve.now) result ≡ curve_by parameters.now }
{
    let name = only(6, parameters)?;
    curve_named(name)
}

/// A key of DSA, by an algorithm's parameters.
fn dsa_by(parameters: &[u8]) -> Option<Known>
    ensures { option_map (λ k. record { algorithm = k.algorithm; len = k.len }) result ≡ dsa_by parameters.now }
{
    let numbers = only(48, parameters)?;
    let prime = natural_in(numbers)?;
    let rest = behind_three(numbers)?;
    if rest.len() == 0 {
        Some(Known {
            algorithm: 5,
            len: bits_of(prime.contents),
        })
    } else {
        None
    }
}

/// Whether bytes are a number that is not negative.
fn is_number(bytes: &[u8]) -> bool
    ensures { result ≡ is_number bytes.now }
{
    match only(2, bytes) {
        Some(contents) => is_natural(contents),
        None => false,
    }
}

/// The number of an ECPrivateKey, and what stands behind it.
pub fn ec_number<'a>(der: &'a [u8]) -> Option<Element<'a>>
    ensures { option_map
        (λ e. record { tag = e.tag; contents = e.contents.now; behind = e.behind.now }) result ≡
        ec_number der.now }
{
    let parts = behind_version(1, only(48, der)?)?;
    tagged(4, parts)
}

/// The curve of an ECPrivateKey that tells it.
pub fn sec1_curve(der: &[u8]) -> Option<&'static Curve>
    ensures { option_map (λ curve. curve_view curve.now) result ≡ sec1_curve der.now }
{
    let number = ec_number(der)?;
    let parameters = tagged(160, number.behind)?;
    if at_most(161, parameters.behind) {
        curve_by(parameters.contents)
    } else {
        None
    }
}

/// A private key as ECPrivateKey, with its curve (RFC 5915, 3).
pub fn sec1(der: &[u8]) -> Option<Known>
    ensures { option_map (λ k. record { algorithm = k.algorithm; len = k.len }) result ≡ sec1 der.now }
{
    let curve = sec1_curve(der)?;
    Some(Known {
        algorithm: 6,
        len: curve.bits as u128,
    })
}

/// Whether an ECPrivateKey tells no curve at this place, or that of these parameters.
fn is_same_curve(parameters: &[u8], bytes: &[u8]) -> bool
    ensures { result ≡ is_same_curve parameters.now bytes.now }
{
    match tagged(160, bytes) {
        Some(found) => found.contents == parameters,
        None => true,
    }
}

/// Whether bytes are an ECPrivateKey of the curve of these parameters.
fn is_ec_key(parameters: &[u8], key: &[u8]) -> bool
    ensures { result ≡ is_ec_key parameters.now key.now }
{
    match ec_number(key) {
        Some(number) => {
            is_same_curve(parameters, number.behind) && at_most(161, past(160, number.behind))
        }
        None => false,
    }
}

/// A private key of an algorithm.
fn private_by(key: &[u8], name: Element<'_>) -> Option<Known>
    ensures { option_map (λ k. record { algorithm = k.algorithm; len = k.len }) result ≡
        private_by key.now (record {
          tag = name.entry.tag;
          contents = name.entry.contents.now;
          behind = name.entry.behind.now;
        }) }
{
    if name.contents == RSA.as_slice() {
        if name.behind == [5, 0].as_slice() {
            return rsa_private(key);
        }
    } else if name.contents == EC.as_slice() {
        if is_ec_key(name.behind, key) {
            let curve = curve_by(name.behind)?;
            return Some(Known {
                algorithm: 6,
                len: curve.bits as u128,
            });
        }
    } else if name.contents == DSA.as_slice() {
        if is_number(key) {
            return dsa_by(name.behind);
        }
    }
    None
}

/// A private key in PKCS#8 of version 0 (RFC 5208, 5).
pub fn pkcs8(der: &[u8]) -> Option<Known>
    ensures { option_map (λ k. record { algorithm = k.algorithm; len = k.len }) result ≡ pkcs8 der.now }
{
    let parts = behind_version(0, only(48, der)?)?;
    let algorithm = tagged(48, parts)?;
    let key = tagged(4, algorithm.behind)?;
    if !at_most(160, key.behind) {
        return None;
    }
    let name = tagged(6, algorithm.contents)?;
    private_by(key.contents, name)
}

/// The bytes of a BIT STRING of whole bytes.
fn whole_bytes<'a>(bits: &'a [u8]) -> Option<&'a [u8]>
    ensures { option_map (λ b. b.now) result ≡ whole_bytes bits.now }
{
    match bits {
        [0, bytes @ ..] => Some(bytes),
        _ => None,
    }
}

/// Whether bytes are a point of a curve (SEC 1, 2.3.3).
pub fn is_point(curve: &Curve, key: &[u8]) -> bool
    ensures { result ≡ is_point (curve_view curve.now) key.now }
{
    let len = (curve.bits as usize + 7) / 8;
    match key {
        [] => false,
        [4, rest @ ..] => rest.len() == len + len,
        [2 | 3, rest @ ..] => rest.len() == len,
        _ => false,
    }
}

/// A public key of an algorithm.
fn public_by(key: &[u8], name: Element<'_>) -> Option<Known>
    ensures { option_map (λ k. record { algorithm = k.algorithm; len = k.len }) result ≡
        public_by key.now (record {
          tag = name.entry.tag;
          contents = name.entry.contents.now;
          behind = name.entry.behind.now;
        }) }
{
    if name.contents == RSA.as_slice() {
        if name.behind == [5, 0].as_slice() {
            return rsa_public(key);
        }
    } else if name.contents == EC.as_slice() {
        let curve = curve_by(name.behind)?;
        if is_point(curve, key) {
            return Some(Known {
                algorithm: 6,
                len: curve.bits as u128,
            });
        }
    } else if name.contents == DSA.as_slice() {
        if is_number(key) {
            return dsa_by(name.behind);
        }
    }
    None
}

/// A public key of X.509, SubjectPublicKeyInfo (RFC 5280, 4.1.2.7).
pub fn spki(der: &[u8]) -> Option<Known>
    ensures { option_map (λ k. record { algorithm = k.algorithm; len = k.len }) result ≡ spki der.now }
{
    let algorithm = tagged(48, only(48, der)?)?;
    let bits = only(3, algorithm.behind)?;
    let key = whole_bytes(bits)?;
    let name = tagged(6, algorithm.contents)?;
    public_by(key, name)
}
