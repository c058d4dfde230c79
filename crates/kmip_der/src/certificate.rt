//! The shape of a certificate (RFC 5280, 4.1), and what DER is in any format.
ghost use Rattle.std.specs.Prelude.{◌≡◌, ℕ, option_map};
ghost use Rattle.kmip_der.specs.Keys.{behind_tag, behind_two, behind_names, are_extras};
ghost use Rattle.kmip_der.specs.Keys.{is_signed_part, is_certificate, is_private, is_public};

use crate::element::{at_most, only, past, tagged};
use crate::keys::{pkcs8, rsa_private, rsa_public, sec1, spki};

/// What stands behind an element with this tag.
fn behind_tag<'a>(tag: u8, bytes: &'a [u8]) -> Option<&'a [u8]>
    ensures { option_map (λ b. b.now) result ≡ behind_tag tag bytes.now }
{
    match tagged(tag, bytes) {
        Some(found) => Some(found.behind),
        None => None,
    }
}

/// What stands behind two structures.
fn behind_two<'a>(bytes: &'a [u8]) -> Option<&'a [u8]>
    ensures { option_map (λ b. b.now) result ≡ behind_two bytes.now }
{
    let second = behind_tag(48, bytes)?;
    behind_tag(48, second)
}

/// What stands behind the version, the serial number, the names and the key.
fn behind_names<'a>(bytes: &'a [u8]) -> Option<&'a [u8]>
    ensures { option_map (λ b. b.now) result ≡ behind_names bytes.now }
{
    let algorithm = behind_tag(2, past(160, bytes))?;
    let validity = behind_two(algorithm)?;
    let key = behind_two(validity)?;
    behind_tag(48, key)
}

/// Whether bytes are two identifiers and extensions, each of which may be left out.
fn are_extras(bytes: &[u8]) -> bool
    ensures { result ≡ are_extras bytes.now }
{
    at_most(163, past(130, past(129, bytes)))
}

/// Whether bytes are the parts of what is signed.
fn is_signed_part(bytes: &[u8]) -> bool
    ensures { result ≡ is_signed_part bytes.now }
{
    match behind_names(bytes) {
        Some(rest) => are_extras(rest),
        None => false,
    }
}

/// Whether bytes have the shape of a certificate.
pub fn is_certificate(der: &[u8]) -> bool
    ensures { result ≡ is_certificate der.now }
{
    let Some(parts) = only(48, der) else {
        return false;
    };
    let Some(signed) = tagged(48, parts) else {
        return false;
    };
    let Some(bits) = behind_tag(48, signed.behind) else {
        return false;
    };
    is_signed_part(signed.contents) && only(3, bits).is_some()
}

/// Whether bytes are a private key, in any format.
pub fn is_private(der: &[u8]) -> bool
    ensures { result ≡ is_private der.now }
{
    rsa_private(der).is_some() || pkcs8(der).is_some() || sec1(der).is_some()
}

/// Whether bytes are a public key, in any format.
pub fn is_public(der: &[u8]) -> bool
    ensures { result ≡ is_public der.now }
{
    rsa_public(der).is_some() || spki(der).is_some()
}
