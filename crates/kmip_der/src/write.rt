//! DER that is written: elements, and keys by their parts.
ghost use Rattle.std.specs.Prelude.{◌≡◌, ◌+◌, ◌-◌, ◌*◌, ◌<◌, ◌≤◌, ◌^◌, ◌++◌, ◌∷◌, length, map, replicate};
ghost use Rattle.std.specs.Prelude.{All, IfOk, OnOk, vec_len};
ghost use Rattle.kmip_der.specs.Curve.{curve_view};
ghost use Rattle.kmip_der.specs.Der.{element, length_octets};
ghost use Rattle.kmip_der.specs.Write.{digits_of, integer, integers, rsa_public_der, rsa_private_der};
ghost use Rattle.kmip_der.specs.Write.{padded, sec1_der, ec_algorithm, spki_der};

use crate::curves::Curve;
use crate::keys::EC;
use std::alloc::{AllocError, Global};

/// Appends a length, in the fewest bytes (X.690, 10.1).
fn push_length(out: &mut Vec<u8>, n: usize) -> Result<(), AllocError>
    requires { n < 2 ^ 32 }
    ensures value { OnOk result (out.new.items ≡ out.old.items ++ length_octets n) }
    ensures size { OnOk result (vec_len out.new ≤ vec_len out.old + 5) }
{
    if n < 128 {
        out.extend_from_slice(&[n as u8])
    } else if n < 256 {
        out.extend_from_slice(&[129, n as u8])
    } else if n < 65536 {
        out.extend_from_slice(&[130, (n / 256) as u8, (n % 256) as u8])
    } else if n < 16777216 {
        out.extend_from_slice(&[
            131,
            (n / 65536) as u8,
            (n / 256 % 256) as u8,
            (n % 256) as u8,
        ])
    } else {
        out.extend_from_slice(&[
            132,
            (n / 16777216) as u8,
            (n / 65536 % 256) as u8,
            (n / 256 % 256) as u8,
            (n % 256) as u8,
        ])
    }
}

/// Appends an element of fewer than 2^32 bytes.
pub fn push_element(out: &mut Vec<u8>, tag: u8, contents: &[u8]) -> Result<(), AllocError>
    requires { length contents.now < 2 ^ 32 }
    ensures value { OnOk result (out.new.items ≡ out.old.items ++ element tag contents.now) }
    ensures size { OnOk result (vec_len out.new ≤ vec_len out.old + length contents.now + 6) }
{
    out.push(tag)?;
    push_length(out, contents.len())?;
    out.extend_from_slice(contents)
}

/// A number without the zeros before it.
fn digits_of<'a>(number: &'a [u8]) -> &'a [u8]
    ensures value { result.now ≡ digits_of number.now }
    ensures shorter { length result.now ≤ length number.now }
{
    match number {
        [0, rest @ ..] => digits_of(rest),
        _ => number,
    }
}

/// Appends a number as an INTEGER, in the fewest bytes (X.690, 8.3).
pub fn push_integer(out: &mut Vec<u8>, number: &[u8]) -> Result<(), AllocError>
    requires { length number.now < 2 ^ 31 }
    ensures value { OnOk result (out.new.items ≡ out.old.items ++ integer number.now) }
    ensures size { OnOk result (vec_len out.new ≤ vec_len out.old + length number.now + 7) }
{
    let digits = digits_of(number);
    match digits {
        [] => push_element(out, 2, &[0]),
        [first, ..] if *first < 128 => push_element(out, 2, digits),
        _ => {
            out.push(2)?;
            push_length(out, digits.len() + 1)?;
            out.push(0)?;
            out.extend_from_slice(digits)
        }
    }
}

/// A public key of RSA, PKCS#1 (RFC 8017, A.1.1).
pub fn rsa_public_der(alloc: Global, modulus: &[u8], exponent: &[u8]) -> Result<Vec<u8>, AllocError>
    requires modulus { length modulus.now < 2 ^ 24 }
    requires exponent { length exponent.now < 2 ^ 24 }
    ensures { IfOk result (λ der. der.items ≡ rsa_public_der modulus.now exponent.now) }
{
    let mut numbers = Vec::new(alloc);
    push_integer(&mut numbers, modulus)?;
    push_integer(&mut numbers, exponent)?;
    let mut der = Vec::new(alloc);
    push_element(&mut der, 48, &numbers)?;
    Ok(der)
}

/// Appends numbers as INTEGERs.
fn push_integers(out: &mut Vec<u8>, numbers: &[&[u8]]) -> Result<(), AllocError>
    requires { All (λ number. length number.now < 2 ^ 24) numbers.now }
    ensures value { OnOk result (out.new.items ≡
        out.old.items ++ integers (map (λ number. number.now) numbers.now)) }
    ensures size { OnOk result (vec_len out.new ≤ vec_len out.old + length numbers.now * 2 ^ 25) }
{
    match numbers {
        [] => Ok(()),
        [first, rest @ ..] => {
            push_integer(out, first)?;
            push_integers(out, rest)
        }
    }
}

/// A private key of RSA, PKCS#1, by its eight numbers (RFC 8017, A.1.2).
pub fn rsa_private_der(alloc: Global, numbers: &[&[u8]]) -> Result<Vec<u8>, AllocError>
    requires count { length numbers.now ≤ 8 }
    requires short { All (λ number. length number.now < 2 ^ 24) numbers.now }
    ensures { IfOk result (λ der. der.items ≡
        rsa_private_der (map (λ number. number.now) numbers.now)) }
{
    let mut contents = Vec::new(alloc);
    push_integer(&mut contents, &[])?;
    push_integers(&mut contents, numbers)?;
    let mut der = Vec::new(alloc);
    push_element(&mut der, 48, &contents)?;
    Ok(der)
}

/// How many bytes a number has without the zeros before it.
pub fn size_of(number: &[u8]) -> usize
    ensures { result ≡ length (digits_of number.now) }
{
    digits_of(number).len()
}

/// Appends so many zeros.
#[tactic(auto, using(crate::proofs::Zeros::one_more))]
fn push_zeros(out: &mut Vec<u8>, count: usize) -> Result<(), AllocError>
    ensures value { OnOk result (out.new.items ≡ out.old.items ++ replicate count 0) }
    ensures size { OnOk result (vec_len out.new ≡ vec_len out.old + count) }
{
    if count == 0 {
        return Ok(());
    }
    out.push(0)?;
    push_zeros(out, count - 1)
}

/// A number in so many bytes.
fn padded(alloc: Global, size: usize, number: &[u8]) -> Result<Vec<u8>, AllocError>
    requires { length (digits_of number.now) ≤ size }
    ensures value { IfOk result (λ bytes. bytes.items ≡ padded size number.now) }
    ensures size { IfOk result (λ bytes. vec_len bytes ≡ size) }
{
    let digits = digits_of(number);
    let mut bytes = Vec::new(alloc);
    push_zeros(&mut bytes, size - digits.len())?;
    bytes.extend_from_slice(digits)?;
    Ok(bytes)
}

/// ECPrivateKey of a number of a curve (RFC 5915, 3).
pub fn sec1_der(alloc: Global, curve: &Curve, number: &[u8]) -> Result<Vec<u8>, AllocError>
    requires named { length curve.now.name.now < 128 }
    requires fits { length (digits_of number.now) ≤ curve.now.octets }
    ensures { IfOk result (λ der. der.items ≡ sec1_der (curve_view curve.now) number.now) }
{
    let octets = padded(alloc, curve.octets as usize, number)?;
    let mut name = Vec::new(alloc);
    push_element(&mut name, 6, curve.name)?;
    let mut parts = Vec::new(alloc);
    push_element(&mut parts, 2, &[1])?;
    push_element(&mut parts, 4, &octets)?;
    push_element(&mut parts, 160, &name)?;
    let mut der = Vec::new(alloc);
    push_element(&mut der, 48, &parts)?;
    Ok(der)
}

/// X.509 of a point of a curve (RFC 5280, 4.1.2.7).
pub fn point_der(alloc: Global, curve: &Curve, point: &[u8]) -> Result<Vec<u8>, AllocError>
    requires named { length curve.now.name.now < 128 }
    requires short { length point.now < 2 ^ 24 }
    ensures { IfOk result (λ der. der.items ≡
        spki_der (ec_algorithm (curve_view curve.now)) point.now) }
{
    let mut names = Vec::new(alloc);
    push_element(&mut names, 6, &EC)?;
    push_element(&mut names, 6, curve.name)?;
    let mut bits = Vec::new(alloc);
    bits.push(0)?;
    bits.extend_from_slice(point)?;
    let mut parts = Vec::new(alloc);
    push_element(&mut parts, 48, &names)?;
    push_element(&mut parts, 3, &bits)?;
    let mut der = Vec::new(alloc);
    push_element(&mut der, 48, &parts)?;
    Ok(der)
}
