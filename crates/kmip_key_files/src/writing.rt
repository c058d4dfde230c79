//! The file of a key block or of a certificate.
ghost use Rattle.std.specs.Prelude.{◌≡◌, ◌<◌, ◌≤◌, ◌^◌, All, length, map, option_map, true};
ghost use Rattle.std.specs.Prelude.{IfSome, IfOk, IfErr};
ghost use Rattle.kmip_der.specs.Keys.{is_point};
ghost use Rattle.kmip_der.specs.Curve.{curve_view};
ghost use Rattle.kmip_pem.specs.Written.{pem_text};
ghost use Rattle.kmip_key_files.specs.Found.{IsFile, IsUnwritten};
ghost use Rattle.kmip_key_files.specs.Files.{checked_file, bytes_file, number_fault, numbers_fault};
ghost use Rattle.kmip_key_files.specs.Files.{rsa_public_file, rsa_private_file, numbers_in};
ghost use Rattle.kmip_key_files.specs.Files.{ec_public_file, ec_private_file, material_file};
ghost use Rattle.kmip_key_files.specs.Files.{curve_numbered, has_files, file_of, pem_of};

use crate::block::{Block, Material, RsaNumbers};
use crate::der::{Der, joined};
use crate::formats::File;
use crate::forms::label_of;
use crate::refusal::{NoFile, WriteError};
use crate::told::told_of;
use kmip_der::{
    Curve, curve_numbered, is_point, point_der, rsa_private_der, rsa_public_der, sec1_der, size_of,
};
use kmip_pem::{Label, Secret, write};
use std::alloc::{AllocError, Global};

/// A refusal.
fn refused(why: NoFile) -> Result<File, WriteError>
    ensures { result ≡ Err (WriteError.NoFile why) }
{
    Err(WriteError::NoFile(why))
}

/// DER with its label, which it has to be.
fn checked_file(label: Label, der: Der) -> Result<File, WriteError>
    ensures written { IfOk result (IsFile (checked_file label der)) }
    ensures refused { IfErr result (IsUnwritten (checked_file label der)) }
{
    match told_of(label, der.as_slice()) {
        Ok(_) => Ok(File { label, der }),
        Err(_) => refused(NoFile::OtherBytes),
    }
}

/// Bytes, in a format that has a label.
fn bytes_file(alloc: Global, label: Option<Label>, bytes: &[u8]) -> Result<File, WriteError>
    ensures written { IfOk result (IsFile (bytes_file label bytes.now)) }
    ensures refused { IfErr result (IsUnwritten (bytes_file label bytes.now)) }
{
    let Some(label) = label else {
        return refused(NoFile::OtherFormat);
    };
    if bytes.len() == 0 {
        return refused(NoFile::NoBytes);
    }
    match joined(alloc, bytes, &[]) {
        Ok(der) => checked_file(label, der),
        Err(_) => Err(WriteError::OutOfMemory),
    }
}

/// Why a Big Integer is no number of a key.
fn number_fault(number: &[u8]) -> Option<NoFile>
    ensures fault { result ≡ number_fault number.now }
    ensures short { result ≡ None → length number.now < 2 ^ 24 }
{
    match number {
        [] => Some(NoFile::NoBytes),
        [first, ..] if *first >= 128 => Some(NoFile::Negative),
        _ => {
            if number.len() < 16777216 {
                None
            } else {
                Some(NoFile::TooWide)
            }
        }
    }
}

/// Why the first of numbers that is none of a key is none.
fn numbers_fault(numbers: &[&[u8]]) -> Option<NoFile>
    ensures fault { result ≡ numbers_fault (map (λ number. number.now) numbers.now) }
    ensures short { result ≡ None → All (λ number. length number.now < 2 ^ 24) numbers.now }
{
    match numbers {
        [] => None,
        [first, rest @ ..] => match number_fault(*first) {
            Some(why) => Some(why),
            None => numbers_fault(rest),
        },
    }
}

/// PKCS#1 of the two numbers of a public key.
fn rsa_public_file(alloc: Global, modulus: &[u8], exponent: &[u8]) -> Result<File, WriteError>
    ensures written { IfOk result (IsFile (rsa_public_file modulus.now exponent.now)) }
    ensures refused { IfErr result (IsUnwritten (rsa_public_file modulus.now exponent.now)) }
{
    if let Some(why) = number_fault(modulus) {
        return refused(why);
    }
    if let Some(why) = number_fault(exponent) {
        return refused(why);
    }
    match rsa_public_der(alloc, modulus, exponent) {
        Ok(bytes) => checked_file(Label::RsaPublicKey, Der { bytes }),
        Err(_) => Err(WriteError::OutOfMemory),
    }
}

/// PKCS#1 of the eight numbers of a private key.
fn rsa_private_file(alloc: Global, rsa: &RsaNumbers<'_>) -> Result<File, WriteError>
    ensures written { IfOk result (IsFile (rsa_private_file (numbers_in rsa.now))) }
    ensures refused { IfErr result (IsUnwritten (rsa_private_file (numbers_in rsa.now))) }
{
    let Some(e) = rsa.public_exponent else {
        return refused(NoFile::NoNumber);
    };
    let Some(d) = rsa.private_exponent else {
        return refused(NoFile::NoNumber);
    };
    let Some(p) = rsa.p else {
        return refused(NoFile::NoNumber);
    };
    let Some(q) = rsa.q else {
        return refused(NoFile::NoNumber);
    };
    let Some(dp) = rsa.prime_exponent_p else {
        return refused(NoFile::NoNumber);
    };
    let Some(dq) = rsa.prime_exponent_q else {
        return refused(NoFile::NoNumber);
    };
    let Some(crt) = rsa.crt_coefficient else {
        return refused(NoFile::NoNumber);
    };
    numbers_file(alloc, &[rsa.modulus, e, d, p, q, dp, dq, crt])
}

/// PKCS#1 of these numbers.
fn numbers_file(alloc: Global, numbers: &[&[u8]]) -> Result<File, WriteError>
    requires { length numbers.now ≤ 8 }
    ensures written { IfOk result
        (IsFile (rsa_private_file (Some (map (λ number. number.now) numbers.now)))) }
    ensures refused { IfErr result
        (IsUnwritten (rsa_private_file (Some (map (λ number. number.now) numbers.now)))) }
{
    if let Some(why) = numbers_fault(numbers) {
        return refused(why);
    }
    match rsa_private_der(alloc, numbers) {
        Ok(bytes) => checked_file(Label::RsaPrivateKey, Der { bytes }),
        Err(_) => Err(WriteError::OutOfMemory),
    }
}

/// The curve with this number, whose name is short.
#[tactic(auto, unfolding(crate::specs::Files::curve_numbered))]
fn curve_of(number: u32) -> Option<&'static Curve>
    ensures value { option_map (λ curve. curve_view curve.now) result ≡ curve_numbered number }
    ensures named { IfSome result (λ curve. length curve.now.name.now < 128) }
{
    curve_numbered(number)
}

/// Whether bytes are a point of a curve, which are not many.
#[tactic(auto, using(crate::proofs::Short::short_point))]
fn is_point_of(curve: &Curve, point: &[u8]) -> bool
    ensures value { result ≡ is_point (curve_view curve.now) point.now }
    ensures short { result ≡ true → length point.now < 2 ^ 24 }
{
    let _bits = curve.bits;
    is_point(curve, point)
}

/// ECPrivateKey of the number of a private key.
fn ec_private_file(alloc: Global, curve: u32, number: &[u8]) -> Result<File, WriteError>
    ensures written { IfOk result (IsFile (ec_private_file number.now (curve_numbered curve))) }
    ensures refused { IfErr result
        (IsUnwritten (ec_private_file number.now (curve_numbered curve))) }
{
    let Some(curve) = curve_of(curve) else {
        return refused(NoFile::NoCurve);
    };
    if let Some(why) = number_fault(number) {
        return refused(why);
    }
    if size_of(number) > curve.octets as usize {
        return refused(NoFile::TooWide);
    }
    match sec1_der(alloc, curve, number) {
        Ok(bytes) => checked_file(Label::EcPrivateKey, Der { bytes }),
        Err(_) => Err(WriteError::OutOfMemory),
    }
}

/// X.509 of the point of a public key.
fn ec_public_file(alloc: Global, curve: u32, point: &[u8]) -> Result<File, WriteError>
    ensures written { IfOk result (IsFile (ec_public_file point.now (curve_numbered curve))) }
    ensures refused { IfErr result
        (IsUnwritten (ec_public_file point.now (curve_numbered curve))) }
{
    let Some(curve) = curve_of(curve) else {
        return refused(NoFile::NoCurve);
    };
    if !is_point_of(curve, point) {
        return refused(NoFile::NoPoint);
    }
    match point_der(alloc, curve, point) {
        Ok(bytes) => checked_file(Label::PublicKey, Der { bytes }),
        Err(_) => Err(WriteError::OutOfMemory),
    }
}

/// The file of Key Material, of an object of this type.
fn material_file(alloc: Global, kind: u32, material: &Material<'_>) -> Result<File, WriteError>
    ensures written { IfOk result (IsFile (material_file kind material.now)) }
    ensures refused { IfErr result (IsUnwritten (material_file kind material.now)) }
{
    match material {
        Material::Bytes { format, bytes } => bytes_file(alloc, label_of(kind, *format), *bytes),
        Material::RsaPublic { modulus, exponent } => {
            if kind == 3 {
                rsa_public_file(alloc, *modulus, *exponent)
            } else {
                refused(NoFile::OtherFormat)
            }
        }
        Material::RsaPrivate(numbers) => {
            if kind == 4 {
                rsa_private_file(alloc, numbers)
            } else {
                refused(NoFile::OtherFormat)
            }
        }
        Material::EcPublic { curve, point } => {
            if kind == 3 {
                ec_public_file(alloc, *curve, *point)
            } else {
                refused(NoFile::OtherFormat)
            }
        }
        Material::EcPrivate { curve, number } => {
            if kind == 4 {
                ec_private_file(alloc, *curve, *number)
            } else {
                refused(NoFile::OtherFormat)
            }
        }
        Material::Other => refused(NoFile::OtherFormat),
    }
}

/// The DER of an object, with the label that it has in PEM: what that label says, or a refusal.
pub fn write_der(alloc: Global, block: &Block<'_>) -> Result<File, WriteError>
    ensures written { IfOk result (IsFile (file_of block.now)) }
    ensures refused { IfErr result (IsUnwritten (file_of block.now)) }
{
    let kind = block.object_type;
    if !(kind == 1 || kind == 3 || kind == 4) {
        return refused(NoFile::OtherType);
    }
    if block.is_wrapped {
        return refused(NoFile::Wrapped);
    }
    material_file(alloc, kind, &block.material)
}

/// The PEM of an object.
pub fn write_pem(alloc: Global, block: &Block<'_>) -> Result<Secret, WriteError>
    ensures written { IfOk result (λ text. pem_of block.now ≡ Ok text) }
    ensures refused { IfErr result (IsUnwritten (file_of block.now)) }
{
    match write_der(alloc, block) {
        Ok(file) => match write(alloc, file.label, file.der.as_slice()) {
            Ok(text) => Ok(text),
            Err(_) => Err(WriteError::OutOfMemory),
        },
        Err(error) => Err(error),
    }
}
