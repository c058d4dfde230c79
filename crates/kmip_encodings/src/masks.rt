// Written by tables/generate.py from tables/*.toml: change these instead.
//! The bits of masks, by the tag that a mask stands under and their names: those by OASIS's rule, and
//! kmip-protocol's where they differ.
ghost use Rattle.std.specs.Prelude.{◌≡◌, map};
ghost use Rattle.kmip_encodings.specs.Masks.{cryptographic_usage_bits};
ghost use Rattle.kmip_encodings.specs.Masks.{cryptographic_usage_bit_1};
ghost use Rattle.kmip_encodings.specs.Masks.{cryptographic_usage_bit_2};
ghost use Rattle.kmip_encodings.specs.Masks.{cryptographic_usage_bit};
ghost use Rattle.kmip_encodings.specs.Masks.{storage_status_bits};
ghost use Rattle.kmip_encodings.specs.Masks.{storage_status_bit};
ghost use Rattle.kmip_encodings.specs.Masks.{is_mask};
ghost use Rattle.kmip_encodings.specs.Masks.{mask_bits};
ghost use Rattle.kmip_encodings.specs.Masks.{mask_bit};

use kmip_tags::tags;
use kmip_wire::Tag;

pub(crate) const CRYPTOGRAPHIC_USAGE_BITS: [(u32, &str); 20] = [
    (0x1, "Sign"),
    (0x2, "Verify"),
    (0x4, "Encrypt"),
    (0x8, "Decrypt"),
    (0x10, "WrapKey"),
    (0x20, "UnwrapKey"),
    (0x40, "Export"),
    (0x80, "MACGenerate"),
    (0x100, "MACVerify"),
    (0x200, "DeriveKey"),
    (0x400, "ContentCommitmentNonRepudiation"),
    (0x800, "KeyAgreement"),
    (0x1000, "CertificateSign"),
    (0x2000, "CRLSign"),
    (0x4000, "GenerateCryptogram"),
    (0x8000, "ValidateCryptogram"),
    (0x10000, "TranslateEncrypt"),
    (0x20000, "TranslateDecrypt"),
    (0x40000, "TranslateWrap"),
    (0x80000, "TranslateUnwrap"),
];

static CRYPTOGRAPHIC_USAGE_BITS_TABLE: [(u32, &str); 20] = CRYPTOGRAPHIC_USAGE_BITS;

fn cryptographic_usage_bits() -> &'static [(u32, &'static str)]
    ensures { map (λ bit. (bit.0, bit.1.now)) result.now ≡ cryptographic_usage_bits }
{
    &CRYPTOGRAPHIC_USAGE_BITS_TABLE
}

fn cryptographic_usage_bit_1(name: &str) -> Option<u32>
    ensures { result ≡ cryptographic_usage_bit_1 name.now }
{
    match name {
        "Sign" => Some(0x1),
        "Verify" => Some(0x2),
        "Encrypt" => Some(0x4),
        "Decrypt" => Some(0x8),
        "WrapKey" => Some(0x10),
        "UnwrapKey" => Some(0x20),
        "Export" => Some(0x40),
        "MACGenerate" => Some(0x80),
        _ => None,
    }
}

fn cryptographic_usage_bit_2(name: &str) -> Option<u32>
    ensures { result ≡ cryptographic_usage_bit_2 name.now }
{
    match name {
        "MACVerify" => Some(0x100),
        "DeriveKey" => Some(0x200),
        "ContentCommitmentNonRepudiation" => Some(0x400),
        "KeyAgreement" => Some(0x800),
        "CertificateSign" => Some(0x1000),
        "CRLSign" => Some(0x2000),
        "GenerateCryptogram" => Some(0x4000),
        "ValidateCryptogram" => Some(0x8000),
        _ => cryptographic_usage_bit_1(name),
    }
}

fn cryptographic_usage_bit(name: &str) -> Option<u32>
    ensures { result ≡ cryptographic_usage_bit name.now }
{
    match name {
        "TranslateEncrypt" => Some(0x10000),
        "TranslateDecrypt" => Some(0x20000),
        "TranslateWrap" => Some(0x40000),
        "TranslateUnwrap" => Some(0x80000),
        "MacGenerate" => Some(0x80),
        "MacVerify" => Some(0x100),
        "CrlSign" => Some(0x2000),
        _ => cryptographic_usage_bit_2(name),
    }
}

pub(crate) const STORAGE_STATUS_BITS: [(u32, &str); 2] = [
    (0x1, "OnLineStorage"),
    (0x2, "ArchivalStorage"),
];

static STORAGE_STATUS_BITS_TABLE: [(u32, &str); 2] = STORAGE_STATUS_BITS;

fn storage_status_bits() -> &'static [(u32, &'static str)]
    ensures { map (λ bit. (bit.0, bit.1.now)) result.now ≡ storage_status_bits }
{
    &STORAGE_STATUS_BITS_TABLE
}

fn storage_status_bit(name: &str) -> Option<u32>
    ensures { result ≡ storage_status_bit name.now }
{
    match name {
        "OnLineStorage" => Some(0x1),
        "ArchivalStorage" => Some(0x2),
        _ => None,
    }
}

/// Whether an Integer under the tag is a mask.
pub(crate) fn is_mask(tag: Tag) -> bool
    ensures { result ≡ is_mask tag }
{
    match tag.number() {
        tags::CRYPTOGRAPHIC_USAGE_MASK => true,
        tags::STORAGE_STATUS_MASK => true,
        _ => false,
    }
}

/// The bits that have names in the mask under the tag, the lowest first, with their names by OASIS's
/// rule; none where the tag is none of a mask.
pub(crate) fn mask_bits(tag: Tag) -> &'static [(u32, &'static str)]
    ensures { map (λ bit. (bit.0, bit.1.now)) result.now ≡ mask_bits tag }
{
    match tag.number() {
        tags::CRYPTOGRAPHIC_USAGE_MASK => cryptographic_usage_bits(),
        tags::STORAGE_STATUS_MASK => storage_status_bits(),
        _ => &[],
    }
}

/// The bit with this name in the mask under the tag; `None` where the tag is none of a mask, or there
/// is no such bit.
pub fn mask_bit(tag: Tag, name: &str) -> Option<u32>
    ensures { result ≡ mask_bit tag name.now }
{
    match tag.number() {
        tags::CRYPTOGRAPHIC_USAGE_MASK => cryptographic_usage_bit(name),
        tags::STORAGE_STATUS_MASK => storage_status_bit(name),
        _ => None,
    }
}
