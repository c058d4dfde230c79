//! Reads the one block of a text.
ghost use Rattle.std.specs.Prelude.{◌≡◌, IfOk, IfErr};
ghost use Rattle.kmip_pem.specs.Found.{begun_view, pem_view, IsFailure};
ghost use Rattle.kmip_pem.specs.Pem.{pem_in, read_block, decoded};

use crate::blocks::{Begun, digits_in, first_begun, has_header};
use crate::labels::Label;
use crate::refusal::{NoPem, ReadError};
use crate::secret::Secret;
use base64::decoded_len_estimate;
use base64::engine::general_purpose::STANDARD;
use std::alloc::Global;

/// What a text holds.
#[derive(Drop)]
pub struct Pem {
    /// The label of its block.
    pub label: Label,
    /// The bytes of its block.
    pub bytes: Secret,
}

/// The bytes of digits.
fn decoded(alloc: Global, label: Label, digits: &[u8]) -> Result<Pem, ReadError>
    ensures read { IfOk result (λ pem. decoded label digits.now ≡ Ok (pem_view pem)) }
    ensures refused { IfErr result (λ error. IsFailure (decoded label digits.now) error) }
{
    let Ok(mut bytes) = Secret::zeros(alloc, decoded_len_estimate(digits.len())) else {
        return Err(ReadError::OutOfMemory);
    };
    match STANDARD.decode_slice_unchecked(digits, bytes.bytes.as_mut_slice()) {
        Ok(count) => {
            bytes.bytes.truncate(count);
            Ok(Pem { label, bytes })
        }
        Err(_) => Err(ReadError::NoPem(NoPem::NoBase64)),
    }
}

/// Reads a block that stands alone.
fn read_block(alloc: Global, block: Begun) -> Result<Pem, ReadError>
    ensures read { IfOk result (λ pem. read_block (begun_view block.entry) ≡ Ok (pem_view pem)) }
    ensures refused { IfErr result (λ error. IsFailure (read_block (begun_view block.entry)) error) }
{
    if block.label == b"ENCRYPTED PRIVATE KEY".as_slice() || has_header(block.behind) {
        return Err(ReadError::NoPem(NoPem::Encrypted));
    }
    let Some(label) = Label::named(block.label) else {
        return Err(ReadError::NoPem(NoPem::OtherLabel));
    };
    let Ok(found) = digits_in(alloc, block.label, block.behind) else {
        return Err(ReadError::OutOfMemory);
    };
    match found {
        Some(digits) => decoded(alloc, label, digits.as_slice()),
        None => Err(ReadError::NoPem(NoPem::NoEnd)),
    }
}

/// Reads the one block of a text, blocks of parameters aside. White space round a line does not
/// matter, nor what stands outside of the block. The text is not copied but into memory that is
/// overwritten as it is freed.
pub fn read(alloc: Global, text: &[u8]) -> Result<Pem, ReadError>
    ensures read { IfOk result (λ pem. pem_in text.now ≡ Ok (pem_view pem)) }
    ensures refused { IfErr result (λ error. IsFailure (pem_in text.now) error) }
{
    let Some(block) = first_begun(text) else {
        return Err(ReadError::NoPem(NoPem::NoBlock));
    };
    if first_begun(block.behind).is_some() {
        return Err(ReadError::NoPem(NoPem::Several));
    }
    read_block(alloc, block)
}
