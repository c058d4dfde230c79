//! Writes a block as a text.
ghost use Rattle.std.specs.Prelude.{◌≡◌, ◌++◌, ◌∷◌, [], codes, IfOk, OnOk};
ghost use Rattle.base64.specs.GeneralPurpose.{encode_of};
ghost use Rattle.base64.specs.Engines.{standard};
ghost use Rattle.kmip_pem.specs.Labels.{label_text, begin_line, end_line};
ghost use Rattle.kmip_pem.specs.Written.{body_text, pem_text};

use crate::labels::{BEGIN, DASHES, END, Label};
use crate::secret::Secret;
use base64::encoded_len;
use base64::engine::general_purpose::STANDARD;
use std::alloc::{AllocError, Global};

/// The most digits of a line.
const LINE: usize = 64;

/// The base64 of bytes.
fn encoded(alloc: Global, bytes: &[u8]) -> Result<Secret, AllocError>
    ensures { IfOk result (λ digits. digits ≡ encode_of standard bytes.now) }
{
    let Some(size) = encoded_len(bytes.len(), true) else {
        return Err(AllocError);
    };
    let mut digits = Secret::zeros(alloc, size)?;
    match STANDARD.encode_slice(bytes, digits.bytes.as_mut_slice()) {
        Ok(_) => Ok(digits),
        Err(_) => Err(AllocError),
    }
}

/// Appends digits in lines.
fn push_lines(out: &mut Secret, digits: &[u8]) -> Result<(), AllocError>
    ensures { OnOk result (out.new ≡ out.old ++ body_text digits.now) }
{
    let mut rest = digits;
    while rest.len() > 0 {
        let len = LINE.min(rest.len());
        let (line, behind) = rest.split_at(len);
        out.push_all(line)?;
        out.push_all(b"\n")?;
        rest = behind;
    }
    Ok(())
}

/// Appends a line that begins or ends a block.
fn push_boundary(out: &mut Secret, word: &[u8], label: Label) -> Result<(), AllocError>
    ensures { OnOk result (out.new ≡
        out.old ++ ((word.now ++ (label_text label ++ codes "-----")) ++ 10 ∷ [])) }
{
    out.push_all(word)?;
    out.push_all(label.text())?;
    out.push_all(DASHES)?;
    out.push_all(b"\n")
}

/// Writes bytes as a block with this label: base64 in lines of 64 digits, each line with LF behind it.
/// No bytes are a block of no lines.
pub fn write(alloc: Global, label: Label, bytes: &[u8]) -> Result<Secret, AllocError>
    ensures { IfOk result (λ text. text ≡ pem_text label bytes.now) }
{
    let digits = encoded(alloc, bytes)?;
    let count = digits.as_slice().len();
    let mut text = Secret::with_room(alloc, count.saturating_add(count / LINE + 100))?;
    push_boundary(&mut text, BEGIN, label)?;
    push_lines(&mut text, digits.as_slice())?;
    push_boundary(&mut text, END, label)?;
    Ok(text)
}
