//! The blocks that begin in a text, and the digits of one.
ghost use Rattle.std.specs.Prelude.{◌≡◌, ◌++◌, Some, None, option_map, IfOk, OnOk, true};
ghost use Rattle.kmip_pem.specs.Lines.{lines_in};
ghost use Rattle.kmip_pem.specs.Pem.{is_closed, is_aside, first_begun, digits_in, has_header};
ghost use Rattle.kmip_pem.specs.Found.{begun_view};

use crate::labels::{begun_by, ends, is_of_parameters};
use crate::lines::first_line;
use crate::secret::Secret;
use std::alloc::{AllocError, Global};

/// A block that begins.
#[derive(Clone, Copy, Drop)]
pub(crate) struct Begun<'a> {
    /// Its label.
    pub label: &'a [u8],
    /// The text behind its first line.
    pub behind: &'a [u8],
}

/// Whether a text ends the block of this label before another begins.
#[tactic(auto, using(crate::proofs::Loops::no_lines))]
fn is_closed(label: &[u8], text: &[u8]) -> bool
    ensures { result ≡ is_closed label.now (lines_in text.now) }
{
    let mut rest = text;
    while rest.len() > 0 {
        let found = first_line(rest);
        if ends(label, found.line) {
            return true;
        }
        if begun_by(found.line).is_some() {
            return false;
        }
        rest = found.behind;
    }
    false
}

/// Whether a block is one of parameters, and whole.
fn is_aside(label: &[u8], behind: &[u8]) -> bool
    ensures { result ≡ is_aside label.now (lines_in behind.now) }
{
    is_of_parameters(label) && is_closed(label, behind)
}

/// The first block that begins in a text, but for those of parameters.
#[tactic(auto, using(crate::proofs::Loops::no_lines))]
pub(crate) fn first_begun<'a>(text: &'a [u8]) -> Option<Begun<'a>>
    ensures { option_map begun_view result ≡ first_begun (lines_in text.now) }
{
    let mut rest = text;
    while rest.len() > 0 {
        let found = first_line(rest);
        if let Some(label) = begun_by(found.line) {
            if !is_aside(label, found.behind) {
                return Some(Begun {
                    label,
                    behind: found.behind,
                });
            }
        }
        rest = found.behind;
    }
    None
}

/// Whether the first line is the header of an encrypted key (RFC 1421, 4.6.1.1).
#[tactic(auto, using(crate::proofs::Loops::no_lines))]
pub(crate) fn has_header(text: &[u8]) -> bool
    ensures { result ≡ has_header (lines_in text.now) }
{
    text.len() > 0 && first_line(text).line == b"Proc-Type: 4,ENCRYPTED".as_slice()
}

/// The digits of a block to its end; none where it has no end.
#[tactic(auto, using(crate::proofs::Loops::digits_none, crate::proofs::Loops::digits_more, crate::proofs::Loops::digits_end, crate::proofs::Loops::no_lines))]
pub(crate) fn digits_in(
    alloc: Global,
    label: &[u8],
    text: &[u8],
) -> Result<Option<Secret>, AllocError>
    ensures { IfOk result (λ digits. digits ≡ digits_in label.now (lines_in text.now)) }
{
    let mut digits = Secret::with_room(alloc, text.len())?;
    let mut rest = text;
    while rest.len() > 0 {
        let found = first_line(rest);
        if ends(label, found.line) {
            return Ok(Some(digits));
        }
        digits.push_all(found.line)?;
        rest = found.behind;
    }
    Ok(None)
}
