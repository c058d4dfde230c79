//! A text of XML or of JSON, read as a tree.
ghost use Rattle.std.specs.Prelude.{◌≡◌, IfOk, MatchResult};
ghost use Rattle.kmip_xml.specs.Texts.{looks_like_xml, Means, Unread, Tells};

use crate::error::XmlError;
use crate::read::from_xml;
use crate::refusal::refusal_of;
use crate::scan::{after, trimmed};
use kmip_encodings::{EncodingError, Refusal, from_json};
use kmip_wire::{OutOfMemory, Tree};
use std::alloc::Global;

/// Why a text is not read as a tree.
#[derive(Drop)]
pub enum TextError {
    /// The first mark of the text is `<`, and it is no XML that means a tree; or memory ran out.
    Xml(XmlError),
    /// It is another, and the text is no JSON that means a tree; or memory ran out.
    Json(EncodingError),
}

/// Whether the first mark of the text is `<`, as XML's is and JSON's is not.
fn looks_like_xml(text: &str) -> bool
    ensures { result ≡ looks_like_xml text.now }
{
    after("<", trimmed(text)).is_some()
}

/// The tree of a text: of XML, as `from_xml` reads it, where the first mark behind white space is
/// `<`, and else of JSON, as `from_json` of kmip_encodings does. `text_refusal_of` says an error to
/// a person.
pub fn from_text(alloc: Global, text: &str) -> Result<Tree, TextError>
    ensures { MatchResult result (Means text.now) (Unread text.now) }
{
    if looks_like_xml(text) {
        return match from_xml(alloc, text) {
            Ok(tree) => Ok(tree),
            Err(error) => Err(TextError::Xml(error)),
        };
    }
    match from_json(alloc, text) {
        Ok(tree) => Ok(tree),
        Err(error) => Err(TextError::Json(error)),
    }
}

/// Why this text is not read: the error is that of `from_text` for the same text. It fails only
/// where memory runs out.
pub fn text_refusal_of(alloc: Global, text: &str, error: &TextError) -> Result<Refusal, OutOfMemory>
    ensures { IfOk result (λ refusal. Tells text.now error.now refusal) }
{
    match error {
        TextError::Xml(error) => refusal_of(alloc, text, error),
        TextError::Json(error) => kmip_encodings::refusal_of(alloc, text, error),
    }
}
