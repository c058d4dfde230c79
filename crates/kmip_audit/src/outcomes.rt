//! What an exchange came to.
ghost use Rattle.std.specs.Prelude.{◌≡◌, Some};
ghost use Rattle.kmip_audit.specs.Printed.{outcome_words, outcome_name, outcome_text};

use kmip_enums::{Operation, ResultReason};
use kmip_shape::Enumeration;
use std::fmt::{self, Display, Formatter, Write};

/// What an exchange came to: the first of these that fits.
#[derive(Clone, Copy, PartialEq, Eq, Drop)]
pub enum Outcome {
    /// There is no request, but a response.
    NoRequest,
    /// No matched request has these bytes, with any credential.
    UnreadRequest,
    /// There is no response.
    NoResponse,
    /// The response is not one well-formed item.
    Malformed,
    /// The response is one well-formed item, but no response message.
    Unread,
    /// The batch count is not 1, or there is not exactly one batch item (KMIP 1.0, 6.14 and 6.15).
    NotOne,
    /// The operation failed, for the reason that the server gives (KMIP 1.0, 6.10).
    Failed(Option<ResultReason>),
    /// The server has not completed the operation yet (KMIP 1.0, 6.9).
    Pending,
    /// The server has undone the operation (KMIP 1.0, 6.9).
    Undone,
    /// The batch item is of another operation than the request, or of none (KMIP 1.0, 6.2).
    OtherOperation(Option<Operation>),
    /// The batch item has no payload.
    NoPayload,
    /// The operation was answered with its payload.
    Answered(Operation),
}

impl Outcome {
    /// The words of an outcome.
    fn words(self) -> &'static str
        ensures { result.now ≡ outcome_words self }
    {
        match self {
            Outcome::NoRequest => "no request",
            Outcome::UnreadRequest => "unread request",
            Outcome::NoResponse => "no response",
            Outcome::Malformed => "malformed response",
            Outcome::Unread => "unread response",
            Outcome::NotOne => "not one item",
            Outcome::Failed(_) => "failed ",
            Outcome::Pending => "pending",
            Outcome::Undone => "undone",
            Outcome::OtherOperation(_) => "other operation ",
            Outcome::NoPayload => "no payload",
            Outcome::Answered(_) => "answered ",
        }
    }

    /// The name that follows the words, of a reason or an operation.
    fn name(self) -> &'static str
        ensures { result.now ≡ outcome_name self }
    {
        match self {
            Outcome::Failed(Some(reason)) => reason.name(),
            Outcome::OtherOperation(Some(operation)) => operation.name(),
            Outcome::Failed(None) | Outcome::OtherOperation(None) => "none",
            Outcome::Answered(operation) => operation.name(),
            _ => "",
        }
    }
}

impl Display for Outcome {
    ghost output = { λ outcome. Some (outcome_text outcome) };

    fn fmt<W: Write>(&self, f: &mut Formatter<W>) -> fmt::Result {
        f.write_str(self.words())?;
        f.write_str(self.name())
    }
}
