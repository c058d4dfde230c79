// Written by tables/generate.py from tables/*.toml: change these instead.
//! The reasons for a failure.

ghost use Rattle.std.specs.Prelude.{◌≡◌, Some, refl};
ghost use Rattle.kmip_enums.specs.ResultReasons.{result_reason_line, result_reason_variants};
ghost use Rattle.kmip_enums.specs.ResultReasons.{result_reason_found};

use kmip_shape::Enumeration;
use std::fmt::{self, Display, Formatter, Write};

/// Why an operation failed: KMIP 1.0, 9.1.3.2.28.
#[derive(Clone, Copy, PartialEq, Eq, Drop)]
pub enum ResultReason {
    /// No object has that identifier or those attributes.
    ItemNotFound = 0x1,
    /// The response is longer than the Maximum Response Size of the request.
    ResponseTooLarge = 0x2,
    /// The credential was not accepted.
    AuthenticationNotSuccessful = 0x3,
    /// The server did not understand the request.
    InvalidMessage = 0x4,
    /// The server does not support the operation.
    OperationNotSupported = 0x5,
    /// A field that is required is absent.
    MissingData = 0x6,
    /// A field has a value that is not allowed.
    InvalidField = 0x7,
    /// The server does not support an optional feature that was asked for.
    FeatureNotSupported = 0x8,
    /// A Cancel operation ended this one.
    OperationCanceledByRequester = 0x9,
    /// The cryptographic operation failed.
    CryptographicFailure = 0xA,
    /// The operation is not allowed on this object or now.
    IllegalOperation = 0xB,
    /// The client may not do it, or the state of the object forbids it.
    PermissionDenied = 0xC,
    /// The object is archived and has to be recovered first.
    ObjectArchived = 0xD,
    /// The attribute has no instance of that index.
    IndexOutOfBounds = 0xE,
    /// The server does not know the application namespace.
    ApplicationNamespaceNotSupported = 0xF,
    /// The server cannot return the key in this format.
    KeyFormatTypeNotSupported = 0x10,
    /// The server cannot return the key in this compression.
    KeyCompressionTypeNotSupported = 0x11,
    /// Any other failure.
    GeneralFailure = 0x100,
}

impl Enumeration for ResultReason {
    ghost line = { result_reason_line };

    ghost variants = { result_reason_variants };

    fn number(self) -> u32 {
        self as u32
    }

    fn from_number(number: u32) -> Option<ResultReason> {
        match number {
            0x1 => Some(ResultReason::ItemNotFound),
            0x2 => Some(ResultReason::ResponseTooLarge),
            0x3 => Some(ResultReason::AuthenticationNotSuccessful),
            0x4 => Some(ResultReason::InvalidMessage),
            0x5 => Some(ResultReason::OperationNotSupported),
            0x6 => Some(ResultReason::MissingData),
            0x7 => Some(ResultReason::InvalidField),
            0x8 => Some(ResultReason::FeatureNotSupported),
            0x9 => Some(ResultReason::OperationCanceledByRequester),
            0xA => Some(ResultReason::CryptographicFailure),
            0xB => Some(ResultReason::IllegalOperation),
            0xC => Some(ResultReason::PermissionDenied),
            0xD => Some(ResultReason::ObjectArchived),
            0xE => Some(ResultReason::IndexOutOfBounds),
            0xF => Some(ResultReason::ApplicationNamespaceNotSupported),
            0x10 => Some(ResultReason::KeyFormatTypeNotSupported),
            0x11 => Some(ResultReason::KeyCompressionTypeNotSupported),
            0x100 => Some(ResultReason::GeneralFailure),
            _ => None,
        }
    }

    fn name(self) -> &'static str {
        match self {
            ResultReason::ItemNotFound => "ItemNotFound",
            ResultReason::ResponseTooLarge => "ResponseTooLarge",
            ResultReason::AuthenticationNotSuccessful => "AuthenticationNotSuccessful",
            ResultReason::InvalidMessage => "InvalidMessage",
            ResultReason::OperationNotSupported => "OperationNotSupported",
            ResultReason::MissingData => "MissingData",
            ResultReason::InvalidField => "InvalidField",
            ResultReason::FeatureNotSupported => "FeatureNotSupported",
            ResultReason::OperationCanceledByRequester => "OperationCanceledByRequester",
            ResultReason::CryptographicFailure => "CryptographicFailure",
            ResultReason::IllegalOperation => "IllegalOperation",
            ResultReason::PermissionDenied => "PermissionDenied",
            ResultReason::ObjectArchived => "ObjectArchived",
            ResultReason::IndexOutOfBounds => "IndexOutOfBounds",
            ResultReason::ApplicationNamespaceNotSupported => "ApplicationNamespaceNotSupported",
            ResultReason::KeyFormatTypeNotSupported => "KeyFormatTypeNotSupported",
            ResultReason::KeyCompressionTypeNotSupported => "KeyCompressionTypeNotSupported",
            ResultReason::GeneralFailure => "GeneralFailure",
        }
    }

    ghost found = { result_reason_found };

    ghost distinct = { refl };
}

impl Display for ResultReason {
    ghost output = { λ x. Some (result_reason_line x).name };

    fn fmt<W: Write>(&self, f: &mut Formatter<W>) -> fmt::Result {
        f.write_str(self.name())
    }
}
