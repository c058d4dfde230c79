//! Why a call of a client has no payload.
ghost use Rattle.std.specs.Prelude.{◌≡◌, Some};
ghost use Rattle.kmip_client.specs.Client.{is_connection_error};
ghost use Rattle.kmip_client.specs.Errors.{kind_shown, error_text, error_shown};

use kmip_link::LinkError;
use kmip_wire::{Text, TryClone};
use std::alloc::{AllocError, Global};
use std::fmt::{self, Display, Formatter, Write};

/// What a client's call gives.
pub type Result<T> = std::result::Result<T, Error>;

/// Why a call of a client has no payload.
#[derive(Debug, PartialEq, Eq, Drop)]
pub enum Error {
    /// No call returns this.
    ConfigurationError(Text),
    /// The request has no wire form. Nothing was sent or taken.
    SerializeError(Text),
    /// The link failed before it took the whole request. Nothing was taken.
    RequestWriteError(Text),
    /// The link failed or ended before a whole response. The request was sent.
    ResponseReadError(Text),
    /// The response is not well formed, or longer than the limit. The request was sent.
    DeserializeError(Text),
    /// The server refused the request, or sent another number of batch items than one.
    ServerError(Text),
    /// The response is well formed and is no answer to the request.
    InternalError(Text),
    /// The server refused the request, since it has no such object.
    ItemNotFound(Text),
    /// No call returns this.
    Unknown(Text),
    /// Memory ran out. A part of the request may have been sent, and a part of the response taken.
    OutOfMemory,
}

impl Error {
    /// Whether the link failed or ended, so that nothing more comes of it. It takes no memory.
    pub fn is_connection_error(&self) -> bool
        ensures { result ≡ is_connection_error self.now }
    {
        matches!(
            self,
            Error::RequestWriteError(_) | Error::ResponseReadError(_)
        )
    }

    /// What kind of error it is, as printed before its text. It takes no memory.
    pub fn kind(&self) -> &'static str
        ensures { result.now ≡ kind_shown self.now }
    {
        match self {
            Error::ConfigurationError(_) => "Configuration error: ",
            Error::SerializeError(_) => "Serialize error: ",
            Error::RequestWriteError(_) => "Request send error: ",
            Error::ResponseReadError(_) => "Response read error: ",
            Error::DeserializeError(_) => "Deserialize error: ",
            Error::ServerError(_) => "Server error: ",
            Error::InternalError(_) => "Internal error: ",
            Error::ItemNotFound(_) => "Item not found: ",
            Error::Unknown(_) => "Unknown error: ",
            Error::OutOfMemory => "Out of memory",
        }
    }

    /// Its text, empty where it has none. It takes no memory.
    pub fn text(&self) -> &str
        ensures { result.now ≡ error_text self.now }
    {
        match self {
            Error::ConfigurationError(text) => text.as_str(),
            Error::SerializeError(text) => text.as_str(),
            Error::RequestWriteError(text) => text.as_str(),
            Error::ResponseReadError(text) => text.as_str(),
            Error::DeserializeError(text) => text.as_str(),
            Error::ServerError(text) => text.as_str(),
            Error::InternalError(text) => text.as_str(),
            Error::ItemNotFound(text) => text.as_str(),
            Error::Unknown(text) => text.as_str(),
            Error::OutOfMemory => "",
        }
    }
}

impl Display for Error {
    ghost output = { λ x. Some (error_shown x) };

    fn fmt<W: Write>(&self, f: &mut Formatter<W>) -> fmt::Result {
        f.write_str(self.kind())?;
        f.write_str(self.text())
    }
}

impl std::error::Error for Error {}

impl TryClone for Error {
    fn try_clone(&self, alloc: Global) -> std::result::Result<Error, kmip_wire::OutOfMemory> {
        Ok(match self {
            Error::ConfigurationError(text) => Error::ConfigurationError(text.try_clone(alloc)?),
            Error::SerializeError(text) => Error::SerializeError(text.try_clone(alloc)?),
            Error::RequestWriteError(text) => Error::RequestWriteError(text.try_clone(alloc)?),
            Error::ResponseReadError(text) => Error::ResponseReadError(text.try_clone(alloc)?),
            Error::DeserializeError(text) => Error::DeserializeError(text.try_clone(alloc)?),
            Error::ServerError(text) => Error::ServerError(text.try_clone(alloc)?),
            Error::InternalError(text) => Error::InternalError(text.try_clone(alloc)?),
            Error::ItemNotFound(text) => Error::ItemNotFound(text.try_clone(alloc)?),
            Error::Unknown(text) => Error::Unknown(text.try_clone(alloc)?),
            Error::OutOfMemory => Error::OutOfMemory,
        })
    }
}

impl From<AllocError> for Error {
    ghost use Rattle.std.specs.Prelude.{◌≡◌};
    ghost use Rattle.kmip_client.specs.declared.error.Error.TheVariants.{OutOfMemory};

    ghost from_gives = { λ _ e. e ≡ OutOfMemory };

    fn from(_cause: AllocError) -> Error {
        Error::OutOfMemory
    }
}

impl From<kmip_wire::OutOfMemory> for Error {
    ghost use Rattle.std.specs.Prelude.{◌≡◌};
    ghost use Rattle.kmip_client.specs.declared.error.Error.TheVariants.{OutOfMemory};

    ghost from_gives = { λ _ e. e ≡ OutOfMemory };

    fn from(_cause: kmip_wire::OutOfMemory) -> Error {
        Error::OutOfMemory
    }
}
