//! How a call ended.
ghost use Rattle.std.specs.Prelude.{◌≡◌};
ghost use Rattle.kmip_words.specs.Exchange.{error_ending, fails};

use kmip_client::Error;

/// How a call ended.
#[derive(Clone, Copy, Debug, PartialEq, Eq, Drop)]
pub enum Ending {
    /// It returned a payload, or that it was done.
    Answered,
    /// It returned an error, and its whole response was taken, or nothing was sent: the link is
    /// good for the next call.
    Refused,
    /// The link failed or ended, or gave bytes that are no message, or a response that is none to
    /// the call: no further call is to be made on it.
    Lost,
}

impl Ending {
    /// Whether the call returned an error. It takes no memory.
    pub fn is_failure(self) -> bool
        ensures { result ≡ fails self }
    {
        match self {
            Ending::Answered => false,
            Ending::Refused | Ending::Lost => true,
        }
    }

    /// How a call that returned this error ended; of `OutOfMemory`, which leaves the state of the
    /// link unknown, it says `Refused`. It takes no memory.
    pub fn of_error(error: &Error) -> Ending
        ensures { result ≡ error_ending error.now }
    {
        match error {
            Error::RequestWriteError(_)
            | Error::ResponseReadError(_)
            | Error::DeserializeError(_) => Ending::Lost,
            _ => Ending::Refused,
        }
    }
}
