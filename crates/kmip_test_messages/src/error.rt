//! Why a text is no message in the notation.
use std::alloc::{AllocError, AllocFailed};

/// Why a text is no message in the notation.
#[derive(Debug, Drop)]
pub enum NotationError {
    /// Memory ran out.
    OutOfMemory,
    /// The text is not of the notation.
    Unread {
        /// How many bytes of the text are left where it is not.
        left: usize,
    },
}

impl From<AllocError> for NotationError {
    fn from(_: AllocError) -> NotationError {
        NotationError::OutOfMemory
    }
}

impl<T: Drop> From<AllocFailed<T>> for NotationError {
    fn from(_: AllocFailed<T>) -> NotationError {
        NotationError::OutOfMemory
    }
}
