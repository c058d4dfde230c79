//! PEM, read and written: keys and certificates in text (RFC 7468).
#![tactic(auto)]

mod blocks;
mod labels;
mod laws;
mod lines;
mod reading;
mod refusal;
mod secret;
mod writing;

pub use labels::Label;
pub use laws::{answer_is_the_block, one_reading, private_is_apart, written_back};
pub use reading::{Pem, read};
pub use refusal::{NoPem, ReadError};
pub use secret::Secret;
pub use writing::write;
