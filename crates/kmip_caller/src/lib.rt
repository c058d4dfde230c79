//! One call of a KMIP client over a sink and a source: what the program `kmip_call` does with its
//! words and its standard streams.
//!
//! The words after the program's name are read by [`command_of`]. Where they are a call, [`run`]
//! writes its request to a sink, reads one response from a source, and writes the answer as a line
//! of JSON; where they are none, [`refuse`] writes why. Words of a call may name files: [`file_in`]
//! returns the name of one, and [`with_contents`] the words with what the file has in its place.
//! How a run ends is a [`Status`]. The words of all calls are printed by [`help_text`],
//! [`grammar_json`] and [`operations_text`].
#![tactic(auto)]

mod command;
mod exchange;
mod help;
mod last_error;
mod program;
mod record;
mod refusal;
mod requested;
mod words;

pub use command::{Command, Order, command_of};
pub use help::{grammar_json, help_text, operations_text};
pub use last_error::{LastError, Watched};
pub use program::{Status, run};
pub use record::records_read_back;
pub use refusal::{CLOSED_STREAM, NO_FILE, NOT_UTF8, WRONG_LIMIT, refusals_are_json, refuse};
pub use words::{file_in, with_contents};
