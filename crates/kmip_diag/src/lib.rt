//! Diagnostics of messages that may be logged: tags, types, nesting and the numbers of
//! enumerations, and no other value.
//!
//! ```rust
//! use kmip_diag::PrettyPrinter;
//!
//! let mut printer = PrettyPrinter::new();
//! printer.with_tag_prefix(0x4200);
//! let line = printer.to_diag_string(alloc, message)?; // 78[77[69[6Ai6Bi]0Di]0F[5Ce12:79[94t]]]
//! let lines = printer.expand(alloc, line.as_str())?; // Tag: Request Message (0x420078), Type: Structure (0x01), ..
//! ```
#![tactic(auto)]

mod diagnostic;
mod expand;
mod items;
mod laws;
mod lines;
mod print;
mod printer;
mod read;
mod steps;
mod token;

pub use expand::DiagError;
pub use laws::{
    diagnostic_of_an_item, diagnostic_shows_its_bytes, diagnostics_expand,
    diagnostics_tell_skeletons, expansion_is_of_skeletons, one_diagnostic_at_most,
    printing_is_injective,
};
pub use printer::PrettyPrinter;
pub use steps::{contents, front, opening_tag};
