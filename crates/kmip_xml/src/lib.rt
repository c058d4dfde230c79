//! XML of KMIP's additional encodings, read as trees of items.
//!
//! ```rust
//! use kmip_xml::from_xml;
//!
//! let tree = from_xml(alloc, "<BatchCount type=\"Integer\" value=\"1\"/>")?;
//! assert_eq!(rt; tree.tag.number(), 0x42000D);
//! ```
#![tactic(auto)]

mod attributes;
mod error;
mod markup;
mod read;
mod refusal;
mod scalars;
mod scan;
mod start;
mod text;
mod values;

pub use error::{Misfit, Wanted, XmlError};
pub use read::from_xml;
pub use refusal::refusal_of;
pub use text::{TextError, from_text, text_refusal_of};
