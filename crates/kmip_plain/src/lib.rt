//! Payloads of answers as JSON: as a tree of items, or plain, with a member for each tag.
//!
//! ```rust
//! use kmip_plain::{PayloadForm, push_payload};
//! use kmip_wire::{Node, Tag, Text, Tree};
//!
//! let id = Node::TextString(Text::of(alloc, "8")?);
//! let tree = Tree { tag: Tag::of(0x420094), node: id };
//! let mut text = Vec::new(alloc);
//! push_payload(alloc, PayloadForm::Plain, &tree, &mut text)?;
//! assert_eq!(rt; text.as_slice(), b"\"8\"");
//! ```
#![tactic(auto)]

mod laws;
mod names;
mod payload;
mod plain;
mod table;
mod value;

pub use laws::{payload_names, payload_numbers};
pub use names::plain_name;
pub use payload::{PayloadForm, push_payload};
