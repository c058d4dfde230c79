//! Trees of items as JSON and XML (KMIP Additional Message Encodings), and JSON read as trees.
//!
//! ```rust
//! use kmip_encodings::to_json;
//! use kmip_wire::{Node, Tag, Tree};
//!
//! let tree = Tree { tag: Tag::of(0x42000D), node: Node::Integer(1) };
//! let mut text = Vec::new(alloc);
//! to_json(alloc, &tree, &mut text)?;
//! assert_eq!(rt; text.as_slice(), b"{\"tag\":\"BatchCount\",\"type\":\"Integer\",\"value\":1}");
//! ```
#![tactic(auto)]

mod attributes;
mod context;
mod date;
mod error;
mod expected;
mod found;
mod laws;
mod lines;
mod masks;
mod names;
mod read_json;
mod refusal;
mod table;
mod text;
mod words;
mod write_json;
mod write_xml;

pub use attributes::attribute_tag;
pub use context::{named_after, place, unnamed};
pub use date::date_number;
pub use error::{EncodingError, Expected, Fault};
pub use expected::push_number_words;
pub use found::{Found, column_of, line_of};
pub use laws::{item_sizes, names_back, read_back, read_levels, written_xml};
pub use masks::mask_bit;
pub use names::{enumeration_name, enumeration_number};
pub use read_json::{
    bits_of_parts, from_json, hex_bytes, kind_named, long_in, number_node, parts_between, spelled,
    string_node, tag_of_text, whole_number, word_in,
};
pub use refusal::{Refusal, push_refusal, refusal_of};
pub use text::{mask_text, tag_digits};
pub use words::{tag_named, tag_word};
pub use write_json::{put_value, to_json, to_json_with_offsets};
pub use write_xml::to_xml;
