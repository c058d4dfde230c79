//! The wire form of KMIP (KMIP 1.0, 9.1): items of a tag, a type, a length and a value, called
//! TTLV.
//!
//! The *head* of an item is its first 8 bytes: the tag, the type and the length of the value.
//! *Pads* are the zeros after a value, up to a multiple of 8 bytes. An item that stands in no
//! Structure has *level* 1, and a child has its parent's level plus 1. No level is above 64.
//!
//! ```rust
//! use kmip_wire::{ItemRef, Kind, Tag};
//!
//! // a batch count of 1
//! let bytes = b"\x42\x00\x0D\x02\x00\x00\x00\x04\x00\x00\x00\x01\x00\x00\x00\x00";
//! if let Some(item) = ItemRef::root(bytes) {
//!     assert_eq!(rt; item.tag(), Tag::of(0x42000D));
//!     assert!(rt; matches!(item.kind(), Kind::Integer));
//!     assert_eq!(rt; item.int(), Some(1));
//! }
//! ```
//!
//! [`ItemRef::root`] checks the bytes once and then gives their parts without a copy. [`read_tree`]
//! and [`write_tree`] read and write trees that own their parts. [`check`] and [`front_len`] take
//! no memory.
#![tactic(auto)]

mod boxed;
mod buffer;
mod config;
mod error;
mod front;
mod item;
mod kind;
mod laws;
mod list;
mod memory;
mod read;
mod tag;
mod text;
mod tree;
mod value;
mod write;

pub use boxed::Boxed;
pub use buffer::Buffer;
pub use config::{Config, head};
pub use error::{HeadError, WireError};
pub use front::{check, front_len, front_len_at};
pub use item::{Children, ItemRef};
pub use kind::Kind;
pub use laws::{
    equality, front_computed, list_equality, one_text, one_tree, parsed_levels, parsed_ranges,
    tree_computed, written_parses,
};
pub use list::{List, clone_items};
pub use memory::{OutOfMemory, TryClone, clone_optional, wipe};
pub use read::{read_tree, split_front};
pub use tag::Tag;
pub use text::{Blob, Text};
pub use tree::{Node, Tree, Trees};
pub use write::write_tree;
