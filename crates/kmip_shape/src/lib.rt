//! Typed values as items: what a value of a type means, how it is encoded as a tree of items, and
//! the traits by which types of items are written, read and shown.
//!
//! A type implements `Item`, and then what it needs of `WriteItem`, `ReadItem` and `ShowItem`. The
//! rows of a record are one type, as `Row<One<AttributeName, ATTRIBUTE_NAME>,
//! Row<Opt<AttributeIndex, ATTRIBUTE_INDEX>, End>>`, by which it is read (`read_record`), written
//! (`record_len`, `write_record`) and shown (`show_record`).
#![tactic(auto)]

pub mod big;
mod boxed;
pub mod by_tag;
pub mod children;
mod copies;
mod enumeration;
mod item;
mod item_lists;
mod laws;
mod plain;
pub mod read;
pub mod record;
pub mod row_readers;
pub mod row_writers;
pub mod scalars;
pub mod show;
mod style;
mod text_writer;
mod wrapped;
mod write;

pub use big::{BigOne, BigOpt};
pub use by_tag::{OfTag, TagOpt};
pub use children::{read_list, read_one, read_opt};
pub use copies::{copy_list, copy_optional_list};
pub use enumeration::{Enumeration, distinct};
pub use item::{Item, WriteItem};
pub use item_lists::{begin_structure, fits_items, plus_len, structure_len, write_list};
pub use kmip_wire::{Blob, Boxed, Buffer, List, OutOfMemory, Text, TryClone};
pub use laws::{json_is_json, read_back, read_selected, shown_as_json, written};
pub use read::{Outer, ReadError, ReadItem, ReadRoot, read_root};
pub use record::read_record;
pub use row_writers::{fits_record, record_len, show_record, write_record};
pub use show::{ShowItem, show_case, show_in_brackets};
pub use style::Style;
pub use text_writer::TextWriter;
pub use wrapped::{BigInteger, Timestamp};
pub use write::{item_len, to_blob, write_item};
