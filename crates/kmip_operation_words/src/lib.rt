//! Calls by words of the operations that a client has no typed call for, as rows of one table.
//!
//! `encrypt 5 68656C6C6F mode=CBC iv=00112233445566778899AABBCCDDEEFF` is the call of Encrypt whose
//! payload has the Unique Identifier `5`, Cryptographic Parameters with the Block Cipher Mode, the
//! Data and the IV/Counter/Nonce: [`table_call`] makes it of the words, and [`operation_calls`] is
//! the table that says so. A call is a row: an operation, and the fields of its payload in KMIP's
//! order, each with the word that gives it.
#![tactic(auto)]

mod bytes;
mod calls;
mod command;
mod fields;
mod forms;
mod help;
mod items;
mod laws;
mod refusals;
mod rows;
mod table;
mod values;

pub use bytes::takes_bytes;
pub use calls::{operation_row, operation_words};
pub use command::table_call;
pub use forms::push_operation_form;
pub use help::operation_help;
pub use laws::{call_names, payloads};
pub use refusals::{operation_refusal, why_no_call};
pub use rows::{FieldRow, Form, Group, Kind, OperationRow, PartRow, Place, Rest};
pub use table::operation_calls;
