//! Messages of tests in a notation that is read at a glance, and the bytes that they stand for.
//!
//! Tests alone use it. It writes items by rules of its own (KMIP 1.0, 9.1), and calls no crate that
//! is tested. `TT` are two hex digits of a tag 0x4200TT, or six of any tag:
//!
//! | notation | item |
//! |---|---|
//! | `TT{A,B}` | Structure of the items `A` and `B` |
//! | `TT^3{A}` | three such structures, each in the one before |
//! | `TT i5` | Integer, in decimal digits |
//! | `TT l5` | Long Integer |
//! | `TT b0A0B` | Big Integer, in hex |
//! | `TT eB` | Enumeration, in hex |
//! | `TT o1` | Boolean, 0 or 1 |
//! | `TT "text"` | Text String, in which `\"`, `\\`, `\n` and `\x1F` stand for one character |
//! | `TT xAABB` | Byte String, in hex |
//! | `TT d1` | Date-Time |
//! | `TT n60` | Interval |
//! | `!AABB` | these bytes as they stand, in hex: what is no item |
//! | `REQm(op, A)` | request of KMIP 1.m for the operation of this number, in hex, with the payload `A` |
//! | `OKm(op, A)` | its response of success |
//! | `RESm(A)` | response with the batch item `A` |
#![tactic(auto)]

mod error;
mod notation;
mod reader;
mod writer;

pub use error::NotationError;
pub use notation::{expand, message};
