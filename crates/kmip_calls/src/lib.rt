//! Calls by words that are given as they are: no caller quotes or escapes.
//!
//! A [`Word`] is a text or data. [`call_of_words`] finds the call that words ask for, a typed one
//! of kmip_words or an operation of the table of kmip_operation_words; [`request_of_words`] returns
//! the bytes that it sends, and [`answer_to_words`] reads those that came back. [`refusal_of_words`]
//! says why words are no call, and [`value_in`] takes a single value out of an answer.
#![tactic(auto)]

mod answer;
mod call;
mod items;
mod laws;
mod places;
mod refusal;
mod value;
mod written;

pub use answer::{LineAnswer, answer_to_words, request_of_words};
pub use call::{WordsCall, call_of_words};
pub use laws::{data_words, text_words};
pub use refusal::refusal_of_words;
pub use value::value_in;
pub use written::{Word, written_words};
