//! Calls of a KMIP client by words: which call words ask for, the bytes of its request, and the
//! line of its answer.
//!
//! A program reads a call from the words of a line ([`call_of`]) or from words that were typed
//! ([`typed_call`]), and makes it on a client ([`answer`]). Or it has no link, and carries the
//! bytes itself: [`request_of`] returns those that the call sends, and [`answer_of`] reads those
//! that came back. [`write_out`] writes a whole text to a sink, and [`read_up_to`] reads a source to
//! its end or to a count.
#![tactic(auto)]

mod about;
mod answers;
mod call;
mod ending;
mod items;
mod laws;
mod lines;
mod lookup;
mod offline;
mod raw;
mod refusal;
mod setup;
mod show;
mod strays;
mod streams;

pub use answers::answer;
pub use call::{Call, Recorded, call_alone, call_of, typed_call};
pub use ending::Ending;
pub use kmip_request_words::{
    CallRow, Kind, OptionRow, Rest, WordRow, attribute_rows, bytes_of, calls, copy_text,
    given_after, names_of, number_of, option_given, push_form, refusal_of, why_refused, words_of,
};
pub use laws::{lines_are_json, raw_asks_for_its_request, responses_are_outcomes};
pub use lines::{show_diagnostics, show_sent};
pub use lookup::value_at;
pub use offline::{Settings, answer_of, bytes_if_any, request_of};
pub use raw::RawRequest;
pub use refusal::push_failure;
pub use setup::{client_of, config_of_limit};
pub use show::{push_pair, push_payload, show_done, show_error};
pub use strays::show_failure;
pub use streams::{read_up_to, write_out};
