//! Requests by words: what a word stands for, what options give, and the request that the words of
//! a call with options ask for.
//!
//! [`words_of`] takes a line apart; [`word_text`], [`bytes_of`], [`int_of`], [`number_of`] and
//! their kin read a word. An option is a word `name=VALUE`: [`option_given`] takes one from the
//! front of words, and [`value_given`] finds one among them. [`asked_in`] returns the request of a
//! call with options, as `sign k1 00FF hash=SHA384`, and [`why_refused`] says of which words no
//! call is made although they are of the grammar. The requests of the calls that a client has no
//! helper for are here too, as [`locate_request`].
#![tactic(auto)]

mod asked;
mod attributes;
mod coded;
mod complaints;
mod given;
mod grammar;
mod keys;
mod kinds;
mod options;
mod refusals;
mod requests;
mod values;
mod words;

pub use asked::asked_in;
pub use complaints::{push_form, refusal_of};
pub use grammar::{CallRow, Kind, OptionRow, Rest, WordRow, attribute_rows, calls, row_of};
pub use keys::table_name;
pub use kinds::names_of;
pub use options::{are_options, copy_text, given_after, option_given, value_given};
pub use refusals::why_refused;
pub use requests::{attributes_request, create_aes_request, discover_request, locate_request};
pub use values::{bytes_of, count_of, int_of, long_of, number_of, word_text};
pub use words::{parts_between, words_of};
