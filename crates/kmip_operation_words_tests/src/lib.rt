//! Tests of kmip_operation_words: the payload of a call of each row, words that are no call, and help
//! texts.
#![tactic(auto)]

#[cfg(test)]
mod help;
#[cfg(test)]
mod payloads;
#[cfg(test)]
mod refusals;
#[cfg(test)]
mod support;
