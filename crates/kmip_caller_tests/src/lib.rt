//! Tests of kmip_caller, over sinks and sources in memory.
//!
//! A message in a row stands in the notation of kmip_test_messages, as `REQ2(25, C4 i16)`, and in a
//! record as `<REQ2(25, C4 i16)>`. The lines of answers were written by hand.
#![tactic(auto)]

#[cfg(test)]
mod answers;
#[cfg(test)]
mod calls;
#[cfg(test)]
mod commands;
#[cfg(test)]
mod errors;
#[cfg(test)]
mod files;
#[cfg(test)]
mod support;
#[cfg(test)]
mod table;
