//! Tests of kmip_words and kmip_operations: calls by words and calls of any operation, offline, and
//! the table of calls beside what reads them.
#![tactic(auto)]

#[cfg(test)]
mod fetched;
#[cfg(test)]
mod grammar;
#[cfg(test)]
mod objections;
#[cfg(test)]
mod operations;
#[cfg(test)]
mod requests;
#[cfg(test)]
mod support;
#[cfg(test)]
mod values;
#[cfg(test)]
mod words;
