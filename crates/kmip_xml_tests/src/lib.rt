//! Tests of kmip_xml: items as bytes and as XML, both written by hand.
#![tactic(auto)]

#[cfg(test)]
mod items;
#[cfg(test)]
mod messages;
#[cfg(test)]
mod refusals;
#[cfg(test)]
mod texts;
#[cfg(test)]
mod vectors;
