//! The types that wrap one value: names and identifiers, numbers, parameters and bytes.
//!
//! Each is one item, and is read, written and shown as the value that it wraps.
#![tactic(auto)]

mod attribute_name;
mod byte_strings;
mod numbers;
mod parameters;
mod texts;

pub use attribute_name::AttributeName;
pub use byte_strings::{Data, UniqueBatchItemID};
pub use numbers::{AttributeIndex, CompromiseOccurrenceDate, CryptographicLength, DataLength};
pub use parameters::{
    CounterLength, FixedFieldLength, IVLength, InitialCounterValue, InvocationFieldLength,
    RandomIV, TagLength,
};
pub use texts::{
    ApplicationData, ApplicationNamespace, LinkedObjectIdentifier, NameValue, RevocationMessage,
    UniqueIdentifier,
};
