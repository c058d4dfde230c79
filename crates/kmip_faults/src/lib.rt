//! What stands at the front of any bytes, and where bytes stop being items, and why.
#![tactic(auto)]

mod fault;
mod steps;

pub use fault::{Fault, fault_of, fault_text};
pub use steps::{Step, step_at};
