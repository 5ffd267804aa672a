//! Handle sets, reports and waits, written once over what a kernel's core is asked.
#![tactic(auto)]

pub mod reports;
pub mod sets;
pub mod step;
pub mod wait_calls;
pub mod waits;
