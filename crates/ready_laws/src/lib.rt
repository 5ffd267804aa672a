//! Handle sets and waits that were told of every change say of readiness what the kernel's state says.
#![tactic(auto)]

pub mod events;
pub mod waits;
