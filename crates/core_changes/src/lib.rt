//! What a kernel's core is asked: what a call looks at, and the changes that it makes, each with the rule as its contract. The system calls are written once, over this trait.
#![tactic(auto)]

pub mod core_changes;
pub mod looks;
pub mod outcomes;

pub use core_changes::CoreChanges;
