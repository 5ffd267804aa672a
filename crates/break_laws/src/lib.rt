//! Laws of a break: what it leaves of the kernel.
#![tactic(auto)]

pub mod breaks;
