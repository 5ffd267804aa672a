//! What a kernel without the normal world stands for, and what its threads' activities tell of it.
#![tactic(auto)]

pub mod activities;
