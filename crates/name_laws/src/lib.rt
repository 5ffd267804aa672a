//! Laws of names: each object that an entry names is there.
#![tactic(auto)]

pub mod names;
