//! Laws of objects: what the end of a step leaves of them, and that none outlives its last name.
#![tactic(auto)]

pub mod lives;
