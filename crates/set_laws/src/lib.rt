//! Laws of handle sets: how deep they stand in one another, and what of the state every step keeps for that.
#![tactic(auto)]

pub mod chains;
pub mod sound;
