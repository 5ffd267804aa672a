//! Laws of runs: that the actors of a scene never come to a stand before their run is whole, and that each of their calls but the
//! last has its answer.
#![tactic(auto)]

pub mod answers;
pub mod progress;
