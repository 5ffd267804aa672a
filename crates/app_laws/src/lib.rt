//! Laws of applications: what one that does not run leaves behind in the state.
#![tactic(auto)]

pub mod ended;
