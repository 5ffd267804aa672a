//! Laws of the model: what holds in every state and every entry of every history that begins in an opening state.
#![tactic(auto)]

pub mod actors;
pub mod limits;
pub mod numbers;
pub mod stories;
