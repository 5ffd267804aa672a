//! Actors at their scripts: which call comes next, with the registers as the answers so far left them.
#![tactic(auto)]

mod actor;
mod numbers;
mod registers;

pub use actor::Actor;
