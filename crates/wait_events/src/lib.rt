//! Waits and what they wait for: which of them have something to report or may end otherwise, by what was told
//! of objects, of tables, of connects and of the clock.
#![tactic(auto)]

pub mod table;
#[cfg(test)]
mod tests;
pub mod waits;
pub mod watch;

pub use table::TableWatch;
pub use waits::{WaitFor, WaitOn, Waiting, Waits};
pub use watch::Watch;
