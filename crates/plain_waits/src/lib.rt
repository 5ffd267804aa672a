//! Events and waits: what has an event, reports, handle sets and the depth of their nesting, and the calls that wait.
#![tactic(auto)]

pub mod depths;
pub mod events;
pub mod reports;
pub mod sets;
pub mod wait_calls;
pub mod waits;
