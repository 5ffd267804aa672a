//! The calls on ports, connections, messages, memory and handles, each with what it tells. A call changes a state that is its own.
#![tactic(auto)]

pub mod accepts;
pub mod applications;
pub mod connects;
pub mod handles;
pub mod memories;
pub mod messages;
pub mod ports;
pub mod sends;
pub mod threads;
pub mod told;
