//! The driver of the normal world: it drains the used rings that it shares with the device, and makes the calls of
//! the clients.
#![tactic(auto)]

mod acting;
mod calls;
mod connections;
mod copies;
mod direct;
mod drain;
mod driver;
mod errors;
mod frames;
mod inboxes;
mod laws;
mod memory;
mod used;
mod watching;

pub use crate::driver::Driver;
pub use crate::laws::{calls_anywhere, waits_end_anywhere, waits_move_anywhere};
