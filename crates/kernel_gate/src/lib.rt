//! One kernel shared by many callers. A seat is one caller's right to make steps, and keeps, for proofs alone, what the caller has seen
//! of the one history and which entries of it are its own.
#![tactic(auto)]

mod close;
mod gate;
mod steps;

pub use close::CloseRefused;
pub use gate::{Gate, NewRefused, Seat};
pub use steps::{GateCause, GateRefused};
pub use turnstile::SplitRefused;
