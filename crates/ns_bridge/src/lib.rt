//! The whole kernel: a core, the device of its bridge, guest memory, the driver and its clients.
#![tactic(auto)]

mod clients;
mod kernel;
mod lawful;
mod movers;
mod normal;

pub use crate::kernel::Kernel;
