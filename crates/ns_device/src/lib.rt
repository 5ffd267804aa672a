//! The device of the bridge over a core: it sends what is due to the normal world, and takes the frames that came from there.
#![tactic(auto)]

mod breaking;
mod bridge;
mod due;
mod entries;
mod frames;
mod heads;
mod laws;
mod requests;
mod sends;
mod sent;
mod steps;
mod taken;
mod taking;
mod told;

pub use crate::bridge::Bridge;
pub use crate::laws::{device_steps_anywhere, device_works_anywhere};
pub use crate::told::DeviceOutcome;
