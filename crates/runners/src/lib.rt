//! Runs of a scene: each actor makes its script's calls on one kernel, in the serial order, in the order of the scene's list
//! of turns, or each in a thread of its own.
#![tactic(auto)]

pub mod answered;
pub mod bell;
pub mod by_turns;
pub mod place;
pub mod replays;
pub mod rounds;
pub mod running;
pub mod scripts;
pub mod serial_order;
pub mod shared;
pub mod steps;
pub mod workers;

pub use replays::{ReplayRefused, replay};
pub use running::threads;
pub use serial_order::{RunRefused, serial};
pub use shared::Shared;
pub use steps::Taken;
pub use workers::{Hook, NoHook, Worked, work};
