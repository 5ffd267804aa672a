//! Handle sets: for each set its members in order, the events last told for each, and which of them
//! are ready.
#![tactic(auto)]

pub mod adding;
pub mod changes;
pub mod holders;
pub mod members;
pub mod ready_list;
pub mod records;
pub mod sets;
pub mod settle;
pub mod steps;

pub use adding::{Member, SetRefused};
pub use ready_list::{Picked, ReadyList};
pub use records::{Records, TrackedMember};
pub use sets::Sets;
pub use settle::OpenSet;
pub use steps::Steps;
