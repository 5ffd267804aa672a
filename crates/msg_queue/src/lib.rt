//! Message slots: what was sent to one end of a channel and is not retired yet. All slots are made with
//! the queue, so no later call takes memory. Bytes are copied once when a message comes in, and once
//! when it is read.
#![tactic(auto)]

mod place;
pub mod queue;

pub use queue::{Full, Opened, Queue, Retired};
