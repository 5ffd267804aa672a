//! Frames and control messages, the bytes that the two worlds exchange over the rings.
//!
//! A frame is a header of 16 bytes and exactly as many bytes of payload as it says. Each value has one
//! spelling; a reader answers the value that is spelled, or the first fault.
#![tactic(auto)]

mod controls;
mod faults;
mod frames;
mod names;
mod path;
mod writing;

pub use crate::controls::{Control, control_of, write_control};
pub use crate::faults::FrameFault;
pub use crate::frames::{Frame, frame_of, write_frame};
pub use crate::path::PathName;
