//! The lines that a scene is made of: the applications with their threads, the clients, repeats, the queues' size and turns.
//! Each takes what was read so far, and answers what is read with it, or the line's fault.
#![tactic(auto)]

pub mod app_lines;
pub mod client_lines;
pub mod last_place;
pub mod limits;
pub mod queue_lines;
pub mod reading;
pub mod repeat_lines;
pub mod repeats;
pub mod turn_lines;
