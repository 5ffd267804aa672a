//! One end of a channel: how far it has come, its peer, the messages that came in, and its marks. All slots
//! are made with the end or before it is let in, so no later call takes memory.
#![tactic(auto)]

pub mod end;

pub use end::End;
