//! The counted core: objects end where their last name goes, by counts in place of marking.
#![tactic(auto)]

pub mod accepts;
pub mod apps;
pub mod bridging;
pub mod counts;
pub mod ends;
pub mod events;
pub mod looks;
pub mod makes;
pub mod members;
pub mod memories;
pub mod messages;
pub mod ports;
pub mod pushes;
pub mod room;
pub mod sweep;
pub mod tables;
pub mod threads;
