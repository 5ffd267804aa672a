//! Lists of objects and what names them: tables, ends, queues, names, marking, and the sweep that ends what nothing names.
#![tactic(auto)]

pub mod ends;
pub mod installs;
pub mod memberships;
pub mod name_counts;
pub mod names;
pub mod objects;
pub mod queues;
pub mod reach;
pub mod survey;
pub mod sweep;
pub mod tables;
pub mod words;
