//! Handle tables: the numbers by which an application knows its objects. A table has 64 numbers, and a
//! new entry gets the least free one. Everything is held in place, so no call takes memory, and each
//! takes constant time.
#![tactic(auto)]

pub mod table;

pub use table::{DupRefused, Full, Slot, Table};
