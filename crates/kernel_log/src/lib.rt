//! The history of a kernel: the journal of its entries, each with the facts of the state after it, and
//! the kernel that keeps one of all its steps.
#![tactic(auto)]

pub mod journal;
pub mod logged;
mod spare;
pub mod stories;

pub use journal::{Journal, PlaceList};
pub use logged::{Logged, Receipt};
pub use stories::{EndStory, SeqList, story};
