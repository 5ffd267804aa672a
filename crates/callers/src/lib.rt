//! One caller for each library that stands by itself, as a program would write it: what it must bring, and what it may
//! rely on. docs/LIBRARIES.md shows them beside the libraries' own contracts.
#![tactic(auto)]

mod checks;
mod frames;
mod gates;
mod kernels;
mod locks;
mod memories;
mod queues;
mod rings;
mod stores;
mod tables;

pub use checks::entries_that_hold;
pub use frames::asked_path;
pub use gates::finish_through;
pub use kernels::pass_time;
pub use locks::entries_so_far;
pub use memories::exchange;
pub use queues::try_send;
pub use rings::skip_chain;
pub use stores::keep;
pub use tables::install_with;
