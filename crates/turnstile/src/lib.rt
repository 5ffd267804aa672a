//! A lock over one value whose history is counted. Who enters takes the value out, and gives it back with its history as it was or
//! with one entry more. Each pass carries, for proofs alone, what its holder has seen of the history and which entries are its own.
#![tactic(auto)]

mod close;
mod lock;
mod pass;
mod rule;
mod split;
mod steps;
mod view;

pub use close::CloseRefused;
pub use lock::{Busy, NewRefused, Turnstile};
pub use pass::Pass;
pub use split::SplitRefused;
pub use view::View;
