//! A checker of printed histories: whether a text is the report of a history of a scene, and if not, how many of
//! its entries are those of one. It steps a kernel along the text's lines; of the text it holds one line at a time.
#![tactic(auto)]

pub mod actors;
pub mod check;
mod input;
pub mod lines;
pub mod steps;
pub mod verdict;

pub use check::check_text;
pub use input::cut;
pub use verdict::Verdict;
