//! The reports that the program prints of a history: a text for a scene, a history of it with the facts
//! after each entry, and a form.
#![tactic(auto)]

mod actors;
mod answers;
mod calls;
mod counts;
mod form;
mod history;
pub mod laws;
pub mod line;
pub mod lines;
pub mod names;
mod print;
mod refused;
mod summary;

pub use form::Form;
pub use print::print_report;
pub use refused::PrintRefused;
