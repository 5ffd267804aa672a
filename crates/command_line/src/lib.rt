//! The words after the program's name: `serial`, `replay`, `run` or `gen SEED COUNT`, with the report's form by
//! `--form history`, `actors`, `counts` or `summary`; or `check`, with no form.
#![tactic(auto)]

mod command;
mod numbers;
mod words;

pub use command::Command;
pub use words::command_of;
