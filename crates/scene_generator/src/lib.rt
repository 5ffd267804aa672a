//! Scenes that are made and not read: four applications whose commands are drawn from a seed.
#![tactic(auto)]

mod scenes;
mod scripts;

pub use crate::scenes::{MOST_COMMANDS, generated};
