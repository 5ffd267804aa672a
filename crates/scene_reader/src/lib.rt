//! Scenes as text: the applications with their threads' scripts, the clients of the normal world with theirs, the
//! size of the queues between them, and the turns of a replay.
//!
//! Reading is by lines and words, and ends at the first fault.
#![tactic(auto)]

mod scene;

pub use crate::scene::read_scene;
pub use script_lines::fault::{SceneFault, SceneKind, SceneRefused};
