//! The plain kernel: the definitions of the model as a program, with lists and marking and no
//! cleverness. A step copies the state, changes the copy and puts it in place. Time that passes, and
//! what the bridge takes or drops, cannot be refused: it changes the state in place, without memory.
#![tactic(auto)]

mod bridge;
mod facts;
pub mod kernel;
mod opening;
mod step;

pub use kernel::PlainKernel;
