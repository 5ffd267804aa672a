//! Memory that handles refer to: bytes of the kernel's own, zero at first, which are read and
//! written in ranges. A reference that is not writable is read alone.
#![tactic(auto)]

mod memory;

pub use memory::{MemRef, MemRefused};
