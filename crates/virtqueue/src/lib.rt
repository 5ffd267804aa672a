//! The two split virtqueues of the bridge, as the device and the driver see them in shared memory.
//!
//! A queue stands in a memory of 1,048,576 bytes, in the layout of VIRTIO 1.2, section 2.7: a table of
//! descriptors, the available ring and the used ring. The other world may write any byte of it at any
//! time, so every content has its answer: no chain, a chain, or the first fault. No call allocates.
#![tactic(auto)]

mod chain;
mod layout;
mod memory;
mod parts;
mod queue;
mod rings;
mod walk;

pub use crate::chain::{Chain, chain_len, read_chain, write_chain};
pub use crate::parts::{Part, PartList};
pub use crate::queue::{MEMORY_SIZE, Queue, RingFault};
pub use crate::rings::{publish, push_used};
pub use crate::walk::{Descriptor, next_chain};
