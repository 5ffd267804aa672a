use thiserror::Error;

/// The bytes of the memory that both worlds share.
pub const MEMORY_SIZE: usize = 0x10_0000;

/// A queue as the device keeps it. Its size `n` is a power of two from 1 to 256.
#[derive(Clone, Copy, Debug, PartialEq, Eq)]
pub struct Queue {
    /// 0: to the normal world, whose buffers the device writes. 1: from the normal world.
    pub index: u32,
    /// The number of descriptors, and of places in each ring.
    pub n: u32,
    /// The index of the next available element that the device looks at.
    pub position: u16,
    /// The device's own index in the used ring.
    pub used: u16,
}

/// Why the next element of the available ring is no chain.
#[derive(Clone, Copy, Debug, PartialEq, Eq, Error)]
pub enum RingFault {
    /// The available index is further ahead than the queue has places. Carries the index.
    #[error("the available index {0} is further ahead than the queue is long")]
    IndexJump(u16),
    /// The head is no descriptor of the queue. Carries the head.
    #[error("the head {0} is no descriptor")]
    HeadOutOfRange(u16),
    /// `next` is no descriptor of the queue. Carries the descriptor that names it.
    #[error("the descriptor {0} goes on past the queue's size")]
    NextOutOfRange(u16),
    /// The chain goes on behind as many descriptors as the queue has. Carries the last of them.
    #[error("the chain is longer than the queue, at the descriptor {0}")]
    TooLong(u16),
    /// A buffer ends past the memory. Carries its descriptor.
    #[error("the buffer of the descriptor {0} ends past the memory")]
    RangeOutside(u16),
    /// A buffer is for reading on queue 0, or for writing on queue 1. Carries its descriptor.
    #[error("the buffer of the descriptor {0} has the wrong direction")]
    WrongDirection(u16),
}
