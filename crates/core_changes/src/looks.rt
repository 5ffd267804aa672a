//! What a call sees of an object: small copies, so that how a core keeps its objects is its own affair.

use kernel_values::{Connector, EndState, MemFlags, PortFlags};

/// What is seen of a channel end.
#[derive(Clone, Copy, PartialEq, Eq, Debug)]
pub struct EndLook {
    pub state: EndState,
    pub peer: Option<u64>,
    pub client: Option<Connector>,
    /// The most messages that it holds.
    pub slots: u32,
    /// The most bytes of a message.
    pub size: u32,
    /// The number of messages that it holds, filled and opened.
    pub held: usize,
    /// The number of messages that were sent to it.
    pub sent: u32,
    pub accepted: bool,
}

/// What is seen of a message.
#[derive(Clone, Copy, PartialEq, Eq, Debug)]
pub struct MessageLook {
    pub seq: u32,
    /// The number of its bytes.
    pub len: usize,
    /// The number of its handles.
    pub parts: usize,
}

/// What is seen of a port.
#[derive(Clone, Copy, PartialEq, Eq, Debug)]
pub struct PortLook {
    /// The pending server end that is accepted next.
    pub first: Option<u64>,
}

/// What is seen of a memory reference.
#[derive(Clone, Copy, PartialEq, Eq, Debug)]
pub struct MemoryLook {
    /// The number of its bytes.
    pub len: usize,
    pub flags: MemFlags,
}

/// Where a connect goes by its path.
#[derive(Clone, Copy, PartialEq, Eq, Debug)]
pub enum WayLook {
    /// To a port with these flags.
    ToPort(PortFlags),
    /// To an application that has yet to publish its start port, with these flags, and runs or has a start left.
    ToStart(PortFlags),
    /// To neither.
    ToNothing,
}
