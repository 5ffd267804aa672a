//! New ends of channels.

ghost use Rattle.std.specs.Prelude.{◌≡◌};
ghost use Rattle.kernel_types.specs.Objects.{new_end};
ghost use Rattle.kernel_types.specs.Ports.{server_end};
ghost use Rattle.kernel_types.specs.Events.{is_disconnected};
ghost use Rattle.kernel_types.specs.Messages.{is_unconnected};

use kernel_values::{Body, Bytes, ChannelEnd, Connector, EndState, Items};
use std::alloc::Global;

/// An end without messages and marks, of `slots` messages of `size` bytes.
pub fn new_end(
    alloc: Global,
    peer: Option<u64>,
    state: EndState,
    path: Option<Bytes>,
    client: Option<Connector>,
    slots: u32,
    size: u32,
) -> ChannelEnd
    ensures { result ≡ new_end peer state path client slots size }
{
    ChannelEnd {
        peer,
        state,
        path,
        client,
        slots,
        size,
        messages: Items::new(alloc),
        sent: 0,
        accepted: false,
        ready: false,
        blocked: false,
        unblocked: false,
        error: false,
    }
}

/// A pending server end of a client end.
pub fn server_end(alloc: Global, client: u64, slots: u32, size: u32) -> Body
    ensures { result ≡ server_end client slots size }
{
    Body::End(new_end(
        alloc,
        Some(client),
        EndState::Connecting,
        None,
        None,
        slots,
        size,
    ))
}

/// Whether the other side is gone.
pub fn is_disconnected(state: EndState) -> bool
    ensures { result ≡ is_disconnected state }
{
    match state {
        EndState::Disconnected => true,
        EndState::Waiting | EndState::Connecting | EndState::Connected => false,
    }
}

/// Whether no port was there yet, or nobody accepted.
pub fn is_unconnected(state: EndState) -> bool
    ensures { result ≡ is_unconnected state }
{
    match state {
        EndState::Waiting | EndState::Connecting => true,
        EndState::Connected | EndState::Disconnected => false,
    }
}
