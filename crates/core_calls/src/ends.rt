//! What the state of an end says of its connection.

ghost use Rattle.std.specs.Prelude.{◌≡◌};
ghost use Rattle.kernel_types.specs.Events.{is_disconnected};
ghost use Rattle.kernel_types.specs.Messages.{is_unconnected};

use kernel_values::EndState;

/// Whether the other side is gone.
pub fn is_disconnected(state: EndState) -> bool
    ensures { result ≡ is_disconnected state }
{
    match state {
        EndState::Disconnected => true,
        EndState::Waiting | EndState::Connecting | EndState::Connected => false,
    }
}

/// Whether no port was there yet, or nobody accepted.
pub fn is_unconnected(state: EndState) -> bool
    ensures { result ≡ is_unconnected state }
{
    match state {
        EndState::Waiting | EndState::Connecting => true,
        EndState::Connected | EndState::Disconnected => false,
    }
}
