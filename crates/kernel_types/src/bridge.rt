//! What the bridge to the normal world asks of a kernel.

ghost use Rattle.std.specs.Prelude.{◌≡◌, ◌<◌, ℕ, [], Some, length, IfOk, IfErr, OnErr, IsTrue, IsFalse, ◌≤◌};
ghost use Rattle.kernel_types.specs.Bridge.{ns_view, ns_peek};
ghost use Rattle.kernel_types.specs.Bridging.{IsBridged, CanTake, CanPush, IsLater, Idled, Connected, NotConnected, Pushed, Took, Dropped};
ghost use Rattle.kernel_types.specs.CoreStep.{least_deadline};
ghost use Rattle.kernel_types.specs.Kernel.{step_limit};

use crate::kernel::IpcKernel;
use kernel_values::{Bytes, EndSeq, EndState, Errno, NoMemory, ObjId};

/// What the bridge sees of an end that it names.
#[derive(Clone, Copy, PartialEq, Eq, Debug)]
pub struct EndView {
    pub state: EndState,
    pub accepted: bool,
    /// The number of filled messages.
    pub filled: u32,
    /// The most bytes of a message.
    pub size: u32,
    pub slots: u32,
    /// Whether the peer is there and holds as many messages, filled and open, as it has slots.
    pub peer_full: bool,
}

/// Why a connect of the normal world was refused.
#[derive(Clone, Copy, PartialEq, Eq, Debug)]
pub enum NsRefused {
    /// NOT_FOUND or ACCESS_DENIED.
    Errno(Errno),
    NoMemory,
}

/// A kernel without the normal world, with the calls that the bridge makes. It stands for the state of its scene without the
/// clients: for it a client is no actor, and its device never has work. Each `idle`, and each `ns_connect` and `ns_push` that goes
/// through, counts as a step made.
pub trait Core: IpcKernel {
    /// The least deadline of all waits of threads.
    fn least_deadline(&self) -> Option<u64>
        ensures { result ≡ least_deadline (Self.state self.now).core };

    /// Sets the clock, or without one cancels every wait of a thread. Takes no memory.
    fn idle(&mut self, clock: Option<u64>)
        requires later { IsLater (Self.state self.old).core.clock clock }
        requires below { Self.made self.old < step_limit }
        ensures { Idled clock (Self.state self.old) (Self.state self.new) (Self.made self.old) (Self.made self.new) };

    /// An asynchronous connect of a client of the normal world, whose end the bridge names. Answers the number of the end.
    /// Refused, all stands as before.
    fn ns_connect(&mut self, path: &Bytes) -> Result<ObjId, NsRefused>
        requires below { Self.made self.old < step_limit }
        ensures ok { IfOk result (λ end. Connected path.now end.0 (Self.state self.old) (Self.state self.new) (Self.made self.old) (Self.made self.new)) }
        ensures err { IfErr result (λ refused. NotConnected path.now refused (Self.state self.old) (Self.state self.new) (Self.made self.old) (Self.made self.new)) };

    /// What an end looks like that the bridge names.
    fn ns_view(&self, end: ObjId) -> EndView
        requires { IsBridged end.0 (Self.state self.now) }
        ensures { result ≡ ns_view (Self.state self.now).core end.0 };

    /// Sends a message without handles to the peer of an end that is Connected: the bytes are within the slots' size, and the
    /// peer has a free slot. Answers the peer and the message's number there. Refused, all stands as before; where the end
    /// has no peer, the answer is out of memory.
    fn ns_push(&mut self, end: ObjId, bytes: &Bytes) -> Result<EndSeq, NoMemory>
        requires named { IsBridged end.0 (Self.state self.old) }
        requires room { CanPush end.0 bytes.now (Self.state self.old) }
        requires below { Self.made self.old < step_limit }
        ensures ok { IfOk result (λ sent. Pushed end.0 bytes.now sent (Self.state self.old) (Self.state self.new) (Self.made self.old) (Self.made self.new)) }
        ensures err_state { OnErr result (Self.state self.new ≡ Self.state self.old) }
        ensures err_made { OnErr result (Self.made self.new ≡ Self.made self.old) };

    /// The bytes of the oldest filled message of an end that has one.
    fn ns_peek(&self, end: ObjId) -> Result<Bytes, NoMemory>
        requires named { IsBridged end.0 (Self.state self.now) }
        requires filled { CanTake end.0 (Self.state self.now) }
        ensures { IfOk result (λ bytes. ns_peek (Self.state self.now).core end.0 ≡ Some bytes) };

    /// Opens the oldest filled message of an end that has one and retires it, as `get` and `put` do. Answers the end and the
    /// message's number there. Takes no memory.
    fn ns_take(&mut self, end: ObjId) -> EndSeq
        requires named { IsBridged end.0 (Self.state self.old) }
        requires filled { CanTake end.0 (Self.state self.old) }
        ensures took { Took end.0 result (Self.state self.old) (Self.state self.new) }
        ensures made { Self.made self.new ≡ Self.made self.old };

    /// The bridge names the end no more; with `broken` its peer gets the error mark. Takes no memory.
    fn ns_drop(&mut self, end: ObjId, broken: bool)
        requires { IsBridged end.0 (Self.state self.old) }
        ensures dropped { Dropped end.0 broken (Self.state self.old) (Self.state self.new) }
        ensures made { Self.made self.new ≡ Self.made self.old };

    ghost has_no_clients: { (kernel : Self) → (Self.state kernel).world.clients ≡ [] };
}
