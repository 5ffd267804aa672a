//! What is due to the normal world.

ghost use Rattle.std.specs.Prelude.{◌≡◌, IfSome};
ghost use Rattle.std.specs.Option.{option_map};
ghost use Rattle.kernel_types.specs.Bridge.{ns_view, ns_peek};
ghost use Rattle.kernel_types.specs.Bridging.{IsBridged};
ghost use Rattle.kernel_types.specs.Device.{unanswered_due, answered_due, entry_due, due_of};
ghost use Rattle.kernel_types.specs.Events.{is_disconnected};
ghost use Rattle.ns_device.specs.Named.{AreNamed};
ghost use Rattle.ns_device.specs.Owing.{due_by, first_due, IsReady};

use kernel_types::{Core, EndView};
use kernel_values::{BridgeEntry, Device, EndState, ObjId, Refusal};

/// What is due to the normal world: the first that there is.
#[derive(Clone, Copy)]
pub enum Owed {
    /// The device has not said that it is there.
    GoingOnline,
    /// The oldest answer to a request that was refused.
    Refusing(Refusal),
    /// The answer to a request whose end was accepted.
    Answering(BridgeEntry, EndView),
    /// The answer to a request whose end was not accepted, and never will be.
    Denying(BridgeEntry),
    /// The oldest message of an end.
    Sending(BridgeEntry),
    /// The end of a connection.
    Leaving(BridgeEntry),
}

pub fn is_disconnected(state: EndState) -> bool
    ensures { result ≡ is_disconnected state }
{
    matches!(state, EndState::Disconnected)
}

/// What an entry has due whose request was not answered.
fn unanswered<C: Core>(core: &C, entry: BridgeEntry) -> Option<Owed>
    requires { IsBridged entry.end (C.state core.now) }
    ensures due { option_map (due_by (C.state core.now).core) result ≡ unanswered_due entry (ns_view (C.state core.now).core entry.end) }
    ensures ready { IfSome result (IsReady (C.state core.now)) }
{
    let view = core.ns_view(ObjId(entry.end));
    if view.accepted {
        Some(Owed::Answering(entry, view))
    } else if is_disconnected(view.state) {
        Some(Owed::Denying(entry))
    } else {
        None
    }
}

/// What an entry has due whose request was answered.
#[tactic(auto, using(crate::proofs::Peeking::peek_filled, crate::proofs::Peeking::peek_empty))]
fn answered<C: Core>(core: &C, entry: BridgeEntry) -> Option<Owed>
    requires { IsBridged entry.end (C.state core.now) }
    ensures due { option_map (due_by (C.state core.now).core) result
        ≡ answered_due entry (ns_view (C.state core.now).core entry.end) (ns_peek (C.state core.now).core entry.end) }
    ensures ready { IfSome result (IsReady (C.state core.now)) }
{
    let view = core.ns_view(ObjId(entry.end));
    if view.filled > 0 {
        Some(Owed::Sending(entry))
    } else if is_disconnected(view.state) {
        Some(Owed::Leaving(entry))
    } else {
        None
    }
}

/// What an entry has due.
fn entry_owed<C: Core>(core: &C, entry: BridgeEntry) -> Option<Owed>
    requires { IsBridged entry.end (C.state core.now) }
    ensures due { option_map (due_by (C.state core.now).core) result ≡ entry_due (C.state core.now).core entry }
    ensures ready { IfSome result (IsReady (C.state core.now)) }
{
    if entry.answered {
        answered(core, entry)
    } else {
        unanswered(core, entry)
    }
}

/// What the first of the entries has due that has something due.
fn first_owed<C: Core>(core: &C, entries: &[BridgeEntry]) -> Option<Owed>
    requires { AreNamed (C.state core.now).core.bridged entries.now }
    ensures due { option_map (due_by (C.state core.now).core) result ≡ first_due (C.state core.now).core entries.now }
    ensures ready { IfSome result (IsReady (C.state core.now)) }
{
    match entries {
        [] => None,
        [entry, rest @ ..] => match entry_owed(core, *entry) {
            Some(owed) => Some(owed),
            None => first_owed(core, rest),
        },
    }
}

/// What is due: that the device is there, or else the oldest refusal, or else what an entry has due.
#[tactic(auto, using(crate::proofs::First::first_is), unfolding(kernel_types::specs::Device::due_of))]
pub fn due_of<C: Core>(core: &C, device: &Device) -> Option<Owed>
    requires { AreNamed (C.state core.now).core.bridged device.now.entries }
    ensures due { option_map (due_by (C.state core.now).core) result ≡ due_of (C.state core.now).core device.now }
    ensures ready { IfSome result (IsReady (C.state core.now)) }
{
    if !device.online {
        return Some(Owed::GoingOnline);
    }
    match device.refusals.as_slice() {
        [refusal, ..] => Some(Owed::Refusing(*refusal)),
        [] => first_owed(core, device.entries.as_slice()),
    }
}
