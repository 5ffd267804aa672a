//! Changes of one end that leave which objects its messages name.

ghost use Rattle.std.specs.Prelude.{◌≡◌, Some};
ghost use Rattle.kernel_types.specs.Events.{has_event};
ghost use Rattle.kernel_types.specs.Messages.{with_opened};
ghost use Rattle.kernel_types.specs.Objects.{on_end};
ghost use Rattle.kernel_types.specs.Reports.{reported_end};
ghost use Rattle.counted_core.specs.EndChanges.{end_after};
ghost use Rattle.counted_core.specs.Held.{changed_if};

use crate::sweep::key_of;
use kernel_values::{Body, ChannelEnd, EndState, Events};
use object_store::Store;
use plain_objects::queues::place_of_filled;

/// A change of one end that leaves which objects its messages name.
#[derive(Clone, Copy, PartialEq, Eq, Debug)]
pub enum EndChange {
    /// A send found the peer full.
    Block,
    /// The peer has room again.
    Unblock,
    /// A connect's decision was taken.
    Decide,
    /// These events were reported.
    Report { events: Events },
    /// The normal world broke.
    Fail,
    /// The connection was accepted; `ready` at the client's end.
    Accept { ready: bool },
    /// The oldest filled message is opened under the id.
    Open { id: u32 },
}

fn has_event(events: Events, event: u32) -> bool
    ensures { result ≡ has_event events.0 event }
{
    events.0 & event != 0
}

fn report(end: &mut ChannelEnd, events: Events)
    ensures { end.new ≡ reported_end events.0 end.old }
{
    end.ready = end.ready && !has_event(events, 1);
    end.unblocked = end.unblocked && !has_event(events, 16);
}

fn open_first(end: &mut ChannelEnd, id: u32)
    ensures { end.new ≡ with_opened id end.old }
{
    let place = place_of_filled(end.messages.as_slice());
    if let Some(message) = end.messages.get_mut(place) {
        message.opened = Some(id);
    }
}

fn change_end(end: &mut ChannelEnd, change: EndChange)
    ensures { end.new ≡ end_after change end.old }
{
    match change {
        EndChange::Block => {
            end.blocked = true;
            end.unblocked = false;
        }
        EndChange::Unblock => {
            end.unblocked = end.unblocked || end.blocked;
            end.blocked = false;
        }
        EndChange::Decide => end.ready = false,
        EndChange::Report { events } => report(end, events),
        EndChange::Fail => end.error = true,
        EndChange::Accept { ready } => {
            end.state = EndState::Connected;
            end.accepted = true;
            end.ready = ready || end.ready;
        }
        EndChange::Open { id } => open_first(end, id),
    }
}

fn change_body(body: &mut Body, change: EndChange)
    ensures { body.new ≡ on_end (end_after change) body.old }
{
    if let Body::End(end) = body {
        change_end(end, change);
    }
}

/// The end of this number is changed, where it is one.
pub fn change_in(store: &mut Store<Body>, id: u64, change: EndChange)
    ensures items { store.new.items ≡ changed_if (on_end (end_after change)) (Some id) store.old.items }
    ensures next { store.new.next ≡ store.old.next }
{
    store.sound();
    let Some(body) = store.get_mut(key_of(id)) else {
        return;
    };
    change_body(body, change);
}
