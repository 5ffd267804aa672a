//! An object that is watched, with the events last told for it.

ghost use Rattle.std.specs.Prelude.{◌≡◌};
ghost use Rattle.handle_set.specs.Sets.{Memberships};
ghost use Rattle.wait_events.specs.Watches.{has_told, retold, retold_events};

use handle_set::Sets;
use handle_set::settle::ready_events;
use kernel_values::Events;
use object_store::ObjKey;

/// What stands at a place of a table, with the events last told for it. A place at which nothing stands, or
/// nothing that has events, has no object.
#[derive(Clone, Copy, PartialEq, Eq, Debug)]
pub struct Watch {
    pub object: Option<ObjKey>,
    pub events: Events,
}

/// Whether there are events.
pub fn has_told(events: Events) -> bool
    ensures { result ≡ has_told events }
{
    events.0 != 0
}

/// What is told of a watched object after the events of an object changed and all sets are up to date: an open
/// set's readiness, else the new events where it is that object, else what was told before.
pub fn retold_events(
    sets: &Sets,
    object: ObjKey,
    events: Events,
    watched: ObjKey,
    before: Events,
) -> Events
    ensures { result ≡ retold_events sets.now.sets object.serial events watched.serial before }
{
    match sets.ready(watched) {
        Some(ready) => ready_events(ready),
        None => {
            if watched.serial == object.serial {
                events
            } else {
                before
            }
        }
    }
}

/// The watch after the events of an object changed.
pub fn retold(sets: &Sets, object: ObjKey, events: Events, watch: Watch) -> Watch
    ensures { result ≡ retold sets.now.sets object.serial events watch }
{
    let Some(watched) = watch.object else {
        return watch;
    };
    Watch {
        object: Some(watched),
        events: retold_events(sets, object, events, watched, watch.events),
    }
}
