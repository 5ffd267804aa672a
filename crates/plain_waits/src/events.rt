//! The events of an object, recomputed from the state.

ghost use Rattle.std.specs.Prelude.{◌≡◌, ◌≤◌, ◌+◌};
ghost use Rattle.kernel_types.specs.Events.{where_marked, has_filled, end_events, chain_limit, events_within, body_events, is_ready_member, events_of};
ghost use Rattle.std.specs.List.{list_any};

use kernel_values::{Body, ChannelEnd, Member, Message, Object};
use plain_objects::ends::is_disconnected;
use plain_objects::objects::find_object;

/// An event where the mark stands, else none.
fn where_marked(mark: bool, event: u32) -> u32
    ensures value { result ≡ where_marked mark event }
    ensures bound { result ≤ event }
{
    if mark { event } else { 0 }
}

/// Whether a message is filled.
fn has_filled(messages: &[Message]) -> bool
    ensures { result ≡ has_filled messages.now }
{
    for message in messages {
        if message.opened.is_none() {
            return true;
        }
    }
    false
}

fn end_events(end: &ChannelEnd) -> u32
    ensures { result ≡ end_events end.now }
{
    where_marked(end.ready, 1)
        + where_marked(end.error, 2)
        + where_marked(is_disconnected(end.state), 4)
        + where_marked(has_filled(end.messages.as_slice()), 8)
        + where_marked(end.unblocked, 16)
}

/// The depth to which sets are looked through.
#[tactic(auto, unfolding(kernel_types::specs::Events::chain_limit))]
fn depth_limit() -> u32
    ensures { result ≡ chain_limit + 1 }
{
    9
}

#[cycle(ready)]
#[tactic(auto, using(crate::proofs::Descending::events_above))]
fn events_within(depth: u32, objects: &[Object], id: u64) -> u32
    ensures { result ≡ events_within depth objects.now id }
{
    if depth == 0 {
        return 0;
    }
    match find_object(objects, id) {
        Some(object) => body_events(depth - 1, objects, &object.body),
        None => 0,
    }
}

#[cycle(ready)]
fn body_events(depth: u32, objects: &[Object], body: &Body) -> u32
    ensures { result ≡ body_events (events_within depth objects.now) body.now }
{
    match body {
        Body::Port(port) => where_marked(!port.pending.is_empty(), 1),
        Body::End(end) => end_events(end),
        Body::Set(set) => where_marked(has_ready_member(depth, objects, set.members.as_slice()), 1),
        Body::Memory(_) => 0,
    }
}

#[cycle(ready)]
fn has_ready_member(depth: u32, objects: &[Object], members: &[Member]) -> bool
    ensures { result ≡ list_any (is_ready_member (events_within depth objects.now)) members.now }
{
    for member in members {
        if events_within(depth, objects, member.object) & member.mask.0 != 0 {
            return true;
        }
    }
    false
}

/// The events of an object, through 8 sets in one another.
#[tactic(auto, unfolding(kernel_types::specs::Events::events_of))]
pub fn events_of(objects: &[Object], id: u64) -> u32
    ensures { result ≡ events_of objects.now id }
{
    events_within(depth_limit(), objects, id)
}
