//! The events of an object, recomputed from the state, and what is ready in a set.

ghost use Rattle.std.specs.Prelude.{◌≡◌, ◌≤◌, ◌+◌, length};
ghost use Rattle.std.specs.List.{find, list_any};
ghost use Rattle.std.specs.Option.{option_map};
ghost use Rattle.core_changes.specs.Looks.{members_in};
ghost use Rattle.counted_core.specs.Held.{objects_of};
ghost use Rattle.kernel_types.specs.Events.{body_events, chain_limit, end_events, events_of, events_within, has_filled, is_ready_member, where_marked};
ghost use Rattle.kernel_types.specs.Objects.{set_of};
ghost use Rattle.kernel_types.specs.Sets.{is_label_in};

use crate::counts::CountedCore;
use crate::sweep::key_of;
use kernel_values::{Body, ChannelEnd, Member, Message};
use object_store::Store;
use plain_objects::ends::is_disconnected;

/// An event where the mark stands, else none.
fn where_marked(mark: bool, event: u32) -> u32
    ensures value { result ≡ where_marked mark event }
    ensures bound { result ≤ event }
{
    if mark { event } else { 0 }
}

fn has_filled(messages: &[Message]) -> bool
    ensures { result ≡ has_filled messages.now }
{
    for message in messages {
        if message.opened.is_none() {
            return true;
        }
    }
    false
}

fn end_events(end: &ChannelEnd) -> u32
    ensures { result ≡ end_events end.now }
{
    where_marked(end.ready, 1)
        + where_marked(end.error, 2)
        + where_marked(is_disconnected(end.state), 4)
        + where_marked(has_filled(end.messages.as_slice()), 8)
        + where_marked(end.unblocked, 16)
}

/// The depth to which sets are looked through.
#[tactic(auto, unfolding(kernel_types::specs::Events::chain_limit))]
fn depth_limit() -> u32
    ensures { result ≡ chain_limit + 1 }
{
    9
}

#[cycle(ready)]
#[tactic(auto, using(crate::proofs::Looking::events_above))]
fn events_within(depth: u32, store: &Store<Body>, id: u64) -> u32
    ensures { result ≡ events_within depth (objects_of store.now.items) id }
{
    if depth == 0 {
        return 0;
    }
    match store.get(key_of(id)) {
        Some(body) => body_events(depth - 1, store, body),
        None => 0,
    }
}

#[cycle(ready)]
fn body_events(depth: u32, store: &Store<Body>, body: &Body) -> u32
    ensures { result ≡ body_events (events_within depth (objects_of store.now.items)) body.now }
{
    match body {
        Body::Port(port) => where_marked(!port.pending.is_empty(), 1),
        Body::End(end) => end_events(end),
        Body::Set(set) => where_marked(has_ready_member(depth, store, set.members.as_slice()), 1),
        Body::Memory(_) => 0,
    }
}

#[cycle(ready)]
fn has_ready_member(depth: u32, store: &Store<Body>, members: &[Member]) -> bool
    ensures { result ≡ list_any (is_ready_member (events_within depth (objects_of store.now.items))) members.now }
{
    for member in members {
        if events_within(depth, store, member.object) & member.mask.0 != 0 {
            return true;
        }
    }
    false
}

/// The events of an object, through 8 sets in one another.
#[tactic(auto, unfolding(kernel_types::specs::Events::events_of))]
pub fn events_of(store: &Store<Body>, id: u64) -> u32
    ensures { result ≡ events_of (objects_of store.now.items) id }
{
    events_within(depth_limit(), store, id)
}

/// The first of these members that has an event of its mask.
fn ready_in(store: &Store<Body>, members: &[Member]) -> Option<Member>
    ensures { result ≡ find (is_ready_member (events_of (objects_of store.now.items))) members.now }
{
    for member in members {
        if events_of(store, member.object) & member.mask.0 != 0 {
            return Some(*member);
        }
    }
    None
}

fn is_label_in(members: &[Member], label: u32) -> bool
    ensures { result ≡ is_label_in members.now label }
{
    for member in members {
        if member.label == label {
            return true;
        }
    }
    false
}

impl CountedCore {
    /// The events of an object.
    pub fn events(&self, id: u64) -> u32
        ensures { result ≡ events_of self.now.objects id }
    {
        events_of(&self.store, id)
    }

    /// The number of members of a set.
    pub fn member_count(&self, id: u64) -> Option<usize>
        ensures { result ≡ option_map (λ set. length set.members) (set_of self.now.objects id) }
    {
        match self.find_set(id) {
            Some(set) => Some(set.members.len()),
            None => None,
        }
    }

    /// Whether a member of the set has this label.
    pub fn has_label(&self, id: u64, label: u32) -> bool
        ensures { result ≡ is_label_in (members_in (set_of self.now.objects id)) label }
    {
        match self.find_set(id) {
            Some(set) => is_label_in(set.members.as_slice(), label),
            None => false,
        }
    }

    /// The first member of a set that has an event of its mask.
    pub fn ready_member(&self, id: u64) -> Option<Member>
        ensures { result ≡ find (is_ready_member (events_of self.now.objects)) (members_in (set_of self.now.objects id)) }
    {
        match self.find_set(id) {
            Some(set) => ready_in(&self.store, set.members.as_slice()),
            None => None,
        }
    }
}
