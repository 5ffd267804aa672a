//! What becomes of objects whose last name is gone. A value with count 1 has no name but the store's own.

ghost use Rattle.std.specs.Prelude.{◌≡◌, ◌≢◌, ◌+◌, ◌≤◌, ℕ, Some, None, true, false, IfSome, IfNone, map, length, option_copied};
ghost use Rattle.std.specs.List.{fold, list_any};
ghost use Rattle.kernel_types.specs.Messages.{has_id};
ghost use Rattle.kernel_types.specs.Names.{named_in, message_objects};
ghost use Rattle.kernel_types.specs.Objects.{on_end, on_port};
ghost use Rattle.kernel_types.specs.Reach.{is_in};
ghost use Rattle.kernel_types.specs.Sweep.{is_live};
ghost use Rattle.object_store.specs.Stock.{total_names, unnamed, value_at};
ghost use Rattle.count_laws.specs.Dropping.{cut_from, unlisted};
ghost use Rattle.counted_core.specs.Held.{changed_if, lists_at, peer_in, listed_by, IsLister};
ghost use Rattle.counted_core.specs.Sweeping.{HasDropped, Swept};

use kernel_values::{Body, EndState, Member, Message};
use object_store::{ObjKey, Store};

/// A key of a value, by its serial number.
pub fn key_of(serial: u64) -> ObjKey
    ensures { result.serial ≡ serial }
{
    ObjKey { slot: 0, serial }
}

fn is_live(state: EndState) -> bool
    ensures { result ≡ is_live state }
{
    match state {
        EndState::Connecting | EndState::Connected => true,
        EndState::Waiting | EndState::Disconnected => false,
    }
}

fn has_id(id: u64, other: Option<u64>) -> bool
    ensures { result ≡ has_id id other }
{
    match other {
        Some(other) => other == id,
        None => false,
    }
}

/// A live end whose peer is gone becomes Disconnected.
fn cut(body: &mut Body, x: u64)
    ensures { body.new ≡ on_end (cut_from x) body.old }
{
    if let Body::End(end) = body {
        if is_live(end.state) && has_id(x, end.peer) {
            end.state = EndState::Disconnected;
        }
    }
}

fn cut_peer(store: &mut Store<Body>, x: u64, peer: Option<u64>)
    ensures items { store.new.items ≡ changed_if (on_end (cut_from x)) peer store.old.items }
    ensures next { store.new.next ≡ store.old.next }
{
    store.sound();
    let Some(peer) = peer else {
        return;
    };
    let Some(body) = store.get_mut(key_of(peer)) else {
        return;
    };
    cut(body, x);
}

/// The server end is pending no more.
fn unlist(body: &mut Body, server: u64)
    ensures { body.new ≡ on_port (unlisted (Some server)) body.old }
{
    if let Body::Port(port) = body {
        port.pending.retain(|other| *other != server);
    }
}

fn unlist_at(store: &mut Store<Body>, port: Option<u64>, server: u64)
    ensures items { store.new.items ≡ changed_if (on_port (unlisted (Some server))) port store.old.items }
    ensures next { store.new.next ≡ store.old.next }
{
    store.sound();
    let Some(port) = port else {
        return;
    };
    let Some(body) = store.get_mut(key_of(port)) else {
        return;
    };
    unlist(body, server);
}

fn is_in(numbers: &[u64], number: u64) -> bool
    ensures { result ≡ is_in numbers.now number }
{
    for other in numbers {
        if *other == number {
            return true;
        }
    }
    false
}

fn lists_at(store: &Store<Body>, at: u64, server: u64) -> bool
    ensures { result ≡ lists_at store.now.items at server }
{
    match store.get(key_of(at)) {
        Some(Body::Port(port)) => is_in(port.pending.as_slice(), server),
        _ => false,
    }
}

/// The port that lists the server end.
fn lister(store: &Store<Body>, server: u64) -> Option<u64>
    ensures some { IfSome result (λ port. lists_at store.now.items port server ≡ true) }
    ensures none { IfNone result ((port : ℕ) → lists_at store.now.items port server ≡ false) }
{
    store.sound();
    for at in 0..store.next() {
        if lists_at(store, at, server) {
            return Some(at);
        }
    }
    None
}

pub fn unname_all(store: &mut Store<Body>, serials: &[u64])
    ensures items { store.new.items ≡ fold unnamed store.old.items serials.now }
    ensures next { store.new.next ≡ store.old.next }
{
    for serial in serials {
        store.unname(key_of(*serial));
    }
}

fn unname_messages(store: &mut Store<Body>, messages: &[Message])
    ensures items { store.new.items ≡ fold unnamed store.old.items (message_objects messages.now) }
    ensures next { store.new.next ≡ store.old.next }
{
    for message in messages {
        unname_all(store, message.parts.as_slice());
    }
}

fn unname_members(store: &mut Store<Body>, members: &[Member])
    ensures items { store.new.items ≡ fold unnamed store.old.items (map (λ member. member.object) members.now) }
    ensures next { store.new.next ≡ store.old.next }
{
    for member in members {
        store.unname(key_of(member.object));
    }
}

/// What the body named is named no more by it.
fn unname_named(store: &mut Store<Body>, body: &Body)
    ensures items { store.new.items ≡ fold unnamed store.old.items (named_in body.now) }
    ensures next { store.new.next ≡ store.old.next }
{
    match body {
        Body::Port(port) => unname_all(store, port.pending.as_slice()),
        Body::End(end) => unname_messages(store, end.messages.as_slice()),
        Body::Set(set) => unname_members(store, set.members.as_slice()),
        Body::Memory(_) => {}
    }
}

fn peer_in(body: &Body) -> Option<u64>
    ensures { result ≡ peer_in body.now }
{
    match body {
        Body::End(end) => end.peer,
        _ => None,
    }
}

fn lister_of(store: &Store<Body>, peer: Option<u64>) -> Option<u64>
    ensures { IsLister store.now.items peer result }
{
    match peer {
        Some(server) => lister(store, server),
        None => None,
    }
}

/// The peer goes from the port that lists it.
fn unlist_peer(store: &mut Store<Body>, port: Option<u64>, peer: Option<u64>)
    requires { IsLister store.old.items peer port }
    ensures items { store.new.items ≡ changed_if (on_port (unlisted peer)) port store.old.items }
    ensures next { store.new.next ≡ store.old.next }
{
    let Some(server) = peer else {
        return;
    };
    unlist_at(store, port, server);
}

fn unname_listed(store: &mut Store<Body>, port: Option<u64>, peer: Option<u64>)
    ensures items { store.new.items ≡ fold unnamed store.old.items (listed_by peer port) }
    ensures next { store.new.next ≡ store.old.next }
{
    let Some(server) = peer else {
        return;
    };
    if port.is_none() {
        return;
    }
    store.unname(key_of(server));
}

/// Drops a value that nothing names.
fn drop_dead(store: &mut Store<Body>, x: u64)
    ensures items { HasDropped x store.old.items store.new.items }
    ensures next { store.new.next ≡ store.old.next }
{
    let Some(body) = store.unname(key_of(x)) else {
        return;
    };
    let peer = peer_in(&body);
    let port = lister_of(store, peer);
    unlist_peer(store, port, peer);
    cut_peer(store, x, peer);
    unname_listed(store, port, peer);
    unname_named(store, &body);
}

/// Ends what nothing names any more.
pub fn sweep(store: &mut Store<Body>)
    ensures items { Swept store.old.items store.new.items }
    ensures total { total_names store.new.items ≤ total_names store.old.items }
    ensures next { store.new.next ≡ store.old.next }
{
    let count = store.len();
    for _turn in 0..count {
        let Some(key) = store.find_dead() else {
            return;
        };
        store.sound();
        drop_dead(store, key.serial);
    }
}
