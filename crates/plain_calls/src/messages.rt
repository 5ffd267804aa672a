//! `get`, `read` and `put`.

ghost use Rattle.std.specs.Prelude.{◌≡◌, IfOk, ◌≤◌, length, take, drop};
ghost use Rattle.kernel_types.specs.Messages.{with_opened, get_from, get, read_message, read_from, read, without_opened, unblocked_end, peer_unblocked, put_from, put};
ghost use Rattle.kernel_types.specs.Objects.{end_changed, end_of};
ghost use Rattle.plain_calls.specs.Outcomes.{outcome};

use crate::connects::to_u32;
use crate::told::{CallOutcome, gives, gives_with, refuses};
use kernel_values::{
    Body, ChannelEnd, Copied, CoreState, EndSeq, Errno, Items, Message, NoMemory, ObjId, Reply,
    Seqs,
};
use plain_objects::ends::{is_disconnected, is_unconnected};
use plain_objects::installs::install_all;
use plain_objects::objects::{find_end, place_of_object};
use plain_objects::queues::{
    find_filled, find_opened, least_free_id, place_of_filled, remove_opened,
};
use plain_objects::tables::{find_entry, has_room, table_of};
use std::alloc::Global;

fn open_first(end: &mut ChannelEnd, id: u32)
    ensures { end.new ≡ with_opened id end.old }
{
    let place = place_of_filled(end.messages.as_slice());
    if let Some(message) = end.messages.get_mut(place) {
        message.opened = Some(id);
    }
}

/// The oldest filled message of the end is opened under the id.
pub fn open_message(core: &mut CoreState, object: u64, id: u32)
    ensures { core.new ≡ end_changed (with_opened id) object core.old }
{
    let place = place_of_object(core.objects.as_slice(), object);
    if let Some(held) = core.objects.get_mut(place) {
        if let Body::End(end) = &mut held.body {
            open_first(end, id);
        }
    }
}

fn get_from(core: &mut CoreState, object: u64) -> Result<CallOutcome, NoMemory>
    ensures { IfOk result (λ told. outcome told core.new ≡ get_from core.old object (end_of core.old.objects object)) }
{
    let Some(end) = find_end(core.objects.as_slice(), object) else {
        return Ok(refuses(Errno::InvalidArgs));
    };
    if is_unconnected(end.state) {
        return Ok(refuses(Errno::NotReady));
    }
    let Some(message) = find_filled(end.messages.as_slice()) else {
        if is_disconnected(end.state) {
            return Ok(refuses(Errno::ChannelClosed));
        }
        return Ok(refuses(Errno::NoMsg));
    };
    let seq = message.seq;
    let len = to_u32(message.bytes.len())?;
    let parts = to_u32(message.parts.len())?;
    let id = least_free_id(end.messages.as_slice())?;
    open_message(core, object, id);
    let seqs = Seqs {
        sent: None,
        opened: Some(EndSeq {
            end: ObjId(object),
            seq,
        }),
        retired: None,
    };
    Ok(gives_with(Reply::Message { id, len, parts }, seqs))
}

/// The oldest filled message becomes open.
#[tactic(auto, unfolding(kernel_types::specs::Messages::get))]
pub fn get_call(core: &mut CoreState, app: u32, chan: u32) -> Result<CallOutcome, NoMemory>
    ensures { IfOk result (λ told. outcome told core.new ≡ get core.old app chan) }
{
    let Some(entry) = find_entry(table_of(core, app), chan) else {
        return Ok(refuses(Errno::BadHandle));
    };
    get_from(core, entry.object)
}

/// At most `room` numbers from the place `offset` on.
fn part_of(alloc: Global, bytes: &[u8], offset: usize, room: usize) -> Result<Items<u8>, NoMemory>
    requires { offset ≤ length bytes.now }
    ensures { IfOk result (λ part. part ≡ take room (drop offset bytes.now)) }
{
    let rest = &bytes[offset..];
    let count = room.min(rest.len());
    Items::from_slice(alloc, &rest[..count])
}

/// The first objects of a message, at most `count`.
fn first_parts(alloc: Global, parts: &[u64], count: usize) -> Result<Items<u64>, NoMemory>
    ensures { IfOk result (λ part. part ≡ take count parts.now) }
{
    let some = count.min(parts.len());
    Items::from_slice(alloc, &parts[..some])
}

fn read_message(
    core: &mut CoreState,
    app: u32,
    message: &Message,
    offset: u32,
    room: u32,
    parts: u32,
) -> Result<CallOutcome, NoMemory>
    ensures { IfOk result (λ told. outcome told core.new ≡ read_message core.old app message.now offset room parts) }
{
    if message.bytes.len() < offset as usize {
        return Ok(refuses(Errno::InvalidArgs));
    }
    let count = (parts as usize).min(message.parts.len());
    if !has_room(count, table_of(core, app)) {
        return Ok(refuses(Errno::NoResources));
    }
    let alloc = core.objects.allocator();
    let bytes = part_of(
        alloc,
        message.bytes.as_slice(),
        offset as usize,
        room as usize,
    )?;
    let objects = first_parts(alloc, message.parts.as_slice(), parts as usize)?;
    let handles = install_all(core, app, objects.as_slice())?;
    Ok(gives(Reply::Bytes {
        bytes,
        parts: handles,
    }))
}

fn read_from(
    core: &mut CoreState,
    app: u32,
    object: u64,
    id: u32,
    offset: u32,
    room: u32,
    parts: u32,
) -> Result<CallOutcome, NoMemory>
    ensures { IfOk result (λ told. outcome told core.new ≡ read_from core.old app (end_of core.old.objects object) id offset room parts) }
{
    let Some(end) = find_end(core.objects.as_slice(), object) else {
        return Ok(refuses(Errno::InvalidArgs));
    };
    let Some(message) = find_opened(end.messages.as_slice(), id) else {
        return Ok(refuses(Errno::InvalidArgs));
    };
    let copy = message.copied()?;
    read_message(core, app, &copy, offset, room, parts)
}

/// A part of an open message's bytes, and new numbers for the first of its handles.
#[tactic(auto, unfolding(kernel_types::specs::Messages::read))]
pub fn read_call(
    core: &mut CoreState,
    app: u32,
    chan: u32,
    id: u32,
    offset: u32,
    room: u32,
    parts: u32,
) -> Result<CallOutcome, NoMemory>
    ensures { IfOk result (λ told. outcome told core.new ≡ read core.old app chan id offset room parts) }
{
    let Some(entry) = find_entry(table_of(core, app), chan) else {
        return Ok(refuses(Errno::BadHandle));
    };
    read_from(core, app, entry.object, id, offset, room, parts)
}

/// The message that is open under the id goes.
#[tactic(auto, unfolding(plain_objects::specs::Predicates::is_another))]
pub fn retire(core: &mut CoreState, object: u64, id: u32)
    ensures { core.new ≡ end_changed (without_opened id) object core.old }
{
    let place = place_of_object(core.objects.as_slice(), object);
    if let Some(held) = core.objects.get_mut(place) {
        if let Body::End(end) = &mut held.body {
            remove_opened(&mut end.messages, id);
        }
    }
}

fn unblock_end(core: &mut CoreState, id: u64)
    ensures { core.new ≡ end_changed unblocked_end id core.old }
{
    let place = place_of_object(core.objects.as_slice(), id);
    if let Some(object) = core.objects.get_mut(place) {
        if let Body::End(end) = &mut object.body {
            end.unblocked = end.unblocked || end.blocked;
            end.blocked = false;
        }
    }
}

/// Where the peer is there and was refused a send, it gets its unblocked event.
pub fn unblock_peer(core: &mut CoreState, peer: Option<u64>)
    ensures { core.new ≡ peer_unblocked peer core.old }
{
    if let Some(id) = peer {
        unblock_end(core, id);
    }
}

fn put_from(core: &mut CoreState, object: u64, id: u32) -> CallOutcome
    ensures { outcome result core.new ≡ put_from core.old object id (end_of core.old.objects object) }
{
    let Some(end) = find_end(core.objects.as_slice(), object) else {
        return refuses(Errno::InvalidArgs);
    };
    let Some(message) = find_opened(end.messages.as_slice(), id) else {
        return refuses(Errno::InvalidArgs);
    };
    let seq = message.seq;
    let peer = end.peer;
    retire(core, object, id);
    unblock_peer(core, peer);
    let seqs = Seqs {
        sent: None,
        opened: None,
        retired: Some(EndSeq {
            end: ObjId(object),
            seq,
        }),
    };
    gives_with(Reply::Done, seqs)
}

/// The message is retired; a peer that is blocked becomes unblocked.
#[tactic(auto, unfolding(kernel_types::specs::Messages::put))]
pub fn put_call(core: &mut CoreState, app: u32, chan: u32, id: u32) -> CallOutcome
    ensures { outcome result core.new ≡ put core.old app chan id }
{
    let Some(entry) = find_entry(table_of(core, app), chan) else {
        return refuses(Errno::BadHandle);
    };
    put_from(core, entry.object, id)
}
