//! `send`. Its refusals are tested over all parts, one kind after another.

ghost use Rattle.std.specs.Prelude.{◌≡◌, IfOk, map, OnOk};
ghost use Rattle.std.specs.List.{list_all};
ghost use Rattle.kernel_types.specs.Messages.{is_in_table, is_memory_entry, is_bridge_end, peer_end, has_unsendable_part, blocked_end, with_message, deliver, send};
ghost use Rattle.kernel_types.specs.Tables.{entry_at, table_of};
ghost use Rattle.plain_objects.specs.Predicates.{part_object, send_with_parts, send_by_end};
ghost use Rattle.kernel_types.specs.Objects.{end_changed, end_of};
ghost use Rattle.plain_calls.specs.Outcomes.{outcome};

use crate::connects::to_u32;
use crate::told::{CallOutcome, gives_with, refuses};
use kernel_values::{
    Body, Bytes, ChannelEnd, Connector, Copied, CoreState, EndSeq, Errno, Handles, Items, Message,
    NoMemory, ObjId, Object, Reply, Seqs, TableEntry,
};
use plain_objects::ends::{is_disconnected, is_unconnected};
use plain_objects::objects::{find_end, find_memory, place_of_object};
use plain_objects::tables::{find_entry, table_of};
use std::alloc::Global;

fn are_in_table(table: &[TableEntry], parts: &[u32]) -> bool
    ensures { result ≡ list_all (is_in_table table.now) parts.now }
{
    for handle in parts {
        if find_entry(table, *handle).is_none() {
            return false;
        }
    }
    true
}

fn is_memory_handle(objects: &[Object], table: &[TableEntry], handle: u32) -> bool
    ensures { result ≡ is_memory_entry objects.now (entry_at table.now handle) }
{
    match find_entry(table, handle) {
        Some(entry) => find_memory(objects, entry.object).is_some(),
        None => false,
    }
}

fn are_memories(objects: &[Object], table: &[TableEntry], parts: &[u32]) -> bool
    ensures { result ≡ list_all (λ handle. is_memory_entry objects.now (entry_at table.now handle)) parts.now }
{
    for handle in parts {
        if !is_memory_handle(objects, table, *handle) {
            return false;
        }
    }
    true
}

#[tactic(auto, unfolding(plain_objects::specs::Predicates::part_object))]
fn part_object(table: &[TableEntry], handle: u32) -> u64
    ensures { result ≡ part_object table.now handle }
{
    match find_entry(table, handle) {
        Some(entry) => entry.object,
        None => 0,
    }
}

/// The objects that the numbers name.
fn part_objects(alloc: Global, table: &[TableEntry], parts: &[u32]) -> Result<Items<u64>, NoMemory>
    ensures { IfOk result (λ objects. objects ≡ map (part_object table.now) parts.now) }
{
    let mut objects = Items::new(alloc);
    for handle in parts {
        objects.push(part_object(table, *handle))?;
    }
    Ok(objects)
}

/// Whether the peer is an end that a client of the normal world made.
fn is_bridge_peer(objects: &[Object], peer: Option<u64>) -> bool
    ensures { result ≡ is_bridge_end (peer_end objects.now peer) }
{
    let Some(id) = peer else {
        return false;
    };
    let Some(end) = find_end(objects, id) else {
        return false;
    };
    match end.client {
        Some(Connector::NormalWorld) => true,
        _ => false,
    }
}

fn has_unsendable_part(core: &CoreState, app: u32, peer: Option<u64>, parts: &[u32]) -> bool
    ensures { result ≡ has_unsendable_part core.now (table_of core.now app) (peer_end core.now.objects peer) parts.now }
{
    let objects = core.objects.as_slice();
    let has_parts = match parts {
        [] => false,
        _ => true,
    };
    !are_memories(objects, table_of(core, app), parts)
        || (has_parts && is_bridge_peer(objects, peer))
}

fn block_end(core: &mut CoreState, id: u64)
    ensures { core.new ≡ end_changed blocked_end id core.old }
{
    let place = place_of_object(core.objects.as_slice(), id);
    if let Some(object) = core.objects.get_mut(place) {
        if let Body::End(end) = &mut object.body {
            end.blocked = true;
            end.unblocked = false;
        }
    }
}

fn add_message_to(end: &mut ChannelEnd, bytes: &Bytes, parts: &Items<u64>) -> Result<(), NoMemory>
    ensures { OnOk result (end.new ≡ with_message bytes.now parts.now end.old) }
{
    let seq = end.sent;
    let Some(sent) = seq.checked_add(1) else {
        return Err(NoMemory);
    };
    end.messages.push(Message {
        seq,
        bytes: bytes.copied()?,
        parts: parts.copied()?,
        opened: None,
    })?;
    end.sent = sent;
    Ok(())
}

/// Puts a message with these bytes and these objects into an end, where it is there.
pub fn add_message(
    core: &mut CoreState,
    id: u64,
    bytes: &Bytes,
    parts: &Items<u64>,
) -> Result<(), NoMemory>
    ensures { OnOk result (core.new ≡ end_changed (with_message bytes.now parts.now) id core.old) }
{
    let place = place_of_object(core.objects.as_slice(), id);
    if let Some(object) = core.objects.get_mut(place) {
        if let Body::End(end) = &mut object.body {
            add_message_to(end, bytes, parts)?;
        }
    }
    Ok(())
}

fn deliver(
    core: &mut CoreState,
    id: u64,
    peer: Option<u64>,
    bytes: &Bytes,
    parts: &Items<u64>,
) -> Result<CallOutcome, NoMemory>
    ensures { IfOk result (λ told. outcome told core.new ≡ deliver core.old id peer (peer_end core.old.objects peer) bytes.now parts.now) }
{
    let Some(peer) = peer else {
        return Ok(refuses(Errno::ChannelClosed));
    };
    let Some(end) = find_end(core.objects.as_slice(), peer) else {
        return Ok(refuses(Errno::ChannelClosed));
    };
    if end.slots as usize <= end.messages.len() {
        block_end(core, id);
        return Ok(refuses(Errno::NotEnoughBuffer));
    }
    let seq = end.sent;
    let count = to_u32(bytes.len())?;
    add_message(core, peer, bytes, parts)?;
    let seqs = Seqs {
        sent: Some(EndSeq {
            end: ObjId(peer),
            seq,
        }),
        opened: None,
        retired: None,
    };
    Ok(gives_with(Reply::Count(count), seqs))
}

#[tactic(auto, unfolding(plain_objects::specs::Predicates::part_object, plain_objects::specs::Predicates::send_with_parts))]
fn send_parts(
    core: &mut CoreState,
    app: u32,
    id: u64,
    peer: Option<u64>,
    bytes: &Bytes,
    parts: &[u32],
) -> Result<CallOutcome, NoMemory>
    ensures { IfOk result (λ told. outcome told core.new ≡ send_with_parts core.old id (table_of core.old app) peer bytes.now parts.now) }
{
    if !are_in_table(table_of(core, app), parts) {
        return Ok(refuses(Errno::BadHandle));
    }
    if has_unsendable_part(core, app, peer, parts) {
        return Ok(refuses(Errno::NotSupported));
    }
    let objects = part_objects(core.objects.allocator(), table_of(core, app), parts)?;
    deliver(core, id, peer, bytes, &objects)
}

fn send_from(
    core: &mut CoreState,
    app: u32,
    id: u64,
    bytes: &Bytes,
    parts: &[u32],
) -> Result<CallOutcome, NoMemory>
    ensures { IfOk result (λ told. outcome told core.new ≡ send_by_end core.old id (table_of core.old app) bytes.now parts.now (end_of core.old.objects id)) }
{
    let Some(end) = find_end(core.objects.as_slice(), id) else {
        return Ok(refuses(Errno::InvalidArgs));
    };
    if 8 < parts.len() {
        return Ok(refuses(Errno::InvalidArgs));
    }
    if is_unconnected(end.state) {
        return Ok(refuses(Errno::NotReady));
    }
    if is_disconnected(end.state) {
        return Ok(refuses(Errno::ChannelClosed));
    }
    if (end.size as usize) < bytes.len() {
        return Ok(refuses(Errno::TooBig));
    }
    let peer = end.peer;
    send_parts(core, app, id, peer, bytes, parts)
}

/// Sends a message with the memory references that the numbers name.
#[tactic(auto, unfolding(kernel_types::specs::Messages::send, plain_objects::specs::Predicates::send_with_parts))]
pub fn send_call(
    core: &mut CoreState,
    app: u32,
    chan: u32,
    bytes: &Bytes,
    parts: &Handles,
) -> Result<CallOutcome, NoMemory>
    ensures { IfOk result (λ told. outcome told core.new ≡ send core.old app chan bytes.now parts.now) }
{
    let Some(entry) = find_entry(table_of(core, app), chan) else {
        return Ok(refuses(Errno::BadHandle));
    };
    send_from(core, app, entry.object, bytes, parts.as_slice())
}
