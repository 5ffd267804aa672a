//! `send`. Its refusals are tested over all parts, one kind after another.

ghost use Rattle.std.specs.Prelude.{◌≡◌, ◌≤◌, true, length, IfOk, OnErr};
ghost use Rattle.std.specs.List.{list_all};
ghost use Rattle.kernel_types.specs.Messages.{deliver, has_unsendable_part, is_bridge_end, is_in_table, is_memory_entry, part_objects, peer_end, send};
ghost use Rattle.kernel_types.specs.Objects.{end_of};
ghost use Rattle.kernel_types.specs.Tables.{entry_at, table_of};
ghost use Rattle.core_changes.specs.Outcomes.{outcome};
ghost use Rattle.core_calls.specs.Sends.{send_by_end, send_with_parts};

use crate::ends::{is_disconnected, is_unconnected};
use crate::messages::to_u32;
use core_changes::CoreChanges;
use core_changes::core_changes::Mark;
use core_changes::outcomes::{CallOutcome, gives_with, refuses};
use kernel_values::{Bytes, Connector, EndSeq, Errno, Handles, NoMemory, ObjId, Reply, Seqs};

fn are_in_table<C: CoreChanges>(core: &C, app: u32, parts: &[u32]) -> bool
    ensures { result ≡ list_all (is_in_table (table_of (C.state core.now) app)) parts.now }
{
    for handle in parts {
        if core.entry(app, *handle).is_none() {
            return false;
        }
    }
    true
}

fn is_memory_handle<C: CoreChanges>(core: &C, app: u32, handle: u32) -> bool
    ensures { result ≡ is_memory_entry (C.state core.now).objects (entry_at (table_of (C.state core.now) app) handle) }
{
    match core.entry(app, handle) {
        Some(entry) => core.memory(entry.object).is_some(),
        None => false,
    }
}

fn are_memories<C: CoreChanges>(core: &C, app: u32, parts: &[u32]) -> bool
    ensures { result ≡ list_all (λ handle. is_memory_entry (C.state core.now).objects (entry_at (table_of (C.state core.now) app) handle)) parts.now }
{
    for handle in parts {
        if !is_memory_handle(core, app, *handle) {
            return false;
        }
    }
    true
}

/// Whether the peer is an end that a client of the normal world made.
fn is_bridge_peer<C: CoreChanges>(core: &C, peer: Option<u64>) -> bool
    ensures { result ≡ is_bridge_end (peer_end (C.state core.now).objects peer) }
{
    let Some(id) = peer else {
        return false;
    };
    let Some(end) = core.end(id) else {
        return false;
    };
    match end.client {
        Some(Connector::NormalWorld) => true,
        _ => false,
    }
}

fn has_unsendable_part<C: CoreChanges>(core: &C, app: u32, peer: Option<u64>, parts: &[u32]) -> bool
    ensures { result ≡ has_unsendable_part (C.state core.now) (table_of (C.state core.now) app) (peer_end (C.state core.now).objects peer) parts.now }
{
    let has_parts = match parts {
        [] => false,
        _ => true,
    };
    !are_memories(core, app, parts) || (has_parts && is_bridge_peer(core, peer))
}

/// The message comes to the peer, where it is there and has a slot left.
pub fn deliver<C: CoreChanges>(
    core: &mut C,
    app: u32,
    id: u64,
    peer: Option<u64>,
    bytes: &Bytes,
    parts: &[u32],
) -> Result<CallOutcome, NoMemory>
    requires held { list_all (is_in_table (table_of (C.state core.old) app)) parts.now ≡ true }
    requires few { length parts.now ≤ 8 }
    ensures ok { IfOk result (λ told. outcome told (C.state core.new) ≡ deliver (C.state core.old) id peer (peer_end (C.state core.old).objects peer) bytes.now (part_objects (table_of (C.state core.old) app) parts.now)) }
    ensures err { OnErr result (C.state core.new ≡ C.state core.old) }
{
    let Some(peer) = peer else {
        return Ok(refuses(Errno::ChannelClosed));
    };
    let Some(end) = core.end(peer) else {
        return Ok(refuses(Errno::ChannelClosed));
    };
    if end.slots as usize <= end.held {
        core.mark_end(id, Mark::Blocked);
        return Ok(refuses(Errno::NotEnoughBuffer));
    }
    let count = to_u32(bytes.len())?;
    core.deliver(peer, bytes, app, parts)?;
    let seqs = Seqs {
        sent: Some(EndSeq {
            end: ObjId(peer),
            seq: end.sent,
        }),
        opened: None,
        retired: None,
    };
    Ok(gives_with(Reply::Count(count), seqs))
}

#[tactic(auto, unfolding(crate::specs::Sends::send_with_parts))]
fn send_parts<C: CoreChanges>(
    core: &mut C,
    app: u32,
    id: u64,
    peer: Option<u64>,
    bytes: &Bytes,
    parts: &[u32],
) -> Result<CallOutcome, NoMemory>
    requires { length parts.now ≤ 8 }
    ensures ok { IfOk result (λ told. outcome told (C.state core.new) ≡ send_with_parts (C.state core.old) id (table_of (C.state core.old) app) peer bytes.now parts.now) }
    ensures err { OnErr result (C.state core.new ≡ C.state core.old) }
{
    if !are_in_table(core, app, parts) {
        return Ok(refuses(Errno::BadHandle));
    }
    if has_unsendable_part(core, app, peer, parts) {
        return Ok(refuses(Errno::NotSupported));
    }
    deliver(core, app, id, peer, bytes, parts)
}

fn send_from<C: CoreChanges>(
    core: &mut C,
    app: u32,
    id: u64,
    bytes: &Bytes,
    parts: &[u32],
) -> Result<CallOutcome, NoMemory>
    ensures ok { IfOk result (λ told. outcome told (C.state core.new) ≡ send_by_end (C.state core.old) id (table_of (C.state core.old) app) bytes.now parts.now (end_of (C.state core.old).objects id)) }
    ensures err { OnErr result (C.state core.new ≡ C.state core.old) }
{
    let Some(end) = core.end(id) else {
        return Ok(refuses(Errno::InvalidArgs));
    };
    if 8 < parts.len() {
        return Ok(refuses(Errno::InvalidArgs));
    }
    if is_unconnected(end.state) {
        return Ok(refuses(Errno::NotReady));
    }
    if is_disconnected(end.state) {
        return Ok(refuses(Errno::ChannelClosed));
    }
    if (end.size as usize) < bytes.len() {
        return Ok(refuses(Errno::TooBig));
    }
    send_parts(core, app, id, end.peer, bytes, parts)
}

/// Sends a message with the memory references that the numbers name.
#[tactic(auto, unfolding(kernel_types::specs::Messages::send, crate::specs::Sends::send_with_parts))]
pub fn send_call<C: CoreChanges>(
    core: &mut C,
    app: u32,
    chan: u32,
    bytes: &Bytes,
    parts: &Handles,
) -> Result<CallOutcome, NoMemory>
    ensures ok { IfOk result (λ told. outcome told (C.state core.new) ≡ send (C.state core.old) app chan bytes.now parts.now) }
    ensures err { OnErr result (C.state core.new ≡ C.state core.old) }
{
    let Some(entry) = core.entry(app, chan) else {
        return Ok(refuses(Errno::BadHandle));
    };
    send_from(core, app, entry.object, bytes, parts.as_slice())
}
