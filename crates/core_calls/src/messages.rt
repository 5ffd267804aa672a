//! `get`, `read` and `put`.

ghost use Rattle.std.specs.Prelude.{◌≡◌, IfOk, OnErr};
ghost use Rattle.std.specs.List.{find};
ghost use Rattle.kernel_types.specs.Messages.{get, get_from, is_opened_as, peer_unblocked, put, put_from, read, read_from, read_opened};
ghost use Rattle.kernel_types.specs.Objects.{end_of};
ghost use Rattle.core_changes.specs.Looks.{messages_in};
ghost use Rattle.core_changes.specs.Outcomes.{outcome};

use crate::ends::{is_disconnected, is_unconnected};
use core_changes::CoreChanges;
use core_changes::core_changes::Mark;
use core_changes::outcomes::{CallOutcome, gives, gives_with, refuses};
use kernel_values::{EndSeq, Errno, NoMemory, ObjId, Reply, Seqs};

/// A number as one of 32 bits; refused where it is out of their range.
pub fn to_u32(number: usize) -> Result<u32, NoMemory>
    ensures { IfOk result (λ small. small ≡ number) }
{
    if number > u32::MAX as usize {
        return Err(NoMemory);
    }
    Ok(number as u32)
}

fn get_from<C: CoreChanges>(core: &mut C, object: u64) -> Result<CallOutcome, NoMemory>
    ensures ok { IfOk result (λ told. outcome told (C.state core.new) ≡ get_from (C.state core.old) object (end_of (C.state core.old).objects object)) }
    ensures err { OnErr result (C.state core.new ≡ C.state core.old) }
{
    let Some(end) = core.end(object) else {
        return Ok(refuses(Errno::InvalidArgs));
    };
    if is_unconnected(end.state) {
        return Ok(refuses(Errno::NotReady));
    }
    let Some(message) = core.first_filled(object) else {
        if is_disconnected(end.state) {
            return Ok(refuses(Errno::ChannelClosed));
        }
        return Ok(refuses(Errno::NoMsg));
    };
    let len = to_u32(message.len)?;
    let parts = to_u32(message.parts)?;
    let id = core.free_id(object)?;
    core.open_message(object, id);
    let seqs = Seqs {
        sent: None,
        opened: Some(EndSeq {
            end: ObjId(object),
            seq: message.seq,
        }),
        retired: None,
    };
    Ok(gives_with(Reply::Message { id, len, parts }, seqs))
}

/// The oldest filled message becomes open.
#[tactic(auto, unfolding(kernel_types::specs::Messages::get))]
pub fn get_call<C: CoreChanges>(core: &mut C, app: u32, chan: u32) -> Result<CallOutcome, NoMemory>
    ensures ok { IfOk result (λ told. outcome told (C.state core.new) ≡ get (C.state core.old) app chan) }
    ensures err { OnErr result (C.state core.new ≡ C.state core.old) }
{
    let Some(entry) = core.entry(app, chan) else {
        return Ok(refuses(Errno::BadHandle));
    };
    get_from(core, entry.object)
}

fn read_opened<C: CoreChanges>(
    core: &mut C,
    app: u32,
    object: u64,
    id: u32,
    offset: u32,
    room: u32,
    parts: u32,
) -> Result<CallOutcome, NoMemory>
    ensures ok { IfOk result (λ told. outcome told (C.state core.new) ≡ read_opened (C.state core.old) app (find (is_opened_as id) (messages_in (end_of (C.state core.old).objects object))) offset room parts) }
    ensures err { OnErr result (C.state core.new ≡ C.state core.old) }
{
    let Some(message) = core.opened(object, id) else {
        return Ok(refuses(Errno::InvalidArgs));
    };
    if message.len < offset as usize {
        return Ok(refuses(Errno::InvalidArgs));
    }
    if !core.has_room(app, (parts as usize).min(message.parts)) {
        return Ok(refuses(Errno::NoResources));
    }
    let bytes = core.message_bytes(object, id, offset, room)?;
    match core.install_parts(app, object, id, parts) {
        Ok(handles) => Ok(gives(Reply::Bytes {
            bytes,
            parts: handles,
        })),
        Err(refused) => {
            drop(bytes);
            Err(refused)
        }
    }
}

fn read_from<C: CoreChanges>(
    core: &mut C,
    app: u32,
    object: u64,
    id: u32,
    offset: u32,
    room: u32,
    parts: u32,
) -> Result<CallOutcome, NoMemory>
    ensures ok { IfOk result (λ told. outcome told (C.state core.new) ≡ read_from (C.state core.old) app (end_of (C.state core.old).objects object) id offset room parts) }
    ensures err { OnErr result (C.state core.new ≡ C.state core.old) }
{
    if core.end(object).is_none() {
        return Ok(refuses(Errno::InvalidArgs));
    }
    read_opened(core, app, object, id, offset, room, parts)
}

/// A part of an open message's bytes, and new numbers for the first of its handles.
#[tactic(auto, unfolding(kernel_types::specs::Messages::read))]
pub fn read_call<C: CoreChanges>(
    core: &mut C,
    app: u32,
    chan: u32,
    id: u32,
    offset: u32,
    room: u32,
    parts: u32,
) -> Result<CallOutcome, NoMemory>
    ensures ok { IfOk result (λ told. outcome told (C.state core.new) ≡ read (C.state core.old) app chan id offset room parts) }
    ensures err { OnErr result (C.state core.new ≡ C.state core.old) }
{
    let Some(entry) = core.entry(app, chan) else {
        return Ok(refuses(Errno::BadHandle));
    };
    read_from(core, app, entry.object, id, offset, room, parts)
}

/// Where the peer is there and was refused a send, it gets its unblocked event.
pub fn unblock_peer<C: CoreChanges>(core: &mut C, peer: Option<u64>)
    ensures { C.state core.new ≡ peer_unblocked peer (C.state core.old) }
{
    if let Some(id) = peer {
        core.mark_end(id, Mark::Unblocked);
    }
}

fn put_from<C: CoreChanges>(core: &mut C, object: u64, id: u32) -> CallOutcome
    ensures { outcome result (C.state core.new) ≡ put_from (C.state core.old) object id (end_of (C.state core.old).objects object) }
{
    let Some(end) = core.end(object) else {
        return refuses(Errno::InvalidArgs);
    };
    let Some(message) = core.opened(object, id) else {
        return refuses(Errno::InvalidArgs);
    };
    core.retire_message(object, id);
    unblock_peer(core, end.peer);
    let seqs = Seqs {
        sent: None,
        opened: None,
        retired: Some(EndSeq {
            end: ObjId(object),
            seq: message.seq,
        }),
    };
    gives_with(Reply::Done, seqs)
}

/// The message is retired; a peer that is blocked becomes unblocked.
#[tactic(auto, unfolding(kernel_types::specs::Messages::put))]
pub fn put_call<C: CoreChanges>(core: &mut C, app: u32, chan: u32, id: u32) -> CallOutcome
    ensures { outcome result (C.state core.new) ≡ put (C.state core.old) app chan id }
{
    let Some(entry) = core.entry(app, chan) else {
        return refuses(Errno::BadHandle);
    };
    put_from(core, entry.object, id)
}
