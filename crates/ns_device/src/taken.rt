//! A frame from the normal world is taken.

ghost use Rattle.std.specs.Prelude.{◌≡◌, ◌≤◌, ◌<◌, ◌+◌, drop, length, IfOk, IfNone, OnErr, OnOk, Some};
ghost use Rattle.std.specs.List.{All};
ghost use Rattle.std.specs.Option.{option_map};
ghost use Rattle.virtqueue.specs.Bytes.{IsWithin, bytes_at};
ghost use Rattle.kernel_values.specs.declared.reply.DeviceReply.TheVariants as reply;
ghost use Rattle.kernel_types.specs.Bridge.{ns_push};
ghost use Rattle.kernel_types.specs.Bridging.{CanPush, IsBridged};
ghost use Rattle.kernel_types.specs.Device.{leave_taken, request_taken};
ghost use Rattle.kernel_types.specs.Kernel.{step_limit};
ghost use Rattle.ns_device.specs.Taken.{taken_as};
ghost use Rattle.ns_device.specs.Taking.{IsTakeable, taken_by};

use crate::entries::without_entry;
use crate::requests::request;
use crate::taking::Taking;
use crate::told::{DeviceOutcome, tells};
use kernel_types::Core;
use kernel_values::{BridgeEntry, Bytes, Device, DeviceReply, Items, NoMemory, ObjId, Seqs};
use std::alloc::Global;
use tipc_proto::PathName;
use virtqueue::{Chain, MEMORY_SIZE, chain_len, read_chain};

/// The bytes of a frame.
fn frame_of(alloc: Global, mem: &[u8], chain: &Chain) -> Result<Vec<u8>, NoMemory>
    requires memory { length mem.now ≡ MEMORY_SIZE }
    requires parts { All IsWithin chain.now.parts }
    ensures { IfOk result (λ frame. frame.items ≡ bytes_at chain.now.parts mem.now) }
{
    let mut frame = vec![in alloc; 0u8; chain_len(chain) as usize]?;
    read_chain(mem, chain, &mut frame);
    Ok(frame)
}

/// What is behind a frame's header.
#[tactic(auto, using(crate::proofs::Fronts::behind_header))]
fn behind_header(frame: &[u8]) -> &[u8]
    ensures { result.now ≡ drop 16 frame.now }
{
    &frame[frame.len().min(16)..]
}

/// The bytes behind a frame's header.
fn payload_of(alloc: Global, mem: &[u8], chain: &Chain) -> Result<Bytes, NoMemory>
    requires memory { length mem.now ≡ MEMORY_SIZE }
    requires parts { All IsWithin chain.now.parts }
    ensures { IfOk result (λ bytes. bytes ≡ drop 16 (bytes_at chain.now.parts mem.now)) }
{
    let frame = frame_of(alloc, mem, chain)?;
    Ok(Items::from_slice(alloc, behind_header(frame.as_slice()))?)
}

/// The connection of an entry ends.
fn leave<C: Core>(
    core: &mut C,
    device: &mut Device,
    src: u32,
    entry: BridgeEntry,
) -> Result<DeviceOutcome, NoMemory>
    requires { IsBridged entry.end (C.state core.old) }
    ensures done { IfOk result (λ told. taken_as (C.state core.new).core device.new told ≡ leave_taken (C.state core.old).core device.old src (Some entry)) }
    ensures world { (C.state core.new).world ≡ (C.state core.old).world }
    ensures made { C.made core.new ≡ C.made core.old }
    ensures state { OnErr result (C.state core.new ≡ C.state core.old) }
    ensures queue { device.new.from_normal ≡ device.old.from_normal }
    ensures device { OnErr result (device.new ≡ device.old) }
{
    let rest = without_entry(&device.entries, entry)?;
    core.ns_drop(ObjId(entry.end), false);
    device.entries = rest;
    Ok(tells(DeviceReply::TookDisc {
        src,
        target: entry.secure,
    }))
}

/// Bytes go to the peer of an end. That they are too many for a number counts as want of memory; a frame holds far fewer.
fn carry<C: Core>(
    core: &mut C,
    src: u32,
    dst: u32,
    end: u64,
    bytes: &Bytes,
) -> Result<DeviceOutcome, NoMemory>
    requires named { IsBridged end (C.state core.old) }
    requires room { CanPush end bytes.now (C.state core.old) }
    requires below { C.made core.old < step_limit }
    ensures reply { IfOk result (λ told. told.reply ≡ reply.TookMessage src dst (length bytes.now)) }
    ensures seqs { IfOk result (λ told. told.seqs ≡ (ns_push (C.state core.old).core end bytes.now).seqs) }
    ensures core { OnOk result ((C.state core.new).core ≡ (ns_push (C.state core.old).core end bytes.now).core) }
    ensures world { (C.state core.new).world ≡ (C.state core.old).world }
    ensures made { C.made core.new ≤ C.made core.old + 1 }
    ensures state { OnErr result (C.state core.new ≡ C.state core.old) }
    ensures steps { OnErr result (C.made core.new ≡ C.made core.old) }
{
    let Ok(len) = u32::try_from(bytes.len()) else {
        return Err(NoMemory);
    };
    let sent = core.ns_push(ObjId(end), bytes)?;
    Ok(DeviceOutcome {
        reply: DeviceReply::TookMessage { src, dst, len },
        seqs: Seqs {
            sent: Some(sent),
            opened: None,
            retired: None,
        },
    })
}

/// A request for a connection is taken.
fn ask<C: Core>(
    core: &mut C,
    device: &mut Device,
    src: u32,
    path: &PathName,
) -> Result<DeviceOutcome, NoMemory>
    requires { C.made core.old < step_limit }
    ensures done { IfOk result (λ told. taken_as (C.state core.new).core device.new told ≡ request_taken (C.state core.old).core device.old src path.now) }
    ensures world { (C.state core.new).world ≡ (C.state core.old).world }
    ensures made { C.made core.new ≤ C.made core.old + 1 }
    ensures state { OnErr result (C.state core.new ≡ C.state core.old) }
    ensures steps { OnErr result (C.made core.new ≡ C.made core.old) }
    ensures queue { device.new.from_normal ≡ device.old.from_normal }
    ensures device { OnErr result (device.new ≡ device.old) }
{
    let path = Items::from_slice(device.entries.allocator(), path.as_slice())?;
    request(core, device, src, &path)?;
    Ok(tells(DeviceReply::TookReq { src, path }))
}

/// Does for a frame what comes of it, and tells nothing where it is held.
pub fn carry_out<C: Core>(
    core: &mut C,
    mem: &[u8],
    device: &mut Device,
    chain: &Chain,
    taking: Taking,
) -> Result<Option<DeviceOutcome>, NoMemory>
    requires memory { length mem.now ≡ MEMORY_SIZE }
    requires parts { All IsWithin chain.now.parts }
    requires ready { IsTakeable (C.state core.old) (drop 16 (bytes_at chain.now.parts mem.now)) taking }
    requires below { C.made core.old < step_limit }
    ensures done { IfOk result (λ told. option_map (taken_as (C.state core.new).core device.new) told
        ≡ taken_by (C.state core.old).core device.old (drop 16 (bytes_at chain.now.parts mem.now)) taking) }
    ensures held { IfOk result (λ told. IfNone told ((C.state core.new ≡ C.state core.old) × (device.new ≡ device.old))) }
    ensures world { (C.state core.new).world ≡ (C.state core.old).world }
    ensures made { C.made core.new ≤ C.made core.old + 1 }
    ensures kept { IfOk result (λ told. IfNone told (C.made core.new ≡ C.made core.old)) }
    ensures state { OnErr result (C.state core.new ≡ C.state core.old) }
    ensures steps { OnErr result (C.made core.new ≡ C.made core.old) }
    ensures queue { device.new.from_normal ≡ device.old.from_normal }
    ensures device { OnErr result (device.new ≡ device.old) }
{
    match taking {
        Taking::Held => Ok(None),
        Taking::Ignoring(cause) => Ok(Some(tells(DeviceReply::Ignored(cause)))),
        Taking::Requesting { src, path } => Ok(Some(ask(core, device, src, &path)?)),
        Taking::Leaving { src, entry } => Ok(Some(leave(core, device, src, entry)?)),
        Taking::Carrying { src, dst, entry } => {
            let bytes = payload_of(device.entries.allocator(), mem, chain)?;
            Ok(Some(carry(core, src, dst, entry.end, &bytes)?))
        }
    }
}
