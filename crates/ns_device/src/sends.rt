//! What the sending of a due frame needs: the frame, what is said of it, and the device afterwards. Nothing is changed yet.

ghost use Rattle.std.specs.Prelude.{◌≡◌, ◌<◌, ◌^◌, drop, length, IfOk};
ghost use Rattle.kernel_values.specs.declared.reply.DeviceReply.TheVariants as reply;
ghost use Rattle.kernel_types.specs.Bridging.{CanTake, IsBridged};
ghost use Rattle.kernel_types.specs.Device.{due_frame, due_reply};
ghost use Rattle.kernel_types.specs.Sending.{answer_frame, frame};
ghost use Rattle.ns_device.specs.Owing.{IsReady, due_by, oldest};
ghost use Rattle.ns_device.specs.Sends.{device_after, entries_after, online_after, refusals_after};

use crate::due::Owed;
use crate::entries::{with_answered, without_entry};
use crate::frames::{answer_frame, frame, leave_frame, number_of, online_frame};
use kernel_types::Core;
use kernel_values::{
    BridgeEntry, Bytes, Device, DeviceReply, Errno, Items, NoMemory, ObjId, Refusal,
};
use std::alloc::Global;

/// A frame that goes out.
#[derive(Drop)]
pub struct Sending {
    pub frame: Bytes,
    /// What the device says of it.
    pub reply: DeviceReply,
}

/// The answer to a request for a connection.
fn answer(
    alloc: Global,
    target: u32,
    status: u32,
    remote: u32,
    size: u32,
    count: u32,
) -> Result<Sending, NoMemory>
    ensures frame { IfOk result (λ s. s.frame ≡ answer_frame target status remote size count) }
    ensures short { IfOk result (λ s. length s.frame < 2 ^ 17) }
    ensures reply { IfOk result (λ s. s.reply ≡ reply.SentRsp target status remote size count) }
{
    let frame = answer_frame(alloc, target, status, remote, size, count)?;
    let reply = DeviceReply::SentRsp {
        target,
        status,
        remote,
        size,
        count,
    };
    Ok(Sending { frame, reply })
}

/// The oldest message of an entry's end.
fn message<C: Core>(alloc: Global, core: &C, entry: BridgeEntry) -> Result<Sending, NoMemory>
    requires named { IsBridged entry.end (C.state core.now) }
    requires filled { CanTake entry.end (C.state core.now) }
    ensures frame { IfOk result (λ s. s.frame ≡ frame entry.secure entry.normal (oldest (C.state core.now).core entry.end)) }
    ensures short { IfOk result (λ s. length s.frame < 2 ^ 17) }
    ensures reply { IfOk result (λ s. s.reply ≡ reply.SentMessage entry.secure entry.normal (length (oldest (C.state core.now).core entry.end))) }
{
    let bytes = core.ns_peek(ObjId(entry.end))?;
    let frame = frame(alloc, entry.secure, entry.normal, bytes.as_slice())?;
    let reply = DeviceReply::SentMessage {
        src: entry.secure,
        dst: entry.normal,
        len: bytes.len() as u32,
    };
    Ok(Sending { frame, reply })
}

/// The frame that is due, and what is said of it.
pub fn owed_frame<C: Core>(alloc: Global, core: &C, owed: &Owed) -> Result<Sending, NoMemory>
    requires { IsReady (C.state core.now) owed.now }
    ensures frame { IfOk result (λ s. s.frame ≡ due_frame (due_by (C.state core.now).core owed.now)) }
    ensures short { IfOk result (λ s. length s.frame < 2 ^ 17) }
    ensures reply { IfOk result (λ s. s.reply ≡ due_reply (due_by (C.state core.now).core owed.now)) }
{
    match owed {
        Owed::GoingOnline => Ok(Sending {
            frame: online_frame(alloc)?,
            reply: DeviceReply::SentOnline,
        }),
        Owed::Refusing(refusal) => answer(alloc, refusal.target, refusal.status, 0, 0, 0),
        Owed::Answering(entry, view) => {
            answer(alloc, entry.normal, 0, entry.secure, view.size, view.slots)
        }
        Owed::Denying(entry) => {
            answer(
                alloc,
                entry.normal,
                number_of(Errno::ChannelClosed),
                0,
                0,
                0,
            )
        }
        Owed::Sending(entry) => message(alloc, core, *entry),
        Owed::Leaving(entry) => Ok(Sending {
            frame: leave_frame(alloc, entry.normal)?,
            reply: DeviceReply::SentDisc {
                target: entry.normal,
            },
        }),
    }
}

/// The refusals without the oldest.
fn later(refusals: &Items<Refusal>) -> Result<Items<Refusal>, NoMemory>
    ensures { IfOk result (λ rest. rest ≡ drop 1 refusals.now) }
{
    match refusals.as_slice() {
        [] => Ok(Items::new(refusals.allocator())),
        [_, rest @ ..] => Items::from_slice(refusals.allocator(), rest),
    }
}

fn entries_after(owed: &Owed, entries: &Items<BridgeEntry>) -> Result<Items<BridgeEntry>, NoMemory>
    ensures { IfOk result (λ after. after ≡ entries_after owed.now entries.now) }
{
    match owed {
        Owed::Answering(entry, _) => with_answered(entries, entry.secure),
        Owed::Denying(entry) | Owed::Leaving(entry) => without_entry(entries, *entry),
        _ => Items::from_slice(entries.allocator(), entries.as_slice()),
    }
}

fn refusals_after(owed: &Owed, refusals: &Items<Refusal>) -> Result<Items<Refusal>, NoMemory>
    ensures { IfOk result (λ after. after ≡ refusals_after owed.now refusals.now) }
{
    match owed {
        Owed::Refusing(_) => later(refusals),
        _ => Items::from_slice(refusals.allocator(), refusals.as_slice()),
    }
}

fn online_after(owed: &Owed, online: bool) -> bool
    ensures { result ≡ online_after owed.now online }
{
    match owed {
        Owed::GoingOnline => true,
        _ => online,
    }
}

/// The device after the frame went out, but for its queue.
pub fn device_after(owed: &Owed, device: &Device) -> Result<Device, NoMemory>
    ensures { IfOk result (λ after. after ≡ device_after owed.now device.now) }
{
    Ok(Device {
        to_normal: device.to_normal,
        from_normal: device.from_normal,
        entries: entries_after(owed, &device.entries)?,
        refusals: refusals_after(owed, &device.refusals)?,
        online: online_after(owed, device.online),
        broken: device.broken,
    })
}
