//! A due frame goes out.

ghost use Rattle.std.specs.Prelude.{◌≡◌, ◌<◌, length, IfOk, OnErr, Ok, Some};
ghost use Rattle.std.specs.List.{All};
ghost use Rattle.std.specs.Option.{option_map};
ghost use Rattle.virtqueue.specs.Bytes.{IsWithin};
ghost use Rattle.virtqueue.specs.Layout.{IsQueue};
ghost use Rattle.kernel_values.specs.declared.reply.BreakCause.TheVariants as broken;
ghost use Rattle.kernel_values.specs.declared.reply.DeviceReply.TheVariants as reply;
ghost use Rattle.kernel_types.specs.Device.{due_change, send_due};
ghost use Rattle.ns_device.specs.Beside.{Becomes};
ghost use Rattle.ns_device.specs.Named.{AreNamed};
ghost use Rattle.ns_device.specs.Owing.{IsReady, due_by};
ghost use Rattle.ns_device.specs.Worlds.{bare, left, told_of};

use crate::breaking::break_down;
use crate::due::Owed;
use crate::sends::{device_after, owed_frame};
use crate::told::{DeviceOutcome, no_seqs};
use kernel_types::Core;
use kernel_values::{BreakCause, Device, DeviceReply, NoMemory, ObjId, Seqs};
use virtqueue::{Chain, MEMORY_SIZE, chain_len, push_used, write_chain};

/// What the core does once the frame went out: a message was sent, or an entry goes.
pub fn settle<C: Core>(core: &mut C, owed: &Owed) -> Seqs
    requires { IsReady (C.state core.old) owed.now }
    ensures seqs { result ≡ (due_change (due_by (C.state core.old).core owed.now) (C.state core.old).core).seqs }
    ensures core { Becomes (due_change (due_by (C.state core.old).core owed.now) (C.state core.old).core).core (C.state core.old) (C.state core.new) }
    ensures made { C.made core.new ≡ C.made core.old }
{
    match owed {
        Owed::Denying(entry) | Owed::Leaving(entry) => {
            core.ns_drop(ObjId(entry.end), false);
            no_seqs()
        }
        Owed::Sending(entry) => {
            let seq = core.ns_take(ObjId(entry.end));
            Seqs {
                sent: None,
                opened: Some(seq),
                retired: Some(seq),
            }
        }
        _ => no_seqs(),
    }
}

fn small_buffer(head: u16) -> DeviceReply
    ensures { result ≡ reply.Broke 0 broken.SmallBuffer head }
{
    DeviceReply::Broke {
        queue: 0,
        cause: BreakCause::SmallBuffer,
        place: head as u32,
    }
}

/// The frame that is due goes out in the chain's buffers; where they are too small for it, the device breaks. All memory is
/// taken before anything is changed.
#[tactic(auto, using(crate::proofs::Dues::device_after_is))]
pub fn send<C: Core>(
    core: &mut C,
    mem: &mut [u8],
    device: &mut Device,
    owed: &Owed,
    chain: &Chain,
) -> Result<DeviceOutcome, NoMemory>
    requires memory { length mem.old ≡ MEMORY_SIZE }
    requires queue { IsQueue device.old.to_normal }
    requires parts { All IsWithin chain.now.parts }
    requires head { chain.now.head < device.old.to_normal.n }
    requires named { AreNamed (C.state core.old).core.bridged device.old.entries }
    requires ready { IsReady (C.state core.old) owed.now }
    ensures done { IfOk result (λ told. Some (told_of (C.state core.new).core mem.new device.new told)
        ≡ option_map left (send_due (bare (C.state core.old).core mem.old device.old) (due_by (C.state core.old).core owed.now) (Ok (Some chain.now)))) }
    ensures world { (C.state core.new).world ≡ (C.state core.old).world }
    ensures made { C.made core.new ≡ C.made core.old }
    ensures state { OnErr result (C.state core.new ≡ C.state core.old) }
    ensures memory { OnErr result (mem.new ≡ mem.old) }
    ensures device { OnErr result (device.new ≡ device.old) }
{
    let sending = owed_frame(device.entries.allocator(), core, owed)?;
    if chain_len(chain) < sending.frame.len() as u64 {
        return Ok(break_down(core, device, small_buffer(chain.head)));
    }
    let mut after = device_after(owed, device)?;
    write_chain(mem, chain, sending.frame.as_slice());
    push_used(
        mem,
        &mut after.to_normal,
        chain.head,
        sending.frame.len() as u32,
    );
    *device = after;
    let seqs = settle(core, owed);
    Ok(DeviceOutcome {
        reply: sending.reply,
        seqs,
    })
}
