//! A device that breaks.

ghost use Rattle.std.specs.Prelude.{◌≡◌, ◌<◌, length};
ghost use Rattle.std.specs.List.{fold};
ghost use Rattle.kernel_types.specs.Device.{broken_device, entry_dropped, ring_broke};
ghost use Rattle.kernel_types.specs.Outcome.{no_seqs};
ghost use Rattle.ns_device.specs.Named.{AreNamed};
ghost use Rattle.ns_device.specs.Beside.{Becomes};

use crate::told::{DeviceOutcome, tells};
use kernel_types::Core;
use kernel_values::{BreakCause, BridgeEntry, Device, DeviceReply, Items, ObjId};
use virtqueue::RingFault;

/// What is said of a fault of a ring.
pub fn ring_broke(queue: u32, fault: RingFault) -> DeviceReply
    ensures { result ≡ ring_broke queue fault }
{
    let (cause, place) = match fault {
        RingFault::IndexJump(idx) => (BreakCause::IndexJump, idx),
        RingFault::HeadOutOfRange(head) => (BreakCause::HeadOutOfRange, head),
        RingFault::NextOutOfRange(place) => (BreakCause::NextOutOfRange, place),
        RingFault::TooLong(place) => (BreakCause::TooLong, place),
        RingFault::RangeOutside(place) => (BreakCause::RangeOutside, place),
        RingFault::WrongDirection(place) => (BreakCause::WrongDirection, place),
    };
    DeviceReply::Broke {
        queue,
        cause,
        place: place as u32,
    }
}

/// The bridge names the first entry's end no more, and its peer gets the error mark. Answers the other entries.
fn drop_first<'e, C: Core>(core: &mut C, entries: &'e [BridgeEntry]) -> &'e [BridgeEntry]
    requires some { 0 < length entries.now }
    requires named { AreNamed (C.state core.old).core.bridged entries.now }
    ensures shorter { length result.now < length entries.now }
    ensures named { AreNamed (C.state core.new).core.bridged result.now }
    ensures left { fold entry_dropped (C.state core.new).core result.now ≡ fold entry_dropped (C.state core.old).core entries.now }
    ensures world { (C.state core.new).world ≡ (C.state core.old).world }
    ensures made { C.made core.new ≡ C.made core.old }
{
    core.ns_drop(ObjId(entries[0].end), true);
    &entries[1..]
}

/// The bridge names none of the entries' ends any more, and each peer gets the error mark.
fn drop_ends<C: Core>(core: &mut C, entries: &[BridgeEntry])
    requires { AreNamed (C.state core.old).core.bridged entries.now }
    ensures core { Becomes (fold entry_dropped (C.state core.old).core entries.now) (C.state core.old) (C.state core.new) }
    ensures made { C.made core.new ≡ C.made core.old }
{
    if entries.len() > 0 {
        let rest = drop_first(core, entries);
        drop_ends(core, rest);
    }
}

/// The device breaks: its entries and refusals go.
pub fn break_down<C: Core>(core: &mut C, device: &mut Device, reply: DeviceReply) -> DeviceOutcome
    requires { AreNamed (C.state core.old).core.bridged device.old.entries }
    ensures told { result ≡ record { reply = reply; seqs = no_seqs } }
    ensures core { Becomes (fold entry_dropped (C.state core.old).core device.old.entries) (C.state core.old) (C.state core.new) }
    ensures made { C.made core.new ≡ C.made core.old }
    ensures device { device.new ≡ broken_device device.old }
{
    drop_ends(core, device.entries.as_slice());
    let alloc = device.entries.allocator();
    device.entries = Items::new(alloc);
    device.refusals = Items::new(alloc);
    device.broken = true;
    tells(reply)
}
