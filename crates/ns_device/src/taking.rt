//! What becomes of the next frame from the normal world. No memory is taken, and nothing is done for the frame yet.

ghost use Rattle.std.specs.Prelude.{◌≡◌, nat_le, length, IfSome};
ghost use Rattle.std.specs.List.{All};
ghost use Rattle.virtqueue.specs.Bytes.{IsWithin, bytes_at};
ghost use Rattle.kernel_types.specs.Bridging.{IsBridged};
ghost use Rattle.kernel_types.specs.Device.{fault_cause, refusal_limit};
ghost use Rattle.ns_device.specs.Named.{AreNamed};
ghost use Rattle.ns_device.specs.Taking.{bytes_taking, control_taking, frame_taking, leave_taking, request_taking, viewed_taking};

use crate::due::is_disconnected;
use crate::entries::entry_between;
use crate::frames::CONTROL;
use crate::heads::{control_in, frame_in};
use kernel_types::{Core, EndView};
use kernel_values::{BridgeEntry, Device, IgnoreCause, ObjId};
use tipc_proto::{Control, Frame, FrameFault, PathName};
use virtqueue::{Chain, MEMORY_SIZE};

/// There are at most so many refusals.
const REFUSALS: usize = 64;

/// What becomes of a frame.
#[derive(Drop)]
pub enum Taking {
    /// It stays where it is.
    Held,
    /// It goes, and nothing comes of it.
    Ignoring(IgnoreCause),
    /// It asks for a connection.
    Requesting {
        src: u32,
        path: PathName,
    },
    /// It ends a connection.
    Leaving {
        src: u32,
        entry: BridgeEntry,
    },
    /// Its bytes go to the peer of an end.
    Carrying {
        src: u32,
        dst: u32,
        entry: BridgeEntry,
    },
}

fn fault_cause(fault: FrameFault) -> IgnoreCause
    ensures { result ≡ fault_cause fault }
{
    match fault {
        FrameFault::Short => IgnoreCause::Short,
        FrameFault::Length => IgnoreCause::Length,
        FrameFault::UnknownType => IgnoreCause::UnknownType,
        FrameFault::BodyLength => IgnoreCause::BodyLength,
        FrameFault::Name(_) => IgnoreCause::Name,
    }
}

/// The limit of refusals.
#[tactic(auto, unfolding(kernel_types::specs::Device::refusal_limit))]
fn is_full_of_refusals(device: &Device) -> bool
    ensures { result ≡ nat_le refusal_limit (length device.now.refusals) }
{
    REFUSALS <= device.refusals.len()
}

fn request_taking(device: &Device, src: u32, path: PathName) -> Taking
    ensures { result ≡ request_taking device.now src path }
{
    if is_full_of_refusals(device) {
        Taking::Held
    } else {
        Taking::Requesting { src, path }
    }
}

fn leave_taking(src: u32, entry: Option<BridgeEntry>) -> Taking
    ensures { result ≡ leave_taking src entry }
{
    match entry {
        None => Taking::Ignoring(IgnoreCause::NoEntry),
        Some(entry) => Taking::Leaving { src, entry },
    }
}

fn control_taking(device: &Device, src: u32, control: Result<Control, FrameFault>) -> Taking
    ensures { result ≡ control_taking device.now src control }
{
    match control {
        Err(fault) => Taking::Ignoring(fault_cause(fault)),
        Ok(Control::ConnReq { path }) => request_taking(device, src, path),
        Ok(Control::DiscReq { target }) => {
            leave_taking(src, entry_between(device.entries.as_slice(), target, src))
        }
        Ok(_) => Taking::Ignoring(IgnoreCause::NotServed),
    }
}

fn viewed_taking(frame: &Frame, entry: BridgeEntry, view: EndView) -> Taking
    ensures { result ≡ viewed_taking frame.now frame.now.len entry view }
{
    if is_disconnected(view.state) {
        return Taking::Ignoring(IgnoreCause::PeerGone);
    }
    if view.size < frame.len as u32 {
        return Taking::Ignoring(IgnoreCause::TooBig);
    }
    if view.peer_full {
        return Taking::Held;
    }
    Taking::Carrying {
        src: frame.src,
        dst: frame.dst,
        entry,
    }
}

fn bytes_taking<C: Core>(core: &C, frame: &Frame, entry: Option<BridgeEntry>) -> Taking
    requires { IfSome entry (λ e. IsBridged e.end (C.state core.now)) }
    ensures { result ≡ bytes_taking (C.state core.now).core frame.now frame.now.len entry }
{
    match entry {
        None => Taking::Ignoring(IgnoreCause::NoEntry),
        Some(entry) if entry.answered => {
            viewed_taking(frame, entry, core.ns_view(ObjId(entry.end)))
        }
        Some(_) => Taking::Ignoring(IgnoreCause::NotAnswered),
    }
}

/// What becomes of the frame in the chain's buffers.
#[tactic(auto, using(crate::proofs::Names::among_bridged), unfolding(crate::specs::Taking::frame_taking))]
pub fn frame_taking<C: Core>(core: &C, device: &Device, mem: &[u8], chain: &Chain) -> Taking
    requires memory { length mem.now ≡ MEMORY_SIZE }
    requires parts { All IsWithin chain.now.parts }
    requires named { AreNamed (C.state core.now).core.bridged device.now.entries }
    ensures { result ≡ frame_taking (C.state core.now).core device.now (bytes_at chain.now.parts mem.now) }
{
    match frame_in(mem, chain) {
        Err(fault) => Taking::Ignoring(fault_cause(fault)),
        Ok(frame) if frame.dst == CONTROL => {
            control_taking(device, frame.src, control_in(mem, chain))
        }
        Ok(frame) => {
            let entry = entry_between(device.entries.as_slice(), frame.dst, frame.src);
            bytes_taking(core, &frame, entry)
        }
    }
}
