//! A request for a connection.

ghost use Rattle.std.specs.Prelude.{◌≡◌, ◌≤◌, ◌<◌, ◌+◌, nat_le, length, IfOk, OnOk, OnErr};
ghost use Rattle.kernel_values.specs.declared.reply.DeviceReply.TheVariants as reply;
ghost use Rattle.kernel_types.specs.Bridge.{ns_connect};
ghost use Rattle.kernel_types.specs.Device.{entry_limit, refused, request_connected, request_taken};
ghost use Rattle.kernel_types.specs.Kernel.{step_limit};
ghost use Rattle.kernel_types.specs.Objects.{map_at};
ghost use Rattle.kernel_types.specs.Outcome.{no_seqs};
ghost use Rattle.ns_device.specs.Taken.{taken_as, with_end};

use crate::entries::{PLACES, free_secure, has_normal, with_entry};
use crate::frames::number_of;
use kernel_types::{Core, NsRefused};
use kernel_values::{BridgeEntry, Bytes, Device, Errno, Items, NoMemory, Refusal};

/// The answer to a refused request is queued.
fn refuse(device: &mut Device, src: u32, errno: Errno) -> Result<(), NoMemory>
    ensures ok { OnOk result (device.new ≡ refused src errno device.old) }
    ensures queue { device.new.from_normal ≡ device.old.from_normal }
    ensures err { OnErr result (device.new ≡ device.old) }
{
    device.refusals.push(Refusal {
        target: src,
        status: number_of(errno),
    })
}

#[tactic(auto, unfolding(kernel_types::specs::Device::entry_limit))]
fn is_full(entries: &[BridgeEntry]) -> bool
    ensures { result ≡ nat_le entry_limit (length entries.now) }
{
    PLACES as usize <= entries.len()
}

fn set_end(entries: &mut Items<BridgeEntry>, place: usize, end: u64)
    ensures { entries.new ≡ map_at (with_end end) entries.old place }
{
    if let Some(entry) = entries.get_mut(place) {
        entry.end = end;
    }
}

/// The connection is made, or refused by the core. The new entry is there before the end that it names.
fn connect<C: Core>(
    core: &mut C,
    device: &mut Device,
    src: u32,
    path: &Bytes,
) -> Result<(), NoMemory>
    requires { C.made core.old < step_limit }
    ensures done { IfOk result (λ _. taken_as (C.state core.new).core device.new (record { reply = reply.TookReq src path.now; seqs = no_seqs })
        ≡ request_connected (C.state core.old).core device.old src path.now (ns_connect (C.state core.old).core path.now)) }
    ensures world { (C.state core.new).world ≡ (C.state core.old).world }
    ensures made { C.made core.new ≤ C.made core.old + 1 }
    ensures state { OnErr result (C.state core.new ≡ C.state core.old) }
    ensures steps { OnErr result (C.made core.new ≡ C.made core.old) }
    ensures queue { device.new.from_normal ≡ device.old.from_normal }
    ensures device { OnErr result (device.new ≡ device.old) }
{
    let entry = BridgeEntry {
        secure: free_secure(device.entries.as_slice()),
        normal: src,
        end: 0,
        answered: false,
    };
    let (mut entries, place) = with_entry(&device.entries, entry)?;
    match core.ns_connect(path) {
        Ok(end) => {
            set_end(&mut entries, place, end.0);
            device.entries = entries;
            Ok(())
        }
        Err(NsRefused::Errno(errno)) => refuse(device, src, errno),
        Err(NsRefused::NoMemory) => Err(NoMemory),
    }
}

/// What comes of a request: an entry, or a refusal.
pub fn request<C: Core>(
    core: &mut C,
    device: &mut Device,
    src: u32,
    path: &Bytes,
) -> Result<(), NoMemory>
    requires { C.made core.old < step_limit }
    ensures done { IfOk result (λ _. taken_as (C.state core.new).core device.new (record { reply = reply.TookReq src path.now; seqs = no_seqs })
        ≡ request_taken (C.state core.old).core device.old src path.now) }
    ensures world { (C.state core.new).world ≡ (C.state core.old).world }
    ensures made { C.made core.new ≤ C.made core.old + 1 }
    ensures state { OnErr result (C.state core.new ≡ C.state core.old) }
    ensures steps { OnErr result (C.made core.new ≡ C.made core.old) }
    ensures queue { device.new.from_normal ≡ device.old.from_normal }
    ensures device { OnErr result (device.new ≡ device.old) }
{
    if has_normal(device.entries.as_slice(), src) {
        return Ok(refuse(device, src, Errno::AlreadyExists)?);
    }
    if is_full(device.entries.as_slice()) {
        return Ok(refuse(device, src, Errno::NoResources)?);
    }
    Ok(connect(core, device, src, path)?)
}
