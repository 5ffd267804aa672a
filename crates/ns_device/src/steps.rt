//! One step of the device over a core.

ghost use Rattle.std.specs.Prelude.{◌≡◌, ◌≤◌, ◌<◌, ◌+◌, length, IfNone, IfOk, OnErr};
ghost use Rattle.std.specs.List.{All};
ghost use Rattle.std.specs.Option.{is_some, option_map};
ghost use Rattle.virtqueue.specs.Bytes.{IsWithin, bytes_at};
ghost use Rattle.kernel_types.specs.Device.{take_chain, take_step};
ghost use Rattle.kernel_types.specs.Kernel.{step_limit};
ghost use Rattle.ns_device.specs.Value.{IsSound};
ghost use Rattle.ns_device.specs.Steps.{Done, Stepped};
ghost use Rattle.ns_device.specs.Worlds.{bare, device_left, left};

use crate::breaking::{break_down, ring_broke};
use crate::due::due_of;
use crate::sent::send;
use crate::taken::carry_out;
use crate::taking::{Taking, frame_taking};
use crate::told::DeviceOutcome;
use kernel_types::Core;
use kernel_values::{Device, NoMemory};
use virtqueue::{Chain, MEMORY_SIZE, next_chain, push_used};

/// The frame in the chain's buffers is taken, and the chain goes back; where it is held, all stays.
#[tactic(auto, using(crate::proofs::Takings::taken_is, crate::proofs::Takings::takeable))]
fn take_chain<C: Core>(
    core: &mut C,
    mem: &mut [u8],
    device: &mut Device,
    chain: &Chain,
) -> Result<Option<DeviceOutcome>, NoMemory>
    requires memory { length mem.old ≡ MEMORY_SIZE }
    requires parts { All IsWithin chain.now.parts }
    requires head { chain.now.head < device.old.from_normal.n }
    requires sound { IsSound (C.state core.old).core device.old }
    requires below { C.made core.old < step_limit }
    ensures done { IfOk result (λ told. Done (option_map left (take_chain (bare (C.state core.old).core mem.old device.old) chain.now (bytes_at chain.now.parts mem.old)))
        told (C.state core.old) (C.state core.new) mem.old mem.new device.old device.new) }
    ensures made { C.made core.new ≤ C.made core.old + 1 }
    ensures kept { IfOk result (λ told. IfNone told (C.made core.new ≡ C.made core.old)) }
    ensures state { OnErr result (C.state core.new ≡ C.state core.old) }
    ensures steps { OnErr result (C.made core.new ≡ C.made core.old) }
    ensures memory { OnErr result (mem.new ≡ mem.old) }
    ensures device { OnErr result (device.new ≡ device.old) }
{
    let taking = frame_taking(core, device, mem, chain);
    match carry_out(core, mem, device, chain, taking)? {
        None => Ok(None),
        Some(told) => {
            push_used(mem, &mut device.from_normal, chain.head, 0);
            Ok(Some(told))
        }
    }
}

/// The next frame of queue 1 is taken.
#[tactic(auto, unfolding(kernel_types::specs::Device::take_step))]
fn take<C: Core>(
    core: &mut C,
    mem: &mut [u8],
    device: &mut Device,
) -> Result<Option<DeviceOutcome>, NoMemory>
    requires memory { length mem.old ≡ MEMORY_SIZE }
    requires sound { IsSound (C.state core.old).core device.old }
    requires below { C.made core.old < step_limit }
    ensures done { IfOk result (λ told. Done (option_map left (take_step (bare (C.state core.old).core mem.old device.old)))
        told (C.state core.old) (C.state core.new) mem.old mem.new device.old device.new) }
    ensures made { C.made core.new ≤ C.made core.old + 1 }
    ensures kept { IfOk result (λ told. IfNone told (C.made core.new ≡ C.made core.old)) }
    ensures state { OnErr result (C.state core.new ≡ C.state core.old) }
    ensures steps { OnErr result (C.made core.new ≡ C.made core.old) }
    ensures memory { OnErr result (mem.new ≡ mem.old) }
    ensures device { OnErr result (device.new ≡ device.old) }
{
    match next_chain(mem, &device.from_normal) {
        Err(fault) => Ok(Some(break_down(core, device, ring_broke(1, fault)))),
        Ok(None) => Ok(None),
        Ok(Some(chain)) => take_chain(core, mem, device, &chain),
    }
}

/// One step of the device, or nothing where it has no work.
#[tactic(auto, unfolding(kernel_types::specs::Device::device_step, crate::specs::Worlds::device_left))]
pub fn step<C: Core>(
    core: &mut C,
    mem: &mut [u8],
    device: &mut Device,
) -> Result<Option<DeviceOutcome>, NoMemory>
    requires memory { length mem.old ≡ MEMORY_SIZE }
    requires sound { IsSound (C.state core.old).core device.old }
    requires below { C.made core.old < step_limit }
    ensures done { IfOk result (λ told. Stepped told (C.state core.old) (C.state core.new) mem.old mem.new device.old device.new) }
    ensures made { C.made core.new ≤ C.made core.old + 1 }
    ensures kept { IfOk result (λ told. IfNone told (C.made core.new ≡ C.made core.old)) }
    ensures state { OnErr result (C.state core.new ≡ C.state core.old) }
    ensures steps { OnErr result (C.made core.new ≡ C.made core.old) }
    ensures memory { OnErr result (mem.new ≡ mem.old) }
    ensures device { OnErr result (device.new ≡ device.old) }
{
    if device.broken {
        return Ok(None);
    }
    let Some(owed) = due_of(core, device) else {
        return take(core, mem, device);
    };
    match next_chain(mem, &device.to_normal) {
        Err(fault) => Ok(Some(break_down(core, device, ring_broke(0, fault)))),
        Ok(None) => take(core, mem, device),
        Ok(Some(chain)) => Ok(Some(send(core, mem, device, &owed, &chain)?)),
    }
}

/// Whether there is a frame of queue 1 to take.
#[tactic(auto, using(crate::proofs::Takings::taken_is), unfolding(kernel_types::specs::Device::take_step))]
fn takes<C: Core>(core: &C, mem: &[u8], device: &Device) -> bool
    requires memory { length mem.now ≡ MEMORY_SIZE }
    requires sound { IsSound (C.state core.now).core device.now }
    ensures { result ≡ is_some (take_step (bare (C.state core.now).core mem.now device.now)) }
{
    match next_chain(mem, &device.from_normal) {
        Err(_) => true,
        Ok(None) => false,
        Ok(Some(chain)) => !matches!(frame_taking(core, device, mem, &chain), Taking::Held),
    }
}

/// Whether the device has work.
#[tactic(auto, using(crate::proofs::Works::left_is_some), unfolding(kernel_types::specs::Device::device_step, crate::specs::Worlds::device_left))]
pub fn has_work<C: Core>(core: &C, mem: &[u8], device: &Device) -> bool
    requires memory { length mem.now ≡ MEMORY_SIZE }
    requires sound { IsSound (C.state core.now).core device.now }
    ensures { result ≡ is_some (device_left (C.state core.now).core mem.now device.now) }
{
    if device.broken {
        return false;
    }
    if due_of(core, device).is_none() {
        return takes(core, mem, device);
    }
    match next_chain(mem, &device.to_normal) {
        Ok(None) => takes(core, mem, device),
        _ => true,
    }
}
