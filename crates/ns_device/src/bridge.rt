//! A core with the device of the bridge.

ghost use Rattle.std.specs.Prelude.{◌≡◌, ◌≢◌, ◌≤◌, ◌<◌, ◌+◌, length, IfNone, IfOk, IfErr, OnErr};
ghost use Rattle.std.specs.Option.{is_some};
ghost use Rattle.kernel_types.specs.Bridging.{Idled, IsLater};
ghost use Rattle.kernel_types.specs.Kernel.{Did, Refused, step_limit};
ghost use Rattle.kernel_types.specs.Limits.{FitsIn, room_of};
ghost use Rattle.kernel_types.specs.Opening.{opening_device};
ghost use Rattle.set_laws.specs.Soundness.{NamesAreGiven};
ghost use Rattle.ns_device.specs.Steps.{Stepped};
ghost use Rattle.ns_device.specs.Worlds.{device_left};

use crate::steps::{has_work, step};
use crate::told::DeviceOutcome;
use kernel_types::{Core, StepCause, StepRefused};
use kernel_values::{Device, Entry, Event, Items, NoMemory};
use std::alloc::Global;
use std::marker::Model;
use virtqueue::{MEMORY_SIZE, Queue};

/// A core with the device of the bridge, whose memory is the caller's. Its type keeps that the core names the end of each entry.
#[derive(Drop)]
pub struct Bridge<C: Core + Drop> {
    core: C,
    device: Device,
}

impl<C: Core + Drop> Model for Bridge<C> {
    ghost use Rattle.ns_device.specs.Value.{IsSound, BridgeValue, standing_code};

    ghost Value = { BridgeValue C };

    ghost coded = { standing_code C.code };

    ghost view = { λ b. record { core = b.core; device = b.device } };

    ghost invariant = { λ b. IsSound (C.state b.core).core b.device };
}

fn ring(index: u32, size: u32) -> Queue
    ensures { result ≡ record { index = index; n = size; position = 0; used = 0 } }
{
    Queue {
        index,
        n: size,
        position: 0,
        used: 0,
    }
}

impl<C: Core + Drop> Bridge<C> {
    /// A device that has not gone online yet, over a core that it has asked nothing of. `queue` is the size of both queues.
    pub fn new(alloc: Global, core: C, queue: u32) -> Bridge<C>
        requires low { 1 ≤ queue }
        requires high { queue ≤ 256 }
        requires given { NamesAreGiven (C.state core).core }
        ensures core { result.core ≡ core }
        ensures device { result.device ≡ opening_device queue }
    {
        Bridge {
            core,
            device: Device {
                to_normal: ring(0, queue),
                from_normal: ring(1, queue),
                entries: Items::new(alloc),
                refusals: Items::new(alloc),
                online: false,
                broken: false,
            },
        }
    }

    /// The core.
    pub fn core(&self) -> &C
        ensures { result.now ≡ self.now.core }
    {
        &self.core
    }

    /// A step of the core that is not the normal world's.
    pub fn step_core(&mut self, event: Event) -> Result<Entry, StepRefused>
        ensures done { IfOk result (λ entry. Did event (C.state self.old.core) (C.state self.new.core) (C.made self.old.core) (C.made self.new.core) entry) }
        ensures refused { IfErr result (λ refused. Refused event (C.state self.old.core) (C.state self.new.core) (C.made self.old.core) (C.made self.new.core) refused) }
        ensures fits { IfOk result (λ entry. FitsIn (room_of (C.state self.old.core) event) entry.answer) }
        ensures spared { IfErr result (λ refused. C.spares self.old.core event → refused.cause ≢ StepCause.NoMemory) }
        ensures device { self.new.device ≡ self.old.device }
    {
        self.core.step(event)
    }

    /// Time passes for the core, or every wait of a thread is cancelled.
    pub fn idle(&mut self, clock: Option<u64>)
        requires later { IsLater (C.state self.old.core).core.clock clock }
        requires below { C.made self.old.core < step_limit }
        ensures idled { Idled clock (C.state self.old.core) (C.state self.new.core) (C.made self.old.core) (C.made self.new.core) }
        ensures device { self.new.device ≡ self.old.device }
    {
        self.core.idle(clock);
    }

    /// Whether the device has work: something is due and there is a chain for it, or there is a frame to take that is not held.
    /// No memory is taken.
    pub fn has_work(&self, mem: &[u8]) -> bool
        requires memory { length mem.now ≡ MEMORY_SIZE }
        ensures { result ≡ is_some (device_left (C.state self.now.core).core mem.now self.now.device) }
    {
        has_work(&self.core, mem, &self.device)
    }

    /// One step of the device: what is due goes out, or the next frame of the normal world is taken. Nothing where the device has
    /// no work. Refused for want of memory, all stands as before.
    pub fn step(&mut self, mem: &mut [u8]) -> Result<Option<DeviceOutcome>, NoMemory>
        requires memory { length mem.old ≡ MEMORY_SIZE }
        requires below { C.made self.old.core < step_limit }
        ensures done { IfOk result (λ told. Stepped told (C.state self.old.core) (C.state self.new.core) mem.old mem.new self.old.device self.new.device) }
        ensures made { C.made self.new.core ≤ C.made self.old.core + 1 }
        ensures kept { IfOk result (λ told. IfNone told (C.made self.new.core ≡ C.made self.old.core)) }
        ensures state { OnErr result (C.state self.new.core ≡ C.state self.old.core) }
        ensures steps { OnErr result (C.made self.new.core ≡ C.made self.old.core) }
        ensures memory { OnErr result (mem.new ≡ mem.old) }
        ensures device { OnErr result (self.new.device ≡ self.old.device) }
    {
        step(&mut self.core, mem, &mut self.device)
    }
}
