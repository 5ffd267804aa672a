//! The calls of clients past the driver: writes of memory and of rings, wherever they go.

ghost use Rattle.std.specs.Prelude.{◌≡◌, ℕ, length, Option, Some};
ghost use Rattle.std.specs.Option.{option_map};
ghost use Rattle.kernel_values.specs.Calls.{kind_of};
ghost use Rattle.kernel_values.specs.declared.call.CallKind.TheVariants as kind;
ghost use Rattle.kernel_types.specs.Clients.{ns_poke_call, ns_kick_call};
ghost use Rattle.ns_driver.specs.Value.{IsSound};
ghost use Rattle.ns_driver.specs.Acts.{bare, acted, told};

use crate::memory::{ring, write};
use kernel_values::{Answer, Call, ClientWaitOn, Driver as DriverState, Errno, Reply};
use virtqueue::{MEMORY_SIZE, publish};

/// The bytes stand at the address from now on, where they end within the memory.
#[tactic(auto, unfolding(kernel_types::specs::Clients::ns_poke_call, kernel_types::specs::GuestMemory::memory_size))]
fn poke(mem: &mut [u8], addr: u32, bytes: &[u8]) -> Answer
    requires memory { length mem.old ≡ MEMORY_SIZE }
    ensures { (d : DriverState) → told (ns_poke_call addr bytes.now (bare mem.old d)) ≡ record { answer = result; memory = mem.new; driver = d } }
{
    let at = addr as usize;
    if MEMORY_SIZE < at + bytes.len() {
        return Answer::Refuses(Errno::InvalidArgs);
    }
    write(mem, at, bytes);
    Answer::Gives(Reply::Done)
}

/// A head is published in a queue, where the queue is there and the head has 16 bits.
#[tactic(auto, unfolding(kernel_types::specs::Clients::ns_kick_call))]
fn kick(driver: &DriverState, mem: &mut [u8], queue: u32, head: u32) -> Answer
    requires memory { length mem.old ≡ MEMORY_SIZE }
    requires sound { IsSound driver.now }
    ensures { told (ns_kick_call queue head (bare mem.old driver.now)) ≡ record { answer = result; memory = mem.new; driver = driver.now } }
{
    if queue > 1 {
        return Answer::Refuses(Errno::InvalidArgs);
    }
    let Ok(head) = u16::try_from(head) else {
        return Answer::Refuses(Errno::InvalidArgs);
    };
    publish(mem, &ring(queue, driver.size), head);
    Answer::Gives(Reply::Done)
}

/// Makes a client's call that needs no drain, whoever makes it. The driver stays, and no memory is taken.
#[tactic(auto, unfolding(kernel_types::specs::Clients::ns_act))]
pub fn act_directly(driver: &DriverState, mem: &mut [u8], call: &Call) -> Answer
    requires memory { length mem.old ≡ MEMORY_SIZE }
    requires sound { IsSound driver.now }
    requires direct { kind_of call.now ≡ kind.Direct }
    ensures { (client : ℕ) (before : Option ClientWaitOn)
        → option_map told (acted client before (Some call.now) (bare mem.old driver.now)) ≡ Some (record { answer = result; memory = mem.new; driver = driver.now }) }
{
    match call {
        Call::NsPoke { addr, bytes } => poke(mem, *addr, bytes.as_slice()),
        Call::NsKick { queue, head } => kick(driver, mem, *queue, *head),
        _ => unreachable!(),
    }
}
