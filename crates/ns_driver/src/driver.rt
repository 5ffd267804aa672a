//! The driver, as its clients' calls meet it.

ghost use Rattle.std.specs.Prelude.{◌≡◌, ◌<◌, ◌≤◌, length, Option, Some, None, IfOk, OnOk, OnErr, replicate, slice_set};
ghost use Rattle.std.specs.Option.{option_map};
ghost use Rattle.kernel_types.specs.GuestMemory.{blank_memory, opening_memory};
ghost use Rattle.kernel_types.specs.Opening.{opening_driver};
ghost use Rattle.ns_driver.specs.Value.{wait_of};
ghost use Rattle.ns_driver.specs.Acts.{bare, acted, told, wait_after, has_answer, MayAct};

use crate::acting::{act_on, give_all, new_wait_of, wait_if, wait_of};
use crate::drain::buffer_count;
use crate::watching::has_answer;
use kernel_values::{Answer, Call, ClientWaitOn, Driver as DriverState, Items, NoMemory};
use std::alloc::Global;
use std::marker::Model;
use virtqueue::MEMORY_SIZE;

/// The driver of the normal world. Contracts see the driver of the model, and for each client what it waits for.
#[derive(Drop)]
pub struct Driver {
    state: DriverState,
    waits: Items<Option<ClientWaitOn>>,
}

impl Model for Driver {
    ghost use Rattle.ns_driver.specs.Value.{DriverValue, IsSound};

    ghost Value = { DriverValue };

    ghost view = { λ d. record { driver = d.state; waits = d.waits } };

    ghost invariant = { λ d. IsSound d.state };
}

impl Driver {
    /// The driver of a memory of zeros, with `n` places in each ring. Each of the first descriptors of queue 0 is given
    /// its buffer then. Refused, nothing is written.
    #[tactic(auto, using(crate::proofs::Ranges::all_in_range, crate::proofs::Ranges::range_push, crate::proofs::Opening::blank_long), unfolding(kernel_types::specs::GuestMemory::opening_memory))]
    pub fn new(alloc: Global, mem: &mut [u8], n: u32, clients: u32) -> Result<Driver, NoMemory>
        requires memory { mem.old ≡ blank_memory }
        requires low { 1 ≤ n }
        requires high { n ≤ 256 }
        ensures driver { IfOk result (λ d. d.driver ≡ opening_driver n) }
        ensures waits { IfOk result (λ d. d.waits ≡ replicate clients None) }
        ensures memory { OnOk result (mem.new ≡ opening_memory n) }
        ensures refused { OnErr result (mem.new ≡ mem.old) }
    {
        let mut free = Items::new(alloc);
        for place in 0..buffer_count(n) {
            free.push(place)?;
        }
        let mut waits = Items::new(alloc);
        for _client in 0..clients {
            waits.push(None)?;
        }
        give_all(mem, n, free.as_slice());
        Ok(Driver {
            state: DriverState {
                size: n,
                seen_to_normal: 0,
                seen_from_normal: 0,
                free,
                connections: Items::new(alloc),
            },
            waits,
        })
    }

    /// A client's call but `Finish`, or with `None` the end of its wait. The driver drains both used rings, and then
    /// answers; it answers `Waits` where nothing is there that would end the wait. A call past the driver, which writes
    /// memory or a ring, drains nothing. A call replaces a former wait of the client. Refused for want of memory, all
    /// stands as before.
    pub fn act(
        &mut self,
        mem: &mut [u8],
        client: u32,
        call: Option<Call>,
    ) -> Result<Answer, NoMemory>
        requires memory { length mem.old ≡ MEMORY_SIZE }
        requires client { client < length self.old.waits }
        requires lawful { MayAct self.old.driver (wait_of self.old.waits client) call }
        ensures told { IfOk result (λ answer. option_map told (acted client (wait_of self.old.waits client) call (bare mem.old self.old.driver))
            ≡ Some (record { answer = answer; memory = mem.new; driver = self.new.driver })) }
        ensures waits { IfOk result (λ answer. self.new.waits
            ≡ slice_set self.old.waits client (wait_after self.old.driver (wait_of self.old.waits client) call answer)) }
        ensures memory { OnErr result (mem.new ≡ mem.old) }
        ensures driver { OnErr result (self.new ≡ self.old) }
    {
        let before = wait_of(self.waits.as_slice(), client);
        let awaited = new_wait_of(&self.state, before, &call);
        let answer = act_on(&mut self.state, mem, client, before, call)?;
        let after = wait_if(&answer, awaited);
        if let Some(wait) = self.waits.get_mut(client as usize) {
            *wait = after;
        }
        Ok(answer)
    }

    /// What a client waits for, by what the driver was told last.
    pub fn wait_of(&self, client: u32) -> Option<ClientWaitOn>
        ensures { result ≡ wait_of self.now.waits client }
    {
        wait_of(self.waits.as_slice(), client)
    }

    /// Whether the client's wait would have an answer after a drain. Nothing is written and no memory is taken.
    pub fn movable(&self, mem: &[u8], client: u32) -> bool
        requires memory { length mem.now ≡ MEMORY_SIZE }
        ensures { result ≡ has_answer (wait_of self.now.waits client) (bare mem.now self.now.driver) }
    {
        match wait_of(self.waits.as_slice(), client) {
            Some(on) => has_answer(&self.state, mem, on),
            None => false,
        }
    }
}
