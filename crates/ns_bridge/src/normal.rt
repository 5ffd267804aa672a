//! The normal world behind the bridge: guest memory, the driver and its clients.

ghost use Rattle.std.specs.Prelude.{◌≡◌, ◌<◌, ◌≤◌, ◌+◌, length, map, slice_set, Some, IfOk, IfNone, IfSome, IsTrue, OnErr, true};
ghost use Rattle.std.specs.List.{All, list_any};
ghost use Rattle.std.specs.Option.{is_some, option_map};
ghost use Rattle.kernel_values.specs.Calls.{is_client_call};
ghost use Rattle.kernel_types.specs.GuestMemory.{blank_memory, opening_memory};
ghost use Rattle.kernel_types.specs.Kernel.{step_limit};
ghost use Rattle.kernel_types.specs.Limits.{FitsIn, IsInboxWithin, full_room, room_by, room_of_call};
ghost use Rattle.kernel_types.specs.Opening.{opening_client, opening_driver};
ghost use Rattle.kernel_types.specs.Step.{client_status, least_client_deadline};
ghost use Rattle.ns_driver.specs.Acts.{HasRoom};
ghost use Rattle.ns_driver.specs.Value.{wait_of};
ghost use Rattle.ns_driver.specs.Worlds.{clients_with, deadline_after};
ghost use Rattle.ns_device.specs.Steps.{Stepped};
ghost use Rattle.ns_device.specs.Worlds.{device_left};
ghost use Rattle.ns_bridge.specs.Acts.{HasRoomFor, activity_at, activity_moves_if, answered_if, asked_of_driver, client_acted, client_called, client_resumed, ended_answer, requests, state_moves, wait_moves};
ghost use Rattle.ns_bridge.specs.Parts.{idled, parts};
ghost use Rattle.ns_bridge.specs.Wholes.{goes_on, runs};

use crate::clients::{
    any_goes_on, any_runs, begin_to_wait, cancel_all, deadline_after, end, is_due, least_deadline,
    opening_clients, run_again, status_of,
};
use kernel_types::Core;
use kernel_values::{
    ActorStatus, Answer, Call, CallKind, Client, ClientActivity, ClientState, ClientWait, Copied,
    Errno, Event, Items, NoMemory, Reply,
};
use ns_device::{Bridge, DeviceOutcome};
use ns_driver::Driver;
use std::alloc::{AllocError, Global};
use std::marker::Model;
use virtqueue::MEMORY_SIZE;

/// Guest memory, the driver and its clients. For each client that waits the driver knows what it waits for.
#[derive(Drop)]
pub struct NormalWorld {
    memory: Vec<u8>,
    driver: Driver,
    clients: Items<ClientState>,
    /// How many connections were asked for, at most.
    asked: u32,
}

impl Model for NormalWorld {
    ghost use Rattle.ns_bridge.specs.Parts.{Normal};
    ghost use Rattle.ns_bridge.specs.Waits.{IsKept};

    ghost Value = { Normal };

    ghost view = { λ n. record { memory = n.memory.items; driver = n.driver.driver; clients = n.clients } };

    ghost invariant = { λ n. IsKept n.memory.items n.driver.driver n.driver.waits n.clients n.asked };
}

/// The memory that a driver begins with.
#[tactic(auto, using(crate::proofs::Blank::blank_zeros))]
fn blank_memory(alloc: Global, len: usize) -> Result<Vec<u8>, AllocError>
    requires { len ≡ MEMORY_SIZE }
    ensures { IfOk result (λ bytes. bytes.items ≡ blank_memory) }
{
    vec![in alloc; 0u8; len]
}

/// Whether an address is left for each connection that the call may add to those that were asked for.
fn has_room(asked: u32, call: &Call) -> bool
    ensures room { IsTrue result → HasRoomFor asked call.now }
    ensures full { HasRoomFor asked call.now → IsTrue result }
{
    match call {
        Call::NsConnect { path: _ } => asked < u32::MAX - 1024,
        _ => true,
    }
}

fn asked_after(asked: u32, call: &Call) -> u32
    requires { HasRoomFor asked call.now }
    ensures { result ≡ asked + requests call.now }
{
    match call {
        Call::NsConnect { path: _ } => asked + 1,
        _ => asked,
    }
}

/// The answer at the end of a wait, by what the driver answered: where that still waits, the wait was cancelled, or else is late.
fn ended_answer(cancelled: bool, answer: Answer) -> Answer
    ensures { result ≡ ended_answer cancelled answer }
{
    match answer {
        Answer::Waits => Answer::Refuses(if cancelled {
            Errno::Cancelled
        } else {
            Errno::TimedOut
        }),
        other => other,
    }
}

fn activity_of(clients: &[ClientState], client: u32) -> Option<ClientActivity>
    ensures { result ≡ activity_at clients.now client }
{
    match clients.get(client as usize) {
        Some(state) => Some(state.activity),
        None => None,
    }
}

/// Whether the wait of a client has an end.
#[tactic(auto, unfolding(crate::specs::Acts::wait_moves))]
fn wait_moves(driver: &Driver, memory: &[u8], clock: u64, client: u32, wait: ClientWait) -> bool
    requires memory { length memory.now ≡ MEMORY_SIZE }
    requires wait { wait_of driver.now.waits client ≡ Some wait.on }
    ensures { result ≡ wait_moves clock wait memory.now driver.now.driver }
{
    driver.movable(memory, client) || wait.cancelled || is_due(clock, wait.deadline)
}

/// A client's call that the driver makes; the client waits where the driver does.
#[tactic(auto, using(crate::proofs::Telling::wait_of_set))]
fn ask_driver(
    driver: &mut Driver,
    memory: &mut [u8],
    clients: &mut Items<ClientState>,
    clock: u64,
    client: u32,
    call: &Call,
) -> Result<Answer, NoMemory>
    requires memory { length memory.old ≡ MEMORY_SIZE }
    requires client { client < length driver.old.waits }
    requires made { IsTrue (is_client_call call.now) }
    requires room { HasRoom driver.old.driver call.now }
    ensures done { IfOk result (λ answer. Some (record { answer = answer; normal = parts memory.new driver.new.driver clients.new }) ≡ asked_of_driver clock client call.now (parts memory.old driver.old.driver clients.old)) }
    ensures clients { IfOk result (λ answer. clients.new ≡ clients_with client (deadline_after clock call.now) (wait_of driver.new.waits client) clients.old) }
    ensures waits { IfOk result (λ answer. driver.new.waits ≡ slice_set driver.old.waits client (wait_of driver.new.waits client)) }
    ensures err_memory { OnErr result (memory.new ≡ memory.old) }
    ensures err_driver { OnErr result (driver.new ≡ driver.old) }
    ensures err_clients { OnErr result (clients.new ≡ clients.old) }
{
    let deadline = deadline_after(clock, call)?;
    let copy = call.copied()?;
    let answer = driver.act(memory, client, Some(copy))?;
    begin_to_wait(clients, client, deadline, driver.wait_of(client));
    Ok(answer)
}

impl NormalWorld {
    /// The normal world of a scene before anything happens.
    #[tactic(auto, using(crate::proofs::Blank::blank_long))]
    pub fn new(alloc: Global, queue: u32, clients: &[Client]) -> Result<NormalWorld, NoMemory>
        requires low { 1 ≤ queue }
        requires high { queue ≤ 256 }
        ensures memory { IfOk result (λ normal. normal.memory ≡ opening_memory queue) }
        ensures driver { IfOk result (λ normal. normal.driver ≡ opening_driver queue) }
        ensures clients { IfOk result (λ normal. normal.clients ≡ map opening_client clients.now) }
    {
        let states = opening_clients(alloc, clients)?;
        let count = states.len();
        if count > u32::MAX as usize {
            return Err(NoMemory);
        }
        let mut memory = blank_memory(alloc, MEMORY_SIZE)?;
        let driver = Driver::new(alloc, &mut memory, queue, count as u32)?;
        Ok(NormalWorld {
            memory,
            driver,
            clients: states,
            asked: 0,
        })
    }

    /// What the type keeps of the inboxes.
    pub fn has_short_inboxes(&self)
        ensures { All IsInboxWithin self.now.driver.connections }
    {
        let _ = &self.clients;
    }

    /// What a client's event comes to, or nothing where it is not lawful, and then all stays. The client is told by its number
    /// among the clients. Refused, all stands as before.
    #[tactic(auto, unfolding(crate::specs::Acts::client_acted))]
    pub fn act(
        &mut self,
        clock: u64,
        client: u32,
        event: &Event,
    ) -> Result<Option<Answer>, NoMemory>
        ensures done { IfOk result (λ told. answered_if told self.new ≡ client_acted clock client event.now self.old) }
        ensures stays { IfOk result (λ told. IfNone told (self.new ≡ self.old)) }
        ensures fits { IfOk result (λ told. IfSome told (λ answer. FitsIn (room_by true event.now) answer)) }
        ensures err { OnErr result (self.new ≡ self.old) }
    {
        match event {
            Event::Begin {
                actor: _,
                start,
                call,
            } => self.call(clock, client, *start, call),
            Event::Resume { actor: _, start } => self.resume(clock, client, *start),
            Event::Device | Event::Idle => Ok(None),
        }
    }

    /// A call of a client that runs, by its present start.
    #[tactic(auto, unfolding(crate::specs::Acts::client_called, crate::specs::Acts::called), using(crate::proofs::Counting::room_is, crate::proofs::Awaiting::there_is_wait))]
    fn call(
        &mut self,
        clock: u64,
        client: u32,
        start: u32,
        call: &Call,
    ) -> Result<Option<Answer>, NoMemory>
        ensures done { IfOk result (λ told. answered_if told self.new ≡ client_called clock client start call.now self.old) }
        ensures stays { IfOk result (λ told. IfNone told (self.new ≡ self.old)) }
        ensures fits { IfOk result (λ told. IfSome told (λ answer. FitsIn (room_of_call call.now) answer)) }
        ensures err { OnErr result (self.new ≡ self.old) }
    {
        let Some(ClientActivity::Running { start: running }) = activity_of(
            self.clients.as_slice(),
            client,
        ) else {
            return Ok(None);
        };
        if running != start {
            return Ok(None);
        }
        match call.kind() {
            CallKind::Thread => Ok(None),
            CallKind::Finish => {
                end(&mut self.clients, client);
                Ok(Some(Answer::Gives(Reply::Done)))
            }
            CallKind::Driver | CallKind::Direct => {
                if !has_room(self.asked, call) {
                    return Err(NoMemory);
                }
                let answer = ask_driver(
                    &mut self.driver,
                    &mut self.memory,
                    &mut self.clients,
                    clock,
                    client,
                    call,
                )?;
                self.asked = asked_after(self.asked, call);
                Ok(Some(answer))
            }
        }
    }

    /// The end of a client's wait, by its present start: the client runs again.
    #[tactic(auto, unfolding(crate::specs::Acts::client_resumed), using(crate::proofs::Lifting::wait_stays, crate::proofs::Awaiting::wait_is, crate::proofs::Awaiting::there_is_wait))]
    fn resume(&mut self, clock: u64, client: u32, start: u32) -> Result<Option<Answer>, NoMemory>
        ensures done { IfOk result (λ told. answered_if told self.new ≡ client_resumed clock client start self.old) }
        ensures stays { IfOk result (λ told. IfNone told (self.new ≡ self.old)) }
        ensures fits { IfOk result (λ told. IfSome told (λ answer. FitsIn full_room answer)) }
        ensures err { OnErr result (self.new ≡ self.old) }
    {
        let Some(
            ClientActivity::Waiting {
                start: waiting,
                wait,
            },
        ) = activity_of(self.clients.as_slice(), client)
        else {
            return Ok(None);
        };
        if waiting != start {
            return Ok(None);
        }
        if !wait_moves(&self.driver, &self.memory, clock, client, wait) {
            return Ok(None);
        }
        let answer = self.driver.act(&mut self.memory, client, None)?;
        run_again(&mut self.clients, client);
        Ok(Some(ended_answer(wait.cancelled, answer)))
    }

    /// Whether the client waits and may move.
    #[tactic(auto, using(crate::proofs::Awaiting::wait_is))]
    pub fn may_move(&self, clock: u64, client: u32) -> bool
        ensures { result ≡ activity_moves_if clock self.now.memory self.now.driver (activity_at self.now.clients client) }
    {
        match activity_of(self.clients.as_slice(), client) {
            Some(ClientActivity::Waiting { start: _, wait }) => wait_moves(
                &self.driver,
                &self.memory,
                clock,
                client,
                wait,
            ),
            _ => false,
        }
    }

    /// Whether some client waits and may move.
    #[tactic(auto, using(crate::proofs::Awaiting::awaited_long, crate::proofs::Moving::moves_more))]
    pub fn any_may_move(&self, clock: u64) -> bool
        ensures { result ≡ list_any (state_moves clock self.now.memory self.now.driver) self.now.clients }
    {
        let count = self.clients.len() as u32;
        for client in 0..count {
            if self.may_move(clock, client) {
                return true;
            }
        }
        false
    }

    /// The number of clients.
    pub fn len(&self) -> usize
        ensures { result ≡ length self.now.clients }
    {
        self.clients.len()
    }

    /// What a client does.
    pub fn status(&self, client: u32) -> Option<ActorStatus>
        ensures { result ≡ option_map client_status (activity_at self.now.clients client) }
    {
        match activity_of(self.clients.as_slice(), client) {
            Some(activity) => Some(status_of(activity)),
            None => None,
        }
    }

    /// Whether some client has not ended.
    pub fn any_goes_on(&self) -> bool
        ensures { result ≡ list_any goes_on self.now.clients }
    {
        any_goes_on(self.clients.as_slice())
    }

    /// Whether some client runs.
    pub fn any_runs(&self) -> bool
        ensures { result ≡ list_any runs self.now.clients }
    {
        any_runs(self.clients.as_slice())
    }

    /// The least deadline of all waits.
    pub fn least_deadline(&self) -> Option<u64>
        ensures { result ≡ least_client_deadline self.now.clients }
    {
        least_deadline(self.clients.as_slice())
    }

    /// Time passes up to the deadline; without one, every wait is cancelled.
    #[tactic(auto, using(crate::proofs::Awaiting::cancelled_awaited), unfolding(kernel_types::specs::Step::world_idle))]
    pub fn idle(&mut self, deadline: Option<u64>)
        ensures { self.new ≡ idled deadline self.old }
    {
        if deadline.is_none() {
            cancel_all(&mut self.clients);
        }
    }

    /// Whether the device has work with this memory.
    pub fn gives_work<C: Core + Drop>(&self, bridge: &Bridge<C>) -> bool
        ensures { result ≡ is_some (device_left (C.state bridge.now.core).core self.now.memory bridge.now.device) }
    {
        bridge.has_work(&self.memory)
    }

    /// A step of the device on this memory. Refused, all stands as before.
    pub fn step_device<C: Core + Drop>(
        &mut self,
        bridge: &mut Bridge<C>,
    ) -> Result<Option<DeviceOutcome>, NoMemory>
        requires below { C.made bridge.old.core < step_limit }
        ensures done { IfOk result (λ told. Stepped told (C.state bridge.old.core) (C.state bridge.new.core) self.old.memory self.new.memory bridge.old.device bridge.new.device) }
        ensures driver { self.new.driver ≡ self.old.driver }
        ensures clients { self.new.clients ≡ self.old.clients }
        ensures made { C.made bridge.new.core ≤ C.made bridge.old.core + 1 }
        ensures kept { IfOk result (λ told. IfNone told (C.made bridge.new.core ≡ C.made bridge.old.core)) }
        ensures err_state { OnErr result (C.state bridge.new.core ≡ C.state bridge.old.core) }
        ensures err_steps { OnErr result (C.made bridge.new.core ≡ C.made bridge.old.core) }
        ensures err_memory { OnErr result (self.new.memory ≡ self.old.memory) }
        ensures err_device { OnErr result (bridge.new.device ≡ bridge.old.device) }
    {
        bridge.step(&mut self.memory)
    }
}
