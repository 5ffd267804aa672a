//! The whole kernel.

ghost use Rattle.std.specs.Prelude.{◌≡◌, ◌≢◌, ◌<◌, [], length, IfErr, IfOk, IsTrue};
ghost use Rattle.kernel_types.specs.CoreStep.{idle_answer};
ghost use Rattle.kernel_types.specs.Facts.{status_at};
ghost use Rattle.kernel_types.specs.Kernel.{CauseHolds, Did, Refused, status_for, step_limit};
ghost use Rattle.kernel_types.specs.Limits.{FitsIn, room_of};
ghost use Rattle.kernel_types.specs.Opening.{opening, without_clients};
ghost use Rattle.kernel_types.specs.Outcome.{no_seqs};
ghost use Rattle.kernel_types.specs.Step.{device_has_work, idle_lawful, is_thread};
ghost use Rattle.kernel_values.specs.declared.entry.Event.TheVariants as kind;
ghost use Rattle.ns_bridge.specs.Kinds.{IsOf};
ghost use Rattle.ns_bridge.specs.Lawful.{IsSpared, is_lawful};
ghost use Rattle.ns_bridge.specs.Wholes.{IsOfClient, IsOfThread, may_end, may_idle, threads_of};

use crate::clients::sooner;
use crate::lawful::{has_short_timeout, is_running_as, is_waiting_as, makes};
use crate::movers::{Mover, mover_of};
use crate::normal::NormalWorld;
use kernel_types::{Core, IpcKernel, StepCause, StepRefused};
use kernel_values::{
    ActorId, ActorStatus, Answer, App, EndFacts, Entry, Event, Events, NoMemory, ObjId, Scene, Seqs,
};
use ns_device::{Bridge, device_steps_anywhere, device_works_anywhere};
use std::alloc::Global;
use std::marker::Model;

/// A core with the device of its bridge and with the normal world, and the number of steps made. The core made no more.
#[derive(Drop)]
pub struct Kernel<C: Core + Drop> {
    bridge: Bridge<C>,
    normal: NormalWorld,
    threads: u32,
    made: u32,
}

impl<C: Core + Drop> Model for Kernel<C> {
    ghost use Rattle.ns_bridge.specs.Parts.{state_of};
    ghost use Rattle.ns_bridge.specs.Timely.{IsOnTime};
    ghost use Rattle.ns_bridge.specs.Wholes.{IsWhole, KernelValue};

    ghost Value = { KernelValue };

    ghost view = { λ k. record { state = state_of (C.state k.bridge.core).core k.bridge.device k.normal; made = k.made } };

    ghost invariant = { λ k. IsWhole (C.state k.bridge.core).core (C.made k.bridge.core) k.threads k.made × IsOnTime (C.state k.bridge.core).core k.normal.clients };
}

/// No message moved.
fn no_seqs() -> Seqs
    ensures { result ≡ no_seqs }
{
    Seqs {
        sent: None,
        opened: None,
        retired: None,
    }
}

fn idle_answer(deadline: Option<u64>) -> Answer
    ensures { result ≡ idle_answer deadline }
{
    match deadline {
        Some(deadline) => Answer::Clock(deadline),
        None => Answer::CancelAll,
    }
}

/// How many threads the applications have together.
fn count_threads(apps: &[App]) -> Result<u32, NoMemory>
    ensures { IfOk result (λ count. count ≡ threads_of apps.now) }
{
    let mut count: u32 = 0;
    for app in apps {
        let Ok(more) = u32::try_from(app.threads.len()) else {
            return Err(NoMemory);
        };
        let Some(sum) = count.checked_add(more) else {
            return Err(NoMemory);
        };
        count = sum;
    }
    Ok(count)
}

/// Whether time may pass, by what the core says and by the clients and the device.
fn may_idle(
    rests: bool,
    lawful: bool,
    begun: bool,
    running: bool,
    moving: bool,
    working: bool,
) -> bool
    ensures { result ≡ may_idle rests lawful begun running moving working }
{
    (rests || lawful) && (!rests || begun) && !running && !moving && !working
}

/// Whether all is at its end, by the same.
fn may_end(rests: bool, begun: bool, working: bool) -> bool
    ensures { result ≡ may_end rests begun working }
{
    rests && !begun && !working
}

/// A core alone has no clients.
fn is_alone<C: Core>(core: &C)
    ensures { (C.state core.now).world.clients ≡ [] }
{
    let _core = core;
}

fn refuses(event: Event, cause: StepCause) -> StepRefused
    ensures { result ≡ record { event = event; cause = cause } }
{
    StepRefused { event, cause }
}

impl<C: Core + Drop> Kernel<C> {
    /// A core in the state in which the scene begins without its clients, with all that the scene has of the normal world.
    #[tactic(auto, using(crate::proofs::Opened::opening_whole, crate::proofs::Opened::queue_low, crate::proofs::Opened::queue_high, crate::proofs::Opened::opening_given, crate::proofs::Opened::opening_is))]
    pub fn new(alloc: Global, core: C, scene: &Scene) -> Result<Kernel<C>, NoMemory>
        requires state { C.state core ≡ opening (without_clients scene.now) }
        requires made { C.made core ≡ 0 }
        ensures state { IfOk result (λ kernel. kernel.state ≡ opening scene.now) }
        ensures made { IfOk result (λ kernel. kernel.made ≡ 0) }
    {
        let queue = scene.queue;
        let threads = count_threads(scene.apps.as_slice())?;
        let normal = NormalWorld::new(alloc, queue, scene.clients.as_slice())?;
        let bridge = Bridge::new(alloc, core, queue);
        Ok(Kernel {
            bridge,
            normal,
            threads,
            made: 0,
        })
    }

    /// The kernel's clock.
    fn clock(&self) -> u64
        ensures { result ≡ self.now.state.core.clock }
    {
        self.bridge.core().end_facts().clock
    }

    /// Whose the event is.
    fn mover_of(&self, event: &Event) -> Mover
        ensures { IsOf result (length self.now.state.core.threads) event.now }
    {
        mover_of(event, self.threads)
    }

    fn is_thread(&self, actor: ActorId) -> bool
        ensures { result ≡ is_thread self.now.state actor.0 }
    {
        actor.0 < self.threads
    }

    /// Whether the event has a step. Takes no memory.
    #[tactic(auto, unfolding(crate::specs::Lawful::is_lawful))]
    fn is_lawful(&self, event: &Event) -> bool
        ensures { result ≡ is_lawful self.now.state event.now }
    {
        match event {
            Event::Begin { actor, start, call } => {
                makes(self.is_thread(*actor), call) && is_running_as(*start, self.status_at(*actor))
            }
            Event::Resume { actor, start } => {
                is_waiting_as(*start, self.status_at(*actor)) && self.movable(*actor)
            }
            Event::Device => self.has_work(),
            Event::Idle => self.may_idle(),
        }
    }

    /// Why no step is made where all steps are used up.
    #[tactic(auto, using(crate::proofs::Lawfulness::lawful_full, crate::proofs::Lawfulness::unlawful_not_movable))]
    fn cause_at_limit(&self, event: &Event) -> StepCause
        requires { self.now.made ≡ step_limit }
        ensures cause { CauseHolds event.now self.now.state self.now.made result }
        ensures memory { result ≢ StepCause.NoMemory }
    {
        if self.is_lawful(event) {
            return StepCause::Full;
        }
        StepCause::NotMovable(self.status_for(event))
    }

    /// The status of the actor that the event is of, where there is such an actor.
    fn status_for(&self, event: &Event) -> Option<ActorStatus>
        ensures { result ≡ status_for self.now.state event.now }
    {
        match event {
            Event::Begin {
                actor,
                start: _,
                call: _,
            } => self.status_at(*actor),
            Event::Resume { actor, start: _ } => self.status_at(*actor),
            Event::Device | Event::Idle => None,
        }
    }

    /// What an actor does, where there is such an actor.
    #[tactic(auto, using(crate::proofs::Readings::thread_status_is, crate::proofs::Readings::client_status_at))]
    fn status_at(&self, actor: ActorId) -> Option<ActorStatus>
        ensures { result ≡ status_at self.now.state actor.0 }
    {
        if actor.0 < self.threads {
            Some(self.bridge.core().status(actor))
        } else {
            self.normal.status(actor.0 - self.threads)
        }
    }

    /// A thread's step is the core's.
    #[tactic(auto, unfolding(kernel_types::specs::Kernel::step_limit), using(crate::proofs::Threads::thread_fits, crate::proofs::Threads::refused_whole, crate::proofs::OnTime::refused_on_time))]
    fn step_thread(&mut self, event: Event) -> Result<Entry, StepRefused>
        requires of { IsOfThread (length self.old.state.core.threads) event }
        requires below { self.old.made < step_limit }
        ensures done { IfOk result (λ entry. Did event self.old.state self.new.state self.old.made self.new.made entry) }
        ensures refused { IfErr result (λ refused. Refused event self.old.state self.new.state self.old.made self.new.made refused) }
        ensures fits { IfOk result (λ entry. FitsIn (room_of self.old.state event) entry.answer) }
    {
        has_short_timeout(&event);
        match self.bridge.step_core(event) {
            Ok(entry) => {
                self.made += 1;
                Ok(entry)
            }
            Err(refused) => Err(refused),
        }
    }

    /// A client's step leaves the core and the device.
    #[tactic(auto, unfolding(kernel_types::specs::Kernel::step_limit), using(crate::proofs::ClientSteps::client_fits))]
    fn step_client(&mut self, client: u32, event: Event) -> Result<Entry, StepRefused>
        requires of { IsOfClient (length self.old.state.core.threads) client event }
        requires below { self.old.made < step_limit }
        ensures done { IfOk result (λ entry. Did event self.old.state self.new.state self.old.made self.new.made entry) }
        ensures refused { IfErr result (λ refused. Refused event self.old.state self.new.state self.old.made self.new.made refused) }
        ensures fits { IfOk result (λ entry. FitsIn (room_of self.old.state event) entry.answer) }
    {
        let status = self.status_for(&event);
        let clock = self.clock();
        has_short_timeout(&event);
        match self.normal.act(clock, client, &event) {
            Ok(Some(answer)) => {
                self.made += 1;
                Ok(Entry {
                    event,
                    answer,
                    seqs: no_seqs(),
                })
            }
            Ok(None) => Err(refuses(event, StepCause::NotMovable(status))),
            Err(_) => Err(refuses(event, StepCause::NoMemory)),
        }
    }

    /// A step of the device. There is none without clients, nor where the device finds no work.
    #[tactic(auto, unfolding(kernel_types::specs::Kernel::step_limit))]
    fn step_device(&mut self) -> Result<Entry, StepRefused>
        requires below { self.old.made < step_limit }
        ensures done { IfOk result (λ entry. Did kind.Device self.old.state self.new.state self.old.made self.new.made entry) }
        ensures refused { IfErr result (λ refused. Refused kind.Device self.old.state self.new.state self.old.made self.new.made refused) }
        ensures fits { IfOk result (λ entry. FitsIn (room_of self.old.state kind.Device) entry.answer) }
    {
        device_steps_anywhere();
        if self.normal.len() == 0 {
            return Err(refuses(Event::Device, StepCause::NotMovable(None)));
        }
        match self.normal.step_device(&mut self.bridge) {
            Ok(Some(told)) => {
                self.made += 1;
                Ok(Entry {
                    event: Event::Device,
                    answer: Answer::Device(told.reply),
                    seqs: told.seqs,
                })
            }
            Ok(None) => Err(refuses(Event::Device, StepCause::NotMovable(None))),
            Err(_) => Err(refuses(Event::Device, StepCause::NoMemory)),
        }
    }

    /// Nothing else can move: the clock goes to the least deadline of all waits, or all waits are cancelled. Takes no memory.
    #[tactic(auto, unfolding(kernel_types::specs::Kernel::step_limit), using(crate::proofs::IdleSteps::idle_fits))]
    fn step_idle(&mut self) -> Result<Entry, StepRefused>
        requires below { self.old.made < step_limit }
        ensures done { IfOk result (λ entry. Did kind.Idle self.old.state self.new.state self.old.made self.new.made entry) }
        ensures refused { IfErr result (λ refused. Refused kind.Idle self.old.state self.new.state self.old.made self.new.made refused) }
        ensures fits { IfOk result (λ entry. FitsIn (room_of self.old.state kind.Idle) entry.answer) }
        ensures memory { IfErr result (λ refused. refused.cause ≢ StepCause.NoMemory) }
    {
        let lawful = self.may_idle();
        if !lawful {
            return Err(refuses(Event::Idle, StepCause::NotMovable(None)));
        }
        let deadline = sooner(
            self.bridge.core().least_deadline(),
            self.normal.least_deadline(),
        );
        self.bridge.idle(deadline);
        self.normal.idle(deadline);
        self.made += 1;
        Ok(Entry {
            event: Event::Idle,
            answer: idle_answer(deadline),
            seqs: no_seqs(),
        })
    }

    #[tactic(auto, using(crate::proofs::IdleSteps::idle_is))]
    fn may_idle(&self) -> bool
        ensures { result ≡ idle_lawful self.now.state }
    {
        let clock = self.clock();
        let core = self.bridge.core();
        is_alone(core);
        may_idle(
            core.whole(),
            core.idle_lawful(),
            self.normal.any_goes_on(),
            self.normal.any_runs(),
            self.normal.any_may_move(clock),
            self.has_work(),
        )
    }

    #[tactic(auto, using(crate::proofs::DeviceSteps::work_is, crate::proofs::DeviceSteps::device_there))]
    fn has_work(&self) -> bool
        ensures { result ≡ device_has_work self.now.state }
    {
        device_works_anywhere();
        self.normal.len() > 0 && self.normal.gives_work(&self.bridge)
    }
}

impl<C: Core + Drop> IpcKernel for Kernel<C> {
    ghost state = { λ k. k.state };

    ghost made = { λ k. k.made };

    ghost spares = { λ k event. IsSpared k.made event };

    #[tactic(auto, unfolding(kernel_types::specs::Kernel::step_limit))]
    fn step(&mut self, event: Event) -> Result<Entry, StepRefused> {
        if self.made == u32::MAX {
            let cause = self.cause_at_limit(&event);
            return Err(refuses(event, cause));
        }
        match self.mover_of(&event) {
            Mover::Thread => self.step_thread(event),
            Mover::Client(client) => self.step_client(client, event),
            Mover::Device => {
                drop(event);
                self.step_device()
            }
            Mover::Idle => {
                drop(event);
                self.step_idle()
            }
        }
    }

    fn status(&self, actor: ActorId) -> ActorStatus {
        match self.status_at(actor) {
            Some(status) => status,
            None => unreachable!(),
        }
    }

    #[tactic(auto, using(crate::proofs::Readings::thread_movable_is, crate::proofs::Readings::client_movable_is))]
    fn movable(&self, actor: ActorId) -> bool {
        if actor.0 < self.threads {
            self.bridge.core().movable(actor)
        } else {
            let clock = self.clock();
            self.normal.may_move(clock, actor.0 - self.threads)
        }
    }

    #[tactic(auto, using(crate::proofs::Readings::thread_is_no_client, crate::proofs::Readings::client_is_client))]
    fn is_client(&self, actor: ActorId) -> bool {
        if actor.0 < self.threads {
            false
        } else {
            ((actor.0 - self.threads) as usize) < self.normal.len()
        }
    }

    fn device_has_work(&self) -> bool {
        self.has_work()
    }

    fn idle_lawful(&self) -> bool {
        self.may_idle()
    }

    #[tactic(auto, using(crate::proofs::IdleSteps::end_is))]
    fn whole(&self) -> bool {
        is_alone(self.bridge.core());
        may_end(
            self.bridge.core().whole(),
            self.normal.any_goes_on(),
            self.has_work(),
        )
    }

    fn end_facts(&self) -> EndFacts {
        self.bridge.core().end_facts()
    }

    fn names(&self, object: ObjId) -> Option<u64> {
        self.bridge.core().names(object)
    }

    fn events(&self, object: ObjId) -> Option<Events> {
        self.bridge.core().events(object)
    }
}
