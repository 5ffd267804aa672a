//! The plain kernel.

ghost use Rattle.std.specs.Prelude.{IfOk, ◌≡◌, IfErr, ◌<◌, ◌+◌, Ok, false};
ghost use Rattle.kernel_types.specs.Bridge.{ns_connect, ns_push, ns_view};
ghost use Rattle.kernel_types.specs.Bridging.{NsCauseHolds};
ghost use Rattle.kernel_types.specs.Step.{step};
ghost use Rattle.plain_kernel.specs.Steps.{stepped_if, clientless, whole};
ghost use Rattle.plain_kernel.specs.CoreSteps.{core_idle_lawful};
ghost use Rattle.plain_kernel.specs.Bridged.{pushed};
ghost use Rattle.kernel_types.specs.Opening.{opening, without_clients};
ghost use Rattle.kernel_types.specs.Kernel.{status_for, CauseHolds, step_limit};
ghost use Rattle.plain_kernel.specs.Orderly.{IsOrderly};
ghost use Rattle.plain_kernel.specs.Ready.{IsReady, IsListed};
ghost use Rattle.plain_kernel.specs.Value.{state_of, no_client};

use crate::bridge;
use crate::facts::{any_goes_on, any_runs, facts_of, none_goes_on, statuses_of};
use crate::opening::opening_core;
use crate::step::{idle_by, least_deadline, run_event};
use kernel_types::{Core, EndView, IpcKernel, NsRefused, StepCause, StepRefused};
use kernel_values::{
    ActorId, ActorStatus, Bytes, Copied, CoreState, EndFacts, EndSeq, Entry, Event, Events, Items,
    NoMemory, ObjId, Scene,
};
use plain_calls::told::CallOutcome;
use plain_objects::names::count_names;
use plain_objects::objects::is_object_there;
use plain_objects::survey::Survey;
use plain_objects::sweep::sweep_within;
use plain_waits::events::events_of;
use plain_waits::waits::{any_may_move, is_movable};
use std::alloc::Global;
use std::marker::Model;

/// A state of the model with what is told of it, and the number of steps made. Its objects are within
/// their limits, what is named was given, no set contains itself, and chains of sets have at most 8.
#[derive(Debug, Drop)]
pub struct PlainKernel {
    core: CoreState,
    queue: u32,
    /// What names objects, with room for a sweep that takes no memory.
    survey: Survey,
    actors: Items<ActorStatus>,
    made: u32,
}

impl Model for PlainKernel {
    ghost use Rattle.std.specs.Prelude.{◌≡◌, ◌≤◌, length};
    ghost use Rattle.plain_kernel.specs.Orderly.{IsOrderly};
    ghost use Rattle.plain_kernel.specs.Value.{PlainValue};
    ghost use Rattle.plain_kernel.specs.Steps.{whole};
    ghost use Rattle.kernel_types.specs.Names.{naming};
    ghost use Rattle.plain_kernel.specs.CoreSteps.{core_statuses};

    ghost Value = { PlainValue };

    ghost view = { λ k. record { core = k.core; queue = k.queue; made = k.made } };

    ghost invariant = { λ k. (k.survey.names ≡ naming k.core) × (length (naming k.core) ≤ k.survey.room) × (k.actors ≡ core_statuses k.core) × IsOrderly (whole k.core k.queue) };
}

/// A state after a step, with what is told of it.
#[derive(Debug, Drop)]
struct Next {
    core: CoreState,
    survey: Survey,
    statuses: Items<ActorStatus>,
}

fn ready(core: CoreState) -> Result<Next, NoMemory>
    ensures core_is { IfOk result (λ next. next.core ≡ core) }
    ensures listed { IfOk result (λ next. IsListed next) }
{
    let Ok(survey) = Survey::of(&core) else {
        drop(core);
        return Err(NoMemory);
    };
    let Ok(statuses) = statuses_of(&core) else {
        drop(core);
        drop(survey);
        return Err(NoMemory);
    };
    Ok(Next {
        core,
        survey,
        statuses,
    })
}

impl PlainKernel {
    /// A kernel in the state in which the scene begins without its clients.
    #[tactic(auto, unfolding(kernel_types::specs::Opening::opening, crate::specs::Steps::clientless))]
    pub fn new(alloc: Global, scene: &Scene) -> Result<PlainKernel, NoMemory>
        ensures state_is { IfOk result (λ kernel. state_of kernel ≡ opening (without_clients scene.now)) }
        ensures made_is { IfOk result (λ kernel. kernel.made ≡ 0) }
    {
        let next = ready(opening_core(alloc, scene.apps.as_slice())?)?;
        Ok(PlainKernel {
            core: next.core,
            queue: scene.queue,
            survey: next.survey,
            actors: next.statuses,
            made: 0,
        })
    }

    /// One more step is made, to this state, which is orderly because the one before was.
    #[tactic(auto, unfolding(kernel_types::specs::Kernel::step_limit))]
    fn move_to(&mut self, next: Next)
        requires listed { IsListed next }
        requires orderly { IsOrderly (state_of self.old) → IsOrderly (whole next.core self.old.queue) }
        requires below { self.old.made < step_limit }
        ensures before { IsOrderly (state_of self.old) }
        ensures core { self.new.core ≡ next.core }
        ensures queue { self.new.queue ≡ self.old.queue }
        ensures made { self.new.made ≡ self.old.made + 1 }
    {
        self.core = next.core;
        self.survey = next.survey;
        self.actors = next.statuses;
        self.made += 1;
    }

    #[tactic(auto, unfolding(crate::specs::CoreSteps::core_idle_lawful))]
    fn is_idle(&self) -> bool
        ensures { result ≡ core_idle_lawful self.now.core }
    {
        any_goes_on(self.actors.as_slice())
            && !any_runs(self.actors.as_slice())
            && !any_may_move(&self.core)
    }

    #[tactic(auto, using(crate::proofs::Clientless::alone_statuses))]
    fn status_for(&self, event: &Event) -> Option<ActorStatus>
        ensures { result ≡ status_for (state_of self.now) event.now }
    {
        match event {
            Event::Begin {
                actor,
                start: _,
                call: _,
            } => self.actors.get(actor.0 as usize).copied(),
            Event::Resume { actor, start: _ } => self.actors.get(actor.0 as usize).copied(),
            Event::Device | Event::Idle => None,
        }
    }

    #[tactic(auto, using(crate::proofs::Clientless::alone_step))]
    /// What the event tells in a copy of the state, with the copy.
    fn try_event(&self, event: &Event) -> Result<(CoreState, Option<CallOutcome>), NoMemory>
        ensures { IfOk result (λ (core, told). stepped_if told core (clientless self.now.queue) ≡ step (state_of self.now) event.now) }
    {
        let is_idle = self.is_idle();
        let mut core = self.core.copied()?;
        match run_event(&mut core, event, is_idle) {
            Ok(told) => Ok((core, told)),
            Err(refused) => {
                drop(core);
                Err(refused)
            }
        }
    }

    #[tactic(auto, unfolding(kernel_types::specs::Kernel::step_limit))]
    fn try_step(&self, event: &Event) -> Result<(Next, CallOutcome), StepCause>
        ensures done { IfOk result (λ (next, told). IsReady event.now (state_of self.now) self.now.made next told) }
        ensures refused { IfErr result (λ cause. CauseHolds event.now (state_of self.now) self.now.made cause) }
    {
        let Ok((core, told)) = self.try_event(event) else {
            return Err(StepCause::NoMemory);
        };
        let Some(told) = told else {
            drop(core);
            return Err(StepCause::NotMovable(self.status_for(event)));
        };
        if self.made == u32::MAX {
            drop(core);
            drop(told);
            return Err(StepCause::Full);
        }
        match ready(core) {
            Ok(next) => Ok((next, told)),
            Err(_) => {
                drop(told);
                Err(StepCause::NoMemory)
            }
        }
    }

    /// The state after a connect of the normal world.
    fn try_connect(&self, path: &Bytes) -> Result<Next, NsRefused>
        ensures done { IfOk result (λ next. IsListed next × (ns_connect self.now.core path.now ≡ Ok next.core)) }
        ensures refused { IfErr result (λ refused. NsCauseHolds path.now (state_of self.now) refused) }
    {
        let Ok(mut core) = self.core.copied() else {
            return Err(NsRefused::NoMemory);
        };
        match bridge::connect(&mut core, path) {
            Ok(None) => {}
            Ok(Some(errno)) => {
                drop(core);
                return Err(NsRefused::Errno(errno));
            }
            Err(_) => {
                drop(core);
                return Err(NsRefused::NoMemory);
            }
        }
        match ready(core) {
            Ok(next) => Ok(next),
            Err(_) => Err(NsRefused::NoMemory),
        }
    }

    /// The state after a message of the normal world was sent.
    fn try_push(&self, end: u64, bytes: &Bytes) -> Result<(Next, EndSeq), NoMemory>
        requires { (ns_view self.now.core end).peer_full ≡ false }
        ensures { IfOk result (λ (next, sent). IsListed next × (ns_push self.now.core end bytes.now ≡ pushed sent next.core)) }
    {
        let mut core = self.core.copied()?;
        match bridge::push(&mut core, end, bytes) {
            Ok(sent) => {
                let next = ready(core)?;
                Ok((next, sent))
            }
            Err(refused) => {
                drop(core);
                Err(refused)
            }
        }
    }
}

impl IpcKernel for PlainKernel {
    ghost state = { λ k. state_of k };

    ghost made = { λ k. k.made };

    ghost spares = { λ k event. ⊥ };

    #[tactic(auto, unfolding(kernel_types::specs::Kernel::step_limit))]
    fn step(&mut self, event: Event) -> Result<Entry, StepRefused> {
        match self.try_step(&event) {
            Ok((next, told)) => {
                self.move_to(next);
                Ok(Entry {
                    event,
                    answer: told.answer,
                    seqs: told.seqs,
                })
            }
            Err(cause) => Err(StepRefused { event, cause }),
        }
    }

    #[tactic(auto, using(crate::proofs::Clientless::alone_statuses))]
    fn status(&self, actor: ActorId) -> ActorStatus {
        match self.actors.get(actor.0 as usize) {
            Some(status) => *status,
            None => unreachable!(),
        }
    }

    #[tactic(auto, using(crate::proofs::Clientless::alone_movable))]
    fn movable(&self, actor: ActorId) -> bool {
        is_movable(&self.core, actor.0)
    }

    #[tactic(auto, using(crate::proofs::Clientless::alone_client))]
    fn is_client(&self, _actor: ActorId) -> bool {
        false
    }

    #[tactic(auto, using(crate::proofs::Clientless::alone_device))]
    fn device_has_work(&self) -> bool {
        false
    }

    #[tactic(auto, using(crate::proofs::Clientless::alone_idle))]
    fn idle_lawful(&self) -> bool {
        self.is_idle()
    }

    #[tactic(auto, using(crate::proofs::Clientless::alone_end))]
    fn whole(&self) -> bool {
        none_goes_on(self.actors.as_slice())
    }

    fn end_facts(&self) -> EndFacts {
        facts_of(&self.core, self.survey.names())
    }

    fn names(&self, object: ObjId) -> Option<u64> {
        if is_object_there(self.core.objects.as_slice(), object.0) {
            Some(count_names(self.survey.names(), object.0) as u64)
        } else {
            None
        }
    }

    fn events(&self, object: ObjId) -> Option<Events> {
        let objects = self.core.objects.as_slice();
        if is_object_there(objects, object.0) {
            Some(Events(events_of(objects, object.0)))
        } else {
            None
        }
    }
}

impl Core for PlainKernel {
    fn least_deadline(&self) -> Option<u64> {
        least_deadline(&self.core)
    }

    #[tactic(auto, unfolding(kernel_types::specs::Kernel::step_limit))]
    fn idle(&mut self, clock: Option<u64>) {
        idle_by(&mut self.core, clock);
        sweep_within(&mut self.core, &mut self.survey);
        self.made += 1;
    }

    fn ns_connect(&mut self, path: &Bytes) -> Result<ObjId, NsRefused> {
        let end = self.core.next;
        let next = self.try_connect(path)?;
        self.move_to(next);
        Ok(ObjId(end))
    }

    fn ns_view(&self, end: ObjId) -> EndView {
        bridge::view(&self.core, end.0)
    }

    fn ns_push(&mut self, end: ObjId, bytes: &Bytes) -> Result<EndSeq, NoMemory> {
        let (next, sent) = self.try_push(end.0, bytes)?;
        self.move_to(next);
        Ok(sent)
    }

    fn ns_peek(&self, end: ObjId) -> Result<Bytes, NoMemory> {
        bridge::peek(&self.core, end.0)
    }

    fn ns_take(&mut self, end: ObjId) -> EndSeq {
        bridge::take(&mut self.core, &mut self.survey, end.0)
    }

    fn ns_drop(&mut self, end: ObjId, broken: bool) {
        bridge::drop_end(&mut self.core, &mut self.survey, end.0, broken);
    }

    ghost has_no_clients = { no_client };
}
