//! A kernel with its journal and each actor's place at its script: all that a run shares.

ghost use Rattle.std.specs.Prelude.{◌≡◌, ◌≤◌, ◌<◌, [], Some, length, slice_get, IfOk, OnOk, OnErr};
ghost use Rattle.kernel_values.specs.SceneLaw.{scripts_of};
ghost use Rattle.kernel_types.specs.Opening.{opening};
ghost use Rattle.kernel_types.specs.History.{Legal};
ghost use Rattle.kernel_types.specs.Facts.{status_at, is_at_end};
ghost use Rattle.kernel_types.specs.Step.{statuses, movable, device_has_work, idle_lawful};
ghost use Rattle.kernel_types.specs.Whole.{FollowsScripts};
ghost use Rattle.kernel_types.specs.Turns.{history_limit, takes_turn};
ghost use Rattle.kernel_log.specs.Logs.{Log};
ghost use Rattle.run_laws.specs.Progress.{MayTake};
ghost use Rattle.runners.specs.Places.{answers_to, most_actors};
ghost use Rattle.runners.specs.Runs.{CanTake, ScriptedRun, TookTurn, state_told, start_running};

use crate::answered::none_answered;
use crate::bell::Bell;
use crate::place::Place;
use crate::scripts::{is_lawful, places_of, scripts_of};
use crate::steps::{Taken, step_of, step_once};
use kernel_log::Logged;
use kernel_types::IpcKernel;
use kernel_types::values::{
    ActorId, ActorStatus, Event, NoMemory, Recorded, Scene, ScriptList, Turn,
};
use std::alloc::Global;
use std::marker::Model;

/// A Logged kernel, each actor's script, where each actor stands at it, and how many of its calls were
/// answered. Its history is that of turns of the scene; so it is legal, and each actor's calls in it are its
/// script's, each once, in their order.
#[derive(Drop)]
pub struct Shared<K: IpcKernel + Drop> {
    logged: Logged<K>,
    scripts: ScriptList,
    places: Vec<Place>,
    counts: Vec<u64>,
    bell: Bell,
    alloc: Global,
}

impl<K: IpcKernel + Drop> Model for Shared<K> {
    ghost use Rattle.runners.specs.Runs.{ScriptedRun, told_of};
    ghost use Rattle.runners.specs.Places.{Kept};

    ghost Value = { ScriptedRun };

    ghost view = { λ s. told_of s.scripts s.logged };

    ghost invariant = { λ s. Kept s.scripts s.places.items s.counts.items s.logged };
}

impl<K: IpcKernel + Drop> Shared<K> {
    /// A new kernel that stands for the opening state of the scene, with the scene's scripts.
    pub fn new(alloc: Global, kernel: K, scene: &Scene) -> Result<Shared<K>, NoMemory>
        requires state { K.state kernel ≡ opening scene.now }
        requires made { K.made kernel ≡ 0 }
        ensures origin { IfOk result (λ shared. shared.origin ≡ record { state = opening scene.now; scripts = scripts_of scene.now; made = 0 }) }
        ensures history { IfOk result (λ shared. shared.history ≡ []) }
    {
        is_lawful(scene);
        let Ok(scripts) = scripts_of(alloc, scene) else {
            drop(kernel);
            return Err(NoMemory);
        };
        let Ok(places) = places_of(alloc, scripts.as_slice()) else {
            drop(kernel);
            drop(scripts);
            return Err(NoMemory);
        };
        let Ok(counts) = none_answered(alloc, scripts.len()) else {
            drop(kernel);
            drop(scripts);
            drop(places);
            return Err(NoMemory);
        };
        let Ok(bell) = Bell::new(alloc) else {
            drop(kernel);
            drop(scripts);
            drop(places);
            drop(counts);
            return Err(NoMemory);
        };
        Ok(Shared {
            logged: Logged::new(alloc, kernel),
            scripts,
            places,
            counts,
            bell,
            alloc,
        })
    }

    /// Hands the Logged kernel over.
    pub fn into_logged(self) -> Logged<K>
        ensures state { result.origin.state ≡ self.origin.state }
        ensures entries { result.journal.entries ≡ self.history }
    {
        let Shared {
            logged,
            scripts: _,
            places: _,
            counts: _,
            bell: _,
            alloc: _,
        } = self;
        logged
    }

    /// What the type keeps: the history is legal, no longer than a run may be, and follows the scripts, of
    /// which each actor has one.
    pub fn legal(&self)
        ensures legal { Legal self.now.origin.state self.now.history }
        ensures follows { FollowsScripts self.now.origin.scripts self.now.history }
        ensures short { length self.now.history ≤ history_limit }
        ensures actors { length (statuses (state_told self.now)) ≡ length self.now.origin.scripts }
    {
        self.logged.legal();
    }

    /// What the laws of runs say of it: each turn that its state allows can be taken.
    pub fn goes_on(&self)
        ensures { (due : Turn) → MayTake (state_told self.now) due → CanTake self.now due }
    {
        let _ = &self.logged;
    }

    /// Whether the run is whole: every actor is Ended or was never started, and the device has no work.
    pub fn is_over(&self) -> bool
        ensures { result ≡ is_at_end (state_told self.now) }
    {
        self.logged.kernel().whole()
    }

    /// The number of actors.
    pub fn actors(&self) -> u32
        ensures few { result ≤ most_actors }
        ensures scripts { result ≡ length self.now.origin.scripts }
        ensures statuses { result ≡ length (statuses (state_told self.now)) }
    {
        self.places.len() as u32
    }

    /// Whether the actor runs, or waits and may move.
    pub fn takes_turn(&self, actor: u32) -> bool
        requires { actor < length (statuses (state_told self.now)) }
        ensures { result ≡ takes_turn (state_told self.now) actor }
    {
        let kernel = self.logged.kernel();
        match kernel.status(ActorId(actor)) {
            ActorStatus::Running { .. } => true,
            ActorStatus::Waiting { .. } => kernel.movable(ActorId(actor)),
            ActorStatus::Off | ActorStatus::Ended { .. } => false,
        }
    }

    /// The start by which the actor runs, where it runs.
    pub fn start_running(&self, actor: u32) -> Option<u32>
        requires { actor < length (statuses (state_told self.now)) }
        ensures { result ≡ start_running (status_at (state_told self.now) actor) }
    {
        match self.logged.kernel().status(ActorId(actor)) {
            ActorStatus::Running { start } => Some(start),
            ActorStatus::Waiting { .. } | ActorStatus::Off | ActorStatus::Ended { .. } => None,
        }
    }

    /// How many calls of the actor were answered, by all of its starts.
    pub fn answered(&self, actor: u32) -> u64
        requires { actor < length self.now.origin.scripts }
        ensures { result ≡ answers_to actor self.now.history }
    {
        self.counts[actor as usize]
    }

    /// The bell of those who share this.
    pub fn bell(&self) -> &Bell {
        &self.bell
    }

    pub fn device_has_work(&self) -> bool
        ensures { result ≡ device_has_work (state_told self.now) }
    {
        self.logged.kernel().device_has_work()
    }

    pub fn idle_lawful(&self) -> bool
        ensures { result ≡ idle_lawful (state_told self.now) }
    {
        self.logged.kernel().idle_lawful()
    }

    /// Takes one turn: the actor's next event, a step of the device, or Idle. Refused for want of memory,
    /// all stands as before.
    pub fn turn(&mut self, turn: Turn) -> Result<Taken, NoMemory>
        requires { length self.old.history < history_limit }
        ensures origin { self.new.origin ≡ self.old.origin }
        ensures taken { IfOk result (λ taken. TookTurn turn self.old self.new taken) }
        ensures err { OnErr result (self.new.history ≡ self.old.history) }
    {
        match turn {
            Turn::Actor(actor) => self.actor_turn(actor),
            Turn::Device => self.device_turn(),
            Turn::Idle => self.idle_turn(),
        }
    }

    fn actor_turn(&mut self, actor: u32) -> Result<Taken, NoMemory>
        requires { length self.old.history < history_limit }
        ensures origin { self.new.origin ≡ self.old.origin }
        ensures taken { IfOk result (λ taken. TookTurn (Turn.Actor actor) self.old self.new taken) }
        ensures err { OnErr result (self.new.history ≡ self.old.history) }
    {
        if actor as usize >= self.places.len() {
            return Ok(Taken::Unlawful);
        }
        match self.logged.kernel().status(ActorId(actor)) {
            ActorStatus::Running { start } => self.begin(actor, start),
            ActorStatus::Waiting { start } => self.resume(actor, start),
            ActorStatus::Off => Ok(Taken::Unlawful),
            ActorStatus::Ended { .. } => Ok(Taken::Unlawful),
        }
    }

    fn begin(&mut self, actor: u32, start: u32) -> Result<Taken, NoMemory>
        requires room { length self.old.history < history_limit }
        requires runs { status_at (state_told self.old) actor ≡ Some (ActorStatus.Running start) }
        ensures origin { self.new.origin ≡ self.old.origin }
        ensures taken { IfOk result (λ taken. TookTurn (Turn.Actor actor) self.old self.new taken) }
        ensures err { OnErr result (self.new.history ≡ self.old.history) }
    {
        self.logged.legal();
        let Some(script) = self.scripts.get(actor as usize) else {
            unreachable!();
        };
        let place = &mut self.places[actor as usize];
        place.start_anew(self.alloc, script, start)?;
        let Some(call) = place.actor.next()? else {
            return Ok(Taken::Unlawful);
        };
        let event = Event::Begin {
            actor: ActorId(actor),
            start,
            call,
        };
        step_of(&mut self.logged, place, &mut self.counts, actor, event)
    }

    fn resume(&mut self, actor: u32, start: u32) -> Result<Taken, NoMemory>
        requires room { length self.old.history < history_limit }
        requires waits { status_at (state_told self.old) actor ≡ Some (ActorStatus.Waiting start) }
        ensures origin { self.new.origin ≡ self.old.origin }
        ensures taken { IfOk result (λ taken. TookTurn (Turn.Actor actor) self.old self.new taken) }
        ensures err { OnErr result (self.new.history ≡ self.old.history) }
    {
        self.logged.legal();
        let place = &mut self.places[actor as usize];
        let event = Event::Resume {
            actor: ActorId(actor),
            start,
        };
        step_of(&mut self.logged, place, &mut self.counts, actor, event)
    }

    fn device_turn(&mut self) -> Result<Taken, NoMemory>
        requires { length self.old.history < history_limit }
        ensures origin { self.new.origin ≡ self.old.origin }
        ensures taken { IfOk result (λ taken. TookTurn Turn.Device self.old self.new taken) }
        ensures err { OnErr result (self.new.history ≡ self.old.history) }
    {
        let Some(_receipt) = step_once(&mut self.logged, Event::Device)? else {
            return Ok(Taken::Unlawful);
        };
        Ok(Taken::Stepped)
    }

    fn idle_turn(&mut self) -> Result<Taken, NoMemory>
        requires { length self.old.history < history_limit }
        ensures origin { self.new.origin ≡ self.old.origin }
        ensures taken { IfOk result (λ taken. TookTurn Turn.Idle self.old self.new taken) }
        ensures err { OnErr result (self.new.history ≡ self.old.history) }
    {
        let Some(_receipt) = step_once(&mut self.logged, Event::Idle)? else {
            return Ok(Taken::Unlawful);
        };
        Ok(Taken::Stepped)
    }
}

impl<K: IpcKernel + Drop> Recorded for Shared<K> {
    ghost history = { λ s. s.history };

    ghost origin = { λ s. s.origin };

    fn recorded(&self) -> u64 {
        self.logged.journal().len()
    }
}
