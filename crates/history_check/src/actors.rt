//! The actors of a scene, each where it stands at its script.

ghost use Rattle.std.specs.Prelude.{◌≡◌, ◌<◌, IfOk, OnOk, Some, length};
ghost use Rattle.kernel_types.specs.Facts.{status_at};
ghost use Rattle.kernel_types.specs.Kernel.{step_limit};
ghost use Rattle.kernel_values.specs.declared.entry.ActorStatus.TheVariants as status;
ghost use Rattle.kernel_values.specs.declared.scene.Turn.TheVariants as turn;
ghost use Rattle.history_check.specs.Matching.{AreAtTheBeginning, Came, IsCaughtUp, Matches, IsWithin, Renewed};

use crate::steps::{step_of, step_once};
use kernel_types::IpcKernel;
use kernel_types::values::{ActorId, ActorStatus, Entry, Event, NoMemory, Scene, ScriptList, Turn};
use report_text::names::{NameList, actor_names};
use runners::place::Place;
use runners::scripts::{places_of, scripts_of};
use std::alloc::Global;

/// The names and the scripts of a scene's actors, and where each stands at its script.
#[derive(Drop)]
pub struct Actors {
    pub names: NameList,
    pub scripts: ScriptList,
    pub places: Vec<Place>,
}

impl Actors {
    /// Each actor at the beginning of its script.
    pub fn new(alloc: Global, scene: &Scene) -> Result<Actors, NoMemory>
        ensures { IfOk result (λ actors. AreAtTheBeginning scene.now actors) }
    {
        let names = actor_names(alloc, scene)?;
        let scripts = scripts_of(alloc, scene)?;
        let places = places_of(alloc, scripts.as_slice())?;
        Ok(Actors {
            names,
            scripts,
            places,
        })
    }

    /// Makes the step that the turn means: the actor's next call or the end of its wait, the device's step, or
    /// Idle. None where there is none, or none that is lawful.
    pub fn take<K: IpcKernel>(
        &mut self,
        alloc: Global,
        kernel: &mut K,
        turn: Turn,
    ) -> Result<Option<Entry>, NoMemory>
        requires fit { Matches self.old (K.state kernel.old) }
        requires within { IsWithin self.old turn }
        requires room { K.made kernel.old < step_limit }
        ensures { IfOk result (λ entry. Came turn self.old self.new (K.state kernel.old) (K.state kernel.new) (K.made kernel.old) (K.made kernel.new) entry) }
    {
        match turn {
            Turn::Actor(actor) => self.take_actor(alloc, kernel, actor),
            Turn::Device => step_once(kernel, Event::Device),
            Turn::Idle => step_once(kernel, Event::Idle),
        }
    }

    fn take_actor<K: IpcKernel>(
        &mut self,
        alloc: Global,
        kernel: &mut K,
        actor: u32,
    ) -> Result<Option<Entry>, NoMemory>
        requires fit { Matches self.old (K.state kernel.old) }
        requires within { actor < length self.old.names }
        requires room { K.made kernel.old < step_limit }
        ensures { IfOk result (λ entry. Came (turn.Actor actor) self.old self.new (K.state kernel.old) (K.state kernel.new) (K.made kernel.old) (K.made kernel.new) entry) }
    {
        match kernel.status(ActorId(actor)) {
            ActorStatus::Running { start } => {
                self.start_anew(alloc, actor, start)?;
                self.begin(kernel, actor, start)
            }
            ActorStatus::Waiting { start } => self.resume(kernel, actor, start),
            ActorStatus::Off => Ok(None),
            ActorStatus::Ended { .. } => Ok(None),
        }
    }

    // An actor that was started again begins its script anew.
    fn start_anew(&mut self, alloc: Global, actor: u32, start: u32) -> Result<(), NoMemory>
        requires many { length self.old.places.items ≡ length self.old.scripts }
        requires within { actor < length self.old.scripts }
        ensures { OnOk result (Renewed actor start self.old self.new) }
    {
        let Some(script) = self.scripts.get(actor as usize) else {
            unreachable!();
        };
        if self.places[actor as usize].actor.start() < start {
            self.places[actor as usize] = Place::new(alloc, script, start)?;
        }
        Ok(())
    }

    fn begin<K: IpcKernel>(
        &mut self,
        kernel: &mut K,
        actor: u32,
        start: u32,
    ) -> Result<Option<Entry>, NoMemory>
        requires fit { Matches self.old (K.state kernel.old) }
        requires within { actor < length self.old.names }
        requires room { K.made kernel.old < step_limit }
        requires runs { status_at (K.state kernel.old) actor ≡ Some (status.Running start) }
        requires caught_up { IsCaughtUp self.old actor start }
        ensures { IfOk result (λ entry. Came (turn.Actor actor) self.old self.new (K.state kernel.old) (K.state kernel.new) (K.made kernel.old) (K.made kernel.new) entry) }
    {
        let place = &mut self.places[actor as usize];
        let Some(call) = place.actor.next()? else {
            return Ok(None);
        };
        let event = Event::Begin {
            actor: ActorId(actor),
            start,
            call,
        };
        step_of(kernel, place, event)
    }

    fn resume<K: IpcKernel>(
        &mut self,
        kernel: &mut K,
        actor: u32,
        start: u32,
    ) -> Result<Option<Entry>, NoMemory>
        requires fit { Matches self.old (K.state kernel.old) }
        requires within { actor < length self.old.names }
        requires room { K.made kernel.old < step_limit }
        requires waits { status_at (K.state kernel.old) actor ≡ Some (status.Waiting start) }
        ensures { IfOk result (λ entry. Came (turn.Actor actor) self.old self.new (K.state kernel.old) (K.state kernel.new) (K.made kernel.old) (K.made kernel.new) entry) }
    {
        let place = &mut self.places[actor as usize];
        let event = Event::Resume {
            actor: ActorId(actor),
            start,
        };
        step_of(kernel, place, event)
    }
}
