//! Where an actor stands at its script.

ghost use Rattle.std.specs.Prelude.{◌≡◌, false, IfOk, OnOk, OnErr};
ghost use Rattle.script_actor.specs.Actors.{acting};
ghost use Rattle.runners.specs.Places.{after_answer, anew};

use kernel_types::values::{Answer, NoMemory, Script};
use script_actor::Actor;
use std::alloc::Global;

/// An actor at its script, by the last of its starts that it made a call by, and whether its last call
/// has no answer yet.
#[derive(Drop)]
pub struct Place {
    pub actor: Actor,
    pub waits: bool,
}

impl Place {
    /// At the beginning of the script, by this start.
    pub fn new(alloc: Global, script: &Script, start: u32) -> Result<Place, NoMemory>
        ensures { IfOk result (λ place. place ≡ record { actor = acting script.now start; waits = false }) }
    {
        Ok(Place {
            actor: Actor::new(alloc, script, start)?,
            waits: false,
        })
    }

    /// An actor that was started again begins its script anew.
    pub fn start_anew(&mut self, alloc: Global, script: &Script, start: u32) -> Result<(), NoMemory>
        ensures anew { OnOk result (self.new ≡ anew script.now start self.old) }
        ensures err { OnErr result (self.new ≡ self.old) }
    {
        if self.actor.start() < start {
            *self = Place::new(alloc, script, start)?;
        }
        Ok(())
    }

    /// After the step of its call, or of the end of its wait.
    pub fn take(&mut self, answer: &Answer)
        ensures { self.new ≡ after_answer self.old answer.now }
    {
        match answer {
            Answer::Gives(_) | Answer::Refuses(_) => {
                self.actor.take(answer);
                self.waits = false;
            }
            _ => self.waits = true,
        }
    }
}
