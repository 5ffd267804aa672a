//! The trait of kernels: one state of the model, and the steps from it.

ghost use Rattle.std.specs.Prelude.{◌≡◌, ◌≢◌, ◌<◌, ℕ, Some, length, IfOk, IfErr, IsTrue};
ghost use Rattle.kernel_values.specs.declared.state.State.{State};
ghost use Rattle.kernel_values.specs.declared.entry.Event.{Event};
ghost use Rattle.kernel_types.specs.Kernel.{Did, Refused};
ghost use Rattle.kernel_types.specs.Limits.{FitsIn, room_of};
ghost use Rattle.kernel_types.specs.Step.{statuses, idle_lawful, device_has_work, movable};
ghost use Rattle.kernel_types.specs.Facts.{status_at, is_client, names_at, events_at, end_facts, is_at_end};

use kernel_values::{ActorId, ActorStatus, EndFacts, Entry, Event, Events, ObjId};

/// Why a step was refused.
#[derive(Clone, Copy, PartialEq, Eq, Debug)]
pub enum StepCause {
    /// The event is not lawful; with the status of the actor that it is of, where there is such an actor.
    NotMovable(Option<ActorStatus>),
    /// The event is lawful, and 4,294,967,295 steps were made.
    Full,
    NoMemory,
}

/// A step that was refused, with its event.
#[derive(Debug, Drop)]
pub struct StepRefused {
    pub event: Event,
    pub cause: StepCause,
}

/// A kernel stands for one state of the model, and counts the steps that it made. None of the calls
/// but `step` takes memory.
pub trait IpcKernel {
    /// The state that the kernel stands for.
    ghost state: { Self → State };

    /// The number of steps made.
    ghost made: { Self → ℕ };

    /// The events that are never refused because memory ran out.
    ghost spares: { Self → Event → Type 0 };

    /// Makes the step of a lawful event. Refused, the event comes back and all stands as before. The
    /// answer lists at most 65,536 bytes and 8 handles, and nothing where the call is no reading one.
    fn step(&mut self, event: Event) -> Result<Entry, StepRefused>
        ensures done { IfOk result (λ entry. Did event (state self.old) (state self.new) (made self.old) (made self.new) entry) }
        ensures refused { IfErr result (λ refused. Refused event (state self.old) (state self.new) (made self.old) (made self.new) refused) }
        ensures fits { IfOk result (λ entry. FitsIn (room_of (state self.old) event) entry.answer) }
        ensures spared { IfErr result (λ refused. spares self.old event → refused.cause ≢ StepCause.NoMemory) };

    /// What an actor of the scene does.
    fn status(&self, actor: ActorId) -> ActorStatus
        requires { actor.0 < length (statuses (state self.now)) }
        ensures { status_at (state self.now) actor.0 ≡ Some result };

    /// Whether the actor waits and may move.
    fn movable(&self, actor: ActorId) -> bool
        ensures { result ≡ movable (state self.now) actor.0 };

    /// Whether the actor is a client of the scene.
    fn is_client(&self, actor: ActorId) -> bool
        ensures { result ≡ is_client (state self.now) actor.0 };

    fn device_has_work(&self) -> bool
        ensures { result ≡ device_has_work (state self.now) };

    fn idle_lawful(&self) -> bool
        ensures { result ≡ idle_lawful (state self.now) };

    /// Whether every actor is Ended or was never started, and the device has no work.
    fn whole(&self) -> bool
        ensures { result ≡ is_at_end (state self.now) };

    /// The clock, the number of objects, and the sum of their names.
    fn end_facts(&self) -> EndFacts
        ensures { result ≡ end_facts (state self.now) };

    /// How many entries name the object, where it is there.
    fn names(&self, object: ObjId) -> Option<u64>
        ensures { result ≡ names_at (state self.now) object.0 };

    /// The object's events, where it is there.
    fn events(&self, object: ObjId) -> Option<Events>
        ensures { result ≡ events_at (state self.now) object.0 };
}
