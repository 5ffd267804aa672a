//! A kernel of a scene without actors.

use kernel_types::values::{ActorId, ActorStatus, EndFacts, Entry, Event, Events, ObjId};
use kernel_types::{IpcKernel, StepCause, StepRefused};

/// A kernel without actors: no event is lawful.
#[derive(Drop)]
pub struct Quiet;

#[tactic(auto, unfolding(kernel_types::specs::Step::statuses, kernel_types::specs::Step::idle_lawful, kernel_types::specs::Step::device_has_work, kernel_types::specs::Device::device_step, kernel_types::specs::Facts::is_at_end, kernel_types::specs::Names::naming), using(crate::proofs::Quiets::nothing_moves, crate::proofs::Quiets::nobody, crate::proofs::Quiets::nobody_moves))]
impl IpcKernel for Quiet {
    ghost use Rattle.kernel_tests.specs.Quiet.{quiet};

    ghost state = { λ _. quiet };

    ghost made = { λ _. 0 };

    ghost spares = { λ _ _. ⊥ };

    fn step(&mut self, event: Event) -> Result<Entry, StepRefused> {
        Err(StepRefused {
            event,
            cause: StepCause::NotMovable(None),
        })
    }

    fn status(&self, _actor: ActorId) -> ActorStatus {
        unreachable!()
    }

    fn movable(&self, _actor: ActorId) -> bool {
        false
    }

    fn is_client(&self, _actor: ActorId) -> bool {
        false
    }

    fn device_has_work(&self) -> bool {
        false
    }

    fn idle_lawful(&self) -> bool {
        false
    }

    fn whole(&self) -> bool {
        true
    }

    fn end_facts(&self) -> EndFacts {
        EndFacts {
            clock: 0,
            objects: 0,
            names: 0,
        }
    }

    fn names(&self, _object: ObjId) -> Option<u64> {
        None
    }

    fn events(&self, _object: ObjId) -> Option<Events> {
        None
    }
}
