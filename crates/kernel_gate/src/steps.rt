//! Steps of the kernel by a seat.
ghost use Rattle.std.specs.Prelude.{◌≡◌, true, IfOk, IfErr};

use crate::gate::{Gate, Seat};
use kernel_log::{Logged, Receipt};
use kernel_types::values::{ActorStatus, Event, Recorded};
use kernel_types::{IpcKernel, StepCause, StepRefused};
use std::sync::Wait;

/// Why no step was made.
#[derive(Clone, Copy, PartialEq, Eq, Debug)]
pub enum GateCause {
    /// The one try found the turn held, by this word: 1 plus the number of the seat that had it.
    Busy(u64),
    /// The event is not lawful; with the status of the actor that it is of, where there is such an actor.
    NotMovable(Option<ActorStatus>),
    /// The event is lawful, and 4,294,967,295 steps were made.
    Full,
    NoMemory,
}

/// No step was made; the event comes back.
#[derive(Debug, Drop)]
pub struct GateRefused {
    pub event: Event,
    pub cause: GateCause,
}

impl From<StepRefused> for GateRefused {
    ghost use Rattle.std.specs.Prelude.{◌≡◌};
    ghost use Rattle.kernel_gate.specs.Steps.{gate_refused};

    ghost from_gives = { λ refused told. told ≡ gate_refused refused };

    fn from(refused: StepRefused) -> GateRefused {
        let cause = match refused.cause {
            StepCause::NotMovable(status) => GateCause::NotMovable(status),
            StepCause::Full => GateCause::Full,
            StepCause::NoMemory => GateCause::NoMemory,
        };
        GateRefused {
            event: refused.event,
            cause,
        }
    }
}

impl<K: IpcKernel + Drop> Gate<K> {
    ghost use Rattle.kernel_gate.specs.Seats.{IsSeatOf, origin_of};
    ghost use Rattle.kernel_gate.specs.Steps.{Goes, Wrote, Refuses, RefusesOrBusy};
    ghost use Rattle.kernel_gate.specs.Steps.{Added};
    ghost use Rattle.kernel_types.specs.Kernel.{CauseHolds};
    ghost use Rattle.kernel_log.specs.Logs.{state_of, made_by};
    ghost use Rattle.turnstile.specs.Names.{IsPassOf};
    ghost use Rattle.turnstile.specs.Passes.{view};
    ghost use Rattle.turnstile.specs.Views.{left};

    /// Waits for the turn, and makes the event's step. The answer tells its place in the history. Refused for any cause, nothing is
    /// written; what is not lawful and the last step are told by the state after all that the seat has seen by then.
    #[tactic(auto, using(crate::proofs::Stepping::wrote_goes, crate::proofs::Stepping::wrote, crate::proofs::Stepping::stayed_goes, crate::proofs::Stepping::tried_goes, crate::proofs::Stepping::refuses))]
    pub fn call(
        &self,
        rt: &impl Wait,
        seat: &mut Seat,
        event: Event,
    ) -> Result<Receipt, GateRefused>
        requires { IsSeatOf self.now seat.old }
        ensures seat { IsSeatOf self.now seat.new }
        ensures goes { Goes (view seat.old) (view seat.new) }
        ensures ok { IfOk result (λ receipt. Wrote event (view seat.old) (view seat.new) receipt) }
        ensures event { IfErr result (λ refused. refused.event ≡ event) }
        ensures mine { IfErr result (λ _. (view seat.new).mine ≡ (view seat.old).mine) }
        ensures cause { IfErr result (λ refused. Refuses event (view seat.old) (view seat.new) refused.cause) }
    {
        let logged = self.turnstile.enter(rt, seat);
        Ok(self.step_and_leave(seat, logged, event)?)
    }

    /// As `call`, but it tries once for the turn, and answers `Busy` where another seat has it.
    #[tactic(auto, using(crate::proofs::Stepping::wrote_goes, crate::proofs::Stepping::wrote, crate::proofs::Stepping::stayed_goes, crate::proofs::Stepping::tried_goes, crate::proofs::Stepping::refuses))]
    pub fn try_call(&self, seat: &mut Seat, event: Event) -> Result<Receipt, GateRefused>
        requires { IsSeatOf self.now seat.old }
        ensures seat { IsSeatOf self.now seat.new }
        ensures goes { Goes (view seat.old) (view seat.new) }
        ensures ok { IfOk result (λ receipt. Wrote event (view seat.old) (view seat.new) receipt) }
        ensures event { IfErr result (λ refused. refused.event ≡ event) }
        ensures mine { IfErr result (λ _. (view seat.new).mine ≡ (view seat.old).mine) }
        ensures cause { IfErr result (λ refused. RefusesOrBusy event (view seat.old) (view seat.new) refused.cause) }
    {
        match self.turnstile.try_enter(seat) {
            Ok(logged) => Ok(self.step_and_leave(seat, logged, event)?),
            Err(busy) => Err(GateRefused {
                event,
                cause: GateCause::Busy(busy.word),
            }),
        }
    }

    // Makes the step on the kernel that the seat took, and gives the kernel and the turn back.
    #[tactic(auto, using(crate::proofs::Stepping::event_of_entry))]
    fn step_and_leave(
        &self,
        seat: &mut Seat,
        mut logged: Logged<K>,
        event: Event,
    ) -> Result<Receipt, StepRefused>
        requires pass { IsPassOf (λ log. log.origin) self.now.turnstile seat.old }
        requires turn { (view seat.old).has_turn ≡ true }
        requires seen { (view seat.old).seen ≡ logged.journal.entries }
        requires origin { logged.origin ≡ origin_of self.now }
        ensures seat { IsSeatOf self.now seat.new }
        ensures ok { IfOk result (λ receipt. Added event (view seat.old) (view seat.new) receipt) }
        ensures event { IfErr result (λ refused. refused.event ≡ event) }
        ensures same { IfErr result (λ _. view seat.new ≡ left (view seat.old)) }
        ensures cause { IfErr result (λ refused. CauseHolds event (state_of logged) (made_by logged) refused.cause) }
    {
        match logged.step(event) {
            Ok(receipt) => {
                logged.legal();
                let _room = logged.recorded();
                self.turnstile.leave_with(seat, logged);
                Ok(receipt)
            }
            Err(refused) => {
                logged.legal();
                self.turnstile.leave(seat, logged);
                Err(refused)
            }
        }
    }
}
