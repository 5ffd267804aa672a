//! One turn of an actor's worker, on a run that it has for itself.

ghost use Rattle.std.specs.Prelude.{◌≡◌, ◌<◌, length, IfNone, IfSome};
ghost use Rattle.kernel_types.specs.Step.{statuses};
ghost use Rattle.runners.specs.Runs.{state_told};
ghost use Rattle.run_laws.specs.Progress.{MayTake};
ghost use Rattle.runners.specs.Workers.{HasNoTurn, IsTurnOf, Served, is_step};

use crate::serial_order::HISTORY_LIMIT;
use crate::shared::Shared;
use crate::steps::Taken;
use kernel_types::IpcKernel;
use kernel_types::values::{Recorded, Turn};

/// What a worker's turn came to.
#[derive(Clone, Copy, PartialEq, Eq, Debug)]
pub enum Round {
    /// The run is whole.
    Whole,
    /// The run is not whole, and has as many entries as a run may have.
    TooLong,
    /// A step was made: the actor's, the device's, or Idle.
    Stepped,
    /// The actor is to make a call by this start; so many of its calls were answered.
    Asks { start: u32, answered: u64 },
    /// There is nothing to do.
    Sleeps,
    /// Memory was wanted.
    NoMemory,
}

impl Round {
    /// Whether a step was made.
    pub fn is_step(self) -> bool
        ensures { result ≡ is_step self }
    {
        match self {
            Round::Stepped => true,
            Round::Whole | Round::TooLong | Round::Asks { .. } | Round::Sleeps | Round::NoMemory =>
                false,
        }
    }
}

// The turn that the actor's worker takes next, where there is one.
fn turn_of<K: IpcKernel + Drop>(shared: &Shared<K>, actor: u32) -> Option<Turn>
    requires { actor < length (statuses (state_told shared.now)) }
    ensures own { IfSome result (λ turn. IsTurnOf actor turn) }
    ensures lawful { IfSome result (MayTake (state_told shared.now)) }
    ensures none { IfNone result (HasNoTurn actor (state_told shared.now)) }
{
    if shared.takes_turn(actor) {
        return Some(Turn::Actor(actor));
    }
    if shared.device_has_work() {
        return Some(Turn::Device);
    }
    if shared.idle_lawful() {
        return Some(Turn::Idle);
    }
    None
}

// Takes the turn.
#[tactic(auto, unfolding(kernel_types::specs::Turns::history_limit))]
fn take<K: IpcKernel + Drop>(shared: &mut Shared<K>, actor: u32, turn: Turn) -> Round
    requires room { length shared.old.history < HISTORY_LIMIT }
    requires turn { IsTurnOf actor turn }
    requires lawful { MayTake (state_told shared.old) turn }
    ensures origin { shared.new.origin ≡ shared.old.origin }
    ensures served { Served actor shared.old shared.new result }
{
    shared.goes_on();
    let Ok(taken) = shared.turn(turn) else {
        return Round::NoMemory;
    };
    match taken {
        Taken::Stepped => Round::Stepped,
        Taken::Unlawful => unreachable!(),
    }
}

/// Takes one turn for the actor's worker: the actor's next event where it runs or may move, else a step
/// of the device or Idle where that is lawful. `asked` is the start by which its next call was announced.
#[tactic(auto, unfolding(kernel_types::specs::Turns::history_limit))]
pub fn serve<K: IpcKernel + Drop>(shared: &mut Shared<K>, actor: u32, asked: Option<u32>) -> Round
    requires { actor < length shared.old.origin.scripts }
    ensures origin { shared.new.origin ≡ shared.old.origin }
    ensures served { Served actor shared.old shared.new result }
{
    shared.legal();
    if shared.is_over() {
        return Round::Whole;
    }
    if shared.recorded() >= HISTORY_LIMIT {
        return Round::TooLong;
    }
    if let Some(start) = shared.start_running(actor) {
        if asked != Some(start) {
            return Round::Asks {
                start,
                answered: shared.answered(actor),
            };
        }
    }
    match turn_of(shared, actor) {
        Some(turn) => take(shared, actor, turn),
        None => Round::Sleeps,
    }
}
