//! One step of a kernel with a journal, of an actor or of none.

ghost use Rattle.std.specs.Prelude.{◌≡◌, ◌<◌, ◌≢◌, IfOk, OnErr, get_or, length};
ghost use Rattle.kernel_types.specs.Kernel.{step_limit};
ghost use Rattle.kernel_log.specs.Logs.{made_by};
ghost use Rattle.runners.specs.Steps.{CountedBy, Made, MadeBy, IsSameLog};

use crate::answered::count_answer;
use crate::place::Place;
use kernel_log::{Logged, Receipt};
use kernel_types::values::{Event, NoMemory};
use kernel_types::{IpcKernel, StepCause};

/// What a turn came to.
#[derive(Clone, Copy, PartialEq, Eq, Debug)]
pub enum Taken {
    /// Its event's step was made.
    Stepped,
    /// It means no event, or one that is not lawful; all stands as before.
    Unlawful,
}

/// Makes the event's step, or nothing where it is not lawful.
pub fn step_once<K: IpcKernel + Drop>(
    logged: &mut Logged<K>,
    event: Event,
) -> Result<Option<Receipt>, NoMemory>
    requires { made_by logged.old < step_limit }
    ensures made { IfOk result (λ receipt. Made event logged.old logged.new receipt) }
    ensures err { OnErr result (IsSameLog logged.old logged.new) }
{
    match logged.step(event) {
        Ok(receipt) => Ok(Some(receipt)),
        Err(refused) => {
            let cause = refused.cause;
            drop(refused);
            match cause {
                StepCause::NotMovable(_) => Ok(None),
                StepCause::Full => unreachable!(),
                StepCause::NoMemory => Err(NoMemory),
            }
        }
    }
}

/// Makes the step of an actor's call, or of the end of its wait, tells the actor the answer, and counts it.
pub fn step_of<K: IpcKernel + Drop>(
    logged: &mut Logged<K>,
    place: &mut Place,
    counts: &mut Vec<u64>,
    actor: u32,
    event: Event,
) -> Result<Taken, NoMemory>
    requires room { made_by logged.old < step_limit }
    requires within { actor < length counts.old.items }
    requires counts { get_or counts.old.items actor 0 < step_limit }
    ensures made { IfOk result (λ taken. MadeBy event logged.old logged.new place.old place.new taken) }
    ensures counted { IfOk result (λ taken. CountedBy place.new actor counts.old.items counts.new.items taken) }
    ensures log { OnErr result (IsSameLog logged.old logged.new) }
    ensures place { OnErr result (place.new ≡ place.old) }
    ensures stays { OnErr result (counts.new.items ≡ counts.old.items) }
{
    let Some(receipt) = step_once(logged, event)? else {
        return Ok(Taken::Unlawful);
    };
    let Some(answer) = logged.answer(receipt.place) else {
        unreachable!();
    };
    place.take(answer);
    count_answer(counts, actor, !place.waits);
    Ok(Taken::Stepped)
}
