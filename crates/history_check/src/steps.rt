//! One step of a kernel, of an actor or of none.

ghost use Rattle.std.specs.Prelude.{◌≡◌, ◌<◌, IfOk};
ghost use Rattle.kernel_types.specs.Kernel.{step_limit};
ghost use Rattle.history_check.specs.Steps.{Stepped, SteppedBy};

use kernel_types::values::{Entry, Event, NoMemory};
use kernel_types::{IpcKernel, StepCause};
use runners::place::Place;

/// Makes the event's step, or nothing where it is not lawful.
pub fn step_once<K: IpcKernel>(kernel: &mut K, event: Event) -> Result<Option<Entry>, NoMemory>
    requires { K.made kernel.old < step_limit }
    ensures { IfOk result (λ entry. Stepped event (K.state kernel.old) (K.state kernel.new) (K.made kernel.old) (K.made kernel.new) entry) }
{
    match kernel.step(event) {
        Ok(entry) => Ok(Some(entry)),
        Err(refused) => {
            let cause = refused.cause;
            drop(refused);
            match cause {
                StepCause::NotMovable(_) => Ok(None),
                StepCause::Full => unreachable!(),
                StepCause::NoMemory => Err(NoMemory),
            }
        }
    }
}

/// Makes the step of an actor's call, or of the end of its wait, and tells the actor the answer.
pub fn step_of<K: IpcKernel>(
    kernel: &mut K,
    place: &mut Place,
    event: Event,
) -> Result<Option<Entry>, NoMemory>
    requires { K.made kernel.old < step_limit }
    ensures { IfOk result (λ entry. SteppedBy event (K.state kernel.old) (K.state kernel.new) (K.made kernel.old) (K.made kernel.new) place.old place.new entry) }
{
    let Some(entry) = step_once(kernel, event)? else {
        return Ok(None);
    };
    place.take(&entry.answer);
    Ok(Some(entry))
}
