//! Threads: they begin to wait, and run again.

ghost use Rattle.plain_calls.specs.Outcomes.{outcome};
ghost use Rattle.std.specs.Prelude.{◌≡◌};
ghost use Rattle.kernel_types.specs.Threads.{waits_on, with_activity, running_activity};

use crate::told::CallOutcome;
use kernel_values::{Activity, Answer, CoreState, Seqs, Wait, WaitOn};

/// The call of a running thread waits, until the deadline where there is one.
pub fn begin_to_wait(
    core: &mut CoreState,
    thread: u32,
    on: WaitOn,
    deadline: Option<u64>,
) -> CallOutcome
    ensures { outcome result core.new ≡ waits_on thread on deadline core.old }
{
    if let Some(waiter) = core.threads.get_mut(thread as usize) {
        if let Activity::Running { start } = waiter.activity {
            let wait = Wait {
                on,
                deadline,
                cancelled: false,
            };
            waiter.activity = Activity::Waiting { start, wait };
        }
    }
    CallOutcome {
        answer: Answer::Waits,
        seqs: Seqs {
            sent: None,
            opened: None,
            retired: None,
        },
    }
}

/// A thread that waits runs again.
pub fn run_again(core: &mut CoreState, thread: u32)
    ensures { core.new ≡ with_activity running_activity thread core.old }
{
    if let Some(waiter) = core.threads.get_mut(thread as usize) {
        if let Activity::Waiting { start, wait: _ } = waiter.activity {
            waiter.activity = Activity::Running { start };
        }
    }
}
