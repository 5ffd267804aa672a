//! `finish` and `exit`: how applications end.

ghost use Rattle.std.specs.Prelude.{◌≡◌};
ghost use Rattle.kernel_types.specs.Applications.{after_finish, exit, finish};
ghost use Rattle.core_changes.specs.Outcomes.{outcome};

use core_changes::CoreChanges;
use core_changes::outcomes::{CallOutcome, gives};
use kernel_values::Reply;

/// With its last thread an application ends.
fn end_if_last<C: CoreChanges>(core: &mut C, app: u32)
    ensures { C.state core.new ≡ after_finish app (C.state core.old) }
{
    if core.is_over(app) {
        core.end_app(app);
    }
}

/// The thread ends, and with the last thread its application.
#[tactic(auto, unfolding(kernel_types::specs::Applications::finish))]
pub fn finish_call<C: CoreChanges>(core: &mut C, thread: u32, app: u32) -> CallOutcome
    ensures { outcome result (C.state core.new) ≡ finish (C.state core.old) thread app }
{
    core.end_thread(thread);
    end_if_last(core, app);
    gives(Reply::Done)
}

/// The application ends.
#[tactic(auto, unfolding(kernel_types::specs::Applications::exit))]
pub fn exit_call<C: CoreChanges>(core: &mut C, app: u32) -> CallOutcome
    ensures { outcome result (C.state core.new) ≡ exit (C.state core.old) app }
{
    core.end_app(app);
    gives(Reply::Done)
}
