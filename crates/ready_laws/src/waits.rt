//! Which waits may end, by what was told.

ghost use Rattle.std.specs.Prelude.{◌≡◌, ℕ};
ghost use Rattle.kernel_values.specs.declared.state.CoreState.{CoreState};
ghost use Rattle.kernel_types.specs.Waits.{thread_movable};
ghost use Rattle.set_laws.specs.Chains.{HasShortChains};
ghost use Rattle.wait_events.specs.Waits.{AllWaits, may_move, waiting_at};
ghost use Rattle.ready_laws.specs.Telling.{TellsWaits};

use crate::events::{object_waits_report_events, table_waits_report_events};

/// Where the waits were told the clock, the decisions and the events of the state, an actor is movable exactly where
/// its thread is.
pub fn told_waits_move_as_threads_do()
    ensures { (c : CoreState) (waits : AllWaits) (thread : ℕ) → HasShortChains c.objects → TellsWaits c waits → may_move waits (waiting_at waits.actors thread) ≡ thread_movable c thread }
{
    object_waits_report_events();
    table_waits_report_events();
}
