//! How waits end.

ghost use Rattle.std.specs.Prelude.{◌≡◌};
ghost use Rattle.std.specs.List.{list_any};
ghost use Rattle.std.specs.Option.{is_some};
ghost use Rattle.kernel_types.specs.Reports.{report_of};
ghost use Rattle.kernel_types.specs.Waits.{end_by_report, end_of_wait, is_due, thread_may_move, thread_movable};
ghost use Rattle.core_changes.specs.Outcomes.{outcome_if, stays_unless};

use crate::reports::{event_reply, has_report, take_report};
use core_calls::accepts::{decide_connect, is_connect_decided};
use core_changes::CoreChanges;
use core_changes::outcomes::{CallOutcome, gives, refuses};
use kernel_values::{Activity, Errno, Thread, Wait, WaitOn};

fn is_due(clock: u64, deadline: Option<u64>) -> bool
    ensures { result ≡ is_due clock deadline }
{
    match deadline {
        Some(deadline) => deadline <= clock,
        None => false,
    }
}

/// The wait ends by a report, or else because it was cancelled or is over.
fn end_by_report<C: CoreChanges>(core: &mut C, app: u32, wait: Wait) -> Option<CallOutcome>
    ensures told { outcome_if result (C.state core.new) ≡ end_by_report (C.state core.old) wait (report_of (C.state core.old) app wait.on) }
    ensures kept { stays_unless result (C.state core.old) (C.state core.new) }
{
    if let Some(found) = take_report(core, app, wait.on) {
        return Some(gives(event_reply(found)));
    }
    if wait.cancelled {
        return Some(refuses(Errno::Cancelled));
    }
    if is_due(core.clock(), wait.deadline) {
        return Some(refuses(Errno::TimedOut));
    }
    None
}

/// The end of a wait of a thread of `app`, where it may end.
#[tactic(auto, unfolding(kernel_types::specs::Waits::end_of_wait))]
pub fn end_wait<C: CoreChanges>(core: &mut C, app: u32, wait: Wait) -> Option<CallOutcome>
    ensures told { outcome_if result (C.state core.new) ≡ end_of_wait (C.state core.old) app wait }
    ensures kept { stays_unless result (C.state core.old) (C.state core.new) }
{
    match wait.on {
        WaitOn::Connect { end, handle } => decide_connect(core, app, end, handle, wait.cancelled),
        WaitOn::Object {
            object: _,
            handle: _,
            cookie: _,
        }
        | WaitOn::Any => end_by_report(core, app, wait),
    }
}

fn may_end_by_report<C: CoreChanges>(core: &C, app: u32, wait: Wait) -> bool
    ensures { result ≡ is_some (end_by_report (C.state core.now) wait (report_of (C.state core.now) app wait.on)) }
{
    has_report(core, app, wait.on) || wait.cancelled || is_due(core.clock(), wait.deadline)
}

/// Whether a wait of a thread of `app` may end.
#[tactic(auto, unfolding(kernel_types::specs::Waits::end_of_wait))]
fn may_end<C: CoreChanges>(core: &C, app: u32, wait: Wait) -> bool
    ensures { result ≡ is_some (end_of_wait (C.state core.now) app wait) }
{
    match wait.on {
        WaitOn::Connect { end, handle } => is_connect_decided(
            core,
            app,
            end,
            handle,
            wait.cancelled,
        ),
        WaitOn::Object {
            object: _,
            handle: _,
            cookie: _,
        }
        | WaitOn::Any => may_end_by_report(core, app, wait),
    }
}

/// Whether the thread waits and may move.
fn thread_may_move<C: CoreChanges>(core: &C, thread: &Thread) -> bool
    ensures { result ≡ thread_may_move (C.state core.now) thread.now }
{
    match thread.activity {
        Activity::Waiting { start: _, wait } => may_end(core, thread.app, wait),
        _ => false,
    }
}

/// Whether the thread of this number waits and may move.
#[tactic(auto, unfolding(kernel_types::specs::Waits::thread_movable))]
pub fn is_movable<C: CoreChanges>(core: &C, thread: u32) -> bool
    ensures { result ≡ thread_movable (C.state core.now) thread }
{
    match core.thread(thread) {
        Some(thread) => thread_may_move(core, &thread),
        None => false,
    }
}

/// Whether some thread waits and may move.
pub fn any_may_move<C: CoreChanges>(core: &C) -> bool
    ensures { result ≡ list_any (thread_may_move (C.state core.now)) (C.state core.now).threads }
{
    for thread in core.threads() {
        if thread_may_move(core, thread) {
            return true;
        }
    }
    false
}
