//! How waits end.

ghost use Rattle.std.specs.Prelude.{◌≡◌, IfOk};
ghost use Rattle.kernel_types.specs.Waits.{is_due, end_by_report, end_of_wait, thread_may_move, thread_movable};
ghost use Rattle.plain_calls.specs.Outcomes.{outcome_if};
ghost use Rattle.kernel_types.specs.Reports.{report_of};
ghost use Rattle.std.specs.Option.{is_some};
ghost use Rattle.std.specs.List.{list_any};

use crate::reports::{event_reply, has_report, take_report};
use kernel_values::{Activity, CoreState, Errno, NoMemory, Thread, Wait, WaitOn};
use plain_calls::accepts::{decide_connect, is_connect_decided};
use plain_calls::told::{CallOutcome, gives, refuses};

fn is_due(clock: u64, deadline: Option<u64>) -> bool
    ensures { result ≡ is_due clock deadline }
{
    match deadline {
        Some(deadline) => deadline <= clock,
        None => false,
    }
}

/// The wait ends by a report, or else because it was cancelled or is over.
fn end_by_report(
    core: &mut CoreState,
    app: u32,
    wait: Wait,
) -> Result<Option<CallOutcome>, NoMemory>
    ensures { IfOk result (λ told. outcome_if told core.new ≡ end_by_report core.old wait (report_of core.old app wait.on)) }
{
    if let Some(found) = take_report(core, app, wait.on)? {
        return Ok(Some(gives(event_reply(found))));
    }
    if wait.cancelled {
        return Ok(Some(refuses(Errno::Cancelled)));
    }
    if is_due(core.clock, wait.deadline) {
        return Ok(Some(refuses(Errno::TimedOut)));
    }
    Ok(None)
}

/// The end of a wait of a thread of `app`, where it may end.
#[tactic(auto, unfolding(kernel_types::specs::Waits::end_of_wait))]
pub fn end_wait(core: &mut CoreState, app: u32, wait: Wait) -> Result<Option<CallOutcome>, NoMemory>
    ensures { IfOk result (λ told. outcome_if told core.new ≡ end_of_wait core.old app wait) }
{
    match wait.on {
        WaitOn::Connect { end, handle } => decide_connect(core, app, end, handle, wait.cancelled),
        WaitOn::Object {
            object: _,
            handle: _,
            cookie: _,
        } => end_by_report(core, app, wait),
        WaitOn::Any => end_by_report(core, app, wait),
    }
}

#[tactic(auto, using(crate::proofs::Waiting::may_end_by_report))]
fn may_end_by_report(core: &CoreState, app: u32, wait: Wait) -> bool
    ensures { result ≡ is_some (end_by_report core.now wait (report_of core.now app wait.on)) }
{
    has_report(core, app, wait.on) || wait.cancelled || is_due(core.clock, wait.deadline)
}

/// Whether a wait of a thread of `app` may end.
#[tactic(auto, unfolding(kernel_types::specs::Waits::end_of_wait))]
fn may_end(core: &CoreState, app: u32, wait: Wait) -> bool
    ensures { result ≡ is_some (end_of_wait core.now app wait) }
{
    match wait.on {
        WaitOn::Connect { end, handle } => is_connect_decided(
            core,
            app,
            end,
            handle,
            wait.cancelled,
        ),
        WaitOn::Object {
            object: _,
            handle: _,
            cookie: _,
        } => may_end_by_report(core, app, wait),
        WaitOn::Any => may_end_by_report(core, app, wait),
    }
}

/// Whether the thread waits and may move.
fn thread_may_move(core: &CoreState, thread: &Thread) -> bool
    ensures { result ≡ thread_may_move core.now thread.now }
{
    match thread.activity {
        Activity::Waiting { start: _, wait } => may_end(core, thread.app, wait),
        _ => false,
    }
}

/// Whether the thread of this number waits and may move.
#[tactic(auto, unfolding(kernel_types::specs::Waits::thread_movable))]
pub fn is_movable(core: &CoreState, thread: u32) -> bool
    ensures { result ≡ thread_movable core.now thread }
{
    match core.threads.get(thread as usize) {
        Some(thread) => thread_may_move(core, thread),
        None => false,
    }
}

/// Whether some thread waits and may move.
pub fn any_may_move(core: &CoreState) -> bool
    ensures { result ≡ list_any (thread_may_move core.now) core.now.threads }
{
    for thread in core.threads.as_slice() {
        if thread_may_move(core, thread) {
            return true;
        }
    }
    false
}
