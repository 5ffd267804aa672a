//! `wait` and `waitany`.

ghost use Rattle.std.specs.Prelude.{IfOk, OnErr, Some, ◌≡◌};
ghost use Rattle.kernel_types.specs.Tables.{entry_at, table_of};
ghost use Rattle.kernel_types.specs.Waits.{begin_wait, deadline_of, is_zero_timeout, wait, wait_any};
ghost use Rattle.core_changes.specs.Changes.{waited_entry};
ghost use Rattle.core_changes.specs.Outcomes.{outcome, outcome_if, stays_unless};
ghost use Rattle.core_waits.specs.AtOnce.{at_once};

use crate::reports::{event_reply, take_report};
use core_changes::CoreChanges;
use core_changes::outcomes::{CallOutcome, gives, refuses, waits};
use kernel_values::{Errno, NoMemory, TableEntry, Timeout, WaitOn};

/// The time at which a wait ends that begins now; refused where numbers run out.
fn deadline_of(clock: u64, timeout: Timeout) -> Result<Option<u64>, NoMemory>
    ensures { IfOk result (λ deadline. deadline ≡ deadline_of clock timeout) }
{
    match timeout {
        Timeout::Forever => Ok(None),
        Timeout::Millis(millis) => match clock.checked_add(millis as u64) {
            Some(deadline) => Ok(Some(deadline)),
            None => Err(NoMemory),
        },
    }
}

fn is_zero_timeout(timeout: Timeout) -> bool
    ensures { result ≡ is_zero_timeout timeout }
{
    match timeout {
        Timeout::Forever => false,
        Timeout::Millis(millis) => millis == 0,
    }
}

/// With something to report the answer comes in this step, with timeout 0 too.
fn answer_at_once<C: CoreChanges>(
    core: &mut C,
    app: u32,
    on: WaitOn,
    timeout: Timeout,
) -> Option<CallOutcome>
    ensures told { outcome_if result (C.state core.new) ≡ at_once (C.state core.old) app on timeout }
    ensures kept { stays_unless result (C.state core.old) (C.state core.new) }
{
    if let Some(found) = take_report(core, app, on) {
        return Some(gives(event_reply(found)));
    }
    if is_zero_timeout(timeout) {
        return Some(refuses(Errno::TimedOut));
    }
    None
}

/// The call waits for an event of the object of a number, unless its answer comes at once.
fn wait_for_entry<C: CoreChanges>(
    core: &mut C,
    thread: u32,
    app: u32,
    handle: u32,
    entry: TableEntry,
    timeout: Timeout,
) -> Result<CallOutcome, NoMemory>
    requires { entry_at (table_of (C.state core.old) app) handle ≡ Some entry }
    ensures ok { IfOk result (λ told. outcome told (C.state core.new) ≡ begin_wait (C.state core.old) thread app (waited_entry (Some entry)) timeout) }
    ensures err { OnErr result (C.state core.new ≡ C.state core.old) }
{
    let on = WaitOn::Object {
        object: entry.object,
        handle: entry.handle,
        cookie: entry.cookie,
    };
    if let Some(told) = answer_at_once(core, app, on, timeout) {
        return Ok(told);
    }
    let deadline = deadline_of(core.clock(), timeout)?;
    core.await_entry(thread, app, handle, deadline);
    Ok(waits())
}

/// Waits for an event of an object.
#[tactic(auto, unfolding(kernel_types::specs::Waits::wait))]
pub fn wait_call<C: CoreChanges>(
    core: &mut C,
    thread: u32,
    app: u32,
    handle: u32,
    timeout: Timeout,
) -> Result<CallOutcome, NoMemory>
    ensures ok { IfOk result (λ told. outcome told (C.state core.new) ≡ wait (C.state core.old) thread app handle timeout) }
    ensures err { OnErr result (C.state core.new ≡ C.state core.old) }
{
    let Some(entry) = core.entry(app, handle) else {
        return Ok(refuses(Errno::BadHandle));
    };
    if core.memory(entry.object).is_some() {
        return Ok(refuses(Errno::NotSupported));
    }
    wait_for_entry(core, thread, app, handle, entry, timeout)
}

/// Waits for an event of any number of the table.
#[tactic(auto, unfolding(kernel_types::specs::Waits::wait_any))]
pub fn wait_any_call<C: CoreChanges>(
    core: &mut C,
    thread: u32,
    app: u32,
    timeout: Timeout,
) -> Result<CallOutcome, NoMemory>
    ensures ok { IfOk result (λ told. outcome told (C.state core.new) ≡ wait_any (C.state core.old) thread app timeout) }
    ensures err { OnErr result (C.state core.new ≡ C.state core.old) }
{
    if !core.can_have_events(app) {
        return Ok(refuses(Errno::NotFound));
    }
    if let Some(told) = answer_at_once(core, app, WaitOn::Any, timeout) {
        return Ok(told);
    }
    let deadline = deadline_of(core.clock(), timeout)?;
    core.await_any(thread, deadline);
    Ok(waits())
}
