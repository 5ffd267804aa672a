//! `wait` and `waitany`.

ghost use Rattle.std.specs.Prelude.{IfOk, ◌≡◌};
ghost use Rattle.kernel_types.specs.Waits.{deadline_of, is_zero_timeout, begin_wait, wait, can_have_events, wait_any};
ghost use Rattle.plain_calls.specs.Outcomes.{outcome};
ghost use Rattle.std.specs.List.{list_any};

use crate::reports::{event_reply, take_report};
use kernel_values::{CoreState, Errno, NoMemory, Object, TableEntry, Timeout, WaitOn};
use plain_calls::threads::begin_to_wait;
use plain_calls::told::{CallOutcome, gives, refuses};
use plain_objects::objects::{find_memory, is_object_there, later};
use plain_objects::tables::{find_entry, table_of};

/// The time at which a wait ends that begins now.
fn deadline_of(clock: u64, timeout: Timeout) -> Result<Option<u64>, NoMemory>
    ensures { IfOk result (λ deadline. deadline ≡ deadline_of clock timeout) }
{
    match timeout {
        Timeout::Forever => Ok(None),
        Timeout::Millis(millis) => Ok(Some(later(clock, millis as u64)?)),
    }
}

fn is_zero_timeout(timeout: Timeout) -> bool
    ensures { result ≡ is_zero_timeout timeout }
{
    match timeout {
        Timeout::Forever => false,
        Timeout::Millis(millis) => millis == 0,
    }
}

/// With something to report the answer comes in this step; else the call waits.
fn begin_wait(
    core: &mut CoreState,
    thread: u32,
    app: u32,
    on: WaitOn,
    timeout: Timeout,
) -> Result<CallOutcome, NoMemory>
    ensures { IfOk result (λ told. outcome told core.new ≡ begin_wait core.old thread app on timeout) }
{
    if let Some(found) = take_report(core, app, on)? {
        return Ok(gives(event_reply(found)));
    }
    if is_zero_timeout(timeout) {
        return Ok(refuses(Errno::TimedOut));
    }
    let deadline = deadline_of(core.clock, timeout)?;
    Ok(begin_to_wait(core, thread, on, deadline))
}

/// Waits for an event of an object.
#[tactic(auto, unfolding(kernel_types::specs::Waits::wait))]
pub fn wait_call(
    core: &mut CoreState,
    thread: u32,
    app: u32,
    handle: u32,
    timeout: Timeout,
) -> Result<CallOutcome, NoMemory>
    ensures { IfOk result (λ told. outcome told core.new ≡ wait core.old thread app handle timeout) }
{
    let Some(entry) = find_entry(table_of(core, app), handle) else {
        return Ok(refuses(Errno::BadHandle));
    };
    if find_memory(core.objects.as_slice(), entry.object).is_some() {
        return Ok(refuses(Errno::NotSupported));
    }
    let on = WaitOn::Object {
        object: entry.object,
        handle: entry.handle,
        cookie: entry.cookie,
    };
    begin_wait(core, thread, app, on, timeout)
}

fn can_have_events(objects: &[Object], entry: &TableEntry) -> bool
    ensures { result ≡ can_have_events objects.now entry.now }
{
    is_object_there(objects, entry.object) && !find_memory(objects, entry.object).is_some()
}

fn any_can_have_events(objects: &[Object], table: &[TableEntry]) -> bool
    ensures { result ≡ list_any (can_have_events objects.now) table.now }
{
    for entry in table {
        if can_have_events(objects, entry) {
            return true;
        }
    }
    false
}

/// Waits for an event of any number of the table.
#[tactic(auto, unfolding(kernel_types::specs::Waits::wait_any))]
pub fn wait_any_call(
    core: &mut CoreState,
    thread: u32,
    app: u32,
    timeout: Timeout,
) -> Result<CallOutcome, NoMemory>
    ensures { IfOk result (λ told. outcome told core.new ≡ wait_any core.old thread app timeout) }
{
    if !any_can_have_events(core.objects.as_slice(), table_of(core, app)) {
        return Ok(refuses(Errno::NotFound));
    }
    begin_wait(core, thread, app, WaitOn::Any, timeout)
}
