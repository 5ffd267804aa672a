//! A step before its sweep: what a thread's call, the end of its wait and the passing of time answer and leave.

ghost use Rattle.std.specs.Prelude.{◌≡◌, IfOk, OnErr};
ghost use Rattle.kernel_types.specs.CoreStep.{act, deadline_in, idle_answer, least_deadline, least_deadline_of, sooner};
ghost use Rattle.core_changes.specs.Outcomes.{outcome, outcome_if, stays_unless};
ghost use Rattle.core_waits.specs.Unswept.{begun, idled, taken, wait_ended};

use crate::sets::{set_add_call, set_create_call, set_del_call, set_mod_call};
use crate::wait_calls::{wait_any_call, wait_call};
use crate::waits::end_wait;
use core_calls::accepts::accept_call;
use core_calls::applications::{exit_call, finish_call};
use core_calls::connects::connect_call;
use core_calls::handles::{close_call, dup_call, set_cookie_call};
use core_calls::memories::{mem_create_call, mem_read_call, mem_write_call};
use core_calls::messages::{get_call, put_call, read_call};
use core_calls::ports::port_create_call;
use core_calls::sends::send_call;
use core_changes::CoreChanges;
use core_changes::outcomes::CallOutcome;
use kernel_values::{Activity, Answer, Call, Event, NoMemory, Seqs, Thread};

/// The call of a thread of `app`; the calls of the normal world are none.
#[tactic(auto, unfolding(kernel_types::specs::CoreStep::act))]
fn act_on<C: CoreChanges>(
    core: &mut C,
    thread: u32,
    app: u32,
    call: &Call,
) -> Result<Option<CallOutcome>, NoMemory>
    ensures ok { IfOk result (λ told. outcome_if told (C.state core.new) ≡ act (C.state core.old) thread app call.now) }
    ensures kept { IfOk result (λ told. stays_unless told (C.state core.old) (C.state core.new)) }
    ensures err { OnErr result (C.state core.new ≡ C.state core.old) }
{
    let told = match call {
        Call::PortCreate {
            path,
            bufs,
            size,
            flags,
        } => port_create_call(core, app, path, *bufs, *size, *flags),
        Call::Connect { path, flags } => connect_call(core, thread, app, path, *flags),
        Call::Accept { port } => accept_call(core, app, *port),
        Call::Send { chan, bytes, parts } => send_call(core, app, *chan, bytes, parts),
        Call::Get { chan } => get_call(core, app, *chan),
        Call::Read {
            chan,
            id,
            offset,
            room,
            parts,
        } => read_call(core, app, *chan, *id, *offset, *room, *parts),
        Call::Put { chan, id } => Ok(put_call(core, app, *chan, *id)),
        Call::SetCookie { handle, cookie } => Ok(set_cookie_call(core, app, *handle, *cookie)),
        Call::Close { handle } => Ok(close_call(core, app, *handle)),
        Call::Dup { handle } => dup_call(core, app, *handle),
        Call::SetCreate => set_create_call(core, app),
        Call::SetAdd {
            set,
            handle,
            mask,
            cookie,
        } => set_add_call(core, app, *set, *handle, *mask, *cookie),
        Call::SetDel { set, label } => Ok(set_del_call(core, app, *set, *label)),
        Call::SetMod {
            set,
            label,
            mask,
            cookie,
        } => Ok(set_mod_call(core, app, *set, *label, *mask, *cookie)),
        Call::MemCreate { size, flags } => mem_create_call(core, app, *size, *flags),
        Call::MemRead {
            handle,
            offset,
            len,
        } => mem_read_call(core, app, *handle, *offset, *len),
        Call::MemWrite {
            handle,
            offset,
            bytes,
        } => mem_write_call(core, app, *handle, *offset, bytes),
        Call::Wait { handle, timeout } => wait_call(core, thread, app, *handle, *timeout),
        Call::WaitAny { timeout } => wait_any_call(core, thread, app, *timeout),
        Call::Exit { code: _ } => Ok(exit_call(core, app)),
        Call::Finish => Ok(finish_call(core, thread, app)),
        _ => return Ok(None),
    };
    match told {
        Ok(told) => Ok(Some(told)),
        Err(refused) => Err(refused),
    }
}

/// A call of a thread that runs, by its present start.
#[tactic(auto, unfolding(crate::specs::Unswept::begun))]
pub fn begin<C: CoreChanges>(
    core: &mut C,
    thread: u32,
    start: u32,
    call: &Call,
) -> Result<Option<CallOutcome>, NoMemory>
    ensures ok { IfOk result (λ told. outcome_if told (C.state core.new) ≡ begun (C.state core.old) thread start call.now) }
    ensures kept { IfOk result (λ told. stays_unless told (C.state core.old) (C.state core.new)) }
    ensures err { OnErr result (C.state core.new ≡ C.state core.old) }
{
    let Some(caller) = core.thread(thread) else {
        return Ok(None);
    };
    let Activity::Running { start: running } = caller.activity else {
        return Ok(None);
    };
    if running != start {
        return Ok(None);
    }
    act_on(core, thread, caller.app, call)
}

/// The end of a wait of a thread, by its present start: the thread runs again.
#[tactic(auto, unfolding(crate::specs::Unswept::wait_ended))]
pub fn resume<C: CoreChanges>(core: &mut C, thread: u32, start: u32) -> Option<CallOutcome>
    ensures told { outcome_if result (C.state core.new) ≡ wait_ended (C.state core.old) thread start }
    ensures kept { stays_unless result (C.state core.old) (C.state core.new) }
{
    let Some(waiter) = core.thread(thread) else {
        return None;
    };
    let Activity::Waiting {
        start: waiting,
        wait,
    } = waiter.activity
    else {
        return None;
    };
    if waiting != start {
        return None;
    }
    let Some(told) = end_wait(core, waiter.app, wait) else {
        return None;
    };
    core.run_again(thread);
    Some(told)
}

fn deadline_in(activity: Activity) -> Option<u64>
    ensures { result ≡ deadline_in activity }
{
    match activity {
        Activity::Waiting { start: _, wait } => wait.deadline,
        _ => None,
    }
}

fn sooner(one: Option<u64>, other: Option<u64>) -> Option<u64>
    ensures { result ≡ sooner one other }
{
    match (one, other) {
        (Some(one), Some(other)) => Some(one.min(other)),
        (Some(one), None) => Some(one),
        (None, other) => other,
    }
}

fn least_deadline_of(threads: &[Thread]) -> Option<u64>
    ensures { result ≡ least_deadline_of threads.now }
{
    match threads {
        [] => None,
        [thread, rest @ ..] => sooner(deadline_in(thread.activity), least_deadline_of(rest)),
    }
}

/// The least deadline of all waits.
#[tactic(auto, unfolding(kernel_types::specs::CoreStep::least_deadline))]
pub fn least_deadline<C: CoreChanges>(core: &C) -> Option<u64>
    ensures { result ≡ least_deadline (C.state core.now) }
{
    least_deadline_of(core.threads())
}

fn idle_answer(deadline: Option<u64>) -> Answer
    ensures { result ≡ idle_answer deadline }
{
    match deadline {
        Some(deadline) => Answer::Clock(deadline),
        None => Answer::CancelAll,
    }
}

/// Nothing else can move: the clock moves to the least deadline, or every wait is cancelled.
pub fn idle<C: CoreChanges>(core: &mut C) -> CallOutcome
    ensures { outcome result (C.state core.new) ≡ idled (C.state core.old) }
{
    let deadline = least_deadline(core);
    core.pass_time(deadline);
    CallOutcome {
        answer: idle_answer(deadline),
        seqs: Seqs {
            sent: None,
            opened: None,
            retired: None,
        },
    }
}

/// The event, where it is lawful; `may_idle` says whether Idle is. The device does nothing.
#[tactic(auto, unfolding(crate::specs::Unswept::taken))]
pub fn take_event<C: CoreChanges>(
    core: &mut C,
    event: &Event,
    may_idle: bool,
) -> Result<Option<CallOutcome>, NoMemory>
    ensures ok { IfOk result (λ told. outcome_if told (C.state core.new) ≡ taken (C.state core.old) may_idle event.now) }
    ensures kept { IfOk result (λ told. stays_unless told (C.state core.old) (C.state core.new)) }
    ensures err { OnErr result (C.state core.new ≡ C.state core.old) }
{
    match event {
        Event::Begin { actor, start, call } => begin(core, actor.0, *start, call),
        Event::Resume { actor, start } => Ok(resume(core, actor.0, *start)),
        Event::Device => Ok(None),
        Event::Idle => {
            if may_idle {
                Ok(Some(idle(core)))
            } else {
                Ok(None)
            }
        }
    }
}
