//! One step: which events are lawful, and what each answers and leaves.

ghost use Rattle.std.specs.Prelude.{◌≡◌, IfOk, map};
ghost use Rattle.plain_calls.specs.Outcomes.{outcome_if, outcome};
ghost use Rattle.kernel_types.specs.CoreStep.{act, core_begin, core_resume, deadline_in, sooner, least_deadline_of, least_deadline, cancelled_activity, core_idle, idle_answer};
ghost use Rattle.kernel_types.specs.Objects.{map_at};
ghost use Rattle.kernel_types.specs.Threads.{activity_changed};
ghost use Rattle.plain_kernel.specs.Steps.{idle_outcome};
ghost use Rattle.plain_kernel.specs.CoreSteps.{core_step, core_idle_lawful};

use kernel_values::{Activity, Answer, Call, CoreState, Event, Items, NoMemory, Seqs, Thread};
use plain_calls::accepts::accept_call;
use plain_calls::applications::{exit_call, finish_call};
use plain_calls::connects::connect_call;
use plain_calls::handles::{close_call, dup_call, set_cookie_call};
use plain_calls::memories::{mem_create_call, mem_read_call, mem_write_call};
use plain_calls::messages::{get_call, put_call, read_call};
use plain_calls::ports::port_create_call;
use plain_calls::sends::send_call;
use plain_calls::threads::run_again;
use plain_calls::told::CallOutcome;
use plain_objects::sweep::sweep_state;
use plain_waits::sets::{set_add_call, set_create_call, set_del_call, set_mod_call};
use plain_waits::wait_calls::{wait_any_call, wait_call};
use plain_waits::waits::end_wait;

/// The call of a thread of `app`; the calls of the normal world are none.
#[tactic(auto, unfolding(kernel_types::specs::CoreStep::act))]
fn act_on(
    core: &mut CoreState,
    thread: u32,
    app: u32,
    call: &Call,
) -> Result<Option<CallOutcome>, NoMemory>
    ensures { IfOk result (λ told. outcome_if told core.new ≡ act core.old thread app call.now) }
{
    let told = match call {
        Call::PortCreate {
            path,
            bufs,
            size,
            flags,
        } => port_create_call(core, app, path, *bufs, *size, *flags),
        Call::Connect { path, flags } => connect_call(core, thread, app, path, *flags),
        Call::Accept { port } => accept_call(core, app, *port),
        Call::Send { chan, bytes, parts } => send_call(core, app, *chan, bytes, parts),
        Call::Get { chan } => get_call(core, app, *chan),
        Call::Read {
            chan,
            id,
            offset,
            room,
            parts,
        } => read_call(core, app, *chan, *id, *offset, *room, *parts),
        Call::Put { chan, id } => Ok(put_call(core, app, *chan, *id)),
        Call::SetCookie { handle, cookie } => set_cookie_call(core, app, *handle, *cookie),
        Call::Close { handle } => close_call(core, app, *handle),
        Call::Dup { handle } => dup_call(core, app, *handle),
        Call::SetCreate => set_create_call(core, app),
        Call::SetAdd {
            set,
            handle,
            mask,
            cookie,
        } => set_add_call(core, app, *set, *handle, *mask, *cookie),
        Call::SetDel { set, label } => set_del_call(core, app, *set, *label),
        Call::SetMod {
            set,
            label,
            mask,
            cookie,
        } => set_mod_call(core, app, *set, *label, *mask, *cookie),
        Call::MemCreate { size, flags } => mem_create_call(core, app, *size, *flags),
        Call::MemRead {
            handle,
            offset,
            len,
        } => mem_read_call(core, app, *handle, *offset, *len),
        Call::MemWrite {
            handle,
            offset,
            bytes,
        } => mem_write_call(core, app, *handle, *offset, bytes),
        Call::Wait { handle, timeout } => wait_call(core, thread, app, *handle, *timeout),
        Call::WaitAny { timeout } => wait_any_call(core, thread, app, *timeout),
        Call::Exit { code: _ } => exit_call(core, app),
        Call::Finish => finish_call(core, thread, app),
        _ => return Ok(None),
    };
    match told {
        Ok(told) => Ok(Some(told)),
        Err(refused) => Err(refused),
    }
}

/// A call of a thread that runs, by its present start.
#[tactic(auto, unfolding(kernel_types::specs::CoreStep::core_begin))]
fn begin(
    core: &mut CoreState,
    thread: u32,
    start: u32,
    call: &Call,
) -> Result<Option<CallOutcome>, NoMemory>
    ensures { IfOk result (λ told. outcome_if told core.new ≡ core_begin core.old thread start call.now) }
{
    let Some(caller) = core.threads.get(thread as usize) else {
        return Ok(None);
    };
    let Activity::Running { start: running } = caller.activity else {
        return Ok(None);
    };
    if running != start {
        return Ok(None);
    }
    let app = caller.app;
    let Some(told) = act_on(core, thread, app, call)? else {
        return Ok(None);
    };
    if let Err(refused) = sweep_state(core) {
        drop(told);
        return Err(refused);
    }
    Ok(Some(told))
}

/// The end of a wait of a thread, by its present start: the thread runs again.
#[tactic(auto, unfolding(kernel_types::specs::CoreStep::core_resume))]
fn resume(core: &mut CoreState, thread: u32, start: u32) -> Result<Option<CallOutcome>, NoMemory>
    ensures { IfOk result (λ told. outcome_if told core.new ≡ core_resume core.old thread start) }
{
    let Some(waiter) = core.threads.get(thread as usize) else {
        return Ok(None);
    };
    let Activity::Waiting {
        start: waiting,
        wait,
    } = waiter.activity
    else {
        return Ok(None);
    };
    if waiting != start {
        return Ok(None);
    }
    let app = waiter.app;
    let Some(told) = end_wait(core, app, wait)? else {
        return Ok(None);
    };
    run_again(core, thread);
    if let Err(refused) = sweep_state(core) {
        drop(told);
        return Err(refused);
    }
    Ok(Some(told))
}

fn deadline_in(activity: Activity) -> Option<u64>
    ensures { result ≡ deadline_in activity }
{
    match activity {
        Activity::Waiting { start: _, wait } => wait.deadline,
        _ => None,
    }
}

fn sooner(one: Option<u64>, other: Option<u64>) -> Option<u64>
    ensures { result ≡ sooner one other }
{
    match (one, other) {
        (Some(one), Some(other)) => Some(one.min(other)),
        (Some(one), None) => Some(one),
        (None, other) => other,
    }
}

fn least_deadline_of(threads: &[Thread]) -> Option<u64>
    ensures { result ≡ least_deadline_of threads.now }
{
    match threads {
        [] => None,
        [thread, rest @ ..] => sooner(deadline_in(thread.activity), least_deadline_of(rest)),
    }
}

/// The least deadline of all waits.
#[tactic(auto, unfolding(kernel_types::specs::CoreStep::least_deadline))]
pub fn least_deadline(core: &CoreState) -> Option<u64>
    ensures { result ≡ least_deadline core.now }
{
    least_deadline_of(core.threads.as_slice())
}

/// The wait of the thread at this place is cancelled, where it waits.
fn cancel_at(threads: &mut Items<Thread>, at: usize)
    ensures { threads.new ≡ map_at (activity_changed cancelled_activity) threads.old at }
{
    if let Some(thread) = threads.get_mut(at) {
        if let Activity::Waiting { start, mut wait } = thread.activity {
            wait.cancelled = true;
            thread.activity = Activity::Waiting { start, wait };
        }
    }
}

#[tactic(auto, using(plain_objects::proofs::Changing::mapped_next, plain_objects::proofs::Changing::mapped_whole))]
fn cancel_all(threads: &mut Items<Thread>)
    ensures { threads.new ≡ map (activity_changed cancelled_activity) threads.old }
{
    for at in 0..threads.len() {
        cancel_at(threads, at);
    }
}

/// The clock moves to the deadline; without one, every wait is cancelled.
#[tactic(auto, unfolding(kernel_types::specs::CoreStep::core_idle))]
pub fn idle_by(core: &mut CoreState, deadline: Option<u64>)
    ensures { core.new ≡ core_idle deadline core.old }
{
    match deadline {
        Some(deadline) => core.clock = deadline,
        None => cancel_all(&mut core.threads),
    }
}

fn idle_answer(deadline: Option<u64>) -> Answer
    ensures { result ≡ idle_answer deadline }
{
    match deadline {
        Some(deadline) => Answer::Clock(deadline),
        None => Answer::CancelAll,
    }
}

/// Nothing else can move.
fn idle(core: &mut CoreState) -> Result<CallOutcome, NoMemory>
    ensures { IfOk result (λ told. outcome told core.new ≡ idle_outcome core.old) }
{
    let deadline = least_deadline(core);
    idle_by(core, deadline);
    sweep_state(core)?;
    Ok(CallOutcome {
        answer: idle_answer(deadline),
        seqs: Seqs {
            sent: None,
            opened: None,
            retired: None,
        },
    })
}

/// The step of an event, where it is lawful; `is_idle` says whether Idle is.
#[tactic(auto, unfolding(crate::specs::CoreSteps::core_step))]
pub fn run_event(
    core: &mut CoreState,
    event: &Event,
    is_idle: bool,
) -> Result<Option<CallOutcome>, NoMemory>
    requires { is_idle ≡ core_idle_lawful core.old }
    ensures { IfOk result (λ told. outcome_if told core.new ≡ core_step core.old event.now) }
{
    match event {
        Event::Begin { actor, start, call } => begin(core, actor.0, *start, call),
        Event::Resume { actor, start } => resume(core, actor.0, *start),
        Event::Device => Ok(None),
        Event::Idle => {
            if is_idle {
                Ok(Some(idle(core)?))
            } else {
                Ok(None)
            }
        }
    }
}
