//! Starts and ends of applications.

ghost use Rattle.std.specs.Prelude.{◌≡◌, IfOk, ◌+◌, map, OnOk, slice_get};
ghost use Rattle.kernel_types.specs.Applications.{has_start_left, started_thread, started, ended_activity, ended_thread, without_app, is_started_again, application_ended, is_over, is_elsewhere_or_over, thread_ended, after_finish, finish, exit, has_start_port};
ghost use Rattle.std.specs.List.{list_all};
ghost use Rattle.kernel_types.specs.Objects.{map_at};
ghost use Rattle.plain_calls.specs.Outcomes.{outcome};
ghost use Rattle.std.specs.Option.{option_copied};
ghost use Rattle.kernel_types.specs.Connects.{start_flags, app_place};

use crate::told::{CallOutcome, gives};
use kernel_values::{Activity, Application, CoreState, Items, NoMemory, Reply, StartPort, Thread};
use std::alloc::Global;

/// An application starts at most 4 times.
pub fn has_start_left(app: &Application) -> bool
    ensures { result ≡ has_start_left app.now }
{
    app.starts < 4
}

fn next_start(starts: u32) -> Result<u32, NoMemory>
    ensures { IfOk result (λ next. next ≡ starts + 1) }
{
    match starts.checked_add(1) {
        Some(next) => Ok(next),
        None => Err(NoMemory),
    }
}

fn started_threads(
    alloc: Global,
    threads: &[Thread],
    app: u32,
    start: u32,
) -> Result<Items<Thread>, NoMemory>
    ensures { IfOk result (λ others. others ≡ map (started_thread app start) threads.now) }
{
    let mut others = Items::new(alloc);
    for thread in threads {
        let activity = if thread.app == app {
            Activity::Running { start }
        } else {
            thread.activity
        };
        others.push(Thread {
            app: thread.app,
            activity,
        })?;
    }
    Ok(others)
}

/// One more start of the application: each of its threads runs, by the next start.
#[tactic(auto, unfolding(kernel_types::specs::Applications::started))]
pub fn start_application(core: &mut CoreState, app: u32) -> Result<(), NoMemory>
    ensures { OnOk result (core.new ≡ started app core.old) }
{
    let alloc = core.apps.allocator();
    let Some(application) = core.apps.get_mut(app as usize) else {
        return Ok(());
    };
    let start = next_start(application.starts)?;
    application.starts = start;
    application.running = true;
    application.table = Items::new(alloc);
    application.last = None;
    let threads = started_threads(alloc, core.threads.as_slice(), app, start)?;
    core.threads = threads;
    Ok(())
}

fn ended_activity(activity: Activity) -> Activity
    ensures { result ≡ ended_activity activity }
{
    match activity {
        Activity::Off => Activity::Off,
        Activity::Running { start } => Activity::Ended { start },
        Activity::Waiting { start, wait: _ } => Activity::Ended { start },
        Activity::Ended { start } => Activity::Ended { start },
    }
}

fn ended_threads(alloc: Global, threads: &[Thread], app: u32) -> Result<Items<Thread>, NoMemory>
    ensures { IfOk result (λ others. others ≡ map (ended_thread app) threads.now) }
{
    let mut others = Items::new(alloc);
    for thread in threads {
        let activity = if thread.app == app {
            ended_activity(thread.activity)
        } else {
            thread.activity
        };
        others.push(Thread {
            app: thread.app,
            activity,
        })?;
    }
    Ok(others)
}

fn stop_application(core: &mut CoreState, app: u32) -> Result<(), NoMemory>
    ensures { OnOk result (core.new ≡ without_app app core.old) }
{
    let alloc = core.apps.allocator();
    if let Some(application) = core.apps.get_mut(app as usize) {
        application.running = false;
        application.table = Items::new(alloc);
    }
    let threads = ended_threads(alloc, core.threads.as_slice(), app)?;
    core.threads = threads;
    Ok(())
}

fn is_started_again(core: &CoreState, app: u32) -> bool
    ensures { result ≡ is_started_again (slice_get core.now.apps app) }
{
    match core.apps.get(app as usize) {
        Some(application) => application.manifest.restart && has_start_left(application),
        None => false,
    }
}

/// The end of an application; where its manifest says so and a start is left, it starts again.
#[tactic(auto, unfolding(kernel_types::specs::Applications::application_ended))]
fn end_application(core: &mut CoreState, app: u32) -> Result<(), NoMemory>
    ensures { OnOk result (core.new ≡ application_ended app core.old) }
{
    let again = is_started_again(core, app);
    stop_application(core, app)?;
    if again {
        start_application(core, app)?;
    }
    Ok(())
}

fn is_over(activity: Activity) -> bool
    ensures { result ≡ is_over activity }
{
    match activity {
        Activity::Off | Activity::Ended { start: _ } => true,
        Activity::Running { start: _ } | Activity::Waiting { start: _, wait: _ } => false,
    }
}

fn is_over_in(threads: &[Thread], app: u32) -> bool
    ensures { result ≡ list_all (is_elsewhere_or_over app) threads.now }
{
    for thread in threads {
        if thread.app == app && !is_over(thread.activity) {
            return false;
        }
    }
    true
}

fn end_thread(core: &mut CoreState, thread: u32)
    ensures { core.new ≡ record core.old { threads = map_at thread_ended core.old.threads thread } }
{
    if let Some(ending) = core.threads.get_mut(thread as usize) {
        ending.activity = ended_activity(ending.activity);
    }
}

fn end_if_last(core: &mut CoreState, app: u32) -> Result<(), NoMemory>
    ensures { OnOk result (core.new ≡ after_finish app core.old) }
{
    if is_over_in(core.threads.as_slice(), app) {
        end_application(core, app)?;
    }
    Ok(())
}

/// The thread ends, and with the last thread its application.
#[tactic(auto, unfolding(kernel_types::specs::Applications::finish))]
pub fn finish_call(core: &mut CoreState, thread: u32, app: u32) -> Result<CallOutcome, NoMemory>
    ensures { IfOk result (λ told. outcome told core.new ≡ finish core.old thread app) }
{
    end_thread(core, thread);
    end_if_last(core, app)?;
    Ok(gives(Reply::Done))
}

/// The application ends.
#[tactic(auto, unfolding(kernel_types::specs::Applications::exit))]
pub fn exit_call(core: &mut CoreState, app: u32) -> Result<CallOutcome, NoMemory>
    ensures { IfOk result (λ told. outcome told core.new ≡ exit core.old app) }
{
    end_application(core, app)?;
    Ok(gives(Reply::Done))
}

/// The start port of this path, where the application has one.
pub fn find_start_port<'a>(app: &'a Application, path: &[u8]) -> Option<&'a StartPort>
    ensures { option_copied result ≡ start_flags path.now app.now }
{
    for port in app.manifest.ports.as_slice() {
        if port.path.as_slice() == path {
            return Some(port);
        }
    }
    None
}

fn has_start_port(app: &Application, path: &[u8]) -> bool
    ensures { result ≡ has_start_port path.now app.now }
{
    for port in app.manifest.ports.as_slice() {
        if port.path.as_slice() == path {
            return true;
        }
    }
    false
}

/// The place of the application that has this start port; past the end where none has it.
pub fn place_of_server(core: &CoreState, path: &[u8]) -> usize
    ensures { result ≡ app_place path.now core.now }
{
    for (at, app) in core.apps.as_slice().iter().enumerate() {
        if has_start_port(app, path) {
            return at;
        }
    }
    core.apps.len()
}
