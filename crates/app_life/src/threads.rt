//! What the threads of all applications do.

ghost use Rattle.std.specs.Prelude.{◌≡◌, ◌≤◌, ◌++◌, map, length, OnOk, IfOk, slice_get};
ghost use Rattle.std.specs.List.{list_all, flat_map, enumerate_from};
ghost use Rattle.kernel_types.specs.Objects.{map_at};
ghost use Rattle.app_life.specs.Lives.{opening_threads, opening_status, started_thread, ended_thread, ended_thread_of, ended_status, is_over, is_elsewhere_or_over, waiting_thread, waiting_status};

use kernel_values::{ActorStatus, App, AppId, Items, Manifest, NoMemory};
use std::alloc::Global;

/// A thread: its application, and what it does.
#[derive(Clone, Copy, PartialEq, Eq, Debug)]
pub struct ThreadLife {
    pub app: AppId,
    pub status: ActorStatus,
}

impl ThreadLife {
    // It runs, where it is one of the application's.
    fn start(&mut self, app: AppId, start: u32)
        ensures { self.new ≡ started_thread app.0 start self.old }
    {
        if self.app.0 == app.0 {
            self.status = ActorStatus::Running { start };
        }
    }

    // It is Ended, where it is one of the application's.
    fn end_of(&mut self, app: AppId)
        ensures { self.new ≡ ended_thread_of app.0 self.old }
    {
        if self.app.0 == app.0 {
            self.status = ended(self.status);
        }
    }

    // It is of another application, or over.
    fn is_elsewhere_or_over(&self, app: AppId) -> bool
        ensures { result ≡ is_elsewhere_or_over app.0 self.now }
    {
        self.app.0 != app.0 || is_over(self.status)
    }
}

// What a thread does once it is ended.
fn ended(status: ActorStatus) -> ActorStatus
    ensures { result ≡ ended_status status }
{
    match status {
        ActorStatus::Off => ActorStatus::Off,
        ActorStatus::Running { start }
        | ActorStatus::Waiting { start }
        | ActorStatus::Ended { start } => ActorStatus::Ended { start },
    }
}

fn is_over(status: ActorStatus) -> bool
    ensures { result ≡ is_over status }
{
    match status {
        ActorStatus::Off | ActorStatus::Ended { .. } => true,
        ActorStatus::Running { .. } | ActorStatus::Waiting { .. } => false,
    }
}

fn waiting(status: ActorStatus, waits: bool) -> ActorStatus
    ensures { result ≡ waiting_status waits status }
{
    match status {
        ActorStatus::Running { start } | ActorStatus::Waiting { start } => {
            if waits {
                ActorStatus::Waiting { start }
            } else {
                ActorStatus::Running { start }
            }
        }
        other => other,
    }
}

fn opening_status(manifest: &Manifest) -> ActorStatus
    ensures { result ≡ opening_status manifest.now }
{
    if manifest.deferred {
        return ActorStatus::Off;
    }
    ActorStatus::Running { start: 1 }
}

// A thread goes last for each script of the application, which has this number.
fn add_threads(threads: &mut Items<ThreadLife>, number: u32, app: &App) -> Result<(), NoMemory>
    ensures { OnOk result (threads.new ≡ threads.old ++ opening_threads (number, app.now)) }
{
    let status = opening_status(&app.manifest);
    for _script in app.threads.as_slice() {
        threads.push(ThreadLife {
            app: AppId(number),
            status,
        })?;
    }
    Ok(())
}

/// The threads of a scene's applications, as the scene begins.
pub fn opening_threads(alloc: Global, apps: &[App]) -> Result<Items<ThreadLife>, NoMemory>
    requires { length apps.now ≤ 32 }
    ensures { IfOk result (λ threads. threads ≡ flat_map opening_threads (enumerate_from 0 apps.now)) }
{
    let mut threads = Items::new(alloc);
    let mut number = 0u32;
    for app in apps {
        add_threads(&mut threads, number, app)?;
        number += 1;
    }
    Ok(threads)
}

// The thread at the place runs, where it is one of the application's.
fn start_thread(threads: &mut Items<ThreadLife>, at: usize, app: AppId, start: u32)
    ensures { threads.new ≡ map_at (started_thread app.0 start) threads.old at }
{
    if let Some(thread) = threads.get_mut(at) {
        thread.start(app, start);
    }
}

/// The threads of the application run, by the start with this number.
pub fn start_threads(threads: &mut Items<ThreadLife>, app: AppId, start: u32)
    ensures { threads.new ≡ map (started_thread app.0 start) threads.old }
{
    for at in 0..threads.len() {
        start_thread(threads, at, app, start);
    }
}

// The thread at the place is Ended, where it is one of the application's.
fn end_thread_of(threads: &mut Items<ThreadLife>, at: usize, app: AppId)
    ensures { threads.new ≡ map_at (ended_thread_of app.0) threads.old at }
{
    if let Some(thread) = threads.get_mut(at) {
        thread.end_of(app);
    }
}

/// The threads of the application are Ended.
pub fn end_threads(threads: &mut Items<ThreadLife>, app: AppId)
    ensures { threads.new ≡ map (ended_thread_of app.0) threads.old }
{
    for at in 0..threads.len() {
        end_thread_of(threads, at, app);
    }
}

/// Whether each thread of the application is over.
pub fn are_over(threads: &[ThreadLife], app: AppId) -> bool
    ensures { result ≡ list_all (is_elsewhere_or_over app.0) threads.now }
{
    for thread in threads {
        if !thread.is_elsewhere_or_over(app) {
            return false;
        }
    }
    true
}

/// The thread at the place is Ended.
pub fn end_thread(threads: &mut Items<ThreadLife>, at: usize)
    ensures { threads.new ≡ map_at ended_thread threads.old at }
{
    if let Some(thread) = threads.get_mut(at) {
        thread.status = ended(thread.status);
    }
}

/// The thread at the place begins to wait, or runs again.
pub fn set_thread_waiting(threads: &mut Items<ThreadLife>, at: usize, waits: bool)
    ensures { threads.new ≡ map_at (waiting_thread waits) threads.old at }
{
    if let Some(thread) = threads.get_mut(at) {
        thread.status = waiting(thread.status, waits);
    }
}
