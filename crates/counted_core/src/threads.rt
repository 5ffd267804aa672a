//! Threads and time: who runs, who waits, and what a wait names.

ghost use Rattle.std.specs.Prelude.{◌≡◌, [], map, true, slice_get};
ghost use Rattle.std.specs.List.{fold, list_all};
ghost use Rattle.core_changes.specs.Changes.{awaits, waited_entry};
ghost use Rattle.kernel_types.specs.Applications.{ended_activity, is_elsewhere_or_over, is_over, thread_ended};
ghost use Rattle.kernel_types.specs.CoreStep.{cancelled_activity, core_idle};
ghost use Rattle.kernel_types.specs.Messages.{is_in_table};
ghost use Rattle.kernel_types.specs.Objects.{map_at};
ghost use Rattle.kernel_types.specs.Tables.{entry_at, table_of};
ghost use Rattle.kernel_types.specs.Threads.{activity_changed, running_activity, with_activity};
ghost use Rattle.kernel_values.specs.declared.state.WaitOn.TheVariants as wait_on;
ghost use Rattle.object_store.specs.Stock.{unnamed};
ghost use Rattle.counted_core.specs.Waiting.{waited_in};

use crate::counts::CountedCore;
use crate::sweep::key_of;
use kernel_values::{Activity, Body, Items, Thread, Wait, WaitOn};
use object_store::Store;

fn is_over(activity: Activity) -> bool
    ensures { result ≡ is_over activity }
{
    match activity {
        Activity::Off | Activity::Ended { start: _ } => true,
        Activity::Running { start: _ } | Activity::Waiting { start: _, wait: _ } => false,
    }
}

fn is_over_in(threads: &[Thread], app: u32) -> bool
    ensures { result ≡ list_all (is_elsewhere_or_over app) threads.now }
{
    for thread in threads {
        if thread.app == app && !is_over(thread.activity) {
            return false;
        }
    }
    true
}

fn ended_activity(activity: Activity) -> Activity
    ensures { result ≡ ended_activity activity }
{
    match activity {
        Activity::Off => Activity::Off,
        Activity::Running { start } => Activity::Ended { start },
        Activity::Waiting { start, wait: _ } => Activity::Ended { start },
        Activity::Ended { start } => Activity::Ended { start },
    }
}

fn running_activity(activity: Activity) -> Activity
    ensures { result ≡ running_activity activity }
{
    match activity {
        Activity::Waiting { start, wait: _ } => Activity::Running { start },
        other => other,
    }
}

fn cancelled_activity(activity: Activity) -> Activity
    ensures { result ≡ cancelled_activity activity }
{
    match activity {
        Activity::Waiting { start, wait } => Activity::Waiting {
            start,
            wait: Wait {
                on: wait.on,
                deadline: wait.deadline,
                cancelled: true,
            },
        },
        other => other,
    }
}

/// What the wait named is named no more by it.
pub fn unname_waited(store: &mut Store<Body>, activity: Activity)
    ensures items { store.new.items ≡ fold unnamed store.old.items (waited_in activity) }
    ensures next { store.new.next ≡ store.old.next }
{
    let Activity::Waiting { start: _, wait } = activity else {
        return;
    };
    match wait.on {
        WaitOn::Object {
            object,
            handle: _,
            cookie: _,
        } => {
            store.unname(key_of(object));
        }
        WaitOn::Connect { end, handle: _ } => {
            store.unname(key_of(end));
        }
        WaitOn::Any => {}
    }
}

fn cancel_at(threads: &mut Items<Thread>, at: usize)
    ensures { threads.new ≡ map_at (activity_changed cancelled_activity) threads.old at }
{
    if let Some(thread) = threads.get_mut(at) {
        thread.activity = cancelled_activity(thread.activity);
    }
}

/// Every wait is cancelled.
fn cancel_all(threads: &mut Items<Thread>)
    ensures { threads.new ≡ map (activity_changed cancelled_activity) threads.old }
{
    for at in 0..threads.len() {
        cancel_at(threads, at);
    }
}

impl CountedCore {
    /// The clock.
    pub fn clock(&self) -> u64
        ensures { result ≡ self.now.clock }
    {
        self.clock
    }

    /// The thread of this number.
    pub fn thread(&self, thread: u32) -> Option<Thread>
        ensures { result ≡ slice_get self.now.threads thread }
    {
        match self.threads.get(thread as usize) {
            Some(thread) => Some(Thread {
                app: thread.app,
                activity: thread.activity,
            }),
            None => None,
        }
    }

    /// Whether every thread of the application is Ended or was never started.
    pub fn is_over(&self, app: u32) -> bool
        ensures { result ≡ list_all (is_elsewhere_or_over app) self.now.threads }
    {
        is_over_in(self.threads.as_slice(), app)
    }

    /// The thread, where it runs, waits for an event of a number of the application's table, until the deadline where there is one.
    pub fn await_entry(&mut self, thread: u32, app: u32, handle: u32, deadline: Option<u64>)
        requires { is_in_table (table_of self.old app) handle ≡ true }
        ensures { self.new ≡ awaits thread (waited_entry (entry_at (table_of self.old app) handle)) deadline self.old }
    {
        let Some(slot) = self.get(app, handle) else {
            return;
        };
        self.store.sound();
        let Some(waiter) = self.threads.get_mut(thread as usize) else {
            return;
        };
        let Activity::Running { start } = waiter.activity else {
            return;
        };
        let on = WaitOn::Object {
            object: slot.key.serial,
            handle,
            cookie: slot.cookie,
        };
        self.store.name(slot.key);
        waiter.activity = Activity::Waiting {
            start,
            wait: Wait {
                on,
                deadline,
                cancelled: false,
            },
        };
    }

    /// The thread, where it runs, waits for an event of any number of its application's table, until the deadline where there is one.
    pub fn await_any(&mut self, thread: u32, deadline: Option<u64>)
        ensures { self.new ≡ awaits thread wait_on.Any deadline self.old }
    {
        self.store.sound();
        let Some(waiter) = self.threads.get_mut(thread as usize) else {
            return;
        };
        let Activity::Running { start } = waiter.activity else {
            return;
        };
        waiter.activity = Activity::Waiting {
            start,
            wait: Wait {
                on: WaitOn::Any,
                deadline,
                cancelled: false,
            },
        };
    }

    /// The thread, where it waits, runs again.
    pub fn run_again(&mut self, thread: u32)
        ensures { self.new ≡ with_activity running_activity thread self.old }
    {
        self.store.sound();
        let Some(waiter) = self.threads.get_mut(thread as usize) else {
            return;
        };
        unname_waited(&mut self.store, waiter.activity);
        waiter.activity = running_activity(waiter.activity);
    }

    /// The thread at this place ends.
    pub fn end_thread_at(&mut self, at: usize)
        ensures { self.new ≡ record self.old { threads = map_at thread_ended self.old.threads at } }
    {
        self.store.sound();
        let Some(ending) = self.threads.get_mut(at) else {
            return;
        };
        unname_waited(&mut self.store, ending.activity);
        ending.activity = ended_activity(ending.activity);
    }

    /// The thread ends.
    pub fn end_thread(&mut self, thread: u32)
        ensures { self.new ≡ record self.old { threads = map_at thread_ended self.old.threads thread } }
    {
        self.end_thread_at(thread as usize);
    }

    /// The clock moves to the deadline; without one, every wait is cancelled.
    #[tactic(auto, unfolding(kernel_types::specs::CoreStep::core_idle))]
    pub fn pass_time(&mut self, deadline: Option<u64>)
        ensures { self.new ≡ core_idle deadline self.old }
    {
        match deadline {
            Some(deadline) => self.clock = deadline,
            None => cancel_all(&mut self.threads),
        }
    }
}
