//! All applications of a scene, with their threads.

ghost use Rattle.std.specs.Prelude.{◌≡◌, ◌<◌, [], length, false, true, Some, IsTrue, IfOk, map, option_map, slice_get, if◌then◌else◌};
ghost use Rattle.std.specs.Borrow.{sem};
ghost use Rattle.kernel_types.specs.Objects.{map_at};
ghost use Rattle.app_life.specs.StartPorts.{serving, serving_flags};
ghost use Rattle.app_life.specs.Lives.{opening_lives, may_start, started_if_may, stopped_app, application_ended, ended_thread, is_last_of, waiting_thread, reported, app_runs, table_of, last_of, thread_runs, thread_goes_on, thread_app, thread_status, uuid_of, app_table, app_restarts};
ghost use Rattle.kernel_types.specs.Applications.{is_started_again};

use crate::life::{Life, begin_life, next_start, opening_lives, report_life, stop_life};
use crate::registry::Registry;
use crate::threads::{
    ThreadLife, are_over, end_thread, end_threads, opening_threads, set_thread_waiting,
    start_threads,
};
use handle_table::Table;
use kernel_values::{
    ActorId, ActorStatus, AppId, Bytes, Handle, Items, NoMemory, PortFlags, Scene,
};
use std::alloc::Global;
use std::marker::Model;

/// The applications of a scene and their threads. A start port is found by its path in an ordered map.
/// After `new`, no call takes memory.
#[derive(Drop)]
pub struct Apps {
    registry: Registry,
    lives: Items<Life>,
    threads: Items<ThreadLife>,
}

impl Model for Apps {
    ghost use Rattle.app_life.specs.Lives.{Lives};
    ghost use Rattle.app_life.specs.Inside.{applications, IsLives};

    ghost Value = { Lives };

    ghost view = { λ a. record { apps = applications a.registry a.lives; threads = a.threads } };

    ghost invariant = { λ a. IsLives a.registry a.lives a.threads };
}

impl Apps {
    ghost use Rattle.app_life.specs.Lending.{lends_table};

    /// The applications of the scene. Those whose start is not deferred are started.
    pub fn new(alloc: Global, scene: &Scene) -> Result<Apps, NoMemory>
        ensures { IfOk result (λ apps. apps ≡ opening_lives scene.now.apps) }
    {
        let registered = scene.apps.as_slice();
        Ok(Apps {
            registry: Registry::new(alloc, registered)?,
            lives: opening_lives(alloc, registered)?,
            threads: opening_threads(alloc, registered)?,
        })
    }

    /// The application that a connect to this path starts, where the path is a start port.
    pub fn by_start_port(&self, path: &Bytes) -> Option<AppId>
        ensures { option_map (λ app. app.0) result ≡ serving path.now self.now.apps }
    {
        match self.registry.start_place(path.as_slice()) {
            Some(place) => Some(place.app),
            None => None,
        }
    }

    /// Who may connect to the start port with this path.
    pub fn start_flags(&self, path: &Bytes) -> Option<PortFlags>
        ensures { result ≡ serving_flags path.now self.now.apps }
    {
        match self.registry.start_place(path.as_slice()) {
            Some(place) => Some(place.flags),
            None => None,
        }
    }

    /// Starts the application once more, unless it runs or was started 4 times: each of its threads runs,
    /// by the next start. Whether it was started.
    pub fn start(&mut self, app: AppId) -> bool
        requires { app_runs (slice_get self.old.apps app.0) ≡ false → table_of (slice_get self.old.apps app.0) ≡ [] }
        ensures may { result ≡ may_start (slice_get self.old.apps app.0) }
        ensures after { self.new ≡ started_if_may app.0 self.old }
    {
        let at = app.0 as usize;
        let Some(start) = next_start(&self.lives, at) else {
            return false;
        };
        begin_life(&mut self.lives, at);
        start_threads(&mut self.threads, app, start);
        true
    }

    /// A thread that runs is Ended. Whether it was the last of its application that had not ended.
    pub fn finish(&mut self, actor: ActorId) -> bool
        requires { IsTrue (thread_runs (slice_get self.old.threads actor.0)) }
        ensures last { result ≡ is_last_of (slice_get self.old.threads actor.0) self.new.threads }
        ensures after { self.new ≡ record self.old { threads = map_at ended_thread self.old.threads actor.0 } }
    {
        let app = self.app_of(actor);
        end_thread(&mut self.threads, actor.0 as usize);
        are_over(self.threads.as_slice(), app)
    }

    // The application no longer runs, and its threads are Ended.
    fn stop(&mut self, app: AppId)
        requires { table_of (slice_get self.old.apps app.0) ≡ [] }
        ensures { self.new ≡ stopped_app app.0 self.old }
    {
        stop_life(&mut self.lives, app.0 as usize);
        end_threads(&mut self.threads, app);
    }

    // Whether the application is to start again when it has ended.
    fn restarts(&self, app: AppId) -> bool
        ensures { result ≡ app_restarts (slice_get self.now.apps app.0) }
    {
        match self.registry.get(app.0 as usize) {
            Some(manifest) => manifest.restart,
            None => false,
        }
    }

    /// Ends an application that runs, and whose table the caller has emptied: its threads are Ended. Where
    /// its manifest says so and a start is left, it starts again. Whether it did.
    pub fn end(&mut self, app: AppId) -> bool
        requires runs { IsTrue (app_runs (slice_get self.old.apps app.0)) }
        requires empty { table_of (slice_get self.old.apps app.0) ≡ [] }
        ensures again { result ≡ is_started_again (slice_get self.old.apps app.0) }
        ensures after { self.new ≡ application_ended app.0 self.old }
    {
        self.stop(app);
        self.restarts(app) && self.start(app)
    }

    /// How many applications there are.
    pub fn len(&self) -> usize
        ensures { result ≡ length self.now.apps }
    {
        self.lives.len()
    }

    /// How many threads there are.
    pub fn threads(&self) -> usize
        ensures { result ≡ length self.now.threads }
    {
        self.threads.len()
    }

    /// Whether the application runs.
    pub fn runs(&self, app: AppId) -> bool
        ensures { result ≡ app_runs (slice_get self.now.apps app.0) }
    {
        match self.lives.get(app.0 as usize) {
            Some(life) => life.running,
            None => false,
        }
    }

    /// The handle table of the application.
    pub fn table(&self, app: AppId) -> &Table
        requires { app.0 < length self.now.apps }
        ensures { option_map app_table (slice_get self.now.apps app.0) ≡ Some result.now }
    {
        &self.lives.get(app.0 as usize).unwrap().table
    }

    /// The handle table of the application, to be changed.
    pub fn table_mut(&mut self, app: AppId) -> &mut Table
        requires { app.0 < length self.old.apps }
        ensures* writes_back { sem 𝓛 (lends_table self.entry app.0 result) }
        ensures value { option_map app_table (slice_get self.old.apps app.0) ≡ Some result.now }
    {
        let life = self.lives.get_mut(app.0 as usize).unwrap();
        &mut life.table
    }

    /// The application of a thread.
    pub fn app_of(&self, actor: ActorId) -> AppId
        requires { actor.0 < length self.now.threads }
        ensures app { option_map thread_app (slice_get self.now.threads actor.0) ≡ Some result }
        ensures within { result.0 < length self.now.apps }
    {
        self.threads.as_slice()[actor.0 as usize].app
    }

    /// What a thread does.
    pub fn status(&self, actor: ActorId) -> ActorStatus
        requires { actor.0 < length self.now.threads }
        ensures { option_map thread_status (slice_get self.now.threads actor.0) ≡ Some result }
    {
        self.threads.as_slice()[actor.0 as usize].status
    }

    /// A thread that runs begins to wait, or one that waits runs again.
    pub fn set_waiting(&mut self, actor: ActorId, waits: bool)
        requires { IsTrue (thread_goes_on (slice_get self.old.threads actor.0)) }
        ensures { self.new ≡ record self.old { threads = map_at (waiting_thread waits) self.old.threads actor.0 } }
    {
        set_thread_waiting(&mut self.threads, actor.0 as usize, waits);
    }

    /// The UUID of the application.
    pub fn uuid(&self, app: AppId) -> u128
        requires { app.0 < length self.now.apps }
        ensures { option_map uuid_of (slice_get self.now.apps app.0) ≡ Some result }
    {
        self.registry.get(app.0 as usize).unwrap().uuid
    }

    /// The number that the application's last `waitany` of this start reported.
    pub fn last(&self, app: AppId) -> Option<Handle>
        ensures { result ≡ last_of (slice_get self.now.apps app.0) }
    {
        match self.lives.get(app.0 as usize) {
            Some(life) => life.last,
            None => None,
        }
    }

    /// The number is the last that a `waitany` of the application reported.
    pub fn set_last(&mut self, app: AppId, handle: Handle)
        ensures { self.new ≡ record self.old { apps = map_at (reported handle) self.old.apps app.0 } }
    {
        report_life(&mut self.lives, app.0 as usize, handle);
    }
}
