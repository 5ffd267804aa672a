//! The waits of all threads, and what stands in the tables that `waitany` looks at.

ghost use Rattle.std.specs.Prelude.{◌≡◌, ◌<◌, ◌≤◌, ℕ, true, false, length, map, replicate, slice_get, slice_set, Some, None, IfOk};
ghost use Rattle.std.specs.Option.{option_map, IfSome};
ghost use Rattle.kernel_types.specs.CoreStep.{sooner};
ghost use Rattle.kernel_types.specs.Waits.{is_due};
ghost use Rattle.handle_set.specs.Sets.{CanHave, IsUpToDate, set_told};
ghost use Rattle.wait_events.specs.Waits.{all_retold, begun, deadline_in, idled, is_cancelled, least_deadline, map_at, may_end, may_move, no_watch, placed, retold_wait, table_told, told_in_turn, wait_of, waiting_at, with_cancelled, with_decided};
ghost use Rattle.wait_events.specs.Watches.{retold};

use crate::table::TableWatch;
use crate::watch::{Watch, has_told, retold_events};
use handle_set::Sets;
use kernel_values::{ActorId, AppId, Events, Handle, NoMemory};
use object_store::ObjKey;
use std::alloc::Global;
use std::marker::Model;

/// How many applications there are at most.
const APP_LIMIT: usize = 32;

/// What is waited for.
#[derive(Clone, Copy, PartialEq, Eq, Debug)]
pub enum WaitOn {
    /// An event of an object.
    Object(ObjKey),
    /// The decision on a connect, by its end.
    Connect(ObjKey),
    /// An event of any object in the application's table.
    Any(AppId),
}

/// A wait: what for, the number and the cookie that stood when it began, and until when on the kernel's clock.
#[derive(Clone, Copy, PartialEq, Eq, Debug)]
pub struct WaitFor {
    pub on: WaitOn,
    pub handle: Handle,
    pub cookie: u64,
    /// In milliseconds; None waits for ever.
    pub deadline: Option<u64>,
}

/// A wait with what was told since it began.
#[derive(Clone, Copy, PartialEq, Eq, Debug)]
pub struct Waiting {
    pub wait: WaitFor,
    /// The events last told for the object that it is on.
    pub events: Events,
    /// Whether the connect is decided.
    pub decided: bool,
    /// Whether an idle step cancelled it.
    pub cancelled: bool,
}

// The wait after the events of an object changed.
fn retold_wait(sets: &Sets, object: ObjKey, events: Events, waiting: Waiting) -> Waiting
    ensures { result ≡ retold_wait sets.now.sets object.serial events waiting }
{
    let Waiting {
        wait,
        events: before,
        decided,
        cancelled,
    } = waiting;
    let now = match wait.on {
        WaitOn::Object(watched) => retold_events(sets, object, events, watched, before),
        WaitOn::Connect(_) => before,
        WaitOn::Any(_) => before,
    };
    Waiting {
        wait,
        events: now,
        decided,
        cancelled,
    }
}

// The same where an actor waits.
fn retold_actor(
    sets: &Sets,
    object: ObjKey,
    events: Events,
    actor: Option<Waiting>,
) -> Option<Waiting>
    ensures { result ≡ option_map (retold_wait sets.now.sets object.serial events) actor }
{
    match actor {
        Some(waiting) => Some(retold_wait(sets, object, events, waiting)),
        None => None,
    }
}

// The wait of the actor at a place, where it waits.
fn actor_at(actors: &[Option<Waiting>], at: usize) -> Option<Waiting>
    requires { at < length actors.now }
    ensures { slice_get actors.now at ≡ Some result }
{
    actors[at]
}

// The actors' waits after the events of an object changed.
fn tell_actors(actors: &mut [Option<Waiting>], sets: &Sets, object: ObjKey, events: Events)
    ensures { actors.new ≡ map (option_map (retold_wait sets.now.sets object.serial events)) actors.old }
{
    for at in 0..actors.len() {
        let actor = actor_at(actors, at);
        actors[at] = retold_actor(sets, object, events, actor);
    }
}

// The tables after the events of an object changed.
fn tell_tables(tables: &mut [TableWatch], sets: &Sets, object: ObjKey, events: Events)
    ensures { tables.new ≡ map (map (retold sets.now.sets object.serial events)) tables.old }
{
    for app in 0..tables.len() {
        tables[app].tell(sets, object, events);
    }
}

// What stands at a place of a table from now on.
fn place_in(tables: &mut [TableWatch], app: usize, at: usize, watch: Watch)
    requires app { app < length tables.old }
    requires at { at < 64 }
    ensures { tables.new ≡ map_at (λ table. slice_set table at watch) app tables.old }
{
    tables[app].set(at, watch);
}

// The wait of an actor with another mark on its decision.
fn with_decided(actor: Option<Waiting>, now: bool) -> Option<Waiting>
    ensures { result ≡ option_map (with_decided now) actor }
{
    match actor {
        Some(waiting) => Some(Waiting {
            decided: now,
            ..waiting
        }),
        None => None,
    }
}

// The wait of an actor, cancelled.
fn with_cancelled(actor: Option<Waiting>) -> Option<Waiting>
    ensures { result ≡ option_map with_cancelled actor }
{
    match actor {
        Some(waiting) => Some(Waiting {
            cancelled: true,
            ..waiting
        }),
        None => None,
    }
}

// The waits with each cancelled.
fn cancel_all(actors: &mut [Option<Waiting>])
    ensures { actors.new ≡ map (option_map with_cancelled) actors.old }
{
    for at in 0..actors.len() {
        let actor = actor_at(actors, at);
        actors[at] = with_cancelled(actor);
    }
}

// The deadline of an actor's wait.
fn deadline_in(actor: Option<Waiting>) -> Option<u64>
    ensures { result ≡ deadline_in actor }
{
    match actor {
        Some(waiting) => waiting.wait.deadline,
        None => None,
    }
}

// The sooner of two deadlines.
fn sooner(one: Option<u64>, other: Option<u64>) -> Option<u64>
    ensures { result ≡ sooner one other }
{
    match (one, other) {
        (None, _) => other,
        (Some(_), None) => one,
        (Some(a), Some(b)) => Some(a.min(b)),
    }
}

// The least deadline of all waits.
fn least_of(actors: &[Option<Waiting>]) -> Option<u64>
    ensures { result ≡ least_deadline actors.now }
{
    let mut least = None;
    for done in 0..actors.len() {
        let actor = actor_at(actors, actors.len() - 1 - done);
        least = sooner(deadline_in(actor), least);
    }
    least
}

// Whether the clock has reached the deadline.
fn is_due(clock: u64, deadline: Option<u64>) -> bool
    ensures { result ≡ is_due clock deadline }
{
    match deadline {
        Some(deadline) => deadline <= clock,
        None => false,
    }
}

// Whether the object at some place of the application's table has an event.
fn table_told(tables: &[TableWatch], app: AppId) -> bool
    ensures { result ≡ table_told (slice_get tables.now app.0) }
{
    let at = app.0 as usize;
    if tables.len() <= at {
        return false;
    }
    tables[at].is_told()
}

// A table with nothing in it for each application.
fn new_tables(alloc: Global) -> Result<Vec<TableWatch>, NoMemory>
    ensures { IfOk result (λ tables. tables.items ≡ replicate 32 (replicate 64 no_watch)) }
{
    let mut tables = Vec::with_capacity(alloc, APP_LIMIT)?;
    for _made in 0..APP_LIMIT {
        tables.push_reserved(TableWatch::new(alloc)?);
    }
    Ok(tables)
}

// The first place with an event after a number, or else the first of all.
fn first_told(tables: &[TableWatch], app: AppId, last: Option<Handle>) -> Option<usize>
    ensures { result ≡ told_in_turn last (slice_get tables.now app.0) }
{
    let at = app.0 as usize;
    if tables.len() <= at {
        return None;
    }
    tables[at].first_told(last)
}

/// All waits. Contracts see the clock, the wait of each actor with what was told of it, and the places of each
/// application's table with the events told for each.
#[derive(Drop)]
pub struct Waits {
    clock: u64,
    actors: Vec<Option<Waiting>>,
    tables: Vec<TableWatch>,
    least: Option<u64>,
}

impl Model for Waits {
    ghost use Rattle.std.specs.Prelude.{◌≡◌, length};
    ghost use Rattle.wait_events.specs.Waits.{AllWaits, least_deadline};

    ghost Value = { AllWaits };

    ghost view = { λ w. record { clock = w.clock; actors = w.actors.items; tables = w.tables.items } };

    ghost invariant = { λ w. (length w.tables.items ≡ 32) × (w.least ≡ least_deadline w.actors.items) };
}

impl Waits {
    /// The clock at 0, so many actors of which none waits, and 32 tables with nothing in them. No other call takes
    /// memory.
    pub fn new(alloc: Global, actors: u32) -> Result<Waits, NoMemory>
        ensures clock { IfOk result (λ waits. waits.clock ≡ 0) }
        ensures actors { IfOk result (λ waits. waits.actors ≡ replicate actors None) }
        ensures tables { IfOk result (λ waits. waits.tables ≡ replicate 32 (replicate 64 no_watch)) }
    {
        let nobody: Option<Waiting> = None;
        let waits = Vec::from_elem(alloc, nobody, actors as usize)?;
        let least = least_of(&waits);
        Ok(Waits {
            clock: 0,
            actors: waits,
            tables: new_tables(alloc)?,
            least,
        })
    }

    /// The actor waits from now on. It did not wait before, and the wait has nothing to report.
    pub fn begin(&mut self, actor: ActorId, wait: WaitFor)
        requires { slice_get self.old.actors actor.0 ≡ Some None }
        ensures { self.new ≡ record self.old { actors = slice_set self.old.actors actor.0 (Some (begun wait)) } }
    {
        self.actors[actor.0 as usize] = Some(Waiting {
            wait,
            events: Events(0),
            decided: false,
            cancelled: false,
        });
        self.least = least_of(&self.actors);
    }

    /// Takes the wait of an actor away. None exactly where it does not wait.
    pub fn end(&mut self, actor: ActorId) -> Option<WaitFor>
        ensures wait { result ≡ option_map wait_of (waiting_at self.old.actors actor.0) }
        ensures rest { self.new ≡ record self.old { actors = slice_set self.old.actors actor.0 None } }
    {
        let at = actor.0 as usize;
        if self.actors.len() <= at {
            return None;
        }
        let ended = actor_at(&self.actors, at);
        self.actors[at] = None;
        self.least = least_of(&self.actors);
        match ended {
            Some(waiting) => Some(waiting.wait),
            None => None,
        }
    }

    /// The events of an object changed. All sets that have it and all above these are brought up to date, and with
    /// them each wait and each place of a table. Of an open set READY is told where it is ready, and else nothing.
    pub fn changed(&mut self, sets: &mut Sets, object: ObjKey, events: Events)
        requires { CanHave sets.old.sets object.serial events }
        ensures sets { IsUpToDate (map (set_told object.serial events) sets.old.sets) sets.new.sets }
        ensures spare { sets.new.spare ≡ sets.old.spare }
        ensures waits { self.new ≡ all_retold sets.new.sets object.serial events self.old }
    {
        sets.tell(object, events);
        tell_actors(&mut self.actors, sets, object, events);
        tell_tables(&mut self.tables, sets, object, events);
    }

    /// Tells what stands at a place of an application's table, with its events.
    pub fn place(&mut self, app: AppId, slot: u32, object: Option<ObjKey>, events: Events)
        requires app { app.0 < 32 }
        requires slot { slot < 64 }
        ensures { self.new ≡ placed app.0 slot (record { object = object; events = events }) self.old }
    {
        let watch = Watch { object, events };
        place_in(&mut self.tables, app.0 as usize, slot as usize, watch);
    }

    /// Tells whether the connect that an actor waits for is decided.
    pub fn decided(&mut self, actor: ActorId, now: bool)
        ensures { self.new ≡ record self.old { actors = map_at (option_map (with_decided now)) actor.0 self.old.actors } }
    {
        let at = actor.0 as usize;
        if self.actors.len() <= at {
            return;
        }
        let actor = actor_at(&self.actors, at);
        self.actors[at] = with_decided(actor, now);
    }

    /// Moves the clock, or with None cancels every wait.
    pub fn idle(&mut self, clock: Option<u64>)
        ensures { self.new ≡ idled clock self.old }
    {
        match clock {
            Some(clock) => {
                self.clock = clock;
            }
            None => {
                cancel_all(&mut self.actors);
            }
        }
    }

    /// Whether an idle step cancelled the wait of an actor.
    pub fn cancelled(&self, actor: ActorId) -> bool
        ensures { result ≡ is_cancelled (waiting_at self.now.actors actor.0) }
    {
        match self.waiting(actor) {
            Some(waiting) => waiting.cancelled,
            None => false,
        }
    }

    /// The number that a `waitany` reports: the first one with an event after the number that the application
    /// reported last, or else the first of all with one. None exactly where no object in the table has an event.
    pub fn first_told(&self, app: AppId, last: Option<Handle>) -> Option<usize>
        ensures { result ≡ told_in_turn last (slice_get self.now.tables app.0) }
    {
        first_told(&self.tables, app, last)
    }

    // The wait of an actor, where it waits.
    fn waiting(&self, actor: ActorId) -> Option<Waiting>
        ensures { result ≡ waiting_at self.now.actors actor.0 }
    {
        let at = actor.0 as usize;
        if self.actors.len() <= at {
            return None;
        }
        actor_at(&self.actors, at)
    }

    // Whether the wait has something to report or is decided, is cancelled, or is due.
    fn may_end(&self, waiting: &Waiting) -> bool
        ensures { result ≡ may_end self.now waiting.now waiting.now.wait.on }
    {
        let due = is_due(self.clock, waiting.wait.deadline);
        match waiting.wait.on {
            WaitOn::Object(_) => has_told(waiting.events) || waiting.cancelled || due,
            WaitOn::Connect(_) => waiting.decided || waiting.cancelled,
            WaitOn::Any(app) => table_told(&self.tables, app) || waiting.cancelled || due,
        }
    }

    /// Whether an actor waits and its wait may end.
    pub fn movable(&self, actor: ActorId) -> bool
        ensures { result ≡ may_move self.now (waiting_at self.now.actors actor.0) }
    {
        match self.waiting(actor) {
            Some(waiting) => self.may_end(&waiting),
            None => false,
        }
    }

    /// The least deadline of all waits. None exactly where no wait has one.
    pub fn least_deadline(&self) -> Option<u64>
        ensures { result ≡ least_deadline self.now.actors }
    {
        self.least
    }
}
