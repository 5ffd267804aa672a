//! Runs by threads: one for each actor.

ghost use Rattle.std.specs.Prelude.{◌≡◌, ◌+◌, ◌≤◌, ◌<◌, All, IfOk, IfErr, length};
ghost use Rattle.std.specs.Thread.{IsSend, IsSync};
ghost use Rattle.kernel_types.specs.Opening.{opening};
ghost use Rattle.turnstile.specs.Names.{first_of};
ghost use Rattle.runners.specs.Places.{most_actors};
ghost use Rattle.runners.specs.Runs.{Carries, StoppedCarries, IsRunToEnd, IsUnfinished, origin_of};
ghost use Rattle.runners.specs.Workers.{Rests, Serves};

use crate::bell::Bell;
use crate::by_turns::{Worker, work_by_turns};
use crate::scripts::is_lawful;
use crate::serial_order::{HISTORY_LIMIT, RunRefused};
use crate::shared::Shared;
use crate::workers::{Hook, Progress, work};
use carry_laws::frames_are_carried_in_order;
use kernel_log::Logged;
use kernel_types::IpcKernel;
use kernel_types::values::{ActorId, NoMemory, Recorded, Scene};
use std::alloc::Global;
use std::snapshot::Snapshot;
use std::sync::Wait;
use std::thread;
use std::thread::{Promise, Scope, Threads};
use turnstile::{Pass, Turnstile};

// That a worker comes back as one of the turnstile's.
#[derive(Drop)]
struct ComesBack<K: IpcKernel + Drop> {
    turnstile: Snapshot<Turnstile<Shared<K>>>,
}

impl<K: IpcKernel + Drop> Promise<Worker> for ComesBack<K> {
    ghost use Rattle.runners.specs.Workers.{Serves};

    ghost kept_by = { λ promise worker. Serves promise.turnstile.value worker };
}

// Makes the calls of the worker's actor to the end of the run; or nothing, where no thread could be started and the worker is
// recalled.
fn work_alone<R: Wait, K: IpcKernel + Drop, H: Hook>(
    rt: &R,
    turnstile: &Turnstile<Shared<K>>,
    worker: Worker,
    bell: &Bell,
    hook: &H,
) -> Worker
    requires { Serves turnstile.now worker }
    ensures { Serves turnstile.now result }
{
    let mut worker = worker;
    let actor = worker.progress.actor;
    if !bell.is_recalled(actor) {
        let _ended = work(rt, turnstile, &mut worker.pass, actor, hook);
    }
    worker
}

// A worker for each actor, with a pass that is split from this one.
fn staffed<K: IpcKernel + Drop>(
    alloc: Global,
    turnstile: &Turnstile<Shared<K>>,
    pass: &mut Pass,
    actors: u32,
) -> Result<Vec<Worker>, NoMemory>
    requires pass { Rests turnstile.now pass.old }
    requires actors { actors ≡ length (first_of turnstile.now).origin.scripts }
    ensures pass { Rests turnstile.now pass.new }
    ensures all { IfOk result (λ workers. All (Serves turnstile.now) workers.items) }
    ensures len { IfOk result (λ workers. length workers.items ≡ actors) }
{
    let mut workers = Vec::new(alloc);
    for actor in 0..actors {
        let Ok(own) = turnstile.split(pass) else {
            return Err(NoMemory);
        };
        workers.push(Worker {
            pass: own,
            progress: Progress::new(ActorId(actor)),
        })?;
    }
    Ok(workers)
}

// The passes of the workers, and this one.
fn passes_of<K: IpcKernel + Drop>(
    alloc: Global,
    turnstile: &Turnstile<Shared<K>>,
    pass: Pass,
    workers: Vec<Worker>,
) -> Result<Vec<Pass>, NoMemory>
    requires pass { Rests turnstile.now pass }
    requires all { All (Serves turnstile.now) workers.items }
    ensures all { IfOk result (λ passes. All (Rests turnstile.now) passes.items) }
    ensures len { IfOk result (λ passes. length passes.items ≡ length workers.items + 1) }
{
    let mut workers = workers;
    let mut passes = Vec::new(alloc);
    passes.push(pass)?;
    while let Some(worker) = workers.pop() {
        let Worker { pass, progress: _ } = worker;
        passes.push(pass)?;
    }
    Ok(passes)
}

// Starts a thread for each worker that waits for one. Those for which none can be started are served by turns, once all others
// have theirs; so none of these keeps others waiting.
fn start_all<'s, 'e, R: Threads + Wait + Sync, K: IpcKernel + Drop + Send, H: Hook + Sync>(
    scope: &Scope<'s, &'e ()>,
    rt: &'s R,
    turnstile: &'s Turnstile<Shared<K>>,
    mut waiting: Vec<Worker>,
    mut refused: Vec<Worker>,
    bell: &'s Bell,
    hook: &'s H,
) -> Result<Vec<Worker>, NoMemory>
    requires crosses { IsSync R.row × IsSend K.row × IsSync H.row }
    requires waiting { All (Serves turnstile.now) waiting.items }
    requires refused { All (Serves turnstile.now) refused.items }
    ensures all { IfOk result (λ workers. All (Serves turnstile.now) workers.items) }
    ensures len { IfOk result (λ workers. length workers.items ≡ length waiting.items + length refused.items) }
{
    let Some(worker) = waiting.pop() else {
        let _ended = work_by_turns(rt, turnstile, &mut refused, bell, hook);
        return Ok(refused);
    };
    let actor = worker.progress.actor;
    let back = ComesBack {
        turnstile: Snapshot::of(turnstile),
    };
    match scope.spawn_with(
        back,
        move || -> Worker
            requires { Serves turnstile.now worker }
            ensures { Serves turnstile.entry.now result }
        { work_alone(rt, turnstile, worker, bell, hook) },
    ) {
        Ok(child) => {
            let mut workers = start_all(scope, rt, turnstile, waiting, refused, bell, hook)?;
            match workers.push(child.join(rt)) {
                Ok(()) => Ok(workers),
                Err(_) => Err(NoMemory),
            }
        }
        Err(unstarted) => {
            bell.recall(actor);
            match refused.push((unstarted.value)()) {
                Ok(()) => start_all(scope, rt, turnstile, waiting, refused, bell, hook),
                Err(_) => {
                    bell.fail();
                    Err(NoMemory)
                }
            }
        }
    }
}

// Has all workers make their actors' calls, to the end of the run.
fn run_all<R: Threads + Wait + Sync, K: IpcKernel + Drop + Send, H: Hook + Sync>(
    rt: &R,
    alloc: Global,
    turnstile: &Turnstile<Shared<K>>,
    workers: Vec<Worker>,
    bell: &Bell,
    hook: &H,
) -> Result<Vec<Worker>, NoMemory>
    requires { All (Serves turnstile.now) workers.items }
    ensures all { IfOk result (λ back. All (Serves turnstile.now) back.items) }
    ensures len { IfOk result (λ back. length back.items ≡ length workers.items) }
{
    thread::scope(
        thread::scope_env(),
        rt,
        |scope| -> Result<Vec<Worker>, NoMemory>
            requires { IsSync R.row × IsSend K.row × IsSync H.row × All (Serves turnstile.now) workers.items }
            ensures all { IfOk result (λ back. All (Serves turnstile.entry.now) back.items) }
            ensures len { IfOk result (λ back. length back.items ≡ length workers.items) }
        { start_all(scope, rt, turnstile, workers, Vec::new(alloc), bell, hook) },
    )
}

// A worker for each actor, which makes its calls to the end of the run; and the passes of all of them.
fn worked_off<R: Threads + Wait + Sync, K: IpcKernel + Drop + Send, H: Hook + Sync>(
    rt: &R,
    alloc: Global,
    turnstile: &Turnstile<Shared<K>>,
    pass: Pass,
    actors: u32,
    bell: &Bell,
    hook: &H,
) -> Result<Vec<Pass>, NoMemory>
    requires pass { Rests turnstile.now pass }
    requires actors { actors ≡ length (first_of turnstile.now).origin.scripts }
    ensures all { IfOk result (λ passes. All (Rests turnstile.now) passes.items) }
    ensures len { IfOk result (λ passes. length passes.items ≡ actors + 1) }
{
    let mut pass = pass;
    let workers = staffed(alloc, turnstile, &mut pass, actors)?;
    let workers = run_all(rt, alloc, turnstile, workers, bell, hook)?;
    passes_of(alloc, turnstile, pass, workers)
}

// The run of the scene that the workers have left: whole, or as long as a run may be; or they left it before either.
#[tactic(auto, unfolding(kernel_types::specs::Turns::history_limit))]
fn finished<K: IpcKernel + Drop>(
    shared: Shared<K>,
    scene: &Scene,
) -> Result<Logged<K>, RunRefused<K>>
    requires { shared.origin ≡ origin_of scene.now }
    ensures whole { IfOk result (λ logged. IsRunToEnd (origin_of scene.now) logged) }
    ensures refused { IfErr result (λ refused. IsUnfinished (origin_of scene.now) refused) }
    ensures carried { IfOk result (λ logged. Carries scene.now logged) }
    ensures cut_carried { IfErr result (λ refused. StoppedCarries scene.now refused) }
{
    frames_are_carried_in_order();
    is_lawful(scene);
    shared.legal();
    let over = shared.is_over();
    let full = shared.recorded() >= HISTORY_LIMIT;
    let logged = shared.into_logged();
    if over {
        Ok(logged)
    } else if full {
        Err(RunRefused::TooLong(logged))
    } else {
        drop(logged);
        Err(RunRefused::NoMemory)
    }
}

/// Runs the scene on a new kernel that stands for its opening state, with a thread for each actor: each makes its actor's calls,
/// in whatever order they get the turn. The hook is called before each call. Where threads cannot be started, the caller serves
/// those actors. That it returns is not promised.
pub fn threads<R: Threads + Wait + Sync, K: IpcKernel + Drop + Send, H: Hook + Sync>(
    rt: &R,
    alloc: Global,
    kernel: K,
    scene: &Scene,
    hook: &H,
) -> Result<Logged<K>, RunRefused<K>>
    requires state { K.state kernel ≡ opening scene.now }
    requires made { K.made kernel ≡ 0 }
    ensures whole { IfOk result (λ logged. IsRunToEnd (origin_of scene.now) logged) }
    ensures refused { IfErr result (λ refused. IsUnfinished (origin_of scene.now) refused) }
    ensures carried { IfOk result (λ logged. Carries scene.now logged) }
    ensures cut_carried { IfErr result (λ refused. StoppedCarries scene.now refused) }
{
    let shared = Shared::new(alloc, kernel, scene)?;
    let Ok(bell) = shared.bell().again() else {
        drop(shared);
        return Err(RunRefused::NoMemory);
    };
    let actors = shared.actors();
    let (turnstile, pass) = match Turnstile::new(alloc, shared, actors + 1) {
        Ok(made) => made,
        Err(refused) => {
            drop(bell);
            drop(refused);
            return Err(RunRefused::NoMemory);
        }
    };
    let worked = worked_off(rt, alloc, &turnstile, pass, actors, &bell, hook);
    drop(bell);
    let Ok(passes) = worked else {
        drop(turnstile);
        return Err(RunRefused::NoMemory);
    };
    match turnstile.close(alloc, passes) {
        Ok((shared, pass)) => {
            drop(pass);
            finished(shared, scene)
        }
        Err(refused) => {
            drop(refused);
            Err(RunRefused::NoMemory)
        }
    }
}
