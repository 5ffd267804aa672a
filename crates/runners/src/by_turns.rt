//! Workers whose threads could not be started: the caller serves them all, one after another.

ghost use Rattle.std.specs.Prelude.{◌≡◌, All, length};
ghost use Rattle.runners.specs.Workers.{Serves};

use crate::bell::Bell;
use crate::shared::Shared;
use crate::workers::{Attended, Hook, Progress, attend};
use kernel_types::IpcKernel;
use kernel_types::values::NoMemory;
use std::sync::Wait;
use turnstile::{Pass, Turnstile};

/// An actor's worker, with a pass of its own.
#[derive(Drop)]
pub struct Worker {
    pub pass: Pass,
    pub progress: Progress,
}

// Takes one turn of each worker, unless the run has ended before.
fn attend_all<R: Wait, K: IpcKernel + Drop, H: Hook>(
    rt: &R,
    turnstile: &Turnstile<Shared<K>>,
    workers: &mut Vec<Worker>,
    bell: &Bell,
    hook: &H,
) -> Result<Attended, NoMemory>
    requires { All (Serves turnstile.now) workers.old.items }
    ensures all { All (Serves turnstile.now) workers.new.items }
    ensures len { length workers.new.items ≡ length workers.old.items }
{
    let mut attended = Attended::Sleeps;
    for at in 0..workers.len() {
        let worker = &mut workers[at];
        match attend(
            rt,
            turnstile,
            &mut worker.pass,
            &mut worker.progress,
            bell,
            hook,
        )? {
            Attended::Ended(worked) => return Ok(Attended::Ended(worked)),
            Attended::GoesOn => attended = Attended::GoesOn,
            Attended::Sleeps => {}
        }
    }
    Ok(attended)
}

/// Makes the calls of all these workers' actors until the run has ended, one turn of each after another.
pub fn work_by_turns<R: Wait, K: IpcKernel + Drop, H: Hook>(
    rt: &R,
    turnstile: &Turnstile<Shared<K>>,
    workers: &mut Vec<Worker>,
    bell: &Bell,
    hook: &H,
) -> Result<(), NoMemory>
    requires { All (Serves turnstile.now) workers.old.items }
    ensures all { All (Serves turnstile.now) workers.new.items }
    ensures len { length workers.new.items ≡ length workers.old.items }
{
    if workers.is_empty() {
        return Ok(());
    }
    for _ in rt.forever() {
        let strokes = bell.strokes();
        if bell.has_failed() {
            return Err(NoMemory);
        }
        match attend_all(rt, turnstile, workers, bell, hook)? {
            Attended::Ended(_) => return Ok(()),
            Attended::GoesOn => {}
            Attended::Sleeps => bell.sleep(rt, strokes),
        }
    }
    unreachable!()
}
