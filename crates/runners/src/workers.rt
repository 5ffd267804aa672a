//! Workers: each makes one actor's calls, on a run that it shares with others through a turnstile.

ghost use Rattle.std.specs.Prelude.{◌≡◌, IfOk};
ghost use Rattle.turnstile.specs.Passes.{view};
ghost use Rattle.runners.specs.Places.{answers_to};
ghost use Rattle.runners.specs.Workers.{Rests, IsActor, WentOn, AsksBy, Ends, EndsBy, EndsWhere};

use crate::bell::Bell;
use crate::rounds::{Round, serve};
use crate::shared::Shared;
use kernel_types::IpcKernel;
use kernel_types::values::{ActorId, NoMemory};
use std::sync::Wait;
use turnstile::{Pass, Turnstile};

/// What is told before an actor makes a call.
pub trait Hook {
    /// Called by the actor's worker before it begins a call of the actor, with no turn held. `k` is how
    /// many of the actor's calls were answered before (`announce`).
    fn before(&self, actor: ActorId, k: u64);
}

/// A hook that does nothing.
#[derive(Clone, Copy, Debug)]
pub struct NoHook;

impl Hook for NoHook {
    fn before(&self, _actor: ActorId, _k: u64) {}
}

/// How a run ended that a worker took part in.
#[derive(Clone, Copy, PartialEq, Eq, Debug)]
pub enum Worked {
    /// The run is whole.
    Whole,
    /// It has 4,194,304 entries, and is not whole.
    TooLong,
}

/// How far a worker has come with its actor.
#[derive(Drop)]
pub struct Progress {
    pub actor: ActorId,
    /// The start by which the actor's next call was told to the hook.
    asked: Option<u32>,
}

/// What a worker's turn means for its next one.
#[derive(Clone, Copy, PartialEq, Eq, Debug)]
pub enum Attended {
    /// There is none: the run has ended.
    Ended(Worked),
    /// It may be taken at once.
    GoesOn,
    /// Nothing is to be done before another has made a step.
    Sleeps,
}

impl Progress {
    /// Of an actor of whose calls none was told yet.
    pub fn new(actor: ActorId) -> Progress
        ensures { result.actor ≡ actor }
    {
        Progress { actor, asked: None }
    }
}

// Takes one turn of the actor's worker.
fn round<R: Wait, K: IpcKernel + Drop>(
    rt: &R,
    turnstile: &Turnstile<Shared<K>>,
    pass: &mut Pass,
    actor: u32,
    asked: Option<u32>,
) -> Round
    requires pass { Rests turnstile.now pass.old }
    requires actor { IsActor turnstile.now actor }
    ensures pass { Rests turnstile.now pass.new }
    ensures went_on { WentOn actor (view pass.old) (view pass.new) }
    ensures ends { EndsBy (view pass.new) result }
    ensures asks { AsksBy actor (view pass.new) result }
{
    let mut shared = turnstile.enter(rt, pass);
    let round = serve(&mut shared, actor, asked);
    shared.legal();
    if round.is_step() {
        turnstile.leave_with(pass, shared);
        round
    } else {
        turnstile.leave(pass, shared);
        round
    }
}

// The bell of those who share the run.
fn enlist<R: Wait, K: IpcKernel + Drop>(
    rt: &R,
    turnstile: &Turnstile<Shared<K>>,
    pass: &mut Pass,
    actor: u32,
) -> Result<Bell, NoMemory>
    requires pass { Rests turnstile.now pass.old }
    ensures pass { Rests turnstile.now pass.new }
    ensures went_on { WentOn actor (view pass.old) (view pass.new) }
{
    let shared = turnstile.enter(rt, pass);
    shared.legal();
    let bell = shared.bell().again_or_fail();
    turnstile.leave(pass, shared);
    bell
}

/// Tells the hook that the actor is to make a call. The number is that of the actor's calls that were
/// answered before, in what the pass has seen: also where an earlier call was told and then not begun,
/// since its application had ended.
pub fn announce<H: Hook>(hook: &H, pass: &Pass, actor: ActorId, answered: u64)
    requires { answered ≡ answers_to actor.0 (view pass.now).seen }
{
    let _ = pass;
    hook.before(actor, answered);
}

/// Takes one turn of the worker that has come so far: its hook is called before a call of its actor, and
/// the bell is rung after a step.
pub fn attend<R: Wait, K: IpcKernel + Drop, H: Hook>(
    rt: &R,
    turnstile: &Turnstile<Shared<K>>,
    pass: &mut Pass,
    progress: &mut Progress,
    bell: &Bell,
    hook: &H,
) -> Result<Attended, NoMemory>
    requires pass { Rests turnstile.now pass.old }
    requires actor { IsActor turnstile.now progress.old.actor.0 }
    ensures pass { Rests turnstile.now pass.new }
    ensures actor { progress.new.actor ≡ progress.old.actor }
    ensures went_on { WentOn progress.old.actor.0 (view pass.old) (view pass.new) }
    ensures ends { IfOk result (λ attended. EndsWhere (view pass.new) attended) }
{
    match round(rt, turnstile, pass, progress.actor.0, progress.asked) {
        Round::Whole => Ok(Attended::Ended(Worked::Whole)),
        Round::TooLong => Ok(Attended::Ended(Worked::TooLong)),
        Round::Stepped => {
            bell.ring();
            progress.asked = None;
            Ok(Attended::GoesOn)
        }
        Round::Asks { start, answered } => {
            announce(hook, pass, progress.actor, answered);
            progress.asked = Some(start);
            Ok(Attended::GoesOn)
        }
        Round::Sleeps => Ok(Attended::Sleeps),
        Round::NoMemory => {
            bell.fail();
            Err(NoMemory)
        }
    }
}

/// Makes the calls of one actor, by all of its starts, until the run has ended. In between it takes the
/// device's steps and Idle where they are lawful, and sleeps where there is nothing to do. Where memory
/// was wanted, by it or by another who shares the run, it ends too. That it returns is not promised.
pub fn work<R: Wait, K: IpcKernel + Drop, H: Hook>(
    rt: &R,
    turnstile: &Turnstile<Shared<K>>,
    pass: &mut Pass,
    actor: ActorId,
    hook: &H,
) -> Result<Worked, NoMemory>
    requires pass { Rests turnstile.now pass.old }
    requires actor { IsActor turnstile.now actor.0 }
    ensures pass { Rests turnstile.now pass.new }
    ensures went_on { WentOn actor.0 (view pass.old) (view pass.new) }
    ensures ends { IfOk result (λ worked. Ends (view pass.new) worked) }
{
    let bell = enlist(rt, turnstile, pass, actor.0)?;
    let mut progress = Progress::new(actor);
    for _ in rt.forever() {
        let strokes = bell.strokes();
        if bell.has_failed() {
            return Err(NoMemory);
        }
        match attend(rt, turnstile, pass, &mut progress, &bell, hook)? {
            Attended::Ended(worked) => return Ok(worked),
            Attended::GoesOn => {}
            Attended::Sleeps => bell.sleep(rt, strokes),
        }
    }
    unreachable!()
}
