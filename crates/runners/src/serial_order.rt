//! The serial order: each actor in turn takes one step where it can.

ghost use Rattle.std.specs.Prelude.{◌≡◌, ◌≤◌, ◌<◌, ◌-◌, ◌^◌, [], true, OnOk, IfOk, IfErr, IfSome, IfNone, length};
ghost use Rattle.std.specs.List.{find, range_with_len};
ghost use Rattle.kernel_types.specs.Opening.{opening};
ghost use Rattle.kernel_types.specs.Facts.{is_at_end};
ghost use Rattle.kernel_types.specs.Step.{statuses};
ghost use Rattle.kernel_types.specs.Turns.{takes_turn, next_turn, last_after, serial_turns};
ghost use Rattle.run_laws.specs.Order.{first_after, IsBelow};
ghost use Rattle.run_laws.specs.Progress.{MayTake};
ghost use Rattle.runners.specs.Runs.{state_told, RanSerially, IsWholeRun, IsStopped, Carries, StoppedCarries};

use crate::scripts::is_lawful;
use crate::shared::Shared;
use crate::steps::Taken;
use carry_laws::frames_are_carried_in_order;
use kernel_log::Logged;
use kernel_types::IpcKernel;
use kernel_types::values::{NoMemory, Scene, Turn};
use std::alloc::Global;

/// A run stops at this many entries.
pub const HISTORY_LIMIT: u64 = 4_194_304;

/// Why a run was not taken to its end.
#[derive(Drop)]
pub enum RunRefused<K: IpcKernel + Drop> {
    /// It is not whole after 4,194,304 entries. The kernel comes back with them.
    TooLong(Logged<K>),
    /// Memory was wanted.
    NoMemory,
}

impl<K: IpcKernel + Drop> From<NoMemory> for RunRefused<K> {
    ghost use Rattle.std.specs.Prelude.{◌≡◌};
    ghost use Rattle.runners.specs.declared.serial_order.RunRefused.{RunRefused};
    ghost use Rattle.runners.specs.declared.serial_order.RunRefused.TheVariants as refusal;

    ghost from_gives = { λ _ refused. refused ≡ refusal.NoMemory };

    fn from(_refused: NoMemory) -> RunRefused<K> {
        RunRefused::NoMemory
    }
}

// The first actor among these numbers that can take a turn.
fn first_from<K: IpcKernel + Drop>(shared: &Shared<K>, from: u32, to: u32) -> Option<u32>
    requires { to ≤ length (statuses (state_told shared.now)) }
    ensures first { result ≡ find (takes_turn (state_told shared.now)) (range_with_len from (to - from)) }
    ensures within { IfSome result (λ actor. actor < to) }
    ensures takes { IfSome result (λ actor. takes_turn (state_told shared.now) actor ≡ true) }
{
    for actor in from..to {
        if shared.takes_turn(actor) {
            return Some(actor);
        }
    }
    None
}

// The first actor that is asked for the next turn.
fn first_after(last: Option<u32>) -> u32
    requires { IsBelow (2 ^ 32 - 1) last }
    ensures { result ≡ first_after last }
{
    match last {
        None => 0,
        Some(last) => last + 1,
    }
}

// The next turn of the serial order, where there is one; without one the run is whole.
fn next_turn<K: IpcKernel + Drop>(shared: &Shared<K>, last: Option<u32>) -> Option<Turn>
    requires { IsBelow (length shared.now.origin.scripts) last }
    ensures turn { result ≡ next_turn (state_told shared.now) last }
    ensures lawful { IfSome result (MayTake (state_told shared.now)) }
    ensures end { IfNone result (is_at_end (state_told shared.now) ≡ true) }
    ensures last { IfSome result (λ turn. IsBelow (length shared.now.origin.scripts) (last_after last turn)) }
{
    let count = shared.actors();
    let first = first_after(last);
    if let Some(actor) = first_from(shared, first, count) {
        return Some(Turn::Actor(actor));
    }
    if let Some(actor) = first_from(shared, 0, first) {
        return Some(Turn::Actor(actor));
    }
    if shared.device_has_work() {
        return Some(Turn::Device);
    }
    if shared.idle_lawful() {
        return Some(Turn::Idle);
    }
    None
}

fn last_after(last: Option<u32>, turn: Turn) -> Option<u32>
    ensures { result ≡ last_after last turn }
{
    match turn {
        Turn::Actor(actor) => Some(actor),
        Turn::Device | Turn::Idle => last,
    }
}

// Takes the serial turns, to the end of the run or to the limit.
fn run_serially<K: IpcKernel + Drop>(shared: &mut Shared<K>) -> Result<(), NoMemory>
    requires { shared.old.history ≡ [] }
    ensures { OnOk result (RanSerially shared.old shared.new) }
{
    let mut last = None;
    for _made in 0..HISTORY_LIMIT {
        let Some(turn) = next_turn(shared, last) else {
            return Ok(());
        };
        shared.goes_on();
        match shared.turn(turn)? {
            Taken::Stepped => last = last_after(last, turn),
            Taken::Unlawful => unreachable!(),
        }
    }
    Ok(())
}

/// Runs the scene in the serial order on a new kernel that stands for its opening state: among the
/// actors after the one that took the last turn, and then from the first again, the first that runs or
/// may move; else the device; else Idle; else the run is whole.
pub fn serial<K: IpcKernel + Drop>(
    alloc: Global,
    kernel: K,
    scene: &Scene,
) -> Result<Logged<K>, RunRefused<K>>
    requires state { K.state kernel ≡ opening scene.now }
    requires made { K.made kernel ≡ 0 }
    ensures whole { IfOk result (λ logged. IsWholeRun scene.now (serial_turns scene.now) logged) }
    ensures refused { IfErr result (λ refused. IsStopped scene.now refused) }
    ensures carried { IfOk result (λ logged. Carries scene.now logged) }
    ensures cut_carried { IfErr result (λ refused. StoppedCarries scene.now refused) }
{
    frames_are_carried_in_order();
    is_lawful(scene);
    let mut shared = Shared::new(alloc, kernel, scene)?;
    let Ok(()) = run_serially(&mut shared) else {
        drop(shared);
        return Err(RunRefused::NoMemory);
    };
    shared.legal();
    if shared.is_over() {
        Ok(shared.into_logged())
    } else {
        Err(RunRefused::TooLong(shared.into_logged()))
    }
}
