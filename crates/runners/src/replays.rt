//! Replays: the turns that a scene lists.

ghost use Rattle.std.specs.Prelude.{◌≡◌, ◌≤◌, IfOk, IfErr, length};
ghost use Rattle.kernel_types.specs.Opening.{opening};
ghost use Rattle.kernel_types.specs.Turns.{history_limit};
ghost use Rattle.runners.specs.Runs.{Carries, IsReplay, IsReplayRefused};

use crate::scripts::is_lawful;
use crate::shared::Shared;
use crate::steps::Taken;
use carry_laws::frames_are_carried_in_order;
use kernel_log::Logged;
use kernel_types::IpcKernel;
use kernel_types::values::{NoMemory, Scene};
use std::alloc::Global;

/// Why a replay was refused.
#[derive(Clone, Copy, PartialEq, Eq, Debug)]
pub enum ReplayRefused {
    /// The turn with this number, counted from 0, is not lawful after those before it; or it is the length
    /// of the list, and the run is not whole after it.
    Turn(u64),
    /// Memory was wanted.
    NoMemory,
}

impl From<NoMemory> for ReplayRefused {
    ghost use Rattle.std.specs.Prelude.{◌≡◌};
    ghost use Rattle.runners.specs.declared.replays.ReplayRefused.{ReplayRefused};
    ghost use Rattle.runners.specs.declared.replays.ReplayRefused.TheVariants as refusal;

    ghost from_gives = { λ _ refused. refused ≡ refusal.NoMemory };

    fn from(_refused: NoMemory) -> ReplayRefused {
        ReplayRefused::NoMemory
    }
}

/// Takes the scene's turns on a new kernel that stands for its opening state.
pub fn replay<K: IpcKernel + Drop>(
    alloc: Global,
    kernel: K,
    scene: &Scene,
) -> Result<Logged<K>, ReplayRefused>
    requires state { K.state kernel ≡ opening scene.now }
    requires made { K.made kernel ≡ 0 }
    requires turns { length scene.now.turns ≤ history_limit }
    ensures whole { IfOk result (λ logged. IsReplay scene.now logged) }
    ensures refused { IfErr result (λ refused. IsReplayRefused scene.now refused) }
    ensures carried { IfOk result (λ logged. Carries scene.now logged) }
{
    frames_are_carried_in_order();
    is_lawful(scene);
    let mut shared = Shared::new(alloc, kernel, scene)?;
    let turns = scene.turns.as_slice();
    for at in 0..turns.len() {
        let Ok(taken) = shared.turn(turns[at]) else {
            drop(shared);
            return Err(ReplayRefused::NoMemory);
        };
        match taken {
            Taken::Stepped => {}
            Taken::Unlawful => {
                drop(shared);
                return Err(ReplayRefused::Turn(at as u64));
            }
        }
    }
    shared.legal();
    if !shared.is_over() {
        drop(shared);
        return Err(ReplayRefused::Turn(turns.len() as u64));
    }
    Ok(shared.into_logged())
}
