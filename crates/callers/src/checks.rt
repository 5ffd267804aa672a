//! A caller of the checker of printed histories.

ghost use Rattle.std.specs.Prelude.{◌≡◌, ◌≤◌, ◌⊎◌, IfOk};
ghost use Rattle.kernel_types.specs.Kernel.{step_limit};
ghost use Rattle.kernel_types.specs.Opening.{opening};
ghost use Rattle.history_check.specs.Verdicts.{IsNo, IsYes, line_count};

use history_check::{Verdict, check_text};
use kernel_types::IpcKernel;
use kernel_types::values::{NoMemory, Scene};
use std::alloc::Global;

/// How many entries of a log are the first ones of a history of the scene: all of them, and then the log is the report of
/// that history and of no other; or the greatest number with which it begins.
pub fn entries_that_hold<K: IpcKernel + Drop>(
    alloc: Global,
    kernel: K,
    scene: &Scene,
    log: &[u8],
) -> Result<u64, NoMemory>
    requires state { K.state kernel ≡ opening scene.now }
    requires made { K.made kernel ≡ 0 }
    requires lines { line_count log.now ≤ step_limit }
    ensures { IfOk result (λ count. IsYes scene.now log.now count ⊎ IsNo scene.now log.now count) }
{
    match check_text(alloc, kernel, scene, log)? {
        Verdict::Yes(count) => Ok(count),
        Verdict::No(count) => Ok(count),
    }
}
