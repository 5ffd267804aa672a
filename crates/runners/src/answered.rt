//! How many calls of each actor were answered.

ghost use Rattle.std.specs.Prelude.{◌≡◌, ◌<◌, IfOk, get_or, length, replicate};
ghost use Rattle.kernel_types.specs.Kernel.{step_limit};
ghost use Rattle.runners.specs.Places.{recounted};

use kernel_types::values::NoMemory;
use std::alloc::Global;

/// A count for each of so many actors, of whose calls none was answered yet.
pub fn none_answered(alloc: Global, actors: usize) -> Result<Vec<u64>, NoMemory>
    ensures { IfOk result (λ counts. counts.items ≡ replicate actors 0) }
{
    let mut counts = Vec::new(alloc);
    for _actor in 0..actors {
        counts.push(0)?;
    }
    Ok(counts)
}

/// Counts one more answer of the actor, where its step gave one.
#[tactic(auto, unfolding(kernel_types::specs::Kernel::step_limit))]
pub fn count_answer(counts: &mut Vec<u64>, actor: u32, answers: bool)
    requires within { actor < length counts.old.items }
    requires room { get_or counts.old.items actor 0 < step_limit }
    ensures { counts.new.items ≡ recounted counts.old.items actor answers }
{
    if answers {
        counts[actor as usize] += 1;
    }
}
