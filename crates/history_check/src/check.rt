//! The check of a text.

ghost use Rattle.std.specs.Prelude.{◌≡◌, ◌<◌, ◌≤◌, IfOk, map, option_map};
ghost use Rattle.kernel_types.specs.Kernel.{step_limit};
ghost use Rattle.kernel_types.specs.Opening.{opening};
ghost use Rattle.history_check.specs.Verdicts.{IsVerdict, line_count};
ghost use Rattle.history_check.specs.Matching.{Matches};
ghost use Rattle.history_check.specs.Checking.{TookEntry, Ends, Checks};

use crate::actors::Actors;
use crate::lines::{behind, first_line, turn_of};
use crate::verdict::Verdict;
use kernel_types::IpcKernel;
use kernel_types::values::{NoMemory, Scene};
use report_text::line::Line;
use report_text::lines;
use runners::scripts::is_lawful;
use std::alloc::Global;

// Takes the entry with this number, where the text goes on with its line. What stands behind that line comes back.
fn take_entry<'t, K: IpcKernel>(
    alloc: Global,
    kernel: &mut K,
    actors: &mut Actors,
    line: &mut Line,
    k: u64,
    text: &'t [u8],
) -> Result<Option<&'t [u8]>, NoMemory>
    requires fit { Matches actors.old (K.state kernel.old) }
    requires room { K.made kernel.old < step_limit }
    ensures { IfOk result (λ rest. TookEntry k text.now actors.old actors.new (K.state kernel.old) (K.state kernel.new) (K.made kernel.old) (K.made kernel.new) (option_map (λ bytes. bytes.now) rest)) }
{
    lines::entry_front(line, k)?;
    let Some(said) = behind(text, line.text()) else {
        return Ok(None);
    };
    let Some(turn) = turn_of(&actors.names, said) else {
        return Ok(None);
    };
    let Some(entry) = actors.take(alloc, kernel, turn)? else {
        return Ok(None);
    };
    let written = lines::entry_line(line, &actors.names, k, &entry);
    drop(entry);
    written?;
    Ok(behind(text, line.text()))
}

// Whether the text ends here, after so many entries: the first line counts them, the last one tells what is left,
// every actor has ended or was never started, and the device has no work.
fn is_end<K: IpcKernel>(
    kernel: &K,
    line: &mut Line,
    k: u64,
    first: &[u8],
    last: &[u8],
) -> Result<bool, NoMemory>
    ensures { IfOk result (λ ends. Ends (K.state kernel.now) k first.now last.now ends) }
{
    lines::first_line(line, k)?;
    if first != line.text() {
        return Ok(false);
    }
    lines::end_line(line, &kernel.end_facts())?;
    if last != line.text() {
        return Ok(false);
    }
    Ok(kernel.whole())
}

// Takes as many entries as the text has, and says whether it ends behind them as a report does.
fn check_entries<K: IpcKernel>(
    alloc: Global,
    kernel: &mut K,
    actors: &mut Actors,
    first: &[u8],
    text: &[u8],
) -> Result<Verdict, NoMemory>
    requires fit { Matches actors.old (K.state kernel.old) }
    requires made { K.made kernel.old ≡ 0 }
    requires lines { line_count text.now < step_limit }
    ensures { IfOk result (λ verdict. Checks actors.old (K.state kernel.old) first.now text.now verdict) }
{
    let mut line = Line::new(alloc);
    let mut rest = text;
    let mut k = 0;
    while let Some(next) = take_entry(alloc, kernel, actors, &mut line, k, rest)? {
        rest = next;
        k += 1;
    }
    let ends = is_end(kernel, &mut line, k, first, rest)?;
    Ok(Verdict::of(ends, k))
}

/// Checks whether the text is the report, in the history form, of a history of the scene: a legal one, in which each
/// actor's calls are its script's to its end. The kernel is a new one that stands for the scene's opening state.
pub fn check_text<K: IpcKernel + Drop>(
    alloc: Global,
    kernel: K,
    scene: &Scene,
    text: &[u8],
) -> Result<Verdict, NoMemory>
    requires state { K.state kernel ≡ opening scene.now }
    requires made { K.made kernel ≡ 0 }
    requires lines { line_count text.now ≤ step_limit }
    ensures { IfOk result (λ verdict. IsVerdict scene.now text.now verdict) }
{
    is_lawful(scene);
    let mut kernel = kernel;
    let Ok(mut actors) = Actors::new(alloc, scene) else {
        drop(kernel);
        return Err(NoMemory);
    };
    let (first, behind) = first_line(text);
    let checked = check_entries(alloc, &mut kernel, &mut actors, first, behind);
    drop(actors);
    drop(kernel);
    checked
}
