//! Repeats, of a thread's script or a client's.

ghost use Rattle.std.specs.Prelude.{◌≡◌, ◌++◌, IsTrue, IfOk, OnOk};
ghost use Rattle.std.specs.List.{list_all};
ghost use Rattle.kernel_values.specs.Commands.{has_lawful_registers};
ghost use Rattle.script_lines.specs.Gives.{Gives};
ghost use Rattle.scene_lines.specs.Reading.{extended, begun, repeated, after_repeat};

use crate::limits::{has_lawful_registers, is_within};
use crate::reading::{Repeat, Used};
use kernel_values::{Command, Copied, NoMemory, Script};
use script_lines::fault::LineRefused::{self, Fault};
use script_lines::fault::SceneKind::TooMany;
use std::alloc::Global;

/// A repeat with no commands yet.
pub fn begun(alloc: Global, line: u32, times: u32) -> Repeat
    ensures { result ≡ begun line times }
{
    Repeat {
        line,
        times,
        body: Script::new(alloc),
        payload: 0,
        is_past: false,
    }
}

/// One command more in a repeat.
#[tactic(auto, unfolding(crate::specs::Reading::extended))]
pub fn extended(repeat: Repeat, command: Command) -> Result<Repeat, NoMemory>
    ensures { IfOk result (λ after. after ≡ extended repeat command) }
{
    let mut repeat = repeat;
    let after = Used {
        commands: (repeat.body.as_slice().len() as u64).saturating_add(1),
        payload: repeat.payload.saturating_add(command.call.payload()),
    };
    if !has_lawful_registers(&command) || !is_within(&after) {
        drop(command);
        repeat.is_past = true;
        return Ok(repeat);
    }
    if let Err(_) = repeat.body.push(command) {
        drop(repeat);
        return Err(NoMemory);
    }
    repeat.payload = after.payload;
    Ok(repeat)
}

// Copies of the commands go last, once.
fn push_all(script: &mut Script, body: &[Command]) -> Result<(), NoMemory>
    requires { IsTrue (list_all has_lawful_registers body.now) }
    ensures { OnOk result (script.new ≡ script.old ++ body.now) }
{
    let mut rest = body;
    while let [command, after @ ..] = rest {
        script.push(command.copied()?)?;
        rest = after;
    }
    Ok(())
}

/// Copies of the commands go last, so many times.
#[tactic(auto, unfolding(crate::specs::Reading::repeated))]
pub fn push_repeated(script: &mut Script, times: u32, body: &Script) -> Result<(), NoMemory>
    ensures { OnOk result (script.new ≡ script.old ++ repeated times body.now) }
{
    for _ in 0..times {
        push_all(script, body.as_slice())?;
    }
    Ok(())
}

/// What is used with the commands of the repeat, if that is within the limits.
#[tactic(auto, unfolding(crate::specs::Reading::after_repeat))]
pub fn after_repeat(used: Used, repeat: &Repeat) -> Result<Used, LineRefused>
    ensures { Gives (λ more. more) result (after_repeat used repeat.now) }
{
    let times = u64::from(repeat.times);
    let commands = times.saturating_mul(repeat.body.as_slice().len() as u64);
    let payload = times.saturating_mul(repeat.payload);
    let after = Used {
        commands: used.commands.saturating_add(commands),
        payload: used.payload.saturating_add(payload),
    };
    if repeat.is_past || !is_within(&after) {
        return Err(Fault(TooMany));
    }
    Ok(after)
}
