//! What a scene may hold at most, and what a command takes of it.

ghost use Rattle.std.specs.Prelude.{◌≡◌, IfOk, IsTrue};
ghost use Rattle.std.specs.List.{list_all};
ghost use Rattle.kernel_values.specs.Commands.{has_lawful_registers, is_register, is_lawful_read};
ghost use Rattle.script_lines.specs.Gives.{Gives};
ghost use Rattle.scene_lines.specs.Reading.{is_within, after_command};

use crate::reading::Used;
use kernel_values::{Command, RegRead};
use script_lines::fault::LineRefused::{self, Fault};
use script_lines::fault::SceneKind::TooMany;

fn is_register(reg: u32) -> bool
    ensures { result ≡ is_register reg }
{
    reg < 64
}

fn is_lawful_read(count: u128, read: RegRead) -> bool
    ensures { result ≡ is_lawful_read count read }
{
    u128::from(read.place) < count && is_register(read.reg)
}

fn are_lawful_reads(count: u128, reads: &[RegRead]) -> bool
    ensures { result ≡ list_all (is_lawful_read count) reads.now }
{
    reads.iter().all(|read| is_lawful_read(count, *read))
}

fn are_registers(regs: &[u32]) -> bool
    ensures { result ≡ list_all is_register regs.now }
{
    regs.iter().all(|reg| is_register(*reg))
}

/// Whether the command's registers are among the 64 of a script.
pub fn has_lawful_registers(command: &Command) -> bool
    ensures { result ≡ has_lawful_registers command.now }
{
    are_lawful_reads(command.call.handle_count(), command.reads.as_slice())
        && are_registers(command.sets.as_slice())
}

/// Whether a scene may have so many commands, and so many bytes of payload.
pub fn is_within(used: &Used) -> bool
    ensures { result ≡ is_within used.now }
{
    used.commands <= 16_384 && used.payload <= 16_777_216
}

/// What is used with one command more, if that is within the limits.
#[tactic(auto, unfolding(crate::specs::Reading::after_command))]
pub fn after_command(used: Used, command: &Command) -> Result<Used, LineRefused>
    ensures exact { Gives (λ more. more) result (after_command used command.now) }
    ensures registers { IfOk result (λ _. IsTrue (has_lawful_registers command.now)) }
{
    let after = Used {
        commands: used.commands.saturating_add(1),
        payload: used.payload.saturating_add(command.call.payload()),
    };
    if !has_lawful_registers(command) || !is_within(&after) {
        return Err(Fault(TooMany));
    }
    Ok(after)
}
