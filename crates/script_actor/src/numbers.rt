//! The call of a command, whose handles and ids its line may read from registers.

ghost use Rattle.std.specs.Prelude.{◌≡◌, IfOk};
ghost use Rattle.kernel_types.specs.Scripts.{call_of};

use crate::registers::Registers;
use kernel_values::{Call, Command, Copied, NoMemory};

/// The command's call, with the registers that it reads.
#[tactic(auto, unfolding(kernel_types::specs::Scripts::call_of))]
pub fn call_of(registers: &Registers, command: &Command) -> Result<Call, NoMemory>
    ensures { IfOk result (λ call. call ≡ call_of registers.now command.now) }
{
    let mut call = command.call.copied()?;
    for read in command.reads.as_slice() {
        call.set_number(read.place, registers.get(read.reg));
    }
    Ok(call)
}
