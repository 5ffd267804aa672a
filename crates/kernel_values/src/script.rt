//! Scripts: the commands of one actor, with the registers that they read and set.

ghost use Rattle.std.specs.Prelude.{◌≡◌, ◌++◌, ◌∷◌, [], OnOk, OnErr, IsTrue};

use crate::call::Call;
use crate::copied::Copied;
use crate::items::{Items, NoMemory};
use std::alloc::Global;
use std::marker::Model;

/// Numbers of registers, in order.
pub type RegList = Items<u32>;

/// Registers to read, in order.
pub type RegReadList = Items<RegRead>;

/// A handle of a call that is read from a register: `place` counts the call's handles and ids from 0,
/// in the order in which its line writes them.
#[derive(Clone, Copy, PartialEq, Eq, Debug)]
pub struct RegRead {
    pub place: u32,
    pub reg: u32,
}

/// One line of a script: its call, in which a number that is read from a register stands as
/// `INVALID_IPC_HANDLE`; the registers that it reads; and those that its answer sets.
#[derive(Debug, Drop)]
pub struct Command {
    pub call: Call,
    pub reads: RegReadList,
    pub sets: RegList,
}

impl Copied for RegRead {
    fn copied(&self) -> Result<RegRead, NoMemory> {
        Ok(*self)
    }
}

impl Copied for Command {
    fn copied(&self) -> Result<Command, NoMemory> {
        Ok(Command {
            call: self.call.copied()?,
            reads: self.reads.copied()?,
            sets: self.sets.copied()?,
        })
    }
}

/// The commands of one actor in order. Each register is below 64, and each place is one that the
/// call has.
#[derive(Debug, Drop)]
pub struct Script {
    commands: Items<Command>,
}

impl Model for Script {
    ghost use Rattle.std.specs.Prelude.{List, IsTrue};
    ghost use Rattle.std.specs.List.{list_all};
    ghost use Rattle.kernel_values.specs.declared.script.Command.{Command};
    ghost use Rattle.kernel_values.specs.Commands.{has_lawful_registers};

    ghost Value = { List Command };

    ghost view = { λ script. script.commands };

    ghost invariant = { λ script. IsTrue (list_all has_lawful_registers script.commands) };
}

impl Script {
    ghost use Rattle.kernel_values.specs.Commands.{has_lawful_registers};
    ghost use Rattle.std.specs.List.{list_all};

    /// A script without commands.
    pub fn new(alloc: Global) -> Self
        ensures { result ≡ [] }
    {
        Script {
            commands: Items::new(alloc),
        }
    }

    /// The command goes last; refused, the script stays.
    pub fn push(&mut self, command: Command) -> Result<(), NoMemory>
        requires { IsTrue (has_lawful_registers command) }
        ensures ok { OnOk result (self.new ≡ self.old ++ command ∷ []) }
        ensures err { OnErr result (self.new ≡ self.old) }
    {
        self.commands.push(command)?;
        Ok(())
    }

    pub fn as_slice(&self) -> &[Command]
        ensures commands { result.now ≡ self.now }
        ensures registers { IsTrue (list_all has_lawful_registers self.now) }
    {
        self.commands.as_slice()
    }
}

impl Copied for Script {
    fn copied(&self) -> Result<Script, NoMemory> {
        Ok(Script {
            commands: self.commands.copied()?,
        })
    }
}
