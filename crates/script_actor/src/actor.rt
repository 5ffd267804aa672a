//! An actor at its script.

ghost use Rattle.std.specs.Prelude.{◌≡◌, IfOk, IsTrue, is_some, not};
ghost use Rattle.kernel_types.specs.Scripts.{next_call, answered, is_exit};
ghost use Rattle.script_actor.specs.Actors.{acting, answers_call};

use crate::numbers::call_of;
use crate::registers::Registers;
use kernel_values::{Answer, Call, Copied, NoMemory, Script};
use std::alloc::Global;
use std::marker::Model;

/// An actor at one start of its script. It keeps a copy of the script.
#[derive(Drop)]
pub struct Actor {
    script: Script,
    start: u32,
    // How many answers came, or past the end after an exit.
    position: usize,
    registers: Registers,
}

impl Model for Actor {
    ghost use Rattle.script_actor.specs.Actors.{Acting};

    ghost Value = { Acting };

    ghost view = { λ a. record { script = a.script; start = a.start; stand = record { position = a.position; registers = a.registers } } };
}

fn is_exit(call: &Call) -> bool
    ensures { result ≡ is_exit call.now }
{
    match call {
        Call::Exit { .. } => true,
        _ => false,
    }
}

impl Actor {
    /// An actor at the beginning of the script. The start is the number by which its application or client
    /// was started, from 1.
    #[tactic(auto, unfolding(kernel_types::specs::Scripts::script_begin))]
    pub fn new(_alloc: Global, script: &Script, start: u32) -> Result<Actor, NoMemory>
        ensures { IfOk result (λ actor. actor ≡ acting script.now start) }
    {
        Ok(Actor {
            script: script.copied()?,
            start,
            position: 0,
            registers: Registers::new(),
        })
    }

    /// The number of the start.
    pub fn start(&self) -> u32
        ensures { result ≡ self.now.start }
    {
        self.start
    }

    /// The next call: a command's, after the last one `finish`, and then none; none after an `exit` that
    /// was answered.
    #[tactic(auto, unfolding(kernel_types::specs::Scripts::next_call))]
    pub fn next(&self) -> Result<Option<Call>, NoMemory>
        ensures { IfOk result (λ call. call ≡ next_call self.now.script self.now.stand) }
    {
        let commands = self.script.as_slice();
        if let Some(command) = commands.get(self.position) {
            return Ok(Some(call_of(&self.registers, command)?));
        }
        if self.position == commands.len() {
            return Ok(Some(Call::Finish));
        }
        Ok(None)
    }

    /// Whether no call is left.
    #[tactic(auto, unfolding(kernel_types::specs::Scripts::next_call))]
    pub fn is_over(&self) -> bool
        ensures { result ≡ not (is_some (next_call self.now.script self.now.stand)) }
    {
        self.position > self.script.as_slice().len()
    }

    /// Goes on after the answer to the next call, which gives or refuses. Where no call is left, it changes
    /// nothing.
    #[tactic(auto, unfolding(kernel_types::specs::Scripts::next_call, kernel_types::specs::Scripts::answered))]
    pub fn take(&mut self, answer: &Answer)
        requires { IsTrue (answers_call answer.now) }
        ensures { self.new ≡ record self.old { stand = answered self.old.script self.old.stand answer.now } }
    {
        if self.is_over() {
            return;
        }
        self.go_on(answer);
    }

    #[tactic(auto, unfolding(kernel_types::specs::Scripts::next_call, kernel_types::specs::Scripts::answered, kernel_types::specs::Scripts::registers_after))]
    fn go_on(&mut self, answer: &Answer)
        requires called { IsTrue (is_some (next_call self.old.script self.old.stand)) }
        requires answers { IsTrue (answers_call answer.now) }
        ensures { self.new ≡ record self.old { stand = answered self.old.script self.old.stand answer.now } }
    {
        let commands = self.script.as_slice();
        let Some(command) = commands.get(self.position) else {
            self.position += 1;
            return;
        };
        if is_exit(&command.call) {
            self.position = commands.len() + 1;
            return;
        }
        self.registers.set_answered(command.sets.as_slice(), answer);
        self.position += 1;
    }
}
