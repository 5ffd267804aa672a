//! The registers of a script.

ghost use Rattle.std.specs.Prelude.{◌≡◌};
ghost use Rattle.std.specs.List.{fold, zip};
ghost use Rattle.kernel_types.specs.Scripts.{empty_registers, value_in, with_register, values_of, answered_values};

use kernel_values::{Answer, INVALID_IPC_HANDLE, Reply};
use std::marker::Model;

// A script has so many registers.
const COUNT: usize = 64;

/// 64 numbers. Contracts see them in order.
#[derive(Drop)]
pub struct Registers {
    values: [u32; COUNT],
}

impl Model for Registers {
    ghost use Rattle.std.specs.Prelude.{List, ℕ};

    ghost Value = { List ℕ };

    ghost view = { λ r. r.values };
}

impl Registers {
    /// Every register is empty.
    #[tactic(auto, unfolding(kernel_types::specs::Scripts::empty_registers))]
    pub fn new() -> Registers
        ensures { result ≡ empty_registers }
    {
        Registers {
            values: [INVALID_IPC_HANDLE; COUNT],
        }
    }

    /// What the register holds; empty, the number that no handle has.
    #[tactic(auto, using(crate::proofs::Writing::value_is))]
    pub fn get(&self, number: u32) -> u32
        ensures { result ≡ value_in self.now number }
    {
        match self.values.get(number as usize) {
            Some(value) => *value,
            None => INVALID_IPC_HANDLE,
        }
    }

    // The register holds the value from now on.
    fn set(&mut self, number: u32, value: u32)
        ensures { self.new ≡ with_register self.old (number, value) }
    {
        if (number as usize) < self.values.len() {
            self.values[number as usize] = value;
        }
    }

    // The first register holds the first value from now on, and so on.
    #[tactic(auto, using(crate::proofs::Writing::zip_done))]
    fn set_all(&mut self, numbers: &[u32], values: &[u32])
        ensures { self.new ≡ fold with_register self.old (zip numbers.now values.now) }
    {
        for at in 0..numbers.len().min(values.len()) {
            self.set(numbers[at], values[at]);
        }
    }

    // A reply that names a value sets the first register, and one with handles a register for each.
    fn set_given(&mut self, numbers: &[u32], reply: &Reply)
        ensures { self.new ≡ fold with_register self.old (zip numbers.now (values_of reply.now)) }
    {
        match reply {
            Reply::Handle(handle) => self.set_all(numbers, &[*handle]),
            Reply::Accepted { handle, .. } => self.set_all(numbers, &[*handle]),
            Reply::Message { id, .. } => self.set_all(numbers, &[*id]),
            Reply::Bytes { parts, .. } => self.set_all(numbers, parts.as_slice()),
            Reply::Event { handle, .. } => self.set_all(numbers, &[*handle]),
            Reply::Conn(address) => self.set_all(numbers, &[*address]),
            Reply::Done | Reply::Count(_) => self.set_all(numbers, &[]),
        }
    }

    /// What the answer sets, by the registers after its line's `as`. A refusal sets none.
    pub fn set_answered(&mut self, numbers: &[u32], answer: &Answer)
        ensures { self.new ≡ fold with_register self.old (zip numbers.now (answered_values answer.now)) }
    {
        match answer {
            Answer::Gives(reply) => self.set_given(numbers, reply),
            Answer::Waits
            | Answer::Refuses(_)
            | Answer::Device(_)
            | Answer::Clock(_)
            | Answer::CancelAll => self.set_all(numbers, &[]),
        }
    }
}
