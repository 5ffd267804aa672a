//! The lines of a thread's script.

ghost use Rattle.std.specs.Prelude.{◌≡◌, IfOk, IsTrue, map};
ghost use Rattle.script_lines.specs.Gives.{Gives};
ghost use Rattle.script_lines.specs.Calls.{is_thread_line, call_line, command_line};

use crate::command_lines::any_port_line;
use crate::fault::LineRefused;
use crate::handle_lines::any_handle_line;
use crate::memory_lines::any_memory_line;
use crate::message_lines::any_message_line;
use crate::registers::Registers;
use crate::words::CallWord;
use kernel_values::{Bytes, Call, Command, Items, RegList, RegReadList};
use std::alloc::Global;

// What the line with this first word calls.
#[tactic(auto, unfolding(crate::specs::Calls::call_line))]
fn call_line(
    alloc: Global,
    registers: &mut Registers,
    word: CallWord,
    words: &[&[u8]],
) -> Result<Call, LineRefused>
    ensures exact { Gives (λ call. (registers.new, call)) result (call_line registers.old word (map (λ word. word.now) words.now)) }
    ensures lawful { IfOk result (λ call. IsTrue (is_thread_line call)) }
{
    match word {
        CallWord::Port(word) => any_port_line(alloc, registers, word, words),
        CallWord::Message(word) => any_message_line(alloc, registers, word, words),
        CallWord::Handle(word) => any_handle_line(alloc, registers, word, words),
        CallWord::Memory(word) => any_memory_line(alloc, registers, word, words),
    }
}

/// The line's command, and the names of the script's registers after it.
#[tactic(auto, unfolding(crate::specs::Calls::command_line))]
pub fn command_line(
    alloc: Global,
    names: Items<Bytes>,
    word: CallWord,
    words: &[&[u8]],
) -> Result<(Items<Bytes>, Command), LineRefused>
    ensures exact { Gives (λ read. read) result (command_line names word (map (λ word. word.now) words.now)) }
    ensures lawful { IfOk result (λ read. IsTrue (is_thread_line read.1.call)) }
{
    let mut registers = Registers {
        names,
        reads: RegReadList::new(alloc),
        sets: RegList::new(alloc),
    };
    let call = call_line(alloc, &mut registers, word, words)?;
    let Registers { names, reads, sets } = registers;
    Ok((names, Command { call, reads, sets }))
}
