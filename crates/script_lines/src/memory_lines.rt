//! Lines on memory references.

ghost use Rattle.std.specs.Prelude.{◌≡◌, IfOk, IsTrue, map};
ghost use Rattle.script_lines.specs.Gives.{Gives};
ghost use Rattle.script_lines.specs.Calls.{is_thread_line, memory_word, any_memory_line, memref_line, mread_line, mwrite_line};

use crate::fault::LineRefused::{self, Fault};
use crate::fault::SceneKind::BadWords;
use crate::numbers::{mem_flags, number, number_within};
use crate::payload::{MOST_BYTES, bytes_word};
use crate::registers::{Registers, as_one, hand};
use kernel_values::Call;
use std::alloc::Global;

/// The lines on memory references.
#[derive(Clone, Copy)]
pub enum MemoryWord {
    Create,
    Read,
    Write,
}

/// Which of these lines the word begins, if any.
#[tactic(auto, unfolding(crate::specs::Calls::memory_word))]
pub fn memory_word(word: &[u8]) -> Option<MemoryWord>
    ensures { result ≡ memory_word word.now }
{
    if word == b"memref".as_slice() {
        return Some(MemoryWord::Create);
    }
    if word == b"mread".as_slice() {
        return Some(MemoryWord::Read);
    }
    if word == b"mwrite".as_slice() {
        return Some(MemoryWord::Write);
    }
    None
}

// `memref SIZE FLAGS [as REG]`
#[tactic(auto, unfolding(crate::specs::Calls::memref_line))]
fn memref_line(
    alloc: Global,
    registers: &mut Registers,
    words: &[&[u8]],
) -> Result<Call, LineRefused>
    ensures exact { Gives (λ call. (registers.new, call)) result (memref_line registers.old (map (λ word. word.now) words.now)) }
    ensures lawful { IfOk result (λ call. IsTrue (is_thread_line call)) }
{
    match words {
        [size, flags, rest @ ..] => {
            let size = number(size)?;
            let flags = mem_flags(flags)?;
            as_one(alloc, registers, rest)?;
            Ok(Call::MemCreate { size, flags })
        }
        _ => Err(Fault(BadWords)),
    }
}

// `mread H OFFSET LEN`
#[tactic(auto, unfolding(crate::specs::Calls::mread_line))]
fn mread_line(
    alloc: Global,
    registers: &mut Registers,
    words: &[&[u8]],
) -> Result<Call, LineRefused>
    ensures exact { Gives (λ call. (registers.new, call)) result (mread_line registers.old (map (λ word. word.now) words.now)) }
    ensures lawful { IfOk result (λ call. IsTrue (is_thread_line call)) }
{
    match words {
        [handle, offset, len] => {
            let handle = hand(alloc, registers, 0, handle)?;
            let offset = number(offset)?;
            let len = number_within(0, MOST_BYTES, len)?;
            Ok(Call::MemRead {
                handle,
                offset,
                len,
            })
        }
        _ => Err(Fault(BadWords)),
    }
}

// `mwrite H OFFSET BYTES`
#[tactic(auto, unfolding(crate::specs::Calls::mwrite_line))]
fn mwrite_line(
    alloc: Global,
    registers: &mut Registers,
    words: &[&[u8]],
) -> Result<Call, LineRefused>
    ensures exact { Gives (λ call. (registers.new, call)) result (mwrite_line registers.old (map (λ word. word.now) words.now)) }
    ensures lawful { IfOk result (λ call. IsTrue (is_thread_line call)) }
{
    match words {
        [handle, offset, bytes] => {
            let handle = hand(alloc, registers, 0, handle)?;
            let offset = number(offset)?;
            let bytes = bytes_word(alloc, bytes)?;
            Ok(Call::MemWrite {
                handle,
                offset,
                bytes,
            })
        }
        _ => Err(Fault(BadWords)),
    }
}

/// What the line with this first word calls.
#[tactic(auto, unfolding(crate::specs::Calls::any_memory_line))]
pub fn any_memory_line(
    alloc: Global,
    registers: &mut Registers,
    word: MemoryWord,
    words: &[&[u8]],
) -> Result<Call, LineRefused>
    ensures exact { Gives (λ call. (registers.new, call)) result (any_memory_line registers.old word (map (λ word. word.now) words.now)) }
    ensures lawful { IfOk result (λ call. IsTrue (is_thread_line call)) }
{
    match word {
        MemoryWord::Create => memref_line(alloc, registers, words),
        MemoryWord::Read => mread_line(alloc, registers, words),
        MemoryWord::Write => mwrite_line(alloc, registers, words),
    }
}
