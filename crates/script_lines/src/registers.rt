//! The handles and the registers in the words of a line.

ghost use Rattle.std.specs.Prelude.{◌≡◌, bytes_eq, map};
ghost use Rattle.std.specs.List.{position};
ghost use Rattle.script_lines.specs.Gives.{Gives};
ghost use Rattle.script_lines.specs.Registers.{place_of, register, hand, with_set, with_sets, as_one, as_some, parts};

use crate::fault::LineRefused::{self, Fault};
use crate::fault::SceneKind::BadWords;
use crate::numbers::{is_name, number};
use kernel_values::{Bytes, Handles, INVALID_IPC_HANDLE, Items, RegList, RegRead, RegReadList};
use std::alloc::Global;

/// The names of a script's registers so far, the registers that a line reads, and those that its
/// answer sets.
#[derive(Drop)]
pub struct Registers {
    pub names: Items<Bytes>,
    pub reads: RegReadList,
    pub sets: RegList,
}

fn first_named(names: &Items<Bytes>, name: &[u8]) -> Option<usize>
    ensures { result ≡ position (λ other. bytes_eq other name.now) names.now }
{
    names
        .as_slice()
        .iter()
        .position(|other| other.as_slice() == name)
}

// The place of the name among the names, or their number.
fn place_of(names: &Items<Bytes>, name: &[u8]) -> usize
    ensures { result ≡ place_of names.now name.now }
{
    match first_named(names, name) {
        Some(place) => place,
        None => names.len(),
    }
}

// The number of the register with this name, which may be a new one.
#[tactic(auto, unfolding(crate::specs::Registers::register))]
fn register(alloc: Global, registers: &mut Registers, name: &[u8]) -> Result<u32, LineRefused>
    ensures { Gives (λ n. (registers.new, n)) result (register registers.old name.now) }
{
    if !is_name(name) {
        return Err(Fault(BadWords));
    }
    let place = place_of(&registers.names, name);
    let Ok(number) = u32::try_from(place) else {
        return Err(LineRefused::NoMemory);
    };
    if place == registers.names.len() {
        registers.names.push(Bytes::from_slice(alloc, name)?)?;
    }
    Ok(number)
}

/// A handle: a number, or `$` and a register, whose place among the line's handles is noted.
#[tactic(auto, unfolding(crate::specs::Registers::hand))]
pub fn hand(
    alloc: Global,
    registers: &mut Registers,
    place: u32,
    word: &[u8],
) -> Result<u32, LineRefused>
    ensures { Gives (λ n. (registers.new, n)) result (hand registers.old place word.now) }
{
    let [first, name @ ..] = word else {
        return Err(Fault(BadWords));
    };
    if *first != b'$' {
        return number(word);
    }
    let reg = register(alloc, registers, name)?;
    registers.reads.push(RegRead { place, reg })?;
    Ok(INVALID_IPC_HANDLE)
}

// The line's answer sets this register too.
#[tactic(auto, unfolding(crate::specs::Registers::with_set))]
fn with_set(alloc: Global, registers: &mut Registers, name: &[u8]) -> Result<(), LineRefused>
    ensures { Gives (λ _. registers.new) result (with_set registers.old name.now) }
{
    let reg = register(alloc, registers, name)?;
    registers.sets.push(reg)?;
    Ok(())
}

#[tactic(auto, unfolding(crate::specs::Registers::with_sets))]
fn with_sets(alloc: Global, registers: &mut Registers, names: &[&[u8]]) -> Result<(), LineRefused>
    ensures { Gives (λ _. registers.new) result (with_sets registers.old (map (λ name. name.now) names.now)) }
{
    match names {
        [] => Ok(()),
        [first, rest @ ..] => {
            with_set(alloc, registers, first)?;
            with_sets(alloc, registers, rest)
        }
    }
}

/// Nothing, or `as` and a register.
#[tactic(auto, unfolding(crate::specs::Registers::as_one))]
pub fn as_one(alloc: Global, registers: &mut Registers, words: &[&[u8]]) -> Result<(), LineRefused>
    ensures { Gives (λ _. registers.new) result (as_one registers.old (map (λ word. word.now) words.now)) }
{
    match words {
        [] => Ok(()),
        [word, name] => {
            if *word != b"as".as_slice() {
                return Err(Fault(BadWords));
            }
            with_set(alloc, registers, name)
        }
        _ => Err(Fault(BadWords)),
    }
}

/// Nothing, or `as` and 1 to 8 registers.
#[tactic(auto, unfolding(crate::specs::Registers::as_some))]
pub fn as_some(alloc: Global, registers: &mut Registers, words: &[&[u8]]) -> Result<(), LineRefused>
    ensures { Gives (λ _. registers.new) result (as_some registers.old (map (λ word. word.now) words.now)) }
{
    match words {
        [] => Ok(()),
        [_] => Err(Fault(BadWords)),
        [word, _, more @ ..] => {
            if *word != b"as".as_slice() || more.len() >= 8 {
                return Err(Fault(BadWords));
            }
            with_sets(alloc, registers, &words[1..])
        }
    }
}

/// The handles that go with a message, behind those that were read.
#[tactic(auto, unfolding(crate::specs::Registers::parts))]
pub fn parts(
    alloc: Global,
    registers: &mut Registers,
    handles: &mut Handles,
    words: &[&[u8]],
) -> Result<(), LineRefused>
    ensures { Gives (λ _. (registers.new, handles.new)) result (parts registers.old handles.old (map (λ word. word.now) words.now)) }
{
    match words {
        [] => Ok(()),
        [word, rest @ ..] => {
            let Ok(before) = u16::try_from(handles.len()) else {
                return Err(LineRefused::NoMemory);
            };
            let handle = hand(alloc, registers, u32::from(before) + 1, word)?;
            handles.push(handle)?;
            parts(alloc, registers, handles, rest)
        }
    }
}
