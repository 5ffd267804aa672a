//! Lines on handles and their sets.

ghost use Rattle.std.specs.Prelude.{◌≡◌, IfOk, IsTrue, map, nat_lt};
ghost use Rattle.script_lines.specs.Gives.{Gives};
ghost use Rattle.script_lines.specs.Calls.{is_thread_line, handle_word, any_handle_line, watched, cookie_line, close_line, dup_line, set_line, add_line, del_line, mod_line};

use crate::fault::LineRefused::{self, Fault};
use crate::fault::SceneKind::BadWords;
use crate::numbers::{cookie, mask};
use crate::registers::{Registers, as_one, hand};
use kernel_values::{Call, Events};
use std::alloc::Global;

/// The lines on handles and their sets.
#[derive(Clone, Copy)]
pub enum HandleWord {
    Cookie,
    Close,
    Dup,
    Set,
    Add,
    Del,
    Mod,
}

/// Which of these lines the word begins, if any.
#[tactic(auto, unfolding(crate::specs::Calls::handle_word))]
pub fn handle_word(word: &[u8]) -> Option<HandleWord>
    ensures { result ≡ handle_word word.now }
{
    if word == b"cookie".as_slice() {
        return Some(HandleWord::Cookie);
    }
    if word == b"close".as_slice() {
        return Some(HandleWord::Close);
    }
    if word == b"dup".as_slice() {
        return Some(HandleWord::Dup);
    }
    if word == b"set".as_slice() {
        return Some(HandleWord::Set);
    }
    if word == b"add".as_slice() {
        return Some(HandleWord::Add);
    }
    if word == b"del".as_slice() {
        return Some(HandleWord::Del);
    }
    if word == b"mod".as_slice() {
        return Some(HandleWord::Mod);
    }
    None
}

// `cookie H COOKIE`
#[tactic(auto, unfolding(crate::specs::Calls::cookie_line))]
fn cookie_line(
    alloc: Global,
    registers: &mut Registers,
    words: &[&[u8]],
) -> Result<Call, LineRefused>
    ensures exact { Gives (λ call. (registers.new, call)) result (cookie_line registers.old (map (λ word. word.now) words.now)) }
    ensures lawful { IfOk result (λ call. IsTrue (is_thread_line call)) }
{
    match words {
        [handle, value] => {
            let handle = hand(alloc, registers, 0, handle)?;
            let cookie = cookie(value)?;
            Ok(Call::SetCookie { handle, cookie })
        }
        _ => Err(Fault(BadWords)),
    }
}

// `close H`
#[tactic(auto, unfolding(crate::specs::Calls::close_line))]
fn close_line(
    alloc: Global,
    registers: &mut Registers,
    words: &[&[u8]],
) -> Result<Call, LineRefused>
    ensures exact { Gives (λ call. (registers.new, call)) result (close_line registers.old (map (λ word. word.now) words.now)) }
    ensures lawful { IfOk result (λ call. IsTrue (is_thread_line call)) }
{
    match words {
        [handle] => {
            let handle = hand(alloc, registers, 0, handle)?;
            Ok(Call::Close { handle })
        }
        _ => Err(Fault(BadWords)),
    }
}

// `dup H [as REG]`
#[tactic(auto, unfolding(crate::specs::Calls::dup_line))]
fn dup_line(alloc: Global, registers: &mut Registers, words: &[&[u8]]) -> Result<Call, LineRefused>
    ensures exact { Gives (λ call. (registers.new, call)) result (dup_line registers.old (map (λ word. word.now) words.now)) }
    ensures lawful { IfOk result (λ call. IsTrue (is_thread_line call)) }
{
    match words {
        [handle, rest @ ..] => {
            let handle = hand(alloc, registers, 0, handle)?;
            as_one(alloc, registers, rest)?;
            Ok(Call::Dup { handle })
        }
        _ => Err(Fault(BadWords)),
    }
}

// `set [as REG]`
#[tactic(auto, unfolding(crate::specs::Calls::set_line))]
fn set_line(alloc: Global, registers: &mut Registers, words: &[&[u8]]) -> Result<Call, LineRefused>
    ensures exact { Gives (λ call. (registers.new, call)) result (set_line registers.old (map (λ word. word.now) words.now)) }
    ensures lawful { IfOk result (λ call. IsTrue (is_thread_line call)) }
{
    as_one(alloc, registers, words)?;
    Ok(Call::SetCreate)
}

// `MASK COOKIE`
#[tactic(auto, unfolding(crate::specs::Calls::watched))]
fn watched(words: &[&[u8]]) -> Result<(Events, u64), LineRefused>
    ensures exact { Gives (λ read. read) result (watched (map (λ word. word.now) words.now)) }
    ensures lawful { IfOk result (λ read. IsTrue (nat_lt read.0.0 32)) }
{
    match words {
        [bits, value] => {
            let mask = mask(bits)?;
            let cookie = cookie(value)?;
            Ok((mask, cookie))
        }
        _ => Err(Fault(BadWords)),
    }
}

// `add H H MASK COOKIE`
#[tactic(auto, unfolding(crate::specs::Calls::add_line))]
fn add_line(alloc: Global, registers: &mut Registers, words: &[&[u8]]) -> Result<Call, LineRefused>
    ensures exact { Gives (λ call. (registers.new, call)) result (add_line registers.old (map (λ word. word.now) words.now)) }
    ensures lawful { IfOk result (λ call. IsTrue (is_thread_line call)) }
{
    match words {
        [set, handle, rest @ ..] => {
            let set = hand(alloc, registers, 0, set)?;
            let handle = hand(alloc, registers, 1, handle)?;
            let (mask, cookie) = watched(rest)?;
            Ok(Call::SetAdd {
                set,
                handle,
                mask,
                cookie,
            })
        }
        _ => Err(Fault(BadWords)),
    }
}

// `del H H`
#[tactic(auto, unfolding(crate::specs::Calls::del_line))]
fn del_line(alloc: Global, registers: &mut Registers, words: &[&[u8]]) -> Result<Call, LineRefused>
    ensures exact { Gives (λ call. (registers.new, call)) result (del_line registers.old (map (λ word. word.now) words.now)) }
    ensures lawful { IfOk result (λ call. IsTrue (is_thread_line call)) }
{
    match words {
        [set, label] => {
            let set = hand(alloc, registers, 0, set)?;
            let label = hand(alloc, registers, 1, label)?;
            Ok(Call::SetDel { set, label })
        }
        _ => Err(Fault(BadWords)),
    }
}

// `mod H H MASK COOKIE`
#[tactic(auto, unfolding(crate::specs::Calls::mod_line))]
fn mod_line(alloc: Global, registers: &mut Registers, words: &[&[u8]]) -> Result<Call, LineRefused>
    ensures exact { Gives (λ call. (registers.new, call)) result (mod_line registers.old (map (λ word. word.now) words.now)) }
    ensures lawful { IfOk result (λ call. IsTrue (is_thread_line call)) }
{
    match words {
        [set, label, rest @ ..] => {
            let set = hand(alloc, registers, 0, set)?;
            let label = hand(alloc, registers, 1, label)?;
            let (mask, cookie) = watched(rest)?;
            Ok(Call::SetMod {
                set,
                label,
                mask,
                cookie,
            })
        }
        _ => Err(Fault(BadWords)),
    }
}

/// What the line with this first word calls.
#[tactic(auto, unfolding(crate::specs::Calls::any_handle_line))]
pub fn any_handle_line(
    alloc: Global,
    registers: &mut Registers,
    word: HandleWord,
    words: &[&[u8]],
) -> Result<Call, LineRefused>
    ensures exact { Gives (λ call. (registers.new, call)) result (any_handle_line registers.old word (map (λ word. word.now) words.now)) }
    ensures lawful { IfOk result (λ call. IsTrue (is_thread_line call)) }
{
    match word {
        HandleWord::Cookie => cookie_line(alloc, registers, words),
        HandleWord::Close => close_line(alloc, registers, words),
        HandleWord::Dup => dup_line(alloc, registers, words),
        HandleWord::Set => set_line(alloc, registers, words),
        HandleWord::Add => add_line(alloc, registers, words),
        HandleWord::Del => del_line(alloc, registers, words),
        HandleWord::Mod => mod_line(alloc, registers, words),
    }
}
