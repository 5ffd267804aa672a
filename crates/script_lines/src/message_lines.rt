//! Lines on messages.

ghost use Rattle.std.specs.Prelude.{◌≡◌, IfOk, IsTrue, map};
ghost use Rattle.script_lines.specs.Gives.{Gives};
ghost use Rattle.script_lines.specs.Calls.{is_thread_line, message_word, any_message_line, asked, send_line, get_line, read_line, put_line};

use crate::fault::LineRefused::{self, Fault};
use crate::fault::SceneKind::BadWords;
use crate::numbers::{number, number_within};
use crate::payload::bytes_word;
use crate::registers::{Registers, as_one, as_some, hand, parts};
use kernel_values::{Call, Handles};
use std::alloc::Global;

/// The lines on messages.
#[derive(Clone, Copy)]
pub enum MessageWord {
    Send,
    Get,
    Read,
    Put,
}

/// Which of these lines the word begins, if any.
#[tactic(auto, unfolding(crate::specs::Calls::message_word))]
pub fn message_word(word: &[u8]) -> Option<MessageWord>
    ensures { result ≡ message_word word.now }
{
    if word == b"send".as_slice() {
        return Some(MessageWord::Send);
    }
    if word == b"get".as_slice() {
        return Some(MessageWord::Get);
    }
    if word == b"read".as_slice() {
        return Some(MessageWord::Read);
    }
    if word == b"put".as_slice() {
        return Some(MessageWord::Put);
    }
    None
}

// `send H BYTES [H, up to 16 times]`
#[tactic(auto, unfolding(crate::specs::Calls::send_line))]
fn send_line(alloc: Global, registers: &mut Registers, words: &[&[u8]]) -> Result<Call, LineRefused>
    ensures exact { Gives (λ call. (registers.new, call)) result (send_line registers.old (map (λ word. word.now) words.now)) }
    ensures lawful { IfOk result (λ call. IsTrue (is_thread_line call)) }
{
    match words {
        [chan, bytes, handles @ ..] => {
            if handles.len() > 16 {
                return Err(Fault(BadWords));
            }
            let chan = hand(alloc, registers, 0, chan)?;
            let bytes = bytes_word(alloc, bytes)?;
            let mut sent = Handles::new(alloc);
            parts(alloc, registers, &mut sent, handles)?;
            Ok(Call::Send {
                chan,
                bytes,
                parts: sent,
            })
        }
        _ => Err(Fault(BadWords)),
    }
}

// `get H [as REG]`
#[tactic(auto, unfolding(crate::specs::Calls::get_line))]
fn get_line(alloc: Global, registers: &mut Registers, words: &[&[u8]]) -> Result<Call, LineRefused>
    ensures exact { Gives (λ call. (registers.new, call)) result (get_line registers.old (map (λ word. word.now) words.now)) }
    ensures lawful { IfOk result (λ call. IsTrue (is_thread_line call)) }
{
    match words {
        [chan, rest @ ..] => {
            let chan = hand(alloc, registers, 0, chan)?;
            as_one(alloc, registers, rest)?;
            Ok(Call::Get { chan })
        }
        _ => Err(Fault(BadWords)),
    }
}

// `OFFSET ROOM HANDLES`
#[tactic(auto, unfolding(crate::specs::Calls::asked))]
fn asked(offset: &[u8], room: &[u8], handles: &[u8]) -> Result<(u32, u32, u32), LineRefused>
    ensures { Gives (λ read. read) result (asked offset.now room.now handles.now) }
{
    let offset = number(offset)?;
    let room = number_within(0, 4096, room)?;
    let handles = number(handles)?;
    Ok((offset, room, handles))
}

// `read H ID OFFSET ROOM HANDLES [as REG, up to 8 times]`
#[tactic(auto, unfolding(crate::specs::Calls::read_line))]
fn read_line(alloc: Global, registers: &mut Registers, words: &[&[u8]]) -> Result<Call, LineRefused>
    ensures exact { Gives (λ call. (registers.new, call)) result (read_line registers.old (map (λ word. word.now) words.now)) }
    ensures lawful { IfOk result (λ call. IsTrue (is_thread_line call)) }
{
    match words {
        [chan, id, offset, room, handles, rest @ ..] => {
            let chan = hand(alloc, registers, 0, chan)?;
            let id = hand(alloc, registers, 1, id)?;
            let (offset, room, handles) = asked(offset, room, handles)?;
            as_some(alloc, registers, rest)?;
            Ok(Call::Read {
                chan,
                id,
                offset,
                room,
                parts: handles,
            })
        }
        _ => Err(Fault(BadWords)),
    }
}

// `put H ID`
#[tactic(auto, unfolding(crate::specs::Calls::put_line))]
fn put_line(alloc: Global, registers: &mut Registers, words: &[&[u8]]) -> Result<Call, LineRefused>
    ensures exact { Gives (λ call. (registers.new, call)) result (put_line registers.old (map (λ word. word.now) words.now)) }
    ensures lawful { IfOk result (λ call. IsTrue (is_thread_line call)) }
{
    match words {
        [chan, id] => {
            let chan = hand(alloc, registers, 0, chan)?;
            let id = hand(alloc, registers, 1, id)?;
            Ok(Call::Put { chan, id })
        }
        _ => Err(Fault(BadWords)),
    }
}

/// What the line with this first word calls.
#[tactic(auto, unfolding(crate::specs::Calls::any_message_line))]
pub fn any_message_line(
    alloc: Global,
    registers: &mut Registers,
    word: MessageWord,
    words: &[&[u8]],
) -> Result<Call, LineRefused>
    ensures exact { Gives (λ call. (registers.new, call)) result (any_message_line registers.old word (map (λ word. word.now) words.now)) }
    ensures lawful { IfOk result (λ call. IsTrue (is_thread_line call)) }
{
    match word {
        MessageWord::Send => send_line(alloc, registers, words),
        MessageWord::Get => get_line(alloc, registers, words),
        MessageWord::Read => read_line(alloc, registers, words),
        MessageWord::Put => put_line(alloc, registers, words),
    }
}
