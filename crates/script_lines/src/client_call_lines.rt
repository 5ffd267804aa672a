//! The lines of a client's script.

ghost use Rattle.std.specs.Prelude.{◌≡◌, IfOk, IsTrue, map};
ghost use Rattle.script_lines.specs.Gives.{Gives};
ghost use Rattle.script_lines.specs.ClientCalls.{is_client_line, nconnect_line, nsend_line, nrecv_line, nclose_line, npoke_line, nkick_line, client_call_line, client_command_line};

use crate::fault::LineRefused::{self, Fault};
use crate::fault::SceneKind::BadWords;
use crate::numbers::{number, path_word, timeout_word};
use crate::payload::bytes_word;
use crate::registers::{Registers, as_one, hand};
use crate::words::ClientWord;
use kernel_values::{Bytes, Call, Command, Items, RegList, RegReadList};
use std::alloc::Global;

// `nconnect PATH [as REG]`
#[tactic(auto, unfolding(crate::specs::ClientCalls::nconnect_line))]
fn nconnect_line(
    alloc: Global,
    registers: &mut Registers,
    words: &[&[u8]],
) -> Result<Call, LineRefused>
    ensures exact { Gives (λ call. (registers.new, call)) result (nconnect_line registers.old (map (λ word. word.now) words.now)) }
    ensures lawful { IfOk result (λ call. IsTrue (is_client_line call)) }
{
    match words {
        [path, rest @ ..] => {
            let path = path_word(alloc, path)?;
            as_one(alloc, registers, rest)?;
            Ok(Call::NsConnect { path })
        }
        _ => Err(Fault(BadWords)),
    }
}

// `nsend H BYTES`
#[tactic(auto, unfolding(crate::specs::ClientCalls::nsend_line))]
fn nsend_line(
    alloc: Global,
    registers: &mut Registers,
    words: &[&[u8]],
) -> Result<Call, LineRefused>
    ensures exact { Gives (λ call. (registers.new, call)) result (nsend_line registers.old (map (λ word. word.now) words.now)) }
    ensures lawful { IfOk result (λ call. IsTrue (is_client_line call)) }
{
    match words {
        [conn, bytes] => {
            let conn = hand(alloc, registers, 0, conn)?;
            let bytes = bytes_word(alloc, bytes)?;
            Ok(Call::NsSend { conn, bytes })
        }
        _ => Err(Fault(BadWords)),
    }
}

// `nrecv H TIMEOUT`
#[tactic(auto, unfolding(crate::specs::ClientCalls::nrecv_line))]
fn nrecv_line(
    alloc: Global,
    registers: &mut Registers,
    words: &[&[u8]],
) -> Result<Call, LineRefused>
    ensures exact { Gives (λ call. (registers.new, call)) result (nrecv_line registers.old (map (λ word. word.now) words.now)) }
    ensures lawful { IfOk result (λ call. IsTrue (is_client_line call)) }
{
    match words {
        [conn, timeout] => {
            let conn = hand(alloc, registers, 0, conn)?;
            let timeout = timeout_word(timeout)?;
            Ok(Call::NsRecv { conn, timeout })
        }
        _ => Err(Fault(BadWords)),
    }
}

// `nclose H`
#[tactic(auto, unfolding(crate::specs::ClientCalls::nclose_line))]
fn nclose_line(
    alloc: Global,
    registers: &mut Registers,
    words: &[&[u8]],
) -> Result<Call, LineRefused>
    ensures exact { Gives (λ call. (registers.new, call)) result (nclose_line registers.old (map (λ word. word.now) words.now)) }
    ensures lawful { IfOk result (λ call. IsTrue (is_client_line call)) }
{
    match words {
        [conn] => {
            let conn = hand(alloc, registers, 0, conn)?;
            Ok(Call::NsClose { conn })
        }
        _ => Err(Fault(BadWords)),
    }
}

// `npoke ADDR BYTES`
#[tactic(auto, unfolding(crate::specs::ClientCalls::npoke_line))]
fn npoke_line(
    alloc: Global,
    registers: &mut Registers,
    words: &[&[u8]],
) -> Result<Call, LineRefused>
    ensures exact { Gives (λ call. (registers.new, call)) result (npoke_line registers.old (map (λ word. word.now) words.now)) }
    ensures lawful { IfOk result (λ call. IsTrue (is_client_line call)) }
{
    match words {
        [addr, bytes] => {
            let addr = number(addr)?;
            let bytes = bytes_word(alloc, bytes)?;
            Ok(Call::NsPoke { addr, bytes })
        }
        _ => Err(Fault(BadWords)),
    }
}

// `nkick QUEUE HEAD`
#[tactic(auto, unfolding(crate::specs::ClientCalls::nkick_line))]
fn nkick_line(registers: &mut Registers, words: &[&[u8]]) -> Result<Call, LineRefused>
    ensures exact { Gives (λ call. (registers.new, call)) result (nkick_line registers.old (map (λ word. word.now) words.now)) }
    ensures lawful { IfOk result (λ call. IsTrue (is_client_line call)) }
{
    match words {
        [queue, head] => {
            let queue = number(queue)?;
            let head = number(head)?;
            Ok(Call::NsKick { queue, head })
        }
        _ => Err(Fault(BadWords)),
    }
}

// What the line with this first word calls.
#[tactic(auto, unfolding(crate::specs::ClientCalls::client_call_line))]
fn client_call_line(
    alloc: Global,
    registers: &mut Registers,
    word: ClientWord,
    words: &[&[u8]],
) -> Result<Call, LineRefused>
    ensures exact { Gives (λ call. (registers.new, call)) result (client_call_line registers.old word (map (λ word. word.now) words.now)) }
    ensures lawful { IfOk result (λ call. IsTrue (is_client_line call)) }
{
    match word {
        ClientWord::Connect => nconnect_line(alloc, registers, words),
        ClientWord::Send => nsend_line(alloc, registers, words),
        ClientWord::Recv => nrecv_line(alloc, registers, words),
        ClientWord::Close => nclose_line(alloc, registers, words),
        ClientWord::Poke => npoke_line(alloc, registers, words),
        ClientWord::Kick => nkick_line(registers, words),
    }
}

/// The line's command, and the names of the script's registers after it.
#[tactic(auto, unfolding(crate::specs::ClientCalls::client_command_line))]
pub fn client_command_line(
    alloc: Global,
    names: Items<Bytes>,
    word: ClientWord,
    words: &[&[u8]],
) -> Result<(Items<Bytes>, Command), LineRefused>
    ensures exact { Gives (λ read. read) result (client_command_line names word (map (λ word. word.now) words.now)) }
    ensures lawful { IfOk result (λ read. IsTrue (is_client_line read.1.call)) }
{
    let mut registers = Registers {
        names,
        reads: RegReadList::new(alloc),
        sets: RegList::new(alloc),
    };
    let call = client_call_line(alloc, &mut registers, word, words)?;
    let Registers { names, reads, sets } = registers;
    Ok((names, Command { call, reads, sets }))
}
