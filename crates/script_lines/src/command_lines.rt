//! Lines on ports, waits and the end of an application.

ghost use Rattle.std.specs.Prelude.{◌≡◌, IfOk, IsTrue, map};
ghost use Rattle.script_lines.specs.Gives.{Gives};
ghost use Rattle.script_lines.specs.Calls.{is_thread_line, port_word, any_port_line, port_line, connect_line, accept_line, wait_line, waitany_line, exit_line};

use crate::fault::LineRefused::{self, Fault};
use crate::fault::SceneKind::BadWords;
use crate::numbers::{connect_flags, number, path_word, port_flags, timeout_word};
use crate::registers::{Registers, as_one, hand};
use kernel_values::Call;
use std::alloc::Global;

/// The lines on ports and waits, and the one that ends an application.
#[derive(Clone, Copy)]
pub enum PortWord {
    Port,
    Connect,
    Accept,
    Wait,
    WaitAny,
    Exit,
}

/// Which of these lines the word begins, if any.
#[tactic(auto, unfolding(crate::specs::Calls::port_word))]
pub fn port_word(word: &[u8]) -> Option<PortWord>
    ensures { result ≡ port_word word.now }
{
    if word == b"port".as_slice() {
        return Some(PortWord::Port);
    }
    if word == b"connect".as_slice() {
        return Some(PortWord::Connect);
    }
    if word == b"accept".as_slice() {
        return Some(PortWord::Accept);
    }
    if word == b"wait".as_slice() {
        return Some(PortWord::Wait);
    }
    if word == b"waitany".as_slice() {
        return Some(PortWord::WaitAny);
    }
    if word == b"exit".as_slice() {
        return Some(PortWord::Exit);
    }
    None
}

// `port PATH BUFS SIZE FLAGS [as REG]`
#[tactic(auto, unfolding(crate::specs::Calls::port_line))]
fn port_line(alloc: Global, registers: &mut Registers, words: &[&[u8]]) -> Result<Call, LineRefused>
    ensures exact { Gives (λ call. (registers.new, call)) result (port_line registers.old (map (λ word. word.now) words.now)) }
    ensures lawful { IfOk result (λ call. IsTrue (is_thread_line call)) }
{
    match words {
        [path, bufs, size, flags, rest @ ..] => {
            let path = path_word(alloc, path)?;
            let bufs = number(bufs)?;
            let size = number(size)?;
            let flags = port_flags(flags)?;
            as_one(alloc, registers, rest)?;
            Ok(Call::PortCreate {
                path,
                bufs,
                size,
                flags,
            })
        }
        _ => Err(Fault(BadWords)),
    }
}

// `connect PATH FLAGS [as REG]`
#[tactic(auto, unfolding(crate::specs::Calls::connect_line))]
fn connect_line(
    alloc: Global,
    registers: &mut Registers,
    words: &[&[u8]],
) -> Result<Call, LineRefused>
    ensures exact { Gives (λ call. (registers.new, call)) result (connect_line registers.old (map (λ word. word.now) words.now)) }
    ensures lawful { IfOk result (λ call. IsTrue (is_thread_line call)) }
{
    match words {
        [path, flags, rest @ ..] => {
            let path = path_word(alloc, path)?;
            let flags = connect_flags(flags)?;
            as_one(alloc, registers, rest)?;
            Ok(Call::Connect { path, flags })
        }
        _ => Err(Fault(BadWords)),
    }
}

// `accept H [as REG]`
#[tactic(auto, unfolding(crate::specs::Calls::accept_line))]
fn accept_line(
    alloc: Global,
    registers: &mut Registers,
    words: &[&[u8]],
) -> Result<Call, LineRefused>
    ensures exact { Gives (λ call. (registers.new, call)) result (accept_line registers.old (map (λ word. word.now) words.now)) }
    ensures lawful { IfOk result (λ call. IsTrue (is_thread_line call)) }
{
    match words {
        [port, rest @ ..] => {
            let port = hand(alloc, registers, 0, port)?;
            as_one(alloc, registers, rest)?;
            Ok(Call::Accept { port })
        }
        _ => Err(Fault(BadWords)),
    }
}

// `wait H TIMEOUT [as REG]`
#[tactic(auto, unfolding(crate::specs::Calls::wait_line))]
fn wait_line(alloc: Global, registers: &mut Registers, words: &[&[u8]]) -> Result<Call, LineRefused>
    ensures exact { Gives (λ call. (registers.new, call)) result (wait_line registers.old (map (λ word. word.now) words.now)) }
    ensures lawful { IfOk result (λ call. IsTrue (is_thread_line call)) }
{
    match words {
        [handle, timeout, rest @ ..] => {
            let handle = hand(alloc, registers, 0, handle)?;
            let timeout = timeout_word(timeout)?;
            as_one(alloc, registers, rest)?;
            Ok(Call::Wait { handle, timeout })
        }
        _ => Err(Fault(BadWords)),
    }
}

// `waitany TIMEOUT [as REG]`
#[tactic(auto, unfolding(crate::specs::Calls::waitany_line))]
fn waitany_line(
    alloc: Global,
    registers: &mut Registers,
    words: &[&[u8]],
) -> Result<Call, LineRefused>
    ensures exact { Gives (λ call. (registers.new, call)) result (waitany_line registers.old (map (λ word. word.now) words.now)) }
    ensures lawful { IfOk result (λ call. IsTrue (is_thread_line call)) }
{
    match words {
        [timeout, rest @ ..] => {
            let timeout = timeout_word(timeout)?;
            as_one(alloc, registers, rest)?;
            Ok(Call::WaitAny { timeout })
        }
        _ => Err(Fault(BadWords)),
    }
}

// `exit CODE`
#[tactic(auto, unfolding(crate::specs::Calls::exit_line))]
fn exit_line(alloc: Global, registers: &mut Registers, words: &[&[u8]]) -> Result<Call, LineRefused>
    ensures exact { Gives (λ call. (registers.new, call)) result (exit_line registers.old (map (λ word. word.now) words.now)) }
    ensures lawful { IfOk result (λ call. IsTrue (is_thread_line call)) }
{
    match words {
        [code] => {
            let code = number(code)?;
            Ok(Call::Exit { code })
        }
        _ => Err(Fault(BadWords)),
    }
}

/// What the line with this first word calls.
#[tactic(auto, unfolding(crate::specs::Calls::any_port_line))]
pub fn any_port_line(
    alloc: Global,
    registers: &mut Registers,
    word: PortWord,
    words: &[&[u8]],
) -> Result<Call, LineRefused>
    ensures exact { Gives (λ call. (registers.new, call)) result (any_port_line registers.old word (map (λ word. word.now) words.now)) }
    ensures lawful { IfOk result (λ call. IsTrue (is_thread_line call)) }
{
    match word {
        PortWord::Port => port_line(alloc, registers, words),
        PortWord::Connect => connect_line(alloc, registers, words),
        PortWord::Accept => accept_line(alloc, registers, words),
        PortWord::Wait => wait_line(alloc, registers, words),
        PortWord::WaitAny => waitany_line(alloc, registers, words),
        PortWord::Exit => exit_line(alloc, registers, words),
    }
}
