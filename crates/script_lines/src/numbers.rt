//! Words that are numbers, flags, times or names.

ghost use Rattle.std.specs.Prelude.{◌≡◌, ◌≤◌, IfOk, IsTrue, nat_lt};
ghost use Rattle.std.specs.List.{list_all};
ghost use Rattle.kernel_values.specs.Words.{is_word, is_name, is_letter, is_name_byte, is_printable};
ghost use Rattle.script_lines.specs.Gives.{Gives};
ghost use Rattle.script_lines.specs.Numbers.{is_digit, is_number, number, cookie, number_within, mask, timeout_word, path_word, port_flags, connect_flags, mem_flags};

use crate::fault::LineRefused::{self, Fault};
use crate::fault::SceneKind::BadWords;
use kernel_values::{Bytes, ConnectFlags, Events, MemFlags, PortFlags, Timeout};
use std::alloc::Global;
use std::str;

fn is_digit(byte: u8) -> bool
    ensures { result ≡ is_digit byte }
{
    b'0' <= byte && byte <= b'9'
}

fn are_digits(word: &[u8]) -> bool
    ensures { result ≡ list_all is_digit word.now }
{
    word.iter().all(|byte| is_digit(*byte))
}

// Whether the word is digits, at least one and at most so many.
fn is_number(word: &[u8], most: usize) -> bool
    ensures { result ≡ is_number most word.now }
{
    !word.is_empty() && word.len() <= most && are_digits(word)
}

/// A number of at most 20 digits that fits 64 bits.
#[tactic(auto, unfolding(crate::specs::Numbers::number_below))]
pub fn cookie(word: &[u8]) -> Result<u64, LineRefused>
    ensures { Gives (λ n. n) result (cookie word.now) }
{
    if !is_number(word, 20) {
        return Err(Fault(BadWords));
    }
    let Ok(text) = str::from_utf8(word) else {
        return Err(Fault(BadWords));
    };
    match text.parse::<u64>() {
        Ok(number) => Ok(number),
        Err(_) => Err(Fault(BadWords)),
    }
}

/// A number of at most 10 digits that fits 32 bits.
#[tactic(auto, unfolding(crate::specs::Numbers::number_below))]
pub fn number(word: &[u8]) -> Result<u32, LineRefused>
    ensures { Gives (λ n. n) result (number word.now) }
{
    if !is_number(word, 10) {
        return Err(Fault(BadWords));
    }
    let Ok(text) = str::from_utf8(word) else {
        return Err(Fault(BadWords));
    };
    match text.parse::<u32>() {
        Ok(number) => Ok(number),
        Err(_) => Err(Fault(BadWords)),
    }
}

/// A number within both bounds.
#[tactic(auto, unfolding(crate::specs::Numbers::number_within))]
pub fn number_within(least: u32, most: u32, word: &[u8]) -> Result<u32, LineRefused>
    ensures exact { Gives (λ n. n) result (number_within least most word.now) }
    ensures within { IfOk result (λ n. (least ≤ n) × (n ≤ most)) }
{
    let n = number(word)?;
    if least <= n && n <= most {
        return Ok(n);
    }
    Err(Fault(BadWords))
}

/// The events of a mask, from 0 to 31.
#[tactic(auto, unfolding(crate::specs::Numbers::mask))]
pub fn mask(word: &[u8]) -> Result<Events, LineRefused>
    ensures exact { Gives (λ events. events) result (mask word.now) }
    ensures lawful { IfOk result (λ events. IsTrue (nat_lt events.0 32)) }
{
    let bits = number_within(0, 31, word)?;
    Ok(Events(bits))
}

/// `-1` is for ever.
#[tactic(auto, unfolding(crate::specs::Numbers::timeout_word))]
pub fn timeout_word(word: &[u8]) -> Result<Timeout, LineRefused>
    ensures { Gives (λ timeout. timeout) result (timeout_word word.now) }
{
    if word == b"-1".as_slice() {
        return Ok(Timeout::Forever);
    }
    let millis = number(word)?;
    Ok(Timeout::Millis(millis))
}

fn is_printable(byte: u8) -> bool
    ensures { result ≡ is_printable byte }
{
    0x21 <= byte && byte <= 0x7e
}

fn are_printable(word: &[u8]) -> bool
    ensures { result ≡ list_all is_printable word.now }
{
    word.iter().all(|byte| is_printable(*byte))
}

fn is_word(word: &[u8]) -> bool
    ensures { result ≡ is_word word.now }
{
    match word {
        [] => false,
        [_, ..] => are_printable(word),
    }
}

/// Any word of printable bytes.
#[tactic(auto, unfolding(crate::specs::Numbers::path_word))]
pub fn path_word(alloc: Global, word: &[u8]) -> Result<Bytes, LineRefused>
    ensures exact { Gives (λ path. path) result (path_word word.now) }
    ensures lawful { IfOk result (λ path. IsTrue (is_word path)) }
{
    if !is_word(word) {
        return Err(Fault(BadWords));
    }
    Ok(Bytes::from_slice(alloc, word)?)
}

fn is_letter(byte: u8) -> bool
    ensures { result ≡ is_letter byte }
{
    b'a' <= byte && byte <= b'z'
}

fn is_name_byte(byte: u8) -> bool
    ensures { result ≡ is_name_byte byte }
{
    is_letter(byte) || (b'0' <= byte && byte <= b'9') || byte == b'_'
}

fn are_name_bytes(word: &[u8]) -> bool
    ensures { result ≡ list_all is_name_byte word.now }
{
    word.iter().all(|byte| is_name_byte(*byte))
}

/// The name of an application or a register.
pub fn is_name(word: &[u8]) -> bool
    ensures { result ≡ is_name word.now }
{
    match word {
        [] => false,
        [first, rest @ ..] => { is_letter(*first) && are_name_bytes(rest) && rest.len() < 16 }
    }
}

/// The flags of a port: `none`, `ta`, `ns` or `ta+ns`.
#[tactic(auto, unfolding(crate::specs::Numbers::port_flags))]
pub fn port_flags(word: &[u8]) -> Result<PortFlags, LineRefused>
    ensures exact { Gives (λ flags. flags) result (port_flags word.now) }
    ensures lawful { IfOk result (λ flags. IsTrue (nat_lt flags.0 4)) }
{
    if word == b"none".as_slice() {
        return Ok(PortFlags(0));
    }
    if word == b"ta".as_slice() {
        return Ok(PortFlags(1));
    }
    if word == b"ns".as_slice() {
        return Ok(PortFlags(2));
    }
    if word == b"ta+ns".as_slice() {
        return Ok(PortFlags(3));
    }
    Err(Fault(BadWords))
}

/// The flags of a connect: `sync`, `async`, `sync+wait` or `async+wait`.
#[tactic(auto, unfolding(crate::specs::Numbers::connect_flags))]
pub fn connect_flags(word: &[u8]) -> Result<ConnectFlags, LineRefused>
    ensures exact { Gives (λ flags. flags) result (connect_flags word.now) }
    ensures lawful { IfOk result (λ flags. IsTrue (nat_lt flags.0 4)) }
{
    if word == b"sync".as_slice() {
        return Ok(ConnectFlags(0));
    }
    if word == b"sync+wait".as_slice() {
        return Ok(ConnectFlags(1));
    }
    if word == b"async".as_slice() {
        return Ok(ConnectFlags(2));
    }
    if word == b"async+wait".as_slice() {
        return Ok(ConnectFlags(3));
    }
    Err(Fault(BadWords))
}

/// The flags of a memory reference: `r` or `rw`.
#[tactic(auto, unfolding(crate::specs::Numbers::mem_flags))]
pub fn mem_flags(word: &[u8]) -> Result<MemFlags, LineRefused>
    ensures exact { Gives (λ flags. flags) result (mem_flags word.now) }
    ensures lawful { IfOk result (λ flags. IsTrue (nat_lt flags.0 2)) }
{
    if word == b"r".as_slice() {
        return Ok(MemFlags(0));
    }
    if word == b"rw".as_slice() {
        return Ok(MemFlags(1));
    }
    Err(Fault(BadWords))
}
