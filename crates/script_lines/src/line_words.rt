//! Which word begins a line.

ghost use Rattle.std.specs.Prelude.{◌≡◌};
ghost use Rattle.script_lines.specs.LineWords.{part_word, structure_word, thread_word, client_word, script_word, line_word};

use crate::command_lines::port_word;
use crate::handle_lines::handle_word;
use crate::memory_lines::memory_word;
use crate::message_lines::message_word;
use crate::words::{CallWord, ClientWord, LineWord, PartWord, ScriptWord};

// What a scene is made of.
#[tactic(auto, unfolding(crate::specs::LineWords::part_word))]
fn part_word(word: &[u8]) -> Option<PartWord>
    ensures { result ≡ part_word word.now }
{
    if word == b"queues".as_slice() {
        return Some(PartWord::Queues);
    }
    if word == b"app".as_slice() {
        return Some(PartWord::App);
    }
    if word == b"client".as_slice() {
        return Some(PartWord::Client);
    }
    if word == b"turns".as_slice() {
        return Some(PartWord::Turns);
    }
    None
}

// What scripts are made of.
#[tactic(auto, unfolding(crate::specs::LineWords::structure_word))]
fn structure_word(word: &[u8]) -> Option<ScriptWord>
    ensures { result ≡ structure_word word.now }
{
    if word == b"thread".as_slice() {
        return Some(ScriptWord::Thread);
    }
    if word == b"repeat".as_slice() {
        return Some(ScriptWord::Repeat);
    }
    if word == b"end".as_slice() {
        return Some(ScriptWord::End);
    }
    None
}

// The lines of a thread's script.
#[tactic(auto, unfolding(crate::specs::LineWords::thread_word))]
fn thread_word(word: &[u8]) -> Option<CallWord>
    ensures { result ≡ thread_word word.now }
{
    if let Some(found) = port_word(word) {
        return Some(CallWord::Port(found));
    }
    if let Some(found) = message_word(word) {
        return Some(CallWord::Message(found));
    }
    if let Some(found) = handle_word(word) {
        return Some(CallWord::Handle(found));
    }
    match memory_word(word) {
        Some(found) => Some(CallWord::Memory(found)),
        None => None,
    }
}

// The lines of a client's script.
#[tactic(auto, unfolding(crate::specs::LineWords::client_word))]
fn client_word(word: &[u8]) -> Option<ClientWord>
    ensures { result ≡ client_word word.now }
{
    if word == b"nconnect".as_slice() {
        return Some(ClientWord::Connect);
    }
    if word == b"nsend".as_slice() {
        return Some(ClientWord::Send);
    }
    if word == b"nrecv".as_slice() {
        return Some(ClientWord::Recv);
    }
    if word == b"nclose".as_slice() {
        return Some(ClientWord::Close);
    }
    if word == b"npoke".as_slice() {
        return Some(ClientWord::Poke);
    }
    if word == b"nkick".as_slice() {
        return Some(ClientWord::Kick);
    }
    None
}

#[tactic(auto, unfolding(crate::specs::LineWords::script_word))]
fn script_word(word: &[u8]) -> Option<ScriptWord>
    ensures { result ≡ script_word word.now }
{
    if let Some(found) = structure_word(word) {
        return Some(found);
    }
    if let Some(found) = thread_word(word) {
        return Some(ScriptWord::Call(found));
    }
    match client_word(word) {
        Some(found) => Some(ScriptWord::ClientCall(found)),
        None => None,
    }
}

/// What the word begins, if it begins a line.
#[tactic(auto, unfolding(crate::specs::LineWords::line_word))]
pub fn line_word(word: &[u8]) -> Option<LineWord>
    ensures { result ≡ line_word word.now }
{
    if word == b"scene".as_slice() {
        return Some(LineWord::Scene);
    }
    if let Some(found) = part_word(word) {
        return Some(LineWord::Part(found));
    }
    match script_word(word) {
        Some(found) => Some(LineWord::Script(found)),
        None => None,
    }
}
