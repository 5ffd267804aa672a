//! The words that begin a line.

use crate::command_lines::PortWord;
use crate::handle_lines::HandleWord;
use crate::memory_lines::MemoryWord;
use crate::message_lines::MessageWord;

/// The lines of a thread's script, by their subject.
#[derive(Clone, Copy)]
pub enum CallWord {
    Port(PortWord),
    Message(MessageWord),
    Handle(HandleWord),
    Memory(MemoryWord),
}

/// The lines of a client's script.
#[derive(Clone, Copy)]
pub enum ClientWord {
    Connect,
    Send,
    Recv,
    Close,
    Poke,
    Kick,
}

/// The lines that scripts are made of.
#[derive(Clone, Copy)]
pub enum ScriptWord {
    Thread,
    Repeat,
    End,
    Call(CallWord),
    ClientCall(ClientWord),
}

/// The lines that a scene is made of.
#[derive(Clone, Copy)]
pub enum PartWord {
    Queues,
    App,
    Client,
    Turns,
}

/// The words that begin a line.
#[derive(Clone, Copy)]
pub enum LineWord {
    Scene,
    Part(PartWord),
    Script(ScriptWord),
}
