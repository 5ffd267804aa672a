//! What was read of a scene so far.

use kernel_values::{AppList, Bytes, ClientList, Items, Manifest, Script, ScriptList, TurnList};

/// The last application, which may still get lines: `threads` are those before its last one, whose
/// script is `script`, with the names of its registers. It has that thread from the first; a `thread`
/// line may not have come.
#[derive(Drop)]
pub struct OpenApp {
    pub name: Bytes,
    pub manifest: Manifest,
    pub threads: ScriptList,
    pub script: Script,
    pub names: Items<Bytes>,
    pub has_thread: bool,
}

/// The last client, which may still get lines, with the names of its registers.
#[derive(Drop)]
pub struct OpenClient {
    pub name: Bytes,
    pub script: Script,
    pub names: Items<Bytes>,
}

/// The repeat that began at this line: the commands that come so many times, and their payload.
/// `is_past` says that they pass a limit however often they come; then no more are kept.
#[derive(Drop)]
pub struct Repeat {
    pub line: u32,
    pub times: u32,
    pub body: Script,
    pub payload: u64,
    pub is_past: bool,
}

/// Where a line stands.
#[derive(Drop)]
pub enum Place {
    // Before the header.
    Start,
    // Before the first application and the first client.
    Outside,
    App(OpenApp),
    Repeat(OpenApp, Repeat),
    Client(OpenClient),
    ClientRepeat(OpenClient, Repeat),
    Turns(TurnList),
}

/// What the whole scene has so far: the names of its applications and of its clients, the paths of
/// start ports, and the size of the queues, if a line told it.
#[derive(Drop)]
pub struct Noted {
    pub names: Items<Bytes>,
    pub client_names: Items<Bytes>,
    pub ports: Items<Bytes>,
    pub queue: Option<u32>,
}

/// The applications and clients before the last, and what was noted of them all.
#[derive(Drop)]
pub struct Registered {
    pub apps: AppList,
    pub clients: ClientList,
    pub noted: Noted,
}

/// The commands and the bytes of payload of all scripts, repeats that are closed included.
#[derive(Clone, Copy)]
pub struct Used {
    pub commands: u64,
    pub payload: u64,
}

/// What was read so far.
#[derive(Drop)]
pub struct Reading {
    pub place: Place,
    pub before: Registered,
    pub used: Used,
}
