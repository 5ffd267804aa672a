//! The state of the model: plain lists and numbers, in which every step of the kernel is defined.
//! Objects stand in rising order of their numbers, table entries in rising order of theirs, members
//! in their set's order, and messages in the order in which they were sent.

use crate::copied::Copied;
use crate::flags::{Events, MemFlags, PortFlags};
use crate::items::{Bytes, Items, NoMemory};
use crate::scene::Manifest;
use crate::world::World;

/// The whole state: the kernel without the normal world, and the normal world.
#[derive(Debug, Drop)]
pub struct State {
    pub core: CoreState,
    pub world: World,
}

/// The kernel without the normal world.
#[derive(Debug, Drop)]
pub struct CoreState {
    pub apps: Items<Application>,
    pub threads: Items<Thread>,
    pub objects: Items<Object>,
    /// The number that the next object gets.
    pub next: u64,
    /// In milliseconds.
    pub clock: u64,
    /// The ends that entries of the bridge name.
    pub bridged: Items<u64>,
}

/// An application: what it was registered with, how often it was started, whether it runs, its
/// handle table, and the number that its last `waitany` reported.
#[derive(Debug, Drop)]
pub struct Application {
    pub manifest: Manifest,
    pub starts: u32,
    pub running: bool,
    pub table: Items<TableEntry>,
    pub last: Option<u32>,
}

/// One number of a handle table.
#[derive(Clone, Copy, PartialEq, Eq, Debug)]
pub struct TableEntry {
    pub handle: u32,
    pub object: u64,
    pub cookie: u64,
}

/// A thread of the application `app`.
#[derive(Debug, Drop)]
pub struct Thread {
    pub app: u32,
    pub activity: Activity,
}

/// What a thread does, with its wait where it waits.
#[derive(Clone, Copy, PartialEq, Eq, Debug)]
pub enum Activity {
    Off,
    Running { start: u32 },
    Waiting { start: u32, wait: Wait },
    Ended { start: u32 },
}

/// What a thread waits for, until when on the kernel's clock, and whether the wait was cancelled.
#[derive(Clone, Copy, PartialEq, Eq, Debug)]
pub struct Wait {
    pub on: WaitOn,
    pub deadline: Option<u64>,
    pub cancelled: bool,
}

/// What is waited for.
#[derive(Clone, Copy, PartialEq, Eq, Debug)]
pub enum WaitOn {
    /// An event of an object, by the number and the cookie that stood when the wait began.
    Object {
        object: u64,
        handle: u32,
        cookie: u64,
    },
    /// The decision on a connect whose end was installed under the number `handle`.
    Connect {
        end: u64,
        handle: u32,
    },
    /// An event of any number of the application's table.
    Any,
}

/// An object with its number.
#[derive(Debug, Drop)]
pub struct Object {
    pub id: u64,
    pub body: Body,
}

/// What an object is.
#[derive(Debug, Drop)]
pub enum Body {
    Port(Port),
    End(ChannelEnd),
    Set(HandleSet),
    Memory(MemoryRef),
}

/// A published port, with the server ends that nobody accepted yet, oldest first.
#[derive(Debug, Drop)]
pub struct Port {
    pub path: Bytes,
    pub bufs: u32,
    pub size: u32,
    pub flags: PortFlags,
    pub pending: Items<u64>,
}

/// How far a channel end has come.
#[derive(Clone, Copy, PartialEq, Eq, Debug)]
pub enum EndState {
    /// No port has the path yet.
    Waiting,
    /// The server end is pending.
    Connecting,
    Connected,
    Disconnected,
}

/// Who made a connection.
#[derive(Clone, Copy, PartialEq, Eq, Debug)]
pub enum Connector {
    App(u32),
    NormalWorld,
}

/// One end of a channel, with the messages that came in, oldest first.
#[derive(Debug, Drop)]
pub struct ChannelEnd {
    pub peer: Option<u64>,
    pub state: EndState,
    /// The path that a Waiting end waits for.
    pub path: Option<Bytes>,
    /// Who made the connection, at the end that it made.
    pub client: Option<Connector>,
    pub slots: u32,
    pub size: u32,
    pub messages: Items<Message>,
    /// How many messages were sent to this end so far.
    pub sent: u32,
    pub accepted: bool,
    pub ready: bool,
    pub blocked: bool,
    pub unblocked: bool,
    pub error: bool,
}

/// A message in a queue: filled, or opened under an id.
#[derive(Debug, Drop)]
pub struct Message {
    pub seq: u32,
    pub bytes: Bytes,
    pub parts: Items<u64>,
    pub opened: Option<u32>,
}

/// A handle set.
#[derive(Debug, Drop)]
pub struct HandleSet {
    pub members: Items<Member>,
}

/// A member of a handle set: `label` is the number under which it was added.
#[derive(Clone, Copy, PartialEq, Eq, Debug)]
pub struct Member {
    pub label: u32,
    pub object: u64,
    pub mask: Events,
    pub cookie: u64,
}

/// A memory reference: its bytes, and whether they may be written.
#[derive(Debug, Drop)]
pub struct MemoryRef {
    pub bytes: Bytes,
    pub flags: MemFlags,
}

impl Copied for TableEntry {
    fn copied(&self) -> Result<TableEntry, NoMemory> {
        Ok(*self)
    }
}

impl Copied for Member {
    fn copied(&self) -> Result<Member, NoMemory> {
        Ok(*self)
    }
}

impl Copied for MemoryRef {
    fn copied(&self) -> Result<MemoryRef, NoMemory> {
        Ok(MemoryRef {
            bytes: self.bytes.copied()?,
            flags: self.flags,
        })
    }
}

impl Copied for HandleSet {
    fn copied(&self) -> Result<HandleSet, NoMemory> {
        Ok(HandleSet {
            members: self.members.copied()?,
        })
    }
}

impl Copied for Message {
    fn copied(&self) -> Result<Message, NoMemory> {
        Ok(Message {
            seq: self.seq,
            bytes: self.bytes.copied()?,
            parts: self.parts.copied()?,
            opened: self.opened,
        })
    }
}

impl Copied for ChannelEnd {
    fn copied(&self) -> Result<ChannelEnd, NoMemory> {
        let path = match &self.path {
            Some(path) => Some(path.copied()?),
            None => None,
        };
        Ok(ChannelEnd {
            peer: self.peer,
            state: self.state,
            path,
            client: self.client,
            slots: self.slots,
            size: self.size,
            messages: self.messages.copied()?,
            sent: self.sent,
            accepted: self.accepted,
            ready: self.ready,
            blocked: self.blocked,
            unblocked: self.unblocked,
            error: self.error,
        })
    }
}

impl Copied for Port {
    fn copied(&self) -> Result<Port, NoMemory> {
        Ok(Port {
            path: self.path.copied()?,
            bufs: self.bufs,
            size: self.size,
            flags: self.flags,
            pending: self.pending.copied()?,
        })
    }
}

impl Copied for Body {
    fn copied(&self) -> Result<Body, NoMemory> {
        Ok(match self {
            Body::Port(port) => Body::Port(port.copied()?),
            Body::End(end) => Body::End(end.copied()?),
            Body::Set(set) => Body::Set(set.copied()?),
            Body::Memory(memory) => Body::Memory(memory.copied()?),
        })
    }
}

impl Copied for Object {
    fn copied(&self) -> Result<Object, NoMemory> {
        Ok(Object {
            id: self.id,
            body: self.body.copied()?,
        })
    }
}

impl Copied for Thread {
    fn copied(&self) -> Result<Thread, NoMemory> {
        Ok(Thread {
            app: self.app,
            activity: self.activity,
        })
    }
}

impl Copied for Application {
    fn copied(&self) -> Result<Application, NoMemory> {
        Ok(Application {
            manifest: self.manifest.copied()?,
            starts: self.starts,
            running: self.running,
            table: self.table.copied()?,
            last: self.last,
        })
    }
}

impl Copied for CoreState {
    fn copied(&self) -> Result<CoreState, NoMemory> {
        Ok(CoreState {
            apps: self.apps.copied()?,
            threads: self.threads.copied()?,
            objects: self.objects.copied()?,
            next: self.next,
            clock: self.clock,
            bridged: self.bridged.copied()?,
        })
    }
}
