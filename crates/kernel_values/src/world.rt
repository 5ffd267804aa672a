//! The normal world in the state of the model: guest memory, the device of the bridge, the driver and its clients.
//! Entries of the bridge stand in rising order of their secure addresses, refusals with the oldest first,
//! connections and clients in the order of their numbers, and messages of an inbox with the oldest first.

use crate::items::{Bytes, Items};
use virtqueue::Queue;

/// The normal world: the memory that it shares with the device, the device, the driver and the clients.
#[derive(Debug, Drop)]
pub struct World {
    /// 1,048,576 bytes.
    pub memory: Bytes,
    pub device: Device,
    pub driver: Driver,
    pub clients: Items<ClientState>,
}

/// The device of the bridge, as it stands in the secure world.
#[derive(Debug, Drop)]
pub struct Device {
    /// Queue 0, whose buffers the device writes.
    pub to_normal: Queue,
    /// Queue 1, whose buffers the device reads.
    pub from_normal: Queue,
    /// At most 64.
    pub entries: Items<BridgeEntry>,
    /// At most 64 answers to requests that were refused.
    pub refusals: Items<Refusal>,
    /// Whether GO_ONLINE went out.
    pub online: bool,
    pub broken: bool,
}

/// A connection as the device keeps it. It names its end.
#[derive(Clone, Copy, PartialEq, Eq, Debug)]
pub struct BridgeEntry {
    /// The device's address of the connection: 1,000 and a place below 64.
    pub secure: u32,
    /// The driver's address of the connection.
    pub normal: u32,
    pub end: u64,
    /// Whether the request was answered.
    pub answered: bool,
}

/// The answer to a refused request, which is to go out: the address that asked, and why it was refused.
#[derive(Clone, Copy, PartialEq, Eq, Debug)]
pub struct Refusal {
    pub target: u32,
    pub status: u32,
}

/// The normal world's driver.
#[derive(Debug, Drop)]
pub struct Driver {
    /// The size of both queues.
    pub size: u32,
    /// The used index of queue 0 up to which the driver looked.
    pub seen_to_normal: u16,
    /// The same of queue 1.
    pub seen_from_normal: u16,
    /// The descriptors of queue 1 that no frame stands in, in rising order.
    pub free: Items<u32>,
    pub connections: Items<Connection>,
}

/// A connection as the driver keeps it.
#[derive(Debug, Drop)]
pub struct Connection {
    /// 1,024 and the number of connections before it.
    pub address: u32,
    /// The client that made it, by its number among the clients.
    pub client: u32,
    pub status: ConnectionStatus,
    pub inbox: Items<Bytes>,
}

/// How far a connection has come.
#[derive(Clone, Copy, PartialEq, Eq, Debug)]
pub enum ConnectionStatus {
    /// No answer came yet.
    Asked,
    /// The device's address of it, and the most bytes that a message may have.
    Established { remote: u32, size: u32 },
    /// Refused, with the number of the error.
    Denied { status: u32 },
    /// Ended by one of the two sides.
    Shut,
}

/// A client of the normal world.
#[derive(Debug, Drop)]
pub struct ClientState {
    pub activity: ClientActivity,
}

/// What a client does, with its wait where it waits. `start` is always 1: a client is started once.
#[derive(Clone, Copy, PartialEq, Eq, Debug)]
pub enum ClientActivity {
    Running { start: u32 },
    Waiting { start: u32, wait: ClientWait },
    Ended { start: u32 },
}

/// What a client waits for, until when on the kernel's clock, and whether the wait was cancelled.
#[derive(Clone, Copy, PartialEq, Eq, Debug)]
pub struct ClientWait {
    pub on: ClientWaitOn,
    pub deadline: Option<u64>,
    pub cancelled: bool,
}

/// What is waited for, with the address of the connection.
#[derive(Clone, Copy, PartialEq, Eq, Debug)]
pub enum ClientWaitOn {
    /// The answer to the request for the connection.
    Connect { conn: u32 },
    /// A message.
    Receive { conn: u32 },
}
