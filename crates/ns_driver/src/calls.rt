//! The calls of clients, on a driver that has drained. A call changes the driver, and says which frame goes out.

ghost use Rattle.std.specs.Prelude.{◌≡◌, ◌+◌, ◌^◌, ◌<◌, ◌≤◌, length, IfOk, IfSome};
ghost use Rattle.std.specs.Option.{option_copied};
ghost use Rattle.kernel_values.specs.declared.reply.Answer.TheVariants as answer;
ghost use Rattle.kernel_types.specs.Drains.{connection_of};
ghost use Rattle.kernel_types.specs.Clients.{own_connection, first_address, ns_connect_call, ns_send_call, send_established};
ghost use Rattle.ns_driver.specs.Plans.{outcome, outcome_of, alone, rest_of, oldest_of};

use crate::connections::place_of;
use crate::copies::{copied_bytes, copied_messages};
use crate::frames::{frame, request_frame};
use kernel_values::{
    Answer, Bytes, Connection, ConnectionStatus, Driver as DriverState, Errno, Items, NoMemory,
    Reply,
};
use tipc_proto::PathName;

/// The address of the first connection. The others follow one by one.
pub const FIRST_ADDRESS: u32 = 1024;
/// The most bytes that a client may send at once, whatever the connection takes.
const SEND_LIMIT: u32 = 4096;

/// What a call comes to.
#[derive(Drop)]
pub struct Planned {
    pub answer: Answer,
    /// The frame that goes out in the buffer of the least free descriptor.
    pub frame: Option<Bytes>,
}

pub fn gives(reply: Reply) -> Planned
    ensures { result ≡ record { answer = answer.Gives reply; frame = None } }
{
    Planned {
        answer: Answer::Gives(reply),
        frame: None,
    }
}

pub fn refuses(errno: Errno) -> Planned
    ensures { result ≡ record { answer = answer.Refuses errno; frame = None } }
{
    Planned {
        answer: Answer::Refuses(errno),
        frame: None,
    }
}

/// The connection with this address.
pub fn find_connection(driver: &DriverState, conn: u32) -> Option<&Connection>
    ensures { option_copied result ≡ connection_of driver.now.connections conn }
{
    let connections = driver.connections.as_slice();
    connections.get(place_of(connections, conn))
}

/// The connection with this address, where it is this client's.
pub fn own_connection(driver: &DriverState, client: u32, conn: u32) -> Option<&Connection>
    ensures { option_copied result ≡ own_connection client conn (alone driver.now) }
{
    match find_connection(driver, conn) {
        Some(connection) if connection.client == client => Some(connection),
        _ => None,
    }
}

/// The free descriptors without the least one.
pub fn rest_of(free: &Items<u32>) -> Result<Option<Items<u32>>, NoMemory>
    ensures { IfOk result (λ rest. rest ≡ rest_of free.now) }
{
    match free.as_slice() {
        [] => Ok(None),
        [_, rest @ ..] => Ok(Some(Items::from_slice(free.allocator(), rest)?)),
    }
}

/// The oldest message of an inbox, and what is left then.
pub fn oldest_of(inbox: &Items<Bytes>) -> Result<Option<(Bytes, Items<Bytes>)>, NoMemory>
    ensures { IfOk result (λ oldest. oldest ≡ oldest_of inbox.now) }
{
    match inbox.as_slice() {
        [] => Ok(None),
        [first, rest @ ..] => {
            let alloc = inbox.allocator();
            Ok(Some((copied_bytes(alloc, first)?, copied_messages(alloc, rest)?)))
        }
    }
}

/// A connection is asked for, and the call waits for the answer.
#[tactic(auto, unfolding(kernel_types::specs::Clients::ns_connect_call, kernel_types::specs::Clients::send_frame))]
pub fn connect(driver: &mut DriverState, client: u32, path: &[u8]) -> Result<Planned, NoMemory>
    requires { first_address + length driver.old.connections < 2 ^ 32 }
    ensures done { IfOk result (λ p. outcome p.answer p.frame driver.new ≡ outcome_of (ns_connect_call client path.now (alone driver.old))) }
    ensures short { IfOk result (λ p. IfSome p.frame (λ frame. length frame ≤ 4112)) }
{
    let Some(path) = PathName::of(path) else {
        return Ok(refuses(Errno::InvalidArgs));
    };
    let Some(rest) = rest_of(&driver.free)? else {
        return Ok(refuses(Errno::NotEnoughBuffer));
    };
    let alloc = driver.free.allocator();
    let address = FIRST_ADDRESS + driver.connections.len() as u32;
    let frame = request_frame(alloc, address, path)?;
    driver.connections.push(Connection {
        address,
        client,
        status: ConnectionStatus::Asked,
        inbox: Items::new(alloc),
    })?;
    driver.free = rest;
    Ok(Planned {
        answer: Answer::Waits,
        frame: Some(frame),
    })
}

#[tactic(auto, unfolding(kernel_types::specs::Clients::send_frame))]
fn send_established(
    driver: &mut DriverState,
    address: u32,
    remote: u32,
    size: u32,
    bytes: &[u8],
) -> Result<Planned, NoMemory>
    ensures done { IfOk result (λ p. outcome p.answer p.frame driver.new ≡ outcome_of (send_established address remote size bytes.now (alone driver.old))) }
    ensures short { IfOk result (λ p. IfSome p.frame (λ frame. length frame ≤ 4112)) }
{
    if (size.min(SEND_LIMIT) as usize) < bytes.len() {
        return Ok(refuses(Errno::TooBig));
    }
    let Some(rest) = rest_of(&driver.free)? else {
        return Ok(refuses(Errno::NotEnoughBuffer));
    };
    let frame = frame(driver.free.allocator(), address, remote, bytes)?;
    driver.free = rest;
    Ok(Planned {
        answer: Answer::Gives(Reply::Count(bytes.len() as u32)),
        frame: Some(frame),
    })
}

/// Bytes go to the device's address of the connection.
#[tactic(auto, unfolding(kernel_types::specs::Clients::ns_send_call))]
pub fn send(
    driver: &mut DriverState,
    client: u32,
    conn: u32,
    bytes: &[u8],
) -> Result<Planned, NoMemory>
    ensures done { IfOk result (λ p. outcome p.answer p.frame driver.new ≡ outcome_of (ns_send_call client conn bytes.now (alone driver.old))) }
    ensures short { IfOk result (λ p. IfSome p.frame (λ frame. length frame ≤ 4112)) }
{
    let Some(connection) = own_connection(driver, client, conn) else {
        return Ok(refuses(Errno::BadHandle));
    };
    let address = connection.address;
    match connection.status {
        ConnectionStatus::Asked => Ok(refuses(Errno::NotReady)),
        ConnectionStatus::Established { remote, size } => {
            send_established(driver, address, remote, size, bytes)
        }
        _ => Ok(refuses(Errno::ChannelClosed)),
    }
}
