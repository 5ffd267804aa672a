//! Copies of the connections and their messages: a call works on copies, so that refused for want of memory it leaves
//! all as it was.

ghost use Rattle.std.specs.Prelude.{◌≡◌, IfOk};

use kernel_values::{Bytes, Connection, Items, NoMemory};
use std::alloc::Global;

/// The same bytes, copied as a whole and not one by one.
pub fn copied_bytes(alloc: Global, bytes: &Bytes) -> Result<Bytes, NoMemory>
    ensures { IfOk result (λ copy. copy ≡ bytes.now) }
{
    Items::from_slice(alloc, bytes.as_slice())
}

pub fn copied_messages(alloc: Global, messages: &[Bytes]) -> Result<Items<Bytes>, NoMemory>
    ensures { IfOk result (λ copy. copy ≡ messages.now) }
{
    let mut copy = Items::new(alloc);
    for bytes in messages {
        copy.push(copied_bytes(alloc, bytes)?)?;
    }
    Ok(copy)
}

fn copied_connection(alloc: Global, connection: &Connection) -> Result<Connection, NoMemory>
    ensures { IfOk result (λ copy. copy ≡ connection.now) }
{
    Ok(Connection {
        address: connection.address,
        client: connection.client,
        status: connection.status,
        inbox: copied_messages(alloc, connection.inbox.as_slice())?,
    })
}

pub fn copied_connections(connections: &Items<Connection>) -> Result<Items<Connection>, NoMemory>
    ensures { IfOk result (λ copy. copy ≡ connections.now) }
{
    let alloc = connections.allocator();
    let mut copy = Items::new(alloc);
    for connection in connections.as_slice() {
        copy.push(copied_connection(alloc, connection)?)?;
    }
    Ok(copy)
}
