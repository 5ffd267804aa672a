//! The connections of the driver, and what frames make of them.

ghost use Rattle.std.specs.Prelude.{◌≡◌, OnOk, drop};
ghost use Rattle.kernel_types.specs.Drains.{connection_place, connection_changed, status_changed, answered_status, left_status, received_by, deliver_control, delivered};
ghost use Rattle.tipc_proto.specs.Controls.{control_in};

use kernel_values::{Connection, ConnectionStatus, Items, NoMemory};
use tipc_proto::{Control, control_of, frame_of};

/// The address of control messages, on both sides.
pub const CONTROL: u32 = 53;

/// The place of the connection with this address; past the end where there is none.
pub fn place_of(connections: &[Connection], address: u32) -> usize
    ensures { result ≡ connection_place connections.now address }
{
    for (at, connection) in connections.iter().enumerate() {
        if connection.address == address {
            return at;
        }
    }
    connections.len()
}

/// The status after an answer of the device: `number` is 0, or that of an error.
pub fn answered(before: ConnectionStatus, number: u32, remote: u32, size: u32) -> ConnectionStatus
    ensures { result ≡ answered_status number remote size before }
{
    match before {
        ConnectionStatus::Asked => {
            if number == 0 {
                ConnectionStatus::Established { remote, size }
            } else {
                ConnectionStatus::Denied { status: number }
            }
        }
        other => other,
    }
}

/// The status after the device ended the connection.
pub fn left(before: ConnectionStatus) -> ConnectionStatus
    ensures { result ≡ left_status before }
{
    match before {
        ConnectionStatus::Established { .. } => ConnectionStatus::Shut,
        other => other,
    }
}

/// The payload of a frame; none where the frame is shorter than a header.
pub fn payload_of(frame: &[u8]) -> &[u8]
    ensures { result.now ≡ drop 16 frame.now }
{
    if frame.len() < 16 { &[] } else { &frame[16..] }
}

fn answer(connections: &mut Items<Connection>, target: u32, number: u32, remote: u32, size: u32)
    ensures { connections.new ≡ connection_changed (status_changed (answered_status number remote size)) connections.old target }
{
    let place = place_of(connections.as_slice(), target);
    if let Some(connection) = connections.get_mut(place) {
        connection.status = answered(connection.status, number, remote, size);
    }
}

fn leave(connections: &mut Items<Connection>, target: u32)
    ensures { connections.new ≡ connection_changed (status_changed left_status) connections.old target }
{
    let place = place_of(connections.as_slice(), target);
    if let Some(connection) = connections.get_mut(place) {
        connection.status = left(connection.status);
    }
}

/// Bytes go to the inbox of an established connection.
fn receive(connections: &mut Items<Connection>, address: u32, bytes: &[u8]) -> Result<(), NoMemory>
    ensures { OnOk result (connections.new ≡ connection_changed (received_by bytes.now) connections.old address) }
{
    let alloc = connections.allocator();
    let place = place_of(connections.as_slice(), address);
    if let Some(connection) = connections.get_mut(place) {
        if let ConnectionStatus::Established { .. } = connection.status {
            connection.inbox.push(Items::from_slice(alloc, bytes)?)?;
        }
    }
    Ok(())
}

fn deliver_control(connections: &mut Items<Connection>, payload: &[u8])
    ensures { connections.new ≡ deliver_control connections.old (control_in payload.now) }
{
    match control_of(payload) {
        Ok(
            Control::ConnRsp {
                target,
                status,
                remote,
                size,
                ..
            },
        ) => answer(connections, target, status, remote, size),
        Ok(Control::DiscReq { target }) => leave(connections, target),
        _ => {}
    }
}

/// Delivers a frame by its receiver's address. Where none is there, or the bytes are no frame, it is dropped.
#[tactic(auto, unfolding(kernel_types::specs::Drains::delivered))]
pub fn deliver(connections: &mut Items<Connection>, frame: &[u8]) -> Result<(), NoMemory>
    ensures { OnOk result (connections.new ≡ delivered connections.old frame.now) }
{
    match frame_of(frame) {
        Ok(header) if header.dst == CONTROL => {
            deliver_control(connections, payload_of(frame));
            Ok(())
        }
        Ok(header) => Ok(receive(connections, header.dst, payload_of(frame))?),
        Err(_) => Ok(()),
    }
}
