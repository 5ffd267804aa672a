//! The inboxes of connections: what a receive takes out, and how a connection is closed.

ghost use Rattle.std.specs.Prelude.{◌≡◌, ◌≤◌, length, Some, None, IfOk, IfSome, IfNone};
ghost use Rattle.std.specs.Option.{option_map};
ghost use Rattle.kernel_values.specs.declared.reply.Answer.TheVariants as answer;
ghost use Rattle.kernel_types.specs.Waits.{is_zero_timeout};
ghost use Rattle.kernel_types.specs.Drains.{connection_of, connection_changed};
ghost use Rattle.kernel_types.specs.Clients.{with_inbox, closed_connection, is_closed, is_asked, ns_recv_call, ns_close_call, receive_from, connect_answer, receive_answer, answer_of_wait, send_frame, shuts};
ghost use Rattle.kernel_types.specs.Sending.{leave_frame};
ghost use Rattle.ns_driver.specs.Plans.{outcome, outcome_of, resumed_there, alone};

use crate::calls::{Planned, find_connection, gives, oldest_of, own_connection, refuses, rest_of};
use crate::connections::place_of;
use crate::errors::error_of;
use crate::frames::leave_frame;
use kernel_values::{
    Answer, Bytes, ClientWaitOn, Connection, ConnectionStatus, Driver as DriverState, Errno, Items,
    NoMemory, Reply, Timeout,
};

pub fn is_asked(status: ConnectionStatus) -> bool
    ensures { result ≡ is_asked status }
{
    matches!(status, ConnectionStatus::Asked)
}

pub fn is_closed(status: ConnectionStatus) -> bool
    ensures { result ≡ is_closed status }
{
    match status {
        ConnectionStatus::Denied { .. } => true,
        ConnectionStatus::Shut => true,
        _ => false,
    }
}

fn is_zero(timeout: Timeout) -> bool
    ensures { result ≡ is_zero_timeout timeout }
{
    match timeout {
        Timeout::Forever => false,
        Timeout::Millis(millis) => millis == 0,
    }
}

fn set_inbox(connections: &mut Items<Connection>, address: u32, inbox: Items<Bytes>)
    ensures { connections.new ≡ connection_changed (with_inbox inbox) connections.old address }
{
    let place = place_of(connections.as_slice(), address);
    if let Some(connection) = connections.get_mut(place) {
        connection.inbox = inbox;
    }
}

fn shut(connections: &mut Items<Connection>, address: u32)
    ensures { connections.new ≡ connection_changed closed_connection connections.old address }
{
    let alloc = connections.allocator();
    let place = place_of(connections.as_slice(), address);
    if let Some(connection) = connections.get_mut(place) {
        connection.status = ConnectionStatus::Shut;
        connection.inbox = Items::new(alloc);
    }
}

/// What a receive on the connection with this address answers: the oldest message, or without one that the connection
/// is over; else nothing.
fn receive(driver: &mut DriverState, conn: u32) -> Result<Option<Planned>, NoMemory>
    ensures some { IfOk result (λ found. option_map (λ p. outcome p.answer p.frame driver.new) found ≡ option_map outcome_of (receive_answer (connection_of driver.old.connections conn) (alone driver.old))) }
    ensures none { IfOk result (λ found. IfNone found (driver.new ≡ driver.old)) }
    ensures quiet { IfOk result (λ found. IfSome found (λ p. p.frame ≡ None)) }
{
    let Some(connection) = find_connection(driver, conn) else {
        return Ok(None);
    };
    let address = connection.address;
    let status = connection.status;
    match oldest_of(&connection.inbox)? {
        Some((bytes, rest)) => {
            let parts = Items::new(rest.allocator());
            set_inbox(&mut driver.connections, address, rest);
            Ok(Some(gives(Reply::Bytes { bytes, parts })))
        }
        None if is_closed(status) => Ok(Some(refuses(Errno::ChannelClosed))),
        None => Ok(None),
    }
}

/// What a request for a connection answers, once it is no longer only asked for.
fn connected(driver: &DriverState, conn: u32) -> Option<Planned>
    ensures { option_map (λ p. outcome p.answer p.frame driver.now) result ≡ option_map outcome_of (connect_answer (connection_of driver.now.connections conn) (alone driver.now)) }
{
    let connection = find_connection(driver, conn)?;
    match connection.status {
        ConnectionStatus::Asked => None,
        ConnectionStatus::Denied { status } => Some(refuses(error_of(status))),
        _ => Some(gives(Reply::Conn(connection.address))),
    }
}

/// What a wait has for an answer, or nothing.
#[tactic(auto, unfolding(kernel_types::specs::Clients::answer_of_wait))]
fn answer_of_wait(driver: &mut DriverState, on: ClientWaitOn) -> Result<Option<Planned>, NoMemory>
    ensures some { IfOk result (λ found. option_map (λ p. outcome p.answer p.frame driver.new) found ≡ option_map outcome_of (answer_of_wait on (alone driver.old))) }
    ensures none { IfOk result (λ found. IfNone found (driver.new ≡ driver.old)) }
    ensures quiet { IfOk result (λ found. IfSome found (λ p. p.frame ≡ None)) }
{
    match on {
        ClientWaitOn::Connect { conn } => Ok(connected(driver, conn)),
        ClientWaitOn::Receive { conn } => Ok(receive(driver, conn)?),
    }
}

fn waits() -> Planned
    ensures { result ≡ record { answer = answer.Waits; frame = None } }
{
    Planned {
        answer: Answer::Waits,
        frame: None,
    }
}

/// The end of a wait. Where it has no answer the client still waits.
pub fn resume(driver: &mut DriverState, on: ClientWaitOn) -> Result<Planned, NoMemory>
    ensures done { IfOk result (λ p. Some (outcome p.answer p.frame driver.new) ≡ option_map outcome_of (resumed_there (Some on) (alone driver.old))) }
    ensures quiet { IfOk result (λ p. p.frame ≡ None) }
{
    match answer_of_wait(driver, on)? {
        Some(planned) => Ok(planned),
        None => Ok(waits()),
    }
}

/// The oldest message of a client's connection. Without one the call waits, unless it may not.
#[tactic(auto, unfolding(kernel_types::specs::Clients::ns_recv_call))]
pub fn recv(
    driver: &mut DriverState,
    client: u32,
    conn: u32,
    timeout: Timeout,
) -> Result<Planned, NoMemory>
    ensures done { IfOk result (λ p. outcome p.answer p.frame driver.new ≡ outcome_of (ns_recv_call 0 client conn timeout (alone driver.old))) }
    ensures quiet { IfOk result (λ p. p.frame ≡ None) }
{
    let Some(connection) = own_connection(driver, client, conn) else {
        return Ok(refuses(Errno::BadHandle));
    };
    if is_asked(connection.status) {
        return Ok(refuses(Errno::NotReady));
    }
    match receive(driver, conn)? {
        Some(planned) => Ok(planned),
        None if is_zero(timeout) => Ok(refuses(Errno::TimedOut)),
        None => Ok(waits()),
    }
}

#[tactic(auto, unfolding(kernel_types::specs::Clients::send_frame))]
fn close_established(
    driver: &mut DriverState,
    address: u32,
    remote: u32,
) -> Result<Planned, NoMemory>
    ensures done { IfOk result (λ p. outcome p.answer p.frame driver.new ≡ outcome_of (send_frame (leave_frame address remote) (shuts address) (alone driver.old))) }
    ensures short { IfOk result (λ p. IfSome p.frame (λ frame. length frame ≤ 4112)) }
{
    let Some(rest) = rest_of(&driver.free)? else {
        return Ok(refuses(Errno::NotEnoughBuffer));
    };
    let frame = leave_frame(driver.free.allocator(), address, remote)?;
    driver.free = rest;
    shut(&mut driver.connections, address);
    Ok(Planned {
        answer: Answer::Gives(Reply::Done),
        frame: Some(frame),
    })
}

/// The device is told that the connection ends, and what is left of its inbox goes.
#[tactic(auto, unfolding(kernel_types::specs::Clients::ns_close_call))]
pub fn close(driver: &mut DriverState, client: u32, conn: u32) -> Result<Planned, NoMemory>
    ensures done { IfOk result (λ p. outcome p.answer p.frame driver.new ≡ outcome_of (ns_close_call client conn (alone driver.old))) }
    ensures short { IfOk result (λ p. IfSome p.frame (λ frame. length frame ≤ 4112)) }
{
    let Some(connection) = own_connection(driver, client, conn) else {
        return Ok(refuses(Errno::BadHandle));
    };
    let address = connection.address;
    match connection.status {
        ConnectionStatus::Asked => Ok(refuses(Errno::NotReady)),
        ConnectionStatus::Established { remote, .. } => close_established(driver, address, remote),
        _ => Ok(refuses(Errno::ChannelClosed)),
    }
}
