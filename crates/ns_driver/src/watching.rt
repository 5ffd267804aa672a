//! Whether a wait would have an answer after a drain: a look at the frames that stand in the used ring.

ghost use Rattle.std.specs.Prelude.{◌≡◌, ◌≤◌, length, map, Some, if◌then◌else◌};
ghost use Rattle.std.specs.List.{fold};
ghost use Rattle.tipc_proto.specs.Controls.{control_in};
ghost use Rattle.kernel_types.specs.Drains.{is_readable, frame_at, readable_elements};
ghost use Rattle.kernel_values.specs.declared.world.ClientWaitOn.TheVariants as wait_on;
ghost use Rattle.ns_driver.specs.Value.{IsSound};
ghost use Rattle.ns_driver.specs.Acts.{bare, has_answer};
ghost use Rattle.ns_driver.specs.Watching.{is_established, glimpse_of, control_seen, seen};

use crate::calls::find_connection;
use crate::connections::{CONTROL, answered, left, payload_of};
use crate::drain::{frame_at, is_readable};
use crate::inboxes::{is_asked, is_closed};
use crate::memory::ring;
use crate::used::{Element, new_count, used_element};
use kernel_values::{ClientWaitOn, Connection, ConnectionStatus, Driver as DriverState};
use tipc_proto::{Control, control_of, frame_of};
use virtqueue::MEMORY_SIZE;

/// What a wait sees of its connection.
#[derive(Clone, Copy)]
pub struct Glimpse {
    pub status: ConnectionStatus,
    pub has_message: bool,
}

fn glimpse_of(connection: &Connection) -> Glimpse
    ensures { result ≡ glimpse_of connection.now }
{
    Glimpse {
        status: connection.status,
        has_message: !connection.inbox.is_empty(),
    }
}

fn is_established(status: ConnectionStatus) -> bool
    ensures { result ≡ is_established status }
{
    matches!(status, ConnectionStatus::Established { .. })
}

fn control_seen(address: u32, before: Glimpse, payload: &[u8]) -> Glimpse
    ensures { result ≡ control_seen address (control_in payload.now) before }
{
    match control_of(payload) {
        Ok(
            Control::ConnRsp {
                target,
                status,
                remote,
                size,
                ..
            },
        ) if target == address => Glimpse {
            status: answered(before.status, status, remote, size),
            has_message: before.has_message,
        },
        Ok(Control::DiscReq { target }) if target == address => Glimpse {
            status: left(before.status),
            has_message: before.has_message,
        },
        _ => before,
    }
}

/// What is seen of the connection with this address after a frame.
#[tactic(auto, unfolding(crate::specs::Watching::seen))]
fn seen(address: u32, before: Glimpse, frame: &[u8]) -> Glimpse
    ensures { result ≡ seen address before frame.now }
{
    match frame_of(frame) {
        Ok(header) if header.dst == CONTROL => control_seen(address, before, payload_of(frame)),
        Ok(header) if header.dst == address => Glimpse {
            status: before.status,
            has_message: before.has_message || is_established(before.status),
        },
        _ => before,
    }
}

/// What is seen of it after an element of the used ring.
fn element_seen(size: u32, mem: &[u8], address: u32, before: Glimpse, element: &Element) -> Glimpse
    requires { length mem.now ≡ MEMORY_SIZE }
    ensures { result ≡ (if is_readable size element.now then seen address before (frame_at mem.now element.now) else before) }
{
    if is_readable(size, element) {
        seen(address, before, frame_at(mem, element))
    } else {
        before
    }
}

/// What is seen of the connection after all frames that stand in the used ring.
fn seen_after(driver: &DriverState, mem: &[u8], address: u32, before: Glimpse) -> Glimpse
    requires memory { length mem.now ≡ MEMORY_SIZE }
    requires sound { IsSound driver.now }
    ensures { result ≡ fold (seen address) before (map (frame_at mem.now) (readable_elements (bare mem.now driver.now))) }
{
    let q = ring(0, driver.size);
    let mut now = before;
    for k in 0..new_count(mem, &q, driver.seen_to_normal) {
        let element = used_element(mem, &q, driver.seen_to_normal.wrapping_add(k));
        now = element_seen(driver.size, mem, address, now, &element);
    }
    now
}

/// Whether a request has its answer after a drain.
fn is_connected(driver: &DriverState, mem: &[u8], conn: u32) -> bool
    requires memory { length mem.now ≡ MEMORY_SIZE }
    requires sound { IsSound driver.now }
    ensures { result ≡ has_answer (Some (wait_on.Connect conn)) (bare mem.now driver.now) }
{
    match find_connection(driver, conn) {
        Some(asked) => {
            let now = seen_after(driver, mem, conn, glimpse_of(asked));
            !is_asked(now.status)
        }
        None => false,
    }
}

/// Whether a receive has an answer after a drain.
fn has_received(driver: &DriverState, mem: &[u8], conn: u32) -> bool
    requires memory { length mem.now ≡ MEMORY_SIZE }
    requires sound { IsSound driver.now }
    ensures { result ≡ has_answer (Some (wait_on.Receive conn)) (bare mem.now driver.now) }
{
    match find_connection(driver, conn) {
        Some(connection) => {
            let now = seen_after(driver, mem, conn, glimpse_of(connection));
            now.has_message || is_closed(now.status)
        }
        None => false,
    }
}

/// Whether a wait would have an answer after a drain. No memory is taken.
pub fn has_answer(driver: &DriverState, mem: &[u8], on: ClientWaitOn) -> bool
    requires memory { length mem.now ≡ MEMORY_SIZE }
    requires sound { IsSound driver.now }
    ensures { result ≡ has_answer (Some on) (bare mem.now driver.now) }
{
    match on {
        ClientWaitOn::Connect { conn } => is_connected(driver, mem, conn),
        ClientWaitOn::Receive { conn } => has_received(driver, mem, conn),
    }
}
