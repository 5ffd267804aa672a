ghost use Rattle.std.specs.Prelude.{◌≡◌, ℕ, List, length, drop, Some, IfOk, ◌++◌, ◌+◌, ◌≤◌};
ghost use Rattle.byteorder.specs.Endian.{little_bytes};
ghost use Rattle.tipc_proto.specs.declared.controls.Control.{Control};
ghost use Rattle.tipc_proto.specs.declared.controls.Control.TheVariants.{ConnReq, ConnRsp, DiscReq};
ghost use Rattle.tipc_proto.specs.declared.faults.FrameFault.TheVariants.{Name};
ghost use Rattle.tipc_proto.specs.Names.{BreaksAt};
ghost use Rattle.tipc_proto.specs.Controls.{IsControl, control_in, body_in, body_length, four_at};

use crate::faults::FrameFault;
use crate::names::name_of;
use crate::path::PathName;
use crate::writing::{append, append_u32, append_zeros};
use byteorder::{ByteOrder, LittleEndian};
use kernel_values::{Bytes, NoMemory};
use std::alloc::Global;

/// A message from one side of the bridge to the other. Each type has a number, in this order from 1.
#[derive(Debug, Drop)]
pub enum Control {
    /// The device is there.
    GoOnline,
    /// The device goes.
    GoOffline,
    /// The driver asks for a connection to a port.
    ConnReq {
        /// The port's path.
        path: PathName,
    },
    /// The device answers such a request.
    ConnRsp {
        /// The address that asked.
        target: u32,
        /// 0, or the number of the refusal.
        status: u32,
        /// The device's address of the connection.
        remote: u32,
        /// The largest message, in bytes.
        size: u32,
        /// The number of messages that the port holds for a connection.
        count: u32,
    },
    /// A connection ends.
    DiscReq {
        /// Its address on the receiver's side.
        target: u32,
    },
}

/// The control message that a frame's payload spells, or the first fault.
pub fn control_of(payload: &[u8]) -> Result<Control, FrameFault>
    ensures exact { result ≡ control_in payload.now }
    ensures found { IfOk result (λ c. IsControl payload.now c) }
    ensures only { (c : Control) → IsControl payload.now c → result ≡ Ok c }
    ensures place { (i : ℕ) → result ≡ Err (Name i) → BreaksAt (drop 8 payload.now) i }
{
    read_control(payload)
}

/// The one spelling of a control message, the payload of a frame. It has at most 264 bytes.
pub fn write_control(alloc: Global, control: &Control) -> Result<Bytes, NoMemory>
    ensures spelled { IfOk result (λ bytes. IsControl bytes control.now) }
    ensures short { IfOk result (λ bytes. length bytes ≤ 264) }
{
    write_any(alloc, control)
}

#[tactic(auto, unfolding(crate::specs::Controls::message))]
fn write_any(alloc: Global, control: &Control) -> Result<Bytes, NoMemory>
    ensures { IfOk result (λ bytes. IsControl bytes control.now) }
{
    match control {
        Control::GoOnline => write_head(alloc, 1, 0),
        Control::GoOffline => write_head(alloc, 2, 0),
        Control::ConnReq { path } => write_request(alloc, path),
        Control::ConnRsp {
            target,
            status,
            remote,
            size,
            count,
        } => write_answer(alloc, *target, *status, *remote, *size, *count),
        Control::DiscReq { target } => write_leave(alloc, *target),
    }
}

/// The type of a message, and the length of its body.
fn write_head(alloc: Global, kind: u32, body_len: u32) -> Result<Bytes, NoMemory>
    ensures { IfOk result (λ bytes. bytes ≡ little_bytes 4 kind ++ little_bytes 4 body_len) }
{
    let mut out = Bytes::new(alloc);
    append_u32(&mut out, kind)?;
    append_u32(&mut out, body_len)?;
    Ok(out)
}

#[tactic(auto, unfolding(crate::specs::Controls::message, crate::specs::Names::name_field))]
fn write_request(alloc: Global, path: &PathName) -> Result<Bytes, NoMemory>
    ensures { IfOk result (λ bytes. IsControl bytes (ConnReq path.now)) }
{
    let mut out = write_head(alloc, 3, 256)?;
    let name = path.as_slice();
    append(&mut out, name)?;
    append_zeros(&mut out, 256 - name.len())?;
    Ok(out)
}

#[tactic(auto, unfolding(crate::specs::Controls::message, crate::specs::Controls::answer_body))]
fn write_answer(
    alloc: Global,
    target: u32,
    status: u32,
    remote: u32,
    size: u32,
    count: u32,
) -> Result<Bytes, NoMemory>
    ensures { IfOk result (λ bytes. IsControl bytes (ConnRsp target status remote size count)) }
{
    let mut out = write_head(alloc, 4, 20)?;
    append_u32(&mut out, target)?;
    append_u32(&mut out, status)?;
    append_u32(&mut out, remote)?;
    append_u32(&mut out, size)?;
    append_u32(&mut out, count)?;
    Ok(out)
}

#[tactic(auto, unfolding(crate::specs::Controls::message, crate::specs::Controls::leave_body))]
fn write_leave(alloc: Global, target: u32) -> Result<Bytes, NoMemory>
    ensures { IfOk result (λ bytes. IsControl bytes (DiscReq target)) }
{
    let mut out = write_head(alloc, 5, 4)?;
    append_u32(&mut out, target)?;
    Ok(out)
}

fn four_at(bytes: &[u8], at: usize) -> u32
    requires { at + 4 ≤ length bytes.now }
    ensures { result ≡ four_at at bytes.now }
{
    LittleEndian::read_u32(&bytes[at..])
}

fn body_length(kind: u32) -> Option<u32>
    ensures { result ≡ body_length kind }
{
    match kind {
        1 | 2 => Some(0),
        3 => Some(256),
        4 => Some(20),
        5 => Some(4),
        _ => None,
    }
}

#[tactic(auto, unfolding(crate::specs::Controls::body_in))]
fn read_body(kind: u32, body: &[u8]) -> Result<Control, FrameFault>
    requires { body_length kind ≡ Some (length body.now) }
    ensures { result ≡ body_in kind body.now }
{
    match kind {
        1 => Ok(Control::GoOnline),
        2 => Ok(Control::GoOffline),
        3 => match name_of(body) {
            Ok(path) => Ok(Control::ConnReq { path }),
            Err(fault) => Err(fault),
        },
        4 => Ok(Control::ConnRsp {
            target: four_at(body, 0),
            status: four_at(body, 4),
            remote: four_at(body, 8),
            size: four_at(body, 12),
            count: four_at(body, 16),
        }),
        _ => Ok(Control::DiscReq {
            target: four_at(body, 0),
        }),
    }
}

#[tactic(auto, unfolding(crate::specs::Controls::control_in))]
fn read_control(payload: &[u8]) -> Result<Control, FrameFault>
    ensures { result ≡ control_in payload.now }
{
    if payload.len() < 8 {
        return Err(FrameFault::Short);
    }
    let kind = four_at(payload, 0);
    let body_len = four_at(payload, 4);
    let body = &payload[8..];
    let Some(wanted) = body_length(kind) else {
        return Err(FrameFault::UnknownType);
    };
    if body_len as usize != body.len() || body_len != wanted {
        return Err(FrameFault::BodyLength);
    }
    read_body(kind, body)
}
