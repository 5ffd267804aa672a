//! The frames that the driver sends.

ghost use Rattle.std.specs.Prelude.{◌≡◌, ◌+◌, ◌<◌, ◌≤◌, ◌^◌, length, IfOk};
ghost use Rattle.kernel_types.specs.Sending.{frame, request_frame, leave_frame};

use crate::connections::CONTROL;
use kernel_values::{Bytes, NoMemory};
use std::alloc::Global;
use tipc_proto::{Control, Frame, PathName, write_control, write_frame};

/// A frame from the driver's address of a connection.
#[tactic(auto, unfolding(kernel_types::specs::Sending::frame))]
pub fn frame(alloc: Global, src: u32, dst: u32, payload: &[u8]) -> Result<Bytes, NoMemory>
    requires { length payload.now < 2 ^ 16 }
    ensures bytes { IfOk result (λ bytes. bytes ≡ frame src dst payload.now) }
    ensures long { IfOk result (λ bytes. length bytes ≡ 16 + length payload.now) }
{
    let header = Frame {
        src,
        dst,
        reserved: 0,
        len: payload.len() as u16,
        flags: 0,
    };
    write_frame(alloc, &header, payload)
}

/// The request for a connection.
pub fn request_frame(alloc: Global, src: u32, path: PathName) -> Result<Bytes, NoMemory>
    ensures bytes { IfOk result (λ bytes. bytes ≡ request_frame src path) }
    ensures short { IfOk result (λ bytes. length bytes ≤ 280) }
{
    let payload = write_control(alloc, &Control::ConnReq { path })?;
    frame(alloc, src, CONTROL, payload.as_slice())
}

/// The end of a connection, to the device's address of it.
pub fn leave_frame(alloc: Global, src: u32, target: u32) -> Result<Bytes, NoMemory>
    ensures bytes { IfOk result (λ bytes. bytes ≡ leave_frame src target) }
    ensures short { IfOk result (λ bytes. length bytes ≤ 280) }
{
    let payload = write_control(alloc, &Control::DiscReq { target })?;
    frame(alloc, src, CONTROL, payload.as_slice())
}
