//! The frames that the device sends.

ghost use Rattle.std.specs.Prelude.{◌≡◌, ◌<◌, ◌^◌, length, IfOk};
ghost use Rattle.kernel_types.specs.Errors.{number_of};
ghost use Rattle.kernel_types.specs.Sending.{control_address, frame, online_frame, answer_frame, leave_frame};

use kernel_values::{Bytes, Errno, NoMemory};
use std::alloc::Global;
use tipc_proto::{Control, Frame, write_control, write_frame};

/// The address of control messages, on both sides.
pub const CONTROL: u32 = 53;

/// The number of an error, as the two sides tell it to each other.
pub fn number_of(errno: Errno) -> u32
    ensures { result ≡ number_of errno }
{
    match errno {
        Errno::BadHandle => 1,
        Errno::InvalidArgs => 2,
        Errno::NotFound => 3,
        Errno::AccessDenied => 4,
        Errno::AlreadyExists => 5,
        Errno::NoResources => 6,
        Errno::NoMsg => 7,
        Errno::NotReady => 8,
        Errno::ChannelClosed => 9,
        Errno::TooBig => 10,
        Errno::NotEnoughBuffer => 11,
        Errno::NotSupported => 12,
        Errno::RecurseTooDeep => 13,
        Errno::TimedOut => 14,
        Errno::Cancelled => 15,
    }
}

/// A frame from one address to another. A payload that no frame can hold counts as want of memory; messages are far shorter.
#[tactic(auto, unfolding(kernel_types::specs::Sending::frame))]
pub fn frame(alloc: Global, src: u32, dst: u32, payload: &[u8]) -> Result<Bytes, NoMemory>
    ensures bytes { IfOk result (λ bytes. bytes ≡ frame src dst payload.now) }
    ensures payload { IfOk result (λ bytes. length payload.now < 2 ^ 16) }
    ensures short { IfOk result (λ bytes. length bytes < 2 ^ 17) }
{
    let Ok(len) = u16::try_from(payload.len()) else {
        return Err(NoMemory);
    };
    let header = Frame {
        src,
        dst,
        reserved: 0,
        len,
        flags: 0,
    };
    write_frame(alloc, &header, payload)
}

/// That the device is there.
pub fn online_frame(alloc: Global) -> Result<Bytes, NoMemory>
    ensures bytes { IfOk result (λ bytes. bytes ≡ online_frame) }
    ensures short { IfOk result (λ bytes. length bytes < 2 ^ 17) }
{
    let payload = write_control(alloc, &Control::GoOnline)?;
    frame(alloc, CONTROL, CONTROL, payload.as_slice())
}

/// The answer to a request for a connection.
pub fn answer_frame(
    alloc: Global,
    target: u32,
    status: u32,
    remote: u32,
    size: u32,
    count: u32,
) -> Result<Bytes, NoMemory>
    ensures bytes { IfOk result (λ bytes. bytes ≡ answer_frame target status remote size count) }
    ensures short { IfOk result (λ bytes. length bytes < 2 ^ 17) }
{
    let answer = Control::ConnRsp {
        target,
        status,
        remote,
        size,
        count,
    };
    let payload = write_control(alloc, &answer)?;
    frame(alloc, CONTROL, CONTROL, payload.as_slice())
}

/// The end of a connection, to the driver's address of it.
pub fn leave_frame(alloc: Global, target: u32) -> Result<Bytes, NoMemory>
    ensures bytes { IfOk result (λ bytes. bytes ≡ leave_frame control_address target) }
    ensures short { IfOk result (λ bytes. length bytes < 2 ^ 17) }
{
    let payload = write_control(alloc, &Control::DiscReq { target })?;
    frame(alloc, CONTROL, CONTROL, payload.as_slice())
}
