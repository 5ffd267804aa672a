ghost use Rattle.std.specs.Prelude.{◌≡◌, ◌+◌, ℕ, List, length, drop, IfOk};
ghost use Rattle.tipc_proto.specs.declared.frames.Frame.{Frame};
ghost use Rattle.tipc_proto.specs.Frames.{IsFrame, frame_in};

use crate::faults::FrameFault;
use crate::writing::{append, append_u16, append_u32};
use byteorder::{ByteOrder, LittleEndian};
use kernel_values::{Bytes, NoMemory};
use std::alloc::Global;

/// The header of a frame. Every value of each field is accepted.
#[derive(Clone, Copy, Debug, PartialEq, Eq)]
pub struct Frame {
    /// The address of the sender.
    pub src: u32,
    /// The address of the receiver; 53 is that of control messages.
    pub dst: u32,
    /// Written as 0, and not looked at.
    pub reserved: u32,
    /// The bytes of the payload.
    pub len: u16,
    /// Written as 0, and not looked at.
    pub flags: u16,
}

/// The header of a frame that is all of the bytes, or the first fault. The payload follows at byte 16.
pub fn frame_of(bytes: &[u8]) -> Result<Frame, FrameFault>
    ensures exact { result ≡ frame_in bytes.now }
    ensures found { IfOk result (λ f. IsFrame bytes.now f (drop 16 bytes.now)) }
    ensures only { (f : Frame) (payload : List ℕ) → IsFrame bytes.now f payload → result ≡ Ok f }
{
    read_frame(bytes)
}

/// The one spelling of a frame with this payload, which is as long as the frame says.
#[tactic(auto, unfolding(crate::specs::Frames::header))]
pub fn write_frame(alloc: Global, frame: &Frame, payload: &[u8]) -> Result<Bytes, NoMemory>
    requires { length payload.now ≡ frame.now.len }
    ensures spelled { IfOk result (λ bytes. IsFrame bytes frame.now payload.now) }
    ensures long { IfOk result (λ bytes. length bytes ≡ 16 + length payload.now) }
{
    let mut out = Bytes::new(alloc);
    append_u32(&mut out, frame.src)?;
    append_u32(&mut out, frame.dst)?;
    append_u32(&mut out, frame.reserved)?;
    append_u16(&mut out, frame.len)?;
    append_u16(&mut out, frame.flags)?;
    append(&mut out, payload)?;
    Ok(out)
}

#[tactic(auto, unfolding(crate::specs::Frames::frame_in))]
fn read_frame(bytes: &[u8]) -> Result<Frame, FrameFault>
    ensures { result ≡ frame_in bytes.now }
{
    if bytes.len() < 16 {
        return Err(FrameFault::Short);
    }
    let len = LittleEndian::read_u16(&bytes[12..]);
    if bytes.len() - 16 != len as usize {
        return Err(FrameFault::Length);
    }
    Ok(Frame {
        src: LittleEndian::read_u32(bytes),
        dst: LittleEndian::read_u32(&bytes[4..]),
        reserved: LittleEndian::read_u32(&bytes[8..]),
        len,
        flags: LittleEndian::read_u16(&bytes[14..]),
    })
}
