//! What stands at the front of a frame in a chain's buffers. No memory is taken.

ghost use Rattle.std.specs.Prelude.{◌≡◌, ◌≤◌, ◌+◌, ◌-◌, take, drop, length, IfOk};
ghost use Rattle.std.specs.List.{All};
ghost use Rattle.virtqueue.specs.Bytes.{IsWithin, room, bytes_at};
ghost use Rattle.tipc_proto.specs.Frames.{frame_in, fields_of};
ghost use Rattle.tipc_proto.specs.Controls.{control_in};

use byteorder::{ByteOrder, LittleEndian};
use tipc_proto::{Control, Frame, FrameFault, control_of};
use virtqueue::{Chain, MEMORY_SIZE, chain_len, read_chain};

/// The bytes of a header.
const HEADER: usize = 16;
/// One more than the longest control message has with its header: what is longer is none.
const FRONT: usize = 281;

/// The fields of a header.
fn fields_of(head: &[u8; HEADER]) -> Frame
    ensures { result ≡ fields_of head.now }
{
    Frame {
        src: LittleEndian::read_u32(head),
        dst: LittleEndian::read_u32(&head[4..]),
        reserved: LittleEndian::read_u32(&head[8..]),
        len: LittleEndian::read_u16(&head[12..]),
        flags: LittleEndian::read_u16(&head[14..]),
    }
}

/// The frame in the buffers, or the first fault.
#[tactic(auto, unfolding(tipc_proto::specs::Frames::frame_in))]
pub fn frame_in(mem: &[u8], chain: &Chain) -> Result<Frame, FrameFault>
    requires memory { length mem.now ≡ MEMORY_SIZE }
    requires parts { All IsWithin chain.now.parts }
    ensures frame { result ≡ frame_in (bytes_at chain.now.parts mem.now) }
    ensures long { IfOk result (λ f. room chain.now.parts ≡ 16 + f.len) }
    ensures payload { IfOk result (λ f. length (drop 16 (bytes_at chain.now.parts mem.now)) ≡ f.len) }
{
    let mut head = [0u8; HEADER];
    if read_chain(mem, chain, &mut head) < HEADER {
        return Err(FrameFault::Short);
    }
    let frame = fields_of(&head);
    if chain_len(chain) != HEADER as u64 + frame.len as u64 {
        return Err(FrameFault::Length);
    }
    Ok(frame)
}

/// What stands behind a header, of so many bytes that were read.
fn behind(front: &[u8; FRONT], count: usize) -> &[u8]
    requires low { 16 ≤ count }
    requires high { count ≤ 281 }
    ensures { result.now ≡ take (count - 16) (drop 16 front.now) }
{
    &front[HEADER..count]
}

/// The control message in the buffers behind a header, or the first fault.
pub fn control_in(mem: &[u8], chain: &Chain) -> Result<Control, FrameFault>
    requires memory { length mem.now ≡ MEMORY_SIZE }
    requires parts { All IsWithin chain.now.parts }
    requires long { 16 ≤ room chain.now.parts }
    ensures { result ≡ control_in (drop 16 (bytes_at chain.now.parts mem.now)) }
{
    let mut front = [0u8; FRONT];
    let count = read_chain(mem, chain, &mut front);
    control_of(behind(&front, count))
}
