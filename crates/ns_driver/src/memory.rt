//! The memory that the driver shares with the device: what the driver reads of it, and what it writes.

ghost use Rattle.std.specs.Prelude.{◌≡◌, ◌+◌, ◌*◌, ◌<◌, ◌≤◌, length};
ghost use Rattle.virtqueue.specs.Layout.{IsQueue, number_at, written_at, descriptor_start};
ghost use Rattle.kernel_types.specs.GuestMemory.{ring, buffer_start, descriptor_bytes, with_descriptor, given, with_frame};

use byteorder::{ByteOrder, LittleEndian};
use virtqueue::{MEMORY_SIZE, Queue, publish};

/// The bytes of a buffer.
pub const BUFFER_SIZE: u32 = 0x2000;
/// The flag of a descriptor whose buffer the device writes.
const WRITE: u16 = 2;

/// A queue as the driver sees it, which keeps no place in it.
pub fn ring(index: u32, size: u32) -> Queue
    ensures { result ≡ ring index size }
{
    Queue {
        index,
        n: size,
        position: 0,
        used: 0,
    }
}

/// The number in the two bytes at a place.
pub fn read_u16(mem: &[u8], at: usize) -> u16
    requires { at + 2 ≤ length mem.now }
    ensures { result ≡ number_at 2 at mem.now }
{
    LittleEndian::read_u16(&mem[at..])
}

/// The number in the four bytes at a place.
pub fn read_u32(mem: &[u8], at: usize) -> u32
    requires { at + 4 ≤ length mem.now }
    ensures { result ≡ number_at 4 at mem.now }
{
    LittleEndian::read_u32(&mem[at..])
}

/// Where the buffer of a descriptor begins.
pub fn buffer_place(queue: u32, place: u32) -> usize
    requires queue { queue < 2 }
    requires place { place < 32 }
    ensures { result ≡ buffer_start queue place }
{
    0x40000 * (queue as usize + 1) + BUFFER_SIZE as usize * place as usize
}

/// Writes bytes at a place.
pub fn write(mem: &mut [u8], at: usize, bytes: &[u8])
    requires { at + length bytes.now ≤ length mem.old }
    ensures { mem.new ≡ written_at at bytes.now mem.old }
{
    mem[at..at + bytes.len()].copy_from_slice(bytes);
}

/// A descriptor without a next one.
fn descriptor(addr: u64, len: u32, flags: u16) -> [u8; 16]
    ensures { result ≡ descriptor_bytes addr len flags }
{
    let mut bytes = [0u8; 16];
    LittleEndian::write_u64(&mut bytes[0..8], addr);
    LittleEndian::write_u32(&mut bytes[8..12], len);
    LittleEndian::write_u16(&mut bytes[12..14], flags);
    bytes
}

/// Lets a descriptor stand for its whole buffer, or for the front of it.
fn write_descriptor(mem: &mut [u8], queue: u32, place: u32, len: u32, flags: u16)
    requires memory { length mem.old ≡ MEMORY_SIZE }
    requires queue { queue < 2 }
    requires place { place < 32 }
    ensures { mem.new ≡ with_descriptor queue place len flags mem.old }
{
    let bytes = descriptor(buffer_place(queue, place) as u64, len, flags);
    write(mem, 0x3000 * queue as usize + 16 * place as usize, &bytes);
}

/// Gives the device the whole buffer of a descriptor of queue 0, to write a frame into it.
#[tactic(auto, unfolding(kernel_types::specs::GuestMemory::given))]
pub fn give(mem: &mut [u8], size: u32, place: u32)
    requires memory { length mem.old ≡ MEMORY_SIZE }
    requires queue { IsQueue (ring 0 size) }
    requires place { place < 32 }
    ensures { mem.new ≡ given size mem.old place }
{
    write_descriptor(mem, 0, place, BUFFER_SIZE, WRITE);
    publish(mem, &ring(0, size), place as u16);
}

/// Lets a frame go out in the buffer of a descriptor of queue 1.
#[tactic(auto, unfolding(kernel_types::specs::GuestMemory::with_frame))]
pub fn send(mem: &mut [u8], size: u32, place: u32, frame: &[u8])
    requires memory { length mem.old ≡ MEMORY_SIZE }
    requires queue { IsQueue (ring 1 size) }
    requires place { place < 32 }
    requires frame { length frame.now ≤ BUFFER_SIZE }
    ensures { mem.new ≡ with_frame size place frame.now mem.old }
{
    write(mem, buffer_place(1, place), frame);
    write_descriptor(mem, 1, place, frame.len() as u32, 0);
    publish(mem, &ring(1, size), place as u16);
}
