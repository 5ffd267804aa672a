ghost use Rattle.std.specs.Prelude.{◌≡◌, ◌+◌, ◌<◌, ◌≤◌, List, length};
ghost use Rattle.byteorder.specs.Endian.{little_bytes};
ghost use Rattle.virtqueue.specs.Layout.{number_at, written_at};

use byteorder::{ByteOrder, LittleEndian};

/// The number in the two bytes at a place.
pub fn read_u16(mem: &[u8], at: usize) -> u16
    requires { at + 2 ≤ length mem.now }
    ensures { result ≡ number_at 2 at mem.now }
{
    LittleEndian::read_u16(&mem[at..])
}

/// The number in the four bytes at a place.
pub fn read_u32(mem: &[u8], at: usize) -> u32
    requires { at + 4 ≤ length mem.now }
    ensures { result ≡ number_at 4 at mem.now }
{
    LittleEndian::read_u32(&mem[at..])
}

/// The number in the eight bytes at a place.
pub fn read_u64(mem: &[u8], at: usize) -> u64
    requires { at + 8 ≤ length mem.now }
    ensures { result ≡ number_at 8 at mem.now }
{
    LittleEndian::read_u64(&mem[at..])
}

/// Writes a number into the two bytes at a place.
#[tactic(auto, unfolding(crate::specs::Layout::written_at))]
pub fn write_u16(mem: &mut [u8], at: usize, number: u16)
    requires { at + 2 ≤ length mem.old }
    ensures { mem.new ≡ written_at at (little_bytes 2 number) mem.old }
{
    LittleEndian::write_u16(&mut mem[at..at + 2], number);
}

/// Writes a number into the four bytes at a place.
#[tactic(auto, unfolding(crate::specs::Layout::written_at))]
pub fn write_u32(mem: &mut [u8], at: usize, number: u32)
    requires { at + 4 ≤ length mem.old }
    ensures { mem.new ≡ written_at at (little_bytes 4 number) mem.old }
{
    LittleEndian::write_u32(&mut mem[at..at + 4], number);
}
