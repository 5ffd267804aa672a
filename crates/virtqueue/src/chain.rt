ghost use Rattle.std.specs.Prelude.{◌≡◌, length, take, nat_le, if◌then◌else◌};
ghost use Rattle.std.specs.List.{All};
ghost use Rattle.virtqueue.specs.Layout.{written_at};
ghost use Rattle.virtqueue.specs.Bytes.{IsWithin, room, bytes_at, stored};

use crate::parts::{Part, PartList};
use crate::queue::MEMORY_SIZE;

/// The buffers of one element of a queue.
#[derive(Drop)]
pub struct Chain {
    /// The first descriptor, which names the chain in the rings.
    pub head: u16,
    /// The buffers in their order.
    pub parts: PartList,
}

/// The bytes that a chain's buffers hold together.
pub fn chain_len(chain: &Chain) -> u64
    ensures { result ≡ room chain.now.parts }
{
    let parts = chain.parts.as_slice();
    let mut total = 0u64;
    for part in parts {
        total += part.len as u64;
    }
    total
}

/// Copies the chain's bytes, in their order, to the front of `out`, as many as there is room for, and
/// answers how many these are. The rest of `out` stays.
pub fn read_chain(mem: &[u8], chain: &Chain, out: &mut [u8]) -> usize
    requires memory { length mem.now ≡ MEMORY_SIZE }
    requires parts { All IsWithin chain.now.parts }
    ensures count { result ≡ length (take (length out.old) (bytes_at chain.now.parts mem.now)) }
    ensures whole { length (bytes_at chain.now.parts mem.now) ≡ room chain.now.parts }
    ensures bytes { out.new ≡ written_at 0 (take (length out.old) (bytes_at chain.now.parts mem.now)) out.old }
{
    let parts = chain.parts.as_slice();
    let mut done = 0;
    for part in parts {
        let len = (out.len() - done).min(part.len as usize);
        let at = part.addr as usize;
        out[done..done + len].copy_from_slice(&mem[at..at + len]);
        done += len;
    }
    done
}

/// Writes bytes into the chain's buffers, in their order. `false` where they do not fit, and then
/// nothing is written. Where buffers overlap, the later byte stays.
pub fn write_chain(mem: &mut [u8], chain: &Chain, bytes: &[u8]) -> bool
    requires memory { length mem.old ≡ MEMORY_SIZE }
    requires parts { All IsWithin chain.now.parts }
    ensures fits { result ≡ nat_le (length bytes.now) (room chain.now.parts) }
    ensures bytes { mem.new ≡ (if result then stored chain.now.parts bytes.now mem.old else mem.old) }
{
    if bytes.len() as u64 > chain_len(chain) {
        return false;
    }
    store(mem, chain.parts.as_slice(), bytes);
    true
}

/// Writes bytes into the parts, in their order, as far as they have room.
fn store(mem: &mut [u8], parts: &[Part], bytes: &[u8])
    requires memory { length mem.old ≡ MEMORY_SIZE }
    requires parts { All IsWithin parts.now }
    ensures { mem.new ≡ stored parts.now bytes.now mem.old }
{
    let mut rest = bytes;
    for part in parts {
        let len = (part.len as usize).min(rest.len());
        let (here, later) = rest.split_at(len);
        let at = part.addr as usize;
        mem[at..at + len].copy_from_slice(here);
        rest = later;
    }
}
