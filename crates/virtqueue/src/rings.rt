ghost use Rattle.std.specs.Prelude.{◌≡◌, ◌<◌, length};
ghost use Rattle.virtqueue.specs.Layout.{IsQueue, available_idx, available_head, next_index, used_pushed, published};

use crate::layout::{available_idx_place, available_place, used_idx_place, used_place};
use crate::memory::{read_u16, write_u16, write_u32};
use crate::queue::{MEMORY_SIZE, Queue};

/// The index of the available ring, as it stands in memory.
#[tactic(auto, unfolding(crate::specs::Layout::available_idx))]
pub fn available_idx(mem: &[u8], q: &Queue) -> u16
    requires memory { length mem.now ≡ MEMORY_SIZE }
    requires queue { IsQueue q.now }
    ensures { result ≡ available_idx mem.now q.now.index }
{
    read_u16(mem, available_idx_place(q))
}

/// The head at an index of the available ring.
#[tactic(auto, unfolding(crate::specs::Layout::available_head))]
pub fn available_head(mem: &[u8], q: &Queue, i: u16) -> u16
    requires memory { length mem.now ≡ MEMORY_SIZE }
    requires queue { IsQueue q.now }
    ensures { result ≡ available_head mem.now q.now i }
{
    read_u16(mem, available_place(q, i))
}

/// Gives a chain back to the other world: its head and the number of bytes written go to the used
/// ring, and the queue's position goes on to the next available element.
#[tactic(auto, unfolding(crate::specs::Layout::used_pushed))]
pub fn push_used(mem: &mut [u8], q: &mut Queue, head: u16, len: u32)
    requires memory { length mem.old ≡ MEMORY_SIZE }
    requires queue { IsQueue q.old }
    requires head { head < q.old.n }
    ensures memory { mem.new ≡ used_pushed mem.old q.old head len }
    ensures queue { q.new ≡ record q.old { position = next_index q.old.position; used = next_index q.old.used } }
{
    let at = used_place(q, q.used);
    write_u32(mem, at, head as u32);
    write_u32(mem, at + 4, len);
    q.position = q.position.wrapping_add(1);
    q.used = q.used.wrapping_add(1);
    write_u16(mem, used_idx_place(q), q.used);
}

/// Puts a head into the available ring behind the index that stands in memory.
#[tactic(auto, unfolding(crate::specs::Layout::published))]
pub fn publish(mem: &mut [u8], q: &Queue, head: u16)
    requires memory { length mem.old ≡ MEMORY_SIZE }
    requires queue { IsQueue q.now }
    ensures { mem.new ≡ published mem.old q.now head }
{
    let i = available_idx(mem, q);
    write_u16(mem, available_place(q, i), head);
    write_u16(mem, available_idx_place(q), i.wrapping_add(1));
}
