//! What the device put into a used ring.

ghost use Rattle.std.specs.Prelude.{◌≡◌, ◌+◌, ◌-◌, ◌%◌, ◌<◌, ◌≤◌, length, map, IfOk};
ghost use Rattle.std.specs.List.{range_with_len};
ghost use Rattle.virtqueue.specs.Layout.{IsQueue, ahead};
ghost use Rattle.kernel_types.specs.GuestMemory.{used_idx, used_element, new_elements};

use crate::memory::{read_u16, read_u32};
use kernel_values::{Items, NoMemory};
use std::alloc::Global;
use std::marker::Model;
use virtqueue::{MEMORY_SIZE, Queue};

/// An element of a used ring.
#[derive(Drop)]
pub struct Element {
    /// The descriptor that comes back.
    pub id: u32,
    /// How many bytes the device wrote into its buffer.
    pub len: u32,
}

impl Model for Element {
    ghost use Rattle.kernel_types.specs.GuestMemory.{UsedElement};

    ghost Value = { UsedElement };

    ghost view = { λ e. record { id = e.id; len = e.len } };
}

/// The index of a used ring, as it stands in memory.
pub fn used_idx(mem: &[u8], q: &Queue) -> u16
    requires memory { length mem.now ≡ MEMORY_SIZE }
    requires queue { IsQueue q.now }
    ensures { result ≡ used_idx mem.now q.now.index }
{
    read_u16(mem, q.index as usize * 0x3000 + 0x2002)
}

/// The element at an index of a used ring.
pub fn used_element(mem: &[u8], q: &Queue, i: u16) -> Element
    requires memory { length mem.now ≡ MEMORY_SIZE }
    requires queue { IsQueue q.now }
    ensures { result ≡ used_element mem.now q.now i }
{
    let at = q.index as usize * 0x3000 + 0x2004 + 8 * (i as usize % q.n as usize);
    Element {
        id: read_u32(mem, at),
        len: read_u32(mem, at + 4),
    }
}

/// How many elements there are behind the index that was seen: none where the ring's own index is further ahead than
/// the ring is long.
#[tactic(auto, unfolding(kernel_types::specs::GuestMemory::new_elements))]
pub fn new_count(mem: &[u8], q: &Queue, seen: u16) -> u16
    requires memory { length mem.now ≡ MEMORY_SIZE }
    requires queue { IsQueue q.now }
    ensures few { result ≤ 256 }
    ensures elements { new_elements mem.now q.now seen ≡ map (λ k. used_element mem.now q.now ((seen + k) % 65536)) (range_with_len 0 result) }
{
    let count = used_idx(mem, q).wrapping_sub(seen);
    if q.n < count as u32 { 0 } else { count }
}

/// The elements behind the index that was seen.
pub fn new_elements(
    alloc: Global,
    mem: &[u8],
    q: &Queue,
    seen: u16,
) -> Result<Items<Element>, NoMemory>
    requires memory { length mem.now ≡ MEMORY_SIZE }
    requires queue { IsQueue q.now }
    ensures { IfOk result (λ elements. elements ≡ new_elements mem.now q.now seen) }
{
    let mut elements = Items::new(alloc);
    for k in 0..new_count(mem, q, seen) {
        elements.push(used_element(mem, q, seen.wrapping_add(k)))?;
    }
    Ok(elements)
}
