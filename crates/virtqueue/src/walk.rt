ghost use Rattle.std.specs.Prelude.{◌≡◌, ◌≢◌, ◌+◌, ◌<◌, ◌≤◌, ◌^◌, IfNone, IfSome, IfOk, length, true};
ghost use Rattle.std.specs.List.{All};
ghost use Rattle.virtqueue.specs.Layout.{IsQueue};
ghost use Rattle.virtqueue.specs.Bytes.{IsWithin};
ghost use Rattle.virtqueue.specs.Chains.{descriptor_at, has_next, is_writable, is_inside, is_directed, broken, part_of, parts_from, chain};

use crate::chain::Chain;
use crate::layout::descriptor_place;
use crate::memory::{read_u16, read_u32, read_u64};
use crate::parts::{Part, PartList};
use crate::queue::{MEMORY_SIZE, Queue, RingFault};
use crate::rings::{available_head, available_idx};

/// The chain goes on with the descriptor `next`.
const NEXT: u16 = 1;
/// The device writes the buffer.
const WRITE: u16 = 2;

/// A descriptor, as it stands in the table (VIRTIO 1.2, section 2.7.5).
#[derive(Clone, Copy, Debug, PartialEq, Eq)]
pub struct Descriptor {
    /// The place of the buffer's first byte.
    pub addr: u64,
    /// The buffer's bytes.
    pub len: u32,
    /// Bit 0: the chain goes on. Bit 1: the device writes the buffer.
    pub flags: u16,
    /// The descriptor that follows, where the chain goes on.
    pub next: u16,
}

impl Descriptor {
    #[tactic(auto, unfolding(crate::specs::Chains::descriptor_at))]
    fn read(mem: &[u8], q: &Queue, place: u16) -> Descriptor
        requires memory { length mem.now ≡ MEMORY_SIZE }
        requires queue { IsQueue q.now }
        requires place { place < q.now.n }
        ensures { result ≡ descriptor_at mem.now q.now.index place }
    {
        let at = descriptor_place(q, place);
        Descriptor {
            addr: read_u64(mem, at),
            len: read_u32(mem, at + 8),
            flags: read_u16(mem, at + 12),
            next: read_u16(mem, at + 14),
        }
    }

    fn has_next(&self) -> bool
        ensures { result ≡ has_next self.now }
    {
        self.flags & NEXT == NEXT
    }

    fn is_writable(&self) -> bool
        ensures { result ≡ is_writable self.now }
    {
        self.flags & WRITE == WRITE
    }

    fn is_inside(&self) -> bool
        ensures { result ≡ is_inside self.now }
    {
        let len = self.len as u64;
        let size = MEMORY_SIZE as u64;
        self.addr <= size && len <= size - self.addr
    }

    fn is_directed(&self, index: u32) -> bool
        ensures { result ≡ is_directed index self.now }
    {
        if index == 0 {
            self.is_writable()
        } else {
            !self.is_writable()
        }
    }

    /// The first rule that it breaks, as the descriptor with this number in its chain, from 1.
    #[tactic(auto, unfolding(crate::specs::Chains::broken))]
    fn broken(&self, q: &Queue, number: u32, place: u16) -> Option<RingFault>
        ensures first { result ≡ broken q.now number place self.now }
        ensures inside { IfNone result (self.now.addr + self.now.len ≤ 2 ^ 20) }
        ensures more { IfNone result (has_next self.now ≡ true → number ≢ q.now.n) }
        ensures next { IfNone result (has_next self.now ≡ true → self.now.next < q.now.n) }
    {
        if !self.is_inside() {
            return Some(RingFault::RangeOutside(place));
        }
        if !self.is_directed(q.index) {
            return Some(RingFault::WrongDirection(place));
        }
        if !self.has_next() {
            return None;
        }
        if number == q.n {
            return Some(RingFault::TooLong(place));
        }
        if self.next as u32 >= q.n {
            return Some(RingFault::NextOutOfRange(place));
        }
        None
    }

    fn part(&self) -> Part
        requires { self.now.addr + self.now.len ≤ 2 ^ 20 }
        ensures { result ≡ part_of self.now }
    {
        Part {
            addr: self.addr as u32,
            len: self.len,
        }
    }
}

/// The buffers of the chain that begins at a head, or the first fault along it.
fn parts_from(mem: &[u8], q: &Queue, head: u16) -> Result<PartList, RingFault>
    requires memory { length mem.now ≡ MEMORY_SIZE }
    requires queue { IsQueue q.now }
    requires head { head < q.now.n }
    ensures parts { result ≡ parts_from mem.now q.now head }
    ensures within { IfOk result (λ parts. All IsWithin parts) }
{
    let mut parts = PartList::new();
    let mut place = head;
    let mut number = 0u32;
    'walk: loop {
        let descriptor = Descriptor::read(mem, q, place);
        if let Some(fault) = descriptor.broken(q, number + 1, place) {
            return Err(fault);
        }
        parts.push(descriptor.part());
        if !descriptor.has_next() {
            return Ok(parts);
        }
        place = descriptor.next;
        number += 1;
    }
}

/// The chain at the queue's position in the available ring, `None` where the ring has no more, or the
/// first fault. Nothing in memory changes.
#[tactic(auto, unfolding(crate::specs::Chains::chain))]
pub fn next_chain(mem: &[u8], q: &Queue) -> Result<Option<Chain>, RingFault>
    requires memory { length mem.now ≡ MEMORY_SIZE }
    requires queue { IsQueue q.now }
    ensures chain { result ≡ chain mem.now q.now }
    ensures within { IfOk result (λ found. IfSome found (λ chain. All IsWithin chain.parts)) }
    ensures head { IfOk result (λ found. IfSome found (λ chain. chain.head < q.now.n)) }
{
    let idx = available_idx(mem, q);
    if idx == q.position {
        return Ok(None);
    }
    if idx.wrapping_sub(q.position) as u32 > q.n {
        return Err(RingFault::IndexJump(idx));
    }
    let head = available_head(mem, q, q.position);
    if head as u32 >= q.n {
        return Err(RingFault::HeadOutOfRange(head));
    }
    match parts_from(mem, q, head) {
        Ok(parts) => Ok(Some(Chain { head, parts })),
        Err(fault) => Err(fault),
    }
}
