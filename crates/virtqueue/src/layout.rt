// Where the rings of a queue stand in memory (VIRTIO 1.2, section 2.7).
ghost use Rattle.std.specs.Prelude.{◌≡◌, ◌<◌, ◌+◌};
ghost use Rattle.virtqueue.specs.Layout.{IsQueue, descriptor_start, available_idx_start, available_place, used_idx_start, used_place};

use crate::queue::Queue;

/// The distance between the two queues.
const QUEUE: usize = 0x3000;
/// The available ring, from the queue's start.
const AVAILABLE: usize = 0x1000;
/// The used ring, from the queue's start.
const USED: usize = 0x2000;

/// The place of a descriptor.
pub fn descriptor_place(q: &Queue, place: u16) -> usize
    requires { IsQueue q.now }
    ensures { result ≡ descriptor_start q.now.index place }
{
    q.index as usize * QUEUE + 16 * place as usize
}

/// The place of the available ring's idx.
pub fn available_idx_place(q: &Queue) -> usize
    requires { IsQueue q.now }
    ensures { result ≡ available_idx_start q.now.index }
{
    q.index as usize * QUEUE + AVAILABLE + 2
}

/// The place of the head at an index of the available ring.
pub fn available_place(q: &Queue, i: u16) -> usize
    requires { IsQueue q.now }
    ensures { result ≡ available_place q.now i }
{
    q.index as usize * QUEUE + AVAILABLE + 4 + 2 * (i as usize % q.n as usize)
}

/// The place of the used ring's idx.
pub fn used_idx_place(q: &Queue) -> usize
    requires { IsQueue q.now }
    ensures { result ≡ used_idx_start q.now.index }
{
    q.index as usize * QUEUE + USED + 2
}

/// The place of the pair at an index of the used ring.
pub fn used_place(q: &Queue, i: u16) -> usize
    requires { IsQueue q.now }
    ensures { result ≡ used_place q.now i }
{
    q.index as usize * QUEUE + USED + 4 + 8 * (i as usize % q.n as usize)
}
