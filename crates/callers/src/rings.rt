//! A caller of `virtqueue`.

ghost use Rattle.std.specs.Prelude.{◌≡◌, true, false, Ok, length, IfOk, IfSome, OnErr};
ghost use Rattle.callers.specs.Skips.{is_there};
ghost use Rattle.virtqueue.specs.Chains.{chain};
ghost use Rattle.virtqueue.specs.Layout.{IsQueue, used_pushed, next_index};

use virtqueue::{MEMORY_SIZE, Queue, RingFault, next_chain, push_used};

/// Gives the next chain of the queue back unread: whether there was one, or the fault of the ring. Without one all stays.
pub fn skip_chain(mem: &mut [u8], queue: &mut Queue) -> Result<bool, RingFault>
    requires memory { length mem.old ≡ MEMORY_SIZE }
    requires queue { IsQueue queue.old }
    ensures answer { result ≡ is_there (chain mem.old queue.old) }
    ensures given { result ≡ Ok true → IfOk (chain mem.old queue.old) (λ found. IfSome found (λ next. mem.new ≡ used_pushed mem.old queue.old next.head 0)) }
    ensures further { result ≡ Ok true → queue.new ≡ record queue.old { position = next_index queue.old.position; used = next_index queue.old.used } }
    ensures none { result ≡ Ok false → (mem.new ≡ mem.old) × (queue.new ≡ queue.old) }
    ensures fault { OnErr result ((mem.new ≡ mem.old) × (queue.new ≡ queue.old)) }
{
    let Some(next) = next_chain(mem, queue)? else {
        return Ok(false);
    };
    push_used(mem, queue, next.head, 0);
    Ok(true)
}
