//! A caller of `msg_queue`.

ghost use Rattle.std.specs.Prelude.{◌≡◌, ◌<◌, ◌≤◌, ◌^◌, ◌-◌, ◌⊎◌, true, false, [], length};
ghost use Rattle.msg_queue.specs.Messages.{pushed};

use msg_queue::Queue;
use object_store::Parts;

/// Puts a message without parts into the queue. `false`, and the queue stays, exactly where the message is longer than a
/// slot or every slot is in use.
pub fn try_send(queue: &mut Queue, bytes: &[u8]) -> bool
    requires { queue.old.next < 2 ^ 32 - 1 }
    ensures sent { result ≡ true → queue.new ≡ pushed queue.old bytes.now [] }
    ensures fits { result ≡ true → (length bytes.now ≤ queue.old.size) × (length queue.old.messages < queue.old.slots) }
    ensures kept { result ≡ false → queue.new ≡ queue.old }
    ensures refused { result ≡ false → (queue.old.size < length bytes.now) ⊎ (length queue.old.messages ≡ queue.old.slots) }
{
    if bytes.len() > queue.size() as usize {
        return false;
    }
    queue.push(bytes, &Parts::new()).is_ok()
}
