//! Bytes of memory references, overwritten in their places.

ghost use Rattle.std.specs.Prelude.{◌≡◌, ◌+◌, ◌≤◌, length, true, Some};
ghost use Rattle.core_changes.specs.Changes.{is_within};
ghost use Rattle.core_changes.specs.Looks.{bytes_in};
ghost use Rattle.counted_core.specs.Found.{memory_if};
ghost use Rattle.counted_core.specs.Held.{changed_if};
ghost use Rattle.kernel_types.specs.Memories.{overwritten, written};
ghost use Rattle.kernel_types.specs.Objects.{memory_changed, memory_of, on_memory};
ghost use Rattle.object_store.specs.Stock.{value_at};

use crate::counts::CountedCore;
use crate::sweep::key_of;
use kernel_values::{Body, Bytes};
use object_store::Store;

/// Writes the bytes over as many from `offset` on.
fn overwrite(bytes: &mut Bytes, offset: u32, new: &[u8])
    requires { offset + length new.now ≤ length bytes.old }
    ensures { bytes.new ≡ overwritten offset new.now bytes.old }
{
    let mut at = offset as usize;
    for byte in new {
        if let Some(place) = bytes.get_mut(at) {
            *place = *byte;
        }
        at += 1;
    }
}

fn write_to(body: &mut Body, offset: u32, new: &[u8])
    requires { offset + length new.now ≤ length (bytes_in (memory_if (Some body.old))) }
    ensures { body.new ≡ on_memory (written offset new.now) body.old }
{
    if let Body::Memory(memory) = body {
        overwrite(&mut memory.bytes, offset, new);
    }
}

/// Bytes of the memory reference of this number are overwritten, where it is one.
fn write_in(store: &mut Store<Body>, id: u64, offset: u32, new: &[u8])
    requires { offset + length new.now ≤ length (bytes_in (memory_if (value_at store.old.items id))) }
    ensures items { store.new.items ≡ changed_if (on_memory (written offset new.now)) (Some id) store.old.items }
    ensures next { store.new.next ≡ store.old.next }
{
    store.sound();
    let Some(body) = store.get_mut(key_of(id)) else {
        return;
    };
    write_to(body, offset, new);
}

impl CountedCore {
    /// Bytes of a memory reference are overwritten from `offset` on.
    pub fn write_memory(&mut self, id: u64, offset: u32, bytes: &Bytes)
        requires { is_within (memory_of self.old.objects id) offset (length bytes.now) ≡ true }
        ensures { self.new ≡ memory_changed (written offset bytes.now) id self.old }
    {
        self.store.sound();
        write_in(&mut self.store, id, offset, bytes.as_slice());
    }
}
