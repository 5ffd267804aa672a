//! Room that a change asks for before it changes anything.

ghost use Rattle.std.specs.Prelude.{◌<◌, ◌+◌, ◌^◌, length, OnOk};
ghost use Rattle.object_store.specs.Stock.{total_names};

use kernel_values::{Body, Items, NoMemory, Thread};
use object_store::Store;

/// Tells whether `n` more names can be counted, and one more of each thread, which may begin to wait at any time.
pub fn reserve_names(store: &Store<Body>, threads: &Items<Thread>, n: usize) -> Result<(), NoMemory>
    ensures { OnOk result (total_names store.now.items + n + length threads.now < 2 ^ 64) }
{
    let Some(all) = (n as u64).checked_add(threads.len() as u64) else {
        return Err(NoMemory);
    };
    store.reserve_names(all)
}
