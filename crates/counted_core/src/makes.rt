//! New objects, each with a number of a table.

ghost use Rattle.std.specs.Prelude.{◌≡◌, ◌+◌, ◌++◌, ◌∷◌, ◌<◌, ◌^◌, [], false, length, replicate, slice_get, true, IfOk, OnErr, OnOk};
ghost use Rattle.counted_core.specs.Installing.{named_by};
ghost use Rattle.kernel_types.specs.Memories.{is_lawful_size, new_memory};
ghost use Rattle.kernel_types.specs.Objects.{added, map_at};
ghost use Rattle.kernel_types.specs.Tables.{free_handle, install, installed, is_full, table_changed, table_in, table_of};
ghost use Rattle.kernel_values.specs.declared.state.Body.TheVariants as body;
ghost use Rattle.object_store.specs.Stock.{new_held, total_names};

use crate::apps::AppState;
use crate::counts::CountedCore;
use crate::room::reserve_names;
use crate::tables::install;
use kernel_values::{Body, Bytes, HandleSet, Items, MemFlags, MemoryRef, NoMemory, Thread};
use object_store::Store;
use std::alloc::Global;

fn zeros(alloc: Global, size: u32) -> Result<Bytes, NoMemory>
    ensures { IfOk result (λ bytes. bytes ≡ replicate size 0) }
{
    let mut bytes = Items::new(alloc);
    for _turn in 0..size {
        bytes.push(0)?;
    }
    Ok(bytes)
}

/// New memory is zero.
#[tactic(auto, unfolding(kernel_types::specs::Memories::new_memory))]
fn new_memory(alloc: Global, size: u32, flags: MemFlags) -> Result<MemoryRef, NoMemory>
    ensures { IfOk result (λ memory. memory ≡ new_memory size flags) }
{
    Ok(MemoryRef {
        bytes: zeros(alloc, size)?,
        flags,
    })
}

/// The value becomes the next object, which gets the least free number of the application's table. Refused, nothing is done.
pub fn put_installed(
    apps: &mut Items<AppState>,
    threads: &Items<Thread>,
    store: &mut Store<Body>,
    app: u32,
    body: Body,
) -> Result<u32, NoMemory>
    requires { is_full (table_in (slice_get apps.old app)) ≡ false }
    ensures handle { IfOk result (λ handle. handle ≡ free_handle (table_in (slice_get apps.old app))) }
    ensures apps { OnOk result (apps.new ≡ map_at (table_changed (λ table. installed table store.old.next)) apps.old app) }
    ensures items { OnOk result (store.new.items ≡ named_by (slice_get apps.old app) store.old.next (store.old.items ++ new_held store.old.next body ∷ [])) }
    ensures next { OnOk result (store.new.next ≡ store.old.next + 1) }
    ensures names { OnOk result (total_names store.old.items + 2 + length threads.now < 2 ^ 64) }
    ensures same_apps { OnErr result (apps.new ≡ apps.old) }
    ensures same_items { OnErr result (store.new.items ≡ store.old.items) }
    ensures same_next { OnErr result (store.new.next ≡ store.old.next) }
{
    if store.next() == u64::MAX {
        drop(body);
        return Err(NoMemory);
    }
    let Ok(()) = reserve_names(store, threads, 2) else {
        drop(body);
        return Err(NoMemory);
    };
    match store.put(body) {
        Ok(key) => Ok(install(apps, store, app, key)),
        Err(refused) => {
            drop(refused);
            Err(NoMemory)
        }
    }
}

impl CountedCore {
    /// A memory reference.
    pub fn make_memory(&mut self, app: u32, size: u32, flags: MemFlags) -> Result<u32, NoMemory>
        requires size { is_lawful_size size ≡ true }
        requires room { is_full (table_of self.old app) ≡ false }
        ensures ok { IfOk result (λ handle. handle ≡ free_handle (table_of self.old app)) }
        ensures made { OnOk result (self.new ≡ install app self.old.next (added (body.Memory (new_memory size flags)) self.old)) }
        ensures err { OnErr result (self.new ≡ self.old) }
    {
        let memory = new_memory(self.allocator(), size, flags)?;
        self.store.sound();
        Ok(put_installed(
            &mut self.apps,
            &self.threads,
            &mut self.store,
            app,
            Body::Memory(memory),
        )?)
    }

    /// An empty set.
    pub fn make_set(&mut self, app: u32) -> Result<u32, NoMemory>
        requires room { is_full (table_of self.old app) ≡ false }
        ensures ok { IfOk result (λ handle. handle ≡ free_handle (table_of self.old app)) }
        ensures made { OnOk result (self.new ≡ install app self.old.next (added (body.Set (record { members = [] })) self.old)) }
        ensures err { OnErr result (self.new ≡ self.old) }
    {
        let members = Items::new(self.allocator());
        self.store.sound();
        Ok(put_installed(
            &mut self.apps,
            &self.threads,
            &mut self.store,
            app,
            Body::Set(HandleSet { members }),
        )?)
    }
}
