//! The core with its counts: at every moment it stands for one state of the model, in which each object's count is exact.

ghost use Rattle.std.specs.Prelude.{◌≡◌, Some};
ghost use Rattle.std.specs.Option.{option_map};
ghost use Rattle.handle_table.specs.Places.{slot_entry};
ghost use Rattle.kernel_types.specs.Sweep.{sweep};
ghost use Rattle.kernel_types.specs.Reports.{with_last_reported};
ghost use Rattle.kernel_types.specs.Tables.{entry_at, remove_entry, table_of, with_cookie, with_table};
ghost use Rattle.count_laws.specs.Dropping.{Ranked};
ghost use Rattle.counted_core.specs.Sending.{AllHeldThere, AllPendingThere};
ghost use Rattle.count_laws.specs.Thinning.{Fit};

use crate::apps::AppState;
use crate::sweep;
use handle_table::Slot;
use kernel_values::{Body, Items, Thread};
use object_store::Store;
use std::alloc::Global;
use std::marker::Model;

/// A state of the model. Each object's count is how often it is named, and one more for the store. Whatever is named, the
/// name of a wait of each thread can be counted besides, so that a wait begins without being refused.
#[derive(Drop)]
pub struct CountedCore {
    pub(crate) apps: Items<AppState>,
    pub(crate) threads: Items<Thread>,
    pub(crate) store: Store<Body>,
    pub(crate) clock: u64,
    pub(crate) bridged: Items<u64>,
}

impl Model for CountedCore {
    ghost use Rattle.kernel_values.specs.declared.state.CoreState.{CoreState};
    ghost use Rattle.counted_core.specs.Sweeping.{core_of};
    ghost use Rattle.counted_core.specs.Waiting.{IsExact};

    ghost Value = { CoreState };

    ghost view = { λ k. core_of k.apps k.threads k.store.items k.store.next k.clock k.bridged };

    ghost invariant = { λ k. IsExact (core_of k.apps k.threads k.store.items k.store.next k.clock k.bridged) k.store.items };
}

impl CountedCore {
    /// What a number of the application stands for, where it is in use.
    pub fn get(&self, app: u32, handle: u32) -> Option<Slot>
        ensures { option_map (slot_entry handle) result ≡ entry_at (table_of self.now app) handle }
    {
        match self.apps.get(app as usize) {
            Some(state) => state.get(handle),
            None => None,
        }
    }

    pub fn allocator(&self) -> Global {
        self.apps.allocator()
    }

    /// What holds of every core: what the numbers of tables name is there. It does nothing.
    pub fn sound(&self)
        ensures { AllHeldThere self.now }
    {
        let _ = &self.store;
    }

    /// What ports list is there. It does nothing.
    pub fn sound_ports(&self)
        ensures { AllPendingThere self.now }
    {
        let _ = &self.store;
    }

    /// The number goes from the application's table. Takes no memory.
    pub fn remove_entry(&mut self, app: u32, handle: u32)
        ensures { self.new ≡ remove_entry app handle self.old }
    {
        self.store.sound();
        let Some(state) = self.apps.get_mut(app as usize) else {
            return;
        };
        state.sound();
        let Some(slot) = state.take(handle) else {
            return;
        };
        self.store.unname(slot.key);
    }

    /// Another cookie is kept with the number. Takes no memory.
    pub fn set_cookie(&mut self, app: u32, handle: u32, cookie: u64)
        ensures { self.new ≡ with_table (λ table. with_cookie table handle cookie) app self.old }
    {
        let Some(state) = self.apps.get_mut(app as usize) else {
            return;
        };
        state.set_cookie(handle, cookie);
    }

    /// The number that a wait for any reported last is noted. Takes no memory.
    pub fn set_last(&mut self, app: u32, handle: u32)
        ensures { self.new ≡ with_last_reported app handle self.old }
    {
        let Some(state) = self.apps.get_mut(app as usize) else {
            return;
        };
        state.set_last(handle);
    }

    /// Ends what nothing reaches any more. Takes no memory.
    pub fn sweep(&mut self)
        requires fit { Fit self.old }
        requires ranked { Ranked self.old }
        ensures state { self.new ≡ sweep self.old }
        ensures fit { Fit self.new }
        ensures ranked { Ranked self.new }
    {
        sweep::sweep(&mut self.store);
    }
}
