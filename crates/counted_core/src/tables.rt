//! What numbers of tables stand for, and new numbers for objects.

ghost use Rattle.std.specs.Prelude.{◌≡◌, ◌+◌, ◌-◌, ◌<◌, ◌^◌, false, length, min, slice_get, take, true, IfOk, OnErr, OnOk};
ghost use Rattle.std.specs.List.{find};
ghost use Rattle.core_changes.specs.Looks.{message_parts, messages_in};
ghost use Rattle.counted_core.specs.Installing.{named_by};
ghost use Rattle.kernel_types.specs.Messages.{all_handles, all_installed, entry_object, is_in_table, is_opened_as};
ghost use Rattle.kernel_types.specs.Objects.{end_of, map_at};
ghost use Rattle.kernel_types.specs.Tables.{entry_at, free_handle, has_room, install, installed, is_full, table_changed, table_in, table_of, with_table};
ghost use Rattle.object_store.specs.Stock.{total_names};

use crate::apps::AppState;
use crate::counts::CountedCore;
use crate::pushes::name_all;
use crate::room::reserve_names;
use kernel_values::{Body, Handles, Items, NoMemory, TableEntry};
use object_store::{ObjKey, Store};
use plain_objects::queues::find_opened;

/// How many numbers of the application's table are free; a table that is not there is empty.
fn free_in(apps: &Items<AppState>, app: u32) -> u32
    ensures { result + length (table_in (slice_get apps.now app)) ≡ 64 }
{
    match apps.get(app as usize) {
        Some(state) => state.free(),
        None => 64,
    }
}

/// The object gets the least free number of the application's table, and one name more. Where there is no such application, nothing is done.
#[tactic(auto, unfolding(kernel_types::specs::Tables::free_handle))]
pub fn install(apps: &mut Items<AppState>, store: &mut Store<Body>, app: u32, key: ObjKey) -> u32
    requires room { is_full (table_in (slice_get apps.old app)) ≡ false }
    requires names { total_names store.old.items < 2 ^ 64 - 1 }
    ensures handle { result ≡ free_handle (table_in (slice_get apps.old app)) }
    ensures apps { apps.new ≡ map_at (table_changed (λ table. installed table key.serial)) apps.old app }
    ensures items { store.new.items ≡ named_by (slice_get apps.old app) key.serial store.old.items }
    ensures next { store.new.next ≡ store.old.next }
{
    let Some(state) = apps.get_mut(app as usize) else {
        return 0;
    };
    let handle = state.give(key);
    store.name(key);
    handle
}

impl CountedCore {
    /// What a number of the application's table stands for.
    pub fn entry(&self, app: u32, handle: u32) -> Option<TableEntry>
        ensures { result ≡ entry_at (table_of self.now app) handle }
    {
        match self.get(app, handle) {
            Some(slot) => Some(TableEntry {
                handle,
                object: slot.key.serial,
                cookie: slot.cookie,
            }),
            None => None,
        }
    }

    /// Whether the application's table has no number left.
    #[tactic(auto, unfolding(kernel_types::specs::Tables::is_full))]
    pub fn is_full(&self, app: u32) -> bool
        ensures { result ≡ is_full (table_of self.now app) }
    {
        free_in(&self.apps, app) == 0
    }

    /// Whether the application's table has so many numbers left.
    #[tactic(auto, unfolding(kernel_types::specs::Tables::has_room))]
    pub fn has_room(&self, app: u32, count: usize) -> bool
        ensures { result ≡ has_room count (table_of self.now app) }
    {
        count <= free_in(&self.apps, app) as usize
    }

    /// The object of a number gets one more number, which is the answer.
    pub fn copy_entry(&mut self, app: u32, handle: u32) -> Result<u32, NoMemory>
        requires held { is_in_table (table_of self.old app) handle ≡ true }
        requires room { is_full (table_of self.old app) ≡ false }
        ensures ok { IfOk result (λ copy. copy ≡ free_handle (table_of self.old app)) }
        ensures copied { OnOk result (self.new ≡ install app (entry_object (entry_at (table_of self.old app) handle)) self.old) }
        ensures err { OnErr result (self.new ≡ self.old) }
    {
        let Some(slot) = self.get(app, handle) else {
            return Err(NoMemory);
        };
        reserve_names(&self.store, &self.threads, 1)?;
        self.store.sound();
        Ok(install(&mut self.apps, &mut self.store, app, slot.key))
    }

    /// The first objects of a message that is opened under this id.
    fn first_parts(&self, id: u64, number: u32, count: usize) -> Result<Items<u64>, NoMemory>
        ensures { IfOk result (λ parts. parts ≡ take count (message_parts (find (is_opened_as number) (messages_in (end_of self.now.objects id))))) }
    {
        let alloc = self.allocator();
        let Some(end) = self.find_end(id) else {
            return Ok(Items::new(alloc));
        };
        let Some(message) = find_opened(end.messages.as_slice(), number) else {
            return Ok(Items::new(alloc));
        };
        let parts = message.parts.as_slice();
        let count = count.min(parts.len());
        Items::from_slice(alloc, &parts[..count])
    }

    /// The first objects of a message that is opened under this id get numbers of the table, which are the answer.
    pub fn install_parts(
        &mut self,
        app: u32,
        id: u64,
        number: u32,
        count: u32,
    ) -> Result<Handles, NoMemory>
        requires room { has_room (min count (length (message_parts (find (is_opened_as number) (messages_in (end_of self.old.objects id)))))) (table_of self.old app) ≡ true }
        ensures ok { IfOk result (λ handles. handles ≡ all_handles (table_of self.old app) (take count (message_parts (find (is_opened_as number) (messages_in (end_of self.old.objects id)))))) }
        ensures installed { OnOk result (self.new ≡ with_table (λ table. all_installed table (take count (message_parts (find (is_opened_as number) (messages_in (end_of self.old.objects id)))))) app self.old) }
        ensures err { OnErr result (self.new ≡ self.old) }
    {
        let parts = self.first_parts(id, number, count as usize)?;
        reserve_names(&self.store, &self.threads, parts.len())?;
        let mut handles = Vec::with_capacity(self.allocator(), parts.len())?;
        self.store.sound();
        let Some(state) = self.apps.get_mut(app as usize) else {
            return Err(NoMemory);
        };
        state.give_all(parts.as_slice(), &mut handles);
        name_all(&mut self.store, parts.as_slice());
        Ok(Items::from_vec(handles))
    }
}
