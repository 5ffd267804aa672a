//! Messages that come, are opened and are retired, and the marks of ends.

ghost use Rattle.std.specs.Prelude.{◌≡◌, [], true, map, IfOk, OnErr, OnOk, IsSome, Some};
ghost use Rattle.std.specs.List.{flat_map, fold, list_all};
ghost use Rattle.std.specs.Option.{is_some};
ghost use Rattle.core_changes.specs.Changes.{marked};
ghost use Rattle.core_changes.specs.Looks.{messages_in};
ghost use Rattle.counted_core.specs.EndChanges.{end_after};
ghost use Rattle.counted_core.specs.Held.{changed_if};
ghost use Rattle.counted_core.specs.Found.{end_if};
ghost use Rattle.counted_core.specs.Retiring.{holding, opened_parts, retired_items};
ghost use Rattle.counted_core.specs.Sending.{AllThere, held_object};
ghost use Rattle.kernel_types.specs.Messages.{is_in_table, is_opened_as, part_objects, with_message, with_opened, without_opened};
ghost use Rattle.kernel_types.specs.Objects.{end_changed, end_of, on_end};
ghost use Rattle.kernel_types.specs.Tables.{table_of};
ghost use Rattle.object_store.specs.Stock.{unnamed, value_at};

use crate::counts::CountedCore;
use crate::ends::{EndChange, change_in};
use crate::pushes::{name_all, push_message};
use crate::room::reserve_names;
use crate::sweep::{key_of, unname_all};
use core_changes::core_changes::Mark;
use kernel_values::{Body, Bytes, Items, Message, NoMemory};
use object_store::Store;
use plain_objects::queues::remove_opened;
use std::alloc::Global;
use std::mem;

fn change_of(mark: Mark) -> EndChange
    ensures { end_after result ≡ marked mark }
{
    match mark {
        Mark::Blocked => EndChange::Block,
        Mark::Unblocked => EndChange::Unblock,
        Mark::Decided => EndChange::Decide,
        Mark::Reported(events) => EndChange::Report { events },
        Mark::Failed => EndChange::Fail,
    }
}

fn take_list(body: &mut Body, alloc: Global) -> Items<Message>
    ensures list { result ≡ messages_in (end_if (Some body.old)) }
    ensures body { body.new ≡ on_end (holding []) body.old }
{
    match body {
        Body::End(end) => mem::replace(&mut end.messages, Items::new(alloc)),
        _ => Items::new(alloc),
    }
}

/// The end holds no message any more; they are handed out.
fn take_messages(store: &mut Store<Body>, alloc: Global, id: u64) -> Items<Message>
    ensures list { result ≡ messages_in (end_if (value_at store.old.items id)) }
    ensures items { store.new.items ≡ changed_if (on_end (holding [])) (Some id) store.old.items }
    ensures next { store.new.next ≡ store.old.next }
{
    store.sound();
    let Some(body) = store.get_mut(key_of(id)) else {
        return Items::new(alloc);
    };
    take_list(body, alloc)
}

fn put_list(body: &mut Body, messages: Items<Message>)
    ensures { body.new ≡ on_end (holding messages) body.old }
{
    if let Body::End(end) = body {
        end.messages = messages;
    }
}

/// The end holds these messages.
fn put_messages(store: &mut Store<Body>, id: u64, messages: Items<Message>)
    ensures items { store.new.items ≡ changed_if (on_end (holding messages)) (Some id) store.old.items }
    ensures next { store.new.next ≡ store.old.next }
{
    store.sound();
    let Some(body) = store.get_mut(key_of(id)) else {
        return;
    };
    put_list(body, messages);
}

fn is_opened_as(message: &Message, id: u32) -> bool
    ensures { result ≡ is_opened_as id message.now }
{
    match message.opened {
        Some(other) => other == id,
        None => false,
    }
}

#[tactic(auto, unfolding(crate::specs::Retiring::opened_parts))]
fn unname_if_opened(store: &mut Store<Body>, message: &Message, id: u32)
    ensures items { store.new.items ≡ fold unnamed store.old.items (opened_parts id message.now) }
    ensures next { store.new.next ≡ store.old.next }
{
    if is_opened_as(message, id) {
        unname_all(store, message.parts.as_slice());
    }
}

/// What the messages that are opened under the id named is named no more by them.
fn unname_opened(store: &mut Store<Body>, messages: &[Message], id: u32)
    ensures items { store.new.items ≡ fold unnamed store.old.items (flat_map (opened_parts id) messages.now) }
    ensures next { store.new.next ≡ store.old.next }
{
    for message in messages {
        unname_if_opened(store, message, id);
    }
}

/// The messages of an end that are opened under the id go.
fn retire_in(store: &mut Store<Body>, alloc: Global, id: u64, number: u32)
    ensures items { store.new.items ≡ retired_items number id (messages_in (end_if (value_at store.old.items id))) store.old.items }
    ensures next { store.new.next ≡ store.old.next }
{
    let mut messages = take_messages(store, alloc, id);
    unname_opened(store, messages.as_slice(), number);
    remove_opened(&mut messages, number);
    put_messages(store, id, messages);
}

impl CountedCore {
    #[tactic(auto, unfolding(crate::specs::Sending::held_object))]
    pub(crate) fn held_object(&self, app: u32, handle: u32) -> u64
        ensures { result ≡ held_object self.now app handle }
    {
        match self.get(app, handle) {
            Some(slot) => slot.key.serial,
            None => 0,
        }
    }

    /// The objects that the numbers name.
    fn part_objects(&self, app: u32, parts: &[u32]) -> Result<Items<u64>, NoMemory>
        ensures { IfOk result (λ objects. objects ≡ map (held_object self.now app) parts.now) }
    {
        let mut objects = Items::new(self.allocator());
        for handle in parts {
            objects.push(self.held_object(app, *handle))?;
        }
        Ok(objects)
    }

    /// The message comes to the end of this number, and its parts are named once more.
    fn add_message(&mut self, id: u64, bytes: &Bytes, parts: &Items<u64>) -> Result<(), NoMemory>
        requires end { IsSome (end_of self.old.objects id) }
        requires parts { AllThere parts.now self.old }
        ensures ok { OnOk result (self.new ≡ end_changed (with_message bytes.now parts.now) id self.old) }
        ensures err { OnErr result (self.new ≡ self.old) }
    {
        self.store.sound();
        reserve_names(&self.store, &self.threads, parts.len())?;
        push_message(&mut self.store, id, bytes, parts)?;
        name_all(&mut self.store, parts.as_slice());
        Ok(())
    }

    /// A message with the objects of these numbers of the application's table comes to an end.
    #[tactic(auto, unfolding(crate::specs::Sending::held_object))]
    pub fn deliver(
        &mut self,
        to: u64,
        bytes: &Bytes,
        app: u32,
        parts: &[u32],
    ) -> Result<(), NoMemory>
        requires there { is_some (end_of self.old.objects to) ≡ true }
        requires held { list_all (is_in_table (table_of self.old app)) parts.now ≡ true }
        ensures ok { OnOk result (self.new ≡ end_changed (with_message bytes.now (part_objects (table_of self.old app) parts.now)) to self.old) }
        ensures err { OnErr result (self.new ≡ self.old) }
    {
        let objects = self.part_objects(app, parts)?;
        self.sound();
        self.add_message(to, bytes, &objects)
    }

    pub(crate) fn change_end(&mut self, id: u64, change: EndChange)
        ensures { self.new ≡ end_changed (end_after change) id self.old }
    {
        self.store.sound();
        change_in(&mut self.store, id, change);
    }

    /// An end is marked.
    pub fn mark_end(&mut self, id: u64, mark: Mark)
        ensures { self.new ≡ end_changed (marked mark) id self.old }
    {
        self.change_end(id, change_of(mark));
    }

    /// The oldest filled message of an end is opened under the id.
    pub fn open_message(&mut self, id: u64, number: u32)
        ensures { self.new ≡ end_changed (with_opened number) id self.old }
    {
        self.change_end(id, EndChange::Open { id: number });
    }

    /// The message of an end that is opened under the id is retired.
    pub fn retire_message(&mut self, id: u64, number: u32)
        ensures { self.new ≡ end_changed (without_opened number) id self.old }
    {
        let alloc = self.allocator();
        self.store.sound();
        retire_in(&mut self.store, alloc, id, number);
    }
}
