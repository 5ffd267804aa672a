//! What a call sees of ends, messages, ports and memory references.

ghost use Rattle.std.specs.Prelude.{◌≡◌, true, drop, take, IfOk, option_copied};
ghost use Rattle.std.specs.List.{find};
ghost use Rattle.std.specs.Option.{option_map};
ghost use Rattle.core_changes.specs.Changes.{is_within};
ghost use Rattle.core_changes.specs.Looks.{bytes_in, look_of_end, look_of_memory, look_of_message, look_of_port, message_bytes, messages_in};
ghost use Rattle.counted_core.specs.Found.{end_if, memory_if, port_if, set_if};
ghost use Rattle.kernel_types.specs.Events.{is_filled};
ghost use Rattle.kernel_types.specs.Messages.{free_id, is_opened_as};
ghost use Rattle.kernel_types.specs.Objects.{end_of, is_there, memory_of, port_of, set_of};
ghost use Rattle.object_store.specs.Stock.{value_at};

use crate::counts::CountedCore;
use crate::sweep::key_of;
use core_changes::looks::{EndLook, MemoryLook, MessageLook, PortLook};
use kernel_values::{
    Body, Bytes, ChannelEnd, HandleSet, Items, MemoryRef, Message, NoMemory, Port,
};
use object_store::Store;
use plain_objects::queues::{find_filled, find_opened, least_free_id};
use std::alloc::Global;

fn end_at(store: &Store<Body>, id: u64) -> Option<&ChannelEnd>
    ensures { option_copied result ≡ end_if (value_at store.now.items id) }
{
    match store.get(key_of(id)) {
        Some(Body::End(end)) => Some(end),
        _ => None,
    }
}

fn port_at(store: &Store<Body>, id: u64) -> Option<&Port>
    ensures { option_copied result ≡ port_if (value_at store.now.items id) }
{
    match store.get(key_of(id)) {
        Some(Body::Port(port)) => Some(port),
        _ => None,
    }
}

fn set_at(store: &Store<Body>, id: u64) -> Option<&HandleSet>
    ensures { option_copied result ≡ set_if (value_at store.now.items id) }
{
    match store.get(key_of(id)) {
        Some(Body::Set(set)) => Some(set),
        _ => None,
    }
}

fn memory_at(store: &Store<Body>, id: u64) -> Option<&MemoryRef>
    ensures { option_copied result ≡ memory_if (value_at store.now.items id) }
{
    match store.get(key_of(id)) {
        Some(Body::Memory(memory)) => Some(memory),
        _ => None,
    }
}

fn look_of_end(end: &ChannelEnd) -> EndLook
    ensures { result ≡ look_of_end end.now }
{
    EndLook {
        state: end.state,
        peer: end.peer,
        client: end.client,
        slots: end.slots,
        size: end.size,
        held: end.messages.len(),
        sent: end.sent,
        accepted: end.accepted,
    }
}

fn look_of_message(message: &Message) -> MessageLook
    ensures { result ≡ look_of_message message.now }
{
    MessageLook {
        seq: message.seq,
        len: message.bytes.len(),
        parts: message.parts.len(),
    }
}

fn look_of_port(port: &Port) -> PortLook
    ensures { result ≡ look_of_port port.now }
{
    let first = match port.pending.as_slice() {
        [server, ..] => Some(*server),
        [] => None,
    };
    PortLook { first }
}

fn look_of_memory(memory: &MemoryRef) -> MemoryLook
    ensures { result ≡ look_of_memory memory.now }
{
    MemoryLook {
        len: memory.bytes.len(),
        flags: memory.flags,
    }
}

/// At most `room` bytes from `offset` on.
fn part_of(alloc: Global, bytes: &[u8], offset: usize, room: usize) -> Result<Bytes, NoMemory>
    ensures { IfOk result (λ part. part ≡ take room (drop offset bytes.now)) }
{
    if bytes.len() < offset {
        return Ok(Items::new(alloc));
    }
    let rest = &bytes[offset..];
    let count = room.min(rest.len());
    Items::from_slice(alloc, &rest[..count])
}

impl CountedCore {
    /// The channel end of this number, where the object is one.
    pub(crate) fn find_end(&self, id: u64) -> Option<&ChannelEnd>
        ensures { option_copied result ≡ end_of self.now.objects id }
    {
        end_at(&self.store, id)
    }

    /// The port of this number, where the object is one.
    pub(crate) fn find_port(&self, id: u64) -> Option<&Port>
        ensures { option_copied result ≡ port_of self.now.objects id }
    {
        port_at(&self.store, id)
    }

    /// The handle set of this number, where the object is one.
    pub(crate) fn find_set(&self, id: u64) -> Option<&HandleSet>
        ensures { option_copied result ≡ set_of self.now.objects id }
    {
        set_at(&self.store, id)
    }

    /// The memory reference of this number, where the object is one.
    pub(crate) fn find_memory(&self, id: u64) -> Option<&MemoryRef>
        ensures { option_copied result ≡ memory_of self.now.objects id }
    {
        memory_at(&self.store, id)
    }

    /// Whether there is an object with this number.
    pub fn is_there(&self, id: u64) -> bool
        ensures { result ≡ is_there self.now.objects id }
    {
        self.store.lives(key_of(id))
    }

    /// What is seen of the channel end of this number.
    pub fn end(&self, id: u64) -> Option<EndLook>
        ensures { result ≡ option_map look_of_end (end_of self.now.objects id) }
    {
        match self.find_end(id) {
            Some(end) => Some(look_of_end(end)),
            None => None,
        }
    }

    /// The oldest filled message of an end.
    pub fn first_filled(&self, id: u64) -> Option<MessageLook>
        ensures { result ≡ option_map look_of_message (find is_filled (messages_in (end_of self.now.objects id))) }
    {
        let end = self.find_end(id)?;
        match find_filled(end.messages.as_slice()) {
            Some(message) => Some(look_of_message(message)),
            None => None,
        }
    }

    /// The message of an end that is opened under this id.
    pub fn opened(&self, id: u64, number: u32) -> Option<MessageLook>
        ensures { result ≡ option_map look_of_message (find (is_opened_as number) (messages_in (end_of self.now.objects id))) }
    {
        let end = self.find_end(id)?;
        match find_opened(end.messages.as_slice(), number) {
            Some(message) => Some(look_of_message(message)),
            None => None,
        }
    }

    /// The least id from 1 that no opened message of the end has. Out of memory, where an end holds more messages than
    /// ids can tell.
    #[tactic(auto, unfolding(kernel_types::specs::Messages::free_id))]
    pub fn free_id(&self, id: u64) -> Result<u32, NoMemory>
        ensures { IfOk result (λ number. number ≡ free_id (messages_in (end_of self.now.objects id))) }
    {
        match self.find_end(id) {
            Some(end) => least_free_id(end.messages.as_slice()),
            None => Ok(1),
        }
    }

    /// At most `room` bytes of the message that is opened under this id, from `offset` on.
    pub fn message_bytes(
        &self,
        id: u64,
        number: u32,
        offset: u32,
        room: u32,
    ) -> Result<Bytes, NoMemory>
        ensures { IfOk result (λ bytes. bytes ≡ take room (drop offset (message_bytes (find (is_opened_as number) (messages_in (end_of self.now.objects id)))))) }
    {
        let alloc = self.allocator();
        let Some(end) = self.find_end(id) else {
            return part_of(alloc, &[], offset as usize, room as usize);
        };
        match find_opened(end.messages.as_slice(), number) {
            Some(message) => part_of(
                alloc,
                message.bytes.as_slice(),
                offset as usize,
                room as usize,
            ),
            None => part_of(alloc, &[], offset as usize, room as usize),
        }
    }

    /// The bytes of the oldest filled message of an end.
    pub fn filled_bytes(&self, id: u64) -> Result<Bytes, NoMemory>
        ensures { IfOk result (λ bytes. bytes ≡ message_bytes (find is_filled (messages_in (end_of self.now.objects id)))) }
    {
        let alloc = self.allocator();
        let Some(end) = self.find_end(id) else {
            return Ok(Items::new(alloc));
        };
        match find_filled(end.messages.as_slice()) {
            Some(message) => Items::from_slice(alloc, message.bytes.as_slice()),
            None => Ok(Items::new(alloc)),
        }
    }

    /// What is seen of the port of this number.
    pub fn port(&self, id: u64) -> Option<PortLook>
        ensures { result ≡ option_map look_of_port (port_of self.now.objects id) }
    {
        match self.find_port(id) {
            Some(port) => Some(look_of_port(port)),
            None => None,
        }
    }

    /// What is seen of the memory reference of this number.
    pub fn memory(&self, id: u64) -> Option<MemoryLook>
        ensures { result ≡ option_map look_of_memory (memory_of self.now.objects id) }
    {
        match self.find_memory(id) {
            Some(memory) => Some(look_of_memory(memory)),
            None => None,
        }
    }

    /// `len` bytes of a memory reference, from `offset` on.
    pub fn memory_bytes(&self, id: u64, offset: u32, len: u32) -> Result<Bytes, NoMemory>
        requires { is_within (memory_of self.now.objects id) offset len ≡ true }
        ensures { IfOk result (λ bytes. bytes ≡ take len (drop offset (bytes_in (memory_of self.now.objects id)))) }
    {
        let alloc = self.allocator();
        match self.find_memory(id) {
            Some(memory) => part_of(
                alloc,
                memory.bytes.as_slice(),
                offset as usize,
                len as usize,
            ),
            None => part_of(alloc, &[], offset as usize, len as usize),
        }
    }
}
