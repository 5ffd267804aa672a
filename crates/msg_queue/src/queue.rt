//! The queue of one end.

ghost use Rattle.std.specs.Prelude.{◌≡◌, ◌≤◌, ◌<◌, ◌+◌, ◌-◌, ◌^◌, [], length, Some, None, option_map, option_copied, slice_get, nat_le, count_by, IfOk, IfNone, OnOk, OnErr};
ghost use Rattle.std.specs.List.{list_any};
ghost use Rattle.msg_queue.specs.Messages.{Queued, is_filled, first_filled, opened_at, free_id, pushed, with_opened, opened_answer, without_opened, retired_answer, read_count, read_out, length_of, parts_of};

use crate::place::{Place, filled_count, filled_place, least_free_id, opened_place};
use kernel_values::NoMemory;
use object_store::Parts;
use std::alloc::Global;
use std::marker::Model;

/// All slots are in use.
#[derive(Clone, Copy, PartialEq, Eq, Debug)]
pub struct Full;

/// What opening a message tells.
#[derive(Clone, Copy, PartialEq, Eq, Debug)]
pub struct Opened {
    /// The id under which the message is read and retired.
    pub id: u32,
    /// Its number of bytes.
    pub len: u32,
    /// Its number of keys.
    pub parts: u32,
    /// Its sequence number.
    pub seq: u32,
}

/// What is left of a message that is retired.
#[derive(Drop)]
pub struct Retired {
    /// Its sequence number.
    pub seq: u32,
    /// Its keys, whose names are now to be given up.
    pub parts: Parts,
}

/// Messages in the order of their sequence numbers, and how many more there is room for.
#[derive(Drop)]
pub struct Queue {
    slots: u32,
    size: u32,
    next: u32,
    // The places that hold a message, in order.
    messages: Vec<Place>,
    // The other places.
    spare: Vec<Place>,
}

impl Model for Queue {
    ghost use Rattle.msg_queue.specs.Messages.{Queued};

    ghost Value = { Queued };

    ghost use Rattle.msg_queue.specs.Places.{messages_of, IsQueue};

    ghost view = { λ q. record { slots = q.slots; size = q.size; next = q.next; messages = messages_of q.messages.items } };

    ghost invariant = { λ q. IsQueue q.slots q.size q.messages q.spare };
}

impl Queue {
    /// A queue of so many slots of so many bytes each, which are all made here.
    pub fn new(alloc: Global, slots: u32, size: u32) -> Result<Queue, NoMemory>
        requires some { 1 ≤ slots }
        requires few { slots ≤ 32 }
        requires filled { 1 ≤ size }
        requires short { size ≤ 4096 }
        ensures { IfOk result (λ queue. queue ≡ record { slots = slots; size = size; next = 0; messages = [] }) }
    {
        let messages = Vec::with_capacity(alloc, slots as usize)?;
        let mut spare = Vec::with_capacity(alloc, slots as usize)?;
        for _ in 0..slots {
            spare.push(Place::new(alloc, size as usize)?)?;
        }
        Ok(Queue {
            slots,
            size,
            next: 0,
            messages,
            spare,
        })
    }

    /// A queue without slots, which is always full. Nothing is allocated.
    pub fn without_slots(alloc: Global) -> Queue
        ensures { result ≡ record { slots = 0; size = 0; next = 0; messages = [] } }
    {
        Queue {
            slots: 0,
            size: 0,
            next: 0,
            messages: Vec::new(alloc),
            spare: Vec::new(alloc),
        }
    }

    /// Takes in a message and tells its sequence number. The queue is full exactly where its messages,
    /// filled or opened, are as many as its slots.
    pub fn push(&mut self, bytes: &[u8], parts: &Parts) -> Result<u32, Full>
        requires fits { length bytes.now ≤ self.old.size }
        requires next { self.old.next < 2 ^ 32 - 1 }
        ensures full { OnErr result (length self.old.messages ≡ self.old.slots) }
        ensures room { OnOk result (length self.old.messages < self.old.slots) }
        ensures seq { IfOk result (λ seq. seq ≡ self.old.next) }
        ensures message { OnOk result (self.new ≡ pushed self.old bytes.now parts.now) }
        ensures same { OnErr result (self.new ≡ self.old) }
    {
        let Some(mut place) = self.spare.pop() else {
            return Err(Full);
        };
        let seq = self.next;
        place.fill(seq, bytes, parts);
        self.messages.push_reserved(place);
        self.next += 1;
        Ok(seq)
    }

    /// Opens the oldest filled message under the least free id, where there is one.
    pub fn open_next(&mut self) -> Option<Opened>
        ensures opened { result ≡ option_map (opened_answer (free_id self.old.messages)) (first_filled self.old.messages) }
        ensures messages { self.new ≡ record self.old { messages = with_opened self.old.messages } }
        ensures same { IfNone result (self.new ≡ self.old) }
    {
        let Some(at) = filled_place(&self.messages) else {
            return None;
        };
        let id = least_free_id(&self.messages);
        let place = &mut self.messages[at];
        let opened = Opened {
            id,
            len: place.bytes.len() as u32,
            parts: place.parts.len(),
            seq: place.seq,
        };
        place.opened = Some(id);
        Some(opened)
    }

    /// Writes the bytes of the message opened under the id over the beginning of `out`, from the offset
    /// on and as many as `out` holds, and tells how many. None exactly where no message is opened under
    /// the id or the offset is past its length; `out` then stays.
    pub fn read(&self, id: u32, offset: u32, out: &mut [u8]) -> Option<usize>
        ensures count { result ≡ read_count offset (length out.old) (opened_at self.now.messages id) }
        ensures out { out.new ≡ read_out offset out.old (opened_at self.now.messages id) }
    {
        match opened_place(&self.messages, id) {
            Some(at) => self.messages[at].read(offset, out),
            None => None,
        }
    }

    /// The length of the oldest filled message, where there is one. As much of its beginning as `out`
    /// holds is written over the beginning of `out`.
    pub fn peek(&self, out: &mut [u8]) -> Option<u32>
        ensures len { result ≡ option_map length_of (first_filled self.now.messages) }
        ensures out { out.new ≡ read_out 0 out.old (first_filled self.now.messages) }
    {
        match filled_place(&self.messages) {
            Some(at) => {
                let place = &self.messages[at];
                place.read(0, out);
                Some(place.bytes.len() as u32)
            }
            None => None,
        }
    }

    /// The keys of the message opened under the id, where there is one.
    pub fn parts(&self, id: u32) -> Option<Parts>
        ensures { result ≡ option_map parts_of (opened_at self.now.messages id) }
    {
        match opened_place(&self.messages, id) {
            Some(at) => Some(self.messages[at].parts.copied()),
            None => None,
        }
    }

    /// Takes the message opened under the id out of the queue, where there is one.
    pub fn retire(&mut self, id: u32) -> Option<Retired>
        ensures retired { result ≡ option_map retired_answer (opened_at self.old.messages id) }
        ensures messages { self.new ≡ record self.old { messages = without_opened id self.old.messages } }
        ensures same { IfNone result (self.new ≡ self.old) }
    {
        let Some(at) = opened_place(&self.messages, id) else {
            return None;
        };
        let place = self.messages.remove(at);
        let retired = Retired {
            seq: place.seq,
            parts: place.parts.copied(),
        };
        self.spare.push_reserved(place);
        Some(retired)
    }

    /// The keys of the message at a place, filled or opened, counted from 0 in the order in which they were
    /// sent.
    pub fn parts_at(&self, at: usize) -> Option<&Parts>
        ensures { option_copied result ≡ option_map parts_of (slice_get self.now.messages at) }
    {
        match self.messages.get(at) {
            Some(place) => Some(&place.parts),
            None => None,
        }
    }

    /// Whether all slots are in use.
    pub fn is_full(&self) -> bool
        ensures { result ≡ nat_le self.now.slots (length self.now.messages) }
    {
        self.slots as usize <= self.messages.len()
    }

    /// Whether a message is filled.
    pub fn has_filled(&self) -> bool
        ensures { result ≡ list_any is_filled self.now.messages }
    {
        match filled_place(&self.messages) {
            Some(_at) => true,
            None => false,
        }
    }

    /// How many messages are filled.
    pub fn filled(&self) -> u32
        ensures { result ≡ count_by is_filled self.now.messages }
    {
        filled_count(&self.messages) as u32
    }

    /// How many messages are opened: all others.
    pub fn opened(&self) -> u32
        ensures { result + count_by is_filled self.now.messages ≡ length self.now.messages }
    {
        (self.messages.len() - filled_count(&self.messages)) as u32
    }

    /// How many slots there are.
    pub fn slots(&self) -> u32
        ensures { result ≡ self.now.slots }
    {
        self.slots
    }

    /// How many bytes a slot holds.
    pub fn size(&self) -> u32
        ensures { result ≡ self.now.size }
    {
        self.size
    }

    /// What holds of every queue: its messages are no more than its slots, and there are at most 32
    /// slots of at most 4,096 bytes. It does nothing.
    pub fn sound(&self)
        ensures most { length self.now.messages ≤ self.now.slots }
        ensures few { self.now.slots ≤ 32 }
        ensures short { self.now.size ≤ 4096 }
    {
        let _ = &self.messages;
    }
}
