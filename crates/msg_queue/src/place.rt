//! One place for a message, with a buffer that it keeps.

ghost use Rattle.std.specs.Prelude.{◌≡◌, ◌≤◌, ◌<◌, ◌+◌, [], length, count_by, min, Some, None, IfOk, vec_capacity};
ghost use Rattle.std.specs.List.{position};
ghost use Rattle.msg_queue.specs.Messages.{is_filled, is_opened_as, overwritten, read_count, read_out, free_id};
ghost use Rattle.msg_queue.specs.Places.{message_of, messages_of};

use kernel_values::NoMemory;
use object_store::Parts;
use std::alloc::Global;

/// A place and the message in it. A place that is not in use holds an old message.
#[derive(Drop)]
pub struct Place {
    pub seq: u32,
    pub bytes: Vec<u8>,
    pub parts: Parts,
    pub opened: Option<u32>,
}

impl Place {
    /// A place with room for `size` bytes.
    pub fn new(alloc: Global, size: usize) -> Result<Place, NoMemory>
        ensures room { IfOk result (λ place. vec_capacity place.bytes ≡ size) }
        ensures empty { IfOk result (λ place. place.bytes.items ≡ []) }
    {
        let bytes = Vec::with_capacity(alloc, size)?;
        Ok(Place {
            seq: 0,
            bytes,
            parts: Parts::new(),
            opened: None,
        })
    }

    /// Takes in a message. There is room for its bytes.
    pub fn fill(&mut self, seq: u32, bytes: &[u8], parts: &Parts)
        requires { length bytes.now ≤ vec_capacity self.old.bytes }
        ensures seq { self.new.seq ≡ seq }
        ensures bytes { self.new.bytes.items ≡ bytes.now }
        ensures parts { self.new.parts ≡ parts.now }
        ensures opened { self.new.opened ≡ None }
        ensures room { vec_capacity self.old.bytes ≤ vec_capacity self.new.bytes }
    {
        self.bytes.clear();
        if self.bytes.extend_from_slice(bytes).is_err() {
            unreachable!();
        }
        self.seq = seq;
        self.parts = parts.copied();
        self.opened = None;
    }

    /// Whether the message is not opened yet.
    pub fn is_filled(&self) -> bool
        ensures { result ≡ is_filled (message_of self.now) }
    {
        self.opened.is_none()
    }

    /// Whether the message is opened under the id.
    pub fn is_opened_as(&self, id: u32) -> bool
        ensures { result ≡ is_opened_as id (message_of self.now) }
    {
        match self.opened {
            Some(other) => other == id,
            None => false,
        }
    }

    /// Writes the message's bytes from the offset on over the beginning of `out`.
    pub fn read(&self, offset: u32, out: &mut [u8]) -> Option<usize>
        ensures count { result ≡ read_count offset (length out.old) (Some (message_of self.now)) }
        ensures out { out.new ≡ read_out offset out.old (Some (message_of self.now)) }
    {
        if self.bytes.len() < offset as usize {
            return None;
        }
        let bytes = self.bytes.as_slice();
        Some(overwrite(&bytes[offset as usize..], out))
    }
}

/// Writes the bytes over the beginning of `out`, as many as it holds, and tells how many.
pub fn overwrite(bytes: &[u8], out: &mut [u8]) -> usize
    ensures count { result ≡ min (length out.old) (length bytes.now) }
    ensures out { out.new ≡ overwritten out.old bytes.now }
{
    let count = out.len().min(bytes.len());
    out[..count].copy_from_slice(&bytes[..count]);
    count
}

/// The place of the first filled message.
pub fn filled_place(places: &[Place]) -> Option<usize>
    ensures { result ≡ position (λ place. is_filled (message_of place)) places.now }
{
    places.iter().position(|place| place.is_filled())
}

/// The place of the message that is opened under the id.
pub fn opened_place(places: &[Place], id: u32) -> Option<usize>
    ensures { result ≡ position (λ place. is_opened_as id (message_of place)) places.now }
{
    places.iter().position(|place| place.is_opened_as(id))
}

/// The least number from 1 that no opened message has. There are fewer opened messages than numbers
/// that are looked at, so one is free.
pub fn least_free_id(places: &[Place]) -> u32
    requires { length places.now ≤ 32 }
    ensures { result ≡ free_id (messages_of places.now) }
{
    for id in 1..places.len() as u32 + 2 {
        let Some(_taken) = opened_place(places, id) else {
            return id;
        };
    }
    0
}

/// How many messages are filled.
pub fn filled_count(places: &[Place]) -> usize
    ensures { result ≡ count_by (λ place. is_filled (message_of place)) places.now }
{
    places.iter().filter(|place| place.is_filled()).count()
}
