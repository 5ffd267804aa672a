//! A published port.

ghost use Rattle.std.specs.Prelude.{◌≡◌, ◌≤◌, ◌<◌, ◌+◌, length, option_map, slice_get, filter, IsOk, OnOk, OnErr};
ghost use Rattle.std.specs.VecDeque.{deque_len, deque_capacity};
ghost use Rattle.kernel_types.specs.Ports.{new_port};
ghost use Rattle.kernel_types.specs.Reach.{is_in};
ghost use Rattle.object_store.specs.Keys.{serial_of, serials};
ghost use Rattle.port.specs.Pending.{is_other_key, with_pending, without_first, without_pending};

use kernel_values::{Bytes, NoMemory, PortFlags};
use object_store::ObjKey;
use std::alloc::Global;
use std::collections::VecDeque;
use std::marker::Model;

/// A published port. Contracts see the port of the model, with its pending server ends by serial number,
/// and how many more may come with no allocation.
#[derive(Drop)]
pub struct Port {
    path: Bytes,
    bufs: u32,
    size: u32,
    flags: PortFlags,
    // Oldest first.
    pending: VecDeque<ObjKey>,
}

impl Model for Port {
    ghost use Rattle.std.specs.Prelude.{◌-◌};
    ghost use Rattle.std.specs.VecDeque.{deque_len, deque_capacity};
    ghost use Rattle.object_store.specs.Keys.{serials};
    ghost use Rattle.port.specs.Listing.{Listing};

    ghost Value = { Listing };

    ghost view = { λ p. record {
      port = record { path = p.path; bufs = p.bufs; size = p.size; flags = p.flags; pending = serials p.pending.items };
      room = deque_capacity p.pending - deque_len p.pending;
    } };
}

fn is_other_key(key: &ObjKey, serial: u64) -> bool
    ensures { result ≡ is_other_key serial key.now }
{
    key.serial != serial
}

// Takes the server end out of the list.
fn unlist(pending: &mut VecDeque<ObjKey>, serial: u64)
    ensures keys { pending.new.items ≡ filter (is_other_key serial) pending.old.items }
    ensures len { deque_len pending.new ≤ deque_len pending.old }
    ensures capacity { deque_capacity pending.new ≡ deque_capacity pending.old }
{
    pending.retain(|key| is_other_key(key, serial));
}

fn is_listed(keys: &[ObjKey], serial: u64) -> bool
    ensures { result ≡ is_in (serials keys.now) serial }
{
    for key in keys {
        if key.serial == serial {
            return true;
        }
    }
    false
}

impl Port {
    /// A port with no pending server ends. Nothing is allocated.
    pub fn new(alloc: Global, path: Bytes, bufs: u32, size: u32, flags: PortFlags) -> Port
        ensures { result.port ≡ new_port path bufs size flags }
    {
        Port {
            path,
            bufs,
            size,
            flags,
            pending: VecDeque::new(alloc),
        }
    }

    pub fn path(&self) -> &Bytes
        ensures { result.now ≡ self.now.port.path }
    {
        &self.path
    }

    /// The number of slots of an end that is let in.
    pub fn bufs(&self) -> u32
        ensures { result ≡ self.now.port.bufs }
    {
        self.bufs
    }

    /// The number of bytes of a slot.
    pub fn size(&self) -> u32
        ensures { result ≡ self.now.port.size }
    {
        self.size
    }

    /// Who may connect.
    pub fn flags(&self) -> PortFlags
        ensures { result ≡ self.now.port.flags }
    {
        self.flags
    }

    /// Makes room for `n` more pending server ends: so many calls of `push_pending` are then not refused.
    pub fn reserve(&mut self, n: usize) -> Result<(), NoMemory>
        ensures room { OnOk result (n ≤ self.new.room) }
        ensures ready { n ≤ self.old.room → IsOk result }
        ensures grows { self.old.room ≤ self.new.room }
        ensures same { self.new.port ≡ self.old.port }
    {
        if self.pending.capacity() - self.pending.len() >= n {
            return Ok(());
        }
        if self.pending.reserve(n).is_err() {
            return Err(NoMemory);
        }
        Ok(())
    }

    /// The server end is pending, after all others. Where there is room it is not refused.
    pub fn push_pending(&mut self, end: ObjKey) -> Result<(), NoMemory>
        ensures pending { OnOk result (self.new.port ≡ with_pending end.serial self.old.port) }
        ensures same { OnErr result (self.new.port ≡ self.old.port) }
        ensures ready { 0 < self.old.room → IsOk result }
        ensures room { 0 < self.old.room → self.new.room + 1 ≡ self.old.room }
    {
        match self.pending.push_back(end) {
            Ok(()) => Ok(()),
            Err(_refused) => Err(NoMemory),
        }
    }

    /// The server end that is pending for the longest time is pending no more.
    pub fn pop_pending(&mut self) -> Option<ObjKey>
        ensures first { option_map serial_of result ≡ slice_get self.old.port.pending 0 }
        ensures rest { self.new.port ≡ without_first self.old.port }
        ensures room { self.old.room ≤ self.new.room }
    {
        self.pending.pop_front()
    }

    /// The server end is pending no more. Answers whether it was.
    pub fn drop_pending(&mut self, end: ObjKey) -> bool
        ensures was { result ≡ is_in self.old.port.pending end.serial }
        ensures rest { self.new.port ≡ without_pending end.serial self.old.port }
        ensures room { self.old.room ≤ self.new.room }
    {
        let listed = self.lists(end);
        unlist(&mut self.pending, end.serial);
        listed
    }

    /// Whether the server end is pending.
    pub fn lists(&self, end: ObjKey) -> bool
        ensures { result ≡ is_in self.now.port.pending end.serial }
    {
        let (first, second) = self.pending.as_slices();
        is_listed(first, end.serial) || is_listed(second, end.serial)
    }

    /// How many server ends are pending.
    pub fn pending(&self) -> u64
        ensures { result ≡ length self.now.port.pending }
    {
        self.pending.len() as u64
    }
}
