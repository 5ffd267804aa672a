//! The records of a set's members, which are read through one call that counts.

ghost use Rattle.std.specs.Prelude.{◌≡◌, ◌<◌, ◌≤◌, ◌+◌, ◌-◌, ◌++◌, ◌∷◌, ◌^◌, [], length, IfOk, Some, slice_get};
ghost use Rattle.std.specs.List.{remove};
ghost use Rattle.handle_set.specs.Members.{moved_last, with_events_at, with_mask_at};
ghost use Rattle.handle_set.specs.Slots.{blank};

use crate::steps::Steps;
use kernel_values::{Events, NoMemory};
use object_store::ObjKey;
use std::alloc::Global;
use std::marker::Model;
use std::sync::ledger::Ledger;

/// A member with the events last told for its object.
#[derive(Clone, Copy, PartialEq, Eq, Debug)]
pub struct TrackedMember {
    pub label: u32,
    pub object: ObjKey,
    pub mask: Events,
    pub cookie: u64,
    pub events: Events,
    /// Whether the object is an open set.
    pub inner: bool,
}

// How many records a set has room for.
const ROWS: usize = 64;

// The rows of a set with no records, in order.
const IN_TURN: [u8; ROWS] = [
    0, 1, 2, 3, 4, 5, 6, 7, 8, 9, 10, 11, 12, 13, 14, 15, 16, 17, 18, 19, 20, 21, 22, 23, 24, 25,
    26, 27, 28, 29, 30, 31, 32, 33, 34, 35, 36, 37, 38, 39, 40, 41, 42, 43, 44, 45, 46, 47, 48, 49,
    50, 51, 52, 53, 54, 55, 56, 57, 58, 59, 60, 61, 62, 63,
];

/// Up to 64 records in order. Their room is made at once. A record stays in its row while it is here: where the order
/// changes, bytes move and no record.
#[derive(Drop)]
pub struct Records {
    rows: Vec<TrackedMember>,
    // The numbers of all rows: those of the records in order, then those not in use.
    order: [u8; ROWS],
    len: usize,
}

impl Model for Records {
    ghost use Rattle.std.specs.Prelude.{List, take};
    ghost use Rattle.handle_set.specs.declared.records.TrackedMember.{TrackedMember};
    ghost use Rattle.handle_set.specs.Slots.{IsOrder, in_order};

    ghost Value = { List TrackedMember };

    ghost view = { λ r. in_order r.rows.items (take r.len r.order) };

    ghost invariant = { λ r. IsOrder r.rows.items r.order r.len };
}

// A row not in use yet.
fn blank() -> TrackedMember
    ensures { result ≡ blank }
{
    TrackedMember {
        label: 0,
        object: ObjKey { slot: 0, serial: 0 },
        mask: Events(0),
        cookie: 0,
        events: Events(0),
        inner: false,
    }
}

// The number at a place goes last.
fn move_last(order: &mut [u8], at: usize)
    requires { at < length order.old }
    ensures { order.new ≡ moved_last at order.old }
{
    order[at..].rotate_left(1);
}

impl Records {
    /// No records, with room for 64.
    pub fn new(alloc: Global) -> Result<Records, NoMemory>
        ensures { IfOk result (λ records. records ≡ []) }
    {
        let rows = Vec::from_elem(alloc, blank(), ROWS)?;
        Ok(Records {
            rows,
            order: IN_TURN,
            len: 0,
        })
    }

    /// How many there are.
    pub fn len(&self) -> usize
        ensures { result ≡ length self.now }
    {
        self.len
    }

    /// The record at a place. This is the one call that reads records, and it counts.
    pub fn look<L: Ledger>(&self, at: usize, steps: &mut Steps<L>) -> TrackedMember
        requires within { at < length self.now }
        requires fits { steps.old.count < 2 ^ 64 - 1 }
        ensures record { slice_get self.now at ≡ Some result }
        ensures looks { steps.new.count ≡ steps.old.count + 1 }
    {
        steps.tick();
        self.rows[self.order[at] as usize]
    }

    /// One more record goes last. There is room for it.
    pub fn push(&mut self, told: TrackedMember)
        requires { length self.old < 64 }
        ensures { self.new ≡ self.old ++ told ∷ [] }
    {
        let row = self.order[self.len] as usize;
        self.rows[row] = told;
        self.len += 1;
    }

    /// Takes the record at a place away.
    pub fn remove(&mut self, at: usize)
        requires { at < length self.old }
        ensures { self.new ≡ remove self.old at }
    {
        move_last(&mut self.order[..self.len], at);
        self.len -= 1;
    }

    /// The record at a place goes last.
    pub fn move_last(&mut self, at: usize)
        requires { at < length self.old }
        ensures { self.new ≡ moved_last at self.old }
    {
        move_last(&mut self.order[..self.len], at);
    }

    /// Other events for the member at a place.
    pub fn set_events(&mut self, at: usize, events: Events)
        requires { at < length self.old }
        ensures { self.new ≡ with_events_at at events self.old }
    {
        let row = self.order[at] as usize;
        self.rows[row].events = events;
    }

    /// Another mask and cookie for the member at a place.
    pub fn set_mask(&mut self, at: usize, mask: Events, cookie: u64)
        requires { at < length self.old }
        ensures { self.new ≡ with_mask_at at mask cookie self.old }
    {
        let row = self.order[at] as usize;
        let told = &mut self.rows[row];
        told.mask = mask;
        told.cookie = cookie;
    }
}
