//! One set's members in order, with a bit for each that is ready.

ghost use Rattle.std.specs.Prelude.{◌≡◌, ◌<◌, ◌≤◌, ◌+◌, ◌*◌, ◌/◌, ◌%◌, ◌-◌, ◌++◌, ◌∷◌, ◌^◌, [], true, false, length, IfOk, Some, None, option_map, slice_get, map, find};
ghost use Rattle.std.specs.Prelude.{List, Bool, slice_set};
ghost use Rattle.std.specs.List.{remove, list_any};
ghost use lib.Lanes.{mask_l};
ghost use Rattle.handle_set.specs.Members.{AreDifferent, picked, is_ready, is_inner, after_pick, is_label_in, with_events_at, with_mask_at};

use crate::records::{Records, TrackedMember};
use crate::steps::Steps;
use kernel_values::{Events, Handle, NoMemory};
use object_store::ObjKey;
use std::alloc::Global;
use std::marker::Model;
use std::sync::ledger::Ledger;

/// What `pick` reports of a member.
#[derive(Clone, Copy, PartialEq, Eq, Debug)]
pub struct Picked {
    pub label: Handle,
    pub object: ObjKey,
    /// The events of its mask that the object has.
    pub events: Events,
    pub cookie: u64,
}

/// A set's members in order. Bit k of `ready` says whether the member at place k has an event of its
/// mask, so the first ready member is found without a look. Bit k of `inner` says whether the object of
/// that member is an open set.
///
/// Nothing here reads a record but by `look`, with the caller's counter.
#[derive(Drop)]
pub struct ReadyList {
    records: Records,
    ready: u64,
    inner: u64,
}

impl Model for ReadyList {
    ghost use Rattle.std.specs.Prelude.{List};
    ghost use Rattle.handle_set.specs.declared.records.TrackedMember.{TrackedMember};
    ghost use Rattle.handle_set.specs.Rows.{IsReadyList};

    ghost Value = { List TrackedMember };

    ghost view = { λ r. r.records };

    ghost invariant = { λ r. IsReadyList r.records r.ready r.inner };
}

// The bits with the one at a place taken out, those above it one lower.
fn without_bit(bits: u64, at: usize) -> u64
    requires { at < 64 }
    ensures { (ms : List Bool) → at < length ms → bits ≡ mask_l ms → result ≡ mask_l (remove ms at) }
{
    let unit: u64 = 1 << at;
    bits % unit + (bits >> at) / 2 * unit
}

// The bits with one more at a place above them all.
fn with_bit_above(bits: u64, len: usize, mark: bool) -> u64
    requires room { len < 64 }
    requires below { bits < 2 ^ len }
    ensures { (ms : List Bool) → length ms ≡ len → bits ≡ mask_l ms → result ≡ mask_l (ms ++ mark ∷ []) }
{
    if mark { bits + (1 << len) } else { bits }
}

/// The bits with the one at a place set or cleared.
pub fn with_bit_at(bits: u64, at: usize, mark: bool) -> u64
    requires { at < 64 }
    ensures { (ms : List Bool) → length ms ≤ 64 → at < length ms → bits ≡ mask_l ms → result ≡ mask_l (slice_set ms at mark) }
{
    if mark {
        bits | 1 << at
    } else {
        bits & !(1 << at)
    }
}

// Whether the record has an event of its mask.
fn is_ready(told: &TrackedMember) -> bool
    ensures { result ≡ is_ready told.now }
{
    told.events.0 & told.mask.0 != 0
}

impl ReadyList {
    /// A set with no members. The room for 64 is made at once.
    pub fn new(alloc: Global) -> Result<ReadyList, NoMemory>
        ensures { IfOk result (λ list. list ≡ []) }
    {
        let records = Records::new(alloc)?;
        Ok(ReadyList {
            records,
            ready: 0,
            inner: 0,
        })
    }

    /// Whether a member has an event of its mask.
    pub fn is_ready(&self) -> bool
        ensures { result ≡ list_any is_ready self.now }
    {
        self.ready != 0
    }

    /// Whether the object of a member is an open set.
    pub fn has_inner(&self) -> bool
        ensures { result ≡ list_any is_inner self.now }
    {
        self.inner != 0
    }

    /// How many members there are.
    pub fn len(&self) -> usize
        ensures value { result ≡ length self.now }
        ensures few { result ≤ 64 }
    {
        self.records.len()
    }

    /// What holds of every set: at most 64 members, and no two with one label. It does nothing.
    pub fn sound(&self)
        ensures few { length self.now ≤ 64 }
        ensures different { AreDifferent self.now }
    {
        let _ = &self.records;
    }

    /// The member at a place. The counter rises by one.
    pub fn look<L: Ledger>(&self, at: usize, steps: &mut Steps<L>) -> TrackedMember
        requires within { at < length self.now }
        requires fits { steps.old.count < 2 ^ 64 - 1 }
        ensures record { slice_get self.now at ≡ Some result }
        ensures looks { steps.new.count ≡ steps.old.count + 1 }
    {
        self.records.look(at, steps)
    }

    /// The member at a place, which the caller has looked at, gets other events.
    pub fn set_events(&mut self, at: usize, told: &TrackedMember, events: Events)
        requires { slice_get self.old at ≡ Some told.now }
        ensures { self.new ≡ with_events_at at events self.old }
    {
        self.records.set_events(at, events);
        self.ready = with_bit_at(self.ready, at, events.0 & told.mask.0 != 0);
    }

    /// The member at a place, which the caller has looked at, gets another mask and cookie.
    pub fn set_mask(&mut self, at: usize, told: &TrackedMember, mask: Events, cookie: u64)
        requires { slice_get self.old at ≡ Some told.now }
        ensures { self.new ≡ with_mask_at at mask cookie self.old }
    {
        self.records.set_mask(at, mask, cookie);
        self.ready = with_bit_at(self.ready, at, told.events.0 & mask.0 != 0);
    }

    /// The member at a place is taken away.
    pub fn remove(&mut self, at: usize)
        requires { at < length self.old }
        ensures { self.new ≡ remove self.old at }
    {
        self.ready = without_bit(self.ready, at);
        self.inner = without_bit(self.inner, at);
        self.records.remove(at);
    }

    /// A member goes last. Its label is a new one, and there is room.
    pub fn push(&mut self, told: TrackedMember)
        requires room { length self.old < 64 }
        requires new { is_label_in self.old told.label ≡ false }
        ensures { self.new ≡ self.old ++ told ∷ [] }
    {
        let len = self.records.len();
        self.ready = with_bit_above(self.ready, len, is_ready(&told));
        self.inner = with_bit_above(self.inner, len, told.inner);
        self.records.push(told);
    }

    /// Reports the first member in order that has an event of its mask. It then goes last.
    pub fn pick<L: Ledger>(&mut self, steps: &mut Steps<L>) -> Option<Picked>
        requires { steps.old.count < 2 ^ 64 - 3 }
        ensures picked { result ≡ option_map picked (find is_ready self.old) }
        ensures members { self.new ≡ after_pick self.old (find is_ready self.old) }
        ensures looks { steps.new.count ≤ steps.old.count + 2 }
    {
        if self.ready == 0 {
            return None;
        }
        let at = self.ready.trailing_zeros() as usize;
        let told = self.records.look(at, steps);
        self.records.move_last(at);
        let last = self.records.len() - 1;
        let ready = without_bit(self.ready, at);
        self.ready = with_bit_above(ready, last, true);
        let inner = without_bit(self.inner, at);
        self.inner = with_bit_above(inner, last, told.inner);
        Some(Picked {
            label: told.label,
            object: told.object,
            events: Events(told.events.0 & told.mask.0),
            cookie: told.cookie,
        })
    }
}
