//! A store of counted values over a slab.

ghost use Rattle.std.specs.Prelude.{◌≡◌, ◌<◌, ◌≤◌, ◌+◌, ◌-◌, ◌++◌, ◌∷◌, ◌^◌, ℕ, [], length, true, false, Some, None, is_some, IsOk, IsSome, IfOk, IfErr, IfSome, IfNone, OnOk, OnErr, option_copied};
ghost use Rattle.std.specs.Option.{option_copied_mut, option_to_list};
ghost use Rattle.std.specs.Borrow.{sem};
ghost use Rattle.object_store.specs.Slots.{is_at};
ghost use Rattle.object_store.specs.Rising.{IsOrder};
ghost use Rattle.object_store.specs.Stock.{new_held, held_at, value_at, names_at, total_names, changed, one_more, unnamed, last_at, NoneDead, IsSoundFrom};

use crate::kept::{KeptSlots, Slot};
use crate::key::ObjKey;
use crate::order::Order;
use kernel_values::NoMemory;
use std::alloc::Global;
use std::marker::Model;

/// There was no memory for a value. It comes back.
#[derive(Debug, Drop)]
pub struct PutRefused<T> {
    /// The value that was not stored.
    pub value: T,
}

/// Values with their numbers of names. Contracts see the values in order of serial number, the next
/// serial number, and how many values fit with no allocation.
///
/// A key whose value is gone finds nothing, and no call changes anything for it.
///
/// No call goes through all values: where the key's own slot has another value, or none, the serial
/// number is looked for by binary search. Only `unname` moves the serial numbers behind one that goes.
#[derive(Drop)]
pub struct Store<T> {
    slab: KeptSlots<T>,
    // The slots by serial number.
    order: Order,
    next: u64,
    total: u64,
}

impl<T> Model for Store<T> {
    ghost use Rattle.std.specs.Prelude.{◌-◌, min};
    ghost use Rattle.slab.specs.Slab.{slab_len};
    ghost use Rattle.object_store.specs.Stock.{Stock, stock_code};
    ghost use Rattle.object_store.specs.Slots.{listed};
    ghost use Rattle.object_store.specs.Rising.{IsStore};

    ghost Value = { Stock T };

    ghost coded = { stock_code T.code };

    ghost view = { λ s. record {
      items = listed s.slab s.next;
      next = s.next;
      room = min s.slab.capacity s.order.capacity - slab_len s.slab;
    } };

    ghost invariant = { λ s. IsStore s.slab s.order s.next s.total };
}

// Whether the slot holds the value with the serial number.
fn stands_at<T>(slab: &KeptSlots<T>, slot: usize, serial: u64) -> bool
    ensures { result ≡ is_at slab.now slot serial }
{
    match slab.get(slot) {
        Some(kept) => kept.serial() == serial,
        None => false,
    }
}

// The slot of the value with the key's serial number, if it is there: the key's own slot, or else
// the one that the order has.
fn slot_of<T>(slab: &KeptSlots<T>, order: &Order, key: ObjKey) -> Option<usize>
    requires { IsOrder slab.now order.now }
    ensures found { IfSome result (λ slot. is_at slab.now slot key.serial ≡ true) }
    ensures absent { IfNone result ((slot : ℕ) → is_at slab.now slot key.serial ≡ false) }
{
    if stands_at(slab, key.slot, key.serial) {
        return Some(key.slot);
    }
    order.find(key.serial)
}

impl<T> Store<T> {
    ghost use Rattle.object_store.specs.Lending.{lends_value, lends_value_if};

    /// A store with no values. Nothing is allocated yet.
    pub fn new(alloc: Global) -> Self
        ensures items { result.items ≡ [] }
        ensures next { result.next ≡ 0 }
        ensures room { result.room ≡ 0 }
    {
        Store {
            slab: KeptSlots::new(alloc),
            order: Order::new(alloc),
            next: 0,
            total: 0,
        }
    }

    /// Makes room for `n` more values: so many calls of `put` are then not refused.
    pub fn reserve(&mut self, n: usize) -> Result<(), NoMemory>
        ensures room { OnOk result (n ≤ self.new.room) }
        ensures ready { n ≤ self.old.room → IsOk result }
        ensures stays { n ≤ self.old.room → self.new ≡ self.old }
        ensures grows { self.old.room ≤ self.new.room }
        ensures same { self.new ≡ record self.old { room = self.new.room } }
    {
        self.slab.reserve(n)?;
        self.order.reserve(n)
    }

    /// Tells whether `n` more names can be counted: so many calls of `name` and `put` are then lawful.
    pub fn reserve_names(&self, n: u64) -> Result<(), NoMemory>
        ensures ok { OnOk result (total_names self.now.items + n < 2 ^ 64) }
        ensures ready { total_names self.now.items + n < 2 ^ 64 → IsOk result }
    {
        if u64::MAX - self.total < n {
            return Err(NoMemory);
        }
        Ok(())
    }

    /// Stores a value with one name, under the next serial number. There is always memory for it where
    /// there is room; refused, the value comes back and the store stays.
    pub fn put(&mut self, value: T) -> Result<ObjKey, PutRefused<T>>
        requires serial { self.old.next < 2 ^ 64 - 1 }
        requires names { total_names self.old.items < 2 ^ 64 - 1 }
        ensures key { IfOk result (λ key. key.serial ≡ self.old.next) }
        ensures items { OnOk result (self.new.items ≡ self.old.items ++ new_held self.old.next value ∷ []) }
        ensures next { OnOk result (self.new.next ≡ self.old.next + 1) }
        ensures ready { 0 < self.old.room → IsOk result }
        ensures room { 0 < self.old.room → self.new.room + 1 ≡ self.old.room }
        ensures same { OnErr result (self.new ≡ record self.old { room = self.new.room }) }
        ensures back { IfErr result (λ refused. refused.value ≡ value) }
    {
        if self.reserve(1).is_err() {
            return Err(PutRefused { value });
        }
        Ok(self.put_reserved(value))
    }

    /// Stores a value as `put` does, where there is room.
    pub fn put_reserved(&mut self, value: T) -> ObjKey
        requires room { 0 < self.old.room }
        requires serial { self.old.next < 2 ^ 64 - 1 }
        requires names { total_names self.old.items < 2 ^ 64 - 1 }
        ensures key { result.serial ≡ self.old.next }
        ensures items { self.new.items ≡ self.old.items ++ new_held self.old.next value ∷ [] }
        ensures next { self.new.next ≡ self.old.next + 1 }
        ensures room { self.new.room + 1 ≡ self.old.room }
    {
        let serial = self.next;
        let slot = self.slab.insert(serial, value);
        self.order.push(serial, slot);
        self.next += 1;
        self.total += 1;
        ObjKey { slot, serial }
    }

    /// Gives the value one more name.
    pub fn name(&mut self, key: ObjKey)
        requires { total_names self.old.items < 2 ^ 64 - 1 }
        ensures { self.new ≡ record self.old { items = changed self.old.items key.serial one_more } }
    {
        let Some(slot) = slot_of(&self.slab, &self.order, key) else {
            return;
        };
        self.slab.add_name(slot);
        self.total += 1;
    }

    /// Takes one name of the value away, and hands the value back where that was its last.
    pub fn unname(&mut self, key: ObjKey) -> Option<T>
        ensures value { result ≡ last_at self.old.items key.serial }
        ensures items { self.new.items ≡ unnamed self.old.items key.serial }
        ensures next { self.new.next ≡ self.old.next }
        ensures room { self.new.room ≡ self.old.room + length (option_to_list result) }
    {
        let Some(slot) = slot_of(&self.slab, &self.order, key) else {
            return None;
        };
        self.total -= 1;
        let value = self.slab.drop_name(slot)?;
        self.order.remove(key.serial);
        Some(value)
    }

    /// A value with just one name, where there is one. It stays. Where the store's own name of each value
    /// counts as one, that is a value which nothing else names.
    pub fn find_dead(&self) -> Option<ObjKey>
        ensures some { IfSome result (λ key. names_at self.now.items key.serial ≡ 1) }
        ensures none { IfNone result (NoneDead self.now.items) }
    {
        let slot = self.slab.last_dead()?;
        let kept = self.slab.get(slot)?;
        Some(ObjKey {
            slot,
            serial: kept.serial(),
        })
    }

    // What is there under the key's serial number.
    fn kept(&self, key: ObjKey) -> Option<&Slot<T>>
        ensures { option_copied result ≡ held_at self.now.items key.serial }
    {
        match slot_of(&self.slab, &self.order, key) {
            Some(slot) => self.slab.get(slot),
            None => None,
        }
    }

    /// How many names the value has: 0 where it is not there.
    pub fn names(&self, key: ObjKey) -> u64
        ensures { result ≡ names_at self.now.items key.serial }
    {
        match self.kept(key) {
            Some(kept) => kept.names(),
            None => 0,
        }
    }

    /// Whether the value is there.
    pub fn lives(&self, key: ObjKey) -> bool
        ensures { result ≡ is_some (held_at self.now.items key.serial) }
    {
        self.kept(key).is_some()
    }

    /// The value, where it is there.
    pub fn get(&self, key: ObjKey) -> Option<&T>
        ensures { option_copied result ≡ value_at self.now.items key.serial }
    {
        match self.kept(key) {
            Some(kept) => Some(kept.value()),
            None => None,
        }
    }

    /// The value for writing, where it is there.
    pub fn get_mut(&mut self, key: ObjKey) -> Option<&mut T>
        ensures* writes_back { sem 𝓛 (lends_value_if T.row self.entry key.serial result) }
        ensures value { option_copied_mut result ≡ value_at self.old.items key.serial }
    {
        if self.lives(key) {
            Some(self.value_mut(key))
        } else {
            None
        }
    }

    // The value for writing, which is there.
    fn value_mut(&mut self, key: ObjKey) -> &mut T
        requires { IsSome (held_at self.old.items key.serial) }
        ensures* writes_back { sem 𝓛 (lends_value T.row self.entry key.serial result) }
        ensures value { value_at self.old.items key.serial ≡ Some result.now }
    {
        let slot = slot_of(&self.slab, &self.order, key).unwrap();
        self.slab.value_mut(slot)
    }

    /// A key of the value with the serial number, where it is there.
    pub fn key_of(&self, serial: u64) -> Option<ObjKey>
        ensures there { is_some result ≡ is_some (held_at self.now.items serial) }
        ensures key { IfSome result (λ key. key.serial ≡ serial) }
    {
        match slot_of(&self.slab, &self.order, ObjKey { slot: 0, serial }) {
            Some(slot) => Some(ObjKey { slot, serial }),
            None => None,
        }
    }

    /// How many values are there.
    pub fn len(&self) -> u64
        ensures { result ≡ length self.now.items }
    {
        self.slab.len() as u64
    }

    /// The serial number that the next value gets.
    pub fn next(&self) -> u64
        ensures { result ≡ self.now.next }
    {
        self.next
    }

    /// The sum of all numbers of names.
    pub fn total(&self) -> u64
        ensures { result ≡ total_names self.now.items }
    {
        self.total
    }

    /// What holds of every store: serial numbers rise and are below the next one, and each value has a
    /// name. It does nothing.
    pub fn sound(&self)
        ensures { IsSoundFrom 0 self.now.items self.now.next }
    {
        let _ = &self.slab;
    }
}
