//! The serial numbers of a store's values in rising order, each with its value's slot.

ghost use Rattle.std.specs.Prelude.{◌≡◌, ◌<◌, ◌≤◌, ◌+◌, ◌++◌, ◌∷◌, ℕ, [], length, IsOk, OnOk, IfOk, IfErr, IfSome, IfNone};
ghost use Rattle.object_store.specs.Rising.{AllUnder, HasNone, IsPlaceWith, IsWithout, times_with};

use kernel_values::NoMemory;
use std::alloc::Global;
use std::marker::Model;

/// Serial numbers in rising order, each with a slot. A number is found by binary search.
#[derive(Drop)]
pub struct Order {
    entries: Vec<(u64, usize)>,
}

impl Model for Order {
    ghost use Rattle.std.specs.Prelude.{vec_capacity};
    ghost use Rattle.object_store.specs.Rising.{SerialOrder, Rises};

    ghost Value = { SerialOrder };

    ghost view = { λ o. record { entries = o.entries.items; capacity = vec_capacity o.entries } };

    ghost invariant = { λ o. Rises o.entries.items };
}

impl Order {
    /// No serial numbers. Nothing is allocated yet.
    pub fn new(alloc: Global) -> Self
        ensures entries { result.entries ≡ [] }
        ensures capacity { result.capacity ≡ 0 }
    {
        Order {
            entries: Vec::new(alloc),
        }
    }

    /// Makes room for `n` more serial numbers.
    pub fn reserve(&mut self, n: usize) -> Result<(), NoMemory>
        ensures room { OnOk result (length self.new.entries + n ≤ self.new.capacity) }
        ensures ready { length self.old.entries + n ≤ self.old.capacity → IsOk result }
        ensures stays { length self.old.entries + n ≤ self.old.capacity → self.new ≡ self.old }
        ensures grows { self.old.capacity ≤ self.new.capacity }
        ensures same { self.new.entries ≡ self.old.entries }
    {
        if self.entries.capacity() - self.entries.len() >= n {
            return Ok(());
        }
        if self.entries.reserve(n).is_err() {
            return Err(NoMemory);
        }
        Ok(())
    }

    /// Adds a serial number, which is greater than all that are there. There must be room.
    pub fn push(&mut self, serial: u64, slot: usize)
        requires room { length self.old.entries < self.old.capacity }
        requires rises { AllUnder serial self.old.entries }
        ensures entries { self.new.entries ≡ self.old.entries ++ (serial, slot) ∷ [] }
        ensures capacity { self.new.capacity ≡ self.old.capacity }
    {
        self.entries.push_reserved((serial, slot));
    }

    /// The slot of the serial number, if it is there.
    pub fn find(&self, serial: u64) -> Option<usize>
        ensures found { IfSome result (λ slot. 1 ≤ times_with self.now.entries serial slot) }
        ensures absent { IfNone result ((slot : ℕ) → times_with self.now.entries serial slot ≡ 0) }
    {
        match self.search(serial) {
            Ok(place) => Some(self.entries[place].1),
            Err(_) => None,
        }
    }

    /// Takes the serial number out, if it is there.
    pub fn remove(&mut self, serial: u64)
        ensures entries { IsWithout serial self.old.entries self.new.entries }
        ensures capacity { self.new.capacity ≡ self.old.capacity }
    {
        if let Ok(place) = self.search(serial) {
            self.entries.remove(place);
        }
    }

    // Where the serial number is, or where it would go.
    fn search(&self, serial: u64) -> Result<usize, usize>
        ensures found { IfOk result (IsPlaceWith serial self.now.entries) }
        ensures absent { IfErr result (λ _. HasNone serial self.now.entries) }
    {
        self.entries
            .binary_search_by_key(&serial, |&(serial, _)| serial)
    }
}
