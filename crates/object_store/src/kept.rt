//! The slots of a store, and which of them have a value with just one name.

ghost use Rattle.std.specs.Prelude.{◌≡◌, ◌≢◌, ◌<◌, ◌≤◌, ◌+◌, ◌-◌, ◌^◌, ◌==◌, ℕ, true, false, [], IsOk, IsSome, IfSome, IfNone, OnOk, Some, None, option_copied, vec_capacity};
ghost use Rattle.std.specs.Option.{option_and_then};
ghost use Rattle.std.specs.Borrow.{Lends, sem};
ghost use Rattle.slab.specs.Slab.{get, slab_len, HasRoomFor, Updates};
ghost use Rattle.object_store.specs.Stock.{Held, with_value, one_more, one_fewer, last_named};
ghost use Rattle.object_store.specs.Slots.{once, is_dead, with_changed, IsPlaceOf, IsNowhere, IsUnlisted, HasGone};

use kernel_values::NoMemory;
use slab::Slab;
use std::alloc::Global;
use std::marker::Model;

/// A value in its slot.
#[derive(Drop)]
pub struct Slot<T> {
    serial: u64,
    names: u64,
    // Where the list of the dead has the slot, while it has it. No contract speaks of it: it tells where
    // to look first.
    place: usize,
    value: T,
}

impl<T> Model for Slot<T> {
    ghost use Rattle.object_store.specs.Stock.{Held, held_code};

    ghost Value = { Held T };

    ghost coded = { held_code T.code };

    ghost view = { λ k. record { serial = k.serial; names = k.names; value = k.value } };
}

impl<T> Slot<T> {
    ghost use Rattle.object_store.specs.contracts.kept.Slot.{the_row};

    pub fn value(&self) -> &T
        ensures { result.now ≡ self.now.value }
    {
        &self.value
    }

    fn value_mut(&mut self) -> &mut T
        ensures* lends { sem 𝓛 (Lends (the_row T.row) T.row self.entry result (λ x. with_value x self.entry.now)) }
        ensures value { result.now ≡ self.old.value }
    {
        &mut self.value
    }

    fn add_name(&mut self)
        requires { self.old.names < 2 ^ 64 - 1 }
        ensures { self.new ≡ one_more self.old }
    {
        self.names += 1;
    }

    fn drop_name(&mut self)
        requires { 0 < self.old.names }
        ensures { self.new ≡ one_fewer self.old }
    {
        self.names -= 1;
    }

    pub fn serial(&self) -> u64
        ensures { result ≡ self.now.serial }
    {
        self.serial
    }

    pub fn names(&self) -> u64
        ensures { result ≡ self.now.names }
    {
        self.names
    }

    fn place(&self) -> usize {
        self.place
    }

    fn set_place(&mut self, place: usize)
        ensures { self.new ≡ self.old }
    {
        self.place = place;
    }
}

/// A slab of values, and the dead among them: the slots whose values have just one name. Contracts see
/// the slab, with as much room as the list of the dead has too.
#[derive(Drop)]
pub struct KeptSlots<T> {
    slab: Slab<Slot<T>>,
    // Each dead slot once.
    dead: Vec<usize>,
}

impl<T> Model for KeptSlots<T> {
    ghost use Rattle.std.specs.Prelude.{min, vec_capacity};
    ghost use Rattle.slab.specs.Slab.{Slab as Slots, slab_code};
    ghost use Rattle.object_store.specs.Stock.{Held, held_code};
    ghost use Rattle.object_store.specs.Slots.{IsDeadList};

    ghost Value = { Slots (Held T) };

    ghost coded = { slab_code (held_code T.code) };

    ghost view = { λ s. record s.slab { capacity = min s.slab.capacity (vec_capacity s.dead) } };

    ghost invariant = { λ s. IsDeadList s.slab s.dead };
}

// Where the list has the slot, looked for at `hint` first.
fn place_of(dead: &[usize], hint: usize, slot: usize) -> Option<usize>
    ensures found { IfSome result (λ place. IsPlaceOf slot dead.now place) }
    ensures absent { IfNone result (IsNowhere slot dead.now) }
{
    if hint < dead.len() && dead[hint] == slot {
        return Some(hint);
    }
    for place in 0..dead.len() {
        if dead[place] == slot {
            return Some(place);
        }
    }
    None
}

// The value in the slot is told its place in the list.
fn tell_place<T>(slab: &mut Slab<Slot<T>>, slot: usize, place: usize)
    ensures { slab.new ≡ slab.old }
{
    if let Some(kept) = slab.get_mut(slot) {
        kept.set_place(place);
    }
}

// Takes the slot, which the list has at most once, out of it. The last one comes in its place.
#[tactic(auto, using(crate::proofs::Dead::unlisted, crate::proofs::Dead::nowhere))]
fn unlist<T>(slab: &mut Slab<Slot<T>>, dead: &mut Vec<usize>, hint: usize, slot: usize)
    ensures slab { slab.new ≡ slab.old }
    ensures dead { IsUnlisted 1 slot dead.old.items dead.new.items }
    ensures capacity { vec_capacity dead.new ≡ vec_capacity dead.old }
{
    let Some(place) = place_of(dead.as_slice(), hint, slot) else {
        return;
    };
    dead.swap_remove(place);
    if place < dead.len() {
        tell_place(slab, dead[place], place);
    }
}

// Takes the slot out of the list, where its value is dead.
#[tactic(auto, using(crate::proofs::Dead::not_listed))]
fn unlist_dead<T>(slab: &mut Slab<Slot<T>>, dead: &mut Vec<usize>, slot: usize)
    ensures slab { slab.new ≡ slab.old }
    ensures dead { IsUnlisted (once (is_dead (get slab.old slot))) slot dead.old.items dead.new.items }
    ensures capacity { vec_capacity dead.new ≡ vec_capacity dead.old }
{
    let Some(kept) = slab.get(slot) else {
        return;
    };
    if kept.names() != 1 {
        return;
    }
    let place = kept.place();
    unlist(slab, dead, place, slot);
}

impl<T> KeptSlots<T> {
    ghost use Rattle.object_store.specs.SlotLending.{lends_slot};

    /// No slots. Nothing is allocated yet.
    pub fn new(alloc: Global) -> Self
        ensures slots { result.slots ≡ [] }
        ensures capacity { result.capacity ≡ 0 }
    {
        KeptSlots {
            slab: Slab::new(alloc),
            dead: Vec::new(alloc),
        }
    }

    /// How many values there are.
    pub fn len(&self) -> usize
        ensures { result ≡ slab_len self.now }
    {
        self.slab.len()
    }

    fn room(&self) -> usize
        ensures { slab_len self.now + result ≡ self.now.capacity }
    {
        self.slab.capacity().min(self.dead.capacity()) - self.slab.len()
    }

    /// Makes room for `n` more values.
    pub fn reserve(&mut self, n: usize) -> Result<(), NoMemory>
        ensures room { OnOk result (HasRoomFor self.new n) }
        ensures ready { HasRoomFor self.old n → IsOk result }
        ensures stays { HasRoomFor self.old n → self.new ≡ self.old }
        ensures grows { self.old.capacity ≤ self.new.capacity }
        ensures same { self.new ≡ record self.old { capacity = self.new.capacity } }
        ensures holds { slab_len self.old ≤ self.old.capacity }
    {
        if self.room() >= n {
            return Ok(());
        }
        if self.slab.reserve(n).is_err() {
            return Err(NoMemory);
        }
        // The list is never longer than there are values.
        let more = self.slab.capacity() - self.dead.len();
        if self.dead.reserve(more).is_err() {
            return Err(NoMemory);
        }
        Ok(())
    }

    /// Stores a value with one name in a vacant slot. There must be room.
    pub fn insert(&mut self, serial: u64, value: T) -> usize
        requires { HasRoomFor self.old 1 }
        ensures was_vacant { get self.old result ≡ None }
        ensures updates { Updates self.old self.new result (Some (record { serial = serial; names = 1; value = value })) }
        ensures len { slab_len self.new ≡ slab_len self.old + 1 }
        ensures capacity { self.new.capacity ≡ self.old.capacity }
    {
        let kept = Slot {
            serial,
            names: 1,
            place: self.dead.len(),
            value,
        };
        let slot = self.slab.insert_reserved(kept);
        self.dead.push_reserved(slot);
        slot
    }

    /// What is in the slot.
    pub fn get(&self, slot: usize) -> Option<&Slot<T>>
        ensures { option_copied result ≡ get self.now slot }
    {
        self.slab.get(slot)
    }

    /// The value in the slot for writing. There is one.
    pub fn value_mut(&mut self, slot: usize) -> &mut T
        requires { IsSome (get self.old slot) }
        ensures* writes_back { sem 𝓛 (lends_slot T.row self.entry slot result) }
        ensures value { IfSome (get self.old slot) (λ held. result.now ≡ held.value) }
    {
        self.slab.get_mut(slot).unwrap().value_mut()
    }

    /// Gives the value in the slot one more name.
    pub fn add_name(&mut self, slot: usize)
        requires { (held : Held T) → get self.old slot ≡ Some held → (0 < held.names) × (held.names < 2 ^ 64 - 1) }
        ensures { self.new ≡ with_changed self.old slot one_more }
    {
        unlist_dead(&mut self.slab, &mut self.dead, slot);
        let Some(kept) = self.slab.get_mut(slot) else {
            return;
        };
        kept.add_name();
    }

    /// Takes one name of the value in the slot away, and hands the value back where that was its last.
    pub fn drop_name(&mut self, slot: usize) -> Option<T>
        requires { (held : Held T) → get self.old slot ≡ Some held → 0 < held.names }
        ensures value { result ≡ option_and_then last_named (get self.old slot) }
        ensures gone { (held : Held T) → get self.old slot ≡ Some held → held.names ≡ 1 → HasGone slot self.old self.new }
        ensures fewer { (held : Held T) → get self.old slot ≡ Some held → held.names ≢ 1 → self.new ≡ with_changed self.old slot one_fewer }
        ensures absent { get self.old slot ≡ None → self.new ≡ self.old }
    {
        let Some(kept) = self.slab.get(slot) else {
            return None;
        };
        let names = kept.names();
        if names == 1 {
            unlist_dead(&mut self.slab, &mut self.dead, slot);
            let Slot { value, .. } = self.slab.remove(slot);
            return Some(value);
        }
        self.take_name(slot, names == 2);
        None
    }

    // Takes one name away, which is not the last. The value may be dead then.
    fn take_name(&mut self, slot: usize, dies: bool)
        requires names { (held : Held T) → get self.old slot ≡ Some held → 2 ≤ held.names }
        requires dies { (held : Held T) → get self.old slot ≡ Some held → dies ≡ (held.names == 2) }
        ensures { self.new ≡ with_changed self.old slot one_fewer }
    {
        let place = self.dead.len();
        let Some(kept) = self.slab.get_mut(slot) else {
            return;
        };
        kept.drop_name();
        kept.set_place(place);
        if dies {
            self.dead.push_reserved(slot);
        }
    }

    /// A slot whose value has just one name, where there is one: the one that came last.
    pub fn last_dead(&self) -> Option<usize>
        ensures some { IfSome result (λ slot. is_dead (get self.now slot) ≡ true) }
        ensures none { IfNone result ((slot : ℕ) → is_dead (get self.now slot) ≡ false) }
    {
        let len = self.dead.len();
        if len == 0 {
            return None;
        }
        Some(self.dead[len - 1])
    }
}
