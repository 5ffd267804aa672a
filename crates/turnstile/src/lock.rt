//! The lock.
ghost use Rattle.std.specs.Prelude.{◌≡◌, ◌≢◌, ◌+◌, ◌<◌, ◌≤◌, ◌^◌, true, false, IfOk, IfErr, Some, [], ◌∷◌, length};

use crate::pass::Pass;
use crate::rule::{Count, InTurn, Opening};
use crate::view::View;
use atomic_table::{Refused, Seat, Table};
use kernel_values::Recorded;
use std::alloc::{AllocFailed, Global};
use std::snapshot::Snapshot;
use std::sync::Wait;

/// The number of entries of the history.
pub(crate) const ENTRIES: usize = 0;
/// 0 where the turn is free, else 1 plus the holder's number.
pub(crate) const TURN: usize = 1;
/// How many numbers were drawn.
pub(crate) const DRAWN: usize = 2;
/// The one slot, in which the value lies.
pub(crate) const VALUE: usize = 0;

/// A lock over a value, for as many passes as it was made for.
#[derive(Drop)]
pub struct Turnstile<V: Recorded + Drop> {
    pub(crate) table: Table<Option<V>, View, Opening<V>, InTurn<V>, Global>,
    pub(crate) seats: u32,
    ghost sized: { (table.shared.table_id.words ≡ 3) × (table.shared.table_id.slots ≡ 1) },
    ghost counted: { (table.shared.key.seats ≡ seats) × (0 < seats) },
}

/// There was no memory. The value comes back.
#[derive(Drop)]
pub struct NewRefused<V: Drop> {
    pub value: V,
}

/// Another pass had the turn: `word` is 1 plus its number.
#[derive(Clone, Copy, PartialEq, Eq, Debug)]
pub struct Busy {
    pub word: u64,
}

impl<V: Recorded + Drop> Turnstile<V> {
    ghost use Rattle.turnstile.specs.Names.{table_of, first_of, IsPassOf};
    ghost use Rattle.turnstile.specs.Passes.{view};
    ghost use Rattle.turnstile.specs.Views.{first_view, counted, tried, waited, won, entered, left, added};
    ghost use Rattle.turnstile.specs.Steps.{Continues, AddsOne, IsOfAnother};

    /// A turnstile over the value for `seats` passes, and the first of them.
    pub fn new(alloc: Global, value: V, seats: u32) -> Result<(Turnstile<V>, Pass), NewRefused<V>>
        requires { 0 < seats }
        ensures ok { IfOk result (λ r. (first_of r.0 ≡ value) × (r.0.seats ≡ seats)) }
        ensures pass { IfOk result (λ r. IsPassOf V.origin r.0 r.1 × (view r.1 ≡ first_view (V.history value) (V.origin value) seats)) }
        ensures err { IfErr result (λ r. r.value ≡ value) }
    {
        let words = [value.recorded(), 0, 1];
        let about = Opening {
            value: Snapshot::of(&value),
            seats,
        };
        let slots = one_slot(alloc, value)?;
        match Table::new(alloc, &words, slots, &about) {
            Ok((table, seat)) => {
                let pass = Pass {
                    badge: seat.into_badge(),
                    number: 0,
                    drawn: 1,
                };
                Ok((Turnstile { table, seats }, pass))
            }
            Err(refused) => Err(NewRefused {
                value: value_of(refused),
            }),
        }
    }

    /// Takes the value, if the turn is free.
    pub fn try_enter(&self, pass: &mut Pass) -> Result<V, Busy>
        requires pass { IsPassOf V.origin self.now pass.old }
        requires out { (view pass.old).has_turn ≡ false }
        ensures pass { IsPassOf V.origin self.now pass.new }
        ensures ok { IfOk result (λ value. (view pass.new ≡ entered (view pass.old) (V.history value)) × Continues (view pass.old) (V.history value) × (V.origin value ≡ V.origin (first_of self.now))) }
        ensures busy { IfErr result (λ busy. (view pass.new ≡ tried (view pass.old) busy.word) × IsOfAnother (view pass.old) busy.word) }
        ensures word { IfErr result (λ busy. (busy.word ≢ 0) × (busy.word ≢ pass.old.number + 1)) }
    {
        let number = pass.number;
        let mut seat = pass.take_seat::<V>();
        let outcome = self.try_turn(&mut seat, number);
        pass.return_seat(seat);
        outcome
    }

    fn try_turn(&self, seat: &mut Seat<Option<V>, View>, number: u32) -> Result<V, Busy>
        requires seat { (seat.old.table_id ≡ table_of self.now) × (seat.old.me.1 ≡ []) }
        requires view { (seat.old.me.0.number ≡ Some number) × (seat.old.me.0.has_turn ≡ false) × (seat.old.me.0.spent ≡ false) }
        ensures seat { (seat.new.table_id ≡ seat.old.table_id) × (seat.new.me.1 ≡ []) }
        ensures ok { IfOk result (λ value. (seat.new.me.0 ≡ entered seat.old.me.0 (V.history value)) × Continues seat.old.me.0 (V.history value) × (V.origin value ≡ seat.old.me.0.origin)) }
        ensures busy { IfErr result (λ busy. (seat.new.me.0 ≡ tried seat.old.me.0 busy.word) × IsOfAnother seat.old.me.0 busy.word) }
    {
        self.take_turn(seat, number)?;
        Ok(self.take_value(seat))
    }

    /// Waits for the turn, and takes the value.
    pub fn enter(&self, rt: &impl Wait, pass: &mut Pass) -> V
        requires pass { IsPassOf V.origin self.now pass.old }
        requires out { (view pass.old).has_turn ≡ false }
        ensures pass { IsPassOf V.origin self.now pass.new }
        ensures tries { (view pass.old).tries ≤ (view pass.new).tries }
        ensures view { view pass.new ≡ entered (waited (view pass.old) (view pass.new).tries (view pass.new).last) (V.history result) }
        ensures history { Continues (view pass.old) (V.history result) }
        ensures origin { V.origin result ≡ V.origin (first_of self.now) }
    {
        let number = pass.number;
        let mut seat = pass.take_seat::<V>();
        self.wait_turn(rt, &mut seat, number);
        let value = self.take_value(&mut seat);
        pass.return_seat(seat);
        value
    }

    // Tries to take the turn, and sleeps while another has it.
    fn wait_turn<R: Wait>(&self, rt: &R, seat: &mut Seat<Option<V>, View>, number: u32)
        requires seat { (seat.old.table_id ≡ table_of self.now) × (seat.old.me.1 ≡ []) }
        requires view { (seat.old.me.0.number ≡ Some number) × (seat.old.me.0.has_turn ≡ false) × (seat.old.me.0.spent ≡ false) }
        ensures seat { (seat.new.table_id ≡ seat.old.table_id) × (seat.new.me.1 ≡ []) }
        ensures tries { seat.old.me.0.tries ≤ seat.new.me.0.tries }
        ensures view { seat.new.me.0 ≡ won (waited seat.old.me.0 seat.new.me.0.tries seat.new.me.0.last) }
    {
        for _ in rt.forever() {
            match self.take_turn(seat, number) {
                Ok(()) => return,
                Err(busy) => self
                    .table
                    .shared
                    .park(rt, TURN, (busy.word % (1 << 32)) as u32),
            }
        }
        unreachable!()
    }

    /// Gives the value back with the history that it had.
    pub fn leave(&self, pass: &mut Pass, value: V)
        requires pass { IsPassOf V.origin self.now pass.old }
        requires holds { (view pass.old).has_turn ≡ true }
        requires history { V.history value ≡ (view pass.old).seen }
        requires origin { V.origin value ≡ V.origin (first_of self.now) }
        ensures pass { IsPassOf V.origin self.now pass.new }
        ensures view { view pass.new ≡ left (view pass.old) }
    {
        let mut seat = pass.take_seat::<V>();
        self.lay_value(&mut seat, value);
        self.give_turn(&mut seat);
        pass.return_seat(seat);
    }

    /// Gives the value back with one entry more.
    pub fn leave_with(&self, pass: &mut Pass, value: V)
        requires pass { IsPassOf V.origin self.now pass.old }
        requires holds { (view pass.old).has_turn ≡ true }
        requires history { AddsOne (view pass.old).seen (V.history value) }
        requires room { length (V.history value) < 2 ^ 64 }
        requires origin { V.origin value ≡ V.origin (first_of self.now) }
        ensures pass { IsPassOf V.origin self.now pass.new }
        ensures view { view pass.new ≡ left (added (view pass.old) (V.history value)) }
    {
        let mut seat = pass.take_seat::<V>();
        self.lay_value(&mut seat, value);
        self.add_entry(&mut seat);
        self.give_turn(&mut seat);
        pass.return_seat(seat);
    }

    /// How many entries the history has, and no fewer than this pass knew of.
    pub fn count(&self, pass: &mut Pass) -> u64
        requires { IsPassOf V.origin self.now pass.old }
        ensures pass { IsPassOf V.origin self.now pass.new }
        ensures known { ((view pass.old).known ≤ result) × (view pass.new ≡ counted (view pass.old) result) }
    {
        let mut seat = pass.take_seat::<V>();
        let known = self.table.shared.load::<Count>(&mut seat, ENTRIES);
        pass.return_seat(seat);
        known
    }
}

// The value, where a table takes its slots from.
fn one_slot<V: Drop>(alloc: Global, value: V) -> Result<Vec<Option<V>>, NewRefused<V>>
    ensures ok { IfOk result (λ slots. slots.items ≡ Some value ∷ []) }
    ensures err { IfErr result (λ r. r.value ≡ value) }
{
    let mut slots = Vec::new(alloc);
    match slots.push(Some(value)) {
        Ok(()) => Ok(slots),
        Err(AllocFailed { value: Some(value) }) => Err(NewRefused { value }),
        Err(_) => unreachable!(),
    }
}

// The value that was to lie in a table's one slot.
fn value_of<V: Drop>(refused: Refused<Option<V>, Global>) -> V
    requires { (x : V) × (refused.slots.items ≡ Some x ∷ []) }
    ensures { refused.slots.items ≡ Some result ∷ [] }
{
    let Refused { mut slots } = refused;
    match slots.pop() {
        Some(Some(value)) => value,
        _ => unreachable!(),
    }
}
