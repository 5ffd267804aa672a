//! What a seat does at the table.
ghost use Rattle.std.specs.Prelude.{◌≡◌, ◌+◌, ◌<◌, ◌^◌, true, false, Some, [], ◌∷◌, length, IfOk, IfErr};
ghost use Rattle.turnstile.specs.Names.{table_of, first_of};
ghost use Rattle.turnstile.specs.Numbers.{Rises};
ghost use Rattle.turnstile.specs.Views.{won, tried, fetched, shut, opened, added, left, entered, numbers};
ghost use Rattle.turnstile.specs.Steps.{Continues, AddsOne, IsOfAnother, HasAllIfAlone};

use crate::lock::{Busy, DRAWN, ENTRIES, TURN, Turnstile, VALUE};
use crate::rule::{Add, Fetch, Leave, Open, Shut, Take};
use crate::view::View;
use atomic_table::Seat;
use kernel_values::Recorded;

impl<V: Recorded + Drop> Turnstile<V> {
    // Tries once to take the turn, for the pass with this number.
    pub(crate) fn take_turn(
        &self,
        seat: &mut Seat<Option<V>, View>,
        number: u32,
    ) -> Result<(), Busy>
        requires seat { (seat.old.table_id ≡ table_of self.now) × (seat.old.me.1 ≡ []) }
        requires view { (seat.old.me.0.number ≡ Some number) × (seat.old.me.0.has_turn ≡ false) × (seat.old.me.0.spent ≡ false) }
        ensures seat { (seat.new.table_id ≡ seat.old.table_id) × (seat.new.me.1 ≡ []) }
        ensures ok { IfOk result (λ _. seat.new.me.0 ≡ won seat.old.me.0) }
        ensures err { IfErr result (λ busy. (seat.new.me.0 ≡ tried seat.old.me.0 busy.word) × IsOfAnother seat.old.me.0 busy.word) }
        ensures others { IfErr result (λ _. length (numbers seat.old.me.0) < seat.old.me.0.seats) }
    {
        let found = self
            .table
            .shared
            .compare_exchange::<Take>(seat, TURN, 0, number as u64 + 1);
        if found == 0 {
            Ok(())
        } else {
            Err(Busy { word: found })
        }
    }

    // Takes the value out of the slot, and puts the slot back empty.
    pub(crate) fn take_value(&self, seat: &mut Seat<Option<V>, View>) -> V
        requires seat { (seat.old.table_id ≡ table_of self.now) × (seat.old.me.1 ≡ []) }
        requires view { (seat.old.me.0.has_turn ≡ true) × (seat.old.me.0.loaded ≡ false) × (seat.old.me.0.spent ≡ false) }
        ensures seat { (seat.new.table_id ≡ seat.old.table_id) × (seat.new.me.1 ≡ []) }
        ensures view { seat.new.me.0 ≡ shut (fetched seat.old.me.0 (V.history result)) }
        ensures history { Continues seat.old.me.0 (V.history result) }
        ensures origin { V.origin result ≡ seat.old.me.0.origin }
        ensures rises { Rises 0 (length seat.old.me.0.seen) seat.old.me.0.mine }
        ensures alone { HasAllIfAlone seat.old.me.0 (length (V.history result)) }
    {
        self.table.shared.load::<Fetch<V>>(seat, ENTRIES);
        let found = self.table.shared.exchange(seat, VALUE, None);
        self.table.shared.load::<Shut>(seat, ENTRIES);
        found.unwrap()
    }

    // Takes the slot again and lays the value into it. The turn is still this seat's.
    pub(crate) fn lay_value(&self, seat: &mut Seat<Option<V>, View>, value: V)
        requires seat { (seat.old.table_id ≡ table_of self.now) × (seat.old.me.1 ≡ []) }
        requires view { (seat.old.me.0.has_turn ≡ true) × (seat.old.me.0.loaded ≡ true) × (seat.old.me.0.opens ≡ false) }
        ensures seat { seat.new.table_id ≡ seat.old.table_id }
        ensures view { seat.new.me ≡ (opened seat.old.me.0, (0, Some value) ∷ []) }
    {
        self.table.shared.load::<Open>(seat, ENTRIES);
        let _empty = self.table.shared.exchange(seat, VALUE, Some(value));
    }

    // Gives the turn back, and the slot with the value, which has the history that the seat has seen. Wakes one thread that waits for the turn.
    pub(crate) fn give_turn(&self, seat: &mut Seat<Option<V>, View>)
        requires seat { seat.old.table_id ≡ table_of self.now }
        requires view { (seat.old.me.0.has_turn ≡ true) × (seat.old.me.0.loaded ≡ true) × (seat.old.me.0.opens ≡ true) × (seat.old.me.0.spent ≡ false) }
        requires value { (x : V) × (seat.old.me.1 ≡ (0, Some x) ∷ []) × (V.history x ≡ seat.old.me.0.seen) × (V.origin x ≡ seat.old.me.0.origin) }
        ensures seat { (seat.new.table_id ≡ seat.old.table_id) × (seat.new.me.1 ≡ []) }
        ensures view { seat.new.me.0 ≡ left seat.old.me.0 }
    {
        self.table.shared.swap::<Leave>(seat, TURN, 0);
        self.table.shared.wake_one(TURN);
    }

    // Counts the entry that the value in the seat's slot has more than the seat has seen.
    pub(crate) fn add_entry(&self, seat: &mut Seat<Option<V>, View>)
        requires seat { seat.old.table_id ≡ table_of self.now }
        requires view { (seat.old.me.0.has_turn ≡ true) × (seat.old.me.0.loaded ≡ true) × (seat.old.me.0.opens ≡ true) }
        requires value { (x : V) × (seat.old.me.1 ≡ (0, Some x) ∷ []) × AddsOne seat.old.me.0.seen (V.history x) × (length (V.history x) < 2 ^ 64) }
        ensures seat { (seat.new.table_id ≡ seat.old.table_id) × (seat.new.me.1 ≡ seat.old.me.1) }
        ensures view { (x : V) → seat.old.me.1 ≡ (0, Some x) ∷ [] → seat.new.me.0 ≡ added seat.old.me.0 (V.history x) }
    {
        self.table.shared.fetch_add::<Add<V>>(seat, ENTRIES, 1);
    }
}
