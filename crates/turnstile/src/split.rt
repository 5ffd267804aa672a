//! Further passes.
ghost use Rattle.std.specs.Prelude.{◌≡◌, ◌≢◌, ◌+◌, ◌^◌, ◌<◌, ◌≤◌, false, [], IfOk, IfErr, IfSome, IfNone};

use crate::lock::{DRAWN, Turnstile};
use crate::pass::Pass;
use crate::rule::{Draw, Gather, Part};
use crate::view::View;
use atomic_table::Seat;
use kernel_values::Recorded;

/// Why there is no further pass.
#[derive(Clone, Copy, PartialEq, Eq, Debug)]
pub enum SplitRefused {
    /// As many passes were made as the turnstile has seats.
    NoneLeft,
    NoMemory,
}

impl<V: Recorded + Drop> Turnstile<V> {
    ghost use Rattle.turnstile.specs.Names.{table_of, IsPassOf};
    ghost use Rattle.turnstile.specs.Passes.{view};
    ghost use Rattle.turnstile.specs.Views.{child, drew, missed};
    ghost use Rattle.turnstile.specs.Splitting.{Refuses};

    /// One more pass, which has seen what this one has.
    pub fn split(&self, pass: &mut Pass) -> Result<Pass, SplitRefused>
        requires { IsPassOf V.origin self.now pass.old }
        ensures pass { IsPassOf V.origin self.now pass.new }
        ensures ok { IfOk result (λ other. IsPassOf V.origin self.now other × (view other ≡ drew (child (view pass.old)) other.number) × ((view pass.old).drawn ≤ other.number) × (other.number < self.now.seats) × (view pass.new ≡ view pass.old)) }
        ensures refused { IfErr result (λ why. Refuses why (view pass.old) (view pass.new)) }
    {
        let seats = self.seats;
        let drawn = pass.drawn;
        let mut seat = pass.take_seat::<V>();
        let mut other = self.table.shared.split_seat::<Part>(&mut seat);
        match self.draw(&mut other, drawn) {
            Some(number) => {
                pass.return_seat(seat);
                Ok(Pass {
                    badge: other.into_badge(),
                    number,
                    drawn: number + 1,
                })
            }
            None => {
                self.table.shared.join_seat::<Gather>(&mut seat, other);
                pass.drawn = seats;
                pass.return_seat(seat);
                Err(SplitRefused::NoneLeft)
            }
        }
    }

    // Draws a number for a seat that has none, if one is left.
    fn draw(&self, seat: &mut Seat<Option<V>, View>, drawn: u32) -> Option<u32>
        requires seat { (seat.old.table_id ≡ table_of self.now) × (seat.old.me.1 ≡ []) }
        requires view { (seat.old.me.0.number ≡ None) × (seat.old.me.0.spent ≡ false) × (seat.old.me.0.seats ≡ self.now.seats) }
        requires drawn { (seat.old.me.0.drawn ≡ drawn) × (drawn ≤ self.now.seats) }
        ensures seat { (seat.new.table_id ≡ seat.old.table_id) × (seat.new.me.1 ≡ []) }
        ensures some { IfSome result (λ n. (seat.new.me.0 ≡ drew seat.old.me.0 n) × (drawn ≤ n) × (n < self.now.seats)) }
        ensures none { IfNone result (seat.new.me.0 ≡ missed seat.old.me.0 self.now.seats) }
        ensures fits { IfSome result (λ n. n + 1 < 2 ^ 32) }
    {
        let seats = self.seats;
        let mut drawn = drawn;
        while drawn < seats {
            let found = self.draw_once(seat, drawn);
            if found == drawn {
                return Some(drawn);
            }
            drawn = found;
        }
        None
    }

    // Draws the number, if so many were drawn. It returns how many were.
    fn draw_once(&self, seat: &mut Seat<Option<V>, View>, drawn: u32) -> u32
        requires seat { (seat.old.table_id ≡ table_of self.now) × (seat.old.me.1 ≡ []) }
        requires view { (seat.old.me.0.number ≡ None) × (seat.old.me.0.spent ≡ false) × (seat.old.me.0.seats ≡ self.now.seats) }
        requires drawn { (seat.old.me.0.drawn ≡ drawn) × (drawn < self.now.seats) }
        ensures seat { (seat.new.table_id ≡ seat.old.table_id) × (seat.new.me.1 ≡ []) }
        ensures drew { result ≡ drawn → seat.new.me.0 ≡ drew seat.old.me.0 result }
        ensures missed { result ≢ drawn → (seat.new.me.0 ≡ missed seat.old.me.0 result) × (drawn < result) × (result ≤ self.now.seats) }
    {
        let _seats = self.seats;
        self.table
            .shared
            .compare_exchange::<Draw>(seat, DRAWN, drawn as u64, drawn as u64 + 1) as u32
    }
}
