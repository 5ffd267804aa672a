//! The right to use a turnstile.
ghost use Rattle.std.specs.Prelude.{◌≡◌, [], ◌∷◌, slice_index_or};

use crate::view::View;
use atomic_table::{Badge, Seat};
use std::mem;

/// A pass of one turnstile. Contracts see what its holder has seen and done as `view`.
#[derive(Drop)]
pub struct Pass {
    pub(crate) badge: Badge<View>,
    /// Its number, from 0.
    pub(crate) number: u32,
    /// How many numbers were drawn, when that was read last.
    pub(crate) drawn: u32,
}

impl Pass {
    ghost use Rattle.turnstile.specs.Passes.{view};

    /// The seat at the table. Until it is returned the pass has none.
    pub(crate) fn take_seat<V>(&mut self) -> Seat<Option<V>, View>
        requires { self.old.badge.views ≡ view self.old ∷ [] }
        ensures seat { (result.table_id ≡ self.old.badge.table_id) × (result.me ≡ (view self.old, [])) }
        ensures rest { (self.new.number ≡ self.old.number) × (self.new.drawn ≡ self.old.drawn) }
    {
        mem::replace(&mut self.badge, Badge::blank()).into_seat()
    }

    pub(crate) fn return_seat<V>(&mut self, seat: Seat<Option<V>, View>)
        requires { seat.me.1 ≡ [] }
        ensures seat { (self.new.badge.table_id ≡ seat.table_id) × (self.new.badge.views ≡ view self.new ∷ []) × (view self.new ≡ seat.me.0) }
        ensures rest { (self.new.number ≡ self.old.number) × (self.new.drawn ≡ self.old.drawn) }
    {
        self.badge = seat.into_badge();
    }
}
