//! The rule of the lock's table, and what its steps tell.
ghost use Rattle.turnstile.specs.Views.{first_view, child, both, given_up};
ghost use Rattle.turnstile.specs.Rule.{About, Kept};
ghost use Rattle.turnstile.specs.Steps.{Takes, Fetches, Shuts, Opens, Adds, Leaves, Counts, Draws};

use crate::view::View;
use atomic_table::{Join, Play, Split, TableRule};
use kernel_values::Recorded;
use std::marker::PhantomData;
use std::snapshot::Snapshot;

/// The value that the table was made with, as proofs see it, and how many passes there may be.
#[derive(Drop)]
pub struct Opening<V> {
    pub value: Snapshot<V>,
    pub seats: u32,
}

pub struct InTurn<V> {
    marker: PhantomData<V>,
}

impl<V: Recorded> TableRule<Option<V>, View, Opening<V>> for InTurn<V> {
    ghost holds = { λ key. Kept V.history V.origin (record { origin = V.origin key.value.value; seats = key.seats }) };

    ghost first = { λ key. first_view (V.history key.value.value) (V.origin key.value.value) key.seats };
}

/// A try to take the turn.
pub struct Take;

impl<V> Play<Option<V>, View> for Take {
    ghost then = { Takes };
}

/// A look at the number of entries that takes the slot with its value, by who has the turn.
pub struct Fetch<V> {
    marker: PhantomData<V>,
}

impl<V: Recorded> Play<Option<V>, View> for Fetch<V> {
    ghost then = { Fetches V.history V.origin };
}

/// A look that puts the empty slot back.
pub struct Shut;

impl<V> Play<Option<V>, View> for Shut {
    ghost then = { Shuts };
}

/// A look that takes the empty slot again.
pub struct Open;

impl<V> Play<Option<V>, View> for Open {
    ghost then = { Opens };
}

/// The count of one entry more.
pub struct Add<V> {
    marker: PhantomData<V>,
}

impl<V: Recorded> Play<Option<V>, View> for Add<V> {
    ghost then = { Adds V.history };
}

/// The turn given back, and the slot with its value.
pub struct Leave;

impl<V> Play<Option<V>, View> for Leave {
    ghost then = { Leaves };
}

/// A look at the number of entries.
pub struct Count;

impl<V> Play<Option<V>, View> for Count {
    ghost then = { Counts };
}

/// A try to draw a number.
pub struct Draw;

impl<V> Play<Option<V>, View> for Draw {
    ghost then = { Draws };
}

/// A new seat beside another.
pub struct Part;

impl Split<View> for Part {
    ghost left = { λ v. v };

    ghost right = { child };
}

/// A seat taken in by another.
pub struct Gather;

impl Join<View> for Gather {
    ghost both = { both };

    ghost spent = { given_up };
}
