//! The places of one application's table, with a bit for each whose object has an event.

ghost use Rattle.std.specs.Prelude.{◌≡◌, ◌<◌, length, map, slice_get, slice_set, Some, IfOk, replicate};
ghost use Rattle.std.specs.List.{list_any};
ghost use Rattle.handle_set.specs.Sets.{Memberships};
ghost use Rattle.wait_events.specs.Watches.{is_told, retold};
ghost use Rattle.wait_events.specs.Waits.{first_told, next_place, no_watch, told_from};

use crate::watch::{Watch, has_told, retold};
use handle_set::Sets;
use handle_set::ready_list::with_bit_at;
use kernel_values::{Events, Handle, NoMemory};
use object_store::ObjKey;
use std::alloc::Global;
use std::marker::Model;

/// The 64 places of a table. Bit k of `told` says whether the object at place k has an event, so whether any has
/// one is known without a look.
#[derive(Drop)]
pub struct TableWatch {
    places: Vec<Watch>,
    told: u64,
}

impl Model for TableWatch {
    ghost use Rattle.std.specs.Prelude.{List};
    ghost use Rattle.wait_events.specs.declared.watch.Watch.{Watch};
    ghost use Rattle.wait_events.specs.Places.{IsTableWatch};

    ghost Value = { List Watch };

    ghost view = { λ t. t.places.items };

    ghost invariant = { λ t. IsTableWatch t.places.items t.told };
}

// The place at which the search after the number last reported begins.
fn next_place(last: Option<Handle>) -> usize
    ensures { result ≡ next_place last }
{
    match last {
        Some(last) => last as usize + 1,
        None => 0,
    }
}

impl TableWatch {
    /// A table with nothing at any place.
    pub fn new(alloc: Global) -> Result<TableWatch, NoMemory>
        ensures { IfOk result (λ table. table ≡ replicate 64 no_watch) }
    {
        let nothing = Watch {
            object: None,
            events: Events(0),
        };
        let places = Vec::from_elem(alloc, nothing, 64)?;
        Ok(TableWatch { places, told: 0 })
    }

    // What holds of every table: it has 64 places.
    fn sound(&self)
        ensures { length self.now ≡ 64 }
    {
        let _ = &self.places;
    }

    /// Whether the object at some place has an event.
    pub fn is_told(&self) -> bool
        ensures { result ≡ list_any is_told self.now }
    {
        self.told != 0
    }

    /// The first place from a given one on whose object has an event.
    pub fn told_from(&self, from: usize) -> Option<usize>
        ensures { result ≡ told_from from self.now }
    {
        self.sound();
        if from >= 64 {
            return None;
        }
        let rest = self.told >> from;
        if rest == 0 {
            return None;
        }
        Some(from + rest.trailing_zeros() as usize)
    }

    /// The first such place after the number last reported, or else the first of all.
    pub fn first_told(&self, last: Option<Handle>) -> Option<usize>
        ensures { result ≡ first_told last self.now }
    {
        match self.told_from(next_place(last)) {
            Some(place) => Some(place),
            None => self.told_from(0),
        }
    }

    /// What stands at a place from now on.
    pub fn set(&mut self, at: usize, watch: Watch)
        requires { at < 64 }
        ensures { self.new ≡ slice_set self.old at watch }
    {
        self.places[at] = watch;
        self.told = with_bit_at(self.told, at, has_told(watch.events));
    }

    // What stands at a place.
    fn place(&self, at: usize) -> Watch
        requires { at < 64 }
        ensures { slice_get self.now at ≡ Some result }
    {
        self.places[at]
    }

    /// The events of an object changed, and all sets are up to date.
    pub fn tell(&mut self, sets: &Sets, object: ObjKey, events: Events)
        ensures { self.new ≡ map (retold sets.now.sets object.serial events) self.old }
    {
        self.sound();
        for at in 0..64usize {
            self.set(at, retold(sets, object, events, self.place(at)));
        }
    }
}
