//! The entries of a history in order, with the end facts after each.

ghost use Rattle.std.specs.Prelude.{◌≡◌, ◌≤◌, ◌+◌, ◌++◌, ◌∷◌, [], length, slice_get, option_copied, IfOk, OnOk, IsOk};
ghost use Rattle.kernel_log.specs.Books.{is_of_actor, places_of};

use kernel_types::values::{ActorId, EndFacts, Entry, Event, Items, NoMemory};
use std::alloc::Global;
use std::marker::Model;

/// Places in a journal, counted from 0.
pub type PlaceList = Items<u64>;

/// A list of entries, and of the end facts after each. Places for more may be reserved, so that
/// `push` never wants memory.
#[derive(Drop)]
pub struct Journal {
    entries: Vec<Entry>,
    facts: Vec<EndFacts>,
}

impl Model for Journal {
    ghost use Rattle.std.specs.Prelude.{◌≡◌, ◌-◌, min, length, vec_len, vec_capacity};
    ghost use Rattle.kernel_log.specs.Books.{Book};

    ghost Value = { Book };

    ghost view = { λ j. record {
      entries = j.entries.items;
      facts = j.facts.items;
      room = min (vec_capacity j.entries - vec_len j.entries) (vec_capacity j.facts - vec_len j.facts);
    } };

    ghost invariant = { λ j. vec_len j.entries ≡ vec_len j.facts };
}

impl Journal {
    /// An empty journal. Nothing is allocated yet.
    pub fn new(alloc: Global) -> Journal
        ensures entries { result.entries ≡ [] }
        ensures facts { result.facts ≡ [] }
    {
        Journal {
            entries: Vec::new(alloc),
            facts: Vec::new(alloc),
        }
    }

    /// Reserves places for `n` more entries; it is not refused where they are reserved already.
    /// Refused, no entry is lost, nor a place that was reserved before.
    pub fn reserve(&mut self, n: usize) -> Result<(), NoMemory>
        ensures entries { self.new.entries ≡ self.old.entries }
        ensures facts { self.new.facts ≡ self.old.facts }
        ensures room { self.old.room ≤ self.new.room }
        ensures ok { OnOk result (n ≤ self.new.room) }
        ensures succeeds { n ≤ self.old.room → IsOk result }
    {
        self.entries.reserve(n)?;
        self.facts.reserve(n)?;
        Ok(())
    }

    /// Writes an entry last, with the facts after it, into a reserved place.
    pub fn push(&mut self, entry: Entry, facts: EndFacts)
        requires { 1 ≤ self.old.room }
        ensures entries { self.new.entries ≡ self.old.entries ++ entry ∷ [] }
        ensures facts { self.new.facts ≡ self.old.facts ++ facts ∷ [] }
        ensures room { self.old.room ≤ self.new.room + 1 }
    {
        let _ = self.entries.push(entry);
        let _ = self.facts.push(facts);
    }

    /// The number of entries.
    pub fn len(&self) -> u64
        ensures { result ≡ length self.now.entries }
    {
        self.entries.len() as u64
    }

    /// The entry at the place `k`, counted from 0, where there is one.
    pub fn entry(&self, k: u64) -> Option<&Entry>
        ensures { option_copied result ≡ slice_get self.now.entries k }
    {
        self.entries.get(k as usize)
    }

    /// The facts of the state after the entry at the place `k`, where there is one.
    pub fn facts(&self, k: u64) -> Option<EndFacts>
        ensures { result ≡ slice_get self.now.facts k }
    {
        self.facts.get(k as usize).copied()
    }

    /// All entries in order.
    pub fn entries(&self) -> &[Entry]
        ensures { result.now ≡ self.now.entries }
    {
        self.entries.as_slice()
    }

    /// The places of the entries at which the actor began a call or ended a wait, rising.
    pub fn of_actor(&self, alloc: Global, actor: ActorId) -> Result<PlaceList, NoMemory>
        ensures { IfOk result (λ places. places ≡ places_of self.now.entries actor.0) }
    {
        own_places(alloc, self.entries(), actor)
    }
}

fn is_of_actor(event: &Event, actor: ActorId) -> bool
    ensures { result ≡ is_of_actor actor.0 event.now }
{
    match event {
        Event::Begin { actor: own, .. } => own.0 == actor.0,
        Event::Resume { actor: own, .. } => own.0 == actor.0,
        Event::Device => false,
        Event::Idle => false,
    }
}

#[tactic(auto, using(crate::proofs::Places::places_one, crate::proofs::Places::places_same))]
fn own_places(alloc: Global, entries: &[Entry], actor: ActorId) -> Result<PlaceList, NoMemory>
    ensures { IfOk result (λ places. places ≡ places_of entries.now actor.0) }
{
    let mut places = Items::new(alloc);
    for at in 0..entries.len() {
        if is_of_actor(&entries[at].event, actor) {
            places.push(at as u64)?;
        }
    }
    Ok(places)
}
