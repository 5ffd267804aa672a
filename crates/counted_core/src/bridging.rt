//! The ends that the bridge names.

ghost use Rattle.std.specs.Prelude.{◌≡◌, ◌==◌, not};
ghost use Rattle.std.specs.List.{filter, flat_map, fold};
ghost use Rattle.counted_core.specs.Bridged.{bridged_entry};
ghost use Rattle.kernel_types.specs.Bridge.{unbridged};
ghost use Rattle.object_store.specs.Stock.{unnamed};

use crate::counts::CountedCore;
use crate::sweep::key_of;
use kernel_values::{Body, Items};
use object_store::Store;

#[tactic(auto, unfolding(crate::specs::Bridged::bridged_entry))]
fn unname_if_same(store: &mut Store<Body>, other: u64, id: u64)
    ensures items { store.new.items ≡ fold unnamed store.old.items (bridged_entry id other) }
    ensures next { store.new.next ≡ store.old.next }
{
    if other == id {
        store.unname(key_of(other));
    }
}

/// What the bridge's entries of the end named is named no more by them.
fn unname_bridged(store: &mut Store<Body>, bridged: &[u64], id: u64)
    ensures items { store.new.items ≡ fold unnamed store.old.items (flat_map (bridged_entry id) bridged.now) }
    ensures next { store.new.next ≡ store.old.next }
{
    for other in bridged {
        unname_if_same(store, *other, id);
    }
}

fn drop_bridged(bridged: &mut Items<u64>, id: u64)
    ensures { bridged.new ≡ filter (λ other. not (other == id)) bridged.old }
{
    bridged.retain(|other| *other != id);
}

impl CountedCore {
    /// The bridge names the end no more.
    pub fn unbridge(&mut self, id: u64)
        ensures { self.new ≡ unbridged id self.old }
    {
        self.store.sound();
        unname_bridged(&mut self.store, self.bridged.as_slice(), id);
        drop_bridged(&mut self.bridged, id);
    }
}
