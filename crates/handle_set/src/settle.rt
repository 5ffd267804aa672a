//! Sets in one another: each knows of a member that is a set whether that one is ready. What changes in a set is
//! told to the sets that have it as a member, and so on upwards; no other set is looked at.

ghost use Rattle.std.specs.Prelude.{◌≡◌, ◌<◌, ◌≤◌, ◌+◌, ℕ, List, Bool, true, false, not, length, map, slice_get, Some, None, Option};
ghost use Rattle.std.specs.List.{list_any, position_or_len};
ghost use Rattle.std.specs.Option.{IfSome};
ghost use mathlib.Core.Bool.{beq};
ghost use Rattle.handle_set.specs.declared.settle.OpenSet.{OpenSet};
ghost use Rattle.handle_set.specs.Holders.{IsHeld};
ghost use Rattle.handle_set.specs.Members.{map_at};
ghost use Rattle.handle_set.specs.Sets.{AreOnce, Follows, IsExact, IsOfSets, IsRanked, IsRankedBy, IsUpToDate, LeavesFollow, has_id, has_member, has_ready, id_of, ready_events, ready_in, set_told};
ghost use Rattle.handle_set.specs.Spreading.{IsExactBut, IsInReach, IsSpread, everyone, is_one};

use crate::holders::holders_of;
use crate::members;
use crate::ready_list::ReadyList;
use kernel_values::Events;
use std::collections::BTreeMap;

/// An open set with its members.
#[derive(Drop)]
pub struct OpenSet {
    pub id: u64,
    pub members: ReadyList,
}

/// A chain of sets, each a member of the one before, has at most this many.
pub const CHAIN_LIMIT: u32 = 8;

/// The place of the set; past the end where no set of this number is open.
pub fn place_of(sets: &[OpenSet], id: u64) -> usize
    ensures { result ≡ position_or_len (has_id id) sets.now }
{
    for (at, set) in sets.iter().enumerate() {
        if set.id == id {
            return at;
        }
    }
    sets.len()
}

/// The number of the set at a place.
pub fn id_at(sets: &[OpenSet], place: usize) -> u64
    requires { place < length sets.now }
    ensures { IfSome (slice_get sets.now place) (λ set. result ≡ set.id) }
{
    sets[place].id
}

// The place of the first set with no smaller number, where the numbers rise.
fn place_in_order(sets: &[OpenSet], id: u64) -> usize
    ensures { result ≤ length sets.now }
{
    let mut low = 0;
    let mut high = sets.len();
    while low < high {
        let middle = low + (high - low) / 2;
        if sets[middle].id < id {
            low = middle + 1;
        } else {
            high = middle;
        }
    }
    low
}

/// The place of the set, as `place_of`. Numbers of objects rise, so sets are mostly opened in their order; the set
/// is then found in a few steps.
pub fn find_place(sets: &[OpenSet], id: u64) -> usize
    requires { AreOnce (map id_of sets.now) }
    ensures { result ≡ position_or_len (has_id id) sets.now }
{
    let place = place_in_order(sets, id);
    if place < sets.len() {
        if id_at(sets, place) == id {
            return place;
        }
    }
    place_of(sets, id)
}

/// Whether a member of the open set has an event of its mask; None where no set of this number is open.
pub fn ready_in(sets: &[OpenSet], id: u64) -> Option<bool>
    ensures { result ≡ ready_in sets.now id }
{
    for set in sets {
        if set.id == id {
            return Some(set.members.is_ready());
        }
    }
    None
}

/// The events that a set has.
pub fn ready_events(ready: bool) -> Events
    ensures { result ≡ ready_events ready }
{
    if ready { Events(1) } else { Events(0) }
}

/// Whether the set at a place has a ready member.
pub fn is_ready_at(sets: &[OpenSet], place: usize) -> bool
    requires { place < length sets.now }
    ensures { IfSome (slice_get sets.now place) (λ set. result ≡ has_ready set) }
{
    sets[place].members.is_ready()
}

/// Whether the set at a place has the object as a member.
pub fn holds(sets: &[OpenSet], place: usize, object: u64) -> bool
    requires { place < length sets.now }
    ensures { IfSome (slice_get sets.now place) (λ set. result ≡ has_member object set) }
{
    members::has_object(&sets[place].members, object)
}

// The members of an object in one set are told other events. Tells whether the set became ready or no longer
// is.
fn tell_at(sets: &mut [OpenSet], place: usize, object: u64, events: Events) -> bool
    requires { place < length sets.old }
    ensures told { sets.new ≡ map_at (set_told object events) place sets.old }
    ensures turned { IfSome (slice_get sets.old place) (λ set. result ≡ not (beq (has_ready (set_told object events set)) (has_ready set))) }
{
    let was = is_ready_at(sets, place);
    members::tell(&mut sets[place].members, object, events);
    is_ready_at(sets, place) != was
}

/// The members of an object are told its events, in each set that has it; and where that set became ready or no
/// longer is, so are the members of the set, and so on upwards.
#[cycle(spread)]
pub fn spread(
    steps: u32,
    holders: &BTreeMap<u64, Vec<u64>>,
    sets: &mut [OpenSet],
    object: u64,
    events: Events,
)
    requires once { AreOnce (map id_of sets.old) }
    requires held { IsHeld holders.now sets.old }
    requires reach { IsInReach steps object sets.old }
    ensures { IsSpread everyone object events sets.old sets.new }
{
    let ids = holders_of(holders, object);
    for id in ids {
        spread_to(steps, holders, sets, *id, object, events);
    }
}

// The same to one set.
#[cycle(spread)]
fn spread_to(
    steps: u32,
    holders: &BTreeMap<u64, Vec<u64>>,
    sets: &mut [OpenSet],
    id: u64,
    object: u64,
    events: Events,
)
    requires once { AreOnce (map id_of sets.old) }
    requires held { IsHeld holders.now sets.old }
    requires reach { IsInReach steps object sets.old }
    ensures { IsSpread (is_one id) object events sets.old sets.new }
{
    let place = find_place(sets, id);
    if sets.len() <= place {
        return;
    }
    if !tell_at(sets, place, object, events) {
        return;
    }
    if steps == 0 {
        return;
    }
    let ready = is_ready_at(sets, place);
    spread(steps - 1, holders, sets, id, ready_events(ready));
}

/// Brings all sets up to date after a change of one set's members. Where the set is as ready as it was, nothing is
/// to be done.
pub fn settle_after(
    holders: &BTreeMap<u64, Vec<u64>>,
    sets: &mut [OpenSet],
    place: usize,
    was: bool,
)
    requires within { place < length sets.old }
    requires once { AreOnce (map id_of sets.old) }
    requires held { IsHeld holders.now sets.old }
    requires ranked { IsRanked sets.old }
    requires others { IfSome (slice_get sets.old place) (λ set. has_ready set ≡ was → IsExact sets.old) }
    requires rest { IfSome (slice_get sets.old place) (λ set. IsExactBut set.id sets.old) }
    ensures settled { IsUpToDate sets.old sets.new }
    ensures held { IsHeld holders.now sets.new }
    ensures ranked { (rank : ℕ → ℕ) → IsRankedBy rank sets.old → IsRankedBy rank sets.new }
{
    let ready = is_ready_at(sets, place);
    if ready == was {
        return;
    }
    let id = id_at(sets, place);
    spread(CHAIN_LIMIT, holders, sets, id, ready_events(ready));
}

/// Where all sets are exact, what is told for members that are no open sets fixes the rest: all told
/// events are those of any function that agrees there and gives each set its readiness.
pub fn exact_sets_follow()
    ensures { (sets : List OpenSet) (events : ℕ → ℕ) → IsRanked sets → IsExact sets → LeavesFollow events sets → IsOfSets events sets → Follows events sets }
{}
