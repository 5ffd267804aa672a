//! Changes of the open sets: one set's members, or what is told of an object in all of them. All are brought
//! up to date after each.

ghost use Rattle.std.specs.Prelude.{◌≡◌, ◌<◌, ◌≤◌, ◌+◌, ◌-◌, ◌^◌, ◌++◌, ◌∷◌, ℕ, List, Bool, [], true, false, length, map, slice_get, Some, None, Option, find, drop};
ghost use Rattle.std.specs.Option.{IfSome, IsSome, IfNone, OnSome};
ghost use Rattle.handle_set.specs.Holders.{IsHeld};
ghost use Rattle.handle_set.specs.Members.{is_label_in};
ghost use Rattle.handle_set.specs.Sets.{AreOnce, CanHave, IsSettled, IsUpToDate, first_object, first_ready, has_id, has_labelled, id_of, is_member, labelled, members_changed, of_set, remasked_at, reported, set_told, without_label};

use crate::holders::release;
use crate::members;
use crate::ready_list::Picked;
use crate::records::TrackedMember;
use crate::settle::{
    CHAIN_LIMIT, OpenSet, find_place, holds, is_ready_at, place_of, settle_after, spread,
};
use crate::steps::Steps;
use kernel_values::{Events, Handle};
use object_store::ObjKey;
use std::collections::BTreeMap;
use std::sync::ledger::Ledger;

/// Reports the first member of a set that has an event of its mask, and puts it last there.
pub fn pick_in<L: Ledger>(sets: &mut [OpenSet], id: u64, steps: &mut Steps<L>) -> Option<Picked>
    requires fits { steps.old.count < 2 ^ 64 - 3 }
    requires settled { IsSettled sets.old }
    ensures picked { result ≡ of_set first_ready (find (has_id id) sets.old) }
    ensures members { sets.new ≡ members_changed reported id sets.old }
    ensures looks { steps.new.count ≤ steps.old.count + 2 }
    ensures settled { IsSettled sets.new }
{
    let place = find_place(sets, id);
    if sets.len() <= place {
        return None;
    }
    sets[place].members.pick(steps)
}

// A set that no longer has an object as a member is no longer told of it.
fn let_go(holders: &mut BTreeMap<u64, Vec<u64>>, sets: &[OpenSet], id: u64, object: u64)
    requires once { AreOnce (map id_of sets.now) }
    requires held { IsHeld holders.old sets.now }
    ensures { IsHeld holders.new sets.now }
{
    let place = find_place(sets, id);
    if place < sets.len() {
        if holds(sets, place, object) {
            return;
        }
    }
    release(holders, object, id);
}

// Takes the member under a label out of a set, and brings all up to date.
fn take_in(
    holders: &BTreeMap<u64, Vec<u64>>,
    sets: &mut [OpenSet],
    id: u64,
    label: Handle,
) -> Option<ObjKey>
    requires settled { IsSettled sets.old }
    requires held { IsHeld holders.now sets.old }
    ensures object { result ≡ of_set (labelled label) (find (has_id id) sets.old) }
    ensures members { IsUpToDate (members_changed (without_label label) id sets.old) sets.new }
    ensures settled { IsSettled sets.new }
    ensures held { IsHeld holders.now sets.new }
{
    let place = find_place(sets, id);
    if sets.len() <= place {
        return None;
    }
    let was = is_ready_at(sets, place);
    let object = members::del(&mut sets[place].members, label);
    settle_after(holders, sets, place, was);
    object
}

/// Takes the member under a label out of a set.
pub fn del_in(
    holders: &mut BTreeMap<u64, Vec<u64>>,
    sets: &mut [OpenSet],
    id: u64,
    label: Handle,
) -> Option<ObjKey>
    requires settled { IsSettled sets.old }
    requires held { IsHeld holders.old sets.old }
    ensures object { result ≡ of_set (labelled label) (find (has_id id) sets.old) }
    ensures members { IsUpToDate (members_changed (without_label label) id sets.old) sets.new }
    ensures settled { IsSettled sets.new }
    ensures held { IsHeld holders.new sets.new }
{
    let object = take_in(holders, sets, id, label)?;
    let_go(holders, sets, id, object.serial);
    Some(object)
}

/// Gives the member under a label another mask and cookie.
pub fn modify_in(
    holders: &BTreeMap<u64, Vec<u64>>,
    sets: &mut [OpenSet],
    id: u64,
    label: Handle,
    mask: Events,
    cookie: u64,
) -> bool
    requires settled { IsSettled sets.old }
    requires held { IsHeld holders.now sets.old }
    ensures there { result ≡ has_labelled label (find (has_id id) sets.old) }
    ensures members { IsUpToDate (members_changed (remasked_at label mask cookie) id sets.old) sets.new }
    ensures settled { IsSettled sets.new }
    ensures held { IsHeld holders.now sets.new }
{
    let place = find_place(sets, id);
    if sets.len() <= place {
        return false;
    }
    let was = is_ready_at(sets, place);
    let there = members::modify(&mut sets[place].members, label, mask, cookie);
    settle_after(holders, sets, place, was);
    there
}

/// The object of a set's first member. None where the set has no member, or is not open.
pub fn first_in(sets: &[OpenSet], id: u64) -> Option<ObjKey>
    ensures { result ≡ of_set first_object (find (has_id id) sets.now) }
{
    let place = place_of(sets, id);
    if sets.len() <= place {
        return None;
    }
    members::first(&sets[place].members)
}

// Takes the first member out of a set that is a member of none.
fn drop_first_in(sets: &mut [OpenSet], id: u64)
    requires settled { IsSettled sets.old }
    requires alone { is_member sets.old id ≡ false }
    ensures members { sets.new ≡ members_changed (drop 1) id sets.old }
    ensures settled { IsSettled sets.new }
{
    let place = find_place(sets, id);
    if sets.len() <= place {
        return;
    }
    members::drop_first(&mut sets[place].members);
}

/// Takes the first member, which is of this object, out of a set that is a member of none.
pub fn clear_in(holders: &mut BTreeMap<u64, Vec<u64>>, sets: &mut [OpenSet], id: u64, object: u64)
    requires settled { IsSettled sets.old }
    requires held { IsHeld holders.old sets.old }
    requires alone { is_member sets.old id ≡ false }
    ensures members { sets.new ≡ members_changed (drop 1) id sets.old }
    ensures settled { IsSettled sets.new }
    ensures held { IsHeld holders.new sets.new }
{
    drop_first_in(sets, id);
    let_go(holders, sets, id, object);
}

/// The events of an object are told, and all sets above it are brought up to date.
pub fn tell_in(holders: &BTreeMap<u64, Vec<u64>>, sets: &mut [OpenSet], object: u64, events: Events)
    requires settled { IsSettled sets.old }
    requires held { IsHeld holders.now sets.old }
    requires events { CanHave sets.old object events }
    ensures told { IsUpToDate (map (set_told object events) sets.old) sets.new }
    ensures settled { IsSettled sets.new }
    ensures held { IsHeld holders.now sets.new }
{
    spread(CHAIN_LIMIT, holders, sets, object, events);
}
