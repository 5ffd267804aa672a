//! A member is added, or refused by the first cause that holds.

ghost use Rattle.std.specs.Prelude.{◌≡◌, ◌<◌, ◌≤◌, true, length, map, find, nat_le, nat_lt, None, slice_get, OnOk, OnErr, if◌then◌else◌};
ghost use Rattle.std.specs.List.{list_any, position_or_len};
ghost use Rattle.std.specs.Option.{IfSome};
ghost use Rattle.kernel_types.specs.Events.{chain_limit};
ghost use Rattle.kernel_types.specs.Sets.{chain_through, depth_above, depth_below, greatest, holders_of, member_limit};
ghost use Rattle.handle_set.specs.Adding.{add_refusal, members_in, told_as, with_added};
ghost use Rattle.handle_set.specs.Chains.{objects_in, objects_of};
ghost use Rattle.handle_set.specs.Holders.{IsHeld, is_holder};
ghost use Rattle.handle_set.specs.Sets.{CanHave, IsSettled, IsUpToDate, has_id, has_labelled, has_member, is_open};
ghost use Rattle.handle_set.specs.Within.{is_within};

use crate::holders::register;
use crate::members;
use crate::ready_list::ReadyList;
use crate::records::TrackedMember;
use crate::settle::{CHAIN_LIMIT, OpenSet, holds, id_at, is_ready_at, place_of, settle_after};
use kernel_values::{Events, Handle, NoMemory};
use object_store::ObjKey;
use set_laws::chains::adding_keeps_chains_short;
use std::alloc::Global;
use std::collections::BTreeMap;

/// A member that is to be added to a set.
#[derive(Clone, Copy, PartialEq, Eq, Debug)]
pub struct Member {
    /// The number under which it is reported and taken out.
    pub label: Handle,
    pub object: ObjKey,
    /// The events that count.
    pub mask: Events,
    pub cookie: u64,
}

/// Why a member was not added.
#[derive(Clone, Copy, PartialEq, Eq, Debug)]
pub enum SetRefused {
    /// The object is the set itself, or contains it at some depth.
    Circle,
    /// The set has a member under this label.
    Exists,
    /// A chain of more than 8 sets would arise.
    TooDeep,
    /// The set has 64 members.
    Full,
    /// Out of memory.
    NoMemory,
}

/// A set has at most this many members.
const MEMBER_LIMIT: usize = 64;

// Whether an object is a set or contains it, so many sets deep.
#[cycle(within)]
fn is_within(depth: u32, sets: &[OpenSet], inner: u64, outer: u64) -> bool
    ensures { result ≡ is_within depth (objects_of sets.now) inner outer }
{
    if outer == inner {
        return true;
    }
    if depth == 0 {
        return false;
    }
    let place = place_of(sets, outer);
    if sets.len() <= place {
        return false;
    }
    any_within(depth - 1, sets, inner, &sets[place].members)
}

#[cycle(within)]
fn any_within(depth: u32, sets: &[OpenSet], inner: u64, list: &ReadyList) -> bool
    ensures { result ≡ list_any (is_within depth (objects_of sets.now) inner) (objects_in list.now) }
{
    for at in 0..list.len() {
        if is_within(depth, sets, inner, members::member(list, at).object.serial) {
            return true;
        }
    }
    false
}

// The number of sets on the longest chain from an object down, up to a limit.
#[cycle(below)]
fn depth_below(limit: u32, sets: &[OpenSet], id: u64) -> u32
    ensures value { result ≡ depth_below limit (objects_of sets.now) id }
    ensures bound { result ≤ limit }
{
    if limit == 0 {
        return 0;
    }
    let place = place_of(sets, id);
    if sets.len() <= place {
        return 0;
    }
    greatest_below(limit - 1, sets, &sets[place].members) + 1
}

#[cycle(below)]
fn greatest_below(limit: u32, sets: &[OpenSet], list: &ReadyList) -> u32
    ensures value { result ≡ greatest (map (depth_below limit (objects_of sets.now)) (objects_in list.now)) }
    ensures bound { result ≤ limit }
{
    let mut most: u32 = 0;
    for at in 0..list.len() {
        let depth = depth_below(limit, sets, members::member(list, at).object.serial);
        most = most.max(depth);
    }
    most
}

// The number of sets on the longest chain down to a set, itself included, up to a limit.
#[cycle(above)]
fn depth_above(limit: u32, sets: &[OpenSet], id: u64) -> u32
    ensures value { result ≡ depth_above limit (objects_of sets.now) id }
    ensures bound { result ≤ limit }
{
    if limit == 0 {
        return 0;
    }
    greatest_above(limit - 1, sets, id) + 1
}

#[cycle(above)]
fn greatest_above(limit: u32, sets: &[OpenSet], id: u64) -> u32
    ensures value { result ≡ greatest (map (depth_above limit (objects_of sets.now)) (holders_of (objects_of sets.now) id)) }
    ensures bound { result ≤ limit }
{
    let mut most: u32 = 0;
    for place in 0..sets.len() {
        let depth = depth_through(limit, sets, place, id);
        most = most.max(depth);
    }
    most
}

// The same over the set at a place, where that has the object as a member, else 0.
#[cycle(above)]
fn depth_through(limit: u32, sets: &[OpenSet], place: usize, object: u64) -> u32
    requires { place < length sets.now }
    ensures value { IfSome (slice_get sets.now place) (λ set. result ≡ (if has_member object set then depth_above limit (objects_of sets.now) set.id else 0)) }
    ensures bound { result ≤ limit }
{
    if !holds(sets, place, object) {
        return 0;
    }
    depth_above(limit, sets, id_at(sets, place))
}

// Whether a chain of too many sets would go through a new membership. It does through that of a set alone.
fn is_too_deep(sets: &[OpenSet], id: u64, object: u64) -> bool
    ensures { result ≡ nat_lt chain_limit (chain_through (objects_of sets.now) id object) }
{
    if sets.len() <= place_of(sets, object) {
        return false;
    }
    CHAIN_LIMIT < depth_above(CHAIN_LIMIT, sets, id) + depth_below(CHAIN_LIMIT, sets, object)
}

// Whether the set has a member under the label.
fn has_labelled(sets: &[OpenSet], id: u64, label: Handle) -> bool
    ensures { result ≡ has_labelled label (find (has_id id) sets.now) }
{
    let place = place_of(sets, id);
    if sets.len() <= place {
        return false;
    }
    members::has_label(&sets[place].members, label)
}

// Whether the set has as many members as a set can have.
fn is_full(sets: &[OpenSet], id: u64) -> bool
    ensures { result ≡ nat_le member_limit (length (members_in (find (has_id id) sets.now))) }
{
    let place = place_of(sets, id);
    if sets.len() <= place {
        return false;
    }
    MEMBER_LIMIT <= sets[place].members.len()
}

/// Why the member is not added to the set: the first cause that holds.
pub fn refusal(sets: &[OpenSet], id: u64, member: Member) -> Option<SetRefused>
    requires { IsSettled sets.now }
    ensures { result ≡ add_refusal sets.now id member }
{
    if is_within(CHAIN_LIMIT, sets, id, member.object.serial) {
        return Some(SetRefused::Circle);
    }
    if has_labelled(sets, id, member.label) {
        return Some(SetRefused::Exists);
    }
    if is_too_deep(sets, id, member.object.serial) {
        return Some(SetRefused::TooDeep);
    }
    if is_full(sets, id) {
        return Some(SetRefused::Full);
    }
    None
}

// A member with the events of its object.
fn told_as(sets: &[OpenSet], member: Member, events: Events) -> TrackedMember
    ensures { result ≡ told_as sets.now member events }
{
    TrackedMember {
        label: member.label,
        object: member.object,
        mask: member.mask,
        cookie: member.cookie,
        events,
        inner: is_open(sets, member.object.serial),
    }
}

// Whether the object is an open set.
fn is_open(sets: &[OpenSet], id: u64) -> bool
    ensures { result ≡ is_open sets.now id }
{
    for set in sets {
        if set.id == id {
            return true;
        }
    }
    false
}

// The place of an open set.
fn open_place(sets: &[OpenSet], id: u64) -> usize
    requires { is_open sets.now id ≡ true }
    ensures place { result ≡ position_or_len (has_id id) sets.now }
    ensures within { result < length sets.now }
{
    place_of(sets, id)
}

// Adds a member that nothing speaks against, with the events of its object. The set is at the object.
fn push_in(
    holders: &BTreeMap<u64, Vec<u64>>,
    sets: &mut [OpenSet],
    id: u64,
    member: Member,
    events: Events,
)
    requires settled { IsSettled sets.old }
    requires held { IsHeld holders.now sets.old }
    requires holder { is_holder holders.now member.object.serial id ≡ true }
    requires is_set { is_open sets.old id ≡ true }
    requires none { add_refusal sets.old id member ≡ None }
    requires events { CanHave sets.old member.object.serial events }
    ensures added { IsUpToDate (with_added id member events sets.old) sets.new }
    ensures settled { IsSettled sets.new }
    ensures held { IsHeld holders.now sets.new }
{
    adding_keeps_chains_short();
    let place = open_place(sets, id);
    let told = told_as(sets, member, events);
    let was = is_ready_at(sets, place);
    sets[place].members.push(told);
    settle_after(holders, sets, place, was);
}

/// Adds a member that nothing speaks against, with the events of its object.
pub fn add_in(
    alloc: Global,
    holders: &mut BTreeMap<u64, Vec<u64>>,
    sets: &mut [OpenSet],
    id: u64,
    member: Member,
    events: Events,
) -> Result<(), NoMemory>
    requires settled { IsSettled sets.old }
    requires held { IsHeld holders.old sets.old }
    requires is_set { is_open sets.old id ≡ true }
    requires none { add_refusal sets.old id member ≡ None }
    requires events { CanHave sets.old member.object.serial events }
    ensures added { OnOk result (IsUpToDate (with_added id member events sets.old) sets.new) }
    ensures same { OnErr result (sets.new ≡ sets.old) }
    ensures settled { IsSettled sets.new }
    ensures held { IsHeld holders.new sets.new }
{
    register(alloc, holders, member.object.serial, id)?;
    push_in(holders, sets, id, member, events);
    Ok(())
}
