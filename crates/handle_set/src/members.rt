//! What a set does with its members when no counter is at hand: it reads them with one of its own.

ghost use Rattle.std.specs.Prelude.{◌≡◌, ◌<◌, ◌≤◌, ◌+◌, ◌++◌, ◌∷◌, [], length, Some, None, option_map, slice_get, map, find, drop};
ghost use Rattle.std.specs.List.{list_any, filter, position_or_len};
ghost use Rattle.handle_set.specs.Members.{has_label, is_label_in, is_other, object_of, remasked, with_events_at, with_told, has_object};

use crate::ready_list::ReadyList;
use crate::records::TrackedMember;
use crate::steps::Steps;
use kernel_values::{Events, Handle};
use object_store::ObjKey;
use std::marker::Brand;
use std::sync::ledger::{Blank, Ledger};

// Reads with a counter of the ledger that the blank opens.
fn look_with<L: Ledger>(blank: Blank, list: &ReadyList, at: usize) -> TrackedMember
    requires name { blank.name ≡ L.name }
    requires parts { blank.parts ≡ L.parts }
    requires some { 0 < blank.parts }
    requires within { at < length list.now }
    ensures { slice_get list.now at ≡ Some result }
{
    let (book, share) = blank.open::<L>();
    let mut steps = Steps::new(book, share);
    list.look(at, &mut steps)
}

/// The member at a place.
pub fn member(list: &ReadyList, at: usize) -> TrackedMember
    requires { at < length list.now }
    ensures { slice_get list.now at ≡ Some result }
{
    look_with::<Brand>(Blank::new(1), list, at)
}

/// The member at a place gets other events.
pub fn set_events(list: &mut ReadyList, at: usize, events: Events)
    requires { at < length list.old }
    ensures { list.new ≡ with_events_at at events list.old }
{
    let told = member(list, at);
    list.set_events(at, &told, events);
}

/// The members of an object get other events.
pub fn tell(list: &mut ReadyList, object: u64, events: Events)
    ensures { list.new ≡ map (with_told object events) list.old }
{
    for at in 0..list.len() {
        let told = member(list, at);
        if told.object.serial == object {
            list.set_events(at, &told, events);
        }
    }
}

/// Whether an object is a member.
pub fn has_object(list: &ReadyList, object: u64) -> bool
    ensures { result ≡ list_any (has_object object) list.now }
{
    for at in 0..list.len() {
        if member(list, at).object.serial == object {
            return true;
        }
    }
    false
}

/// Whether there is a member under this label.
pub fn has_label(list: &ReadyList, label: Handle) -> bool
    ensures { result ≡ is_label_in list.now label }
{
    for at in 0..list.len() {
        if member(list, at).label == label {
            return true;
        }
    }
    false
}

/// The place of the member under this label; past the end where there is none.
pub fn place_of(list: &ReadyList, label: Handle) -> usize
    ensures { result ≡ position_or_len (has_label label) list.now }
{
    for at in 0..list.len() {
        if member(list, at).label == label {
            return at;
        }
    }
    list.len()
}

/// The member under this label is taken away; its object is told.
pub fn del(list: &mut ReadyList, label: Handle) -> Option<ObjKey>
    ensures object { result ≡ option_map object_of (find (has_label label) list.old) }
    ensures members { list.new ≡ filter (is_other label) list.old }
{
    list.sound();
    let at = place_of(list, label);
    if list.len() <= at {
        return None;
    }
    let told = member(list, at);
    list.remove(at);
    Some(told.object)
}

/// The member under this label gets another mask and cookie, where it is there.
pub fn modify(list: &mut ReadyList, label: Handle, mask: Events, cookie: u64) -> bool
    ensures there { result ≡ is_label_in list.old label }
    ensures members { list.new ≡ remasked label mask cookie list.old }
{
    let at = place_of(list, label);
    if list.len() <= at {
        return false;
    }
    let told = member(list, at);
    list.set_mask(at, &told, mask, cookie);
    true
}

/// The object of the first member.
pub fn first(list: &ReadyList) -> Option<ObjKey>
    ensures { result ≡ option_map object_of (slice_get list.now 0) }
{
    if list.len() == 0 {
        return None;
    }
    Some(member(list, 0).object)
}

/// The first member, where there is one, is taken away.
pub fn drop_first(list: &mut ReadyList)
    ensures { list.new ≡ drop 1 list.old }
{
    if list.len() > 0 {
        list.remove(0);
    }
}
