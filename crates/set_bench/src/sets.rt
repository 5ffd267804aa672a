//! The sets, their members and the events.

ghost use Rattle.std.specs.Prelude.{◌≡◌, false, IfOk};
ghost use Rattle.handle_set.specs.Sets.{is_open};
ghost use Rattle.set_bench.specs.Fresh.{HaveNoMembers};

use handle_set::{Member, Sets};
use kernel_values::{Events, NoMemory};
use object_store::ObjKey;
use std::alloc::Global;

// The first number of an object that is no set.
const FIRST_OBJECT: u64 = 1_000_000;

fn key(serial: u64) -> ObjKey
    ensures { result.serial ≡ serial }
{
    ObjKey { slot: 0, serial }
}

// So many sets, without members.
#[tactic(auto, using(crate::proofs::Opened::shut, crate::proofs::Opened::none_at_first, crate::proofs::Opened::none_still))]
fn opened(alloc: Global, count: u64) -> Result<Sets, NoMemory>
    ensures { IfOk result (λ sets. HaveNoMembers sets.sets) }
{
    let mut sets = Sets::new(alloc);
    for serial in 0..count {
        let set = key(serial);
        if sets.ready(set).is_none() {
            sets.open_set(set)?;
        }
    }
    Ok(sets)
}

// Gives the set so many members, which are in no other set.
#[tactic(auto, using(crate::proofs::Opened::is_there, crate::proofs::Opened::may_have))]
fn add_members(sets: &mut Sets, set: u64, count: u32) -> bool {
    for label in 0..count {
        let object = key(
            FIRST_OBJECT
                .wrapping_add(set.wrapping_mul(64))
                .wrapping_add(label as u64),
        );
        if sets.ready(key(set)).is_none() || sets.ready(object).is_some() {
            return false;
        }
        let member = Member {
            label,
            object,
            mask: Events::READY,
            cookie: 0,
        };
        if sets.add(key(set), member, Events(0)).is_err() {
            return false;
        }
    }
    true
}

/// So many sets with so many members each, none of which has an event.
pub fn filled(alloc: Global, count: u64, members: u32) -> Result<Sets, NoMemory> {
    let mut sets = opened(alloc, count)?;
    for set in 0..count {
        if !add_members(&mut sets, set, members) {
            drop(sets);
            return Err(NoMemory);
        }
    }
    Ok(sets)
}

#[tactic(auto, using(crate::proofs::Opened::may_have_any, crate::proofs::Opened::shut_still))]
fn tell_all(sets: &mut Sets, object: ObjKey, times: u64)
    requires { is_open sets.old.sets object.serial ≡ false }
{
    for turn in 0..times {
        sets.tell(object, Events((turn % 2) as u32));
    }
}

/// Tells the first member of the first set so many events, READY and none in turn.
#[tactic(auto, using(crate::proofs::Opened::shut))]
pub fn tell_often(sets: &mut Sets, times: u64) -> bool {
    let object = key(FIRST_OBJECT);
    if sets.ready(object).is_some() {
        return false;
    }
    tell_all(sets, object, times);
    true
}
