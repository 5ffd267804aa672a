//! All open sets. Each knows of its members the events last told, and reports the first that is ready.

ghost use Rattle.std.specs.Prelude.{◌≡◌, ◌<◌, ◌≤◌, ◌+◌, ◌-◌, ◌^◌, ◌++◌, ◌∷◌, [], true, false, find, map, Some, None, IsOk, IfErr, OnOk, OnErr, vec_len, vec_capacity};
ghost use Rattle.std.specs.List.{filter};
ghost use Rattle.handle_set.specs.Adding.{IsCause, add_refusal, with_added};
ghost use Rattle.handle_set.specs.Sets.{AreOnce, CanHave, IsSettled, IsUpToDate, cleared, empty_set, first_object, first_ready, has_id, has_labelled, id_of, is_member, is_open, is_other_set, labelled, members_changed, of_set, ready_in, remasked_at, reported, set_told, without_label};

use crate::adding::{Member, SetRefused, add_in, refusal};
use crate::changes::{clear_in, del_in, first_in, modify_in, pick_in, tell_in};
use crate::ready_list::{Picked, ReadyList};
use crate::settle::{OpenSet, place_of, ready_in};
use crate::steps::Steps;
use kernel_values::{Events, Handle, NoMemory};
use object_store::ObjKey;
use std::alloc::Global;
use std::collections::BTreeMap;
use std::marker::Model;
use std::sync::ledger::Ledger;

/// All open sets, one in another. Contracts see them in the order in which they were opened, and whether one
/// more can be opened with no memory.
///
/// Between calls each set knows the events last told of each member, and of a member that is a set whether that
/// one has a ready member.
#[derive(Drop)]
pub struct Sets {
    sets: Vec<OpenSet>,
    // The sets at each object; those that have it as a member are among these.
    holders: BTreeMap<u64, Vec<u64>>,
    // The members of a set that is yet to be opened.
    spare: Option<ReadyList>,
    alloc: Global,
}

impl Model for Sets {
    ghost use Rattle.std.specs.Prelude.{is_some, vec_len, vec_capacity};
    ghost use Rattle.handle_set.specs.Sets.{IsSettled, Memberships};
    ghost use Rattle.handle_set.specs.Holders.{IsHeld};
    ghost use Rattle.handle_set.specs.Spares.{IsSpare};

    ghost Value = { Memberships };

    ghost view = { λ s. record { sets = s.sets.items; spare = is_some s.spare } };

    ghost invariant = { λ s. IsSettled s.sets.items × IsSpare (vec_len s.sets) (vec_capacity s.sets) s.spare × IsHeld s.holders s.sets.items };
}

// Closes an open set.
fn close(sets: &mut Vec<OpenSet>, id: u64)
    requires { AreOnce (map id_of sets.old.items) }
    ensures sets { sets.new.items ≡ filter (is_other_set id) sets.old.items }
    ensures len { vec_len sets.new ≤ vec_len sets.old }
    ensures capacity { vec_capacity sets.new ≡ vec_capacity sets.old }
{
    let place = place_of(sets, id);
    if place < sets.len() {
        sets.remove(place);
    }
}

impl Sets {
    /// No open sets. Nothing is allocated yet.
    pub fn new(alloc: Global) -> Sets
        ensures sets { result.sets ≡ [] }
        ensures spare { result.spare ≡ false }
    {
        Sets {
            sets: Vec::new(alloc),
            holders: BTreeMap::new(alloc),
            spare: None,
            alloc,
        }
    }

    /// Makes room for one more set: the next `open_set` is then not refused.
    pub fn reserve(&mut self) -> Result<(), NoMemory>
        ensures spare { OnOk result (self.new.spare ≡ true) }
        ensures ready { self.old.spare ≡ true → IsOk result }
        ensures sets { self.new.sets ≡ self.old.sets }
        ensures same { OnErr result (self.new ≡ self.old) }
    {
        if self.spare.is_some() {
            return Ok(());
        }
        self.sets.reserve(1)?;
        self.spare = Some(ReadyList::new(self.alloc)?);
        Ok(())
    }

    /// Opens a set with no members. The object is no open set yet, and no member of one.
    pub fn open_set(&mut self, set: ObjKey) -> Result<(), NoMemory>
        requires new { is_open self.old.sets set.serial ≡ false }
        requires alone { is_member self.old.sets set.serial ≡ false }
        ensures opened { OnOk result (self.new.sets ≡ self.old.sets ++ empty_set set.serial ∷ []) }
        ensures ready { self.old.spare ≡ true → IsOk result }
        ensures same { OnErr result (self.new ≡ self.old) }
    {
        self.reserve()?;
        let Some(members) = self.spare.take() else {
            return Err(NoMemory);
        };
        self.sets.push_reserved(OpenSet {
            id: set.serial,
            members,
        });
        Ok(())
    }

    /// Whether a member of this set has an event of its mask. None exactly where the object is no open set.
    pub fn ready(&self, object: ObjKey) -> Option<bool>
        ensures { result ≡ ready_in self.now.sets object.serial }
    {
        ready_in(&self.sets, object.serial)
    }

    /// Tells the events of an object. All sets that have it, and all above these, are brought up to date. Of an
    /// open set READY is told where it is ready, and else nothing.
    pub fn tell(&mut self, object: ObjKey, events: Events)
        requires { CanHave self.old.sets object.serial events }
        ensures told { IsUpToDate (map (set_told object.serial events) self.old.sets) self.new.sets }
        ensures spare { self.new.spare ≡ self.old.spare }
    {
        tell_in(&self.holders, &mut self.sets, object.serial, events);
    }

    /// Adds a member, which goes last, with the events that its object has. It is refused by the first cause of
    /// `SetRefused` that holds, or for want of memory.
    pub fn add(&mut self, set: ObjKey, member: Member, events: Events) -> Result<(), SetRefused>
        requires is_set { is_open self.old.sets set.serial ≡ true }
        requires events { CanHave self.old.sets member.object.serial events }
        ensures cause { IfErr result (IsCause (add_refusal self.old.sets set.serial member)) }
        ensures none { OnOk result (add_refusal self.old.sets set.serial member ≡ None) }
        ensures added { OnOk result (IsUpToDate (with_added set.serial member events self.old.sets) self.new.sets) }
        ensures spare { self.new.spare ≡ self.old.spare }
        ensures same { OnErr result (self.new ≡ self.old) }
    {
        match refusal(&self.sets, set.serial, member) {
            Some(refused) => Err(refused),
            None => {
                let (alloc, id) = (self.alloc, set.serial);
                let Ok(()) = add_in(alloc, &mut self.holders, &mut self.sets, id, member, events)
                else {
                    return Err(SetRefused::NoMemory);
                };
                Ok(())
            }
        }
    }

    /// Takes the member under a label out of a set, and answers its object. None exactly where the set has no
    /// such member, or the object is no open set.
    pub fn del(&mut self, set: ObjKey, label: Handle) -> Option<ObjKey>
        ensures object { result ≡ of_set (labelled label) (find (has_id set.serial) self.old.sets) }
        ensures members { IsUpToDate (members_changed (without_label label) set.serial self.old.sets) self.new.sets }
        ensures spare { self.new.spare ≡ self.old.spare }
    {
        del_in(&mut self.holders, &mut self.sets, set.serial, label)
    }

    /// Gives the member under a label another mask and cookie; its place stays. False exactly where the set has no
    /// such member, or the object is no open set.
    pub fn modify(&mut self, set: ObjKey, label: Handle, mask: Events, cookie: u64) -> bool
        ensures there { result ≡ has_labelled label (find (has_id set.serial) self.old.sets) }
        ensures members { IsUpToDate (members_changed (remasked_at label mask cookie) set.serial self.old.sets) self.new.sets }
        ensures spare { self.new.spare ≡ self.old.spare }
    {
        modify_in(
            &self.holders,
            &mut self.sets,
            set.serial,
            label,
            mask,
            cookie,
        )
    }

    /// Takes the first member out of a set that has ended, and answers its object. A set that has no member is
    /// closed, and the answer is None.
    pub fn clear(&mut self, set: ObjKey) -> Option<ObjKey>
        requires { is_member self.old.sets set.serial ≡ false }
        ensures object { result ≡ of_set first_object (find (has_id set.serial) self.old.sets) }
        ensures sets { self.new.sets ≡ cleared set.serial self.old.sets }
        ensures spare { self.new.spare ≡ self.old.spare }
    {
        let Some(first) = first_in(&self.sets, set.serial) else {
            close(&mut self.sets, set.serial);
            return None;
        };
        clear_in(&mut self.holders, &mut self.sets, set.serial, first.serial);
        Some(first)
    }

    /// Reports the first member of a set, in its order, that has an event of its mask. It then goes last. None
    /// exactly where no member has one, or the object is no open set. The counter rises by two at most.
    pub fn pick<L: Ledger>(&mut self, set: ObjKey, steps: &mut Steps<L>) -> Option<Picked>
        requires { steps.old.count < 2 ^ 64 - 3 }
        ensures picked { result ≡ of_set first_ready (find (has_id set.serial) self.old.sets) }
        ensures members { self.new.sets ≡ members_changed reported set.serial self.old.sets }
        ensures looks { steps.new.count ≤ steps.old.count + 2 }
        ensures spare { self.new.spare ≡ self.old.spare }
    {
        pick_in(&mut self.sets, set.serial, steps)
    }

    /// What holds between calls: no set is open twice, chains have at most 8 sets, and each set knows whether the
    /// sets among its members are ready. It does nothing.
    pub fn sound(&self)
        ensures { IsSettled self.now.sets }
    {
        let _ = &self.sets;
    }
}
