//! Members of handle sets.

ghost use Rattle.std.specs.Prelude.{◌≡◌, [], true, OnErr, OnOk, Some};
ghost use Rattle.std.specs.List.{filter, flat_map, fold, position_or_len};
ghost use Rattle.std.specs.Option.{is_some};
ghost use Rattle.core_changes.specs.Looks.{members_in};
ghost use Rattle.counted_core.specs.Found.{set_if};
ghost use Rattle.counted_core.specs.Held.{changed_if};
ghost use Rattle.counted_core.specs.Members.{having, is_labelled_else, labelled_objects, removed_items};
ghost use Rattle.kernel_types.specs.Messages.{entry_object, is_in_table};
ghost use Rattle.kernel_types.specs.Objects.{on_set, set_changed, set_of};
ghost use Rattle.kernel_types.specs.Sets.{has_label, new_member, remasked, with_member, without_label};
ghost use Rattle.kernel_types.specs.Tables.{entry_at, table_of};
ghost use Rattle.object_store.specs.Stock.{unnamed, value_at};

use crate::counts::CountedCore;
use crate::room::reserve_names;
use crate::sweep::key_of;
use kernel_values::{Body, Events, HandleSet, Items, Member, NoMemory};
use object_store::Store;
use std::alloc::Global;
use std::mem;

fn push_to(body: &mut Body, member: Member) -> Result<(), NoMemory>
    ensures ok { OnOk result (body.new ≡ on_set (with_member member) body.old) }
    ensures err { OnErr result (body.new ≡ body.old) }
{
    match body {
        Body::Set(set) => set.members.push(member),
        _ => Ok(()),
    }
}

/// One more member is in the set of this number.
fn push_member(store: &mut Store<Body>, id: u64, member: Member) -> Result<(), NoMemory>
    ensures ok { OnOk result (store.new.items ≡ changed_if (on_set (with_member member)) (Some id) store.old.items) }
    ensures err { OnErr result (store.new.items ≡ store.old.items) }
    ensures next { store.new.next ≡ store.old.next }
{
    store.sound();
    let Some(body) = store.get_mut(key_of(id)) else {
        return Ok(());
    };
    push_to(body, member)
}

fn take_list(body: &mut Body, alloc: Global) -> Items<Member>
    ensures list { result ≡ members_in (set_if (Some body.old)) }
    ensures body { body.new ≡ on_set (having []) body.old }
{
    match body {
        Body::Set(set) => mem::replace(&mut set.members, Items::new(alloc)),
        _ => Items::new(alloc),
    }
}

/// The set has no member any more; they are handed out.
fn take_members(store: &mut Store<Body>, alloc: Global, id: u64) -> Items<Member>
    ensures list { result ≡ members_in (set_if (value_at store.old.items id)) }
    ensures items { store.new.items ≡ changed_if (on_set (having [])) (Some id) store.old.items }
    ensures next { store.new.next ≡ store.old.next }
{
    store.sound();
    let Some(body) = store.get_mut(key_of(id)) else {
        return Items::new(alloc);
    };
    take_list(body, alloc)
}

fn put_list(body: &mut Body, members: Items<Member>)
    ensures { body.new ≡ on_set (having members) body.old }
{
    if let Body::Set(set) = body {
        set.members = members;
    }
}

/// The set has these members.
fn put_members(store: &mut Store<Body>, id: u64, members: Items<Member>)
    ensures items { store.new.items ≡ changed_if (on_set (having members)) (Some id) store.old.items }
    ensures next { store.new.next ≡ store.old.next }
{
    store.sound();
    let Some(body) = store.get_mut(key_of(id)) else {
        return;
    };
    put_list(body, members);
}

#[tactic(auto, unfolding(crate::specs::Members::labelled_objects))]
fn unname_if_labelled(store: &mut Store<Body>, member: Member, label: u32)
    ensures items { store.new.items ≡ fold unnamed store.old.items (labelled_objects label member) }
    ensures next { store.new.next ≡ store.old.next }
{
    if member.label == label {
        store.unname(key_of(member.object));
    }
}

/// What the members with this label named is named no more by them.
fn unname_labelled(store: &mut Store<Body>, members: &[Member], label: u32)
    ensures items { store.new.items ≡ fold unnamed store.old.items (flat_map (labelled_objects label) members.now) }
    ensures next { store.new.next ≡ store.old.next }
{
    for member in members {
        unname_if_labelled(store, *member, label);
    }
}

#[tactic(auto, unfolding(crate::specs::Members::is_labelled_else))]
fn is_labelled_else(member: &Member, label: u32) -> bool
    ensures { result ≡ is_labelled_else label member.now }
{
    member.label != label
}

/// The members with this label go.
fn drop_labelled(members: &mut Items<Member>, label: u32)
    ensures { members.new ≡ filter (is_labelled_else label) members.old }
{
    members.retain(|member| is_labelled_else(member, label));
}

/// The members of a set with this label go.
fn remove_in(store: &mut Store<Body>, alloc: Global, id: u64, label: u32)
    ensures items { store.new.items ≡ removed_items label id (members_in (set_if (value_at store.old.items id))) store.old.items }
    ensures next { store.new.next ≡ store.old.next }
{
    let mut members = take_members(store, alloc, id);
    unname_labelled(store, members.as_slice(), label);
    drop_labelled(&mut members, label);
    put_members(store, id, members);
}

/// The place of the member under this label; past the end where there is none.
fn place_of_label(members: &[Member], label: u32) -> usize
    ensures { result ≡ position_or_len (has_label label) members.now }
{
    for (at, member) in members.iter().enumerate() {
        if member.label == label {
            return at;
        }
    }
    members.len()
}

fn remask(set: &mut HandleSet, label: u32, mask: Events, cookie: u64)
    ensures { set.new ≡ remasked label mask cookie set.old }
{
    let place = place_of_label(set.members.as_slice(), label);
    if let Some(member) = set.members.get_mut(place) {
        member.mask = mask;
        member.cookie = cookie;
    }
}

fn remask_body(body: &mut Body, label: u32, mask: Events, cookie: u64)
    ensures { body.new ≡ on_set (remasked label mask cookie) body.old }
{
    if let Body::Set(set) = body {
        remask(set, label, mask, cookie);
    }
}

fn remask_in(store: &mut Store<Body>, id: u64, label: u32, mask: Events, cookie: u64)
    ensures items { store.new.items ≡ changed_if (on_set (remasked label mask cookie)) (Some id) store.old.items }
    ensures next { store.new.next ≡ store.old.next }
{
    store.sound();
    let Some(body) = store.get_mut(key_of(id)) else {
        return;
    };
    remask_body(body, label, mask, cookie);
}

impl CountedCore {
    fn is_set(&self, id: u64) -> bool
        ensures { result ≡ is_some (set_of self.now.objects id) }
    {
        self.find_set(id).is_some()
    }

    /// The object of a number of the application's table becomes a member of a set, with the number as its label.
    #[tactic(auto, unfolding(crate::specs::Sending::held_object))]
    pub fn add_member(
        &mut self,
        id: u64,
        app: u32,
        handle: u32,
        mask: Events,
        cookie: u64,
    ) -> Result<(), NoMemory>
        requires held { is_in_table (table_of self.old app) handle ≡ true }
        ensures ok { OnOk result (self.new ≡ set_changed (with_member (new_member handle (entry_object (entry_at (table_of self.old app) handle)) mask cookie)) id self.old) }
        ensures err { OnErr result (self.new ≡ self.old) }
    {
        let object = self.held_object(app, handle);
        let is_set = self.is_set(id);
        self.sound();
        self.store.sound();
        if !is_set {
            return Ok(());
        }
        let member = Member {
            label: handle,
            object,
            mask,
            cookie,
        };
        reserve_names(&self.store, &self.threads, 1)?;
        push_member(&mut self.store, id, member)?;
        self.store.name(key_of(object));
        Ok(())
    }

    /// The member of a set under this label goes.
    pub fn remove_member(&mut self, id: u64, label: u32)
        ensures { self.new ≡ set_changed (without_label label) id self.old }
    {
        let alloc = self.allocator();
        self.store.sound();
        remove_in(&mut self.store, alloc, id, label);
    }

    /// The member of a set under this label gets another mask and cookie.
    pub fn remask_member(&mut self, id: u64, label: u32, mask: Events, cookie: u64)
        ensures { self.new ≡ set_changed (remasked label mask cookie) id self.old }
    {
        self.store.sound();
        remask_in(&mut self.store, id, label, mask, cookie);
    }
}
