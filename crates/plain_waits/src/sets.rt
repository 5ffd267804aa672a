//! `set`, `add`, `del` and `mod`: handle sets.

ghost use Rattle.std.specs.Prelude.{IfOk, ◌≡◌, OnOk, not};
ghost use Rattle.plain_calls.specs.Outcomes.{outcome};
ghost use Rattle.kernel_types.specs.Sets.{set_create, is_label_in, has_label, with_member, set_add_to, set_add, without_label, set_del, remasked, set_mod};
ghost use Rattle.std.specs.List.{position_or_len, filter};
ghost use Rattle.kernel_types.specs.Objects.{set_changed, set_of};

use crate::depths::{chain_limit, chain_through};
use kernel_values::{Body, CoreState, Errno, Events, HandleSet, Items, Member, NoMemory, Reply};
use plain_calls::told::{CallOutcome, gives, refuses};
use plain_objects::memberships::is_or_contains;
use plain_objects::objects::{add_object, find_memory, find_set, place_of_object};
use plain_objects::tables::{find_entry, install, is_full_table, least_free_handle, table_of};
use std::alloc::Global;

/// Makes an empty set.
#[tactic(auto, unfolding(kernel_types::specs::Sets::set_create))]
pub fn set_create_call(core: &mut CoreState, app: u32) -> Result<CallOutcome, NoMemory>
    ensures { IfOk result (λ told. outcome told core.new ≡ set_create core.old app) }
{
    if is_full_table(table_of(core, app)) {
        return Ok(refuses(Errno::NoResources));
    }
    let handle = least_free_handle(table_of(core, app));
    let id = core.next;
    let members = Items::new(core.objects.allocator());
    add_object(core, Body::Set(HandleSet { members }))?;
    install(core, app, id)?;
    Ok(gives(Reply::Handle(handle)))
}

fn is_label_in(members: &[Member], label: u32) -> bool
    ensures { result ≡ is_label_in members.now label }
{
    for member in members {
        if member.label == label {
            return true;
        }
    }
    false
}

/// The place of the member under this label; past the end where there is none.
fn place_of_label(members: &[Member], label: u32) -> usize
    ensures { result ≡ position_or_len (has_label label) members.now }
{
    for (at, member) in members.iter().enumerate() {
        if member.label == label {
            return at;
        }
    }
    members.len()
}

fn add_member(core: &mut CoreState, id: u64, member: Member) -> Result<(), NoMemory>
    ensures { OnOk result (core.new ≡ set_changed (with_member member) id core.old) }
{
    let place = place_of_object(core.objects.as_slice(), id);
    if let Some(object) = core.objects.get_mut(place) {
        if let Body::Set(set) = &mut object.body {
            set.members.push(member)?;
        }
    }
    Ok(())
}

fn set_add_to(core: &mut CoreState, id: u64, member: Member) -> Result<CallOutcome, NoMemory>
    ensures { IfOk result (λ told. outcome told core.new ≡ set_add_to core.old id (set_of core.old.objects id) member) }
{
    let objects = core.objects.as_slice();
    let Some(set) = find_set(objects, id) else {
        return Ok(refuses(Errno::InvalidArgs));
    };
    if is_or_contains(core.objects.allocator(), objects, member.object, id)? {
        return Ok(refuses(Errno::InvalidArgs));
    }
    if find_memory(objects, member.object).is_some() {
        return Ok(refuses(Errno::NotSupported));
    }
    if is_label_in(set.members.as_slice(), member.label) {
        return Ok(refuses(Errno::AlreadyExists));
    }
    if chain_limit() < chain_through(objects, id, member.object) {
        return Ok(refuses(Errno::RecurseTooDeep));
    }
    if 64 <= set.members.len() {
        return Ok(refuses(Errno::NoResources));
    }
    add_member(core, id, member)?;
    Ok(gives(Reply::Done))
}

/// Adds a member under the number of its handle.
#[tactic(auto, unfolding(kernel_types::specs::Sets::set_add))]
pub fn set_add_call(
    core: &mut CoreState,
    app: u32,
    set: u32,
    handle: u32,
    mask: Events,
    cookie: u64,
) -> Result<CallOutcome, NoMemory>
    ensures { IfOk result (λ told. outcome told core.new ≡ set_add core.old app set handle mask cookie) }
{
    let Some(outer) = find_entry(table_of(core, app), set) else {
        return Ok(refuses(Errno::BadHandle));
    };
    let Some(inner) = find_entry(table_of(core, app), handle) else {
        return Ok(refuses(Errno::BadHandle));
    };
    let member = Member {
        label: handle,
        object: inner.object,
        mask,
        cookie,
    };
    set_add_to(core, outer.object, member)
}

fn members_without(alloc: Global, members: &[Member], label: u32) -> Result<Items<Member>, NoMemory>
    ensures { IfOk result (λ others. others ≡ filter (λ member. not (has_label label member)) members.now) }
{
    let mut others = Items::new(alloc);
    for member in members {
        if member.label != label {
            others.push(*member)?;
        }
    }
    Ok(others)
}

fn remove_member(core: &mut CoreState, id: u64, label: u32) -> Result<(), NoMemory>
    ensures { OnOk result (core.new ≡ set_changed (without_label label) id core.old) }
{
    let alloc = core.objects.allocator();
    let place = place_of_object(core.objects.as_slice(), id);
    if let Some(object) = core.objects.get_mut(place) {
        if let Body::Set(set) = &mut object.body {
            let others = members_without(alloc, set.members.as_slice(), label)?;
            set.members = others;
        }
    }
    Ok(())
}

/// Takes the member under this label away.
#[tactic(auto, unfolding(kernel_types::specs::Sets::set_del))]
pub fn set_del_call(
    core: &mut CoreState,
    app: u32,
    set: u32,
    label: u32,
) -> Result<CallOutcome, NoMemory>
    ensures { IfOk result (λ told. outcome told core.new ≡ set_del core.old app set label) }
{
    let Some(entry) = find_entry(table_of(core, app), set) else {
        return Ok(refuses(Errno::BadHandle));
    };
    let Some(held) = find_set(core.objects.as_slice(), entry.object) else {
        return Ok(refuses(Errno::InvalidArgs));
    };
    if !is_label_in(held.members.as_slice(), label) {
        return Ok(refuses(Errno::NotFound));
    }
    remove_member(core, entry.object, label)?;
    Ok(gives(Reply::Done))
}

fn remask(set: &mut HandleSet, label: u32, mask: Events, cookie: u64)
    ensures { set.new ≡ remasked label mask cookie set.old }
{
    let place = place_of_label(set.members.as_slice(), label);
    if let Some(member) = set.members.get_mut(place) {
        member.mask = mask;
        member.cookie = cookie;
    }
}

fn change_member(core: &mut CoreState, id: u64, label: u32, mask: Events, cookie: u64)
    ensures { core.new ≡ set_changed (remasked label mask cookie) id core.old }
{
    let place = place_of_object(core.objects.as_slice(), id);
    if let Some(object) = core.objects.get_mut(place) {
        if let Body::Set(set) = &mut object.body {
            remask(set, label, mask, cookie);
        }
    }
}

/// Gives the member under this label another mask and cookie.
#[tactic(auto, unfolding(kernel_types::specs::Sets::set_mod))]
pub fn set_mod_call(
    core: &mut CoreState,
    app: u32,
    set: u32,
    label: u32,
    mask: Events,
    cookie: u64,
) -> Result<CallOutcome, NoMemory>
    ensures { IfOk result (λ told. outcome told core.new ≡ set_mod core.old app set label mask cookie) }
{
    let Some(entry) = find_entry(table_of(core, app), set) else {
        return Ok(refuses(Errno::BadHandle));
    };
    let Some(held) = find_set(core.objects.as_slice(), entry.object) else {
        return Ok(refuses(Errno::InvalidArgs));
    };
    if !is_label_in(held.members.as_slice(), label) {
        return Ok(refuses(Errno::NotFound));
    }
    change_member(core, entry.object, label, mask, cookie);
    Ok(gives(Reply::Done))
}
