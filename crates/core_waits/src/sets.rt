//! `set`, `add`, `del` and `mod`: handle sets.

ghost use Rattle.std.specs.Prelude.{IfOk, OnErr, Some, ◌≡◌};
ghost use Rattle.kernel_types.specs.Events.{chain_limit};
ghost use Rattle.kernel_types.specs.Objects.{set_of};
ghost use Rattle.kernel_types.specs.Sets.{new_member, set_add, set_add_to, set_create, set_del, set_mod};
ghost use Rattle.kernel_types.specs.Tables.{entry_at, table_of};
ghost use Rattle.core_changes.specs.Outcomes.{outcome};

use core_changes::CoreChanges;
use core_changes::outcomes::{CallOutcome, gives, refuses};
use kernel_values::{Errno, Events, NoMemory, Reply, TableEntry};

/// Makes an empty set.
#[tactic(auto, unfolding(kernel_types::specs::Sets::set_create))]
pub fn set_create_call<C: CoreChanges>(core: &mut C, app: u32) -> Result<CallOutcome, NoMemory>
    ensures ok { IfOk result (λ told. outcome told (C.state core.new) ≡ set_create (C.state core.old) app) }
    ensures err { OnErr result (C.state core.new ≡ C.state core.old) }
{
    if core.is_full(app) {
        return Ok(refuses(Errno::NoResources));
    }
    let handle = core.make_set(app)?;
    Ok(gives(Reply::Handle(handle)))
}

/// The greatest chain of sets has this many.
#[tactic(auto, unfolding(kernel_types::specs::Events::chain_limit))]
fn chain_limit() -> u32
    ensures { result ≡ chain_limit }
{
    8
}

/// Adds the object of a number of the application's table to a set, with the number as its label.
fn set_add_to<C: CoreChanges>(
    core: &mut C,
    id: u64,
    app: u32,
    inner: TableEntry,
    handle: u32,
    mask: Events,
    cookie: u64,
) -> Result<CallOutcome, NoMemory>
    requires { entry_at (table_of (C.state core.old) app) handle ≡ Some inner }
    ensures ok { IfOk result (λ told. outcome told (C.state core.new) ≡ set_add_to (C.state core.old) id (set_of (C.state core.old).objects id) (new_member handle inner.object mask cookie)) }
    ensures err { OnErr result (C.state core.new ≡ C.state core.old) }
{
    let Some(count) = core.member_count(id) else {
        return Ok(refuses(Errno::InvalidArgs));
    };
    if core.is_or_contains(inner.object, id)? {
        return Ok(refuses(Errno::InvalidArgs));
    }
    if core.memory(inner.object).is_some() {
        return Ok(refuses(Errno::NotSupported));
    }
    if core.has_label(id, handle) {
        return Ok(refuses(Errno::AlreadyExists));
    }
    if chain_limit() < core.chain_through(id, inner.object) {
        return Ok(refuses(Errno::RecurseTooDeep));
    }
    if 64 <= count {
        return Ok(refuses(Errno::NoResources));
    }
    core.add_member(id, app, handle, mask, cookie)?;
    Ok(gives(Reply::Done))
}

/// Adds a member under the number of its handle.
#[tactic(auto, unfolding(kernel_types::specs::Sets::set_add))]
pub fn set_add_call<C: CoreChanges>(
    core: &mut C,
    app: u32,
    set: u32,
    handle: u32,
    mask: Events,
    cookie: u64,
) -> Result<CallOutcome, NoMemory>
    ensures ok { IfOk result (λ told. outcome told (C.state core.new) ≡ set_add (C.state core.old) app set handle mask cookie) }
    ensures err { OnErr result (C.state core.new ≡ C.state core.old) }
{
    let Some(outer) = core.entry(app, set) else {
        return Ok(refuses(Errno::BadHandle));
    };
    let Some(inner) = core.entry(app, handle) else {
        return Ok(refuses(Errno::BadHandle));
    };
    set_add_to(core, outer.object, app, inner, handle, mask, cookie)
}

/// Takes the member under this label away.
#[tactic(auto, unfolding(kernel_types::specs::Sets::set_del))]
pub fn set_del_call<C: CoreChanges>(core: &mut C, app: u32, set: u32, label: u32) -> CallOutcome
    ensures { outcome result (C.state core.new) ≡ set_del (C.state core.old) app set label }
{
    let Some(entry) = core.entry(app, set) else {
        return refuses(Errno::BadHandle);
    };
    if core.member_count(entry.object).is_none() {
        return refuses(Errno::InvalidArgs);
    }
    if !core.has_label(entry.object, label) {
        return refuses(Errno::NotFound);
    }
    core.remove_member(entry.object, label);
    gives(Reply::Done)
}

/// Gives the member under this label another mask and cookie.
#[tactic(auto, unfolding(kernel_types::specs::Sets::set_mod))]
pub fn set_mod_call<C: CoreChanges>(
    core: &mut C,
    app: u32,
    set: u32,
    label: u32,
    mask: Events,
    cookie: u64,
) -> CallOutcome
    ensures { outcome result (C.state core.new) ≡ set_mod (C.state core.old) app set label mask cookie }
{
    let Some(entry) = core.entry(app, set) else {
        return refuses(Errno::BadHandle);
    };
    if core.member_count(entry.object).is_none() {
        return refuses(Errno::InvalidArgs);
    }
    if !core.has_label(entry.object, label) {
        return refuses(Errno::NotFound);
    }
    core.remask_member(entry.object, label, mask, cookie);
    gives(Reply::Done)
}
