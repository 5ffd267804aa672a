//! The calls on one number of the caller's table.

ghost use Rattle.std.specs.Prelude.{IfOk, ◌≡◌, ◌==◌};
ghost use Rattle.plain_calls.specs.Outcomes.{outcome};
ghost use Rattle.kernel_types.specs.Handles.{close, set_cookie, dup};
ghost use Rattle.std.specs.List.{position_or_len};
ghost use Rattle.kernel_types.specs.Tables.{with_cookie, with_table};

use crate::told::{CallOutcome, gives, refuses};
use kernel_values::{CoreState, Errno, Items, NoMemory, Reply, TableEntry};
use plain_objects::tables::{
    find_entry, install, is_full_table, least_free_handle, remove_entry, table_of,
};

/// Takes the number away.
#[tactic(auto, unfolding(kernel_types::specs::Handles::close))]
pub fn close_call(core: &mut CoreState, app: u32, handle: u32) -> Result<CallOutcome, NoMemory>
    ensures { IfOk result (λ told. outcome told core.new ≡ close core.old app handle) }
{
    let Some(_entry) = find_entry(table_of(core, app), handle) else {
        return Ok(refuses(Errno::BadHandle));
    };
    remove_entry(core, app, handle)?;
    Ok(gives(Reply::Done))
}

fn place_of_handle(table: &[TableEntry], handle: u32) -> usize
    ensures { result ≡ position_or_len (λ entry. entry.handle == handle) table.now }
{
    for (at, entry) in table.iter().enumerate() {
        if entry.handle == handle {
            return at;
        }
    }
    table.len()
}

fn set_cookie_in(table: &mut Items<TableEntry>, handle: u32, cookie: u64)
    ensures { table.new ≡ with_cookie table.old handle cookie }
{
    let place = place_of_handle(table.as_slice(), handle);
    if let Some(entry) = table.get_mut(place) {
        entry.cookie = cookie;
    }
}

fn set_cookie(core: &mut CoreState, app: u32, handle: u32, cookie: u64)
    ensures { core.new ≡ with_table (λ table. with_cookie table handle cookie) app core.old }
{
    if let Some(application) = core.apps.get_mut(app as usize) {
        set_cookie_in(&mut application.table, handle, cookie);
    }
}

/// Gives the number a cookie.
#[tactic(auto, unfolding(kernel_types::specs::Handles::set_cookie))]
pub fn set_cookie_call(
    core: &mut CoreState,
    app: u32,
    handle: u32,
    cookie: u64,
) -> Result<CallOutcome, NoMemory>
    ensures { IfOk result (λ told. outcome told core.new ≡ set_cookie core.old app handle cookie) }
{
    let Some(_entry) = find_entry(table_of(core, app), handle) else {
        return Ok(refuses(Errno::BadHandle));
    };
    set_cookie(core, app, handle, cookie);
    Ok(gives(Reply::Done))
}

/// Gives the object of the number one more number.
#[tactic(auto, unfolding(kernel_types::specs::Handles::dup))]
pub fn dup_call(core: &mut CoreState, app: u32, handle: u32) -> Result<CallOutcome, NoMemory>
    ensures { IfOk result (λ told. outcome told core.new ≡ dup core.old app handle) }
{
    let Some(entry) = find_entry(table_of(core, app), handle) else {
        return Ok(refuses(Errno::BadHandle));
    };
    if is_full_table(table_of(core, app)) {
        return Ok(refuses(Errno::NoResources));
    }
    let copy = least_free_handle(table_of(core, app));
    install(core, app, entry.object)?;
    Ok(gives(Reply::Handle(copy)))
}
