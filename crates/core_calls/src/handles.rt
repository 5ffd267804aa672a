//! `close`, `cookie` and `dup`: the calls on one number of the caller's table.

ghost use Rattle.std.specs.Prelude.{◌≡◌, IfOk, OnErr};
ghost use Rattle.kernel_types.specs.Handles.{close, dup, set_cookie};
ghost use Rattle.core_changes.specs.Outcomes.{outcome};

use core_changes::CoreChanges;
use core_changes::outcomes::{CallOutcome, gives, refuses};
use kernel_values::{Errno, NoMemory, Reply};

/// Takes the number away.
#[tactic(auto, unfolding(kernel_types::specs::Handles::close))]
pub fn close_call<C: CoreChanges>(core: &mut C, app: u32, handle: u32) -> CallOutcome
    ensures { outcome result (C.state core.new) ≡ close (C.state core.old) app handle }
{
    if core.entry(app, handle).is_none() {
        return refuses(Errno::BadHandle);
    }
    core.remove_entry(app, handle);
    gives(Reply::Done)
}

/// Gives the number a cookie.
#[tactic(auto, unfolding(kernel_types::specs::Handles::set_cookie))]
pub fn set_cookie_call<C: CoreChanges>(
    core: &mut C,
    app: u32,
    handle: u32,
    cookie: u64,
) -> CallOutcome
    ensures { outcome result (C.state core.new) ≡ set_cookie (C.state core.old) app handle cookie }
{
    if core.entry(app, handle).is_none() {
        return refuses(Errno::BadHandle);
    }
    core.set_cookie(app, handle, cookie);
    gives(Reply::Done)
}

/// Gives the object of the number one more number.
#[tactic(auto, unfolding(kernel_types::specs::Handles::dup))]
pub fn dup_call<C: CoreChanges>(
    core: &mut C,
    app: u32,
    handle: u32,
) -> Result<CallOutcome, NoMemory>
    ensures ok { IfOk result (λ told. outcome told (C.state core.new) ≡ dup (C.state core.old) app handle) }
    ensures err { OnErr result (C.state core.new ≡ C.state core.old) }
{
    if core.entry(app, handle).is_none() {
        return Ok(refuses(Errno::BadHandle));
    }
    if core.is_full(app) {
        return Ok(refuses(Errno::NoResources));
    }
    let copy = core.copy_entry(app, handle)?;
    Ok(gives(Reply::Handle(copy)))
}
