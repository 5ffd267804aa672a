//! `accept`, and how a connect that waits is decided.

ghost use Rattle.std.specs.Prelude.{◌≡◌, IfOk, OnErr};
ghost use Rattle.std.specs.Option.{is_some};
ghost use Rattle.kernel_types.specs.Connects.{accept, connect_decision, decided_on, holds_end};
ghost use Rattle.kernel_types.specs.Objects.{end_of};
ghost use Rattle.kernel_types.specs.Tables.{entry_at, table_of};
ghost use Rattle.core_changes.specs.Outcomes.{outcome, outcome_if, stays_unless};

use crate::ends::is_disconnected;
use core_changes::CoreChanges;
use core_changes::core_changes::Mark;
use core_changes::outcomes::{CallOutcome, gives, refuses};
use kernel_values::{Errno, NoMemory, Reply};

/// The first pending server end of a port is installed.
#[tactic(auto, unfolding(kernel_types::specs::Connects::accept))]
pub fn accept_call<C: CoreChanges>(
    core: &mut C,
    app: u32,
    handle: u32,
) -> Result<CallOutcome, NoMemory>
    ensures ok { IfOk result (λ told. outcome told (C.state core.new) ≡ accept (C.state core.old) app handle) }
    ensures err { OnErr result (C.state core.new ≡ C.state core.old) }
{
    let Some(entry) = core.entry(app, handle) else {
        return Ok(refuses(Errno::BadHandle));
    };
    let Some(port) = core.port(entry.object) else {
        return Ok(refuses(Errno::InvalidArgs));
    };
    let Some(server) = port.first else {
        return Ok(refuses(Errno::NoMsg));
    };
    if core.is_full(app) {
        return Ok(refuses(Errno::NoResources));
    }
    let uuid = core.maker_uuid(server);
    let handle = core.accept(app, entry.object)?;
    Ok(gives(Reply::Accepted { handle, uuid }))
}

fn holds_end<C: CoreChanges>(core: &C, app: u32, handle: u32, end: u64) -> bool
    ensures { result ≡ holds_end end (entry_at (table_of (C.state core.now) app) handle) }
{
    match core.entry(app, handle) {
        Some(entry) => entry.object == end,
        None => false,
    }
}

fn is_decided_on<C: CoreChanges>(core: &C, app: u32, id: u64, handle: u32, cancelled: bool) -> bool
    ensures { result ≡ is_some (decided_on (C.state core.now) app id handle cancelled (end_of (C.state core.now).objects id)) }
{
    match core.end(id) {
        Some(end) => end.accepted || is_disconnected(end.state) || cancelled,
        None => true,
    }
}

/// Whether a connect that waits is decided.
#[tactic(auto, unfolding(kernel_types::specs::Connects::connect_decision))]
pub fn is_connect_decided<C: CoreChanges>(
    core: &C,
    app: u32,
    end: u64,
    handle: u32,
    cancelled: bool,
) -> bool
    ensures { result ≡ is_some (connect_decision (C.state core.now) app end handle cancelled) }
{
    !holds_end(core, app, handle, end) || is_decided_on(core, app, end, handle, cancelled)
}

fn decide_on<C: CoreChanges>(
    core: &mut C,
    app: u32,
    id: u64,
    handle: u32,
    cancelled: bool,
) -> Option<CallOutcome>
    ensures told { outcome_if result (C.state core.new) ≡ decided_on (C.state core.old) app id handle cancelled (end_of (C.state core.old).objects id) }
    ensures kept { stays_unless result (C.state core.old) (C.state core.new) }
{
    let Some(end) = core.end(id) else {
        return Some(refuses(Errno::ChannelClosed));
    };
    if end.accepted {
        core.mark_end(id, Mark::Decided);
        return Some(gives(Reply::Handle(handle)));
    }
    if is_disconnected(end.state) {
        core.remove_entry(app, handle);
        return Some(refuses(Errno::ChannelClosed));
    }
    if cancelled {
        core.remove_entry(app, handle);
        return Some(refuses(Errno::Cancelled));
    }
    None
}

/// The decision on a connect that waits, where there is one.
#[tactic(auto, unfolding(kernel_types::specs::Connects::connect_decision))]
pub fn decide_connect<C: CoreChanges>(
    core: &mut C,
    app: u32,
    end: u64,
    handle: u32,
    cancelled: bool,
) -> Option<CallOutcome>
    ensures told { outcome_if result (C.state core.new) ≡ connect_decision (C.state core.old) app end handle cancelled }
    ensures kept { stays_unless result (C.state core.old) (C.state core.new) }
{
    if !holds_end(core, app, handle, end) {
        return Some(refuses(Errno::ChannelClosed));
    }
    decide_on(core, app, end, handle, cancelled)
}
