//! `connect`: by its path it goes to a port, to an application that has yet to publish one, or to nothing.

ghost use Rattle.std.specs.Prelude.{◌≡◌, IfOk, OnErr};
ghost use Rattle.kernel_values.specs.declared.state.Connector.TheVariants as connector;
ghost use Rattle.kernel_types.specs.Connects.{connect, is_asynchronous, waits_for_port, way_of};
ghost use Rattle.kernel_types.specs.Ports.{admits};
ghost use Rattle.core_changes.specs.Outcomes.{outcome};
ghost use Rattle.core_calls.specs.Connecting.{connect_by_sight, refusal_by, waiter_of};

use crate::paths::is_lawful_path;
use core_changes::CoreChanges;
use core_changes::looks::WayLook;
use core_changes::outcomes::{CallOutcome, gives, refuses, waits};
use kernel_values::{Bytes, ConnectFlags, Connector, Errno, NoMemory, PortFlags, Reply};

fn waits_for_port(flags: ConnectFlags) -> bool
    ensures { result ≡ waits_for_port flags }
{
    flags.0 & 1 != 0
}

fn is_asynchronous(flags: ConnectFlags) -> bool
    ensures { result ≡ is_asynchronous flags }
{
    flags.0 & 2 != 0
}

/// Whether a port with these flags lets this kind of client in.
pub fn admits(flags: PortFlags, client: Connector) -> bool
    ensures { result ≡ admits flags client }
{
    let bit = match client {
        Connector::App(_) => 1,
        Connector::NormalWorld => 2,
    };
    flags.0 & bit != 0
}

/// Why the way lets a connect not go on, if so.
fn refusal_by(way: WayLook, client: Connector, flags: ConnectFlags) -> Option<Errno>
    ensures { result ≡ refusal_by way client flags }
{
    match way {
        WayLook::ToPort(port) | WayLook::ToStart(port) => {
            if admits(port, client) {
                None
            } else {
                Some(Errno::AccessDenied)
            }
        }
        WayLook::ToNothing => {
            if waits_for_port(flags) {
                None
            } else {
                Some(Errno::NotFound)
            }
        }
    }
}

/// The thread that waits for the decision, if one does.
fn waiter_of(flags: ConnectFlags, thread: u32) -> Option<u32>
    ensures { result ≡ waiter_of flags thread }
{
    if is_asynchronous(flags) {
        None
    } else {
        Some(thread)
    }
}

#[tactic(auto, unfolding(crate::specs::Connecting::connect_by_sight))]
fn connect_on<C: CoreChanges>(
    core: &mut C,
    thread: u32,
    app: u32,
    path: &Bytes,
    flags: ConnectFlags,
) -> Result<CallOutcome, NoMemory>
    ensures ok { IfOk result (λ told. outcome told (C.state core.new) ≡ connect_by_sight (way_of (C.state core.old) path.now) (C.state core.old) thread app path.now flags) }
    ensures err { OnErr result (C.state core.new ≡ C.state core.old) }
{
    if let Some(errno) = refusal_by(core.way(path), Connector::App(app), flags) {
        return Ok(refuses(errno));
    }
    if core.is_full(app) {
        return Ok(refuses(Errno::NoResources));
    }
    let handle = core.connect(app, path, waiter_of(flags, thread))?;
    if is_asynchronous(flags) {
        return Ok(gives(Reply::Handle(handle)));
    }
    Ok(waits())
}

/// Connects to the port of a path.
#[tactic(auto, using(crate::proofs::Connecting::seen), unfolding(kernel_types::specs::Connects::connect))]
pub fn connect_call<C: CoreChanges>(
    core: &mut C,
    thread: u32,
    app: u32,
    path: &Bytes,
    flags: ConnectFlags,
) -> Result<CallOutcome, NoMemory>
    ensures ok { IfOk result (λ told. outcome told (C.state core.new) ≡ connect (C.state core.old) thread app path.now flags) }
    ensures err { OnErr result (C.state core.new ≡ C.state core.old) }
{
    if !is_lawful_path(path.as_slice()) {
        return Ok(refuses(Errno::InvalidArgs));
    }
    connect_on(core, thread, app, path, flags)
}
