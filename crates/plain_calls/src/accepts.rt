//! `accept`, and how a connect that waits is decided.

ghost use Rattle.std.specs.Prelude.{◌≡◌, OnOk, IfOk};
ghost use Rattle.kernel_types.specs.Connects.{accepted_end, accept_client, uuid_of, peer_uuid, peer_of, accept_server, accept, unready, holds_end, decided_on, connect_decision};
ghost use Rattle.kernel_types.specs.Objects.{end_changed, port_changed, end_of};
ghost use Rattle.plain_calls.specs.Outcomes.{outcome, outcome_if};
ghost use Rattle.kernel_types.specs.Tables.{entry_at, table_of};
ghost use Rattle.std.specs.Option.{is_some};

use crate::told::{CallOutcome, gives, refuses};
use kernel_values::{
    Body, ChannelEnd, Connector, Copied, CoreState, EndState, Errno, Items, NoMemory, Object, Reply,
};
use plain_objects::ends::is_disconnected;
use plain_objects::objects::{find_end, find_port, place_of_object};
use plain_objects::tables::{
    find_entry, install, is_full_table, least_free_handle, remove_entry, table_of,
};

fn accepted_end(end: &mut ChannelEnd, ready: bool)
    ensures { end.new ≡ accepted_end ready end.old }
{
    end.state = EndState::Connected;
    end.accepted = true;
    end.ready = ready || end.ready;
}

/// The end is Connected and accepted; `ready` marks it ready besides.
fn accept_end(core: &mut CoreState, id: u64, ready: bool)
    ensures { core.new ≡ end_changed (accepted_end ready) id core.old }
{
    let place = place_of_object(core.objects.as_slice(), id);
    if let Some(object) = core.objects.get_mut(place) {
        if let Body::End(end) = &mut object.body {
            accepted_end(end, ready);
        }
    }
}

fn accept_client(core: &mut CoreState, client: Option<u64>)
    ensures { core.new ≡ accept_client client core.old }
{
    if let Some(id) = client {
        accept_end(core, id, true);
    }
}

/// The port's pending server ends are these.
fn set_pending(core: &mut CoreState, port: u64, rest: &[u64]) -> Result<(), NoMemory>
    ensures { OnOk result (core.new ≡ port_changed (λ p. record p { pending = rest.now }) port core.old) }
{
    let pending = Items::from_slice(core.objects.allocator(), rest)?;
    let place = place_of_object(core.objects.as_slice(), port);
    if let Some(object) = core.objects.get_mut(place) {
        if let Body::Port(served) = &mut object.body {
            served.pending = pending;
        }
    }
    Ok(())
}

/// The UUID of who made a connection; the normal world's is 0.
fn uuid_of(core: &CoreState, client: Option<Connector>) -> u128
    ensures { result ≡ uuid_of core.now client }
{
    match client {
        Some(Connector::App(app)) => match core.apps.get(app as usize) {
            Some(application) => application.manifest.uuid,
            None => 0,
        },
        _ => 0,
    }
}

fn peer_uuid(core: &CoreState, client: Option<u64>) -> u128
    ensures { result ≡ peer_uuid core.now client }
{
    match client {
        Some(id) => match find_end(core.objects.as_slice(), id) {
            Some(end) => uuid_of(core, end.client),
            None => 0,
        },
        None => 0,
    }
}

fn peer_of(objects: &[Object], id: u64) -> Option<u64>
    ensures { result ≡ peer_of (end_of objects.now id) }
{
    match find_end(objects, id) {
        Some(end) => end.peer,
        None => None,
    }
}

fn accept_server(
    core: &mut CoreState,
    app: u32,
    port: u64,
    server: u64,
    rest: &[u64],
) -> Result<CallOutcome, NoMemory>
    ensures { IfOk result (λ told. outcome told core.new ≡ accept_server core.old app port server rest.now (peer_of (end_of core.old.objects server))) }
{
    let handle = least_free_handle(table_of(core, app));
    let client = peer_of(core.objects.as_slice(), server);
    let uuid = peer_uuid(core, client);
    set_pending(core, port, rest)?;
    accept_end(core, server, false);
    accept_client(core, client);
    install(core, app, server)?;
    Ok(gives(Reply::Accepted { handle, uuid }))
}

/// The first pending server end of a port is installed.
#[tactic(auto, unfolding(kernel_types::specs::Connects::accept))]
pub fn accept_call(core: &mut CoreState, app: u32, handle: u32) -> Result<CallOutcome, NoMemory>
    ensures { IfOk result (λ told. outcome told core.new ≡ accept core.old app handle) }
{
    let Some(entry) = find_entry(table_of(core, app), handle) else {
        return Ok(refuses(Errno::BadHandle));
    };
    let Some(port) = find_port(core.objects.as_slice(), entry.object) else {
        return Ok(refuses(Errno::InvalidArgs));
    };
    let pending = port.pending.copied()?;
    let [server, rest @ ..] = pending.as_slice() else {
        return Ok(refuses(Errno::NoMsg));
    };
    if is_full_table(table_of(core, app)) {
        return Ok(refuses(Errno::NoResources));
    }
    accept_server(core, app, entry.object, *server, rest)
}

/// The end is no longer ready.
fn take_ready(core: &mut CoreState, id: u64)
    ensures { core.new ≡ end_changed unready id core.old }
{
    let place = place_of_object(core.objects.as_slice(), id);
    if let Some(object) = core.objects.get_mut(place) {
        if let Body::End(end) = &mut object.body {
            end.ready = false;
        }
    }
}

fn holds_end(core: &CoreState, app: u32, handle: u32, end: u64) -> bool
    ensures { result ≡ holds_end end (entry_at (table_of core.now app) handle) }
{
    match find_entry(table_of(core, app), handle) {
        Some(entry) => entry.object == end,
        None => false,
    }
}

/// Whether the end's connect is decided.
fn is_decided_on(core: &CoreState, app: u32, id: u64, handle: u32, cancelled: bool) -> bool
    ensures { result ≡ is_some (decided_on core.now app id handle cancelled (end_of core.now.objects id)) }
{
    match find_end(core.objects.as_slice(), id) {
        Some(end) => end.accepted || is_disconnected(end.state) || cancelled,
        None => true,
    }
}

/// Whether a connect that waits is decided.
#[tactic(auto, unfolding(kernel_types::specs::Connects::connect_decision))]
pub fn is_connect_decided(
    core: &CoreState,
    app: u32,
    end: u64,
    handle: u32,
    cancelled: bool,
) -> bool
    ensures { result ≡ is_some (connect_decision core.now app end handle cancelled) }
{
    !holds_end(core, app, handle, end) || is_decided_on(core, app, end, handle, cancelled)
}

fn decide_on(
    core: &mut CoreState,
    app: u32,
    id: u64,
    handle: u32,
    cancelled: bool,
) -> Result<Option<CallOutcome>, NoMemory>
    ensures { IfOk result (λ told. outcome_if told core.new ≡ decided_on core.old app id handle cancelled (end_of core.old.objects id)) }
{
    let Some(end) = find_end(core.objects.as_slice(), id) else {
        return Ok(Some(refuses(Errno::ChannelClosed)));
    };
    if end.accepted {
        take_ready(core, id);
        return Ok(Some(gives(Reply::Handle(handle))));
    }
    if is_disconnected(end.state) {
        remove_entry(core, app, handle)?;
        return Ok(Some(refuses(Errno::ChannelClosed)));
    }
    if cancelled {
        remove_entry(core, app, handle)?;
        return Ok(Some(refuses(Errno::Cancelled)));
    }
    Ok(None)
}

/// The decision on a connect that waits, where there is one.
#[tactic(auto, unfolding(kernel_types::specs::Connects::connect_decision))]
pub fn decide_connect(
    core: &mut CoreState,
    app: u32,
    end: u64,
    handle: u32,
    cancelled: bool,
) -> Result<Option<CallOutcome>, NoMemory>
    ensures { IfOk result (λ told. outcome_if told core.new ≡ connect_decision core.old app end handle cancelled) }
{
    if !holds_end(core, app, handle, end) {
        return Ok(Some(refuses(Errno::ChannelClosed)));
    }
    decide_on(core, app, end, handle, cancelled)
}
