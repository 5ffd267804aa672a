//! `connect`: by its path it goes to a port, to an application that has yet to publish one, or to
//! nothing.

ghost use Rattle.std.specs.Prelude.{◌≡◌, OnOk, ◌++◌, ◌∷◌, [], IfOk, slice_get};
ghost use Rattle.kernel_types.specs.Connects.{waits_for_port, is_asynchronous, may_serve, pending_pair, waiting_client, to_port, started_unless_running, connected, to_start, to_nothing, way_by_port, way_of, connect};
ghost use Rattle.kernel_types.specs.Objects.{port_changed};
ghost use Rattle.plain_calls.specs.Outcomes.{outcome, connected_as, connect_way};
ghost use Rattle.kernel_values.specs.declared.state.Connector.TheVariants as connector;

use crate::applications::{find_start_port, has_start_left, place_of_server, start_application};
use crate::ports::admits;
use crate::threads::begin_to_wait;
use crate::told::{CallOutcome, gives, refuses};
use kernel_values::{
    Application, Body, Bytes, ConnectFlags, Connector, Copied, CoreState, EndState, Errno,
    NoMemory, Port, PortFlags, Reply, WaitOn,
};
use plain_objects::ends::{new_end, server_end};
use plain_objects::objects::{add_object, find_published, later, place_of_object};
use plain_objects::tables::{install, is_full_table, least_free_handle, table_of};
use plain_objects::words::is_lawful_path;

fn waits_for_port(flags: ConnectFlags) -> bool
    ensures { result ≡ waits_for_port flags }
{
    flags.0 & 1 != 0
}

fn is_asynchronous(flags: ConnectFlags) -> bool
    ensures { result ≡ is_asynchronous flags }
{
    flags.0 & 2 != 0
}

/// Whether an application with a start port may still serve it.
pub fn may_serve(app: &Application) -> bool
    ensures { result ≡ may_serve app.now }
{
    app.running || has_start_left(app)
}

/// One more server end is pending at the port.
fn add_pending(core: &mut CoreState, port: u64, server: u64) -> Result<(), NoMemory>
    ensures { OnOk result (core.new ≡ port_changed (λ p. record p { pending = p.pending ++ server ∷ [] }) port core.old) }
{
    let place = place_of_object(core.objects.as_slice(), port);
    if let Some(object) = core.objects.get_mut(place) {
        if let Body::Port(served) = &mut object.body {
            served.pending.push(server)?;
        }
    }
    Ok(())
}

/// A client end and its server end, which is pending at the port.
pub fn add_pair(
    core: &mut CoreState,
    maker: Connector,
    id: u64,
    port: &Port,
) -> Result<(), NoMemory>
    ensures { OnOk result (core.new ≡ pending_pair maker id port.now core.old) }
{
    let alloc = core.objects.allocator();
    let client = core.next;
    let server = later(client, 1)?;
    let end = new_end(
        alloc,
        Some(server),
        EndState::Connecting,
        None,
        Some(maker),
        port.bufs,
        port.size,
    );
    add_object(core, Body::End(end))?;
    add_object(core, server_end(alloc, client, port.bufs, port.size))?;
    add_pending(core, id, server)
}

/// A client end that waits for a port of this path.
pub fn add_waiting(core: &mut CoreState, maker: Connector, path: &Bytes) -> Result<(), NoMemory>
    ensures { OnOk result (core.new ≡ waiting_client maker path.now core.old) }
{
    let alloc = core.objects.allocator();
    let end = new_end(
        alloc,
        None,
        EndState::Waiting,
        Some(path.copied()?),
        Some(maker),
        0,
        0,
    );
    add_object(core, Body::End(end))
}

/// The connect goes through: its end is installed, and the answer is its number at once, or comes
/// with the decision.
fn connected(
    core: &mut CoreState,
    thread: u32,
    app: u32,
    flags: ConnectFlags,
    end: u64,
    handle: u32,
) -> Result<CallOutcome, NoMemory>
    ensures { IfOk result (λ told. outcome told core.new ≡ connected_as end handle thread app flags core.old) }
{
    install(core, app, end)?;
    if is_asynchronous(flags) {
        return Ok(gives(Reply::Handle(handle)));
    }
    Ok(begin_to_wait(core, thread, WaitOn::Connect { end, handle }, None))
}

#[tactic(auto, unfolding(crate::specs::Outcomes::connect_way))]
fn connect_to_port(
    core: &mut CoreState,
    thread: u32,
    app: u32,
    path: &Bytes,
    flags: ConnectFlags,
    id: u64,
    port: &Port,
) -> Result<CallOutcome, NoMemory>
    ensures { IfOk result (λ told. outcome told core.new ≡ connect_way (to_port id port.now) core.old thread app path.now flags) }
{
    if !admits(port.flags, Connector::App(app)) {
        return Ok(refuses(Errno::AccessDenied));
    }
    if is_full_table(table_of(core, app)) {
        return Ok(refuses(Errno::NoResources));
    }
    let end = core.next;
    let handle = least_free_handle(table_of(core, app));
    add_pair(core, Connector::App(app), id, port)?;
    connected(core, thread, app, flags, end, handle)
}

/// The application at a place is started, where it does not run.
pub fn start_unless_running(core: &mut CoreState, place: u32) -> Result<(), NoMemory>
    ensures { OnOk result (core.new ≡ started_unless_running place (slice_get core.old.apps place) core.old) }
{
    let is_idle = match core.apps.get(place as usize) {
        Some(app) => !app.running,
        None => false,
    };
    if is_idle {
        start_application(core, place)?;
    }
    Ok(())
}

/// The connect waits for a port, and goes through.
fn connect_at_start(
    core: &mut CoreState,
    thread: u32,
    app: u32,
    path: &Bytes,
    flags: ConnectFlags,
) -> Result<CallOutcome, NoMemory>
    ensures { IfOk result (λ told. outcome told core.new ≡ connected core.old thread app flags (waiting_client (connector.App app) path.now core.old)) }
{
    let end = core.next;
    let handle = least_free_handle(table_of(core, app));
    add_waiting(core, Connector::App(app), path)?;
    connected(core, thread, app, flags, end, handle)
}

#[tactic(auto, unfolding(crate::specs::Outcomes::connect_way))]
fn connect_to_start(
    core: &mut CoreState,
    thread: u32,
    app: u32,
    path: &Bytes,
    flags: ConnectFlags,
    place: u32,
    start: PortFlags,
) -> Result<CallOutcome, NoMemory>
    ensures { IfOk result (λ told. outcome told core.new ≡ connect_way (to_start place start) core.old thread app path.now flags) }
{
    if !admits(start, Connector::App(app)) {
        return Ok(refuses(Errno::AccessDenied));
    }
    if is_full_table(table_of(core, app)) {
        return Ok(refuses(Errno::NoResources));
    }
    let told = connect_at_start(core, thread, app, path, flags)?;
    start_unless_running(core, place)?;
    Ok(told)
}

#[tactic(auto, unfolding(crate::specs::Outcomes::connect_way))]
fn connect_to_nothing(
    core: &mut CoreState,
    thread: u32,
    app: u32,
    path: &Bytes,
    flags: ConnectFlags,
) -> Result<CallOutcome, NoMemory>
    ensures { IfOk result (λ told. outcome told core.new ≡ connect_way to_nothing core.old thread app path.now flags) }
{
    if !waits_for_port(flags) {
        return Ok(refuses(Errno::NotFound));
    }
    if is_full_table(table_of(core, app)) {
        return Ok(refuses(Errno::NoResources));
    }
    connect_at_start(core, thread, app, path, flags)
}

/// A place as the number of an application; refused where it is out of their range.
pub fn to_u32(place: usize) -> Result<u32, NoMemory>
    ensures { IfOk result (λ number. number ≡ place) }
{
    if place > u32::MAX as usize {
        return Err(NoMemory);
    }
    Ok(place as u32)
}

/// No port has the path.
fn connect_to_app(
    core: &mut CoreState,
    thread: u32,
    app: u32,
    path: &Bytes,
    flags: ConnectFlags,
) -> Result<CallOutcome, NoMemory>
    ensures { IfOk result (λ told. outcome told core.new ≡ connect_way (way_by_port path.now core.old None) core.old thread app path.now flags) }
{
    let place = place_of_server(core, path.as_slice());
    let Some(server) = core.apps.get(place) else {
        return connect_to_nothing(core, thread, app, path, flags);
    };
    let Some(start) = find_start_port(server, path.as_slice()) else {
        return connect_to_nothing(core, thread, app, path, flags);
    };
    let start_flags = start.flags;
    if !may_serve(server) {
        return connect_to_nothing(core, thread, app, path, flags);
    }
    let number = to_u32(place)?;
    Ok(connect_to_start(core, thread, app, path, flags, number, start_flags)?)
}

fn connect_on(
    core: &mut CoreState,
    thread: u32,
    app: u32,
    path: &Bytes,
    flags: ConnectFlags,
) -> Result<CallOutcome, NoMemory>
    ensures { IfOk result (λ told. outcome told core.new ≡ connect_way (way_of core.old path.now) core.old thread app path.now flags) }
{
    let Some(object) = find_published(core.objects.as_slice(), path.as_slice()) else {
        return Ok(connect_to_app(core, thread, app, path, flags)?);
    };
    let id = object.id;
    let body = object.body.copied()?;
    match &body {
        Body::Port(port) => {
            let told = connect_to_port(core, thread, app, path, flags, id, port);
            drop(body);
            Ok(told?)
        }
        _ => {
            drop(body);
            Ok(connect_to_nothing(core, thread, app, path, flags)?)
        }
    }
}

/// Connects to the port of a path.
#[tactic(auto, unfolding(kernel_types::specs::Connects::connect, crate::specs::Outcomes::connect_way))]
pub fn connect_call(
    core: &mut CoreState,
    thread: u32,
    app: u32,
    path: &Bytes,
    flags: ConnectFlags,
) -> Result<CallOutcome, NoMemory>
    ensures { IfOk result (λ told. outcome told core.new ≡ connect core.old thread app path.now flags) }
{
    if !is_lawful_path(path.as_slice()) {
        return Ok(refuses(Errno::InvalidArgs));
    }
    connect_on(core, thread, app, path, flags)
}
