//! A port is published, and the ends that wait for its path are decided.

ghost use Rattle.std.specs.Prelude.{◌≡◌, IfOk, ◌==◌, OnOk, map, ◌++◌};
ghost use Rattle.kernel_types.specs.Ports.{is_lawful_port, admits, admits_client, waits_for, end_is_admitted, admitted, decided_end, decided, publish_to, publish, port_create};
ghost use Rattle.std.specs.List.{position_or_len};
ghost use Rattle.plain_objects.specs.Predicates.{server_number, server_object};
ghost use Rattle.plain_calls.specs.Outcomes.{outcome};

use crate::told::{CallOutcome, gives, refuses};
use kernel_values::{
    Body, Bytes, ChannelEnd, Connector, Copied, CoreState, EndState, Errno, Items, NoMemory,
    Object, Port, PortFlags, Reply,
};
use plain_objects::ends::server_end;
use plain_objects::objects::{find_published, later};
use plain_objects::tables::{install, is_full_table, least_free_handle, table_of};
use plain_objects::words::is_lawful_path;
use std::alloc::Global;

fn is_lawful_port(path: &[u8], bufs: u32, size: u32) -> bool
    ensures { result ≡ is_lawful_port path.now bufs size }
{
    is_lawful_path(path) && (1 <= bufs && bufs <= 32) && (1 <= size && size <= 4096)
}

/// Whether a port with these flags lets this kind of client in.
pub fn admits(flags: PortFlags, client: Connector) -> bool
    ensures { result ≡ admits flags client }
{
    let bit = match client {
        Connector::App(_) => 1,
        Connector::NormalWorld => 2,
    };
    flags.0 & bit != 0
}

fn admits_client(flags: PortFlags, client: Option<Connector>) -> bool
    ensures { result ≡ admits_client flags client }
{
    match client {
        Some(client) => admits(flags, client),
        None => false,
    }
}

fn waits_for(path: &[u8], end: &ChannelEnd) -> bool
    ensures { result ≡ waits_for path.now end.now }
{
    match (end.state, &end.path) {
        (EndState::Waiting, Some(other)) => other.as_slice() == path,
        _ => false,
    }
}

fn is_admitted(port: &Port, body: &Body) -> bool
    ensures { result ≡ end_is_admitted port.now body.now }
{
    match body {
        Body::End(end) => waits_for(port.path.as_slice(), end)
            && admits_client(port.flags, end.client),
        _ => false,
    }
}

/// The numbers of the ends that wait for the port and are let in, in rising order.
#[tactic(auto, unfolding(kernel_types::specs::Ports::admitted))]
fn admitted(alloc: Global, port: &Port, objects: &[Object]) -> Result<Items<u64>, NoMemory>
    ensures { IfOk result (λ clients. clients ≡ admitted port.now objects.now) }
{
    let mut clients = Items::new(alloc);
    for object in objects {
        if is_admitted(port, &object.body) {
            clients.push(object.id)?;
        }
    }
    Ok(clients)
}

fn place_in(clients: &[u64], client: u64) -> usize
    ensures { result ≡ position_or_len (λ other. other == client) clients.now }
{
    for (at, other) in clients.iter().enumerate() {
        if *other == client {
            return at;
        }
    }
    clients.len()
}

/// The number of a client's server end.
#[tactic(auto, unfolding(plain_objects::specs::Predicates::server_number))]
fn server_of(first: u64, clients: &[u64], client: u64) -> Result<u64, NoMemory>
    ensures { IfOk result (λ server. server ≡ server_number first clients.now client) }
{
    later(first, place_in(clients, client) as u64)
}

/// An end that waits for the port is let in or denied; every other end stays.
#[tactic(auto, unfolding(plain_objects::specs::Predicates::server_number))]
fn decide_end(
    end: &mut ChannelEnd,
    port: &Port,
    first: u64,
    clients: &[u64],
    id: u64,
) -> Result<(), NoMemory>
    ensures { OnOk result (end.new ≡ decided_end port.now first clients.now id end.old) }
{
    if !waits_for(port.path.as_slice(), end) {
        return Ok(());
    }
    if admits_client(port.flags, end.client) {
        end.peer = Some(server_of(first, clients, id)?);
        end.state = EndState::Connecting;
        end.slots = port.bufs;
        end.size = port.size;
    } else {
        end.state = EndState::Disconnected;
    }
    end.path = None;
    Ok(())
}

fn decided(object: &Object, port: &Port, first: u64, clients: &[u64]) -> Result<Object, NoMemory>
    ensures { IfOk result (λ other. other ≡ decided port.now first clients.now object.now) }
{
    let mut copy = object.copied()?;
    let id = copy.id;
    if let Body::End(end) = &mut copy.body {
        decide_end(end, port, first, clients, id)?;
    }
    Ok(copy)
}

fn all_decided(
    objects: &Items<Object>,
    port: &Port,
    first: u64,
    clients: &[u64],
) -> Result<Items<Object>, NoMemory>
    ensures { IfOk result (λ others. others ≡ map (decided port.now first clients.now) objects.now) }
{
    let mut others = Items::new(objects.allocator());
    for object in objects.as_slice() {
        others.push(decided(object, port, first, clients)?)?;
    }
    Ok(others)
}

fn all_servers(alloc: Global, first: u64, clients: &[u64]) -> Result<Items<u64>, NoMemory>
    ensures { IfOk result (λ servers. servers ≡ map (server_number first clients.now) clients.now) }
{
    let mut servers = Items::new(alloc);
    for client in clients {
        servers.push(server_of(first, clients, *client)?)?;
    }
    Ok(servers)
}

/// A client's server end under its number.
#[tactic(auto, unfolding(plain_objects::specs::Predicates::server_number, plain_objects::specs::Predicates::server_object))]
fn server_object(
    alloc: Global,
    port: &Port,
    first: u64,
    clients: &[u64],
    client: u64,
) -> Result<Object, NoMemory>
    ensures { IfOk result (λ server. server ≡ server_object port.now first clients.now client) }
{
    Ok(Object {
        id: server_of(first, clients, client)?,
        body: server_end(alloc, client, port.bufs, port.size),
    })
}

fn add_servers(
    objects: &mut Items<Object>,
    port: &Port,
    first: u64,
    clients: &[u64],
) -> Result<(), NoMemory>
    ensures { OnOk result (objects.new ≡ objects.old ++ map (server_object port.now first clients.now) clients.now) }
{
    for client in clients {
        objects.push(server_object(objects.allocator(), port, first, clients, *client)?)?;
    }
    Ok(())
}

/// The port gets the next number, and after it come the server ends, which are pending in that order.
#[tactic(auto, unfolding(plain_objects::specs::Predicates::server_number, plain_objects::specs::Predicates::server_object))]
fn publish_to(core: &mut CoreState, port: &Port, clients: &[u64]) -> Result<(), NoMemory>
    ensures { OnOk result (core.new ≡ publish_to clients.now port.now core.old) }
{
    let first = later(core.next, 1)?;
    let mut objects = all_decided(&core.objects, port, first, clients)?;
    let mut copy = port.copied()?;
    copy.pending = all_servers(objects.allocator(), first, clients)?;
    objects.push(Object {
        id: core.next,
        body: Body::Port(copy),
    })?;
    add_servers(&mut objects, port, first, clients)?;
    core.objects = objects;
    core.next = later(first, clients.len() as u64)?;
    Ok(())
}

fn publish(core: &mut CoreState, port: &Port) -> Result<(), NoMemory>
    ensures { OnOk result (core.new ≡ publish port.now core.old) }
{
    let clients = admitted(core.objects.allocator(), port, core.objects.as_slice())?;
    publish_to(core, port, clients.as_slice())
}

/// Publishes a port of `bufs` buffers of `size` bytes.
#[tactic(auto, unfolding(kernel_types::specs::Ports::port_create))]
pub fn port_create_call(
    core: &mut CoreState,
    app: u32,
    path: &Bytes,
    bufs: u32,
    size: u32,
    flags: PortFlags,
) -> Result<CallOutcome, NoMemory>
    ensures { IfOk result (λ told. outcome told core.new ≡ port_create core.old app path.now bufs size flags) }
{
    if !is_lawful_port(path.as_slice(), bufs, size) {
        return Ok(refuses(Errno::InvalidArgs));
    }
    if find_published(core.objects.as_slice(), path.as_slice()).is_some() {
        return Ok(refuses(Errno::AlreadyExists));
    }
    if is_full_table(table_of(core, app)) {
        return Ok(refuses(Errno::NoResources));
    }
    let port = Port {
        path: path.copied()?,
        bufs,
        size,
        flags,
        pending: Items::new(core.objects.allocator()),
    };
    let handle = least_free_handle(table_of(core, app));
    let id = core.next;
    let published = publish(core, &port);
    drop(port);
    published?;
    install(core, app, id)?;
    Ok(gives(Reply::Handle(handle)))
}
