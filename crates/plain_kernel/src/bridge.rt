//! What the bridge to the normal world asks of a state.

ghost use Rattle.std.specs.Prelude.{◌≡◌, ◌≤◌, ◌<◌, [], length, IfOk, OnOk, Some, None, false};
ghost use Rattle.std.specs.List.{All, count_by, filter};
ghost use Rattle.std.specs.Option.{option_copied, option_map};
ghost use Rattle.kernel_types.specs.Bridge.{ns_connect, ns_view, ns_peek, ns_push, ns_take, ns_drop, is_full_peer, marked_if, with_error, unbridged};
ghost use Rattle.kernel_types.specs.Connects.{to_port, to_start, way_by_port, peer_of};
ghost use Rattle.kernel_types.specs.Events.{is_filled};
ghost use Rattle.kernel_types.specs.Limits.{IsBodyWithin};
ghost use Rattle.kernel_types.specs.Messages.{peer_end};
ghost use Rattle.kernel_types.specs.Names.{naming};
ghost use Rattle.kernel_types.specs.Objects.{end_changed, end_of};
ghost use Rattle.plain_kernel.specs.Bridged.{connected_if, ns_connect_way, pushed, taken, is_other, filled_at, id_at, first_retired, sent_to, IsNextSent};

use kernel_types::EndView;
use kernel_values::{
    Body, Bytes, Connector, Copied, CoreState, EndSeq, EndState, Errno, Items, Message, NoMemory,
    ObjId, Object, Port, PortFlags,
};
use plain_calls::applications::{find_start_port, place_of_server};
use plain_calls::connects::{add_pair, add_waiting, may_serve, start_unless_running, to_u32};
use plain_calls::messages::{open_message, retire, unblock_peer};
use plain_calls::ports::admits;
use plain_calls::sends::add_message;
use plain_objects::objects::{find_end, find_published, place_of_object};
use plain_objects::queues::{find_filled, free_id};
use plain_objects::survey::Survey;
use plain_objects::sweep::{sweep_state, sweep_within};

#[tactic(auto, unfolding(crate::specs::Bridged::ns_connect_way))]
fn connect_to_port(core: &mut CoreState, id: u64, port: &Port) -> Result<Option<Errno>, NoMemory>
    ensures { IfOk result (λ refused. connected_if refused core.new ≡ ns_connect_way (to_port id port.now) core.old []) }
{
    if !admits(port.flags, Connector::NormalWorld) {
        return Ok(Some(Errno::AccessDenied));
    }
    let end = core.next;
    add_pair(core, Connector::NormalWorld, id, port)?;
    core.bridged.push(end)?;
    sweep_state(core)?;
    Ok(None)
}

#[tactic(auto, unfolding(crate::specs::Bridged::ns_connect_way))]
fn connect_to_start(
    core: &mut CoreState,
    path: &Bytes,
    place: u32,
    start: PortFlags,
) -> Result<Option<Errno>, NoMemory>
    ensures { IfOk result (λ refused. connected_if refused core.new ≡ ns_connect_way (to_start place start) core.old path.now) }
{
    if !admits(start, Connector::NormalWorld) {
        return Ok(Some(Errno::AccessDenied));
    }
    let end = core.next;
    add_waiting(core, Connector::NormalWorld, path)?;
    core.bridged.push(end)?;
    start_unless_running(core, place)?;
    sweep_state(core)?;
    Ok(None)
}

/// No port has the path.
#[tactic(auto, unfolding(crate::specs::Bridged::ns_connect_way))]
fn connect_to_app(core: &mut CoreState, path: &Bytes) -> Result<Option<Errno>, NoMemory>
    ensures { IfOk result (λ refused. connected_if refused core.new ≡ ns_connect_way (way_by_port path.now core.old None) core.old path.now) }
{
    let place = place_of_server(core, path.as_slice());
    let Some(server) = core.apps.get(place) else {
        return Ok(Some(Errno::NotFound));
    };
    let Some(start) = find_start_port(server, path.as_slice()) else {
        return Ok(Some(Errno::NotFound));
    };
    let start_flags = start.flags;
    if !may_serve(server) {
        return Ok(Some(Errno::NotFound));
    }
    let number = to_u32(place)?;
    Ok(connect_to_start(core, path, number, start_flags)?)
}

/// An asynchronous connect of the normal world, whose end the bridge names; or why it is refused.
#[tactic(auto, unfolding(kernel_types::specs::Bridge::ns_connect, crate::specs::Bridged::ns_connect_way))]
pub fn connect(core: &mut CoreState, path: &Bytes) -> Result<Option<Errno>, NoMemory>
    ensures { IfOk result (λ refused. connected_if refused core.new ≡ ns_connect core.old path.now) }
{
    let Some(object) = find_published(core.objects.as_slice(), path.as_slice()) else {
        return Ok(connect_to_app(core, path)?);
    };
    let id = object.id;
    let body = object.body.copied()?;
    match &body {
        Body::Port(port) => {
            let refused = connect_to_port(core, id, port);
            drop(body);
            Ok(refused?)
        }
        _ => {
            drop(body);
            Ok(Some(Errno::NotFound))
        }
    }
}

fn count_filled(messages: &[Message]) -> u32
    requires { length messages.now ≤ 32 }
    ensures { result ≡ count_by is_filled messages.now }
{
    let mut count: u32 = 0;
    for message in messages {
        if message.opened.is_none() {
            count += 1;
        }
    }
    count
}

fn is_full_peer(objects: &[Object], peer: Option<u64>) -> bool
    ensures { result ≡ is_full_peer (peer_end objects.now peer) }
{
    let Some(id) = peer else {
        return false;
    };
    match find_end(objects, id) {
        Some(end) => end.slots as usize <= end.messages.len(),
        None => false,
    }
}

/// What the bridge sees of an end.
#[tactic(auto, unfolding(kernel_types::specs::Bridge::ns_view))]
pub fn view(core: &CoreState, id: u64) -> EndView
    requires { All (λ object. IsBodyWithin object.body) core.now.objects }
    ensures { result ≡ ns_view core.now id }
{
    let objects = core.objects.as_slice();
    match find_end(objects, id) {
        Some(end) => EndView {
            state: end.state,
            accepted: end.accepted,
            filled: count_filled(end.messages.as_slice()),
            size: end.size,
            slots: end.slots,
            peer_full: is_full_peer(objects, end.peer),
        },
        None => EndView {
            state: EndState::Disconnected,
            accepted: false,
            filled: 0,
            size: 0,
            slots: 0,
            peer_full: false,
        },
    }
}

/// The oldest filled message of an end.
fn first_filled(core: &CoreState, id: u64) -> Option<&Message>
    ensures { option_copied result ≡ filled_at core.now id }
{
    find_filled(find_end(core.objects.as_slice(), id)?.messages.as_slice())
}

/// The bytes of the oldest filled message of an end that has one.
#[tactic(auto, using(crate::proofs::Filled::none_filled, crate::proofs::Filled::peeked))]
pub fn peek(core: &CoreState, id: u64) -> Result<Bytes, NoMemory>
    requires { 0 < (ns_view core.now id).filled }
    ensures { IfOk result (λ bytes. ns_peek core.now id ≡ Some bytes) }
{
    match first_filled(core, id) {
        Some(message) => message.bytes.copied(),
        None => unreachable!(),
    }
}

/// The peer of an end, and the number of the next message that is sent to it; refused where there is
/// no peer.
#[tactic(auto, unfolding(crate::specs::Bridged::IsNextSent))]
fn next_sent(core: &CoreState, id: u64) -> Result<EndSeq, NoMemory>
    ensures { IfOk result (λ sent. IsNextSent sent core.now id) }
{
    let Some(end) = find_end(core.objects.as_slice(), id) else {
        return Err(NoMemory);
    };
    let Some(peer) = end.peer else {
        return Err(NoMemory);
    };
    let Some(other) = find_end(core.objects.as_slice(), peer) else {
        return Err(NoMemory);
    };
    Ok(EndSeq {
        end: ObjId(peer),
        seq: other.sent,
    })
}

/// A message without handles goes last into the peer's queue.
#[tactic(auto, unfolding(crate::specs::Bridged::sent_to))]
fn send_to(core: &mut CoreState, peer: u64, bytes: &Bytes) -> Result<(), NoMemory>
    ensures { OnOk result (core.new ≡ sent_to peer bytes.now core.old) }
{
    let parts = Items::new(core.objects.allocator());
    add_message(core, peer, bytes, &parts)
}

/// A message without handles is sent to the end's peer; where the end has no peer, want of memory is
/// the answer.
#[tactic(auto, using(crate::proofs::Pushing::sent_to_peer))]
pub fn push(core: &mut CoreState, id: u64, bytes: &Bytes) -> Result<EndSeq, NoMemory>
    requires { (ns_view core.old id).peer_full ≡ false }
    ensures { IfOk result (λ sent. ns_push core.old id bytes.now ≡ pushed sent core.new) }
{
    let sent = next_sent(core, id)?;
    send_to(core, sent.end.0, bytes)?;
    sweep_state(core)?;
    Ok(sent)
}

/// The number of the oldest filled message of an end that has one.
#[tactic(auto, using(crate::proofs::Filled::none_filled))]
fn first_seq(core: &CoreState, id: u64) -> u32
    requires { 0 < (ns_view core.now id).filled }
    ensures { option_map (λ message. message.seq) (filled_at core.now id) ≡ Some result }
{
    match first_filled(core, id) {
        Some(message) => message.seq,
        None => unreachable!(),
    }
}

/// The least id that no open message of the end has.
#[tactic(auto, using(crate::proofs::Filled::few_messages))]
fn next_id(core: &CoreState, id: u64) -> u32
    requires { All (λ object. IsBodyWithin object.body) core.now.objects }
    ensures { result ≡ id_at core.now id }
{
    match find_end(core.objects.as_slice(), id) {
        Some(end) => free_id(end.messages.as_slice()),
        None => 0,
    }
}

/// The oldest filled message is opened as by `get`, and goes as by `put`.
#[tactic(auto, unfolding(crate::specs::Bridged::first_retired))]
fn retire_first(core: &mut CoreState, id: u64)
    requires { All (λ object. IsBodyWithin object.body) core.old.objects }
    ensures { core.new ≡ first_retired id core.old }
{
    let peer = peer_of(core, id);
    let free = next_id(core, id);
    open_message(core, id, free);
    retire(core, id, free);
    unblock_peer(core, peer);
}

/// The oldest filled message is opened and retired.
#[tactic(auto, using(crate::proofs::Taking::taken_first, crate::proofs::NoMoreNames::fewer_taken))]
pub fn take(core: &mut CoreState, survey: &mut Survey, id: u64) -> EndSeq
    requires within { All (λ object. IsBodyWithin object.body) core.old.objects }
    requires filled { 0 < (ns_view core.old id).filled }
    requires room { length (naming core.old) ≤ survey.old.room }
    ensures core { ns_take core.old id ≡ taken result core.new }
    ensures names { survey.new.names ≡ naming core.new }
    ensures fits { length (naming core.new) ≤ survey.new.room }
    ensures room { survey.new.room ≡ survey.old.room }
{
    let seq = first_seq(core, id);
    retire_first(core, id);
    sweep_within(core, survey);
    EndSeq {
        end: ObjId(id),
        seq,
    }
}

fn mark_error(core: &mut CoreState, id: u64)
    ensures { core.new ≡ end_changed with_error id core.old }
{
    let place = place_of_object(core.objects.as_slice(), id);
    if let Some(object) = core.objects.get_mut(place) {
        if let Body::End(end) = &mut object.body {
            end.error = true;
        }
    }
}

fn peer_of(core: &CoreState, id: u64) -> Option<u64>
    ensures { result ≡ peer_of (end_of core.now.objects id) }
{
    match find_end(core.objects.as_slice(), id) {
        Some(end) => end.peer,
        None => None,
    }
}

/// Where the end is broken, its peer gets the error mark.
fn mark_if(core: &mut CoreState, id: u64, broken: bool)
    ensures { core.new ≡ marked_if broken id core.old }
{
    if broken {
        if let Some(peer) = peer_of(core, id) {
            mark_error(core, peer);
        }
    }
}

/// The numbers that are not the end's stay.
fn keep_others(bridged: &mut Items<u64>, end: u64)
    ensures { bridged.new ≡ filter (is_other end) bridged.old }
{
    bridged.retain(|other| *other != end);
}

/// The bridge names the end no more.
#[tactic(auto, unfolding(crate::specs::Bridged::is_other))]
fn unname(core: &mut CoreState, end: u64)
    ensures { core.new ≡ unbridged end core.old }
{
    keep_others(&mut core.bridged, end);
}

/// The bridge names the end no more; where it is broken, the peer gets the error mark.
#[tactic(auto, unfolding(kernel_types::specs::Bridge::ns_drop), using(crate::proofs::NoMoreNames::fewer_dropped))]
pub fn drop_end(core: &mut CoreState, survey: &mut Survey, id: u64, broken: bool)
    requires { length (naming core.old) ≤ survey.old.room }
    ensures core { core.new ≡ ns_drop broken id core.old }
    ensures names { survey.new.names ≡ naming core.new }
    ensures fits { length (naming core.new) ≤ survey.new.room }
    ensures room { survey.new.room ≡ survey.old.room }
{
    mark_if(core, id, broken);
    unname(core, id);
    sweep_within(core, survey);
}
