//! What becomes of the objects that nothing reaches.

ghost use Rattle.std.specs.Prelude.{◌≡◌, ◌≤◌, [], map, length, OnOk};
ghost use Rattle.kernel_types.specs.Names.{naming};
ghost use Rattle.kernel_types.specs.Sweep.{is_live, is_marked, pruned_port, pruned, cut_end, kept, sweep};
ghost use Rattle.plain_objects.specs.Predicates.{is_served, is_kept};
ghost use Rattle.std.specs.List.{filter};
ghost use Rattle.kernel_types.specs.Objects.{map_at, on_body, on_port, on_end};
ghost use Rattle.plain_objects.specs.Pending.{pending_at, with_pending};

use crate::objects::find_end;
use crate::reach::is_in;
use crate::survey::Survey;
use kernel_values::{Body, CoreState, EndState, Items, NoMemory, Object};
use std::mem;

fn is_live(state: EndState) -> bool
    ensures { result ≡ is_live state }
{
    match state {
        EndState::Connecting | EndState::Connected => true,
        EndState::Waiting | EndState::Disconnected => false,
    }
}

fn is_marked(marked: &[u64], object: Option<u64>) -> bool
    ensures { result ≡ is_marked marked.now object }
{
    match object {
        Some(id) => is_in(marked, id),
        None => false,
    }
}

/// Whether the peer of a pending server end is marked.
#[tactic(auto, unfolding(crate::specs::Predicates::is_served))]
fn is_served(marked: &[u64], objects: &[Object], server: u64) -> bool
    ensures { result ≡ is_served marked.now objects.now server }
{
    match find_end(objects, server) {
        Some(end) => is_marked(marked, end.peer),
        None => false,
    }
}

/// The pending server ends stay whose client ends are marked.
fn keep_served(marked: &[u64], objects: &[Object], pending: &mut Items<u64>)
    ensures { pending.new ≡ filter (is_served marked.now objects.now) pending.old }
{
    pending.retain(|server| is_served(marked, objects, *server));
}

/// What is pending at the port of this place is taken out; nothing where there is no port.
fn take_pending(objects: &mut Items<Object>, at: usize) -> Items<u64>
    ensures pending { result ≡ pending_at objects.old at }
    ensures objects { objects.new ≡ with_pending [] objects.old at }
{
    let mut pending = Items::new(objects.allocator());
    if let Some(object) = objects.get_mut(at) {
        if let Body::Port(port) = &mut object.body {
            mem::swap(&mut port.pending, &mut pending);
        }
    }
    pending
}

fn put_pending(objects: &mut Items<Object>, at: usize, pending: Items<u64>)
    ensures { objects.new ≡ with_pending pending objects.old at }
{
    if let Some(object) = objects.get_mut(at) {
        if let Body::Port(port) = &mut object.body {
            port.pending = pending;
        }
    }
}

/// At the port of this place, the pending server ends stay whose client ends are marked.
fn prune_at(marked: &[u64], objects: &mut Items<Object>, at: usize)
    ensures { objects.new ≡ map_at (on_body (on_port (pruned_port marked.now objects.old))) objects.old at }
{
    let mut pending = take_pending(objects, at);
    keep_served(marked, objects.as_slice(), &mut pending);
    put_pending(objects, at, pending);
}

#[tactic(auto, using(crate::proofs::Changing::mapped_whole))]
fn prune_all(marked: &[u64], objects: &mut Items<Object>)
    ensures { objects.new ≡ map (on_body (on_port (pruned_port marked.now objects.old))) objects.old }
{
    for at in 0..objects.len() {
        prune_at(marked, objects, at);
    }
}

#[tactic(auto, unfolding(kernel_types::specs::Sweep::pruned))]
fn prune(core: &mut CoreState, marked: &[u64])
    ensures { core.new ≡ pruned marked.now core.old }
{
    prune_all(marked, &mut core.objects);
}

/// The end at this place, where it is live and its peer is not marked, becomes Disconnected.
fn cut_at(marked: &[u64], objects: &mut Items<Object>, at: usize)
    ensures { objects.new ≡ map_at (on_body (on_end (cut_end marked.now))) objects.old at }
{
    if let Some(object) = objects.get_mut(at) {
        if let Body::End(end) = &mut object.body {
            if is_live(end.state) && !is_marked(marked, end.peer) {
                end.state = EndState::Disconnected;
            }
        }
    }
}

#[tactic(auto, using(crate::proofs::Changing::mapped_next, crate::proofs::Changing::mapped_whole))]
fn cut_all(marked: &[u64], objects: &mut Items<Object>)
    ensures { objects.new ≡ map (on_body (on_end (cut_end marked.now))) objects.old }
{
    for at in 0..objects.len() {
        cut_at(marked, objects, at);
    }
}

/// The marked objects stay.
#[tactic(auto, unfolding(crate::specs::Predicates::is_kept))]
fn keep_marked(marked: &[u64], objects: &mut Items<Object>)
    ensures { objects.new ≡ filter (is_kept marked.now) objects.old }
{
    objects.retain(|object| is_in(marked, object.id));
}

#[tactic(auto, unfolding(kernel_types::specs::Sweep::kept, crate::specs::Predicates::is_kept))]
fn keep(core: &mut CoreState, marked: &[u64])
    ensures { core.new ≡ kept marked.now core.old }
{
    keep_marked(marked, &mut core.objects);
    cut_all(marked, &mut core.objects);
}

/// Ends what nothing reaches, as every step does at its end. The state has no more entries than the
/// survey has room for; it lists those that are left.
#[tactic(auto, unfolding(kernel_types::specs::Sweep::sweep), using(crate::proofs::Fewer::fewer_pruned, crate::proofs::Fewer::fewer_kept))]
pub fn sweep_within(core: &mut CoreState, survey: &mut Survey)
    requires { length (naming core.old) ≤ survey.old.room }
    ensures core { core.new ≡ sweep core.old }
    ensures names { survey.new.names ≡ naming core.new }
    ensures fits { length (naming core.new) ≤ survey.new.room }
    ensures room { survey.new.room ≡ survey.old.room }
{
    survey.list(core);
    survey.mark();
    prune(core, survey.marked());
    survey.list(core);
    survey.mark();
    keep(core, survey.marked());
    survey.list(core);
}

/// The same with a survey of its own.
pub fn sweep_state(core: &mut CoreState) -> Result<(), NoMemory>
    ensures { OnOk result (core.new ≡ sweep core.old) }
{
    let mut survey = Survey::of(core)?;
    sweep_within(core, &mut survey);
    Ok(())
}
