//! What a wait would report now, and the state after the report.

ghost use Rattle.std.specs.Prelude.{◌≡◌, IfOk, not, ◌==◌, OnOk, slice_get};
ghost use Rattle.plain_waits.specs.Reported.{reply_of, reported_if, kept_if};
ghost use Rattle.kernel_types.specs.Events.{has_event, masked_events, events_of, is_ready_member};
ghost use Rattle.kernel_types.specs.Reports.{reported_end, cleared, with_last, member_report, plain_report, set_or_plain_report, last_of, has_events, with_last_reported, any_report, report_of};
ghost use Rattle.std.specs.List.{find, filter};
ghost use Rattle.kernel_types.specs.Objects.{set_changed, set_of};
ghost use Rattle.plain_objects.specs.Predicates.{is_later_entry, is_earlier_entry, entry_in_turn};
ghost use Rattle.std.specs.Option.{is_some};

use crate::events::events_of;
use kernel_values::{
    Body, ChannelEnd, CoreState, Events, HandleSet, Items, Member, NoMemory, Object, Reply,
    TableEntry, WaitOn,
};
use plain_objects::objects::{find_set, place_of_object};
use plain_objects::tables::table_of;
use std::alloc::Global;

/// An event with the number and the cookie under which it is reported.
#[derive(Clone, Copy, PartialEq, Eq, Debug)]
pub struct Report {
    pub handle: u32,
    pub events: u32,
    pub cookie: u64,
}

/// The answer to a wait.
pub fn event_reply(report: Report) -> Reply
    ensures { result ≡ reply_of report }
{
    Reply::Event {
        handle: report.handle,
        events: Events(report.events),
        cookie: report.cookie,
    }
}

fn has_event(events: u32, event: u32) -> bool
    ensures { result ≡ has_event events event }
{
    events & event != 0
}

fn clear_end(end: &mut ChannelEnd, events: u32)
    ensures { end.new ≡ reported_end events end.old }
{
    end.ready = end.ready && !has_event(events, 1);
    end.unblocked = end.unblocked && !has_event(events, 16);
}

/// READY of an end and SEND_UNBLOCKED are reported once.
fn clear(core: &mut CoreState, events: u32, id: u64)
    ensures { core.new ≡ cleared events id core.old }
{
    let place = place_of_object(core.objects.as_slice(), id);
    if let Some(object) = core.objects.get_mut(place) {
        if let Body::End(end) = &mut object.body {
            clear_end(end, events);
        }
    }
}

/// The events of a member's mask that its object has.
fn masked_events(objects: &[Object], member: &Member) -> u32
    ensures { result ≡ masked_events (events_of objects.now) member.now }
{
    events_of(objects, member.object) & member.mask.0
}

/// The first member that has an event of its mask.
fn find_ready_member(objects: &[Object], members: &[Member]) -> Option<Member>
    ensures { result ≡ find (is_ready_member (events_of objects.now)) members.now }
{
    for member in members {
        if masked_events(objects, member) != 0 {
            return Some(*member);
        }
    }
    None
}

/// The members with other labels.
fn others_than(alloc: Global, members: &[Member], label: u32) -> Result<Items<Member>, NoMemory>
    ensures { IfOk result (λ others. others ≡ filter (λ other. not (other.label == label)) members.now) }
{
    let mut others = Items::new(alloc);
    for member in members {
        if member.label != label {
            others.push(*member)?;
        }
    }
    Ok(others)
}

fn put_last(set: &mut HandleSet, member: Member) -> Result<(), NoMemory>
    ensures { OnOk result (set.new ≡ with_last member set.old) }
{
    let mut others = others_than(
        set.members.allocator(),
        set.members.as_slice(),
        member.label,
    )?;
    others.push(member)?;
    set.members = others;
    Ok(())
}

/// The reported member goes last in its set.
fn move_last(core: &mut CoreState, id: u64, member: Member) -> Result<(), NoMemory>
    ensures { OnOk result (core.new ≡ set_changed (with_last member) id core.old) }
{
    let place = place_of_object(core.objects.as_slice(), id);
    if let Some(object) = core.objects.get_mut(place) {
        if let Body::Set(set) = &mut object.body {
            put_last(set, member)?;
        }
    }
    Ok(())
}

fn report_member(
    core: &mut CoreState,
    id: u64,
    member: Option<Member>,
) -> Result<Option<Report>, NoMemory>
    ensures told { IfOk result (λ report. reported_if report core.new ≡ member_report core.old id member) }
    ensures kept { IfOk result (λ report. kept_if report core.old core.new) }
{
    let Some(member) = member else {
        return Ok(None);
    };
    let events = masked_events(core.objects.as_slice(), &member);
    move_last(core, id, member)?;
    clear(core, events, member.object);
    Ok(Some(Report {
        handle: member.label,
        events,
        cookie: member.cookie,
    }))
}

fn report_plain(
    core: &mut CoreState,
    id: u64,
    handle: u32,
    cookie: u64,
    events: u32,
) -> Option<Report>
    ensures told { reported_if result core.new ≡ plain_report core.old id handle cookie events }
    ensures kept { kept_if result core.old core.new }
{
    if events == 0 {
        return None;
    }
    clear(core, events, id);
    Some(Report {
        handle,
        events,
        cookie,
    })
}

fn report_object(
    core: &mut CoreState,
    id: u64,
    handle: u32,
    cookie: u64,
) -> Result<Option<Report>, NoMemory>
    ensures told { IfOk result (λ report. reported_if report core.new ≡ set_or_plain_report core.old id handle cookie (set_of core.old.objects id)) }
    ensures kept { IfOk result (λ report. kept_if report core.old core.new) }
{
    match find_set(core.objects.as_slice(), id) {
        Some(set) => {
            let member = find_ready_member(core.objects.as_slice(), set.members.as_slice());
            report_member(core, id, member)
        }
        None => {
            let events = events_of(core.objects.as_slice(), id);
            Ok(report_plain(core, id, handle, cookie, events))
        }
    }
}

/// The number that the application's last `waitany` reported.
fn last_of(core: &CoreState, app: u32) -> Option<u32>
    ensures { result ≡ last_of (slice_get core.now.apps app) }
{
    match core.apps.get(app as usize) {
        Some(application) => application.last,
        None => None,
    }
}

/// Whether the entry comes after the number last reported.
#[tactic(auto, unfolding(plain_objects::specs::Predicates::is_later_entry))]
fn is_later_entry(last: Option<u32>, entry: &TableEntry) -> bool
    ensures { result ≡ is_later_entry last entry.now }
{
    match last {
        Some(last) => last < entry.handle,
        None => true,
    }
}

#[tactic(auto, unfolding(plain_objects::specs::Predicates::is_later_entry, plain_objects::specs::Predicates::is_earlier_entry))]
fn is_earlier_entry(last: Option<u32>, entry: &TableEntry) -> bool
    ensures { result ≡ is_earlier_entry last entry.now }
{
    !is_later_entry(last, entry)
}

/// The first entry with an event after the number last reported.
fn find_later(objects: &[Object], table: &[TableEntry], last: Option<u32>) -> Option<TableEntry>
    ensures { result ≡ find (has_events objects.now) (filter (is_later_entry last) table.now) }
{
    for entry in table {
        if is_later_entry(last, entry) {
            if events_of(objects, entry.object) != 0 {
                return Some(*entry);
            }
        }
    }
    None
}

/// The first entry with an event up to the number last reported.
fn find_earlier(objects: &[Object], table: &[TableEntry], last: Option<u32>) -> Option<TableEntry>
    ensures { result ≡ find (has_events objects.now) (filter (is_earlier_entry last) table.now) }
{
    for entry in table {
        if is_earlier_entry(last, entry) {
            if events_of(objects, entry.object) != 0 {
                return Some(*entry);
            }
        }
    }
    None
}

/// The entry that a `waitany` would report.
#[tactic(auto, using(crate::proofs::Waiting::first_in_turn), unfolding(plain_objects::specs::Predicates::entry_in_turn))]
fn find_entry_in_turn(core: &CoreState, app: u32) -> Option<TableEntry>
    ensures { result ≡ entry_in_turn core.now app }
{
    let last = last_of(core, app);
    let table = table_of(core, app);
    let later = find_later(core.objects.as_slice(), table, last);
    later.or(find_earlier(core.objects.as_slice(), table, last))
}

fn set_last(core: &mut CoreState, app: u32, handle: u32)
    ensures { core.new ≡ with_last_reported app handle core.old }
{
    if let Some(application) = core.apps.get_mut(app as usize) {
        application.last = Some(handle);
    }
}

#[tactic(auto, unfolding(plain_objects::specs::Predicates::entry_in_turn))]
fn report_any(core: &mut CoreState, app: u32) -> Option<Report>
    ensures told { reported_if result core.new ≡ any_report core.old app }
    ensures kept { kept_if result core.old core.new }
{
    let Some(entry) = find_entry_in_turn(core, app) else {
        return None;
    };
    let events = events_of(core.objects.as_slice(), entry.object);
    clear(core, events, entry.object);
    set_last(core, app, entry.handle);
    Some(Report {
        handle: entry.handle,
        events,
        cookie: entry.cookie,
    })
}

/// Reports what a wait of a thread of `app` is for, where it is pending.
#[tactic(auto, unfolding(kernel_types::specs::Reports::report_of))]
pub fn take_report(core: &mut CoreState, app: u32, on: WaitOn) -> Result<Option<Report>, NoMemory>
    ensures told { IfOk result (λ report. reported_if report core.new ≡ report_of core.old app on) }
    ensures kept { IfOk result (λ report. kept_if report core.old core.new) }
{
    match on {
        WaitOn::Object {
            object,
            handle,
            cookie,
        } => report_object(core, object, handle, cookie),
        WaitOn::Connect { end: _, handle: _ } => Ok(None),
        WaitOn::Any => Ok(report_any(core, app)),
    }
}

fn has_object_report(core: &CoreState, id: u64, handle: u32, cookie: u64) -> bool
    ensures { result ≡ is_some (set_or_plain_report core.now id handle cookie (set_of core.now.objects id)) }
{
    match find_set(core.objects.as_slice(), id) {
        Some(set) => match find_ready_member(core.objects.as_slice(), set.members.as_slice()) {
            Some(_) => true,
            None => false,
        },
        None => {
            if events_of(core.objects.as_slice(), id) == 0 {
                false
            } else {
                true
            }
        }
    }
}

#[tactic(auto, unfolding(plain_objects::specs::Predicates::entry_in_turn))]
fn has_any_report(core: &CoreState, app: u32) -> bool
    ensures { result ≡ is_some (any_report core.now app) }
{
    match find_entry_in_turn(core, app) {
        Some(_) => true,
        None => false,
    }
}

/// Whether what the wait is for is pending.
#[tactic(auto, unfolding(kernel_types::specs::Reports::report_of))]
pub fn has_report(core: &CoreState, app: u32, on: WaitOn) -> bool
    ensures { result ≡ is_some (report_of core.now app on) }
{
    match on {
        WaitOn::Object {
            object,
            handle,
            cookie,
        } => has_object_report(core, object, handle, cookie),
        WaitOn::Connect { end: _, handle: _ } => false,
        WaitOn::Any => has_any_report(core, app),
    }
}
