//! What a wait would report now, and the state after the report.

ghost use Rattle.std.specs.Prelude.{◌≡◌};
ghost use Rattle.std.specs.List.{find};
ghost use Rattle.std.specs.Option.{is_some};
ghost use Rattle.kernel_types.specs.Events.{events_of, is_ready_member};
ghost use Rattle.kernel_types.specs.Objects.{set_of};
ghost use Rattle.kernel_types.specs.Reports.{any_report, cleared, member_report, plain_report, report_of, set_or_plain_report};
ghost use Rattle.core_changes.specs.Looks.{members_in};
ghost use Rattle.core_waits.specs.Reported.{kept_if, reply_of, reported_if};

use core_changes::CoreChanges;
use core_changes::core_changes::Mark;
use kernel_values::{Events, Reply, WaitOn};

/// An event with the number and the cookie under which it is reported.
#[derive(Clone, Copy, PartialEq, Eq, Debug)]
pub struct Report {
    pub handle: u32,
    pub events: u32,
    pub cookie: u64,
}

/// The answer to a wait.
pub fn event_reply(report: Report) -> Reply
    ensures { result ≡ reply_of report }
{
    Reply::Event {
        handle: report.handle,
        events: Events(report.events),
        cookie: report.cookie,
    }
}

/// READY of an end and SEND_UNBLOCKED are reported once.
fn clear<C: CoreChanges>(core: &mut C, events: u32, id: u64)
    ensures { C.state core.new ≡ cleared events id (C.state core.old) }
{
    core.mark_end(id, Mark::Reported(Events(events)));
}

/// The first ready member of a set, which goes last.
fn report_member<C: CoreChanges>(core: &mut C, id: u64) -> Option<Report>
    ensures told { reported_if result (C.state core.new) ≡ member_report (C.state core.old) id (find (is_ready_member (events_of (C.state core.old).objects)) (members_in (set_of (C.state core.old).objects id))) }
    ensures kept { kept_if result (C.state core.old) (C.state core.new) }
{
    let Some(member) = core.ready_member(id) else {
        return None;
    };
    let events = core.events(member.object) & member.mask.0;
    core.put_last(id, member);
    clear(core, events, member.object);
    Some(Report {
        handle: member.label,
        events,
        cookie: member.cookie,
    })
}

fn report_plain<C: CoreChanges>(core: &mut C, id: u64, handle: u32, cookie: u64) -> Option<Report>
    ensures told { reported_if result (C.state core.new) ≡ plain_report (C.state core.old) id handle cookie (events_of (C.state core.old).objects id) }
    ensures kept { kept_if result (C.state core.old) (C.state core.new) }
{
    let events = core.events(id);
    if events == 0 {
        return None;
    }
    clear(core, events, id);
    Some(Report {
        handle,
        events,
        cookie,
    })
}

fn report_object<C: CoreChanges>(core: &mut C, id: u64, handle: u32, cookie: u64) -> Option<Report>
    ensures told { reported_if result (C.state core.new) ≡ set_or_plain_report (C.state core.old) id handle cookie (set_of (C.state core.old).objects id) }
    ensures kept { kept_if result (C.state core.old) (C.state core.new) }
{
    match core.member_count(id) {
        Some(_) => report_member(core, id),
        None => report_plain(core, id, handle, cookie),
    }
}

fn report_any<C: CoreChanges>(core: &mut C, app: u32) -> Option<Report>
    ensures told { reported_if result (C.state core.new) ≡ any_report (C.state core.old) app }
    ensures kept { kept_if result (C.state core.old) (C.state core.new) }
{
    let Some(entry) = core.entry_in_turn(app) else {
        return None;
    };
    let events = core.events(entry.object);
    clear(core, events, entry.object);
    core.set_last(app, entry.handle);
    Some(Report {
        handle: entry.handle,
        events,
        cookie: entry.cookie,
    })
}

/// Reports what a wait of a thread of `app` is for, where it is pending.
#[tactic(auto, unfolding(kernel_types::specs::Reports::report_of))]
pub fn take_report<C: CoreChanges>(core: &mut C, app: u32, on: WaitOn) -> Option<Report>
    ensures told { reported_if result (C.state core.new) ≡ report_of (C.state core.old) app on }
    ensures kept { kept_if result (C.state core.old) (C.state core.new) }
{
    match on {
        WaitOn::Object {
            object,
            handle,
            cookie,
        } => report_object(core, object, handle, cookie),
        WaitOn::Connect { end: _, handle: _ } => None,
        WaitOn::Any => report_any(core, app),
    }
}

fn has_object_report<C: CoreChanges>(core: &C, id: u64, handle: u32, cookie: u64) -> bool
    ensures { result ≡ is_some (set_or_plain_report (C.state core.now) id handle cookie (set_of (C.state core.now).objects id)) }
{
    match core.member_count(id) {
        Some(_) => core.ready_member(id).is_some(),
        None => core.events(id) != 0,
    }
}

fn has_any_report<C: CoreChanges>(core: &C, app: u32) -> bool
    ensures { result ≡ is_some (any_report (C.state core.now) app) }
{
    core.entry_in_turn(app).is_some()
}

/// Whether what the wait is for is pending.
#[tactic(auto, unfolding(kernel_types::specs::Reports::report_of))]
pub fn has_report<C: CoreChanges>(core: &C, app: u32, on: WaitOn) -> bool
    ensures { result ≡ is_some (report_of (C.state core.now) app on) }
{
    match on {
        WaitOn::Object {
            object,
            handle,
            cookie,
        } => has_object_report(core, object, handle, cookie),
        WaitOn::Connect { end: _, handle: _ } => false,
        WaitOn::Any => has_any_report(core, app),
    }
}
