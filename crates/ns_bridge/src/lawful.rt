//! Whether an event is lawful, by the kind of call and by what its actor does.

ghost use Rattle.std.specs.Prelude.{◌≡◌};
ghost use Rattle.ns_bridge.specs.Lawful.{is_running_as, is_waiting_as, makes};
ghost use Rattle.ns_bridge.specs.Timely.{IsShort, IsShortCall, IsShortEvent};

use kernel_values::{ActorStatus, Call, Event, Timeout};

/// Whether a thread, or else a client, makes the call.
pub fn makes(of_thread: bool, call: &Call) -> bool
    ensures { result ≡ makes of_thread call.now }
{
    if of_thread {
        call.kind().is_of_thread()
    } else {
        call.kind().is_of_client()
    }
}

/// Whether an actor runs by this start.
pub fn is_running_as(start: u32, status: Option<ActorStatus>) -> bool
    ensures { result ≡ is_running_as start status }
{
    match status {
        Some(ActorStatus::Running { start: running }) => running == start,
        _ => false,
    }
}

/// Whether an actor waits by this start.
pub fn is_waiting_as(start: u32, status: Option<ActorStatus>) -> bool
    ensures { result ≡ is_waiting_as start status }
{
    match status {
        Some(ActorStatus::Waiting { start: waiting }) => waiting == start,
        _ => false,
    }
}

fn is_short(timeout: &Timeout)
    ensures { IsShort timeout.now }
{
    match timeout {
        Timeout::Forever => {}
        Timeout::Millis(millis) => {
            let _millis = *millis;
        }
    }
}

fn is_short_in(call: &Call)
    ensures { IsShortCall call.now }
{
    match call {
        Call::Wait { handle: _, timeout } => is_short(timeout),
        Call::WaitAny { timeout } => is_short(timeout),
        Call::NsRecv { conn: _, timeout } => is_short(timeout),
        _ => {}
    }
}

/// The milliseconds of a timeout are a number of 32 bits.
pub fn has_short_timeout(event: &Event)
    ensures { IsShortEvent event.now }
{
    match event {
        Event::Begin {
            actor: _,
            start: _,
            call,
        } => is_short_in(call),
        _ => {}
    }
}
