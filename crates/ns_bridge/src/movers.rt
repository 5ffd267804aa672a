//! Whose an event is: the threads have the first numbers, then come the clients.

ghost use Rattle.ns_bridge.specs.Kinds.{IsOf};

use kernel_values::Event;

/// Whose an event is.
#[derive(Clone, Copy)]
pub enum Mover {
    Thread,
    /// The client with this number among the clients.
    Client(u32),
    Device,
    Idle,
}

/// Whose the event is where there are so many threads.
pub fn mover_of(event: &Event, threads: u32) -> Mover
    ensures { IsOf result threads event.now }
{
    match event {
        Event::Begin {
            actor,
            start: _,
            call: _,
        } => {
            if actor.0 < threads {
                Mover::Thread
            } else {
                Mover::Client(actor.0 - threads)
            }
        }
        Event::Resume { actor, start: _ } => {
            if actor.0 < threads {
                Mover::Thread
            } else {
                Mover::Client(actor.0 - threads)
            }
        }
        Event::Device => Mover::Device,
        Event::Idle => Mover::Idle,
    }
}
