//! Events, and the entries of a history.

use crate::call::Call;
use crate::copied::Copied;
use crate::ids::{ActorId, ObjId};
use crate::items::NoMemory;
use crate::reply::Answer;

/// One step's cause.
#[derive(Debug, Drop)]
pub enum Event {
    /// An actor that runs, by the start `start`, makes a call.
    Begin {
        actor: ActorId,
        start: u32,
        call: Call,
    },
    /// An actor's wait ends.
    Resume {
        actor: ActorId,
        start: u32,
    },
    /// The device sends or takes one frame.
    Device,
    /// Nothing else can move: the clock does, or every wait is cancelled.
    Idle,
}

/// A message's number among those of one end's queue.
#[derive(Clone, Copy, PartialEq, Eq, Debug)]
pub struct EndSeq {
    pub end: ObjId,
    pub seq: u32,
}

/// Which messages a step sent, opened and retired.
#[derive(Clone, Copy, PartialEq, Eq, Debug)]
pub struct Seqs {
    pub sent: Option<EndSeq>,
    pub opened: Option<EndSeq>,
    pub retired: Option<EndSeq>,
}

/// One step of a history.
#[derive(Debug, Drop)]
pub struct Entry {
    pub event: Event,
    pub answer: Answer,
    pub seqs: Seqs,
}

/// What an actor does; `start` counts its application's starts, from 1.
#[derive(Clone, Copy, PartialEq, Eq, Debug)]
pub enum ActorStatus {
    /// It was never started.
    Off,
    Running { start: u32 },
    Waiting { start: u32 },
    Ended { start: u32 },
}

/// What is left at the end of a history: the clock in milliseconds, the number of objects, and the
/// number of entries that name one.
#[derive(Clone, Copy, PartialEq, Eq, Debug)]
pub struct EndFacts {
    pub clock: u64,
    pub objects: u64,
    pub names: u64,
}

impl Copied for Event {
    fn copied(&self) -> Result<Event, NoMemory> {
        Ok(match self {
            Event::Begin { actor, start, call } => Event::Begin {
                actor: *actor,
                start: *start,
                call: call.copied()?,
            },
            Event::Resume { actor, start } => Event::Resume {
                actor: *actor,
                start: *start,
            },
            Event::Device => Event::Device,
            Event::Idle => Event::Idle,
        })
    }
}

impl Copied for Entry {
    fn copied(&self) -> Result<Entry, NoMemory> {
        Ok(Entry {
            event: self.event.copied()?,
            answer: self.answer.copied()?,
            seqs: self.seqs,
        })
    }
}
