//! A kernel that is asked for one step after the other, each with the answer that it is to give.

use kernel_types::values::{
    ActorId, Answer, Bytes, Call, DeviceReply, Event, Items, NoMemory, Reply,
};
use kernel_types::{IpcKernel, StepCause};
use std::alloc::Global;

fn same_reply(said: &Reply, wanted: &Reply) -> bool {
    match (said, wanted) {
        (Reply::Done, Reply::Done) => true,
        (Reply::Handle(a), Reply::Handle(b)) => *a == *b,
        (Reply::Count(a), Reply::Count(b)) => *a == *b,
        (Reply::Conn(a), Reply::Conn(b)) => *a == *b,
        (Reply::Accepted { handle, uuid }, Reply::Accepted { handle: a, uuid: b }) => {
            *handle == *a && *uuid == *b
        }
        (
            Reply::Message { id, len, parts },
            Reply::Message {
                id: a,
                len: b,
                parts: c,
            },
        ) => *id == *a && *len == *b && *parts == *c,
        (Reply::Bytes { bytes, parts }, Reply::Bytes { bytes: a, parts: b }) => {
            bytes.as_slice() == a.as_slice() && parts.as_slice() == b.as_slice()
        }
        (
            Reply::Event {
                handle,
                events,
                cookie,
            },
            Reply::Event {
                handle: a,
                events: b,
                cookie: c,
            },
        ) => *handle == *a && *events == *b && *cookie == *c,
        _ => false,
    }
}

fn same_sent(said: &DeviceReply, wanted: &DeviceReply) -> bool {
    match (said, wanted) {
        (DeviceReply::SentOnline, DeviceReply::SentOnline) => true,
        (
            DeviceReply::SentRsp {
                target,
                status,
                remote,
                size,
                count,
            },
            DeviceReply::SentRsp {
                target: a,
                status: b,
                remote: c,
                size: d,
                count: e,
            },
        ) => *target == *a && *status == *b && *remote == *c && *size == *d && *count == *e,
        (
            DeviceReply::SentMessage { src, dst, len },
            DeviceReply::SentMessage {
                src: a,
                dst: b,
                len: c,
            },
        ) => *src == *a && *dst == *b && *len == *c,
        _ => false,
    }
}

fn same_taken(said: &DeviceReply, wanted: &DeviceReply) -> bool {
    match (said, wanted) {
        (DeviceReply::TookReq { src, path }, DeviceReply::TookReq { src: a, path: b }) => {
            *src == *a && path.as_slice() == b.as_slice()
        }
        (DeviceReply::TookDisc { src, target }, DeviceReply::TookDisc { src: a, target: b }) => {
            *src == *a && *target == *b
        }
        (
            DeviceReply::TookMessage { src, dst, len },
            DeviceReply::TookMessage {
                src: a,
                dst: b,
                len: c,
            },
        ) => *src == *a && *dst == *b && *len == *c,
        _ => false,
    }
}

fn same_answer(said: &Answer, wanted: &Answer) -> bool {
    match (said, wanted) {
        (Answer::Waits, Answer::Waits) => true,
        (Answer::Gives(a), Answer::Gives(b)) => same_reply(a, b),
        (Answer::Refuses(a), Answer::Refuses(b)) => *a == *b,
        (Answer::Device(a), Answer::Device(b)) => same_sent(a, b) || same_taken(a, b),
        _ => false,
    }
}

/// These bytes as a list.
pub fn text(alloc: Global, bytes: &[u8]) -> Result<Bytes, NoMemory> {
    Items::from_slice(alloc, bytes)
}

/// A kernel, the number of steps that it was asked for, and the place of the first that it refused or answered otherwise
/// than it should.
#[derive(Drop)]
pub struct Play<K: IpcKernel + Drop> {
    pub kernel: K,
    place: u32,
    pub other: Option<u32>,
}

impl<K: IpcKernel + Drop> Play<K> {
    /// No step was asked for yet.
    pub fn new(kernel: K) -> Self {
        Play {
            kernel,
            place: 0,
            other: None,
        }
    }

    /// Counts one step more, which came to what it should, or not.
    pub fn note(&mut self, is_as_wanted: bool) {
        if !is_as_wanted && self.other.is_none() {
            self.other = Some(self.place);
        }
        self.place = self.place.saturating_add(1);
    }

    /// The kernel makes the step, and answers this.
    pub fn step(&mut self, event: Event, wanted: &Answer) {
        let is_as_wanted = match self.kernel.step(event) {
            Ok(entry) => {
                let is_same = same_answer(&entry.answer, wanted);
                drop(entry);
                is_same
            }
            Err(refused) => {
                drop(refused);
                false
            }
        };
        self.note(is_as_wanted);
    }

    /// An actor of its first start makes a call, and is answered this.
    pub fn call(&mut self, actor: u32, call: Call, wanted: Answer) {
        let event = Event::Begin {
            actor: ActorId(actor),
            start: 1,
            call,
        };
        self.step(event, &wanted);
    }

    /// An actor's wait ends with this.
    pub fn resume(&mut self, actor: u32, wanted: Answer) {
        let event = Event::Resume {
            actor: ActorId(actor),
            start: 1,
        };
        self.step(event, &wanted);
    }

    /// The device does this.
    pub fn device(&mut self, wanted: DeviceReply) {
        self.step(Event::Device, &Answer::Device(wanted));
    }

    /// The kernel refuses the event for what it is.
    pub fn refuses(&mut self, event: Event) {
        let is_as_wanted = match self.kernel.step(event) {
            Ok(entry) => {
                drop(entry);
                false
            }
            Err(refused) => {
                let is_unlawful = matches!(refused.cause, StepCause::NotMovable(_));
                drop(refused);
                is_unlawful
            }
        };
        self.note(is_as_wanted);
    }
}
