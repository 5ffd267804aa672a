//! Room for the copy of an answer, taken before the step that answers.

ghost use Rattle.std.specs.Prelude.{◌≡◌, ◌≤◌, [], length, vec_len, vec_capacity, IfOk};
ghost use Rattle.kernel_types.specs.Limits.{FitsIn, room_by, room_of_call};
ghost use Rattle.kernel_log.specs.Spares.{Holds};

use kernel_types::values::{Answer, Call, DeviceReply, Event, Items, NoMemory, Reply};
use std::alloc::Global;
use std::marker::Model;

/// Room for the bytes and the handles that the copy of an answer lists.
#[derive(Drop)]
pub struct Spare {
    bytes: Vec<u8>,
    handles: Vec<u32>,
}

impl Model for Spare {
    ghost use Rattle.std.specs.Prelude.{◌≡◌, [], vec_len, vec_capacity};
    ghost use Rattle.kernel_types.specs.Limits.{Room};

    ghost Value = { Room };

    ghost view = { λ s. record { bytes = vec_capacity s.bytes; handles = vec_capacity s.handles } };

    ghost invariant = { λ s. (s.bytes.items ≡ []) × (vec_len s.bytes ≡ 0) × (s.handles.items ≡ []) × (vec_len s.handles ≡ 0) };
}

// How many bytes and how many handles the answer of a call may list.
fn room_of_call(call: &Call) -> (usize, usize)
    ensures { record { bytes = result.0; handles = result.1 } ≡ room_of_call call.now }
{
    match call {
        Call::Read { .. } | Call::MemRead { .. } | Call::NsRecv { .. } => (65_536, 8),
        _ => (0, 0),
    }
}

// The same of the answer of an event; `of_client` says whether a client's wait ends.
fn room_by(event: &Event, of_client: bool) -> (usize, usize)
    ensures { record { bytes = result.0; handles = result.1 } ≡ room_by of_client event.now }
{
    match event {
        Event::Begin { call, .. } => room_of_call(call),
        Event::Resume { .. } if of_client => (65_536, 8),
        Event::Device => (63, 0),
        _ => (0, 0),
    }
}

impl Spare {
    /// Room for the copy of any answer that the event's step may give: 65,536 bytes and 8 handles for `read`, `mread` and
    /// `nrecv`, and for the end of a client's wait; 63 bytes, a path, for a step of the device; none for any other.
    pub fn for_step(alloc: Global, event: &Event, of_client: bool) -> Result<Spare, NoMemory>
        ensures { IfOk result (λ spare. Holds spare (room_by of_client event.now)) }
    {
        let (bytes, handles) = room_by(event, of_client);
        Ok(Spare {
            bytes: Vec::with_capacity(alloc, bytes)?,
            handles: Vec::with_capacity(alloc, handles)?,
        })
    }

    /// A copy of the answer, which takes no memory.
    pub fn copy(self, answer: &Answer) -> Answer
        requires { FitsIn self answer.now }
        ensures { result ≡ answer.now }
    {
        match answer {
            Answer::Waits => Answer::Waits,
            Answer::Gives(reply) => Answer::Gives(self.reply(reply)),
            Answer::Refuses(errno) => Answer::Refuses(*errno),
            Answer::Device(reply) => Answer::Device(self.device(reply)),
            Answer::Clock(time) => Answer::Clock(*time),
            Answer::CancelAll => Answer::CancelAll,
        }
    }

    fn reply(self, reply: &Reply) -> Reply
        requires { FitsIn self (Answer.Gives reply.now) }
        ensures { result ≡ reply.now }
    {
        match reply {
            Reply::Done => Reply::Done,
            Reply::Handle(handle) => Reply::Handle(*handle),
            Reply::Accepted { handle, uuid } => Reply::Accepted {
                handle: *handle,
                uuid: *uuid,
            },
            Reply::Count(count) => Reply::Count(*count),
            Reply::Message { id, len, parts } => Reply::Message {
                id: *id,
                len: *len,
                parts: *parts,
            },
            Reply::Bytes { bytes, parts } => Reply::Bytes {
                bytes: filled(self.bytes, bytes.as_slice()),
                parts: filled(self.handles, parts.as_slice()),
            },
            Reply::Event {
                handle,
                events,
                cookie,
            } => Reply::Event {
                handle: *handle,
                events: *events,
                cookie: *cookie,
            },
            Reply::Conn(address) => Reply::Conn(*address),
        }
    }

    fn device(self, reply: &DeviceReply) -> DeviceReply
        requires { FitsIn self (Answer.Device reply.now) }
        ensures { result ≡ reply.now }
    {
        match reply {
            DeviceReply::TookReq { src, path } => DeviceReply::TookReq {
                src: *src,
                path: filled(self.bytes, path.as_slice()),
            },
            DeviceReply::SentOnline => DeviceReply::SentOnline,
            DeviceReply::SentRsp {
                target,
                status,
                remote,
                size,
                count,
            } => DeviceReply::SentRsp {
                target: *target,
                status: *status,
                remote: *remote,
                size: *size,
                count: *count,
            },
            DeviceReply::SentDisc { target } => DeviceReply::SentDisc { target: *target },
            DeviceReply::SentMessage { src, dst, len } => DeviceReply::SentMessage {
                src: *src,
                dst: *dst,
                len: *len,
            },
            DeviceReply::TookDisc { src, target } => DeviceReply::TookDisc {
                src: *src,
                target: *target,
            },
            DeviceReply::TookMessage { src, dst, len } => DeviceReply::TookMessage {
                src: *src,
                dst: *dst,
                len: *len,
            },
            DeviceReply::Ignored(cause) => DeviceReply::Ignored(*cause),
            DeviceReply::Broke {
                queue,
                cause,
                place,
            } => DeviceReply::Broke {
                queue: *queue,
                cause: *cause,
                place: *place,
            },
        }
    }
}

// The items in a vector that was made with room for them.
fn filled<T: Copy>(mut vec: Vec<T>, items: &[T]) -> Items<T>
    requires empty { vec.items ≡ [] }
    requires len { vec_len vec ≡ 0 }
    requires room { length items.now ≤ vec_capacity vec }
    ensures { result ≡ items.now }
{
    let _ = vec.extend_from_slice(items);
    Items::from_vec(vec)
}
