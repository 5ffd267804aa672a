//! What steps answer.

use crate::copied::Copied;
use crate::errno::Errno;
use crate::flags::Events;
use crate::ids::Handle;
use crate::items::{Bytes, Handles, NoMemory};

/// What a call or the end of a wait gives.
#[derive(Debug, Drop)]
pub enum Reply {
    Done,
    /// A number of the caller's table.
    Handle(Handle),
    /// The number of the new end, and the client's UUID (0 for the normal world).
    Accepted {
        handle: Handle,
        uuid: u128,
    },
    /// A number of bytes.
    Count(u32),
    /// The id of the message that was opened, its length in bytes and its number of handles.
    Message {
        id: u32,
        len: u32,
        parts: u32,
    },
    Bytes {
        bytes: Bytes,
        parts: Handles,
    },
    Event {
        handle: Handle,
        events: Events,
        cookie: u64,
    },
    /// The address of a connection of the normal world.
    Conn(u32),
}

/// What a step answers.
#[derive(Debug, Drop)]
pub enum Answer {
    /// The call waits; its answer comes with a later resume.
    Waits,
    Gives(Reply),
    Refuses(Errno),
    Device(DeviceReply),
    /// The clock moved to this time, in milliseconds.
    Clock(u64),
    /// Every wait was cancelled.
    CancelAll,
}

/// What one step of the device did.
#[derive(Debug, Drop)]
pub enum DeviceReply {
    SentOnline,
    SentRsp {
        target: u32,
        status: u32,
        remote: u32,
        size: u32,
        count: u32,
    },
    SentDisc {
        target: u32,
    },
    SentMessage {
        src: u32,
        dst: u32,
        len: u32,
    },
    TookReq {
        src: u32,
        path: Bytes,
    },
    TookDisc {
        src: u32,
        target: u32,
    },
    TookMessage {
        src: u32,
        dst: u32,
        len: u32,
    },
    Ignored(IgnoreCause),
    Broke {
        queue: u32,
        cause: BreakCause,
        place: u32,
    },
}

/// Why the device took a frame and did nothing with it.
#[derive(Clone, Copy, PartialEq, Eq, Debug)]
pub enum IgnoreCause {
    Short,
    Length,
    UnknownType,
    BodyLength,
    Name,
    NoEntry,
    NotServed,
    NotAnswered,
    PeerGone,
    TooBig,
}

/// Why the device broke.
#[derive(Clone, Copy, PartialEq, Eq, Debug)]
pub enum BreakCause {
    IndexJump,
    HeadOutOfRange,
    NextOutOfRange,
    TooLong,
    RangeOutside,
    WrongDirection,
    SmallBuffer,
}

impl Copied for Reply {
    fn copied(&self) -> Result<Reply, NoMemory> {
        Ok(match self {
            Reply::Done => Reply::Done,
            Reply::Handle(handle) => Reply::Handle(*handle),
            Reply::Accepted { handle, uuid } => Reply::Accepted {
                handle: *handle,
                uuid: *uuid,
            },
            Reply::Count(count) => Reply::Count(*count),
            Reply::Message { id, len, parts } => Reply::Message {
                id: *id,
                len: *len,
                parts: *parts,
            },
            Reply::Bytes { bytes, parts } => Reply::Bytes {
                bytes: bytes.copied()?,
                parts: parts.copied()?,
            },
            Reply::Event {
                handle,
                events,
                cookie,
            } => Reply::Event {
                handle: *handle,
                events: *events,
                cookie: *cookie,
            },
            Reply::Conn(address) => Reply::Conn(*address),
        })
    }
}

impl Copied for DeviceReply {
    fn copied(&self) -> Result<DeviceReply, NoMemory> {
        Ok(match self {
            DeviceReply::SentOnline => DeviceReply::SentOnline,
            DeviceReply::SentRsp {
                target,
                status,
                remote,
                size,
                count,
            } => DeviceReply::SentRsp {
                target: *target,
                status: *status,
                remote: *remote,
                size: *size,
                count: *count,
            },
            DeviceReply::SentDisc { target } => DeviceReply::SentDisc { target: *target },
            DeviceReply::SentMessage { src, dst, len } => DeviceReply::SentMessage {
                src: *src,
                dst: *dst,
                len: *len,
            },
            DeviceReply::TookReq { src, path } => DeviceReply::TookReq {
                src: *src,
                path: path.copied()?,
            },
            DeviceReply::TookDisc { src, target } => DeviceReply::TookDisc {
                src: *src,
                target: *target,
            },
            DeviceReply::TookMessage { src, dst, len } => DeviceReply::TookMessage {
                src: *src,
                dst: *dst,
                len: *len,
            },
            DeviceReply::Ignored(cause) => DeviceReply::Ignored(*cause),
            DeviceReply::Broke {
                queue,
                cause,
                place,
            } => DeviceReply::Broke {
                queue: *queue,
                cause: *cause,
                place: *place,
            },
        })
    }
}

impl Copied for Answer {
    fn copied(&self) -> Result<Answer, NoMemory> {
        Ok(match self {
            Answer::Waits => Answer::Waits,
            Answer::Gives(reply) => Answer::Gives(reply.copied()?),
            Answer::Refuses(errno) => Answer::Refuses(*errno),
            Answer::Device(reply) => Answer::Device(reply.copied()?),
            Answer::Clock(time) => Answer::Clock(*time),
            Answer::CancelAll => Answer::CancelAll,
        })
    }
}
