//! The words of an answer.

ghost use Rattle.std.specs.Prelude.{◌≡◌, ◌++◌, OnOk};
ghost use Rattle.report_text.specs.Lines.{spelled};
ghost use Rattle.report_text.specs.Answers.{errno_word, ignored_word, broken_word, reply_words, device_words, answer_words};

use crate::line::Line;
use kernel_types::values::{Answer, BreakCause, DeviceReply, Errno, IgnoreCause, NoMemory, Reply};

fn errno_word(errno: Errno) -> &'static str
    ensures { result.now ≡ errno_word errno }
{
    match errno {
        Errno::BadHandle => "BAD_HANDLE",
        Errno::InvalidArgs => "INVALID_ARGS",
        Errno::NotFound => "NOT_FOUND",
        Errno::AccessDenied => "ACCESS_DENIED",
        Errno::AlreadyExists => "ALREADY_EXISTS",
        Errno::NoResources => "NO_RESOURCES",
        Errno::NoMsg => "NO_MSG",
        Errno::NotReady => "NOT_READY",
        Errno::ChannelClosed => "CHANNEL_CLOSED",
        Errno::TooBig => "TOO_BIG",
        Errno::NotEnoughBuffer => "NOT_ENOUGH_BUFFER",
        Errno::NotSupported => "NOT_SUPPORTED",
        Errno::RecurseTooDeep => "RECURSE_TOO_DEEP",
        Errno::TimedOut => "TIMED_OUT",
        Errno::Cancelled => "CANCELLED",
    }
}

fn ignored_word(cause: IgnoreCause) -> &'static str
    ensures { result.now ≡ ignored_word cause }
{
    match cause {
        IgnoreCause::Short => "short",
        IgnoreCause::Length => "length",
        IgnoreCause::UnknownType => "unknown_type",
        IgnoreCause::BodyLength => "body_length",
        IgnoreCause::Name => "name",
        IgnoreCause::NoEntry => "no_entry",
        IgnoreCause::NotServed => "not_served",
        IgnoreCause::NotAnswered => "not_answered",
        IgnoreCause::PeerGone => "peer_gone",
        IgnoreCause::TooBig => "too_big",
    }
}

fn broken_word(cause: BreakCause) -> &'static str
    ensures { result.now ≡ broken_word cause }
{
    match cause {
        BreakCause::IndexJump => "index_jump",
        BreakCause::HeadOutOfRange => "head_out_of_range",
        BreakCause::NextOutOfRange => "next_out_of_range",
        BreakCause::TooLong => "too_long",
        BreakCause::RangeOutside => "range_outside",
        BreakCause::WrongDirection => "wrong_direction",
        BreakCause::SmallBuffer => "small_buffer",
    }
}

#[tactic(auto, unfolding(crate::specs::Answers::reply_words))]
fn write_reply(line: &mut Line, reply: &Reply) -> Result<(), NoMemory>
    ensures { OnOk result (line.new ≡ line.old ++ spelled (reply_words reply.now)) }
{
    match reply {
        Reply::Done => line.word("done"),
        Reply::Handle(handle) => line.numbers("handle", &[*handle]),
        Reply::Accepted { handle, uuid } => {
            line.numbers("handle", &[*handle])?;
            line.word("uuid")?;
            line.uuid(*uuid)
        }
        Reply::Count(count) => line.numbers("count", &[*count]),
        Reply::Message { id, len, parts } => line.numbers("message", &[*id, *len, *parts]),
        Reply::Bytes { bytes, parts } => {
            line.word("bytes")?;
            line.hex(bytes.as_slice())?;
            line.handles("handles", parts.as_slice())
        }
        Reply::Event {
            handle,
            events,
            cookie,
        } => {
            line.numbers("event", &[*handle, events.0])?;
            line.number(*cookie)
        }
        Reply::Conn(address) => line.numbers("conn", &[*address]),
    }
}

#[tactic(auto, unfolding(crate::specs::Answers::device_words))]
fn write_device(line: &mut Line, did: &DeviceReply) -> Result<(), NoMemory>
    ensures { OnOk result (line.new ≡ line.old ++ spelled (device_words did.now)) }
{
    match did {
        DeviceReply::SentOnline => {
            line.word("sent")?;
            line.word("go_online")
        }
        DeviceReply::SentRsp {
            target,
            status,
            remote,
            size,
            count,
        } => {
            line.word("sent")?;
            line.numbers("conn_rsp", &[*target, *status, *remote, *size, *count])
        }
        DeviceReply::SentDisc { target } => {
            line.word("sent")?;
            line.numbers("disc_req", &[*target])
        }
        DeviceReply::SentMessage { src, dst, len } => {
            line.word("sent")?;
            line.numbers("data", &[*src, *dst, *len])
        }
        DeviceReply::TookReq { src, path } => {
            line.word("took")?;
            line.numbers("conn_req", &[*src])?;
            line.name(path.as_slice())
        }
        DeviceReply::TookDisc { src, target } => {
            line.word("took")?;
            line.numbers("disc_req", &[*src, *target])
        }
        DeviceReply::TookMessage { src, dst, len } => {
            line.word("took")?;
            line.numbers("data", &[*src, *dst, *len])
        }
        DeviceReply::Ignored(cause) => {
            line.word("ignored")?;
            line.word(ignored_word(*cause))
        }
        DeviceReply::Broke {
            queue,
            cause,
            place,
        } => {
            line.numbers("broke", &[*queue])?;
            line.word(broken_word(*cause))?;
            line.number(u64::from(*place))
        }
    }
}

/// Writes the words of the answer.
#[tactic(auto, unfolding(crate::specs::Answers::answer_words))]
pub fn write_answer(line: &mut Line, answer: &Answer) -> Result<(), NoMemory>
    ensures { OnOk result (line.new ≡ line.old ++ spelled (answer_words answer.now)) }
{
    match answer {
        Answer::Waits => line.word("waits"),
        Answer::Gives(reply) => write_reply(line, reply),
        Answer::Refuses(errno) => {
            line.word("refused")?;
            line.word(errno_word(*errno))
        }
        Answer::Device(did) => write_device(line, did),
        Answer::Clock(time) => {
            line.word("clock")?;
            line.number(*time)
        }
        Answer::CancelAll => line.word("cancel"),
    }
}
