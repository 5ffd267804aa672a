//! The words of a call.

ghost use Rattle.std.specs.Prelude.{◌≡◌, ◌++◌, ◌∷◌, OnOk};
ghost use Rattle.report_text.specs.Lines.{blank, spelled};
ghost use Rattle.report_text.specs.Within.{AreNumbers, numbers_of_timeout, IsCallWithin};
ghost use Rattle.report_text.specs.Calls.{port_flags_word, connect_flags_word, memory_flags_word, timeout_word, call_words};

use crate::line::Line;
use kernel_types::values::{Call, ConnectFlags, MemFlags, NoMemory, PortFlags, Timeout};

fn port_flags_word(flags: PortFlags) -> &'static str
    ensures { result.now ≡ port_flags_word flags.0 }
{
    match flags.0 {
        0 => "none",
        1 => "ta",
        2 => "ns",
        _ => "ta+ns",
    }
}

fn connect_flags_word(flags: ConnectFlags) -> &'static str
    ensures { result.now ≡ connect_flags_word flags.0 }
{
    match flags.0 {
        0 => "sync",
        1 => "sync+wait",
        2 => "async",
        _ => "async+wait",
    }
}

fn memory_flags_word(flags: MemFlags) -> &'static str
    ensures { result.now ≡ memory_flags_word flags.0 }
{
    match flags.0 {
        0 => "r",
        _ => "rw",
    }
}

fn write_timeout(line: &mut Line, timeout: Timeout) -> Result<(), NoMemory>
    ensures told { OnOk result (line.new ≡ line.old ++ blank ∷ timeout_word timeout) }
    ensures within { AreNumbers (numbers_of_timeout timeout) }
{
    match timeout {
        Timeout::Forever => line.word("-1"),
        Timeout::Millis(time) => line.number(u64::from(time)),
    }
}

/// Writes the words of the call: those of its script line, with numbers for its registers.
#[tactic(auto, unfolding(crate::specs::Calls::call_words))]
pub fn write_call(line: &mut Line, call: &Call) -> Result<(), NoMemory>
    ensures told { OnOk result (line.new ≡ line.old ++ spelled (call_words call.now)) }
    ensures within { OnOk result (IsCallWithin call.now) }
{
    match call {
        Call::PortCreate {
            path,
            bufs,
            size,
            flags,
        } => {
            line.word("port")?;
            line.name(path.as_slice())?;
            line.number(u64::from(*bufs))?;
            line.number(u64::from(*size))?;
            line.word(port_flags_word(*flags))
        }
        Call::Connect { path, flags } => {
            line.word("connect")?;
            line.name(path.as_slice())?;
            line.word(connect_flags_word(*flags))
        }
        Call::Accept { port } => line.numbers("accept", &[*port]),
        Call::Send { chan, bytes, parts } => {
            line.numbers("send", &[*chan])?;
            line.hex(bytes.as_slice())?;
            line.handles("with", parts.as_slice())
        }
        Call::Get { chan } => line.numbers("get", &[*chan]),
        Call::Read {
            chan,
            id,
            offset,
            room,
            parts,
        } => line.numbers("read", &[*chan, *id, *offset, *room, *parts]),
        Call::Put { chan, id } => line.numbers("put", &[*chan, *id]),
        Call::SetCookie { handle, cookie } => {
            line.numbers("cookie", &[*handle])?;
            line.number(*cookie)
        }
        Call::Close { handle } => line.numbers("close", &[*handle]),
        Call::Dup { handle } => line.numbers("dup", &[*handle]),
        Call::SetCreate => line.word("set"),
        Call::SetAdd {
            set,
            handle,
            mask,
            cookie,
        } => {
            line.numbers("add", &[*set, *handle, mask.0])?;
            line.number(*cookie)
        }
        Call::SetDel { set, label } => line.numbers("del", &[*set, *label]),
        Call::SetMod {
            set,
            label,
            mask,
            cookie,
        } => {
            line.numbers("mod", &[*set, *label, mask.0])?;
            line.number(*cookie)
        }
        Call::MemCreate { size, flags } => {
            line.numbers("memref", &[*size])?;
            line.word(memory_flags_word(*flags))
        }
        Call::MemRead {
            handle,
            offset,
            len,
        } => line.numbers("mread", &[*handle, *offset, *len]),
        Call::MemWrite {
            handle,
            offset,
            bytes,
        } => {
            line.numbers("mwrite", &[*handle, *offset])?;
            line.hex(bytes.as_slice())
        }
        Call::Wait { handle, timeout } => {
            line.numbers("wait", &[*handle])?;
            write_timeout(line, *timeout)
        }
        Call::WaitAny { timeout } => {
            line.word("waitany")?;
            write_timeout(line, *timeout)
        }
        Call::Exit { code } => line.numbers("exit", &[*code]),
        Call::Finish => line.word("finish"),
        Call::NsConnect { path } => {
            line.word("nconnect")?;
            line.name(path.as_slice())
        }
        Call::NsSend { conn, bytes } => {
            line.numbers("nsend", &[*conn])?;
            line.hex(bytes.as_slice())
        }
        Call::NsRecv { conn, timeout } => {
            line.numbers("nrecv", &[*conn])?;
            write_timeout(line, *timeout)
        }
        Call::NsClose { conn } => line.numbers("nclose", &[*conn]),
        Call::NsPoke { addr, bytes } => {
            line.numbers("npoke", &[*addr])?;
            line.hex(bytes.as_slice())
        }
        Call::NsKick { queue, head } => line.numbers("nkick", &[*queue, *head]),
    }
}
