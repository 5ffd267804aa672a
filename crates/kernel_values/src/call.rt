//! The system calls, and the calls of the normal world's clients.

ghost use Rattle.std.specs.Prelude.{◌≡◌};
ghost use Rattle.kernel_values.specs.Calls.{kind_of, is_kind_of_client, is_kind_of_driver, is_kind_of_thread, handle_count, one_of, part_replaced, payload_of, with_number};

use crate::copied::Copied;
use crate::flags::{ConnectFlags, Events, MemFlags, PortFlags};
use crate::ids::Handle;
use crate::items::{Bytes, Handles, NoMemory};

/// How long a wait may take, in milliseconds of the kernel's clock.
#[derive(Clone, Copy, PartialEq, Eq, Debug)]
pub enum Timeout {
    Forever,
    Millis(u32),
}

/// One call of an actor. Numbers of handles are those of the caller's table.
#[derive(Debug, Drop)]
pub enum Call {
    /// Publishes a port of `bufs` buffers (1 to 32) of `size` bytes (1 to 4,096).
    PortCreate {
        path: Bytes,
        bufs: u32,
        size: u32,
        flags: PortFlags,
    },
    Connect {
        path: Bytes,
        flags: ConnectFlags,
    },
    Accept {
        port: Handle,
    },
    Send {
        chan: Handle,
        bytes: Bytes,
        parts: Handles,
    },
    Get {
        chan: Handle,
    },
    Read {
        chan: Handle,
        id: u32,
        offset: u32,
        room: u32,
        parts: u32,
    },
    Put {
        chan: Handle,
        id: u32,
    },
    SetCookie {
        handle: Handle,
        cookie: u64,
    },
    Close {
        handle: Handle,
    },
    Dup {
        handle: Handle,
    },
    SetCreate,
    SetAdd {
        set: Handle,
        handle: Handle,
        mask: Events,
        cookie: u64,
    },
    SetDel {
        set: Handle,
        label: Handle,
    },
    SetMod {
        set: Handle,
        label: Handle,
        mask: Events,
        cookie: u64,
    },
    MemCreate {
        size: u32,
        flags: MemFlags,
    },
    MemRead {
        handle: Handle,
        offset: u32,
        len: u32,
    },
    MemWrite {
        handle: Handle,
        offset: u32,
        bytes: Bytes,
    },
    Wait {
        handle: Handle,
        timeout: Timeout,
    },
    WaitAny {
        timeout: Timeout,
    },
    Exit {
        code: u32,
    },
    Finish,
    NsConnect {
        path: Bytes,
    },
    NsSend {
        conn: u32,
        bytes: Bytes,
    },
    NsRecv {
        conn: u32,
        timeout: Timeout,
    },
    NsClose {
        conn: u32,
    },
    NsPoke {
        addr: u32,
        bytes: Bytes,
    },
    NsKick {
        queue: u32,
        head: u32,
    },
}

/// Who makes a call, and whether the driver takes part in it.
#[derive(Clone, Copy, PartialEq, Eq, Debug)]
pub enum CallKind {
    /// A system call of a thread.
    Thread,
    /// The call that comes by itself where a script has ended, a thread's or a client's.
    Finish,
    /// A client's call of its driver, which first takes back what the device has used.
    Driver,
    /// A client's write past its driver, of memory or of a ring.
    Direct,
}

impl CallKind {
    /// Whether threads make calls of this kind.
    pub fn is_of_thread(self) -> bool
        ensures { result ≡ is_kind_of_thread self }
    {
        match self {
            CallKind::Thread | CallKind::Finish => true,
            CallKind::Driver | CallKind::Direct => false,
        }
    }

    /// Whether clients of the normal world make calls of this kind.
    pub fn is_of_client(self) -> bool
        ensures { result ≡ is_kind_of_client self }
    {
        match self {
            CallKind::Thread => false,
            CallKind::Finish | CallKind::Driver | CallKind::Direct => true,
        }
    }

    /// Whether the driver takes back what the device has used before it acts.
    pub fn drains(self) -> bool
        ensures { result ≡ is_kind_of_driver self }
    {
        match self {
            CallKind::Driver => true,
            CallKind::Thread | CallKind::Finish | CallKind::Direct => false,
        }
    }
}

impl Call {
    /// The kind of the call.
    pub fn kind(&self) -> CallKind
        ensures { result ≡ kind_of self.now }
    {
        match self {
            Call::Finish => CallKind::Finish,
            Call::NsConnect { path: _ } => CallKind::Driver,
            Call::NsSend { conn: _, bytes: _ } => CallKind::Driver,
            Call::NsRecv {
                conn: _,
                timeout: _,
            } => CallKind::Driver,
            Call::NsClose { conn: _ } => CallKind::Driver,
            Call::NsPoke { addr: _, bytes: _ } => CallKind::Direct,
            Call::NsKick { queue: _, head: _ } => CallKind::Direct,
            _ => CallKind::Thread,
        }
    }

    /// How many handles and ids the call's line writes, each of which may be read from a register.
    pub fn handle_count(&self) -> u128
        ensures { result ≡ handle_count self.now }
    {
        match self {
            Call::Send { parts, .. } => parts.len() as u128 + 1,
            Call::Read { .. }
            | Call::Put { .. }
            | Call::SetAdd { .. }
            | Call::SetDel { .. }
            | Call::SetMod { .. } => 2,
            Call::Accept { .. }
            | Call::Get { .. }
            | Call::SetCookie { .. }
            | Call::Close { .. }
            | Call::Dup { .. }
            | Call::MemRead { .. }
            | Call::MemWrite { .. }
            | Call::Wait { .. }
            | Call::NsSend { .. }
            | Call::NsRecv { .. }
            | Call::NsClose { .. } => 1,
            _ => 0,
        }
    }

    /// The handle or id at this place of the call is replaced, where the call has such a place.
    pub fn set_number(&mut self, place: u32, value: u32)
        ensures { self.new ≡ with_number place value self.old }
    {
        match self {
            Call::Accept { port } => set_one(port, 0, place, value),
            Call::Send { chan, parts, .. } => {
                set_one(chan, 0, place, value);
                set_part(parts, place, value);
            }
            Call::Get { chan } => set_one(chan, 0, place, value),
            Call::Read { chan, id, .. } => {
                set_one(chan, 0, place, value);
                set_one(id, 1, place, value);
            }
            Call::Put { chan, id } => {
                set_one(chan, 0, place, value);
                set_one(id, 1, place, value);
            }
            Call::SetCookie { handle, .. } => set_one(handle, 0, place, value),
            Call::Close { handle } => set_one(handle, 0, place, value),
            Call::Dup { handle } => set_one(handle, 0, place, value),
            Call::SetAdd { set, handle, .. } => {
                set_one(set, 0, place, value);
                set_one(handle, 1, place, value);
            }
            Call::SetDel { set, label } => {
                set_one(set, 0, place, value);
                set_one(label, 1, place, value);
            }
            Call::SetMod { set, label, .. } => {
                set_one(set, 0, place, value);
                set_one(label, 1, place, value);
            }
            Call::MemRead { handle, .. } => set_one(handle, 0, place, value),
            Call::MemWrite { handle, .. } => set_one(handle, 0, place, value),
            Call::Wait { handle, .. } => set_one(handle, 0, place, value),
            Call::NsSend { conn, .. } => set_one(conn, 0, place, value),
            Call::NsRecv { conn, .. } => set_one(conn, 0, place, value),
            Call::NsClose { conn } => set_one(conn, 0, place, value),
            Call::PortCreate { .. }
            | Call::Connect { .. }
            | Call::SetCreate
            | Call::MemCreate { .. }
            | Call::WaitAny { .. }
            | Call::Exit { .. }
            | Call::Finish
            | Call::NsConnect { .. }
            | Call::NsPoke { .. }
            | Call::NsKick { .. } => {}
        }
    }

    /// The bytes that the call writes or asks to read.
    pub fn payload(&self) -> u64
        ensures { result ≡ payload_of self.now }
    {
        match self {
            Call::Send { bytes, .. }
            | Call::MemWrite { bytes, .. }
            | Call::NsSend { bytes, .. }
            | Call::NsPoke { bytes, .. } => bytes.len() as u64,
            Call::Read { room, .. } => u64::from(*room),
            Call::MemRead { len, .. } => u64::from(*len),
            _ => 0,
        }
    }
}

fn set_one(number: &mut u32, wanted: u32, place: u32, value: u32)
    ensures { number.new ≡ one_of wanted place value number.old }
{
    if place == wanted {
        *number = value;
    }
}

// The parts of a send come after its channel, which has the place 0.
fn set_part(parts: &mut Handles, place: u32, value: u32)
    ensures { parts.new ≡ part_replaced place value parts.old }
{
    if place == 0 {
        return;
    }
    if let Some(part) = parts.get_mut(place as usize - 1) {
        *part = value;
    }
}

impl Copied for Call {
    fn copied(&self) -> Result<Call, NoMemory> {
        Ok(match self {
            Call::PortCreate {
                path,
                bufs,
                size,
                flags,
            } => Call::PortCreate {
                path: path.copied()?,
                bufs: *bufs,
                size: *size,
                flags: *flags,
            },
            Call::Connect { path, flags } => Call::Connect {
                path: path.copied()?,
                flags: *flags,
            },
            Call::Accept { port } => Call::Accept { port: *port },
            Call::Send { chan, bytes, parts } => Call::Send {
                chan: *chan,
                bytes: bytes.copied()?,
                parts: parts.copied()?,
            },
            Call::Get { chan } => Call::Get { chan: *chan },
            Call::Read {
                chan,
                id,
                offset,
                room,
                parts,
            } => Call::Read {
                chan: *chan,
                id: *id,
                offset: *offset,
                room: *room,
                parts: *parts,
            },
            Call::Put { chan, id } => Call::Put {
                chan: *chan,
                id: *id,
            },
            Call::SetCookie { handle, cookie } => Call::SetCookie {
                handle: *handle,
                cookie: *cookie,
            },
            Call::Close { handle } => Call::Close { handle: *handle },
            Call::Dup { handle } => Call::Dup { handle: *handle },
            Call::SetCreate => Call::SetCreate,
            Call::SetAdd {
                set,
                handle,
                mask,
                cookie,
            } => Call::SetAdd {
                set: *set,
                handle: *handle,
                mask: *mask,
                cookie: *cookie,
            },
            Call::SetDel { set, label } => Call::SetDel {
                set: *set,
                label: *label,
            },
            Call::SetMod {
                set,
                label,
                mask,
                cookie,
            } => Call::SetMod {
                set: *set,
                label: *label,
                mask: *mask,
                cookie: *cookie,
            },
            Call::MemCreate { size, flags } => Call::MemCreate {
                size: *size,
                flags: *flags,
            },
            Call::MemRead {
                handle,
                offset,
                len,
            } => Call::MemRead {
                handle: *handle,
                offset: *offset,
                len: *len,
            },
            Call::MemWrite {
                handle,
                offset,
                bytes,
            } => Call::MemWrite {
                handle: *handle,
                offset: *offset,
                bytes: bytes.copied()?,
            },
            Call::Wait { handle, timeout } => Call::Wait {
                handle: *handle,
                timeout: *timeout,
            },
            Call::WaitAny { timeout } => Call::WaitAny { timeout: *timeout },
            Call::Exit { code } => Call::Exit { code: *code },
            Call::Finish => Call::Finish,
            Call::NsConnect { path } => Call::NsConnect {
                path: path.copied()?,
            },
            Call::NsSend { conn, bytes } => Call::NsSend {
                conn: *conn,
                bytes: bytes.copied()?,
            },
            Call::NsRecv { conn, timeout } => Call::NsRecv {
                conn: *conn,
                timeout: *timeout,
            },
            Call::NsClose { conn } => Call::NsClose { conn: *conn },
            Call::NsPoke { addr, bytes } => Call::NsPoke {
                addr: *addr,
                bytes: bytes.copied()?,
            },
            Call::NsKick { queue, head } => Call::NsKick {
                queue: *queue,
                head: *head,
            },
        })
    }
}
