//! Reports, form by form and word by word.

use kernel_log::Journal;
use kernel_types::values::{
    ActorId, Answer, App, BreakCause, Bytes, Call, Client, ConnectFlags, DeviceReply, EndFacts,
    Entry, Errno, Event, Events, IgnoreCause, Items, Manifest, MemFlags, NoMemory, PortFlags,
    Reply, Scene, Script, Seqs, Timeout,
};
use outside_io::{MemSink, QuietSink};
use report_text::{Form, PrintRefused, print_report};
use std::alloc::Global;
use std::test::Fail;

// Two threads of the application `server` and the client `cli`, which are the actors 0 to 2.
fn scene(alloc: Global) -> Result<Scene, NoMemory> {
    let mut threads = Items::new(alloc);
    threads.push(Script::new(alloc))?;
    threads.push(Script::new(alloc))?;
    let mut apps = Items::new(alloc);
    apps.push(App {
        name: Items::from_slice(alloc, b"server".as_slice())?,
        manifest: Manifest {
            uuid: 1,
            restart: false,
            deferred: false,
            ports: Items::new(alloc),
        },
        threads,
    })?;
    let mut clients = Items::new(alloc);
    clients.push(Client {
        name: Items::from_slice(alloc, b"cli".as_slice())?,
        script: Script::new(alloc),
    })?;
    Ok(Scene {
        apps,
        clients,
        queue: 16,
        turns: Items::new(alloc),
    })
}

fn bytes(alloc: Global, bytes: &[u8]) -> Result<Bytes, NoMemory> {
    Items::from_slice(alloc, bytes)
}

fn begin(actor: u32, start: u32, call: Call) -> Event {
    Event::Begin {
        actor: ActorId(actor),
        start,
        call,
    }
}

fn resume(actor: u32, start: u32) -> Event {
    Event::Resume {
        actor: ActorId(actor),
        start,
    }
}

fn facts(objects: u64, names: u64) -> EndFacts {
    EndFacts {
        clock: 7,
        objects,
        names,
    }
}

fn push(
    journal: &mut Journal,
    event: Event,
    answer: Answer,
    facts: EndFacts,
) -> Result<(), NoMemory> {
    let seqs = Seqs {
        sent: None,
        opened: None,
        retired: None,
    };
    journal.reserve(1)?;
    journal.push(
        Entry {
            event,
            answer,
            seqs,
        },
        facts,
    );
    Ok(())
}

// Whether this is the report of the journal.
fn prints(
    alloc: Global,
    journal: &Journal,
    form: Form,
    expected: &[u8],
) -> Result<bool, PrintRefused> {
    let mut sink = QuietSink::new(alloc, 4096)?;
    print_report(
        alloc,
        &scene(alloc)?,
        journal,
        &facts(5, 6),
        form,
        &mut sink,
    )?;
    Ok(sink.written() == expected)
}

// Whether this is the history of the one entry.
fn entry_prints(
    alloc: Global,
    event: Event,
    answer: Answer,
    expected: &[u8],
) -> Result<bool, PrintRefused> {
    let mut journal = Journal::new(alloc);
    push(&mut journal, event, answer, facts(1, 2))?;
    prints(alloc, &journal, Form::History, expected)
}

// Whether the first thread's call is printed so, answered by `done`.
fn call_prints(alloc: Global, call: Call, expected: &[u8]) -> Result<bool, PrintRefused> {
    let mut line = Vec::from_slice(alloc, b"history 1\n0 server.0 ").map_err(NoMemory::from)?;
    line.extend_from_slice(expected).map_err(NoMemory::from)?;
    line.extend_from_slice(b" -> done\nend clock 7 objects 5 names 6\n")
        .map_err(NoMemory::from)?;
    entry_prints(
        alloc,
        begin(0, 1, call),
        Answer::Gives(Reply::Done),
        line.as_slice(),
    )
}

// Whether the second thread's `finish` is printed with this answer.
fn answer_prints(alloc: Global, answer: Answer, expected: &[u8]) -> Result<bool, PrintRefused> {
    let mut line = Vec::from_slice(alloc, b"history 1\n0 server.1 finish -> ").map_err(
        NoMemory::from,
    )?;
    line.extend_from_slice(expected).map_err(NoMemory::from)?;
    line.extend_from_slice(b"\nend clock 7 objects 5 names 6\n")
        .map_err(NoMemory::from)?;
    entry_prints(alloc, begin(1, 1, Call::Finish), answer, line.as_slice())
}

fn reply_prints(alloc: Global, reply: Reply, expected: &[u8]) -> Result<bool, PrintRefused> {
    answer_prints(alloc, Answer::Gives(reply), expected)
}

fn refusal_prints(alloc: Global, errno: Errno, expected: &[u8]) -> Result<bool, PrintRefused> {
    answer_prints(alloc, Answer::Refuses(errno), expected)
}

fn device_prints(alloc: Global, did: DeviceReply, expected: &[u8]) -> Result<bool, PrintRefused> {
    let mut line = Vec::from_slice(alloc, b"history 1\n0 device -> ").map_err(NoMemory::from)?;
    line.extend_from_slice(expected).map_err(NoMemory::from)?;
    line.extend_from_slice(b"\nend clock 7 objects 5 names 6\n")
        .map_err(NoMemory::from)?;
    entry_prints(alloc, Event::Device, Answer::Device(did), line.as_slice())
}

fn port(alloc: Global, flags: u32) -> Result<Call, NoMemory> {
    Ok(Call::PortCreate {
        path: bytes(alloc, b"svc")?,
        bufs: 2,
        size: 16,
        flags: PortFlags(flags),
    })
}

fn connect(alloc: Global, flags: u32) -> Result<Call, NoMemory> {
    Ok(Call::Connect {
        path: bytes(alloc, b"svc")?,
        flags: ConnectFlags(flags),
    })
}

fn send(alloc: Global, text: &[u8], parts: &[u32]) -> Result<Call, NoMemory> {
    Ok(Call::Send {
        chan: 3,
        bytes: bytes(alloc, text)?,
        parts: Items::from_slice(alloc, parts)?,
    })
}

#[test]
fn ports_and_connects(rt: HostRuntime) -> Result<(), Fail> {
    let a = rt.alloc();
    assert!(rt; call_prints(a, port(a, 0)?, b"port svc 2 16 none")?);
    assert!(rt; call_prints(a, port(a, 1)?, b"port svc 2 16 ta")?);
    assert!(rt; call_prints(a, port(a, 2)?, b"port svc 2 16 ns")?);
    assert!(rt; call_prints(a, port(a, 3)?, b"port svc 2 16 ta+ns")?);
    assert!(rt; call_prints(a, connect(a, 0)?, b"connect svc sync")?);
    assert!(rt; call_prints(a, connect(a, 1)?, b"connect svc sync+wait")?);
    assert!(rt; call_prints(a, connect(a, 2)?, b"connect svc async")?);
    assert!(rt; call_prints(a, connect(a, 3)?, b"connect svc async+wait")?);
    Ok(())
}

#[test]
fn calls_on_channels(rt: HostRuntime) -> Result<(), Fail> {
    let a = rt.alloc();
    assert!(rt;
        call_prints(
            a,
            Call::Accept {
                port: 4_294_967_295
            },
            b"accept 4294967295"
        )?
    );
    assert!(rt; call_prints(a, send(a, b"ping", &[])?, b"send 3 70696e67")?);
    assert!(rt; call_prints(a, send(a, b"", &[5, 10])?, b"send 3 - with 5 10")?);
    assert!(rt; call_prints(a, send(a, b"\x0a\xff", &[0])?, b"send 3 0aff with 0")?);
    assert!(rt; call_prints(a, Call::Get { chan: 1 }, b"get 1")?);
    let read = Call::Read {
        chan: 1,
        id: 2,
        offset: 3,
        room: 16,
        parts: 4,
    };
    assert!(rt; call_prints(a, read, b"read 1 2 3 16 4")?);
    assert!(rt; call_prints(a, Call::Put { chan: 1, id: 2 }, b"put 1 2")?);
    Ok(())
}

#[test]
fn calls_on_handles(rt: HostRuntime) -> Result<(), Fail> {
    let a = rt.alloc();
    let cookie = Call::SetCookie {
        handle: 1,
        cookie: 18_446_744_073_709_551_615,
    };
    assert!(rt; call_prints(a, cookie, b"cookie 1 18446744073709551615")?);
    assert!(rt; call_prints(a, Call::Close { handle: 1 }, b"close 1")?);
    assert!(rt; call_prints(a, Call::Dup { handle: 1 }, b"dup 1")?);
    let wait = Call::Wait {
        handle: 1,
        timeout: Timeout::Forever,
    };
    assert!(rt; call_prints(a, wait, b"wait 1 -1")?);
    let wait_any = Call::WaitAny {
        timeout: Timeout::Millis(20),
    };
    assert!(rt; call_prints(a, wait_any, b"waitany 20")?);
    assert!(rt; call_prints(a, Call::Exit { code: 9 }, b"exit 9")?);
    assert!(rt; call_prints(a, Call::Finish, b"finish")?);
    Ok(())
}

#[test]
fn calls_on_sets(rt: HostRuntime) -> Result<(), Fail> {
    let a = rt.alloc();
    assert!(rt; call_prints(a, Call::SetCreate, b"set")?);
    let add = Call::SetAdd {
        set: 1,
        handle: 2,
        mask: Events(31),
        cookie: 4,
    };
    assert!(rt; call_prints(a, add, b"add 1 2 31 4")?);
    assert!(rt; call_prints(a, Call::SetDel { set: 1, label: 2 }, b"del 1 2")?);
    let change = Call::SetMod {
        set: 1,
        label: 2,
        mask: Events(0),
        cookie: 4,
    };
    assert!(rt; call_prints(a, change, b"mod 1 2 0 4")?);
    Ok(())
}

#[test]
fn calls_on_memory(rt: HostRuntime) -> Result<(), Fail> {
    let a = rt.alloc();
    let create = Call::MemCreate {
        size: 64,
        flags: MemFlags(0),
    };
    assert!(rt; call_prints(a, create, b"memref 64 r")?);
    let writable = Call::MemCreate {
        size: 64,
        flags: MemFlags(1),
    };
    assert!(rt; call_prints(a, writable, b"memref 64 rw")?);
    let read = Call::MemRead {
        handle: 1,
        offset: 2,
        len: 3,
    };
    assert!(rt; call_prints(a, read, b"mread 1 2 3")?);
    let write = Call::MemWrite {
        handle: 1,
        offset: 2,
        bytes: bytes(a, b"AB")?,
    };
    assert!(rt; call_prints(a, write, b"mwrite 1 2 4142")?);
    Ok(())
}

#[test]
fn calls_of_clients(rt: HostRuntime) -> Result<(), Fail> {
    let a = rt.alloc();
    let connect = Call::NsConnect {
        path: bytes(a, b"com.example.echo.srv")?,
    };
    assert!(rt; call_prints(a, connect, b"nconnect com.example.echo.srv")?);
    let send = Call::NsSend {
        conn: 1024,
        bytes: bytes(a, b"AA")?,
    };
    assert!(rt; call_prints(a, send, b"nsend 1024 4141")?);
    let receive = Call::NsRecv {
        conn: 1024,
        timeout: Timeout::Forever,
    };
    assert!(rt; call_prints(a, receive, b"nrecv 1024 -1")?);
    assert!(rt; call_prints(a, Call::NsClose { conn: 1024 }, b"nclose 1024")?);
    let poke = Call::NsPoke {
        addr: 4096,
        bytes: bytes(a, b"")?,
    };
    assert!(rt; call_prints(a, poke, b"npoke 4096 -")?);
    assert!(rt; call_prints(a, Call::NsKick { queue: 0, head: 7 }, b"nkick 0 7")?);
    Ok(())
}

#[test]
fn replies(rt: HostRuntime) -> Result<(), Fail> {
    let a = rt.alloc();
    assert!(rt; reply_prints(a, Reply::Handle(6), b"handle 6")?);
    let accepted = Reply::Accepted { handle: 1, uuid: 2 };
    assert!(rt;
        reply_prints(
            a,
            accepted,
            b"handle 1 uuid 00000000-0000-0000-0000-000000000002"
        )?
    );
    assert!(rt; reply_prints(a, Reply::Count(4), b"count 4")?);
    let message = Reply::Message {
        id: 1,
        len: 4,
        parts: 0,
    };
    assert!(rt; reply_prints(a, message, b"message 1 4 0")?);
    let plain = Reply::Bytes {
        bytes: bytes(a, b"pong")?,
        parts: Items::new(a),
    };
    assert!(rt; reply_prints(a, plain, b"bytes 706f6e67")?);
    let with_handles = Reply::Bytes {
        bytes: bytes(a, b"")?,
        parts: Items::from_slice(a, &[3, 4])?,
    };
    assert!(rt; reply_prints(a, with_handles, b"bytes - handles 3 4")?);
    let event = Reply::Event {
        handle: 1,
        events: Events(8),
        cookie: 5,
    };
    assert!(rt; reply_prints(a, event, b"event 1 8 5")?);
    assert!(rt; reply_prints(a, Reply::Conn(1024), b"conn 1024")?);
    Ok(())
}

#[test]
fn waits_and_refusals(rt: HostRuntime) -> Result<(), Fail> {
    let a = rt.alloc();
    assert!(rt; answer_prints(a, Answer::Waits, b"waits")?);
    assert!(rt; refusal_prints(a, Errno::BadHandle, b"refused BAD_HANDLE")?);
    assert!(rt; refusal_prints(a, Errno::InvalidArgs, b"refused INVALID_ARGS")?);
    assert!(rt; refusal_prints(a, Errno::NotFound, b"refused NOT_FOUND")?);
    assert!(rt; refusal_prints(a, Errno::AccessDenied, b"refused ACCESS_DENIED")?);
    assert!(rt; refusal_prints(a, Errno::AlreadyExists, b"refused ALREADY_EXISTS")?);
    assert!(rt; refusal_prints(a, Errno::NoResources, b"refused NO_RESOURCES")?);
    assert!(rt; refusal_prints(a, Errno::NoMsg, b"refused NO_MSG")?);
    assert!(rt; refusal_prints(a, Errno::NotReady, b"refused NOT_READY")?);
    assert!(rt; refusal_prints(a, Errno::ChannelClosed, b"refused CHANNEL_CLOSED")?);
    assert!(rt; refusal_prints(a, Errno::TooBig, b"refused TOO_BIG")?);
    assert!(rt; refusal_prints(a, Errno::NotEnoughBuffer, b"refused NOT_ENOUGH_BUFFER")?);
    assert!(rt; refusal_prints(a, Errno::NotSupported, b"refused NOT_SUPPORTED")?);
    assert!(rt; refusal_prints(a, Errno::RecurseTooDeep, b"refused RECURSE_TOO_DEEP")?);
    assert!(rt; refusal_prints(a, Errno::TimedOut, b"refused TIMED_OUT")?);
    assert!(rt; refusal_prints(a, Errno::Cancelled, b"refused CANCELLED")?);
    Ok(())
}

#[test]
fn device_sends_and_takes(rt: HostRuntime) -> Result<(), Fail> {
    let a = rt.alloc();
    assert!(rt; device_prints(a, DeviceReply::SentOnline, b"sent go_online")?);
    let sent_answer = DeviceReply::SentRsp {
        target: 1024,
        status: 0,
        remote: 1000,
        size: 256,
        count: 4,
    };
    assert!(rt; device_prints(a, sent_answer, b"sent conn_rsp 1024 0 1000 256 4")?);
    let sent_end = DeviceReply::SentDisc { target: 1024 };
    assert!(rt; device_prints(a, sent_end, b"sent disc_req 1024")?);
    let sent = DeviceReply::SentMessage {
        src: 1000,
        dst: 1024,
        len: 100,
    };
    assert!(rt; device_prints(a, sent, b"sent data 1000 1024 100")?);
    let took_request = DeviceReply::TookReq {
        src: 1024,
        path: bytes(a, b"svc")?,
    };
    assert!(rt; device_prints(a, took_request, b"took conn_req 1024 svc")?);
    let took_end = DeviceReply::TookDisc {
        src: 1024,
        target: 1000,
    };
    assert!(rt; device_prints(a, took_end, b"took disc_req 1024 1000")?);
    let took = DeviceReply::TookMessage {
        src: 1024,
        dst: 1000,
        len: 100,
    };
    assert!(rt; device_prints(a, took, b"took data 1024 1000 100")?);
    Ok(())
}

fn ignored_prints(
    alloc: Global,
    cause: IgnoreCause,
    expected: &[u8],
) -> Result<bool, PrintRefused> {
    device_prints(alloc, DeviceReply::Ignored(cause), expected)
}

fn broken_prints(alloc: Global, cause: BreakCause, expected: &[u8]) -> Result<bool, PrintRefused> {
    let broke = DeviceReply::Broke {
        queue: 1,
        cause,
        place: 9,
    };
    device_prints(alloc, broke, expected)
}

#[test]
fn device_ignores_and_breaks(rt: HostRuntime) -> Result<(), Fail> {
    let a = rt.alloc();
    assert!(rt; ignored_prints(a, IgnoreCause::Short, b"ignored short")?);
    assert!(rt; ignored_prints(a, IgnoreCause::Length, b"ignored length")?);
    assert!(rt; ignored_prints(a, IgnoreCause::UnknownType, b"ignored unknown_type")?);
    assert!(rt; ignored_prints(a, IgnoreCause::BodyLength, b"ignored body_length")?);
    assert!(rt; ignored_prints(a, IgnoreCause::Name, b"ignored name")?);
    assert!(rt; ignored_prints(a, IgnoreCause::NoEntry, b"ignored no_entry")?);
    assert!(rt; ignored_prints(a, IgnoreCause::NotServed, b"ignored not_served")?);
    assert!(rt; ignored_prints(a, IgnoreCause::NotAnswered, b"ignored not_answered")?);
    assert!(rt; ignored_prints(a, IgnoreCause::PeerGone, b"ignored peer_gone")?);
    assert!(rt; ignored_prints(a, IgnoreCause::TooBig, b"ignored too_big")?);
    assert!(rt; broken_prints(a, BreakCause::IndexJump, b"broke 1 index_jump 9")?);
    assert!(rt;
        broken_prints(
            a,
            BreakCause::HeadOutOfRange,
            b"broke 1 head_out_of_range 9"
        )?
    );
    assert!(rt;
        broken_prints(
            a,
            BreakCause::NextOutOfRange,
            b"broke 1 next_out_of_range 9"
        )?
    );
    assert!(rt; broken_prints(a, BreakCause::TooLong, b"broke 1 too_long 9")?);
    assert!(rt; broken_prints(a, BreakCause::RangeOutside, b"broke 1 range_outside 9")?);
    assert!(rt; broken_prints(a, BreakCause::WrongDirection, b"broke 1 wrong_direction 9")?);
    assert!(rt; broken_prints(a, BreakCause::SmallBuffer, b"broke 1 small_buffer 9")?);
    Ok(())
}

// The first thread waits, and is answered; it waits again, and its application ends and starts again.
// The second thread was never started.
fn history(alloc: Global) -> Result<Journal, NoMemory> {
    let wait = Call::Wait {
        handle: 0,
        timeout: Timeout::Forever,
    };
    let wait_again = Call::Wait {
        handle: 1,
        timeout: Timeout::Millis(5),
    };
    let mut journal = Journal::new(alloc);
    push(&mut journal, begin(0, 1, wait), Answer::Waits, facts(1, 2))?;
    push(
        &mut journal,
        Event::Device,
        Answer::Device(DeviceReply::SentOnline),
        facts(1, 2),
    )?;
    let connect = Call::NsConnect {
        path: bytes(alloc, b"svc")?,
    };
    push(
        &mut journal,
        begin(2, 1, connect),
        Answer::Refuses(Errno::TooBig),
        facts(2, 2),
    )?;
    let event = Reply::Event {
        handle: 0,
        events: Events(1),
        cookie: 0,
    };
    push(
        &mut journal,
        resume(0, 1),
        Answer::Gives(event),
        facts(3, 4),
    )?;
    push(
        &mut journal,
        begin(0, 1, wait_again),
        Answer::Waits,
        facts(3, 4),
    )?;
    push(&mut journal, Event::Idle, Answer::Clock(5), facts(0, 0))?;
    push(&mut journal, Event::Idle, Answer::CancelAll, facts(0, 0))?;
    push(
        &mut journal,
        begin(0, 2, Call::Finish),
        Answer::Gives(Reply::Done),
        facts(0, 0),
    )?;
    Ok(journal)
}

#[test]
fn history_form(rt: HostRuntime) -> Result<(), Fail> {
    let journal = history(rt.alloc())?;
    let expected = b"history 8
0 server.0 wait 0 -1 -> waits
1 device -> sent go_online
2 cli nconnect svc -> refused TOO_BIG
3 server.0 resume -> event 0 1 0
4 server.0 wait 1 5 -> waits
5 idle -> clock 5
6 idle -> cancel
7 server.0 finish -> done
end clock 7 objects 5 names 6
";
    assert!(rt; prints(rt.alloc(), &journal, Form::History, expected)?);
    Ok(())
}

#[test]
fn actors_form(rt: HostRuntime) -> Result<(), Fail> {
    let journal = history(rt.alloc())?;
    let expected = b"actor server.0 calls 3
wait 0 -1 -> event 0 1 0
wait 1 5 -> none
finish -> done
actor server.1 calls 0
actor cli calls 1
nconnect svc -> refused TOO_BIG
end clock 7 objects 5 names 6
";
    assert!(rt; prints(rt.alloc(), &journal, Form::Actors, expected)?);
    Ok(())
}

#[test]
fn counts_form(rt: HostRuntime) -> Result<(), Fail> {
    let journal = history(rt.alloc())?;
    let expected = b"counts 8
0 objects 1 names 2
1 objects 1 names 2
2 objects 2 names 2
3 objects 3 names 4
4 objects 3 names 4
5 objects 0 names 0
6 objects 0 names 0
7 objects 0 names 0
end clock 7 objects 5 names 6
";
    assert!(rt; prints(rt.alloc(), &journal, Form::Counts, expected)?);
    Ok(())
}

#[test]
fn summary_form(rt: HostRuntime) -> Result<(), Fail> {
    let journal = history(rt.alloc())?;
    let expected = b"summary history 8 begins 4 resumes 1 device 1 idle 2
answers given 2 refused 1
end clock 7 objects 5 names 6
";
    assert!(rt; prints(rt.alloc(), &journal, Form::Summary, expected)?);
    Ok(())
}

// A sink that takes seven bytes a write, and whose fourth write fails: the first line and one piece of the
// next are written.
#[test]
fn a_front_is_written(rt: HostRuntime) -> Result<(), Fail> {
    let journal = history(rt.alloc())?;
    let mut sink = MemSink::new(rt.alloc(), 4096, 7, &[3])?;
    let printed = print_report(
        rt.alloc(),
        &scene(rt.alloc())?,
        &journal,
        &facts(5, 6),
        Form::History,
        &mut sink,
    );
    assert!(rt; printed == Err(PrintRefused::Failed));
    assert!(rt; sink.written() == b"history 8\n0 serve".as_slice());
    assert!(rt; sink.faults() == 1);
    Ok(())
}
