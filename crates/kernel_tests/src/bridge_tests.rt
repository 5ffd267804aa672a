//! A server and a client of the normal world, by calls of the program's kernel alone.

use crate::play::{Play, text};
use kernel_types::IpcKernel;
use kernel_types::values::{
    ActorId, ActorStatus, Answer, Call, DeviceReply, EndFacts, Event, Events, Items, NoMemory,
    ObjId, PortFlags, Reply, Timeout,
};
use program_kernel::{ProgramKernel, kernel_of};
use scene_reader::read_scene;
use std::alloc::Global;
use std::test::Fail;

const SCENE: &str = "scene 1\napp server\nthread\nclient cli\n";

const SERVER: u32 = 0;

const CLIENT: u32 = 1;

// The number of the first connection, as the driver and as the device count them.
const LOCAL: u32 = 1024;

const REMOTE: u32 = 1000;

fn port(alloc: Global) -> Result<Call, NoMemory> {
    Ok(Call::PortCreate {
        path: text(alloc, b"svc".as_slice())?,
        bufs: 2,
        size: 16,
        flags: PortFlags::NS,
    })
}

fn connects(alloc: Global) -> Result<Call, NoMemory> {
    Ok(Call::NsConnect {
        path: text(alloc, b"svc".as_slice())?,
    })
}

fn waits_for(handle: u32) -> Call {
    Call::Wait {
        handle,
        timeout: Timeout::Forever,
    }
}

fn event(handle: u32, events: Events) -> Answer {
    Answer::Gives(Reply::Event {
        handle,
        events,
        cookie: 0,
    })
}

fn gives_bytes(alloc: Global, bytes: &[u8]) -> Result<Answer, NoMemory> {
    Ok(Answer::Gives(Reply::Bytes {
        bytes: text(alloc, bytes)?,
        parts: Items::new(alloc),
    }))
}

fn takes_request(alloc: Global) -> Result<Answer, NoMemory> {
    Ok(Answer::Device(DeviceReply::TookReq {
        src: LOCAL,
        path: text(alloc, b"svc".as_slice())?,
    }))
}

impl<K: IpcKernel + Drop> Play<K> {
    fn status(&self, actor: u32) -> Option<ActorStatus> {
        if actor <= CLIENT && self.kernel.is_client(ActorId(CLIENT)) {
            Some(self.kernel.status(ActorId(actor)))
        } else {
            None
        }
    }

    fn look(&self) -> Look {
        Look {
            server: self.status(SERVER),
            client: self.status(CLIENT),
            server_may_move: self.kernel.movable(ActorId(SERVER)),
            client_may_move: self.kernel.movable(ActorId(CLIENT)),
            device_has_work: self.kernel.device_has_work(),
            idle_lawful: self.kernel.idle_lawful(),
            whole: self.kernel.whole(),
            facts: self.kernel.end_facts(),
        }
    }

    fn looks(&mut self, wanted: Look) {
        let is_as_wanted = self.look() == wanted;
        self.note(is_as_wanted);
    }

    // The port is published; the client asks for it, and the device carries that over: steps 0 to 4.
    fn asks(&mut self, alloc: Global) -> Result<(), NoMemory> {
        self.call(SERVER, port(alloc)?, Answer::Gives(Reply::Handle(0)));
        self.call(CLIENT, connects(alloc)?, Answer::Waits);
        self.call(SERVER, waits_for(0), Answer::Waits);
        self.device(DeviceReply::SentOnline);
        let taken = takes_request(alloc)?;
        self.step(Event::Device, &taken);
        Ok(())
    }

    // The server accepts, and the client is told.
    fn accepts(&mut self) {
        self.resume(SERVER, event(0, Events::READY));
        self.call(
            SERVER,
            Call::Accept { port: 0 },
            Answer::Gives(Reply::Accepted { handle: 1, uuid: 0 }),
        );
        self.call(SERVER, waits_for(1), Answer::Waits);
        self.device(DeviceReply::SentRsp {
            target: LOCAL,
            status: 0,
            remote: REMOTE,
            size: 16,
            count: 2,
        });
        self.resume(CLIENT, Answer::Gives(Reply::Conn(LOCAL)));
    }

    // The client sends, and waits for what comes back.
    fn requests(&mut self, alloc: Global) -> Result<(), NoMemory> {
        let request = Call::NsSend {
            conn: LOCAL,
            bytes: text(alloc, b"ping".as_slice())?,
        };
        self.call(CLIENT, request, Answer::Gives(Reply::Count(4)));
        let reply = Call::NsRecv {
            conn: LOCAL,
            timeout: Timeout::Forever,
        };
        self.call(CLIENT, reply, Answer::Waits);
        self.device(DeviceReply::TookMessage {
            src: LOCAL,
            dst: REMOTE,
            len: 4,
        });
        self.resume(SERVER, event(1, Events::MSG));
        Ok(())
    }

    // The server takes what was sent.
    fn reads(&mut self, alloc: Global) -> Result<(), NoMemory> {
        let message = Reply::Message {
            id: 1,
            len: 4,
            parts: 0,
        };
        self.call(SERVER, Call::Get { chan: 1 }, Answer::Gives(message));
        let read = Call::Read {
            chan: 1,
            id: 1,
            offset: 0,
            room: 16,
            parts: 0,
        };
        let bytes = gives_bytes(alloc, b"ping".as_slice())?;
        self.call(SERVER, read, bytes);
        let put = Call::Put { chan: 1, id: 1 };
        self.call(SERVER, put, Answer::Gives(Reply::Done));
        Ok(())
    }

    // The server sends back, and the client is told.
    fn replies(&mut self, alloc: Global) -> Result<(), NoMemory> {
        let reply = Call::Send {
            chan: 1,
            bytes: text(alloc, b"pong".as_slice())?,
            parts: Items::new(alloc),
        };
        self.call(SERVER, reply, Answer::Gives(Reply::Count(4)));
        self.call(SERVER, waits_for(1), Answer::Waits);
        self.device(DeviceReply::SentMessage {
            src: REMOTE,
            dst: LOCAL,
            len: 4,
        });
        let bytes = gives_bytes(alloc, b"pong".as_slice())?;
        self.resume(CLIENT, bytes);
        Ok(())
    }

    // The client closes, and the server when it was told.
    fn closes(&mut self) {
        let close = Call::NsClose { conn: LOCAL };
        self.call(CLIENT, close, Answer::Gives(Reply::Done));
        self.call(CLIENT, Call::Finish, Answer::Gives(Reply::Done));
        self.device(DeviceReply::TookDisc {
            src: LOCAL,
            target: REMOTE,
        });
        self.resume(SERVER, event(1, Events::HUP));
        let close = Call::Close { handle: 1 };
        self.call(SERVER, close, Answer::Gives(Reply::Done));
        self.call(SERVER, Call::Finish, Answer::Gives(Reply::Done));
    }
}

// What a kernel tells of itself.
#[derive(Clone, Copy, PartialEq, Eq, Debug)]
struct Look {
    server: Option<ActorStatus>,
    client: Option<ActorStatus>,
    server_may_move: bool,
    client_may_move: bool,
    device_has_work: bool,
    idle_lawful: bool,
    whole: bool,
    facts: EndFacts,
}

// The place of the first step of the run that was other than it should; none where all 27 were so. At the end nothing is left.
fn request_and_reply<K: IpcKernel + Drop>(
    alloc: Global,
    kernel: K,
) -> Result<Option<u32>, NoMemory> {
    let mut play = Play::new(kernel);
    play.asks(alloc)?;
    play.accepts();
    play.requests(alloc)?;
    play.reads(alloc)?;
    play.replies(alloc)?;
    play.closes();
    play.looks(Look {
        server: Some(ActorStatus::Ended { start: 1 }),
        client: Some(ActorStatus::Ended { start: 1 }),
        server_may_move: false,
        client_may_move: false,
        device_has_work: false,
        idle_lawful: false,
        whole: true,
        facts: EndFacts {
            clock: 0,
            objects: 0,
            names: 0,
        },
    });
    Ok(play.other)
}

// Both run, and the device has its first word to send.
fn at_the_opening() -> Look {
    Look {
        server: Some(ActorStatus::Running { start: 1 }),
        client: Some(ActorStatus::Running { start: 1 }),
        server_may_move: false,
        client_may_move: false,
        device_has_work: true,
        idle_lawful: false,
        whole: false,
        facts: EndFacts {
            clock: 0,
            objects: 0,
            names: 0,
        },
    }
}

// Both wait, and the server may move. The port is named by its entry of the table and by the wait; the client's end by the
// bridge, and the server's end by the port.
fn with_a_request_pending() -> Look {
    Look {
        server: Some(ActorStatus::Waiting { start: 1 }),
        client: Some(ActorStatus::Waiting { start: 1 }),
        server_may_move: true,
        client_may_move: false,
        device_has_work: false,
        idle_lawful: false,
        whole: false,
        facts: EndFacts {
            clock: 0,
            objects: 3,
            names: 4,
        },
    }
}

// As before, for what the kernel tells of itself at two points of a run, and for events that are not lawful there.
fn looks_on_the_way<K: IpcKernel + Drop>(
    alloc: Global,
    kernel: K,
) -> Result<Option<u32>, NoMemory> {
    let mut play = Play::new(kernel);
    play.looks(at_the_opening());
    play.refuses(Event::Idle);
    play.asks(alloc)?;
    play.looks(with_a_request_pending());
    play.refuses(Event::Device);
    play.refuses(Event::Resume {
        actor: ActorId(CLIENT),
        start: 1,
    });
    let names = play.kernel.names(ObjId(0)) == Some(2);
    play.note(names);
    let events = play.kernel.events(ObjId(0)) == Some(Events::READY);
    play.note(events);
    let none = play.kernel.names(ObjId(3)).is_none() && play.kernel.events(ObjId(3)).is_none();
    play.note(none);
    Ok(play.other)
}

fn opened(alloc: Global) -> Result<ProgramKernel, NoMemory> {
    match read_scene(alloc, SCENE.as_bytes()) {
        Ok(scene) => kernel_of(alloc, &scene),
        Err(_) => Err(NoMemory),
    }
}

#[test]
fn a_request_and_its_reply(rt: HostRuntime) -> Result<(), Fail> {
    let kernel = opened(rt.alloc())?;
    assert_eq!(rt; request_and_reply(rt.alloc(), kernel)?, None);
    Ok(())
}

#[test]
fn what_a_kernel_tells(rt: HostRuntime) -> Result<(), Fail> {
    let kernel = opened(rt.alloc())?;
    assert_eq!(rt; looks_on_the_way(rt.alloc(), kernel)?, None);
    Ok(())
}
