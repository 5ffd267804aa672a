//! One scene on the plain kernel, call by call.

use crate::play::{Play, text};
use kernel_types::IpcKernel;
use kernel_types::values::{Answer, Call, ConnectFlags, Errno, NoMemory, PortFlags, Reply};
use plain_kernel::PlainKernel;
use scene_reader::read_scene;
use std::alloc::Global;
use std::test::Fail;

// One application of two threads, whose calls come from the test.
const SCENE: &str =
    "scene 1\napp svc {\"uuid\":\"00000000-0000-0000-0000-000000000007\"}\nthread\nthread\n";

fn done() -> Answer {
    Answer::Gives(Reply::Done)
}

// The place of the first call that was answered otherwise than it should; none where all seven were answered so, and the run
// is whole with no object left.
fn connects_accepts_and_closes_on<K: IpcKernel + Drop>(
    alloc: Global,
    kernel: K,
) -> Result<Option<u32>, NoMemory> {
    let mut play = Play::new(kernel);
    let port = Call::PortCreate {
        path: text(alloc, b"a.b".as_slice())?,
        bufs: 2,
        size: 16,
        flags: PortFlags::TA,
    };
    play.call(0, port, Answer::Gives(Reply::Handle(0)));
    let connect = Call::Connect {
        path: text(alloc, b"a.b".as_slice())?,
        flags: ConnectFlags::ASYNC,
    };
    play.call(1, connect, Answer::Gives(Reply::Handle(1)));
    let accepted = Reply::Accepted { handle: 2, uuid: 7 };
    play.call(0, Call::Accept { port: 0 }, Answer::Gives(accepted));
    play.call(0, Call::Close { handle: 1 }, done());
    let bad_handle = Answer::Refuses(Errno::BadHandle);
    play.call(0, Call::Close { handle: 1 }, bad_handle);
    play.call(1, Call::Finish, done());
    play.call(0, Call::Finish, done());
    let is_over = play.kernel.whole() && play.kernel.end_facts().objects == 0;
    play.note(is_over);
    Ok(play.other)
}

fn opened(alloc: Global) -> Result<PlainKernel, NoMemory> {
    match read_scene(alloc, SCENE.as_bytes()) {
        Ok(scene) => PlainKernel::new(alloc, &scene),
        Err(_) => Err(NoMemory),
    }
}

#[test]
fn connects_accepts_and_closes(rt: HostRuntime) -> Result<(), Fail> {
    let kernel = opened(rt.alloc())?;
    assert_eq!(rt; connects_accepts_and_closes_on(rt.alloc(), kernel)?, None);
    Ok(())
}
