//! Scenes that are read, and the first fault of others.

use kernel_values::{Call, INVALID_IPC_HANDLE, Scene, Turn};
use scene_reader::SceneKind::{
    BadByte, BadManifest, BadWords, NameTaken, NoHeader, OpenRepeat, OutOfPlace, TooMany,
    UnknownWord,
};
use scene_reader::{SceneFault, SceneKind, SceneRefused, read_scene};
use std::alloc::Global;
use std::process::Abort;
use std::test::Fail;

// The first fault of the text, if it is no scene.
fn fault_of(alloc: Global, text: &[u8]) -> Option<SceneFault> {
    if text.len() > 4_194_304 {
        return None;
    }
    match read_scene(alloc, text) {
        Err(SceneRefused::Fault(fault)) => Some(fault),
        _ => None,
    }
}

fn is_fault(alloc: Global, text: &[u8], kind: SceneKind, line: u32) -> bool {
    fault_of(alloc, text) == Some(SceneFault { kind, line })
}

#[test]
fn headers(rt: HostRuntime) {
    let alloc = rt.alloc();
    assert!(rt; is_fault(alloc, b"", NoHeader, 0));
    assert!(rt; is_fault(alloc, b"# no line\n \t\n\r\n", NoHeader, 0));
    assert!(rt; is_fault(alloc, b"\n scene 01", NoHeader, 2));
    assert!(rt; is_fault(alloc, b"scene 1 x", NoHeader, 1));
    assert!(rt; is_fault(alloc, b"scene 1\r\r", BadByte, 1));
    assert!(rt; is_fault(alloc, b"\x7fscene", BadByte, 1));
    assert!(rt; is_fault(alloc, b"#\x01\n\tscene  1 \r\nscene 2", OutOfPlace, 3));
}

// On each line the first of the kinds counts.
#[test]
fn kinds_that_meet(rt: HostRuntime) {
    let alloc = rt.alloc();
    assert!(rt; is_fault(alloc, b"scene 1\njump \x80", BadByte, 2));
    assert!(rt; is_fault(alloc, b"scene 1\nclient c\nnpeek 0 hex:", UnknownWord, 3));
    assert!(rt; is_fault(alloc, b"scene 1\nthread x", OutOfPlace, 2));
    assert!(rt; is_fault(alloc, b"scene 1\napp a\nclose 0", OutOfPlace, 3));
    assert!(rt; is_fault(alloc, b"scene 1\napp A {}", BadWords, 2));
    assert!(rt; is_fault(alloc, b"scene 1\napp a\napp a {}", BadManifest, 3));
    assert!(rt; is_fault(alloc, b"scene 1\napp a\napp a", NameTaken, 3));
    assert!(rt; is_fault(alloc, b"scene 1\nturns\n0 D I\nturns", BadWords, 4));
}

#[test]
fn words(rt: HostRuntime) {
    let alloc = rt.alloc();
    assert!(rt;
        is_fault(
            alloc,
            b"scene 1\napp a\nthread\nport p 1 1 ns+ta",
            BadWords,
            4
        )
    );
    assert!(rt; is_fault(alloc, b"scene 1\napp a\nthread\naccept 0 as", BadWords, 4));
    assert!(rt;
        is_fault(
            alloc,
            b"scene 1\napp a\nthread\nclose 4294967296",
            BadWords,
            4
        )
    );
    assert!(rt;
        is_fault(
            alloc,
            b"scene 1\napp a\nthread\nread 0 1 0 4097 0",
            BadWords,
            4
        )
    );
    assert!(rt; is_fault(alloc, b"scene 1\napp a\nthread\nadd 0 1 32 0", BadWords, 4));
    assert!(rt; is_fault(alloc, b"scene 1\napp a\nthread\nsend 0 hex:0", BadWords, 4));
    assert!(rt;
        is_fault(
            alloc,
            b"scene 1\napp a\nthread\nsend 0 fill:1:256",
            BadWords,
            4
        )
    );
}

#[test]
fn repeats(rt: HostRuntime) {
    let alloc = rt.alloc();
    assert!(rt;
        is_fault(
            alloc,
            b"scene 1\napp a\nthread\nrepeat 2\nfoo\nend x",
            OpenRepeat,
            4
        )
    );
    assert!(rt;
        is_fault(
            alloc,
            b"scene 1\napp a\nthread\nrepeat 2\nfoo\nend",
            UnknownWord,
            5
        )
    );
    assert!(rt;
        is_fault(
            alloc,
            b"scene 1\napp a\nthread\nrepeat 8193\nset\nset\nend",
            TooMany,
            7
        )
    );
    assert!(rt;
        is_fault(
            alloc,
            b"scene 1\napp a\nthread\nrepeat 257\nsend 0 fill:65536:7\nend",
            TooMany,
            6
        )
    );
    assert!(rt;
        is_fault(
            alloc,
            b"scene 1\napp a\nthread\nthread\nthread\nthread\nthread",
            TooMany,
            7
        )
    );
}

// Where lines of applications and of clients may stand.
#[test]
fn places(rt: HostRuntime) {
    let alloc = rt.alloc();
    assert!(rt; is_fault(alloc, b"scene 1\nclient c\nthread x", OutOfPlace, 3));
    assert!(rt;
        is_fault(
            alloc,
            b"scene 1\napp a\nthread\nclient c\nset",
            OutOfPlace,
            5
        )
    );
    assert!(rt; is_fault(alloc, b"scene 1\napp a\nthread\nnclose 0", OutOfPlace, 4));
    assert!(rt;
        is_fault(
            alloc,
            b"scene 1\nclient c\nrepeat 2\nclient d\nend",
            OutOfPlace,
            4
        )
    );
    assert!(rt;
        is_fault(
            alloc,
            b"scene 1\nclient c\nrepeat 2\nnclose 0",
            OpenRepeat,
            3
        )
    );
    assert!(rt;
        is_fault(
            alloc,
            b"scene 1\napp a\nclient c\napp b\nqueues 2",
            OutOfPlace,
            5
        )
    );
    assert!(rt; is_fault(alloc, b"scene 1\nqueues 2\nqueues 2", OutOfPlace, 3));
    assert!(rt; is_fault(alloc, b"scene 1\nqueues 3", BadWords, 2));
    assert!(rt; is_fault(alloc, b"scene 1\nqueues 512", BadWords, 2));
}

// The names of clients, and how many there may be.
#[test]
fn client_names(rt: HostRuntime) {
    let alloc = rt.alloc();
    assert!(rt; is_fault(alloc, b"scene 1\nclient C", BadWords, 2));
    assert!(rt; is_fault(alloc, b"scene 1\nclient c d", BadWords, 2));
    assert!(rt; is_fault(alloc, b"scene 1\napp a\nclient a", NameTaken, 3));
    assert!(rt; is_fault(alloc, b"scene 1\nclient idle\napp idle", NameTaken, 3));
    assert!(rt;
        is_fault(
            alloc,
            b"scene 1\nclient a\nclient b\nclient c\nclient d\nclient e\nclient f\nclient g\nclient h\nclient i",
            TooMany,
            10
        )
    );
    assert!(rt;
        is_fault(
            alloc,
            b"scene 1\nclient c\nrepeat 257\nnsend 0 fill:65536:7\nend",
            TooMany,
            5
        )
    );
}

// The clients of the scene of the next test, each with a script of its own.
fn check_clients(rt: &impl Abort, scene: &Scene) -> Result<(), Fail> {
    assert_eq!(rt; scene.apps.len(), 2);
    assert_eq!(rt; scene.queue, 256);
    assert_eq!(rt; scene.clients.len(), 2);
    assert_eq!(rt; scene.turns.as_slice(), [Turn::Device].as_slice());
    let client = scene.clients.get(0).ok_or("the first client")?;
    assert_eq!(rt; client.name.as_slice(), b"c".as_slice());
    assert_eq!(rt; client.script.as_slice().len(), 3);
    let sends = client.script.as_slice().get(2).ok_or("the last call")?;
    let Call::NsSend { conn, bytes } = &sends.call else {
        return Err("no send".into());
    };
    assert_eq!(rt; *conn, INVALID_IPC_HANDLE);
    assert_eq!(rt; bytes.as_slice(), b"hi".as_slice());
    assert_eq!(rt; sends.reads.len(), 1);
    let other = scene.clients.get(1).ok_or("the second client")?;
    assert_eq!(rt; other.script.as_slice().len(), 2);
    Ok(())
}

#[test]
fn clients_come_after_the_applications(rt: HostRuntime) -> Result<(), Fail> {
    let text =
        b"scene 1\napp a\nthread\nset\nqueues 256\nset\nclient c\nrepeat 2\nnconnect p as k\nend\nnsend $k text:hi\nclient device\nnrecv 7 -1\nnclose 7\napp b\nturns\nD";
    let scene = read_scene(rt.alloc(), text)?;
    check_clients(&rt, &scene)
}

// Registers are numbered as they are first named, and a repeat stands as often as it says.
fn check_repeat(rt: &impl Abort, scene: &Scene) -> Result<(), Fail> {
    assert_eq!(rt; scene.apps.len(), 2);
    assert_eq!(rt; scene.queue, 16);
    assert_eq!(rt;
        scene.turns.as_slice(),
        [Turn::Actor(1), Turn::Device, Turn::Idle].as_slice()
    );
    let app = scene.apps.get(0).ok_or("the first application")?;
    assert_eq!(rt; app.manifest.uuid, 1);
    let script = app.threads.get(0).ok_or("its thread")?;
    let [set, first, second] = script.as_slice() else {
        return Err("three calls".into());
    };
    assert!(rt; matches!(set.call, Call::SetCreate));
    for command in [first, second] {
        let Call::Send { chan, bytes, parts } = &command.call else {
            return Err("no send".into());
        };
        assert_eq!(rt; *chan, INVALID_IPC_HANDLE);
        assert_eq!(rt; bytes.as_slice(), b"hi".as_slice());
        assert_eq!(rt; parts.as_slice(), [7, INVALID_IPC_HANDLE].as_slice());
        assert_eq!(rt; command.reads.len(), 2);
    }
    Ok(())
}

#[test]
fn a_repeat_stands_as_often_as_it_says(rt: HostRuntime) -> Result<(), Fail> {
    let text =
        b"scene 1\napp a\nthread\nset as s\nrepeat 2\nsend $s text:hi 7 $t\nend\napp b\nturns\n1 D\nI";
    let scene = read_scene(rt.alloc(), text)?;
    check_repeat(&rt, &scene)
}
